//! The tests of the public calls of the libraries that read, keep and print single records.
#![tactic(auto)]

#[cfg(test)]
mod tests;
