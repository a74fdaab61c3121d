//! The tests of the public calls of the libraries.
#![tactic(auto)]

#[cfg(test)]
mod tests;
