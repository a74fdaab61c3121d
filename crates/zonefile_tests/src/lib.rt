//! The tests of the public calls of `zonefile_command`.
#![tactic(auto)]

#[cfg(test)]
mod tests;
