//! The tests of the public calls of `type_data`, `zone_words`, `words_print` and `words_command`.
#![tactic(auto)]

#[cfg(test)]
mod tests;
