//! Texts computed from the definitions.
pub mod entries;
pub mod faults;
pub mod tokens;
