//! Laws over the definitions alone.
pub mod entry;
pub mod file;
pub mod given_records;
pub mod line;
pub mod tokens;
