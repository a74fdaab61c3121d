//! Names in record data: where they are, type by type, and data with its names in lower case.
#![tactic(auto)]

mod lowering;
mod names;
mod table;

pub use lowering::{push_lowered, stays_low};
pub use table::{FoldedTypes, may_have_names};
