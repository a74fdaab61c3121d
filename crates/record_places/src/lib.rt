//! For each record of a zone the line of the entry that first states it.
#![tactic(auto)]

mod first_lines;
pub mod laws;
mod placed_zone;
mod sorted_records;

pub use first_lines::record_lines;
pub use placed_zone::{PlacedZone, place_records};
