//! The difference of two zones: the records that go and those that come, in canonical order.
#![tactic(auto)]

mod changes;
mod folded_sets;
mod lacking;
pub mod laws;
mod name_case;
mod only_in;
mod order;
mod rrset;
mod write;

pub use lacking::Lacking;
pub use name_case::NameCase;
pub use write::write_difference;
