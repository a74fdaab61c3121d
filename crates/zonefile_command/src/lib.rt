//! The orders of the command line of `zonefile`, and what a run of one reads, writes and returns.
#![tactic(auto)]

mod checking;
mod command;
mod differing;
mod expanding;
mod files;
mod input;
mod no_order;
mod notation;
mod order;
mod presenting;
mod program;
mod refusing;
mod telling;

pub use files::ZoneFiles;
pub use no_order::NoOrder;
pub use notation::Notation;
pub use order::{Action, DifferenceForm, FileSource, Order, order_after_name, order_of};
pub use program::run;
pub use refusing::refuse;
