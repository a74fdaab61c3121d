//! The orders of the command line of `zonedigest`, and what a run of one reads, writes and returns.
#![tactic(auto)]

mod answer;
mod command;
pub mod laws;
mod lines;
mod notation;
mod order;
mod program;

pub use command_input::{LineFault, refuse};
pub use notation::Notation;
pub use order::{Order, order_after_name, order_of};
pub use program::run;
