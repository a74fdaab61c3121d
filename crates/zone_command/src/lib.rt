//! The orders of a command line, and what a run of one reads, writes and returns.
#![tactic(auto)]

mod command;
mod order;
mod program;

pub use command_input::{LineFault, refuse};
pub use order::{Order, Source, order_after_name, order_of};
pub use program::run;
