//! The orders of the command line of `zonewords`, and what a run of one reads, writes and returns.
#![tactic(auto)]

mod carry_out;
mod command;
mod failure;
mod filter;
mod filtering;
mod last_line;
mod order;
mod program;

pub use command_input::LineFault;
pub use order::{Order, order_after_name, order_of};
pub use program::{refuse, run};
