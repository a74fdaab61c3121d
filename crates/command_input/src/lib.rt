//! What the command lines of programs that read zones have in common: the origin of an input, why
//! arguments are no order, and what is printed if a run stops.
#![tactic(auto)]

mod line_fault;
mod origin;
mod telling;

pub use line_fault::LineFault;
pub use origin::origin_of;
pub use telling::{DIFFERENT, answer_line, answer_verdict, refuse, refuse_saying, report};
pub use zone_engine::status;
