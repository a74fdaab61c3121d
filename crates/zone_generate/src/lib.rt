//! The lines that a `$GENERATE` entry of a master file stands for, as BIND has it.
#![tactic(auto)]

mod entry;
mod failing;
mod generated;
pub mod laws;
mod lines;
mod modifier;
mod number;
mod one_line;
mod range;
mod split;
mod template;

pub use failing::{GenerateFailing, GenerateFault, LineFailing, TemplateFailing};
pub use generated::{Generated, LinesState, NextValue};
pub use modifier::{Base, Modifier, modifier_in};
pub use number::push_number;
pub use range::{Range, RangeFault, range_in};
pub use template::expand;
