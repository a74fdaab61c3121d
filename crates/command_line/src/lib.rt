//! What the arguments of a program call, by `clap`: a program's commands as a table, and a call of
//! one of them with what was found for its arguments, or what is printed instead.
#![tactic(auto)]

mod call;
mod calling;
mod given;
mod no_call;
mod program;
mod reading;

pub use call::Call;
pub use calling::{after_name, call_of};
pub use given::given_words;
pub use no_call::NoCall;
pub use program::{Argument, ArgumentKind, Program, ProgramCommand};

/// The version of the programs, and what one of them prints behind it.
#[macro_export]
macro_rules! version {
    ($($behind:literal)?) => {
        concat!("0.1.0" $(, $behind)?)
    };
}
