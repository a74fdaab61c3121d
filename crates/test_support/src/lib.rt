//! What tests have in common: tables of rows, what a failing test shows, messages in a notation of
//! words, how records are shown, devices that fail, and runs of a program. It is tested by its use
//! alone.
#![tactic(auto)]

mod comparing;
mod devices;
mod notation;
mod records;
mod runs;
mod tables;
mod writing;

pub use comparing::{check, check_octets, check_same};
pub use devices::{BROKEN, Narrow, Supply};
pub use notation::{message_of, octets_of, stream_of};
pub use records::{line_of, push_fault, push_numbers, rooted};
pub use runs::{
    Program, Run, check_narrow, had_memory, push_run, push_run_of, run_of, supplied, told_by,
    words_of,
};
pub use tables::{Case, Question, check_answer, check_lines, check_rows, check_table, parted};
pub use writing::{push_hex, push_text, push_words, roomy};
