//! Canonical texts and differences of them for people: the records of further types with the words
//! that are printed for their data in place of the generic form (RFC 3597 5).
#![tactic(auto)]

mod canonical_head;
mod class_stated;
mod generic_line;
pub mod laws;
mod line_printer;
mod words_printer;

pub use line_printer::print_line;
pub use words_printer::{WordsPrinter, print_words};
