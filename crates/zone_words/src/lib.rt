//! Master files rewritten: a record of a further type that has its RDATA in presentation format gets
//! it in the generic form (RFC 1035 5, RFC 3597 5). All else stays as it is. `type_data` reads the
//! RDATA.
#![tactic(auto)]

mod entry_form;
mod entry_writer;
mod fed_writer;
mod further;
mod inherited;
mod known_items;
pub mod laws;
mod refusal;
mod rewriter;
mod turn;
mod writing;

pub use refusal::{Refusal, Refusals};
pub use rewriter::{Rewriter, Rewritten, rewrite_file};
pub use writing::push_generic;
