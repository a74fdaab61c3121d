//! Zones of master files and of captured zone transfers: one canonical text of each, the comparison
//! of two, the line of a refusal, and the laws of all.
#![tactic(auto)]

mod comparison;
mod engine;
pub mod examples;
mod explanation;
mod fed;
mod file_loader;
mod form;
mod input;
pub mod laws;
mod line;
mod loader;
mod octets;
pub mod status;

pub use comparison::{CompareError, Verdict, Which, compare, compare_bytes, first_difference};
pub use engine::{accepted_bytes, accepted_zone, accepted_zone_within, normalise, normalise_bytes};
pub use explanation::{
    OUT_OF_MEMORY, READ_FAILED, WRITE_FAILED, explain, explain_line, refusal_line,
};
pub use file_loader::FileLoader;
pub use form::Form;
pub use line::{tell, tell_refusal, write_line, write_refusal};
pub use octets::{OctetReader, OctetSlice, PIECE, read_piece, zeros};
