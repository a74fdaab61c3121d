//! The engine for callers in C (docs/library/c.md). Each export takes octets and hands out a text:
//! one that it allocates and the caller frees, or one in the caller's own room.
//!
//! No function keeps anything after its call, and none has a `requires`. A caller keeps to what the
//! types say: a pointer and a length are those of readable octets, and a `&mut` leads to a place
//! that is the caller's alone.
#![tactic(auto)]

mod answer;
mod comparing;
mod differing;
mod digests;
mod expanding;
mod file_table;
mod files;
mod given;
mod normalising;
mod records;
mod reply;
mod rewriting;
mod zone;

pub use answer::{Answer, zonenorm_abi};
pub use comparing::zonenorm_compare;
pub use differing::zonenorm_diff;
pub use digests::{zonenorm_digest, zonenorm_verify};
pub use expanding::zonenorm_expand;
pub use given::Given;
pub use normalising::{zonenorm_normalise, zonenorm_normalise_into};
pub use records::{zonenorm_records, zonenorm_records_into};
pub use rewriting::{zonenorm_generic, zonenorm_words};
