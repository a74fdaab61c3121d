//! Writes the canonical text of a zone: a line for each record, in canonical order, with names
//! absolute and in lower case (RFC 1035 5, RFC 4034 6).
#![tactic(auto)]

mod ghost_octets;
pub mod laws;
mod line;
mod line_buffer;
mod octet_vec;
mod print;
mod text_buffer;
mod write;

pub use line::push_line;
pub use octet_vec::OctetVec;
pub use print::{
    TEXT_LIMIT, canon_len, push_zone, push_zone_within, text_fits, write_zone, write_zone_within,
};
pub use write::{OctetWriter, write_octets};
