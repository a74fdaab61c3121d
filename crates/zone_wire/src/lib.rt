//! Reads DNS messages and zone transfers, whole or in pieces: names with their pointers, records,
//! and the first fault (RFC 1035 4.1, RFC 5936).
#![tactic(auto)]

mod answers;
mod cursor;
mod data;
pub mod examples;
mod framer;
mod header;
mod labels;
pub mod laws;
mod lent;
mod message;
mod name;
mod number;
mod raw;
mod record;
mod spot;
mod structure;
mod ticks;
mod transfer;
mod transfer_source;

pub use answers::Answers;
pub use message::{Message, Question};
pub use name::{Decoded, name_at};
pub use raw::RawRr;
pub use transfer_source::{TransferSource, read_transfer};
