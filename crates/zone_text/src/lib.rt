//! Reads master files, whole or in pieces: the records that they state, each with its line, and the
//! first fault (RFC 1035 5, RFC 2308 4, RFC 3597 5).
#![tactic(auto)]

mod ended;
mod entry;
pub mod examples;
mod feeds;
mod items;
pub mod laws;
mod open_entry;
mod parser_state;
mod parts;
mod reader;
mod splitter;
mod statements;
mod stops;
mod text_source;
mod token;
mod until;
mod walk;
mod words;

pub use entry::{FirstEntry, entry_items, first_entry, first_token};
pub use feeds::line_feeds;
pub use items::{MOST_ITEMS, is_blank};
pub use open_entry::{EntryState, OpenEntry, Taken};
pub use parts::{RecordParts, record_parts, ttl_of};
pub use reader::read_file;
pub use statements::{Directive, Statement, statement_of};
pub use text_source::TextSource;
pub use words::split_bare;
