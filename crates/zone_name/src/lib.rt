//! Domain names: read from text, compared, ordered, taken apart and printed (RFC 1035, RFC 4034,
//! RFC 4343).
#![tactic(auto)]

mod builder;
mod cased;
mod display;
mod escape;
mod fault;
mod formatter_sink;
mod labels;
mod lanes;
pub mod laws;
mod lent;
mod limits;
mod name;
mod octets;
mod order;
mod reading;
mod shown;
mod sink;
mod text;

pub use builder::NameBuilder;
pub use cased::CasedName;
pub use escape::{NextUnit, decimal_escape, escape_at, next_unit};
pub use fault::NameFault;
pub use formatter_sink::FormatterSink;
pub use labels::Labels;
pub use lent::{NameRef, push_label};
pub use limits::{MAX_LABEL_LEN, MAX_NAME_LEN};
pub use name::Name;
pub use sink::{FixedBuffer, Room, Sink};
