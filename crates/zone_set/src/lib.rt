//! A zone as the set of its records in canonical order: records are listed and settled at once, or
//! added one by one, and the first that can't stand with those before it is refused (RFC 1035 5.2,
//! RFC 2181 5, RFC 4034 6).
#![tactic(auto)]

mod ahead;
mod builder;
mod bulk;
mod distinct;
mod entry;
mod hint;
mod kept_list;
mod kept_records;
mod keys;
mod list;
mod messages;
mod offered;
mod order;
mod owner;
mod places;
mod put;
mod records;
mod repeats;
mod sets;
mod stored;
mod tie;
mod unordered;
mod zone;

pub use list::ZoneList;
pub use messages::message_len;
pub use offered::canonical_order;
pub use records::Records;
pub use sets::ZoneBuilder;
pub use unordered::UnorderedRecords;
pub use zone::Zone;
pub use zone_rdata::RrRef;
