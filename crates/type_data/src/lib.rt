//! The RDATA of the further types, for which `zone_rdata` has no layout: read from presentation
//! format into octets, and printed (RFC 1035 5). `kinds` has a file or a folder for each kind of
//! field, `parameters` the parameters of SVCB and HTTPS, and `table` a row for each type.
#![tactic(auto)]

mod cut;
mod data;
mod data_item;
mod fault;
mod fault_text;
mod field;
mod fields;
mod kinds;
pub mod laws;
mod mnemonics;
mod parameters;
mod printed_data;
mod printed_field;
mod table;
mod taking;
mod unescaped;
mod unprinted;

pub use data::{DataFailing, read_data};
pub use data_item::DataItem;
pub use fault::{WordsFailing, WordsFault};
pub use field::{BareKind, Field, FieldKind};
pub use fields::Fields;
pub use mnemonics::{certificate_mnemonic, type_mnemonic};
pub use printed_data::print_data;
pub use table::{FurtherType, further_type_of};
pub use unprinted::Unprinted;
