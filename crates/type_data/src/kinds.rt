//! The kinds of fields, a file each: how the octets of each are read from items, and how they are
//! printed.
mod address;
mod base64_groups;
mod base64_text;
mod bitmap;
mod eui;
mod gateway;
mod hash;
mod hexadecimal;
mod host_identity;
mod joined;
mod location;
mod name;
mod node_id;
mod number;
mod prefixes;
mod salt;
mod strings;
mod tag;
mod time;
mod types;
mod value;
mod word;

pub(crate) use address::{Version, len_of, print_address, push_address, read_address};
pub(crate) use base64_text::{print_base64, print_base64_item, push_decoded, read_base64};
pub(crate) use eui::{print_eui, read_eui48, read_eui64};
pub(crate) use gateway::{
    print_address_type, print_discovery, print_no_address, read_address_type, read_discovery,
    read_no_address, read_nothing,
};
pub(crate) use hash::{print_hash, read_hash};
pub(crate) use hexadecimal::{print_hex, read_counted_digits, read_hex};
pub(crate) use host_identity::{
    lengths_first, print_host_identity_tag, print_public_key, read_public_key,
};
pub(crate) use location::{print_location, read_location};
pub(crate) use name::{print_name, read_name};
pub(crate) use node_id::{print_node_id, read_node_id};
pub(crate) use number::{
    print_decimal, print_u8, print_u16, print_u32, read_u8, read_u16, read_u32,
};
pub(crate) use prefixes::{print_prefixes, read_prefixes};
pub(crate) use salt::{print_salt, read_salt};
pub(crate) use strings::{
    print_quoted, print_string, print_strings, print_unit, read_first_string, read_perhaps_string,
    read_strings,
};
pub(crate) use tag::{print_tag, read_tag};
pub(crate) use time::{print_time, read_time};
pub(crate) use types::{print_perhaps_types, print_types, read_perhaps_types, read_types};
pub(crate) use value::{print_value_item, read_first_quoted_value, read_first_value};
pub(crate) use word::{
    print_algorithm, print_certificate_type, print_notify_scheme, print_type, read_algorithm,
    read_certificate_type, read_notify_scheme, read_type,
};
