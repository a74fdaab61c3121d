//! The fields of a type's data, of which some depend on the items before them.
ghost use Rattle.std.specs.Prelude.{◌≡◌, ◌==◌, map, min, option_map};
ghost use Rattle.zone_rdata.specs.Item.{raw};
ghost use Rattle.type_data.specs.DataItem.{given};
ghost use Rattle.type_data.specs.Kinds.Number.{stated_number};
ghost use Rattle.type_data.specs.Table.{address_kind, amtrelay_by, amtrelay_fields, field_of, hip_fields, ipseckey_by, ipseckey_fields, is_one, key_kind, number_at};

use crate::data_item::DataItem;
use crate::field::BareKind::{
    AddressType, Discovery, HostIdentityTag, Ipv4, Ipv6, Name, NoAddress, PublicKey, U8,
};
use crate::field::FieldKind::{Bare, Base64, Each, Nothing};
use crate::field::{BareKind, Field, FieldKind};
use zone_rdata::{Item, decimal_of};

/// The fields of the data of a type.
#[derive(Clone, Copy, Debug)]
pub enum Fields {
    /// The same for all its data.
    Same(&'static [Field]),
    /// Those of IPSECKEY: its gateway depends on the type before it, and whether there is a key on
    /// the algorithm (RFC 4025 2).
    Ipseckey,
    /// Those of AMTRELAY: its relay depends on the type before it, of which the octet has a bit of
    /// the item before that (RFC 8777 4.2).
    Amtrelay,
    /// Those of HIP, the same for all its data: the lengths of its tag and its key stand before both
    /// (RFC 8005 5).
    Hip,
}

/// The fields of IPSECKEY data with these items.
pub(crate) fn ipseckey_fields(items: &[DataItem]) -> [Field; 5]
    ensures { map field_of result ≡ ipseckey_fields (map given items.now) }
{
    ipseckey_by(number_at(items, 1), number_at(items, 2))
}

/// The fields of IPSECKEY data by the type of its gateway and the algorithm of its key.
pub(crate) fn ipseckey_by(gateway: Option<u64>, algorithm: Option<u64>) -> [Field; 5]
    ensures { map field_of result ≡ ipseckey_by gateway algorithm }
{
    let gateway = address_kind(gateway);
    let key = key_kind(algorithm);
    [
        Field("precedence", Bare(U8)),
        Field("gateway type", Bare(AddressType(false))),
        Field("algorithm", Bare(U8)),
        Field("gateway", Bare(gateway)),
        Field("public key", key),
    ]
}

/// The fields of AMTRELAY data with these items.
pub(crate) fn amtrelay_fields(items: &[DataItem]) -> [Field; 4]
    ensures { map field_of result ≡ amtrelay_fields (map given items.now) }
{
    amtrelay_by(number_at(items, 1), number_at(items, 2))
}

/// The fields of AMTRELAY data by whether its discovery is optional, 1 or 0, and the type of its
/// relay.
pub(crate) fn amtrelay_by(discovery: Option<u64>, relay: Option<u64>) -> [Field; 4]
    ensures { map field_of result ≡ amtrelay_by discovery relay }
{
    let optional = is_one(discovery);
    let relay = address_kind(relay);
    [
        Field("precedence", Bare(U8)),
        Field("discovery optional", Bare(Discovery)),
        Field("type", Bare(AddressType(optional))),
        Field("relay", Bare(relay)),
    ]
}

/// The fields of HIP data.
pub(crate) fn hip_fields() -> [Field; 4]
    ensures { map field_of result ≡ hip_fields }
{
    [
        Field("pk algorithm", Bare(U8)),
        Field("hit", Bare(HostIdentityTag)),
        Field("public key", Bare(PublicKey)),
        Field("rendezvous servers", Each(Name)),
    ]
}

/// The number that the item at a place states in digits, or 2 ^ 32 in its place where it is
/// greater.
fn number_at(items: &[DataItem], place: usize) -> Option<u64>
    ensures { result ≡ option_map (min 4294967296) (number_at (map given items.now) place) }
{
    match items.get(place) {
        Some(found) => number_of_item(found.item),
        None => None,
    }
}

/// The number that an item states in digits, or 2 ^ 32 in its place where it is greater.
#[tactic(auto, using(crate::proofs::OfKinds::Gateway::Fields::number_read))]
fn number_of_item(item: Item) -> Option<u64>
    ensures { result ≡ option_map (min 4294967296) (stated_number (raw item.entry)) }
{
    match item {
        Item::Bare(text) => decimal_of(text),
        Item::Quoted(_) => None,
    }
}

/// What an address of a type is. Where there is no such type, the field of the type fails first.
fn address_kind(number: Option<u64>) -> BareKind
    ensures { result ≡ address_kind number }
{
    match number {
        Some(0) => NoAddress,
        Some(1) => Ipv4,
        Some(2) => Ipv6,
        _ => Name,
    }
}

/// The key of an algorithm, of which 0 is none.
fn key_kind(number: Option<u64>) -> FieldKind
    ensures { result ≡ key_kind number }
{
    match number {
        Some(0) => Nothing,
        _ => Base64,
    }
}

/// Whether a number is 1.
fn is_one(number: Option<u64>) -> bool
    ensures { result ≡ is_one number }
{
    match number {
        Some(number) => number == 1,
        None => false,
    }
}
