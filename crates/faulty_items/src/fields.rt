//! The fields of a type's data, each by itself.
ghost use Rattle.std.specs.Prelude.{◌≡◌, ◌∷◌, [], List, codes, drop, length, map, min, option_map, take};
ghost use Rattle.zone_rdata.specs.Item.{raw};
ghost use Rattle.type_data.specs.DataItem.{TouchingItem, given};
ghost use Rattle.type_data.specs.Kinds.Number.{stated_number};
ghost use Rattle.type_data.specs.declared.field.BareKind.TheVariants as bare_kinds;
ghost use Rattle.type_data.specs.declared.field.FieldKind.TheVariants as kinds;
ghost use Rattle.type_data.specs.Table.{address_kind, amtrelay_by, field, field_of, fields_in, ipseckey_by, is_one, key_kind, number_at, of_code};

use type_data::BareKind::{
    AddressType, Discovery, HostIdentityTag, Ipv4, Ipv6, Name, NoAddress, PublicKey, U8,
};
use type_data::FieldKind::{Bare, Base64, Each, Nothing};
use type_data::{DataItem, Field, Fields};
use zone_rdata::{Item, decimal_of};

static PRECEDENCE: &[Field] = &[Field("precedence", Bare(U8))];

static GATEWAY_TYPE: &[Field] = &[Field("gateway type", Bare(AddressType(false)))];

static ALGORITHM: &[Field] = &[Field("algorithm", Bare(U8))];

static NO_GATEWAY: &[Field] = &[Field("gateway", Bare(NoAddress))];

static GATEWAY_OF_4: &[Field] = &[Field("gateway", Bare(Ipv4))];

static GATEWAY_OF_16: &[Field] = &[Field("gateway", Bare(Ipv6))];

static NAMED_GATEWAY: &[Field] = &[Field("gateway", Bare(Name))];

static NO_KEY: &[Field] = &[Field("public key", Nothing)];

static KEY: &[Field] = &[Field("public key", Base64)];

static DISCOVERY: &[Field] = &[Field("discovery optional", Bare(Discovery))];

static OPTIONAL_TYPE: &[Field] = &[Field("type", Bare(AddressType(true)))];

static TYPE: &[Field] = &[Field("type", Bare(AddressType(false)))];

static NO_RELAY: &[Field] = &[Field("relay", Bare(NoAddress))];

static RELAY_OF_4: &[Field] = &[Field("relay", Bare(Ipv4))];

static RELAY_OF_16: &[Field] = &[Field("relay", Bare(Ipv6))];

static NAMED_RELAY: &[Field] = &[Field("relay", Bare(Name))];

static HIP: &[Field] = &[
    Field("pk algorithm", Bare(U8)),
    Field("hit", Bare(HostIdentityTag)),
    Field("public key", Bare(PublicKey)),
    Field("rendezvous servers", Each(Name)),
];

/// The number that the item at a place states in digits, or 2 ^ 32 in its place where it is
/// greater.
fn number_at(items: &[DataItem], place: usize) -> Option<u64>
    ensures { result ≡ option_map (min 4294967296) (number_at (map given items.now) place) }
{
    match items.get(place) {
        Some(found) => number_of_item(found.item),
        None => None,
    }
}

/// The number that an item states in digits, or 2 ^ 32 in its place where it is greater.
#[tactic(auto, using(type_data::proofs::OfKinds::Gateway::Fields::number_read))]
fn number_of_item(item: Item) -> Option<u64>
    ensures { result ≡ option_map (min 4294967296) (stated_number (raw item.entry)) }
{
    match item {
        Item::Bare(text) => decimal_of(text),
        Item::Quoted(_) => None,
    }
}

/// The gateway of IPSECKEY data by its type (RFC 4025 2.5).
fn gateway_of(number: Option<u64>) -> &'static [Field]
    ensures { map field_of result.now ≡ field (codes "gateway") (kinds.Bare (address_kind number)) ∷ [] }
{
    match number {
        Some(0) => NO_GATEWAY,
        Some(1) => GATEWAY_OF_4,
        Some(2) => GATEWAY_OF_16,
        _ => NAMED_GATEWAY,
    }
}

/// The key of IPSECKEY data by its algorithm (RFC 4025 2.6).
fn key_of(number: Option<u64>) -> &'static [Field]
    ensures { map field_of result.now ≡ field (codes "public key") (key_kind number) ∷ [] }
{
    match number {
        Some(0) => NO_KEY,
        _ => KEY,
    }
}

/// The type of the relay of AMTRELAY data by whether its discovery is optional (RFC 8777 4.2.3).
fn relay_type_of(discovery: Option<u64>) -> &'static [Field]
    ensures { map field_of result.now
        ≡ field (codes "type") (kinds.Bare (bare_kinds.AddressType (is_one discovery))) ∷ [] }
{
    match discovery {
        Some(1) => OPTIONAL_TYPE,
        _ => TYPE,
    }
}

/// The relay of AMTRELAY data by its type (RFC 8777 4.2.4).
fn relay_of(number: Option<u64>) -> &'static [Field]
    ensures { map field_of result.now ≡ field (codes "relay") (kinds.Bare (address_kind number)) ∷ [] }
{
    match number {
        Some(0) => NO_RELAY,
        Some(1) => RELAY_OF_4,
        Some(2) => RELAY_OF_16,
        _ => NAMED_RELAY,
    }
}

/// The field of IPSECKEY data at a place, from 0. None past the last.
fn ipseckey_field(gateway: Option<u64>, algorithm: Option<u64>, place: usize) -> &'static [Field]
    ensures { map field_of result.now ≡ take 1 (drop place (ipseckey_by gateway algorithm)) }
{
    match place {
        0 => PRECEDENCE,
        1 => GATEWAY_TYPE,
        2 => ALGORITHM,
        3 => gateway_of(gateway),
        4 => key_of(algorithm),
        _ => &[],
    }
}

/// The field of AMTRELAY data at a place, from 0. None past the last.
fn amtrelay_field(discovery: Option<u64>, relay: Option<u64>, place: usize) -> &'static [Field]
    ensures { map field_of result.now ≡ take 1 (drop place (amtrelay_by discovery relay)) }
{
    match place {
        0 => PRECEDENCE,
        1 => DISCOVERY,
        2 => relay_type_of(discovery),
        3 => relay_of(relay),
        _ => &[],
    }
}

/// The one at a place among fields, from 0. None past the last.
fn one_of(fields: &'static [Field], place: usize) -> &'static [Field]
    ensures { map field_of result.now ≡ take 1 (drop place (map field_of fields.now)) }
{
    let (_, rest) = fields.split_at(place.min(fields.len()));
    let (one, _) = rest.split_at(rest.len().min(1));
    one
}

/// The field at a place of data with these items, from 0. None past the last.
pub(crate) fn field_at(fields: &Fields, items: &[DataItem], place: usize) -> &'static [Field]
    ensures { map field_of result.now
        ≡ take 1 (drop place (fields_in (of_code fields.now) (map given items.now))) }
{
    match fields {
        Fields::Same(fields) => one_of(fields, place),
        Fields::Ipseckey => ipseckey_field(number_at(items, 1), number_at(items, 2), place),
        Fields::Amtrelay => amtrelay_field(number_at(items, 1), number_at(items, 2), place),
        Fields::Hip => one_of(HIP, place),
    }
}

/// How many fields data with these items has.
pub(crate) fn count_of(fields: &Fields) -> usize
    ensures { (items : List TouchingItem)
        → result ≡ length (fields_in (of_code fields.now) items) }
{
    match fields {
        Fields::Same(fields) => fields.len(),
        Fields::Ipseckey => 5,
        Fields::Amtrelay => 4,
        Fields::Hip => 4,
    }
}
