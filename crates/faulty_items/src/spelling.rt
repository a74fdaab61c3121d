//! Whether an item spells a value of a field that `zone_rdata` lays out (RFC 1035 3.3, 5.1).
ghost use Rattle.std.specs.Prelude.{◌≡◌, ◌∷◌, ◌≢◌, ℕ, List, Ok, Some, [], false, true};
ghost use Rattle.zone_name.specs.Common.{NothingIs};
ghost use Rattle.zone_rdata.specs.Item.{bare, raw};
ghost use Rattle.zone_rdata.specs.Strings.{SpellsString};
ghost use Rattle.zone_rdata.specs.Address.{IsIpv4Address, IsIpv6Address};
ghost use Rattle.zone_rdata.specs.Fields.Address.{IsAddress};
ghost use Rattle.zone_rdata.specs.Fields.Number.{SpellsNumber};
ghost use Rattle.zone_rdata.specs.Fields.Time.{SpellsTime};
ghost use Rattle.zone_name.specs.Spelling.{Spells};
ghost use Rattle.std.specs.Int.{w16, w32};
ghost use Rattle.faulty_items.specs.LaidOutStop.{SpellAValue};

use std::alloc::AllocError;
use zone_name::Name;
use zone_name::laws::{spelling_is_unique, texts_have_one_verdict};
use zone_rdata::{
    Failing, Field, Item, decimal_of, ipv4_octets_of, ipv6_octets_of, push_string, seconds_of,
};

/// Whether decimal digits are a number of 32 bits.
fn is_u32(text: &[u8]) -> bool
    ensures yes { result ≡ true → (n : ℕ) × SpellsNumber w32 text.now n }
    ensures no { result ≡ false → NothingIs (SpellsNumber w32 text.now) }
{
    match decimal_of(text) {
        Some(number) => number <= u64::from(u32::MAX),
        None => false,
    }
}

/// Whether decimal digits are a number of 16 bits.
fn is_u16(text: &[u8]) -> bool
    ensures yes { result ≡ true → (n : ℕ) × SpellsNumber w16 text.now n }
    ensures no { result ≡ false → NothingIs (SpellsNumber w16 text.now) }
{
    match decimal_of(text) {
        Some(number) => number <= u64::from(u16::MAX),
        None => false,
    }
}

/// Whether the text is a time of 32 bits.
fn is_time(text: &[u8]) -> bool
    ensures yes { result ≡ true → (n : ℕ) × SpellsTime text.now n }
    ensures no { result ≡ false → NothingIs (SpellsTime text.now) }
{
    match seconds_of(text) {
        Some(seconds) => seconds <= u64::from(u32::MAX),
        None => false,
    }
}

/// Whether the text is an address of four octets.
fn is_ipv4(text: &[u8]) -> bool
    ensures yes { result ≡ true → (octets : List ℕ) × IsIpv4Address text.now octets }
    ensures no { result ≡ false → NothingIs (IsIpv4Address text.now) }
{
    match ipv4_octets_of(text) {
        Some(_) => true,
        None => false,
    }
}

/// Whether the text is an address of sixteen octets.
fn is_ipv6(text: &[u8]) -> bool
    ensures yes { result ≡ true → (octets : List ℕ) × IsIpv6Address text.now octets }
    ensures no { result ≡ false → NothingIs (IsIpv6Address text.now) }
{
    match ipv6_octets_of(text) {
        Some(_) => true,
        None => false,
    }
}

/// Whether the text is an address of so many octets.
fn is_address(count: usize, text: &[u8]) -> bool
    ensures yes { result ≡ true → (octets : List ℕ) × IsAddress count text.now octets }
    ensures no { result ≡ false → NothingIs (IsAddress count text.now) }
{
    match count {
        4 => is_ipv4(text),
        16 => is_ipv6(text),
        _ => false,
    }
}

/// Whether the text is a name under an origin.
fn is_name(text: &[u8], origin: &Name) -> bool
    ensures yes { result ≡ true → (name : List (List ℕ)) × Spells (Some origin.now) text.now name }
    ensures no { result ≡ false → NothingIs (Spells (Some origin.now) text.now) }
{
    match Name::from_text(text, Some(origin)) {
        Ok(_) => true,
        Err(_) => false,
    }
}

/// Whether the item is a character-string. `octets` is room.
fn is_string(item: Item, octets: &mut Vec<u8>) -> Result<bool, AllocError>
    ensures yes { result ≡ Ok true → (string : List ℕ) × SpellsString (raw item.entry) string }
    ensures no { result ≡ Ok false → NothingIs (SpellsString (raw item.entry)) }
{
    octets.clear();
    match push_string(item, octets) {
        Ok(()) => Ok(true),
        Err(narrow) => match Failing::from(narrow) {
            Failing::Fault(_) => Ok(false),
            Failing::Memory => Err(AllocError),
        },
    }
}

/// Whether a bare text spells a value of a field of one item that is no string.
fn text_spells(field: Field, text: &[u8], origin: &Name) -> bool
    ensures yes { result ≡ true → SpellAValue origin.now field (bare text.now ∷ []) }
    ensures no { field ≢ Field.OneString → field ≢ Field.Strings → result ≡ false
        → SpellAValue origin.now field (bare text.now ∷ []) → ⊥ }
{
    match field {
        Field::Name => is_name(text, origin),
        Field::Serial => is_u32(text),
        Field::Time => is_time(text),
        Field::U16 => is_u16(text),
        Field::Octets(count) => is_address(count, text),
        Field::OneString => false,
        Field::Strings => false,
    }
}

/// Whether one item spells a value of a field. `octets` is room.
pub(crate) fn spells(
    field: Field,
    item: Item,
    origin: &Name,
    octets: &mut Vec<u8>,
) -> Result<bool, AllocError>
    ensures yes { result ≡ Ok true → SpellAValue origin.now field (raw item.entry ∷ []) }
    ensures no { result ≡ Ok false → SpellAValue origin.now field (raw item.entry ∷ []) → ⊥ }
{
    match (field, item) {
        (Field::OneString, _) => is_string(item, octets),
        (Field::Strings, _) => is_string(item, octets),
        (_, Item::Bare(text)) => Ok(text_spells(field, text, origin)),
        (_, Item::Quoted(_)) => Ok(false),
    }
}
