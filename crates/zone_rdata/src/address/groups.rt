ghost use Rattle.hex.specs.Hex.{decode_sized, hex_digit_value, pair_value};
ghost use Rattle.std.specs.Prelude.{◌≡◌, ◌≢◌, ◌+◌, ◌<◌, ◌≤◌, ◌++◌, ◌∷◌, [], ℕ, length, IfSome, IfNone, OnSome, Ok};
ghost use Rattle.zone_name.specs.Common.{NothingIs, Octets};
ghost use Rattle.zone_rdata.specs.Address.{AreFourGroups, ArePartsOf};
ghost use Rattle.zone_rdata.specs.Machine.AddressReading.{AppendsSome, IsGroupOf, IsLastPartOf, NoneFits, value_or_255};

use super::ipv4::{cut_at, ipv4_octets_of};
use arrayvec::ArrayVec;

/// The octets of an address of sixteen.
const LENGTH: usize = 16;

/// The values of hexadecimal digits in either case, and 255 of other octets, sixteen a row. A look-up
/// costs less than comparisons with the ends of three ranges.
#[rattlefmt::skip]
static DIGIT_VALUES: [u8; 256] = [
    255, 255, 255, 255, 255, 255, 255, 255, 255, 255, 255, 255, 255, 255, 255, 255,
    255, 255, 255, 255, 255, 255, 255, 255, 255, 255, 255, 255, 255, 255, 255, 255,
    255, 255, 255, 255, 255, 255, 255, 255, 255, 255, 255, 255, 255, 255, 255, 255,
    0, 1, 2, 3, 4, 5, 6, 7, 8, 9, 255, 255, 255, 255, 255, 255,
    255, 10, 11, 12, 13, 14, 15, 255, 255, 255, 255, 255, 255, 255, 255, 255,
    255, 255, 255, 255, 255, 255, 255, 255, 255, 255, 255, 255, 255, 255, 255, 255,
    255, 10, 11, 12, 13, 14, 15, 255, 255, 255, 255, 255, 255, 255, 255, 255,
    255, 255, 255, 255, 255, 255, 255, 255, 255, 255, 255, 255, 255, 255, 255, 255,
    255, 255, 255, 255, 255, 255, 255, 255, 255, 255, 255, 255, 255, 255, 255, 255,
    255, 255, 255, 255, 255, 255, 255, 255, 255, 255, 255, 255, 255, 255, 255, 255,
    255, 255, 255, 255, 255, 255, 255, 255, 255, 255, 255, 255, 255, 255, 255, 255,
    255, 255, 255, 255, 255, 255, 255, 255, 255, 255, 255, 255, 255, 255, 255, 255,
    255, 255, 255, 255, 255, 255, 255, 255, 255, 255, 255, 255, 255, 255, 255, 255,
    255, 255, 255, 255, 255, 255, 255, 255, 255, 255, 255, 255, 255, 255, 255, 255,
    255, 255, 255, 255, 255, 255, 255, 255, 255, 255, 255, 255, 255, 255, 255, 255,
    255, 255, 255, 255, 255, 255, 255, 255, 255, 255, 255, 255, 255, 255, 255, 255,
];

/// The two octets of a group. `None`: the text isn't one to four hexadecimal digits (RFC 4291 2.2).
#[inline(always)]
fn group_of(text: &[u8]) -> Option<[u8; 2]>
    ensures found { IfSome result (λ octets. IsGroupOf text.now octets) }
    ensures none { IfNone result (NothingIs (IsGroupOf text.now)) }
{
    match *text {
        [last] => octets_of_digits(b'0', b'0', b'0', last),
        [third, last] => octets_of_digits(b'0', b'0', third, last),
        [second, third, last] => octets_of_digits(b'0', second, third, last),
        [first, second, third, last] => octets_of_digits(first, second, third, last),
        _ => None,
    }
}

/// The octets of four hexadecimal digits in either case. `None`: one of them is none.
#[tactic(auto, using(crate::proofs::Addresses::Digits::none_of_first))]
fn octets_of_digits(first: u8, second: u8, third: u8, last: u8) -> Option<[u8; 2]>
    ensures found { IfSome result (λ octets.
        decode_sized (first ∷ second ∷ third ∷ last ∷ []) 2 ≡ Ok octets) }
    ensures none { IfNone result (NothingIs (λ octets.
        decode_sized (first ∷ second ∷ third ∷ last ∷ []) 2 ≡ Ok octets)) }
{
    let high = octet_of_pair(first, second)?;
    let low = octet_of_pair(third, last)?;
    Some([high, low])
}

/// The octet of two hexadecimal digits in either case. `None`: one of them is none.
#[inline(always)]
pub(crate) fn octet_of_pair(high: u8, low: u8) -> Option<u8>
    ensures found { IfSome result (λ octet. (at : ℕ) → pair_value high low at ≡ Ok octet) }
    ensures none { IfNone result ((at octet : ℕ) → pair_value high low at ≢ Ok octet) }
{
    let (high, low) = (digit_value(high), digit_value(low));
    if high > 15 || low > 15 {
        return None;
    }
    Some(high * 16 + low)
}

/// The value of a hexadecimal digit in either case, and 255 of another octet.
#[inline(always)]
fn digit_value(octet: u8) -> u8
    ensures { result ≡ value_or_255 (hex_digit_value octet) }
{
    DIGIT_VALUES[octet as usize]
}

/// Appends octets. `None`: there is no room.
fn push_octets(octets: &mut ArrayVec<u8, LENGTH>, added: &[u8]) -> Option<()>
    ensures some { OnSome result (octets.new.items ≡ octets.old.items ++ added.now) }
    ensures none { IfNone result (LENGTH < length octets.old.items + length added.now) }
{
    octets.try_extend_from_slice(added).ok()
}

/// Appends a group's octets. `None`: the text is no group, or there is no room.
fn push_group(octets: &mut ArrayVec<u8, LENGTH>, text: &[u8]) -> Option<()>
    ensures some { OnSome result
        (AppendsSome (IsGroupOf text.now) octets.old.items octets.new.items) }
    ensures none { IfNone result (NoneFits (IsGroupOf text.now) octets.old.items) }
{
    let group = group_of(text)?;
    push_octets(octets, &group)
}

/// Appends the octets of a group or, where `ends` is so, of four decimal numbers. `None`: the text
/// is neither, or there is no room.
fn push_last(octets: &mut ArrayVec<u8, LENGTH>, text: &[u8], ends: bool) -> Option<()>
    ensures some { OnSome result
        (AppendsSome (IsLastPartOf ends text.now) octets.old.items octets.new.items) }
    ensures none { IfNone result (NoneFits (IsLastPartOf ends text.now) octets.old.items) }
{
    if let Some(group) = group_of(text) {
        return push_octets(octets, &group);
    }
    if !ends {
        return None;
    }
    let numbers = ipv4_octets_of(text)?;
    push_octets(octets, &numbers)
}

/// The octets of groups parted by colons, at most sixteen; where `ends` is so, the last two groups
/// may be four decimal numbers (RFC 4291 2.2). `None`: the text isn't so.
#[tactic(auto, using(crate::proofs::Addresses::AddressParts::parts_ended))]
pub(super) fn octets_of_parts(text: &[u8], ends: bool) -> Option<ArrayVec<u8, LENGTH>>
    ensures found { IfSome result (λ octets. ArePartsOf ends text.now octets.items) }
    ensures none { IfNone result ((octets : Octets) → ArePartsOf ends text.now octets
        → length octets ≤ LENGTH → ⊥) }
{
    let mut octets = ArrayVec::new();
    if text.is_empty() {
        return Some(octets);
    }
    let mut rest = text;
    while let Some((group, after)) = cut_at(rest, b':') {
        push_group(&mut octets, group)?;
        rest = after;
    }
    push_last(&mut octets, rest, ends)?;
    Some(octets)
}

/// The octets of four groups parted by colons, each of one to four hexadecimal digits, as in the
/// text of a node identifier (RFC 6742 2.1). `None`: the text isn't so.
#[tactic(auto, using(crate::proofs::Addresses::AddressParts::parts_length))]
pub fn four_groups_of(text: &[u8]) -> Option<[u8; 8]>
    ensures found { IfSome result (λ octets. AreFourGroups text.now octets) }
    ensures none { IfNone result (NothingIs (AreFourGroups text.now)) }
{
    let groups = octets_of_parts(text, false)?;
    <[u8; 8]>::try_from(groups.as_slice()).ok()
}
