//! Altitudes and sizes in metres.
ghost use Rattle.std.specs.Prelude.{◌≡◌, ◌==◌, ◌||◌, ◌+◌, ◌*◌, ◌/◌, ◌^◌, ◌<◌, ◌≤◌, IfNone, IfSome};
ghost use Rattle.zone_name.specs.Common.{NothingIs};
ghost use Rattle.zone_rdata.specs.Item.{raw};
ghost use Rattle.type_data.specs.Kinds.Location.{AreCentimetres, IsAltitude, IsFirstDigit, IsSize, OfBareItem, without_m};
ghost use Rattle.type_data.specs.Kinds.Location.Machine.{IsAfterMinus, UpTo};

use super::scaled::{power_of_ten, scaled};
use zone_rdata::Item;

/// Centimetres from the lowest altitude to that of the spheroid.
const SPHEROID: u64 = 10_000_000;
/// Centimetres from there to the highest altitude.
const HIGHEST: u64 = 4_284_967_295;
/// The centimetres of the greatest size.
const LARGEST: u64 = 9_000_000_000;

/// The altitude that an item is, from 100,000 metres below the spheroid on. `None`: it is none.
pub(super) fn altitude_of(item: Item) -> Option<u32>
    ensures found { IfSome result (OfBareItem IsAltitude (raw item.entry)) }
    ensures none { IfNone result (NothingIs (OfBareItem IsAltitude (raw item.entry))) }
{
    match item {
        Item::Bare(text) => altitude_in(text),
        Item::Quoted(_) => None,
    }
}

/// The altitude that a text is. `None`: it is none.
fn altitude_in(text: &[u8]) -> Option<u32>
    ensures found { IfSome result (IsAltitude text.now) }
    ensures none { IfNone result (NothingIs (IsAltitude text.now)) }
{
    let (below, rest) = after_minus(text);
    if below {
        let Some(depth) = centimetres(rest, SPHEROID) else {
            return None;
        };
        Some((SPHEROID - depth) as u32)
    } else {
        let Some(height) = centimetres(rest, HIGHEST) else {
            return None;
        };
        Some((SPHEROID + height) as u32)
    }
}

/// Whether the text begins with `-`, and what is after it.
fn after_minus(text: &[u8]) -> (bool, &[u8])
    ensures { IsAfterMinus text.now result.0 result.1.now }
{
    match text {
        [b'-', rest @ ..] => (true, rest),
        _ => (false, text),
    }
}

/// The size that an item is, as a digit and a power of ten. `None`: it is none.
pub(super) fn size_of(item: Item) -> Option<u8>
    ensures found { IfSome result (OfBareItem IsSize (raw item.entry)) }
    ensures none { IfNone result (NothingIs (OfBareItem IsSize (raw item.entry))) }
{
    match item {
        Item::Bare(text) => size_in(text),
        Item::Quoted(_) => None,
    }
}

/// The size that a text is. `None`: it is none.
fn size_in(text: &[u8]) -> Option<u8>
    ensures found { IfSome result (IsSize text.now) }
    ensures none { IfNone result (NothingIs (IsSize text.now)) }
{
    let Some(size) = centimetres(text, LARGEST) else {
        return None;
    };
    Some(first_digit(size))
}

/// The first digit of so many centimetres, and the count of the digits after it.
fn first_digit(centimetres: u64) -> u8
    requires { centimetres ≤ 9000000000 }
    ensures { IsFirstDigit centimetres result }
{
    let mut power: u8 = 0;
    while power < 9 && power_of_ten(usize::from(power) + 1) <= centimetres {
        power += 1;
    }
    digit_and_power(centimetres, power)
}

/// The first of so many digits that a number has, and their count without it.
fn digit_and_power(number: u64, power: u8) -> u8
    requires few { power ≤ 9 }
    requires below { number < 10 ^ (power + 1) }
    ensures { result ≡ number / 10 ^ power * 16 + power }
{
    let digit = number / power_of_ten(usize::from(power));
    digit as u8 * 16 + power
}

/// The centimetres of a text in metres, where they are at most so many.
fn centimetres(text: &[u8], most: u64) -> Option<u64>
    requires { most ≤ 9000000000 }
    ensures found { IfSome result (UpTo most (AreCentimetres text.now)) }
    ensures none { IfNone result (NothingIs (UpTo most (AreCentimetres text.now))) }
{
    scaled(before_m(text), 2, most)
}

/// A text without the `m` that may end it.
#[tactic(auto, using(crate::proofs::OfKinds::Location::Scaled::m_cut, crate::proofs::OfKinds::Location::Scaled::m_missing))]
fn before_m(text: &[u8]) -> &[u8]
    ensures { result.now ≡ without_m text.now }
{
    let Some((last, front)) = text.split_last() else {
        return text;
    };
    if is_m(*last) { front } else { text }
}

/// Whether the octet is an `m` in either case.
fn is_m(octet: u8) -> bool
    ensures { result ≡ (octet == 109 || octet == 77) }
{
    octet == b'm' || octet == b'M'
}
