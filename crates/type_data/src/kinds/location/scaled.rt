//! Numbers with decimals.
ghost use Rattle.std.specs.Prelude.{◌≡◌, ◌*◌, ◌^◌, ◌<◌, ◌≤◌, IfNone, IfSome};
ghost use Rattle.zone_name.specs.Common.{NothingIs};
ghost use Rattle.type_data.specs.Kinds.Location.{IsScaled};
ghost use Rattle.type_data.specs.Kinds.Location.Machine.{ArePartsIn, IsWholeIn, UpTo};

use crate::cut::cut_at_first;
use zone_rdata::decimal_of;

/// The number of a text, in units of which 10 ^ places make a whole, where it is at most so great.
pub(super) fn scaled(text: &[u8], places: usize, most: u64) -> Option<u64>
    requires { (places ≤ 3) × (most < 4294967296 * 10 ^ places) }
    ensures found { IfSome result (UpTo most (IsScaled places text.now)) }
    ensures none { IfNone result (NothingIs (UpTo most (IsScaled places text.now))) }
{
    match cut_at_first(text, b'.') {
        None => whole_in_units(text, places, most),
        Some((front, back)) => parts_in_units(front, back, places, most),
    }
}

/// The number of digits without a point.
#[tactic(auto, using(crate::proofs::OfKinds::Location::Scaled::whole_found, crate::proofs::OfKinds::Location::Scaled::whole_none))]
fn whole_in_units(text: &[u8], places: usize, most: u64) -> Option<u64>
    requires { (places ≤ 3) × (most < 4294967296 * 10 ^ places) }
    ensures found { IfSome result (UpTo most (IsWholeIn places text.now)) }
    ensures none { IfNone result (NothingIs (UpTo most (IsWholeIn places text.now))) }
{
    let Some(whole) = decimal_of(text) else {
        return None;
    };
    let number = in_units(whole, places);
    if number <= most { Some(number) } else { None }
}

/// The number of digits before a point and after it.
fn parts_in_units(front: &[u8], back: &[u8], places: usize, most: u64) -> Option<u64>
    requires { (places ≤ 3) × (most < 4294967296 * 10 ^ places) }
    ensures found { IfSome result (UpTo most (ArePartsIn places front.now back.now)) }
    ensures none { IfNone result (NothingIs (UpTo most (ArePartsIn places front.now back.now))) }
{
    if back.len() > places {
        return None;
    }
    let Some(whole) = decimal_of(front) else {
        return None;
    };
    let Some(part) = decimal_of(back) else {
        return None;
    };
    let number = in_units(whole, places) + in_units(part, places - back.len());
    if number <= most { Some(number) } else { None }
}

/// A number in units of which 10 ^ places make one.
fn in_units(number: u64, places: usize) -> u64
    requires { (number ≤ 4294967296) × (places ≤ 3) }
    ensures value { result ≡ number * 10 ^ places }
    ensures few { result ≤ 4294967296000 }
{
    match places {
        0 => number,
        1 => number * 10,
        2 => number * 100,
        _ => number * 1000,
    }
}

/// A power of ten.
pub(super) fn power_of_ten(exponent: usize) -> u64
    requires { exponent ≤ 10 }
    ensures value { result ≡ 10 ^ exponent }
    ensures few { result ≤ 10000000000 }
{
    match exponent {
        0 => 1,
        1 => 10,
        2 => 100,
        3 => 1000,
        4 => 10000,
        5 => 100000,
        6 => 1000000,
        7 => 10000000,
        8 => 100000000,
        9 => 1000000000,
        _ => 10000000000,
    }
}
