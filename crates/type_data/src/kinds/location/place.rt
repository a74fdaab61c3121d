//! Latitudes and longitudes.
ghost use Rattle.std.specs.Prelude.{◌≡◌, ◌*◌, ◌≤◌, ◌<◌, ℕ, List, map, IfNone, IfSome};
ghost use Rattle.std.specs.List.{AllByRecursion};
ghost use Rattle.zone_name.specs.Common.{NothingIs};
ghost use Rattle.zone_rdata.specs.Item.{RawItem, raw};
ghost use Rattle.zone_rdata.specs.Number.{IsDecimal};
ghost use Rattle.type_data.specs.DataItem.{raw_item};
ghost use Rattle.type_data.specs.Kinds.Location.{ArePartsOfDegree, BeginsWithPlace, IsAngle, IsHalfOf, IsScaled, OfBareItem, from_middle, letter, most_degrees};
ghost use Rattle.type_data.specs.Kinds.Location.Machine.{IsCutAtHalf, IsNoHalf, UpTo};

use super::scaled::scaled;
use crate::data_item::DataItem;
use zone_rdata::{Item, decimal_of, is_word};

/// Thousandths of a second of arc in a degree.
const DEGREE: u64 = 3_600_000;
/// Thousandths of a second of arc in a minute.
const MINUTE: u64 = 60_000;
/// The equator and the meridian.
const MIDDLE: u32 = 2_147_483_648;

/// What a place is measured along.
#[derive(Clone, Copy)]
pub(super) enum Axis {
    /// North and south.
    Latitude,
    /// East and west.
    Longitude,
}

/// On which side of the equator or the meridian a place lies.
#[derive(Clone, Copy)]
pub(super) enum Half {
    /// North or east.
    Upper,
    /// South or west.
    Lower,
}

impl Axis {
    /// The degrees of the greatest angle.
    pub(super) fn most_degrees(self) -> u64
        ensures value { result ≡ most_degrees self }
        ensures few { result ≤ 180 }
    {
        match self {
            Axis::Latitude => 90,
            Axis::Longitude => 180,
        }
    }

    /// The letter of a half, in lower case.
    fn letter(self, half: Half) -> &'static [u8]
        ensures { result.now ≡ letter self half }
    {
        match (self, half) {
            (Axis::Latitude, Half::Upper) => b"n",
            (Axis::Latitude, Half::Lower) => b"s",
            (Axis::Longitude, Half::Upper) => b"e",
            (Axis::Longitude, Half::Lower) => b"w",
        }
    }
}

/// The latitude or longitude that items begin with, in thousandths of a second of arc, and the
/// items after it. `None`: they begin with none.
pub(super) fn split_place<'i, 'e>(
    axis: Axis,
    items: &'i [DataItem<'e>],
) -> Option<(u32, &'i [DataItem<'e>])>
    ensures found { IfSome result (λ read. BeginsWithPlace axis (map raw_item items.now) read.0
        (map raw_item read.1.now)) }
    ensures none { IfNone result ((n : ℕ) (rest : List RawItem)
        → BeginsWithPlace axis (map raw_item items.now) n rest → ⊥) }
{
    let Some((front, half, rest)) = cut_at_half(axis, items) else {
        return None;
    };
    let Some(angle) = angle_of(front, axis.most_degrees()) else {
        return None;
    };
    Some((from_middle(half, angle as u32), rest))
}

/// An angle from the equator or the meridian on.
fn from_middle(half: Half, angle: u32) -> u32
    requires { angle ≤ 648000000 }
    ensures { result ≡ from_middle half angle }
{
    match half {
        Half::Upper => MIDDLE + angle,
        Half::Lower => MIDDLE - angle,
    }
}

/// The items before the first letter of an axis, its half, and the items after it. `None`: none is
/// there.
#[tactic(auto, using(crate::proofs::OfKinds::Location::Places::cut_half))]
fn cut_at_half<'i, 'e>(
    axis: Axis,
    items: &'i [DataItem<'e>],
) -> Option<(&'i [DataItem<'e>], Half, &'i [DataItem<'e>])>
    ensures found { IfSome result (λ read. IsCutAtHalf axis (map raw_item items.now)
        (map raw_item read.0.now) read.1 (map raw_item read.2.now)) }
    ensures none { IfNone result (AllByRecursion (IsNoHalf axis) (map raw_item items.now)) }
{
    for (at, item) in items.iter().enumerate() {
        if let Some(half) = half_of(axis, item.item) {
            return Some((&items[..at], half, &items[at + 1..]));
        }
    }
    None
}

/// The half of which an item is the letter.
fn half_of(axis: Axis, item: Item) -> Option<Half>
    ensures found { IfSome result (IsHalfOf axis (raw item.entry)) }
    ensures none { IfNone result (NothingIs (IsHalfOf axis (raw item.entry))) }
{
    let Item::Bare(text) = item else {
        return None;
    };
    if is_word(text, axis.letter(Half::Upper)) {
        Some(Half::Upper)
    } else if is_word(text, axis.letter(Half::Lower)) {
        Some(Half::Lower)
    } else {
        None
    }
}

/// The angle that items are, of at most so many degrees, in thousandths of a second of arc.
fn angle_of(items: &[DataItem], most: u64) -> Option<u64>
    requires { most ≤ 180 }
    ensures found { IfSome result (UpTo (most * 3600000) (IsAngle (map raw_item items.now))) }
    ensures none { IfNone result
        (NothingIs (UpTo (most * 3600000) (IsAngle (map raw_item items.now)))) }
{
    let Some((first, rest)) = items.split_first() else {
        return None;
    };
    let Some(degrees) = whole_of(first.item, most) else {
        return None;
    };
    let Some(part) = parts_of_degree(rest) else {
        return None;
    };
    let angle = degrees * DEGREE + part;
    if angle <= most * DEGREE {
        Some(angle)
    } else {
        None
    }
}

/// The minutes and seconds that items are, if they are, in thousandths of a second of arc.
fn parts_of_degree(items: &[DataItem]) -> Option<u64>
    ensures found { IfSome result (UpTo 3599999 (ArePartsOfDegree (map raw_item items.now))) }
    ensures none { IfNone result (NothingIs (ArePartsOfDegree (map raw_item items.now))) }
{
    match items {
        [] => Some(0),
        [minutes] => {
            let Some(minutes) = whole_of(minutes.item, 59) else {
                return None;
            };
            Some(minutes * MINUTE)
        }
        [minutes, seconds] => {
            let Some(minutes) = whole_of(minutes.item, 59) else {
                return None;
            };
            let Some(seconds) = seconds_of(seconds.item) else {
                return None;
            };
            Some(minutes * MINUTE + seconds)
        }
        _ => None,
    }
}

/// The whole number that an item is, at most so great.
fn whole_of(item: Item, most: u64) -> Option<u64>
    requires { most < 4294967296 }
    ensures found { IfSome result (UpTo most (OfBareItem IsDecimal (raw item.entry))) }
    ensures none { IfNone result (NothingIs (UpTo most (OfBareItem IsDecimal (raw item.entry)))) }
{
    let Item::Bare(text) = item else {
        return None;
    };
    match decimal_of(text) {
        Some(number) if number <= most => Some(number),
        _ => None,
    }
}

/// The seconds that an item is, in thousandths.
fn seconds_of(item: Item) -> Option<u64>
    ensures found { IfSome result (UpTo 59999 (OfBareItem (IsScaled 3) (raw item.entry))) }
    ensures none { IfNone result
        (NothingIs (UpTo 59999 (OfBareItem (IsScaled 3) (raw item.entry)))) }
{
    let Item::Bare(text) = item else {
        return None;
    };
    scaled(text, 3, 59999)
}
