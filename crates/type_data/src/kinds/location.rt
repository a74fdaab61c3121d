//! Locations on Earth (RFC 1876).
ghost use Rattle.std.specs.Prelude.{◌≡◌, ◌++◌, ℕ, List, map, IfErr, IfNone, IfSome, OnOk};
ghost use Rattle.zone_name.specs.Common.{NothingIs};
ghost use Rattle.zone_rdata.specs.Item.{RawItem};
ghost use Rattle.type_data.specs.DataItem.{raw_item};
ghost use Rattle.type_data.specs.Fault.{AppendsStated, IfFault};
ghost use Rattle.type_data.specs.Kinds.Location.{BeginsWithAltitude, BeginsWithSize, FailsLocation, IsLocation, StatesLocation, location_octets};

mod metres;
mod place;
mod printing;
mod scaled;

use crate::data_item::DataItem;
use crate::fault::{WordsFailing, WordsFault};
use metres::{altitude_of, size_of};
use place::{Axis, split_place};
pub(crate) use printing::print_location;
use std::alloc::AllocError;

/// The size that stands where it is left out: 1 metre.
const USUAL_SIZE: u8 = 0x12;
/// The horizontal precision that stands where it is left out: 10,000 metres.
const USUAL_HORIZONTAL: u8 = 0x16;
/// The vertical precision that stands where it is left out: 10 metres.
const USUAL_VERTICAL: u8 = 0x13;

/// A location. Sizes are a digit and a power of ten in four bits each, in centimetres (RFC 1876 2).
#[derive(Clone, Copy)]
struct Location {
    /// The diameter of what is there.
    size: u8,
    /// The horizontal precision.
    horizontal: u8,
    /// The vertical precision.
    vertical: u8,
    /// Thousandths of a second of arc north of the equator, from 2 ^ 31 on.
    latitude: u32,
    /// Thousandths of a second of arc east of the meridian, from 2 ^ 31 on.
    longitude: u32,
    /// Centimetres above a place 100,000 metres below the spheroid.
    altitude: u32,
}

/// Appends the sixteen octets of a location.
///
/// # Errors
///
/// `NothingLeft` where there is no item, `NotALocation` where items state no location; and
/// `OutOfMemory`. `out` may have got some of the octets.
pub(crate) fn read_location(items: &[DataItem], out: &mut Vec<u8>) -> Result<(), WordsFailing>
    ensures states { OnOk result
        (AppendsStated (StatesLocation (map raw_item items.now)) out.old.items out.new.items) }
    ensures fault { IfErr result (IfFault (FailsLocation (map raw_item items.now))) }
{
    if items.is_empty() {
        return Err(WordsFailing::Fault(WordsFault::NothingLeft));
    }
    let Some(location) = location_of(items) else {
        return Err(WordsFailing::Fault(WordsFault::NotALocation));
    };
    push_octets(location, out)?;
    Ok(())
}

/// Appends the octets of a location, with version 0.
fn push_octets(l: Location, out: &mut Vec<u8>) -> Result<(), AllocError>
    ensures { OnOk result (out.new.items ≡ out.old.items ++ location_octets l) }
{
    out.extend_from_slice(&[0, l.size, l.horizontal, l.vertical])?;
    out.extend_from_slice(&l.latitude.to_be_bytes())?;
    out.extend_from_slice(&l.longitude.to_be_bytes())?;
    out.extend_from_slice(&l.altitude.to_be_bytes())?;
    Ok(())
}

/// The location that items state. `None`: they state none.
fn location_of(items: &[DataItem]) -> Option<Location>
    ensures found { IfSome result (IsLocation (map raw_item items.now)) }
    ensures none { IfNone result (NothingIs (IsLocation (map raw_item items.now))) }
{
    let (latitude, rest) = split_place(Axis::Latitude, items)?;
    let (longitude, rest) = split_place(Axis::Longitude, rest)?;
    let (altitude, rest) = split_altitude(rest)?;
    let (size, rest) = split_size(rest, USUAL_SIZE)?;
    let (horizontal, rest) = split_size(rest, USUAL_HORIZONTAL)?;
    let (vertical, after) = split_size(rest, USUAL_VERTICAL)?;
    if !after.is_empty() {
        return None;
    }
    Some(Location {
        size,
        horizontal,
        vertical,
        latitude,
        longitude,
        altitude,
    })
}

/// The altitude that items begin with, and the items after it.
fn split_altitude<'i, 'e>(items: &'i [DataItem<'e>]) -> Option<(u32, &'i [DataItem<'e>])>
    ensures found { IfSome result (λ read. BeginsWithAltitude (map raw_item items.now) read.0
        (map raw_item read.1.now)) }
    ensures none { IfNone result ((n : ℕ) (rest : List RawItem)
        → BeginsWithAltitude (map raw_item items.now) n rest → ⊥) }
{
    let (first, rest) = items.split_first()?;
    let altitude = altitude_of(first.item)?;
    Some((altitude, rest))
}

/// The size that items begin with, or the usual one where no item is left, and the items after it.
fn split_size<'i, 'e>(items: &'i [DataItem<'e>], usual: u8) -> Option<(u8, &'i [DataItem<'e>])>
    ensures found { IfSome result (λ read. BeginsWithSize usual (map raw_item items.now) read.0
        (map raw_item read.1.now)) }
    ensures none { IfNone result ((n : ℕ) (rest : List RawItem)
        → BeginsWithSize usual (map raw_item items.now) n rest → ⊥) }
{
    let Some((first, rest)) = items.split_first() else {
        return Some((usual, items));
    };
    let size = size_of(first.item)?;
    Some((size, rest))
}
