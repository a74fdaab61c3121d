//! How locations are printed (RFC 1876 3).
ghost use Rattle.std.specs.Int.{w32, to_be_bytes};
ghost use Rattle.std.specs.Prelude.{◌≡◌, ◌≢◌, length, ◌++◌, ◌∷◌, [], ◌+◌, ◌*◌, ◌/◌, ◌%◌, ◌^◌, ◌<◌, ◌≤◌, IfErr, IfNone, IfSome, IsTrue, OnOk, ◌↔◌};
ghost use Rattle.type_data.specs.Kinds.Location.{IsDigitAndPower, IsOnEarth, IsPlace, PrintsLocation, StatesLocation, altitude_text, angle_at, angle_items, capital_letter, half_at, hundredths, last_digit, location_items, location_octets, metres, place_items, seconds, size_text};
ghost use Rattle.type_data.specs.Kinds.Location.Machine.{HasNoLocation};
ghost use Rattle.type_data.specs.Printed.{IfNoData, NoItems, PrintsAll, after_blanks};

use super::Location;
use super::place::{Axis, Half};
use super::scaled::power_of_ten;
use crate::unprinted::Unprinted;
use std::alloc::AllocError;
use zone_rdata::push_decimal;

/// The equator and the meridian, in thousandths of a second of arc (RFC 1876 2).
const MIDDLE: u32 = 1 << 31;
/// The altitude 0, in centimetres (RFC 1876 2).
const SPHEROID: u32 = 10_000_000;

/// Appends the words of a location (RFC 1876 3), a blank before each item.
///
/// # Errors
///
/// `NoData` where the octets aren't sixteen, or are of another version than 0, or where no items
/// state their latitude, longitude or one of their sizes; and `OutOfMemory`. `out` may have got a
/// part of the words.
pub(crate) fn print_location(octets: &[u8], out: &mut Vec<u8>) -> Result<(), Unprinted>
    ensures printed { OnOk result
        (PrintsAll PrintsLocation octets.now out.old.items out.new.items) }
    ensures none { IfErr result (IfNoData (NoItems StatesLocation octets.now)) }
{
    let Some(location) = location_in(octets) else {
        return Err(Unprinted::NoData);
    };
    if !is_on_earth(location) {
        return Err(Unprinted::NoData);
    }
    print_items(location, out)?;
    Ok(())
}

/// The location that octets of version 0 hold. `None`: they hold none.
fn location_in(octets: &[u8]) -> Option<Location>
    ensures found { IfSome result (λ l. octets.now ≡ location_octets l) }
    ensures fits { IfSome result (λ l.
        (l.latitude < 2 ^ 32) × (l.longitude < 2 ^ 32) × (l.altitude < 2 ^ 32)) }
    ensures none { IfNone result (HasNoLocation octets.now) }
{
    let [0, size, horizontal, vertical, places @ ..] = octets else {
        return None;
    };
    let (latitude, longitude, altitude) = numbers_in(places)?;
    Some(Location {
        size: *size,
        horizontal: *horizontal,
        vertical: *vertical,
        latitude,
        longitude,
        altitude,
    })
}

/// The three numbers of 32 bits that octets hold. `None`: they aren't twelve.
fn numbers_in(octets: &[u8]) -> Option<(u32, u32, u32)>
    ensures found { IfSome result (λ n. octets.now
        ≡ to_be_bytes w32 n.0 ++ (to_be_bytes w32 n.1 ++ to_be_bytes w32 n.2)) }
    ensures none { IfNone result (length octets.now ≢ 12) }
{
    let [a, b, c, d, e, f, g, h, i, j, k, l] = octets else {
        return None;
    };
    Some((
        u32::from_be_bytes([*a, *b, *c, *d]),
        u32::from_be_bytes([*e, *f, *g, *h]),
        u32::from_be_bytes([*i, *j, *k, *l]),
    ))
}

/// Whether items state the location.
fn is_on_earth(l: Location) -> bool
    ensures { IsTrue result ↔ IsOnEarth l }
{
    is_place(Axis::Latitude, l.latitude)
        && is_place(Axis::Longitude, l.longitude)
        && is_digit_and_power(l.size)
        && is_digit_and_power(l.horizontal)
        && is_digit_and_power(l.vertical)
}

/// Whether a place lies no further from the middle than the axis goes.
fn is_place(axis: Axis, place: u32) -> bool
    ensures { IsTrue result ↔ IsPlace axis place }
{
    let (_, angle) = split_at_middle(place);
    u64::from(angle) <= axis.most_degrees() * 3_600_000
}

/// Whether a digit and a power of ten are up to 9 each, and digit 0 has power 0 (RFC 1876 2).
fn is_digit_and_power(size: u8) -> bool
    ensures { IsTrue result ↔ IsDigitAndPower size }
{
    size / 16 <= 9 && size % 16 <= 9 && (size / 16 != 0 || size % 16 == 0)
}

/// The half in which a place lies, and how far from the middle.
fn split_at_middle(place: u32) -> (Half, u32)
    ensures half { result.0 ≡ half_at place }
    ensures angle { result.1 ≡ angle_at place }
{
    if place < MIDDLE {
        (Half::Lower, MIDDLE - place)
    } else {
        (Half::Upper, place - MIDDLE)
    }
}

/// Appends the items of a location, a blank before each.
fn print_items(l: Location, out: &mut Vec<u8>) -> Result<(), AllocError>
    requires { IsOnEarth l }
    ensures { OnOk result
        (out.new.items ≡ out.old.items ++ after_blanks (location_items l)) }
{
    print_place(Axis::Latitude, l.latitude, out)?;
    print_place(Axis::Longitude, l.longitude, out)?;
    print_altitude(l.altitude, out)?;
    print_size(l.size, out)?;
    print_size(l.horizontal, out)?;
    print_size(l.vertical, out)
}

/// Appends a latitude or longitude, a blank before each item.
fn print_place(axis: Axis, place: u32, out: &mut Vec<u8>) -> Result<(), AllocError>
    ensures { OnOk result
        (out.new.items ≡ out.old.items ++ after_blanks (place_items axis place)) }
{
    let (half, angle) = split_at_middle(place);
    print_angle(angle, out)?;
    out.extend_from_slice(b" ")?;
    out.extend_from_slice(capital_letter(axis, half))
}

/// The letter of a half, as it is printed.
fn capital_letter(axis: Axis, half: Half) -> &'static [u8]
    ensures { result.now ≡ capital_letter axis half }
{
    match (axis, half) {
        (Axis::Latitude, Half::Upper) => b"N",
        (Axis::Latitude, Half::Lower) => b"S",
        (Axis::Longitude, Half::Upper) => b"E",
        (Axis::Longitude, Half::Lower) => b"W",
    }
}

/// Appends thousandths of a second of arc in degrees, minutes and seconds, a blank before each.
fn print_angle(angle: u32, out: &mut Vec<u8>) -> Result<(), AllocError>
    ensures { OnOk result
        (out.new.items ≡ out.old.items ++ after_blanks (angle_items angle)) }
{
    out.extend_from_slice(b" ")?;
    push_decimal(angle / 3_600_000, out)?;
    out.extend_from_slice(b" ")?;
    push_decimal(angle / 60_000 % 60, out)?;
    out.extend_from_slice(b" ")?;
    print_seconds(angle % 60_000, out)
}

/// Appends thousandths of a second in seconds.
fn print_seconds(thousandths: u32, out: &mut Vec<u8>) -> Result<(), AllocError>
    ensures { OnOk result (out.new.items ≡ out.old.items ++ seconds thousandths) }
{
    push_decimal(thousandths / 1_000, out)?;
    out.extend_from_slice(&[
        b'.',
        last_digit(u64::from(thousandths / 100)),
        last_digit(u64::from(thousandths / 10)),
        last_digit(u64::from(thousandths)),
    ])
}

/// The last digit of a number.
fn last_digit(number: u64) -> u8
    ensures { result ≡ last_digit number }
{
    b'0' + (number % 10) as u8
}

/// Appends an altitude, a blank before it.
fn print_altitude(altitude: u32, out: &mut Vec<u8>) -> Result<(), AllocError>
    ensures { OnOk result (out.new.items ≡ out.old.items ++ 32 ∷ altitude_text altitude) }
{
    if altitude < SPHEROID {
        out.extend_from_slice(b" -")?;
        print_metres(u64::from(SPHEROID - altitude), out)
    } else {
        out.extend_from_slice(b" ")?;
        print_metres(u64::from(altitude - SPHEROID), out)
    }
}

/// Appends a size, a blank before it.
fn print_size(size: u8, out: &mut Vec<u8>) -> Result<(), AllocError>
    requires { IsDigitAndPower size }
    ensures { OnOk result (out.new.items ≡ out.old.items ++ 32 ∷ size_text size) }
{
    out.extend_from_slice(b" ")?;
    let unit = power_of_ten(usize::from(size % 16));
    print_metres(u64::from(size / 16) * unit, out)
}

/// Appends centimetres in metres.
fn print_metres(centimetres: u64, out: &mut Vec<u8>) -> Result<(), AllocError>
    requires { centimetres ≤ 90000000000 }
    ensures { OnOk result (out.new.items ≡ out.old.items ++ metres centimetres) }
{
    push_decimal((centimetres / 100) as u32, out)?;
    print_hundredths(centimetres, out)?;
    out.extend_from_slice(b"m")
}

/// Appends the part of a metre, where there is one.
fn print_hundredths(centimetres: u64, out: &mut Vec<u8>) -> Result<(), AllocError>
    ensures { OnOk result (out.new.items ≡ out.old.items ++ hundredths centimetres) }
{
    if centimetres % 100 == 0 {
        return Ok(());
    }
    out.extend_from_slice(&[b'.', last_digit(centimetres / 10), last_digit(centimetres)])
}
