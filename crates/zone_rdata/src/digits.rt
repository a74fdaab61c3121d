//! The hexadecimal digits of octets, written and read 32 octets at a time (RFC 4648 8).
ghost use Rattle.std.specs.Prelude.{◌≡◌, ◌≤◌, ◌++◌, ◌⊎◌, ℕ, length, take, IfSome, List};
ghost use Rattle.hex.specs.Hex.{encode_lower, encode_upper, encode_with, IsBytes};

use std::simd::prelude::*;
use zone_name::laws::are_octets;

/// How many octets are written at a time.
pub(crate) const LANES: usize = 32;

/// How many digits they have.
pub(crate) const DIGITS_LEN: usize = 2 * LANES;

/// The digits by their values, for each half of the octets.
const DIGITS: [u8; LANES] = *b"0123456789abcdef0123456789abcdef";

/// The same in capital letters.
const CAPITALS: [u8; LANES] = *b"0123456789ABCDEF0123456789ABCDEF";

/// Two digits for each of the first 32 octets, in lower case.
#[inline(always)]
pub(crate) fn digits_of(octets: &[u8]) -> [u8; 2 * LANES]
    requires { LANES ≤ length octets.now }
    ensures { result ≡ encode_lower (take LANES octets.now) }
{
    written_by(DIGITS, octets)
}

/// Two digits for each of the first 32 octets, from a table that has the digits twice.
#[inline(always)]
fn written_by(table: [u8; LANES], octets: &[u8]) -> [u8; 2 * LANES]
    requires { LANES ≤ length octets.now }
    ensures { (digits : List ℕ) → length digits ≡ 16 → table ≡ digits ++ digits
        → result ≡ encode_with digits (take LANES octets.now) }
{
    let octets = u8x32::from_slice(octets);
    let digits = u8x32::from_array(table);
    let low_bits = u8x32::splat(15);
    let high = digits.swizzle_dyn_within::<16>((octets >> u8x32::splat(4)) & low_bits);
    let low = digits.swizzle_dyn_within::<16>(octets & low_bits);
    let (first, second) = high.interleave(low);
    let mut text = [0; 2 * LANES];
    first.copy_to_slice(&mut text);
    second.copy_to_slice(&mut text[LANES..]);
    text
}

/// The octets of digits that are all in lower case or all in capitals. `None`: they aren't so.
#[inline(always)]
pub(crate) fn octets_of(digits: &[u8; DIGITS_LEN]) -> Option<[u8; LANES]>
    ensures { IfSome result (λ octets. IsBytes octets
        × ((digits.now ≡ encode_lower octets) ⊎ (digits.now ≡ encode_upper octets))) }
{
    // What is read of other characters isn't written like them.
    let octets = values_of_pairs(digits);
    are_octets(&octets);
    if digits_of(&octets) == *digits || written_by(CAPITALS, &octets) == *digits {
        Some(octets)
    } else {
        None
    }
}

/// The octets of digits, and any of other characters.
#[inline(always)]
fn values_of_pairs(digits: &[u8; DIGITS_LEN]) -> [u8; LANES]
    ensures { length result ≡ LANES }
{
    let first = u8x32::from_slice(digits);
    let second = u8x32::from_slice(&digits[LANES..]);
    let (high, low) = first.deinterleave(second);
    let octets = values_of(high) * u8x32::splat(16) + values_of(low);
    octets.to_array()
}

/// The values of digits, and any of other characters. The low four bits of a letter count from 1.
#[inline(always)]
fn values_of(digits: u8x32) -> u8x32 {
    let are_letters = digits.simd_gt(u8x32::splat(b'9'));
    let from = are_letters.select(u8x32::splat(9), u8x32::splat(0));
    (digits & u8x32::splat(15)) + from
}
