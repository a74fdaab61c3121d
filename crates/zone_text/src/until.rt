//! How many octets stand before one of two, seen 16 at a time.
ghost use Rattle.std.specs.Prelude.{◌≡◌, ◌≤◌, ◌==◌, ◌||◌, length, not};
ghost use Rattle.std.specs.List.{prefix_len};

use std::simd::prelude::*;

/// How many octets are looked at at a time.
const LANES: usize = 16;

/// How many octets stand before the first that is one of two.
// Inlined, since the two are known where it is called.
#[inline(always)]
pub(crate) fn len_until(octets: &[u8], one: u8, other: u8) -> usize
    ensures len { result ≡ prefix_len (λ c. not (c == one || c == other)) octets.now }
    ensures within { result ≤ length octets.now }
{
    // An escape often follows another one at once.
    if !octets.is_empty() && is_either(octets[0], one, other) {
        return 0;
    }
    let mut len = 0;
    while octets.len() - len >= LANES {
        let lanes = u8x16::from_slice(&octets[len..]);
        let found = lanes.simd_eq(u8x16::splat(one)) | lanes.simd_eq(u8x16::splat(other));
        let bits = found.to_bitmask();
        if bits != 0 {
            return len + bits.trailing_zeros() as usize;
        }
        len += LANES;
    }
    let (_, rest) = octets.split_at(len);
    len + len_until_in_few(rest, one, other)
}

/// As `len_until`, octet by octet.
fn len_until_in_few(octets: &[u8], one: u8, other: u8) -> usize
    ensures len { result ≡ prefix_len (λ c. not (c == one || c == other)) octets.now }
    ensures within { result ≤ length octets.now }
{
    octets
        .iter()
        .take_while(|octet| !is_either(**octet, one, other))
        .count()
}

/// Whether an octet is one of two.
fn is_either(octet: u8, one: u8, other: u8) -> bool
    ensures { result ≡ (octet == one || octet == other) }
{
    octet == one || octet == other
}
