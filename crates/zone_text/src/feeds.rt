//! How many line feeds octets have, seen 64 at a time.
ghost use Rattle.std.specs.Prelude.{◌≡◌, ◌≤◌, ◌==◌, length, take};
ghost use Rattle.std.specs.List.{count_by};

use std::simd::prelude::*;

/// How many octets are looked at at a time.
const LANES: usize = 64;

/// How many line feeds the octets have.
pub fn line_feeds(octets: &[u8]) -> usize
    ensures count { result ≡ count_by (λ c. c == 10) octets.now }
    ensures few { result ≤ length octets.now }
{
    match octets.split_last() {
        // Most entries are one line.
        Some((b'\n', front)) if !front.contains(&b'\n') => return 1,
        _ => {}
    }
    let (mut count, mut rest) = (0, octets);
    while rest.len() >= LANES {
        count += counted_ahead(rest);
        (_, rest) = rest.split_at(LANES);
    }
    count + rest.iter().filter(|octet| **octet == b'\n').count()
}

/// How many of the first 64 octets are line feeds.
#[inline(always)]
fn counted_ahead(octets: &[u8]) -> usize
    requires { LANES ≤ length octets.now }
    ensures count { result ≡ count_by (λ c. c == 10) (take LANES octets.now) }
    ensures few { result ≤ LANES }
{
    let lanes = u8x64::from_slice(octets);
    let found = lanes.simd_eq(u8x64::splat(b'\n')).to_bitmask();
    found.count_ones() as usize
}
