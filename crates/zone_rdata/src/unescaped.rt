//! How many octets are printed between quotes without an escape, seen 16 at a time.
ghost use Rattle.std.specs.Prelude.{◌≡◌, ◌+◌, ◌≤◌, length, map};
ghost use Rattle.std.specs.List.{prefix_len};
ghost use Rattle.std.specs.Simd.Lanes.{chunk, mask_l};
ghost use Rattle.zone_rdata.specs.Machine.Unescaped.{is_escaped, is_unescaped};

use std::simd::prelude::*;

/// How many octets are looked at at a time.
const LANES: usize = 16;

/// How many octets stand before the first that takes an escape between quotes.
// Not inlined: strings are printed for each kind of sink, and this is the same for all.
#[inline(never)]
pub(crate) fn unescaped_len(octets: &[u8]) -> usize
    ensures { result ≡ prefix_len is_unescaped octets.now }
{
    if octets.len() < LANES {
        return unescaped_len_of_few(octets);
    }
    let last = octets.len() - LANES;
    let mut at = 0;
    while at < last {
        let run = unescaped_run(octets, at);
        if run < LANES {
            return at + run;
        }
        at += LANES;
    }
    // Some of these octets may have been seen before, and take no escape then.
    last + unescaped_run(octets, last)
}

/// Which of the 16 octets at a place take an escape, as bits, the lowest that of the first.
#[inline(always)]
fn escape_bits(octets: &[u8], at: usize) -> u64
    requires { at + LANES ≤ length octets.now }
    ensures { result ≡ mask_l (map is_escaped (chunk at LANES octets.now)) }
{
    let lanes = u8x16::from_slice(&octets[at..]);
    let escaped = lanes.simd_lt(u8x16::splat(b' '))
        | lanes.simd_gt(u8x16::splat(b'~'))
        | lanes.simd_eq(u8x16::splat(b'"'))
        | lanes.simd_eq(u8x16::splat(b'\\'));
    escaped.to_bitmask()
}

/// How many of the 16 octets at a place stand before the first that takes an escape.
#[inline(always)]
fn unescaped_run(octets: &[u8], at: usize) -> usize
    requires { at + LANES ≤ length octets.now }
    ensures { result ≡ prefix_len is_unescaped (chunk at LANES octets.now) }
{
    let bits = escape_bits(octets, at);
    if bits == 0 {
        LANES
    } else {
        bits.trailing_zeros() as usize
    }
}

/// As `unescaped_len`, octet by octet.
#[tactic(auto, using(crate::proofs::Strings::UnescapedRuns::runs_of_few))]
fn unescaped_len_of_few(octets: &[u8]) -> usize
    ensures { result ≡ prefix_len is_unescaped octets.now }
{
    let mut len = 0;
    while len < octets.len() && is_unescaped(octets[len]) {
        len += 1;
    }
    len
}

/// Whether the octet is printed as itself between quotes.
fn is_unescaped(octet: u8) -> bool
    ensures { result ≡ is_unescaped octet }
{
    octet >= b' ' && octet <= b'~' && octet != b'"' && octet != b'\\'
}
