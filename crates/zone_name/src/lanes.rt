//! What is seen of octets, and done to them, 16 at a time.
ghost use Rattle.std.specs.Prelude.{◌≡◌, ◌+◌, ◌≤◌, false, length, map, IsTrue};
ghost use Rattle.std.specs.List.{count_by};
ghost use Rattle.std.specs.Simd.Lanes.{chunk, mask_l, put_chunk};
ghost use Rattle.zone_name.specs.Machine.Shown.{is_odd};
ghost use Rattle.zone_name.specs.Machine.Plain.{TurnsEvens, is_mark};
ghost use Rattle.zone_name.specs.Name.{folded_octet};

use std::simd::prelude::*;

/// How many octets are looked at at a time.
pub(crate) const LANES: usize = 16;

/// The bits of each second one of 16 octets, from the first on.
pub(crate) const EVENS: u64 = 0x5555;

/// The room that most names are read and printed in, with 16 octets after them that may be looked
/// at.
pub(crate) const ROOM: usize = 128;

/// By the low four bits of an octet: what is printed after a backslash and has these bits. Else 0,
/// which has others.
#[rattlefmt::skip]
const ODD_BY_LOW_BITS: [u8; 16] = [
    b'@', 0, b'"', 0, b'$', 0, 0, 0, b'(', b')', 0, b';', b'\\', 0, b'.', 0,
];

/// Writes octets into the room for them, from a place on.
#[tactic(auto, using(std::proofs::lemmas::Simd::put_chunk_is))]
#[inline(always)]
pub(crate) fn put(room: &mut [u8], at: usize, octets: &[u8])
    requires { at + length octets.now ≤ length room.old }
    ensures { room.new ≡ put_chunk at room.old octets.now }
{
    room[at..at + octets.len()].copy_from_slice(octets);
}

/// Which of the 16 octets at a place are dots or backslashes, as bits. The lowest is that of the
/// first.
#[inline(always)]
pub(crate) fn mark_bits(octets: &[u8], at: usize) -> u64
    requires { at + LANES ≤ length octets.now }
    ensures { result ≡ mask_l (map is_mark (chunk at LANES octets.now)) }
{
    let lanes = u8x16::from_slice(&octets[at..]);
    let marks = lanes.simd_eq(u8x16::splat(b'.')) | lanes.simd_eq(u8x16::splat(b'\\'));
    marks.to_bitmask()
}

/// Writes one octet over another, if of the 16 octets at a place each second one is that other,
/// from the first on, and no further one is, and tells whether it did. If not, all stay.
#[inline(always)]
pub(crate) fn turn_evens(octets: &mut [u8], at: usize, from: u8, to: u8) -> bool
    requires { at + LANES ≤ length octets.old }
    ensures turned { IsTrue result → TurnsEvens octets.old octets.new at from to }
    ensures left { result ≡ false → octets.new ≡ octets.old }
{
    let lanes = u8x16::from_slice(&octets[at..]);
    let found = lanes.simd_eq(u8x16::splat(from));
    if found.to_bitmask() != EVENS {
        return false;
    }
    let turned = found.select(u8x16::splat(to), lanes);
    turned.copy_to_slice(&mut octets[at..]);
    true
}

/// Puts the letters of the 16 octets at a place in lower case (RFC 4343 3).
#[inline(always)]
pub(crate) fn fold_lanes(octets: &mut [u8], at: usize)
    requires { at + LANES ≤ length octets.old }
    ensures { octets.new
        ≡ put_chunk at octets.old (map folded_octet (chunk at LANES octets.old)) }
{
    let lanes = u8x16::from_slice(&octets[at..]);
    let capitals = lanes.simd_ge(u8x16::splat(b'A')) & lanes.simd_le(u8x16::splat(b'Z'));
    let bits = capitals.select(u8x16::splat(0x20), u8x16::splat(0));
    (lanes | bits).copy_to_slice(&mut octets[at..]);
}

/// How many of the 16 octets at a place don't spell themselves, as no dot does.
#[inline(always)]
pub(crate) fn odd_in(octets: &[u8], at: usize) -> usize
    requires { at + LANES ≤ length octets.now }
    ensures { result ≡ count_by is_odd (chunk at LANES octets.now) }
{
    let lanes = u8x16::from_slice(&octets[at..]);
    let low = lanes & u8x16::splat(15);
    let alike = u8x16::from_array(ODD_BY_LOW_BITS).swizzle_dyn_within::<16>(low);
    let odd = lanes.simd_lt(u8x16::splat(b'!'))
        | lanes.simd_gt(u8x16::splat(b'~'))
        | lanes.simd_eq(alike);
    odd.to_bitmask().count_ones() as usize
}
