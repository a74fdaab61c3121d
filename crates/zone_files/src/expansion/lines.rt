//! Lines of a file that are entries by themselves, found 64 octets at a time (RFC 1035 5.1).
ghost use Rattle.std.specs.Prelude.{◌≡◌, ◌≤◌, ◌<◌, ◌++◌, length, map, not, take, IfNone, IfSome};
ghost use Rattle.std.specs.List.{prefix_len};
ghost use Rattle.std.specs.Simd.Lanes.{mask_l};
ghost use Rattle.zone_files.specs.Machine.Lines.{AreLines, BeginsUnowned, HasParted, IsLine, LeavesOwner, StatesOwner, StayOwned, is_mark, parts_owner};

use crate::expansion::owners::spelled;
use memchr::memrchr;
use std::simd::prelude::*;
use zone_name::CasedName;
use zone_name::laws::are_octets;
use zone_text::is_blank;

/// By the low four bits of an octet, four times: the octet with these bits by which a line may be
/// no entry by itself. Else an octet of other low bits.
#[rattlefmt::skip]
const BY_LOW_BITS: [u8; 64] = [
    255, 255, b'"', 255, b'$', 255, 255, 255, b'(', b')', 255, b';', b'\\', 255, 255, 0,
    255, 255, b'"', 255, b'$', 255, 255, 255, b'(', b')', 255, b';', b'\\', 255, 255, 0,
    255, 255, b'"', 255, b'$', 255, 255, 255, b'(', b')', 255, b';', b'\\', 255, 255, 0,
    255, 255, b'"', 255, b'$', 255, 255, 255, b'(', b')', 255, b';', b'\\', 255, 255, 0,
];

/// Whether a line with this octet may be no entry by itself, or a directive.
fn is_mark(octet: u8) -> bool
    ensures { result ≡ is_mark octet }
{
    matches!(octet, b'"' | b'$' | b'(' | b')' | b';' | b'\\')
}

/// Which of the first 64 octets are marks, as bits.
#[inline(always)]
fn mark_bits(octets: &[u8]) -> u64
    requires { 64 ≤ length octets.now }
    ensures { result ≡ mask_l (map is_mark (take 64 octets.now)) }
{
    let v = u8x64::from_slice(octets);
    let alike = u8x64::from_array(BY_LOW_BITS).swizzle_dyn_within::<16>(v & u8x64::splat(15));
    (v.simd_eq(alike) | v.simd_eq(u8x64::splat(b')'))).to_bitmask()
}

/// The number of octets before the first mark.
fn len_to_mark(octets: &[u8]) -> usize
    ensures len { result ≡ prefix_len (λ c. not (is_mark c)) octets.now }
    ensures within { result ≤ length octets.now }
{
    let mut seen = 0;
    while octets.len() - seen >= 64 {
        let (_, ahead) = octets.split_at(seen);
        let bits = mark_bits(ahead);
        if bits != 0 {
            return seen + bits.trailing_zeros() as usize;
        }
        seen += 64;
    }
    let (_, rest) = octets.split_at(seen);
    seen + len_in_few(rest)
}

/// As `len_to_mark`, octet by octet.
fn len_in_few(octets: &[u8]) -> usize
    ensures len { result ≡ prefix_len (λ c. not (is_mark c)) octets.now }
    ensures within { result ≤ length octets.now }
{
    octets.iter().take_while(|octet| !is_mark(**octet)).count()
}

/// What stands up to the last line feed, with it, and what stands after it.
fn split_after_feed(octets: &[u8]) -> (&[u8], &[u8])
    ensures { HasParted octets.now result.0.now result.1.now }
{
    match memrchr(b'\n', octets) {
        Some(feed) => octets.split_at(feed + 1),
        None => octets.split_at(0),
    }
}

/// The lines at the front that are entries by themselves, and what stands after them.
pub(crate) fn lines_in_front(octets: &[u8]) -> (&[u8], &[u8])
    ensures lines { AreLines result.0.now }
    ensures parts { octets.now ≡ result.0.now ++ result.1.now }
{
    let (unmarked, _) = octets.split_at(len_to_mark(octets));
    let (lines, _) = split_after_feed(unmarked);
    octets.split_at(lines.len())
}

/// The last of lines, and those before it.
fn last_line(lines: &[u8]) -> (&[u8], &[u8])
    requires lines { AreLines lines.now }
    requires some { 0 < length lines.now }
    ensures before { AreLines result.0.now }
    ensures line { IsLine result.1.now }
    ensures parts { lines.now ≡ result.0.now ++ result.1.now }
    ensures shorter { length result.0.now < length lines.now }
{
    let (front, _) = lines.split_at(lines.len() - 1);
    let (before, _) = split_after_feed(front);
    lines.split_at(before.len())
}

/// Whether the octet ends the owner at the front of a line.
fn parts_owner(octet: u8) -> bool
    ensures { result ≡ parts_owner octet }
{
    is_blank(octet) || octet == b'\n'
}

/// The number of octets before the first blank or line feed.
fn owner_len(line: &[u8]) -> usize
    ensures len { result ≡ prefix_len (λ c. not (parts_owner c)) line.now }
    ensures within { result ≤ length line.now }
{
    line.iter()
        .take_while(|octet| !parts_owner(**octet))
        .count()
}

/// The owner that a line states. `None`: it states none.
fn stated_owner(line: &[u8]) -> Option<&[u8]>
    ensures some { IfSome result (λ owner. StatesOwner line.now owner.now) }
    ensures none { IfNone result (BeginsUnowned line.now) }
{
    let len = owner_len(line);
    if len == 0 {
        return None;
    }
    let (owner, _) = line.split_at(len);
    Some(owner)
}

/// The name that the owner of a line spells under an origin, if it states one.
fn line_owner(line: &[u8], origin: &CasedName) -> Option<CasedName>
    ensures { LeavesOwner origin.now line.now result }
{
    match stated_owner(line) {
        Some(owner) => spelled(owner, origin),
        None => None,
    }
}

/// The name of the last owner that lines state and that spells one under an origin, if there is one.
pub(crate) fn lines_owner(lines: &[u8], origin: &CasedName) -> Option<CasedName>
    requires { AreLines lines.now }
    ensures { StayOwned origin.now lines.now result }
{
    are_octets(lines);
    let _octets = origin.wire();
    let mut front = lines;
    'lines: while !front.is_empty() {
        let (before, line) = last_line(front);
        match line_owner(line, origin) {
            Some(name) => return Some(name),
            None => front = before,
        }
    }
    None
}
