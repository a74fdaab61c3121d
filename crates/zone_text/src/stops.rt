//! Where bare items stop, found 64 octets at a time (RFC 1035 5.1).
ghost use Rattle.std.specs.Prelude.{◌≡◌, ◌+◌, ◌-◌, ◌≤◌, drop, length, map, not, take};
ghost use Rattle.std.specs.List.{prefix_len};
ghost use Rattle.std.specs.Simd.Lanes.{mask_l};
ghost use Rattle.zone_text.specs.Machine.ItemLengths.{stops_bare};
ghost use Rattle.zone_text.specs.Machine.Stops.{Tells};

use crate::items::plain_bare_len;
use std::simd::prelude::*;

/// Which of the octets ahead end a bare item or are backslashes.
#[derive(Clone, Copy, Drop)]
pub(crate) struct Stops {
    /// As bits, the lowest that of the first octet.
    bits: u64,
    /// How many octets follow those that the bits tell of.
    unseen: usize,
}

/// By the low four bits of an octet, four times: what ends a bare item or is a backslash and has
/// these bits, but for `)`. Else an octet of other low bits.
#[rattlefmt::skip]
const BY_LOW_BITS: [u8; 64] = [
    b' ', 255, b'"', 255, 255, 255, 255, 255, b'(', b'\t', b'\n', b';', b'\\', b'\r', 255, 0,
    b' ', 255, b'"', 255, 255, 255, 255, 255, b'(', b'\t', b'\n', b';', b'\\', b'\r', 255, 0,
    b' ', 255, b'"', 255, 255, 255, 255, 255, b'(', b'\t', b'\n', b';', b'\\', b'\r', 255, 0,
    b' ', 255, b'"', 255, 255, 255, 255, 255, b'(', b'\t', b'\n', b';', b'\\', b'\r', 255, 0,
];

/// Which of the first 64 octets end a bare item or are backslashes, as bits.
#[inline(always)]
fn stop_bits(octets: &[u8]) -> u64
    requires { 64 ≤ length octets.now }
    ensures { result ≡ mask_l (map stops_bare (take 64 octets.now)) }
{
    let v = u8x64::from_slice(octets);
    let alike = u8x64::from_array(BY_LOW_BITS).swizzle_dyn_within::<16>(v & u8x64::splat(15));
    (v.simd_eq(alike) | v.simd_eq(u8x64::splat(b')'))).to_bitmask()
}

/// As `Stops::bare_len`, where none of the octets was looked at.
fn bare_len(octets: &[u8]) -> (usize, Stops)
    ensures len { result.0 ≡ prefix_len (λ c. not (stops_bare c)) octets.now }
    ensures tells { Tells result.1 (drop (result.0 + 1) octets.now) }
{
    let mut seen = 0;
    while octets.len() - seen >= 64 {
        let (_, ahead) = octets.split_at(seen);
        let bits = stop_bits(ahead);
        if bits != 0 {
            let more = bits.trailing_zeros() as usize;
            let stops = Stops {
                bits: bits >> more >> 1,
                unseen: ahead.len() - 64,
            };
            return (seen + more, stops);
        }
        seen += 64;
    }
    let (_, rest) = octets.split_at(seen);
    let more = plain_bare_len(rest);
    let stops = Stops {
        bits: 0,
        unseen: rest.len() - rest.len().min(more + 1),
    };
    (seen + more, stops)
}

impl Stops {
    /// None of these octets was looked at.
    pub(crate) fn unseen(octets: &[u8]) -> Stops
        ensures { Tells result octets.now }
    {
        Stops {
            bits: 0,
            unseen: octets.len(),
        }
    }

    /// What is known of the last of these octets, if they are so many, and else of others.
    #[inline(always)]
    pub(crate) fn past(self, octets: &[u8], left: &[u8]) -> Stops
        requires tells { Tells self octets.now }
        requires left { length left.now ≤ length octets.now
            → left.now ≡ drop (length octets.now - length left.now) octets.now }
        ensures { Tells result left.now }
    {
        if octets.len() < left.len() || left.len() <= self.unseen {
            return Stops::unseen(left);
        }
        let passed = octets.len() - left.len();
        if passed == 0 {
            return self;
        }
        Stops {
            bits: self.bits >> (passed - 1) >> 1,
            unseen: self.unseen,
        }
    }

    /// The number of octets before the first that ends a bare item or is a backslash, and what is
    /// known of those after that one.
    #[inline(always)]
    #[tactic(auto, using(crate::proofs::Scanning::StopMarks::stop_lengths))]
    pub(crate) fn bare_len(self, octets: &[u8]) -> (usize, Stops)
        requires tells { Tells self octets.now }
        ensures len { result.0 ≡ prefix_len (λ c. not (stops_bare c)) octets.now }
        ensures tells { Tells result.1 (drop (result.0 + 1) octets.now) }
    {
        if self.bits == 0 {
            let seen = octets.len() - self.unseen;
            let (_, ahead) = octets.split_at(seen);
            let (more, stops) = bare_len(ahead);
            return (seen + more, stops);
        }
        let len = self.bits.trailing_zeros() as usize;
        let stops = Stops {
            bits: self.bits >> len >> 1,
            unseen: self.unseen,
        };
        (len, stops)
    }
}
