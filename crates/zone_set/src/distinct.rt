//! Whether records that are kept differ for the most part. The answer is a lower bound: a record
//! counts only if it is sure to differ from all that counted before it.
ghost use Rattle.std.specs.Prelude.{◌≡◌, ◌+◌, ℕ, IfOk, IsTrue};
ghost use Rattle.std.specs.List.{AllByRecursion};
ghost use Rattle.zone_name.specs.Common.{Labels};
ghost use Rattle.zone_set.specs.Machine.Distinct as distinct;
ghost use Rattle.zone_set.specs.Machine.Distinct.{IsSeen};
ghost use Rattle.zone_set.specs.Machine.Held.{all_records, IsEntry};
ghost use Rattle.zone_set.specs.Machine.Marks.{HasDifferent};

use crate::entry::Entry;
use crate::tie::span;
use std::alloc::{AllocError, Global};

/// An odd number by which products have mixed bits: two to the 64th by the golden ratio.
const FACTOR: u64 = 0x9e37_79b9_7f4a_7c15;

/// What numbers of records are made of.
#[derive(Clone, Copy)]
pub(crate) enum Look {
    /// The hint and the last octets: most records of a zone differ in these.
    Quick,
    /// All octets.
    Whole,
}

/// Whether different records are seen among those of entries that take more than so many octets.
/// Where it is false there may be such records all the same.
///
/// # Errors
///
/// `AllocError` where memory is refused.
pub(crate) fn has_different(
    alloc: Global,
    octets: &[u8],
    entries: &[Entry],
    look: Look,
    least: usize,
) -> Result<bool, AllocError>
    ensures { IfOk result (λ has. IsTrue has → (base : Labels) (class : ℕ)
        → AllByRecursion (IsEntry base class octets.now) entries.now
        → HasDifferent (all_records class octets.now entries.now) (least + 1)) }
{
    let mut seen = Seen::new(alloc, entries.len())?;
    let (mut count, mut left) = (0usize, entries);
    while let Some((entry, rest)) = left.split_first() {
        let record = span(octets, entry.at);
        if seen.insert(number_of(look, entry.hint, record)) {
            count = count.saturating_add(record.len());
            if count > least {
                return Ok(true);
            }
        }
        left = rest;
    }
    Ok(false)
}

/// The number of a record, of which others may have the same one.
#[inline(always)]
fn number_of(look: Look, hint: u64, octets: &[u8]) -> u64
    ensures { result ≡ distinct.number_of look hint octets.now }
{
    match look {
        Look::Quick => mixed(hint, last_eight(octets)),
        Look::Whole => digest(0, octets),
    }
}

/// A number that octets have with a seed.
pub(crate) fn digest(seed: u64, octets: &[u8]) -> u64
    ensures { result ≡ distinct.digest seed octets.now }
{
    let mut digest = mixed(seed, octets.len() as u64);
    let mut left = octets;
    while let Some((eight, rest)) = left.split_first_chunk::<8>() {
        digest = mixed(digest, u64::from_le_bytes(*eight));
        left = rest;
    }
    mixed(digest, last_eight(octets))
}

/// The last eight octets as a number, or 0 where there are fewer.
#[inline(always)]
fn last_eight(octets: &[u8]) -> u64
    ensures { result ≡ distinct.last_eight octets.now }
{
    match octets.last_chunk::<8>() {
        Some(last) => u64::from_le_bytes(*last),
        None => 0,
    }
}

/// A number in which the bits of two are mixed.
#[inline(always)]
fn mixed(a: u64, b: u64) -> u64
    ensures { result ≡ distinct.mixed a b }
{
    (a ^ b ^ (a >> 29)).wrapping_mul(FACTOR)
}

/// Numbers that were seen, each by a bit of eight or more for each: a number may be taken for
/// another.
#[derive(Drop)]
struct Seen {
    bits: Vec<u64>,
    /// How many low bits of a number don't tell its bit.
    shift: u32,
}

impl Seen {
    /// None was seen, of so many that may be.
    ///
    /// # Errors
    ///
    /// `AllocError` where memory is refused.
    fn new(alloc: Global, count: usize) -> Result<Seen, AllocError> {
        let shift = (count as u64 | 8).leading_zeros().saturating_sub(4).max(20);
        Ok(Seen {
            bits: vec![in alloc; 0; (u64::MAX >> shift >> 6) as usize + 1]?,
            shift,
        })
    }

    /// Sees a number, and tells whether it is sure that it wasn't seen before.
    fn insert(&mut self, number: u64) -> bool
        ensures new { IsTrue result → IsSeen self.old number → ⊥ }
        ensures seen { IsTrue result → IsSeen self.new number }
        ensures stay { (other : ℕ) → IsSeen self.old other → IsSeen self.new other }
    {
        let bit = number >> (self.shift % 64);
        let (at, mask) = ((bit / 64) as usize, 1u64 << (bit % 64));
        let words = self.bits.as_mut_slice();
        if at >= words.len() {
            return false;
        }
        let word = words[at];
        words[at] = word | mask;
        word & mask == 0
    }
}
