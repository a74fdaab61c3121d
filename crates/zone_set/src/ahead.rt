//! Octets of records are asked for before the records are looked at, so that they come out of memory
//! side by side and not one after another: records lie in another order than their entries. Nothing
//! rests on it but how soon a zone is made and printed. An octet is only asked for where something
//! hangs on it: so octets are added up, and the sum is compared with what it is at most.
use crate::entry::Entry;

/// How many records are asked for at once.
pub(crate) const AHEAD: usize = 16;

/// How many octets after its first one most records end.
const MOST: usize = 56;

/// The greatest sum of octets that are asked for at once: two of each of two records for each entry.
const GREATEST: usize = 4 * AHEAD * 255;

/// Asks for the records of the next entries that share a hint with a neighbour. The answer is yes.
pub(crate) fn ask_neighbours(octets: &[u8], entries: &[Entry]) -> bool {
    let ahead = &entries[..entries.len().min(AHEAD + 1)];
    let mut sum = 0usize;
    for next in 1..ahead.len() {
        let (a, b) = (ahead[next - 1], ahead[next]);
        if a.hint == b.hint {
            sum = sum.wrapping_add(asked_of(octets, a.at));
            sum = sum.wrapping_add(asked_of(octets, b.at));
        }
    }
    sum <= GREATEST
}

/// Asks for the records of the next entries if all share a hint: in a long run the cache holds other
/// records when that was sorted. The answer is yes.
// Not inlined: so it costs nothing where it isn't asked.
#[inline(never)]
pub(crate) fn ask_run(octets: &[u8], entries: &[Entry]) -> bool {
    let ahead = &entries[..entries.len().min(AHEAD)];
    let (Some(first), Some(last)) = (ahead.first(), ahead.last()) else {
        return true;
    };
    let mut sum = 0usize;
    if first.hint == last.hint {
        for entry in ahead {
            sum = sum.wrapping_add(asked_of(octets, entry.at));
        }
    }
    sum <= GREATEST
}

/// Asks for the end of a record whose beginning was read. The answer is yes but for a few records, by
/// an octet that few have.
pub(crate) fn ask_end(octets: &[u8], at: usize) -> bool {
    octet_at(octets, at.wrapping_add(MOST)) != 255
}

/// The sum of an octet with which a record begins and one with which it mostly ends.
fn asked_of(octets: &[u8], at: usize) -> usize {
    octet_at(octets, at).wrapping_add(octet_at(octets, at.wrapping_add(MOST)))
}

/// The octet at a place, if there is one, and else 0.
fn octet_at(octets: &[u8], at: usize) -> usize {
    match octets.get(at) {
        Some(octet) => *octet as usize,
        None => 0,
    }
}
