ghost use Rattle.std.specs.Prelude.{◌≡◌, ◌-◌, ◌≤◌, ◌∷◌, drop, length, map, take, IfSome, IsTrue};
ghost use Rattle.std.specs.declared.cmp.Ordering.TheVariants.{Greater, Less};
ghost use Rattle.std.specs.List.{dedup, AllByRecursion};
ghost use Rattle.std.specs.List.Sorted.{IsPermutation};
ghost use Rattle.zone_name.specs.Common.{Labels};
ghost use Rattle.zone_set.specs.Machine.Bulk.{is_repeat, with_hint, AreNeighbours, StandNext};
ghost use Rattle.zone_set.specs.Machine.Held.{all_records, entry_record, IsEntry};
ghost use Rattle.zone_set.specs.Zone.{AreCompatible, SameRecords};

use crate::ahead::{AHEAD, ask_neighbours, ask_run};
use crate::entry::Entry;
use crate::hint::told_front;
use crate::keys::{FEW, first_digit, first_run, sort_all, sort_by_hint, sort_by_record, sort_run};
use crate::offered::canonical_order;
use crate::put::has_other_ttl;
use crate::sets::is_other_soa;
use crate::stored::record_at;
use crate::tie;
use std::cmp::Ordering;
use zone_rdata::Class;

/// Puts entries in order and drops those of equal records, where their records can stand together.
/// Else they are of the same records, in any order. Where they are as many as before, none was
/// dropped.
pub(crate) fn settle(class: Class, base_len: usize, octets: &[u8], entries: &mut Vec<Entry>) -> bool
    ghost base: { Labels }
    requires { AllByRecursion (IsEntry base class octets.now) entries.old.items }
    ensures each { AllByRecursion (IsEntry base class octets.now) entries.new.items }
    ensures same { SameRecords (all_records class octets.now entries.new.items)
        (all_records class octets.now entries.old.items) }
    ensures compatible { IsTrue result
        → AreCompatible (all_records class octets.now entries.new.items) }
    ensures whole { length entries.new.items ≡ length entries.old.items
        → IsPermutation entries.old.items entries.new.items }
{
    // What came in order isn't sorted.
    if are_neighbours(class, octets, entries.as_slice()) {
        return true;
    }
    if sort_and_look(class, base_len, octets, entries) {
        return true;
    }
    drop_repeats(entries, octets);
    are_neighbours(class, octets, entries.as_slice())
}

/// Sorts entries, and tells whether each one's record stands before the next one's, and both may
/// stand in one zone.
fn sort_and_look(class: Class, base_len: usize, octets: &[u8], entries: &mut Vec<Entry>) -> bool
    ghost base: { Labels }
    requires { AllByRecursion (IsEntry base class octets.now) entries.old.items }
    ensures moved { IsPermutation entries.old.items entries.new.items }
    ensures next { IsTrue result
        → AreNeighbours (all_records class octets.now entries.new.items) }
{
    let (entries, front) = (entries.as_mut_slice(), told_front(base_len));
    if put_runs(class, octets, entries, front) {
        return true;
    }
    // Repeats come to stand together.
    sort_all(entries, octets, front);
    false
}

/// Sorts entries as long as each one's record stands before the next one's, and both may stand in
/// one zone, and tells whether all do. Entries of one hint are looked at as soon as they are sorted,
/// since then the cache has their records.
fn put_runs(class: Class, octets: &[u8], entries: &mut [Entry], front: usize) -> bool
    ghost base: { Labels }
    requires { AllByRecursion (IsEntry base class octets.now) entries.old }
    ensures moved { IsPermutation entries.old entries.new }
    ensures next { IsTrue result → AreNeighbours (all_records class octets.now entries.new) }
{
    sort_by_hint(entries);
    let (mut start, mut seen) = (0, 0usize);
    while let Some((hint, len)) = first_run(&entries[start..]) {
        if start >= seen {
            if !ask_neighbours(octets, &entries[start..]) {
                return false;
            }
            seen = start.saturating_add(AHEAD);
        }
        let run = Run { start, hint, front };
        if !put_run(class, octets, &mut entries[..start + len], run) {
            return false;
        }
        start += len;
    }
    true
}

/// Where entries of one hint begin that go to the end, the hint, and where the types stand in keys of
/// their records.
#[derive(Clone, Copy)]
struct Run {
    start: usize,
    hint: u64,
    front: usize,
}

/// Sorts a run of entries, and tells whether each record of those before it and of its own stands
/// before the next one, and both may stand in one zone, where this holds of those before it.
fn put_run(class: Class, octets: &[u8], entries: &mut [Entry], run: Run) -> bool
    ghost base: { Labels }
    requires each { AllByRecursion (IsEntry base class octets.now) entries.old }
    requires within { run.start ≤ length entries.old }
    requires same { map (with_hint run.hint) (drop run.start entries.old) ≡ drop run.start entries.old }
    ensures moved { IsPermutation entries.old entries.new }
    ensures next { IsTrue result
        → AreNeighbours (all_records class octets.now (take run.start entries.old))
        → AreNeighbours (all_records class octets.now entries.new) }
{
    if entries.len() - run.start > FEW {
        put_many(class, octets, entries, run)
    } else {
        put_few(class, octets, entries, run.start)
    }
}

/// `put_run` by keys, for more than a few. None is put among those before it: with a wrong key that
/// would be done again and again. Those that are out of order after their keys are sorted by their
/// records.
fn put_many(class: Class, octets: &[u8], entries: &mut [Entry], run: Run) -> bool
    ghost base: { Labels }
    requires each { AllByRecursion (IsEntry base class octets.now) entries.old }
    requires within { run.start ≤ length entries.old }
    requires same { map (with_hint run.hint) (drop run.start entries.old) ≡ drop run.start entries.old }
    ensures moved { IsPermutation entries.old entries.new }
    ensures next { IsTrue result
        → AreNeighbours (all_records class octets.now (take run.start entries.old))
        → AreNeighbours (all_records class octets.now entries.new) }
{
    let Run { start, hint, front } = run;
    let (digit, last) = (first_digit(hint, front, 0), start.saturating_sub(1));
    sort_run(&mut entries[start..], octets, front, hint, digit);
    match neighbour_order(class, octets, &entries[last..]) {
        Some(Ordering::Less) => true,
        Some(Ordering::Greater) => {
            sort_by_record(&mut entries[start..], octets);
            are_neighbours(class, octets, &entries[last..])
        }
        Some(Ordering::Equal) | None => false,
    }
}

/// Puts entries from a place on among those before them, one after another, as long as all stand in
/// order and can stand in one zone, and tells whether they do. So a few are sorted.
fn put_few(class: Class, octets: &[u8], entries: &mut [Entry], start: usize) -> bool
    ghost base: { Labels }
    requires each { AllByRecursion (IsEntry base class octets.now) entries.old }
    requires within { start ≤ length entries.old }
    ensures moved { IsPermutation entries.old entries.new }
    ensures next { IsTrue result
        → AreNeighbours (all_records class octets.now (take start entries.old))
        → AreNeighbours (all_records class octets.now entries.new) }
{
    let mut put = start;
    while put < entries.len() {
        put += 1;
        if !put_last(class, octets, &mut entries[..put]) {
            return false;
        }
    }
    true
}

/// Puts the last entry among those before it, if these stand in order, and tells whether it can
/// stand there.
fn put_last(class: Class, octets: &[u8], entries: &mut [Entry]) -> bool
    ghost base: { Labels }
    requires { AllByRecursion (IsEntry base class octets.now) entries.old }
    ensures moved { IsPermutation entries.old entries.new }
    ensures next { IsTrue result
        → AreNeighbours (all_records class octets.now (take (length entries.old - 1) entries.old))
        → AreNeighbours (all_records class octets.now entries.new) }
{
    let mut at = entries.len().saturating_sub(1);
    while at > 0 {
        match standing(class, octets, entries[at - 1], entries[at]) {
            Some(Ordering::Less) => return true,
            Some(Ordering::Greater) => entries.swap(at - 1, at),
            Some(Ordering::Equal) | None => return false,
        }
        at -= 1;
    }
    true
}

/// Drops each entry whose record is that of the one before it.
fn drop_repeats(entries: &mut Vec<Entry>, octets: &[u8])
    ensures { entries.new.items ≡ dedup (is_repeat octets.now) entries.old.items }
{
    entries.dedup_by(|entry, last| tie::is_repeat(octets, entry, last));
}

/// Whether each entry's record stands before the next one's, and both may stand in one zone.
pub(crate) fn are_neighbours(class: Class, octets: &[u8], entries: &[Entry]) -> bool
    ghost base: { Labels }
    requires { AllByRecursion (IsEntry base class octets.now) entries.now }
    ensures { IsTrue result → AreNeighbours (all_records class octets.now entries.now) }
{
    neighbour_order(class, octets, entries) == Some(Ordering::Less)
}

/// `Less` where each entry's record stands before the next one's, and both may stand in one zone.
/// Else how the first two lie of which this doesn't hold. `None`: they can't stand in one zone, or a
/// record isn't where its entry says.
fn neighbour_order(class: Class, octets: &[u8], entries: &[Entry]) -> Option<Ordering>
    ghost base: { Labels }
    requires { AllByRecursion (IsEntry base class octets.now) entries.now }
    ensures { IfSome result (λ order. order ≡ Less
        → AreNeighbours (all_records class octets.now entries.now)) }
{
    let Some((first, rest)) = entries.split_first() else {
        return Some(Ordering::Less);
    };
    let (mut last, mut left) = (*first, rest);
    while let Some((next, after)) = left.split_first() {
        if left.len() % AHEAD == 0 && !ask_run(octets, left) {
            return None;
        }
        match standing(class, octets, last, *next) {
            Some(Ordering::Less) => {}
            other => return other,
        }
        last = *next;
        left = after;
    }
    Some(Ordering::Less)
}

/// How the records of two entries stand, where both may stand in one zone.
#[inline(always)]
fn standing(class: Class, octets: &[u8], a: Entry, b: Entry) -> Option<Ordering>
    ghost base: { Labels }
    requires first { IsEntry base class octets.now a }
    requires second { IsEntry base class octets.now b }
    ensures before { IfSome result (λ order. order ≡ Less
        → StandNext (entry_record class octets.now a) (entry_record class octets.now b)) }
    ensures after { IfSome result (λ order. order ≡ Greater
        → StandNext (entry_record class octets.now b) (entry_record class octets.now a)) }
{
    if a.hint != b.hint {
        return Some(a.hint.cmp(&b.hint));
    }
    let (rr, next) = (
        record_at(class, octets, a.at),
        record_at(class, octets, b.at),
    );
    if has_other_ttl(&rr, &next) || is_other_soa(&rr, &next) {
        return None;
    }
    Some(canonical_order(&rr, &next))
}
