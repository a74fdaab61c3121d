ghost use Rattle.std.specs.Prelude.{◌≡◌, ◌<◌, ◌≤◌, [], length, map, take, IfNone, IfSome};
ghost use Rattle.std.specs.List.Sorted.{IsPermutation};
ghost use Rattle.zone_set.specs.Machine.Bulk.{with_hint};

use crate::ahead::{AHEAD, ask_run};
use crate::distinct::digest;
use crate::entry::Entry;
use crate::hint::first_untold;
use crate::owner::{first_label, owner_order, past_far, shared_end};
use crate::tie::{StoredParts, span, stored_at, tie_order};
use std::cmp::Ordering;

/// How many entries are at most sorted by their octets alone.
pub(crate) const FEW: usize = 8;

/// After so many digits octets are compared, and no more keys are made.
const FAR: usize = 320;

/// Below so many octets of an owner the digits that all share aren't looked for: keys soon pass them.
const SHORT: usize = 48;

/// How often a run is sorted by one of its records, one sort inside another.
const PIVOTS: usize = 16;

/// The place of records that have the owner of the one that they are compared with. An owner has at
/// most 255 octets.
const SAME: u64 = 256;

/// Sorts entries by their hints.
pub(crate) fn sort_by_hint(entries: &mut [Entry])
    ensures { IsPermutation entries.old entries.new }
{
    entries.sort_unstable_by(|a, b| a.hint.cmp(&b.hint));
}

/// Sorts entries of one hint by their records.
pub(crate) fn sort_by_record(entries: &mut [Entry], octets: &[u8])
    ensures { IsPermutation entries.old entries.new }
{
    entries.sort_unstable_by(|a, b| tie_order(octets, a.at, b.at));
}

/// Sorts all entries by their hints and then by their records.
pub(crate) fn sort_all(entries: &mut [Entry], octets: &[u8], front: usize)
    ensures { IsPermutation entries.old entries.new }
{
    sort(entries, octets, front, 0, PIVOTS);
}

/// Sorts entries by their hints, and then each run of one hint. Those of one hint have the same
/// digits before this one.
#[cycle(keys)]
fn sort(entries: &mut [Entry], octets: &[u8], front: usize, digit: usize, pivots: usize)
    ensures { IsPermutation entries.old entries.new }
{
    sort_by_hint(entries);
    let mut start = 0;
    while let Some((hint, len)) = first_run(&entries[start..]) {
        let is_most = digit > 0 && len > FEW && len > entries.len() - entries.len() / 4;
        let run = &mut entries[start..start + len];
        let first = first_digit(hint, front, digit);
        if is_most {
            sort_by_one(run, octets, front, hint, first, pivots);
        } else {
            sort_keyed(run, octets, front, hint, first, pivots);
        }
        start += len;
    }
}

/// The first digit in which entries of one hint may differ.
pub(crate) fn first_digit(hint: u64, front: usize, digit: usize) -> usize
    ensures { digit ≤ result }
{
    // At first hints are no keys.
    match first_untold(hint, front) {
        Some(first) if digit == 0 => first,
        _ => digit,
    }
}

/// The first entry's hint, and how many entries from it on have that. `None`: there is no entry.
pub(crate) fn first_run(entries: &[Entry]) -> Option<(u64, usize)>
    ensures none { IfNone result (entries.now ≡ []) }
    ensures within { IfSome result (λ run. (0 < run.1) × (run.1 ≤ length entries.now)) }
    ensures same { IfSome result (λ run.
        map (with_hint run.0) (take run.1 entries.now) ≡ take run.1 entries.now) }
{
    let (first, rest) = entries.split_first()?;
    Some((first.hint, 1 + run_len(rest, first.hint)))
}

/// How many entries from the first on have a hint.
fn run_len(entries: &[Entry], hint: u64) -> usize
    ensures within { result ≤ length entries.now }
    ensures same { map (with_hint hint) (take result entries.now) ≡ take result entries.now }
{
    let mut len = 0;
    while len < entries.len() && entries[len].hint == hint {
        len += 1;
    }
    len
}

/// Sorts entries of one hint, whose records have the same digits before this one.
pub(crate) fn sort_run(run: &mut [Entry], octets: &[u8], front: usize, hint: u64, digit: usize)
    requires { map (with_hint hint) run.old ≡ run.old }
    ensures { IsPermutation run.old run.new }
{
    sort_keyed(run, octets, front, hint, digit, PIVOTS);
}

/// Sorts entries of one hint, whose records have the same digits before this one, by keys which
/// stand in its place meanwhile: by the digits of their records that come next. That they ascend is
/// seen later: of this it is known only that they are the same, and only how soon a zone is made
/// rests on the keys.
#[cycle(keys)]
fn sort_keyed(
    run: &mut [Entry],
    octets: &[u8],
    front: usize,
    hint: u64,
    digit: usize,
    pivots: usize,
)
    requires { map (with_hint hint) run.old ≡ run.old }
    ensures { IsPermutation run.old run.new }
{
    if run.len() < 2 {
        return;
    }
    if run.len() <= FEW || digit > FAR {
        sort_by_record(run, octets);
        return;
    }
    // Nor are keys made where all are equal.
    if run.is_sorted_by(|a, b| tie_order(octets, a.at, b.at).is_le()) {
        return;
    }
    let digit = digit.max(shared_digits(run, octets, front, digit));
    set_keys(run, octets, front, digit);
    sort(run, octets, front, digit.saturating_add(8), pivots);
    set_hint(run, hint);
}

/// Sorts entries of one hint, most of those that a key was to part. Another key would part as few, if
/// their owners share long ends and one or two leave at each label. So they are sorted by how their
/// owners lie to one of them, and by how much of its end they share: that parts them at all labels of
/// that one.
#[cycle(keys)]
fn sort_by_one(
    run: &mut [Entry],
    octets: &[u8],
    front: usize,
    hint: u64,
    digit: usize,
    pivots: usize,
)
    requires { map (with_hint hint) run.old ≡ run.old }
    ensures { IsPermutation run.old run.new }
{
    let Some(fewer) = pivots.checked_sub(1) else {
        sort_keyed(run, octets, front, hint, digit, pivots);
        return;
    };
    let one = pivot_of(run, octets);
    if one.len() < SHORT {
        sort_keyed(run, octets, front, hint, digit, pivots);
        return;
    }
    set_places(run, octets, one);
    sort_places(run, octets, front, one.len(), fewer);
    set_hint(run, hint);
}

/// Sorts entries by their places to an owner of so many octets, and then each run of one place.
#[cycle(keys)]
fn sort_places(entries: &mut [Entry], octets: &[u8], front: usize, len_of_one: usize, pivots: usize)
    ensures { IsPermutation entries.old entries.new }
{
    sort_by_hint(entries);
    let mut start = 0;
    while let Some((place, len)) = first_run(&entries[start..]) {
        let digit = match place.cmp(&SAME) {
            Ordering::Less => (place as usize).saturating_sub(1),
            Ordering::Equal => front.max(len_of_one),
            Ordering::Greater => (2 * SAME).saturating_sub(place).saturating_sub(1) as usize,
        };
        let run = &mut entries[start..start + len];
        sort_keyed(run, octets, front, place, digit, pivots);
        start += len;
    }
}

/// The owner of a record of a run, drawn by the digests of some, so that who writes a zone can't choose
/// it easily.
fn pivot_of<'z>(run: &[Entry], octets: &'z [u8]) -> &'z [u8] {
    let (mut drawn, mut left) = (0u64, run);
    let step = run.len() / FEW + 1;
    while let Some((first, _)) = left.split_first() {
        drawn = digest(drawn, span(octets, first.at));
        left = match left.split_at_checked(step) {
            Some((_, after)) => after,
            None => break,
        };
    }
    match run.get((drawn >> 33) as usize % run.len().max(1)) {
        Some(entry) => match stored_at(octets, entry.at) {
            Some(stored) => stored.owner,
            None => &octets[..0],
        },
        None => &octets[..0],
    }
}

/// Gives each entry its place to an owner, in place of the one hint that all have.
fn set_places(run: &mut [Entry], octets: &[u8], one: &[u8])
    ensures { map (λ e. e.at) run.new ≡ map (λ e. e.at) run.old }
{
    let mut next = 0;
    while next < run.len() {
        if next % AHEAD == 0 && !ask_run(octets, &run[next..]) {
            return;
        }
        run[next].hint = place_to(octets, run[next].at, one);
        next += 1;
    }
}

/// How a record's owner lies to another, as a number that ascends with owners: those before it by how
/// many octets they share with its end, and those after it the other way round.
fn place_to(octets: &[u8], at: usize, one: &[u8]) -> u64 {
    let Some(stored) = stored_at(octets, at) else {
        return 0;
    };
    let shared = shared_end(one, stored.owner).len() as u64;
    match owner_order(stored.owner, one) {
        Ordering::Less => shared,
        Ordering::Equal => SAME,
        Ordering::Greater => (2 * SAME).saturating_sub(shared),
    }
}

/// How many digits of their owners all records of a run have in common, or fewer. It isn't looked
/// further for where no more than those before one are.
#[inline(never)]
fn shared_digits(run: &[Entry], octets: &[u8], front: usize, digit: usize) -> usize {
    let Some((first, rest)) = run.split_first() else {
        return 0;
    };
    let Some(one) = stored_at(octets, first.at) else {
        return 0;
    };
    let (whole, mut end, mut all) = (one.owner.len(), one.owner, true);
    if whole < SHORT {
        return 0;
    }
    for entry in rest {
        let Some(other) = stored_at(octets, entry.at) else {
            return 0;
        };
        all &= other.owner.len() == whole;
        end = shared_end(end, other.owner);
        // The root's octet is no digit.
        if end.len() <= digit.saturating_add(1) {
            return 0;
        }
    }
    if all && end.len() == whole {
        front.max(whole)
    } else {
        end.len().saturating_sub(1)
    }
}

/// Gives each entry the key of its record, in place of the one hint that all have.
fn set_keys(run: &mut [Entry], octets: &[u8], front: usize, digit: usize)
    ensures { map (λ e. e.at) run.new ≡ map (λ e. e.at) run.old }
{
    let mut next = 0;
    while next < run.len() {
        if next % AHEAD == 0 && !ask_run(octets, &run[next..]) {
            return;
        }
        run[next].hint = key_of(octets, run[next].at, front, digit);
        next += 1;
    }
}

/// Gives each entry one hint.
fn set_hint(run: &mut [Entry], hint: u64)
    ensures places { map (λ e. e.at) run.new ≡ map (λ e. e.at) run.old }
    ensures hints { map (with_hint hint) run.new ≡ run.new }
{
    for entry in run.iter_mut() {
        entry.hint = hint;
    }
}

/// Eight of the digits by which records are ordered, from one on: those of the labels of the owner
/// from the right, further 0 up to the front, and the type and the data. Digits are counted as if
/// each octet of a label and its end were one: a label of one digit takes up two.
#[inline(never)]
fn key_of(octets: &[u8], at: usize, front: usize, digit: usize) -> u64 {
    let Some(stored) = stored_at(octets, at) else {
        return 0;
    };
    // The root's octet is no digit.
    let whole = stored.owner.len().saturating_sub(1);
    let past = digit.saturating_add(16);
    let after = if whole < past {
        key_of_data(&stored, whole, front, digit)
    } else {
        0
    };
    // All digits of the owner stand before.
    if whole <= digit {
        return after;
    }
    // Those before have eight digits, even if each has one alone.
    let near = past_far(stored.owner, past.saturating_add(1));
    let (mut labels, mut key) = put_hexadecimals(near, digit, after);
    let mut end = labels.len().saturating_sub(1);
    while let Some((label, rest)) = first_label(labels) {
        if end <= digit {
            break;
        }
        end = end.saturating_sub(label.len().saturating_add(1));
        key = put_label(label, digit.saturating_sub(end), key);
        labels = rest;
    }
    key
}

/// Puts the labels of one hexadecimal digit that come first before the digits of a key, as those of
/// an address in ip6.arpa (RFC 3596 2.5), and gives those that are left, from one digit on.
fn put_hexadecimals(labels: &[u8], digit: usize, after: u64) -> (&[u8], u64) {
    let (mut left, mut key) = (labels, after);
    while let [len, octet, rest @ ..] = left {
        if *len != 1 || rest.len() <= digit {
            break;
        }
        let Some(first) = alone_digit(*octet) else {
            break;
        };
        key = put_digit(first, key);
        left = rest;
    }
    (left, key)
}

/// Eight of the digits from one on, and none before the owner's end.
fn key_of_data(stored: &StoredParts<'_>, end: usize, front: usize, digit: usize) -> u64 {
    let (first, kind_at) = (digit.max(end), front.max(end.saturating_add(1)));
    let past = first.saturating_sub(kind_at);
    let data = put(stored.data, past.saturating_sub(2), 0);
    let key = put(&stored.kind.to_be_bytes(), past, data);
    let zeros = kind_at.saturating_sub(first);
    if zeros < 8 { key >> (8 * zeros) } else { 0 }
}

/// Puts octets from one on before the digits of a key.
fn put(octets: &[u8], from: usize, after: u64) -> u64 {
    let few = eight(octets, from);
    if let Some(first) = few.first_chunk::<8>() {
        return u64::from_be_bytes(*first);
    }
    let mut key = after;
    for octet in few.iter().rev() {
        key = put_digit(*octet, key);
    }
    key
}

/// Puts the digits of a label from one on, and its end, before those of a key. No label has a capital
/// letter, so that an octet has room for each digit.
fn put_label(label: &[u8], from: usize, after: u64) -> u64 {
    if from > 0 {
        return put_octets(label, from, after >> 8);
    }
    match label {
        [] => after >> 8,
        [octet] => match alone_digit(*octet) {
            Some(digit) => put_digit(digit, after),
            None => put_digit(longer_digit(*octet), after >> 8),
        },
        [octet, ..] => put_digit(longer_digit(*octet), put_octets(label, 1, after >> 8)),
    }
}

/// The digit of a label of one octet, if it is hexadecimal.
#[inline(always)]
fn alone_digit(octet: u8) -> Option<u8> {
    match octet {
        b'0'..=b'9' => Some(2 * octet - 47),
        b'a'..=b'f' => Some(2 * octet - 112),
        _ => None,
    }
}

/// The digit of an octet that begins a label and that others follow.
fn longer_digit(octet: u8) -> u8 {
    match octet {
        0..=b'/' => octet + 1,
        b'0'..=b'9' => 2 * octet - 46,
        b':'..=b'Z' => octet + 11,
        b'['..=b'`' => octet - 15,
        b'a'..=b'f' => 2 * octet - 111,
        _ => octet - 9,
    }
}

/// Puts octets of a label from one on before the digits of a key: those before the capital letters
/// count one more, since the end is 0.
fn put_octets(octets: &[u8], from: usize, after: u64) -> u64 {
    let mut key = after;
    for octet in eight(octets, from).iter().rev() {
        key = put_digit(if *octet < b'[' { *octet + 1 } else { *octet }, key);
    }
    key
}

/// Puts a digit before those of a key, of which the last one goes.
fn put_digit(digit: u8, after: u64) -> u64 {
    after >> 8 | (digit as u64) << 56
}

/// The octets from one on, at most eight, after which none counts.
fn eight(octets: &[u8], from: usize) -> &[u8] {
    let Some((_, after)) = octets.split_at_checked(from) else {
        return &octets[..0];
    };
    match after.split_at_checked(8) {
        Some((first, _)) => first,
        None => after,
    }
}
