ghost use Rattle.std.specs.Prelude.{◌≡◌, ◌≤◌, ◌<◌, ◌+◌, ◌++◌, ◌∷◌, [], ℕ, List, true, false, drop, length, map, slice_index, take, option_copied};
ghost use Rattle.std.specs.Prelude.{IsOk, IsTrue, IfSome, IfOk, IfErr, OnOk, OnErr, Ok, Err};
ghost use Rattle.zone_name.specs.Common.{Labels, Octets};
ghost use Rattle.zone_name.specs.Name.{HoldsName, folded_octet, labels_of};
ghost use Rattle.zone_name.specs.Spelling.{AppendsSpelled, SpellingFault};
ghost use Rattle.zone_name.specs.Machine.LabelWalk.{reading};
ghost use Rattle.zone_name.specs.Machine.Letters.{HoldsLabelsBy, HoldsNameBy, IsReadBy, Joins};
ghost use Rattle.zone_name.specs.Machine.Letters.{SpellsBy, lettered, name_read, origin_in};
ghost use Rattle.zone_name.specs.Machine.Plain.{TellsMarks, WritesLengths, is_plain};
ghost use Rattle.zone_name.specs.Machine.Seen.{HasShape, HoldsCasedLabels};

use crate::escape::{NextUnit, next_unit};
use crate::fault::NameFault;
use crate::lanes::{EVENS, LANES, ROOM, fold_lanes, mark_bits, put, turn_evens};
use crate::limits::{MAX_LABEL_LEN, MAX_NAME_LEN};
use crate::octets::NameOctets;
use arrayvec::ArrayVec;
use std::alloc::AllocError;

/// How a name's text is read (RFC 1035 5.1).
#[derive(Drop)]
enum NameShape {
    /// A dot alone, which is the root.
    Root,
    /// An `@` alone, which is the origin.
    Origin,
    /// Labels parted by dots.
    Labels,
}

/// What becomes of the letters of a name that is read.
#[derive(Clone, Copy, Drop)]
pub(crate) enum Letters {
    /// They stay as they are written.
    Kept,
    /// They are put in lower case (RFC 4343 3).
    Folded,
}

/// How the text is read.
fn shape_of(text: &[u8]) -> NameShape
    ensures { HasShape text.now result }
{
    match text {
        b"." => NameShape::Root,
        b"@" => NameShape::Origin,
        _ => NameShape::Labels,
    }
}

/// What a text says of the labels that it spells.
#[derive(Drop)]
struct Spelled {
    /// The labels take more octets than a name has, and the octets that were kept say nothing.
    is_too_long: bool,
    /// The text ends with a dot that parts labels.
    is_absolute: bool,
}

/// Which of the octets ahead are dots or backslashes.
#[derive(Clone, Copy, Drop)]
struct Marks {
    /// As bits, the lowest that of the first octet.
    bits: u64,
    /// The place after the octets that the bits tell of.
    seen: usize,
}

/// The place of the first dot or backslash from a place on, as far as 16 octets are left to look
/// at, and which of the octets after it are further ones.
fn label_end(octets: &[u8], start: usize, marks: Marks) -> (usize, Marks)
    requires within { start ≤ length octets.now }
    requires tells { TellsMarks marks octets.now start }
    ensures front { start ≤ result.0 }
    ensures back { result.0 ≤ length octets.now }
    ensures each { (k : ℕ) → start ≤ k → k < result.0 → is_plain (slice_index octets.now k) ≡ true }
    ensures ends { result.0 + LANES ≤ length octets.now
        → is_plain (slice_index octets.now result.0) ≡ false }
    ensures tells { TellsMarks result.1 octets.now (result.0 + 1) }
{
    let mut end = start;
    let mut marks = marks;
    while marks.bits == 0 {
        end = marks.seen;
        if octets.len() - end < LANES {
            let seen = end + 1;
            return (end, Marks { bits: 0, seen });
        }
        marks = Marks {
            bits: mark_bits(octets, end),
            seen: end + LANES,
        };
    }
    let run = marks.bits.trailing_zeros() as usize;
    let bits = marks.bits >> run >> 1;
    (end + run, Marks { bits, ..marks })
}

/// Writes the length of each label over the dot before it, where labels with their dots take the
/// first `len` octets, and tells whether each label has 1 to 63 octets and all are plain. If not,
/// the octets say nothing.
#[tactic(auto, using(crate::proofs::Spelling::Plain::lengths_written))]
#[inline(always)]
fn write_lengths(octets: &mut [u8], len: usize) -> bool
    requires { len ≤ length octets.old }
    ensures { IsTrue result → WritesLengths octets.old octets.new (drop len octets.new) }
{
    let mut start = write_ones(octets, len);
    let seen = start + 1;
    let mut marks = Marks { bits: 0, seen };
    while start < len {
        if octets[start] != b'.' {
            return false;
        }
        let (end, ahead) = label_end(octets, start + 1, marks);
        let label_len = end - start - 1;
        if label_len == 0 || label_len > MAX_LABEL_LEN {
            return false;
        }
        octets[start] = label_len as u8;
        start = end;
        marks = ahead;
    }
    start == len
}

/// Writes the lengths of the labels of one octet that come first, but for the last label, over the dots
/// before them, and returns the place after them. An address in ip6.arpa has 32 of them (RFC 3596 2.5),
/// which need no marks.
#[inline(always)]
fn write_ones(octets: &mut [u8], len: usize) -> usize
    requires { len ≤ length octets.old }
    ensures writes { WritesLengths octets.old octets.new (drop result octets.new) }
    ensures as_many { length octets.new ≡ length octets.old }
    ensures within { result ≤ length octets.old }
{
    let mut at = 0;
    while at + 2 < len && octets[at + 2] == b'.' {
        if write_eight(octets, at, len) {
            at += LANES;
        } else if is_one(octets, at) {
            octets[at] = 1;
            at += 2;
        } else {
            return at;
        }
    }
    at
}

/// Writes the lengths of eight labels over the dots before them, if from a place on each has one
/// octet and another label follows, and tells whether it did. If not, all stay.
#[inline(always)]
fn write_eight(octets: &mut [u8], at: usize, len: usize) -> bool
    requires begins { at ≤ len }
    requires room { len ≤ length octets.old }
    ensures within { IsTrue result → at + LANES < len }
    ensures writes { IsTrue result → (before : List ℕ)
        → WritesLengths before octets.old (drop at octets.old)
        → WritesLengths before octets.new (drop (at + LANES) octets.new) }
    ensures left { result ≡ false → octets.new ≡ octets.old }
{
    if len - at <= LANES || octets[at + LANES] != b'.' {
        return false;
    }
    mark_bits(octets, at) == EVENS && turn_evens(octets, at, b'.', 1)
}

/// Whether a plain octet stands after a dot at a place.
#[inline(always)]
fn is_one(octets: &[u8], at: usize) -> bool
    requires { at + 1 < length octets.now }
    ensures dot { IsTrue result → slice_index octets.now at ≡ 46 }
    ensures plain { IsTrue result → is_plain (slice_index octets.now (at + 1)) ≡ true }
{
    let octet = octets[at + 1];
    octets[at] == b'.' && octet != b'.' && octet != b'\\'
}

/// Puts the letters of the first `len` octets in lower case (RFC 4343 3), 16 octets at a time.
#[tactic(auto, using(crate::proofs::InOctets::OctetLanes::mapped_front))]
fn fold_front(octets: &mut [u8], len: usize)
    requires { len + LANES ≤ length octets.old }
    ensures { take len octets.new ≡ map folded_octet (take len octets.old) }
{
    let mut at = 0;
    while at < len {
        fold_lanes(octets, at);
        at += LANES;
    }
}

/// Folds the letters of the labels in the first `len` octets, or keeps them.
fn set_front(octets: &mut [u8], len: usize, letters: Letters)
    requires { len + LANES ≤ length octets.old }
    ensures holds { HoldsCasedLabels (take len octets.old)
        → HoldsLabelsBy letters (take len octets.new) }
    ensures labels { HoldsCasedLabels (take len octets.old)
        → labels_of (take len octets.new) ≡ lettered letters (labels_of (take len octets.old)) }
{
    match letters {
        Letters::Kept => (),
        Letters::Folded => fold_front(octets, len),
    }
}

/// Labels that were read in a room for octets.
#[derive(Drop)]
struct PlainLabels {
    /// How many octets of the room they take.
    len: usize,
    /// The text ends with a dot that parts labels.
    is_absolute: bool,
}

/// Puts the labels of a text without escapes into a room, with their letters folded or kept.
/// `None`: the text has an escape or a fault or is long, and the room says nothing.
#[inline(always)]
fn read_plain_labels(room: &mut [u8], text: &[u8], letters: Letters) -> Option<PlainLabels>
    requires { length room.old ≤ 255 }
    ensures within { IfSome result (λ plain. plain.len + LANES ≤ length room.new) }
    ensures holds { IfSome result (λ plain. HoldsLabelsBy letters (take plain.len room.new)) }
    ensures labels { IfSome result (λ plain. IsReadBy letters text.now (take plain.len room.new)
        (record { is_too_long = false; is_absolute = plain.is_absolute })) }
{
    let (labels, is_absolute) = match text.strip_suffix(b".") {
        Some(labels) => (labels, true),
        None => (text, false),
    };
    let len = labels.len() + 1;
    if len + LANES > room.len() {
        return None;
    }
    room[0] = b'.';
    room[len] = b'.';
    put(room, 1, labels);
    if !write_lengths(room, len) {
        return None;
    }
    set_front(room, len, letters);
    Some(PlainLabels { len, is_absolute })
}

/// Puts the octets of a name after labels in a room, and gives the number of all. `None`: there is
/// no room for them.
#[tactic(auto, using(std::proofs::lemmas::Simd::take_more_put_chunk))]
#[inline(always)]
fn end_in_room(room: &mut [u8], len: usize, ending: &[u8]) -> Option<usize>
    requires { len ≤ length room.old }
    ensures within { IfSome result (λ whole. whole ≤ length room.new) }
    ensures ended { IfSome result (λ whole. take whole room.new ≡ take len room.old ++ ending.now) }
{
    if ending.len() > room.len() - len {
        return None;
    }
    put(room, len, ending);
    Some(len + ending.len())
}

/// Puts the name of a text without escapes, which is neither `.` nor `@`, into a room, and gives
/// the number of its octets. `None`: the text has an escape or a fault or the name is long, and the
/// room says nothing.
#[inline(always)]
pub(crate) fn read_plain(
    room: &mut [u8],
    text: &[u8],
    origin: Option<&[u8]>,
    letters: Letters,
) -> Option<usize>
    requires room { length room.old ≤ 255 }
    requires origin { IfSome (option_copied origin) (HoldsNameBy letters) }
    ensures within { IfSome result (λ len. len ≤ length room.new) }
    ensures name { IfSome result (λ len. HoldsNameBy letters (take len room.new)
        × (name_read letters (origin_in (option_copied origin.entry)) text.now
        ≡ Ok (labels_of (take len room.new)))) }
{
    let plain = read_plain_labels(room, text, letters)?;
    if plain.is_absolute {
        end_in_room(room, plain.len, b"\0")
    } else {
        end_in_room(room, plain.len, origin?)
    }
}

/// Appends a label after its length, its letters folded or kept, and tells whether there was room
/// for it. If not, nothing is appended.
pub(crate) fn append_label(
    octets: &mut ArrayVec<u8, MAX_NAME_LEN>,
    label: &[u8],
    letters: Letters,
) -> bool
    requires some { 0 < length label.now }
    requires short { length label.now ≤ 63 }
    requires holds { HoldsLabelsBy letters octets.old.items }
    ensures holds { HoldsLabelsBy letters octets.new.items }
    ensures joins { Joins letters (labels_of octets.old.items) label.now result
        (labels_of octets.new.items) }
{
    if octets.remaining_capacity() < label.len() + 2 {
        return false;
    }
    octets.push(label.len() as u8);
    for octet in label {
        octets.push(match letters {
            Letters::Kept => *octet,
            Letters::Folded => octet.to_ascii_lowercase(),
        });
    }
    true
}

/// Puts the labels of a text that is neither `.` nor `@` in place, with their letters folded or
/// kept (RFC 1035 5.1), octet by octet.
#[tactic(auto, using(crate::proofs::Spelling::Steps::labels_read))]
fn read_labels(
    octets: &mut ArrayVec<u8, MAX_NAME_LEN>,
    text: &[u8],
    letters: Letters,
) -> Result<Spelled, NameFault>
    requires { octets.old.items ≡ [] }
    ensures holds { HoldsLabelsBy letters octets.new.items }
    ensures labels { IfOk result (λ spelled. IsReadBy letters text.now octets.new.items spelled) }
    ensures fault { IfErr result (λ fault. reading text.now ≡ Err fault) }
{
    if text.is_empty() {
        return Err(NameFault::EmptyLabel);
    }
    let mut label: ArrayVec<u8, MAX_LABEL_LEN> = ArrayVec::new();
    let mut is_too_long = false;
    let mut rest = text;
    while !rest.is_empty() {
        if let Some(after) = rest.strip_prefix(b".") {
            if label.is_empty() {
                return Err(NameFault::EmptyLabel);
            }
            is_too_long |= !append_label(octets, label.as_slice(), letters);
            label.clear();
            rest = after;
        } else {
            let NextUnit::Octet(octet, after) = next_unit(rest) else {
                return Err(NameFault::BadEscape);
            };
            if label.is_full() {
                return Err(NameFault::LabelTooLong);
            }
            label.push(octet);
            rest = after;
        }
    }
    let is_absolute = label.is_empty();
    if !is_absolute {
        is_too_long |= !append_label(octets, label.as_slice(), letters);
    }
    Ok(Spelled {
        is_too_long,
        is_absolute,
    })
}

/// Puts the octets of the name of a text that is neither `.` nor `@` in place of those that are
/// held (RFC 1035 5.1). On an error they are the root's.
#[tactic(auto, using(crate::proofs::Spelling::Letters::root_holds, crate::proofs::Spelling::Letters::held_short))]
// Not inlined: many functions read names.
#[inline(never)]
fn replace(
    octets: &mut NameOctets,
    text: &[u8],
    origin: Option<&[u8]>,
    letters: Letters,
) -> Result<(), NameFault>
    requires { IfSome (option_copied origin) (HoldsNameBy letters) }
    ensures holds { HoldsNameBy letters octets.new }
    ensures ok { OnOk result (name_read letters (origin_in (option_copied origin.entry)) text.now
        ≡ Ok (labels_of octets.new)) }
    ensures err { IfErr result (λ fault.
        name_read letters (origin_in (option_copied origin.entry)) text.now ≡ Err fault) }
    ensures root { OnErr result (octets.new ≡ 0 ∷ []) }
{
    if octets.set_plain(text, origin, letters) {
        return Ok(());
    }
    octets.hold(b"\0");
    let mut read = ArrayVec::new();
    let spelled = read_labels(&mut read, text, letters)?;
    let ending: &[u8] = if spelled.is_absolute {
        b"\0"
    } else {
        origin.ok_or(NameFault::RelativeName)?
    };
    if spelled.is_too_long || ending.len() > read.remaining_capacity() {
        return Err(NameFault::NameTooLong);
    }
    let _ = read.try_extend_from_slice(ending);
    octets.hold(read.as_slice());
    Ok(())
}

/// Puts the octets of the name that a text spells under an origin in place of those that are held
/// (RFC 1035 5.1). On an error they are the root's.
#[tactic(auto, using(crate::proofs::Spelling::Letters::held_short))]
pub(crate) fn read_name(
    octets: &mut NameOctets,
    text: &[u8],
    origin: Option<&[u8]>,
    letters: Letters,
) -> Result<(), NameFault>
    requires { IfSome (option_copied origin) (HoldsNameBy letters) }
    ensures holds { HoldsNameBy letters octets.new }
    ensures found { OnOk result (SpellsBy letters (origin_in (option_copied origin.entry)) text.now
        (labels_of octets.new)) }
    ensures only { (name : List Octets)
        → SpellsBy letters (origin_in (option_copied origin.entry)) text.now name
        → IsOk result × (labels_of octets.new ≡ name) }
    ensures fault { IfErr result
        (SpellingFault (origin_in (option_copied origin.entry)) text.now) }
    ensures err { OnErr result (labels_of octets.new ≡ []) }
{
    match shape_of(text) {
        NameShape::Root => {
            octets.hold(b"\0");
            Ok(())
        }
        NameShape::Origin => match origin {
            Some(above) => {
                octets.hold(above);
                Ok(())
            }
            None => {
                octets.hold(b"\0");
                Err(NameFault::RelativeName)
            }
        },
        NameShape::Labels => replace(octets, text, origin, letters),
    }
}

/// Appends the octets of the name, in lower case, that a text without escapes spells under an
/// origin, and tells whether it did. If not, nothing is appended: the text has an escape or a
/// fault, the name is long, or it is the root or the origin itself.
///
/// # Errors
///
/// `AllocError` where memory is refused.
pub(crate) fn push_plain(
    text: &[u8],
    origin: Option<&[u8]>,
    out: &mut Vec<u8>,
) -> Result<bool, AllocError>
    requires { IfSome (option_copied origin) HoldsName }
    ensures done { IfOk result (λ done. IsTrue done → AppendsSpelled
        (origin_in (option_copied origin.entry)) text.now out.old.items out.new.items) }
    ensures left { IfOk result (λ done. done ≡ false → out.new.items ≡ out.old.items) }
{
    let NameShape::Labels = shape_of(text) else {
        return Ok(false);
    };
    let mut room = [b'.'; ROOM];
    let Some(len) = read_plain(&mut room, text, origin, Letters::Folded) else {
        return Ok(false);
    };
    out.extend_from_slice(&room[..len])?;
    Ok(true)
}
