ghost use Rattle.std.specs.Prelude.{◌≡◌, ◌++◌, ◌≤◌, [], length, OnOk, OnErr, Err};
ghost use Rattle.zone_name.specs.Name.{with_length};
ghost use Rattle.zone_name.specs.Sink.{TakesSome};
ghost use Rattle.zone_rdata.specs.Item.{raw};
ghost use Rattle.zone_rdata.specs.Strings.{SpellsString, StringFault, inside_text, item_text, string_text, unit_text};
ghost use Rattle.zone_rdata.specs.Appended.{Appends};

use crate::cause::Cause;
use crate::fault::{Failing, Fault};
use crate::item::Item;
use crate::narrow_failing::NarrowFailing;
use crate::unescaped::unescaped_len;
use arrayvec::ArrayVec;
use std::alloc::AllocError;
use zone_name::laws::are_octets;
use zone_name::{NextUnit, Sink, decimal_escape, next_unit};

/// The most octets of a string (RFC 1035 3.3).
pub(crate) const LONGEST_STRING: usize = 255;

/// Appends the string that the item spells, its octets after their number (RFC 1035 3.3, 5.1). If
/// it is refused, `out` is unchanged.
///
/// # Errors
///
/// The leftmost `BadEscape` or `StringTooLong`; and `Memory` where memory is refused.
#[tactic(auto, using(crate::proofs::Strings::StringSteps::spells_itself))]
pub fn push_string(item: Item, out: &mut Vec<u8>) -> Result<(), NarrowFailing>
    ensures found { OnOk result
        (Appends (SpellsString (raw item.entry)) with_length out.old.items out.new.items) }
    ensures fault { (fault : Fault) → result ≡ Err (Failing.Fault fault)
        → StringFault (raw item.entry) fault }
    ensures err { OnErr result (out.new.items ≡ out.old.items) }
{
    let text = text_of(item);
    if text.len() <= LONGEST_STRING && !text.contains(&b'\\') {
        are_octets(text);
        push_with_length(text, out)?;
        return Ok(());
    }
    push_unescaped(item, out)
}

/// As `push_string`, of an item that has an escape or is long.
// Not inlined: few strings are so, and the room for one would be cleared for each.
#[inline(never)]
#[tactic(auto, using(crate::proofs::Strings::StringSteps::steps_read))]
fn push_unescaped(item: Item, out: &mut Vec<u8>) -> Result<(), NarrowFailing>
    ensures found { OnOk result
        (Appends (SpellsString (raw item.entry)) with_length out.old.items out.new.items) }
    ensures fault { (fault : Fault) → result ≡ Err (Failing.Fault fault)
        → StringFault (raw item.entry) fault }
    ensures err { OnErr result (out.new.items ≡ out.old.items) }
{
    let mut octets: ArrayVec<u8, LONGEST_STRING> = ArrayVec::new();
    let mut rest = text_of(item);
    loop {
        match next_unit(rest) {
            NextUnit::End => break,
            NextUnit::Octet(octet, after) => {
                if octets.is_full() {
                    return Err(NarrowFailing::of(Cause::StringTooLong));
                }
                octets.push(octet);
                rest = after;
            }
            NextUnit::BadEscape => return Err(NarrowFailing::of(Cause::BadEscape)),
        }
    }
    are_octets(octets.as_slice());
    push_with_length(octets.as_slice(), out)?;
    Ok(())
}

/// Appends a string's octets after their number. Where memory is refused, `out` is unchanged.
pub(crate) fn push_with_length(octets: &[u8], out: &mut Vec<u8>) -> Result<(), AllocError>
    requires { length octets.now ≤ LONGEST_STRING }
    ensures ok { OnOk result (out.new.items ≡ out.old.items ++ with_length octets.now) }
    ensures err { OnErr result (out.new.items ≡ out.old.items) }
{
    let before = out.len();
    out.extend_from_slice(&[octets.len() as u8])?;
    let pushed = out.extend_from_slice(octets);
    if pushed.is_err() {
        out.truncate(before);
    }
    pushed
}

/// The text of an item, bare or between its quotes.
fn text_of(item: Item<'_>) -> &[u8]
    ensures { result.now ≡ item_text (raw item.entry) }
{
    match item {
        Item::Bare(text) | Item::Quoted(text) => text,
    }
}

/// Appends a string's canonical text: its octets in quotes.
///
/// # Errors
///
/// `out` refuses octets. A prefix of the text may have been appended.
pub fn push_string_text<S: Sink>(octets: &[u8], out: &mut S) -> Result<(), S::Error>
    ensures ok { OnOk result (S.takes out.old (string_text octets.now) out.new) }
    ensures err { OnErr result (TakesSome S.takes out.old out.new) }
{
    out.push(b"\"")?;
    push_units(octets, out)?;
    out.push(b"\"")
}

/// Appends the octets' text between quotes: at once as many as take no escape, then one that does.
fn push_units<S: Sink>(octets: &[u8], out: &mut S) -> Result<(), S::Error>
    ensures ok { OnOk result (S.takes out.old (inside_text octets.now) out.new) }
    ensures err { OnErr result (TakesSome S.takes out.old out.new) }
{
    let mut rest = octets;
    loop {
        let (plain, after) = rest.split_at(unescaped_len(rest));
        out.push(plain)?;
        let Some((octet, following)) = after.split_first() else {
            return Ok(());
        };
        push_unit(*octet, out)?;
        rest = following;
    }
}

/// Appends an octet's text between quotes.
fn push_unit<S: Sink>(octet: u8, out: &mut S) -> Result<(), S::Error>
    ensures ok { OnOk result (S.takes out.old (unit_text octet) out.new) }
    ensures err { OnErr result (S.takes out.old [] out.new) }
{
    if octet == b'"' || octet == b'\\' {
        out.push(&[b'\\', octet])
    } else if octet >= b' ' && octet <= b'~' {
        out.push(&[octet])
    } else {
        out.push(&decimal_escape(octet))
    }
}
