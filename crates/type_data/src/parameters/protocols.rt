ghost use Rattle.std.specs.Prelude.{IfErr, IfSome, IfNone, OnOk};
ghost use Rattle.type_data.specs.Fault.{AppendsStated, IfFault, NothingStated};
ghost use Rattle.type_data.specs.Parameters.Machine.Parts.{FailsEscaped, HasNoItems, IsFirstItem, IsNextListed, ReadsItems};
ghost use Rattle.type_data.specs.Parameters.Value.{ListsProtocols};
ghost use Rattle.type_data.specs.declared.fault.WordsFault.TheVariants as faults;

use crate::fault::{WordsFailing, WordsFault};
use crate::unescaped::push_unescaped;
use arrayvec::ArrayVec;

/// What stands at a place of a list (RFC 9460 A.1).
#[derive(Drop)]
pub(super) enum NextListed<'t> {
    /// The list ends.
    End,
    /// A comma between items, and the rest of the list.
    Comma(&'t [u8]),
    /// An octet of an item, by itself or after a backslash, and the rest of the list.
    Octet(u8, &'t [u8]),
    /// A backslash before another octet, or before nothing.
    BadEscape,
}

/// What a list begins with.
fn next_listed(text: &[u8]) -> NextListed<'_>
    ensures { IsNextListed text.now result }
{
    match text {
        [] => NextListed::End,
        [b',', rest @ ..] => NextListed::Comma(rest),
        [b'\\', octet @ (b',' | b'\\'), rest @ ..] => NextListed::Octet(*octet, rest),
        [b'\\', ..] => NextListed::BadEscape,
        [octet, rest @ ..] => NextListed::Octet(*octet, rest),
    }
}

/// The first item of a list, and what stands after its comma, if it has one. `None`: the list has
/// an item of no octet or of more than 255, or a backslash that stands before neither a comma nor
/// a backslash.
fn first_item(text: &[u8]) -> Option<(ArrayVec<u8, 255>, Option<&[u8]>)>
    ensures found { IfSome result (λ first. IsFirstItem text.now first.0.items first.1) }
    ensures none { IfNone result (HasNoItems text.now) }
{
    let mut item: ArrayVec<u8, 255> = ArrayVec::new();
    let mut rest = text;
    loop {
        match next_listed(rest) {
            NextListed::Octet(octet, after) => {
                if item.is_full() {
                    return None;
                }
                item.push(octet);
                rest = after;
            }
            NextListed::BadEscape => return None,
            NextListed::End => {
                if item.is_empty() {
                    return None;
                }
                return Some((item, None));
            }
            NextListed::Comma(after) => {
                if item.is_empty() {
                    return None;
                }
                return Some((item, Some(after)));
            }
        }
    }
}

/// Appends the items of a list, each after its length.
fn read_items(text: &[u8], out: &mut Vec<u8>) -> Result<(), WordsFailing>
    ensures stated { OnOk result
        (AppendsStated (ReadsItems text.now) out.old.items out.new.items) }
    ensures fault { IfErr result
        (IfFault (NothingStated faults.NotAValue (ReadsItems text.now))) }
{
    let mut rest = text;
    loop {
        let Some((item, after)) = first_item(rest) else {
            return Err(WordsFault::NotAValue.into());
        };
        out.extend_from_slice(&[item.len() as u8])?;
        out.extend_from_slice(item.as_slice())?;
        match after {
            Some(more) => rest = more,
            None => return Ok(()),
        }
    }
}

/// Appends the protocols of a list, each after its length (RFC 9460 7.1.1).
///
/// # Errors
///
/// `BadEscape` where an escape of the text is none, and else `NotAValue`; and want of memory. Some
/// of the octets may have been appended.
pub(super) fn read_protocols(text: &[u8], out: &mut Vec<u8>) -> Result<(), WordsFailing>
    ensures stated { OnOk result
        (AppendsStated (ListsProtocols text.now) out.old.items out.new.items) }
    ensures fault { IfErr result (IfFault (FailsEscaped ListsProtocols text.now)) }
{
    let mut spelt = Vec::new(*out.allocator());
    push_unescaped(text, &mut spelt)?;
    read_items(spelt.as_slice(), out)?;
    Ok(())
}
