//! Character-strings, each after its length (RFC 1035 3.3).
ghost use Rattle.std.specs.Prelude.{◌≡◌, ◌<◌, ◌++◌, length, map, IfErr, IfOk, OnOk};
ghost use Rattle.zone_rdata.specs.Item.{raw};
ghost use Rattle.zone_rdata.specs.Strings.{string_text, unit_text};
ghost use Rattle.type_data.specs.DataItem.{raw_item};
ghost use Rattle.type_data.specs.Fault.{AppendsStated, IfFault};
ghost use Rattle.type_data.specs.FirstItem.{FirstFails, FirstStates};
ghost use Rattle.type_data.specs.Kinds.Strings.{FailsPerhaps, FailsString, FailsStrings, IsAString, PrintsString, PrintsStrings, StatesPerhaps, StatesString, StatesStrings};
ghost use Rattle.type_data.specs.Kinds.Strings.Machine.{failing_of_string};
ghost use Rattle.type_data.specs.Printed.{IfNoData, NoFront, NoItems, PrintsAll, PrintsFront};

use crate::data_item::DataItem;
use crate::fault::{WordsFailing, WordsFault};
use crate::taking::take_counted;
use crate::unprinted::Unprinted;
use std::alloc::AllocError;
use zone_name::decimal_escape;
use zone_rdata::{Failing, Fault, Item, NarrowFailing, push_string_text};

/// Appends the string that an item is, after its length.
///
/// # Errors
///
/// The leftmost of `BadEscape` and `StringTooLong`; and want of memory.
fn read_string(item: Item, out: &mut Vec<u8>) -> Result<(), WordsFailing>
    ensures states { OnOk result
        (AppendsStated (StatesString (raw item.entry)) out.old.items out.new.items) }
    ensures fault { IfErr result (IfFault (FailsString (raw item.entry))) }
{
    match zone_rdata::push_string(item, out) {
        Ok(()) => Ok(()),
        Err(failing) => Err(failing_of(failing)),
    }
}

/// Appends the string that the first item is, after its length.
///
/// # Errors
///
/// `NothingLeft` where there is no item, and those of `read_string`.
pub(crate) fn read_first_string(items: &[DataItem], out: &mut Vec<u8>) -> Result<(), WordsFailing>
    ensures states { OnOk result
        (AppendsStated (FirstStates StatesString (map raw_item items.now)) out.old.items
        out.new.items) }
    ensures fault { IfErr result (IfFault (FirstFails FailsString (map raw_item items.now))) }
{
    match items.first() {
        Some(first) => read_string(first.item, out),
        None => Err(WordsFailing::Fault(WordsFault::NothingLeft)),
    }
}

/// Appends the string that the first item is, after its length, and nothing where there is none.
///
/// # Errors
///
/// Those of `read_string`.
pub(crate) fn read_perhaps_string(items: &[DataItem], out: &mut Vec<u8>) -> Result<(), WordsFailing>
    ensures states { OnOk result
        (AppendsStated (StatesPerhaps (map raw_item items.now)) out.old.items out.new.items) }
    ensures fault { IfErr result (IfFault (FailsPerhaps (map raw_item items.now))) }
{
    match items.first() {
        Some(first) => read_string(first.item, out),
        None => Ok(()),
    }
}

/// Appends the strings that items are, one item or more, each after its length.
///
/// # Errors
///
/// `NothingLeft` where there is no item, and those of `read_string`, of the leftmost item that has
/// one. `out` may have got some of the strings.
pub(crate) fn read_strings(items: &[DataItem], out: &mut Vec<u8>) -> Result<(), WordsFailing>
    ensures states { OnOk result
        (AppendsStated (StatesStrings (map raw_item items.now)) out.old.items out.new.items) }
    ensures fault { IfErr result (IfFault (FailsStrings (map raw_item items.now))) }
{
    if items.is_empty() {
        return Err(WordsFailing::Fault(WordsFault::NothingLeft));
    }
    for item in items {
        read_string(item.item, out)?;
    }
    Ok(())
}

/// The failing of a string in the words of this crate.
fn failing_of(failing: NarrowFailing) -> WordsFailing
    ensures { result ≡ failing_of_string failing }
{
    match Failing::from(failing) {
        Failing::Fault(Fault::BadEscape) => WordsFailing::Fault(WordsFault::BadEscape),
        Failing::Fault(_) => WordsFailing::Fault(WordsFault::StringTooLong),
        Failing::Memory => WordsFailing::OutOfMemory,
    }
}

/// Appends an octet between quotes (RFC 1035 5.1).
pub(crate) fn print_unit(octet: u8, out: &mut Vec<u8>) -> Result<(), AllocError>
    ensures ok { OnOk result (out.new.items ≡ out.old.items ++ unit_text octet) }
{
    match octet {
        b'"' | b'\\' => out.extend_from_slice(&[b'\\', octet]),
        b' '..=b'~' => out.extend_from_slice(&[octet]),
        _ => out.extend_from_slice(&decimal_escape(octet)),
    }
}

/// Appends octets in quotes.
pub(crate) fn print_quoted(octets: &[u8], out: &mut Vec<u8>) -> Result<(), AllocError>
    ensures ok { OnOk result (out.new.items ≡ out.old.items ++ string_text octets.now) }
{
    push_string_text(octets, out)
}

/// Appends the character-string at the front, in quotes, and gives what is left.
///
/// # Errors
///
/// `NoData` where none stands at the front, and want of memory. `out` may have got some of it.
pub(crate) fn print_string<'o>(octets: &'o [u8], out: &mut Vec<u8>) -> Result<&'o [u8], Unprinted>
    ensures left { IfOk result (λ rest. length rest.now < length octets.now) }
    ensures printed { IfOk result (λ rest.
        PrintsFront PrintsString IsAString octets.now rest.now out.old.items out.new.items) }
    ensures none { IfErr result (IfNoData (NoFront IsAString octets.now)) }
{
    let (string, rest) = take_counted(octets)?;
    print_quoted(string, out)?;
    Ok(rest)
}

/// Appends character-strings in quotes, one or more, a blank before each.
///
/// # Errors
///
/// `NoData` where the octets are none, and want of memory. `out` may have got some of them.
pub(crate) fn print_strings(octets: &[u8], out: &mut Vec<u8>) -> Result<(), Unprinted>
    ensures printed { OnOk result
        (PrintsAll PrintsStrings octets.now out.old.items out.new.items) }
    ensures none { IfErr result (IfNoData (NoItems StatesStrings octets.now)) }
{
    if octets.is_empty() {
        return Err(Unprinted::NoData);
    }
    let mut rest = octets;
    while !rest.is_empty() {
        out.extend_from_slice(b" ")?;
        rest = print_string(rest, out)?;
    }
    Ok(())
}
