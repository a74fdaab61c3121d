//! Values up to the end of the data, without a length (RFC 8659 4.1.1, RFC 7553 4.4).
ghost use Rattle.std.specs.Prelude.{map, OnOk, IfErr};
ghost use Rattle.zone_rdata.specs.Item.{raw};
ghost use Rattle.type_data.specs.DataItem.{raw_item};
ghost use Rattle.type_data.specs.Fault.{AppendsStated, IfFault};
ghost use Rattle.type_data.specs.FirstItem.{FirstFails, FirstStates};
ghost use Rattle.type_data.specs.Kinds.Value.{FailsQuotedValue, FailsValue, PrintsValue, StatesQuotedValue, StatesValue};
ghost use Rattle.type_data.specs.Printed.{IfNoData, PrintsAll};

use super::strings::print_quoted;
use crate::data_item::DataItem;
use crate::fault::{WordsFailing, WordsFault};
use crate::unescaped::push_unescaped;
use crate::unprinted::Unprinted;
use zone_rdata::Item;

/// Appends the value that the first item is, bare or quoted, its escapes undone.
///
/// # Errors
///
/// `NothingLeft` where there is no item, and those of `read_value`.
pub(crate) fn read_first_value(items: &[DataItem], out: &mut Vec<u8>) -> Result<(), WordsFailing>
    ensures states { OnOk result
        (AppendsStated (FirstStates StatesValue (map raw_item items.now)) out.old.items
        out.new.items) }
    ensures fault { IfErr result (IfFault (FirstFails FailsValue (map raw_item items.now))) }
{
    match items.first() {
        Some(first) => read_value(first.item, out),
        None => Err(WordsFailing::Fault(WordsFault::NothingLeft)),
    }
}

/// Appends the value that the first item is, which has to be quoted, its escapes undone.
///
/// # Errors
///
/// `NothingLeft` where there is no item, and those of `read_quoted_value`.
pub(crate) fn read_first_quoted_value(
    items: &[DataItem],
    out: &mut Vec<u8>,
) -> Result<(), WordsFailing>
    ensures states { OnOk result
        (AppendsStated (FirstStates StatesQuotedValue (map raw_item items.now)) out.old.items
        out.new.items) }
    ensures fault { IfErr result
        (IfFault (FirstFails FailsQuotedValue (map raw_item items.now))) }
{
    match items.first() {
        Some(first) => read_quoted_value(first.item, out),
        None => Err(WordsFailing::Fault(WordsFault::NothingLeft)),
    }
}

/// Appends the value that an item is, bare or quoted, its escapes undone.
///
/// # Errors
///
/// `BadEscape` where a backslash begins no escape; and `OutOfMemory`. `out` may have got some of
/// the octets.
fn read_value(item: Item, out: &mut Vec<u8>) -> Result<(), WordsFailing>
    ensures states { OnOk result
        (AppendsStated (StatesValue (raw item.entry)) out.old.items out.new.items) }
    ensures fault { IfErr result (IfFault (FailsValue (raw item.entry))) }
{
    match item {
        Item::Bare(text) | Item::Quoted(text) => push_unescaped(text, out),
    }
}

/// Appends the value that a quoted item is, its escapes undone.
///
/// # Errors
///
/// `NotQuoted` for a bare item, `BadEscape` where a backslash begins no escape; and `OutOfMemory`.
/// `out` may have got some of the octets.
fn read_quoted_value(item: Item, out: &mut Vec<u8>) -> Result<(), WordsFailing>
    ensures states { OnOk result
        (AppendsStated (StatesQuotedValue (raw item.entry)) out.old.items out.new.items) }
    ensures fault { IfErr result (IfFault (FailsQuotedValue (raw item.entry))) }
{
    match item {
        Item::Bare(_) => Err(WordsFailing::Fault(WordsFault::NotQuoted)),
        Item::Quoted(text) => push_unescaped(text, out),
    }
}

/// Appends octets as one item in quotes, after a blank (RFC 1035 5.1).
///
/// # Errors
///
/// Want of memory. `out` may have got some of the item.
pub(crate) fn print_value_item(octets: &[u8], out: &mut Vec<u8>) -> Result<(), Unprinted>
    ensures printed { OnOk result
        (PrintsAll PrintsValue octets.now out.old.items out.new.items) }
    ensures none { IfErr result (IfNoData ⊥) }
{
    out.push(b' ')?;
    print_quoted(octets, out)?;
    Ok(())
}
