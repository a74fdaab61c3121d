//! Types by their words, as a bitmap (RFC 4034 4.1.2).
ghost use Rattle.std.specs.List.{AllZip};
ghost use Rattle.std.specs.Prelude.{◌≡◌, ◌+◌, ◌*◌, ◌<◌, ◌≤◌, ◌∷◌, ◌++◌, [], length, map, IfErr, IfNone, IfOk, IfSome, OnOk};
ghost use Rattle.zone_name.specs.Common.{NothingIs};
ghost use Rattle.zone_rdata.specs.Item.{raw};
ghost use Rattle.zone_rdata.specs.Words.{IsKind};
ghost use Rattle.type_data.specs.DataItem.{raw_item};
ghost use Rattle.type_data.specs.Fault.{AppendsStated, IfFault};
ghost use Rattle.type_data.specs.Kinds.Types.{FailsPerhapsTypes, FailsTypes, NamesType, PrintsPerhapsTypes, PrintsTypes, StatesPerhapsTypes, StatesTypes, type_item};
ghost use Rattle.type_data.specs.Kinds.Types.Machine.{HasNoKind, IsInOctet, PrintsBetween};
ghost use Rattle.type_data.specs.Kinds.Bitmap.Machine.{IsInWindow};
ghost use Rattle.type_data.specs.Printed.{IfNoData, NoItems, PrintsAll, after_blanks};

use super::bitmap::{push_windows, take_window};
use super::word::print_type_word;
use crate::data_item::DataItem;
use crate::fault::{WordsFailing, WordsFault};
use crate::mnemonics::{number_of_kind, type_of_word};
use crate::unprinted::Unprinted;
use std::alloc::Global;
use zone_rdata::Item;

/// More types than most bitmaps have, so that room for them is made once.
const USUAL_TYPES: usize = 16;

/// Appends the bitmap of the types that items name, one item or more, in any order.
///
/// # Errors
///
/// `NothingLeft` where there is no item; `NotAType` where an item is quoted, or is the word of no
/// type of which records can be; and `OutOfMemory`. `out` may have got some of the octets.
pub(crate) fn read_types(items: &[DataItem], out: &mut Vec<u8>) -> Result<(), WordsFailing>
    ensures states { OnOk result
        (AppendsStated (StatesTypes (map raw_item items.now)) out.old.items out.new.items) }
    ensures fault { IfErr result (IfFault (FailsTypes (map raw_item items.now))) }
{
    if items.is_empty() {
        return Err(WordsFailing::Fault(WordsFault::NothingLeft));
    }
    read_perhaps_types(items, out)
}

/// Appends the bitmap of the types that items name, in any order: no octets where there is no item.
///
/// # Errors
///
/// `NotAType` where an item is quoted, or is the word of no type of which records can be; and
/// `OutOfMemory`. `out` may have got some of the octets.
pub(crate) fn read_perhaps_types(items: &[DataItem], out: &mut Vec<u8>) -> Result<(), WordsFailing>
    ensures states { OnOk result
        (AppendsStated (StatesPerhapsTypes (map raw_item items.now)) out.old.items out.new.items) }
    ensures fault { IfErr result (IfFault (FailsPerhapsTypes (map raw_item items.now))) }
{
    let mut numbers = numbers_of_types(*out.allocator(), items)?;
    numbers.sort_unstable();
    push_windows(numbers.as_slice(), out)?;
    Ok(())
}

/// The types that items name, in the order of the items.
fn numbers_of_types(alloc: Global, items: &[DataItem]) -> Result<Vec<u16>, WordsFailing>
    ensures numbers { IfOk result
        (λ numbers. AllZip NamesType (map raw_item items.now) numbers.items) }
    ensures fault { IfErr result (IfFault (FailsPerhapsTypes (map raw_item items.now))) }
{
    let mut numbers = Vec::with_capacity(alloc, USUAL_TYPES)?;
    for item in items {
        let Some(number) = type_of_item(item.item) else {
            return Err(WordsFailing::Fault(WordsFault::NotAType));
        };
        numbers.extend_from_slice(&[number])?;
    }
    Ok(numbers)
}

/// The type that an item names. `None`: it is quoted, or no such word.
fn type_of_item(item: Item) -> Option<u16>
    ensures found { IfSome result (NamesType (raw item.entry)) }
    ensures none { IfNone result (NothingIs (NamesType (raw item.entry))) }
{
    match item {
        Item::Bare(word) => type_of_word(word),
        Item::Quoted(_) => None,
    }
}

/// Appends the word of a type after a blank.
///
/// # Errors
///
/// `NoData` where no record can be of the type; and `OutOfMemory`.
fn print_kind(number: u16, out: &mut Vec<u8>) -> Result<(), Unprinted>
    ensures kind { OnOk result (IsKind number) }
    ensures printed { OnOk result
        (out.new.items ≡ out.old.items ++ after_blanks (type_item number ∷ [])) }
    ensures none { IfErr result (IfNoData (IsKind number → ⊥)) }
{
    let Some(kind) = number_of_kind(u64::from(number)) else {
        return Err(Unprinted::NoData);
    };
    out.push(b' ')?;
    print_type_word(kind, out)?;
    Ok(())
}

/// Appends the words of the types whose bits are set in an octet, the highest of which is that of
/// the first type, each after a blank.
///
/// # Errors
///
/// `NoData` where no record can be of one of them; and `OutOfMemory`.
fn print_octet(first: u16, octet: u8, out: &mut Vec<u8>) -> Result<(), Unprinted>
    requires { first ≤ 65528 }
    ensures printed { OnOk result (PrintsBetween (IsInOctet first octet)
        first (first + 8) out.old.items out.new.items) }
    ensures none { IfErr result
        (IfNoData (HasNoKind (IsInOctet first octet) first (first + 8))) }
{
    for place in 0..8u16 {
        if (octet >> (7 - place)) % 2 == 1 {
            print_kind(first + place, out)?;
        }
    }
    Ok(())
}

/// Appends the words of the types of a window, each after a blank.
///
/// # Errors
///
/// `NoData` where no record can be of one of them; and `OutOfMemory`.
fn print_window(number: u8, bits: &[u8], out: &mut Vec<u8>) -> Result<(), Unprinted>
    requires { length bits.now ≤ 32 }
    ensures printed { OnOk result (PrintsBetween (IsInWindow number bits.now)
        (number * 256) (number * 256 + 256) out.old.items out.new.items) }
    ensures none { IfErr result (IfNoData
        (HasNoKind (IsInWindow number bits.now) (number * 256) (number * 256 + 256))) }
{
    let first = u16::from(number) * 256;
    for (index, octet) in bits.iter().enumerate() {
        // Most are zero.
        if *octet != 0 {
            print_octet(first + index as u16 * 8, *octet, out)?;
        }
    }
    Ok(())
}

/// Appends the words of the types of a bitmap (RFC 4034 4.1.2), ascending, each after a blank.
/// Nothing, where there are no octets.
///
/// # Errors
///
/// `NoData` where the octets are no bitmap, or one that has a type of which no record can be; and
/// `OutOfMemory`. `out` may have got some of the words.
pub(crate) fn print_perhaps_types(octets: &[u8], out: &mut Vec<u8>) -> Result<(), Unprinted>
    ensures printed { OnOk result
        (PrintsAll PrintsPerhapsTypes octets.now out.old.items out.new.items) }
    ensures none { IfErr result (IfNoData (NoItems StatesPerhapsTypes octets.now)) }
{
    let mut rest = octets;
    // The lowest number that the next window can have.
    let mut least = 0u16;
    while !rest.is_empty() {
        let (number, bits, after) = take_window(rest)?;
        if u16::from(number) < least {
            return Err(Unprinted::NoData);
        }
        print_window(number, bits, out)?;
        least = u16::from(number) + 1;
        rest = after;
    }
    Ok(())
}

/// Appends the words of the types of a bitmap that has one at least (RFC 4034 4.1.2), ascending,
/// each after a blank.
///
/// # Errors
///
/// `NoData` where the octets are no bitmap, or one that has no type or one of which no record can
/// be; and `OutOfMemory`. `out` may have got some of the words.
pub(crate) fn print_types(octets: &[u8], out: &mut Vec<u8>) -> Result<(), Unprinted>
    ensures printed { OnOk result (PrintsAll PrintsTypes octets.now out.old.items out.new.items) }
    ensures none { IfErr result (IfNoData (NoItems StatesTypes octets.now)) }
{
    if octets.is_empty() {
        return Err(Unprinted::NoData);
    }
    print_perhaps_types(octets, out)
}
