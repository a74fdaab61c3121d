ghost use Rattle.std.specs.Int.{to_be_bytes, w16};
ghost use Rattle.std.specs.Prelude.{◌↔◌, ◌≡◌, ◌++◌, IsTrue, IfErr, IfOk, OnOk};
ghost use Rattle.std.specs.List.{AllZip, flat_map};
ghost use Rattle.type_data.specs.Fault.{AppendsStated, IfFault, NothingStated};
ghost use Rattle.type_data.specs.Parameters.Value.{AscendAbove, IsKeyText, listed, ListsKeys, StatesKeys};
ghost use Rattle.type_data.specs.declared.fault.WordsFault.TheVariants as faults;

use super::key::key_of;
use crate::cut::cut_at_first;
use crate::fault::{WordsFailing, WordsFault};
use std::alloc::{AllocError, Global};

/// The number of a key.
fn number_of_key(text: &[u8]) -> Result<u16, WordsFailing>
    ensures found { IfOk result (IsKeyText text.now) }
    ensures fault { IfErr result (IfFault (NothingStated faults.NotAValue (IsKeyText text.now))) }
{
    let key = key_of(text).ok_or(WordsFault::NotAValue)?;
    Ok(key.number())
}

/// The numbers of keys that are parted by commas, in the order of the text.
fn numbers_of_keys(alloc: Global, text: &[u8]) -> Result<Vec<u16>, WordsFailing>
    ensures found { IfOk result (λ numbers. AllZip IsKeyText (listed text.now) numbers.items) }
    ensures fault { IfErr result
        (IfFault (NothingStated faults.NotAValue (AllZip IsKeyText (listed text.now)))) }
{
    let mut numbers = Vec::new(alloc);
    let mut rest = text;
    while let Some((key, after)) = cut_at_first(rest, b',') {
        numbers.extend_from_slice(&[number_of_key(key)?])?;
        rest = after;
    }
    numbers.extend_from_slice(&[number_of_key(rest)?])?;
    Ok(numbers)
}

/// Whether each number is greater than the one before it, and the first than 0.
fn ascend(numbers: &[u16]) -> bool
    ensures { IsTrue result ↔ AscendAbove 0 numbers.now }
{
    let mut low = 0;
    for number in numbers {
        if *number <= low {
            return false;
        }
        low = *number;
    }
    true
}

/// The keys of a list in ascending order: each once, and not `mandatory` (RFC 9460 8).
fn ascending_keys(alloc: Global, text: &[u8]) -> Result<Vec<u16>, WordsFailing>
    ensures found { IfOk result (λ numbers. ListsKeys text.now numbers.items) }
    ensures fault { IfErr result
        (IfFault (NothingStated faults.NotAValue (ListsKeys text.now))) }
{
    let mut numbers = numbers_of_keys(alloc, text)?;
    numbers.sort_unstable();
    if !ascend(numbers.as_slice()) {
        return Err(WordsFault::NotAValue.into());
    }
    Ok(numbers)
}

/// Appends the octets of numbers of 16 bits.
fn read_numbers(numbers: &[u16], out: &mut Vec<u8>) -> Result<(), AllocError>
    ensures { OnOk result
        (out.new.items ≡ out.old.items ++ flat_map (to_be_bytes w16) numbers.now) }
{
    for number in numbers {
        out.extend_from_slice(&number.to_be_bytes())?;
    }
    Ok(())
}

/// Appends the octets of the keys that are mandatory, and adds these to those that are required.
///
/// # Errors
///
/// `NotAValue`; and want of memory. Some of either may have been appended.
pub(super) fn read_mandatory(
    text: &[u8],
    required: &mut Vec<u16>,
    out: &mut Vec<u8>,
) -> Result<(), WordsFailing>
    ensures stated { OnOk result
        (AppendsStated (StatesKeys text.now) out.old.items out.new.items) }
    ensures required { OnOk result
        (AppendsStated (ListsKeys text.now) required.old.items required.new.items) }
    ensures fault { IfErr result
        (IfFault (NothingStated faults.NotAValue (StatesKeys text.now))) }
{
    let numbers = ascending_keys(*out.allocator(), text)?;
    read_numbers(numbers.as_slice(), out)?;
    required.extend_from_slice(numbers.as_slice())?;
    Ok(())
}
