//! Numbers in decimal digits (RFC 1035 5.1).
ghost use Rattle.std.specs.Prelude.{◌≡◌, ◌≤◌, ◌++◌, decimal, Some, IfOk, IfErr, OnOk};
ghost use Rattle.std.specs.Int.{w8, w16, w32};
ghost use Rattle.type_data.specs.Fault.{AppendsStated, IfFault};
ghost use Rattle.type_data.specs.Kinds.Number.{FailsU8, FailsU16, FailsU32, PrintsU8, PrintsU16, PrintsU32, StatesU8, StatesU16, StatesU32};
ghost use Rattle.type_data.specs.Kinds.Number.Machine.{FailsToFit, Fits, IsOver};
ghost use Rattle.type_data.specs.Printed.{IfNoData, NoFront, PrintsFront};

use crate::fault::{WordsFailing, WordsFault};
use crate::taking::{take_u8, take_u16, take_u32};
use crate::unprinted::Unprinted;
use std::alloc::AllocError;
use zone_rdata::{decimal_of, push_decimal};

/// Appends the number of 8 bits that decimal digits stand for.
///
/// # Errors
///
/// `NotANumber`, `TooLarge` and want of memory.
pub(crate) fn read_u8(text: &[u8], out: &mut Vec<u8>) -> Result<(), WordsFailing>
    ensures states { OnOk result
        (AppendsStated (StatesU8 text.now) out.old.items out.new.items) }
    ensures fault { IfErr result (IfFault (FailsU8 text.now)) }
{
    push_one_octet(decimal_of(text), out)?;
    Ok(())
}

/// Appends the number of 16 bits that decimal digits stand for.
///
/// # Errors
///
/// `NotANumber`, `TooLarge` and want of memory.
pub(crate) fn read_u16(text: &[u8], out: &mut Vec<u8>) -> Result<(), WordsFailing>
    ensures states { OnOk result
        (AppendsStated (StatesU16 text.now) out.old.items out.new.items) }
    ensures fault { IfErr result (IfFault (FailsU16 text.now)) }
{
    push_two_octets(decimal_of(text), out)?;
    Ok(())
}

/// Appends the number of 32 bits that decimal digits stand for.
///
/// # Errors
///
/// `NotANumber`, `TooLarge` and want of memory.
pub(crate) fn read_u32(text: &[u8], out: &mut Vec<u8>) -> Result<(), WordsFailing>
    ensures states { OnOk result
        (AppendsStated (StatesU32 text.now) out.old.items out.new.items) }
    ensures fault { IfErr result (IfFault (FailsU32 text.now)) }
{
    let number = at_most(u32::MAX, decimal_of(text))?;
    out.extend_from_slice(&number.to_be_bytes())?;
    Ok(())
}

/// Appends a number that was read, of 8 bits.
///
/// # Errors
///
/// `NotANumber` where there is none, `TooLarge` and want of memory.
pub(super) fn push_one_octet(number: Option<u64>, out: &mut Vec<u8>) -> Result<(), WordsFailing>
    ensures states { OnOk result (AppendsStated (Fits w8 number) out.old.items out.new.items) }
    ensures fault { IfErr result (IfFault (FailsToFit w8 number)) }
{
    let number = at_most(u32::from(u8::MAX), number)?;
    out.push(number as u8)?;
    Ok(())
}

/// Appends a number that was read, of 16 bits.
///
/// # Errors
///
/// `NotANumber` where there is none, `TooLarge` and want of memory.
pub(super) fn push_two_octets(number: Option<u64>, out: &mut Vec<u8>) -> Result<(), WordsFailing>
    ensures states { OnOk result (AppendsStated (Fits w16 number) out.old.items out.new.items) }
    ensures fault { IfErr result (IfFault (FailsToFit w16 number)) }
{
    let number = at_most(u32::from(u16::MAX), number)?;
    out.extend_from_slice(&(number as u16).to_be_bytes())?;
    Ok(())
}

/// The number that was read, where it is at most `most`.
///
/// # Errors
///
/// `NotANumber` where there is none, and `TooLarge`.
pub(super) fn at_most(most: u32, number: Option<u64>) -> Result<u32, WordsFault>
    ensures found { IfOk result (λ n. (number ≡ Some n) × (n ≤ most)) }
    ensures fault { IfErr result (IsOver most number) }
{
    match number {
        Some(number) if number <= u64::from(most) => Ok(number as u32),
        Some(_) => Err(WordsFault::TooLarge),
        None => Err(WordsFault::NotANumber),
    }
}

/// Appends a number in decimal digits, without leading zeros.
///
/// # Errors
///
/// Want of memory, which leaves `out` as it was.
pub(crate) fn print_decimal(number: u32, out: &mut Vec<u8>) -> Result<(), AllocError>
    ensures ok { OnOk result (out.new.items ≡ out.old.items ++ decimal number) }
{
    push_decimal(number, out)
}

/// Appends the number of 8 bits at the front in decimal digits, and gives what is left.
///
/// # Errors
///
/// `NoData` where no octet is there, and `OutOfMemory`.
pub(crate) fn print_u8<'o>(octets: &'o [u8], out: &mut Vec<u8>) -> Result<&'o [u8], Unprinted>
    ensures printed { IfOk result (λ rest.
        PrintsFront PrintsU8 StatesU8 octets.now rest.now out.old.items out.new.items) }
    ensures none { IfErr result (IfNoData (NoFront StatesU8 octets.now)) }
{
    let (number, rest) = take_u8(octets)?;
    print_decimal(u32::from(number), out)?;
    Ok(rest)
}

/// Appends the number of 16 bits at the front in decimal digits, and gives what is left.
///
/// # Errors
///
/// `NoData` where the octets end before, and `OutOfMemory`.
pub(crate) fn print_u16<'o>(octets: &'o [u8], out: &mut Vec<u8>) -> Result<&'o [u8], Unprinted>
    ensures printed { IfOk result (λ rest.
        PrintsFront PrintsU16 StatesU16 octets.now rest.now out.old.items out.new.items) }
    ensures none { IfErr result (IfNoData (NoFront StatesU16 octets.now)) }
{
    let (number, rest) = take_u16(octets)?;
    print_decimal(u32::from(number), out)?;
    Ok(rest)
}

/// Appends the number of 32 bits at the front in decimal digits, and gives what is left.
///
/// # Errors
///
/// `NoData` where the octets end before, and `OutOfMemory`.
pub(crate) fn print_u32<'o>(octets: &'o [u8], out: &mut Vec<u8>) -> Result<&'o [u8], Unprinted>
    ensures printed { IfOk result (λ rest.
        PrintsFront PrintsU32 StatesU32 octets.now rest.now out.old.items out.new.items) }
    ensures none { IfErr result (IfNoData (NoFront StatesU32 octets.now)) }
{
    let (number, rest) = take_u32(octets)?;
    print_decimal(number, out)?;
    Ok(rest)
}
