//! Numbers in digits or by their mnemonics, and types by their words (RFC 4034 A.1, RFC 4398 2.1,
//! RFC 9859 2.1).
ghost use Rattle.std.specs.Prelude.{◌≡◌, ◌++◌, IfErr, IfNone, IfOk, IfSome, OnOk};
ghost use Rattle.zone_name.specs.Common.{NothingIs};
ghost use Rattle.zone_rdata.specs.Number.{IsCapped};
ghost use Rattle.type_data.specs.Fault.{AppendsStated, IfFault};
ghost use Rattle.type_data.specs.Kinds.Word.{FailsAlgorithm, FailsCertificateType, FailsNotifyScheme, FailsType, PrintsAlgorithm, PrintsCertificateType, PrintsNotifyScheme, PrintsType, StatesAlgorithm, StatesCertificateType, StatesNotifyScheme, StatesType, certificate_word, notify_scheme_word, type_word};
ghost use Rattle.type_data.specs.Mnemonics.{IsAlgorithm};
ghost use Rattle.type_data.specs.Printed.{IfNoData, NoFront, PrintsFront};

use super::number::{print_decimal, push_one_octet, push_two_octets};
use crate::fault::{WordsFailing, WordsFault};
use crate::mnemonics::{
    ALGORITHMS, CERTIFICATE_TYPES, FURTHER_ALGORITHMS, NOTIFY_SCHEMES, certificate_mnemonic,
    notify_scheme_mnemonic, number_of_kind, type_mnemonic, type_of_word,
};
use crate::taking::{take_u8, take_u16};
use crate::unprinted::Unprinted;
use std::alloc::AllocError;
use zone_rdata::number_of_word;

/// The number of an algorithm of DNSSEC, in digits or by a mnemonic in any letter case (RFC 4034
/// A.1); 2 ^ 32 where it is greater. `None`: the text is neither.
fn algorithm_of(text: &[u8]) -> Option<u64>
    ensures found { IfSome result (IsCapped (IsAlgorithm text.now)) }
    ensures none { IfNone result (NothingIs (IsAlgorithm text.now)) }
{
    // No name stands before the digits.
    match number_of_word(ALGORITHMS, b"", text) {
        Some(number) => Some(number),
        None => number_of_word(FURTHER_ALGORITHMS, b"", text),
    }
}

/// Appends an algorithm of DNSSEC, in digits or by a mnemonic in any letter case (RFC 4034 A.1).
///
/// # Errors
///
/// `NotANumber` where it is neither, `TooLarge` and want of memory.
pub(crate) fn read_algorithm(text: &[u8], out: &mut Vec<u8>) -> Result<(), WordsFailing>
    ensures states { OnOk result
        (AppendsStated (StatesAlgorithm text.now) out.old.items out.new.items) }
    ensures fault { IfErr result (IfFault (FailsAlgorithm text.now)) }
{
    push_one_octet(algorithm_of(text), out)?;
    Ok(())
}

/// Appends the type of a certificate, in digits or by its mnemonic in any letter case (RFC 4398
/// 2.1).
///
/// # Errors
///
/// `NotANumber` where it is neither, `TooLarge` and want of memory.
pub(crate) fn read_certificate_type(text: &[u8], out: &mut Vec<u8>) -> Result<(), WordsFailing>
    ensures states { OnOk result
        (AppendsStated (StatesCertificateType text.now) out.old.items out.new.items) }
    ensures fault { IfErr result (IfFault (FailsCertificateType text.now)) }
{
    // No name stands before the digits.
    push_two_octets(number_of_word(CERTIFICATE_TYPES, b"", text), out)?;
    Ok(())
}

/// Appends the scheme of DSYNC, in digits or by its mnemonic in any letter case (RFC 9859 2.1).
///
/// # Errors
///
/// `NotANumber` where it is neither, `TooLarge` and want of memory.
pub(crate) fn read_notify_scheme(text: &[u8], out: &mut Vec<u8>) -> Result<(), WordsFailing>
    ensures states { OnOk result
        (AppendsStated (StatesNotifyScheme text.now) out.old.items out.new.items) }
    ensures fault { IfErr result (IfFault (FailsNotifyScheme text.now)) }
{
    // No name stands before the digits.
    push_one_octet(number_of_word(NOTIFY_SCHEMES, b"", text), out)?;
    Ok(())
}

/// Appends the number of a type by its word (RFC 4034 3.1.1).
///
/// # Errors
///
/// `NotAType` where it is the word of none of which records can be, and want of memory.
pub(crate) fn read_type(word: &[u8], out: &mut Vec<u8>) -> Result<(), WordsFailing>
    ensures states { OnOk result
        (AppendsStated (StatesType word.now) out.old.items out.new.items) }
    ensures fault { IfErr result (IfFault (FailsType word.now)) }
{
    let Some(number) = type_of_word(word) else {
        return Err(WordsFailing::Fault(WordsFault::NotAType));
    };
    out.extend_from_slice(&number.to_be_bytes())?;
    Ok(())
}

/// Appends the algorithm of DNSSEC at the front by its number, since servers differ in some
/// mnemonics, and gives what is left.
///
/// # Errors
///
/// `NoData` where no octet is there, and `OutOfMemory`.
pub(crate) fn print_algorithm<'o>(
    octets: &'o [u8],
    out: &mut Vec<u8>,
) -> Result<&'o [u8], Unprinted>
    ensures printed { IfOk result (λ rest.
        PrintsFront PrintsAlgorithm StatesAlgorithm octets.now rest.now out.old.items
        out.new.items) }
    ensures none { IfErr result (IfNoData (NoFront StatesAlgorithm octets.now)) }
{
    let (number, rest) = take_u8(octets)?;
    print_decimal(u32::from(number), out)?;
    Ok(rest)
}

/// Appends the type of a certificate at the front, by its mnemonic or else in decimal (RFC 4398
/// 2.1), and gives what is left.
///
/// # Errors
///
/// `NoData` where the octets end before, and `OutOfMemory`.
pub(crate) fn print_certificate_type<'o>(
    octets: &'o [u8],
    out: &mut Vec<u8>,
) -> Result<&'o [u8], Unprinted>
    ensures printed { IfOk result (λ rest.
        PrintsFront PrintsCertificateType StatesCertificateType octets.now rest.now
        out.old.items out.new.items) }
    ensures none { IfErr result (IfNoData (NoFront StatesCertificateType octets.now)) }
{
    let (number, rest) = take_u16(octets)?;
    print_certificate_word(number, out)?;
    Ok(rest)
}

/// Appends the mnemonic of a type of certificates, or its number.
fn print_certificate_word(number: u16, out: &mut Vec<u8>) -> Result<(), AllocError>
    ensures { OnOk result (out.new.items ≡ out.old.items ++ certificate_word number) }
{
    match certificate_mnemonic(number) {
        Some(mnemonic) => out.extend_from_slice(mnemonic),
        None => print_decimal(u32::from(number), out),
    }
}

/// Appends the scheme of DSYNC at the front, by its mnemonic or else in decimal (RFC 9859 2.1), and
/// gives what is left.
///
/// # Errors
///
/// `NoData` where no octet is there, and `OutOfMemory`.
pub(crate) fn print_notify_scheme<'o>(
    octets: &'o [u8],
    out: &mut Vec<u8>,
) -> Result<&'o [u8], Unprinted>
    ensures printed { IfOk result (λ rest.
        PrintsFront PrintsNotifyScheme StatesNotifyScheme octets.now rest.now out.old.items
        out.new.items) }
    ensures none { IfErr result (IfNoData (NoFront StatesNotifyScheme octets.now)) }
{
    let (number, rest) = take_u8(octets)?;
    print_notify_scheme_word(number, out)?;
    Ok(rest)
}

/// Appends the mnemonic of a scheme of DSYNC, or its number.
fn print_notify_scheme_word(number: u8, out: &mut Vec<u8>) -> Result<(), AllocError>
    ensures { OnOk result (out.new.items ≡ out.old.items ++ notify_scheme_word number) }
{
    match notify_scheme_mnemonic(number) {
        Some(mnemonic) => out.extend_from_slice(mnemonic),
        None => print_decimal(u32::from(number), out),
    }
}

/// Appends the word of the type at the front, and gives what is left.
///
/// # Errors
///
/// `NoData` where the octets end before, or where no record can have the type (RFC 6895 3.1), and
/// `OutOfMemory`.
pub(crate) fn print_type<'o>(octets: &'o [u8], out: &mut Vec<u8>) -> Result<&'o [u8], Unprinted>
    ensures printed { IfOk result (λ rest.
        PrintsFront PrintsType StatesType octets.now rest.now out.old.items out.new.items) }
    ensures none { IfErr result (IfNoData (NoFront StatesType octets.now)) }
{
    let (number, rest) = take_u16(octets)?;
    let Some(kind) = number_of_kind(u64::from(number)) else {
        return Err(Unprinted::NoData);
    };
    print_type_word(kind, out)?;
    Ok(rest)
}

/// Appends the word of a type: its mnemonic, or TYPE and its number (RFC 3597 5).
///
/// # Errors
///
/// Want of memory. `out` may then have some of the word.
pub(super) fn print_type_word(number: u16, out: &mut Vec<u8>) -> Result<(), AllocError>
    ensures { OnOk result (out.new.items ≡ out.old.items ++ type_word number) }
{
    match type_mnemonic(number) {
        Some(mnemonic) => out.extend_from_slice(mnemonic),
        None => {
            out.extend_from_slice(b"TYPE")?;
            print_decimal(u32::from(number), out)
        }
    }
}
