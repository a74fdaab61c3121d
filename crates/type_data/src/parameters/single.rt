ghost use Rattle.std.specs.Prelude.{IfErr, OnOk};
ghost use Rattle.type_data.specs.Fault.{AppendsStated, IfFault, NothingStated};
ghost use Rattle.type_data.specs.Parameters.Machine.Parts.{FailsEscaped};
ghost use Rattle.type_data.specs.Parameters.Value.{StatesEch, StatesNone, StatesPath, StatesPort};
ghost use Rattle.type_data.specs.declared.fault.WordsFault.TheVariants as faults;

use crate::fault::{WordsFailing, WordsFault};
use crate::kinds::push_decoded;
use crate::unescaped::push_unescaped;
use zone_rdata::decimal_of;

/// Appends the octets of a port (RFC 9460 7.2).
///
/// # Errors
///
/// `NotAValue`; and want of memory. Either leaves `out` unchanged.
pub(super) fn read_port(text: &[u8], out: &mut Vec<u8>) -> Result<(), WordsFailing>
    ensures stated { OnOk result
        (AppendsStated (StatesPort text.now) out.old.items out.new.items) }
    ensures fault { IfErr result
        (IfFault (NothingStated faults.NotAValue (StatesPort text.now))) }
{
    let port = decimal_of(text).ok_or(WordsFault::NotAValue)?;
    if port > 65535 {
        return Err(WordsFault::NotAValue.into());
    }
    let port = port as u16;
    out.extend_from_slice(&port.to_be_bytes())?;
    Ok(())
}

/// Appends the octets of base64, at least one (RFC 9848).
///
/// # Errors
///
/// `NotAValue`; and want of memory. Some of the octets may have been appended.
pub(super) fn read_ech(text: &[u8], out: &mut Vec<u8>) -> Result<(), WordsFailing>
    ensures stated { OnOk result
        (AppendsStated (StatesEch text.now) out.old.items out.new.items) }
    ensures fault { IfErr result
        (IfFault (NothingStated faults.NotAValue (StatesEch text.now))) }
{
    match push_decoded(text, out) {
        Ok(()) => Ok(()),
        Err(WordsFailing::Fault(_)) => Err(WordsFailing::Fault(WordsFault::NotAValue)),
        Err(WordsFailing::OutOfMemory) => Err(WordsFailing::OutOfMemory),
    }
}

/// Takes the value of a key that has none.
///
/// # Errors
///
/// `NotAValue` where there is a value.
pub(super) fn read_none(text: &[u8], out: &mut Vec<u8>) -> Result<(), WordsFailing>
    ensures stated { OnOk result
        (AppendsStated (StatesNone text.now) out.old.items out.new.items) }
    ensures fault { IfErr result
        (IfFault (NothingStated faults.NotAValue (StatesNone text.now))) }
{
    if !text.is_empty() {
        return Err(WordsFault::NotAValue.into());
    }
    Ok(())
}

/// Appends the octets of a path as they are, at least one (RFC 9461 5).
///
/// # Errors
///
/// `BadEscape` where an escape of the text is none, `NotAValue` where the text is empty; and want
/// of memory. Some of the octets may have been appended.
pub(super) fn read_path(text: &[u8], out: &mut Vec<u8>) -> Result<(), WordsFailing>
    ensures stated { OnOk result
        (AppendsStated (StatesPath text.now) out.old.items out.new.items) }
    ensures fault { IfErr result (IfFault (FailsEscaped StatesPath text.now)) }
{
    if text.is_empty() {
        return Err(WordsFault::NotAValue.into());
    }
    push_unescaped(text, out)?;
    Ok(())
}
