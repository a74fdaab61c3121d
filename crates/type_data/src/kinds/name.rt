ghost use Rattle.std.specs.Prelude.{◌≡◌, ◌<◌, ◌≤◌, ◌++◌, length, IfErr, IfOk, OnErr, OnOk, Some};
ghost use Rattle.zone_name.specs.Name.{with_length};
ghost use Rattle.zone_name.specs.Spelling.{SpellsCased};
ghost use Rattle.type_data.specs.Fault.{AppendsStated, IfFault};
ghost use Rattle.type_data.specs.Kinds.Name.{FailsName, PrintsName, StatesName, StatesSomeName};
ghost use Rattle.type_data.specs.Kinds.Name.Machine.{NoLabel, PrintsLabels};
ghost use Rattle.type_data.specs.Printed.{IfNoData, NoFront, PrintsFront};

use crate::fault::{WordsFailing, WordsFault};
use crate::taking::{take, take_u8};
use crate::unprinted::Unprinted;
use zone_name::{CasedName, push_label};

/// Appends the uncompressed octets of the name that a text spells under the origin, with the
/// letters of both (RFC 1035 3.1, 5.1).
///
/// # Errors
///
/// `NotAName`, with the first fault of the name. Or memory is refused. Nothing is appended.
pub(crate) fn read_name(
    text: &[u8],
    origin: &CasedName,
    out: &mut Vec<u8>,
) -> Result<(), WordsFailing>
    ensures states { OnOk result
        (AppendsStated (StatesName origin.now text.now) out.old.items out.new.items) }
    ensures fault { IfErr result (IfFault (FailsName origin.now text.now)) }
    ensures err { OnErr result (out.new.items ≡ out.old.items) }
{
    let name = name_of(text, origin)?;
    out.extend_from_slice(name.wire())?;
    Ok(())
}

/// The name that a text spells under the origin.
fn name_of(text: &[u8], origin: &CasedName) -> Result<CasedName, WordsFault>
    ensures spelled { IfOk result (SpellsCased (Some origin.now) text.now) }
    ensures fault { IfErr result (FailsName origin.now text.now) }
{
    match CasedName::from_text(text, Some(origin)) {
        Ok(name) => Ok(name),
        Err(fault) => Err(WordsFault::NotAName(Some(fault))),
    }
}

/// The longest label (RFC 1035 2.3.4).
const LONGEST_LABEL: u8 = 63;

/// The most octets of a name (RFC 1035 2.3.4).
const LONGEST_NAME: usize = 255;

/// The label at the front, the root's without an octet, and what is left.
fn take_label(octets: &[u8]) -> Result<(&[u8], &[u8]), Unprinted>
    ensures left { IfOk result (λ parts. length parts.1.now < length octets.now) }
    ensures short { IfOk result (λ parts. length parts.0.now ≤ 63) }
    ensures whole { IfOk result (λ parts.
        octets.now ≡ with_length parts.0.now ++ parts.1.now) }
    ensures none { IfErr result (IfNoData (NoLabel octets.now)) }
{
    let (len, rest) = take_u8(octets)?;
    if len > LONGEST_LABEL {
        return Err(Unprinted::NoData);
    }
    take(rest, usize::from(len))
}

/// Appends the labels of the name at the front, a dot after each and none for the root, and gives
/// what is left.
fn print_labels<'o>(octets: &'o [u8], out: &mut Vec<u8>) -> Result<&'o [u8], Unprinted>
    ensures printed { IfOk result (λ rest.
        PrintsLabels octets.now rest.now out.old.items out.new.items) }
    ensures none { IfErr result (IfNoData (NoFront StatesSomeName octets.now)) }
{
    let mut rest = octets;
    loop {
        let (label, after) = take_label(rest)?;
        rest = after;
        if label.is_empty() {
            break;
        }
        push_label(label, out)?;
    }
    if octets.len() - rest.len() > LONGEST_NAME {
        return Err(Unprinted::NoData);
    }
    Ok(rest)
}

/// Appends the name at the front, absolute and with its letters (RFC 1035 3.1), and gives what is
/// left.
///
/// # Errors
///
/// `NoData` where no name stands at the front, and want of memory. `out` may have got some of it.
pub(crate) fn print_name<'o>(octets: &'o [u8], out: &mut Vec<u8>) -> Result<&'o [u8], Unprinted>
    ensures left { IfOk result (λ rest. length rest.now < length octets.now) }
    ensures printed { IfOk result (λ rest.
        PrintsFront PrintsName StatesSomeName octets.now rest.now out.old.items out.new.items) }
    ensures none { IfErr result (IfNoData (NoFront StatesSomeName octets.now)) }
{
    let rest = print_labels(octets, out)?;
    if octets.len() - rest.len() == 1 {
        out.push(b'.')?;
    }
    Ok(rest)
}
