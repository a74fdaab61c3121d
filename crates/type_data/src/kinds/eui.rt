ghost use Rattle.std.specs.Prelude.{◌≡◌, ◌≤◌, ◌<◌, ◌++◌, IfErr, IfNone, IfOk, IfSome, OnOk};
ghost use Rattle.type_data.specs.Fault.{AppendsStated, IfFault, NothingStated};
ghost use Rattle.type_data.specs.Kinds.Eui.{FailsEui, IsPair, PrintsEui, StatesEui, eui_text};
ghost use Rattle.type_data.specs.Kinds.Eui.Machine.{AppendsPair, BeginsWithPair, IsCutAtHyphen};
ghost use Rattle.type_data.specs.Printed.{IfNoData, NoFront, PrintsFront};
ghost use Rattle.type_data.specs.declared.fault.WordsFault.TheVariants.{NotAnAddress};

use crate::fault::{WordsFailing, WordsFault};
use crate::taking::take;
use crate::unprinted::Unprinted;
use std::alloc::AllocError;
use zone_rdata::{push_hex, push_octets_of_hex};

/// Appends the six octets of an EUI-48: pairs of hexadecimal digits in either letter case, parted
/// by hyphens (RFC 7043 3.2).
///
/// # Errors
///
/// `NotAnAddress` where the text is none, and `OutOfMemory` where memory is refused. `out` may then
/// have some of the octets.
pub(crate) fn read_eui48(text: &[u8], out: &mut Vec<u8>) -> Result<(), WordsFailing>
    ensures states { OnOk result
        (AppendsStated (StatesEui 6 text.now) out.old.items out.new.items) }
    ensures fault { IfErr result (IfFault (FailsEui 6 text.now)) }
{
    read_pairs(text, 6, out)
}

/// Appends the eight octets of an EUI-64: pairs of hexadecimal digits in either letter case, parted
/// by hyphens (RFC 7043 4.2).
///
/// # Errors
///
/// `NotAnAddress` where the text is none, and `OutOfMemory` where memory is refused. `out` may then
/// have some of the octets.
pub(crate) fn read_eui64(text: &[u8], out: &mut Vec<u8>) -> Result<(), WordsFailing>
    ensures states { OnOk result
        (AppendsStated (StatesEui 8 text.now) out.old.items out.new.items) }
    ensures fault { IfErr result (IfFault (FailsEui 8 text.now)) }
{
    read_pairs(text, 8, out)
}

/// Appends the octets of so many pairs parted by hyphens.
fn read_pairs(text: &[u8], count: usize, out: &mut Vec<u8>) -> Result<(), WordsFailing>
    requires some { 0 < count }
    requires few { count ≤ 8 }
    ensures states { OnOk result
        (AppendsStated (StatesEui count text.now) out.old.items out.new.items) }
    ensures fault { IfErr result (IfFault (FailsEui count text.now)) }
{
    if text.len() + 1 != 3 * count {
        return Err(WordsFailing::Fault(WordsFault::NotAnAddress));
    }
    let mut rest = text;
    while let Some((pair, after)) = cut_at_hyphen(rest) {
        push_pair(pair, out)?;
        rest = after;
    }
    push_pair(rest, out)
}

/// The first two characters, and what stands after the hyphen that follows them. `None`: no hyphen
/// does.
fn cut_at_hyphen(text: &[u8]) -> Option<(&[u8], &[u8])>
    ensures some { IfSome result (λ cut. IsCutAtHyphen text.now cut.0.now cut.1.now) }
    ensures none { IfNone result (BeginsWithPair text.now → ⊥) }
{
    if text.len() < 3 || text[2] != b'-' {
        return None;
    }
    Some((&text[..2], &text[3..]))
}

/// Appends the octet of two hexadecimal digits.
fn push_pair(text: &[u8], out: &mut Vec<u8>) -> Result<(), WordsFailing>
    ensures states { OnOk result (AppendsPair text.now out.old.items out.new.items) }
    ensures fault { IfErr result (IfFault (NothingStated NotAnAddress (IsPair text.now))) }
{
    if text.len() != 2 || !push_octets_of_hex(text, out)? {
        return Err(WordsFailing::Fault(WordsFault::NotAnAddress));
    }
    Ok(())
}

/// Appends the first octets, so many, as pairs of hexadecimal digits parted by hyphens (RFC 7043
/// 3.2, 4.2), and gives what is left.
///
/// # Errors
///
/// `NoData` where the octets end before, and `OutOfMemory`.
pub(crate) fn print_eui<'o>(
    octets: &'o [u8],
    count: usize,
    out: &mut Vec<u8>,
) -> Result<&'o [u8], Unprinted>
    ensures printed { IfOk result (λ rest. PrintsFront (PrintsEui count) (StatesEui count)
        octets.now rest.now out.old.items out.new.items) }
    ensures none { IfErr result (IfNoData (NoFront (StatesEui count) octets.now)) }
{
    let (address, rest) = take(octets, count)?;
    print_pairs(address, out)?;
    Ok(rest)
}

/// Appends the pair of each octet, parted by hyphens.
fn print_pairs(octets: &[u8], out: &mut Vec<u8>) -> Result<(), AllocError>
    ensures { OnOk result (out.new.items ≡ out.old.items ++ eui_text octets.now) }
{
    if let [first, rest @ ..] = octets {
        push_hex(&[*first], out)?;
        for octet in rest {
            out.push(b'-')?;
            push_hex(&[*octet], out)?;
        }
    }
    Ok(())
}
