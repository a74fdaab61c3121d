ghost use Rattle.std.specs.Prelude.{IfErr, IfOk, OnOk};
ghost use Rattle.type_data.specs.Fault.{AppendsStated, IfFault};
ghost use Rattle.type_data.specs.Kinds.NodeId.{FailsNodeId, PrintsNodeId, StatesNodeId};
ghost use Rattle.type_data.specs.Printed.{IfNoData, NoFront, PrintsFront};

use crate::fault::{WordsFailing, WordsFault};
use crate::unprinted::Unprinted;
use zone_rdata::{four_groups_of, push_hex};

/// Appends the eight octets of a node identifier or a locator: four groups of one to four
/// hexadecimal digits parted by colons (RFC 6742 2.1, 2.3).
///
/// # Errors
///
/// `NotAnAddress` where the text is none, and `OutOfMemory` where memory is refused.
pub(crate) fn read_node_id(text: &[u8], out: &mut Vec<u8>) -> Result<(), WordsFailing>
    ensures states { OnOk result
        (AppendsStated (StatesNodeId text.now) out.old.items out.new.items) }
    ensures fault { IfErr result (IfFault (FailsNodeId text.now)) }
{
    let Some(octets) = four_groups_of(text) else {
        return Err(WordsFailing::Fault(WordsFault::NotAnAddress));
    };
    Ok(out.extend_from_slice(&octets)?)
}

/// Appends the eight octets at the front as four groups of four hexadecimal digits parted by colons
/// (RFC 6742 2.1.2), and gives what is left.
///
/// # Errors
///
/// `NoData` where the octets end before, and `OutOfMemory`.
pub(crate) fn print_node_id<'o>(octets: &'o [u8], out: &mut Vec<u8>) -> Result<&'o [u8], Unprinted>
    ensures printed { IfOk result (λ rest.
        PrintsFront PrintsNodeId StatesNodeId octets.now rest.now out.old.items out.new.items) }
    ensures none { IfErr result (IfNoData (NoFront StatesNodeId octets.now)) }
{
    let [a, b, c, d, e, f, g, h, rest @ ..] = octets else {
        return Err(Unprinted::NoData);
    };
    push_hex(&[*a, *b], out)?;
    out.push(b':')?;
    push_hex(&[*c, *d], out)?;
    out.push(b':')?;
    push_hex(&[*e, *f], out)?;
    out.push(b':')?;
    push_hex(&[*g, *h], out)?;
    Ok(rest)
}
