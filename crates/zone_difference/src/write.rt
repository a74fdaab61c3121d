ghost use Rattle.std.specs.Prelude.{◌≡◌, ◌++◌, IfErr, IfOk, OnErr, OnOk};
ghost use Rattle.zone_print.specs.Device.{WorksOn};
ghost use Rattle.zone_difference.specs.Text.{IsWriteStop, WritesChanges, WritesPart, change_line};
ghost use Rattle.zone_difference.specs.Walk.{change_of};

use crate::changes::{ChangeRef, Changes};
use crate::name_case::NameCase;
use std::alloc::{AllocError, Global};
use zone_print::{OctetWriter, push_line, write_octets};
use zone_rdata::Stop;
use zone_set::Zone;

/// How many octets of lines are gathered before they are written.
const WRITE_LEN: usize = 65_536;

/// Appends the line of a change.
fn push_change(change: &ChangeRef<'_>, out: &mut Vec<u8>) -> Result<(), AllocError>
    ensures { OnOk result (out.new.items ≡ out.old.items ++ change_line (change_of change.now)) }
{
    match change {
        ChangeRef::Removal(rr) => {
            out.extend_from_slice(b"- ")?;
            push_line(out, rr)
        }
        ChangeRef::Addition(rr) => {
            out.extend_from_slice(b"+ ")?;
            push_line(out, rr)
        }
    }
}

/// Writes the changes from one zone to another, each as `- ` or `+ ` and the line of the record in
/// the canonical text: the records of the first of which the second has no equal are
/// removed, and those of the second of which the first has none are added, in canonical order. Of one
/// RRset all removals come before the additions. Names in data are compared as `case` says. Nothing is
/// written for one zone. It keeps some 64 KiB of lines, and with `NameCase::Folded` an RRset. It
/// doesn't flush the writer.
///
/// Returns whether there is a change.
///
/// # Errors
///
/// `Write` if the writer failed, and `Memory`. A prefix of the text was written then, and with
/// `NameCase::Exact` a proper one.
pub fn write_difference<W: OctetWriter>(
    alloc: Global,
    zone: &Zone,
    other: &Zone,
    case: NameCase,
    writer: &mut W,
) -> Result<bool, Stop>
    ensures text { IfOk result (λ differ. WritesChanges case zone.now.records other.now.records
        (W.state writer.old).octets (W.state writer.new).octets differ) }
    ensures part { OnErr result (WritesPart case zone.now.records other.now.records
        (W.state writer.old).octets (W.state writer.new).octets) }
    ensures works { OnOk result (WorksOn (W.state writer.old) (W.state writer.new)) }
    ensures stopped { IfErr result (IsWriteStop (W.state writer.old) (W.state writer.new)) }
{
    let mut changes = Changes::new(alloc, zone, other, case)?;
    let mut lines = Vec::new(alloc);
    let mut differ = false;
    'walk: while let Some(change) = changes.next(alloc)? {
        push_change(&change, &mut lines)?;
        differ = true;
        if lines.len() >= WRITE_LEN {
            write_octets(writer, &lines)?;
            lines.clear();
        }
    }
    write_octets(writer, &lines)?;
    Ok(differ)
}
