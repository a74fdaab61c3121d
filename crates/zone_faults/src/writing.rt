//! The lines that tell people of every fault. They take no memory.
ghost use Rattle.std.specs.Prelude.{IfErr, OnErr, OnOk};
ghost use Rattle.std.specs.Io.KnownBytes.{Appends};
ghost use Rattle.zone_print.specs.Device.{WorksOn};
ghost use Rattle.zone_print.specs.Writing.{AppendsPart, IsFailedWrite};
ghost use Rattle.zone_engine.specs.Telling.{WritesLine, WritesPartOfLine};
ghost use Rattle.zone_files.specs.declared.placed_fault.FileFault.TheVariants.{Text};
ghost use Rattle.zone_faults.specs.FoundLine.{found_line, found_lines, whole_line};

use crate::found_fault::FoundFault;
use zone_files::{
    FaultPlace, FileFault, write_data_fault, write_expansion_fault, write_fault, write_placed_fault,
};
use zone_print::OctetWriter;
use zone_rdata::{Fault, Stop};
use zone_words::Refusal;

/// Writes the line of a fault and a line feed: `parts/bad.db:3: F9 BadRdata: the data doesn't fit its
/// type`, `example.zone:6: F9 BadRdata: RRSIG, signature: not base64`, or `F42 NoSoa in the input: the
/// zone has no SOA record` where no entry is at fault. Every error of the writer ends it,
/// `Interrupted` too, and it isn't flushed.
///
/// # Errors
///
/// `Write` where the writer failed. A proper prefix of all that was written.
pub fn write_found_fault<W: OctetWriter>(writer: &mut W, found: &FoundFault) -> Result<(), Stop>
    ensures written { OnOk result (WritesLine (found_line found.now)
        (W.state writer.old) (W.state writer.new)) }
    ensures part { OnErr result (WritesPartOfLine (found_line found.now)
        (W.state writer.old) (W.state writer.new)) }
    ensures works { OnOk result (WorksOn (W.state writer.old) (W.state writer.new)) }
    ensures failed { IfErr result (IsFailedWrite (W.state writer.old) (W.state writer.new)) }
{
    match found.place() {
        Some(place) => write_placed_fault(writer, place, &found.fault, b"", b""),
        None => write_whole(writer, &found.fault),
    }
}

/// Writes the lines of faults, each with a line feed, as [`write_found_fault`] writes one.
///
/// # Errors
///
/// `Write` where the writer failed. A proper prefix of all that was written.
#[tactic(auto, using(crate::proofs::FoundLines::written))]
pub fn write_found_faults<W: OctetWriter>(writer: &mut W, faults: &[FoundFault]) -> Result<(), Stop>
    ensures written { OnOk result
        (Appends (W.state writer.old).octets (W.state writer.new).octets (found_lines faults.now)) }
    ensures part { OnErr result
        (AppendsPart (W.state writer.old).octets (W.state writer.new).octets (found_lines faults.now)) }
    ensures works { OnOk result (WorksOn (W.state writer.old) (W.state writer.new)) }
    ensures failed { IfErr result (IsFailedWrite (W.state writer.old) (W.state writer.new)) }
{
    for found in faults {
        write_found_fault(writer, found)?;
    }
    Ok(())
}

/// Writes the line of a fault that no entry has.
fn write_whole<W: OctetWriter>(writer: &mut W, fault: &FileFault) -> Result<(), Stop>
    ensures written { OnOk result (WritesLine (whole_line fault.now)
        (W.state writer.old) (W.state writer.new)) }
    ensures part { OnErr result (WritesPartOfLine (whole_line fault.now)
        (W.state writer.old) (W.state writer.new)) }
    ensures works { OnOk result (WorksOn (W.state writer.old) (W.state writer.new)) }
    ensures failed { IfErr result (IsFailedWrite (W.state writer.old) (W.state writer.new)) }
{
    match fault {
        FileFault::Expansion(fault) => {
            write_expansion_fault(writer, "", *fault, FaultPlace::Input)
        }
        FileFault::Text(fault, entry) => write_whole_text(writer, fault, entry),
    }
}

/// Writes the line of a fault of the expanded text that no entry has.
fn write_whole_text<W: OctetWriter>(
    writer: &mut W,
    fault: &Fault,
    entry: &Option<Refusal>,
) -> Result<(), Stop>
    ensures written { OnOk result (WritesLine (whole_line (Text fault.now entry.now))
        (W.state writer.old) (W.state writer.new)) }
    ensures part { OnErr result (WritesPartOfLine (whole_line (Text fault.now entry.now))
        (W.state writer.old) (W.state writer.new)) }
    ensures works { OnOk result (WorksOn (W.state writer.old) (W.state writer.new)) }
    ensures failed { IfErr result (IsFailedWrite (W.state writer.old) (W.state writer.new)) }
{
    match entry {
        None => write_fault(writer, "", fault, FaultPlace::Input),
        Some(entry) => write_data_fault(writer, "", entry, FaultPlace::Input),
    }
}
