//! The line of a fault that begins with the place of its entry. It takes no memory.
ghost use Rattle.std.specs.Prelude.{None, Some, IfErr, OnErr, OnOk};
ghost use Rattle.zone_rdata.specs.declared.fault.Fault.TheVariants as faults;
ghost use Rattle.zone_print.specs.Device.{WorksOn};
ghost use Rattle.zone_print.specs.Writing.{IsFailedWrite};
ghost use Rattle.zone_engine.specs.Telling.{WritesLine, WritesPartOfLine};
ghost use Rattle.zone_files.specs.FaultLine.{entry_text};
ghost use Rattle.zone_files.specs.declared.placed_fault.FileFault.TheVariants.{Expansion, Text};
ghost use Rattle.zone_files.specs.PlacedLine.{placed_line, placed_text};
ghost use Rattle.zone_files.specs.Machine.Told.{detail_of, head_of};

use crate::fault::ExpansionFault;
use crate::fault_line::{Detail, EntryPlace, Head, entry_pieces, front_of, write_pieces};
use itoa::Buffer;
use zone_print::OctetWriter;
use zone_rdata::{Fault, Place, Stop, line_of_refusal};
use zone_words::Refusal;

/// What is wrong with an entry, or with the files as a whole.
#[derive(Drop)]
pub enum FileFault {
    /// The entry can't be expanded.
    Expansion(ExpansionFault),
    /// The expanded text has this fault. Where the items of an entry of a further type state no data,
    /// it has the type, the field and what is wrong.
    Text(Fault, Option<Refusal>),
}

/// Writes the line of a fault, the place of its entry first, and a line feed: `parts/bad.db:3: F9
/// BadRdata: the data doesn't fit its type`, or `example.zone:6: F9 BadRdata: RRSIG, signature: not
/// base64`. What is wrong has these octets before it and behind it: a type and a field, and an item.
/// Every error of the writer ends it, `Interrupted` too, and it isn't flushed.
///
/// # Errors
///
/// `Write` where the writer failed. A proper prefix of all that was written.
pub fn write_placed_fault<W: OctetWriter>(
    writer: &mut W,
    place: EntryPlace<'_>,
    fault: &FileFault,
    before: &[u8],
    behind: &[u8],
) -> Result<(), Stop>
    ensures written { OnOk result
        (WritesLine (placed_line (entry_text place.entry) fault.now before.now behind.now)
        (W.state writer.old) (W.state writer.new)) }
    ensures part { OnErr result
        (WritesPartOfLine (placed_line (entry_text place.entry) fault.now before.now behind.now)
        (W.state writer.old) (W.state writer.new)) }
    ensures works { OnOk result (WorksOn (W.state writer.old) (W.state writer.new)) }
    ensures failed { IfErr result (IsFailedWrite (W.state writer.old) (W.state writer.new)) }
{
    match fault {
        FileFault::Expansion(fault) => write_expansion(writer, place, *fault, before, behind),
        FileFault::Text(fault, entry) => {
            write_text_or_data(writer, place, fault, entry, before, behind)
        }
    }
}

/// Writes the line of a fault of the expanded text, or of an entry of a further type.
fn write_text_or_data<W: OctetWriter>(
    writer: &mut W,
    place: EntryPlace<'_>,
    fault: &Fault,
    entry: &Option<Refusal>,
    before: &[u8],
    behind: &[u8],
) -> Result<(), Stop>
    ensures written { OnOk result
        (WritesLine (placed_line (entry_text place.entry) (Text fault.now entry.now) before.now behind.now)
        (W.state writer.old) (W.state writer.new)) }
    ensures part { OnErr result
        (WritesPartOfLine (placed_line (entry_text place.entry) (Text fault.now entry.now) before.now behind.now)
        (W.state writer.old) (W.state writer.new)) }
    ensures works { OnOk result (WorksOn (W.state writer.old) (W.state writer.new)) }
    ensures failed { IfErr result (IsFailedWrite (W.state writer.old) (W.state writer.new)) }
{
    match entry {
        None => write_text(writer, place, fault, before, behind),
        Some(entry) => write_data(writer, place, entry, before, behind),
    }
}

/// Writes the line of an entry that can't be expanded.
fn write_expansion<W: OctetWriter>(
    writer: &mut W,
    place: EntryPlace<'_>,
    fault: ExpansionFault,
    before: &[u8],
    behind: &[u8],
) -> Result<(), Stop>
    ensures written { OnOk result
        (WritesLine (placed_line (entry_text place.entry) (Expansion fault) before.now behind.now)
        (W.state writer.old) (W.state writer.new)) }
    ensures part { OnErr result
        (WritesPartOfLine (placed_line (entry_text place.entry) (Expansion fault) before.now behind.now)
        (W.state writer.old) (W.state writer.new)) }
    ensures works { OnOk result (WorksOn (W.state writer.old) (W.state writer.new)) }
    ensures failed { IfErr result (IsFailedWrite (W.state writer.old) (W.state writer.new)) }
{
    let mut digits = Buffer::new();
    let head = Head::of_row(digits.format(fault.number()), fault.name());
    let detail = Detail::of_text(fault.text());
    write_line(writer, place, head, before, detail, behind)
}

/// Writes the line of a fault of the expanded text.
fn write_text<W: OctetWriter>(
    writer: &mut W,
    place: EntryPlace<'_>,
    fault: &Fault,
    before: &[u8],
    behind: &[u8],
) -> Result<(), Stop>
    ensures written { OnOk result
        (WritesLine (placed_line (entry_text place.entry) (Text fault.now None) before.now behind.now)
        (W.state writer.old) (W.state writer.new)) }
    ensures part { OnErr result
        (WritesPartOfLine (placed_line (entry_text place.entry) (Text fault.now None) before.now behind.now)
        (W.state writer.old) (W.state writer.new)) }
    ensures works { OnOk result (WorksOn (W.state writer.old) (W.state writer.new)) }
    ensures failed { IfErr result (IsFailedWrite (W.state writer.old) (W.state writer.new)) }
{
    let line = line_of_refusal(fault, Place::Whole);
    let head = Head::of_front(front_of(line.as_slice(), fault));
    let detail = Detail::of_text(fault.text());
    write_line(writer, place, head, before, detail, behind)
}

/// Writes the line of an entry of a further type that states no data.
fn write_data<W: OctetWriter>(
    writer: &mut W,
    place: EntryPlace<'_>,
    entry: &Refusal,
    before: &[u8],
    behind: &[u8],
) -> Result<(), Stop>
    ensures written { OnOk result
        (WritesLine (placed_line (entry_text place.entry) (Text faults.BadRdata (Some entry.now)) before.now behind.now)
        (W.state writer.old) (W.state writer.new)) }
    ensures part { OnErr result
        (WritesPartOfLine (placed_line (entry_text place.entry) (Text faults.BadRdata (Some entry.now)) before.now behind.now)
        (W.state writer.old) (W.state writer.new)) }
    ensures works { OnOk result (WorksOn (W.state writer.old) (W.state writer.new)) }
    ensures failed { IfErr result (IsFailedWrite (W.state writer.old) (W.state writer.new)) }
{
    let fault = Fault::BadRdata;
    let mut digits = Buffer::new();
    let head = Head::of_row(digits.format(fault.number()), fault.name());
    let detail = Detail::of_entry(entry.mnemonic, entry.field, entry.fault.text());
    write_line(writer, place, head, before, detail, behind)
}

/// Writes a place, a fault, what is wrong between these octets, and a line feed.
fn write_line<'t, W: OctetWriter>(
    writer: &mut W,
    place: EntryPlace<'t>,
    head: Head<'t>,
    before: &'t [u8],
    detail: Detail<'t>,
    behind: &'t [u8],
) -> Result<(), Stop>
    ensures written { OnOk result (WritesLine (placed_text (entry_text place.entry)
        (head_of head.entry) before.now (detail_of detail.entry) behind.now)
        (W.state writer.old) (W.state writer.new)) }
    ensures part { OnErr result (WritesPartOfLine (placed_text (entry_text place.entry)
        (head_of head.entry) before.now (detail_of detail.entry) behind.now)
        (W.state writer.old) (W.state writer.new)) }
    ensures works { OnOk result (WorksOn (W.state writer.old) (W.state writer.new)) }
    ensures failed { IfErr result (IsFailedWrite (W.state writer.old) (W.state writer.new)) }
{
    let (mut lines, mut values) = (Buffer::new(), Buffer::new());
    let place = entry_pieces(b"".as_slice(), place, &mut lines, &mut values);
    let pieces = [
        place.at,
        place.name,
        place.colon,
        place.line,
        place.value_words,
        place.value,
        b": ".as_slice(),
        head.letter,
        head.number,
        head.blank,
        head.name,
        b": ".as_slice(),
        before,
        detail.mnemonic,
        detail.comma,
        detail.field,
        detail.colon,
        detail.text,
        behind,
    ];
    write_pieces(writer, pieces.as_slice())
}
