//! The lines that tell people of faults in files. None of them takes memory.
ghost use Rattle.std.specs.Prelude.{◌≡◌, ◌++◌, IfErr, OnErr, OnOk, codes};
ghost use Rattle.std.specs.List.{flat_map};
ghost use Rattle.zone_rdata.specs.FaultTable.{fault_row};
ghost use Rattle.zone_rdata.specs.StopText.{argument_of};
ghost use Rattle.zone_print.specs.Device.{WorksOn};
ghost use Rattle.zone_print.specs.Writing.{IsFailedWrite};
ghost use Rattle.zone_engine.specs.Telling.{WritesLine, WritesPartOfLine};
ghost use Rattle.zone_files.specs.Machine.Told.{detail_of, head_of, place_of, told_text};
ghost use Rattle.zone_files.specs.FaultLine.{data_fault_line, entry_text, expansion_line, fault_line, fault_place_text, row_head, unreadable_line, unreadable_main_line};

use crate::fault::ExpansionFault;
use itoa::Buffer;
use zone_print::{OctetWriter, write_octets};
use zone_rdata::{Fault, Place, Stop, line_of_refusal};
use zone_words::Refusal;

/// Where an entry is.
#[derive(Clone, Copy, Debug)]
pub struct EntryPlace<'n> {
    /// The name under which its file was opened.
    pub name: &'n str,
    /// The line in the file with which it begins, from 1.
    pub line: u64,
    /// The value, where it is a `$GENERATE`.
    pub value: Option<u64>,
}

/// Where a fault is.
#[derive(Clone, Copy, Debug)]
pub enum FaultPlace<'n> {
    /// In this entry.
    Entry(EntryPlace<'n>),
    /// In the input as a whole.
    Input,
}

/// Writes these words, the line of a fault of the zone and a line feed: `F9 BadRdata at
/// parts/bad.db:3: the data doesn't fit its type`. Every error of the writer ends it, `Interrupted`
/// too, and it isn't flushed.
///
/// # Errors
///
/// `Write` where the writer failed. A proper prefix of all that was written.
pub fn write_fault<W: OctetWriter>(
    writer: &mut W,
    words: &str,
    fault: &Fault,
    place: FaultPlace<'_>,
) -> Result<(), Stop>
    ensures written { OnOk result (WritesLine (words.now ++ fault_line fault.now (fault_place_text place.entry))
        (W.state writer.old) (W.state writer.new)) }
    ensures part { OnErr result (WritesPartOfLine (words.now ++ fault_line fault.now (fault_place_text place.entry))
        (W.state writer.old) (W.state writer.new)) }
    ensures works { OnOk result (WorksOn (W.state writer.old) (W.state writer.new)) }
    ensures failed { IfErr result (IsFailedWrite (W.state writer.old) (W.state writer.new)) }
{
    let line = line_of_refusal(fault, Place::Whole);
    let head = Head::of_front(front_of(line.as_slice(), fault));
    let (mut lines, mut values) = (Buffer::new(), Buffer::new());
    let place = place_pieces(place, &mut lines, &mut values);
    write_told(writer, words, head, place, Detail::of_text(fault.text()))
}

/// Writes these words, the line of a fault of expansion and a line feed: `F53 BadTemplate at
/// x.zone:2 value 1: the template says nothing for this value`.
///
/// # Errors
///
/// `Write` where the writer failed. A proper prefix of all that was written.
pub fn write_expansion_fault<W: OctetWriter>(
    writer: &mut W,
    words: &str,
    fault: ExpansionFault,
    place: FaultPlace<'_>,
) -> Result<(), Stop>
    ensures written { OnOk result (WritesLine (words.now ++ expansion_line fault (fault_place_text place.entry))
        (W.state writer.old) (W.state writer.new)) }
    ensures part { OnErr result (WritesPartOfLine (words.now ++ expansion_line fault (fault_place_text place.entry))
        (W.state writer.old) (W.state writer.new)) }
    ensures works { OnOk result (WorksOn (W.state writer.old) (W.state writer.new)) }
    ensures failed { IfErr result (IsFailedWrite (W.state writer.old) (W.state writer.new)) }
{
    let mut digits = Buffer::new();
    let head = Head::of_row(digits.format(fault.number()), fault.name());
    let (mut lines, mut values) = (Buffer::new(), Buffer::new());
    let place = place_pieces(place, &mut lines, &mut values);
    write_told(writer, words, head, place, Detail::of_text(fault.text()))
}

/// Writes these words, the line on an entry of a further type that states no data and a line feed:
/// `F9 BadRdata at example.zone:6: RRSIG, signature: not base64`.
///
/// # Errors
///
/// `Write` where the writer failed. A proper prefix of all that was written.
pub fn write_data_fault<W: OctetWriter>(
    writer: &mut W,
    words: &str,
    refusal: &Refusal,
    place: FaultPlace<'_>,
) -> Result<(), Stop>
    ensures written { OnOk result (WritesLine (words.now ++ data_fault_line refusal.now (fault_place_text place.entry))
        (W.state writer.old) (W.state writer.new)) }
    ensures part { OnErr result
        (WritesPartOfLine (words.now ++ data_fault_line refusal.now (fault_place_text place.entry))
        (W.state writer.old) (W.state writer.new)) }
    ensures works { OnOk result (WorksOn (W.state writer.old) (W.state writer.new)) }
    ensures failed { IfErr result (IsFailedWrite (W.state writer.old) (W.state writer.new)) }
{
    let fault = Fault::BadRdata;
    let mut digits = Buffer::new();
    let head = Head::of_row(digits.format(fault.number()), fault.name());
    let (mut lines, mut values) = (Buffer::new(), Buffer::new());
    let place = place_pieces(place, &mut lines, &mut values);
    let detail = Detail::of_entry(refusal.mnemonic, refusal.field, refusal.fault.text());
    write_told(writer, words, head, place, detail)
}

/// Writes the line on a file that an `$INCLUDE` names and that can't be read, and a line feed:
/// `example.zone:12: keys.db: can't be read`.
///
/// # Errors
///
/// `Write` where the writer failed. A proper prefix of all that was written.
pub fn write_unreadable<W: OctetWriter>(
    writer: &mut W,
    place: EntryPlace<'_>,
    name: &str,
) -> Result<(), Stop>
    ensures written { OnOk result (WritesLine (unreadable_line (entry_text place.entry) name.now)
        (W.state writer.old) (W.state writer.new)) }
    ensures part { OnErr result (WritesPartOfLine (unreadable_line (entry_text place.entry) name.now)
        (W.state writer.old) (W.state writer.new)) }
    ensures works { OnOk result (WorksOn (W.state writer.old) (W.state writer.new)) }
    ensures failed { IfErr result (IsFailedWrite (W.state writer.old) (W.state writer.new)) }
{
    let (mut lines, mut values) = (Buffer::new(), Buffer::new());
    let place = entry_pieces(b"".as_slice(), place, &mut lines, &mut values);
    write_told(
        writer,
        "",
        Head::of_front(b""),
        place,
        Detail::of_unreadable(name),
    )
}

/// Writes the line on a file of the command line that can't be read, and a line feed:
/// `example.zone: can't be read`.
///
/// # Errors
///
/// `Write` where the writer failed. A proper prefix of all that was written.
pub fn write_unreadable_main<W: OctetWriter>(writer: &mut W, name: &str) -> Result<(), Stop>
    ensures written { OnOk result (WritesLine (unreadable_main_line name.now)
        (W.state writer.old) (W.state writer.new)) }
    ensures part { OnErr result (WritesPartOfLine (unreadable_main_line name.now)
        (W.state writer.old) (W.state writer.new)) }
    ensures works { OnOk result (WorksOn (W.state writer.old) (W.state writer.new)) }
    ensures failed { IfErr result (IsFailedWrite (W.state writer.old) (W.state writer.new)) }
{
    let pieces = [name.as_bytes(), b": can't be read".as_slice()];
    write_pieces(writer, pieces.as_slice())
}

/// What a line has before the place, piece by piece.
#[derive(Clone, Copy)]
pub(crate) struct Head<'t> {
    pub(crate) letter: &'t [u8],
    pub(crate) number: &'t [u8],
    pub(crate) blank: &'t [u8],
    pub(crate) name: &'t [u8],
}

impl<'t> Head<'t> {
    /// Number and name of a fault.
    pub(crate) fn of_row(number: &'t str, name: &'t str) -> Head<'t>
        ensures { head_of result ≡ codes "F" ++ number.entry.now ++ codes " " ++ name.entry.now }
    {
        Head {
            letter: b"F".as_slice(),
            number: number.as_bytes(),
            blank: b" ".as_slice(),
            name: name.as_bytes(),
        }
    }

    /// This one.
    pub(crate) fn of_front(front: &'t [u8]) -> Head<'t>
        ensures { head_of result ≡ front.entry.now }
    {
        Head {
            letter: b"".as_slice(),
            number: b"".as_slice(),
            blank: b"".as_slice(),
            name: front,
        }
    }
}

/// A place, piece by piece.
#[derive(Clone, Copy)]
pub(crate) struct PlacePieces<'t> {
    pub(crate) at: &'t [u8],
    pub(crate) name: &'t [u8],
    pub(crate) colon: &'t [u8],
    pub(crate) line: &'t [u8],
    pub(crate) value_words: &'t [u8],
    pub(crate) value: &'t [u8],
}

/// What a line has behind the place, piece by piece.
#[derive(Clone, Copy)]
pub(crate) struct Detail<'t> {
    pub(crate) mnemonic: &'t [u8],
    pub(crate) comma: &'t [u8],
    pub(crate) field: &'t [u8],
    pub(crate) colon: &'t [u8],
    pub(crate) text: &'t [u8],
}

impl<'t> Detail<'t> {
    /// What is wrong.
    pub(crate) fn of_text(text: &'t str) -> Detail<'t>
        ensures { detail_of result ≡ text.entry.now }
    {
        Detail {
            mnemonic: b"".as_slice(),
            comma: b"".as_slice(),
            field: b"".as_slice(),
            colon: b"".as_slice(),
            text: text.as_bytes(),
        }
    }

    /// The type and the field of an entry, and what is wrong.
    pub(crate) fn of_entry(mnemonic: &'t str, field: &'t str, text: &'t str) -> Detail<'t>
        ensures { detail_of result ≡ mnemonic.entry.now ++ codes ", " ++ field.entry.now
            ++ codes ": " ++ text.entry.now }
    {
        Detail {
            mnemonic: mnemonic.as_bytes(),
            comma: b", ".as_slice(),
            field: field.as_bytes(),
            colon: b": ".as_slice(),
            text: text.as_bytes(),
        }
    }

    /// That a file can't be read.
    fn of_unreadable(name: &'t str) -> Detail<'t>
        ensures { detail_of result ≡ name.entry.now ++ codes ": can't be read" }
    {
        Detail {
            mnemonic: name.as_bytes(),
            comma: b"".as_slice(),
            field: b"".as_slice(),
            colon: b": ".as_slice(),
            text: b"can't be read".as_slice(),
        }
    }
}

/// The pieces of the place of a fault.
fn place_pieces<'t>(
    place: FaultPlace<'t>,
    lines: &'t mut Buffer,
    values: &'t mut Buffer,
) -> PlacePieces<'t>
    ensures { place_of result ≡ fault_place_text place.entry }
{
    match place {
        FaultPlace::Entry(place) => entry_pieces(b" at ".as_slice(), place, lines, values),
        FaultPlace::Input => PlacePieces {
            at: b" in the input".as_slice(),
            name: b"".as_slice(),
            colon: b"".as_slice(),
            line: b"".as_slice(),
            value_words: b"".as_slice(),
            value: b"".as_slice(),
        },
    }
}

/// The pieces of the place of an entry, after these octets.
pub(crate) fn entry_pieces<'t>(
    at: &'t [u8],
    place: EntryPlace<'t>,
    lines: &'t mut Buffer,
    values: &'t mut Buffer,
) -> PlacePieces<'t>
    ensures { place_of result ≡ at.entry.now ++ entry_text place.entry }
{
    let (value_words, value) = match place.value {
        None => ("", ""),
        Some(value) => (" value ", values.format(value)),
    };
    PlacePieces {
        at,
        name: place.name.as_bytes(),
        colon: b":".as_slice(),
        line: lines.format(place.line).as_bytes(),
        value_words: value_words.as_bytes(),
        value: value.as_bytes(),
    }
}

/// Number, name and argument of a fault: the front of its line, which has the place of the whole
/// input behind it.
pub(crate) fn front_of<'l>(line: &'l [u8], fault: &Fault) -> &'l [u8]
    requires { line.now ≡ row_head (fault_row fault.now) ++ argument_of fault.now
        ++ codes " in the input" ++ codes ": " ++ (fault_row fault.now).text }
    ensures { result.now ≡ row_head (fault_row fault.now) ++ argument_of fault.now }
{
    let behind = " in the input: ".len() + fault.text().len();
    &line[..line.len() - behind]
}

/// Writes these words, what a line has before, at and behind its place, and a line feed.
fn write_told<'t, W: OctetWriter>(
    writer: &mut W,
    words: &'t str,
    head: Head<'t>,
    place: PlacePieces<'t>,
    detail: Detail<'t>,
) -> Result<(), Stop>
    ensures written { OnOk result
        (WritesLine (words.now ++ told_text head.entry place.entry detail.entry)
        (W.state writer.old) (W.state writer.new)) }
    ensures part { OnErr result
        (WritesPartOfLine (words.now ++ told_text head.entry place.entry detail.entry)
        (W.state writer.old) (W.state writer.new)) }
    ensures works { OnOk result (WorksOn (W.state writer.old) (W.state writer.new)) }
    ensures failed { IfErr result (IsFailedWrite (W.state writer.old) (W.state writer.new)) }
{
    let pieces = [
        words.as_bytes(),
        head.letter,
        head.number,
        head.blank,
        head.name,
        place.at,
        place.name,
        place.colon,
        place.line,
        place.value_words,
        place.value,
        b": ".as_slice(),
        detail.mnemonic,
        detail.comma,
        detail.field,
        detail.colon,
        detail.text,
    ];
    write_pieces(writer, pieces.as_slice())
}

/// Writes these pieces and a line feed.
#[tactic(auto, using(crate::proofs::Pieces::written))]
pub(crate) fn write_pieces<W: OctetWriter>(writer: &mut W, pieces: &[&[u8]]) -> Result<(), Stop>
    ensures written { OnOk result (WritesLine (flat_map (λ piece. piece.now) pieces.now)
        (W.state writer.old) (W.state writer.new)) }
    ensures part { OnErr result (WritesPartOfLine (flat_map (λ piece. piece.now) pieces.now)
        (W.state writer.old) (W.state writer.new)) }
    ensures works { OnOk result (WorksOn (W.state writer.old) (W.state writer.new)) }
    ensures failed { IfErr result (IsFailedWrite (W.state writer.old) (W.state writer.new)) }
{
    for piece in pieces {
        write_octets(writer, *piece)?;
    }
    write_octets(writer, b"\n")
}
