//! Lines for people.
ghost use Rattle.std.specs.Prelude.{◌≡◌, ◌++◌, IfErr, IsErr, IsOk, OnErr, OnOk};
ghost use Rattle.zone_print.specs.Device.{WorksOn};
ghost use Rattle.zone_print.specs.Writing.{IsFailedWrite};
ghost use Rattle.zone_engine.specs.Telling.{refusal_line, TellsLine, WritesLine, WritesPartOfLine};

use crate::status;
use zone_print::{OctetWriter, write_octets};
use zone_rdata::{Fault, Place, Stop, line_of_refusal};

/// Writes these words, the line and a line feed. Every error of the writer ends it, `Interrupted`
/// too, and it isn't flushed.
///
/// # Errors
///
/// `Write` where the writer failed. A proper prefix of all that was written.
pub fn write_line<W: OctetWriter>(writer: &mut W, words: &str, line: &str) -> Result<(), Stop>
    ensures written { OnOk result
        (WritesLine (words.now ++ line.now) (W.state writer.old) (W.state writer.new)) }
    ensures part { OnErr result
        (WritesPartOfLine (words.now ++ line.now) (W.state writer.old) (W.state writer.new)) }
    ensures works { OnOk result (WorksOn (W.state writer.old) (W.state writer.new)) }
    ensures failed { IfErr result (IsFailedWrite (W.state writer.old) (W.state writer.new)) }
{
    write_octet_line(writer, words.as_bytes(), line.as_bytes())
}

/// Writes these words, the line of a refusal and a line feed, and allocates nothing. Every error of
/// the writer ends it, `Interrupted` too, and it isn't flushed.
///
/// # Errors
///
/// `Write` where the writer failed. A proper prefix of all that was written.
pub fn write_refusal<W: OctetWriter>(
    writer: &mut W,
    words: &str,
    fault: &Fault,
    place: Place,
) -> Result<(), Stop>
    ensures written { OnOk result (WritesLine (words.now ++ refusal_line fault.now place)
        (W.state writer.old) (W.state writer.new)) }
    ensures part { OnErr result (WritesPartOfLine (words.now ++ refusal_line fault.now place)
        (W.state writer.old) (W.state writer.new)) }
    ensures works { OnOk result (WorksOn (W.state writer.old) (W.state writer.new)) }
    ensures failed { IfErr result (IsFailedWrite (W.state writer.old) (W.state writer.new)) }
{
    let line = line_of_refusal(fault, place);
    write_octet_line(writer, words.as_bytes(), line.as_slice())
}

/// The words, the line and a line feed.
fn write_octet_line<W: OctetWriter>(writer: &mut W, words: &[u8], line: &[u8]) -> Result<(), Stop>
    ensures written { OnOk result
        (WritesLine (words.now ++ line.now) (W.state writer.old) (W.state writer.new)) }
    ensures part { OnErr result
        (WritesPartOfLine (words.now ++ line.now) (W.state writer.old) (W.state writer.new)) }
    ensures works { OnOk result (WorksOn (W.state writer.old) (W.state writer.new)) }
    ensures failed { IfErr result (IsFailedWrite (W.state writer.old) (W.state writer.new)) }
{
    write_octets(writer, words)?;
    write_octets(writer, line)?;
    write_octets(writer, b"\n")
}

/// Writes these words and the line, and answers this status: 4 where the writer failed.
pub fn tell<E: OctetWriter>(errors: &mut E, words: &str, line: &str, answer: u8) -> u8
    ensures { TellsLine (words.now ++ line.now) answer
        (E.state errors.old) (E.state errors.new) result }
{
    answered(write_line(errors, words, line), answer)
}

/// Writes these words and the line of a refusal, and answers this status: 4 where the writer
/// failed. It takes no memory.
pub fn tell_refusal<E: OctetWriter>(
    errors: &mut E,
    words: &str,
    fault: &Fault,
    place: Place,
    answer: u8,
) -> u8
    ensures { TellsLine (words.now ++ refusal_line fault.now place) answer
        (E.state errors.old) (E.state errors.new) result }
{
    answered(write_refusal(errors, words, fault, place), answer)
}

/// This status, and 4 where a line was not written whole.
fn answered(written: Result<(), Stop>, answer: u8) -> u8
    ensures ok { IsOk written → result ≡ answer }
    ensures err { IsErr written → result ≡ 4 }
{
    match written {
        Ok(()) => answer,
        Err(_) => status::FAILED,
    }
}
