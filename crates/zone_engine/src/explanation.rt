ghost use Rattle.std.specs.Prelude.{◌≡◌, IfErr, IfOk, OnOk, string_bytes};
ghost use Rattle.zone_print.specs.Canonical.{text_limit};
ghost use Rattle.zone_print.specs.Device.{WorksOn};
ghost use Rattle.zone_engine.specs.Explain.{Explains, StopsExplain};
ghost use Rattle.zone_engine.specs.Form.{read_as};
ghost use Rattle.zone_engine.specs.Reading.{ReadsFew, ReadsWhole, TellsRead};
ghost use Rattle.zone_engine.specs.Telling.{refusal_line, stop_line};

use crate::engine::accepted_zone;
use crate::form::Form;
use crate::line::{write_line, write_refusal};
use crate::octets::OctetReader;
use crate::status;
use itoa::Buffer;
use std::alloc::{AllocError, Global};
use zone_print::OctetWriter;
use zone_rdata::{Fault, Place, Stop};

/// What a user is told where reading failed.
pub const READ_FAILED: &str = "read failed";

/// What a user is told where writing failed.
pub const WRITE_FAILED: &str = "write failed";

/// What a user is told where memory was refused.
pub const OUT_OF_MEMORY: &str = "out of memory";

/// Writes a line that tells how many records the zone has that the reader's octets denote, and
/// answers 0; or one that tells why they are refused, and answers 3. It reads what `normalise`
/// reads.
///
/// # Errors
///
/// `Read` where the reader failed and `Memory`, which write nothing, and `Write` where the writer
/// failed and a proper prefix of the line was written. Neither is called again.
pub fn explain<R: OctetReader, W: OctetWriter>(
    alloc: Global,
    form: Form<'_>,
    reader: &mut R,
    writer: &mut W,
) -> Result<u8, Stop>
    ensures explained { IfOk result (Explains (read_as form.entry) (R.state reader.old)
        (W.state writer.old) (W.state writer.new)) }
    ensures stopped { IfErr result (StopsExplain (read_as form.entry) (R.state reader.old)
        (W.state writer.old) (W.state writer.new)) }
    ensures few { ReadsFew (R.state reader.old) (R.state reader.new) }
    ensures whole { OnOk result (ReadsWhole text_limit (R.state reader.old) (R.state reader.new)) }
    ensures works { OnOk result (WorksOn (R.state reader.old) (R.state reader.new)
        × WorksOn (W.state writer.old) (W.state writer.new)) }
    ensures failed { IfErr result (TellsRead (R.state reader.old) (R.state reader.new)) }
{
    match accepted_zone(alloc, form, reader) {
        Ok(zone) => {
            let mut digits = Buffer::new();
            write_line(writer, "accepted, records: ", digits.format(zone.len()))?;
            Ok(status::SUCCESS)
        }
        Err(Stop::Refused(fault, place)) => {
            write_refusal(writer, "", &fault, place)?;
            Ok(status::REFUSED)
        }
        Err(stop) => Err(stop),
    }
}

/// The line that tells a user why a run stopped, without its line feed, as `{}` shows it.
///
/// # Errors
///
/// Want of memory.
pub fn explain_line(alloc: Global, stop: &Stop) -> Result<String, AllocError>
    ensures { IfOk result (λ line. string_bytes line ≡ stop_line stop.now) }
{
    format!(in alloc; "{stop}")
}

/// Number, name and argument of the fault, its place, and what is wrong.
///
/// # Errors
///
/// Want of memory.
pub fn refusal_line(alloc: Global, fault: &Fault, place: Place) -> Result<String, AllocError>
    ensures { IfOk result (λ line. string_bytes line ≡ refusal_line fault.now place) }
{
    explain_line(alloc, &Stop::Refused(fault.copy(), place))
}
