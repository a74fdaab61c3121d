//! The canonical texts of sources that are read.
ghost use Rattle.std.specs.Prelude.{IfErr, IfOk, IfSome, OnOk};
ghost use Rattle.zone_print.specs.Device.{WorksOn};
ghost use Rattle.zone_files.specs.Loading.Reading.{ReadsSource, source_of};
ghost use Rattle.zone_files.specs.Normalise.{NormalisesSource, StopsNormaliseSource};

use super::accepting::accepted_source;
use super::refusal::PresentationRefusal;
use super::source_form::SourceForm;
use std::alloc::Global;
use zone_engine::OctetReader;
use zone_print::{OctetWriter, write_zone};

/// Writes the canonical text of the zone that the reader's octets denote, and answers the number of
/// its records. The reader is read as by [`accepted_source`].
///
/// # Errors
///
/// `Refused` where they denote no zone, `Read` where the reader failed, and `Memory`: nothing was
/// written. `Write` where the writer failed, which isn't called again, and `Memory` while it is
/// written: a proper prefix of the text was written.
pub fn normalise_source<R: OctetReader, W: OctetWriter>(
    alloc: Global,
    form: SourceForm<'_>,
    reader: &mut R,
    writer: &mut W,
) -> Result<u64, PresentationRefusal>
    ensures accepted { IfOk result (λ count. IfSome (R.state reader.old).octets (λ octets.
        NormalisesSource (source_of form.entry octets)
        (W.state writer.old).octets (W.state writer.new).octets count)) }
    ensures works { OnOk result (WorksOn (W.state writer.old) (W.state writer.new)) }
    ensures stopped { IfErr result (λ refusal. StopsNormaliseSource (source_of form.entry)
        (R.state reader.old) (W.state writer.old) (W.state writer.new) refusal.stop) }
    ensures read { ReadsSource (source_of form.entry)
        (R.state reader.old) (R.state reader.new) result }
{
    let zone = match accepted_source(alloc, form, reader) {
        Ok(zone) => zone,
        Err(refusal) => return Err(refusal),
    };
    match write_zone(alloc, &zone, writer) {
        Ok(()) => Ok(zone.len()),
        Err(stop) => Err(PresentationRefusal::of_stop(stop)),
    }
}
