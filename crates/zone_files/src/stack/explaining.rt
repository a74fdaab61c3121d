//! The number of records of sources that are read.
ghost use Rattle.std.specs.Prelude.{IfErr, IfOk, IfSome};
ghost use Rattle.zone_engine.specs.Normalise.{IsOfReading};
ghost use Rattle.zone_files.specs.Loading.Reading.{ReadsSource, source_of};
ghost use Rattle.zone_files.specs.Normalise.{CountsSource};

use crate::loading::{PresentationRefusal, SourceForm, accepted_source};
use std::alloc::Global;
use zone_engine::OctetReader;

/// The number of the records of the zone that the reader's octets denote: a master file (RFC 1035 5)
/// or a zone transfer (RFC 5936 2.2). The reader is read to its end, or to the octet after
/// [`TEXT_LIMIT`], in pieces.
///
/// # Errors
///
/// `Refused` where they denote none, with the fault and the place, and the entry at fault where its
/// items state no data of its further type; `Read` where the reader failed, which isn't called
/// again; `Memory`.
///
/// [`TEXT_LIMIT`]: zone_print::TEXT_LIMIT
pub fn explain_source<R: OctetReader>(
    alloc: Global,
    form: SourceForm<'_>,
    reader: &mut R,
) -> Result<u64, PresentationRefusal>
    ensures counted { IfOk result (λ count. IfSome (R.state reader.old).octets (λ octets.
        CountsSource (source_of form.entry octets) count)) }
    ensures stopped { IfErr result (λ refusal. IsOfReading refusal.stop) }
    ensures read { ReadsSource (source_of form.entry)
        (R.state reader.old) (R.state reader.new) result }
{
    match accepted_source(alloc, form, reader) {
        Ok(zone) => Ok(zone.len()),
        Err(refusal) => Err(refusal),
    }
}
