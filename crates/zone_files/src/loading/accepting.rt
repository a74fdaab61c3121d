//! The zones of sources that are read.
ghost use Rattle.std.specs.Prelude.{◌≡◌, ◌<◌, ◌≤◌, length, IfErr, IfOk, IfSome};
ghost use Rattle.zone_print.specs.Canonical.{canon, text_limit};
ghost use Rattle.zone_engine.specs.Normalise.{IsOfReading};
ghost use Rattle.zone_files.specs.Loading.Reading.{ReadsSource, source_of};
ghost use Rattle.zone_files.specs.Presentation.{PresentationDenotes, SourceDenotes, master_file};

use super::presentation_loader::PresentationLoader;
use super::refusal::PresentationRefusal;
use super::source_form::SourceForm;
use std::alloc::Global;
use zone_engine::{Form, OctetReader, PIECE, accepted_zone, read_piece, zeros};
use zone_name::CasedName;
use zone_print::TEXT_LIMIT;
use zone_rdata::{Fault, Place, Stop};
use zone_set::Zone;

/// The zone that the reader's octets denote. The reader is read to its end, or to the octet after
/// [`TEXT_LIMIT`], in pieces.
///
/// # Errors
///
/// `Refused` where they denote none, with the fault and the place, and the entry at fault where its
/// items state no data of its further type; `Read` where the reader failed, which isn't called
/// again; `Memory`.
pub fn accepted_source<R: OctetReader>(
    alloc: Global,
    form: SourceForm<'_>,
    reader: &mut R,
) -> Result<Zone, PresentationRefusal>
    ensures zone { IfOk result (λ z. IfSome (R.state reader.old).octets (λ octets.
        SourceDenotes (source_of form.entry octets) z)) }
    ensures short { IfOk result (λ z. length (canon z) ≤ text_limit) }
    ensures stopped { IfErr result (λ refusal. IsOfReading refusal.stop) }
    ensures read { ReadsSource (source_of form.entry)
        (R.state reader.old) (R.state reader.new) result }
{
    match form {
        SourceForm::File(origin) => match zeros(alloc, PIECE) {
            Ok(mut piece) => accepted_file(alloc, origin, reader, &mut piece),
            Err(_) => Err(PresentationRefusal::of_stop(Stop::Memory)),
        },
        SourceForm::Transfer => match accepted_zone(alloc, Form::Transfer, reader) {
            Ok(zone) => Ok(zone),
            Err(stop) => Err(PresentationRefusal::of_stop(stop)),
        },
    }
}

/// The zone that the reader's octets denote as a master file, which are read into `piece`. After a
/// fault it reads on, since a file that is too long is refused for that.
///
/// # Errors
///
/// Those of [`accepted_source`].
fn accepted_file<R: OctetReader>(
    alloc: Global,
    origin: &CasedName,
    reader: &mut R,
    piece: &mut [u8],
) -> Result<Zone, PresentationRefusal>
    requires { 0 < length piece.old }
    ensures zone { IfOk result (λ z. IfSome (R.state reader.old).octets (λ octets.
        PresentationDenotes origin.now octets z)) }
    ensures short { IfOk result (λ z. length (canon z) ≤ text_limit) }
    ensures stopped { IfErr result (λ refusal. IsOfReading refusal.stop) }
    ensures read { ReadsSource (master_file origin.now)
        (R.state reader.old) (R.state reader.new) result }
{
    let mut loader = PresentationLoader::new(alloc, origin);
    let mut count = 0;
    while count <= TEXT_LIMIT {
        let others = (TEXT_LIMIT - count).min(piece.len() as u64 - 1) as usize;
        let given = match read_piece(reader, &mut piece[..others + 1]) {
            Ok(given) => given,
            Err(stop) => return Err(PresentationRefusal::of_stop(stop)),
        };
        if given.is_empty() {
            return loader.finish();
        }
        match loader.feed(given) {
            Ok(()) => {}
            Err(stop) => {
                let memory = PresentationRefusal::of_stop(stop);
                return Err(memory);
            }
        }
        count += given.len() as u64;
    }
    let long = PresentationRefusal::of_stop(Stop::Refused(Fault::InputTooLong, Place::Whole));
    Err(long)
}
