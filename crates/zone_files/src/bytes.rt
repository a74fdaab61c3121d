//! Master files that are held whole.
ghost use Rattle.std.specs.Prelude.{IfErr, IfOk};
ghost use Rattle.zone_engine.specs.Normalise.{IsOfBytes};
ghost use Rattle.zone_files.specs.Loading.Reading.{IsRefusalOf};
ghost use Rattle.zone_files.specs.Presentation.{master_file};
ghost use Rattle.zone_files.specs.Normalise.{NormalisesSourceTo};

use crate::loading::{PresentationRefusal, SourceForm, accepted_source};
use std::alloc::Global;
use zone_engine::OctetSlice;
use zone_name::CasedName;
use zone_print::push_zone;

/// The canonical text of the zone that a master file denotes.
///
/// # Errors
///
/// `Refused` where it denotes none, with the fault and the place, and the entry at fault where its
/// items state no data of its further type; `Memory`.
pub fn normalise_presentation(
    alloc: Global,
    origin: &CasedName,
    octets: &[u8],
) -> Result<Vec<u8>, PresentationRefusal>
    ensures accepted { IfOk result (λ text.
        NormalisesSourceTo (master_file origin.now octets.now) text.items) }
    ensures stopped { IfErr result (λ refusal. IsOfBytes refusal.stop) }
    ensures fault { IfErr result (IsRefusalOf (master_file origin.now octets.now)) }
{
    let mut slice = OctetSlice { rest: octets };
    let zone = match accepted_source(alloc, SourceForm::File(origin), &mut slice) {
        Ok(zone) => zone,
        Err(refusal) => return Err(refusal),
    };
    match push_zone(alloc, &zone) {
        Ok(text) => Ok(text),
        Err(stop) => Err(PresentationRefusal::of_stop(stop)),
    }
}
