//! The zone of a master file, and where its records are stated.
ghost use Rattle.std.specs.Prelude.{◌≡◌, ◌≤◌, length, IfErr, IfOk};
ghost use Rattle.zone_print.specs.Canonical.{canon, text_limit};
ghost use Rattle.zone_engine.specs.Normalise.{IsOfBytes};
ghost use Rattle.zone_files.specs.Loading.Reading.{IsRefusalOf};
ghost use Rattle.zone_files.specs.Presentation.{PresentationDenotes, master_file};
ghost use Rattle.record_places.specs.FirstLines.{AreFirstLines};

use crate::first_lines::record_lines;
use std::alloc::Global;
use zone_engine::OctetSlice;
use zone_files::{PresentationRefusal, SourceForm, accepted_source};
use zone_name::CasedName;
use zone_rdata::Stop;
use zone_set::Zone;

/// A zone, and for each of its records the line of the entry that first states it.
#[derive(Drop)]
pub struct PlacedZone {
    /// The zone.
    pub zone: Zone,
    /// The line for each of its records, in canonical order, from 1.
    pub lines: Vec<u64>,
}

/// The zone that a master file denotes (RFC 1035 5.1), with records of all types in presentation
/// format, and for each of its records the line of the entry that first states it. Where the octets are
/// the expanded text of files, `IncludeStack::place_of` gives the place of a line.
///
/// # Errors
///
/// `Refused` where the octets denote no zone, with the fault and the place, and the entry at fault where
/// its items state no data of its further type; `Memory`.
pub fn place_records(
    alloc: Global,
    origin: &CasedName,
    octets: &[u8],
) -> Result<PlacedZone, PresentationRefusal>
    ensures zone { IfOk result (λ placed. PresentationDenotes origin.now octets.now placed.zone) }
    ensures lines { IfOk result (λ placed.
        AreFirstLines origin.now octets.now placed.zone.records placed.lines.items) }
    ensures short { IfOk result (λ placed. length (canon placed.zone) ≤ text_limit) }
    ensures stopped { IfErr result (λ refusal. IsOfBytes refusal.stop) }
    ensures fault { IfErr result (IsRefusalOf (master_file origin.now octets.now)) }
{
    let mut slice = OctetSlice { rest: octets };
    let zone = match accepted_source(alloc, SourceForm::File(origin), &mut slice) {
        Ok(zone) => zone,
        Err(refusal) => return Err(refusal),
    };
    match record_lines(alloc, origin, octets, &zone) {
        Ok(lines) => Ok(PlacedZone { zone, lines }),
        Err(_) => Err(PresentationRefusal {
            stop: Stop::Memory,
            entry: None,
        }),
    }
}
