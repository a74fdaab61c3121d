//! Why a master file in presentation format is refused.
ghost use Rattle.std.specs.Prelude.{◌≡◌, ◌↔◌, IsTrue, None};
ghost use Rattle.zone_rdata.specs.declared.fault.Fault.TheVariants.{UnknownType};
ghost use Rattle.zone_rdata.specs.declared.fault.Place.TheVariants.{Line};
ghost use Rattle.zone_files.specs.Machine.Loading.{IsReportOf};

use zone_rdata::{Fault, Place, Stop};
use zone_words::Refusal;

/// Why a call stopped.
#[derive(Drop)]
pub struct PresentationRefusal {
    /// The stop. A fault of the data of a further type is `BadRdata`.
    pub stop: Stop,
    /// The entry whose items state no data of its further type, where that is the fault: its line,
    /// the type, the field and what is wrong with it.
    pub entry: Option<Refusal>,
}

impl PresentationRefusal {
    /// A stop that no entry of a further type is at fault for.
    pub(crate) fn of_stop(stop: Stop) -> PresentationRefusal
        ensures { result ≡ record { stop = stop; entry = None } }
    {
        PresentationRefusal { stop, entry: None }
    }

    /// What is reported of a stop, with the first entry that states no data: an unknown type on its
    /// line is bad data of that entry's type.
    pub(crate) fn of_first(stop: Stop, first: Option<Refusal>) -> PresentationRefusal
        ensures { IsReportOf stop first result }
    {
        match first {
            Some(entry) => {
                if is_unknown_type_on(&stop, entry.line) {
                    PresentationRefusal {
                        stop: Stop::Refused(Fault::BadRdata, Place::Line(entry.line)),
                        entry: Some(entry),
                    }
                } else {
                    PresentationRefusal { stop, entry: None }
                }
            }
            None => PresentationRefusal { stop, entry: None },
        }
    }
}

/// Whether this is the refusal of an unknown type on the line.
fn is_unknown_type_on(stop: &Stop, line: u64) -> bool
    ensures { IsTrue result ↔ stop.now ≡ Stop.Refused UnknownType (Line line) }
{
    match stop {
        Stop::Refused(Fault::UnknownType, Place::Line(at)) => *at == line,
        _ => false,
    }
}
