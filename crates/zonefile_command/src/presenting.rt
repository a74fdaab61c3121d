//! The text of a zone for people.
ghost use Rattle.std.specs.Prelude.{◌≡◌, ℕ, List, IfErr, OnOk};
ghost use Rattle.std.specs.Io.KnownBytes.{Appends};
ghost use Rattle.zone_print.specs.Canonical.{canon};
ghost use Rattle.zone_print.specs.Device.{WorksOn};
ghost use Rattle.words_print.specs.Shown.{IsShownText};
ghost use Rattle.zonefile_command.specs.Presented.{StopsPresenting, StopsShowing};

use std::alloc::Global;
use words_print::print_words;
use zone_print::{OctetWriter, push_zone, write_octets};
use zone_rdata::Stop;
use zone_set::Zone;

/// Writes the canonical text of the zone with records of further types in presentation format. Both
/// texts are made in memory. It doesn't flush the writer.
///
/// # Errors
///
/// `ZoneTooLarge` if the canonical text is too long, and `Memory`, before the first octet; `Write` if the
/// writer failed, after a proper prefix of the text.
#[tactic(auto, using(crate::proofs::Shown::unmade, crate::proofs::Shown::of_text))]
pub(crate) fn write_presented<W: OctetWriter>(
    alloc: Global,
    zone: &Zone,
    writer: &mut W,
) -> Result<(), Stop>
    ensures text { OnOk result ((text : List ℕ) × IsShownText (canon zone.now) text
        × Appends (W.state writer.old).octets (W.state writer.new).octets text) }
    ensures works { OnOk result (WorksOn (W.state writer.old) (W.state writer.new)) }
    ensures stopped { IfErr result
        (StopsPresenting (canon zone.now) (W.state writer.old) (W.state writer.new)) }
{
    match push_zone(alloc, zone) {
        Ok(text) => write_shown(alloc, text.as_slice(), writer),
        Err(stop) => Err(stop),
    }
}

/// Writes what is shown for a text.
///
/// # Errors
///
/// `Memory` before the first octet; `Write` if the writer failed, after a proper prefix of it.
#[tactic(auto, using(crate::proofs::Shown::unwritten, crate::specs::Presented::memory))]
pub(crate) fn write_shown<W: OctetWriter>(
    alloc: Global,
    text: &[u8],
    writer: &mut W,
) -> Result<(), Stop>
    ensures text { OnOk result ((shown : List ℕ) × IsShownText text.now shown
        × Appends (W.state writer.old).octets (W.state writer.new).octets shown) }
    ensures works { OnOk result (WorksOn (W.state writer.old) (W.state writer.new)) }
    ensures stopped { IfErr result
        (StopsShowing text.now (W.state writer.old) (W.state writer.new)) }
{
    match print_words(alloc, text) {
        Ok(shown) => match write_octets(writer, shown.as_slice()) {
            Ok(()) => Ok(()),
            Err(stop) => Err(stop),
        },
        Err(_) => Err(Stop::Memory),
    }
}
