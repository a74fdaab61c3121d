ghost use Rattle.std.specs.Prelude.{◌≤◌, length, IfOk, IfErr, IfSome, OnOk};
ghost use Rattle.zone_print.specs.Canonical.{canon, text_limit};
ghost use Rattle.zone_print.specs.Device.{WorksOn};
ghost use Rattle.zone_engine.specs.Form.{read_as};
ghost use Rattle.zone_engine.specs.Input.{InputDenotes, InputDenotesWithin};
ghost use Rattle.zone_engine.specs.Machine.Input.{IsForm, form_of};
ghost use Rattle.zone_engine.specs.Machine.Loading.{ReadsZoneWithin};
ghost use Rattle.zone_engine.specs.Normalise.{IsOfBytes, IsOfReading, Normalises, NormalisesTo, StopsNormalise};
ghost use Rattle.zone_engine.specs.Reading.{Reads};
ghost use Rattle.zone_engine.specs.Refusal.{IfRefused, IsRefusal};

use crate::form::Form;
use crate::input::read_zone;
use crate::laws::what_is_read_is_stated;
use crate::octets::{OctetReader, OctetSlice, PIECE, zeros};
use std::alloc::Global;
use zone_print::{OctetWriter, TEXT_LIMIT, push_zone, text_fits, write_zone};
use zone_rdata::{Fault, Place, Stop};
use zone_set::Zone;
use zone_text::TextSource;
use zone_text::laws::file::of_nothing_nothing_is_decided;
use zone_wire::TransferSource;

/// Writes the canonical text of the zone that the reader's octets denote, and answers the number of
/// its records. The reader is read to its end, or to the octet after [`TEXT_LIMIT`], in pieces.
///
/// # Errors
///
/// `Refused` where they denote none: `InputTooLong` where there are more than [`TEXT_LIMIT`]; else
/// the first fault of their records in order, of reading or of `ZoneBuilder::add`; else `NoSoa`,
/// `OutOfZone` or `ZoneTooLarge`. `Read` where the reader failed, an interruption too, and `Write`
/// where the writer did: neither is called again. `Memory`. A refused input writes nothing, and
/// after the last two a proper prefix of the text was written.
pub fn normalise<R: OctetReader, W: OctetWriter>(
    alloc: Global,
    form: Form<'_>,
    reader: &mut R,
    writer: &mut W,
) -> Result<u64, Stop>
    ensures accepted { IfOk result (λ count. IfSome (R.state reader.old).octets (λ octets.
        Normalises (read_as form.entry octets)
        (W.state writer.old).octets (W.state writer.new).octets count)) }
    ensures works { OnOk result (WorksOn (W.state writer.old) (W.state writer.new)) }
    ensures stopped { IfErr result (StopsNormalise (read_as form.entry) (R.state reader.old)
        (W.state writer.old) (W.state writer.new)) }
    ensures read { Reads text_limit (read_as form.entry)
        (R.state reader.old) (R.state reader.new) result }
{
    let zone = zone_of(alloc, form, reader, TEXT_LIMIT)?;
    what_is_read_is_stated();
    write_zone(alloc, &zone, writer)?;
    Ok(zone.len())
}

/// The zone that the reader's octets denote. The reader is read to its end, or to the octet after
/// the limit of 1,073,741,824.
///
/// # Errors
///
/// `Refused` where they denote no zone, with the first fault and its place; `Read` where the reader
/// failed, which isn't called again; `Memory`.
#[tactic(auto, using(crate::proofs::Written::denotes_within))]
pub fn accepted_zone<R: OctetReader>(
    alloc: Global,
    form: Form<'_>,
    reader: &mut R,
) -> Result<Zone, Stop>
    ensures zone { IfOk result (λ z. IfSome (R.state reader.old).octets (λ octets.
        InputDenotes (read_as form.entry octets) z)) }
    ensures short { IfOk result (λ z. length (canon z) ≤ text_limit) }
    ensures stopped { IfErr result IsOfReading }
    ensures read { Reads text_limit (read_as form.entry)
        (R.state reader.old) (R.state reader.new) result }
{
    accepted_zone_within(alloc, form, reader, TEXT_LIMIT)
}

/// The zone that the reader's octets denote, where they are no more than a limit of the caller's.
/// The reader is read to its end, or to the octet after the limit.
///
/// # Errors
///
/// `Refused` where they denote no zone, with the first fault and its place, which is `InputTooLong`
/// where there are more than `limit` octets; `Read` where the reader failed, which isn't called
/// again; `Memory`.
pub fn accepted_zone_within<R: OctetReader>(
    alloc: Global,
    form: Form<'_>,
    reader: &mut R,
    limit: u64,
) -> Result<Zone, Stop>
    requires { limit ≤ text_limit }
    ensures zone { IfOk result (λ z. IfSome (R.state reader.old).octets (λ octets.
        InputDenotesWithin limit (read_as form.entry octets) z)) }
    ensures short { IfOk result (λ z. length (canon z) ≤ text_limit) }
    ensures stopped { IfErr result IsOfReading }
    ensures read { Reads limit (read_as form.entry)
        (R.state reader.old) (R.state reader.new) result }
{
    let stated = zone_of(alloc, form, reader, limit)?;
    what_is_read_is_stated();
    if !text_fits(&stated) {
        return Err(Stop::Refused(Fault::ZoneTooLarge, Place::Whole));
    }
    Ok(stated)
}

/// The zone that octets in memory denote.
///
/// # Errors
///
/// `Refused` where they denote none, and `Memory`.
pub fn accepted_bytes(alloc: Global, form: Form<'_>, octets: &[u8]) -> Result<Zone, Stop>
    ensures zone { IfOk result (InputDenotes (read_as form.entry octets.now)) }
    ensures short { IfOk result (λ z. length (canon z) ≤ text_limit) }
    ensures stopped { IfErr result IsOfBytes }
    ensures fault { IfErr result (λ stop.
        IfRefused stop (IsRefusal (read_as form.entry octets.now))) }
{
    accepted_zone(alloc, form, &mut OctetSlice { rest: octets })
}

/// The canonical text of the zone that the octets denote.
///
/// # Errors
///
/// `Refused` where they denote none, and `Memory`.
#[tactic(auto, using(crate::proofs::Written::normalised_bytes))]
pub fn normalise_bytes(alloc: Global, form: Form<'_>, octets: &[u8]) -> Result<Vec<u8>, Stop>
    ensures accepted { IfOk result (λ text.
        NormalisesTo (read_as form.entry octets.now) text.items) }
    ensures stopped { IfErr result IsOfBytes }
    ensures fault { IfErr result (λ stop.
        IfRefused stop (IsRefusal (read_as form.entry octets.now))) }
{
    let zone = zone_of(alloc, form, &mut OctetSlice { rest: octets }, TEXT_LIMIT)?;
    what_is_read_is_stated();
    push_zone(alloc, &zone)
}

/// The zone of the records that the reader's octets state, where they are no more than a limit.
///
/// # Errors
///
/// `Refused` with the refusal of the input, but for the length of its canonical text; `Read` where
/// the reader failed, and `Memory`.
fn zone_of<R: OctetReader>(
    alloc: Global,
    form: Form<'_>,
    reader: &mut R,
    limit: u64,
) -> Result<Zone, Stop>
    requires { limit ≤ text_limit }
    ensures zone { IfOk result (λ z. IfSome (R.state reader.old).octets (λ octets.
        ReadsZoneWithin limit (read_as form.entry octets) z)) }
    ensures form { IsForm (form_of form.entry) }
    ensures stopped { IfErr result IsOfReading }
    ensures read { Reads limit (read_as form.entry)
        (R.state reader.old) (R.state reader.new) result }
{
    match form {
        Form::File(origin) => {
            origin.known();
            of_nothing_nothing_is_decided();
            let mut source = TextSource::new(alloc, origin);
            read_zone(alloc, &mut source, reader, &mut zeros(alloc, PIECE)?, limit)
        }
        Form::Transfer => {
            let mut source = TransferSource::new(alloc);
            read_zone(alloc, &mut source, reader, &mut zeros(alloc, PIECE)?, limit)
        }
    }
}
