ghost use Rattle.std.specs.Prelude.{◌≡◌, ◌+◌, ◌≤◌, ◌↔◌, length, min, IfOk, IfErr, OnOk, OnErr, IsTrue};
ghost use Rattle.std.specs.Io.KnownBytes.{Appends};
ghost use Rattle.zone_print.specs.Canonical.{canon, text_limit};
ghost use Rattle.zone_print.specs.Device.{WorksOn};
ghost use Rattle.zone_print.specs.Machine.Writing.{IsOfWriting};
ghost use Rattle.zone_print.specs.Writing.{AppendsPart, StopsPush, StopsWrite};

use crate::line::push_line;
use crate::line_buffer::LineBuffer;
use crate::write::{OctetWriter, write_octets};
use std::alloc::Global;
use zone_name::Room;
use zone_rdata::{Fault, Place, Stop};
use zone_set::{Zone, message_len};

/// How long an input and a canonical text may be, in octets.
pub const TEXT_LIMIT: u64 = 1_073_741_824;

/// How many octets of lines are gathered before they are written.
const WRITE_LEN: usize = 65_536;

/// The length of the canonical text in octets, or one more than [`TEXT_LIMIT`] where it is longer.
/// Takes no memory.
pub fn canon_len(zone: &Zone) -> u64
    ensures { result ≡ min (length (canon zone.now)) (text_limit + 1) }
{
    len_within(zone, TEXT_LIMIT)
}

/// Whether the canonical text has at most [`TEXT_LIMIT`] octets. Takes no memory.
pub fn text_fits(zone: &Zone) -> bool
    ensures { IsTrue result ↔ length (canon zone.now) ≤ text_limit }
{
    text_fits_within(zone, TEXT_LIMIT)
}

/// The canonical text of the zone.
///
/// # Errors
///
/// `ZoneTooLarge` at the input as a whole where the text has more than [`TEXT_LIMIT`] octets;
/// `Memory`.
pub fn push_zone(alloc: Global, zone: &Zone) -> Result<Vec<u8>, Stop>
    ensures text { IfOk result (λ text. text.items ≡ canon zone.now) }
    ensures short { OnOk result (length (canon zone.now) ≤ text_limit) }
    ensures stopped { IfErr result (StopsPush text_limit (canon zone.now)) }
{
    push_zone_within(alloc, zone, TEXT_LIMIT)
}

/// Writes the canonical text of the zone. It doesn't flush the writer.
///
/// # Errors
///
/// `ZoneTooLarge` at the input as a whole where the text has more than [`TEXT_LIMIT`] octets,
/// before the first octet; `Write` where the writer failed, as one of std does that answers an
/// error or takes no octet; `Memory`. After the last two a proper prefix of the text was written.
pub fn write_zone<W: OctetWriter>(alloc: Global, zone: &Zone, writer: &mut W) -> Result<(), Stop>
    ensures text { OnOk result
        (Appends (W.state writer.old).octets (W.state writer.new).octets (canon zone.now)) }
    ensures short { OnOk result (length (canon zone.now) ≤ text_limit) }
    ensures stopped { IfErr result
        (StopsWrite text_limit (canon zone.now) (W.state writer.old) (W.state writer.new)) }
    ensures works { OnOk result (WorksOn (W.state writer.old) (W.state writer.new)) }
{
    write_zone_within(alloc, zone, writer, TEXT_LIMIT)
}

/// The length of the canonical text, or one more than the limit where it is longer.
#[tactic(auto, using(crate::proofs::Lengths::moved_length))]
fn len_within(zone: &Zone, limit: u64) -> u64
    requires { limit ≤ text_limit }
    ensures { result ≡ min (length (canon zone.now)) (limit + 1) }
{
    let mut room = Room { left: limit + 1 };
    // In any order the lines are as long.
    for rr in zone.unordered_records() {
        let Ok(()) = push_line(&mut room, &rr);
    }
    limit + 1 - room.left
}

/// Whether the canonical text has at most so many octets. Lines are counted until those that are
/// left surely fit: they have at most four times the octets of their records in messages.
fn text_fits_within(zone: &Zone, limit: u64) -> bool
    requires { limit ≤ text_limit }
    ensures { IsTrue result ↔ length (canon zone.now) ≤ limit }
{
    let mut spare = Room { left: limit + 1 };
    let mut uncounted = zone.message_len();
    for rr in zone.unordered_records() {
        if uncounted < spare.left / 4 {
            return true;
        }
        let Ok(()) = push_line(&mut spare, &rr);
        uncounted = uncounted.saturating_sub(message_len(&rr));
    }
    spare.left > 0
}

/// How many octets the canonical text is likely to have, at most a limit: a line of text has some
/// three halves of the octets of its record in a message.
fn likely_len(zone: &Zone, limit: u64) -> u64
    ensures { result ≤ limit }
{
    let octets = zone.message_len();
    octets.saturating_add(octets / 2).min(limit)
}

/// [`push_zone`] under a limit of the caller's.
///
/// # Errors
///
/// `ZoneTooLarge` at the input as a whole where the text has more than `limit` octets; `Memory`.
#[tactic(auto, using(crate::specs::Writing::large, crate::specs::Writing::memory))]
pub fn push_zone_within(alloc: Global, zone: &Zone, limit: u64) -> Result<Vec<u8>, Stop>
    requires { limit ≤ text_limit }
    ensures text { IfOk result (λ text. text.items ≡ canon zone.now) }
    ensures short { OnOk result (length (canon zone.now) ≤ limit) }
    ensures stopped { IfErr result (StopsPush limit (canon zone.now)) }
{
    if !text_fits_within(zone, limit) {
        return Err(Stop::Refused(Fault::ZoneTooLarge, Place::Whole));
    }
    let mut text = LineBuffer::with_capacity(alloc, likely_len(zone, limit) as usize)?;
    for rr in zone.records() {
        text.push_record(rr)?;
    }
    Ok(text.into_octets())
}

/// [`write_zone`] under a limit of the caller's.
///
/// # Errors
///
/// `ZoneTooLarge` at the input as a whole where the text has more than `limit` octets, before the
/// first octet; `Write` where the writer failed; `Memory`. After the last two a proper prefix of
/// the text was written.
#[tactic(auto, using(crate::specs::Writing::large, crate::proofs::Stops::stops_within))]
pub fn write_zone_within<W: OctetWriter>(
    alloc: Global,
    zone: &Zone,
    writer: &mut W,
    limit: u64,
) -> Result<(), Stop>
    requires { limit ≤ text_limit }
    ensures text { OnOk result
        (Appends (W.state writer.old).octets (W.state writer.new).octets (canon zone.now)) }
    ensures short { OnOk result (length (canon zone.now) ≤ limit) }
    ensures stopped { IfErr result
        (StopsWrite limit (canon zone.now) (W.state writer.old) (W.state writer.new)) }
    ensures works { OnOk result (WorksOn (W.state writer.old) (W.state writer.new)) }
{
    if !text_fits_within(zone, limit) {
        return Err(Stop::Refused(Fault::ZoneTooLarge, Place::Whole));
    }
    write_lines(alloc, zone, writer)
}

/// Writes the line of each record, some 64 KiB at a time.
///
/// # Errors
///
/// `Write` where the writer failed, and `Memory`. A proper prefix of the text was written.
fn write_lines<W: OctetWriter>(alloc: Global, zone: &Zone, writer: &mut W) -> Result<(), Stop>
    ensures text { OnOk result
        (Appends (W.state writer.old).octets (W.state writer.new).octets (canon zone.now)) }
    ensures part { OnErr result
        (AppendsPart (W.state writer.old).octets (W.state writer.new).octets (canon zone.now)) }
    ensures works { OnOk result (WorksOn (W.state writer.old) (W.state writer.new)) }
    ensures stopped { IfErr result (IsOfWriting (W.state writer.old) (W.state writer.new)) }
{
    let mut buffer = LineBuffer::new(alloc);
    for rr in zone.records() {
        buffer.push_record(rr)?;
        if buffer.len() >= WRITE_LEN {
            write_octets(writer, buffer.as_slice())?;
            buffer.clear();
        }
    }
    write_octets(writer, buffer.as_slice())
}
