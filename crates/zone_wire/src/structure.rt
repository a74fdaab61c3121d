ghost use Rattle.std.specs.Prelude.{◌≡◌, ◌≤◌, length, MatchResult, Err, option_map};
ghost use Rattle.zone_rdata.specs.Cause.{fault_for};
ghost use Rattle.zone_wire.specs.Machine.Parsing.{IsParsed, name_end_of, part_end_of, run_end_of};
ghost use Rattle.zone_wire.specs.Machine.Sections.{header_fault, record_at, questions_from, records_from, sections_of};
ghost use Rattle.zone_wire.specs.Machine.Finding.{outcome};
ghost use Rattle.zone_wire.specs.Machine.Spot.{end_or_fault, offset_or_fault};
ghost use Rattle.zone_wire.specs.Machine.Walk.{walk};

use crate::header::{ANCOUNT, ARCOUNT, HEADER_LEN, NSCOUNT, QDCOUNT, RECORD_HEAD_LEN};
use crate::number::u16_at;
use crate::spot::{Spot, Standing, step_at};
use crate::ticks::Ticks;
use zone_rdata::Cause;

/// The offset at which the answers of a message begin.
///
/// # Errors
///
/// The first fault of the message's structure and the offset at which it stands.
#[tactic(auto, using(crate::proofs::Messages::Sections::structure_is_read))]
pub(crate) fn answers_start(octets: &[u8]) -> Result<usize, (Cause, usize)>
    ensures { MatchResult result (IsParsed octets.now)
        (λ e. sections_of octets.now ≡ Err (fault_for e.0, e.1)) }
{
    if let Some(cause) = header_cause(octets) {
        return Err((cause, 0));
    }
    let answers = questions_end(octets, u16_at(octets, QDCOUNT), HEADER_LEN)?;
    let additional = records_end(octets, u16_at(octets, ANCOUNT), answers)?;
    let end = records_end(octets, u16_at(octets, ARCOUNT), additional)?;
    if end != octets.len() {
        return Err((Cause::TrailingOctets, 0));
    }
    Ok(answers)
}

/// The first fault of a message's header.
#[tactic(auto, unfolding(crate::specs::Machine::Sections::header_fault))]
fn header_cause(octets: &[u8]) -> Option<Cause>
    ensures { option_map fault_for result ≡ header_fault octets.now }
{
    if octets.len() < HEADER_LEN {
        return Some(Cause::ShortMessage);
    }
    // QR, of one bit, and the opcode, of four, stand above AA, TC and RD; RA and Z above RCODE, of
    // four (RFC 1035 4.1.1).
    if octets[2] >> 3 != 0b10000 {
        Some(Cause::NotAResponse)
    } else if octets[2] >> 1 & 1 != 0 {
        Some(Cause::Truncated)
    } else if octets[3] & 0x0f != 0 {
        Some(Cause::ErrorCode(octets[3] & 0x0f))
    } else if u16_at(octets, QDCOUNT) > 1 || u16_at(octets, NSCOUNT) != 0 {
        Some(Cause::BadCounts)
    } else {
        None
    }
}

/// The offset after the name at an offset. The walk is the one that `read_name` makes, and keeps no
/// label.
#[tactic(auto, using(crate::proofs::Names::Walking::spots_show))]
fn walk_to_root(message: &[u8], offset: usize) -> Result<usize, Cause>
    ensures { end_or_fault result ≡ name_end_of (outcome message.now (walk message.now offset)) }
{
    let mut ticks = Ticks::new();
    let mut end = None;
    let mut spot = Spot::outset(offset);
    'places: loop {
        match step_at(message, spot, false, &mut ticks) {
            Standing::Outside => return Err(Cause::ShortMessage),
            Standing::Bad(cause) => return Err(cause),
            Standing::Root => return Ok(end.unwrap_or(spot.offset + 1)),
            Standing::Label(size) => spot = spot.past_label(size),
            Standing::Pointer(target) => {
                end = Some(end.unwrap_or(spot.offset + 2));
                spot = spot.past_pointer(target);
            }
        }
    }
}

/// The offset after the record at an offset: its name, type, class, TTL, and its data after its
/// length (RFC 1035 4.1.3).
#[tactic(auto, using(crate::proofs::Messages::Sections::name_ends_inside))]
fn record_end(message: &[u8], offset: usize) -> Result<usize, Cause>
    ensures { end_or_fault result ≡ part_end_of (λ r. r.end) (record_at message.now offset) }
{
    let head = walk_to_root(message, offset)?;
    let start = head + RECORD_HEAD_LEN;
    if start > message.len() {
        return Err(Cause::ShortMessage);
    }
    let end = start + u16_at(message, head + 8) as usize;
    if end > message.len() {
        return Err(Cause::ShortMessage);
    }
    Ok(end)
}

/// The offset after so many questions, of which there is at most one: its name, type and class (RFC
/// 1035 4.1.2).
///
/// # Errors
///
/// The question's fault and the offset at which it begins.
#[tactic(auto, using(crate::proofs::Messages::Sections::name_ends_inside))]
fn questions_end(message: &[u8], count: u16, offset: usize) -> Result<usize, (Cause, usize)>
    requires { count ≤ 1 }
    ensures { offset_or_fault result ≡ run_end_of (questions_from message.now count offset) }
{
    if count == 0 {
        return Ok(offset);
    }
    match walk_to_root(message, offset) {
        Ok(end) if end + 4 <= message.len() => Ok(end + 4),
        Ok(_) => Err((Cause::ShortMessage, offset)),
        Err(cause) => Err((cause, offset)),
    }
}

/// The offset after so many records.
///
/// # Errors
///
/// The first fault and the offset at which its record begins.
#[tactic(auto, using(crate::proofs::Messages::Sections::records_are_passed))]
fn records_end(message: &[u8], count: u16, offset: usize) -> Result<usize, (Cause, usize)>
    ensures { offset_or_fault result ≡ run_end_of (records_from message.now count offset) }
{
    let mut end = offset;
    for _ in 0..count {
        end = match record_end(message, end) {
            Ok(next) => next,
            Err(cause) => return Err((cause, end)),
        };
    }
    Ok(end)
}
