//! The records of a zone in octets.
ghost use Rattle.std.specs.Int.{to_be_bytes, w16, w32};
ghost use Rattle.std.specs.List.{flat_map};
ghost use Rattle.std.specs.Prelude.{◌≡◌, ◌++◌, IfOk, OnOk, List, length, ℕ};
ghost use Rattle.zone_digest.specs.Digest.{record_octets};
ghost use Rattle.zone_rdata.specs.Lent.{record_of};
ghost use Rattle.zonenorm_c.specs.Answering.{Answers, IsPut};
ghost use Rattle.zonenorm_c.specs.Records.{AreRecords};

use crate::answer::{ACCEPTED, Answer, NO_MEMORY, counted, plain};
use crate::given::Given;
use crate::reply::{Reply, halt_reply, hand_out, put, without_text};
use crate::zone::zone_of;
use std::alloc::{AllocError, Global};
use zone_rdata::RrRef;
use zone_set::Zone;

/// Appends the canonical octets of a record (RFC 4034 6.2): owner, type, class, TTL, the length of
/// its data and the data.
pub(crate) fn push_octets(rr: &RrRef<'_>, octets: &mut Vec<u8>) -> Result<(), AllocError>
    ensures { OnOk result (octets.new.items ≡ octets.old.items ++ record_octets (record_of rr.now)) }
{
    rr.rdata.known();
    let data = rr.rdata.octets();
    let [k0, k1] = rr.kind.number().to_be_bytes();
    let [c0, c1] = rr.class.number().to_be_bytes();
    let [t0, t1, t2, t3] = rr.ttl.to_be_bytes();
    let [d0, d1] = (data.len() as u16).to_be_bytes();
    octets.extend_from_slice(rr.owner.wire())?;
    octets.extend_from_slice([k0, k1, c0, c1, t0, t1, t2, t3, d0, d1].as_slice())?;
    octets.extend_from_slice(data)
}

/// The canonical octets of all records, in canonical order.
fn octets_of(alloc: Global, zone: &Zone) -> Result<Vec<u8>, AllocError>
    ensures { IfOk result (λ octets. octets.items ≡ flat_map record_octets zone.now.records) }
{
    let mut octets = Vec::with_capacity(alloc, zone.message_len() as usize)?;
    for rr in zone.records() {
        push_octets(&rr, &mut octets)?;
    }
    Ok(octets)
}

/// The reply on the records of an input.
fn reply_of(alloc: Global, given: &Given<'_>) -> Reply
    ensures { Answers AreRecords given.now result.text.items result.answer }
{
    match zone_of(alloc, given) {
        Err(halt) => halt_reply(alloc, halt),
        Ok(zone) => match octets_of(alloc, &zone) {
            Ok(text) => {
                let answer = counted(ACCEPTED, zone.len());
                Reply { text, answer }
            }
            Err(_) => without_text(alloc, plain(NO_MEMORY)),
        },
    }
}

/// Hands out the records of the zone that an input denotes, in canonical order, each as a message
/// has it without compression (RFC 1035 3.2.1).
///
/// # Errors
///
/// Status 2 to 5. With 3 the text is the line of the first fault.
#[unsafe(no_mangle)]
pub extern "C" fn zonenorm_records(
    alloc: Global,
    given: &Given<'_>,
    text: &mut &'static [u8],
    answer: &mut Answer,
)
    ensures { Answers AreRecords given.now text.new.now answer.new }
{
    let reply = reply_of(alloc, given);
    *answer = hand_out(reply, text);
}

/// Puts the records of the zone that an input denotes into the caller's room, if they fit, and
/// returns their length: in canonical order, each as a message has it without compression (RFC 1035
/// 3.2.1). If they don't fit, the room is unchanged.
///
/// # Errors
///
/// Status 2 to 5. With 3 the text is the line of the first fault.
#[unsafe(no_mangle)]
pub extern "C" fn zonenorm_records_into(
    alloc: Global,
    given: &Given<'_>,
    room: &mut [u8],
    answer: &mut Answer,
) -> usize
    ensures { (text : List ℕ) × Answers AreRecords given.now text answer.new
        × IsPut text room.old room.new × (result ≡ length text) }
{
    let reply = reply_of(alloc, given);
    *answer = reply.answer;
    put(reply.text.as_slice(), room)
}
