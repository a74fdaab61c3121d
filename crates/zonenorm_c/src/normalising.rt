//! Inputs normalised.
ghost use Rattle.std.specs.Prelude.{◌≡◌, IfErr, IfOk, List, length, ℕ};
ghost use Rattle.zonenorm_c.specs.Answering.{Answers, IsPut};
ghost use Rattle.zonenorm_c.specs.Normalise.{IsCanonical};

use crate::answer::{ACCEPTED, Answer, NO_MEMORY, counted, plain};
use crate::given::Given;
use crate::reply::{Reply, halt_reply, hand_out, put, without_text};
use crate::zone::zone_of;
use std::alloc::Global;
use zone_print::push_zone;

/// The reply on an input: the canonical text of its zone.
fn reply_of(alloc: Global, given: &Given<'_>) -> Reply
    ensures { Answers IsCanonical given.now result.text.items result.answer }
{
    match zone_of(alloc, given) {
        Err(halt) => halt_reply(alloc, halt),
        Ok(zone) => match push_zone(alloc, &zone) {
            Ok(text) => {
                let answer = counted(ACCEPTED, zone.len());
                Reply { text, answer }
            }
            Err(_) => without_text(alloc, plain(NO_MEMORY)),
        },
    }
}

/// Hands out the canonical text of the zone that an input denotes.
///
/// # Errors
///
/// Status 2 to 5. With 3 the text is the line of the first fault.
#[unsafe(no_mangle)]
pub extern "C" fn zonenorm_normalise(
    alloc: Global,
    given: &Given<'_>,
    text: &mut &'static [u8],
    answer: &mut Answer,
)
    ensures { Answers IsCanonical given.now text.new.now answer.new }
{
    let reply = reply_of(alloc, given);
    *answer = hand_out(reply, text);
}

/// Puts the canonical text of the zone that an input denotes into the caller's room, if it fits,
/// and returns its length. If it doesn't, the room is unchanged.
///
/// # Errors
///
/// Status 2 to 5. With 3 the text is the line of the first fault.
#[unsafe(no_mangle)]
pub extern "C" fn zonenorm_normalise_into(
    alloc: Global,
    given: &Given<'_>,
    room: &mut [u8],
    answer: &mut Answer,
) -> usize
    ensures { (text : List ℕ) × Answers IsCanonical given.now text answer.new
        × IsPut text room.old room.new × (result ≡ length text) }
{
    let reply = reply_of(alloc, given);
    *answer = reply.answer;
    put(reply.text.as_slice(), room)
}
