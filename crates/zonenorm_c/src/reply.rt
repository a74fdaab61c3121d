//! The reply of a call, and its two ways out: a text that the caller frees, and the caller's room.
ghost use Rattle.std.specs.Prelude.{◌≡◌, [], length};
ghost use Rattle.zonenorm_c.specs.Answering.{IsPut, ReportsHalt, ReportsLine, ReportsUnread};

use crate::answer::{Answer, BAD_ORIGIN, NO_MEMORY, UNSUPPORTED, plain, refusal};
use crate::given::Unread;
use crate::zone::Halt;
use std::alloc::Global;
use zone_rdata::{Fault, Place, line_of_refusal};

/// A text and the answer beside it.
#[derive(Drop)]
pub(crate) struct Reply {
    pub(crate) text: Vec<u8>,
    pub(crate) answer: Answer,
}

/// Hands out a text, which stays until the caller frees it. An empty one must not be freed.
pub(crate) fn hand_out(reply: Reply, text: &mut &'static [u8]) -> Answer
    ensures text { text.new.now ≡ reply.text.items }
    ensures answer { result ≡ reply.answer }
{
    let Reply {
        text: octets,
        answer,
    } = reply;
    *text = if octets.is_empty() {
        b""
    } else {
        octets.leak()
    };
    answer
}

/// Puts a text at the front of the room, if it fits, and returns its length.
pub(crate) fn put(text: &[u8], room: &mut [u8]) -> usize
    ensures put { IsPut text.now room.old room.new }
    ensures len { result ≡ length text.now }
{
    let len = text.len();
    if len <= room.len() {
        let (front, _) = room.split_at_mut(len);
        front.copy_from_slice(text);
    }
    len
}

/// An answer, and no text.
pub(crate) fn without_text(alloc: Global, answer: Answer) -> Reply
    ensures text { result.text.items ≡ [] }
    ensures answer { result.answer ≡ answer }
{
    Reply {
        text: Vec::new(alloc),
        answer,
    }
}

/// The reply on a refusal: its line, or no text if there is no memory for it.
pub(crate) fn refusal_reply(alloc: Global, fault: &Fault, place: Place) -> Reply
    ensures { ReportsLine fault.now place result.text.items result.answer }
{
    let answer = refusal(fault, place);
    let line = line_of_refusal(fault, place);
    let mut text = Vec::new(alloc);
    match text.extend_from_slice(line.as_slice()) {
        Ok(()) => Reply { text, answer },
        Err(_) => without_text(alloc, answer),
    }
}

/// The reply on an input that denotes no zone or isn't read.
pub(crate) fn halt_reply(alloc: Global, halt: Halt) -> Reply
    ensures { ReportsHalt halt result.text.items result.answer }
{
    match halt {
        Halt::Refused(fault, place) => refusal_reply(alloc, &fault, place),
        Halt::Unread(why) => unread_reply(alloc, why),
        Halt::Files(reply) => reply,
    }
}

/// The reply on an input that isn't read.
pub(crate) fn unread_reply(alloc: Global, why: Unread) -> Reply
    ensures { ReportsUnread why result.text.items result.answer }
{
    match why {
        Unread::TooLong => refusal_reply(alloc, &Fault::InputTooLong, Place::Whole),
        Unread::Unsupported => without_text(alloc, plain(UNSUPPORTED)),
        Unread::BadOrigin => without_text(alloc, plain(BAD_ORIGIN)),
        Unread::Memory => without_text(alloc, plain(NO_MEMORY)),
    }
}
