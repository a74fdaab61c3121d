//! Two inputs compared.
ghost use Rattle.std.specs.Prelude.{◌≡◌};
ghost use Rattle.zonenorm_c.specs.Answering.{ReportsHalt};
ghost use Rattle.zonenorm_c.specs.Compare.{AnswersCompare, AnswersOfInputs, ReportsVerdict, number_of};
ghost use Rattle.zonenorm_c.specs.Giving.{source_octets};
ghost use Rattle.zone_engine.specs.Form.{read_as_with};

use crate::answer::{ACCEPTED, Answer, DIFFERENT, NO_MEMORY, plain};
use crate::given::{FILES, Given, Readable, read_given};
use crate::reply::{Reply, halt_reply, hand_out, refusal_reply, unread_reply, without_text};
use crate::zone::{Halt, zone_of};
use std::alloc::Global;
use zone_engine::laws::same_is_one_zone;
use zone_engine::{Form, Verdict, Which, compare_bytes, first_difference};
use zone_rdata::Stop;

/// The number of one of two inputs.
pub(crate) fn input_of(which: Which) -> u32
    ensures { result ≡ number_of which }
{
    match which {
        Which::First => 1,
        Which::Second => 2,
    }
}

/// The reply on two inputs that are read.
fn comparison_reply(alloc: Global, first: &Readable<'_>, second: &Readable<'_>) -> Reply
    ensures { AnswersOfInputs (read_as_with first.now.origin (source_octets first.now.source))
        (read_as_with second.now.origin (source_octets second.now.source))
        result.text.items result.answer }
{
    same_is_one_zone();
    let form = Form::with_origin(&first.origin);
    let other_form = Form::with_origin(&second.origin);
    let octets = first.source.octets();
    match compare_bytes(alloc, form, octets, other_form, second.source.octets()) {
        Ok(Verdict::Same) => without_text(alloc, plain(ACCEPTED)),
        Ok(Verdict::Different(line)) => {
            let mut answer = plain(DIFFERENT);
            answer.line = line;
            without_text(alloc, answer)
        }
        Err((which, stop)) => {
            let Stop::Refused(fault, place) = &stop else {
                return without_text(alloc, plain(NO_MEMORY));
            };
            let mut reply = refusal_reply(alloc, fault, *place);
            reply.answer.input = input_of(which);
            reply
        }
    }
}

/// The reply on an input of two that denotes no zone.
pub(crate) fn halted_reply(alloc: Global, halt: Halt, which: Which) -> Reply
    ensures reports { ReportsHalt halt result.text.items result.answer }
    ensures input { result.answer.input ≡ number_of which }
{
    let mut reply = halt_reply(alloc, halt);
    reply.answer.input = input_of(which);
    reply
}

/// The reply on a verdict.
fn verdict_reply(alloc: Global, verdict: Verdict) -> Reply
    ensures { ReportsVerdict verdict result.text.items result.answer }
{
    match verdict {
        Verdict::Same => without_text(alloc, plain(ACCEPTED)),
        Verdict::Different(line) => {
            let mut answer = plain(DIFFERENT);
            answer.line = line;
            without_text(alloc, answer)
        }
    }
}

/// The reply on two inputs, by the zones that they denote.
fn zones_reply(alloc: Global, first: &Given<'_>, second: &Given<'_>) -> Reply
    ensures { AnswersCompare first.now second.now result.text.items result.answer }
{
    match zone_of(alloc, first) {
        Err(halt) => halted_reply(alloc, halt, Which::First),
        Ok(zone) => match zone_of(alloc, second) {
            Err(halt) => halted_reply(alloc, halt, Which::Second),
            Ok(other) => verdict_reply(alloc, first_difference(&zone, &other)),
        },
    }
}

/// The reply on two inputs.
fn reply_of(alloc: Global, first: &Given<'_>, second: &Given<'_>) -> Reply
    ensures { AnswersCompare first.now second.now result.text.items result.answer }
{
    if first.kind == FILES || second.kind == FILES {
        return zones_reply(alloc, first, second);
    }
    let input = match read_given(alloc, first) {
        Ok(input) => input,
        Err(why) => {
            let mut reply = unread_reply(alloc, why);
            reply.answer.input = 1;
            return reply;
        }
    };
    match read_given(alloc, second) {
        Ok(other) => comparison_reply(alloc, &input, &other),
        Err(why) => {
            let mut reply = unread_reply(alloc, why);
            reply.answer.input = 2;
            reply
        }
    }
}

/// Compares two inputs: status 0 if they denote one zone, else 1 and the first line at which their
/// canonical texts differ. The text is empty, or the line of a refusal.
///
/// # Errors
///
/// Status 2 to 5, and which input stopped the call. Both are prepared before the first is judged.
#[unsafe(no_mangle)]
pub extern "C" fn zonenorm_compare(
    alloc: Global,
    first: &Given<'_>,
    second: &Given<'_>,
    text: &mut &'static [u8],
    answer: &mut Answer,
)
    ensures { AnswersCompare first.now second.now text.new.now answer.new }
{
    let reply = reply_of(alloc, first, second);
    *answer = hand_out(reply, text);
}
