//! Presentation format and the generic form of further types (RFC 3597).
ghost use Rattle.std.specs.Prelude.{◌≡◌, IfErr, IfOk};
ghost use Rattle.zonenorm_c.specs.Rewriting.{AnswersGeneric, AnswersWords, IsRewritten, ReportsFirst};
ghost use Rattle.zonenorm_c.specs.Giving.{IsUnread};
ghost use Rattle.zone_words.specs.Refusal.{refusal_text};

use crate::answer::{ACCEPTED, Answer, NO_MEMORY, REFUSED, UNSUPPORTED, plain};
use crate::given::{ALL_TYPES, Given, Unread, cased_origin_in, limit_in};
use crate::reply::{Reply, hand_out, unread_reply, without_text};
use std::alloc::{AllocError, Global};
use words_print::print_words;
use zone_words::{Refusal, Refusals, Rewritten, rewrite_file};

/// A master file with the data of further types in the generic form.
///
/// # Errors
///
/// Why it isn't read.
fn rewritten(alloc: Global, given: &Given<'_>) -> Result<Rewritten, Unread>
    ensures rewritten { IfOk result (λ new. IsRewritten given.now new.text.items new.refusals) }
    ensures unread { IfErr result (IsUnread given.now) }
{
    if given.octets.len() as u64 > limit_in(given.limit) {
        return Err(Unread::TooLong);
    }
    let cased = cased_origin_in(given.origin)?;
    match rewrite_file(alloc, &cased, given.octets) {
        Ok(rewritten) => Ok(rewritten),
        Err(_) => Err(Unread::Memory),
    }
}

/// The line that reports an entry that states no data.
fn line_of(alloc: Global, refusal: &Refusal) -> Result<Vec<u8>, AllocError>
    ensures { IfOk result (λ line. line.items ≡ refusal_text refusal.now) }
{
    Ok(format!(in alloc; "{refusal}")?.into_bytes())
}

/// The reply on the entries that state no data: the first, and how many there are.
fn refusals_reply(alloc: Global, refusals: &Refusals) -> Reply
    ensures { ReportsFirst refusals.now.first refusals.now.count result.text.items result.answer }
{
    let Some(refusal) = refusals.first else {
        return without_text(alloc, plain(ACCEPTED));
    };
    let mut answer = plain(REFUSED);
    answer.place = 1;
    answer.line = refusal.line;
    answer.count = refusals.count;
    match line_of(alloc, &refusal) {
        Ok(text) => Reply { text, answer },
        Err(_) => without_text(alloc, answer),
    }
}

/// Hands out a master file with the data of further types in the generic form (RFC 3597), line by
/// line, as `zonewords generic` writes it.
///
/// # Errors
///
/// Status 3 if entries state no data: `count` is how many, `line` is the first one's, and `reason`
/// reports it; the text is handed out all the same. Status 2, 4 or 5, and 3 for an input over its
/// limit: no text.
#[unsafe(no_mangle)]
pub extern "C" fn zonenorm_generic(
    alloc: Global,
    given: &Given<'_>,
    text: &mut &'static [u8],
    reason: &mut &'static [u8],
    answer: &mut Answer,
)
    ensures { AnswersGeneric given.now text.new.now reason.new.now answer.new }
{
    if given.kind != ALL_TYPES {
        *text = b"";
        *answer = hand_out(without_text(alloc, plain(UNSUPPORTED)), reason);
        return;
    }
    match rewritten(alloc, given) {
        Ok(
            Rewritten {
                text: octets,
                refusals,
            },
        ) => {
            *answer = hand_out(refusals_reply(alloc, &refusals), reason);
            let _ = hand_out(
                Reply {
                    text: octets,
                    answer: *answer,
                },
                text,
            );
        }
        Err(why) => {
            *text = b"";
            *answer = hand_out(unread_reply(alloc, why), reason);
        }
    }
}

/// The reply on a text: the same in presentation format.
fn words_reply(alloc: Global, octets: &[u8]) -> Reply
    ensures { AnswersWords octets.now result.text.items result.answer }
{
    match print_words(alloc, octets) {
        Ok(text) => Reply {
            text,
            answer: plain(ACCEPTED),
        },
        Err(_) => without_text(alloc, plain(NO_MEMORY)),
    }
}

/// Hands out a canonical text, or a diff of two, with the data of further types in presentation
/// format.
///
/// # Errors
///
/// Status 4.
#[unsafe(no_mangle)]
pub extern "C" fn zonenorm_words(
    alloc: Global,
    octets: &[u8],
    text: &mut &'static [u8],
    answer: &mut Answer,
)
    ensures { AnswersWords octets.now text.new.now answer.new }
{
    let reply = words_reply(alloc, octets);
    *answer = hand_out(reply, text);
}
