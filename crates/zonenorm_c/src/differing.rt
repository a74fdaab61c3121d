//! The difference of two inputs.
ghost use Rattle.std.specs.List.{flat_map};
ghost use Rattle.std.specs.Prelude.{◌≡◌, ◌++◌, ◌-◌, ◌<◌, ◌==◌, ◌≤◌, ◌^◌, if◌then◌else◌, [], IfNone, IfOk, IfSome, List, OnOk, length, min};
ghost use Rattle.zone_difference.specs.Difference.{AreOnlyIn};
ghost use Rattle.zone_engine.specs.Form.{read_as_with};
ghost use Rattle.zone_rdata.specs.Lent.{record_of};
ghost use Rattle.zone_rdata.specs.Record.{Record};
ghost use Rattle.zonenorm_c.specs.Difference.{AnswersDiff, AnswersDifference, AnswersGivens, AreTexts, ReportsStop, ReportsUnreadOf, case_of, form_octets, form_of};
ghost use Rattle.zonenorm_c.specs.Giving.{source_octets};

use crate::answer::{ACCEPTED, Answer, DIFFERENT, NO_MEMORY, UNSUPPORTED, counted, plain};
use crate::comparing::{halted_reply, input_of};
use crate::given::{FILES, Given, Readable, Unread, read_given};
use crate::records::push_octets;
use crate::reply::{Reply, hand_out, refusal_reply, unread_reply, without_text};
use crate::zone::{zone_in, zone_of};
use std::alloc::{AllocError, Global};
use zone_difference::{Lacking, NameCase};
use zone_engine::Which;
use zone_print::push_line;
use zone_rdata::{RrRef, Stop};
use zone_set::Zone;

/// How a record is handed out.
#[derive(Clone, Copy)]
pub(crate) enum RecordForm {
    /// As its line of the canonical text.
    Line,
    /// As a message has it without compression (RFC 1035 3.2.1).
    Wire,
}

/// The records of one zone of which another has no equal, and how many they are.
#[derive(Drop)]
struct Listed {
    text: Vec<u8>,
    count: u64,
}

/// Two texts and the answer beside them.
#[derive(Drop)]
pub(crate) struct Texts {
    pub(crate) removed: Vec<u8>,
    pub(crate) added: Vec<u8>,
    pub(crate) answer: Answer,
}

/// What the flags of a call ask for, or `None` if there are others: 1 for records in octets, 2 for
/// names in data to be compared without regard to case.
fn asked_by(flags: u32) -> Option<(RecordForm, NameCase)>
    ensures known { IfSome result (λ asked. flags < 4 × (asked.0 ≡ form_of flags)
        × (asked.1 ≡ case_of flags)) }
    ensures others { IfNone result (4 ≤ flags) }
{
    match flags {
        0 => Some((RecordForm::Line, NameCase::Exact)),
        1 => Some((RecordForm::Wire, NameCase::Exact)),
        2 => Some((RecordForm::Line, NameCase::Folded)),
        3 => Some((RecordForm::Wire, NameCase::Folded)),
        _ => None,
    }
}

/// Appends a record.
fn push_record(form: RecordForm, rr: &RrRef<'_>, out: &mut Vec<u8>) -> Result<(), AllocError>
    ensures { OnOk result (out.new.items ≡ out.old.items ++ form_octets form (record_of rr.now)) }
{
    match form {
        RecordForm::Line => push_line(out, rr),
        RecordForm::Wire => push_octets(rr, out),
    }
}

/// The records of a zone of which another has no equal, in canonical order.
fn list_of(
    alloc: Global,
    zone: &Zone,
    other: &Zone,
    case: NameCase,
    form: RecordForm,
) -> Result<Listed, AllocError>
    ensures { IfOk result (λ list. (only : List Record)
        × AreOnlyIn case zone.now.records other.now.records only
        × (list.text.items ≡ flat_map (form_octets form) only)
        × (list.count ≡ min (length only) (2 ^ 64 - 1))) }
{
    let mut lacking = Lacking::new(alloc, zone, other, case);
    let mut text = Vec::new(alloc);
    let mut count: u64 = 0;
    'walk: while let Some(rr) = lacking.next(alloc)? {
        push_record(form, &rr, &mut text)?;
        count = count.saturating_add(1);
    }
    Ok(Listed { text, count })
}

/// The status of a difference of so many records.
fn status_of(count: u64) -> u32
    ensures { result ≡ (if count == 0 then 0 else 1) }
{
    if count == 0 { ACCEPTED } else { DIFFERENT }
}

/// The records that go and those that come from one zone to another.
fn texts_of(
    alloc: Global,
    zone: &Zone,
    other: &Zone,
    case: NameCase,
    form: RecordForm,
) -> Result<Texts, AllocError>
    ensures { IfOk result (λ texts. AreTexts case form zone.now.records other.now.records
        texts.removed.items texts.added.items texts.answer) }
{
    let gone = list_of(alloc, zone, other, case, form)?;
    let come = list_of(alloc, other, zone, case, form)?;
    let count = gone.count.saturating_add(come.count);
    Ok(Texts {
        removed: gone.text,
        added: come.text,
        answer: counted(status_of(count), count),
    })
}

/// A reply as the first of two texts, the second of which is empty.
fn alone(alloc: Global, reply: Reply) -> Texts
    ensures removed { result.removed.items ≡ reply.text.items }
    ensures added { result.added.items ≡ [] }
    ensures answer { result.answer ≡ reply.answer }
{
    Texts {
        removed: reply.text,
        added: Vec::new(alloc),
        answer: reply.answer,
    }
}

/// The texts where one of two inputs stopped the call: the line of its refusal is the first.
fn stop_texts(alloc: Global, stop: &Stop, which: Which) -> Texts
    ensures { ReportsStop stop.now which result.removed.items result.added.items result.answer }
{
    let Stop::Refused(fault, place) = stop else {
        return alone(alloc, without_text(alloc, plain(NO_MEMORY)));
    };
    let mut reply = refusal_reply(alloc, fault, *place);
    reply.answer.input = input_of(which);
    alone(alloc, reply)
}

/// The texts where one of two inputs isn't read.
fn unread_texts(alloc: Global, why: Unread, which: Which) -> Texts
    ensures { ReportsUnreadOf why which result.removed.items result.added.items result.answer }
{
    let mut reply = unread_reply(alloc, why);
    reply.answer.input = input_of(which);
    alone(alloc, reply)
}

/// The texts on two inputs that are read.
fn difference_texts(
    alloc: Global,
    first: &Readable<'_>,
    second: &Readable<'_>,
    case: NameCase,
    form: RecordForm,
) -> Texts
    ensures { AnswersDifference case form
        (read_as_with first.now.origin (source_octets first.now.source))
        (read_as_with second.now.origin (source_octets second.now.source))
        result.removed.items result.added.items result.answer }
{
    match zone_in(alloc, first) {
        Err(stop) => stop_texts(alloc, &stop, Which::First),
        Ok(zone) => match zone_in(alloc, second) {
            Err(stop) => stop_texts(alloc, &stop, Which::Second),
            Ok(other) => match texts_of(alloc, &zone, &other, case, form) {
                Ok(texts) => texts,
                Err(_) => alone(alloc, without_text(alloc, plain(NO_MEMORY))),
            },
        },
    }
}

/// The texts on two inputs, by the zones that they denote.
fn zones_texts(
    alloc: Global,
    first: &Given<'_>,
    second: &Given<'_>,
    case: NameCase,
    form: RecordForm,
) -> Texts
    ensures { AnswersGivens case form first.now second.now
        result.removed.items result.added.items result.answer }
{
    match zone_of(alloc, first) {
        Err(halt) => alone(alloc, halted_reply(alloc, halt, Which::First)),
        Ok(zone) => match zone_of(alloc, second) {
            Err(halt) => alone(alloc, halted_reply(alloc, halt, Which::Second)),
            Ok(other) => match texts_of(alloc, &zone, &other, case, form) {
                Ok(texts) => texts,
                Err(_) => alone(alloc, without_text(alloc, plain(NO_MEMORY))),
            },
        },
    }
}

/// The texts on two inputs.
fn given_texts(
    alloc: Global,
    first: &Given<'_>,
    second: &Given<'_>,
    case: NameCase,
    form: RecordForm,
) -> Texts
    ensures { AnswersGivens case form first.now second.now
        result.removed.items result.added.items result.answer }
{
    if first.kind == FILES || second.kind == FILES {
        return zones_texts(alloc, first, second, case, form);
    }
    match read_given(alloc, first) {
        Err(why) => unread_texts(alloc, why, Which::First),
        Ok(input) => match read_given(alloc, second) {
            Err(why) => unread_texts(alloc, why, Which::Second),
            Ok(other) => difference_texts(alloc, &input, &other, case, form),
        },
    }
}

/// The texts on two inputs, by the flags of the call.
fn texts_by_flags(alloc: Global, first: &Given<'_>, second: &Given<'_>, flags: u32) -> Texts
    ensures { AnswersDiff flags first.now second.now
        result.removed.items result.added.items result.answer }
{
    match asked_by(flags) {
        Some((form, case)) => given_texts(alloc, first, second, case, form),
        None => alone(alloc, without_text(alloc, plain(UNSUPPORTED))),
    }
}

/// Hands out the records of the first zone of which the second has no equal, and those of the second
/// of which the first has none, both in canonical order: status 0 if there are none, else 1, and
/// `count` is the number of both. Flag 1: each record as a message has it without compression (RFC
/// 1035 3.2.1), and not as its line of the canonical text. Flag 2: names in data are compared without
/// regard to case (RFC 4343); a record keeps its letters.
///
/// # Errors
///
/// Status 2 to 5, and which input stopped the call; 5 for other flags too. With 3 `removed` is the
/// line of the first fault. Both inputs are prepared before the first is judged.
#[unsafe(no_mangle)]
pub extern "C" fn zonenorm_diff(
    alloc: Global,
    first: &Given<'_>,
    second: &Given<'_>,
    flags: u32,
    removed: &mut &'static [u8],
    added: &mut &'static [u8],
    answer: &mut Answer,
)
    ensures { AnswersDiff flags first.now second.now removed.new.now added.new.now answer.new }
{
    let texts = texts_by_flags(alloc, first, second, flags);
    let reply = texts.answer;
    let come = Reply {
        text: texts.added,
        answer: reply,
    };
    let gone = Reply {
        text: texts.removed,
        answer: reply,
    };
    let _ = hand_out(come, added);
    *answer = hand_out(gone, removed);
}
