//! Whole messages (RFC 1035 4.1).
use std::alloc::Global;
use std::test::Fail;
use test_support::{
    Question, check_lines, message_of, parted, push_fault, push_hex, push_text, push_words,
};
use zone_wire::Message;

/// Appends the name, type and class that a message asks for.
fn push_asked(alloc: Global, out: &mut Vec<u8>, message: &Message) -> Result<(), Fail> {
    match message.question() {
        Some(question) => {
            push_hex(alloc, out, question.name.wire())?;
            let (kind, class) = (question.kind, question.class);
            push_words(alloc, out, format_args!(" {kind} {class}"))
        }
        None => push_text(out, "none"),
    }
}

/// Appends what a message has: its ID, what it asks for, and where its answers begin.
fn push_message(alloc: Global, out: &mut Vec<u8>, message: &Message) -> Result<(), Fail> {
    let id = message.id();
    push_words(alloc, out, format_args!("{id} asks "))?;
    push_asked(alloc, out, message)?;
    push_text(out, ", answers at")?;
    for answer in message.answers() {
        let offset = answer.offset();
        push_words(alloc, out, format_args!(" {offset}"))?;
    }
    Ok(())
}

/// What a message with a name has, or its fault and the offset of that.
struct Parsed;

impl Question for Parsed {
    fn answer(alloc: Global, asked: &'static str, out: &mut Vec<u8>) -> Result<(), Fail> {
        let (_, line) = parted(asked, ": ")?;
        match Message::parse(&message_of(alloc, line)?) {
            Ok(message) => push_message(alloc, out, &message),
            Err((fault, at)) => {
                push_fault(alloc, out, &fault)?;
                push_words(alloc, out, format_args!(" at {at}"))
            }
        }
    }
}

/// Messages in notation.
const PARSED: &str = "\
small_message_is_parsed: header 1 8400 1 3 0 0; QUESTION; OPENING; SERVER; CLOSING => 1 asks #017800 252 1, answers at 19 59 73
eleven_octets_are_no_header: #0001840000010003000000 => ShortMessage at 0
one_octet_after_the_last_record: header 1 8400 1 3 0 0; QUESTION; OPENING; SERVER; CLOSING; #00 => TrailingOctets at 0
two_questions_are_refused: header 1 8400 2 3 0 0; QUESTION; OPENING; SERVER; CLOSING => BadCounts at 0
authority_records_are_refused: header 1 8400 1 3 1 0; QUESTION; OPENING; SERVER; CLOSING => BadCounts at 0
additional_record_missing: header 1 8400 1 3 0 1; QUESTION; OPENING; SERVER; CLOSING => ShortMessage at 109
message_without_a_question: header 1 8400 0 3 0 0; n.x. 3600 IN A #0a000001; @14 3600 IN NS @12; @14 3600 IN SOA @12 h@14 1 2 3 4 5 => 1 asks none, answers at 12 31 45
";

#[test]
fn messages_are_parsed(rt: HostRuntime) -> Result<(), Fail> {
    check_lines::<Parsed>(rt.alloc(), PARSED)
}
