//! Records of messages (RFC 1035 4.1.3).
use crate::tests::judged;
use std::alloc::Global;
use std::test::Fail;
use test_support::{
    Question, check_lines, line_of, message_of, parted, push_fault, push_hex, push_numbers,
    push_text,
};
use zone_rdata::{Fault, Rr};
use zone_wire::Message;

/// A message of the SOA, an answer that stands at offset 59, and the SOA again.
fn message_with(alloc: Global, answer: &'static str) -> Result<Vec<u8>, Fail> {
    let mut message = message_of(alloc, "header 1 8400 1 3 0 0; QUESTION; OPENING")?;
    message.extend_from_slice(&message_of(alloc, answer)?)?;
    message.extend_from_slice(&message_of(alloc, "CLOSING")?)?;
    Ok(message)
}

/// The record that the answer at offset 59 of a message states.
fn record_of(alloc: Global, octets: &[u8]) -> Result<Result<Rr, Fault>, Fail> {
    let message = match Message::parse(octets) {
        Ok(message) => message,
        Err((fault, _)) => return Ok(Err(fault)),
    };
    let mut answers = message.answers();
    answers.next().ok_or("the SOA")?;
    let answer = answers.next().ok_or("an answer")?;
    if answer.offset() != 59 {
        return Err(Fail::from("the answer stands elsewhere"));
    }
    judged(answer.to_rr(alloc))
}

/// The record that an answer states, in numbers, or the fault.
struct InNumbers;

impl Question for InNumbers {
    fn answer(alloc: Global, asked: &'static str, out: &mut Vec<u8>) -> Result<(), Fail> {
        match record_of(alloc, &message_with(alloc, asked)?)? {
            Ok(rr) => push_numbers(alloc, out, &rr),
            Err(fault) => push_fault(alloc, out, &fault),
        }
    }
}

/// Answers in notation, whose data stands at offset 71.
const ANSWERS: &str = "\
@12 3600 CLASS1 TYPE2 #c01f => #017800 3600 CLASS1 TYPE2 #016e017800
@12 3600 CLASS1 TYPE2 #c03b => #017800 3600 CLASS1 TYPE2 #017800
@12 2147487248 CLASS1 TYPE2 #c01f => #017800 0 CLASS1 TYPE2 #016e017800
@12 2147483647 CLASS1 TYPE2 #c01f => #017800 2147483647 CLASS1 TYPE2 #016e017800
@12 3600 CLASS255 TYPE2 #c01f => BadClass
@12 3600 CLASS1 TYPE41 #c01f => MetaType
@12 3600 CLASS1 TYPE17 #c01f => CompressibleType
@12 3600 CLASS1 TYPE2 #c047 => BadPointer
@12 3600 CLASS255 TYPE41 # => BadClass
@12 60 CLASS1 TYPE2 #0141c00c => #017800 60 CLASS1 TYPE2 #0161017800
@12 60 CLASS1 TYPE2 #c00c00 => BadRdata
@12 60 CLASS1 TYPE2 # => BadRdata
@12 60 CLASS1 TYPE2 #40 => ReservedLabel
@12 60 CLASS1 TYPE1 #0a000001 => #017800 60 CLASS1 TYPE1 #0a000001
@12 60 CLASS1 TYPE1 #0a00000100 => BadRdata
@12 60 CLASS1 TYPE1 #0a0000 => BadRdata
@12 60 CLASS3 TYPE1 #0a0000 => #017800 60 CLASS3 TYPE1 #0a0000
@12 60 CLASS1 TYPE15 #0102c00c => #017800 60 CLASS1 TYPE15 #0102017800
@12 60 CLASS1 TYPE15 #01 => BadRdata
@12 60 CLASS1 TYPE16 #036142ff00 => #017800 60 CLASS1 TYPE16 #036142ff00
@12 60 CLASS1 TYPE16 # => BadRdata
@12 60 CLASS1 TYPE16 #000261 => BadRdata
@12 60 CLASS1 TYPE33 #0000000513c4c01f => #017800 60 CLASS1 TYPE33 #0000000513c4016e017800
@12 60 CLASS1 TYPE35 #0064000a01550000c01f => #017800 60 CLASS1 TYPE35 #0064000a01550000016e017800
@12 60 CLASS1 TYPE35 #0064000a01550005c00c => BadRdata
@12 60 CLASS1 TYPE731 # => #017800 60 CLASS1 TYPE731 #
@12 60 CLASS1 TYPE731 #c00c => #017800 60 CLASS1 TYPE731 #c00c
";

#[test]
fn records_of_answers(rt: HostRuntime) -> Result<(), Fail> {
    check_lines::<InNumbers>(rt.alloc(), ANSWERS)
}

/// The record that an answer with a name states, by its canonical line and the octets of its data,
/// or the fault.
struct InWords;

impl Question for InWords {
    fn answer(alloc: Global, asked: &'static str, out: &mut Vec<u8>) -> Result<(), Fail> {
        let (_, answer) = parted(asked, ": ")?;
        match record_of(alloc, &message_with(alloc, answer)?)? {
            Ok(rr) => {
                out.extend_from_slice(&line_of(alloc, &rr)?)?;
                push_text(out, " ")?;
                push_hex(alloc, out, rr.rdata().octets())
            }
            Err(fault) => push_fault(alloc, out, &fault),
        }
    }
}

/// Answers in notation.
const STATED: &str = "\
name_server_answer_is_read: SERVER => x. 3600 IN NS n.x. #016e017800
answer_of_class_255: @12 3600 CLASS255 NS @31 => BadClass
answer_of_type_41: @12 3600 IN OPT @31 => MetaType
answer_of_type_17: @12 3600 IN TYPE17 @31 => CompressibleType
answer_data_that_points_to_itself: @12 3600 IN NS @71 => BadPointer
answer_data_that_points_to_an_owner: @12 3600 IN NS @59 => x. 3600 IN NS x. #017800
answer_ttl_with_its_top_bit_set: @12 2147487248 IN NS @31 => x. 0 IN NS n.x. #016e017800
";

#[test]
fn answers_state_records(rt: HostRuntime) -> Result<(), Fail> {
    check_lines::<InWords>(rt.alloc(), STATED)
}
