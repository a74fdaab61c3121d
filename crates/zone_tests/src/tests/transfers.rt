//! Zone transfers: what is answered to one that is cut short or has an error code, and what is read
//! of them in pieces.
use crate::tests::pieces::{Fed, MOST, is_right_in_two, is_right_singly};
use crate::tests::readings::{push_reading, zeros_line};
use crate::tests::scripts::{GREATEST, check_scripts};
use crate::tests::streams::{IN_TWO, SMALL, STREAMS};
use crate::tests::vectors::input_of;
use crate::tests::{check_refused, push_answer};
use std::alloc::Global;
use std::test::Fail;
use test_support::{
    Case, Question, check, check_octets, check_rows, check_table, message_of, push_text, stream_of,
};
use zone_engine::{Form, normalise_bytes};
use zone_name::Name;
use zone_wire::{TransferSource, read_transfer};

/// That the small transfer with an error code is refused for that.
fn check_code(alloc: Global, code: u8) -> Result<(), Fail> {
    let mut stream = stream_of(alloc, SMALL)?;
    if let Some(flags) = stream.get_mut(5) {
        *flags = code;
    }
    let front = format!(in alloc; "F26 ErrorCode {code} at message 1 offset 0")?;
    check_refused(alloc, Form::Transfer, &stream, front.as_str())
}

/// The fault of the small transfer with each error code from 1 to 15 (RFC 1035 4.1.1).
#[test]
fn error_codes_are_told(rt: HostRuntime) -> Result<(), Fail> {
    for code in 1..16u8 {
        check_code(rt.alloc(), code)?;
    }
    Ok(())
}

impl Fed for TransferSource {
    fn begin(alloc: Global, _origin: &Name) -> TransferSource {
        TransferSource::new(alloc)
    }

    fn hand(&mut self, piece: &[u8]) -> Result<(), Fail> {
        if self.is_finished() || self.fed() > MOST || piece.len() as u64 > MOST {
            return Err(Fail::from("no piece can be fed"));
        }
        Ok(self.feed(piece)?)
    }

    fn end(&mut self) -> Result<(), Fail> {
        if self.is_finished() {
            return Err(Fail::from("ended twice"));
        }
        Ok(self.finish()?)
    }

    fn state(&self) -> (usize, u64, bool) {
        (self.undecided(), self.fed(), self.is_finished())
    }
}

/// What a stream is answered, which gives the same in two pieces, cut at each octet, and octet by
/// octet.
struct InPieces;

impl Question for InPieces {
    fn answer(alloc: Global, asked: &'static str, out: &mut Vec<u8>) -> Result<(), Fail> {
        let root = Name::root();
        let octets = input_of(alloc, asked)?.octets;
        let reading = read_transfer(alloc, &octets)?;
        let in_two = is_right_in_two::<TransferSource>(alloc, &root, &octets, &reading)?;
        check(in_two, "two pieces give the same")?;
        let singly = is_right_singly::<TransferSource>(alloc, &root, &octets, &reading)?;
        check(singly, "single octets give the same")?;
        push_answer(alloc, out, normalise_bytes(alloc, Form::Transfer, &octets))
    }
}

#[test]
fn streams_in_pieces(rt: HostRuntime) -> Result<(), Fail> {
    check_table::<InPieces>(rt.alloc(), STREAMS)
}

/// A stream, and the refusal of each front of it with so many octets.
struct Prefixes {
    octets: &'static str,
    from: usize,
    to: usize,
    front: &'static str,
}

impl Case for Prefixes {
    fn check(&self, alloc: Global) -> Result<(), Fail> {
        let octets = stream_of(alloc, self.octets)?;
        for count in self.from..=self.to.min(octets.len()) {
            let (front, _) = octets.split_at(count.min(octets.len()));
            check_refused(alloc, Form::Transfer, front, self.front)?;
        }
        Ok(())
    }
}

static PREFIXES: &[Prefixes] = &[
    Prefixes {
        octets: SMALL,
        from: 1,
        to: 110,
        front: "F22 ShortFrame at message 1 offset 0",
    },
    Prefixes {
        octets: IN_TWO,
        from: 1,
        to: 85,
        front: "F22 ShortFrame at message 1 offset 0",
    },
    Prefixes {
        octets: IN_TWO,
        from: 87,
        to: 170,
        front: "F22 ShortFrame at message 2 offset 0",
    },
];

#[test]
fn streams_cut_short(rt: HostRuntime) -> Result<(), Fail> {
    check_rows(rt.alloc(), PREFIXES)
}

/// What a stream is read as: its records, and the fault after them.
struct Read;

impl Question for Read {
    fn answer(alloc: Global, asked: &'static str, out: &mut Vec<u8>) -> Result<(), Fail> {
        let reading = read_transfer(alloc, &input_of(alloc, asked)?.octets)?;
        push_reading(alloc, out, &reading)
    }
}

/// Streams in notation.
const READ: &str = "\
== reader_of_a_stream_gives_its_records
header 1 8400 1 2 0 1; QUESTION; OPENING; SERVER; . 0 CLASS1232 OPT
header 1 8400 0 3 0 0; n.x. 3600 IN A #0a000001; @14 3600 IN NS @12; @14 3600 IN SOA @12 h@14 1 2 3 4 5
=>
x. 3600 IN SOA n.x. h.x. 1 2 3 4 5 at message 1 offset 19
x. 3600 IN NS n.x. at message 1 offset 59
n.x. 3600 IN A 10.0.0.1 at message 2 offset 12
x. 3600 IN NS n.x. at message 2 offset 31
== reader_of_a_stream_gives_the_records_before_a_fault
header 1 8400 1 3 0 0; QUESTION; OPENING; SERVER; @12 3600 IN SOA @31 @35 2 2 3 4 5
=>
x. 3600 IN SOA n.x. h.x. 1 2 3 4 5 at message 1 offset 19
x. 3600 IN NS n.x. at message 1 offset 59
F36 SoaMismatch at message 1 offset 73
== reader_of_a_stream_gives_no_record_of_a_broken_message
header 1 8400 1 3 0 0; QUESTION; OPENING; SERVER; CLOSING; #00
=>
F34 TrailingOctets at message 1 offset 0
";

#[test]
fn streams_are_read(rt: HostRuntime) -> Result<(), Fail> {
    check_table::<Read>(rt.alloc(), READ)
}

/// Calls of a source of a transfer.
const SCRIPTS: &str = "\
== transfer_is_decided_at_its_last_octet .
front header 1 8400 1 3 0 0; QUESTION; OPENING; SERVER; CLOSING
kept => 110
next => nothing
octets 05
kept => 0
next => x. 3600 IN SOA n.x. h.x. 1 2 3 4 5 at message 1 offset 19
next => x. 3600 IN NS n.x. at message 1 offset 59
next => nothing
finish
next => nothing
== transfer_that_ends_inside_its_frame .
front header 1 8400 1 3 0 0; QUESTION; OPENING; SERVER; CLOSING
kept => 110
next => nothing
finish
next => F22 ShortFrame at message 1 offset 0
== empty_stream_is_finished_with_a_fault .
next => nothing
fed => 0
finish
next => F38 NoClosingSoa at message 1 offset 0
next => F38 NoClosingSoa at message 1 offset 0
== records_of_the_first_message_are_decided_before_the_second .
frame header 1 8400 1 2 0 1; QUESTION; OPENING; SERVER; . 0 CLASS1232 OPT
kept => 0
next => x. 3600 IN SOA n.x. h.x. 1 2 3 4 5 at message 1 offset 19
next => x. 3600 IN NS n.x. at message 1 offset 59
next => nothing
frame header 1 8400 0 3 0 0; n.x. 3600 IN A #0a000001; @14 3600 IN NS @12; @14 3600 IN SOA @12 h@14 1 2 3 4 5
next => n.x. 3600 IN A 10.0.0.1 at message 2 offset 12
next => x. 3600 IN NS n.x. at message 2 offset 31
next => nothing
finish
next => nothing
fed => 171
== greatest_frame_is_kept_until_its_last_octet .
greatest
kept => 65536
next => nothing
octets 00
kept => 0
next => x. 3600 IN SOA n.x. h.x. 1 2 3 4 5 at message 1 offset 19
next => zeros at message 1 offset 59
next => nothing
frame header 1 8400 0 1 0 0; x. 3600 IN SOA n@12 h@12 1 2 3 4 5
next => nothing
finish
next => nothing
";

#[test]
fn streams_are_decided(rt: HostRuntime) -> Result<(), Fail> {
    check_scripts::<TransferSource>(rt.alloc(), SCRIPTS)
}

/// A message with the closing SOA, which has 53 octets.
const CLOSING: &str = "header 1 8400 0 1 0 0; x. 3600 IN SOA n@12 h@12 1 2 3 4 5";

/// The stream of the greatest message, whose last record's data is octets 0, and the closing SOA.
fn greatest_stream(alloc: Global) -> Result<Vec<u8>, Fail> {
    let mut stream = message_of(alloc, GREATEST)?;
    stream.resize(65_537, 0)?;
    stream.extend_from_slice(&stream_of(alloc, CLOSING)?)?;
    Ok(stream)
}

/// The canonical text of that stream.
fn greatest_text(alloc: Global) -> Result<Vec<u8>, Fail> {
    let mut text = Vec::new(alloc);
    push_text(&mut text, "x. 3600 IN SOA n.x. h.x. 1 2 3 4 5\n")?;
    text.extend_from_slice(&zeros_line(alloc)?)?;
    push_text(&mut text, "\n")?;
    Ok(text)
}

#[test]
fn the_greatest_message_is_normalised(rt: HostRuntime) -> Result<(), Fail> {
    let stream = greatest_stream(rt.alloc())?;
    let answered = normalise_bytes(rt.alloc(), Form::Transfer, &stream)?;
    let text = greatest_text(rt.alloc())?;
    check_octets("the greatest message", &answered, &text)
}
