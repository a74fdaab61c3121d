//! Records as they are read, by their canonical lines.
use crate::tests::push_stop;
use std::alloc::Global;
use std::test::Fail;
use test_support::{check, line_of, push_text, push_words};
use zone_rdata::{Place, Placed, Reading, Rr, Stop};

/// The canonical line of the record of type 731 in the greatest message, without its line feed: its
/// data is 65464 octets 0.
pub(super) fn zeros_line(alloc: Global) -> Result<Vec<u8>, Fail> {
    let mut line = Vec::new(alloc);
    push_text(&mut line, "x. 3600 IN TYPE731 \\# 65464 ")?;
    line.resize(130_956, b'0')?;
    Ok(line)
}

/// Appends a record's canonical line; a long one is that record's, and is called zeros.
fn push_line(alloc: Global, out: &mut Vec<u8>, rr: &Rr) -> Result<(), Fail> {
    let line = line_of(alloc, rr)?;
    if line.len() < 1000 {
        return Ok(out.extend_from_slice(&line)?);
    }
    let is_zeros = line.as_slice() == zeros_line(alloc)?.as_slice();
    check(is_zeros, "a long record has octets 0 alone")?;
    push_text(out, "zeros")
}

/// Appends a place, with a blank before it.
pub(super) fn push_place(alloc: Global, out: &mut Vec<u8>, place: Place) -> Result<(), Fail> {
    match place {
        Place::Line(line) => push_words(alloc, out, format_args!(" at line {line}")),
        Place::Message(number, offset) => {
            let words = format_args!(" at message {number} offset {offset}");
            push_words(alloc, out, words)
        }
        Place::Whole => push_text(out, " in the input"),
    }
}

/// Appends a record's canonical line and its place.
pub(super) fn push_placed(alloc: Global, out: &mut Vec<u8>, placed: &Placed) -> Result<(), Fail> {
    push_line(alloc, out, &placed.rr)?;
    push_place(alloc, out, placed.place)
}

/// Appends how a reading ends: what explains the fault, in a line, or nothing.
fn push_ending(alloc: Global, out: &mut Vec<u8>, reading: &Reading) -> Result<(), Fail> {
    if let Some((fault, place)) = &reading.ending {
        push_stop(alloc, out, &Stop::Refused(fault.copy(), *place))?;
        push_text(out, "\n")?;
    }
    Ok(())
}

/// Appends what an input is read as, from the next line on: its records, and the fault after them.
pub(super) fn push_reading(
    alloc: Global,
    out: &mut Vec<u8>,
    reading: &Reading,
) -> Result<(), Fail> {
    push_text(out, "\n")?;
    for placed in reading.placed.iter() {
        push_placed(alloc, out, placed)?;
        push_text(out, "\n")?;
    }
    push_ending(alloc, out, reading)
}
