//! Calls of a source that is fed, and what each answers.
//!
//! A row has a name and an origin on its first line, and then a call a line, after ` => ` its
//! answer. The calls `feed`, `octets`, `frame`, `front` and `greatest` feed a piece: a text in
//! which `|` is a line feed; octets in hexadecimal digits; a stream in notation, and all of one but
//! its last octet; and the greatest message but its last octet.
use crate::tests::pieces::Fed;
use crate::tests::push_stop;
use crate::tests::readings::push_placed;
use std::alloc::Global;
use std::test::Fail;
use test_support::{
    check_octets, message_of, octets_of, parted, push_text, push_words, roomy, rooted, stream_of,
};

/// A message of 65535 octets in its frame, up to the octets of its last record's data, which are
/// 65464.
pub(super) const GREATEST: &str =
    "#ffff; header 1 8400 1 2 0 0; QUESTION; OPENING; #c00c02db000100000e10ffb8";

/// The octets of a text in which `|` is a line feed.
fn lines_of(alloc: Global, text: &str) -> Result<Vec<u8>, Fail> {
    let mut octets = Vec::new(alloc);
    for octet in text.bytes() {
        octets.push(if octet == b'|' { b'\n' } else { octet })?;
    }
    Ok(octets)
}

/// A stream in notation but its last octet.
fn front_of(alloc: Global, lines: &'static str) -> Result<Vec<u8>, Fail> {
    let mut stream = stream_of(alloc, lines)?;
    stream.pop().ok_or("no octet")?;
    Ok(stream)
}

/// The greatest message in its frame, whose data is octets 0, but its last octet.
fn greatest(alloc: Global) -> Result<Vec<u8>, Fail> {
    let mut octets = message_of(alloc, GREATEST)?;
    octets.resize(65_536, 0)?;
    Ok(octets)
}

/// The piece that a call feeds.
fn piece_of(alloc: Global, call: &'static str) -> Result<Vec<u8>, Fail> {
    match call.split_once(' ') {
        Some(("feed", text)) => lines_of(alloc, text),
        Some(("octets", digits)) => octets_of(alloc, digits),
        Some(("frame", lines)) => stream_of(alloc, lines),
        Some(("front", lines)) => front_of(alloc, lines),
        _ => greatest(alloc),
    }
}

/// Appends the next record and its place, or the fault, or that nothing is decided or left.
fn push_next<S: Fed>(alloc: Global, out: &mut Vec<u8>, source: &mut S) -> Result<(), Fail> {
    match source.next() {
        Ok(Some(placed)) => push_placed(alloc, out, &placed),
        Ok(None) => push_text(out, "nothing"),
        Err(stop) => push_stop(alloc, out, &stop),
    }
}

/// Appends how many octets are kept or were fed, or whether the input has ended.
fn push_state<S: Fed>(
    alloc: Global,
    out: &mut Vec<u8>,
    source: &S,
    call: &str,
) -> Result<(), Fail> {
    let (kept, fed, is_finished) = source.state();
    match call {
        "kept" => push_words(alloc, out, kept),
        "fed" => push_words(alloc, out, fed),
        _ => push_words(alloc, out, is_finished),
    }
}

/// Makes a call of a source, and appends the answer that it has.
fn push_called<S: Fed>(
    alloc: Global,
    out: &mut Vec<u8>,
    source: &mut S,
    call: &'static str,
) -> Result<(), Fail> {
    match call {
        "next" => push_next(alloc, out, source),
        "kept" | "fed" | "finished" => push_state(alloc, out, source, call),
        "finish" => source.end(),
        _ => source.hand(&piece_of(alloc, call)?),
    }
}

/// That a call is answered as its line says.
fn check_call<S: Fed>(alloc: Global, source: &mut S, line: &'static str) -> Result<(), Fail> {
    let (call, wanted) = line.split_once(" => ").unwrap_or((line, ""));
    let mut answer = roomy(alloc)?;
    push_called(alloc, &mut answer, source, call)?;
    check_octets(line, &answer, wanted.as_bytes())
}

/// That each call of a script is answered as it says.
///
/// # Errors
///
/// The first call that is answered otherwise.
fn check_script<S: Fed>(alloc: Global, script: &'static str) -> Result<(), Fail> {
    let (head, calls) = parted(script, "\n")?;
    let (_, origin) = parted(head, " ")?;
    let mut source = S::begin(alloc, &rooted(origin.as_bytes())?);
    for line in calls.split('\n') {
        if !line.is_empty() {
            check_call(alloc, &mut source, line)?;
        }
    }
    Ok(())
}

/// That each call of each script is answered as it says. `== ` stands before each script.
///
/// # Errors
///
/// The first call that is answered otherwise.
pub(super) fn check_scripts<S: Fed>(alloc: Global, scripts: &'static str) -> Result<(), Fail> {
    for script in scripts.split("== ") {
        if !script.is_empty() {
            check_script::<S>(alloc, script)?;
        }
    }
    Ok(())
}
