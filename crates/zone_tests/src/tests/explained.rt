//! The lines that tell a user why a run stopped: one of each form. The table of faults is proved.
use std::test::Fail;
use test_support::{check_octets, check_same, push_words, roomy, rooted};
use zone_engine::{explain_line, refusal_line, tell, tell_refusal, write_line, write_refusal};
use zone_rdata::{Fault, Place, Stop};

#[test]
fn stops_are_explained(rt: HostRuntime) -> Result<(), Fail> {
    let outside = Fault::OutOfZone(rooted(b"A\\.b\\200.y.")?);
    for (stop, line) in [
        (
            Stop::Refused(Fault::BadEscape, Place::Line(2)),
            "F4 BadEscape at line 2: a backslash escape is malformed",
        ),
        (
            Stop::Refused(Fault::ErrorCode(5), Place::Message(1, 0)),
            "F26 ErrorCode 5 at message 1 offset 0: the message carries an error code",
        ),
        (
            Stop::Refused(outside, Place::Whole),
            "F43 OutOfZone a\\.b\\200.y. in the input: an owner lies outside the zone",
        ),
        (Stop::Read, "read failed"),
        (Stop::Write, "write failed"),
        (Stop::Memory, "out of memory"),
    ] {
        let told = explain_line(rt.alloc(), &stop)?;
        check_same("the line of a stop", told.as_str(), line)?;
    }
    Ok(())
}

/// The parts of that line that a fault has by itself, and the line, as it is written.
#[test]
fn a_refusal_is_told_in_parts(rt: HostRuntime) -> Result<(), Fail> {
    let fault = Fault::ErrorCode(5);
    check_same("the number", fault.number(), 26)?;
    check_same("the name", fault.name(), "ErrorCode")?;
    check_same(
        "the text",
        fault.text(),
        "the message carries an error code",
    )?;
    let mut shown = roomy(rt.alloc())?;
    push_words(rt.alloc(), &mut shown, &fault)?;
    check_octets("the fault as it is shown", &shown, fault.text().as_bytes())?;
    let line = refusal_line(rt.alloc(), &fault, Place::Message(1, 0))?;
    let mut written = roomy(rt.alloc())?;
    write_line(&mut written, "first: ", line.as_str())?;
    let wanted =
        b"first: F26 ErrorCode 5 at message 1 offset 0: the message carries an error code\n";
    check_octets("the line as it is written", &written, wanted)?;
    let mut written = roomy(rt.alloc())?;
    write_refusal(&mut written, "first: ", &fault, Place::Message(1, 0))?;
    check_octets("the refusal as it is written", &written, wanted)
}

#[test]
fn a_line_is_told(rt: HostRuntime) -> Result<(), Fail> {
    let mut told = roomy(rt.alloc())?;
    let status = tell(&mut told, "first: ", "read failed", 3);
    check_same("the status", status, 3)?;
    check_octets("the line", &told, b"first: read failed\n")?;
    let mut told = roomy(rt.alloc())?;
    let outside = Fault::OutOfZone(rooted(b"A\\.b\\200.y.")?);
    let status = tell_refusal(&mut told, "second: ", &outside, Place::Whole, 3);
    check_same("the status of a refusal", status, 3)?;
    let wanted =
        b"second: F43 OutOfZone a\\.b\\200.y. in the input: an owner lies outside the zone\n";
    check_octets("the line of a refusal", &told, wanted)
}
