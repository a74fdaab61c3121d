//! What `{}` shows of names, classes, types, data and records, and of what stops a call.
use std::alloc::Global;
use std::test::Fail;
use test_support::{Question, check_lines, check_octets, check_same, push_words, rooted};
use zone_rdata::{Failing, Fault, Place, Stop, line_of_refusal};
use zone_text::read_file;

/// The record of a master file under the origin `x.`, it borrowed, and its owner, class, type and
/// data by themselves.
struct Shown;

impl Question for Shown {
    fn answer(alloc: Global, asked: &'static str, out: &mut Vec<u8>) -> Result<(), Fail> {
        let reading = read_file(alloc, &rooted(b"x.")?, asked.as_bytes())?;
        for placed in reading.placed.iter() {
            let rr = &placed.rr;
            let (owner, class, kind, data) = (rr.owner(), rr.class(), rr.kind(), rr.rdata());
            let lent = rr.lend();
            push_words(alloc, out, format_args!("{rr}, {lent}, "))?;
            push_words(alloc, out, format_args!("{owner}, {class}, {kind}, {data}"))?;
        }
        Ok(())
    }
}

/// Records of files, and what is shown of them.
const SHOWN: &str = "\
A\\046B 60 MX 010 \\101 => a\\.b.x. 60 IN MX 10 e.x., a\\.b.x. 60 IN MX 10 e.x., a\\.b.x., IN, MX, 10 e.x.
. 0 CH TYPE1 \\# 1 FF => . 0 CH TYPE1 \\# 1 ff, . 0 CH TYPE1 \\# 1 ff, ., CH, A, \\# 1 ff
@ 7 CLASS32 TXT \"a b\" => x. 7 CLASS32 TXT \"a b\", x. 7 CLASS32 TXT \"a b\", x., CLASS32, TXT, \"a b\"
";

#[test]
fn records_are_shown(rt: HostRuntime) -> Result<(), Fail> {
    check_lines::<Shown>(rt.alloc(), SHOWN)
}

#[test]
fn stops_are_shown(rt: HostRuntime) -> Result<(), Fail> {
    let outside = Fault::OutOfZone(rooted(b"A\\.b\\200.y.")?);
    for (stop, line) in [
        (
            Stop::Refused(Fault::BadEscape, Place::Line(2)),
            "F4 BadEscape at line 2: a backslash escape is malformed",
        ),
        (
            Stop::Refused(Fault::ErrorCode(5), Place::Message(1, 0)),
            "F26 ErrorCode 5 at message 1 offset 0: the message carries an error code",
        ),
        (
            Stop::Refused(outside, Place::Whole),
            "F43 OutOfZone a\\.b\\200.y. in the input: an owner lies outside the zone",
        ),
        (Stop::Read, "read failed"),
        (Stop::Write, "write failed"),
        (Stop::Memory, "out of memory"),
    ] {
        let shown = format!(in rt.alloc(); "{stop}")?;
        check_same("the line of a stop", shown.as_str(), line)?;
        if let Stop::Refused(fault, place) = &stop {
            let told = line_of_refusal(fault, *place);
            check_octets("the line of a refusal", told.as_slice(), line.as_bytes())?;
        }
    }
    Ok(())
}

#[test]
fn a_name_is_debugged_without_the_octets_of_names_before(rt: HostRuntime) -> Result<(), Fail> {
    let mut name = rooted(b"longer.example.")?;
    let is_set = name.set_from_text(b"a.", None).is_ok();
    let shown = format!(in rt.alloc(); "{is_set} {name:?}")?;
    check_same(
        "what a name is debugged as",
        shown.as_str(),
        "true Name { octets: [1, 97, 0] }",
    )
}

#[test]
fn failings_are_shown(rt: HostRuntime) -> Result<(), Fail> {
    for (failing, line) in [
        (
            Failing::Fault(Fault::BadEscape),
            "F4 BadEscape: a backslash escape is malformed",
        ),
        (
            Failing::Fault(Fault::ErrorCode(5)),
            "F26 ErrorCode 5: the message carries an error code",
        ),
        (Failing::Memory, "out of memory"),
    ] {
        let shown = format!(in rt.alloc(); "{failing}")?;
        check_same("the line of a failing", shown.as_str(), line)?;
    }
    Ok(())
}
