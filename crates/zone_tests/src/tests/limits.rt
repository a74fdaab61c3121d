//! How long an input and a canonical text may be, under small limits. The zone is that of the first
//! run: its file and its text have 54 octets each.
use crate::tests::check_stopped;
use std::alloc::Global;
use std::test::Fail;
use test_support::{check_octets, check_same, push_words, roomy};
use zone_engine::{
    CompareError, Form, OctetSlice, Verdict, Which, accepted_bytes, accepted_zone,
    accepted_zone_within, compare_bytes,
};
use zone_name::Name;
use zone_print::{OctetVec, push_zone_within, write_zone_within};
use zone_set::{Zone, ZoneBuilder};
use zone_text::read_file;

const FILE: &[u8] = b"x. 3600 IN NS n.x.\nx. 3600 IN SOA n.x. h.x. 1 2 3 4 5\n";

const TEXT: &[u8] = b"x. 3600 IN SOA n.x. h.x. 1 2 3 4 5\nx. 3600 IN NS n.x.\n";

/// The zone of the file.
fn zone_of(alloc: Global) -> Result<Zone, Fail> {
    let mut reading = read_file(alloc, &Name::root(), FILE)?;
    let mut builder = ZoneBuilder::new(alloc);
    let Ok(()) = builder.take_all(&mut reading) else {
        return Err(Fail::from("a record is refused"));
    };
    builder.finish().map_err(|_| Fail::from("no zone"))
}

/// What explains the refusal of a text that is too long.
const TOO_LARGE: &str = "F44 ZoneTooLarge in the input";

#[test]
fn one_octet_over_the_limit_writes_nothing(rt: HostRuntime) -> Result<(), Fail> {
    let zone = zone_of(rt.alloc())?;
    let mut written = Vec::with_capacity(rt.alloc(), 64)?;
    let stopped = write_zone_within(rt.alloc(), &zone, &mut written, 53).err();
    check_stopped(rt.alloc(), stopped, TOO_LARGE)?;
    check_octets("what is written", &written, b"")?;
    let stopped = push_zone_within(rt.alloc(), &zone, 53).err();
    check_stopped(rt.alloc(), stopped, TOO_LARGE)
}

#[test]
fn a_text_at_the_limit_is_written(rt: HostRuntime) -> Result<(), Fail> {
    let zone = zone_of(rt.alloc())?;
    let mut written = Vec::with_capacity(rt.alloc(), 64)?;
    assert!(rt; write_zone_within(rt.alloc(), &zone, &mut written, 54).is_ok());
    assert_eq!(rt; written.as_slice(), TEXT);
    let pushed = push_zone_within(rt.alloc(), &zone, 54).map_err(|_| Fail::from("refused"))?;
    assert_eq!(rt; pushed.as_slice(), TEXT);
    Ok(())
}

#[test]
fn an_input_at_the_limit_is_accepted(rt: HostRuntime) -> Result<(), Fail> {
    let root = Name::root();
    let form = Form::File(&root);
    let zone = accepted_zone_within(rt.alloc(), form, &mut OctetSlice { rest: FILE }, 54)?;
    check_same("the records at the limit", zone.len(), 2)?;
    let answer = accepted_zone_within(rt.alloc(), form, &mut OctetSlice { rest: FILE }, 53);
    check_stopped(rt.alloc(), answer.err(), "F45 InputTooLong in the input")
}

#[test]
fn a_short_input_is_accepted(rt: HostRuntime) -> Result<(), Fail> {
    let root = Name::root();
    let form = Form::File(&root);
    let zone = accepted_zone(rt.alloc(), form, &mut OctetSlice { rest: FILE })?;
    check_same("the records that are read", zone.len(), 2)?;
    let zone = accepted_bytes(rt.alloc(), form, FILE)?;
    check_same("the records of octets in memory", zone.len(), 2)
}

#[test]
fn a_text_is_written_to_memory(rt: HostRuntime) -> Result<(), Fail> {
    let zone = zone_of(rt.alloc())?;
    let mut written = OctetVec::new(rt.alloc());
    write_zone_within(rt.alloc(), &zone, &mut written, 54)?;
    check_octets("what is written", &written.finish()?, TEXT)
}

#[test]
fn octets_in_memory_are_compared(rt: HostRuntime) -> Result<(), Fail> {
    let root = Name::root();
    let form = Form::File(&root);
    let verdict = compare_bytes(rt.alloc(), form, FILE, form, TEXT).map_err(CompareError::from)?;
    check_same("a file and its text", verdict, Verdict::Same)?;
    let Err((which, stop)) = compare_bytes(rt.alloc(), form, FILE, form, b"a") else {
        return Err(Fail::from("accepted"));
    };
    check_same("the one that is refused", which, Which::Second)?;
    let mut shown = roomy(rt.alloc())?;
    push_words(rt.alloc(), &mut shown, CompareError::from((which, stop)))?;
    let wanted = b"second: F7 UnknownType at line 1: the type word is missing or unknown";
    check_octets("the error as it is shown", &shown, wanted)
}
