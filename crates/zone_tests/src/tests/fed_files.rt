//! Master files that are fed in pieces, and what is decided when.
use crate::tests::pieces::{is_right_in_two, is_right_singly};
use crate::tests::push_answer;
use crate::tests::scripts::check_scripts;
use crate::tests::vectors::{Input, check_files, input_of};
use std::alloc::Global;
use std::test::Fail;
use test_support::{Question, check};
use zone_engine::{Form, normalise_bytes};
use zone_name::Name;
use zone_rdata::Reading;
use zone_text::{TextSource, read_file};

/// The origin of a file, and what the file is read as.
fn read(alloc: Global, input: &Input) -> Result<(Name, Reading), Fail> {
    let origin = input.origin.as_ref().ok_or("no origin")?.copy();
    let reading = read_file(alloc, &origin, &input.octets)?;
    Ok((origin, reading))
}

/// What a file is answered, which gives the same in two pieces, cut at each octet.
struct InTwo;

impl Question for InTwo {
    fn answer(alloc: Global, asked: &'static str, out: &mut Vec<u8>) -> Result<(), Fail> {
        let input = input_of(alloc, asked)?;
        let (origin, reading) = read(alloc, &input)?;
        let octets = input.octets.as_slice();
        let is_right = is_right_in_two::<TextSource>(alloc, &origin, octets, &reading)?;
        check(is_right, "two pieces give the same")?;
        let answered = normalise_bytes(alloc, Form::File(&origin), octets);
        let may_end_so = answered.is_err() || reading.ending.is_none();
        check(may_end_so, "what is accepted is read without a fault")?;
        push_answer(alloc, out, answered)
    }
}

#[test]
fn files_in_two_pieces(rt: HostRuntime) -> Result<(), Fail> {
    check_files::<InTwo>(rt.alloc())
}

/// What a file is answered, which gives the same octet by octet, and so with empty pieces between.
struct Singly;

impl Question for Singly {
    fn answer(alloc: Global, asked: &'static str, out: &mut Vec<u8>) -> Result<(), Fail> {
        let input = input_of(alloc, asked)?;
        let (origin, reading) = read(alloc, &input)?;
        let octets = input.octets.as_slice();
        let is_right = is_right_singly::<TextSource>(alloc, &origin, octets, &reading)?;
        check(is_right, "single octets give the same")?;
        push_answer(
            alloc,
            out,
            normalise_bytes(alloc, Form::File(&origin), octets),
        )
    }
}

#[test]
fn files_in_single_octets(rt: HostRuntime) -> Result<(), Fail> {
    check_files::<Singly>(rt.alloc())
}

/// Calls of a source of a master file.
const SCRIPTS: &str = "\
== record_is_decided_at_its_line_feed x.
feed x. 60 IN NS n.x.
next => nothing
kept => 16
fed => 16
feed |
kept => 0
fed => 17
next => x. 60 IN NS n.x. at line 1
next => nothing
feed )
next => F15 UnbalancedParenthesis at line 2
next => F15 UnbalancedParenthesis at line 2
feed a
next => F15 UnbalancedParenthesis at line 2
finish
finished => true
== bad_escape_is_decided_at_the_octet_that_shows_it x.
feed t \\04
next => nothing
feed x
next => F4 BadEscape at line 1
== whole_escape_waits_for_the_end_of_its_line x.
feed t \\04
next => nothing
feed 6
next => nothing
feed |
next => F7 UnknownType at line 1
== cut_inside_a_decimal_escape x.
feed @ 60 SOA n h 1 2 3 4 5\r|a 60 TXT \\0
next => x. 60 IN SOA n.x. h.x. 1 2 3 4 5 at line 1
next => nothing
feed 4
next => nothing
feed 6
next => nothing
kept => 13
finish
next => a.x. 60 IN TXT \".\" at line 2
next => nothing
== end_inside_a_decimal_escape x.
feed @ 60 SOA n h 1 2 3 4 5\r|a 60 TXT \\0
next => x. 60 IN SOA n.x. h.x. 1 2 3 4 5 at line 1
next => nothing
feed 4
next => nothing
finish
next => F4 BadEscape at line 2
next => F4 BadEscape at line 2
kept => 0
== cut_between_carriage_return_and_line_feed x.
feed @ 60 SOA n h 1 2 3 4 5\r
next => nothing
kept => 23
feed |
next => x. 60 IN SOA n.x. h.x. 1 2 3 4 5 at line 1
next => nothing
kept => 0
feed a 60 TXT \\046
finish
next => a.x. 60 IN TXT \".\" at line 2
next => nothing
== line_feed_inside_quotes_decides_nothing x.
feed t 60 TXT \"a|
next => nothing
kept => 12
finish
kept => 0
next => F14 UnclosedQuote at line 1
== open_parenthesis_is_decided_at_the_end x.
feed (|
next => nothing
kept => 2
finish
next => F15 UnbalancedParenthesis at line 1
== escape_over_255_is_decided_at_its_third_digit x.
feed t \\25
next => nothing
feed 6
next => F4 BadEscape at line 1
kept => 0
fed => 6
== records_before_a_fault_come_first x.
feed x. 60 IN SOA n.x. h.x. 1 2 3 4 5|$INCLUDE f|
next => x. 60 IN SOA n.x. h.x. 1 2 3 4 5 at line 1
next => F16 IncludeDirective at line 2
next => F16 IncludeDirective at line 2
kept => 0
fed => 44
feed x|
next => F16 IncludeDirective at line 2
kept => 0
fed => 46
== empty_file_is_finished_without_a_record x.
next => nothing
fed => 0
finished => false
finish
finished => true
next => nothing
";

#[test]
fn files_are_decided(rt: HostRuntime) -> Result<(), Fail> {
    check_scripts::<TextSource>(rt.alloc(), SCRIPTS)
}
