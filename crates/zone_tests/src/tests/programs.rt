//! The whole program over readers and writers, from its words to its exit status.
//!
//! A row has a name, the words after the program's name, and two inputs, between which `--` stands:
//! the first line of each says what it is, a broken one ends with an error, and after it stands
//! the file, or the stream in notation. The answer is the exit status, what is written on standard
//! output, and after `--` what is written on standard error.
use crate::tests::orders::ordered;
use crate::tests::runs::ran;
use crate::tests::vectors::file_of;
use std::alloc::Global;
use std::io::ErrorKind;
use std::test::Fail;
use test_support::{BROKEN, Question, Supply, check_table, parted, push_run, stream_of};

/// What an input gives, and then its error, if it is broken.
#[derive(Drop)]
struct Supplied {
    octets: Vec<u8>,
    error: Option<ErrorKind>,
}

impl Supplied {
    /// A reader of the input.
    fn supply(&self) -> Supply<'_> {
        Supply::at_once(&self.octets, self.error)
    }
}

/// What an input gives.
fn given(alloc: Global, input: &'static str) -> Result<Supplied, Fail> {
    let (kind, text) = parted(input, "\n")?;
    let octets = if kind.contains("transfer") {
        stream_of(alloc, text)?
    } else {
        file_of(alloc, text)?
    };
    let error = if kind.starts_with("broken") {
        BROKEN
    } else {
        None
    };
    Ok(Supplied { octets, error })
}

/// Appends what a run does with the words of a command, over two inputs.
fn push_ran(
    alloc: Global,
    out: &mut Vec<u8>,
    words: &str,
    inputs: (&'static str, &'static str),
) -> Result<(), Fail> {
    let order = ordered(alloc, words)?;
    let (first, second) = (given(alloc, inputs.0)?, given(alloc, inputs.1)?);
    let ran = ran(alloc, &order, &mut first.supply(), &mut second.supply())?;
    push_run(alloc, out, &ran)
}

/// What a run does.
struct Program;

impl Question for Program {
    fn answer(alloc: Global, asked: &'static str, out: &mut Vec<u8>) -> Result<(), Fail> {
        let (_, rest) = parted(asked, "\n")?;
        let (words, inputs) = parted(rest, "\n")?;
        push_ran(alloc, out, words, parted(inputs, "--\n")?)
    }
}

/// Comparisons.
const COMPARISONS: &str = "\
== file_and_transfer_of_one_zone_are_the_same
compare x. p transfer q
file
$TTL 1h
@ SOA N h 1 2 3 4 5
  NS n
--
transfer
header 1 8400 1 3 0 0; QUESTION; OPENING; SERVER; CLOSING
=> 0
same
--
== transfer_and_file_of_one_zone_are_the_same
compare transfer p x. q
transfer
header 1 8400 1 3 0 0; QUESTION; OPENING; SERVER; CLOSING
--
file
$TTL 1h
@ SOA N h 1 2 3 4 5
  NS n
=> 0
same
--
== one_record_more_differs_at_the_line_after_the_shorter
compare x. p transfer q
file
$TTL 1h
@ SOA N h 1 2 3 4 5
  NS n
--
transfer
header 1 8400 1 2 0 1; QUESTION; OPENING; SERVER; . 0 CLASS1232 OPT
header 1 8400 0 3 0 0; n.x. 3600 IN A #0a000001; @14 3600 IN NS @12; @14 3600 IN SOA @12 h@14 1 2 3 4 5
=> 1
different at line 3
--
== one_record_less_differs_at_the_line_after_the_shorter
compare transfer p x. q
transfer
header 1 8400 1 2 0 1; QUESTION; OPENING; SERVER; . 0 CLASS1232 OPT
header 1 8400 0 3 0 0; n.x. 3600 IN A #0a000001; @14 3600 IN NS @12; @14 3600 IN SOA @12 h@14 1 2 3 4 5
--
file
$TTL 1h
@ SOA N h 1 2 3 4 5
  NS n
=> 1
different at line 3
--
== first_input_is_refused
compare x. p x. q
file
--
file
$TTL 1h
@ SOA N h 1 2 3 4 5
  NS n
=> 3
--
first: F42 NoSoa in the input: the zone has no SOA record
== second_input_is_refused
compare x. p x. q
file
$TTL 1h
@ SOA N h 1 2 3 4 5
  NS n
--
file
=> 3
--
second: F42 NoSoa in the input: the zone has no SOA record
== zones_of_two_classes_differ_in_the_first_line
compare x. p x. q
file
@ 60 IN SOA n h 1 2 3 4 5
--
file
@ 60 CH SOA n h 1 2 3 4 5
=> 1
different at line 1
--
== zones_differ_in_the_second_line
compare x. p x. q
file
@ 60 SOA n h 1 2 3 4 5
@ 60 NS n
--
file
@ 60 SOA n h 1 2 3 4 5
@ 60 NS m
=> 1
different at line 2
--
== two_spellings_under_two_origins_are_the_same
compare x. p . q
file
@ 60 SOA n h 1 2 3 4 5
--
file
x 60 SOA n.x h.x 1 2 3 4 5
=> 0
same
--
== both_inputs_refused_names_the_first
compare x. p transfer q
file
@ 60 SOA n h 1 2 3 4 5
$INCLUDE f
--
transfer
=> 3
--
first: F16 IncludeDirective at line 2: $INCLUDE isn't read
== ttl_alone_makes_zones_differ
compare x. p x. q
file
@ 60 SOA n h 1 2 3 4 5
--
file
@ 61 SOA n h 1 2 3 4 5
=> 1
different at line 1
--
== older_text_with_a_generic_service_record_is_the_same
compare x. p x. q
file
x. 60 IN SOA n.x. h.x. 1 2 3 4 5
_s._tcp.x. 60 IN TYPE33 \\# 11 0000000513c40168017800
--
file
x. 60 IN SOA n.x. h.x. 1 2 3 4 5
_s._tcp.x. 60 IN SRV 0 5 5060 h.x.
=> 0
same
--
== older_text_with_eight_groups_is_the_same_zone
compare x. p x. q
file
x. 60 IN SOA n.x. h.x. 1 2 3 4 5
x. 60 IN MX 10 m.x.
v.x. 60 IN AAAA 0:0:0:0:0:ffff:a00:1
--
file
x. 60 IN SOA n.x. h.x. 1 2 3 4 5
x. 60 IN MX 10 m.x.
v.x. 60 IN AAAA ::ffff:a00:1
=> 0
same
--
";

#[test]
fn comparisons(rt: HostRuntime) -> Result<(), Fail> {
    check_table::<Program>(rt.alloc(), COMPARISONS)
}

/// Explanations, and each command.
const PROGRAMS: &str = "\
== explain_counts_the_records_of_an_accepted_file
explain x.
file
$TTL 1h
@ SOA N h 1 2 3 4 5
  NS n
--
broken file
=> 0
accepted, records: 2
--
== explain_names_a_differing_ttl_with_its_line
explain x.
file
@ 60 SOA n h 1 2 3 4 5
a 300 A 10.0.0.1
a 600 A 10.0.0.2
--
broken file
=> 3
F41 DifferingTtl at line 3: the TTL differs from that of its record set
--
== explain_counts_the_records_of_an_accepted_transfer
explain transfer
transfer
header 1 8400 1 2 0 1; QUESTION; OPENING; SERVER; . 0 CLASS1232 OPT
header 1 8400 0 3 0 0; n.x. 3600 IN A #0a000001; @14 3600 IN NS @12; @14 3600 IN SOA @12 h@14 1 2 3 4 5
--
broken file
=> 0
accepted, records: 3
--
== explain_names_a_differing_soa_with_message_and_offset
explain transfer
transfer
header 1 8400 1 3 0 0; QUESTION; OPENING; SERVER; @12 3600 IN SOA @31 @35 2 2 3 4 5
--
broken file
=> 3
F36 SoaMismatch at message 1 offset 73: a later SOA differs from the opening one
--
== explain_tells_the_error_code
explain transfer
transfer
header 1 8405 1 3 0 0; QUESTION; OPENING; SERVER; CLOSING
--
broken file
=> 3
F26 ErrorCode 5 at message 1 offset 0: the message carries an error code
--
== explain_tells_the_owner_outside
explain x.
file
@ 60 SOA n h 1 2 3 4 5
b.y. 60 A 10.0.0.1
y. 60 A 10.0.0.1
--
broken file
=> 3
F43 OutOfZone y. in the input: an owner lies outside the zone
--
== program_normalises_the_first_run
normalise x.
file
x. 3600 IN NS n.x.
x. 3600 IN SOA n.x. h.x. 1 2 3 4 5
--
broken file
=> 0
x. 3600 IN SOA n.x. h.x. 1 2 3 4 5
x. 3600 IN NS n.x.
--
== program_refuses_a_file_without_soa
normalise x.
file
x. 60 IN NS n.x.
--
broken file
=> 3
--
F42 NoSoa in the input: the zone has no SOA record
== program_explains_an_accepted_file
explain x.
file
$TTL 1h
@ SOA N h 1 2 3 4 5
  NS n
--
broken file
=> 0
accepted, records: 2
--
== program_explains_a_refused_file
explain x.
file
@ 60 SOA n h 1 2 3 4 5
a 300 A 10.0.0.1
a 600 A 10.0.0.2
--
broken file
=> 3
F41 DifferingTtl at line 3: the TTL differs from that of its record set
--
== program_compares_a_file_and_a_transfer
compare x. p transfer q
file
$TTL 1h
@ SOA N h 1 2 3 4 5
  NS n
--
transfer
header 1 8400 1 3 0 0; QUESTION; OPENING; SERVER; CLOSING
=> 0
same
--
== program_compares_two_zones_that_differ
compare x. p transfer r
file
$TTL 1h
@ SOA N h 1 2 3 4 5
  NS n
--
transfer
header 1 8400 1 2 0 1; QUESTION; OPENING; SERVER; . 0 CLASS1232 OPT
header 1 8400 0 3 0 0; n.x. 3600 IN A #0a000001; @14 3600 IN NS @12; @14 3600 IN SOA @12 h@14 1 2 3 4 5
=> 1
different at line 3
--
== program_cannot_open_the_first_file
compare x. missing x. p
broken file
--
file
$TTL 1h
@ SOA N h 1 2 3 4 5
  NS n
=> 4
--
first: read failed
== explain_whose_reader_fails
explain x.
broken file
$TTL 1h
@ --
broken file
=> 4
--
read failed
== compare_whose_first_reader_fails
compare x. p transfer q
broken file
$TTL 1h
@ --
transfer
header 1 8400 1 3 0 0; QUESTION; OPENING; SERVER; CLOSING
=> 4
--
first: read failed
== compare_whose_second_reader_fails
compare x. p transfer q
file
$TTL 1h
@ SOA N h 1 2 3 4 5
  NS n
--
broken transfer
#006d0001840000010003
=> 4
--
second: read failed
== second_input_is_not_read_after_a_refused_first
compare x. p transfer q
file
--
broken transfer
=> 3
--
first: F42 NoSoa in the input: the zone has no SOA record
";

#[test]
fn programs(rt: HostRuntime) -> Result<(), Fail> {
    check_table::<Program>(rt.alloc(), PROGRAMS)
}
