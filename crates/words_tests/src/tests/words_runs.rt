//! Runs of `zonewords`: master files that are written again and texts that are shown in words, from
//! the words of the command line to the exit status.
//!
//! A row has a name, the words after the program's name, and the input: its first line says what
//! the reader does at the end of the file after it, `whole` or `broken`. The answer is the exit
//! status, what is written on standard output, and after `--` what is written on standard error.
use std::alloc::Global;
use std::io::{Read, Write};
use std::test::Fail;
use test_support::{
    BROKEN, Narrow, Program, Question, Supply, check_lines, check_narrow, check_octets, check_same,
    check_table, parted, push_run_of, push_text, push_words, roomy, run_of, supplied, told_by,
    words_of,
};
use words_command::{LineFault, Order, order_after_name, order_of, refuse, run};
use zone_engine::{Form, explain_line, normalise_bytes};
use zone_name::Name;

/// The program.
struct Zonewords;

impl Program for Zonewords {
    fn run<R: Read, W: Write>(
        alloc: Global,
        words: &[String],
        input: &mut R,
        output: &mut W,
        told: &mut Vec<u8>,
    ) -> u8 {
        match order_of(alloc, words) {
            Ok(order) => run(alloc, &order, input, output, told),
            Err(fault) => refuse(&fault, told),
        }
    }
}

/// What a run does.
struct Filtering;

impl Question for Filtering {
    fn answer(alloc: Global, asked: &'static str, out: &mut Vec<u8>) -> Result<(), Fail> {
        let (_, rest) = parted(asked, "\n")?;
        let (line, input) = parted(rest, "\n")?;
        push_run_of::<Zonewords>(alloc, out, line, supplied(input)?)
    }
}

/// Files that are written again, and lines on what states no data; texts that are shown in words.
const FILES: &str = "\
== words_become_the_generic_form
generic example.com.
whole
$TTL 1h
certs CAA 0 issue \"ca1.example.net\" ; one
a A 192.0.2.1
=> 0
$TTL 1h
certs TYPE257 \\# 22 000569737375656361312e6578616d706c652e6e6574; one
a A 192.0.2.1
--
== letters_of_the_origin_are_kept
generic Example.
whole
a RP h .
=> 0
a TYPE17 \\# 12 0168074578616d706c650000
--
== file_without_further_words_comes_back
generic example.
whole
@ 60 IN SOA n h 1 2 3 4 5 ( ; c
)
a TYPE257 \\# 3 000161

unfinished
=> 0
@ 60 IN SOA n h 1 2 3 4 5 ( ; c
)
a TYPE257 \\# 3 000161

unfinished
--
== entry_without_data_stays_and_is_told
generic example.
whole
; c
a CAA 0 issue
=> 3
; c
a CAA 0 issue
--
line 2: CAA, value: nothing left
== one_more_is_counted
generic example.
whole
a CAA 0 issue
b SSHFP 1 1 0g
=> 3
a CAA 0 issue
b SSHFP 1 1 0g
--
line 1: CAA, value: nothing left (and 1 more entry)
== others_are_counted
generic example.
whole
a RP . b..c
b SSHFP 1 1 0g
c CAA 0 issue \"x\"
d CAA 256 issue \"x\"
e CAA
=> 3
a RP . b..c
b SSHFP 1 1 0g
c TYPE257 \\# 8 0005697373756578
d CAA 256 issue \"x\"
e CAA
--
line 1: RP, text: not a name: a label is empty (and 3 more entries)
== broken_text_stays
generic example.
whole
a CAA 0 issue \"x\"
) b CAA 0 issue \"x\"
c CAA 0 issue \"x\"
=> 0
a TYPE257 \\# 8 0005697373756578
) b CAA 0 issue \"x\"
c CAA 0 issue \"x\"
--
== whole_entries_are_written_before_a_failed_read
generic example.
broken
a CAA 0 issue \"x\"
b CAA 0 issue \"y\"
=> 4
a TYPE257 \\# 8 0005697373756578
b TYPE257 \\# 8 0005697373756579
$STOPPED
--
read failed
== nothing_of_an_open_entry_is_written_before_a_failed_read
generic example.
broken
a CAA 0 issue \"x\"
b CAA ( 0 issue \"y\"
=> 4
a TYPE257 \\# 8 0005697373756578
$STOPPED
--
read failed
== last_line_is_its_own_after_a_text_that_broke
generic example.
broken
a CAA 0 issue \"x\"
) b CAA 0 issue \"x\"
c CAA 0=> 4
a TYPE257 \\# 8 0005697373756578
) b CAA 0 issue \"x\"
c CAA 0
$STOPPED
--
read failed
== broken_text_that_a_line_feed_ends_gets_none
generic example.
broken
a CAA 0 issue ) ; c
=> 4
a CAA 0 issue ) ; c
$STOPPED
--
read failed
== failed_read_at_once
generic example.
broken
=> 4
$STOPPED
--
read failed
== text_is_shown_in_words
words
whole
a. 3600 IN A 192.0.2.1
a. 3600 IN TYPE257 \\# 22 000569737375656361312e6578616d706c652e6e6574
a. 3600 IN TYPE257 \\# 2 0000
=> 0
a. 3600 IN A 192.0.2.1
a. 3600 IN CAA 0 issue \"ca1.example.net\"
a. 3600 IN TYPE257 \\# 2 0000
--
== difference_is_shown_in_words
words
whole
2c2
< a. 3600 IN TYPE108 \\# 6 00005e00532a
---
> a. 3600 IN TYPE108 \\# 6 00005e00532b
=> 0
2c2
< a. 3600 IN EUI48 00-00-5e-00-53-2a
---
> a. 3600 IN EUI48 00-00-5e-00-53-2b
--
== what_is_no_text_stays
words
whole
a CAA 0 issue
( \"

IN TYPE43 \\# 3 000108
=> 0
a CAA 0 issue
( \"

IN TYPE43 \\# 3 000108
--
== lines_are_shown_before_a_failed_read
words
broken
a. 3600 IN TYPE108 \\# 6 00005e00532a
b. 3600 IN TYPE108 \\# 6 00005e=> 4
a. 3600 IN EUI48 00-00-5e-00-53-2a
--
read failed
== nothing_is_shown_before_a_failed_read
words
broken
=> 4
--
read failed
== relative_origin
generic example
whole
a A 192.0.2.1
=> 2
--
an origin is an absolute name
== transfer_is_no_origin
generic transfer
whole
=> 2
--
an origin is an absolute name
";

#[test]
fn files_and_texts_are_written_again(rt: HostRuntime) -> Result<(), Fail> {
    check_table::<Filtering>(rt.alloc(), FILES)
}

/// A zone, and its beginning that a reader gives before it fails.
const ZONE: &[u8] = b"@ 60 SOA n h 1 2 3 4 5\n@ 60 NS n\na 60 CAA 0 issue x\n";

/// The beginning of a zone that is a zone too isn't taken for it: `zonenorm` refuses the last line.
#[test]
fn the_beginning_of_a_file_is_refused(rt: HostRuntime) -> Result<(), Fail> {
    let alloc = rt.alloc();
    let mut reader = Supply::at_once(&ZONE[..40], BROKEN);
    let broken = run_of::<Zonewords, Supply<'_>>(alloc, "generic x.", &mut reader)?;
    let wanted = b"@ 60 SOA n h 1 2 3 4 5\n@ 60 NS n\n$STOPPED\n";
    broken.check(4, wanted, b"read failed\n")?;
    let origin = Name::from_text(b"x.", None)?;
    match normalise_bytes(alloc, Form::File(&origin), wanted) {
        Ok(_) => Err(Fail::from("accepted")),
        Err(stop) => {
            let line = explain_line(alloc, &stop)?;
            check_octets(
                "a refusal",
                line.as_bytes(),
                b"F17 UnknownDirective at line 3: the directive is unknown",
            )
        }
    }
}

const FILE: &[u8] = b"a CAA 0 issue \"x\"\nb CAA ( 0 issue\n";

const TEXT: &[u8] = b"a TYPE257 \\# 8 0005697373756578\nb CAA ( 0 issue\n";

/// A canonical text, and that text in words.
const CANONICAL: &[u8] = b"\
x. 3600 IN SOA n.x. h.x. 1 2 3 4 5
x. 3600 IN NS n.x.
x. 3600 IN TYPE43 \\# 24 ec4505012bb183af5f22588179a53b0a98631fad1a292118
x. 3600 IN TYPE43 \\# 3 000108
x. 3600 IN TYPE257 \\# 22 000569737375656361312e6578616d706c652e6e6574
";

const IN_WORDS: &[u8] = b"\
x. 3600 IN SOA n.x. h.x. 1 2 3 4 5
x. 3600 IN NS n.x.
x. 3600 IN DS 60485 5 1 2bb183af5f22588179a53b0a98631fad1a292118
x. 3600 IN TYPE43 \\# 3 000108
x. 3600 IN CAA 0 issue \"ca1.example.net\"
";

/// What is shown for a canonical text is rewritten under the root as that text.
#[test]
fn a_text_in_words_comes_back(rt: HostRuntime) -> Result<(), Fail> {
    let alloc = rt.alloc();
    let mut reader = Supply::at_once(CANONICAL, None);
    let shown = run_of::<Zonewords, Supply<'_>>(alloc, "words", &mut reader)?;
    shown.check(0, IN_WORDS, b"")?;
    let mut reader = Supply::at_once(&shown.output, None);
    run_of::<Zonewords, Supply<'_>>(alloc, "generic .", &mut reader)?.check(0, CANONICAL, b"")
}

#[test]
fn a_failing_writer_is_told(rt: HostRuntime) -> Result<(), Fail> {
    check_narrow::<Zonewords>(rt.alloc(), "generic x.", FILE, TEXT)?;
    check_narrow::<Zonewords>(rt.alloc(), "words", CANONICAL, IN_WORDS)
}

/// Where no room is left for `$STOPPED`, the failed read is told all the same.
#[test]
fn the_first_failure_is_told(rt: HostRuntime) -> Result<(), Fail> {
    let alloc = rt.alloc();
    let mut writer = Narrow::new(alloc, 3, 36, true)?;
    let mut reader = Supply::at_once(FILE, BROKEN);
    let (status, told) = told_by::<Zonewords, Supply<'_>, Narrow>(
        alloc,
        "generic x.",
        &mut reader,
        &mut writer,
    )?;
    check_same("the status", status, 4)?;
    let front = b"a TYPE257 \\# 8 0005697373756578\n$STO";
    check_octets("the front", writer.taken(), front)?;
    check_octets("the line", &told, b"read failed\n")
}

/// What a command line gives: an order, or the status of its fault and the first line of its text.
struct Given;

impl Question for Given {
    fn answer(alloc: Global, asked: &'static str, out: &mut Vec<u8>) -> Result<(), Fail> {
        match order_of(alloc, &words_of(alloc, asked)?) {
            Ok(Order::Generic(origin)) => {
                push_text(out, "generic ")?;
                Ok(out.extend_from_slice(origin.wire())?)
            }
            Ok(Order::Words) => push_text(out, "words"),
            Err(LineFault::Memory) => Err(Fail::from("memory")),
            Err(fault) => {
                let mut told = roomy(alloc)?;
                let status = refuse(&fault, &mut told);
                let text = str::from_utf8(&told).map_err(|_| Fail::from("no text"))?;
                let (line, _) = text.split_once('\n').unwrap_or((text, ""));
                push_words(alloc, out, format_args!("{status} {line}"))
            }
        }
    }
}

/// The words after the program's name, and what they give: the octets of an origin, as RFC 1035 3.1
/// has them.
const LINES: &str = "\
generic X. => generic \x01X\0
generic . => generic \0
generic transfer. => generic \x08transfer\0
generic \\-a. => generic \x02-a\0
generic x => 2 an origin is an absolute name
generic @ => 2 an origin is an absolute name
generic a.. => 2 an origin is an absolute name
generic transfer => 2 an origin is an absolute name
generic  => 2 an origin is an absolute name
generic => 2 error: the following required arguments were not provided:
generic x. y. => 2 error: unexpected argument 'y.' found
generic -a. => 2 error: unexpected argument '-a' found
words => words
words . => 2 error: unexpected argument '.' found
generic words => 2 an origin is an absolute name
normalise x. => 2 error: unrecognized subcommand 'normalise'
 => 2 Writes DNS records in the generic form, or in presentation format
--help => 2 Writes DNS records in the generic form, or in presentation format
--version => 2 zonewords 0.1.0
";

#[test]
fn command_lines(rt: HostRuntime) -> Result<(), Fail> {
    check_lines::<Given>(rt.alloc(), LINES)
}

/// The program's name is no word of its command line.
#[test]
fn the_name_of_the_program_is_passed_over(rt: HostRuntime) -> Result<(), Fail> {
    let words = words_of(rt.alloc(), "zonewords generic Example.")?;
    match order_after_name(rt.alloc(), &words) {
        Ok(Order::Generic(origin)) => check_octets("the origin", origin.wire(), b"\x07Example\0"),
        Err(LineFault::Memory) => Err(Fail::from("memory")),
        Ok(Order::Words) | Err(_) => Err(Fail::from("no order")),
    }
}

/// Want of memory before there is an order.
#[test]
fn want_of_memory_is_told(rt: HostRuntime) -> Result<(), Fail> {
    let mut told = roomy(rt.alloc())?;
    check_same("the status", refuse(&LineFault::Memory, &mut told), 4)?;
    check_octets("the line", &told, b"out of memory\n")
}
