//! Master files as records, and the first fault (RFC 1035 5.1).
use crate::tests::push_stop;
use crate::tests::readings::{push_place, push_reading};
use crate::tests::vectors::{file_of, input_of};
use std::alloc::Global;
use std::test::Fail;
use test_support::{Question, check_table, octets_of, push_numbers, push_text, push_words, rooted};
use zone_rdata::{Reading, Stop};
use zone_text::read_file;

/// What a file under the origin `x.` is read as. One that begins with `#` is in hexadecimal digits.
fn read_under_x(alloc: Global, file: &str) -> Result<Reading, Fail> {
    let octets = match file.strip_prefix('#') {
        Some(digits) => octets_of(alloc, digits)?,
        None => file_of(alloc, file)?,
    };
    Ok(read_file(alloc, &rooted(b"x.")?, &octets)?)
}

/// All records of a file, in numbers.
struct Filed;

impl Question for Filed {
    fn answer(alloc: Global, asked: &'static str, out: &mut Vec<u8>) -> Result<(), Fail> {
        let reading = read_under_x(alloc, asked)?;
        push_text(out, "\n")?;
        for placed in reading.placed.iter() {
            push_numbers(alloc, out, &placed.rr)?;
            push_place(alloc, out, placed.place)?;
            push_text(out, "\n")?;
        }
        match reading.ending {
            Some(_) => Err(Fail::from("a fault")),
            None => Ok(()),
        }
    }
}

/// Files, and their records.
const FILED: &str = "\
== x. 3600 IN NS n.x.
x. 3600 IN SOA n.x. h.x. 1 2 3 4 5
=>
#017800 3600 CLASS1 TYPE2 #016e017800 at line 1
#017800 3600 CLASS1 TYPE6 #016e01780001680178000000000100000002000000030000000400000005 at line 2
== @\t003600  in  Ns\tn \t
\\120. 1H class1 type2 \\N.\\X.\r
=>
#017800 3600 CLASS1 TYPE2 #016e017800 at line 1
#017800 3600 CLASS1 TYPE2 #016e017800 at line 2
== 
=>
==  
=>
== $TTL 3600
=>
== x. 3600 IN NS n.x.=>
#017800 3600 CLASS1 TYPE2 #016e017800 at line 1
== x. IN 3600 NS n.x. ; comment
=>
#017800 3600 CLASS1 TYPE2 #016e017800 at line 1
== x. 3600 IN NS ( n.x. )
=>
#017800 3600 CLASS1 TYPE2 #016e017800 at line 1
== #782e203336303020494e204e53205c205c3b2e782e0a782e203336303020494e204e532000ff2e782e0a=>
#017800 3600 CLASS1 TYPE2 #02203b017800 at line 1
#017800 3600 CLASS1 TYPE2 #0200ff017800 at line 2
";

/// How many records stand before the fault of a file, and what explains it.
struct Refused;

impl Question for Refused {
    fn answer(alloc: Global, asked: &'static str, out: &mut Vec<u8>) -> Result<(), Fail> {
        let Reading { placed, ending } = read_under_x(alloc, asked)?;
        let (fault, place) = ending.ok_or("nothing is refused")?;
        let count = placed.len();
        push_words(alloc, out, format_args!(" {count} before "))?;
        push_stop(alloc, out, &Stop::Refused(fault, place))?;
        push_text(out, "\n")
    }
}

/// Files that are refused.
const REFUSED: &str = "\
== x. 60 IN NS n.x.
a..x. 60 IN NS n.x.
b 60 IN NS n.x.
=> 1 before F1 EmptyLabel at line 2
== x. 2147483647 IN NS n.x.
x. 0 IN NS n
x. 2147483648 IN NS n.x.
=> 2 before F21 BadTtl at line 3
== x. 6x IN NS n.x.
=> 0 before F21 BadTtl at line 1
== x. 60 IN NS n\\256.x.
=> 0 before F4 BadEscape at line 1
== x. 60 IN NS n\\04
=> 0 before F4 BadEscape at line 1
== x. 60 IN NS n\\
=> 0 before F4 BadEscape at line 1
== x. 60 IN NS n\\\r
=> 0 before F4 BadEscape at line 1
== x. 60 IN NS n\\1
=> 0 before F4 BadEscape at line 1
== $INCLUDE \\04
=> 0 before F4 BadEscape at line 1
== x. 60 IN NS
=> 0 before F9 BadRdata at line 1
== x. 60 IN NS n m
=> 0 before F9 BadRdata at line 1
== x. 60 IN SOA n h 1 2 3 4 x
=> 0 before F13 BadNumber at line 1
==  NS n.x.
=> 0 before F19 NoOwner at line 1
== x. NS n.x.
=> 0 before F20 NoTtl at line 1
== x. 60 IN NS \"n.x.\"
=> 0 before F9 BadRdata at line 1
";

#[test]
fn files_as_records(rt: HostRuntime) -> Result<(), Fail> {
    check_table::<Filed>(rt.alloc(), FILED)?;
    check_table::<Refused>(rt.alloc(), REFUSED)
}

/// What a file is read as: its records, and the fault after them.
struct Read;

impl Question for Read {
    fn answer(alloc: Global, asked: &'static str, out: &mut Vec<u8>) -> Result<(), Fail> {
        let input = input_of(alloc, asked)?;
        let origin = input.origin.ok_or("no origin")?;
        push_reading(alloc, out, &read_file(alloc, &origin, &input.octets)?)
    }
}

/// Files, and what they are read as.
const READ: &str = "\
== reader_of_a_file_gives_the_records_before_a_fault x.
@ 60 SOA n h 1 2 3 4 5
a 60 A 10.0.0.1
b 60 TXT \"
=>
x. 60 IN SOA n.x. h.x. 1 2 3 4 5 at line 1
a.x. 60 IN A 10.0.0.1 at line 2
F14 UnclosedQuote at line 3
== reader_of_a_file_gives_every_record x.
a 300 A 10.0.0.1
a 300 A 10.0.0.1
a 600 A 10.0.0.2
=>
a.x. 300 IN A 10.0.0.1 at line 1
a.x. 300 IN A 10.0.0.1 at line 2
a.x. 600 IN A 10.0.0.2 at line 3
";

#[test]
fn files_are_read(rt: HostRuntime) -> Result<(), Fail> {
    check_table::<Read>(rt.alloc(), READ)
}
