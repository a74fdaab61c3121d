//! Lines of `$GENERATE`: entries, ranges, templates and numbers. What is wanted of templates and
//! numbers is what BIND 9.18 makes of them; of quotes, items and faults it follows from the rules.
ghost use Rattle.std.specs.Prelude.{◌<◌, ◌^◌, IfOk};

use std::alloc::Global;
use std::test::Fail;
use test_support::{
    Question, check_lines, check_octets, check_same, check_table, parted, push_text, push_words,
};
use zone_generate::{
    GenerateFailing, GenerateFault, Generated, LineFailing, LinesState, NextValue, Range,
    RangeFault, TemplateFailing, expand, modifier_in, push_number, range_in,
};
use zone_rdata::Item;
use zone_text::{FirstEntry, first_entry};

/// Appends what was written, or `refused`.
fn push_written(
    out: &mut Vec<u8>,
    written: &[u8],
    done: Result<(), TemplateFailing>,
) -> Result<(), Fail> {
    match done {
        Ok(()) => Ok(out.extend_from_slice(written)?),
        Err(TemplateFailing::SaysNothing) => push_text(out, "refused"),
        Err(TemplateFailing::OutOfMemory) => Err(Fail::from("memory")),
    }
}

/// The name of a fault.
fn name_of(fault: GenerateFault) -> &'static str {
    match fault {
        GenerateFault::BadGenerate => "BadGenerate",
        GenerateFault::BadRange => "BadRange",
        GenerateFault::TooManyValues => "TooManyValues",
    }
}

/// Appends the lines for values, of which there are fewer than 32, and the fault of the first that
/// has none.
fn push_lines(alloc: Global, mut generated: Generated, out: &mut Vec<u8>) -> Result<(), Fail> {
    for _ in 0..32 {
        match generated.next_line(out) {
            Ok(Some(_)) => {}
            Ok(None) => return Ok(()),
            Err(LineFailing::BadTemplate(value)) => {
                return push_words(alloc, out, format_args!("BadTemplate {value}"));
            }
            Err(LineFailing::OutOfMemory) => return Err(Fail::from("memory")),
        }
    }
    Err(Fail::from("many values"))
}

/// The lines of what comes after the word `$GENERATE`, and the fault.
struct Lines;

impl Question for Lines {
    fn answer(alloc: Global, asked: &'static str, out: &mut Vec<u8>) -> Result<(), Fail> {
        let mut entry = Vec::new(alloc);
        entry.extend_from_slice(asked.as_bytes())?;
        entry.push(b'\n')?;
        let mut items = Vec::new(alloc);
        let FirstEntry::Whole(_) = first_entry(&entry, &mut items)? else {
            return push_text(out, "no entry");
        };
        match Generated::of_items(alloc, &items) {
            Ok(generated) => push_lines(alloc, generated, out),
            Err(GenerateFailing::Fault(fault)) => push_text(out, name_of(fault)),
            Err(GenerateFailing::OutOfMemory) => Err(Fail::from("memory")),
        }
    }
}

/// Entries with their lines: `== ` stands before each entry, `=>` after it.
const ENTRIES: &str = "\
== 1-3 a$ A 1.2.3.$=>a1 A 1.2.3.1
a2 A 1.2.3.2
a3 A 1.2.3.3
== 1-3/2 a$ A 1.2.3.$=>a1 A 1.2.3.1
a3 A 1.2.3.3
== 01-003 a$ A 1.2.3.4=>a1 A 1.2.3.4
a2 A 1.2.3.4
a3 A 1.2.3.4
== 10-12 host-${-9,2,d} A 192.0.2.$=>host-01 A 192.0.2.10
host-02 A 192.0.2.11
host-03 A 192.0.2.12
== 171-172 ${0,5,n}.e A 192.0.2.$=>b.a.0.e A 192.0.2.171
c.a.0.e A 192.0.2.172
== 2147483646-2147483647 a$ A 1.2.3.4=>a2147483646 A 1.2.3.4
a2147483647 A 1.2.3.4
== 2147483647-2147483647/9999999999 a$ A 1.2.3.4=>a2147483647 A 1.2.3.4
== 1-2 $$a$ TXT $$$=>\\$a1 TXT \\$1
\\$a2 TXT \\$2
== 1-2 \\$a$ TXT \\$$=>\\$a1 TXT \\$1
\\$a2 TXT \\$2
== 1-2 a${-5} TXT x${-5}=>a-4 TXT x-4
a-3 TXT x-3
== 171-172 a${0,5,n} TXT ${0,6,N}=>ab.a.0 TXT B.A.0.
ac.a.0 TXT C.A.0.
== 1-2 a TXT ${2147483645}=>a TXT 2147483646
a TXT 2147483647
== 1-1 ( a\t60 ; a comment
 IN ) TXT $=>a 60 IN TXT 1
== 1-1 a IN  60 TXT $=>a IN 60 TXT 1
== 1-1 a 60 60 $=>a 60 60 1
== 1-1 t TXT \"x $\"=>t TXT x 1
== 1-1 t TXT \"\\\"x $\\\"\"=>t TXT \"x 1\"
== 1-1 t TXT \"(\\\")\\\")\"=>t TXT (\")\")
== 1-1 ${5}a${0} TXT $=>6a1 TXT 1
== 1-1 $a${5} TXT $=>1a6 TXT 1
== 1-1 ${-0}a$ TXT $=>1a1 TXT 1
";

#[test]
fn entries_have_lines(rt: HostRuntime) -> Result<(), Fail> {
    check_table::<Lines>(rt.alloc(), ENTRIES)
}

/// What is refused, for its items, its range, or a value.
const REFUSED: &str = "\
1-2 => BadGenerate
1-2 h$ => BadGenerate
1-2 h$ A => BadGenerate
1-2 h$ 60 IN A => BadGenerate
1-2 h$ MX 10 m$ => BadGenerate
1-2 h$ 60 IN 60 A 1.2.3.4 => BadGenerate
1-2 h$ IN CH A 1.2.3.4 => BadGenerate
\"1-2\" h$ A 1.2.3.4 => BadGenerate
1-2 \"h$\" A 1.2.3.4 => BadGenerate
1-2 h$ \"60\" A 1.2.3.4 => BadGenerate
1-2 h$ \"A\" 1.2.3.4 => BadGenerate
3-1 h$ A 1.2.3.4 5 => BadGenerate
0-2147483647 h$ A => BadGenerate
3-1 a$ A 1.2.3.$ => BadRange
1-3/0 a$ A 1.2.3.$ => BadRange
1-3/ a$ A 1.2.3.$ => BadRange
1-3/-1 a$ A 1.2.3.$ => BadRange
1-3x a$ A 1.2.3.$ => BadRange
+1-3 a$ A 1.2.3.$ => BadRange
-1-3 a$ A 1.2.3.4 => BadRange
1 a$ A 1.2.3.4 => BadRange
1- a$ A 1.2.3.4 => BadRange
2147483647-2147483648 a$ A 1.2.3.4 => BadRange
0-4294967295 h$ A 192.0.2.1 => BadRange
0-2147483647 h$ A 192.0.2.1 => TooManyValues
0-16777216 a$ A 1.2.3.4 => TooManyValues
1-2 h${1}-$ A 192.0.2.1 => BadTemplate 1
1-2 a TXT ${-1}$ => BadTemplate 1
1-2 a${} TXT b => BadTemplate 1
1-2 a${5 TXT b => BadTemplate 1
1-2 a${5,} TXT b => BadTemplate 1
1-2 a${5,3,} TXT b => BadTemplate 1
1-2 a${5,3,q} TXT b => BadTemplate 1
1-2 a${5,3,D} TXT b => BadTemplate 1
1-2 a${5,3,dd} TXT b => BadTemplate 1
1-2 a${5,3d} TXT b => BadTemplate 1
1-2 a${5,-3} TXT b => BadTemplate 1
1-2 a${,3} TXT b => BadTemplate 1
1-2 a TXT ${0,128,d} => BadTemplate 1
1-2 a TXT ${2147483647} => BadTemplate 1
2147483647-2147483647 a TXT ${1} => BadTemplate 2147483647
1-2 a TXT \"\\\"$\" => BadTemplate 1
1-2 a TXT \"($\" => BadTemplate 1
1-2 a TXT \"$)\" => BadTemplate 1
1-2 a TXT \"\\\\\\\"$\" => BadTemplate 1
1-2 a\\0$ TXT b => no entry";

#[test]
fn entries_are_refused(rt: HostRuntime) -> Result<(), Fail> {
    check_lines::<Lines>(rt.alloc(), REFUSED)
}

/// Entries that are refused after lines, or for a line feed.
const LATER: &str = "\
== 1-3 a TXT ${2147483645}=>a TXT 2147483646
a TXT 2147483647
BadTemplate 3\
== 1-2 a TXT \"$\nb A 1.2.3.4\"=>BadTemplate 1\
== 1-2 a TXT \"\\\"$\n\\\"\"=>BadTemplate 1\
== 1-2 a TXT \"($\n)\"=>BadTemplate 1\
";

#[test]
fn a_value_is_refused_after_lines(rt: HostRuntime) -> Result<(), Fail> {
    check_table::<Lines>(rt.alloc(), LATER)
}

/// The value of a number, which is one of a range: below 2^31.
fn value_of(text: &str) -> Result<u64, Fail>
    ensures { IfOk result (λ value. value < 2 ^ 31) }
{
    match text.parse::<u32>() {
        Ok(value) if value < 2147483648 => Ok(u64::from(value)),
        _ => Err(Fail::from("a value")),
    }
}

/// What a template says for a value.
struct Template;

impl Question for Template {
    fn answer(alloc: Global, asked: &'static str, out: &mut Vec<u8>) -> Result<(), Fail> {
        let (template, value) = parted(asked, " ")?;
        let value = value_of(value)?;
        let mut expanded = Vec::new(alloc);
        let done = expand(alloc, value, template.as_bytes(), &mut expanded);
        push_written(out, &expanded, done)
    }
}

/// Templates and values.
const TEMPLATES: &str = "\
$ 7 => 7
${0} 7 => 7
${0,0,d} 7 => 7
${5,3} 1 => 006
${-5,3,d} 1 => -04
${-5,3,x} 1 => fffffffc
${20,3,X} 7 => 01B
${20,0,o} 1 => 25
${0,0,N} 171 => B.A
${0,4,n} 171 => b.a.
${0,5,n} 171 => b.a.0
${0,7,n} 171 => b.a.0.0
${-1,0,n} 0 => f.f.f.f.f.f.f.f
$$a$ 1 => \\$a1
\\$a$ 1 => \\$a1
a\\0$ 10 => a\\010
h$-${1,3} 7 => h7-008
${1}$ 1 => refused
${1}$a 1 => refused
${1}$$ 1 => 2\\$
a\\ 1 => refused";

#[test]
fn templates_are_expanded(rt: HostRuntime) -> Result<(), Fail> {
    check_lines::<Template>(rt.alloc(), TEMPLATES)
}

/// The number that a modifier makes of a value, or `none` where it is no modifier.
struct Number;

impl Question for Number {
    fn answer(alloc: Global, asked: &'static str, out: &mut Vec<u8>) -> Result<(), Fail> {
        let (modifier, value) = parted(asked, " ")?;
        let value = value_of(value)?;
        let Some(modifier) = modifier_in(modifier.as_bytes()) else {
            return push_text(out, "none");
        };
        let mut number = Vec::new(alloc);
        let done = push_number(alloc, modifier, value, &mut number);
        push_written(out, &number, done)
    }
}

/// Modifiers and values.
const NUMBERS: &str = "\
5 1 => 6
+5 2 => 7
5,3 1 => 006
-5,3,d 1 => -04
-5,3,x 1 => fffffffc
-5,3,X 2 => FFFFFFFD
-5,3,o 1 => 37777777774
-5,12,o 2 => 037777777775
20,3,x 1 => 015
20,3,o 2 => 026
20,0,o 1 => 25
20,3,n 1 => 5.1
20,1,n 2 => 6.1
0,4,n 171 => b.a.
0,9,N 172 => C.A.0.0.0
0,4,n 0 => 0.0.
-1,0,N 0 => F.F.F.F.F.F.F.F
-2147483647 0 => -2147483647
x 1 => none";

#[test]
fn modifiers_make_numbers(rt: HostRuntime) -> Result<(), Fail> {
    check_lines::<Number>(rt.alloc(), NUMBERS)
}

/// The range of a text, and its faults.
#[test]
fn ranges_are_read(rt: HostRuntime) -> Result<(), Fail> {
    let wanted = Range {
        start: 1,
        count: 3,
        step: 4,
    };
    check_same("a range", range_in(b"1-9/4"), Ok(wanted))?;
    check_same("no range", range_in(b"9-1"), Err(RangeFault::BadRange))?;
    let many = range_in(b"0-16777216");
    check_same("many values", many, Err(RangeFault::TooManyValues))?;
    let most = Range {
        start: 0,
        count: 16_777_216,
        step: 1,
    };
    check_same("most values", range_in(b"0-16777215"), Ok(most))
}

/// A line is appended, and what is refused leaves what was there.
#[test]
fn lines_are_appended(rt: HostRuntime) -> Result<(), Fail> {
    let items = [
        Item::Bare(b"1-2"),
        Item::Bare(b"h$"),
        Item::Bare(b"60"),
        Item::Bare(b"A"),
        Item::Bare(b"192.0.2.${2147483646}"),
    ];
    let mut generated = Generated::of_items(rt.alloc(), &items).map_err(|_| "an entry")?;
    let mut out = Vec::new(rt.alloc());
    out.extend_from_slice(b"; \n")?;
    let first = generated.next_line(&mut out).map_err(|_| "a line")?;
    check_same("a value", first, Some(1))?;
    check_octets("a line", &out, b"; \nh1 60 A 192.0.2.2147483647\n")?;
    let Err(LineFailing::BadTemplate(2)) = generated.next_line(&mut out) else {
        return Err(Fail::from("a line that is refused"));
    };
    check_octets("the same", &out, b"; \nh1 60 A 192.0.2.2147483647\n")
}

/// Lines are appended by the part, and before each the next value and the last owner are known.
#[test]
fn lines_are_appended_by_the_part(rt: HostRuntime) -> Result<(), Fail> {
    let items = [
        Item::Bare(b"1-6/2"),
        Item::Bare(b"h$"),
        Item::Bare(b"A"),
        Item::Bare(b"192.0.2.$"),
    ];
    let mut generated = Generated::of_items(rt.alloc(), &items).map_err(|_| "an entry")?;
    let Some(owner) = generated.last_owner()? else {
        return Err(Fail::from("an owner"));
    };
    check_octets("the last owner", &owner, b"h5")?;
    let mut out = Vec::new(rt.alloc());
    let state = generated.next_lines(16, &mut out)?;
    check_same("more may come", state, LinesState::More)?;
    check_octets("two lines", &out, b"h1 A 192.0.2.1\nh3 A 192.0.2.3\n")?;
    let next = NextValue { value: 5, step: 2 };
    check_same("the next value", generated.next_value(), Some(next))?;
    let state = generated.next_lines(1000, &mut out)?;
    check_same("no more come", state, LinesState::AtEnd)?;
    check_octets(
        "all lines",
        &out,
        b"h1 A 192.0.2.1\nh3 A 192.0.2.3\nh5 A 192.0.2.5\n",
    )?;
    check_same("no value", generated.next_value(), None)
}
