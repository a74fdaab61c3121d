//! The expanded text of a file and those that it includes, fed whole and in two pieces. What is
//! wanted follows from the rules, and of templates it is what BIND 9.18 makes of them.
use std::alloc::Global;
use std::test::Fail;
use test_support::{
    Question, check, check_lines, check_octets, check_table, parted, push_text, push_words,
};
use zone_files::{FileExpander, FileStatus};
use zone_name::CasedName;

/// What files become under the origin `example.`. The first text is the main file, `main.zone`, and
/// the second that of each file that it includes.
struct Expanded;

/// More calls of `generate` than the lines of a test need.
const CALLS: usize = 64;

/// Where the lines of a `$GENERATE` come first, appends them.
fn push_lines(expander: &mut FileExpander, out: &mut Vec<u8>) -> Result<(), Fail> {
    for _ in 0..CALLS {
        if !matches!(expander.status(), FileStatus::Generating) {
            return Ok(());
        }
        expander.generate(out)?;
    }
    Err(Fail::from("lines are left"))
}

/// Feeds a file that includes none to an expander.
fn feed_inner(expander: &mut FileExpander, text: &[u8], out: &mut Vec<u8>) -> Result<(), Fail> {
    let mut rest = text;
    for _ in 0..text.len() {
        rest = expander.feed(rest, out)?;
        push_lines(expander, out)?;
    }
    expander.finish(out)?;
    push_lines(expander, out)
}

/// Feeds a file to an expander, and gives an included file its text.
fn feed_file(
    expander: &mut FileExpander,
    piece: &[u8],
    included: &[u8],
    out: &mut Vec<u8>,
) -> Result<(), Fail> {
    let mut rest = piece;
    for _ in 0..piece.len() {
        rest = expander.feed(rest, out)?;
        go_on(expander, included, out)?;
    }
    check(
        rest.is_empty() || !matches!(expander.status(), FileStatus::Going),
        "the whole piece is taken",
    )
}

/// Where lines come first, appends them. Where a file does, feeds its text and goes on after it.
fn go_on(expander: &mut FileExpander, included: &[u8], out: &mut Vec<u8>) -> Result<(), Fail> {
    push_lines(expander, out)?;
    if !matches!(expander.status(), FileStatus::Including) {
        return Ok(());
    }
    let Some(mut inner) = expander.begin_included()? else {
        return Err(Fail::from("no file comes first"));
    };
    feed_inner(&mut inner, included, out)?;
    Ok(expander.end_included(&inner, out)?)
}

/// An expander of the main file, `main.zone`.
fn expander(alloc: Global) -> Result<FileExpander, Fail> {
    let origin = CasedName::from_text(b"example.", None)?;
    Ok(FileExpander::new(alloc, None, "main.zone", &origin)?)
}

/// The text of a file that is fed in two pieces, and how it ends.
fn expand(
    alloc: Global,
    (front, back): (&[u8], &[u8]),
    included: &[u8],
    out: &mut Vec<u8>,
) -> Result<FileStatus, Fail> {
    let mut expander = expander(alloc)?;
    feed_file(&mut expander, front, included, out)?;
    feed_file(&mut expander, back, included, out)?;
    expander.finish(out)?;
    go_on(&mut expander, included, out)?;
    Ok(expander.status())
}

impl Question for Expanded {
    fn answer(alloc: Global, asked: &'static str, out: &mut Vec<u8>) -> Result<(), Fail> {
        let (main, included) = asked.split_once("--\n").unwrap_or((asked, ""));
        let (file, included) = (main.as_bytes(), included.as_bytes());
        let mut whole = Vec::new(alloc);
        let status = expand(alloc, file.split_at(file.len()), included, &mut whole)?;
        for first in 0..file.len() {
            let mut pieces = Vec::new(alloc);
            expand(alloc, file.split_at(first), included, &mut pieces)?;
            check_octets("a file in two pieces", &pieces, &whole)?;
        }
        out.extend_from_slice(&whole)?;
        match status {
            FileStatus::Faulty(fault) => push_text(out, fault.name()),
            FileStatus::FaultyAt(value) => {
                push_words(alloc, out, format_args!("BadTemplate {value}"))
            }
            FileStatus::Ended => Ok(()),
            _ => push_text(out, "broken"),
        }
    }
}

/// Files and their expanded texts: `== ` stands before each main file, `--` before the text of the
/// files that it includes, and `=>` before what becomes of them, with the fault behind it.
const TEXTS: &str = "\
== $TTL 1h
@     SOA  ns1 hostmaster 2026113001 2h 30m 2w 1h
      NS   ns1
ns1   A    192.0.2.1
$INCLUDE parts/web.db web
      AAAA 2001:db8::1
--
; the web servers
@    A 192.0.2.80
www  CNAME @
$TTL 5m
     ; done
alias CNAME www=>$TTL 1h
@     SOA  ns1 hostmaster 2026113001 2h 30m 2w 1h
      NS   ns1
ns1   A    192.0.2.1
$ORIGIN web.example.
; the web servers
@    A 192.0.2.80
www  CNAME @
$TTL 5m
     ; done
alias CNAME www
$ORIGIN example.
ns1.example.      AAAA 2001:db8::1
== @ 60 SOA n h 1 2 3 4 5
$INCLUDE ../secret
=>@ 60 SOA n h 1 2 3 4 5
BadFileName== $INCLUDE main.zone
=>TooManyIncludes== $include a b c
=>BadInclude== $INCLUDE a \"b\"
=>BadInclude== $INCLUDE a
 A 192.0.2.1
--
b A 192.0.2.2=>$ORIGIN example.
b A 192.0.2.2
$ORIGIN example.
NoOwner== a A 192.0.2.1
$INCLUDE \"b.db\" ; last--
 A 192.0.2.2
$ORIGIN c
@ A 192.0.2.3=>a A 192.0.2.1
$ORIGIN example.
 A 192.0.2.2
$ORIGIN c
@ A 192.0.2.3
$ORIGIN example.
== a A 192.0.2.1
$INCLUDE b
b A 192.0.2.2
--
a TXT \"=>a A 192.0.2.1
$ORIGIN example.
a TXT \"broken== a A ( 192.0.2.1=>a A ( 192.0.2.1broken== $ORIGIN b
 A 192.0.2.1
a A 192.0.2.1
$ORIGIN .
 A 192.0.2.2=>$ORIGIN b
 A 192.0.2.1
a A 192.0.2.1
$ORIGIN .
 A 192.0.2.2
";

#[test]
fn files_with_those_that_they_include(rt: HostRuntime) -> Result<(), Fail> {
    check_table::<Expanded>(rt.alloc(), TEXTS)
}

/// Files with `$GENERATE`, as above.
const GENERATED: &str = "\
== $TTL 1h
@     SOA  ns1 hostmaster 2026113001 2h 30m 2w 1h
      NS   ns1
ns1   A    192.0.2.1
$GENERATE 10-12 host-${-9,2,d} A 192.0.2.$
      TXT  \"of ns1\"
$INCLUDE parts/web.db web
      AAAA 2001:db8::1
$GENERATE 171-172 ${0,5,n}.e A 192.0.2.$
--
; the web servers
@    A 192.0.2.80
www  CNAME @
$TTL 5m
     ; done
alias CNAME www=>$TTL 1h
@     SOA  ns1 hostmaster 2026113001 2h 30m 2w 1h
      NS   ns1
ns1   A    192.0.2.1
host-01 A 192.0.2.10
host-02 A 192.0.2.11
host-03 A 192.0.2.12
ns1.example.      TXT  \"of ns1\"
$ORIGIN web.example.
; the web servers
@    A 192.0.2.80
www  CNAME @
$TTL 5m
     ; done
alias CNAME www
$ORIGIN example.
ns1.example.      AAAA 2001:db8::1
b.a.0.e A 192.0.2.171
c.a.0.e A 192.0.2.172
== @ 60 SOA n h 1 2 3 4 5
$GENERATE 0-4294967295 h$ A 192.0.2.1
=>@ 60 SOA n h 1 2 3 4 5
BadRange== @ 60 SOA n h 1 2 3 4 5
$GENERATE 0-2147483647 h$ A 192.0.2.1
=>@ 60 SOA n h 1 2 3 4 5
TooManyValues== @ 60 SOA n h 1 2 3 4 5
$GENERATE 1-2 h${1}-$ A 192.0.2.1
=>@ 60 SOA n h 1 2 3 4 5
BadTemplate 1== @ 60 SOA n h 1 2 3 4 5
$GENERATE 1-2 h$ MX 10 m$
=>@ 60 SOA n h 1 2 3 4 5
BadGenerate== $GENERATE 2147483645-2147483647/2 a${1} A 192.0.2.1
b A 192.0.2.2
=>a2147483646 A 192.0.2.1
BadTemplate 2147483647== $GENERATE 1-1 a$ A 192.0.2.1
 A 192.0.2.2
=>a1 A 192.0.2.1
NoOwner== a1 A 192.0.2.1
$GENERATE 0-1 a$ A 192.0.2.2
 A 192.0.2.3
=>a1 A 192.0.2.1
a0 A 192.0.2.2
a1 A 192.0.2.2
 A 192.0.2.3
== a1 A 192.0.2.1
$GENERATE 1-2 a$ A 192.0.2.2
 A 192.0.2.3
=>a1 A 192.0.2.1
a1 A 192.0.2.2
a2 A 192.0.2.2
a1.example. A 192.0.2.3
== $generate 1-6/2 a$ 60 IN TXT \"x $\"=>a1 60 IN TXT x 1
a3 60 IN TXT x 3
a5 60 IN TXT x 5
== $Generate ( 1-1 a$ ; a comment
 IN TXT \"\\\"x $\\\"\" )
=>a1 IN TXT \"x 1\"
== $GENERATES 1-2 a$ A 192.0.2.$
=>$GENERATES 1-2 a$ A 192.0.2.$
== a $GENERATE 1-2 a$ A 192.0.2.$
=>a $GENERATE 1-2 a$ A 192.0.2.$
== a A 192.0.2.1
$INCLUDE b.db
 A 192.0.2.2
--
$GENERATE 1-2 b$ A 192.0.2.$
 A 192.0.2.3
$GENERATE 3-4 b$ A 192.0.2.$=>a A 192.0.2.1
$ORIGIN example.
b1 A 192.0.2.1
b2 A 192.0.2.2
a.example. A 192.0.2.3
b3 A 192.0.2.3
b4 A 192.0.2.4
$ORIGIN example.
a.example. A 192.0.2.2
== a A 192.0.2.1
$INCLUDE b.db
 A 192.0.2.2
--
$GENERATE 1-2 b TXT ${--}=>a A 192.0.2.1
$ORIGIN example.
BadTemplate 1";

#[test]
fn files_with_lines_that_they_generate(rt: HostRuntime) -> Result<(), Fail> {
    check_table::<Expanded>(rt.alloc(), GENERATED)
}

/// Templates of the data of a `$GENERATE` with one value, before ` for ` and that value.
struct Templates;

impl Question for Templates {
    fn answer(alloc: Global, asked: &'static str, out: &mut Vec<u8>) -> Result<(), Fail> {
        let (template, value) = parted(asked, " for ")?;
        let mut file = Vec::new(alloc);
        push_words(
            alloc,
            &mut file,
            format_args!("$GENERATE {value}-{value} t TXT {template}\n"),
        )?;
        let mut text = Vec::new(alloc);
        expand(alloc, file.split_at(file.len()), b"", &mut text)?;
        let Some(data) = text.strip_prefix(b"t TXT ".as_slice()) else {
            return Err(Fail::from("another line"));
        };
        Ok(out.extend_from_slice(data.trim_ascii_end())?)
    }
}

/// What BIND writes for templates.
const TEMPLATES: &str = "\
$ for 7 => 7
${0} for 7 => 7
${0,0,d} for 7 => 7
${5,3} for 1 => 006
${-5,3,d} for 1 => -04
${-5,3,x} for 1 => fffffffc
${20,3,X} for 7 => 01B
${20,0,o} for 1 => 25
${0,0,N} for 171 => B.A
${0,4,n} for 171 => b.a.
${0,5,n} for 171 => b.a.0
${0,7,n} for 171 => b.a.0.0
${-1,0,n} for 0 => f.f.f.f.f.f.f.f
$$a$ for 1 => \\$a1
\\$a$ for 1 => \\$a1
";

#[test]
fn templates_say_what_bind_writes(rt: HostRuntime) -> Result<(), Fail> {
    check_lines::<Templates>(rt.alloc(), TEMPLATES)
}

#[test]
fn lines_come_in_parts(rt: HostRuntime) -> Result<(), Fail> {
    let alloc = rt.alloc();
    let mut expander = expander(alloc)?;
    let mut out = Vec::new(alloc);
    let rest = expander.feed(b"$GENERATE 1-9999 a$ A 192.0.2.1\nb A", &mut out)?;
    check_octets("what comes after the entry is left", rest, b"b A")?;
    check(out.is_empty(), "no line comes before it is asked for")?;
    check(expander.next_value().is_some(), "a value comes next")?;
    let mut most = 0;
    for _ in 0..CALLS {
        let begun = out.len();
        expander.generate(&mut out)?;
        most = most.max(out.len() - begun);
    }
    check(
        most < 65_536 + 20,
        "no call appends much more than 65,536 octets",
    )?;
    check(most >= 65_536, "a call appends as much")?;
    check(out.ends_with(b"\na9999 A 192.0.2.1\n"), "the last line")?;
    check(
        matches!(expander.status(), FileStatus::Going),
        "the file goes on",
    )
}
