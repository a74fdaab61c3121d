//! Main files that are expanded with the files that they include, and the zones that they denote.
use std::alloc::Global;
use std::test::Fail;
use test_support::{Question, Supply, check, check_octets, check_table, push_text, push_words};
use zone_files::{
    EntryPlace, ExpandedRefusal, FaultPlace, FileStatus, FilesStop, IncludeStack, IncludedFiles,
    PresentationRefusal, SourceForm, expand_files, explain_source, load_files, write_data_fault,
    write_expansion_fault, write_fault, write_unreadable,
};
use zone_name::CasedName;
use zone_print::{OctetVec, push_zone};
use zone_rdata::{Place, Stop};
use zone_set::Zone;

/// The text of a file: the first one is that of the main file, and `~~NAME` and a line feed stand
/// before each other one.
fn text_of(asked: &'static str, name: &str) -> Option<&'static [u8]> {
    let mut texts = asked.split("~~");
    let main = texts.next()?;
    if name == "main.zone" {
        return Some(main.as_bytes());
    }
    texts
        .filter_map(|text| text.split_once("\n"))
        .find(|(other, _)| *other == name)
        .map(|(_, text)| text.as_bytes())
}

/// The files of a case, whose readers give so many octets at once.
#[derive(Drop)]
struct CaseFiles {
    asked: &'static str,
    each: usize,
}

impl IncludedFiles for CaseFiles {
    type File = Supply<'static>;

    ghost use Rattle.std.specs.Prelude.{⊤};

    ghost opens = { λ _ _ _ _. ⊤ };

    fn open_included(&mut self, name: &str) -> Option<Supply<'static>> {
        let left = text_of(self.asked, name)?;
        Some(Supply {
            left,
            each: self.each,
            error: None,
        })
    }
}

/// What is expanded of a main file and the files that it includes.
#[derive(Drop)]
pub(super) struct Expanded {
    pub(super) text: Vec<u8>,
    pub(super) stack: IncludeStack,
}

/// Expands the main file of a case, whose readers give so many octets at once.
pub(super) fn expand(alloc: Global, asked: &'static str, each: usize) -> Result<Expanded, Fail> {
    let origin = CasedName::from_text(b"example.", None)?;
    let mut files = CaseFiles { asked, each };
    let Some(main) = files.open_included("main.zone") else {
        return Err(Fail::from("no main file"));
    };
    let mut writer = OctetVec::new(alloc);
    let stack = match expand_files(
        alloc,
        None,
        "main.zone",
        &origin,
        main,
        &mut files,
        &mut writer,
    ) {
        Ok(stack) | Err(FilesStop::Files(_, stack)) => stack,
        Err(FilesStop::Input(stop)) => return Err(Fail::from(stop)),
    };
    Ok(Expanded {
        text: writer.finish()?,
        stack,
    })
}

/// Appends `FILE:LINE`, and the value of a line of a `$GENERATE`.
pub(super) fn push_place(
    alloc: Global,
    out: &mut Vec<u8>,
    place: Option<EntryPlace<'_>>,
) -> Result<(), Fail> {
    let Some(place) = place else {
        return push_text(out, "nowhere");
    };
    push_words(alloc, out, format_args!("{}:{}", place.name, place.line))?;
    match place.value {
        Some(value) => push_words(alloc, out, format_args!(" value {}", value)),
        None => Ok(()),
    }
}

/// Each line of the expanded text behind the line of the file that it comes from, and a fault.
struct Lines;

/// Appends each line of the text behind its place. The last line of a text that isn't whole has none.
fn push_lines(alloc: Global, out: &mut Vec<u8>, expanded: &Expanded) -> Result<(), Fail> {
    let mut line: u64 = 0;
    for text in expanded.text.split_inclusive(|octet| *octet == b'\n') {
        line = line.saturating_add(1);
        if line < expanded.stack.next_line() || text != b"$STOPPED\n".as_slice() {
            push_place(alloc, out, expanded.stack.place_of(line))?;
            push_text(out, " ")?;
            out.extend_from_slice(text)?;
        }
    }
    Ok(())
}

/// Appends how the expansion ended.
fn push_end(alloc: Global, out: &mut Vec<u8>, stack: &IncludeStack) -> Result<(), Fail> {
    match stack.status() {
        FileStatus::Faulty(fault) => {
            push_words(
                alloc,
                out,
                format_args!("F{} {} at ", fault.number(), fault.name()),
            )?;
            push_place(alloc, out, stack.last_place())
        }
        FileStatus::FaultyAt(_) => {
            push_text(out, "lacking at ")?;
            push_place(alloc, out, stack.last_place())
        }
        FileStatus::Including => {
            push_place(alloc, out, stack.last_place())?;
            push_text(out, ": ")?;
            push_text(out, stack.wanted().unwrap_or(""))
        }
        FileStatus::Ended => Ok(()),
        _ => push_text(out, "broken"),
    }
}

impl Question for Lines {
    fn answer(alloc: Global, asked: &'static str, out: &mut Vec<u8>) -> Result<(), Fail> {
        let whole = expand(alloc, asked, usize::MAX)?;
        for each in 1..20 {
            let pieces = expand(alloc, asked, each)?;
            check_octets("a file in pieces", &pieces.text, &whole.text)?;
        }
        push_lines(alloc, out, &whole)?;
        push_end(alloc, out, &whole.stack)
    }
}

const TEXTS: &str = "\
== $TTL 1h
@     SOA  ns1 hostmaster 2026113001 2h 30m 2w 1h
      NS   ns1
ns1   A    192.0.2.1
$INCLUDE parts/web.db web
      AAAA 2001:db8::1
~~parts/web.db
; the web servers
@    A 192.0.2.80
www  CNAME @
$TTL 5m
     ; done
alias CNAME www=>main.zone:1 $TTL 1h
main.zone:2 @     SOA  ns1 hostmaster 2026113001 2h 30m 2w 1h
main.zone:3       NS   ns1
main.zone:4 ns1   A    192.0.2.1
main.zone:5 $ORIGIN web.example.
parts/web.db:1 ; the web servers
parts/web.db:2 @    A 192.0.2.80
parts/web.db:3 www  CNAME @
parts/web.db:4 $TTL 5m
parts/web.db:5      ; done
parts/web.db:6 alias CNAME www
main.zone:5 $ORIGIN example.
main.zone:6 ns1.example.      AAAA 2001:db8::1
== @ 60 SOA n h 1 2 3 4 5
$INCLUDE ../secret
=>main.zone:1 @ 60 SOA n h 1 2 3 4 5
main.zone:2 $STOPPED
F48 BadFileName at main.zone:2== $INCLUDE (
 a
) ; two
b A 192.0.2.1
$INCLUDE c
~~a
a A 192.0.2.2
$INCLUDE d d~~c
c A 192.0.2.3
 ~~d
$INCLUDE main.zone
=>main.zone:1 $ORIGIN example.
a:1 a A 192.0.2.2
a:2 $ORIGIN d.example.
d:1 $STOPPED
F49 TooManyIncludes at d:1== $INCLUDE (
 a
) ; two
b A 192.0.2.1
$INCLUDE c~~a
a A 192.0.2.2
$INCLUDE d d~~c
c A 192.0.2.3
$INCLUDE~~d
@ A (
192.0.2.4 )=>main.zone:1 $ORIGIN example.
a:1 a A 192.0.2.2
a:2 $ORIGIN d.example.
d:1 @ A (
d:2 192.0.2.4 )
a:2 $ORIGIN example.
main.zone:3 $ORIGIN example.
main.zone:4 b A 192.0.2.1
main.zone:5 $ORIGIN example.
c:1 c A 192.0.2.3
c:2 $STOPPED
F47 BadInclude at c:2== a A 192.0.2.1
$INCLUDE b
b A 192.0.2.2
~~b
a TXT \"
$INCLUDE c
=>main.zone:1 a A 192.0.2.1
main.zone:2 $ORIGIN example.
b:1 a TXT \"
b:2 $INCLUDE c
broken== $ORIGIN B
a A 192.0.2.1

$INCLUDE parts/keys
=>main.zone:1 $ORIGIN B
main.zone:2 a A 192.0.2.1
main.zone:3 
main.zone:4 $ORIGIN B.example.
main.zone:4: parts/keys== $TTL 1h
@     SOA  ns1 hostmaster 2026113001 2h 30m 2w 1h
      NS   ns1
ns1   A    192.0.2.1
$GENERATE 10-12 host-${-9,2,d} A 192.0.2.$
      TXT  \"of ns1\"
$INCLUDE parts/web.db web
      AAAA 2001:db8::1
$GENERATE 171-172 ${0,5,n}.e A 192.0.2.$
~~parts/web.db
; the web servers
@    A 192.0.2.80
www  CNAME @
$TTL 5m
     ; done
alias CNAME www=>main.zone:1 $TTL 1h
main.zone:2 @     SOA  ns1 hostmaster 2026113001 2h 30m 2w 1h
main.zone:3       NS   ns1
main.zone:4 ns1   A    192.0.2.1
main.zone:5 value 10 host-01 A 192.0.2.10
main.zone:5 value 11 host-02 A 192.0.2.11
main.zone:5 value 12 host-03 A 192.0.2.12
main.zone:6 ns1.example.      TXT  \"of ns1\"
main.zone:7 $ORIGIN web.example.
parts/web.db:1 ; the web servers
parts/web.db:2 @    A 192.0.2.80
parts/web.db:3 www  CNAME @
parts/web.db:4 $TTL 5m
parts/web.db:5      ; done
parts/web.db:6 alias CNAME www
main.zone:7 $ORIGIN example.
main.zone:8 ns1.example.      AAAA 2001:db8::1
main.zone:9 value 171 b.a.0.e A 192.0.2.171
main.zone:9 value 172 c.a.0.e A 192.0.2.172
== $INCLUDE a
b A 192.0.2.2
~~a
$GENERATE ( 4-8/2
 ) a$ A 192.0.2.$ ; three
; between
$GENERATE 1-2 b$ A 192.0.2.$=>main.zone:1 $ORIGIN example.
a:1 value 4 a4 A 192.0.2.4
a:1 value 6 a6 A 192.0.2.6
a:1 value 8 a8 A 192.0.2.8
a:3 ; between
a:4 value 1 b1 A 192.0.2.1
a:4 value 2 b2 A 192.0.2.2
main.zone:1 $ORIGIN example.
main.zone:2 b A 192.0.2.2
== $INCLUDE a
~~a
$GENERATE 2147483645-2147483647/2 a${1} A 192.0.2.1
b A 192.0.2.2
=>main.zone:1 $ORIGIN example.
a:1 value 2147483645 a2147483646 A 192.0.2.1
a:1 value 2147483647 $STOPPED
lacking at a:1 value 2147483647";

#[test]
fn lines_of_files_with_those_that_they_include(rt: HostRuntime) -> Result<(), Fail> {
    check_table::<Lines>(rt.alloc(), TEXTS)
}

/// The canonical text of the zone of a main file with the files that it includes, or the line on why
/// it is refused.
struct Loaded;

/// Where a refusal is.
fn place_in(stack: &IncludeStack, place: Place) -> FaultPlace<'_> {
    let place = match place {
        Place::Line(line) => stack.place_of(line),
        _ => None,
    };
    match place {
        Some(place) => FaultPlace::Entry(place),
        None => FaultPlace::Input,
    }
}

/// Writes the line on a refusal of the expanded text.
fn write_refusal(
    writer: &mut OctetVec,
    stack: &IncludeStack,
    refusal: &PresentationRefusal,
) -> Result<(), Stop> {
    match &refusal.stop {
        Stop::Refused(fault, place) => match &refusal.entry {
            Some(entry) => write_data_fault(writer, "", entry, place_in(stack, *place)),
            None => write_fault(writer, "", fault, place_in(stack, *place)),
        },
        _ => Err(Stop::Memory),
    }
}

/// Writes the line on why files are refused.
fn write_expanded(
    writer: &mut OctetVec,
    stack: &IncludeStack,
    refusal: &ExpandedRefusal,
) -> Result<(), Stop> {
    match (refusal, stack.last_place()) {
        (ExpandedRefusal::Text(refusal), _) => write_refusal(writer, stack, refusal),
        (ExpandedRefusal::Expansion(fault), Some(place)) => {
            write_expansion_fault(writer, "", *fault, FaultPlace::Entry(place))
        }
        (ExpandedRefusal::Unread, Some(place)) => {
            write_unreadable(writer, place, stack.wanted().unwrap_or(""))
        }
        _ => Err(Stop::Memory),
    }
}

/// Appends the canonical text of a zone, whose records are those of the expanded text.
fn push_loaded(
    alloc: Global,
    asked: &'static str,
    origin: &CasedName,
    zone: &Zone,
    out: &mut Vec<u8>,
) -> Result<(), Fail> {
    let expanded = expand(alloc, asked, usize::MAX)?;
    let mut supply = Supply::singly(&expanded.text, None);
    let counted = explain_source(alloc, SourceForm::File(origin), &mut supply);
    check(
        counted.is_ok_and(|count| count == zone.len()),
        "the number of the records",
    )?;
    Ok(out.extend_from_slice(&push_zone(alloc, zone)?)?)
}

impl Question for Loaded {
    fn answer(alloc: Global, asked: &'static str, out: &mut Vec<u8>) -> Result<(), Fail> {
        let origin = CasedName::from_text(b"example.", None)?;
        let mut files = CaseFiles { asked, each: 3 };
        let Some(main) = files.open_included("main.zone") else {
            return Err(Fail::from("no main file"));
        };
        match load_files(alloc, None, "main.zone", &origin, main, &mut files) {
            Ok((zone, _)) => push_loaded(alloc, asked, &origin, &zone, out),
            Err(FilesStop::Files(refusal, stack)) => {
                let mut writer = OctetVec::new(alloc);
                write_expanded(&mut writer, &stack, &refusal)?;
                Ok(out.extend_from_slice(&writer.finish()?)?)
            }
            Err(FilesStop::Input(stop)) => Err(Fail::from(stop)),
        }
    }
}

const ZONES: &str = "\
== $TTL 1h
@     SOA  ns1 hostmaster 2026113001 2h 30m 2w 1h
      NS   ns1
ns1   A    192.0.2.1
      TXT  \"of ns1\"
$INCLUDE parts/web.db web
      AAAA 2001:db8::1
~~parts/web.db
; the web servers
@    A 192.0.2.80
www  CNAME @
$TTL 5m
     ; done
alias CNAME www=>example. 3600 IN SOA ns1.example. hostmaster.example. 2026113001 7200 1800 1209600 3600
example. 3600 IN NS ns1.example.
ns1.example. 3600 IN A 192.0.2.1
ns1.example. 3600 IN TXT \"of ns1\"
ns1.example. 300 IN AAAA 2001:db8::1
web.example. 3600 IN A 192.0.2.80
alias.web.example. 300 IN CNAME www.web.example.
www.web.example. 3600 IN CNAME web.example.
== $TTL 1h
@     SOA  ns1 hostmaster 2026113001 2h 30m 2w 1h
      NS   ns1
ns1   A    192.0.2.1
$GENERATE 10-12 host-${-9,2,d} A 192.0.2.$
      TXT  \"of ns1\"
$INCLUDE parts/web.db web
      AAAA 2001:db8::1
$GENERATE 171-172 ${0,5,n}.e A 192.0.2.$
~~parts/web.db
; the web servers
@    A 192.0.2.80
www  CNAME @
$TTL 5m
     ; done
alias CNAME www=>example. 3600 IN SOA ns1.example. hostmaster.example. 2026113001 7200 1800 1209600 3600
example. 3600 IN NS ns1.example.
b.a.0.e.example. 300 IN A 192.0.2.171
c.a.0.e.example. 300 IN A 192.0.2.172
host-01.example. 3600 IN A 192.0.2.10
host-02.example. 3600 IN A 192.0.2.11
host-03.example. 3600 IN A 192.0.2.12
ns1.example. 3600 IN A 192.0.2.1
ns1.example. 3600 IN TXT \"of ns1\"
ns1.example. 300 IN AAAA 2001:db8::1
web.example. 3600 IN A 192.0.2.80
alias.web.example. 300 IN CNAME www.web.example.
www.web.example. 3600 IN CNAME web.example.
== $INCLUDE main.zone
=>F49 TooManyIncludes at main.zone:1: files include one another too deep or too often
== @ 60 SOA n h 1 2 3 4 5
$INCLUDE ../secret
=>F48 BadFileName at main.zone:2: the file name isn't one below the directory
== @ 60 SOA n h 1 2 3 4 5
$INCLUDE missing.db
=>main.zone:2: missing.db: can't be read
== @ 60 SOA n h 1 2 3 4 5
$INCLUDE parts/bad.db
$INCLUDE missing.db
~~parts/bad.db
a A 192.0.2.1

b A 192.0.2.256
c A 192.0.2.3
=>F9 BadRdata at parts/bad.db:3: the data doesn't fit its type
== @ 60 SOA n h 1 2 3 4 5
$INCLUDE (
 a
)
$INCLUDE b c d
~~a
a A 192.0.2.1
=>F47 BadInclude at main.zone:5: $INCLUDE needs a file name and at most an origin
== @ 60 SOA n h 1 2 3 4 5
$INCLUDE a
@ RRSIG A 8 1 60 20260101000000 20250101000000 1 @ !!!!
~~a
a A 192.0.2.1
=>F9 BadRdata at main.zone:3: RRSIG, signature: not base64
== @ 60 SOA n h 1 2 3 4 5
$INCLUDE a
~~a

$GENERATE 1-2 h${1}-$ A 192.0.2.1
=>F53 BadTemplate at a:2 value 1: the template says nothing for this value
== @ 60 SOA n h 1 2 3 4 5
$GENERATE 254-256 h$ A 192.0.2.$
=>F9 BadRdata at main.zone:2 value 256: the data doesn't fit its type
== @ 60 SOA n h 1 2 3 4 5
$INCLUDE a
~~a
a TXT \"b
=>F14 UnclosedQuote at a:1: a quoted string isn't closed
";

#[test]
fn zones_of_files_with_those_that_they_include(rt: HostRuntime) -> Result<(), Fail> {
    check_table::<Loaded>(rt.alloc(), ZONES)
}
