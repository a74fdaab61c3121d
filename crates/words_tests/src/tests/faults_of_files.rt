//! Every fault of a main file and of the files that it includes.
use std::alloc::Global;
use std::test::Fail;
use test_support::{Question, Supply, check_table, push_text, push_words};
use zone_faults::{CheckEnd, FoundFault, check_files, write_found_fault};
use zone_files::IncludedFiles;
use zone_name::CasedName;
use zone_print::OctetVec;

/// The text of a file: the first one is that of the main file, and `~~NAME` and a line feed stand
/// before each other one.
fn text_of(asked: &'static str, name: &str) -> Option<&'static [u8]> {
    let mut texts = asked.split("~~");
    let main = texts.next()?;
    if name == "main.zone" {
        return Some(main.as_bytes());
    }
    texts
        .filter_map(|text| text.split_once("\n"))
        .find(|(other, _)| *other == name)
        .map(|(_, text)| text.as_bytes())
}

/// The files of a row.
#[derive(Drop)]
struct Texts {
    asked: &'static str,
}

impl IncludedFiles for Texts {
    type File = Supply<'static>;

    ghost use Rattle.std.specs.Prelude.{⊤};

    ghost opens = { λ old name file new. ⊤ };

    fn open_included(&mut self, name: &str) -> Option<Supply<'static>> {
        match text_of(self.asked, name) {
            Some(text) => Some(Supply::singly(text, None)),
            None => None,
        }
    }
}

/// The lines of the faults, and why there is no further one.
struct Faults;

impl Question for Faults {
    fn answer(alloc: Global, asked: &'static str, out: &mut Vec<u8>) -> Result<(), Fail> {
        let origin = CasedName::from_text(b"example.", None)?;
        let main = Supply::singly(text_of(asked, "main.zone").unwrap_or(b""), None);
        let mut files = Texts { asked };
        let checked = check_files(alloc, None, "main.zone", &origin, main, &mut files, 5)?;
        for found in &checked.faults {
            push_fault(alloc, out, found)?;
        }
        match &checked.end {
            CheckEnd::Accepted(count) => push_words(
                alloc,
                out,
                format_args!("records: {}\n", count),
            ),
            CheckEnd::Enough => push_text(out, "enough\n"),
            CheckEnd::Last => push_text(out, "last\n"),
            CheckEnd::Unread(stack) => {
                push_text(out, stack.wanted().unwrap_or(""))?;
                push_text(out, " can't be read\n")
            }
        }
    }
}

/// Appends the line of a fault.
fn push_fault(alloc: Global, out: &mut Vec<u8>, found: &FoundFault) -> Result<(), Fail> {
    let mut writer = OctetVec::new(alloc);
    write_found_fault(&mut writer, found)?;
    Ok(out.extend_from_slice(&writer.finish()?)?)
}

/// The lines at fault are those of `named-checkzone`, where it reports them.
const FAULTS: &str = "\
== @ 60 SOA n h 1 2 3 4 5
a A 192.0.2.1
=>records: 2
== @ 60 SOA n h 1 2 3 4 5
a A 192.0.2.256
  A 192.0.2.1
b MX x y
  A 192.0.2.2
=>main.zone:2: F9 BadRdata: the data doesn't fit its type
main.zone:4: F13 BadNumber: a number is malformed or out of range
records: 3
== @ 60 SOA n h 1 2 3 4 5
$INCLUDE a
b A 1
~~a
a A (
 2 )

$ORIGIN
c A 3
$TTL x
=>a:1: F9 BadRdata: the data doesn't fit its type
a:4: F18 BadDirective: the directive needs one plain item
a:5: F9 BadRdata: the data doesn't fit its type
a:6: F21 BadTtl: the TTL is malformed or out of range
main.zone:3: F9 BadRdata: the data doesn't fit its type
enough
== @ 60 SOA n h 1 2 3 4 5
$GENERATE 254-300 h$ A 192.0.2.$
$GENERATE 1-2 h${1}-$ A 192.0.2.1
$GENERATE 1 h A 192.0.2.1
$INCLUDE ../a
x TYPE0 \\# 0
=>main.zone:2 value 256: F9 BadRdata: the data doesn't fit its type
main.zone:3 value 1: F53 BadTemplate: the template says nothing for this value
main.zone:4: F51 BadRange: the range isn't START-STOP or START-STOP/STEP
main.zone:5: F48 BadFileName: the file name isn't one below the directory
main.zone:6: F8 MetaType: the type can't hold zone data
enough
== @ 60 SOA n h 1 2 3 4 5
a A 1
b TXT \"
c A 1
=>main.zone:2: F9 BadRdata: the data doesn't fit its type
main.zone:3: F14 UnclosedQuote: a quoted string isn't closed
last
== a 60 A 192.0.2.1
b A 1
=>main.zone:2: F9 BadRdata: the data doesn't fit its type
F42 NoSoa in the input: the zone has no SOA record
last
== @ 60 SOA n h 1 2 3 4 5
a A 1
$INCLUDE missing
b A 1
=>main.zone:2: F9 BadRdata: the data doesn't fit its type
missing can't be read
== @ 60 SOA n h 1 2 3 4 5
a 60 A 192.0.2.1
  70 A 192.0.2.2
@ 60 SOA n h 2 2 3 4 5
  CH A 1
  RRSIG A 8 1 60 20260101000000 20250101000000 1 @ !!!!
=>main.zone:3: F41 DifferingTtl: the TTL differs from that of its record set
main.zone:4: F40 MultipleSoa: the zone has two SOA records
main.zone:5: F10 BadGeneric: the generic data is malformed
main.zone:6: F9 BadRdata: RRSIG, signature: not base64
records: 2
";

#[test]
fn faults_of_files_with_those_that_they_include(rt: HostRuntime) -> Result<(), Fail> {
    check_table::<Faults>(rt.alloc(), FAULTS)
}
