//! File names of `$INCLUDE` entries, faults of expansion, and where the lines of an expanded text
//! come from.
use std::alloc::{AllocError, Global};
use std::test::Fail;
use test_support::{Question, check_table, push_text, push_words};
use type_data::WordsFault;
use zone_files::{
    EntryPlace, ExpansionFailing, ExpansionFault, FaultPlace, FilePlace, Places,
    included_file_name, write_data_fault, write_expansion_fault, write_fault, write_unreadable,
    write_unreadable_main,
};
use zone_print::OctetVec;
use zone_rdata::{Fault, Stop};
use zone_words::Refusal;

/// The name under which a file is opened: of `FILE` where no directory is given, or of `DIR: FILE`.
struct Named;

impl Question for Named {
    fn answer(alloc: Global, asked: &'static str, out: &mut Vec<u8>) -> Result<(), Fail> {
        let asked = asked.trim_end();
        let named = match asked.split_once(": ") {
            Some((directory, file)) => {
                included_file_name(alloc, Some(directory), file.as_bytes())
            }
            None => included_file_name(alloc, None, asked.as_bytes()),
        };
        match named {
            Ok(name) => push_text(out, name.as_str())?,
            Err(ExpansionFailing::Fault(fault)) => {
                push_words(
                    alloc,
                    out,
                    format_args!("F{} {}", fault.number(), fault.name()),
                )?
            }
            Err(ExpansionFailing::Memory) => return Err(Fail::from("memory")),
        }
        push_text(out, "\n")
    }
}

/// File names, by the rule of what may be read.
const NAMES: &str = "\
== parts/web.db
=>parts/web.db
== ../secret
=>F48 BadFileName
== /etc/passwd
=>F48 BadFileName
== a/../b
=>F48 BadFileName
== a//b
=>F48 BadFileName
== a/
=>F48 BadFileName
== ./a
=>F48 BadFileName
== ...
=>...
== a\\b
=>F48 BadFileName
== zones: parts/web.db
=>zones/parts/web.db
== /srv/zones: web.db
=>/srv/zones/web.db
== /srv/zones: /srv/zones/web.db
=>/srv/zones/web.db
== /srv/zones: /srv/zones2/web.db
=>F48 BadFileName
== /srv/zones: /srv/zones/../web.db
=>F48 BadFileName
== /srv/zones: /srv/zones
=>F48 BadFileName
== zones: zones/web.db
=>zones/zones/web.db
";

#[test]
fn included_file_names(rt: HostRuntime) -> Result<(), Fail> {
    check_table::<Named>(rt.alloc(), NAMES)
}

/// The line on a fault.
struct Told;

/// The place of an entry.
fn at(name: &'static str, line: u64, value: Option<u64>) -> FaultPlace<'static> {
    FaultPlace::Entry(EntryPlace { name, line, value })
}

/// Writes the line that is asked for.
fn write_asked(writer: &mut OctetVec, asked: &str) -> Result<(), Stop> {
    match asked {
        "data" => write_fault(writer, "", &Fault::BadRdata, at("parts/bad.db", 3, None)),
        "data of a value" => {
            let place = at("refused-data.zone", 3, Some(256));
            write_fault(writer, "", &Fault::BadRdata, place)
        }
        "template" => {
            let place = at("refused-template.zone", 2, Some(1));
            write_expansion_fault(writer, "", ExpansionFault::BadTemplate, place)
        }
        "loop" => {
            let place = at("loop.zone", 1, None);
            write_expansion_fault(writer, "", ExpansionFault::TooManyIncludes, place)
        }
        "long" => {
            let fault = ExpansionFault::InputTooLong;
            write_expansion_fault(writer, "", fault, FaultPlace::Input)
        }
        "signature" => {
            let refusal = Refusal {
                line: 9,
                mnemonic: "RRSIG",
                field: "signature",
                fault: WordsFault::NoBase64,
            };
            write_data_fault(writer, "", &refusal, at("example.zone", 6, None))
        }
        "unreadable" => {
            let place = EntryPlace {
                name: "example.zone",
                line: 12,
                value: None,
            };
            write_unreadable(writer, place, "keys.db")
        }
        _ => write_unreadable_main(writer, "example.zone"),
    }
}

impl Question for Told {
    fn answer(alloc: Global, asked: &'static str, out: &mut Vec<u8>) -> Result<(), Fail> {
        let mut writer = OctetVec::new(alloc);
        if write_asked(&mut writer, asked.trim_end()).is_err() {
            return Err(Fail::from("memory"));
        }
        Ok(out.extend_from_slice(&writer.finish()?)?)
    }
}

/// Lines of faults and of what can't be read.
const LINES: &str = "\
== data
=>F9 BadRdata at parts/bad.db:3: the data doesn't fit its type
== data of a value
=>F9 BadRdata at refused-data.zone:3 value 256: the data doesn't fit its type
== template
=>F53 BadTemplate at refused-template.zone:2 value 1: the template says nothing for this value
== loop
=>F49 TooManyIncludes at loop.zone:1: files include one another too deep or too often
== long
=>F45 InputTooLong in the input: the input is too long
== signature
=>F9 BadRdata at example.zone:6: RRSIG, signature: not base64
== unreadable
=>example.zone:12: keys.db: can't be read
== main
=>example.zone: can't be read
";

#[test]
fn lines_of_faults_in_files(rt: HostRuntime) -> Result<(), Fail> {
    check_table::<Told>(rt.alloc(), LINES)
}

/// The place of a line of an expanded text of 20 lines, of 0 to 20.
struct Placed;

/// The place of the first line of a stretch.
fn first(file: usize, line: u64, value: Option<u64>) -> FilePlace {
    FilePlace { file, line, value }
}

/// The stretches of that text.
fn shown_places(alloc: Global) -> Result<Places, AllocError> {
    let mut places = Places::new(alloc);
    places.begin(first(0, 1, None), 0)?;
    places.advance(4);
    places.begin(first(0, 5, Some(10)), 1)?;
    places.advance(3);
    places.begin(first(0, 6, None), 0)?;
    places.advance(2);
    places.begin(first(1, 1, None), 0)?;
    places.advance(6);
    places.begin(first(0, 7, None), 0)?;
    places.advance(2);
    places.begin(first(0, 9, Some(171)), 1)?;
    places.advance(2);
    Ok(places)
}

/// The number that decimal digits write.
fn number(digits: &str) -> u64 {
    digits.bytes().fold(0u64, |n, c| {
        n.saturating_mul(10)
            .saturating_add(u64::from(c.saturating_sub(b'0')))
    })
}

impl Question for Placed {
    fn answer(alloc: Global, asked: &'static str, out: &mut Vec<u8>) -> Result<(), Fail> {
        let places = shown_places(alloc)?;
        if asked.trim_end() == "next" {
            return push_words(alloc, out, format_args!("{}\n", places.next_line()));
        }
        match places.place_of(number(asked.trim_end())) {
            None => push_text(out, "none\n"),
            Some(FilePlace { file, line, value }) => match value {
                None => push_words(alloc, out, format_args!("{file} {line}\n")),
                Some(value) => push_words(alloc, out, format_args!("{file} {line} {value}\n")),
            },
        }
    }
}

/// File, line and value of each line of that expanded text.
const PLACES: &str = "\
== 0
=>none
== 1
=>0 1
== 4
=>0 4
== 5
=>0 5 10
== 7
=>0 5 12
== 8
=>0 6
== 10
=>1 1
== 15
=>1 6
== 16
=>0 7
== 17
=>0 8
== 18
=>0 9 171
== 19
=>0 9 172
== next
=>20
";

#[test]
fn places_of_lines(rt: HostRuntime) -> Result<(), Fail> {
    check_table::<Placed>(rt.alloc(), PLACES)
}
