//! A master file with the files that it includes, of which the caller gives a table.
ghost use Rattle.std.specs.Prelude.{◌≡◌, ◌⊎◌, ◌∷◌, ◌++◌, ◌<◌, ◌≤◌, ℕ, List, [], None, IfErr, IfOk, IfSome, OnOk, length, option_map};
ghost use Rattle.zone_name.specs.Spelling.{SpellsCased};
ghost use Rattle.zone_print.specs.Canonical.{canon, text_limit};
ghost use Rattle.zone_print.specs.OctetVec.{written};
ghost use Rattle.zone_files.specs.ExpansionFault.{expansion_row};
ghost use Rattle.zone_files.specs.FaultLine.{expansion_line};
ghost use Rattle.zonenorm_c.specs.Answering.{IsHalt};
ghost use Rattle.zonenorm_c.specs.Files.{DenotesFiles, IsAt, IsDirectory, ReportsAt, ReportsFault, ReportsFilesStop, ReportsInput, ReportsText, ReportsWanted};
ghost use Rattle.zonenorm_c.specs.Giving.{IsUnread};

use crate::answer::{Answer, NO_MEMORY, REFUSED, WANTS_FILE, plain};
use crate::file_table::FileTable;
use crate::given::{Given, Unread, cased_origin_in, limit_in};
use crate::reply::{Reply, without_text};
use crate::zone::Halt;
use std::alloc::{AllocError, Global};
use zone_engine::OctetSlice;
use zone_files::{
    EntryPlace, ExpandedRefusal, ExpansionFault, FaultPlace, FilesStop, IncludeStack,
    PresentationRefusal, load_files, write_data_fault, write_expansion_fault, write_fault,
};
use zone_name::CasedName;
use zone_print::OctetVec;
use zone_rdata::{Fault, Place, Stop};
use zone_set::Zone;
use zone_words::Refusal;

/// The name of the main file, which is given without one: that of standard input.
pub(crate) const MAIN_NAME: &str = "-";

/// What files are read with.
#[derive(Drop)]
pub(crate) struct FilesInput<'a> {
    pub(crate) origin: CasedName,
    pub(crate) directory: Option<&'a str>,
}

/// What files are read with that a caller gives.
///
/// # Errors
///
/// Why they aren't read.
pub(crate) fn files_input<'a>(given: &Given<'a>) -> Result<FilesInput<'a>, Unread>
    requires { 2 < given.now.kind }
    ensures origin { IfOk result (λ input. SpellsCased None given.now.origin.now input.origin) }
    ensures directory { IfOk result (λ input. IsDirectory given.now.directory.now
        (option_map (λ directory. directory.now) input.directory)) }
    ensures unread { IfErr result (IsUnread given.now) }
{
    if given.octets.len() as u64 > limit_in(given.limit) {
        return Err(Unread::TooLong);
    }
    if given.names.len() != given.files.len() {
        return Err(Unread::Unsupported);
    }
    let Some(directory) = directory_in(given.directory) else {
        return Err(Unread::Unsupported);
    };
    let origin = cased_origin_in(given.origin)?;
    Ok(FilesInput { origin, directory })
}

/// The directory of included files, or none. `None`: it isn't UTF-8.
fn directory_in(text: &[u8]) -> Option<Option<&str>>
    ensures { IfSome result (λ directory. IsDirectory text.now
        (option_map (λ directory. directory.now) directory)) }
{
    if text.is_empty() {
        return Some(None);
    }
    match str::from_utf8(text) {
        Ok(directory) => Some(Some(directory)),
        Err(_) => None,
    }
}

/// The zone of files.
///
/// # Errors
///
/// Why there is none.
pub(crate) fn zone_of_files(alloc: Global, given: &Given<'_>) -> Result<Zone, Halt>
    requires { given.now.kind ≡ 3 }
    ensures zone { IfOk result (DenotesFiles given.now) }
    ensures short { IfOk result (λ z. length (canon z) ≤ text_limit) }
    ensures halt { IfErr result (IsHalt given.now) }
{
    let input = match files_input(given) {
        Ok(input) => input,
        Err(why) => return Err(Halt::Unread(why)),
    };
    let mut table = FileTable {
        names: given.names,
        files: given.files,
    };
    let main = OctetSlice { rest: given.octets };
    match load_files(
        alloc,
        input.directory,
        MAIN_NAME,
        &input.origin,
        main,
        &mut table,
    ) {
        Ok((zone, _stack)) => Ok(zone),
        Err(stop) => Err(Halt::Files(files_reply(alloc, given.names, &stop))),
    }
}

/// What is reported of files that give no zone or no whole text.
pub(crate) fn files_reply(alloc: Global, names: &[&[u8]], stop: &FilesStop) -> Reply
    ensures { ReportsFilesStop stop.now result.text.items result.answer }
{
    match stop {
        FilesStop::Files(ExpandedRefusal::Expansion(fault), stack) => {
            expansion_reply(alloc, names, *fault, place_or_input(stack.last_place()))
        }
        FilesStop::Files(ExpandedRefusal::Unread, stack) => wanted_reply(alloc, stack.wanted()),
        FilesStop::Files(ExpandedRefusal::Text(refusal), stack) => {
            text_reply(alloc, names, refusal, stack)
        }
        FilesStop::Input(stop) => input_reply(alloc, stop),
    }
}

/// The reply on an input that stopped the call as a whole.
fn input_reply(alloc: Global, stop: &Stop) -> Reply
    ensures { ReportsInput stop.now result.text.items result.answer }
{
    let Stop::Refused(fault, _) = stop else {
        return without_text(alloc, plain(NO_MEMORY));
    };
    fault_reply(alloc, &[], fault, &None, FaultPlace::Input)
}

/// The reply on a file that is wanted: its name.
fn wanted_reply(alloc: Global, wanted: Option<&str>) -> Reply
    ensures { ReportsWanted (option_map (λ name. name.now) wanted.entry) result.text.items
        result.answer }
{
    let Some(name) = wanted else {
        return without_text(alloc, plain(NO_MEMORY));
    };
    match line_of(alloc, name.as_bytes()) {
        Ok(text) => Reply {
            text,
            answer: plain(WANTS_FILE),
        },
        Err(_) => without_text(alloc, plain(NO_MEMORY)),
    }
}

/// Octets and a line feed.
fn line_of(alloc: Global, octets: &[u8]) -> Result<Vec<u8>, AllocError>
    ensures { IfOk result (λ text. text.items ≡ octets.now ++ 10 ∷ []) }
{
    let mut text = Vec::new(alloc);
    text.extend_from_slice(octets)?;
    text.push(b'\n')?;
    Ok(text)
}

/// The reply on an expanded text that is refused.
fn text_reply(
    alloc: Global,
    names: &[&[u8]],
    refusal: &PresentationRefusal,
    stack: &IncludeStack,
) -> Reply
    ensures { ReportsText refusal.now.stop refusal.now.entry result.text.items result.answer }
{
    let Stop::Refused(fault, place) = &refusal.stop else {
        return without_text(alloc, plain(NO_MEMORY));
    };
    fault_reply(
        alloc,
        names,
        fault,
        &refusal.entry,
        place_in_files(*place, stack),
    )
}

/// The reply on a fault of the text, or of the entry whose items state no data of its further type.
fn fault_reply(
    alloc: Global,
    names: &[&[u8]],
    fault: &Fault,
    entry: &Option<Refusal>,
    place: FaultPlace<'_>,
) -> Reply
    ensures { ReportsFault fault.now entry.now result.text.items result.answer }
{
    let mut writer = OctetVec::new(alloc);
    match entry {
        Some(entry) => {
            let told = write_data_fault(&mut writer, "", entry, place);
            let answer = refused_at(names, Fault::BadRdata.number(), place);
            reply_with(alloc, writer, told, answer)
        }
        None => {
            let told = write_fault(&mut writer, "", fault, place);
            reply_with(
                alloc,
                writer,
                told,
                refused_at(names, fault.number(), place),
            )
        }
    }
}

/// The reply on an entry that can't be expanded.
fn expansion_reply(
    alloc: Global,
    names: &[&[u8]],
    fault: ExpansionFault,
    place: FaultPlace<'_>,
) -> Reply
    ensures { ReportsAt (expansion_row fault).number (expansion_line fault) result.text.items
        result.answer }
{
    let mut writer = OctetVec::new(alloc);
    let told = write_expansion_fault(&mut writer, "", fault, place);
    reply_with(
        alloc,
        writer,
        told,
        refused_at(names, fault.number(), place),
    )
}

/// An answer, and the line that was written without its line feed, or no text if there was no memory.
fn reply_with(alloc: Global, writer: OctetVec, told: Result<(), Stop>, answer: Answer) -> Reply
    ensures text { (line : List ℕ) → OnOk told (written writer ≡ line ++ 10 ∷ [])
        → (result.text.items ≡ line) ⊎ (result.text.items ≡ []) }
    ensures answer { result.answer ≡ answer }
{
    let Ok(()) = told else {
        return without_text(alloc, answer);
    };
    match writer.finish() {
        Ok(mut text) => {
            text.pop();
            Reply { text, answer }
        }
        Err(_) => without_text(alloc, answer),
    }
}

/// The answer on a fault of this number at this place.
fn refused_at(names: &[&[u8]], number: u8, place: FaultPlace<'_>) -> Answer
    ensures status { result.status ≡ 3 }
    ensures fault { result.fault ≡ number }
    ensures at { IsAt place.entry result }
{
    let mut answer = plain(REFUSED);
    answer.fault = u32::from(number);
    if let FaultPlace::Entry(entry) = place {
        answer.place = 1;
        answer.line = entry.line;
        answer.file = file_number(names, entry.name.as_bytes());
        answer.value = entry.value.unwrap_or(0);
    }
    answer
}

/// The number of the file of this name, from 1, or 0 for the main file.
fn file_number(names: &[&[u8]], name: &[u8]) -> u32 {
    if name == MAIN_NAME.as_bytes() {
        return 0;
    }
    match names.iter().position(|other| *other == name) {
        Some(index) => u32::try_from(index + 1).unwrap_or(0),
        None => 0,
    }
}

/// Where a fault of the expanded text is in the files.
fn place_in_files(place: Place, stack: &IncludeStack) -> FaultPlace<'_> {
    match place {
        Place::Line(line) => place_or_input(stack.place_of(line)),
        Place::Message(_, _) | Place::Whole => FaultPlace::Input,
    }
}

/// The place of an entry, if it is known.
fn place_or_input<'n>(place: Option<EntryPlace<'n>>) -> FaultPlace<'n> {
    match place {
        Some(place) => FaultPlace::Entry(place),
        None => FaultPlace::Input,
    }
}
