//! The expanded text of a main file and the files that it includes.
ghost use Rattle.std.specs.Prelude.{◌≡◌, ◌++◌, ◌∷◌, ◌⊎◌, [], ℕ, List, Option, option_map, true, false, IfErr, IfOk, OnOk};
ghost use Rattle.std.specs.Io.KnownBytes.{Appends};
ghost use Rattle.zone_print.specs.Device.{Fails};
ghost use Rattle.zone_name.specs.Common.{Labels};
ghost use Rattle.zone_files.specs.Expansion.{Ending, Files, Holds, IsExpanded, at_first};
ghost use Rattle.zone_files.specs.FilesStopped.{HasEndedAlone, IsStopLine, IsWhole, StopsExpanding, WritesWhole};
ghost use Rattle.zone_files.specs.IncludeStack.{FedFiles, StandsForFiles, main_file};
ghost use Rattle.zone_files.specs.Machine.OpenReading.{IsStopAs, StopsAs, StopsWrites, WritesFiles};
ghost use Rattle.zone_files.specs.Machine.StepsLeft.{IsAligned};
ghost use Rattle.zone_files.specs.Reading.{ReadsPart};

use crate::expansion::FileStatus;
use crate::fault::ExpansionFault;
use crate::files::files_reader::{FilesReader, ReadingStop, read_on};
use crate::files::included_files::IncludedFiles;
use crate::files::stop::FilesStop;
use crate::stack::{ExpandedRefusal, IncludeStack};
use std::alloc::Global;
use zone_name::CasedName;
use zone_print::{OctetWriter, write_octets};
use zone_rdata::{Fault, Place, Stop};

/// Writes the expanded text of a main file and the files that it includes (RFC 1035 5.1), as it comes.
///
/// The files are read as by [`load_files`](super::load_files). The places of the lines of the text are
/// returned.
///
/// # Errors
///
/// Why the text isn't whole: [`FilesStop`]. It ends with a line `$STOPPED` then, as far as the writer
/// takes it. A writer that failed isn't called again.
pub fn expand_files<S: IncludedFiles, W: OctetWriter>(
    alloc: Global,
    directory: Option<&str>,
    name: &str,
    origin: &CasedName,
    main: S::File,
    files: &mut S,
    output: &mut W,
) -> Result<IncludeStack, FilesStop>
    ensures expanded { OnOk result ((octets : List ℕ) × (tree : Files) × (text : List ℕ)
        × (ending : Ending)
        × ReadsPart S.opens S.File.state main files.old files.new octets tree
        × IsExpanded (option_map (λ folder. folder.now) directory.entry) name.now origin.now
        octets tree text ending
        × Appends (W.state output.old).octets (W.state output.new).octets text) }
    ensures whole { OnOk result (WritesWhole S.opens S.File.state main
        (option_map (λ folder. folder.now) directory.entry) name.now origin.now files.old files.new
        (W.state output.old).octets (W.state output.new).octets) }
    ensures stopped { IfErr result (StopsExpanding S.opens S.File.state main
        (option_map (λ folder. folder.now) directory.entry) name.now origin.now files.old files.new
        (W.state output.old) (W.state output.new)) }
{
    let Ok(mut reader) = FilesReader::new(alloc, directory, name, origin, main) else {
        return Err(FilesStop::Input(Stop::Memory));
    };
    let mut is_inside = false;
    match write_all(&mut reader, files, output, &mut is_inside) {
        Ok(()) => {
            let FilesReader { stack, .. } = reader;
            ended(stack)
        }
        Err(WritingStop::Reading(stop)) => {
            stop_text(output, is_inside);
            let FilesReader { stack, .. } = reader;
            Err(stop_of(stack, stop))
        }
        Err(WritingStop::Write) => Err(FilesStop::Input(Stop::Write)),
    }
}

/// Why no more of the text is written.
#[derive(Clone, Copy, Debug)]
enum WritingStop {
    /// The files are read no further.
    Reading(ReadingStop),
    /// The writer failed.
    Write,
}

/// Reads the files until their text has ended, and writes it. Where it stops before, `is_inside` says
/// whether what was written ends inside a line.
fn write_all<S: IncludedFiles, W: OctetWriter>(
    reader: &mut FilesReader<S::File>,
    files: &mut S,
    output: &mut W,
    is_inside: &mut bool,
) -> Result<(), WritingStop>
    requires { IsAligned reader.old }
    ensures written { OnOk result ((main : S.File) (first : Holds) (start : S)
        → WritesFiles S.opens S.File.state main first start (W.state output.old) reader.old files.old
        (W.state output.old)
        → WritesFiles S.opens S.File.state main first start (W.state output.old) reader.new files.new
        (W.state output.new)) }
    ensures ended { OnOk result (HasEndedAlone reader.new.stack) }
    ensures stops { IfErr result (λ stop. (main : S.File) (first : Holds) (start : S)
        → WritesFiles S.opens S.File.state main first start (W.state output.old) reader.old files.old
        (W.state output.old)
        → StopsWrites S.opens S.File.state main first start reader.new files.new
        (W.state output.old) (W.state output.new) stop) }
{
    'files: while !reader.has_ended() {
        match read_on(reader, files) {
            Ok(()) => {}
            Err(stop) => return Err(WritingStop::Reading(stop)),
        }
        match write_octets(output, &reader.text) {
            Ok(()) => {}
            Err(_) => return Err(WritingStop::Write),
        }
        *is_inside = ends_inside(&reader.text, *is_inside);
    }
    Ok(())
}

/// Whether a text ends inside a line after these octets.
fn ends_inside(text: &[u8], was_inside: bool) -> bool {
    match text.last() {
        Some(octet) => *octet != b'\n',
        None => was_inside,
    }
}

/// The last line of a text that isn't whole, behind the end of a line that was begun.
fn stop_line(is_inside: bool) -> &'static [u8]
    ensures { IsStopLine result.now }
{
    if is_inside {
        b"\n$STOPPED\n".as_slice()
    } else {
        b"$STOPPED\n".as_slice()
    }
}

/// Ends a text that isn't whole, as far as the writer takes it.
fn stop_text<W: OctetWriter>(output: &mut W, is_inside: bool)
    ensures { (front : List ℕ)
        × Appends (W.state output.old).octets (W.state output.new).octets front
        × (IsStopLine front ⊎ ((rest : List ℕ) × IsStopLine (front ++ rest)
        × Fails (W.state output.old) (W.state output.new))) }
{
    let _written = write_octets(output, stop_line(is_inside));
}

/// What is answered of a text that has ended and was written.
fn ended(stack: IncludeStack) -> Result<IncludeStack, FilesStop>
    ensures whole { OnOk result ((directory : Option (List ℕ)) (name : List ℕ) (origin : Labels)
        (fed : FedFiles) (text : List ℕ)
        → StandsForFiles stack (at_first directory name origin) fed text
        → (ending : Ending) × IsExpanded directory name origin (main_file fed).octets
        (main_file fed).files text ending × IsWhole ending) }
    ensures stopped { HasEndedAlone stack → IfErr result (StopsAs stack) }
{
    match stack.status() {
        FileStatus::Ended => {
            if stack.outer_files() == 0 {
                Ok(stack)
            } else {
                Err(FilesStop::Files(ExpandedRefusal::Unread, stack))
            }
        }
        FileStatus::BrokenOff => Ok(stack),
        FileStatus::Faulty(fault) => {
            Err(FilesStop::Files(ExpandedRefusal::Expansion(fault), stack))
        }
        FileStatus::FaultyAt(_) => {
            let refusal = ExpandedRefusal::Expansion(ExpansionFault::BadTemplate);
            Err(FilesStop::Files(refusal, stack))
        }
        FileStatus::Going => Err(FilesStop::Files(ExpandedRefusal::Unread, stack)),
        FileStatus::Including => Err(FilesStop::Files(ExpandedRefusal::Unread, stack)),
        FileStatus::Generating => Err(FilesStop::Files(ExpandedRefusal::Unread, stack)),
        FileStatus::Broken => Err(FilesStop::Files(ExpandedRefusal::Unread, stack)),
        FileStatus::Failed => Err(FilesStop::Files(ExpandedRefusal::Unread, stack)),
    }
}

/// What is answered where the files are read no further.
fn stop_of(stack: IncludeStack, stop: ReadingStop) -> FilesStop
    ensures { IsStopAs stack stop result }
{
    match stop {
        ReadingStop::Unread => FilesStop::Files(ExpandedRefusal::Unread, stack),
        ReadingStop::TooLong => FilesStop::Input(Stop::Refused(Fault::InputTooLong, Place::Whole)),
        ReadingStop::Memory => FilesStop::Input(Stop::Memory),
    }
}
