//! The zone of a main file and the files that it includes.
ghost use Rattle.std.specs.Prelude.{◌≡◌, ◌≤◌, ℕ, List, Option, length, option_map, IfErr, IfOk, OnOk};
ghost use Rattle.zone_name.specs.Common.{Labels};
ghost use Rattle.zone_print.specs.Canonical.{canon, text_limit};
ghost use Rattle.zone_files.specs.ExpandedLoader.{FilesDenote};
ghost use Rattle.zone_files.specs.Expansion.{Files, Holds, at_first};
ghost use Rattle.zone_files.specs.FilesStopped.{HasEndedAlone, StopsLoading};
ghost use Rattle.zone_files.specs.IncludeStack.{FedFiles, StandsForFiles};
ghost use Rattle.zone_files.specs.Loading.Fed.{StandsForPresentation};
ghost use Rattle.zone_files.specs.Machine.OpenReading.{AreZone, IsRefusedAs, LoadsFiles, StandsForRead, StopsLoads};
ghost use Rattle.zone_files.specs.Machine.StepsLeft.{IsAligned};
ghost use Rattle.zone_files.specs.Reading.{OpenedFile, ReadsFiles};

use crate::files::files_reader::{FilesReader, ReadingStop, read_on};
use crate::files::included_files::IncludedFiles;
use crate::files::stop::FilesStop;
use crate::loading::PresentationLoader;
use crate::stack::{ExpandedLoader, ExpandedRefusal, IncludeStack};
use std::alloc::Global;
use zone_engine::OctetReader;
use zone_name::CasedName;
use zone_rdata::{Fault, Place, Stop};
use zone_set::Zone;

/// The zone that a main file and the files that it includes denote (RFC 1035 5.1), with records of
/// all types in presentation format, and the places of the lines of the expanded text.
///
/// `name` is the name under which the main file was opened, and `origin` its origin, whose letters
/// names in data keep. The files are those under a directory (`included_file_name`). Each is read in
/// pieces of 65,536 octets, in the order of the `$INCLUDE`s; 10,000 are opened at most.
///
/// # Errors
///
/// Why the files give no zone: [`FilesStop`].
pub fn load_files<S: IncludedFiles>(
    alloc: Global,
    directory: Option<&str>,
    name: &str,
    origin: &CasedName,
    main: S::File,
    files: &mut S,
) -> Result<(Zone, IncludeStack), FilesStop>
    ensures zone { IfOk result (λ loaded. (octets : List ℕ) × (tree : Files)
        × ReadsFiles S.opens S.File.state main files.old files.new octets tree
        × FilesDenote (option_map (λ folder. folder.now) directory.entry) name.now origin.now
        octets tree loaded.0) }
    ensures short { IfOk result (λ loaded. length (canon loaded.0) ≤ text_limit) }
    ensures stopped { IfErr result (StopsLoading S.opens S.File.state main
        (option_map (λ folder. folder.now) directory.entry) name.now origin.now files.old files.new) }
{
    let Ok(mut reader) = FilesReader::new(alloc, directory, name, origin, main) else {
        return Err(FilesStop::Input(Stop::Memory));
    };
    let mut loader = PresentationLoader::new(alloc, origin);
    match read_all(&mut reader, files, &mut loader) {
        Ok(()) => judged(reader, loader),
        Err(ReadingStop::Unread) => Err(unread(reader, loader)),
        Err(ReadingStop::TooLong) => Err(FilesStop::Input(Stop::Refused(
            Fault::InputTooLong,
            Place::Whole,
        ))),
        Err(ReadingStop::Memory) => Err(FilesStop::Input(Stop::Memory)),
    }
}

/// Reads the files until their text has ended, and loads it.
fn read_all<S: IncludedFiles>(
    reader: &mut FilesReader<S::File>,
    files: &mut S,
    loader: &mut PresentationLoader,
) -> Result<(), ReadingStop>
    requires { IsAligned reader.old }
    ensures loads { OnOk result ((main : S.File) (first : Holds) (start : S) (origin : Labels)
        → LoadsFiles S.opens S.File.state main first start origin reader.old files.old loader.old
        → LoadsFiles S.opens S.File.state main first start origin reader.new files.new loader.new) }
    ensures ended { OnOk result (HasEndedAlone reader.new.stack) }
    ensures stops { IfErr result (λ stop. (main : S.File) (first : Holds) (start : S) (origin : Labels)
        → LoadsFiles S.opens S.File.state main first start origin reader.old files.old loader.old
        → StopsLoads S.opens S.File.state main first start origin reader.new files.new loader.new
        stop) }
{
    'files: while !reader.has_ended() {
        match read_on(reader, files) {
            Ok(()) => {}
            Err(stop) => return Err(stop),
        }
        let Ok(()) = loader.feed(&reader.text) else {
            return Err(ReadingStop::Memory);
        };
    }
    Ok(())
}

/// The zone of files whose text has ended, of which this is the loader.
fn judged<R: OctetReader + Drop>(
    reader: FilesReader<R>,
    loader: PresentationLoader,
) -> Result<(Zone, IncludeStack), FilesStop>
    ensures zone { IfOk result (λ loaded. (main : R) (directory : Option (List ℕ)) (name : List ℕ)
        (origin : Labels) (opened : List (OpenedFile R)) (text : List ℕ)
        → StandsForRead R.state main (at_first directory name origin) reader opened text
        → StandsForPresentation origin loader text
        → AreZone R.state main opened directory name origin loaded.0) }
    ensures short { IfOk result (λ loaded. length (canon loaded.0) ≤ text_limit) }
    ensures refused { IfErr result (λ stop. (first : Holds) (origin : Labels) (fed : FedFiles)
        (text : List ℕ) → StandsForFiles reader.stack first fed text
        → StandsForPresentation origin loader text
        → IsRefusedAs reader.stack origin text stop) }
{
    let is_whole = reader.has_read_all();
    let FilesReader { alloc, stack, .. } = reader;
    let (loaded, stack) = ExpandedLoader::of_parts(alloc, stack, loader).load();
    match loaded {
        Ok(zone) => {
            if is_whole {
                Ok((zone, stack))
            } else {
                Err(FilesStop::Files(ExpandedRefusal::Unread, stack))
            }
        }
        Err(refusal) => Err(FilesStop::Files(refusal, stack)),
    }
}

/// Why files give no zone of which one can't be opened or read.
fn unread<R: OctetReader + Drop>(reader: FilesReader<R>, loader: PresentationLoader) -> FilesStop
    ensures { (first : Holds) (origin : Labels) (fed : FedFiles) (text : List ℕ)
        → StandsForFiles reader.stack first fed text
        → StandsForPresentation origin loader text
        → IsRefusedAs reader.stack origin text result }
{
    let FilesReader { alloc, stack, .. } = reader;
    let (loaded, stack) = ExpandedLoader::of_parts(alloc, stack, loader).load();
    match loaded {
        Ok(_zone) => FilesStop::Files(ExpandedRefusal::Unread, stack),
        Err(refusal) => FilesStop::Files(refusal, stack),
    }
}
