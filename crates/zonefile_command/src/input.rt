//! The zones of inputs.
ghost use Rattle.std.specs.Prelude.{◌≤◌, IfErr, IfOk, IfSome, length, option_map};
ghost use Rattle.zone_engine.specs.Input.{InputDenotes, transfer};
ghost use Rattle.zone_print.specs.Canonical.{canon, text_limit};
ghost use Rattle.zone_files.specs.FilesStopped.{StopsLoading};
ghost use Rattle.zonefile_command.specs.Inputs.{FilesGive, GiveZones, GivesNone, GivesNoneOfTwo, GivesZone, StopsTransfer, folder};

use crate::files::ZoneFiles;
use crate::order::FileSource;
use std::alloc::Global;
use zone_engine::{Form, OctetReader, Which, accepted_zone};
use zone_files::{FilesStop, load_files};
use zone_name::CasedName;
use zone_rdata::Stop;
use zone_set::Zone;

/// The zone of an input.
///
/// # Errors
///
/// `Files` if the files are refused, or one that is included can't be opened or read; `Input` if the file
/// of the command line can't be opened, a transfer is refused or can't be read, or memory was refused.
pub(crate) fn zone_of<S: ZoneFiles>(
    alloc: Global,
    directory: Option<&str>,
    source: &FileSource,
    files: &mut S,
) -> Result<Zone, FilesStop>
    ensures zone { IfOk result (GivesZone (folder S.opens_main S.opens S.File.state)
        (option_map (λ folder. folder.now) directory.entry) source.now files.old files.new) }
    ensures short { IfOk result (λ z. length (canon z) ≤ text_limit) }
    ensures none { IfErr result (GivesNone (folder S.opens_main S.opens S.File.state)
        (option_map (λ folder. folder.now) directory.entry) source.now files.old files.new) }
{
    let path = source.file.as_str();
    let Some(main) = files.open_main(path) else {
        return Err(FilesStop::Input(Stop::Read));
    };
    match &source.origin {
        Some(origin) => zone_of_files(alloc, directory, path, origin, main, files),
        None => zone_of_transfer(alloc, main),
    }
}

/// The zone of a master file and the files that it includes.
fn zone_of_files<S: ZoneFiles>(
    alloc: Global,
    directory: Option<&str>,
    path: &str,
    origin: &CasedName,
    main: S::File,
    files: &mut S,
) -> Result<Zone, FilesStop>
    ensures zone { IfOk result (FilesGive (folder S.opens_main S.opens S.File.state)
        (option_map (λ folder. folder.now) directory.entry) path.now origin.now main
        files.old files.new) }
    ensures short { IfOk result (λ z. length (canon z) ≤ text_limit) }
    ensures none { IfErr result (StopsLoading S.opens S.File.state main
        (option_map (λ folder. folder.now) directory.entry) path.now origin.now files.old files.new) }
{
    match load_files(alloc, directory, path, origin, main, files) {
        Ok((zone, _stack)) => Ok(zone),
        Err(stop) => Err(stop),
    }
}

/// The zone of a transfer.
fn zone_of_transfer<R: OctetReader + Drop>(alloc: Global, mut reader: R) -> Result<Zone, FilesStop>
    ensures zone { IfOk result (λ z. IfSome (R.state reader).octets (λ octets.
        InputDenotes (transfer octets) z)) }
    ensures short { IfOk result (λ z. length (canon z) ≤ text_limit) }
    ensures none { IfErr result (StopsTransfer (R.state reader).octets) }
{
    match accepted_zone(alloc, Form::Transfer, &mut reader) {
        Ok(zone) => Ok(zone),
        Err(stop) => Err(FilesStop::Input(stop)),
    }
}

/// The zones of two inputs, one after the other.
///
/// # Errors
///
/// That of the first that gives none, and which it is.
#[tactic(auto, using(crate::specs::Inputs::no_first, crate::specs::Inputs::no_second))]
pub(crate) fn zones_of<S: ZoneFiles>(
    alloc: Global,
    directory: Option<&str>,
    first: &FileSource,
    second: &FileSource,
    files: &mut S,
) -> Result<(Zone, Zone), (Which, FilesStop)>
    ensures zones { IfOk result (λ zones. GiveZones (folder S.opens_main S.opens S.File.state)
        (option_map (λ folder. folder.now) directory.entry)
        first.now second.now files.old files.new zones.0 zones.1) }
    ensures short { IfOk result (λ zones. length (canon zones.0) ≤ text_limit) }
    ensures none { IfErr result (λ stopped. GivesNoneOfTwo (folder S.opens_main S.opens S.File.state)
        (option_map (λ folder. folder.now) directory.entry)
        first.now second.now files.old files.new stopped.0 stopped.1) }
{
    match zone_of(alloc, directory, first, files) {
        Ok(zone) => match zone_of(alloc, directory, second, files) {
            Ok(other) => Ok((zone, other)),
            Err(stop) => Err((Which::Second, stop)),
        },
        Err(stop) => Err((Which::First, stop)),
    }
}
