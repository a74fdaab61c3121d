//! What a run of an order reads, writes and returns.
ghost use Rattle.std.specs.Prelude.{◌≡◌, ◌≤◌, ℕ, List, [], IfErr, OnOk, length, option_map, string_bytes};
ghost use Rattle.zone_print.specs.Canonical.{canon};
ghost use Rattle.zone_print.specs.Device.{IsLeft, WorksOn};
ghost use Rattle.command_input.specs.Answering.{Answers, outputs};
ghost use Rattle.zone_engine.specs.Telling.{records_line};
ghost use Rattle.zonefile_command.specs.Inputs.{folder};
ghost use Rattle.zonefile_command.specs.Run.{AppendsText, Compares, Explains, Normalises, Runs, StopsText};
ghost use Rattle.zonefile_command.specs.Told.{IsStopLine, files_status};

use crate::checking::check;
use crate::differing::show_difference;
use crate::expanding::expand;
use crate::files::ZoneFiles;
use crate::input::{zone_of, zones_of};
use crate::notation::Notation;
use crate::order::{Action, FileSource, Order};
use crate::presenting::write_presented;
use crate::telling::{status_of, tell_stop, tell_stop_of, write_stop};
use command_input::{answer_line, answer_verdict, report, status};
use itoa::Buffer;
use std::alloc::Global;
use zone_engine::first_difference;
use zone_files::FilesStop;
use zone_print::{OctetWriter, write_zone};
use zone_rdata::Stop;
use zone_set::Zone;

/// The whole program over files, a writer and an error writer. It returns the exit status: 0 if the
/// text was written, the zone was accepted or nothing differs; 1 if two zones differ; 3 if an input
/// is refused; 4 if reading, writing or memory failed. With 3 and 4 a line on the error writer says why,
/// with the place in the file; `explain` and `check` write it to the writer with 3. If `expand` has 3
/// or 4, what it wrote ends with a line `$STOPPED`, as far as the writer took it. No writer is flushed,
/// and one that failed isn't called again.
pub fn run<S: ZoneFiles, W: OctetWriter, E: OctetWriter>(
    alloc: Global,
    order: &Order,
    files: &mut S,
    output: &mut W,
    errors: &mut E,
) -> u8
    ensures { Runs (folder S.opens_main S.opens S.File.state)
        order.now files.old files.new
        (outputs (W.state output.old) (W.state output.new) (E.state errors.old) (E.state errors.new)) result }
{
    let directory = folder_of(order);
    match &order.action {
        Action::Normalise(source, notation) => {
            normalise(alloc, directory, source, *notation, files, output, errors)
        }
        Action::Explain(source) => explain(alloc, directory, source, files, output, errors),
        Action::Compare(first, second) => {
            compare(alloc, directory, first, second, files, output, errors)
        }
        Action::Difference(first, second, form) => {
            show_difference(
                alloc, directory, first, second, *form, files, output, errors,
            )
        }
        Action::Check(origin, path, most) => {
            let asked = (origin, path.as_str(), *most);
            check(alloc, directory, asked, files, output, errors)
        }
        Action::Expand(origin, path) => {
            let path = path.as_str();
            expand(alloc, directory, origin, path, files, output, errors)
        }
    }
}

/// The directory of an order.
fn folder_of(order: &Order) -> Option<&str>
    ensures { option_map (λ folder. folder.now) result ≡ option_map string_bytes order.now.directory }
{
    match &order.directory {
        Some(directory) => Some(directory.as_str()),
        None => None,
    }
}

/// Writes the text of the zone.
#[tactic(auto, using(crate::proofs::Running::normalises, crate::proofs::Running::does_not_write, crate::proofs::Running::gives_none))]
fn normalise<S: ZoneFiles, W: OctetWriter, E: OctetWriter>(
    alloc: Global,
    directory: Option<&str>,
    source: &FileSource,
    notation: Notation,
    files: &mut S,
    output: &mut W,
    errors: &mut E,
) -> u8
    ensures { Normalises (folder S.opens_main S.opens S.File.state)
        (option_map (λ folder. folder.now) directory.entry)
        source.now notation files.old files.new
        (outputs (W.state output.old) (W.state output.new) (E.state errors.old) (E.state errors.new)) result }
{
    match zone_of(alloc, directory, source, files) {
        Ok(zone) => match write_text(alloc, &zone, notation, output) {
            Ok(()) => status::SUCCESS,
            Err(stop) => report("", &stop, errors),
        },
        Err(stop) => tell_stop(errors, "", source.file.as_str(), &stop),
    }
}

/// Writes the canonical text of a zone, or the same for people.
fn write_text<W: OctetWriter>(
    alloc: Global,
    zone: &Zone,
    notation: Notation,
    output: &mut W,
) -> Result<(), Stop>
    ensures text { OnOk result
        (AppendsText notation zone.now (W.state output.old) (W.state output.new)) }
    ensures works { OnOk result (WorksOn (W.state output.old) (W.state output.new)) }
    ensures stopped { IfErr result
        (StopsText notation zone.now (W.state output.old) (W.state output.new)) }
{
    match notation {
        Notation::Generic => write_zone(alloc, zone, output),
        Notation::Presentation => write_presented(alloc, zone, output),
    }
}

/// Reports how many records the zone has, or why the input is refused.
fn explain<S: ZoneFiles, W: OctetWriter, E: OctetWriter>(
    alloc: Global,
    directory: Option<&str>,
    source: &FileSource,
    files: &mut S,
    output: &mut W,
    errors: &mut E,
) -> u8
    ensures { Explains (folder S.opens_main S.opens S.File.state)
        (option_map (λ folder. folder.now) directory.entry)
        source.now files.old files.new
        (outputs (W.state output.old) (W.state output.new) (E.state errors.old) (E.state errors.new)) result }
{
    match zone_of(alloc, directory, source, files) {
        Ok(zone) => tell_count(zone.len(), output, errors),
        Err(stop) => {
            if status_of(&stop) == status::REFUSED {
                tell_refused(source.file.as_str(), &stop, output, errors)
            } else {
                tell_stop(errors, "", source.file.as_str(), &stop)
            }
        }
    }
}

/// Writes how many records a zone has, and returns the status.
pub(crate) fn tell_count<W: OctetWriter, E: OctetWriter>(
    count: u64,
    output: &mut W,
    errors: &mut E,
) -> u8
    ensures { Answers (records_line count) 0
        (outputs (W.state output.old) (W.state output.new) (E.state errors.old) (E.state errors.new)) result }
{
    let mut digits = Buffer::new();
    let line = digits.format(count);
    answer_line("accepted, records: ", line, status::SUCCESS, output, errors)
}

/// Writes why an input is refused, and returns the status.
fn tell_refused<W: OctetWriter, E: OctetWriter>(
    path: &str,
    stop: &FilesStop,
    output: &mut W,
    errors: &mut E,
) -> u8
    ensures { (line : List ℕ) × IsStopLine [] path.now stop.now line × Answers line 3
        (outputs (W.state output.old) (W.state output.new) (E.state errors.old) (E.state errors.new)) result }
{
    match write_stop(output, "", path, stop) {
        Ok(()) => status::REFUSED,
        Err(stop) => report("", &stop, errors),
    }
}

/// Reports whether two inputs denote one zone.
fn compare<S: ZoneFiles, W: OctetWriter, E: OctetWriter>(
    alloc: Global,
    directory: Option<&str>,
    first: &FileSource,
    second: &FileSource,
    files: &mut S,
    output: &mut W,
    errors: &mut E,
) -> u8
    ensures { Compares (folder S.opens_main S.opens S.File.state)
        (option_map (λ folder. folder.now) directory.entry)
        first.now second.now files.old files.new
        (outputs (W.state output.old) (W.state output.new) (E.state errors.old) (E.state errors.new)) result }
{
    match zones_of(alloc, directory, first, second, files) {
        Ok((zone, other)) => answer_verdict(first_difference(&zone, &other), output, errors),
        Err((which, stop)) => tell_stop_of(errors, which, first, second, &stop),
    }
}
