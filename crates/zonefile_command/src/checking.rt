//! Every fault of files, as it is reported.
ghost use Rattle.std.specs.Prelude.{◌≡◌, option_map};
ghost use Rattle.command_input.specs.Answering.{Answers, outputs};
ghost use Rattle.zonefile_command.specs.Checks.{Checks, TellsChecked, TellsEnd, faults_line, faults_words};
ghost use Rattle.zonefile_command.specs.Inputs.{folder};

use crate::files::ZoneFiles;
use crate::program::tell_count;
use crate::telling::tell_stop;
use command_input::{answer_line, report, status};
use itoa::Buffer;
use std::alloc::Global;
use zone_faults::{CheckEnd, Checked, check_files, write_found_faults};
use zone_files::{ExpandedRefusal, FilesStop};
use zone_name::CasedName;
use zone_print::OctetWriter;
use zone_rdata::Stop;

/// Writes every fault of the file at this path and those that it includes, at most so many, and returns
/// the status.
pub(crate) fn check<S: ZoneFiles, W: OctetWriter, E: OctetWriter>(
    alloc: Global,
    directory: Option<&str>,
    asked: (&CasedName, &str, u64),
    files: &mut S,
    output: &mut W,
    errors: &mut E,
) -> u8
    ensures { Checks (folder S.opens_main S.opens S.File.state)
        (option_map (λ folder. folder.now) directory.entry) asked.entry.0.now asked.entry.1.now asked.entry.2
        files.old files.new
        (outputs (W.state output.old) (W.state output.new) (E.state errors.old) (E.state errors.new))
        result }
{
    let (origin, path, most) = asked;
    match files.open_main(path) {
        Some(main) => match check_files(alloc, directory, path, origin, main, files, most) {
            Ok(checked) => tell_checked(path, checked, output, errors),
            Err(stop) => tell_stop(errors, "", path, &FilesStop::Input(stop)),
        },
        None => tell_stop(errors, "", path, &FilesStop::Input(Stop::Read)),
    }
}

/// Writes the faults, and how many they are.
fn tell_checked<W: OctetWriter, E: OctetWriter>(
    path: &str,
    checked: Checked,
    output: &mut W,
    errors: &mut E,
) -> u8
    ensures { TellsChecked checked.faults.items checked.end
        (outputs (W.state output.old) (W.state output.new) (E.state errors.old) (E.state errors.new))
        result }
{
    let Checked { faults, end } = checked;
    match write_found_faults(output, &faults) {
        Ok(()) => tell_end(path, faults.len() as u64, end, output, errors),
        Err(stop) => report("", &stop, errors),
    }
}

/// Writes how many faults there are, or that the zone is accepted. A file that can't be read is named on
/// the error writer.
fn tell_end<W: OctetWriter, E: OctetWriter>(
    path: &str,
    count: u64,
    end: CheckEnd,
    output: &mut W,
    errors: &mut E,
) -> u8
    ensures { TellsEnd (W.state output.old).octets count end
        (outputs (W.state output.old) (W.state output.new) (E.state errors.old) (E.state errors.new))
        result }
{
    match end {
        CheckEnd::Accepted(records) => {
            if count == 0 {
                tell_count(records, output, errors)
            } else {
                tell_faults(count, false, output, errors)
            }
        }
        CheckEnd::Enough => tell_faults(count, true, output, errors),
        CheckEnd::Last => tell_faults(count, false, output, errors),
        CheckEnd::Unread(stack) => {
            let stop = FilesStop::Files(ExpandedRefusal::Unread, stack);
            tell_stop(errors, "", path, &stop)
        }
    }
}

/// Writes how many faults there are, or that there may be more.
fn tell_faults<W: OctetWriter, E: OctetWriter>(
    count: u64,
    or_more: bool,
    output: &mut W,
    errors: &mut E,
) -> u8
    ensures { Answers (faults_line count or_more) 3
        (outputs (W.state output.old) (W.state output.new) (E.state errors.old) (E.state errors.new))
        result }
{
    let mut digits = Buffer::new();
    let words = faults_words(count, or_more);
    answer_line(digits.format(count), words, status::REFUSED, output, errors)
}

/// What stands behind the number of faults.
fn faults_words(count: u64, or_more: bool) -> &'static str
    ensures { result.now ≡ faults_words count or_more }
{
    if or_more {
        if count == 1 {
            " fault or more"
        } else {
            " faults or more"
        }
    } else if count == 1 {
        " fault"
    } else {
        " faults"
    }
}
