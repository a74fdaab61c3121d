//! The expanded text of files, as it is written.
ghost use Rattle.std.specs.Prelude.{option_map};
ghost use Rattle.zonefile_command.specs.Inputs.{folder};
ghost use Rattle.command_input.specs.Answering.{outputs};
ghost use Rattle.zonefile_command.specs.Run.{Expands};

use crate::files::ZoneFiles;
use crate::telling::tell_stop;
use command_input::status;
use std::alloc::Global;
use zone_files::{FilesStop, expand_files};
use zone_name::CasedName;
use zone_print::{OctetWriter, write_octets};
use zone_rdata::Stop;

/// Writes the expanded text of the file at this path, and returns the status.
#[tactic(auto, using(crate::proofs::Running::expands, crate::proofs::Running::expands_in_part))]
pub(crate) fn expand<S: ZoneFiles, W: OctetWriter, E: OctetWriter>(
    alloc: Global,
    directory: Option<&str>,
    origin: &CasedName,
    path: &str,
    files: &mut S,
    output: &mut W,
    errors: &mut E,
) -> u8
    ensures { Expands (folder S.opens_main S.opens S.File.state)
        (option_map (λ folder. folder.now) directory.entry) origin.now path.now
        files.old files.new
        (outputs (W.state output.old) (W.state output.new) (E.state errors.old) (E.state errors.new))
        result }
{
    match files.open_main(path) {
        Some(main) => {
            match expand_files(alloc, directory, path, origin, main, files, output) {
                Ok(_stack) => status::SUCCESS,
                Err(stop) => tell_stop(errors, "", path, &stop),
            }
        }
        None => {
            let _written = write_octets(output, b"$STOPPED\n");
            tell_stop(errors, "", path, &FilesStop::Input(Stop::Read))
        }
    }
}
