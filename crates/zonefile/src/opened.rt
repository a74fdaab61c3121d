//! The files of the system.

use std::fs::{File, OpenFile};
use std::io::Read;
use std::rt::Files;
use std::{fs, io};
use zone_files::IncludedFiles;
use zonefile_command::ZoneFiles;

/// The name of standard input.
const STANDARD_INPUT: &str = "-";

/// An input of the program.
#[derive(Drop)]
pub(crate) enum Input<S, F> {
    /// Standard input.
    Standard(S),
    /// A file.
    File(F),
}

impl<S: Read, F: Read> Read for Input<S, F> {
    ghost use Rattle.zonefile.specs.Machine.Opened.{remaining_of};

    ghost remaining = { remaining_of S.remaining F.remaining };

    fn read(&mut self, buf: &mut [u8]) -> io::Result<usize> {
        match self {
            Input::Standard(input) => input.read(buf),
            Input::File(file) => file.read(buf),
        }
    }
}

/// Opens the files of the system.
#[derive(Drop)]
pub(crate) struct Opener<'r, R, S> {
    pub(crate) rt: &'r R,
    /// Standard input, until it was opened.
    pub(crate) standard: Option<S>,
}

/// Of the file system nothing is known.
impl<R: Files, S: Read + Drop> IncludedFiles for Opener<'_, R, S> {
    ghost use Rattle.std.specs.Prelude.{⊤};

    type File = Input<S, R::File>;

    ghost opens = { λ old name file new. ⊤ };

    fn open_included(&mut self, name: &str) -> Option<Input<S, R::File>> {
        match open_regular(self.rt, name) {
            Ok(Some(file)) => Some(Input::File(file)),
            Ok(None) | Err(_) => None,
        }
    }
}

/// Of the file system nothing is known.
impl<R: Files, S: Read + Drop> ZoneFiles for Opener<'_, R, S> {
    ghost use Rattle.std.specs.Prelude.{⊤};

    ghost opens_main = { λ old path file new. ⊤ };

    fn open_main(&mut self, path: &str) -> Option<Input<S, R::File>> {
        if path == STANDARD_INPUT {
            return match self.standard.take() {
                Some(standard) => Some(Input::Standard(standard)),
                None => None,
            };
        }
        match File::open(self.rt, path) {
            Ok(file) => Some(Input::File(file)),
            Err(_) => None,
        }
    }
}

/// Opens a regular file, and no other: not a folder, a device or a pipe, which could wait for ever. What
/// the name leads to is looked at before it is opened, and what was opened is looked at again.
fn open_regular<R: Files>(rt: &R, name: &str) -> io::Result<Option<R::File>> {
    if !fs::metadata(rt, name)?.is_file() {
        return Ok(None);
    }
    let file = File::open(rt, name)?;
    match file.metadata()?.is_file() {
        true => Ok(Some(file)),
        false => Ok(None),
    }
}
