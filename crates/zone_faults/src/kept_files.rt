//! The files of a check, each of which is read once.
ghost use Rattle.std.specs.Prelude.{◌<◌, length};

use std::alloc::{AllocError, Global};
use zone_engine::{OctetReader, PIECE, read_piece, zeros};
use zone_files::IncludedFiles;
use zone_print::TEXT_LIMIT;
use zone_rdata::{Fault, Place, Stop};

/// A file that was read.
#[derive(Drop)]
struct KeptFile {
    name: String,
    octets: Vec<u8>,
}

/// The main file, and the files that were included so far. Each is read once.
#[derive(Drop)]
pub(crate) struct KeptFiles<'f, S> {
    alloc: Global,
    files: &'f mut S,
    /// The main file first.
    kept: Vec<KeptFile>,
}

impl<'f, S: IncludedFiles> KeptFiles<'f, S> {
    /// The main file of this name, which is read to its end.
    ///
    /// # Errors
    ///
    /// `Refused` if it has more than [`TEXT_LIMIT`] octets; `Read` if the reader failed; `Memory`.
    pub(crate) fn new(
        alloc: Global,
        name: &str,
        main: &mut S::File,
        files: &'f mut S,
    ) -> Result<KeptFiles<'f, S>, Stop> {
        let mut kept = KeptFiles {
            alloc,
            files,
            kept: Vec::new(alloc),
        };
        let octets = read_whole(alloc, main)?;
        kept.keep(name, octets)?;
        Ok(kept)
    }

    /// The octets of a file.
    pub(crate) fn octets(&self, index: usize) -> &[u8] {
        match self.kept.get(index) {
            Some(file) => &file.octets,
            None => &[],
        }
    }

    /// The file of this name, which is opened if it wasn't before. `None`: it can't be opened or read.
    ///
    /// # Errors
    ///
    /// `Refused` if it has more than [`TEXT_LIMIT`] octets; `Memory`.
    pub(crate) fn open(&mut self, name: &str) -> Result<Option<usize>, Stop> {
        if let Some(index) = self.find(name) {
            return Ok(Some(index));
        }
        let Some(mut file) = self.files.open_included(name) else {
            return Ok(None);
        };
        match read_whole(self.alloc, &mut file) {
            Ok(octets) => {
                let index = self.kept.len();
                self.keep(name, octets)?;
                Ok(Some(index))
            }
            Err(Stop::Read) => Ok(None),
            Err(stop) => Err(stop),
        }
    }

    /// The file of this name, if it was opened.
    fn find(&self, name: &str) -> Option<usize> {
        self.kept
            .iter()
            .position(|file| file.name.as_bytes() == name.as_bytes())
    }

    /// Keeps a file.
    fn keep(&mut self, name: &str, octets: Vec<u8>) -> Result<(), AllocError> {
        let name = String::from_str(self.alloc, name)?;
        self.kept.push(KeptFile { name, octets })?;
        Ok(())
    }
}

/// The octets of a reader.
///
/// # Errors
///
/// `Refused` if there are more than [`TEXT_LIMIT`]; `Read` if the reader failed; `Memory`.
fn read_whole<R: OctetReader>(alloc: Global, reader: &mut R) -> Result<Vec<u8>, Stop> {
    let mut octets = Vec::new(alloc);
    let mut piece = zeros(alloc, PIECE)?;
    push_pieces(reader, &mut piece, &mut octets)?;
    Ok(octets)
}

/// Appends the octets of a reader, [`TEXT_LIMIT`] at most.
fn push_pieces<R: OctetReader>(
    reader: &mut R,
    piece: &mut [u8],
    octets: &mut Vec<u8>,
) -> Result<(), Stop>
    requires { 0 < length piece.old }
{
    'pieces: for _ in 0..u64::MAX {
        let given = read_piece(reader, piece)?;
        if given.is_empty() {
            return Ok(());
        }
        octets.extend_from_slice(given)?;
        if octets.len() as u64 > TEXT_LIMIT {
            return Err(Stop::Refused(Fault::InputTooLong, Place::Whole));
        }
    }
    Ok(())
}
