//! The files that are open.
ghost use Rattle.std.specs.Prelude.{◌≡◌, ◌++◌, ◌∷◌, [], length, false, IfOk, OnOk};
ghost use Rattle.zone_files.specs.Machine.OpenReading.{ClosesFile, IsNew};

use crate::files::open_file::OpenFile;
use crate::files::piece::Piece;
use std::alloc::{AllocError, Global};
use std::mem;
use zone_engine::OctetReader;

/// The files that are open. Each is read into a piece of its own: one that is opened later gets the
/// piece of one that was closed.
#[derive(Drop)]
pub(crate) struct OpenFiles<R> {
    pub(crate) innermost: OpenFile<R>,
    /// The files that wait for the innermost one, the main file first.
    pub(crate) outer: Vec<OpenFile<R>>,
    /// The pieces of files that were closed.
    pieces: Vec<Piece>,
}

impl<R: OctetReader + Drop> OpenFiles<R> {
    /// A main file, of which nothing was read.
    ///
    /// # Errors
    ///
    /// `AllocError`.
    pub(crate) fn new(alloc: Global, main: R) -> Result<OpenFiles<R>, AllocError>
        ensures main { IfOk result (λ made. IsNew main made.innermost) }
        ensures alone { IfOk result (λ made. made.outer.items ≡ []) }
    {
        Ok(OpenFiles {
            innermost: OpenFile::new(main, Piece::new(alloc)?),
            outer: Vec::new(alloc),
            pieces: Vec::new(alloc),
        })
    }

    /// The file of this reader is the innermost one.
    ///
    /// # Errors
    ///
    /// `AllocError`.
    pub(crate) fn open(&mut self, alloc: Global, reader: R) -> Result<(), AllocError>
        ensures opened { OnOk result (IsNew reader self.new.innermost) }
        ensures outer { OnOk result
            (self.new.outer.items ≡ self.old.outer.items ++ self.old.innermost ∷ []) }
    {
        let piece = match self.pieces.pop() {
            Some(piece) => piece,
            None => Piece::new(alloc)?,
        };
        let inner = OpenFile::new(reader, piece);
        self.outer.push(mem::replace(&mut self.innermost, inner))?;
        Ok(())
    }

    /// Closes the innermost file. The one that waits for it is the innermost one then. The main file
    /// stays open.
    pub(crate) fn close(&mut self)
        ensures { ClosesFile self.old self.new }
    {
        let Some(outer) = self.outer.pop() else {
            return;
        };
        let closed = mem::replace(&mut self.innermost, outer);
        let OpenFile { piece, .. } = closed;
        let _kept = self.pieces.push(piece);
    }

    /// How many files wait for the innermost one.
    pub(crate) fn outer_files(&self) -> usize
        ensures { result ≡ length self.now.outer.items }
    {
        self.outer.len()
    }
}
