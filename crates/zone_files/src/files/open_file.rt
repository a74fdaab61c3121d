//! A file that is read in pieces.
ghost use Rattle.std.specs.Prelude.{◌≡◌, ◌≤◌, ◌-◌, [], List, ℕ, drop, length, true, false, IfErr, OnOk};
ghost use Rattle.zone_files.specs.Machine.OpenReading.{HasGiven, StopsFile};
ghost use Rattle.zone_files.specs.Machine.StepsLeft.{room};

use crate::files::piece::Piece;
use zone_engine::OctetReader;
use zone_print::TEXT_LIMIT;

/// Why no more of a file is read.
#[derive(Clone, Copy, Debug)]
pub(crate) enum FileStop {
    /// Its reader failed.
    Unread,
    /// It has more than [`TEXT_LIMIT`] octets.
    TooLong,
}

/// A file that is open.
#[derive(Drop)]
pub(crate) struct OpenFile<R> {
    pub(crate) reader: R,
    /// The octets of it that were read and are still to be taken.
    pub(crate) piece: Piece,
    /// How many octets were read.
    pub(crate) count: u64,
    /// Whether it was read to its end.
    pub(crate) is_at_end: bool,
}

impl<R: OctetReader + Drop> OpenFile<R> {
    /// A file of which nothing was read. It is read into this piece.
    pub(crate) fn new(reader: R, mut piece: Piece) -> OpenFile<R>
        ensures reader { result.reader ≡ reader }
        ensures none { result.piece ≡ [] }
        ensures nothing { result.count ≡ 0 }
        ensures open { result.is_at_end ≡ false }
    {
        piece.clear();
        OpenFile {
            reader,
            piece,
            count: 0,
            is_at_end: false,
        }
    }

    /// Reads on, where all that was read is taken.
    ///
    /// # Errors
    ///
    /// `Unread` if the reader failed, `TooLong` if the file has more than [`TEXT_LIMIT`] octets.
    pub(crate) fn read(&mut self) -> Result<(), FileStop>
        ensures reads { OnOk result ((reader : R) (taken : List ℕ)
            → HasGiven R.state reader self.old taken → HasGiven R.state reader self.new taken) }
        ensures some { OnOk result (self.new.piece ≡ [] → self.new.is_at_end ≡ true) }
        ensures room { OnOk result (room self.new ≤ room self.old) }
        ensures stops { IfErr result (λ stop. (reader : R) (taken : List ℕ)
            → HasGiven R.state reader self.old taken
            → StopsFile R.state reader self.new stop) }
    {
        if self.is_at_end || !self.piece.left().is_empty() {
            return Ok(());
        }
        let Ok(()) = self.piece.read(&mut self.reader) else {
            return Err(FileStop::Unread);
        };
        let given = self.piece.left().len() as u64;
        self.is_at_end = given == 0;
        if given > TEXT_LIMIT.saturating_sub(self.count) {
            return Err(FileStop::TooLong);
        }
        self.count += given;
        Ok(())
    }
}
