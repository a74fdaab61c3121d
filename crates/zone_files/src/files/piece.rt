//! A piece of a file that is read.
ghost use Rattle.std.specs.Prelude.{◌≡◌, ◌≤◌, ◌-◌, [], drop, length, IfErr, IfOk, OnErr, OnOk};
ghost use Rattle.std.specs.Io.KnownBytes.{Consumes, IsAtEnd, Keeps};
ghost use Rattle.zone_print.specs.Device.{WorksOn};
ghost use Rattle.zone_engine.specs.Reading.{IsFailedRead};

use std::alloc::{AllocError, Global};
use std::marker::Model;
use zone_engine::{OctetReader, PIECE, zeros};
use zone_rdata::Stop;

/// The octets of a file that were read and are still to be taken: contracts see these. There is room
/// for 65,536.
#[derive(Drop)]
pub(crate) struct Piece {
    octets: Vec<u8>,
    start: usize,
    end: usize,
}

impl Model for Piece {
    ghost use Rattle.std.specs.Prelude.{◌≤◌, ◌<◌, ◌-◌, ℕ, List, drop, length, take};

    ghost Value = { List ℕ };

    ghost view = { λ p. take (p.«end» - p.start) (drop p.start p.octets.items) };

    ghost invariant = { λ p. (0 < length p.octets.items) × (p.start ≤ p.«end») × (p.«end» ≤ length p.octets.items) };
}

impl Piece {
    /// No octets.
    ///
    /// # Errors
    ///
    /// `AllocError`.
    pub(crate) fn new(alloc: Global) -> Result<Piece, AllocError>
        ensures { IfOk result (λ piece. piece ≡ []) }
    {
        Ok(Piece {
            octets: zeros(alloc, PIECE)?,
            start: 0,
            end: 0,
        })
    }

    /// The octets that are left.
    pub(crate) fn left(&self) -> &[u8]
        ensures { result.now ≡ self.now }
    {
        &self.octets[self.start..self.end]
    }

    /// So many of the octets are left now: the last ones.
    pub(crate) fn keep(&mut self, left: usize)
        requires { left ≤ length self.old }
        ensures { self.new ≡ drop (length self.old - left) self.old }
    {
        self.start = self.end - left;
    }

    /// None of the octets is left.
    pub(crate) fn clear(&mut self)
        ensures { self.new ≡ [] }
    {
        self.start = self.end;
    }

    /// Reads the octets that come next, in the place of those that are left: none at the end of the
    /// file alone.
    ///
    /// # Errors
    ///
    /// `Read` if the reader failed. Nothing was read.
    pub(crate) fn read<R: OctetReader>(&mut self, reader: &mut R) -> Result<(), Stop>
        ensures taken { OnOk result
            (Consumes (R.state reader.old).octets (R.state reader.new).octets self.new) }
        ensures end { OnOk result (self.new ≡ [] → IsAtEnd (R.state reader.new).octets) }
        ensures works { OnOk result (WorksOn (R.state reader.old) (R.state reader.new)) }
        ensures failed { IfErr result (IsFailedRead (R.state reader.old) (R.state reader.new)) }
        ensures kept { OnErr result
            (Keeps (R.state reader.old).octets (R.state reader.new).octets) }
    {
        let count = reader.read_some(&mut self.octets)?;
        self.start = 0;
        self.end = count;
        Ok(())
    }
}
