//! A source of the records of a master file that is fed in pieces.
ghost use Rattle.std.specs.Prelude.{◌≡◌, ◌+◌, ◌<◌, ◌^◌, ◌++◌, ℕ, false, [], List, length, OnOk};
ghost use Rattle.zone_name.specs.Common.{Labels};

use crate::splitter::EntrySplitter;
use std::alloc::Global;
use std::marker::Model;
use zone_name::Name;
use zone_rdata::{FedStatus, LendingSource, Placed, PlacedRef, Reading, RrSource, Stop};

/// The records of a master file (RFC 1035 5.1) that is fed in pieces. It gives a record as soon as
/// a line feed has ended its entry. Contracts see the records that it has left to give, the fault
/// after them, and what else it holds.
///
/// Once it was refused memory it has failed: every later `feed`, `finish` and `next` answers
/// `Memory`.
#[derive(Drop)]
pub struct TextSource {
    splitter: EntrySplitter,
    /// The octets of all pieces that were taken.
    fed: u64,
    status: FedStatus,
}

impl Model for TextSource {
    ghost use Rattle.zone_text.specs.Machine.Feeding.{IsSource, state_of};
    ghost use Rattle.zone_rdata.specs.FedSource.{SourceState};
    ghost use Rattle.zone_text.specs.TextSource.{FileKept};

    ghost Value = { SourceState FileKept };

    ghost view = { λ s. state_of s.status s.fed s.splitter.ended s.splitter.unfinished.octets };

    ghost invariant = { λ s. IsSource s.status s.fed s.splitter.ended s.splitter.unfinished };
}

impl TextSource {
    ghost use Rattle.zone_rdata.specs.declared.record.Placed.{Placed};
    ghost use Rattle.zone_rdata.specs.FedSource.{Feeds, Finishes, KeepsOctets};
    ghost use Rattle.zone_text.specs.TextSource.{StandsForFile};

    /// A source that was fed nothing, under the origin of the file.
    #[tactic(auto, using(crate::proofs::Files::Standing::stands_begun))]
    pub fn new(alloc: Global, origin: &Name) -> TextSource
        ensures stands { StandsForFile origin.now result [] [] }
        ensures going { result.held.finished ≡ false }
        ensures nothing { result.held.unfinished ≡ [] }
    {
        TextSource {
            splitter: EntrySplitter::new(alloc, origin),
            fed: 0,
            status: FedStatus::Open,
        }
    }

    /// Takes the next piece of the file, of any length. Once a fault is decided a piece is counted
    /// alone, which takes no memory.
    ///
    /// # Errors
    ///
    /// `Memory`. The source has failed then, or had failed before.
    pub fn feed(&mut self, piece: &[u8]) -> Result<(), Stop>
        requires going { self.old.held.finished ≡ false }
        requires fits { self.old.held.fed + length piece.now + 1 < 2 ^ 64 }
        ensures stands { OnOk result ((origin : Labels) (fed : List ℕ) (given : List Placed)
            → StandsForFile origin self.old fed given
            → StandsForFile origin self.new (fed ++ piece.now) given) }
        ensures feeds { Feeds self.old piece.now result self.new }
    {
        if let FedStatus::OutOfMemory = self.status {
            return Err(Stop::Memory);
        }
        match self.splitter.feed(piece) {
            Ok(()) => {
                self.fed += piece.len() as u64;
                Ok(())
            }
            Err(_) => {
                self.splitter.unfinished.clear();
                self.status = FedStatus::OutOfMemory;
                Err(Stop::Memory)
            }
        }
    }

    /// Takes the end of the file. What the source has still to give is then the rest of what is
    /// read of the file. It takes no memory where no octets are undecided.
    ///
    /// # Errors
    ///
    /// `Memory`. The source has failed then, or had failed before.
    pub fn finish(&mut self) -> Result<(), Stop>
        requires going { self.old.held.finished ≡ false }
        ensures stands { OnOk result ((origin : Labels) (fed : List ℕ) (given : List Placed)
            → StandsForFile origin self.old fed given → StandsForFile origin self.new fed given) }
        ensures finishes { Finishes self.old result self.new }
    {
        if let FedStatus::OutOfMemory = self.status {
            return Err(Stop::Memory);
        }
        match self.splitter.finish() {
            Ok(()) => {
                self.status = FedStatus::Finished;
                Ok(())
            }
            Err(_) => {
                self.splitter.unfinished.clear();
                self.status = FedStatus::OutOfMemory;
                Err(Stop::Memory)
            }
        }
    }

    /// Whether `finish` has answered `Ok`.
    pub fn is_finished(&self) -> bool
        ensures { result ≡ self.now.held.finished }
    {
        matches!(self.status, FedStatus::Finished)
    }

    /// The number of octets of the file that the source keeps: those after the last line feed that
    /// ended an entry, and none once a fault is decided, the file has ended or the source has
    /// failed.
    pub fn undecided(&self) -> usize
        ensures keeps { KeepsOctets self.now result }
    {
        self.splitter.unfinished.octets().len()
    }

    /// The number of octets of all pieces for which `feed` answered `Ok`.
    pub fn fed(&self) -> u64
        ensures { result ≡ self.now.held.fed }
    {
        self.fed
    }

    /// What it has left to give.
    pub(crate) fn into_reading(self) -> Reading
        ensures records { result.placed.items ≡ self.pending.records }
        ensures ending { result.ending ≡ self.pending.ending }
    {
        self.splitter.ended.decided.into_reading()
    }
}

impl RrSource for TextSource {
    ghost use Rattle.zone_rdata.specs.FedSource.{Held};
    ghost use Rattle.zone_text.specs.TextSource.{FileKept};

    ghost Beside = { Held FileKept };

    ghost beside = { λ s. s.held };

    ghost pending = { λ s. s.pending };

    fn next(&mut self) -> Result<Option<Placed>, Stop> {
        if let FedStatus::OutOfMemory = self.status {
            return Err(Stop::Memory);
        }
        self.splitter.ended.decided.next()
    }
}

impl LendingSource for TextSource {
    fn first(&self) -> Option<PlacedRef<'_>> {
        if let FedStatus::OutOfMemory = self.status {
            return None;
        }
        self.splitter.ended.decided.first()
    }

    fn skip(&mut self) {
        if let FedStatus::OutOfMemory = self.status {
            return;
        }
        self.splitter.ended.decided.skip()
    }
}
