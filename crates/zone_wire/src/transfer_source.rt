//! A source of the records of a zone transfer that is fed in pieces.
ghost use Rattle.std.specs.Prelude.{◌≡◌, ◌+◌, ◌<◌, ◌≤◌, ◌^◌, ◌++◌, ℕ, true, false, [], List, None, length, IfOk, OnOk, OnErr};
ghost use Rattle.zone_wire.specs.Message.{longest_message};
ghost use Rattle.zone_wire.specs.Stream.{StreamReads};

use crate::framer::Framer;
use crate::transfer::Transfer;
use std::alloc::{AllocError, Global};
use std::marker::Model;
use zone_rdata::{FedStatus, LendingSource, Placed, PlacedRef, Reading, RrSource, Stop};

/// The records of a zone transfer (RFC 5936 2.2) that is fed in pieces, as soon as they are
/// decided: with the octet that ends their message. Contracts see the records that it has left to
/// give, the fault after them, and what else it holds.
///
/// Once it was refused memory it has failed: every later `feed`, `finish` and `next` answers
/// `Memory`.
#[derive(Drop)]
pub struct TransferSource {
    framer: Framer,
    /// The octets of all pieces that were taken.
    fed: u64,
    status: FedStatus,
}

impl Model for TransferSource {
    ghost use Rattle.zone_rdata.specs.FedSource.{SourceState, is_failed, is_finished};
    ghost use Rattle.zone_wire.specs.Machine.Feeding.{IsSource};
    ghost use Rattle.zone_wire.specs.Machine.Transferring.{zone_held};
    ghost use Rattle.zone_wire.specs.TransferSource.{StreamKept};

    ghost Value = { SourceState StreamKept };

    ghost view = { λ s. record {
      pending = record {
        failed = is_failed s.status;
        records = s.framer.transfer.decided.placed;
        ending = s.framer.transfer.decided.ending;
      };
      held = record {
        finished = is_finished s.status;
        fed = s.fed;
        kept = record {
          messages = s.framer.transfer.messages;
          id = s.framer.transfer.id;
          zone = zone_held s.framer.transfer.zone;
          opening = s.framer.transfer.opening;
          closed = s.framer.transfer.closed;
        };
        unfinished = s.framer.unfinished.items;
      };
    } };

    ghost invariant = { λ s. IsSource s.status s.fed s.framer.transfer s.framer.unfinished.items };
}

impl TransferSource {
    ghost use Rattle.zone_rdata.specs.declared.record.Placed.{Placed};
    ghost use Rattle.zone_rdata.specs.FedSource.{Feeds, Finishes, KeepsOctets};
    ghost use Rattle.zone_wire.specs.TransferSource.{StandsForStream};

    /// A source that was fed nothing.
    pub fn new(alloc: Global) -> TransferSource
        ensures stands { StandsForStream result [] [] }
        ensures records { result.pending.records ≡ [] }
        ensures undecided { result.pending.ending ≡ None }
        ensures going { result.held.finished ≡ false }
        ensures nothing { result.held.unfinished ≡ [] }
    {
        TransferSource {
            framer: Framer::new(alloc),
            fed: 0,
            status: FedStatus::Open,
        }
    }

    /// Takes the next piece of the stream, of any length. Once a fault is decided a piece is
    /// counted alone, which takes no memory.
    ///
    /// # Errors
    ///
    /// Want of memory. The source has failed then, or had failed before.
    pub fn feed(&mut self, piece: &[u8]) -> Result<(), Stop>
        requires going { self.old.held.finished ≡ false }
        requires fits { self.old.held.fed + length piece.now + 1 < 2 ^ 64 }
        ensures stands { OnOk result ((fed : List ℕ) (given : List Placed)
            → StandsForStream self.old fed given
            → StandsForStream self.new (fed ++ piece.now) given) }
        ensures feeds { Feeds self.old piece.now result self.new }
    {
        if let FedStatus::OutOfMemory = self.status {
            return Err(Stop::Memory);
        }
        match self.framer.feed(piece) {
            Ok(()) => {
                self.fed += piece.len() as u64;
                Ok(())
            }
            Err(_) => {
                self.framer.unfinished.clear();
                self.status = FedStatus::OutOfMemory;
                Err(Stop::Memory)
            }
        }
    }

    /// Takes the end of the stream. What the source has still to give is then the rest of what the
    /// stream is read as. It takes no memory.
    ///
    /// # Errors
    ///
    /// Want of memory: the source has failed before.
    pub fn finish(&mut self) -> Result<(), Stop>
        requires going { self.old.held.finished ≡ false }
        ensures stands { OnOk result ((fed : List ℕ) (given : List Placed)
            → StandsForStream self.old fed given → StandsForStream self.new fed given) }
        ensures finishes { Finishes self.old result self.new }
        ensures only { OnErr result (self.old.pending.failed ≡ true) }
    {
        if let FedStatus::OutOfMemory = self.status {
            return Err(Stop::Memory);
        }
        self.framer.finish();
        self.status = FedStatus::Finished;
        Ok(())
    }

    /// Whether `finish` has answered `Ok`.
    pub fn is_finished(&self) -> bool
        ensures { result ≡ self.now.held.finished }
    {
        matches!(self.status, FedStatus::Finished)
    }

    /// The number of octets of the stream that the source keeps, at most 65,536: those after the
    /// last whole frame, and none once a fault is decided, the stream has ended or the source has
    /// failed.
    pub fn undecided(&self) -> usize
        ensures keeps { KeepsOctets self.now result }
        ensures few { result ≤ longest_message + 1 }
    {
        let unfinished = self.framer.unfinished.as_slice();
        unfinished.len()
    }

    /// The number of octets of all pieces for which `feed` answered `Ok`.
    pub fn fed(&self) -> u64
        ensures { result ≡ self.now.held.fed }
    {
        self.fed
    }
}

impl RrSource for TransferSource {
    ghost use Rattle.zone_rdata.specs.FedSource.{Held};
    ghost use Rattle.zone_wire.specs.TransferSource.{StreamKept};

    ghost Beside = { Held StreamKept };

    ghost beside = { λ s. s.held };

    ghost pending = { λ s. s.pending };

    fn next(&mut self) -> Result<Option<Placed>, Stop> {
        if let FedStatus::OutOfMemory = self.status {
            return Err(Stop::Memory);
        }
        self.framer.transfer.decided.next()
    }
}

impl LendingSource for TransferSource {
    fn first(&self) -> Option<PlacedRef<'_>> {
        if let FedStatus::OutOfMemory = self.status {
            return None;
        }
        self.framer.transfer.decided.first()
    }

    fn skip(&mut self) {
        if let FedStatus::OutOfMemory = self.status {
            return;
        }
        self.framer.transfer.decided.skip()
    }
}

/// What a stream of messages is read as, each after its length (RFC 1035 4.2.2; RFC 5936 2.2, 3):
/// the records before its first fault, and that fault.
///
/// # Errors
///
/// Want of memory.
pub fn read_transfer(alloc: Global, stream: &[u8]) -> Result<Reading, AllocError>
    ensures { IfOk result (λ reading. StreamReads stream.now reading.placed.items reading.ending) }
{
    let mut source = TransferSource::new(alloc);
    source.feed(stream).map_err(|_| AllocError)?;
    source.finish().map_err(|_| AllocError)?;
    let TransferSource { framer, .. } = source;
    let Framer { transfer, .. } = framer;
    let Transfer { decided, .. } = transfer;
    Ok(decided.into_reading())
}
