//! Master files of which the entries of further types are written anew, whole or fed in pieces.
ghost use Rattle.std.specs.Prelude.{◌≡◌, ◌+◌, ◌<◌, ◌^◌, ◌++◌, ℕ, true, false, [], List, length, map, IfOk, OnErr, OnOk};
ghost use Rattle.zone_name.specs.Common.{Labels};
ghost use Rattle.zone_rdata.specs.FedSource.{is_failed, is_finished};
ghost use Rattle.zone_rdata.specs.declared.fed.FedStatus.TheVariants.{Open, Finished, OutOfMemory};
ghost use Rattle.zone_rdata.specs.Item.{raw};
ghost use Rattle.zone_text.specs.FirstEntry.{IsFirstEntry};
ghost use Rattle.zone_words.specs.Rewriter.{
  RewritesFile,
  StandsForRewriting,
  StandsInPart,
  all_given,
};

use crate::fed_writer::FedWriter;
use crate::refusal::Refusals;
use std::alloc::{AllocError, Global};
use std::marker::Model;
use zone_name::CasedName;
use zone_rdata::{FedStatus, Item};

/// A rewriter of a master file (RFC 1035 5.1) that is fed in pieces. It writes an entry as soon as
/// a line feed has ended it: an entry of a further type with its data in the generic form (RFC 3597
/// 5), every other one as it is. Contracts see what it has written and nobody has taken, what it
/// tells, and what else it holds.
///
/// Once it was refused memory it has failed: every later `feed` and `finish` answers `AllocError`.
/// What it has written then ends with a whole entry, or, where the octets broke, with octets that
/// break as the file does.
#[derive(Drop)]
pub struct Rewriter {
    writer: FedWriter,
    /// The octets of all pieces that were taken.
    fed: u64,
    status: FedStatus,
}

impl Model for Rewriter {
    ghost use Rattle.zone_words.specs.Machine.FedWriting.{IsRewriter, state_of};
    ghost use Rattle.zone_words.specs.Rewriter.{RewriterState};

    ghost Value = { RewriterState };

    ghost view = { λ r. state_of r.status r.fed r.writer };

    ghost invariant = { λ r. IsRewriter r.status r.fed r.writer };
}

impl Rewriter {
    /// A rewriter that was fed nothing, under the origin of the file, whose letters are kept.
    pub fn new(alloc: Global, origin: &CasedName) -> Rewriter
        ensures stands { StandsForRewriting origin.now result [] [] }
        ensures going { result.status ≡ Open }
        ensures nothing { result.fed ≡ 0 }
    {
        Rewriter {
            writer: FedWriter::new(alloc, origin),
            fed: 0,
            status: FedStatus::Open,
        }
    }

    /// Becomes a rewriter that was fed nothing, under the origin of another file. It keeps the room
    /// that it has.
    pub fn restart(&mut self, origin: &CasedName)
        ensures stands { StandsForRewriting origin.now self.new [] [] }
        ensures going { self.new.status ≡ Open }
        ensures nothing { self.new.fed ≡ 0 }
    {
        self.writer.restart(origin);
        self.fed = 0;
        self.status = FedStatus::Open;
    }

    /// Becomes the rewriter of a file that has ended and is one entry, which a line feed ends, of
    /// whose items these are kept (`zone_text::first_entry`). It keeps the room that it has.
    ///
    /// # Errors
    ///
    /// `AllocError`. The rewriter has failed then.
    pub fn rewrite_entry(
        &mut self,
        origin: &CasedName,
        entry: &[u8],
        items: &[Item],
    ) -> Result<(), AllocError>
        requires whole { IsFirstEntry entry.now (length entry.now) (map raw items.now) }
        requires fits { length entry.now + 1 < 2 ^ 64 }
        ensures stands { OnOk result (StandsForRewriting origin.now self.new entry.now []) }
        ensures finished { OnOk result (self.new.status ≡ Finished) }
        ensures in_part { OnErr result (StandsInPart origin.now self.new entry.now []) }
        ensures failed { OnErr result (self.new.status ≡ OutOfMemory) }
        ensures uncounted { OnErr result (self.new.fed ≡ 0) }
    {
        let writer = &mut self.writer;
        let mut words = Vec::new(writer.alloc);
        writer.restart(origin);
        match writer.entries.push(entry, items, &mut words) {
            Ok(()) => {
                (self.status, self.fed) = (FedStatus::Finished, entry.len() as u64);
                Ok(())
            }
            Err(refused) => {
                (self.status, self.fed) = (FedStatus::OutOfMemory, 0);
                Err(refused)
            }
        }
    }

    /// Takes the next piece of the file, of any length.
    ///
    /// # Errors
    ///
    /// `AllocError`. The rewriter has failed then, or had failed before.
    pub fn feed(&mut self, piece: &[u8]) -> Result<(), AllocError>
        requires going { is_finished self.old.status ≡ false }
        requires fits { self.old.fed + length piece.now + 1 < 2 ^ 64 }
        ensures stands { OnOk result ((origin : Labels) (fed given : List ℕ)
            → StandsForRewriting origin self.old fed given
            → StandsForRewriting origin self.new (fed ++ piece.now) given) }
        ensures count { OnOk result (self.new.fed ≡ self.old.fed + length piece.now) }
        ensures works { OnOk result (is_failed self.old.status ≡ false) }
        ensures goes_on { OnOk result (self.new.status ≡ Open) }
        ensures in_part { OnErr result ((origin : Labels) (fed given : List ℕ)
            → StandsForRewriting origin self.old fed given
            → StandsInPart origin self.new (fed ++ piece.now) given) }
        ensures failed { OnErr result (self.new.status ≡ OutOfMemory) }
        ensures uncounted { OnErr result (self.new.fed ≡ self.old.fed) }
        ensures failed_before { is_failed self.old.status ≡ true → self.new ≡ self.old }
    {
        let FedStatus::Open = self.status else {
            return Err(AllocError);
        };
        match self.writer.feed(piece) {
            Ok(()) => {
                self.fed += piece.len() as u64;
                Ok(())
            }
            Err(refused) => {
                self.writer.drop_open();
                self.status = FedStatus::OutOfMemory;
                Err(refused)
            }
        }
    }

    /// Takes the end of the file, which ends its last entry if no line feed did.
    ///
    /// # Errors
    ///
    /// `AllocError`. The rewriter has failed then, or had failed before.
    pub fn finish(&mut self) -> Result<(), AllocError>
        requires going { is_finished self.old.status ≡ false }
        ensures stands { OnOk result ((origin : Labels) (fed given : List ℕ)
            → StandsForRewriting origin self.old fed given
            → StandsForRewriting origin self.new fed given) }
        ensures finished { OnOk result (self.new.status ≡ Finished) }
        ensures works { OnOk result (is_failed self.old.status ≡ false) }
        ensures in_part { OnErr result ((origin : Labels) (fed given : List ℕ)
            → StandsForRewriting origin self.old fed given
            → StandsInPart origin self.new fed given) }
        ensures failed { OnErr result (self.new.status ≡ OutOfMemory) }
        ensures count { self.new.fed ≡ self.old.fed }
        ensures failed_before { is_failed self.old.status ≡ true → self.new ≡ self.old }
    {
        let FedStatus::Open = self.status else {
            return Err(AllocError);
        };
        match self.writer.finish() {
            Ok(()) => {
                self.status = FedStatus::Finished;
                Ok(())
            }
            Err(refused) => {
                self.writer.drop_open();
                self.status = FedStatus::OutOfMemory;
                Err(refused)
            }
        }
    }

    /// What it has written since `clear_written`, or since it was made.
    pub fn written(&self) -> &[u8]
        ensures { result.now ≡ self.now.held.written }
    {
        self.writer.entries.written.as_slice()
    }

    /// Lets go of what it has written, which the caller has taken.
    pub fn clear_written(&mut self)
        ensures cleared { self.new ≡ all_given self.old }
        ensures stands { (origin : Labels) (fed given : List ℕ)
            → StandsForRewriting origin self.old fed given
            → StandsForRewriting origin self.new fed (given ++ self.old.held.written) }
        ensures in_part { (origin : Labels) (fed given : List ℕ)
            → StandsInPart origin self.old fed given
            → StandsInPart origin self.new fed (given ++ self.old.held.written) }
    {
        self.writer.entries.written.clear();
    }

    /// The octets of the file that it keeps: those after the last line feed that ended an entry,
    /// and none where they broke, the file has ended or the rewriter has failed.
    pub fn undecided(&self) -> &[u8]
        ensures waiting { result.now ≡ self.now.held.waiting }
        ensures broken { self.now.held.broken ≡ true → result.now ≡ [] }
        ensures finished { is_finished self.now.status ≡ true → result.now ≡ [] }
        ensures failed { is_failed self.now.status ≡ true → result.now ≡ [] }
    {
        self.writer.unfinished.octets()
    }

    /// The first of the entries of further types that state no data, and how many there are.
    pub fn refusals(&self) -> Refusals
        ensures { result ≡ self.now.held.told }
    {
        self.writer.entries.refusals
    }

    /// Whether `finish` has answered `Ok`.
    pub fn is_finished(&self) -> bool
        ensures { result ≡ is_finished self.now.status }
    {
        matches!(self.status, FedStatus::Finished)
    }

    /// The number of octets of all pieces for which `feed` answered `Ok`.
    pub fn fed(&self) -> u64
        ensures { result ≡ self.now.fed }
    {
        self.fed
    }

    /// What it has written, and what it tells.
    fn into_rewritten(self) -> Rewritten
        ensures text { result.text.items ≡ self.held.written }
        ensures refusals { result.refusals ≡ self.held.told }
    {
        let refusals = self.refusals();
        Rewritten {
            text: self.writer.entries.written,
            refusals,
        }
    }
}

/// A rewriting of a master file.
#[derive(Drop)]
pub struct Rewritten {
    /// What is written: as many lines as the file has, its entries at the lines where they stood.
    pub text: Vec<u8>,
    /// The first of the entries of further types that state no data, which stay as they are, and
    /// how many there are.
    pub refusals: Refusals,
}

/// Writes a master file anew (RFC 1035 5.1): an entry of a further type with its data in the
/// generic form (RFC 3597 5), every other one as it is.
///
/// # Errors
///
/// `AllocError`.
pub fn rewrite_file(
    alloc: Global,
    origin: &CasedName,
    octets: &[u8],
) -> Result<Rewritten, AllocError>
    ensures { IfOk result (λ rewritten.
        RewritesFile origin.now octets.now rewritten.text.items rewritten.refusals) }
{
    let mut rewriter = Rewriter::new(alloc, origin);
    rewriter.feed(octets)?;
    rewriter.finish()?;
    Ok(rewriter.into_rewritten())
}
