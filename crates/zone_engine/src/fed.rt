ghost use Rattle.std.specs.Prelude.{◌≡◌, ◌+◌, ◌^◌, ◌<◌, ◌++◌, false, List, length, OnOk};
ghost use Rattle.zone_name.specs.Common.{Octets};
ghost use Rattle.zone_rdata.specs.FedSource.{Feeds, Finishes, Held};
ghost use Rattle.zone_rdata.specs.declared.record.Placed.{Placed};
ghost use Rattle.zone_engine.specs.Machine.Input.{ReadAs};
ghost use Rattle.zone_engine.specs.Machine.Fed.{StandsForInput, source_of};

use zone_rdata::{LendingSource, Stop};
use zone_text::TextSource;
use zone_wire::TransferSource;

/// A source of records that is fed an input in pieces.
pub(crate) trait FedSource: LendingSource {
    /// What it keeps of the input.
    ghost Kept: { Type 0 };

    /// What it holds besides what is pending.
    ghost held: { Self → Held Kept };

    /// How it reads octets: as a file under an origin, or as a transfer.
    ghost IsOf: { ReadAs → Type 0 };

    /// What the octets so far, read so, leave to keep and unfinished.
    ghost Leave: { ReadAs → Octets → Kept → Octets → Type 0 };

    /// Takes the next piece of the input.
    ///
    /// # Errors
    ///
    /// `Memory`, and the source has failed.
    fn feed(&mut self, piece: &[u8]) -> Result<(), Stop>
        requires open { (held self.old).finished ≡ false }
        requires fits { (held self.old).fed + length piece.now + 1 < 2 ^ 64 }
        ensures stands { OnOk result ((form : ReadAs) (octets : Octets) (given : List Placed)
            → StandsForInput IsOf Leave form (Self.pending self.old) (held self.old) octets given
            → StandsForInput IsOf Leave form (Self.pending self.new) (held self.new) (octets
            ++ piece.now) given) }
        ensures feeds { Feeds (source_of (Self.pending self.old) (held self.old)) piece.now result
            (source_of (Self.pending self.new) (held self.new)) };

    /// Ends the input.
    ///
    /// # Errors
    ///
    /// `Memory`, and the source has failed.
    fn finish(&mut self) -> Result<(), Stop>
        requires open { (held self.old).finished ≡ false }
        ensures stands { OnOk result ((form : ReadAs) (octets : Octets) (given : List Placed)
            → StandsForInput IsOf Leave form (Self.pending self.old) (held self.old) octets given
            → StandsForInput IsOf Leave form (Self.pending self.new) (held self.new) octets given) }
        ensures finishes { Finishes (source_of (Self.pending self.old) (held self.old)) result
            (source_of (Self.pending self.new) (held self.new)) };

    /// Giving a record changes nothing else.
    ghost keeps: { (old new : Self) → Self.RrSource.beside new ≡ Self.RrSource.beside old
        → held new ≡ held old };
}

impl FedSource for TextSource {
    ghost use Rattle.zone_text.specs.TextSource.{FileKept};
    ghost use Rattle.zone_engine.specs.Machine.Fed.{FileLeave, IsFile};

    ghost Kept = { FileKept };

    ghost held = { λ s. s.held };

    ghost IsOf = { IsFile };

    ghost Leave = { FileLeave };

    fn feed(&mut self, piece: &[u8]) -> Result<(), Stop> {
        TextSource::feed(self, piece)
    }

    fn finish(&mut self) -> Result<(), Stop> {
        TextSource::finish(self)
    }

    ghost keeps = { λ old new same. same };
}

impl FedSource for TransferSource {
    ghost use Rattle.zone_wire.specs.TransferSource.{StreamKept};
    ghost use Rattle.zone_engine.specs.Machine.Fed.{IsTransfer, TransferLeave};

    ghost Kept = { StreamKept };

    ghost held = { λ s. s.held };

    ghost IsOf = { IsTransfer };

    ghost Leave = { TransferLeave };

    #[tactic(auto, using(crate::proofs::Feeding::transfer_stands_on))]
    fn feed(&mut self, piece: &[u8]) -> Result<(), Stop> {
        TransferSource::feed(self, piece)
    }

    #[tactic(auto, using(crate::proofs::Feeding::transfer_stands_on))]
    fn finish(&mut self) -> Result<(), Stop> {
        TransferSource::finish(self)
    }

    ghost keeps = { λ old new same. same };
}
