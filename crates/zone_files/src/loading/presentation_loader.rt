//! The zone of a master file in presentation format that is fed in pieces.
ghost use Rattle.std.specs.Prelude.{◌≡◌, ◌+◌, ◌-◌, ◌^◌, ◌≤◌, ◌<◌, ◌++◌, ℕ, true, false, [], List, None, Err, is_some, length, min, option_map, IfErr, IfOk, OnErr, OnOk};
ghost use Rattle.zone_name.specs.Common.{Labels};
ghost use Rattle.zone_rdata.specs.declared.fault.Stop.TheVariants.{Memory};
ghost use Rattle.zone_print.specs.Canonical.{canon, text_limit};
ghost use Rattle.zone_engine.specs.Normalise.{IsOfBytes};
ghost use Rattle.zone_engine.specs.Refusal.{IfRefused};
ghost use Rattle.zone_words.specs.Refusal.{refused_of};
ghost use Rattle.zone_files.specs.Loading.Fed.{StandsForPresentation};
ghost use Rattle.zone_files.specs.Loading.Report.{IsReported};
ghost use Rattle.zone_files.specs.Presentation.{PresentationDenotes};

use super::refusal::PresentationRefusal;
use crate::laws::a_file_denotes_what_its_generic_form_denotes;
use std::alloc::Global;
use std::marker::Model;
use zone_engine::FileLoader;
use zone_name::CasedName;
use zone_print::TEXT_LIMIT;
use zone_rdata::{Fault, Place, Stop};
use zone_set::Zone;
use zone_words::Rewriter;
use zone_words::laws::rewriting_is_unique;

/// The zone of a master file (RFC 1035 5.1) with records of all types in presentation format, fed in
/// pieces. It keeps the octets of the entry that isn't ended, and no others. Once a refusal is
/// decided it keeps no records. Contracts see what it holds.
///
/// Once it was refused memory it has failed: every later `feed` and `finish` answers `Memory`.
#[derive(Drop)]
pub struct PresentationLoader {
    rewriter: Rewriter,
    loader: FileLoader,
    /// The octets of all pieces, at most `u64::MAX`.
    fed: u64,
    has_failed: bool,
}

impl Model for PresentationLoader {
    ghost use Rattle.zone_files.specs.Loading.Fed.{LoadingState};
    ghost use Rattle.zone_files.specs.Machine.Loading.{IsLoading};

    ghost Value = { LoadingState };

    ghost view = { λ l. record { rewriter = l.rewriter; loader = l.loader; fed = l.fed; failed = l.has_failed } };

    ghost invariant = { λ l. IsLoading l.rewriter l.fed };
}

impl PresentationLoader {
    /// A loader that was fed nothing, under the origin of the file, whose letters names in data
    /// keep.
    pub fn new(alloc: Global, origin: &CasedName) -> PresentationLoader
        ensures stands { StandsForPresentation origin.now result [] }
        ensures nothing { result.fed ≡ 0 }
        ensures works { result.failed ≡ false }
    {
        let name = origin.folded();
        let rewriter = Rewriter::new(alloc, origin);
        let loader = FileLoader::new(alloc, &name);
        PresentationLoader {
            rewriter,
            loader,
            fed: 0,
            has_failed: false,
        }
    }

    /// Takes the next piece of the file, of any length. Once a refusal is decided it keeps nothing
    /// of the records. More than [`TEXT_LIMIT`] octets, of the file or of its generic form, are
    /// refused.
    ///
    /// # Errors
    ///
    /// `Memory`. The loader has failed then, or had failed before.
    pub fn feed(&mut self, piece: &[u8]) -> Result<(), Stop>
        ensures stands { OnOk result ((origin : Labels) (fed : List ℕ)
            → StandsForPresentation origin self.old fed
            → StandsForPresentation origin self.new (fed ++ piece.now)) }
        ensures count { self.new.fed ≡ min (self.old.fed + length piece.now) (2 ^ 64 - 1) }
        ensures works { OnOk result ((self.old.failed ≡ false) × (self.new.failed ≡ false)) }
        ensures memory { IfErr result (λ stop. stop ≡ Memory) }
        ensures failed { OnErr result (self.new.failed ≡ true) }
    {
        let fed = self.fed.saturating_add(piece.len() as u64);
        self.fed = fed;
        if self.has_failed {
            return Err(Stop::Memory);
        }
        if fed > TEXT_LIMIT {
            return Ok(());
        }
        let Ok(()) = self.rewriter.feed(piece) else {
            self.has_failed = true;
            return Err(Stop::Memory);
        };
        let Ok(()) = self.loader.feed(self.rewriter.written()) else {
            self.has_failed = true;
            return Err(Stop::Memory);
        };
        self.rewriter.clear_written();
        Ok(())
    }

    /// The zone that the file denotes, which has ended.
    ///
    /// # Errors
    ///
    /// `Refused` where it denotes none, with the fault and the place, and the entry at fault where
    /// its items state no data of its further type. `Memory`, also where the loader has failed.
    pub fn finish(self) -> Result<Zone, PresentationRefusal>
        ensures zone { IfOk result (λ z. (origin : Labels) (fed : List ℕ)
            → StandsForPresentation origin self fed → PresentationDenotes origin fed z) }
        ensures short { IfOk result (λ z. length (canon z) ≤ text_limit) }
        ensures fault { IfErr result (λ refusal. (origin : Labels) (fed : List ℕ)
            → StandsForPresentation origin self fed
            → IfRefused refusal.stop (λ fault place. IsReported origin fed fault place
            (option_map refused_of refusal.entry))) }
        ensures stopped { IfErr result (λ refusal. IsOfBytes refusal.stop) }
        ensures failed { self.failed ≡ true → result ≡ Err (record { stop = Memory; entry = None }) }
    {
        if self.has_failed {
            return Err(PresentationRefusal::of_stop(Stop::Memory));
        }
        let PresentationLoader {
            mut rewriter,
            mut loader,
            fed,
            ..
        } = self;
        if fed > TEXT_LIMIT {
            return Err(PresentationRefusal::of_stop(Stop::Refused(
                Fault::InputTooLong,
                Place::Whole,
            )));
        }
        a_file_denotes_what_its_generic_form_denotes();
        rewriting_is_unique();
        let Ok(()) = rewriter.finish() else {
            return Err(PresentationRefusal::of_stop(Stop::Memory));
        };
        let Ok(()) = loader.feed(rewriter.written()) else {
            return Err(PresentationRefusal::of_stop(Stop::Memory));
        };
        match loader.finish() {
            Ok(zone) => Ok(zone),
            Err(stop) => Err(PresentationRefusal::of_first(stop, rewriter.refusals().first)),
        }
    }

    /// Whether the octets so far refuse the file, but for its length, whatever follows them.
    pub fn is_refused(&self) -> bool
        ensures { result ≡ is_some self.now.loader.refusal }
    {
        self.loader.is_refused()
    }

    /// The number of octets of all pieces, at most `u64::MAX`.
    pub fn fed(&self) -> u64
        ensures { result ≡ self.now.fed }
    {
        self.fed
    }
}
