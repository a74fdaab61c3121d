//! The zone of a master file that is fed in pieces.
ghost use Rattle.std.specs.Prelude.{◌≡◌, ◌+◌, ◌-◌, ◌^◌, ◌≤◌, ◌++◌, ℕ, true, false, [], List, None, Err, length, min, is_some, IfErr, IfOk, IfSome, IsOk, OnErr, OnOk};
ghost use Rattle.zone_name.specs.Common.{Labels};
ghost use Rattle.zone_rdata.specs.declared.fault.Stop.TheVariants.{Memory};
ghost use Rattle.zone_print.specs.Canonical.{canon, text_limit};
ghost use Rattle.zone_engine.specs.FileLoader.{StandsForFed};
ghost use Rattle.zone_engine.specs.Input.{InputDenotes, file};
ghost use Rattle.zone_engine.specs.Normalise.{IsOfBytes};
ghost use Rattle.zone_engine.specs.Refusal.{IfRefused, IsRefusal};

use crate::laws::{what_is_decided_refuses, what_is_read_is_stated};
use crate::loader::ZoneLoader;
use std::alloc::Global;
use std::marker::Model;
use zone_name::Name;
use zone_print::{TEXT_LIMIT, text_fits};
use zone_rdata::{Fault, Place, Stop};
use zone_set::Zone;
use zone_text::TextSource;
use zone_text::laws::file::of_nothing_nothing_is_decided;

/// The zone of a master file (RFC 1035 5.1) that is fed in pieces. It takes a record as soon as a
/// line feed has ended its entry, and keeps the octets of the entry that isn't ended, and no others.
/// Once a refusal is decided it keeps no records, and counts octets alone. Contracts see what it
/// holds.
///
/// Once it was refused memory it has failed: every later `feed` and `finish` answers `Memory`.
#[derive(Drop)]
pub struct FileLoader {
    source: TextSource,
    taken: ZoneLoader,
    /// The octets of all pieces, at most `u64::MAX`.
    fed: u64,
    has_failed: bool,
}

impl Model for FileLoader {
    ghost use Rattle.zone_engine.specs.FileLoader.{LoaderState};
    ghost use Rattle.zone_engine.specs.Machine.FileLoading.{IsFileLoader};

    ghost Value = { LoaderState };

    ghost view = { λ l. record { source = l.source; listed = l.taken.list; refusal = l.taken.refusal; fed = l.fed; failed = l.has_failed } };

    ghost invariant = { λ l. IsFileLoader l.source l.fed };
}

impl FileLoader {
    /// A loader that was fed nothing, under the origin of the file.
    pub fn new(alloc: Global, origin: &Name) -> FileLoader
        ensures stands { StandsForFed origin.now result [] }
        ensures nothing { result.fed ≡ 0 }
        ensures undecided { result.refusal ≡ None }
        ensures works { result.failed ≡ false }
    {
        origin.known();
        of_nothing_nothing_is_decided();
        let source = TextSource::new(alloc, origin);
        let taken = ZoneLoader::new(alloc);
        FileLoader {
            source,
            taken,
            fed: 0,
            has_failed: false,
        }
    }

    /// Takes the next piece of the file, of any length. Once a refusal is decided it counts the
    /// piece alone, which takes no memory. A file of more than [`TEXT_LIMIT`] octets is refused.
    ///
    /// # Errors
    ///
    /// `Memory`. The loader has failed then, or had failed before.
    pub fn feed(&mut self, piece: &[u8]) -> Result<(), Stop>
        ensures stands { OnOk result ((origin : Labels) (fed : List ℕ)
            → StandsForFed origin self.old fed
            → StandsForFed origin self.new (fed ++ piece.now)) }
        ensures count { self.new.fed ≡ min (self.old.fed + length piece.now) (2 ^ 64 - 1) }
        ensures works { OnOk result ((self.old.failed ≡ false) × (self.new.failed ≡ false)) }
        ensures memory { IfErr result (λ stop. stop ≡ Memory) }
        ensures failed { OnErr result (self.new.failed ≡ true) }
        ensures decided { self.old.failed ≡ false → IfSome self.old.refusal (λ _. IsOk result) }
    {
        what_is_decided_refuses();
        let fed = self.fed.saturating_add(piece.len() as u64);
        self.fed = fed;
        if self.has_failed {
            return Err(Stop::Memory);
        }
        if fed > TEXT_LIMIT {
            self.taken.refuse(Fault::InputTooLong, Place::Whole);
            return Ok(());
        }
        match self.taken.take(&mut self.source, piece) {
            Ok(()) => Ok(()),
            Err(stop) => {
                self.has_failed = true;
                Err(stop)
            }
        }
    }

    /// The zone that the file denotes, which has ended.
    ///
    /// # Errors
    ///
    /// `Refused` where it denotes none: the fault and the place that [`accepted_zone`] answers of
    /// the same octets. `Memory`, also where the loader has failed.
    ///
    /// [`accepted_zone`]: crate::accepted_zone
    pub fn finish(self) -> Result<Zone, Stop>
        ensures zone { IfOk result (λ z. (origin : Labels) (fed : List ℕ)
            → StandsForFed origin self fed → InputDenotes (file origin fed) z) }
        ensures short { IfOk result (λ z. length (canon z) ≤ text_limit) }
        ensures fault { IfErr result (λ stop. (origin : Labels) (fed : List ℕ)
            → StandsForFed origin self fed → IfRefused stop (IsRefusal (file origin fed))) }
        ensures stopped { IfErr result IsOfBytes }
        ensures decided { self.failed ≡ false → IfSome self.refusal
            (λ refusal. result ≡ Err (Stop.Refused refusal.0 refusal.1)) }
        ensures failed { self.failed ≡ true → result ≡ Err Memory }
    {
        if self.has_failed {
            return Err(Stop::Memory);
        }
        let FileLoader {
            mut source,
            taken,
            ..
        } = self;
        what_is_read_is_stated();
        let stated = taken.finish(&mut source)?;
        if !text_fits(&stated) {
            return Err(Stop::Refused(Fault::ZoneTooLarge, Place::Whole));
        }
        Ok(stated)
    }

    /// Whether the octets so far refuse the file, whatever follows them.
    pub fn is_refused(&self) -> bool
        ensures { result ≡ is_some self.now.refusal }
    {
        self.taken.is_refused()
    }

    /// The number of octets of all pieces, at most `u64::MAX`.
    pub fn fed(&self) -> u64
        ensures { result ≡ self.now.fed }
    {
        self.fed
    }
}
