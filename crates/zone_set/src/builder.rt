ghost use Rattle.std.specs.Prelude.{◌≡◌, OnOk, OnErr, IfOk, IfErr};
ghost use Rattle.zone_set.specs.Builder.{Accepts, Adds, StopsAdd, TakesAll, StopsTaking, StopsFinish};
ghost use Rattle.zone_set.specs.Zone.{AreCompatible, IsZone};

use crate::sets::ZoneBuilder;
use crate::zone::Zone;
use zone_rdata::{Fault, Place, Placed, RrSource, Stop};

impl ZoneBuilder {
    /// Takes a record. An equal record is dropped.
    ///
    /// # Errors
    ///
    /// `Refused` at the record's place: `ClassMismatch` where its class isn't that of the records
    /// held; `MultipleSoa` where it is an SOA and one is held that differs in owner or data;
    /// `DifferingTtl` where a record of its set has another TTL. `Memory` where memory was refused.
    /// The builder is unchanged, and the record comes back.
    pub fn add(&mut self, placed: Placed) -> Result<(), (Stop, Placed)>
        ensures accepted { OnOk result (Accepts self.old placed.rr) }
        ensures taken { OnOk result (Adds self.old placed.rr self.new) }
        ensures refused { IfErr result (λ e. StopsAdd self.old placed e.0) }
        ensures returned { IfErr result (λ e. e.1 ≡ placed) }
        ensures unchanged { OnErr result (self.new ≡ self.old) }
    {
        match self.hold(&placed.rr.lend(), placed.place) {
            Ok(()) => Ok(()),
            Err(stop) => Err((stop, placed)),
        }
    }

    /// Takes all that a source has left to give.
    ///
    /// # Errors
    ///
    /// The first refusal of `add`, or the fault at the source's end; `Memory` where memory was
    /// refused or the source has failed. The records before it are held, and the one that was
    /// refused is dropped: the source has those after it left. Nothing else of the source changes.
    pub fn take_all<S: RrSource>(&mut self, source: &mut S) -> Result<(), Stop>
        ensures taken { OnOk result
            (TakesAll self.old (S.pending source.old) self.new (S.pending source.new)) }
        ensures stopped { IfErr result
            (StopsTaking self.old (S.pending source.old) self.new (S.pending source.new)) }
        ensures beside { S.beside source.new ≡ S.beside source.old }
    {
        loop {
            // Matched whole: a `?` would move each record once more.
            match source.next() {
                Ok(Some(placed)) => match self.hold(&placed.rr.lend(), placed.place) {
                    Ok(()) => {}
                    Err(refused) => return Err(refused),
                },
                Ok(None) => return Ok(()),
                Err(stop) => return Err(stop),
            }
        }
    }

    /// The zone of the records held.
    ///
    /// # Errors
    ///
    /// `Refused` at the input as a whole: `NoSoa` where no SOA is held, `OutOfZone` with the least
    /// owner that lies outside the zone.
    #[tactic(auto, using(crate::proofs::Holding::Finishing::finishing_stops))]
    pub fn finish(self) -> Result<Zone, Stop>
        ensures compatible { AreCompatible self }
        ensures zone { IfOk result IsZone }
        ensures records { IfOk result (λ z. z.records ≡ self) }
        ensures stopped { IfErr result (StopsFinish self) }
    {
        let Some(first) = self.iter().next() else {
            return Err(Stop::Refused(Fault::NoSoa, Place::Whole));
        };
        // An SOA goes before all else.
        if !first.kind.is_soa() {
            return Err(Stop::Refused(Fault::NoSoa, Place::Whole));
        }
        let (apex, class) = (first.owner.to_name(), first.class);
        if let Some(owner) = self.first_outside(&apex) {
            let outside = Fault::OutOfZone(owner.to_name());
            return Err(Stop::Refused(outside, Place::Whole));
        }
        Ok(Zone {
            apex,
            class,
            sets: self,
        })
    }
}
