ghost use Rattle.std.specs.Prelude.{◌≡◌, ◌+◌, ◌^◌, ◌<◌, ◌≤◌, ◌++◌, false, [], Some, None, Err, is_some, length, IfOk, IfErr, IfSome, IsOk, OnOk};
ghost use Rattle.zone_name.specs.Common.{Octets, AreOctets};
ghost use Rattle.zone_rdata.specs.declared.fault.Stop.TheVariants.{Memory};
ghost use Rattle.zone_engine.specs.Machine.Input.{IsForm, ReadAs, input_of};
ghost use Rattle.zone_engine.specs.Machine.Loading.{IsFirstStop, IsLoadedOf, ReadsZone, RefusesRead};
ghost use Rattle.zone_engine.specs.Normalise.{IsOfBytes};
ghost use Rattle.zone_engine.specs.Refusal.{IfRefused};

use crate::fed::FedSource;
use crate::laws::what_is_decided_refuses;
use std::alloc::Global;
use std::mem::replace;
use zone_rdata::{Fault, Place, Stop};
use zone_set::{Zone, ZoneList};

/// What was taken of an input that is fed.
#[derive(Drop)]
pub(crate) struct ZoneLoader {
    alloc: Global,
    /// The records so far, until the input is refused.
    list: ZoneList,
    /// Why the input is refused, and where, if that is decided.
    refusal: Option<(Fault, Place)>,
}

impl ZoneLoader {
    /// Nothing was taken.
    pub(crate) fn new(alloc: Global) -> ZoneLoader
        ensures lists { result.list ≡ [] }
        ensures refuses { result.refusal ≡ None }
    {
        ZoneLoader {
            alloc,
            list: ZoneList::new(alloc),
            refusal: None,
        }
    }

    /// Whether the input is refused already.
    pub(crate) fn is_refused(&self) -> bool
        ensures { result ≡ is_some self.now.refusal }
    {
        self.refusal.is_some()
    }

    /// Refuses the input, and keeps none of its records.
    pub(crate) fn refuse(&mut self, fault: Fault, place: Place)
        ensures { self.new.refusal ≡ Some (fault, place) }
    {
        self.list = ZoneList::new(self.alloc);
        self.refusal = Some((fault, place));
    }

    /// Feeds a piece to the source, and takes the records that it decides. After a refusal it does
    /// nothing.
    ///
    /// # Errors
    ///
    /// `Memory`.
    pub(crate) fn take<S: FedSource>(&mut self, source: &mut S, piece: &[u8]) -> Result<(), Stop>
        requires open { (S.held source.old).finished ≡ false }
        requires fits { (S.held source.old).fed + length piece.now + 1 < 2 ^ 64 }
        ensures taken { OnOk result ((form : ReadAs) (octets : Octets)
            → IsLoadedOf S.IsOf S.Leave (S.pending source.old) (S.held source.old)
            self.old.list self.old.refusal form octets
            → IsLoadedOf S.IsOf S.Leave (S.pending source.new) (S.held source.new)
            self.new.list self.new.refusal form (octets ++ piece.now)) }
        ensures open { (S.held source.new).finished ≡ false }
        ensures fed { (S.held source.new).fed ≤ (S.held source.old).fed + length piece.now }
        ensures refused { IfSome self.old.refusal (λ _. IsOk result × (self.new ≡ self.old)) }
        ensures stopped { IfErr result (λ stop. stop ≡ Memory) }
        ensures octets { AreOctets piece.now }
    {
        if self.refusal.is_some() {
            return Ok(());
        }
        source.feed(piece)?;
        match self.list.take_lent(source) {
            Ok(()) => Ok(()),
            Err(stop) => {
                let list = replace(&mut self.list, ZoneList::new(self.alloc));
                match first_stop(list, stop) {
                    Stop::Refused(fault, place) => {
                        self.refusal = Some((fault, place));
                        Ok(())
                    }
                    stop => Err(stop),
                }
            }
        }
    }

    /// Ends the source, and makes the zone of all records.
    ///
    /// # Errors
    ///
    /// `Refused` with the refusal of the input, but for its length and that of its canonical text;
    /// `Memory`.
    pub(crate) fn finish<S: FedSource>(self, source: &mut S) -> Result<Zone, Stop>
        requires open { (S.held source.old).finished ≡ false }
        ensures zone { IfOk result (λ z. (form : ReadAs) (octets : Octets)
            → IsLoadedOf S.IsOf S.Leave (S.pending source.old) (S.held source.old)
            self.list self.refusal form octets
            → ReadsZone (input_of form octets) z) }
        ensures fault { IfErr result (λ stop. (form : ReadAs) (octets : Octets)
            → IsForm form → AreOctets octets
            → IsLoadedOf S.IsOf S.Leave (S.pending source.old) (S.held source.old)
            self.list self.refusal form octets
            → IfRefused stop (RefusesRead (input_of form octets))) }
        ensures refused { IfSome self.refusal
            (λ refusal. result ≡ Err (Stop.Refused refusal.0 refusal.1)) }
        ensures stopped { IfErr result IsOfBytes }
    {
        let ZoneLoader {
            mut list,
            refusal,
            ..
        } = self;
        what_is_decided_refuses();
        match refusal {
            Some((fault, place)) => Err(Stop::Refused(fault, place)),
            None => {
                source.finish()?;
                match list.take_lent(source) {
                    Ok(()) => list.settle()?.finish(),
                    Err(stop) => Err(first_stop(list, stop)),
                }
            }
        }
    }
}

/// The first stop of an input of which these records were listed before a stop: whether one of them
/// is refused is known when they are settled.
#[tactic(auto, using(crate::proofs::Reading::Taken::first_stops))]
fn first_stop(list: ZoneList, stop: Stop) -> Stop
    ensures { IsFirstStop list stop result }
{
    match list.settle() {
        Ok(_settled) => stop,
        Err(earlier) => earlier,
    }
}
