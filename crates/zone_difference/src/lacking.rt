ghost use Rattle.std.specs.Prelude.{◌≡◌, ◌≤◌, ◌↔◌, ◌∷◌, List, IfOk, IsTrue, OnErr};
ghost use Rattle.std.specs.List.{AllByRecursion};
ghost use Rattle.zone_difference.specs.Difference.{AreOnlyIn, HasEqual};
ghost use Rattle.zone_difference.specs.Lacked.{AreLacking, AreNext, IsFoldedTo, left_in, left_with};
ghost use Rattle.zone_difference.specs.declared.name_case.NameCase.{NameCase};
ghost use Rattle.zone_difference.specs.declared.name_case.NameCase.TheVariants.{Folded};
ghost use Rattle.zone_rdata.specs.Lent.{record_of};
ghost use Rattle.zone_rdata.specs.Record.{IsRecord, Record};
ghost use Rattle.zone_set.specs.Order.{Ascends};
ghost use Rattle.zone_set.specs.Zone.{Has};

use crate::folded_sets::FoldedSets;
use crate::name_case::NameCase;
use crate::only_in::OnlyIn;
use data_names::{FoldedTypes, may_have_names};
use std::alloc::{AllocError, Global};
use zone_rdata::RrRef;
use zone_set::Zone;

/// The records of one zone of which another has no equal, in canonical order. With
/// `NameCase::Folded` it keeps an RRset of the other zone, with the names in its data in lower case.
#[derive(Drop)]
pub struct Lacking<'z> {
    /// The records that the other zone lacks octet by octet.
    only: OnlyIn<'z>,
    /// The RRsets of the other zone, if names in data are compared without regard to case.
    folded: Option<FoldedSets<'z>>,
}

/// The RRsets of a zone in which records are looked up, if names in data are compared without regard to
/// case.
fn sets_of<'z>(alloc: Global, zone: &'z Zone, case: NameCase) -> Option<FoldedSets<'z>>
    ensures { (wanted : List Record) → AllByRecursion IsRecord wanted → Ascends wanted
        → IsFoldedTo case zone.now.records result wanted }
{
    match case {
        NameCase::Exact => None,
        NameCase::Folded => Some(FoldedSets::new(alloc, zone)),
    }
}

/// Whether the other zone has a record that is this one but for letters of names in its data. It lacks
/// the record itself.
///
/// # Errors
///
/// Returns an error if it runs out of memory.
fn has_equal(
    folded: &mut Option<FoldedSets<'_>>,
    alloc: Global,
    rr: &RrRef<'_>,
) -> Result<bool, AllocError>
    requires { (case : NameCase) × (all wanted : List Record)
        × IsFoldedTo case all folded.old (record_of rr.now ∷ wanted) }
    ensures equal { IfOk result (λ has. (case : NameCase) (all wanted : List Record)
        → IsFoldedTo case all folded.old (record_of rr.now ∷ wanted)
        → (Has all (record_of rr.now) → ⊥)
        → IsFoldedTo case all folded.new wanted
        × (IsTrue has ↔ HasEqual case all (record_of rr.now))) }
    ensures fails { OnErr result ((case : NameCase) (all wanted : List Record)
        → IsFoldedTo case all folded.old (record_of rr.now ∷ wanted) → case ≡ Folded) }
{
    match folded {
        None => Ok(false),
        Some(sets) => {
            if !may_have_names(FoldedTypes::Every, rr.kind.number()) {
                return Ok(false);
            }
            sets.has_alike(alloc, rr)
        }
    }
}

impl<'z> Lacking<'z> {
    /// The records of a zone of which the other has no equal. In zones of two classes these are all.
    pub fn new(alloc: Global, zone: &'z Zone, other: &'z Zone, case: NameCase) -> Lacking<'z>
        ensures { (only : List Record)
            × AreLacking case other.now.records result only
            × AreOnlyIn case zone.now.records other.now.records only }
    {
        let only = OnlyIn::new(zone, other);
        let folded = sets_of(alloc, other, case);
        Lacking { only, folded }
    }

    /// Takes the next of them.
    ///
    /// # Errors
    ///
    /// Returns an error if it runs out of memory, which it doesn't need with `NameCase::Exact`.
    pub fn next(&mut self, alloc: Global) -> Result<Option<RrRef<'z>>, AllocError>
        requires { (case : NameCase) × (all only : List Record)
            × AreLacking case all self.old only }
        ensures taken { IfOk result (λ head. (case : NameCase) (all only : List Record)
            → AreLacking case all self.old only → AreNext case all head self.new only) }
        ensures fewer { IfOk result (λ head. left_with head self.new ≤ left_in self.old) }
        ensures fails { OnErr result ((case : NameCase) (all only : List Record)
            → AreLacking case all self.old only → case ≡ Folded) }
    {
        'walk: while let Some(rr) = self.only.next() {
            if !has_equal(&mut self.folded, alloc, &rr)? {
                return Ok(Some(rr));
            }
        }
        Ok(None)
    }
}
