ghost use Rattle.std.specs.Prelude.{◌≡◌, ◌≤◌, ◌↔◌, List, length, IsTrue};
ghost use Rattle.std.specs.declared.cmp.Ordering.TheVariants.{Less};
ghost use Rattle.zone_difference.specs.Walk.{AreSides, AreTaken, AreToCome, others_of, with_taken};
ghost use Rattle.zone_rdata.specs.Lent.{record_of};
ghost use Rattle.zone_rdata.specs.Record.{Record};
ghost use Rattle.zone_set.specs.Order.{Ascends, canonical_cmp};
ghost use Rattle.zone_set.specs.Zone.{Has, IsZone};

use crate::order::order_of;
use std::cmp::Ordering;
use zone_rdata::RrRef;
use zone_set::{Records, Zone};

/// The records of one zone that another lacks, in canonical order.
#[derive(Drop)]
pub(crate) struct OnlyIn<'z> {
    /// The records of the zone that are left.
    records: Records<'z>,
    /// The first of the other zone's records that are left, taken.
    other: Option<RrRef<'z>>,
    others: Records<'z>,
}

/// Takes the next record.
pub(crate) fn take_next<'z>(records: &mut Records<'z>) -> Option<RrRef<'z>>
    ensures { with_taken result records.new ≡ records.old }
{
    records.next()
}

/// Passes the records before this one, and returns whether it is among those that are left.
fn pass_to<'z>(other: &mut Option<RrRef<'z>>, others: &mut Records<'z>, rr: &RrRef<'_>) -> bool
    requires { Ascends (with_taken other.old others.old) }
    ensures up { Ascends (with_taken other.new others.new) }
    ensures has { IsTrue result ↔ Has (with_taken other.old others.old) (record_of rr.now) }
    ensures rest { (s : Record) → canonical_cmp (record_of rr.now) s ≡ Less
        → Has (with_taken other.new others.new) s ↔ Has (with_taken other.old others.old) s }
{
    'walk: while let Some(next) = other.take() {
        match order_of(&next, rr) {
            Ordering::Less => *other = take_next(others),
            Ordering::Equal => {
                let same = next.is_same(rr);
                *other = Some(next);
                return same;
            }
            Ordering::Greater => {
                *other = Some(next);
                return false;
            }
        }
    }
    false
}

impl<'z> OnlyIn<'z> {
    /// The records of a zone that the other lacks.
    pub(crate) fn new(zone: &'z Zone, other: &'z Zone) -> OnlyIn<'z>
        ensures records { result.records ≡ zone.now.records }
        ensures others { others_of result ≡ other.now.records }
        ensures sides { AreSides result.records (others_of result) }
        ensures zone { IsZone zone.now }
        ensures other { IsZone other.now }
    {
        let records = zone.records();
        let mut others = other.records();
        let other = take_next(&mut others);
        OnlyIn {
            records,
            other,
            others,
        }
    }

    /// Takes the next of them.
    pub(crate) fn next(&mut self) -> Option<RrRef<'z>>
        requires { (only : List Record) × AreToCome self.old only }
        ensures taken { (only : List Record) → AreToCome self.old only
            → AreTaken result self.new only }
        ensures fewer { length (with_taken result self.new.records) ≤ length self.old.records }
    {
        'walk: while let Some(rr) = self.records.next() {
            if !pass_to(&mut self.other, &mut self.others, &rr) {
                return Some(rr);
            }
        }
        None
    }
}
