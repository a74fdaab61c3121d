//! Records of a zone that others are looked up among.
ghost use Rattle.std.specs.Prelude.{◌≡◌, Some, IfOk, IfSome, IsNone, length, slice_get};
ghost use Rattle.zone_rdata.specs.Lent.{record_of};
ghost use Rattle.zone_set.specs.Order.{Ascends};
ghost use Rattle.zone_set.specs.Zone.{Has};
ghost use Rattle.record_places.specs.Machine.SoFar.{AreSorted, records_in};

use std::alloc::{AllocError, Global};
use std::cmp::Ordering;
use std::marker::Model;
use zone_rdata::{Class, RrRef};
use zone_set::{Zone, canonical_order};

/// The records of a zone, borrowed, in canonical order.
#[derive(Drop)]
pub(crate) struct SortedRecords<'z> {
    class: Class,
    records: Vec<RrRef<'z>>,
}

impl<'z> Model for SortedRecords<'z> {
    ghost use Rattle.std.specs.Prelude.{List};
    ghost use Rattle.zone_rdata.specs.Record.{Record};
    ghost use Rattle.record_places.specs.Machine.SoFar.{AreSorted, records_in};

    ghost Value = { List Record };

    ghost view = { λ s. records_in s.records.items };

    ghost invariant = { λ s. AreSorted s.class s.records.items };
}

impl<'z> SortedRecords<'z> {
    /// The records of a zone.
    ///
    /// # Errors
    ///
    /// `AllocError`.
    pub(crate) fn of_zone(alloc: Global, zone: &'z Zone) -> Result<SortedRecords<'z>, AllocError>
        ensures { IfOk result (λ sorted. sorted ≡ zone.now.records) }
    {
        let mut records = Vec::new(alloc);
        for rr in zone.records() {
            records.push(rr)?;
        }
        Ok(SortedRecords {
            class: zone.class(),
            records,
        })
    }

    /// How many there are.
    pub(crate) fn len(&self) -> usize
        ensures { result ≡ length self.now }
    {
        self.records.len()
    }

    /// The index of a record among them.
    pub(crate) fn index_of(&self, rr: &RrRef<'_>) -> Option<usize>
        ensures found { IfSome result (λ index.
            slice_get self.now index ≡ Some (record_of rr.now)) }
        ensures none { IsNone result → Has self.now (record_of rr.now) → ⊥ }
        ensures up { Ascends self.now }
    {
        if rr.class != self.class {
            return None;
        }
        index_among(self.records.as_slice(), rr)
    }
}

/// The index of a record among records in canonical order, all of its class.
fn index_among(records: &[RrRef<'_>], rr: &RrRef<'_>) -> Option<usize>
    requires { AreSorted rr.now.class records.now }
    ensures found { IfSome result (λ index.
        slice_get (records_in records.now) index ≡ Some (record_of rr.now)) }
    ensures none { IsNone result → Has (records_in records.now) (record_of rr.now) → ⊥ }
{
    let (mut low, mut high) = (0, records.len());
    'halves: while low < high {
        let middle = low + (high - low) / 2;
        let held = &records[middle];
        match canonical_order(held, rr) {
            Ordering::Less => low = middle + 1,
            Ordering::Greater => high = middle,
            Ordering::Equal => {
                return if held.is_same(rr) { Some(middle) } else { None };
            }
        }
    }
    None
}
