//! The records of a zone in the order of a digest.
ghost use Rattle.std.specs.Prelude.{◌≡◌};
ghost use Rattle.zone_digest.specs.Machine.Walk.{by_owner, goes_before};
ghost use Rattle.zone_rdata.specs.Lent.{record_of};
ghost use Rattle.zone_set.specs.Zone.{IsZone};

use std::marker::Model;
use zone_rdata::RrRef;
use zone_set::{Records, Zone};

/// The records of a zone that are left, in the order of a digest: by owner, by type and by data. So
/// the SOA, which a zone has first, comes after those at the apex whose types are lower.
#[derive(Drop)]
pub(crate) struct OrderedRecords<'z> {
    /// The SOA, until it is its turn.
    soa: Option<RrRef<'z>>,
    /// The first of the other records that are left.
    next: Option<RrRef<'z>>,
    /// Those after it.
    rest: Records<'z>,
}

impl<'z> Model for OrderedRecords<'z> {
    ghost use Rattle.std.specs.Prelude.{◌≡◌, List, [], None};
    ghost use Rattle.zone_rdata.specs.Record.{Record};
    ghost use Rattle.zone_digest.specs.Machine.Walk.{next_and, with_soa};

    ghost Value = { List Record };

    ghost view = { λ o. with_soa o.soa (next_and o.next o.rest) };

    ghost invariant = { λ o. o.next ≡ None → o.rest ≡ [] };
}

impl<'z> OrderedRecords<'z> {
    /// The records of a zone.
    pub(crate) fn new(zone: &'z Zone) -> OrderedRecords<'z>
        ensures records { result ≡ by_owner zone.now.records }
        ensures zone { IsZone zone.now }
    {
        let mut rest = zone.records();
        let soa = rest.next();
        let next = rest.next();
        OrderedRecords { soa, next, rest }
    }
}

impl<'z> Iterator for OrderedRecords<'z> {
    type Item = RrRef<'z>;

    ghost use Rattle.std.specs.Iterator.{YieldsFirstBy, item_count};
    ghost use Rattle.zone_rdata.specs.Lent.{record_of};

    ghost next_gives = { YieldsFirstBy record_of (λ s. s) };

    ghost remaining = { item_count (λ s. s) };

    fn next(&mut self) -> Option<RrRef<'z>> {
        let Some(rr) = self.next.take() else {
            return self.soa.take();
        };
        if let Some(soa) = self.soa.take() {
            if !is_before(&rr, &soa) {
                self.next = Some(rr);
                return Some(soa);
            }
            self.soa = Some(soa);
        }
        self.next = self.rest.next();
        Some(rr)
    }
}

/// Whether a record goes before the SOA.
fn is_before(rr: &RrRef<'_>, soa: &RrRef<'_>) -> bool
    ensures { result ≡ goes_before (record_of rr.now) (record_of soa.now) }
{
    rr.kind.number() < soa.kind.number() && rr.owner.is_same(&soa.owner)
}
