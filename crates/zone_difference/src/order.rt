//! The order of records of two zones.
ghost use Rattle.std.specs.Prelude.{◌≡◌, ◌==◌, if◌then◌else◌};
ghost use Rattle.zone_rdata.specs.Lent.{record_of};
ghost use Rattle.zone_set.specs.Order.{canonical_cmp};

use std::cmp::Ordering;
use zone_rdata::{Kind, RrRef};
use zone_set::canonical_order;

/// The rank by which an SOA goes before all else.
fn soa_rank(kind: Kind) -> u8
    ensures { result ≡ (if kind == 6 then 0 else 1) }
{
    if kind.is_soa() { 0 } else { 1 }
}

/// How records lie in canonical order, those of two classes too.
pub(crate) fn order_of(rr: &RrRef<'_>, other: &RrRef<'_>) -> Ordering
    ensures { result ≡ canonical_cmp (record_of rr.now) (record_of other.now) }
{
    if rr.class.number() == other.class.number() {
        return canonical_order(rr, other);
    }
    match soa_rank(rr.kind).cmp(&soa_rank(other.kind)) {
        Ordering::Equal => match rr.owner.cmp(&other.owner) {
            Ordering::Equal => rr.class.number().cmp(&other.class.number()),
            owners => owners,
        },
        ranks => ranks,
    }
}
