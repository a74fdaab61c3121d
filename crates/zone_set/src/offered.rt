ghost use Rattle.std.specs.Prelude.{◌≡◌, ◌==◌, if◌then◌else◌};
ghost use Rattle.std.specs.Ordering.{is_lt, ordering_then};
ghost use Rattle.zone_name.specs.Order.{name_cmp};
ghost use Rattle.zone_rdata.specs.Order.{data_cmp};
ghost use Rattle.zone_rdata.specs.Record.{data_of};
ghost use Rattle.zone_set.specs.Machine.Held.{entry_record, IsLinked};
ghost use Rattle.zone_set.specs.Order.{canonical_cmp};
ghost use Rattle.zone_rdata.specs.Lent.{record_of};

use crate::entry::Entry;
use crate::order::octet_order;
use crate::owner::owner_order;
use crate::stored::record_at;
use sorted_chunks::Sought;
use std::cmp::Ordering;
use zone_rdata::{Kind, RrRef};

/// A record that is offered to the sets, with its hint and the octets of the records held.
#[derive(Drop)]
pub(crate) struct Offered<'a, 'z> {
    pub(crate) octets: &'a [u8],
    pub(crate) hint: u64,
    pub(crate) rr: &'a RrRef<'z>,
}

impl<'a, 'z> Offered<'a, 'z> {
    /// The record of an entry.
    pub(crate) fn held(&self, entry: Entry) -> RrRef<'a>
        requires { IsLinked self.now.rr.now.class self.now.octets.now entry }
        ensures { record_of result ≡ entry_record self.now.rr.now.class self.now.octets.now entry }
    {
        record_at(self.rr.class, self.octets, entry.at)
    }

    /// Whether the record of an entry is before this one, by their octets. Most comparisons end
    /// with the hints, so this stands apart from the search.
    #[inline(never)]
    fn is_after_record(&self, entry: Entry) -> bool
        requires { IsLinked self.now.rr.now.class self.now.octets.now entry }
        ensures { result ≡ is_lt (canonical_cmp
            (entry_record self.now.rr.now.class self.now.octets.now entry)
            (record_of self.now.rr.now)) }
    {
        canonical_order(&self.held(entry), self.rr).is_lt()
    }
}

impl<'a, 'z> Sought<Entry> for Offered<'a, 'z> {
    ghost use Rattle.std.specs.Ordering.{is_lt};
    ghost use Rattle.zone_set.specs.Machine.Held.{entry_record, IsComparable};
    ghost use Rattle.zone_set.specs.Order.{canonical_cmp};
    ghost use Rattle.zone_rdata.specs.Lent.{record_of};

    ghost knows = { λ o e. IsComparable o.octets.now o.hint (record_of o.rr.now) e };

    ghost follows = { λ o e.
        is_lt (canonical_cmp (entry_record o.rr.now.class o.octets.now e) (record_of o.rr.now)) };

    fn is_after(&self, entry: &Entry) -> bool {
        if entry.hint != self.hint {
            return entry.hint < self.hint;
        }
        self.is_after_record(*entry)
    }
}

/// How records of one class lie in canonical order.
pub fn canonical_order(rr: &RrRef<'_>, other: &RrRef<'_>) -> Ordering
    requires { rr.now.class ≡ other.now.class }
    ensures { result ≡ canonical_cmp (record_of rr.now) (record_of other.now) }
{
    match soa_rank(rr.kind).cmp(&soa_rank(other.kind)) {
        Ordering::Equal => order_by_owner(rr, other),
        ranks => ranks,
    }
}

/// How records of one class lie by owner, type and data.
fn order_by_owner(rr: &RrRef<'_>, other: &RrRef<'_>) -> Ordering
    requires { rr.now.class ≡ other.now.class }
    ensures { result ≡ ordering_then (name_cmp rr.now.owner other.now.owner)
        (data_cmp (data_of (record_of rr.now)) (data_of (record_of other.now))) }
{
    match owner_order(rr.owner.wire(), other.owner.wire()) {
        Ordering::Equal => match rr.kind.number().cmp(&other.kind.number()) {
            Ordering::Equal => octet_order(rr.rdata.octets(), other.rdata.octets()),
            kinds => kinds,
        },
        owners => owners,
    }
}

/// The rank by which an SOA goes before all else.
fn soa_rank(kind: Kind) -> u8
    ensures { result ≡ (if kind == 6 then 0 else 1) }
{
    if kind.is_soa() { 0 } else { 1 }
}
