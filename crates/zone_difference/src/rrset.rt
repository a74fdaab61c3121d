ghost use Rattle.std.specs.Prelude.{◌↔◌, IsTrue};
ghost use Rattle.zone_difference.specs.Difference.{AreOfOneRrset};
ghost use Rattle.zone_rdata.specs.Lent.{record_of};

use zone_rdata::RrRef;

/// Whether two records are of one RRset (RFC 2181 5).
pub(crate) fn are_of_one_rrset(rr: &RrRef<'_>, other: &RrRef<'_>) -> bool
    ensures { IsTrue result ↔ AreOfOneRrset (record_of rr.now) (record_of other.now) }
{
    rr.kind.number() == other.kind.number()
        && rr.class.number() == other.class.number()
        && rr.owner.is_same(&other.owner)
}
