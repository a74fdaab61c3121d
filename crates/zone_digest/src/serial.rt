//! The SOA of a zone.
ghost use Rattle.std.specs.Int.{to_be_bytes, w32};
ghost use Rattle.std.specs.Prelude.{◌≡◌, ◌↔◌, ◌≤◌, ◌∷◌, List, length};
ghost use Rattle.zone_digest.specs.Verdict.{IsSerial};
ghost use Rattle.zone_name.specs.Common.{Octets};
ghost use Rattle.zone_rdata.specs.Lent.{record_of};
ghost use Rattle.zone_rdata.specs.Record.{Record};
ghost use Rattle.zone_set.specs.Zone.{IsZone};

use zone_rdata::RrRef;
use zone_set::Zone;

/// The serial of the zone's SOA (RFC 1035 3.3.13).
pub fn serial_of(zone: &Zone) -> u32
    ensures { (octets : Octets) →
        IsSerial zone.now octets ↔ (octets ≡ to_be_bytes w32 result) }
{
    let soa = soa_of(zone);
    let octets = soa.rdata.octets();
    let (_, numbers) = octets.split_at(octets.len() - 20);
    match numbers.first_chunk::<4>() {
        Some(serial) => u32::from_be_bytes(*serial),
        None => unreachable!(),
    }
}

/// The SOA of the zone, its first record. Its data ends with five numbers of 4 octets.
pub(crate) fn soa_of(zone: &Zone) -> RrRef<'_>
    ensures first { (others : List Record) × (zone.now.records ≡ record_of result ∷ others) }
    ensures numbers { 20 ≤ length (record_of result).octets }
    ensures zone { IsZone zone.now }
{
    match zone.records().next() {
        Some(soa) => soa,
        None => unreachable!(),
    }
}
