//! The ZONEMD record that a zone wants.
ghost use Rattle.std.specs.Prelude.{◌≤◌, map, IfOk};
ghost use Rattle.zone_digest.specs.Verdict.{AreZonemds};
ghost use Rattle.zone_digest.specs.Wanted.{IsTtlFor, IsWanted};
ghost use Rattle.zone_rdata.specs.Lent.{record_of};
ghost use Rattle.zone_rdata.specs.Limits.{greatest_ttl};
ghost use Rattle.zone_rdata.specs.Record.{IsRecord};

use crate::algorithm::Algorithm;
use crate::digest::{ZONEMD, digest_of};
use crate::fields::SIMPLE;
use crate::serial::{serial_of, soa_of};
use crate::verdict::zonemds_of;
use std::alloc::{AllocError, Global};
use zone_name::laws::are_octets;
use zone_rdata::{Kind, RdataRef, Rr, RrRef};
use zone_set::Zone;

/// The ZONEMD record that states the digest of a zone, of scheme SIMPLE (RFC 8976 2.2), at its
/// apex and with its serial. Its TTL is that of the ZONEMD records that are there, and where there
/// are none the SOA's.
///
/// # Errors
///
/// Want of memory.
pub fn zonemd_of(alloc: Global, zone: &Zone, algorithm: Algorithm) -> Result<Rr, AllocError>
    ensures wanted { IfOk result (IsWanted zone.now algorithm) }
    ensures record { IfOk result IsRecord }
{
    let digest = digest_of(alloc, zone, algorithm)?;
    let found = zonemds_of(alloc, zone)?;
    let mut octets = Vec::new(alloc);
    octets.extend_from_slice(serial_of(zone).to_be_bytes().as_slice())?;
    octets.push(SIMPLE)?;
    octets.push(algorithm.number())?;
    octets.extend_from_slice(digest.octets())?;
    are_octets(&octets);
    zone.class().known();
    let kind = Kind::of_judged(ZONEMD);
    let rdata = RdataRef::of_octets(zone.class(), kind, octets.as_slice()).to_rdata(alloc)?;
    let owner = zone.apex().lend().to_name();
    Ok(Rr::of_parts(owner, ttl_for(zone, found.as_slice()), rdata))
}

/// The TTL of the first of the ZONEMD records at the apex, and where there are none the SOA's.
fn ttl_for(zone: &Zone, found: &[RrRef<'_>]) -> u32
    requires { AreZonemds zone.now (map record_of found.now) }
    ensures ttl { IsTtlFor zone.now result }
    ensures short { result ≤ greatest_ttl }
{
    match found.first() {
        Some(zonemd) => zonemd.ttl,
        None => soa_of(zone).ttl,
    }
}
