//! The verdicts on the ZONEMD records of a zone (RFC 8976 4).
ghost use Rattle.std.specs.Prelude.{◌≡◌, ◌↔◌, ℕ, List, length, map, IfOk, IfSome, IfNone, IsTrue};
ghost use Rattle.zone_digest.specs.Findings.{AreFindings};
ghost use Rattle.zone_digest.specs.Verdict.{AreZonemds, Fields, HasFields, IsRepeated, IsSerial, IsSupported, IsVerdictOn, IsWellFormed, IsZonemd, digest_size, number};
ghost use Rattle.zone_digest.specs.Machine.Reading.{HasOtherLike, IsOtherLike, fields_of};
ghost use Rattle.zone_digest.specs.Machine.Seen.{IsSeenElsewhere};
ghost use Rattle.zone_name.specs.Common.{Octets};
ghost use Rattle.zone_rdata.specs.Lent.{record_of};
ghost use Rattle.zone_set.specs.Zone.{IsZone};

use crate::algorithm::Algorithm;
use crate::digest::{ZONEMD, digest_of};
use crate::fields::{ParsedFields, SIMPLE, algorithm_of, fields_at};
use crate::seen::Seen;
use crate::serial::serial_of;
use std::alloc::{AllocError, Global};
use zone_rdata::RrRef;
use zone_set::Zone;

/// What is told of a ZONEMD record at the apex (RFC 8976 4): the first of these that holds.
#[derive(Clone, Copy, Debug, PartialEq, Eq)]
pub enum Verdict {
    /// The data has a digest of less than 12 octets, or, of scheme SIMPLE, one of another length
    /// than its hash algorithm's.
    Malformed,
    /// The serial isn't the SOA's.
    OtherSerial,
    /// The scheme isn't SIMPLE.
    UnknownScheme,
    /// The hash algorithm is neither SHA-384 nor SHA-512.
    UnknownAlgorithm,
    /// Another ZONEMD record at the apex has the same scheme and hash algorithm.
    Repeated,
    /// The digest isn't the zone's.
    Differs,
    /// The digest is the zone's.
    Verified,
}

/// A ZONEMD record at the apex: its data and its verdict.
#[derive(Clone, Copy, Debug)]
pub struct Finding<'z> {
    /// The octets of its data (RFC 8976 2.2).
    pub octets: &'z [u8],
    /// What is told of it.
    pub verdict: Verdict,
}

/// The verdict of each ZONEMD record at the apex, in canonical order. The zone is verified if one of
/// them is [`Verdict::Verified`].
///
/// # Errors
///
/// Want of memory.
pub fn verify<'z>(alloc: Global, zone: &'z Zone) -> Result<Vec<Finding<'z>>, AllocError>
    ensures { IfOk result (λ findings. AreFindings zone.now findings.items) }
{
    let found = zonemds_of(alloc, zone)?;
    findings_of(alloc, zone, found.as_slice())
}

/// The verdict of each of the ZONEMD records at the apex.
///
/// # Errors
///
/// Want of memory.
fn findings_of<'z>(
    alloc: Global,
    zone: &Zone,
    found: &[RrRef<'z>],
) -> Result<Vec<Finding<'z>>, AllocError>
    requires found { AreZonemds zone.now (map record_of found.now) }
    requires zone { IsZone zone.now }
    ensures { IfOk result (λ findings. AreFindings zone.now findings.items) }
{
    let mut findings = Vec::new(alloc);
    let mut seen = Seen::none();
    for rr in found {
        let octets = rr.rdata.octets();
        let verdict = verdict_of(alloc, zone, found, seen, rr)?;
        findings.push(Finding { octets, verdict })?;
        seen = seen.with(octets);
    }
    Ok(findings)
}

/// The ZONEMD records at the apex, in canonical order.
///
/// # Errors
///
/// Want of memory.
pub(crate) fn zonemds_of<'z>(alloc: Global, zone: &'z Zone) -> Result<Vec<RrRef<'z>>, AllocError>
    ensures found { IfOk result (λ found. AreZonemds zone.now (map record_of found.items)) }
    ensures zone { IsZone zone.now }
{
    let apex = zone.apex().lend();
    let mut found = Vec::new(alloc);
    for rr in zone.records() {
        if !rr.owner.is_same(&apex) {
            // Those at the apex come first.
            return Ok(found);
        }
        if rr.kind.number() == ZONEMD {
            found.push(rr)?;
        }
    }
    Ok(found)
}

/// The verdict of one of the ZONEMD records at the apex, where these were seen before it.
///
/// # Errors
///
/// Want of memory.
fn verdict_of(
    alloc: Global,
    zone: &Zone,
    found: &[RrRef<'_>],
    seen: Seen,
    rr: &RrRef<'_>,
) -> Result<Verdict, AllocError>
    requires found { AreZonemds zone.now (map record_of found.now) }
    requires seen { IsSeenElsewhere zone.now (record_of rr.now) seen }
    requires zonemd { IsZonemd zone.now (record_of rr.now) }
    requires zone { IsZone zone.now }
    ensures { IfOk result (IsVerdictOn zone.now (record_of rr.now)) }
{
    let Some(fields) = well_formed(rr.rdata.octets()) else {
        return Ok(Verdict::Malformed);
    };
    if !has_serial(zone, fields.serial) {
        return Ok(Verdict::OtherSerial);
    }
    let Some(algorithm) = algorithm_of(&fields) else {
        if fields.scheme != SIMPLE {
            return Ok(Verdict::UnknownScheme);
        }
        return Ok(Verdict::UnknownAlgorithm);
    };
    if seen.has(algorithm) {
        return Ok(Verdict::Repeated);
    }
    supported_verdict(alloc, zone, found, rr, &fields, algorithm)
}

/// The verdict of one that has this supported algorithm, where none before it does.
///
/// # Errors
///
/// Want of memory.
fn supported_verdict(
    alloc: Global,
    zone: &Zone,
    found: &[RrRef<'_>],
    rr: &RrRef<'_>,
    fields: &ParsedFields<'_>,
    algorithm: Algorithm,
) -> Result<Verdict, AllocError>
    requires found { AreZonemds zone.now (map record_of found.now) }
    requires zonemd { IsZonemd zone.now (record_of rr.now) }
    requires zone { IsZone zone.now }
    requires supported { IsSupported zone.now (record_of rr.now) (fields_of fields.now) algorithm }
    ensures { IfOk result (IsVerdictOn zone.now (record_of rr.now)) }
{
    if is_repeated(found, rr, fields) {
        return Ok(Verdict::Repeated);
    }
    let digest = digest_of(alloc, zone, algorithm)?;
    if !are_same(fields.digest, digest.octets()) {
        return Ok(Verdict::Differs);
    }
    Ok(Verdict::Verified)
}

/// Whether it is the serial of the SOA.
fn has_serial(zone: &Zone, octets: &[u8]) -> bool
    ensures { IsTrue result ↔ IsSerial zone.now octets.now }
{
    are_same(octets, serial_of(zone).to_be_bytes().as_slice())
}

/// The fields of well-formed data.
fn well_formed(octets: &[u8]) -> Option<ParsedFields<'_>>
    ensures found { IfSome result (λ p. IsWellFormed octets.now (fields_of p)) }
    ensures none { IfNone result ((f : Fields) → IsWellFormed octets.now f → ⊥) }
{
    let fields = fields_at(octets)?;
    if fields.digest.len() < 12 {
        return None;
    }
    if !has_its_size(&fields) {
        return None;
    }
    Some(fields)
}

/// Whether a digest of scheme SIMPLE has as many octets as its hash algorithm says.
fn has_its_size(fields: &ParsedFields<'_>) -> bool
    ensures { IsTrue result ↔ ((a : Algorithm) → fields.now.scheme ≡ 1
        → fields.now.algorithm ≡ number a → length fields.now.digest.now ≡ digest_size a) }
{
    match algorithm_of(fields) {
        Some(algorithm) => fields.digest.len() == algorithm.size(),
        None => true,
    }
}

/// Whether one of these records has other data with the same scheme and hash algorithm.
fn is_repeated(found: &[RrRef<'_>], rr: &RrRef<'_>, fields: &ParsedFields<'_>) -> bool
    ensures { IsTrue result ↔ HasOtherLike (map record_of found.now) (record_of rr.now)
        (fields_of fields.now) }
{
    for other in found {
        if is_other_like(other, rr, fields) {
            return true;
        }
    }
    false
}

/// Whether a record has other data with this scheme and hash algorithm.
fn is_other_like(other: &RrRef<'_>, rr: &RrRef<'_>, fields: &ParsedFields<'_>) -> bool
    ensures { IsTrue result ↔ IsOtherLike (record_of rr.now) (fields_of fields.now)
        (record_of other.now) }
{
    if are_same(other.rdata.octets(), rr.rdata.octets()) {
        return false;
    }
    match fields_at(other.rdata.octets()) {
        Some(own) => have_one_pair(&own, fields),
        None => false,
    }
}

/// Whether octets are the same.
fn are_same(octets: &[u8], others: &[u8]) -> bool
    ensures { IsTrue result ↔ (octets.now ≡ others.now) }
{
    octets == others
}

/// Whether the scheme and the hash algorithm are the same.
fn have_one_pair(own: &ParsedFields<'_>, fields: &ParsedFields<'_>) -> bool
    ensures { IsTrue result ↔ ((own.now.scheme ≡ fields.now.scheme)
        × (own.now.algorithm ≡ fields.now.algorithm)) }
{
    own.scheme == fields.scheme && own.algorithm == fields.algorithm
}
