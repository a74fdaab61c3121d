//! The digest of a zone (RFC 8976 3).
ghost use Rattle.std.specs.Prelude.{◌≡◌, ◌↔◌, ◌∷◌, [], ℕ, List, length, take, map, false, None, IfOk, OnOk, IsTrue};
ghost use Rattle.std.specs.List.{AllByRecursion};
ghost use Rattle.zone_digest.specs.Digest.{AreDigestOctets, AscendsByOwner, IsDigest, IsLeftOut};
ghost use Rattle.zone_digest.specs.Machine.Sets.{AreAlike, IsOfFirst};
ghost use Rattle.zone_digest.specs.Machine.Walk.{HasWalked, HaveOneClass};
ghost use Rattle.data_names.specs.NamesInData.{names_of};
ghost use Rattle.zone_digest.specs.Verdict.{digest_octets, digest_size};
ghost use Rattle.zone_name.specs.Common.{Labels};
ghost use Rattle.zone_rdata.specs.Lent.{record_of};
ghost use Rattle.zone_rdata.specs.Record.{data_of, IsRecord, Record};
ghost use Rattle.zone_set.specs.Zone.{covered_octets, InOneSet};

use crate::algorithm::{Algorithm, ZoneDigest};
use crate::emit::{add, add_set};
use crate::ordered::OrderedRecords;
use data_names::{FoldedTypes, may_have_names};
use sha2::{Digest, Sha384, Sha512};
use std::alloc::{AllocError, Global};
use zone_name::NameRef;
use zone_rdata::RrRef;
use zone_set::Zone;

/// The type ZONEMD.
pub(crate) const ZONEMD: u16 = 63;

/// The type RRSIG.
const RRSIG: u16 = 46;

/// The digest of a zone, of scheme SIMPLE (RFC 8976 3.3.1). It takes memory for one set of records
/// at most.
///
/// # Errors
///
/// Want of memory.
#[tactic(auto, using(crate::proofs::SameDigest::size_of))]
pub fn digest_of(alloc: Global, zone: &Zone, algorithm: Algorithm) -> Result<ZoneDigest, AllocError>
    ensures digest { IfOk result (IsDigest zone.now algorithm) }
    ensures size { IfOk result (λ digest.
        length (digest_octets digest) ≡ digest_size algorithm) }
{
    match algorithm {
        Algorithm::Sha384 => Ok(ZoneDigest::Sha384(digest_under::<Sha384>(alloc, zone)?)),
        Algorithm::Sha512 => Ok(ZoneDigest::Sha512(digest_under::<Sha512>(alloc, zone)?)),
    }
}

/// The digest of the zone by a hash function.
///
/// # Errors
///
/// Want of memory.
fn digest_under<D: Digest>(alloc: Global, zone: &Zone) -> Result<D::Output, AllocError>
    ensures { IfOk result (λ digest. (octets : List ℕ) × AreDigestOctets zone.now octets
        × D.digest_of octets digest) }
{
    let apex = zone.apex().lend();
    let mut hasher = D::new();
    let mut set: Vec<RrRef<'_>> = Vec::new(alloc);
    for rr in OrderedRecords::new(zone) {
        if is_left_out(&apex, &rr) {
            continue;
        }
        end_other_set(alloc, &mut hasher, &mut set, &rr)?;
        if waits(set.as_slice(), &rr) {
            set.push(rr)?;
        } else {
            add(&mut hasher, &rr);
        }
    }
    add_set(alloc, &mut hasher, set.as_slice())?;
    Ok(hasher.finalize())
}

/// Adds the records that wait and empties their set, where the record is of another.
///
/// # Errors
///
/// Want of memory.
fn end_other_set<D: Digest>(
    alloc: Global,
    hasher: &mut D,
    set: &mut Vec<RrRef<'_>>,
    rr: &RrRef<'_>,
) -> Result<(), AllocError>
    requires each { AllByRecursion IsRecord (map record_of set.old.items) }
    requires alike { AreAlike (map record_of set.old.items) }
    requires ascend { AscendsByOwner (map record_of set.old.items) }
    ensures of_first { OnOk result (IsOfFirst (map record_of set.new.items) (record_of rr.now)) }
    ensures walked { OnOk result ((apex : Labels) (all rest : List Record) → HaveOneClass all
        → HasWalked (D.holds hasher.old) apex all (map record_of set.old.items)
        (record_of rr.now ∷ rest)
        → HasWalked (D.holds hasher.new) apex all (map record_of set.new.items)
        (record_of rr.now ∷ rest)) }
{
    if is_of_first(set.as_slice(), rr) {
        return Ok(());
    }
    add_set(alloc, hasher, set.as_slice())?;
    set.clear();
    Ok(())
}

/// Whether a record waits for the others of its set: it is of a type whose data may have names, or
/// some wait already.
fn waits(set: &[RrRef<'_>], rr: &RrRef<'_>) -> bool
    ensures { result ≡ false → (set.now ≡ [])
        × ((octets : List ℕ) → names_of (record_of rr.now).kind octets ≡ None) }
{
    may_have_names(FoldedTypes::Canonical, rr.kind.number()) || !set.is_empty()
}

/// Whether a record is left out of the digest (RFC 8976 3.3.1).
fn is_left_out(apex: &NameRef<'_>, rr: &RrRef<'_>) -> bool
    ensures { IsTrue result ↔ IsLeftOut apex.now (record_of rr.now) }
{
    match rr.kind.number() {
        ZONEMD => rr.owner.is_same(apex),
        RRSIG => covers_digest(rr.rdata.octets()) && rr.owner.is_same(apex),
        _ => false,
    }
}

/// Whether the data of an RRSIG record covers ZONEMD.
fn covers_digest(octets: &[u8]) -> bool
    ensures { IsTrue result ↔ (take 2 octets.now ≡ 0 ∷ 63 ∷ []) }
{
    match octets.first_chunk::<2>() {
        Some(covered) => *covered == [0, 63],
        None => false,
    }
}

/// Whether a record is of the set of the first of these, or there is none.
fn is_of_first(set: &[RrRef<'_>], rr: &RrRef<'_>) -> bool
    ensures { IsTrue result ↔ IsOfFirst (map record_of set.now) (record_of rr.now) }
{
    match set.first() {
        None => true,
        Some(first) => are_of_one_set(first, rr),
    }
}

/// Whether two records are of one set.
fn are_of_one_set(first: &RrRef<'_>, rr: &RrRef<'_>) -> bool
    ensures { IsTrue result ↔ InOneSet (record_of first.now) (record_of rr.now) }
{
    first.kind.number() == rr.kind.number()
        && covered_type(first) == covered_type(rr)
        && first.owner.is_same(&rr.owner)
}

/// The type that an RRSIG record covers, as the first two octets of its data; of other types none.
fn covered_type<'a>(rr: &RrRef<'a>) -> &'a [u8]
    ensures { result.now ≡ covered_octets (data_of (record_of rr.now)) }
{
    let octets = rr.rdata.octets();
    if rr.kind.number() != RRSIG {
        return octets.split_at(0).0;
    }
    octets.split_at(octets.len().min(2)).0
}
