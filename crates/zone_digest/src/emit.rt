//! The octets of records as they are digested: those of a set without repeats, names in lower case.
ghost use Rattle.std.specs.Int.{to_be_bytes, w16, w32};
ghost use Rattle.std.specs.Prelude.{◌≡◌, ◌≤◌, ◌<◌, ◌↔◌, ◌++◌, ℕ, List, length, map, IfOk, OnOk, IsTrue};
ghost use Rattle.std.specs.List.{AllByRecursion, flat_map};
ghost use Rattle.zone_digest.specs.Digest.{octets_with, record_octets, AscendsByOwner};
ghost use Rattle.zone_digest.specs.Machine.Sets.{AreAlike, AreLowered, HasLowered, HasOctets, StaysLow};
ghost use Rattle.zone_rdata.specs.Lent.{record_of};
ghost use Rattle.zone_rdata.specs.Record.{IsRecord, Record};

use data_names::{FoldedTypes, push_lowered, stays_low};
use sha2::Digest;
use std::alloc::{AllocError, Global};
use std::collections::BTreeSet;
use zone_rdata::{Class, Kind, RrRef};

/// What stands between a record's owner and its data (RFC 1035 3.2.1).
fn head_of(kind: Kind, class: Class, ttl: u32, len: u16) -> [u8; 10]
    ensures { result ≡ to_be_bytes w16 kind ++ (to_be_bytes w16 class
        ++ (to_be_bytes w32 ttl ++ to_be_bytes w16 len)) }
{
    let [k0, k1] = kind.number().to_be_bytes();
    let [c0, c1] = class.number().to_be_bytes();
    let [t0, t1, t2, t3] = ttl.to_be_bytes();
    let [d0, d1] = len.to_be_bytes();
    [k0, k1, c0, c1, t0, t1, t2, t3, d0, d1]
}

/// Adds the canonical octets of a record with this data (RFC 4034 6.2).
pub(crate) fn add_with<D: Digest>(hasher: &mut D, rr: &RrRef<'_>, octets: &[u8])
    requires { length octets.now < 65536 }
    ensures { (m : List ℕ) → D.holds hasher.old m
        → D.holds hasher.new (m ++ octets_with (record_of rr.now) octets.now) }
{
    let head = head_of(rr.kind, rr.class, rr.ttl, octets.len() as u16);
    hasher.update(rr.owner.wire());
    hasher.update(head.as_slice());
    hasher.update(octets);
}

/// Adds a record whose data stays as it is.
pub(crate) fn add<D: Digest>(hasher: &mut D, rr: &RrRef<'_>)
    ensures { (m : List ℕ) → D.holds hasher.old m
        → D.holds hasher.new (m ++ record_octets (record_of rr.now)) }
{
    rr.rdata.known();
    add_with(hasher, rr, rr.rdata.octets());
}

/// Adds the canonical forms of the records of one set, in order and each once. Where no data changes
/// it takes no memory.
///
/// # Errors
///
/// Want of memory.
pub(crate) fn add_set<D: Digest>(
    alloc: Global,
    hasher: &mut D,
    set: &[RrRef<'_>],
) -> Result<(), AllocError>
    requires each { AllByRecursion IsRecord (map record_of set.now) }
    requires alike { AreAlike (map record_of set.now) }
    requires ascend { AscendsByOwner (map record_of set.now) }
    ensures { OnOk result ((records : List Record)
        × AreLowered (map record_of set.now) records
        × ((m : List ℕ) → D.holds hasher.old m
        → D.holds hasher.new (m ++ flat_map record_octets records))) }
{
    let Some((first, _)) = set.split_first() else {
        return Ok(());
    };
    if all_stay(set) {
        add_all(hasher, set);
        return Ok(());
    }
    let lowered = lowered_set(alloc, set)?;
    // Its contract says that the data ascends.
    let _ = lowered.len();
    add_lowered(hasher, first, lowered);
    Ok(())
}

/// Adds records whose data stays as it is.
fn add_all<D: Digest>(hasher: &mut D, set: &[RrRef<'_>])
    ensures { (m : List ℕ) → D.holds hasher.old m
        → D.holds hasher.new (m ++ flat_map record_octets (map record_of set.now)) }
{
    for rr in set {
        add(hasher, rr);
    }
}

/// Adds the record with each of these data.
fn add_lowered<D: Digest>(hasher: &mut D, rr: &RrRef<'_>, many: BTreeSet<Vec<u8>>)
    requires { (octets : List ℕ) → HasOctets many.keys octets → length octets < 65536 }
    ensures { (m : List ℕ) → D.holds hasher.old m
        → D.holds hasher.new (m ++ flat_map (octets_with (record_of rr.now))
        (map (λ v. v.items) many.keys)) }
{
    let mut left = many;
    while let Some(octets) = left.pop_first() {
        add_with(hasher, rr, octets.as_slice());
    }
}

/// The data of records, names in lower case, in order and each once.
///
/// # Errors
///
/// Want of memory.
fn lowered_set(alloc: Global, set: &[RrRef<'_>]) -> Result<BTreeSet<Vec<u8>>, AllocError>
    ensures { IfOk result (λ lowered. (octets : List ℕ) →
        HasOctets lowered.keys octets ↔ HasLowered (map record_of set.now) octets) }
{
    let mut lowered = BTreeSet::new(alloc);
    for rr in set {
        let mut octets = Vec::new(alloc);
        push_lowered(
            FoldedTypes::Canonical,
            rr.kind.number(),
            rr.rdata.octets(),
            &mut octets,
        )?;
        if let Err(_) = lowered.insert(octets) {
            return Err(AllocError);
        }
    }
    Ok(lowered)
}

/// Whether the data of all keeps its octets where its names are put in lower case.
fn all_stay(set: &[RrRef<'_>]) -> bool
    ensures { IsTrue result → AllByRecursion StaysLow (map record_of set.now) }
{
    for rr in set {
        if !stays_low(FoldedTypes::Canonical, rr.kind.number(), rr.rdata.octets()) {
            return false;
        }
    }
    true
}
