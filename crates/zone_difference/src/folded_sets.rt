ghost use Rattle.std.specs.Prelude.{◌≡◌, ◌++◌, ◌∷◌, ◌↔◌, ◌⊎◌, ℕ, List, [], IfOk, IsTrue, None, OnOk};
ghost use Rattle.std.specs.List.{AllByRecursion};
ghost use Rattle.std.specs.declared.cmp.Ordering.TheVariants.{Less};
ghost use Rattle.zone_difference.specs.Difference.{AreOfOneRrset, HasEqual};
ghost use Rattle.zone_difference.specs.Folded.{AddsKey, HasKey, IsAt, IsGathered, IsKey, OnTaken};
ghost use Rattle.zone_difference.specs.Walk.{with_taken};
ghost use Rattle.zone_difference.specs.declared.name_case.NameCase.TheVariants.{Folded};
ghost use Rattle.zone_rdata.specs.Lent.{record_of};
ghost use Rattle.zone_rdata.specs.Record.{Record};
ghost use Rattle.zone_set.specs.Order.{Ascends, canonical_cmp};
ghost use Rattle.zone_set.specs.Zone.{Has, IsZone};

use crate::only_in::take_next;
use crate::order::order_of;
use crate::rrset::are_of_one_rrset;
use data_names::{FoldedTypes, push_lowered};
use std::alloc::{AllocError, Global};
use std::cmp::Ordering;
use std::collections::BTreeSet;
use zone_rdata::RrRef;
use zone_set::{Records, Zone};

/// The RRsets of a zone, with the names in their data in lower case, one after another.
#[derive(Drop)]
pub(crate) struct FoldedSets<'z> {
    /// The first record that is left, taken.
    next: Option<RrRef<'z>>,
    rest: Records<'z>,
    /// A record of the RRset whose keys are kept.
    head: Option<RrRef<'z>>,
    /// The keys of its records: TTL, and data with its names in lower case.
    keys: BTreeSet<Vec<u8>>,
}

/// The key of a record.
///
/// # Errors
///
/// Returns an error if it runs out of memory.
fn key_of(alloc: Global, rr: &RrRef<'_>) -> Result<Vec<u8>, AllocError>
    ensures { IfOk result (λ key. IsKey (record_of rr.now) key.items) }
{
    let mut key = Vec::new(alloc);
    key.extend_from_slice(&rr.ttl.to_be_bytes())?;
    push_lowered(
        FoldedTypes::Every,
        rr.kind.number(),
        rr.rdata.octets(),
        &mut key,
    )?;
    Ok(key)
}

/// Whether a record was taken and is of the RRset of another.
fn is_of_rrset(head: &Option<RrRef<'_>>, rr: &RrRef<'_>) -> bool
    ensures { IsTrue result ↔ OnTaken (AreOfOneRrset (record_of rr.now)) head.now }
{
    match head {
        Some(head) => are_of_one_rrset(rr, head),
        None => false,
    }
}

/// Keeps the key of a record.
///
/// # Errors
///
/// Returns an error if it runs out of memory.
fn keep_key(alloc: Global, rr: &RrRef<'_>, keys: &mut BTreeSet<Vec<u8>>) -> Result<(), AllocError>
    ensures { OnOk result (AddsKey (record_of rr.now) keys.old.keys keys.new.keys) }
{
    let key = key_of(alloc, rr)?;
    let Ok(_) = keys.insert(key) else {
        return Err(AllocError);
    };
    Ok(())
}

/// Whether one of the keys is that of a record.
///
/// # Errors
///
/// Returns an error if it runs out of memory.
fn has_key(alloc: Global, rr: &RrRef<'_>, keys: &BTreeSet<Vec<u8>>) -> Result<bool, AllocError>
    ensures { IfOk result (λ has. (key : List ℕ) × IsKey (record_of rr.now) key
        × (IsTrue has ↔ HasKey keys.now.keys key)) }
{
    let key = key_of(alloc, rr)?;
    Ok(keys.contains(&key))
}

/// Passes records up to the last of the RRset of one, and keeps the keys of that RRset. Returns one
/// of its records.
///
/// # Errors
///
/// Returns an error if it runs out of memory.
fn gather<'z>(
    alloc: Global,
    next: &mut Option<RrRef<'z>>,
    rest: &mut Records<'z>,
    rr: &RrRef<'_>,
    keys: &mut BTreeSet<Vec<u8>>,
) -> Result<Option<RrRef<'z>>, AllocError>
    requires up { Ascends (with_taken next.old rest.old) }
    requires none { keys.old.keys ≡ [] }
    ensures { IfOk result (λ head. IsGathered (with_taken next.old rest.old)
        (with_taken next.new rest.new) (record_of rr.now) head keys.new.keys) }
{
    let mut head = None;
    'walk: while let Some(other) = next.take() {
        if are_of_one_rrset(&other, rr) {
            keep_key(alloc, &other, keys)?;
            head = Some(other);
            *next = take_next(rest);
        } else {
            if order_of(&other, rr) != Ordering::Less {
                *next = Some(other);
                return Ok(head);
            }
            *next = take_next(rest);
        }
    }
    Ok(head)
}

impl<'z> FoldedSets<'z> {
    /// The RRsets of a zone.
    pub(crate) fn new(alloc: Global, zone: &'z Zone) -> FoldedSets<'z>
        ensures records { with_taken result.next result.rest ≡ zone.now.records }
        ensures head { result.head ≡ None }
        ensures keys { result.keys.keys ≡ [] }
        ensures zone { IsZone zone.now }
    {
        let mut rest = zone.records();
        let next = take_next(&mut rest);
        FoldedSets {
            next,
            rest,
            head: None,
            keys: BTreeSet::new(alloc),
        }
    }

    /// Has the keys of the RRset of a record.
    ///
    /// # Errors
    ///
    /// Returns an error if it runs out of memory.
    fn turn_to(&mut self, alloc: Global, rr: &RrRef<'_>) -> Result<(), AllocError>
        requires { (all others : List Record) × IsAt all self.old (record_of rr.now ∷ others) }
        ensures { OnOk result ((all others : List Record)
            → IsAt all self.old (record_of rr.now ∷ others)
            → IsAt all self.new others
            × ((key : List ℕ) → IsKey (record_of rr.now) key
            → HasKey self.new.keys.keys key ↔ HasEqual Folded all (record_of rr.now))) }
    {
        if is_of_rrset(&self.head, rr) {
            return Ok(());
        }
        self.keys = BTreeSet::new(alloc);
        self.head = gather(alloc, &mut self.next, &mut self.rest, rr, &mut self.keys)?;
        Ok(())
    }

    /// Whether the zone has a record that is this one but for letters of names in its data.
    ///
    /// # Errors
    ///
    /// Returns an error if it runs out of memory.
    pub(crate) fn has_alike(&mut self, alloc: Global, rr: &RrRef<'_>) -> Result<bool, AllocError>
        requires { (all others : List Record) × IsAt all self.old (record_of rr.now ∷ others) }
        ensures { IfOk result (λ has. (all others : List Record)
            → IsAt all self.old (record_of rr.now ∷ others)
            → IsAt all self.new others
            × (IsTrue has ↔ HasEqual Folded all (record_of rr.now))) }
    {
        self.turn_to(alloc, rr)?;
        has_key(alloc, rr, &self.keys)
    }
}
