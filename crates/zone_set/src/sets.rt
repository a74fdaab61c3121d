ghost use Rattle.std.specs.Prelude.{◌≡◌, ◌⊎◌, ◌-◌, ◌^◌, ◌↔◌, ◌∷◌, ◌++◌, [], List, length, min, IsTrue, OnOk, OnErr, IfOk, IfErr, IfNone, IfSome, MatchOption};
ghost use Rattle.std.specs.List.{AllByRecursion};
ghost use Rattle.std.specs.List.Sorted.{IsPermutation};
ghost use Rattle.sorted_chunks.specs.Chunks.{joined};
ghost use Rattle.zone_name.specs.Name.{IsWithin};
ghost use Rattle.zone_rdata.specs.Record.{Record};
ghost use Rattle.zone_set.specs.Builder.{Accepts, Adds, AreTwoSoas, OtherClass, OtherSoa, StopsAdd};
ghost use Rattle.zone_set.specs.Machine.Held.{all_records, IsFirstOutside, KeepsSets};
ghost use Rattle.zone_set.specs.Message.{message_octets};
ghost use Rattle.zone_rdata.specs.Lent.{record_of};
ghost use Rattle.zone_set.specs.Zone.{AreCompatible};

use crate::entry::Entry;
use crate::kept_records::KeptRecords;
use crate::messages::octets_with;
use crate::put::{LIMIT, put};
use crate::records::Records;
use crate::stored::record_at;
use crate::unordered::{Left, UnorderedRecords};
use sorted_chunks::SortedChunks;
use std::alloc::{AllocError, Global};
use std::marker::Model;
use zone_name::{Name, NameRef};
use zone_rdata::{Class, Fault, Place, RrRef, Stop};

/// The records of a zone so far. Contracts see their set, as its one list in canonical order.
#[derive(Drop)]
pub struct ZoneBuilder {
    /// The class of all records.
    class: Class,
    /// The owner of the first record that came, which hints are relative to.
    base: Name,
    /// One copy of each record, in the order in which they came.
    octets: Vec<u8>,
    /// Where each record stands among the octets, in canonical order.
    entries: SortedChunks<Entry, LIMIT>,
    /// What the records take in messages, or 2^64 - 1 where it is more.
    message_len: u64,
    /// Whether the octets are known to keep these records alone.
    alone: bool,
}

impl Model for ZoneBuilder {
    ghost use Rattle.std.specs.Prelude.{List};
    ghost use Rattle.sorted_chunks.specs.Chunks.{joined};
    ghost use Rattle.zone_rdata.specs.Record.{Record};
    ghost use Rattle.zone_set.specs.Machine.Held.{all_records, KeepsSets};

    ghost Value = { List Record };

    ghost view = { λ s. all_records s.class s.octets.items (joined s.entries) };

    ghost invariant = { λ s.
        KeepsSets s.class s.base s.octets.items (joined s.entries) s.message_len s.alone };
}

impl ZoneBuilder {
    /// A builder that holds no record.
    pub fn new(alloc: Global) -> ZoneBuilder
        ensures { result ≡ [] }
    {
        // With no record it may be any class.
        let Some(class) = Class::of_number(1) else {
            unreachable!();
        };
        ZoneBuilder {
            class,
            base: Name::root(),
            octets: Vec::new(alloc),
            entries: SortedChunks::new(alloc),
            message_len: 0,
            alone: true,
        }
    }

    /// The builder of entries in canonical order, whose records take so many octets in messages.
    /// `alone` tells whether the octets keep these records alone.
    ///
    /// # Errors
    ///
    /// `AllocError` where memory is refused.
    pub(crate) fn of_sorted(
        alloc: Global,
        class: Class,
        base: Name,
        octets: Vec<u8>,
        entries: Vec<Entry>,
        message_len: u64,
        alone: bool,
    ) -> Result<ZoneBuilder, AllocError>
        requires { KeepsSets class base octets.items entries.items message_len alone }
        ensures { IfOk result (λ builder. builder ≡ all_records class octets.items entries.items) }
    {
        Ok(ZoneBuilder {
            class,
            base,
            octets,
            entries: SortedChunks::of_sorted(alloc, entries)?,
            message_len,
            alone,
        })
    }

    /// The records in canonical order.
    pub(crate) fn iter(&self) -> Records<'_>
        ensures records { result ≡ self.now }
        ensures compatible { AreCompatible self.now }
    {
        Records::new(self.class, self.octets.as_slice(), self.entries.iter())
    }

    /// The records in the order in which they are passed over soonest: as the octets keep them, if
    /// these keep no others.
    pub(crate) fn unordered(&self) -> UnorderedRecords<'_>
        ensures { IsPermutation result self.now }
    {
        let left = if self.alone {
            Left::Kept(KeptRecords::new(self.class, self.octets.as_slice()))
        } else {
            Left::Sorted(self.iter())
        };
        UnorderedRecords { left }
    }

    /// How many records there are, or 2^64 - 1 where there are more.
    pub(crate) fn len(&self) -> u64
        ensures { result ≡ min (length self.now) (2 ^ 64 - 1) }
    {
        self.entries.len()
    }

    /// The octets that the records take in messages where no name is compressed, or 2^64 - 1 where
    /// they are more.
    pub(crate) fn message_len(&self) -> u64
        ensures { result ≡ min (message_octets self.now) (2 ^ 64 - 1) }
    {
        self.message_len
    }

    /// The first owner that lies outside the zone of an apex.
    pub(crate) fn first_outside(&self, apex: &Name) -> Option<NameRef<'_>>
        ensures within { IfNone result (AllByRecursion (λ r. IsWithin r.owner apex.now) self.now) }
        ensures outside { IfSome result (λ owner. IsFirstOutside self.now apex.now owner) }
    {
        if self.lies_within(apex) {
            return None;
        }
        for rr in self.iter() {
            if !rr.owner.is_within(apex) {
                return Some(rr.owner);
            }
        }
        None
    }

    /// Whether the first owner, the least after it and the greatest show that all lie within the
    /// zone of an apex: in the order of names those at or below an apex stand together, and after
    /// an SOA records are in that order.
    fn lies_within(&self, apex: &Name) -> bool
        ensures { IsTrue result → AllByRecursion (λ r. IsWithin r.owner apex.now) self.now }
    {
        let mut records = self.iter();
        let (first, second, last) = (records.next(), records.next(), self.last());
        is_none_outside(&first, apex)
            && is_none_outside(&second, apex)
            && is_none_outside(&last, apex)
    }

    /// The last record in canonical order.
    fn last(&self) -> Option<RrRef<'_>>
        ensures { MatchOption result (self.now ≡ [])
            (λ r. (front : List Record) × (self.now ≡ front ++ record_of r ∷ [])) }
    {
        let entry = self.entries.last()?;
        Some(record_at(self.class, self.octets.as_slice(), entry.at))
    }

    /// Takes a borrowed record of a place. An equal one is dropped.
    ///
    /// # Errors
    ///
    /// The first reason against it: class, then SOA, then TTL; or want of memory. Nothing is
    /// changed.
    pub(crate) fn hold(&mut self, rr: &RrRef<'_>, place: Place) -> Result<(), Stop>
        ensures accepted { OnOk result (Accepts self.old (record_of rr.now)) }
        ensures taken { OnOk result (Adds self.old (record_of rr.now) self.new) }
        ensures refused { IfErr result
            (StopsAdd self.old (record { rr = record_of rr.now; place = place })) }
        ensures unchanged { OnErr result (self.new ≡ self.old) }
    {
        rr.known();
        if self.has_other_class(rr) {
            return Err(Stop::Refused(Fault::ClassMismatch, place));
        }
        if self.has_other_soa(rr) {
            return Err(Stop::Refused(Fault::MultipleSoa, place));
        }
        // Nothing is known of octets to which one record after another is added.
        self.alone = false;
        self.class = rr.class;
        settle_base(&mut self.base, &self.entries, &rr.owner);
        let is_new = put(&mut self.entries, &mut self.octets, &self.base, rr, place)?;
        self.message_len = octets_with(self.message_len, rr, is_new);
        Ok(())
    }

    /// Whether a record of another class is held.
    fn has_other_class(&self, rr: &RrRef<'_>) -> bool
        ensures { IsTrue result ↔ OtherClass self.now (record_of rr.now) }
    {
        if self.entries.is_empty() {
            return false;
        }
        self.class != rr.class
    }

    /// Whether the record is an SOA, and another is held.
    fn has_other_soa(&self, rr: &RrRef<'_>) -> bool
        ensures { IsTrue result ↔ OtherSoa self.now (record_of rr.now) }
    {
        if !rr.kind.is_soa() {
            return false;
        }
        // An SOA goes before all else.
        match self.iter().next() {
            Some(first) => is_other_soa(&first, rr),
            None => false,
        }
    }
}

/// Whether there is no record, or its owner lies within the zone of an apex.
fn is_none_outside(rr: &Option<RrRef<'_>>, apex: &Name) -> bool
    ensures { IsTrue result ↔ IfSome rr.now (λ r. IsWithin r.owner apex.now) }
{
    match rr {
        Some(rr) => rr.owner.is_within(apex),
        None => true,
    }
}

/// Where there is no entry, this owner becomes the base. Only the first record needs this.
#[inline(never)]
fn settle_base(base: &mut Name, entries: &SortedChunks<Entry, LIMIT>, owner: &NameRef<'_>)
    ensures { (joined entries.now ≡ []) ⊎ (base.new ≡ base.old) }
{
    if entries.is_empty() {
        *base = owner.to_name();
    }
}

/// Whether both are SOA records, and they differ in owner or data.
pub(crate) fn is_other_soa(first: &RrRef<'_>, rr: &RrRef<'_>) -> bool
    ensures { IsTrue result ↔ AreTwoSoas (record_of first.now) (record_of rr.now) }
{
    if !rr.kind.is_soa() || !first.kind.is_soa() {
        return false;
    }
    !first.owner.is_same(&rr.owner) || first.rdata.octets() != rr.rdata.octets()
}
