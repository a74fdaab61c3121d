ghost use Rattle.std.specs.Prelude.{◌≡◌, ◌≤◌, ◌-◌, ◌*◌, ◌^◌, ◌++◌, ◌∷◌, IsTrue, List, [], true, false, length, max, min, IfOk, IfErr, IfSome, OnOk, OnErr, if◌then◌else◌};
ghost use Rattle.std.specs.List.{AllByRecursion};
ghost use Rattle.zone_rdata.specs.Lent.{record_of};
ghost use Rattle.zone_rdata.specs.Record.{IsRecord, Record};
ghost use Rattle.zone_name.specs.Common.{Labels};
ghost use Rattle.zone_set.specs.Machine.Bulk.{placed_at, KeepsList};
ghost use Rattle.zone_set.specs.Machine.Held.{all_records};
ghost use Rattle.zone_set.specs.Bounded.{kept_len, AreDifferent};
ghost use Rattle.zone_set.specs.Machine.Marks.{IsMark};
ghost use Rattle.zone_set.specs.Builder.{OtherClass};
ghost use Rattle.zone_set.specs.Machine.Stored.{stored, AreKept};
ghost use Rattle.zone_set.specs.Refusal.{records_of};
ghost use Rattle.zone_set.specs.Zone.{Has};
ghost use Rattle.zone_set.specs.declared.entry.Entry.{Entry};
ghost use Rattle.zone_set.specs.ZoneList.{IsSettledAs, StopsSettling, Tells};

use crate::bulk::settle;
use crate::distinct::{Look, has_different};
use crate::entry::Entry;
use crate::hint::{hint_of, told_front};
use crate::kept_records::KeptRecords;
use crate::messages::len_of_entries;
use crate::places::Places;
use crate::repeats::Groups;
use crate::sets::ZoneBuilder;
use crate::stored::{append, record_at};
use crate::tie::span;
use std::alloc::{AllocError, Global};
use std::collections::BTreeSet;
use std::marker::Model;
use zone_name::{Name, NameRef};
use zone_rdata::{Class, Place, RrRef, Stop};

/// At so many octets repeats are looked for at first.
pub(crate) const FIRST_MARK: usize = 262_144;

/// Records as they come, each with its place, and what drops repeats. Contracts see the records, in
/// the order in which they came.
#[derive(Drop)]
pub(crate) struct KeptList {
    alloc: Global,
    /// The class of all records.
    class: Class,
    /// The owner of the first record, which hints are relative to.
    base: Name,
    /// One copy of each record.
    octets: Vec<u8>,
    /// Where each record stands among the octets.
    entries: Vec<Entry>,
    /// Where each record stands in the input.
    places: Places,
}

impl Model for KeptList {
    ghost use Rattle.std.specs.Prelude.{List};
    ghost use Rattle.zone_rdata.specs.declared.record.Placed.{Placed};
    ghost use Rattle.zone_set.specs.Machine.Bulk.{listed, KeepsList};

    ghost Value = { List Placed };

    ghost view = { λ l. listed l.class l.octets.items l.entries.items l.places };

    ghost invariant = { λ l.
        KeepsList l.class l.base l.octets.items l.entries.items l.places };
}

impl KeptList {
    /// No record.
    pub(crate) fn new(alloc: Global) -> KeptList
        ensures { result ≡ [] }
    {
        // With no record it may be any class.
        let Some(class) = Class::of_number(1) else {
            unreachable!();
        };
        KeptList {
            alloc,
            class,
            base: Name::root(),
            octets: Vec::new(alloc),
            entries: Vec::new(alloc),
            places: Places::new(alloc),
        }
    }

    /// How many octets keep the records.
    #[inline(always)]
    pub(crate) fn octet_count(&self) -> usize
        ensures { result ≡ kept_len (records_of self.now) }
    {
        self.octets.len()
    }

    /// Drops repeats where there may be many, and returns at how many octets to look again.
    ///
    /// # Errors
    ///
    /// `AllocError` where memory is refused. The list is unchanged.
    #[inline(never)]
    pub(crate) fn drop_repeats(&mut self) -> Result<usize, AllocError>
        ensures told { OnOk result (Tells self.old self.new) }
        ensures marked { IfOk result (λ mark. IsMark mark (records_of self.new)) }
        ensures below { IfOk result (λ mark. kept_len (records_of self.new) ≤ mark) }
        ensures unchanged { OnErr result (self.new ≡ self.old) }
    {
        if let Some(mark) = self.next_mark()? {
            return Ok(mark);
        }
        let list = self.without_repeats()?;
        if let Some(mark) = list.next_mark()? {
            *self = list;
            return Ok(mark);
        }
        // Numbers of records can't show that they differ, so their octets are compared.
        let once = list.each_once()?;
        let mark = mark_after(once.octet_count());
        *self = once;
        Ok(mark)
    }

    /// At how many octets to look for repeats again, if the records are seen to differ for the most
    /// part. `None`: there may be many repeats.
    ///
    /// # Errors
    ///
    /// `AllocError` where memory is refused.
    fn next_mark(&self) -> Result<Option<usize>, AllocError>
        ensures marked { IfOk result (λ next. IfSome next (λ mark. IsMark mark (records_of self.now))) }
        ensures below { IfOk result (λ next. IfSome next (λ mark. kept_len (records_of self.now) ≤ mark)) }
    {
        let (octets, entries) = (self.octets.as_slice(), self.entries.as_slice());
        let (first, _) = entries.split_at(entries.len() / 2);
        let quick = has_different(self.alloc, octets, first, Look::Quick, octets.len() / 4)?;
        if quick {
            return Ok(Some(mark_after(octets.len())));
        }
        let whole = has_different(self.alloc, octets, entries, Look::Whole, octets.len() / 4)?;
        if whole {
            return Ok(Some(mark_after(octets.len())));
        }
        Ok(None)
    }

    /// The list without the repeats that are found.
    ///
    /// # Errors
    ///
    /// `AllocError` where memory is refused.
    fn without_repeats(&self) -> Result<KeptList, AllocError>
        ensures { IfOk result (Tells self.now) }
    {
        let (octets, entries) = (self.octets.as_slice(), self.entries.as_slice());
        let front = told_front(self.base.wire().len());
        let mut groups = Groups::new(self.alloc, octets, entries, front)?;
        let mut list = KeptList::new(self.alloc);
        for (rr, place) in KeptRecords::new(self.class, octets).zip(self.places.iter()) {
            let number = groups.next_number();
            if let Some(index) = groups.kept(number) {
                if list.has(index, &rr) {
                    continue;
                }
            }
            groups.keep(number, list.entries.len());
            list.push(&rr, place)?;
        }
        Ok(list)
    }

    /// The list without any repeat.
    ///
    /// # Errors
    ///
    /// `AllocError` where memory is refused.
    fn each_once(&self) -> Result<KeptList, AllocError>
        ensures told { IfOk result (Tells self.now) }
        ensures once { IfOk result (λ list. AreDifferent (records_of list)) }
    {
        let mut left = self.octets.as_slice();
        let mut seen: BTreeSet<&[u8]> = BTreeSet::new(self.alloc);
        let mut list = KeptList::new(self.alloc);
        for (rr, place) in KeptRecords::new(self.class, left).zip(self.places.iter()) {
            let (record, rest) = left.split_at(span(left, 0).len());
            left = rest;
            let Ok(is_new) = seen.insert(record) else {
                return Err(AllocError);
            };
            if !is_new {
                continue;
            }
            list.push(&rr, place)?;
        }
        Ok(list)
    }

    /// Lists a record, and tells whether none of another class is listed. If one is, the list is
    /// unchanged. It answers in few octets: a `Stop` has room for a name.
    ///
    /// # Errors
    ///
    /// `AllocError` where memory is refused. The list is unchanged.
    pub(crate) fn list(&mut self, rr: &RrRef<'_>, place: Place) -> Result<bool, AllocError>
        ensures taken { IfOk result (λ is_listed. is_listed ≡ true
            → self.new ≡ self.old ++ record { rr = record_of rr.now; place = place } ∷ []) }
        ensures refused { IfOk result (λ is_listed. is_listed ≡ false
            → OtherClass (records_of self.old) (record_of rr.now) × (self.new ≡ self.old)) }
        ensures unchanged { OnErr result (self.new ≡ self.old) }
    {
        if !self.entries.is_empty() && self.class != rr.class {
            return Ok(false);
        }
        rr.known();
        self.push(rr, place)?;
        Ok(true)
    }

    /// Lists a record of the class of those before it.
    ///
    /// # Errors
    ///
    /// `AllocError` where memory is refused. The list is unchanged.
    fn push(&mut self, rr: &RrRef<'_>, place: Place) -> Result<(), AllocError>
        requires whole { IsRecord (record_of rr.now) }
        requires class { AllByRecursion (λ p. p.rr.class ≡ rr.now.class) self.old }
        ensures taken { OnOk result
            (self.new ≡ self.old ++ record { rr = record_of rr.now; place = place } ∷ []) }
        ensures unchanged { OnErr result (self.new ≡ self.old) }
    {
        // So that no record is kept in part.
        self.entries.reserve(1)?;
        let is_first = self.entries.is_empty();
        first_decides(&mut self.class, &mut self.base, is_first, rr);
        let hint = hint_of(&self.base, &rr.owner, rr.kind);
        let at = append_with_place(&mut self.octets, &mut self.places, rr, place)?;
        self.entries.push_reserved(Entry { hint, at });
        Ok(())
    }

    /// Whether the record of the entry at an index is this one.
    fn has(&self, index: usize, rr: &RrRef<'_>) -> bool
        ensures { IsTrue result → Has (records_of self.now) (record_of rr.now) }
    {
        match self.entries.as_slice().get(index) {
            Some(entry) => record_at(self.class, self.octets.as_slice(), entry.at).is_same(rr),
            None => false,
        }
    }

    /// The builder of all records.
    ///
    /// # Errors
    ///
    /// `Refused` at the first record that can't stand with those before it; `Memory`.
    pub(crate) fn settle(self) -> Result<ZoneBuilder, Stop>
        ensures taken { IfOk result (IsSettledAs self) }
        ensures refused { IfErr result (StopsSettling self) }
    {
        let KeptList {
            alloc,
            class,
            base,
            octets,
            entries,
            places,
        } = self;
        settle_parts(alloc, class, base, octets, entries, places)
    }
}

/// At how many octets to look for repeats again, where so many are kept after a look.
#[inline(always)]
fn mark_after(len: usize) -> usize
    ensures is { result ≡ max 262144 (min (len * 2) (2 ^ 64 - 1)) }
    ensures below { len ≤ result }
{
    FIRST_MARK.max(len.saturating_mul(2))
}

/// `KeptList::settle` for the parts of a list.
fn settle_parts(
    alloc: Global,
    class: Class,
    base: Name,
    octets: Vec<u8>,
    mut entries: Vec<Entry>,
    places: Places,
) -> Result<ZoneBuilder, Stop>
    ghost known: { Labels × List Record }
    requires base { known.0 ≡ base }
    requires records { known.1 ≡ all_records class octets.items entries.items }
    requires keeps { KeepsList class base octets.items entries.items places }
    ensures taken { IfOk result (IsSettledAs (placed_at known.1 places)) }
    ensures refused { IfErr result (StopsSettling (placed_at known.1 places)) }
{
    let listed = entries.len();
    if settle(class, base.wire().len(), octets.as_slice(), &mut entries) {
        let alone = entries.len() == listed;
        let message_len = len_of_entries(class, octets.as_slice(), entries.as_slice(), alone);
        let held = ZoneBuilder::of_sorted(alloc, class, base, octets, entries, message_len, alone)?;
        return Ok(held);
    }
    // In the order in which they came the first that is refused shows.
    offer(alloc, class, octets.as_slice(), &places)
}

/// Adds records one after another, in the order in which they came. This tells the first that is
/// refused, where they can't stand together.
///
/// # Errors
///
/// `Refused` at the first record that `add` refuses; `Memory`.
fn offer(alloc: Global, class: Class, octets: &[u8], places: &Places) -> Result<ZoneBuilder, Stop>
    ghost records: { List Record }
    requires { AreKept class octets.now records }
    ensures taken { IfOk result (IsSettledAs (placed_at records places.now)) }
    ensures refused { IfErr result (StopsSettling (placed_at records places.now)) }
{
    let mut builder = ZoneBuilder::new(alloc);
    for (rr, place) in KeptRecords::new(class, octets).zip(places.iter()) {
        builder.hold(&rr, place)?;
    }
    Ok(builder)
}

/// Appends the octets that keep a record and its place, and answers where the octets begin.
///
/// # Errors
///
/// `AllocError` where memory is refused. Neither is changed.
fn append_with_place(
    octets: &mut Vec<u8>,
    places: &mut Places,
    rr: &RrRef<'_>,
    place: Place,
) -> Result<usize, AllocError>
    requires { IsRecord (record_of rr.now) }
    ensures at { IfOk result (λ at. at ≡ length octets.old.items) }
    ensures kept { OnOk result
        (octets.new.items ≡ octets.old.items ++ stored (record_of rr.now)) }
    ensures stands { OnOk result (places.new ≡ places.old ++ place ∷ []) }
    ensures unchanged { OnErr result
        ((octets.new.items ≡ octets.old.items) × (places.new ≡ places.old)) }
{
    let at = append(octets, rr)?;
    match places.push(place) {
        Ok(()) => Ok(at),
        Err(error) => {
            octets.truncate(at);
            Err(error)
        }
    }
}

/// The first record decides the class of all, and what hints are relative to.
fn first_decides(class: &mut Class, base: &mut Name, is_first: bool, rr: &RrRef<'_>)
    ensures class { class.new ≡ (if is_first then rr.now.class else class.old) }
    ensures base { base.new ≡ (if is_first then rr.now.owner else base.old) }
{
    if is_first {
        *class = rr.class;
        set_base(base, &rr.owner);
    }
}

/// Makes an owner the base. This stands apart, since each call clears the room of a name.
#[inline(never)]
fn set_base(base: &mut Name, owner: &NameRef<'_>)
    ensures { base.new ≡ owner.now }
{
    *base = owner.to_name();
}
