//! The records that a source has decided and not given yet.
ghost use Rattle.std.specs.Prelude.{◌≡◌, ◌≤◌, ◌∷◌, ◌++◌, [], None, Some, OnOk, OnErr, option_map};
ghost use Rattle.zone_rdata.specs.Lent.{placed_of, record_of};
ghost use Rattle.zone_rdata.specs.Limits.{greatest_ttl};
ghost use Rattle.zone_rdata.specs.Record.{IsRecord, record_with};
ghost use Rattle.zone_rdata.specs.RrSource.{first_record, others};

use crate::fault::{Failing, Fault, Place, Stop};
use crate::lent::{PlacedRef, RrRef};
use crate::narrow_failing::NarrowFailing;
use crate::rdata::Rdata;
use crate::record::Placed;
use crate::rr_source::{LendingSource, Reading, RrSource, record_or_ending};
use std::alloc::{AllocError, Global};
use std::collections::VecDeque;
use std::marker::Model;
use std::mem::replace;
use zone_name::NameRef;

/// The greatest number of octets for which the memory of dropped data is kept. Nearly all data is
/// shorter, and what is kept then goes by the number of records.
const LONGEST_BUFFER: usize = 512;

/// Records in the order in which they came, each with its place. Each stands in a slot, in which
/// another is written once it was skipped, in the memory of its data. Contracts see the list of
/// records.
#[derive(Drop)]
pub struct RecordQueue {
    /// The records, with free slots before and after them.
    slots: Vec<Placed>,
    /// The slot of the first record.
    first: usize,
    /// The slot after that of the last record.
    end: usize,
}

impl Model for RecordQueue {
    ghost use Rattle.std.specs.Prelude.{List, ◌≤◌, drop, length, take};
    ghost use Rattle.zone_rdata.specs.declared.record.Placed.{Placed};

    ghost Value = { List Placed };

    ghost view = { λ q. drop q.first (take q.end q.slots.items) };

    ghost invariant = { λ q. (q.first ≤ q.end) × (q.end ≤ length q.slots.items) };
}

impl RecordQueue {
    /// No record.
    pub fn new(alloc: Global) -> RecordQueue
        ensures { result ≡ [] }
    {
        RecordQueue {
            slots: Vec::new(alloc),
            first: 0,
            end: 0,
        }
    }

    /// Appends a record with its place.
    ///
    /// # Errors
    ///
    /// `AllocError` where memory is refused. The queue is unchanged.
    pub fn push(&mut self, rr: &RrRef<'_>, place: Place) -> Result<(), AllocError>
        ensures appended { OnOk result (self.new
            ≡ self.old ++ record { rr = record_of rr.now; place = place } ∷ []) }
        ensures record { IsRecord (record_of rr.now) }
        ensures unchanged { OnErr result (self.new ≡ self.old) }
    {
        rr.known();
        let mut rdata = rr.rdata.to_rdata(*self.slots.allocator())?;
        self.push_exchanged(rr.owner.copy(), rr.ttl, &mut rdata, place)
    }

    /// Appends the record of an owner, a TTL in seconds that was judged before, and data, with its
    /// place. `rdata` gives its data up, and has some other from then on, in whose memory the next
    /// data can be read.
    ///
    /// # Errors
    ///
    /// `AllocError` where memory is refused. The queue and the data are unchanged.
    #[inline(always)]
    #[tactic(auto, using(crate::proofs::Slots::written))]
    pub fn push_exchanged(
        &mut self,
        owner: NameRef<'_>,
        ttl: u32,
        rdata: &mut Rdata,
        place: Place,
    ) -> Result<(), AllocError>
        requires { ttl ≤ greatest_ttl }
        ensures appended { OnOk result (self.new ≡ self.old
            ++ record { rr = record_with owner.entry ttl rdata.old; place = place } ∷ []) }
        ensures record { IsRecord (record_with owner.entry ttl rdata.old) }
        ensures unchanged { OnErr result (self.new ≡ self.old) }
        ensures left { OnErr result (rdata.new ≡ rdata.old) }
    {
        rdata.known();
        if self.end == self.slots.len() {
            self.turn();
        }
        if self.end == self.slots.len() {
            push_slot(&mut self.slots)?;
        }
        self.slots[self.end].exchange(&owner, ttl, rdata, place);
        self.end += 1;
        Ok(())
    }

    /// The slots before the records come after them, if they are more than the records: so no
    /// record is moved unless another was skipped.
    // Not inlined: nearly all records find a free slot.
    #[cold]
    #[inline(never)]
    #[tactic(auto, using(crate::proofs::Slots::turned))]
    fn turn(&mut self)
        ensures { self.new ≡ self.old }
    {
        if self.first > self.end / 2 {
            self.slots.rotate_left(self.first);
            self.end -= self.first;
            self.first = 0;
        }
    }

    /// The first record, borrowed. `None`: there is none.
    pub fn first(&self) -> Option<PlacedRef<'_>>
        ensures { option_map placed_of result ≡ first_record self.now }
    {
        if self.first == self.end {
            return None;
        }
        Some(self.slots[self.first].lend())
    }

    /// Drops the first record, if there is one, and keeps the memory of its data.
    #[tactic(auto, using(crate::proofs::Slots::skipped))]
    pub fn skip(&mut self)
        ensures { self.new ≡ others self.old }
    {
        if self.first == self.end {
            return;
        }
        self.slots[self.first].rr.free(LONGEST_BUFFER);
        self.first += 1;
        if self.first == self.end {
            self.first = 0;
            self.end = 0;
        }
    }

    /// Takes the first record out. `None`: there is none.
    #[tactic(auto, using(crate::proofs::Slots::popped))]
    pub fn pop(&mut self) -> Option<Placed>
        ensures first { result ≡ first_record self.old }
        ensures left { self.new ≡ others self.old }
    {
        if self.first == self.end {
            return None;
        }
        let empty = Placed::empty(*self.slots.allocator());
        let taken = replace(&mut self.slots[self.first], empty);
        self.skip();
        Some(taken)
    }

    /// The records.
    #[tactic(auto, using(crate::proofs::Slots::turned))]
    pub fn into_placed(self) -> VecDeque<Placed>
        ensures { result.items ≡ self }
    {
        let RecordQueue {
            mut slots,
            first,
            end,
        } = self;
        slots.rotate_left(first);
        slots.truncate(end - first);
        VecDeque::from(slots)
    }
}

/// Appends a free slot.
///
/// # Errors
///
/// `AllocError` where memory is refused. The slots are unchanged.
#[cold]
#[inline(never)]
fn push_slot(slots: &mut Vec<Placed>) -> Result<(), AllocError>
    ensures appended { OnOk result
        ((free : Placed) × (slots.new.items ≡ slots.old.items ++ free ∷ [])) }
    ensures unchanged { OnErr result (slots.new.items ≡ slots.old.items) }
{
    slots.push(Placed::empty(*slots.allocator()))?;
    Ok(())
}

/// The records that a source has still to give, and the fault after them.
#[derive(Drop)]
pub struct PendingRecords {
    /// The records.
    pub placed: RecordQueue,
    /// The fault after them and where it stands. `None`: no fault is decided.
    pub ending: Option<(Fault, Place)>,
}

impl PendingRecords {
    /// No record and no fault.
    pub fn new(alloc: Global) -> PendingRecords
        ensures records { result.placed ≡ [] }
        ensures ending { result.ending ≡ None }
    {
        PendingRecords {
            placed: RecordQueue::new(alloc),
            ending: None,
        }
    }

    /// Decides the fault after the records, and passes `Memory` on.
    ///
    /// # Errors
    ///
    /// `AllocError` where memory was refused. They are unchanged.
    // Not inlined: a fault has room for a name, and only what is refused needs it.
    #[cold]
    #[inline(never)]
    pub fn refuse(&mut self, failing: NarrowFailing, place: Place) -> Result<(), AllocError>
        ensures decided { OnOk result ((fault : Fault) × (failing ≡ Failing.Fault fault)
            × (self.new ≡ record self.old { ending = Some (fault, place) })) }
        ensures memory { OnErr result (failing ≡ Failing.Memory) }
        ensures unchanged { OnErr result (self.new ≡ self.old) }
    {
        match Failing::from(failing) {
            Failing::Fault(fault) => {
                self.ending = Some((fault, place));
                Ok(())
            }
            Failing::Memory => Err(AllocError),
        }
    }

    /// All of them.
    pub fn into_reading(self) -> Reading
        ensures records { result.placed.items ≡ self.placed }
        ensures ending { result.ending ≡ self.ending }
    {
        Reading {
            placed: self.placed.into_placed(),
            ending: self.ending,
        }
    }
}

impl RrSource for PendingRecords {
    ghost use Rattle.std.specs.Prelude.{false};

    ghost Beside = { Unit {0} };

    ghost beside = { λ _. tt };

    ghost pending = { λ r. record { failed = false; records = r.placed; ending = r.ending } };

    fn next(&mut self) -> Result<Option<Placed>, Stop> {
        record_or_ending(self.placed.pop(), &self.ending)
    }
}

impl LendingSource for PendingRecords {
    fn first(&self) -> Option<PlacedRef<'_>> {
        self.placed.first()
    }

    fn skip(&mut self) {
        self.placed.skip()
    }
}
