ghost use Rattle.std.specs.Prelude.{◌≡◌, ◌≤◌, ◌++◌, ◌∷◌, [], true, false, IfOk, IfErr, OnOk, OnErr};
ghost use Rattle.zone_rdata.specs.Lent.{record_of};
ghost use Rattle.zone_set.specs.Bounded.{kept_len, IsBoundedBy};
ghost use Rattle.zone_set.specs.Builder.{OtherClass};
ghost use Rattle.zone_set.specs.Machine.Marks.{IsMark, IsWithinMark};
ghost use Rattle.zone_set.specs.Refusal.{records_of};
ghost use Rattle.zone_set.specs.ZoneList.{IsSettledAs, ListsAll, StopsListing, StopsSettling, Tells};

use crate::kept_list::{FIRST_MARK, KeptList};
use crate::sets::ZoneBuilder;
use std::alloc::{AllocError, Global};
use std::marker::Model;
use zone_rdata::{Fault, LendingSource, Place, RrRef, Stop};

/// The records of an input as they come, each with its place. Repeats are dropped where there are
/// many. Whether the records can stand together is told when all are there. Contracts see what is
/// kept, in the order in which it came.
#[derive(Drop)]
pub struct ZoneList {
    kept: KeptList,
    /// At how many octets repeats are looked for.
    mark: usize,
}

impl Model for ZoneList {
    ghost use Rattle.std.specs.Prelude.{List};
    ghost use Rattle.zone_rdata.specs.declared.record.Placed.{Placed};
    ghost use Rattle.zone_set.specs.Machine.Marks.{IsWithinMark};
    ghost use Rattle.zone_set.specs.Refusal.{records_of};

    ghost Value = { List Placed };

    ghost view = { λ l. l.kept };

    ghost invariant = { λ l. IsWithinMark l.mark (records_of l.kept) };
}

impl ZoneList {
    /// No record.
    pub fn new(alloc: Global) -> ZoneList
        ensures { result ≡ [] }
    {
        ZoneList {
            kept: KeptList::new(alloc),
            mark: FIRST_MARK,
        }
    }

    /// Lists all that a source has left to give, and moves no record.
    ///
    /// # Errors
    ///
    /// `Refused` with `ClassMismatch` at the first record whose class isn't that of the records
    /// listed, or with the fault at the source's end; `Memory` where memory was refused or the
    /// source has failed. The records before it are listed, and the one that was refused is
    /// dropped: the source has those after it left. Nothing else of the source changes.
    ///
    /// After each call some of the records listed are pairwise different, and the octets that keep
    /// all of them are at most eight times those of these and 327,943 more.
    pub fn take_lent<S: LendingSource>(&mut self, source: &mut S) -> Result<(), Stop>
        ensures taken { OnOk result
            (ListsAll self.old (S.pending source.old) self.new (S.pending source.new)) }
        ensures stopped { IfErr result
            (StopsListing self.old (S.pending source.old) self.new (S.pending source.new)) }
        ensures beside { S.beside source.new ≡ S.beside source.old }
        ensures bounded { IsBoundedBy 8 327943 (records_of self.new) }
    {
        self.known();
        while let Some(placed) = source.first() {
            let place = placed.place;
            let listed = self.take(&placed.rr, place);
            source.skip();
            if !listed? {
                return Err(Stop::Refused(Fault::ClassMismatch, place));
            }
        }
        // With no record left the fault at the end, if there is one.
        source.next()?;
        Ok(())
    }

    /// Lists a record, and tells whether none of another class is listed. Before it repeats are
    /// dropped, where that is due.
    ///
    /// # Errors
    ///
    /// `AllocError` where memory is refused.
    fn take(&mut self, rr: &RrRef<'_>, place: Place) -> Result<bool, AllocError>
        ensures taken { IfOk result (λ is_listed. is_listed ≡ true
            → Tells (self.old ++ record { rr = record_of rr.now; place = place } ∷ []) self.new) }
        ensures refused { IfOk result (λ is_listed. is_listed ≡ false
            → OtherClass (records_of self.new) (record_of rr.now) × Tells self.old self.new) }
        ensures kept { OnErr result (Tells self.old self.new) }
        ensures bounded { IsBoundedBy 8 327943 (records_of self.new) }
    {
        take_next(&mut self.kept, &mut self.mark, rr, place)
    }

    /// What holds of each list.
    fn known(&self)
        ensures { IsBoundedBy 8 327943 (records_of self.now) }
    {
        let _ = &self.mark;
    }

    /// The builder of all records.
    ///
    /// # Errors
    ///
    /// `Refused` at the first record that can't stand with those before it; `Memory`.
    pub fn settle(self) -> Result<ZoneBuilder, Stop>
        ensures taken { IfOk result (IsSettledAs self) }
        ensures refused { IfErr result (StopsSettling self) }
    {
        let ZoneList { kept, .. } = self;
        kept.settle()
    }
}

/// `ZoneList::take` for the parts of a list.
///
/// # Errors
///
/// `AllocError` where memory is refused.
#[tactic(auto, using(crate::proofs::Lists::Thinning::tells_pushed))]
fn take_next(
    kept: &mut KeptList,
    mark: &mut usize,
    rr: &RrRef<'_>,
    place: Place,
) -> Result<bool, AllocError>
    requires { IsWithinMark mark.old (records_of kept.old) }
    ensures taken { IfOk result (λ is_listed. is_listed ≡ true
        → Tells (kept.old ++ record { rr = record_of rr.now; place = place } ∷ []) kept.new) }
    ensures refused { IfOk result (λ is_listed. is_listed ≡ false
        → OtherClass (records_of kept.new) (record_of rr.now) × Tells kept.old kept.new) }
    ensures told { OnErr result (Tells kept.old kept.new) }
    ensures within { IsWithinMark mark.new (records_of kept.new) }
{
    make_room(kept, mark)?;
    rr.known();
    kept.list(rr, place)
}

/// Drops repeats if the mark is reached, and moves the mark past what is kept.
///
/// # Errors
///
/// `AllocError` where memory is refused. Nothing is changed.
#[inline(always)]
fn make_room(kept: &mut KeptList, mark: &mut usize) -> Result<(), AllocError>
    requires { IsMark mark.old (records_of kept.old) }
    ensures told { Tells kept.old kept.new }
    ensures marked { IsMark mark.new (records_of kept.new) }
    ensures below { OnOk result (kept_len (records_of kept.new) ≤ mark.new) }
    ensures unchanged { OnErr result ((kept.new ≡ kept.old) × (mark.new ≡ mark.old)) }
{
    if kept.octet_count() < *mark {
        return Ok(());
    }
    *mark = kept.drop_repeats()?;
    Ok(())
}
