ghost use Rattle.std.specs.Prelude.{◌≡◌, ◌<◌, ◌↔◌, List, IfOk, IfSome, IsTrue, OnErr};
ghost use Rattle.zone_difference.specs.Difference.{AreChanges, Change, GoesBefore, IsDifference, addition, removal};
ghost use Rattle.zone_difference.specs.Left.{AreLeft, FailsFolded, HasLeft, IsRemovalFirst, TakesNext, left_len};
ghost use Rattle.zone_difference.specs.declared.name_case.NameCase.{NameCase};
ghost use Rattle.zone_difference.specs.declared.name_case.NameCase.TheVariants.{Folded};
ghost use Rattle.zone_rdata.specs.Lent.{record_of};
ghost use Rattle.zone_rdata.specs.Record.{Record};

use crate::lacking::Lacking;
use crate::name_case::NameCase;
use crate::order::order_of;
use crate::rrset::are_of_one_rrset;
use std::alloc::{AllocError, Global};
use std::cmp::Ordering;
use zone_rdata::RrRef;
use zone_set::Zone;

/// A change from one zone to another.
#[derive(Drop)]
pub(crate) enum ChangeRef<'z> {
    /// The record goes.
    Removal(RrRef<'z>),
    /// The record comes.
    Addition(RrRef<'z>),
}

/// The changes from one zone to another, in order.
#[derive(Drop)]
pub(crate) struct Changes<'z> {
    /// The next record that goes, taken.
    removal: Option<RrRef<'z>>,
    removed: Lacking<'z>,
    /// The next record that comes, taken.
    addition: Option<RrRef<'z>>,
    added: Lacking<'z>,
}

/// Whether the removal of a record comes before the addition of another: it does in their RRset too.
fn is_removal_first(gone: &RrRef<'_>, come: &RrRef<'_>) -> bool
    ensures first { IsTrue result
        ↔ GoesBefore (removal (record_of gone.now)) (addition (record_of come.now)) }
{
    are_of_one_rrset(gone, come) || order_of(gone, come) == Ordering::Less
}

/// Whether the next change is a removal: of these records, if any, one goes and one comes next.
fn is_removal_next(removal: &Option<RrRef<'_>>, addition: &Option<RrRef<'_>>) -> bool
    ensures { IsTrue result ↔ IsRemovalFirst removal.now addition.now }
{
    let Some(gone) = removal else {
        return false;
    };
    match addition {
        Some(come) => is_removal_first(gone, come),
        None => true,
    }
}

impl<'z> Changes<'z> {
    /// The changes from a zone to another.
    ///
    /// # Errors
    ///
    /// Returns an error if it runs out of memory.
    pub(crate) fn new(
        alloc: Global,
        zone: &'z Zone,
        other: &'z Zone,
        case: NameCase,
    ) -> Result<Changes<'z>, AllocError>
        ensures left { IfOk result (λ changes. (gone come : List Record)
            × AreLeft case zone.now.records other.now.records changes gone come
            × IsDifference case zone.now.records other.now.records gone come) }
        ensures fails { OnErr result ((case ≡ Folded) × ((changes : List Change)
            × AreChanges case zone.now.records other.now.records changes)) }
    {
        let mut removed = Lacking::new(alloc, zone, other, case);
        let mut added = Lacking::new(alloc, other, zone, case);
        let removal = removed.next(alloc)?;
        let addition = added.next(alloc)?;
        Ok(Changes {
            removal,
            removed,
            addition,
            added,
        })
    }

    /// Takes the next change, if it is a removal.
    ///
    /// # Errors
    ///
    /// Returns an error if it runs out of memory.
    fn take_removal(&mut self, alloc: Global) -> Result<Option<ChangeRef<'z>>, AllocError>
        requires first { IsRemovalFirst self.old.removal self.old.addition }
        requires left { HasLeft self.old }
        ensures taken { IfOk result (TakesNext self.old self.new) }
        ensures fewer { IfOk result (λ found. IfSome found (λ _. left_len self.new < left_len self.old)) }
        ensures fails { OnErr result (FailsFolded self.old) }
    {
        let Some(gone) = self.removal.take() else {
            return Ok(None);
        };
        self.removal = self.removed.next(alloc)?;
        Ok(Some(ChangeRef::Removal(gone)))
    }

    /// Takes the next change, if it is no removal.
    ///
    /// # Errors
    ///
    /// Returns an error if it runs out of memory.
    fn take_addition(&mut self, alloc: Global) -> Result<Option<ChangeRef<'z>>, AllocError>
        requires first { IsRemovalFirst self.old.removal self.old.addition → ⊥ }
        requires left { HasLeft self.old }
        ensures taken { IfOk result (TakesNext self.old self.new) }
        ensures fewer { IfOk result (λ found. IfSome found (λ _. left_len self.new < left_len self.old)) }
        ensures fails { OnErr result (FailsFolded self.old) }
    {
        let Some(come) = self.addition.take() else {
            return Ok(None);
        };
        self.addition = self.added.next(alloc)?;
        Ok(Some(ChangeRef::Addition(come)))
    }

    /// Takes the next change.
    ///
    /// # Errors
    ///
    /// Returns an error if it runs out of memory.
    pub(crate) fn next(&mut self, alloc: Global) -> Result<Option<ChangeRef<'z>>, AllocError>
        requires { HasLeft self.old }
        ensures taken { IfOk result (TakesNext self.old self.new) }
        ensures fewer { IfOk result (λ found. IfSome found (λ _. left_len self.new < left_len self.old)) }
        ensures fails { OnErr result (FailsFolded self.old) }
    {
        if is_removal_next(&self.removal, &self.addition) {
            self.take_removal(alloc)
        } else {
            self.take_addition(alloc)
        }
    }
}
