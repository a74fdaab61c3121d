//! A file that is expanded while it is read.
ghost use Rattle.std.specs.Prelude.{◌≡◌, ◌<◌, ◌≤◌, ◌+◌, ◌++◌, ◌∷◌, ◌⊎◌, [], ℕ, List, None, Some, length, map, take, true, false, IfNone, IfOk, IfSome, OnOk, OnErr};
ghost use Rattle.zone_files.specs.FileExpander.{AddsWithin, HasFewerLines, IsOver};
ghost use Rattle.zone_files.specs.Turns.{EndsFile, GoesAfterLines, TakesSome};
ghost use Rattle.zone_files.specs.Machine.Expanding.{EntersLast, EntersOctets, Follows, IsExpander, TakesFront, TakesInner, state_of};
ghost use Rattle.zone_files.specs.Machine.Lines.{MayStay};
ghost use Rattle.zone_files.specs.declared.expansion.progress.FileStatus.TheVariants.{Broken, Ended, Generating, Going, Including, Failed};
ghost use Rattle.zone_text.specs.declared.open_entry.EntryState.TheVariants.{Open};

use crate::expansion::holding::Holding;
use crate::expansion::lines::lines_in_front;
use crate::expansion::names::push_origin_line;
use crate::expansion::progress::{FileStatus, Progress, end_of};
use std::alloc::{AllocError, Global};
use zone_rdata::Item;
use zone_text::{EntryState, FirstEntry, OpenEntry, entry_items, first_entry};

/// How many octets the entry that isn't ended takes at once. It copies them, and mostly ends soon.
const AT_ONCE: usize = 1024;

/// What is expanded of a file, and what waits.
#[derive(Drop)]
pub(crate) struct FileExpansion {
    pub(crate) alloc: Global,
    pub(crate) progress: Progress,
    /// The entry that isn't ended. No other input is kept.
    pub(crate) unfinished: OpenEntry,
}

impl FileExpansion {
    /// Takes the octets of a piece, and gives those that are left where a file comes first or
    /// nothing follows.
    pub(crate) fn feed<'p>(
        &mut self,
        piece: &'p [u8],
        out: &mut Vec<u8>,
    ) -> Result<&'p [u8], AllocError>
        requires is { IsExpander self.old }
        ensures is { OnOk result (IsExpander self.new) }
        ensures front { IfOk result (λ left. TakesFront self.old piece.now left.now self.new
            out.old.items out.new.items) }
        ensures all { IfOk result (λ left. (left.now ≡ []) ⊎ IsOver self.new.progress.status) }
        ensures some { IfOk result
            (λ left. TakesSome self.old.progress.status piece.now left.now) }
    {
        let mut items = Vec::new(self.alloc);
        let mut rest = piece;
        'entries: while !rest.is_empty() && self.progress.is_going() {
            rest = self.take_front(rest, &mut items, out)?;
        }
        if self.progress.is_broken() {
            out.extend_from_slice(rest)?;
            return Ok(&[]);
        }
        Ok(rest)
    }

    /// Takes the lines at the front of octets that are entries by themselves and stay, or else an entry,
    /// and gives what is left of them.
    fn take_front<'p>(
        &mut self,
        octets: &'p [u8],
        items: &mut Vec<Item<'p>>,
        out: &mut Vec<u8>,
    ) -> Result<&'p [u8], AllocError>
        requires is { IsExpander self.old }
        requires going { self.old.progress.status ≡ Going }
        requires some { 0 < length octets.now }
        ensures is { OnOk result (IsExpander self.new) }
        ensures front { IfOk result (λ left. TakesFront self.old octets.now left.now self.new
            out.old.items out.new.items) }
        ensures shorter { IfOk result (λ left. length left.now < length octets.now) }
    {
        match self.take_lines(octets, out)? {
            Some(left) => Ok(left),
            None => self.take_entry(octets, items, out),
        }
    }

    /// Takes the entry at the front of octets, or what they have of the one that isn't ended, and
    /// gives what is left of them.
    fn take_entry<'p>(
        &mut self,
        octets: &'p [u8],
        items: &mut Vec<Item<'p>>,
        out: &mut Vec<u8>,
    ) -> Result<&'p [u8], AllocError>
        requires is { IsExpander self.old }
        requires going { self.old.progress.status ≡ Going }
        requires some { 0 < length octets.now }
        ensures is { OnOk result (IsExpander self.new) }
        ensures front { IfOk result (λ left. TakesFront self.old octets.now left.now self.new
            out.old.items out.new.items) }
        ensures shorter { IfOk result (λ left. length left.now < length octets.now) }
    {
        if self.unfinished.octets().is_empty() {
            if let FirstEntry::Whole(len) = first_entry(octets, items)? {
                let (entry, left) = octets.split_at(len);
                self.progress.enter(self.alloc, entry, items, false, out)?;
                return Ok(left);
            }
        }
        let (some, _) = octets.split_at(octets.len().min(AT_ONCE));
        let taken = self.unfinished.take(some)?;
        let (_, left) = octets.split_at(taken.len);
        match taken.state {
            EntryState::Open => Ok(left),
            EntryState::Ended => {
                self.end_entry(out)?;
                Ok(left)
            }
            EntryState::Broken(_) => {
                self.break_off(out)?;
                Ok(left)
            }
        }
    }

    /// Whether an entry begins, and lines that are entries by themselves stay.
    fn may_take_lines(&self) -> bool
        ensures none { result ≡ true → self.now.unfinished.octets ≡ [] }
        ensures may { result ≡ true → MayStay self.now.progress.holding }
    {
        self.unfinished.octets().is_empty() && self.progress.holding.keeps_lines()
    }

    /// Takes the lines at the front of octets that are entries by themselves and stay, and gives what
    /// is left of them. `None`: nothing is taken.
    fn take_lines<'p>(
        &mut self,
        octets: &'p [u8],
        out: &mut Vec<u8>,
    ) -> Result<Option<&'p [u8]>, AllocError>
        requires going { self.old.progress.status ≡ Going }
        ensures waiting { OnOk result (self.new.unfinished ≡ self.old.unfinished) }
        ensures taken { IfOk result (λ taken. IfSome taken (λ left. TakesFront self.old
            octets.now left.now self.new out.old.items out.new.items)) }
        ensures shorter { IfOk result (λ taken. IfSome taken
            (λ left. length left.now < length octets.now)) }
        ensures same { IfOk result (λ taken. IfNone taken (self.new ≡ self.old)) }
        ensures nothing { IfOk result (λ taken. IfNone taken (out.new.items ≡ out.old.items)) }
    {
        if !self.may_take_lines() {
            return Ok(None);
        }
        let (lines, left) = lines_in_front(octets);
        if lines.is_empty() {
            return Ok(None);
        }
        out.extend_from_slice(lines)?;
        self.progress.holding.take_lines(lines);
        Ok(Some(left))
    }

    /// Takes the entry that the octets held are, and lets go of them.
    fn end_entry(&mut self, out: &mut Vec<u8>) -> Result<(), AllocError>
        ensures entered { OnOk result (EntersOctets self.old.unfinished.octets self.old.progress
            self.new.progress out.old.items out.new.items) }
        ensures none { OnOk result (self.new.unfinished.octets ≡ []) }
        ensures state { OnOk result (self.new.unfinished.state ≡ Open) }
    {
        {
            let mut items = Vec::new(self.alloc);
            let entry = self.unfinished.octets();
            entry_items(entry, &mut items)?;
            self.progress.enter(self.alloc, entry, &items, false, out)?;
        }
        self.unfinished.clear();
        Ok(())
    }

    /// Writes the octets held as they are, as all that follows is.
    fn break_off(&mut self, out: &mut Vec<u8>) -> Result<(), AllocError>
        ensures none { OnOk result (self.new.unfinished.octets ≡ []) }
        ensures state { OnOk result (self.new.unfinished.state ≡ Open) }
        ensures broken { OnOk result (self.new.progress.status ≡ Broken) }
        ensures pushed { OnOk result
            (out.new.items ≡ out.old.items ++ self.old.unfinished.octets) }
    {
        out.extend_from_slice(self.unfinished.octets())?;
        self.unfinished.clear();
        self.progress.status = FileStatus::Broken;
        Ok(())
    }

    /// Takes the last entry, which no line feed ends, and lets go of its octets.
    fn end_last(&mut self, out: &mut Vec<u8>) -> Result<(), AllocError>
        ensures entered { OnOk result (EntersLast self.old.unfinished.octets self.old.progress
            self.new.progress out.old.items out.new.items) }
        ensures none { OnOk result (self.new.unfinished.octets ≡ []) }
        ensures state { OnOk result (self.new.unfinished.state ≡ Open) }
    {
        {
            let mut items = Vec::new(self.alloc);
            let mut entry = Vec::new(self.alloc);
            let held = self.unfinished.octets();
            entry_items(held, &mut items)?;
            entry.extend_from_slice(held)?;
            entry.push(b'\n')?;
            self.progress.enter(self.alloc, &entry, &items, true, out)?;
        }
        self.unfinished.clear();
        Ok(())
    }

    /// Takes the end of the file.
    pub(crate) fn finish(&mut self, out: &mut Vec<u8>) -> Result<(), AllocError>
        requires is { IsExpander self.old }
        ensures is { OnOk result (IsExpander self.new) }
        ensures ended { OnOk result (IsOver self.new.progress.status) }
        ensures follows { OnOk result
            (Follows self.old [] self.new out.old.items out.new.items) }
        ensures last { OnOk result (EndsFile (state_of self.old) (state_of self.new)) }
    {
        if self.progress.is_broken() {
            self.progress.status = FileStatus::BrokenOff;
            return Ok(());
        }
        if !self.progress.is_going() {
            return Ok(());
        }
        if self.unfinished.octets().is_empty() {
            self.progress.status = FileStatus::Ended;
            return Ok(());
        }
        match self.unfinished.end_fault() {
            None => self.end_last(out),
            Some(_) => {
                self.break_off(out)?;
                self.progress.status = FileStatus::BrokenOff;
                Ok(())
            }
        }
    }

    /// Nothing of a file yet, from what holds before it.
    pub(crate) fn new(alloc: Global, holding: Holding) -> FileExpansion
        ensures is { IsExpander result }
        ensures going { result.progress.status ≡ Going }
        ensures holds { result.progress.holding ≡ holding }
        ensures none { result.unfinished.octets ≡ [] }
    {
        FileExpansion {
            alloc,
            progress: Progress {
                holding,
                status: FileStatus::Going,
                included: None,
                generated: None,
                last: false,
            },
            unfinished: OpenEntry::new(alloc),
        }
    }

    /// Lets go of the octets held, since memory was refused.
    pub(crate) fn fail(&mut self)
        ensures is { IsExpander self.new }
        ensures failed { self.new.progress.status ≡ Failed }
    {
        self.unfinished.clear();
        self.progress.status = FileStatus::Failed;
    }

    /// Writes the next of the lines that come first.
    pub(crate) fn generate(&mut self, out: &mut Vec<u8>) -> Result<(), AllocError>
        requires is { IsExpander self.old }
        ensures is { OnOk result (IsExpander self.new) }
        ensures follows { OnOk result
            (Follows self.old [] self.new out.old.items out.new.items) }
        ensures fewer { OnOk result (self.old.progress.status ≡ Generating
            → HasFewerLines (state_of self.old) (state_of self.new)) }
        ensures within { OnOk result
            (AddsWithin self.old.progress.generated out.old.items out.new.items) }
        ensures after { OnOk result (self.old.progress.status ≡ Generating
            → GoesAfterLines (state_of self.old) (state_of self.new)) }
    {
        if !self.progress.is_generating() {
            return Ok(());
        }
        self.unfinished.clear();
        self.progress.push_lines(out)
    }

    /// Goes on after the file that an `$INCLUDE` names, whose expansion ended so.
    pub(crate) fn take_included(
        &mut self,
        inner: &FileExpansion,
        out: &mut Vec<u8>,
    ) -> Result<(), AllocError>
        ensures is { OnOk result (IsExpander self.new) }
        ensures none { OnOk result (self.new.unfinished.octets ≡ []) }
        ensures taken { OnOk result (TakesInner self.old.progress inner.now.progress
            self.new.progress out.old.items out.new.items) }
    {
        self.unfinished.clear();
        match inner.progress.status {
            FileStatus::Ended => {
                push_origin_line(&self.progress.holding.origin, out)?;
                self.progress
                    .holding
                    .back(self.alloc, &inner.progress.holding)?;
                self.progress.status = end_of(self.progress.last);
                Ok(())
            }
            FileStatus::Broken => {
                self.progress.status = FileStatus::BrokenOff;
                Ok(())
            }
            FileStatus::BrokenOff => {
                self.progress.status = FileStatus::BrokenOff;
                Ok(())
            }
            FileStatus::Faulty(fault) => {
                self.progress.status = FileStatus::Faulty(fault);
                Ok(())
            }
            FileStatus::FaultyAt(value) => {
                self.progress.status = FileStatus::FaultyAt(value);
                Ok(())
            }
            FileStatus::Going
            | FileStatus::Including
            | FileStatus::Generating
            | FileStatus::Failed => {
                self.progress.status = FileStatus::Failed;
                Ok(())
            }
        }
    }
}
