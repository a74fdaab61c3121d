//! Octets of a master file as they come in pieces: what is written for the entries that they end,
//! and the one that they leave open.
ghost use Rattle.std.specs.Prelude.{◌≡◌, ◌+◌, ◌<◌, ◌≤◌, ◌^◌, ◌++◌, ◌⊎◌, [], length, IfOk, OnErr, OnOk, true, false};
ghost use Rattle.zone_text.specs.declared.open_entry.EntryState.TheVariants.{Open};
ghost use Rattle.zone_words.specs.Machine.FedWriting.{
  FollowInPart,
  FollowOn,
  HasWritten,
  IsFedWriter,
  PushesOctets,
  TakesFront,
  WritesAll,
  count_reach,
  line_reach,
};

use crate::entry_writer::EntryWriter;
use std::alloc::{AllocError, Global};
use type_data::DataItem;
use zone_name::CasedName;
use zone_rdata::Item;
use zone_text::{EntryState, FirstEntry, OpenEntry, entry_items, first_entry};

/// How many octets the entry that isn't ended takes at once. It copies them, and mostly ends soon.
const AT_ONCE: usize = 1024;

/// What is written for the entries that were ended, and the octets after them.
#[derive(Drop)]
pub(crate) struct FedWriter {
    pub(crate) alloc: Global,
    pub(crate) entries: EntryWriter,
    /// The entry that isn't ended. No other input is kept.
    pub(crate) unfinished: OpenEntry,
    /// The octets broke, whatever follows them: what comes is written as it is.
    pub(crate) is_broken: bool,
}

impl FedWriter {
    /// No octets yet, under the origin that is handed in with the file.
    pub(crate) fn new(alloc: Global, origin: &CasedName) -> FedWriter
        ensures is { IsFedWriter result }
        ensures line { line_reach result ≡ 1 }
        ensures count { count_reach result ≡ 0 }
        ensures none { result.unfinished.octets ≡ [] }
        ensures so_far { HasWritten origin.now result [] [] }
    {
        FedWriter {
            alloc,
            entries: EntryWriter::new(alloc, origin),
            unfinished: OpenEntry::new(alloc),
            is_broken: false,
        }
    }

    /// Forgets all octets, under the origin of another file.
    pub(crate) fn restart(&mut self, origin: &CasedName)
        ensures is { IsFedWriter self.new }
        ensures line { line_reach self.new ≡ 1 }
        ensures count { count_reach self.new ≡ 0 }
        ensures none { self.new.unfinished.octets ≡ [] }
        ensures going { self.new.is_broken ≡ false }
        ensures so_far { HasWritten origin.now self.new [] [] }
    {
        self.entries.restart(origin);
        self.unfinished.clear();
        self.is_broken = false;
    }

    /// Takes the next piece.
    pub(crate) fn feed(&mut self, piece: &[u8]) -> Result<(), AllocError>
        requires is { IsFedWriter self.old }
        requires fits { line_reach self.old + length piece.now < 2 ^ 64 }
        requires counts { count_reach self.old + length piece.now < 2 ^ 64 }
        ensures is { OnOk result (IsFedWriter self.new) }
        ensures lines { OnOk result (line_reach self.new ≤ line_reach self.old + length piece.now) }
        ensures counts { OnOk result
            (count_reach self.new ≤ count_reach self.old + length piece.now) }
        ensures follow { OnOk result (FollowOn self.old piece.now self.new) }
        ensures in_part { OnErr result (FollowInPart self.old piece.now self.new) }
    {
        let mut items = Vec::new(self.alloc);
        let mut words = Vec::new(self.alloc);
        let mut rest = piece;
        while !self.is_settled(rest) {
            rest = self.take_front(rest, &mut items, &mut words)?;
        }
        self.entries.push_as_it_is(rest)?;
        Ok(())
    }

    /// Whether the rest of a piece holds no entry: there is none, or the octets broke before it.
    fn is_settled(&self, rest: &[u8]) -> bool
        ensures yes { result ≡ true → (rest.now ≡ []) ⊎ (self.now.is_broken ≡ true) }
        ensures some { result ≡ false → 0 < length rest.now }
        ensures going { result ≡ false → self.now.is_broken ≡ false }
    {
        rest.is_empty() || self.is_broken
    }

    /// Takes the entry at the front of octets, or what they have of the one that isn't ended, and
    /// gives what is left of them.
    fn take_front<'p>(
        &mut self,
        octets: &'p [u8],
        items: &mut Vec<Item<'p>>,
        words: &mut Vec<DataItem<'p>>,
    ) -> Result<&'p [u8], AllocError>
        requires is { IsFedWriter self.old }
        requires going { self.old.is_broken ≡ false }
        requires some { 0 < length octets.now }
        requires fits { line_reach self.old + length octets.now < 2 ^ 64 }
        requires counts { count_reach self.old + length octets.now < 2 ^ 64 }
        ensures is { OnOk result (IsFedWriter self.new) }
        ensures front { IfOk result (λ left. TakesFront self.old octets.now left.now self.new) }
        ensures written { OnErr result
            (self.new.entries.written.items ≡ self.old.entries.written.items) }
        ensures told { OnErr result (self.new.entries.refusals ≡ self.old.entries.refusals) }
    {
        if self.unfinished.octets().is_empty() {
            if let FirstEntry::Whole(len) = first_entry(octets, items)? {
                let (entry, left) = octets.split_at(len);
                self.entries.push(entry, items, words)?;
                return Ok(left);
            }
        }
        let (some, _) = octets.split_at(octets.len().min(AT_ONCE));
        let taken = self.unfinished.take(some)?;
        match taken.state {
            EntryState::Open => {}
            EntryState::Ended => self.end_entry()?,
            EntryState::Broken(_) => self.break_off()?,
        }
        let (_, left) = octets.split_at(taken.len);
        Ok(left)
    }

    /// Writes what becomes of the entry that the octets held are, and lets go of them.
    fn end_entry(&mut self) -> Result<(), AllocError>
        requires lines { line_reach self.old < 2 ^ 64 }
        requires counts { self.old.entries.refusals.count + 1 < 2 ^ 64 }
        ensures pushed { OnOk result
            (PushesOctets self.old.unfinished.octets self.old.entries self.new.entries) }
        ensures at_most_one { OnOk result
            (self.new.entries.refusals.count ≤ self.old.entries.refusals.count + 1) }
        ensures none { OnOk result (self.new.unfinished.octets ≡ []) }
        ensures state { OnOk result (self.new.unfinished.state ≡ Open) }
        ensures same { OnOk result (self.new.is_broken ≡ self.old.is_broken) }
        ensures written { OnErr result
            (self.new.entries.written.items ≡ self.old.entries.written.items) }
        ensures told { OnErr result (self.new.entries.refusals ≡ self.old.entries.refusals) }
    {
        {
            let mut items = Vec::new(self.alloc);
            let mut words = Vec::new(self.alloc);
            let entry = self.unfinished.octets();
            entry_items(entry, &mut items)?;
            self.entries.push(entry, &items, &mut words)?;
        }
        self.unfinished.clear();
        Ok(())
    }

    /// Writes the octets held as they are, as all that follows is.
    fn break_off(&mut self) -> Result<(), AllocError>
        ensures none { OnOk result (self.new.unfinished.octets ≡ []) }
        ensures state { OnOk result (self.new.unfinished.state ≡ Open) }
        ensures broken { OnOk result (self.new.is_broken ≡ true) }
        ensures pushed { OnOk result (self.new.entries.written.items
            ≡ self.old.entries.written.items ++ self.old.unfinished.octets) }
        ensures inherited { OnOk result
            (self.new.entries.inherited ≡ self.old.entries.inherited) }
        ensures line { OnOk result (self.new.entries.line ≡ self.old.entries.line) }
        ensures written { OnErr result
            (self.new.entries.written.items ≡ self.old.entries.written.items) }
        ensures told { self.new.entries.refusals ≡ self.old.entries.refusals }
    {
        self.entries.push_as_it_is(self.unfinished.octets())?;
        self.unfinished.clear();
        self.is_broken = true;
        Ok(())
    }

    /// Takes the end of the octets.
    pub(crate) fn finish(&mut self) -> Result<(), AllocError>
        requires is { IsFedWriter self.old }
        requires fits { line_reach self.old < 2 ^ 64 }
        requires counts { count_reach self.old + 1 < 2 ^ 64 }
        ensures all { OnOk result (WritesAll self.old self.new) }
        ensures none { OnOk result (self.new.unfinished.octets ≡ []) }
        ensures in_part { OnErr result (FollowInPart self.old [] self.new) }
    {
        if self.is_broken || self.unfinished.octets().is_empty() {
            return Ok(());
        }
        match self.unfinished.end_fault() {
            None => {
                self.end_entry()?;
                Ok(())
            }
            Some(_fault) => {
                self.break_off()?;
                Ok(())
            }
        }
    }

    /// Lets go of the octets of the entry that isn't ended.
    pub(crate) fn drop_open(&mut self)
        ensures none { self.new.unfinished.octets ≡ [] }
        ensures same { self.new.entries ≡ self.old.entries }
        ensures broken { self.new.is_broken ≡ self.old.is_broken }
    {
        self.unfinished.clear();
    }
}
