//! Octets of a master file as they come in pieces: the entries that they end, and the one that they
//! leave unfinished.
ghost use Rattle.std.specs.Prelude.{◌≡◌, ◌+◌, ◌<◌, ◌≤◌, ◌^◌, [], length, IfOk, IfSome, IsOk, OnOk, None, Some};
ghost use Rattle.zone_rdata.specs.declared.fault.Place.TheVariants.{Line};
ghost use Rattle.zone_text.specs.Machine.Feeding.{Follow, FollowOn, IsSplitter, reach, ReadsAll, ReadsOctets, TakesPart};
ghost use Rattle.zone_text.specs.declared.open_entry.EntryState.TheVariants.{Open};

use crate::ended::EndedEntries;
use crate::entry::entry_items;
use crate::feeds::line_feeds;
use crate::open_entry::{EntryState, OpenEntry};
use crate::parser_state::ParserState;
use crate::stops::Stops;
use crate::walk::{Reached, walk};
use std::alloc::{AllocError, Global};
use zone_name::Name;
use zone_rdata::{Fault, PendingRecords, Place};

/// How many octets the unfinished entry takes at once. It copies them, and mostly ends soon.
const AT_ONCE: usize = 1024;

/// The entries that were ended, and the octets after them.
#[derive(Drop)]
pub(crate) struct EntrySplitter {
    alloc: Global,
    pub(crate) ended: EndedEntries,
    /// The entry that isn't ended. No other input is kept.
    pub(crate) unfinished: OpenEntry,
}

impl EntrySplitter {
    /// No octets yet, under the origin that is handed in with the file.
    pub(crate) fn new(alloc: Global, origin: &Name) -> EntrySplitter
        ensures is { IsSplitter result.ended result.unfinished }
        ensures none { result.unfinished.octets ≡ [] }
        ensures records { result.ended.decided.placed ≡ [] }
        ensures line { result.ended.line ≡ 1 }
        ensures follow { Follow origin.now result.ended result.unfinished.octets [] [] }
    {
        EntrySplitter {
            alloc,
            ended: EndedEntries {
                decided: PendingRecords::new(alloc),
                state: ParserState::new(alloc, origin),
                line: 1,
            },
            unfinished: OpenEntry::new(alloc),
        }
    }

    /// Takes the octets of a piece up to a fault.
    #[tactic(auto, using(crate::proofs::Scanning::FedPieces::feeds))]
    pub(crate) fn feed(&mut self, piece: &[u8]) -> Result<(), AllocError>
        requires is { IsSplitter self.old.ended self.old.unfinished }
        requires fits { reach self.old + length piece.now < 2 ^ 64 }
        ensures is { OnOk result (IsSplitter self.new.ended self.new.unfinished) }
        ensures near { OnOk result (reach self.new ≤ reach self.old + length piece.now) }
        ensures settled { IfSome self.old.ended.decided.ending
            (λ _. IsOk result × (self.new ≡ self.old)) }
        ensures nothing { piece.now ≡ [] → IsOk result × (self.new ≡ self.old) }
        ensures follow { OnOk result (FollowOn self.old piece.now self.new) }
    {
        let mut items = Vec::new(self.alloc);
        let mut rest = piece;
        let mut stops = Stops::unseen(piece);
        while !rest.is_empty() && self.ended.decided.ending.is_none() {
            if self.unfinished.octets().is_empty() {
                if let Reached::Ends(len, feeds) = walk(rest, &mut stops, &mut items)? {
                    let (entry, after) = rest.split_at(len);
                    self.ended.read(entry, &items, feeds)?;
                    rest = after;
                    continue;
                }
            }
            rest = self.take_some(rest)?;
            stops = Stops::unseen(rest);
        }
        Ok(())
    }

    /// Takes octets of the unfinished entry, few at once, and gives those that are left.
    fn take_some<'p>(&mut self, octets: &'p [u8]) -> Result<&'p [u8], AllocError>
        requires is { IsSplitter self.old.ended self.old.unfinished }
        requires undecided { self.old.ended.decided.ending ≡ None }
        requires some { 0 < length octets.now }
        requires fits { reach self.old + length octets.now < 2 ^ 64 }
        ensures { IfOk result (λ left. TakesPart self.old octets.now left.now self.new) }
    {
        let (some, _) = octets.split_at(octets.len().min(AT_ONCE));
        let taken = self.unfinished.take(some)?;
        let (_, left) = octets.split_at(taken.len);
        match taken.state {
            EntryState::Open => {}
            EntryState::Ended => self.end_entry()?,
            EntryState::Broken(fault) => self.refuse(fault),
        }
        Ok(left)
    }

    /// Reads the entry that the octets held are, and lets go of them.
    fn end_entry(&mut self) -> Result<(), AllocError>
        requires undecided { self.old.ended.decided.ending ≡ None }
        requires fits { reach self.old < 2 ^ 64 }
        ensures reads { OnOk result
            (ReadsOctets self.old.unfinished.octets self.old.ended self.new.ended) }
        ensures none { OnOk result (self.new.unfinished.octets ≡ []) }
        ensures state { OnOk result (self.new.unfinished.state ≡ Open) }
    {
        {
            let mut items = Vec::new(self.alloc);
            let entry = self.unfinished.octets();
            entry_items(entry, &mut items)?;
            self.ended.read(entry, &items, line_feeds(entry))?;
        }
        self.unfinished.clear();
        Ok(())
    }

    /// Decides the fault of the entry that the octets held begin, and lets go of them.
    fn refuse(&mut self, fault: Fault)
        ensures line { self.new.ended.line ≡ self.old.ended.line }
        ensures records { self.new.ended.decided.placed ≡ self.old.ended.decided.placed }
        ensures ending { self.new.ended.decided.ending ≡ Some (fault, Line self.old.ended.line) }
        ensures none { self.new.unfinished.octets ≡ [] }
        ensures state { self.new.unfinished.state ≡ Open }
    {
        self.ended.decided.ending = Some((fault, Place::Line(self.ended.line)));
        self.unfinished.clear();
    }

    /// Takes the end of the file.
    pub(crate) fn finish(&mut self) -> Result<(), AllocError>
        requires is { IsSplitter self.old.ended self.old.unfinished }
        requires fits { reach self.old < 2 ^ 64 }
        ensures none { OnOk result (self.new.unfinished.octets ≡ []) }
        ensures near { OnOk result (self.new.ended.line ≤ reach self.old) }
        ensures is { OnOk result (IsSplitter self.new.ended self.new.unfinished) }
        ensures settled { IfSome self.old.ended.decided.ending (λ _. IsOk result) }
        ensures nothing { self.old.unfinished.octets ≡ [] → IsOk result }
        ensures reads { OnOk result (ReadsAll self.old self.new) }
    {
        if self.unfinished.octets().is_empty() {
            return Ok(());
        }
        match self.unfinished.end_fault() {
            Some(fault) => {
                self.refuse(fault);
                Ok(())
            }
            None => self.end_entry(),
        }
    }
}
