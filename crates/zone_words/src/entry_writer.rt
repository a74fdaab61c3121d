//! Entries of a master file, written anew one by one (RFC 1035 5.1, RFC 3597 5).
ghost use Rattle.std.specs.Prelude.{◌≡◌, ◌<◌, ◌≤◌, ◌+◌, ◌^◌, ◌++◌, [], None, length, map, OnOk, OnErr};
ghost use Rattle.zone_rdata.specs.Item.{raw};
ghost use Rattle.zone_words.specs.Machine.EntryWriting.{PushesEntry};
ghost use Rattle.zone_words.specs.Inherited.{IsInherited};

use crate::entry_form::form_of;
use crate::inherited::Inherited;
use crate::refusal::Refusals;
use crate::turn::{EntryData, turn_of};
use std::alloc::{AllocError, Global};
use type_data::DataItem;
use zone_name::CasedName;
use zone_rdata::Item;
use zone_text::line_feeds;

/// What is written for entries, and what they leave to those after them.
#[derive(Drop)]
pub(crate) struct EntryWriter {
    /// What holds for the next entry.
    inherited: Inherited,
    /// The line of the next entry, from 1.
    line: u64,
    /// The data of one record.
    stated: EntryData,
    /// One entry that is written anew.
    scratch: Vec<u8>,
    /// What is told of the entries so far.
    pub(crate) refusals: Refusals,
    /// What is written for them and nobody has taken.
    pub(crate) written: Vec<u8>,
}

impl EntryWriter {
    /// No entry yet, under the origin that is handed in with the file.
    pub(crate) fn new(alloc: Global, origin: &CasedName) -> EntryWriter
        ensures inherited { IsInherited origin.now [] result.inherited }
        ensures line { result.line ≡ 1 }
        ensures first { result.refusals.first ≡ None }
        ensures count { result.refusals.count ≡ 0 }
        ensures written { result.written.items ≡ [] }
    {
        EntryWriter {
            inherited: Inherited::new(origin),
            line: 1,
            stated: EntryData {
                octets: Vec::new(alloc),
                staying: Vec::new(alloc),
            },
            scratch: Vec::new(alloc),
            refusals: Refusals::none(),
            written: Vec::new(alloc),
        }
    }

    /// Forgets all entries, under the origin of another file.
    pub(crate) fn restart(&mut self, origin: &CasedName)
        ensures inherited { IsInherited origin.now [] self.new.inherited }
        ensures line { self.new.line ≡ 1 }
        ensures first { self.new.refusals.first ≡ None }
        ensures count { self.new.refusals.count ≡ 0 }
        ensures written { self.new.written.items ≡ [] }
    {
        self.inherited = Inherited::new(origin);
        self.line = 1;
        self.refusals = Refusals::none();
        self.written.clear();
    }

    /// Writes what becomes of one more entry, of whose items these are kept, and tells of it. `words`
    /// is room for items.
    ///
    /// # Errors
    ///
    /// `AllocError`: nothing of the entry is written or told.
    pub(crate) fn push<'t>(
        &mut self,
        entry: &[u8],
        items: &[Item<'t>],
        words: &mut Vec<DataItem<'t>>,
    ) -> Result<(), AllocError>
        requires lines { self.old.line + length entry.now < 2 ^ 64 }
        requires counts { self.old.refusals.count + 1 < 2 ^ 64 }
        ensures pushed { OnOk result (PushesEntry entry.now (map raw items.now) self.old self.new) }
        ensures at_most_one { self.new.refusals.count ≤ self.old.refusals.count + 1 }
        ensures written { OnErr result (self.new.written.items ≡ self.old.written.items) }
        ensures refusals { OnErr result (self.new.refusals ≡ self.old.refusals) }
    {
        let form = form_of(entry, items);
        self.inherited.follow(form);
        let turn = turn_of(
            entry,
            items,
            form,
            self.line,
            &self.inherited,
            words,
            &mut self.stated,
        )?;
        turn.push(entry, &self.stated, &mut self.scratch, &mut self.written)?;
        self.refusals.add(turn.refusal());
        self.line += line_feeds(entry) as u64;
        Ok(())
    }

    /// Writes octets as they are, of which nothing is told.
    ///
    /// # Errors
    ///
    /// `AllocError`: none of them is written.
    pub(crate) fn push_as_it_is(&mut self, octets: &[u8]) -> Result<(), AllocError>
        ensures pushed { OnOk result
            (self.new.written.items ≡ self.old.written.items ++ octets.now) }
        ensures line { self.new.line ≡ self.old.line }
        ensures inherited { self.new.inherited ≡ self.old.inherited }
        ensures refusals { self.new.refusals ≡ self.old.refusals }
        ensures written { OnErr result (self.new.written.items ≡ self.old.written.items) }
    {
        self.written.extend_from_slice(octets)?;
        Ok(())
    }
}
