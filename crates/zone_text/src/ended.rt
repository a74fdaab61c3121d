//! The entries that were ended, read one by one (RFC 1035 5.1).
ghost use Rattle.std.specs.Prelude.{◌≡◌, ◌+◌, ◌<◌, ◌^◌, ◌==◌, count_by, length, map, OnOk, None};
ghost use Rattle.zone_rdata.specs.Item.{raw};
ghost use Rattle.zone_text.specs.Machine.Feeding.{ReadsOctets};
ghost use Rattle.zone_text.specs.Kept.{KeepsItems};

use crate::parser_state::ParserState;
use crate::statements::statement_of;
use std::alloc::AllocError;
use zone_rdata::{Item, PendingRecords, Place};

/// What was read of the entries that were ended.
#[derive(Drop)]
pub(crate) struct EndedEntries {
    /// Their records that were not given yet, and the fault.
    pub(crate) decided: PendingRecords,
    /// What they leave to the entries after them.
    pub(crate) state: ParserState,
    /// The line after them.
    pub(crate) line: u64,
}

impl EndedEntries {
    /// Reads the entry after them, of which these are the items and the number of its line feeds.
    pub(crate) fn read<'t>(
        &mut self,
        entry: &'t [u8],
        items: &[Item<'t>],
        lines: usize,
    ) -> Result<(), AllocError>
        requires undecided { self.old.decided.ending ≡ None }
        requires fits { self.old.line + length entry.now < 2 ^ 64 }
        requires count { lines ≡ count_by (λ c. c == 10) entry.now }
        ensures { KeepsItems entry.now (map raw items.now)
            → OnOk result (ReadsOctets entry.now self.old self.new) }
    {
        let place = Place::Line(self.line);
        self.state
            .read(statement_of(entry, items), place, &mut self.decided)?;
        self.line += lines as u64;
        Ok(())
    }
}
