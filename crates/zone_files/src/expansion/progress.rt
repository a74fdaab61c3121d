//! How far the expansion of a file has come.
ghost use Rattle.std.specs.Prelude.{◌≡◌, ◌++◌, true, false, map, OnOk};
ghost use Rattle.zone_rdata.specs.Item.{raw};
ghost use Rattle.zone_files.specs.FileExpander.{AddsWithin};
ghost use Rattle.zone_files.specs.Machine.Progressing.{Enters, GivesLines, end_of};
ghost use Rattle.zone_files.specs.declared.expansion.progress.FileStatus.TheVariants.{Broken, Generating, Going};

use crate::expansion::holding::Holding;
use crate::expansion::names::push_origin_line;
use crate::expansion::opened_name::FileName;
use crate::expansion::step::Step;
use crate::fault::ExpansionFault;
use std::alloc::{AllocError, Global};
use zone_generate::{Generated, LinesState};
use zone_name::CasedName;
use zone_rdata::Item;

/// How far the expansion of a file has come.
#[derive(Clone, Copy, Debug)]
pub enum FileStatus {
    /// More of the file may come, or its end.
    Going,
    /// An `$INCLUDE` was met: the file that it names comes first.
    Including,
    /// A `$GENERATE` was met: its lines come first.
    Generating,
    /// The text of the file broke: what comes of it is written as it is.
    Broken,
    /// The file has ended, and every entry was expanded.
    Ended,
    /// The text broke, and the file has ended, or a file that it includes broke: nothing follows.
    BrokenOff,
    /// An entry has this fault: nothing follows.
    Faulty(ExpansionFault),
    /// The templates of a `$GENERATE` say nothing for this value, or the line for it isn't one entry
    /// (`ExpansionFault::BadTemplate`): nothing follows.
    FaultyAt(u64),
    /// Memory was refused, or a file that it includes hadn't ended.
    Failed,
}

/// The file that an `$INCLUDE` names.
#[derive(Drop)]
pub(crate) struct IncludedFile {
    pub(crate) name: FileName,
    pub(crate) origin: CasedName,
}

/// The entries of a file that were expanded.
#[derive(Drop)]
pub(crate) struct Progress {
    pub(crate) holding: Holding,
    pub(crate) status: FileStatus,
    /// The file that comes first, where an `$INCLUDE` was met.
    pub(crate) included: Option<IncludedFile>,
    /// The lines that come first, where a `$GENERATE` was met.
    pub(crate) generated: Option<Generated>,
    /// The `$INCLUDE` or `$GENERATE` was the last entry of the file.
    pub(crate) last: bool,
}

/// As soon as so many octets of lines are appended, a call appends no more.
const LINES_AT_ONCE: usize = 65_536;

/// How far a file is after an entry, which may be the last.
pub(crate) fn end_of(last: bool) -> FileStatus
    ensures { result ≡ end_of last }
{
    if last {
        FileStatus::Ended
    } else {
        FileStatus::Going
    }
}

impl Progress {
    /// Takes an entry, of which these items are kept, and writes what takes its place.
    ///
    /// # Errors
    ///
    /// `AllocError`. `out` may have got some of it.
    pub(crate) fn enter(
        &mut self,
        alloc: Global,
        entry: &[u8],
        items: &[Item],
        last: bool,
        out: &mut Vec<u8>,
    ) -> Result<(), AllocError>
        ensures { OnOk result (Enters self.old entry.now (map raw items.now) last self.new
            out.old.items out.new.items) }
    {
        match self.holding.take_entry(alloc, entry, items, out)? {
            Step::Written => {
                self.status = end_of(last);
                Ok(())
            }
            Step::Opens(name, origin) => {
                push_origin_line(&origin, out)?;
                self.included = Some(IncludedFile { name, origin });
                self.last = last;
                self.status = FileStatus::Including;
                Ok(())
            }
            Step::Generates(lines) => {
                self.generated = Some(lines);
                self.last = last;
                self.status = FileStatus::Generating;
                Ok(())
            }
            Step::Fails(fault) => {
                self.status = FileStatus::Faulty(fault);
                Ok(())
            }
        }
    }

    /// Writes the next of the lines that come first.
    ///
    /// # Errors
    ///
    /// `AllocError`. `out` may have got some of them.
    pub(crate) fn push_lines(&mut self, out: &mut Vec<u8>) -> Result<(), AllocError>
        ensures gives { OnOk result (GivesLines self.old self.new out.old.items out.new.items) }
        ensures within { OnOk result
            (AddsWithin self.old.generated out.old.items out.new.items) }
    {
        let Some(lines) = &mut self.generated else {
            self.status = FileStatus::Failed;
            return Ok(());
        };
        match lines.next_lines(LINES_AT_ONCE, out)? {
            LinesState::More => {
                self.status = FileStatus::Generating;
                Ok(())
            }
            LinesState::AtEnd => {
                self.generated = None;
                self.status = end_of(self.last);
                Ok(())
            }
            LinesState::BadTemplate(value) => {
                self.generated = None;
                self.status = FileStatus::FaultyAt(value);
                Ok(())
            }
        }
    }

    /// Whether lines come first.
    pub(crate) fn is_generating(&self) -> bool
        ensures yes { result ≡ true → self.now.status ≡ Generating }
        ensures no { result ≡ false → self.now.status ≡ Generating → ⊥ }
    {
        matches!(self.status, FileStatus::Generating)
    }

    /// Whether further entries may be taken.
    pub(crate) fn is_going(&self) -> bool
        ensures yes { result ≡ true → self.now.status ≡ Going }
        ensures no { result ≡ false → self.now.status ≡ Going → ⊥ }
    {
        matches!(self.status, FileStatus::Going)
    }

    /// Whether the text broke.
    pub(crate) fn is_broken(&self) -> bool
        ensures yes { result ≡ true → self.now.status ≡ Broken }
        ensures no { result ≡ false → self.now.status ≡ Broken → ⊥ }
    {
        matches!(self.status, FileStatus::Broken)
    }
}
