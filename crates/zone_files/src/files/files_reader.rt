//! Files that are read and expanded, step by step.
ghost use Rattle.std.specs.Prelude.{◌≡◌, ◌≤◌, ◌<◌, ◌+◌, ◌^◌, ◌-◌, ◌++◌, ◌∷◌, ◌⊎◌, [], ℕ, List, None, true, false, length, min, option_map, IfErr, IfOk, OnOk};
ghost use Rattle.zone_print.specs.Canonical.{text_limit};
ghost use Rattle.zone_files.specs.Expansion.{Holds, at_first};
ghost use Rattle.zone_files.specs.FileExpander.{lines_left};
ghost use Rattle.zone_files.specs.FilesStopped.{HasEndedAlone};
ghost use Rattle.zone_files.specs.IncludeStack.{wanted_name};
ghost use Rattle.zone_files.specs.Machine.OpenReading.{IsReading, ReadsOn, ReadsStep, StandsAfter, StandsForRead, StopsInnermost, StopsReading};
ghost use Rattle.zone_files.specs.Machine.StepsLeft.{ClosesSome, IsAligned, StepsOn, steps_left};
ghost use Rattle.zone_files.specs.Reading.{OpenedFile};
ghost use Rattle.zone_files.specs.Turns.{IsTaking};
ghost use Rattle.zone_files.specs.declared.expansion.progress.FileStatus.TheVariants.{Generating, Including};
ghost use Rattle.zone_files.specs.declared.files.files_reader.ReadingStop.TheVariants.{Memory, TooLong};

use crate::expansion::FileStatus;
use crate::files::included_files::IncludedFiles;
use crate::files::open_file::FileStop;
use crate::files::open_files::OpenFiles;
use crate::stack::IncludeStack;
use std::alloc::{AllocError, Global};
use zone_engine::OctetReader;
use zone_name::CasedName;
use zone_print::TEXT_LIMIT;

/// How many files may be included in a run.
const MOST_INCLUDED: u64 = 10_000;

/// Why the files are read no further.
#[derive(Clone, Copy, Debug)]
pub(crate) enum ReadingStop {
    /// The file that is wanted wasn't opened, or the innermost one wasn't read to its end.
    Unread,
    /// A file or the expanded text has more than [`TEXT_LIMIT`] octets.
    TooLong,
    /// Memory was refused.
    Memory,
}

/// A main file and those that it includes, which are read.
#[derive(Drop)]
pub(crate) struct FilesReader<R> {
    pub(crate) alloc: Global,
    pub(crate) stack: IncludeStack,
    pub(crate) open: OpenFiles<R>,
    /// How many files were included.
    pub(crate) included: u64,
    /// What the last step expanded.
    pub(crate) text: Vec<u8>,
    /// The octets of the expanded text so far.
    pub(crate) expanded: u64,
    /// Whether a file was closed that wasn't read to its end.
    pub(crate) is_cut: bool,
}

impl<R: OctetReader + Drop> FilesReader<R> {
    /// A main file of which nothing was read, under the name by which it was opened and its origin,
    /// for files under a directory (`included_file_name`).
    ///
    /// # Errors
    ///
    /// `AllocError`.
    #[tactic(auto, using(crate::proofs::FilesReading::stands_new))]
    pub(crate) fn new(
        alloc: Global,
        directory: Option<&str>,
        name: &str,
        origin: &CasedName,
        main: R,
    ) -> Result<FilesReader<R>, AllocError>
        ensures stands { IfOk result (λ made. StandsForRead R.state main
            (at_first (option_map (λ folder. folder.now) directory.entry) name.now origin.now)
            made [] []) }
        ensures none { IfOk result (λ made. made.included ≡ 0) }
        ensures nothing { IfOk result (λ made. made.expanded ≡ 0) }
        ensures aligned { IfOk result IsAligned }
    {
        let stack = IncludeStack::new(alloc, directory, name, origin)?;
        let open = OpenFiles::new(alloc, main)?;
        Ok(FilesReader {
            alloc,
            stack,
            open,
            included: 0,
            text: Vec::new(alloc),
            expanded: 0,
            is_cut: false,
        })
    }

    /// Whether a file was or is now closed that wasn't read to its end.
    fn is_cut_now(&self) -> bool
        ensures { result ≡ false
            → (self.now.is_cut ≡ false) × (self.now.«open».innermost.is_at_end ≡ true) }
    {
        self.is_cut || !self.open.innermost.is_at_end
    }

    /// Closes the files that have ended, so many of the innermost ones.
    fn close_ended(&mut self)
        ensures stands { (main : R) (ended : ℕ) (first : Holds) (opened : List (OpenedFile R))
            (text : List ℕ) → StandsAfter R.state main ended first self.old opened text
            → StandsForRead R.state main first self.new opened text }
        ensures stack { self.new.stack ≡ self.old.stack }
        ensures text { self.new.text.items ≡ self.old.text.items }
        ensures included { self.new.included ≡ self.old.included }
        ensures expanded { self.new.expanded ≡ self.old.expanded }
        ensures closes { ClosesSome self.old self.new }
    {
        'ended: while self.open.outer_files() > self.stack.outer_files() {
            self.is_cut = self.is_cut_now();
            self.open.close();
        }
    }

    /// Reads on in the innermost file.
    fn read_innermost(&mut self) -> Result<(), ReadingStop>
        requires none { self.old.text.items ≡ [] }
        ensures reads { OnOk result ((main : R) → ReadsOn R.state main self.old self.new) }
        ensures included { self.new.included ≡ self.old.included }
        ensures expanded { self.new.expanded ≡ self.old.expanded }
        ensures steps { OnOk result (IsTaking self.old.stack.innermost.status
            → IsAligned self.old → StepsOn self.old self.new) }
        ensures stops { IfErr result (StopsInnermost R.state self.old self.new) }
    {
        match self.open.innermost.read() {
            Ok(()) => {}
            Err(FileStop::Unread) => return Err(ReadingStop::Unread),
            Err(FileStop::TooLong) => return Err(ReadingStop::TooLong),
        }
        if self.open.innermost.piece.left().is_empty() {
            self.finish()
        } else {
            self.feed()
        }
    }

    /// Feeds what was read of the innermost file.
    fn feed(&mut self) -> Result<(), ReadingStop>
        requires none { self.old.text.items ≡ [] }
        ensures reads { OnOk result ((main : R) → ReadsOn R.state main self.old self.new) }
        ensures included { self.new.included ≡ self.old.included }
        ensures expanded { self.new.expanded ≡ self.old.expanded }
        ensures steps { OnOk result (IsTaking self.old.stack.innermost.status
            → 0 < length self.old.«open».innermost.piece → IsAligned self.old
            → StepsOn self.old self.new) }
        ensures memory { IfErr result (λ stop. stop ≡ Memory) }
    {
        let piece = self.open.innermost.piece.left();
        let Ok(left) = self.stack.feed(piece, &mut self.text) else {
            return Err(ReadingStop::Memory);
        };
        let left = left.len();
        self.open.innermost.piece.keep(left);
        Ok(())
    }

    /// Takes the end of the innermost file.
    fn finish(&mut self) -> Result<(), ReadingStop>
        requires none { self.old.text.items ≡ [] }
        ensures reads { OnOk result ((main : R) → ReadsOn R.state main self.old self.new) }
        ensures included { self.new.included ≡ self.old.included }
        ensures expanded { self.new.expanded ≡ self.old.expanded }
        ensures steps { OnOk result (IsTaking self.old.stack.innermost.status
            → IsAligned self.old → StepsOn self.old self.new) }
        ensures memory { IfErr result (λ stop. stop ≡ Memory) }
    {
        let Ok(()) = self.stack.finish(&mut self.text) else {
            return Err(ReadingStop::Memory);
        };
        self.close_ended();
        Ok(())
    }

    /// Takes the next lines of a `$GENERATE`, which may be the last entry of files.
    fn generate(&mut self) -> Result<(), ReadingStop>
        requires none { self.old.text.items ≡ [] }
        ensures reads { OnOk result ((main : R) → ReadsOn R.state main self.old self.new) }
        ensures included { self.new.included ≡ self.old.included }
        ensures expanded { self.new.expanded ≡ self.old.expanded }
        ensures steps { OnOk result (self.old.stack.innermost.status ≡ Generating
            → IsAligned self.old → StepsOn self.old self.new) }
        ensures memory { IfErr result (λ stop. stop ≡ Memory) }
    {
        let Ok(()) = self.stack.generate(&mut self.text) else {
            return Err(ReadingStop::Memory);
        };
        self.close_ended();
        Ok(())
    }

    /// Begins with the file that is wanted, which this reads.
    fn begin(&mut self, file: R) -> Result<(), ReadingStop>
        requires wanted { wanted_name self.old.stack ≡ None → ⊥ }
        requires few { self.old.included < 10000 }
        requires fewer { self.old.stack.innermost.holds.opened < 10000 }
        ensures stands { OnOk result ((main : R) (name : List ℕ) (first : Holds)
            (opened : List (OpenedFile R)) (text : List ℕ)
            → StandsForRead R.state main first self.old opened text
            → StandsForRead R.state main first self.new
            (opened ++ record { name = name; reader = file } ∷ []) text) }
        ensures text { OnOk result (self.new.text.items ≡ self.old.text.items) }
        ensures expanded { OnOk result (self.new.expanded ≡ self.old.expanded) }
        ensures included { OnOk result (self.new.included ≡ self.old.included + 1) }
        ensures few { OnOk result (self.new.included ≤ 10000) }
        ensures steps { OnOk result (IsAligned self.old → StepsOn self.old self.new) }
        ensures memory { IfErr result (λ stop. stop ≡ Memory) }
    {
        match self.stack.begin_included() {
            Ok(true) => {}
            Ok(false) => return Err(ReadingStop::Unread),
            Err(_) => return Err(ReadingStop::Memory),
        }
        let Ok(()) = self.open.open(self.alloc, file) else {
            return Err(ReadingStop::Memory);
        };
        self.included += 1;
        Ok(())
    }

    /// Whether the main file alone is open, and all files were read to their ends.
    pub(crate) fn has_read_all(&self) -> bool
        ensures alone { result ≡ true → length self.now.«open».outer.items ≡ 0 }
        ensures ended { result ≡ true → self.now.«open».innermost.is_at_end ≡ true }
        ensures whole { result ≡ true → self.now.is_cut ≡ false }
    {
        !self.is_cut && self.open.outer_files() == 0 && self.open.innermost.is_at_end
    }

    /// Whether the text has ended.
    pub(crate) fn has_ended(&self) -> bool
        ensures { result ≡ true → HasEndedAlone self.now.stack }
    {
        match self.stack.status() {
            FileStatus::Ended => self.stack.outer_files() == 0,
            FileStatus::BrokenOff => true,
            FileStatus::Faulty(_) => true,
            FileStatus::FaultyAt(_) => true,
            _ => false,
        }
    }

    /// Whether 10,000 files were included.
    fn has_included_most(&self) -> bool
        ensures yes { result ≡ true → (10000 ≤ self.now.included)
            ⊎ (10000 ≤ self.now.stack.innermost.holds.opened) }
        ensures no { result ≡ false → (self.now.included < 10000)
            × (self.now.stack.innermost.holds.opened < 10000) }
    {
        self.included >= MOST_INCLUDED || self.stack.included_files() >= MOST_INCLUDED
    }

    /// Counts the octets of the text of the last step.
    fn count(&mut self) -> Result<(), ReadingStop>
        ensures stack { self.new.stack ≡ self.old.stack }
        ensures files { self.new.«open» ≡ self.old.«open» }
        ensures included { self.new.included ≡ self.old.included }
        ensures cut { self.new.is_cut ≡ self.old.is_cut }
        ensures text { self.new.text.items ≡ self.old.text.items }
        ensures expanded { self.new.expanded
            ≡ min (self.old.expanded + length self.old.text.items) (2 ^ 64 - 1) }
        ensures long { IfErr result (λ stop. (stop ≡ TooLong) × (text_limit < self.new.expanded)) }
        ensures lines { OnOk result (lines_left self.new.stack.innermost.generated < 2 ^ 64) }
    {
        self.expanded = self.expanded.saturating_add(self.text.len() as u64);
        if self.expanded > TEXT_LIMIT {
            return Err(ReadingStop::TooLong);
        }
        // Lines are counted in 64 bits, by which there is a number of steps that may be left.
        let _lines = self.stack.lines_left();
        Ok(())
    }
}

/// Goes on with files whose text hasn't ended, and keeps what was expanded in `text`.
///
/// # Errors
///
/// `Unread`, `TooLong` and `Memory`.
pub(crate) fn read_on<S: IncludedFiles>(
    reader: &mut FilesReader<S::File>,
    files: &mut S,
) -> Result<(), ReadingStop>
    requires aligned { IsAligned reader.old }
    ensures reads { OnOk result ((main : S.File) (first : Holds) (start : S) (text : List ℕ)
        → IsReading S.opens S.File.state main first start reader.old files.old text
        → IsReading S.opens S.File.state main first start reader.new files.new
        (text ++ reader.new.text.items)) }
    ensures aligned { OnOk result (IsAligned reader.new) }
    ensures fewer { OnOk result (steps_left reader.new < steps_left reader.old) }
    ensures stops { IfErr result (λ stop. (main : S.File) (first : Holds) (start : S) (text : List ℕ)
        → IsReading S.opens S.File.state main first start reader.old files.old text
        → StopsReading S.opens S.File.state main first start files.new reader.new text stop) }
{
    reader.text.clear();
    step(reader, files)?;
    match reader.count() {
        Ok(()) => Ok(()),
        Err(stop) => Err(stop),
    }
}

/// Goes on with the files by one step. Where their text has ended, nothing is done.
fn step<S: IncludedFiles>(
    reader: &mut FilesReader<S::File>,
    files: &mut S,
) -> Result<(), ReadingStop>
    requires none { reader.old.text.items ≡ [] }
    ensures reads { OnOk result ((main : S.File) (first : Holds) (start : S) (text : List ℕ)
        → IsReading S.opens S.File.state main first start reader.old files.old text
        → ReadsStep S.opens S.File.state main first start reader.new files.new text) }
    ensures steps { OnOk result (IsAligned reader.old → StepsOn reader.old reader.new) }
    ensures stops { IfErr result (λ stop. (main : S.File) (first : Holds) (start : S) (text : List ℕ)
        → IsReading S.opens S.File.state main first start reader.old files.old text
        → StopsReading S.opens S.File.state main first start files.new reader.new text stop) }
{
    match reader.stack.status() {
        FileStatus::Going => reader.read_innermost(),
        FileStatus::Broken => reader.read_innermost(),
        FileStatus::Generating => reader.generate(),
        FileStatus::Including => open_wanted(reader, files),
        FileStatus::Failed => Err(ReadingStop::Memory),
        FileStatus::Ended => Err(ReadingStop::Unread),
        FileStatus::BrokenOff => Err(ReadingStop::Unread),
        FileStatus::Faulty(_) => Err(ReadingStop::Unread),
        FileStatus::FaultyAt(_) => Err(ReadingStop::Unread),
    }
}

/// Opens the file that is wanted.
fn open_wanted<S: IncludedFiles>(
    reader: &mut FilesReader<S::File>,
    files: &mut S,
) -> Result<(), ReadingStop>
    requires wants { reader.old.stack.innermost.status ≡ Including }
    ensures reads { OnOk result ((main : S.File) (first : Holds) (start : S) (text : List ℕ)
        → IsReading S.opens S.File.state main first start reader.old files.old text
        → IsReading S.opens S.File.state main first start reader.new files.new text) }
    ensures text { OnOk result (reader.new.text.items ≡ reader.old.text.items) }
    ensures steps { OnOk result (IsAligned reader.old → StepsOn reader.old reader.new) }
    ensures stops { IfErr result (λ stop. (main : S.File) (first : Holds) (start : S) (text : List ℕ)
        → IsReading S.opens S.File.state main first start reader.old files.old text
        → StopsReading S.opens S.File.state main first start files.new reader.new text stop) }
{
    let Some(name) = reader.stack.wanted() else {
        return Err(ReadingStop::Unread);
    };
    if reader.has_included_most() {
        return Err(ReadingStop::Unread);
    }
    match files.open_included(name) {
        Some(file) => reader.begin(file),
        None => Err(ReadingStop::Unread),
    }
}
