//! A file that is expanded while it is read, with those that it includes.
ghost use Rattle.std.specs.Prelude.{◌≡◌, ◌++◌, ◌⊎◌, ◌≤◌, ℕ, suc, [], None, Some, IfNone, IfOk, IfSome, OnErr, OnOk, option_map};
ghost use Rattle.zone_files.specs.Expansion.{at_first, first_without, no_files, within};
ghost use Rattle.zone_files.specs.FileExpander.{AddsWithin, Feeds, HasFewerLines, IsOver, NamedFile, StandsFor, TakesIncluded, WritesFor, lines_left};
ghost use Rattle.zone_files.specs.IncludeStack.{file_name};
ghost use Rattle.zone_files.specs.Turns.{EndsFile, GoesAfterLines, TakesSome};
ghost use Rattle.zone_generate.specs.Entry.{Generation};
ghost use Rattle.zone_generate.specs.Range.{values_from};
ghost use Rattle.zone_files.specs.declared.expansion.progress.FileStatus.TheVariants.{Generating, Going, Including, Failed};

use crate::expansion::file_expansion::FileExpansion;
use crate::expansion::holding::Holding;
use crate::expansion::progress::FileStatus;
use std::alloc::{AllocError, Global};
use std::marker::Model;
use zone_generate::NextValue;
use zone_name::CasedName;

/// An expander of a file that is fed in pieces (RFC 1035 5.1). It keeps the entry that isn't ended,
/// and no expanded text.
///
/// Where it meets an `$INCLUDE` it stops, and its caller opens the file: `begin_included` gives the
/// expander of that file, and `end_included` goes on after it. Where it meets a `$GENERATE` it stops
/// too, and `generate` appends the lines, some at a time.
#[derive(Drop)]
pub struct FileExpander {
    expansion: FileExpansion,
}

impl Model for FileExpander {
    ghost use Rattle.zone_files.specs.FileExpander.{ExpanderState};
    ghost use Rattle.zone_files.specs.Machine.Expanding.{IsExpander, state_of};

    ghost Value = { ExpanderState };

    ghost view = { λ e. state_of e.expansion };

    ghost invariant = { λ e. IsExpander e.expansion };
}

impl FileExpander {
    /// An expander of the main file, under the name by which it was opened and its origin, for files
    /// under a directory (`included_file_name`).
    ///
    /// # Errors
    ///
    /// `AllocError`.
    pub fn new(
        alloc: Global,
        directory: Option<&str>,
        name: &str,
        origin: &CasedName,
    ) -> Result<FileExpander, AllocError>
        ensures stands { IfOk result (λ made. StandsFor made
            (at_first (option_map (λ folder. folder.now) directory.entry) name.now origin.now)
            [] no_files []) }
        ensures going { IfOk result (λ made. made.status ≡ Going) }
    {
        FileExpander::without(alloc, &[], directory, name, origin)
    }

    /// An expander of the main file as [`FileExpander::new`] makes it, which takes out the entries of
    /// these lines of the expanded text, in their order: of such an entry the line feeds stay, and an
    /// entry after it that omits its owner has the one that it states. A line of a `$GENERATE` takes
    /// out the whole entry. The lines are those of the expanded text without the entries before.
    ///
    /// # Errors
    ///
    /// `AllocError`.
    pub fn without(
        alloc: Global,
        lines: &[u64],
        directory: Option<&str>,
        name: &str,
        origin: &CasedName,
    ) -> Result<FileExpander, AllocError>
        ensures stands { IfOk result (λ made. StandsFor made (first_without lines.now
            (option_map (λ folder. folder.now) directory.entry) name.now origin.now)
            [] no_files []) }
        ensures going { IfOk result (λ made. made.status ≡ Going) }
    {
        let holding = Holding::first_without(alloc, lines, directory, name, origin)?;
        Ok(FileExpander {
            expansion: FileExpansion::new(alloc, holding),
        })
    }

    /// Takes the next piece of the file, appends what is expanded of it, and returns the octets that
    /// are left: none where further pieces may come, or those after an `$INCLUDE`, a `$GENERATE` or a
    /// fault.
    ///
    /// # Errors
    ///
    /// `AllocError`. The expander has failed then, and `out` may have got some of the text.
    pub fn feed<'p>(&mut self, piece: &'p [u8], out: &mut Vec<u8>) -> Result<&'p [u8], AllocError>
        ensures feeds { IfOk result (λ left.
            Feeds self.old piece.now left.now self.new out.old.items out.new.items) }
        ensures all { IfOk result (λ left. (left.now ≡ []) ⊎ IsOver self.new.status) }
        ensures some { IfOk result (λ left. TakesSome self.old.status piece.now left.now) }
        ensures failed { OnErr result (self.new.status ≡ Failed) }
    {
        match self.expansion.feed(piece, out) {
            Ok(left) => Ok(left),
            Err(refused) => {
                self.expansion.fail();
                Err(refused)
            }
        }
    }

    /// Takes the end of the file.
    ///
    /// # Errors
    ///
    /// `AllocError`. The expander has failed then, and `out` may have got some of the text.
    pub fn finish(&mut self, out: &mut Vec<u8>) -> Result<(), AllocError>
        ensures writes { OnOk result
            (WritesFor self.old [] self.new out.old.items out.new.items) }
        ensures ended { OnOk result (IsOver self.new.status) }
        ensures last { OnOk result (EndsFile self.old self.new) }
        ensures failed { OnErr result (self.new.status ≡ Failed) }
    {
        match self.expansion.finish(out) {
            Ok(()) => Ok(()),
            Err(refused) => {
                self.expansion.fail();
                Err(refused)
            }
        }
    }

    /// The name of the file that comes first, where an `$INCLUDE` was met. It is to be opened under
    /// this name.
    pub fn included(&self) -> Option<&str>
        ensures { option_map (λ name. name.now) result
            ≡ option_map (λ (named : NamedFile). named.name) self.now.included }
    {
        match &self.expansion.progress.included {
            Some(included) => Some(included.name.as_str()),
            None => None,
        }
    }

    /// The expander of the file that comes first. `None`: no `$INCLUDE` was met, or 10,000
    /// files were included, after which none is.
    ///
    /// # Errors
    ///
    /// `AllocError`.
    pub fn begin_included(&self) -> Result<Option<FileExpander>, AllocError>
        ensures stands { IfOk result (λ begun. IfSome begun (λ inner. (named : NamedFile)
            → self.now.included ≡ Some named
            → StandsFor inner (within named.name named.origin self.now.holds) [] no_files [])) }
        ensures going { IfOk result (λ begun. IfSome begun (λ inner. inner.status ≡ Going)) }
        ensures none { IfOk result (λ begun. IfNone begun
            ((self.now.included ≡ None) ⊎ (10000 ≤ self.now.holds.opened))) }
    {
        let Some(included) = &self.expansion.progress.included else {
            return Ok(None);
        };
        let alloc = self.expansion.alloc;
        let holding = &self.expansion.progress.holding;
        match holding.within(alloc, &included.name, &included.origin)? {
            Some(inner) => Ok(Some(FileExpander {
                expansion: FileExpansion::new(alloc, inner),
            })),
            None => Ok(None),
        }
    }

    /// Goes on after the file that comes first, of which `begin_included` made this expander and which
    /// has ended.
    ///
    /// # Errors
    ///
    /// `AllocError`. The expander has failed then, and `out` may have got some of the text.
    pub fn end_included(
        &mut self,
        inner: &FileExpander,
        out: &mut Vec<u8>,
    ) -> Result<(), AllocError>
        ensures taken { OnOk result (self.old.status ≡ Including
            → TakesIncluded self.old inner.now self.new out.old.items out.new.items) }
        ensures failed { OnErr result (self.new.status ≡ Failed) }
    {
        match self.expansion.take_included(&inner.expansion, out) {
            Ok(()) => Ok(()),
            Err(refused) => {
                self.expansion.fail();
                Err(refused)
            }
        }
    }

    /// The expander has failed from here on.
    pub(crate) fn fail(&mut self)
        ensures { self.new.status ≡ Failed }
    {
        self.expansion.fail();
    }

    /// Appends the next lines of the `$GENERATE` that was met, up to the first with which 65,536 octets
    /// or more are appended. It is called until the status is another than `Generating`. Where it is
    /// another already, nothing is done.
    ///
    /// # Errors
    ///
    /// `AllocError`. The expander has failed then, and `out` may have got some of the lines.
    pub fn generate(&mut self, out: &mut Vec<u8>) -> Result<(), AllocError>
        ensures writes { OnOk result
            (WritesFor self.old [] self.new out.old.items out.new.items) }
        ensures fewer { OnOk result
            (self.old.status ≡ Generating → HasFewerLines self.old self.new) }
        ensures within { OnOk result
            (AddsWithin self.old.generated out.old.items out.new.items) }
        ensures after { OnOk result
            (self.old.status ≡ Generating → GoesAfterLines self.old self.new) }
        ensures failed { OnErr result (self.new.status ≡ Failed) }
    {
        match self.expansion.generate(out) {
            Ok(()) => Ok(()),
            Err(refused) => {
                self.expansion.fail();
                Err(refused)
            }
        }
    }

    /// The value of the line that `generate` appends next, and the step from each value to the one
    /// after it. `None`: no lines come first.
    pub fn next_value(&self) -> Option<NextValue>
        ensures some { IfSome result (λ next. (g : Generation) × (self.now.generated ≡ Some g)
            × (count : ℕ) × (g.values ≡ values_from (suc count) next.step next.value)) }
        ensures none { IfNone result (lines_left self.now.generated ≡ 0) }
    {
        match &self.expansion.progress.generated {
            Some(lines) => lines.next_value(),
            None => None,
        }
    }

    /// How many lines come first, if the templates say something for each value: none where no
    /// `$GENERATE` was met.
    pub(crate) fn lines_left(&self) -> u64
        ensures { result ≡ lines_left self.now.generated }
    {
        match &self.expansion.progress.generated {
            Some(lines) => lines.values_left(),
            None => 0,
        }
    }

    /// The name under which the file was opened.
    pub(crate) fn file_name(&self) -> Option<&str>
        ensures { option_map (λ name. name.now) result ≡ file_name self.now.holds }
    {
        self.expansion.progress.holding.file_name()
    }

    /// How many files were included so far.
    pub(crate) fn included_files(&self) -> u64
        ensures { result ≡ self.now.holds.opened }
    {
        self.expansion.progress.holding.opened
    }

    /// How far the expansion of the file has come.
    pub fn status(&self) -> FileStatus
        ensures { result ≡ self.now.status }
    {
        self.expansion.progress.status
    }
}
