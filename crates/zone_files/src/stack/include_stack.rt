//! The files that are open while a main file is expanded.
ghost use Rattle.std.specs.Prelude.{◌≡◌, ◌<◌, ◌≤◌, ◌+◌, ◌⊎◌, [], None, true, false, length, option_map, IfOk, IsNone, OnErr, OnOk};
ghost use Rattle.zone_files.specs.Expansion.{at_first, first_without};
ghost use Rattle.zone_files.specs.ExpandedLoader.{stopped};
ghost use Rattle.zone_files.specs.FileExpander.{HasFewerLines, IsOver, lines_left};
ghost use Rattle.zone_files.specs.IncludeStack.{BeginsInner, EndsInnermost, FeedsInnermost, MakesLines, StandsForFiles, fed_ended, file_name, main_alone, stop_line, wanted_name};
ghost use Rattle.zone_files.specs.Turns.{EndsFile, GoesAfterLines, TakesSome};
ghost use Rattle.zone_files.specs.Machine.Stacking.{EndsOutward, GivesOn, IsSameOrShorter, StopsText, TakesPart};
ghost use Rattle.zone_files.specs.declared.expansion.progress.FileStatus.TheVariants.{Ended, Failed, Generating, Going, Including};

use crate::expansion::{FileExpander, FileStatus};
use crate::fault_line::EntryPlace;
use crate::stack::line_sources::LineSources;
use std::alloc::{AllocError, Global};
use std::marker::Model;
use std::mem;
use zone_name::CasedName;

/// The master files that are open while a main file is expanded (RFC 1035 5.1): the main file, the
/// file that it includes, and so on to the innermost one, which is read. It opens no file: its caller
/// feeds the octets of the innermost one, and opens the file that [`IncludeStack::wanted`] names. Of
/// each file it keeps the entry that isn't ended, and no expanded text.
///
/// Contracts see the expanders of the files.
///
/// ```text
/// let mut stack = IncludeStack::new(alloc, None, "example.zone", &origin)?;
/// loop {
///     match stack.status() {
///         FileStatus::Going | FileStatus::Broken => .. feed the innermost file, or finish it ..
///         FileStatus::Including => .. open the file that is wanted, and begin_included ..
///         FileStatus::Generating => stack.generate(&mut out)?,
///         _ => break,
///     }
/// }
/// ```
#[derive(Drop)]
pub struct IncludeStack {
    alloc: Global,
    innermost: FileExpander,
    /// The files that wait for the innermost one, the main file first.
    outer: Vec<FileExpander>,
    lines: LineSources,
}

impl Model for IncludeStack {
    ghost use Rattle.std.specs.Prelude.{◌≡◌, reverse};
    ghost use Rattle.std.specs.List.{All};
    ghost use Rattle.zone_files.specs.FileExpander.{ExpanderState};
    ghost use Rattle.zone_files.specs.IncludeStack.{StackState};
    ghost use Rattle.zone_files.specs.declared.expansion.progress.FileStatus.TheVariants.{Including};

    ghost Value = { StackState };

    ghost view = { λ s. record { innermost = s.innermost; outer = reverse s.outer.items; next_line = s.lines.places.next } };

    ghost invariant = { λ s. All (λ (e : ExpanderState). e.status ≡ Including) s.outer.items };
}

impl IncludeStack {
    /// A main file alone, under the name by which it was opened and its origin, for files under a
    /// directory (`included_file_name`).
    ///
    /// # Errors
    ///
    /// `AllocError`.
    pub fn new(
        alloc: Global,
        directory: Option<&str>,
        name: &str,
        origin: &CasedName,
    ) -> Result<IncludeStack, AllocError>
        ensures stands { IfOk result (λ made. StandsForFiles made
            (at_first (option_map (λ folder. folder.now) directory.entry) name.now origin.now)
            main_alone []) }
        ensures going { IfOk result (λ made. made.innermost.status ≡ Going) }
        ensures alone { IfOk result (λ made. made.outer ≡ []) }
    {
        IncludeStack::without(alloc, &[], directory, name, origin)
    }

    /// A main file alone, of which the entries of these lines of the expanded text are taken out, as by
    /// [`FileExpander::without`].
    ///
    /// # Errors
    ///
    /// `AllocError`.
    pub fn without(
        alloc: Global,
        lines: &[u64],
        directory: Option<&str>,
        name: &str,
        origin: &CasedName,
    ) -> Result<IncludeStack, AllocError>
        ensures stands { IfOk result (λ made. StandsForFiles made (first_without lines.now
            (option_map (λ folder. folder.now) directory.entry) name.now origin.now)
            main_alone []) }
        ensures going { IfOk result (λ made. made.innermost.status ≡ Going) }
        ensures alone { IfOk result (λ made. made.outer ≡ []) }
    {
        Ok(IncludeStack {
            alloc,
            innermost: FileExpander::without(alloc, lines, directory, name, origin)?,
            outer: Vec::new(alloc),
            lines: LineSources::new(alloc, name)?,
        })
    }

    /// Takes the next piece of the innermost file, appends what is expanded of it, and returns the
    /// octets of the piece that are left: none where further pieces may come, or those after an
    /// `$INCLUDE`, a `$GENERATE` or a fault. After a fault the text ends with a line `$STOPPED`, and
    /// nothing is taken any more.
    ///
    /// The octets left after an `$INCLUDE` are to be fed once the included file has ended, and those
    /// after a `$GENERATE` once `generate` has appended its lines.
    ///
    /// # Errors
    ///
    /// `AllocError`. The stack has failed then, and `out` may have got some of the text.
    pub fn feed<'p>(&mut self, piece: &'p [u8], out: &mut Vec<u8>) -> Result<&'p [u8], AllocError>
        ensures feeds { IfOk result (λ left. FeedsInnermost self.old piece.now left.now self.new
            out.old.items out.new.items) }
        ensures all { IfOk result (λ left. (left.now ≡ []) ⊎ IsOver self.new.innermost.status) }
        ensures some { IfOk result
            (λ left. TakesSome self.old.innermost.status piece.now left.now) }
        ensures failed { OnErr result (self.new.innermost.status ≡ Failed) }
    {
        match self.feed_innermost(piece, out) {
            Ok(left) => Ok(left),
            Err(refused) => {
                self.innermost.fail();
                Err(refused)
            }
        }
    }

    /// Takes the end of the innermost file, and goes on with the file that includes it.
    ///
    /// # Errors
    ///
    /// `AllocError`. The stack has failed then, and `out` may have got some of the text.
    pub fn finish(&mut self, out: &mut Vec<u8>) -> Result<(), AllocError>
        ensures ends { OnOk result
            (EndsInnermost self.old self.new out.old.items out.new.items) }
        ensures last { OnOk result (EndsFile self.old.innermost self.new.innermost
            ⊎ (length self.new.outer < length self.old.outer)) }
        ensures failed { OnErr result (self.new.innermost.status ≡ Failed) }
    {
        match self.finish_innermost(out) {
            Ok(()) => Ok(()),
            Err(refused) => {
                self.innermost.fail();
                Err(refused)
            }
        }
    }

    /// Appends the next lines of the `$GENERATE` that was met, as [`FileExpander::generate`] does, up
    /// to the first with which 65,536 octets or more of lines are appended. Where the `$GENERATE` was
    /// the last entry of its file, the last call goes on with the file that includes it. It is called
    /// until the status is another than `Generating`. Where it is another already, nothing is done.
    ///
    /// Where its templates say nothing for a value, or the line isn't one entry, the text ends with a
    /// line `$STOPPED`.
    ///
    /// # Errors
    ///
    /// `AllocError`. The stack has failed then, and `out` may have got some of the lines.
    pub fn generate(&mut self, out: &mut Vec<u8>) -> Result<(), AllocError>
        ensures makes { OnOk result (MakesLines self.old self.new out.old.items out.new.items) }
        ensures after { OnOk result (self.old.innermost.status ≡ Generating
            → GoesAfterLines self.old.innermost self.new.innermost
            ⊎ (length self.new.outer < length self.old.outer)) }
        ensures failed { OnErr result (self.new.innermost.status ≡ Failed) }
    {
        match self.generate_innermost(out) {
            Ok(()) => Ok(()),
            Err(refused) => {
                self.innermost.fail();
                Err(refused)
            }
        }
    }

    /// The name of the file that comes first, where an `$INCLUDE` was met. It is to be opened under
    /// this name.
    pub fn wanted(&self) -> Option<&str>
        ensures { option_map (λ name. name.now) result ≡ wanted_name self.now }
    {
        match self.innermost.status() {
            FileStatus::Including => self.innermost.included(),
            _ => None,
        }
    }

    /// Begins with the file that is wanted, which was opened: it is the innermost one from here on.
    /// `false`: no file is wanted, or 10,000 files were included, after which none is; then nothing
    /// is changed.
    ///
    /// # Errors
    ///
    /// `AllocError`. The stack has failed then.
    pub fn begin_included(&mut self) -> Result<bool, AllocError>
        ensures begun { IfOk result (λ begun. begun ≡ true → BeginsInner self.old self.new) }
        ensures none { IfOk result (λ begun. begun ≡ false → (self.new ≡ self.old)
            × ((wanted_name self.old ≡ None) ⊎ (10000 ≤ self.old.innermost.holds.opened))) }
        ensures failed { OnErr result (self.new.innermost.status ≡ Failed) }
    {
        match self.begin_inner() {
            Ok(begun) => Ok(begun),
            Err(refused) => {
                self.innermost.fail();
                Err(refused)
            }
        }
    }

    /// How many files wait for the innermost one: none while that is the main file.
    pub fn outer_files(&self) -> usize
        ensures { result ≡ length self.now.outer }
    {
        self.outer.len()
    }

    /// The name under which the innermost file was opened, which is read.
    pub fn innermost_name(&self) -> Option<&str>
        ensures { option_map (λ name. name.now) result ≡ file_name self.now.innermost.holds }
    {
        self.innermost.file_name()
    }

    /// How many lines come first, if the templates say something for each value: none where no
    /// `$GENERATE` was met.
    pub(crate) fn lines_left(&self) -> u64
        ensures { result ≡ lines_left self.now.innermost.generated }
    {
        self.innermost.lines_left()
    }

    /// How many files were included so far.
    pub(crate) fn included_files(&self) -> u64
        ensures { result ≡ self.now.innermost.holds.opened }
    {
        self.innermost.included_files()
    }

    /// The line of the expanded text that comes next, from 1.
    pub fn next_line(&self) -> u64
        ensures { result ≡ self.now.next_line }
    {
        self.lines.next_line()
    }

    /// Where a line of the expanded text comes from. `None`: it is no line of the text so far, which may
    /// end inside the line that comes next.
    pub fn place_of(&self, line: u64) -> Option<EntryPlace<'_>>
        ensures { self.now.next_line < line → IsNone result }
    {
        if line > self.lines.next_line() {
            return None;
        }
        self.lines.place_of(line)
    }

    /// Where the last line of the expanded text comes from: the entry with a fault that has ended the
    /// text, with the value for which a `$GENERATE` has no line, or the `$INCLUDE` of the file that is wanted.
    pub fn last_place(&self) -> Option<EntryPlace<'_>> {
        self.lines.place_of(self.lines.last_line())
    }

    /// The `$INCLUDE` of the innermost file. `None`: that is the main file.
    pub fn include_place(&self) -> Option<EntryPlace<'_>> {
        if self.outer.is_empty() {
            return None;
        }
        self.lines.place_of(self.lines.origin_line())
    }

    /// How far the expansion has come: that of the innermost file, and `Ended`, `BrokenOff`, `Faulty`
    /// and `FaultyAt` where the whole text has ended.
    pub fn status(&self) -> FileStatus
        ensures { result ≡ self.now.innermost.status }
    {
        self.innermost.status()
    }
}

impl IncludeStack {
    /// Begins with the file that is wanted.
    fn begin_inner(&mut self) -> Result<bool, AllocError>
        ensures begun { IfOk result (λ begun. begun ≡ true → BeginsInner self.old self.new) }
        ensures none { IfOk result (λ begun. begun ≡ false → (self.new ≡ self.old)
            × ((wanted_name self.old ≡ None) ⊎ (10000 ≤ self.old.innermost.holds.opened))) }
    {
        if !self.is_wanting() {
            return Ok(false);
        }
        let Some(name) = self.innermost.included() else {
            return Ok(false);
        };
        let Some(inner) = self.innermost.begin_included()? else {
            return Ok(false);
        };
        self.lines.begin_included(self.alloc, name)?;
        self.outer.push(mem::replace(&mut self.innermost, inner))?;
        Ok(true)
    }

    /// Whether a fault has ended the text.
    fn is_faulty(&self) -> bool
        ensures yes { result ≡ true → stop_line self.now.innermost.status ≡ stopped }
        ensures over { result ≡ true → IsOver self.now.innermost.status
            × (self.now.innermost.status ≡ Ended → ⊥) }
        ensures no { result ≡ false → stop_line self.now.innermost.status ≡ [] }
    {
        matches!(
            self.innermost.status(),
            FileStatus::Faulty(_) | FileStatus::FaultyAt(_)
        )
    }

    /// Feeds the innermost file, unless a fault has ended the text.
    fn feed_innermost<'p>(
        &mut self,
        piece: &'p [u8],
        out: &mut Vec<u8>,
    ) -> Result<&'p [u8], AllocError>
        ensures feeds { IfOk result (λ left. FeedsInnermost self.old piece.now left.now self.new
            out.old.items out.new.items) }
        ensures all { IfOk result (λ left. (left.now ≡ []) ⊎ IsOver self.new.innermost.status) }
        ensures some { IfOk result
            (λ left. TakesSome self.old.innermost.status piece.now left.now) }
    {
        if self.is_faulty() {
            return Ok(piece);
        }
        let left = self.take_front(piece, out)?;
        self.push_stop_line(out)?;
        Ok(left)
    }

    /// Feeds the innermost file.
    fn take_front<'p>(&mut self, piece: &'p [u8], out: &mut Vec<u8>) -> Result<&'p [u8], AllocError>
        ensures takes { IfOk result (λ left. TakesPart self.old piece.now left.now self.new
            out.old.items out.new.items) }
        ensures all { IfOk result (λ left. (left.now ≡ []) ⊎ IsOver self.new.innermost.status) }
        ensures some { IfOk result
            (λ left. TakesSome self.old.innermost.status piece.now left.now) }
    {
        let before = out.as_slice().len();
        let left = self.innermost.feed(piece, out)?;
        let taken = piece.len() - left.len();
        self.lines.take(&piece[..taken], out, before);
        Ok(left)
    }

    /// Ends the innermost file and those that end with it, unless a fault has ended the text.
    fn finish_innermost(&mut self, out: &mut Vec<u8>) -> Result<(), AllocError>
        ensures ends { OnOk result
            (EndsInnermost self.old self.new out.old.items out.new.items) }
        ensures last { OnOk result (EndsFile self.old.innermost self.new.innermost
            ⊎ (length self.new.outer < length self.old.outer)) }
    {
        if self.is_faulty() {
            return Ok(());
        }
        self.end_innermost(out)?;
        self.go_on_outward(out)?;
        self.push_stop_line(out)?;
        Ok(())
    }

    /// Makes the next lines, where they come first, and ends the files that end with them.
    fn generate_innermost(&mut self, out: &mut Vec<u8>) -> Result<(), AllocError>
        ensures makes { OnOk result (MakesLines self.old self.new out.old.items out.new.items) }
        ensures after { OnOk result (self.old.innermost.status ≡ Generating
            → GoesAfterLines self.old.innermost self.new.innermost
            ⊎ (length self.new.outer < length self.old.outer)) }
    {
        if !self.is_generating() {
            return Ok(());
        }
        self.push_lines(out)?;
        self.go_on_outward(out)?;
        self.push_stop_line(out)?;
        Ok(())
    }

    /// Whether lines come first.
    fn is_generating(&self) -> bool
        ensures yes { result ≡ true → self.now.innermost.status ≡ Generating }
        ensures no { result ≡ false → self.now.innermost.status ≡ Generating → ⊥ }
    {
        matches!(self.innermost.status(), FileStatus::Generating)
    }

    /// Makes the next of the lines that come first.
    fn push_lines(&mut self, out: &mut Vec<u8>) -> Result<(), AllocError>
        ensures gives { OnOk result
            (GivesOn self.old (λ fed. fed) self.new out.old.items out.new.items) }
        ensures outer { OnOk result (self.new.outer ≡ self.old.outer) }
        ensures fewer { OnOk result (self.old.innermost.status ≡ Generating
            → HasFewerLines self.old.innermost self.new.innermost) }
        ensures after { OnOk result (self.old.innermost.status ≡ Generating
            → GoesAfterLines self.old.innermost self.new.innermost) }
    {
        self.lines.begin_lines(self.innermost.next_value())?;
        let before = out.as_slice().len();
        self.innermost.generate(out)?;
        self.lines.take(&[], out, before);
        self.lines.end_lines(self.innermost.status())?;
        Ok(())
    }

    /// Goes on with each file that waits for one that has ended.
    fn go_on_outward(&mut self, out: &mut Vec<u8>) -> Result<(), AllocError>
        ensures ends { OnOk result
            (EndsOutward self.old self.new out.old.items out.new.items) }
        ensures main { OnOk result (self.new.innermost.status ≡ Ended → self.new.outer ≡ []) }
        ensures same { OnOk result (IsSameOrShorter self.old self.new) }
    {
        'ended: while self.has_ended_inner() {
            self.go_on(out)?;
        }
        Ok(())
    }

    /// Ends the innermost file.
    fn end_innermost(&mut self, out: &mut Vec<u8>) -> Result<(), AllocError>
        ensures gives { OnOk result
            (GivesOn self.old (λ fed. fed) self.new out.old.items out.new.items) }
        ensures outer { OnOk result (self.new.outer ≡ self.old.outer) }
        ensures over { OnOk result (IsOver self.new.innermost.status) }
        ensures last { OnOk result (EndsFile self.old.innermost self.new.innermost) }
    {
        let was_met = self.is_wanting();
        let before = out.as_slice().len();
        self.innermost.finish(out)?;
        let is_met = self.is_wanting();
        self.lines.take_end(out, before, was_met, is_met);
        Ok(())
    }

    /// Whether an `$INCLUDE` was met.
    fn is_wanting(&self) -> bool
        ensures yes { result ≡ true → self.now.innermost.status ≡ Including }
        ensures no { result ≡ false → wanted_name self.now ≡ None }
    {
        matches!(self.innermost.status(), FileStatus::Including)
    }

    /// Whether the innermost file has ended, and another one waits for it.
    fn has_ended_inner(&self) -> bool
        ensures yes { result ≡ true → (self.now.innermost.status ≡ Ended) × (0 < length self.now.outer) }
        ensures no { result ≡ false → self.now.innermost.status ≡ Ended → self.now.outer ≡ [] }
    {
        matches!(self.innermost.status(), FileStatus::Ended) && !self.outer.is_empty()
    }

    /// Goes on with the file that waits for the innermost one, which has ended.
    fn go_on(&mut self, out: &mut Vec<u8>) -> Result<(), AllocError>
        requires { 0 < length self.old.outer }
        ensures gives { OnOk result
            (GivesOn self.old (fed_ended 1) self.new out.old.items out.new.items) }
        ensures outer { OnOk result (length self.old.outer ≡ 1 + length self.new.outer) }
    {
        let Some(mut outer) = self.outer.pop() else {
            return Ok(());
        };
        let before = out.as_slice().len();
        let ended = outer.end_included(&self.innermost, out);
        self.innermost = outer;
        ended?;
        self.lines.end_included()?;
        self.lines.take(&[], out, before);
        Ok(())
    }

    /// Appends the last line of the text, where a fault has ended it.
    fn push_stop_line(&mut self, out: &mut Vec<u8>) -> Result<(), AllocError>
        ensures { OnOk result (StopsText self.old self.new out.old.items out.new.items) }
    {
        if self.is_faulty() {
            out.extend_from_slice(b"$STOPPED\n")?;
            self.lines.take(&[], b"$STOPPED\n", 0);
        }
        Ok(())
    }
}
