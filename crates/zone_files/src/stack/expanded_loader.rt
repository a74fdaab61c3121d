//! The zone of a master file and those that it includes, which are fed in pieces.
ghost use Rattle.std.specs.Prelude.{◌≡◌, ◌++◌, ◌-◌, ◌≤◌, ◌⊎◌, [], List, ℕ, Option, true, false, is_some, length, IfErr, IfOk, OnErr, OnOk, option_map};
ghost use Rattle.zone_name.specs.Common.{Labels};
ghost use Rattle.zone_rdata.specs.declared.fault.Fault.{Fault};
ghost use Rattle.zone_rdata.specs.declared.fault.Place.TheVariants.{Line};
ghost use Rattle.zone_print.specs.Canonical.{canon, text_limit};
ghost use Rattle.zone_files.specs.Expansion.{Holds, at_first, first_without};
ghost use Rattle.zone_files.specs.ExpandedLoader.{FilesDenote, FilesDenoteWithout, LoadsEnd, LoadsInnermost, RefusesFor, StandsForExpanded, judged, stopped};
ghost use Rattle.zone_files.specs.FileExpander.{IsOver};
ghost use Rattle.zone_files.specs.IncludeStack.{FedFiles, StandsForFiles, fed_inner, main_alone, main_file};
ghost use Rattle.zone_files.specs.Loading.Fed.{StandsForPresentation};
ghost use Rattle.zone_files.specs.Presentation.{PresentationDenotes};
ghost use Rattle.zone_files.specs.Machine.ExpandedLoading.{DenotesLoaded, RefusesFaulty, RefusesUnread, RefusesWhole};

use crate::expansion::FileStatus;
use crate::fault::ExpansionFault;
use crate::loading::{PresentationLoader, PresentationRefusal};
use crate::stack::include_stack::IncludeStack;
use std::alloc::{AllocError, Global};
use std::marker::Model;
use zone_name::CasedName;
use zone_rdata::{Place, Stop};
use zone_set::Zone;

/// Why the files denote no zone.
#[derive(Drop)]
pub enum ExpandedRefusal {
    /// An entry can't be expanded, and no entry before it has a fault. It is the one of
    /// [`IncludeStack::last_place`].
    Expansion(ExpansionFault),
    /// A file wasn't read to its end, or not opened, and no entry before that has a fault.
    Unread,
    /// The expanded text is refused. Its lines are those of [`IncludeStack::place_of`].
    Text(PresentationRefusal),
}

/// The zone of a master file and the files that it includes (RFC 1035 5.1), with records of all types
/// in presentation format. It is driven as an [`IncludeStack`] is, and keeps no expanded text.
/// Contracts see what it holds.
#[derive(Drop)]
pub struct ExpandedLoader {
    stack: IncludeStack,
    loader: PresentationLoader,
    /// What the last call expanded, which was loaded.
    text: Vec<u8>,
}

impl Model for ExpandedLoader {
    ghost use Rattle.zone_files.specs.ExpandedLoader.{ExpandedState};

    ghost Value = { ExpandedState };

    ghost view = { λ l. record { stack = l.stack; loader = l.loader } };
}

impl ExpandedLoader {
    /// A loader of a main file, under the name by which it was opened and its origin, whose letters
    /// names in data keep, for files under a directory (`included_file_name`).
    ///
    /// # Errors
    ///
    /// `AllocError`.
    pub fn new(
        alloc: Global,
        directory: Option<&str>,
        name: &str,
        origin: &CasedName,
    ) -> Result<ExpandedLoader, AllocError>
        ensures stands { IfOk result (λ made. StandsForExpanded made origin.now
            (at_first (option_map (λ folder. folder.now) directory.entry) name.now origin.now)
            main_alone) }
    {
        ExpandedLoader::without(alloc, &[], directory, name, origin)
    }

    /// A loader of a main file, of which the entries of these lines of the expanded text are taken out,
    /// as by [`FileExpander::without`](crate::FileExpander::without).
    ///
    /// # Errors
    ///
    /// `AllocError`.
    pub fn without(
        alloc: Global,
        lines: &[u64],
        directory: Option<&str>,
        name: &str,
        origin: &CasedName,
    ) -> Result<ExpandedLoader, AllocError>
        ensures stands { IfOk result (λ made. StandsForExpanded made origin.now
            (first_without lines.now (option_map (λ folder. folder.now) directory.entry) name.now
            origin.now) main_alone) }
    {
        Ok(ExpandedLoader {
            stack: IncludeStack::without(alloc, lines, directory, name, origin)?,
            loader: PresentationLoader::new(alloc, origin),
            text: Vec::new(alloc),
        })
    }

    /// A loader of files of which these are open, whose expanded text this has loaded.
    pub(crate) fn of_parts(
        alloc: Global,
        stack: IncludeStack,
        loader: PresentationLoader,
    ) -> ExpandedLoader
        ensures stack { result.stack ≡ stack }
        ensures loader { result.loader ≡ loader }
    {
        ExpandedLoader {
            stack,
            loader,
            text: Vec::new(alloc),
        }
    }

    /// Takes the next piece of the innermost file, loads what is expanded of it, and returns the octets
    /// of the piece that are left: none where further pieces may come, or those after an `$INCLUDE`, a
    /// `$GENERATE` or a fault. The octets left after an `$INCLUDE` are to be fed once the included file
    /// has ended, and those after a `$GENERATE` once `generate` has loaded its lines.
    ///
    /// # Errors
    ///
    /// `Memory`. The loader has failed then.
    pub fn feed<'p>(&mut self, piece: &'p [u8]) -> Result<&'p [u8], Stop>
        ensures feeds { IfOk result (λ left. LoadsInnermost self.old piece.now left.now self.new) }
        ensures all { IfOk result
            (λ left. (left.now ≡ []) ⊎ IsOver self.new.stack.innermost.status) }
    {
        self.text.clear();
        let left = self.stack.feed(piece, &mut self.text)?;
        self.loader.feed(&self.text)?;
        Ok(left)
    }

    /// Takes the end of the innermost file, and goes on with the file that includes it.
    ///
    /// # Errors
    ///
    /// `Memory`. The loader has failed then.
    pub fn finish(&mut self) -> Result<(), Stop>
        ensures ends { OnOk result (LoadsEnd self.old self.new) }
    {
        self.text.clear();
        self.stack.finish(&mut self.text)?;
        self.loader.feed(&self.text)?;
        Ok(())
    }

    /// Loads the next lines of the `$GENERATE` that was met, as [`IncludeStack::generate`] appends them.
    /// Where it was the last entry of its file, the last call goes on with the file that includes it.
    /// It is called until the status of the stack is another than `Generating`. Where it is another
    /// already, nothing is done.
    ///
    /// # Errors
    ///
    /// `Memory`. The loader has failed then.
    pub fn generate(&mut self) -> Result<(), Stop>
        ensures ends { OnOk result (LoadsEnd self.old self.new) }
    {
        self.text.clear();
        self.stack.generate(&mut self.text)?;
        self.loader.feed(&self.text)?;
        Ok(())
    }

    /// Begins with the file that is wanted, which was opened: it is the innermost one from here on.
    /// `false`: no file is wanted, or 10,000 files were included; then nothing is changed.
    ///
    /// # Errors
    ///
    /// `AllocError`. The loader has failed then.
    pub fn begin_included(&mut self) -> Result<bool, AllocError>
        ensures begun { IfOk result (λ begun. begun ≡ true → (origin : Labels) (first : Holds)
            (fed : FedFiles) → StandsForExpanded self.old origin first fed
            → StandsForExpanded self.new origin first (fed_inner fed)) }
        ensures none { IfOk result (λ begun. begun ≡ false → self.new ≡ self.old) }
    {
        self.stack.begin_included()
    }

    /// The files that are open: how far the expansion has come, the file that is wanted, and where
    /// the lines of the expanded text come from.
    pub fn stack(&self) -> &IncludeStack
        ensures { result.now ≡ self.now.stack }
    {
        &self.stack
    }

    /// The number of octets of the expanded text so far, at most `u64::MAX`. Once it is more than
    /// `TEXT_LIMIT`, the files are refused, whatever follows.
    pub fn expanded(&self) -> u64
        ensures { result ≡ self.now.loader.fed }
    {
        self.loader.fed()
    }

    /// Whether the expanded text so far refuses the files, but for its length, whatever follows it.
    pub fn is_refused(&self) -> bool
        ensures { result ≡ is_some self.now.loader.loader.refusal }
    {
        self.loader.is_refused()
    }

    /// The zone that the files denote, and the places of the lines of the expanded text. Files that
    /// weren't read to their end are refused.
    pub fn load(self) -> (Result<Zone, ExpandedRefusal>, IncludeStack)
        ensures zone { IfOk result.0 (λ z. (directory : Option (List ℕ)) (name : List ℕ)
            (origin : Labels) (fed : FedFiles)
            → StandsForExpanded self origin (at_first directory name origin) fed
            → FilesDenote directory name origin (main_file fed).octets (main_file fed).files z) }
        ensures without { IfOk result.0 (λ z. (lines : List ℕ) (directory : Option (List ℕ))
            (name : List ℕ) (origin : Labels) (fed : FedFiles)
            → StandsForExpanded self origin (first_without lines directory name origin) fed
            → FilesDenoteWithout lines directory name origin (main_file fed).octets
            (main_file fed).files z) }
        ensures short { IfOk result.0 (λ z. length (canon z) ≤ text_limit) }
        ensures accepted { IfOk result.0 (λ z. (origin : Labels) (text : List ℕ)
            → StandsForPresentation origin self.loader text
            → PresentationDenotes origin (judged self.stack text) z) }
        ensures refused { IfErr result.0 (λ refusal. (origin : Labels) (first : Holds)
            (fed : FedFiles) (text : List ℕ) → StandsForFiles self.stack first fed text
            → StandsForPresentation origin self.loader text
            → RefusesFor refusal self.stack origin text) }
        ensures stack { result.1 ≡ self.stack }
    {
        let ExpandedLoader { stack, loader, .. } = self;
        (loaded(&stack, loader), stack)
    }
}

/// The zone that the files denote, of whose expanded text this is the loader.
fn loaded(stack: &IncludeStack, loader: PresentationLoader) -> Result<Zone, ExpandedRefusal>
    ensures zone { IfOk result (λ z. (lines : List ℕ) (directory : Option (List ℕ))
        (name : List ℕ) (origin : Labels) (fed : FedFiles) (text : List ℕ)
        → StandsForFiles stack.now (first_without lines directory name origin) fed text
        → StandsForPresentation origin loader text
        → FilesDenoteWithout lines directory name origin (main_file fed).octets
        (main_file fed).files z) }
    ensures short { IfOk result (λ z. length (canon z) ≤ text_limit) }
    ensures accepted { IfOk result (λ z. (origin : Labels) (text : List ℕ)
        → StandsForPresentation origin loader text
        → PresentationDenotes origin (judged stack.now text) z) }
    ensures refused { IfErr result (λ refusal. (origin : Labels) (text : List ℕ)
        → StandsForPresentation origin loader text
        → RefusesFor refusal stack.now origin text) }
{
    match stack.status() {
        FileStatus::Ended => {
            if stack.outer_files() == 0 {
                whole(loader)
            } else {
                Err(unread(loader, stack.next_line()))
            }
        }
        FileStatus::BrokenOff => whole(loader),
        FileStatus::Faulty(fault) => faulty(loader, fault, stack.next_line()),
        FileStatus::FaultyAt(_) => {
            faulty(loader, ExpansionFault::BadTemplate, stack.next_line())
        }
        FileStatus::Going
        | FileStatus::Including
        | FileStatus::Generating
        | FileStatus::Broken
        | FileStatus::Failed => Err(unread(loader, stack.next_line())),
    }
}

/// What a text denotes.
fn whole(loader: PresentationLoader) -> Result<Zone, ExpandedRefusal>
    ensures zone { IfOk result (DenotesLoaded loader) }
    ensures short { IfOk result (λ z. length (canon z) ≤ text_limit) }
    ensures refused { IfErr result (λ refusal. (origin : Labels) (text : List ℕ)
        → StandsForPresentation origin loader text → RefusesWhole refusal origin text) }
{
    match loader.finish() {
        Ok(zone) => Ok(zone),
        Err(refusal) => Err(ExpandedRefusal::Text(refusal)),
    }
}

/// What a text denotes whose last line stands for this fault, before the line that comes next.
fn faulty(
    loader: PresentationLoader,
    fault: ExpansionFault,
    next_line: u64,
) -> Result<Zone, ExpandedRefusal>
    ensures zone { IfOk result (DenotesLoaded loader) }
    ensures short { IfOk result (λ z. length (canon z) ≤ text_limit) }
    ensures refused { IfErr result (λ refusal. (origin : Labels) (text : List ℕ)
        → StandsForPresentation origin loader text
        → RefusesFaulty refusal fault (next_line - 1) origin text) }
{
    match loader.finish() {
        Ok(zone) => Ok(zone),
        Err(refusal) => {
            if is_on(&refusal, next_line.saturating_sub(1)) {
                Err(ExpandedRefusal::Expansion(fault))
            } else {
                Err(ExpandedRefusal::Text(refusal))
            }
        }
    }
}

/// Why a text is refused that isn't whole, where this line comes next.
fn unread(mut loader: PresentationLoader, next_line: u64) -> ExpandedRefusal
    ensures { (origin : Labels) (text : List ℕ) → StandsForPresentation origin loader text
        → RefusesUnread result next_line origin (text ++ stopped) }
{
    match loader.feed(b"$STOPPED\n") {
        Ok(()) => stopped_at(loader, next_line),
        Err(stop) => ExpandedRefusal::Text(PresentationRefusal::of_stop(stop)),
    }
}

/// Why a text is refused whose last line is this one, by which it denotes no zone.
fn stopped_at(loader: PresentationLoader, line: u64) -> ExpandedRefusal
    ensures { (origin : Labels) (text : List ℕ) → StandsForPresentation origin loader text
        → RefusesUnread result line origin text }
{
    match loader.finish() {
        Ok(_zone) => ExpandedRefusal::Unread,
        Err(refusal) => {
            if is_on(&refusal, line) {
                ExpandedRefusal::Unread
            } else {
                ExpandedRefusal::Text(refusal)
            }
        }
    }
}

/// Whether a refusal is of this line.
fn is_on(refusal: &PresentationRefusal, line: u64) -> bool
    ensures { result ≡ true
        → (fault : Fault) × (refusal.now.stop ≡ Stop.Refused fault (Line line)) }
{
    match &refusal.stop {
        Stop::Refused(_, Place::Line(at)) => *at == line,
        _ => false,
    }
}
