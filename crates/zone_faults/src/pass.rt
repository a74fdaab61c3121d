//! Files that are loaded without the entries at fault.
ghost use Rattle.std.specs.Prelude.{◌≡◌, IfOk, OnOk};
ghost use Rattle.zone_faults.specs.Checking.{LoadsOn};

use crate::kept_files::KeptFiles;
use std::alloc::Global;
use zone_engine::PIECE;
use zone_files::{ExpandedLoader, FileStatus, IncludedFiles};
use zone_print::TEXT_LIMIT;
use zone_rdata::Stop;

/// A file that is open, and how many of its octets were taken.
#[derive(Clone, Copy, Debug)]
struct OpenFile {
    index: usize,
    taken: usize,
}

/// A main file and those that it includes, which are loaded from memory.
#[derive(Drop)]
pub(crate) struct Pass {
    pub(crate) loader: ExpandedLoader,
    innermost: OpenFile,
    /// The files that wait for the innermost one, the main file first.
    outer: Vec<OpenFile>,
}

impl Pass {
    /// The main file, of which nothing was loaded.
    pub(crate) fn new(alloc: Global, loader: ExpandedLoader) -> Pass
        ensures { result.loader ≡ loader }
    {
        Pass {
            loader,
            innermost: OpenFile { index: 0, taken: 0 },
            outer: Vec::new(alloc),
        }
    }

    /// Loads the files until their text has ended, is refused or too long, or a file can't be opened or
    /// read.
    ///
    /// # Errors
    ///
    /// `Memory`.
    pub(crate) fn run<S: IncludedFiles>(&mut self, files: &mut KeptFiles<'_, S>) -> Result<(), Stop>
        ensures { OnOk result (LoadsOn self.old.loader self.new.loader) }
    {
        'steps: for _ in 0..u64::MAX {
            if !self.step(files)? {
                return Ok(());
            }
        }
        Ok(())
    }

    /// Goes on with the files. `false`: nothing was done.
    fn step<S: IncludedFiles>(&mut self, files: &mut KeptFiles<'_, S>) -> Result<bool, Stop>
        ensures { OnOk result (LoadsOn self.old.loader self.new.loader) }
    {
        if self.loader.is_refused() || self.loader.expanded() > TEXT_LIMIT {
            return Ok(false);
        }
        match self.loader.stack().status() {
            FileStatus::Going | FileStatus::Broken => self.feed(files.octets(self.innermost.index)),
            FileStatus::Including => self.open(files),
            FileStatus::Generating => { self.generate() }
            FileStatus::Ended
            | FileStatus::BrokenOff
            | FileStatus::Faulty(_)
            | FileStatus::FaultyAt(_)
            | FileStatus::Failed => Ok(false),
        }
    }

    /// Loads the next piece of the innermost file, which has these octets, or takes its end.
    fn feed(&mut self, octets: &[u8]) -> Result<bool, Stop>
        ensures { OnOk result (LoadsOn self.old.loader self.new.loader) }
    {
        if self.innermost.taken >= octets.len() {
            return self.finish();
        }
        let rest = &octets[self.innermost.taken..];
        let (piece, _) = rest.split_at(rest.len().min(PIECE));
        let left = self.loader.feed(piece)?;
        let taken = piece.len().saturating_sub(left.len());
        self.innermost.taken = self.innermost.taken.saturating_add(taken);
        Ok(true)
    }

    /// Takes the end of the innermost file.
    fn finish(&mut self) -> Result<bool, Stop>
        ensures { OnOk result (LoadsOn self.old.loader self.new.loader) }
    {
        self.loader.finish()?;
        self.close_ended();
        Ok(true)
    }

    /// Loads the next lines of a `$GENERATE`.
    fn generate(&mut self) -> Result<bool, Stop>
        ensures { OnOk result (LoadsOn self.old.loader self.new.loader) }
    {
        self.loader.generate()?;
        self.close_ended();
        Ok(true)
    }

    /// Opens the file that is wanted. `false`: it can't be opened.
    fn open<S: IncludedFiles>(&mut self, files: &mut KeptFiles<'_, S>) -> Result<bool, Stop>
        ensures { OnOk result (LoadsOn self.old.loader self.new.loader) }
    {
        let Some(name) = self.loader.stack().wanted() else {
            return Ok(false);
        };
        let Some(index) = files.open(name)? else {
            return Ok(false);
        };
        self.begin(index)
    }

    /// Begins with the file that is wanted, which is the one at this index. `false`: it isn't taken.
    fn begin(&mut self, index: usize) -> Result<bool, Stop>
        ensures { OnOk result (LoadsOn self.old.loader self.new.loader) }
    {
        if !self.loader.begin_included()? {
            return Ok(false);
        }
        let Ok(()) = self.outer.push(self.innermost) else {
            return Err(Stop::Memory);
        };
        self.innermost = OpenFile { index, taken: 0 };
        Ok(true)
    }

    /// Goes back to the file that waits for those that have ended.
    fn close_ended(&mut self)
        ensures { self.new.loader ≡ self.old.loader }
    {
        'ended: for _ in 0..self.outer.len() {
            if self.outer.len() > self.loader.stack().outer_files() {
                if let Some(outer) = self.outer.pop() {
                    self.innermost = outer;
                }
            }
        }
    }
}
