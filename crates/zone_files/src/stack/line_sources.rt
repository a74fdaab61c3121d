//! Where the lines of an expanded text come from.
ghost use Rattle.std.specs.Prelude.{◌≡◌, ◌+◌, drop, IfOk, OnOk};
ghost use Rattle.zone_files.specs.IncludeStack.{feeds_in};
ghost use Rattle.zone_files.specs.Places.{counted};

use crate::expansion::{FileName, FileStatus};
use crate::fault_line::EntryPlace;
use crate::places::{FilePlace, Places};
use std::alloc::{AllocError, Global};
use std::mem;
use zone_generate::NextValue;
use zone_text::line_feeds;

/// A file that is open.
#[derive(Drop)]
struct OpenLines {
    /// Its index in the list of names.
    file: usize,
    /// The lines of it that were taken.
    lines: u64,
    /// The line of the expanded text with its `$ORIGIN`. 0 of the main file.
    origin_line: u64,
}

/// Where the lines of an expanded text come from, as far as it is made.
#[derive(Drop)]
pub(crate) struct LineSources {
    places: Places,
    /// The files in the order in which they were opened, the main file first.
    names: Vec<FileName>,
    innermost: OpenLines,
    /// The files that wait for the innermost one, the main file first.
    outer: Vec<OpenLines>,
}

impl LineSources {
    /// Before the first line of a main file.
    ///
    /// # Errors
    ///
    /// `AllocError`.
    pub(crate) fn new(alloc: Global, name: &str) -> Result<LineSources, AllocError>
        ensures next { IfOk result (λ made. made.places.next ≡ 1) }
    {
        let mut names = Vec::new(alloc);
        names.push(FileName::of(alloc, name)?)?;
        let mut places = Places::new(alloc);
        places.begin(line_of(0, 1), 0)?;
        Ok(LineSources {
            places,
            names,
            innermost: OpenLines {
                file: 0,
                lines: 0,
                origin_line: 0,
            },
            outer: Vec::new(alloc),
        })
    }

    /// These octets of the innermost file were taken, and what `out` has behind this place was made of
    /// them.
    pub(crate) fn take(&mut self, octets: &[u8], out: &[u8], before: usize)
        ensures next { self.new.places.next
            ≡ counted (self.old.places.next + feeds_in (drop before out.now)) }
    {
        let lines = line_feeds(octets) as u64;
        self.innermost.lines = self.innermost.lines.saturating_add(lines);
        self.places
            .advance(line_feeds(text_behind(out, before)) as u64);
    }

    /// The end of the innermost file was taken. An `$INCLUDE` that is met only then is a last line,
    /// which no line feed ends.
    pub(crate) fn take_end(&mut self, out: &[u8], before: usize, was_met: bool, is_met: bool)
        ensures next { self.new.places.next
            ≡ counted (self.old.places.next + feeds_in (drop before out.now)) }
    {
        if is_met && !was_met {
            self.innermost.lines = self.innermost.lines.saturating_add(1);
        }
        self.places
            .advance(line_feeds(text_behind(out, before)) as u64);
    }

    /// The innermost file includes the one of this name, of which nothing was taken.
    ///
    /// # Errors
    ///
    /// `AllocError`. The file may be listed then.
    pub(crate) fn begin_included(&mut self, alloc: Global, name: &str) -> Result<(), AllocError>
        ensures next { OnOk result (self.new.places.next ≡ self.old.places.next) }
    {
        let file = self.names.len();
        self.names.push(FileName::of(alloc, name)?)?;
        self.places.begin(line_of(file, 1), 0)?;
        let inner = OpenLines {
            file,
            lines: 0,
            origin_line: self.last_line(),
        };
        self.outer.push(mem::replace(&mut self.innermost, inner))?;
        Ok(())
    }

    /// The innermost file has ended: the one that includes it goes on, with the line of the
    /// `$INCLUDE` for its `$ORIGIN`.
    ///
    /// # Errors
    ///
    /// `AllocError`.
    pub(crate) fn end_included(&mut self) -> Result<(), AllocError>
        ensures next { OnOk result (self.new.places.next ≡ self.old.places.next) }
    {
        if let Some(outer) = self.outer.pop() {
            self.innermost = outer;
            self.places
                .begin(line_of(self.innermost.file, self.innermost.lines), 0)?;
        }
        Ok(())
    }

    /// The next lines are those of a `$GENERATE`, from this value on: each has the place of the entry.
    ///
    /// # Errors
    ///
    /// `AllocError`.
    pub(crate) fn begin_lines(&mut self, next: Option<NextValue>) -> Result<(), AllocError>
        ensures next { OnOk result (self.new.places.next ≡ self.old.places.next) }
    {
        let place = self.places.place_of(self.places.next_line());
        if let (Some(next), Some(place)) = (next, place) {
            let first = FilePlace {
                value: Some(next.value),
                ..place
            };
            self.places.begin(first, next.step)?;
        }
        Ok(())
    }

    /// Some lines of a `$GENERATE` were made, and this is how far the file is: it goes on with the
    /// line after the entry, unless more lines come first, or one is at fault.
    ///
    /// # Errors
    ///
    /// `AllocError`.
    pub(crate) fn end_lines(&mut self, status: FileStatus) -> Result<(), AllocError>
        ensures next { OnOk result (self.new.places.next ≡ self.old.places.next) }
    {
        if let FileStatus::Going = status {
            let line = self.innermost.lines.saturating_add(1);
            self.places.begin(line_of(self.innermost.file, line), 0)?;
        }
        Ok(())
    }

    /// The line of the expanded text that comes next, from 1.
    pub(crate) fn next_line(&self) -> u64
        ensures { result ≡ self.now.places.next }
    {
        self.places.next_line()
    }

    /// The line of the expanded text with the `$ORIGIN` of the innermost file, or 0.
    pub(crate) fn origin_line(&self) -> u64 {
        self.innermost.origin_line
    }

    /// The last line of the expanded text so far, or 0.
    pub(crate) fn last_line(&self) -> u64 {
        self.places.next_line().saturating_sub(1)
    }

    /// Where a line of the expanded text comes from.
    pub(crate) fn place_of(&self, line: u64) -> Option<EntryPlace<'_>> {
        let place = self.places.place_of(line)?;
        let name = self.names.get(place.file)?;
        Some(EntryPlace {
            name: name.as_str(),
            line: place.line,
            value: place.value,
        })
    }
}

/// What a text has behind a place.
fn text_behind(text: &[u8], before: usize) -> &[u8]
    ensures { result.now ≡ drop before text.now }
{
    if before >= text.len() {
        return &[];
    }
    &text[before..]
}

/// A line of a file.
fn line_of(file: usize, line: u64) -> FilePlace {
    FilePlace {
        file,
        line,
        value: None,
    }
}
