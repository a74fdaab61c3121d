//! Where the lines of an expanded text come from.
ghost use Rattle.std.specs.Prelude.{◌≡◌, ◌≤◌, ◌<◌, ◌+◌, ◌++◌, ◌∷◌, [], length, IfSome, IsNone, OnErr, OnOk};
ghost use Rattle.std.specs.List.{All, AllWithin};
ghost use Rattle.std.specs.List.Sorted.{IsNonDecreasingBy};
ghost use Rattle.zone_name.specs.Common.{NothingIs};
ghost use Rattle.zone_files.specs.Places.{counted, place_in, place_after, line_after, IsStretchOf};

use std::alloc::{AllocError, Global};

/// A line of a file, or a value of the `$GENERATE` that begins there.
#[derive(Clone, Copy, Debug, PartialEq, Eq)]
pub struct FilePlace {
    /// The file, by its index in a list of names.
    pub file: usize,
    /// The line in the file, from 1.
    pub line: u64,
    /// The value, where the entry is a `$GENERATE`.
    pub value: Option<u64>,
}

/// A stretch of lines of the expanded text that come from one file in order, or from one
/// `$GENERATE`.
#[derive(Clone, Copy, Debug, PartialEq, Eq)]
pub struct Stretch {
    /// The line of the expanded text with which it begins, from 1.
    pub first: u64,
    /// Where that line comes from.
    pub place: FilePlace,
    /// By how much the value grows from line to line of a `$GENERATE`. It means nothing elsewhere.
    pub step: u64,
}

/// The stretches of an expanded text as far as it is made, in order.
#[derive(Drop)]
pub struct Places {
    stretches: Vec<Stretch>,
    /// The line of the expanded text that comes next, from 1.
    next: u64,
    ghost ascending: { IsNonDecreasingBy (λ s. s.first) stretches.items },
    ghost begun: { All (λ s. s.first ≤ next) stretches.items },
}

impl Places {
    /// No stretch, before the first line of the text.
    pub fn new(alloc: Global) -> Places
        ensures none { result.stretches.items ≡ [] }
        ensures first { result.next ≡ 1 }
    {
        Places {
            stretches: Vec::new(alloc),
            next: 1,
        }
    }

    /// The line of the expanded text that comes next, from 1.
    pub fn next_line(&self) -> u64
        ensures { result ≡ self.now.next }
    {
        self.next
    }

    /// A stretch begins with the line that comes next, from this place on.
    ///
    /// # Errors
    ///
    /// Want of memory, and nothing is changed.
    pub fn begin(&mut self, place: FilePlace, step: u64) -> Result<(), AllocError>
        ensures begun { OnOk result (self.new.stretches.items ≡ self.old.stretches.items
            ++ record { first = self.old.next; place = place; step = step } ∷ []) }
        ensures left { OnErr result (self.new.stretches.items ≡ self.old.stretches.items) }
        ensures next { self.new.next ≡ self.old.next }
    {
        self.stretches.push(Stretch {
            first: self.next,
            place,
            step,
        })?;
        Ok(())
    }

    /// So many lines of the expanded text are made, all of the last stretch. No more than 2^64 - 1
    /// are counted.
    pub fn advance(&mut self, lines: u64)
        ensures stretches { self.new.stretches.items ≡ self.old.stretches.items }
        ensures next { self.new.next ≡ counted (self.old.next + lines) }
    {
        self.next = self.next.saturating_add(lines);
    }

    /// Where a line of the expanded text comes from. `None`: no stretch begins at or before it.
    pub fn place_of(&self, line: u64) -> Option<FilePlace>
        ensures some { IfSome result (λ place. (s : Stretch)
            × IsStretchOf self.now.stretches.items line s × (place ≡ place_in s line)) }
        ensures none { IsNone result → NothingIs (IsStretchOf self.now.stretches.items line) }
    {
        let begun = self.begun(line);
        if begun == 0 {
            return None;
        }
        Some(self.stretches[begun - 1].place_of(line))
    }

    /// How many stretches begin at or before a line, all of them before the others.
    fn begun(&self, line: u64) -> usize
        ensures bound { result ≤ length self.now.stretches.items }
        ensures begun { AllWithin (λ s. s.first ≤ line) self.now.stretches.items 0 result }
        ensures later { AllWithin (λ s. line < s.first) self.now.stretches.items result
            (length self.now.stretches.items) }
    {
        self.stretches.partition_point(|s| s.first <= line)
    }
}

impl Stretch {
    /// The place of a line of the expanded text that is in this stretch.
    fn place_of(&self, line: u64) -> FilePlace
        requires { self.now.first ≤ line }
        ensures { result ≡ place_in self.now line }
    {
        let lines = line - self.first;
        match self.place.value {
            None => FilePlace {
                line: self.place.line.saturating_add(lines),
                ..self.place
            },
            Some(value) => FilePlace {
                value: Some(value.saturating_add(lines.saturating_mul(self.step))),
                ..self.place
            },
        }
    }
}
