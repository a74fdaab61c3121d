//! The lines of a `$GENERATE` entry, made one by one as they are asked for.
ghost use Rattle.std.specs.Prelude.{◌≡◌, ◌<◌, ◌^◌, ℕ, suc, List, [], ◌∷◌, length, map, option_map, IfErr, IfNone, IfOk, IfSome, Ok, Err, OnErr, OnOk};
ghost use Rattle.zone_rdata.specs.Item.{raw};
ghost use Rattle.zone_generate.specs.Entry.{generation_in, generation_of};
ghost use Rattle.zone_generate.specs.Lines as lines;
ghost use Rattle.zone_generate.specs.Lines.{IsLineFor, SaysNothing, last_owner};
ghost use Rattle.zone_generate.specs.Machine.{templates_of};
ghost use Rattle.zone_generate.specs.Range.{range_in, values_from, values_of};
ghost use Rattle.zone_generate.specs.Values.{AreSmall};
ghost use Rattle.zone_generate.specs.Steps.{AreWithin, IsAtFault, StopsFor, TakesLines, TakesValue};
ghost use Rattle.zone_generate.specs.declared.generated.LinesState.TheVariants.{More};
ghost use Rattle.zone_generate.specs.Written.{IfBadTemplate, IfGenerateFault};

use crate::entry::{joined, parts_of, template_in};
use crate::failing::{GenerateFailing, GenerateFault, LineFailing, TemplateFailing};
use crate::lines::{Templates, push_line};
use crate::one_line::is_one_line;
use crate::range::{Range, RangeFault, range_in};
use crate::template::expand;
use std::alloc::{AllocError, Global};
use std::marker::Model;
use zone_rdata::Item;

/// Why no more lines were appended.
#[derive(Clone, Copy, Debug, PartialEq, Eq)]
pub enum LinesState {
    /// So many octets were appended. More lines may come.
    More,
    /// There are no more values.
    AtEnd,
    /// The templates say nothing for this value, or what they say is no line of one entry.
    BadTemplate(u64),
}

/// The next value of a `$GENERATE`.
#[derive(Clone, Copy, Debug, PartialEq, Eq)]
pub struct NextValue {
    /// The value.
    pub value: u64,
    /// By how much each value is more than the one before it.
    pub step: u64,
}

/// The templates of a `$GENERATE` entry, and the values for which lines are still to come. Contracts
/// see both. It keeps one line at a time, however many values there are.
#[derive(Drop)]
pub struct Generated {
    alloc: Global,
    owner: Vec<u8>,
    middle: Vec<u8>,
    rdata: Vec<u8>,
    /// The values for which lines are still to come.
    left: Range,
    /// Room for a line.
    line: Vec<u8>,
}

impl Model for Generated {
    ghost use Rattle.zone_generate.specs.Entry.{Generation};
    ghost use Rattle.zone_generate.specs.Range.{values_of};
    ghost use Rattle.zone_generate.specs.Values.{AreSmall};

    ghost Value = { Generation };

    ghost view = { λ g. record {
      templates = record { owner = g.owner.items; middle = g.middle.items; rdata = g.rdata.items };
      values = values_of g.left;
    } };

    ghost invariant = { λ g. AreSmall g.left };
}

/// The values after the first.
fn after_first(range: Range) -> Range
    requires some { 0 < range.count }
    requires small { AreSmall range }
    ensures small { AreSmall result }
    ensures values { values_of range ≡ range.start ∷ values_of result }
{
    Range {
        start: range.start + range.step,
        count: range.count - 1,
        step: range.step,
    }
}

/// Puts the line for a value in place of what `line` held.
fn make_line(
    alloc: Global,
    templates: Templates<'_>,
    value: u64,
    line: &mut Vec<u8>,
) -> Result<(), LineFailing>
    requires { value < 2 ^ 31 }
    ensures line { OnOk result (IsLineFor (templates_of templates.entry) value line.new.items) }
    ensures fault { IfErr result (IfBadTemplate
        (λ at. (at ≡ value) × SaysNothing (templates_of templates.entry) value)) }
{
    line.clear();
    match push_line(alloc, templates, value, line) {
        Ok(()) => {}
        Err(TemplateFailing::SaysNothing) => return Err(LineFailing::BadTemplate(value)),
        Err(TemplateFailing::OutOfMemory) => return Err(LineFailing::OutOfMemory),
    }
    if is_one_line(alloc, line)? {
        Ok(())
    } else {
        Err(LineFailing::BadTemplate(value))
    }
}

/// The range that a text is, or the fault of its entry.
fn range_of(text: &[u8]) -> Result<Range, GenerateFault>
    ensures range { IfOk result (λ range. range_in text.now ≡ Ok range) }
    ensures small { IfOk result AreSmall }
    ensures fault { IfErr result (λ fault. (t : lines.Templates) → generation_of t (range_in text.now) ≡ Err fault) }
{
    match range_in(text) {
        Ok(range) => Ok(range),
        Err(RangeFault::BadRange) => Err(GenerateFault::BadRange),
        Err(RangeFault::TooManyValues) => Err(GenerateFault::TooManyValues),
    }
}

impl Generated {
    /// What an entry stands for, by its items after the word `$GENERATE`: a range, an owner, perhaps
    /// a TTL and a class in either order (RFC 1035 5.1), a type, and one item of data. All are bare
    /// but the data, which may be quoted. No line is made yet.
    ///
    /// # Errors
    ///
    /// The first of `BadGenerate`, `BadRange` and `TooManyValues`; `OutOfMemory`.
    pub fn of_items(alloc: Global, items: &[Item<'_>]) -> Result<Generated, GenerateFailing>
        ensures stated { IfOk result (λ generated.
            generation_in (map raw items.now) ≡ Ok generated) }
        ensures fault { IfErr result (IfGenerateFault (λ fault.
            generation_in (map raw items.now) ≡ Err fault)) }
    {
        let Some(parts) = parts_of(items) else {
            return Err(GenerateFailing::Fault(GenerateFault::BadGenerate));
        };
        let left = match range_of(parts.range) {
            Ok(range) => range,
            Err(fault) => return Err(GenerateFailing::Fault(fault)),
        };
        let mut owner = Vec::new(alloc);
        owner.extend_from_slice(parts.owner)?;
        Ok(Generated {
            alloc,
            owner,
            middle: joined(alloc, parts.words, parts.kind)?,
            rdata: template_in(alloc, parts.rdata)?,
            left,
            line: Vec::new(alloc),
        })
    }

    /// Appends the line for the next value, and returns the value. `None`: there are no more values.
    /// It looks at each octet of the templates once, and at each octet of the line.
    ///
    /// # Errors
    ///
    /// `BadTemplate` with the next value, for which there is no line; `OutOfMemory`. Then `self` and
    /// `out` are unchanged.
    pub fn next_line(&mut self, out: &mut Vec<u8>) -> Result<Option<u64>, LineFailing>
        ensures line { IfOk result (λ found. IfSome found (λ value.
            TakesValue self.old value self.new out.old.items out.new.items)) }
        ensures none { IfOk result (λ found. IfNone found ((self.old.values ≡ [])
            × (self.new ≡ self.old) × (out.new.items ≡ out.old.items))) }
        ensures fault { IfErr result (IfBadTemplate (IsAtFault self.old)) }
        ensures unchanged { OnErr result ((self.new ≡ self.old)
            × (out.new.items ≡ out.old.items)) }
    {
        if self.left.count == 0 {
            return Ok(None);
        }
        let value = self.left.start;
        let templates = Templates {
            owner: &self.owner,
            middle: &self.middle,
            rdata: &self.rdata,
        };
        if let Err(failing) = make_line(self.alloc, templates, value, &mut self.line) {
            return Err(failing);
        }
        out.extend_from_slice(&self.line)?;
        self.left = after_first(self.left);
        Ok(Some(value))
    }

    /// Appends the lines for the next values, up to the first line with which `most` octets or more
    /// are appended: no more than `most` and one line.
    ///
    /// # Errors
    ///
    /// `AllocError`. `out` may have got some of the lines, for the values that aren't left.
    pub fn next_lines(&mut self, most: usize, out: &mut Vec<u8>) -> Result<LinesState, AllocError>
        requires some { 0 < most }
        ensures taken { TakesLines self.old self.new out.old.items out.new.items }
        ensures within { AreWithin most self.old.templates out.old.items out.new.items }
        ensures fewer { IfOk result (λ state. state ≡ More
            → length self.new.values < length self.old.values) }
        ensures state { IfOk result (λ state. StopsFor state self.new) }
    {
        let begun = out.len();
        'lines: while out.len() - begun < most {
            match self.next_line(out) {
                Ok(Some(_)) => {}
                Ok(None) => return Ok(LinesState::AtEnd),
                Err(LineFailing::BadTemplate(value)) => return Ok(LinesState::BadTemplate(value)),
                Err(LineFailing::OutOfMemory) => return Err(AllocError),
            }
        }
        Ok(LinesState::More)
    }

    /// The next value, and the step from each value to the one after it. `None`: there are no more
    /// values.
    pub fn next_value(&self) -> Option<NextValue>
        ensures some { IfSome result (λ next.
            (count : ℕ) × (self.now.values ≡ values_from (suc count) next.step next.value)) }
        ensures none { IfNone result (self.now.values ≡ []) }
    {
        if self.left.count == 0 {
            return None;
        }
        Some(NextValue {
            value: self.left.start,
            step: self.left.step,
        })
    }

    /// For how many values lines are still to come.
    pub fn values_left(&self) -> u64
        ensures { result ≡ length self.now.values }
    {
        self.left.count
    }

    /// The owner of the last line, as its template says it for the last value. `None`: it says nothing
    /// for it, or there are no more values.
    ///
    /// # Errors
    ///
    /// `AllocError`.
    pub fn last_owner(&self) -> Result<Option<Vec<u8>>, AllocError>
        ensures { IfOk result (λ owner. option_map (λ text. text.items) owner
            ≡ last_owner self.now.templates self.now.values) }
    {
        if self.left.count == 0 {
            return Ok(None);
        }
        let last = self.left.start + (self.left.count - 1) * self.left.step;
        let mut owner = Vec::new(self.alloc);
        match expand(self.alloc, last, &self.owner, &mut owner) {
            Ok(()) => Ok(Some(owner)),
            Err(TemplateFailing::SaysNothing) => Ok(None),
            Err(TemplateFailing::OutOfMemory) => Err(AllocError),
        }
    }
}
