//! The lines that a `$GENERATE` stands for. The directive is BIND's.
ghost use Rattle.std.specs.Prelude.{◌≡◌, Option, length, map, drop, IfOk, OnOk};
ghost use Rattle.zone_name.specs.Common.{Labels};
ghost use Rattle.zone_rdata.specs.Item.{raw};
ghost use Rattle.zone_words.specs.Inherited.{IsOneOrNone};
ghost use Rattle.zone_generate.specs.Lines.{last_owner};
ghost use Rattle.zone_files.specs.Expansion.{SpellsLast, after_lines, generate_fault, lines_if, says_generate, values_or_one};
ghost use Rattle.zone_generate.specs.Entry.{generation_in};
ghost use Rattle.zone_files.specs.Machine.Stepping.{GeneratesAs};

use crate::expansion::holding::Holding;
use crate::expansion::including::after_first;
use crate::expansion::owners::spelled;
use crate::expansion::step::Step;
use crate::fault::ExpansionFault;
use std::alloc::{AllocError, Global};
use zone_generate::{GenerateFailing, GenerateFault, Generated};
use zone_name::CasedName;
use zone_rdata::{Item, is_word};
use zone_text::split_bare;

/// Whether the first of the items is the word `$GENERATE`, in any letter case.
pub(crate) fn says_generate(items: &[Item]) -> bool
    ensures { result ≡ says_generate (map raw items.now) }
{
    match split_bare(items) {
        Some((word, _)) => is_word(word, b"$generate"),
        None => false,
    }
}

/// The fault of a `$GENERATE` that has no lines.
fn fault_of(fault: GenerateFault) -> ExpansionFault
    ensures { result ≡ generate_fault fault }
{
    match fault {
        GenerateFault::BadGenerate => ExpansionFault::BadGenerate,
        GenerateFault::BadRange => ExpansionFault::BadRange,
        GenerateFault::TooManyValues => ExpansionFault::TooManyValues,
    }
}

/// The name that the owner of the last line spells under an origin.
///
/// # Errors
///
/// `AllocError`.
fn last_stated(lines: &Generated, origin: &CasedName) -> Result<Option<CasedName>, AllocError>
    ensures { IfOk result (IsOneOrNone (SpellsLast origin.now
        (last_owner lines.now.templates lines.now.values))) }
{
    match lines.last_owner()? {
        Some(owner) => Ok(spelled(&owner, origin)),
        None => Ok(None),
    }
}

/// How many lines the items after the word `$GENERATE` stand for: one for each value, and one where
/// they have a fault.
fn values_or_one(alloc: Global, items: &[Item]) -> Result<u64, AllocError>
    ensures { IfOk result (λ lines. lines ≡ values_or_one (generation_in (map raw items.now))) }
{
    match Generated::of_items(alloc, items) {
        Ok(lines) => Ok(lines.values_left()),
        Err(GenerateFailing::Fault(_)) => Ok(1),
        Err(GenerateFailing::OutOfMemory) => Err(AllocError),
    }
}

/// How many lines a directive of another word than RFC 1035's stands for.
///
/// # Errors
///
/// `AllocError`.
pub(crate) fn lines_of_directive(alloc: Global, items: &[Item]) -> Result<u64, AllocError>
    ensures { IfOk result (λ lines. lines
        ≡ lines_if (says_generate (map raw items.now)) (map raw items.now)) }
{
    if says_generate(items) {
        values_or_one(alloc, after_first(items))
    } else {
        Ok(1)
    }
}

impl Holding {
    /// Takes what the lines of a `$GENERATE` leave: their number, and the owner of the last one.
    ///
    /// # Errors
    ///
    /// `AllocError`.
    fn state_last(&mut self, lines: &Generated) -> Result<(), AllocError>
        ensures { OnOk result ((named : Option Labels)
            × IsOneOrNone (SpellsLast self.old.origin
            (last_owner lines.now.templates lines.now.values)) named
            × (self.new ≡ after_lines named (length lines.now.values) self.old)) }
    {
        self.go_past(lines.values_left());
        if let Some(name) = last_stated(lines, &self.origin)? {
            self.stated = Some(name);
        }
        Ok(())
    }

    /// What becomes of a `$GENERATE`, of whose entry these are the items. No line is made yet.
    ///
    /// # Errors
    ///
    /// `AllocError`.
    pub(crate) fn generate(&mut self, alloc: Global, items: &[Item]) -> Result<Step, AllocError>
        ensures { IfOk result
            (λ step. GeneratesAs self.old (drop 1 (map raw items.now)) step self.new) }
    {
        match Generated::of_items(alloc, after_first(items)) {
            Ok(lines) => {
                self.state_last(&lines)?;
                Ok(Step::Generates(lines))
            }
            Err(GenerateFailing::Fault(fault)) => Ok(Step::Fails(fault_of(fault))),
            Err(GenerateFailing::OutOfMemory) => Err(AllocError),
        }
    }
}
