//! What becomes of an entry of a file.
ghost use Rattle.std.specs.Prelude.{◌≡◌, ◌++◌, map, replicate, IfOk};
ghost use Rattle.zone_rdata.specs.Item.{raw};
ghost use Rattle.zone_text.specs.Stated.{statement_in};
ghost use Rattle.zone_files.specs.Expansion.{is_next, line_feeds, lines_of};
ghost use Rattle.zone_files.specs.Machine.Stepping.{Judges, TakesEntry, TakesOut, UnknownAs, Unowned};
ghost use Rattle.zone_files.specs.declared.expansion.step.Step.TheVariants as steps;

use crate::expansion::generating::{lines_of_directive, says_generate};
use crate::expansion::holding::Holding;
use crate::expansion::names::push_name;
use crate::expansion::opened_name::FileName;
use crate::expansion::owners::{are_same, stated_owner};
use crate::fault::ExpansionFault;
use std::alloc::{AllocError, Global};
use zone_generate::Generated;
use zone_name::CasedName;
use zone_rdata::Item;
use zone_text::{Directive, Statement, line_feeds, statement_of};

/// What becomes of an entry.
#[derive(Drop)]
pub(crate) enum Step {
    /// Its text is written, and what it leaves is held.
    Written,
    /// The file of this name takes its place, under this origin.
    Opens(FileName, CasedName),
    /// These lines take its place, which are still to come.
    Generates(Generated),
    /// Nothing takes its place, and nothing follows.
    Fails(ExpansionFault),
}

/// Writes an entry as it is.
fn keep(entry: &[u8], out: &mut Vec<u8>) -> Result<Step, AllocError>
    ensures { IfOk result (λ step. (step ≡ steps.Written)
        × (out.new.items ≡ out.old.items ++ entry.now)) }
{
    out.extend_from_slice(entry)?;
    Ok(Step::Written)
}

/// Writes the line feeds of an entry.
fn keep_line_feeds(alloc: Global, entry: &[u8], out: &mut Vec<u8>) -> Result<Step, AllocError>
    ensures { IfOk result (λ step. (step ≡ steps.Written)
        × (out.new.items ≡ out.old.items ++ replicate (line_feeds entry.now) 10)) }
{
    let feeds = vec![in alloc; b'\n'; line_feeds(entry)]?;
    out.extend_from_slice(&feeds)?;
    Ok(Step::Written)
}

/// In how many lines of the expanded text a fault of an entry may be.
fn lines_of(alloc: Global, statement: Statement, items: &[Item]) -> Result<u64, AllocError>
    ensures { IfOk result (λ lines. lines
        ≡ lines_of (statement_in statement.entry) (map raw items.now)) }
{
    match statement {
        Statement::Directive(Directive::Unknown) => lines_of_directive(alloc, items),
        Statement::Blank
        | Statement::Directive(Directive::Origin(_) | Directive::Ttl(_) | Directive::Include)
        | Statement::Owned(_, _)
        | Statement::Unowned(_) => Ok(1),
    }
}

impl Holding {
    /// Writes a record that omits its owner, with the owner that holds in its file before it where
    /// the expanded text states another one last.
    fn take_unowned(&mut self, entry: &[u8], out: &mut Vec<u8>) -> Result<Step, AllocError>
        ensures { IfOk result
            (λ step. Unowned self.old entry.now step self.new out.old.items out.new.items) }
    {
        if are_same(&self.owner, &self.stated) {
            self.pass(entry);
            return keep(entry, out);
        }
        let owner = match &self.owner {
            Some(owner) => owner.copy(),
            None => return Ok(Step::Fails(ExpansionFault::NoOwner)),
        };
        push_name(&owner, out)?;
        self.state(owner);
        self.pass(entry);
        keep(entry, out)
    }

    /// Takes a directive of another word: writes it as it is, or has the lines of a `$GENERATE`.
    fn take_unknown(
        &mut self,
        alloc: Global,
        entry: &[u8],
        items: &[Item],
        out: &mut Vec<u8>,
    ) -> Result<Step, AllocError>
        ensures { IfOk result (λ step. UnknownAs self.old entry.now (map raw items.now) step
            self.new out.old.items out.new.items) }
    {
        if says_generate(items) {
            self.generate(alloc, items)
        } else {
            self.pass(entry);
            keep(entry, out)
        }
    }

    /// Writes what takes the place of an entry that says this, and takes what it leaves.
    fn judge(
        &mut self,
        alloc: Global,
        entry: &[u8],
        items: &[Item],
        statement: Statement,
        out: &mut Vec<u8>,
    ) -> Result<Step, AllocError>
        ensures { IfOk result (λ step. Judges self.old entry.now (map raw items.now)
            (statement_in statement.entry) step self.new out.old.items out.new.items) }
    {
        match statement {
            Statement::Blank | Statement::Directive(Directive::Ttl(_)) => {
                self.pass(entry);
                keep(entry, out)
            }
            Statement::Directive(Directive::Origin(names)) => {
                self.pass(entry);
                self.set_origin(names);
                keep(entry, out)
            }
            Statement::Directive(Directive::Include) => self.include(alloc, items),
            Statement::Directive(Directive::Unknown) => {
                self.take_unknown(alloc, entry, items, out)
            }
            Statement::Owned(owner, _) => {
                self.pass(entry);
                self.state_owner(owner);
                keep(entry, out)
            }
            Statement::Unowned(_) => self.take_unowned(entry, out),
        }
    }

    /// Whether an entry that says this is to be taken out.
    fn is_taken_out(
        &self,
        alloc: Global,
        items: &[Item],
        statement: Statement,
    ) -> Result<bool, AllocError>
        ensures { IfOk result (λ is. is ≡ is_next self.now.taken_out self.now.line
            (lines_of (statement_in statement.entry) (map raw items.now))) }
    {
        if self.taken_out.is_empty() {
            return Ok(false);
        }
        let lines = lines_of(alloc, statement, items)?;
        Ok(self.is_next(lines))
    }

    /// Writes the line feeds of an entry that says this, and takes the owner that it states.
    fn take_out(
        &mut self,
        alloc: Global,
        entry: &[u8],
        statement: Statement,
        out: &mut Vec<u8>,
    ) -> Result<Step, AllocError>
        ensures { IfOk result (λ step. TakesOut self.old entry.now (statement_in statement.entry) step
            self.new out.old.items out.new.items) }
    {
        let named = stated_owner(statement, &self.origin);
        self.leave_out(named, entry);
        keep_line_feeds(alloc, entry, out)
    }

    /// Writes what takes the place of an entry, of which these items are kept, and takes what it
    /// leaves.
    ///
    /// # Errors
    ///
    /// `AllocError`. `out` may have got some of it.
    pub(crate) fn take_entry(
        &mut self,
        alloc: Global,
        entry: &[u8],
        items: &[Item],
        out: &mut Vec<u8>,
    ) -> Result<Step, AllocError>
        ensures { IfOk result (λ step. TakesEntry self.old entry.now (map raw items.now) step
            self.new out.old.items out.new.items) }
    {
        let statement = statement_of(entry, items);
        if self.is_taken_out(alloc, items, statement)? {
            self.take_out(alloc, entry, statement, out)
        } else {
            self.judge(alloc, entry, items, statement, out)
        }
    }
}
