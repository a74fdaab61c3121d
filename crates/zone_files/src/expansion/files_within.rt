//! What holds at the beginning of a file.
ghost use Rattle.std.specs.Prelude.{◌≡◌, ◌≤◌, IfNone, IfOk, IfSome, OnOk, option_map};
ghost use Rattle.zone_files.specs.Expansion.{back_in, first_without, within};

use crate::expansion::holding::Holding;
use crate::expansion::including::MOST_OPENED;
use crate::expansion::opened_name::FileName;
use std::alloc::{AllocError, Global};
use zone_name::CasedName;

/// A copy of a name, if there is one.
fn copied(name: &Option<CasedName>) -> Option<CasedName>
    ensures { result ≡ name.now }
{
    match name {
        Some(name) => Some(name.copy()),
        None => None,
    }
}

/// A directory, if one is given.
fn directory_of(alloc: Global, directory: Option<&str>) -> Result<Option<FileName>, AllocError>
    ensures { IfOk result (λ made. made ≡ option_map (λ folder. folder.now) directory.entry) }
{
    match directory {
        Some(folder) => Ok(Some(FileName::of(alloc, folder)?)),
        None => Ok(None),
    }
}

/// A copy of a directory, if one is given.
fn copied_directory(
    alloc: Global,
    directory: &Option<FileName>,
) -> Result<Option<FileName>, AllocError>
    ensures { IfOk result (λ made. made ≡ directory.now) }
{
    match directory {
        Some(folder) => Ok(Some(FileName::of(alloc, folder.as_str())?)),
        None => Ok(None),
    }
}

/// Copies of names.
fn copied_names(alloc: Global, names: &[FileName]) -> Result<Vec<FileName>, AllocError>
    ensures { IfOk result (λ made. made.items ≡ names.now) }
{
    let mut made = Vec::new(alloc);
    'names: for name in names {
        made.push(FileName::of(alloc, name.as_str())?)?;
    }
    Ok(made)
}

/// A copy of line numbers.
fn copied_lines(alloc: Global, lines: &[u64]) -> Result<Vec<u64>, AllocError>
    ensures { IfOk result (λ made. made.items ≡ lines.now) }
{
    let mut made = Vec::new(alloc);
    made.extend_from_slice(lines)?;
    Ok(made)
}

impl Holding {
    /// What holds for the first entry of the main file, of which the entries of these lines of the
    /// expanded text are taken out.
    pub(crate) fn first_without(
        alloc: Global,
        lines: &[u64],
        directory: Option<&str>,
        name: &str,
        origin: &CasedName,
    ) -> Result<Holding, AllocError>
        ensures { IfOk result (λ made. made ≡ first_without lines.now
            (option_map (λ folder. folder.now) directory.entry) name.now origin.now) }
    {
        let directory = directory_of(alloc, directory)?;
        let mut open = Vec::new(alloc);
        open.push(FileName::of(alloc, name)?)?;
        Ok(Holding {
            origin: origin.copy(),
            owner: None,
            stated: None,
            directory,
            open,
            opened: 0,
            line: 1,
            taken_out: copied_lines(alloc, lines)?,
        })
    }

    /// What holds for the first entry of a file that is included. `None`: as many files were included
    /// as may be.
    ///
    /// # Errors
    ///
    /// `AllocError`.
    pub(crate) fn within(
        &self,
        alloc: Global,
        name: &FileName,
        origin: &CasedName,
    ) -> Result<Option<Holding>, AllocError>
        ensures some { IfOk result (λ made. IfSome made
            (λ inner. inner ≡ within name.now origin.now self.now)) }
        ensures none { IfOk result (λ made. IfNone made (MOST_OPENED ≤ self.now.opened)) }
    {
        if self.opened >= MOST_OPENED {
            return Ok(None);
        }
        let directory = copied_directory(alloc, &self.directory)?;
        let mut open = copied_names(alloc, &self.open)?;
        open.push(FileName::of(alloc, name.as_str())?)?;
        Ok(Some(Holding {
            origin: origin.copy(),
            owner: copied(&self.owner),
            stated: copied(&self.stated),
            directory,
            open,
            opened: self.opened + 1,
            line: self.line.saturating_add(1),
            taken_out: copied_lines(alloc, &self.taken_out)?,
        }))
    }

    /// Takes what an included file leaves.
    ///
    /// # Errors
    ///
    /// `AllocError`.
    pub(crate) fn back(&mut self, alloc: Global, inner: &Holding) -> Result<(), AllocError>
        ensures { OnOk result (self.new ≡ back_in self.old inner.now) }
    {
        self.taken_out = copied_lines(alloc, &inner.taken_out)?;
        self.stated = copied(&inner.stated);
        self.opened = inner.opened;
        self.line = inner.line.saturating_add(1);
        Ok(())
    }
}
