//! The file that an `$INCLUDE` names (RFC 1035 5.1).
ghost use Rattle.std.specs.Prelude.{◌≡◌, true, false, List, map, drop, option_map, IfOk, IfNone, IfSome};
ghost use Rattle.zone_name.specs.Common.{NothingIs};
ghost use Rattle.zone_rdata.specs.Item.{RawItem, raw};
ghost use Rattle.zone_rdata.specs.Strings.{item_text};
ghost use Rattle.zone_files.specs.Expansion.{Included, MayOpen, StatesInclude};
ghost use Rattle.zone_files.specs.Machine.Stepping.{IncludesAs, included};

use crate::expansion::holding::Holding;
use crate::expansion::opened_name::FileName;
use crate::expansion::owners::named_origin;
use crate::expansion::step::Step;
use crate::fault::{ExpansionFailing, ExpansionFault};
use crate::file_name::included_file_name;
use std::alloc::{AllocError, Global};
use zone_name::CasedName;
use zone_rdata::Item;

/// The most files that are open at once: the main file and ten that are included.
const MOST_OPEN: usize = 11;

/// The most files that are included in a run.
pub(crate) const MOST_OPENED: u64 = 10_000;

/// The text of an item.
fn text_of<'t>(item: Item<'t>) -> &'t [u8]
    ensures { result.now ≡ item_text (raw item.entry) }
{
    match item {
        Item::Bare(text) => text,
        Item::Quoted(text) => text,
    }
}

/// The items after the first.
pub(crate) fn after_first<'i, 't>(items: &'i [Item<'t>]) -> &'i [Item<'t>]
    ensures { map raw result.now ≡ drop 1 (map raw items.now) }
{
    match items {
        [_, after @ ..] => after,
        [] => &[],
    }
}

/// The directory as a text.
fn directory_text(directory: &Option<FileName>) -> Option<&str>
    ensures { option_map (λ folder. folder.now) result ≡ directory.now }
{
    match directory {
        Some(folder) => Some(folder.as_str()),
        None => None,
    }
}

/// The file name and the origin that the items after `$INCLUDE` state, under the origin that holds.
fn stated_include<'t>(items: &[Item<'t>], above: &CasedName) -> Option<(&'t [u8], CasedName)>
    ensures some { IfSome result (λ found.
        StatesInclude above.now (map raw items.now) (included found.0.now found.1)) }
    ensures none { IfNone result (NothingIs (StatesInclude above.now (map raw items.now))) }
{
    let (file, after) = items.split_first()?;
    let origin = if after.is_empty() {
        above.copy()
    } else {
        named_origin(after, above)?
    };
    Some((text_of(*file), origin))
}

impl Holding {
    /// Whether a file of this name may be opened.
    fn may_open(&self, name: &[u8]) -> bool
        ensures yes { result ≡ true → MayOpen self.now name.now }
        ensures no { result ≡ false → MayOpen self.now name.now → ⊥ }
    {
        self.open.len() < MOST_OPEN && self.opened < MOST_OPENED && !self.is_open(name)
    }

    /// What becomes of an `$INCLUDE` that states a file name and an origin.
    ///
    /// # Errors
    ///
    /// `AllocError`.
    fn open_file(&self, alloc: Global, file: &[u8], origin: CasedName) -> Result<Step, AllocError>
        ensures { (items : List RawItem)
            → StatesInclude self.now.origin items (included file.now origin)
            → IfOk result (IncludesAs self.now items) }
    {
        let directory = directory_text(&self.directory);
        match included_file_name(alloc, directory, file) {
            Ok(name) => {
                if !self.may_open(name.as_bytes()) {
                    return Ok(Step::Fails(ExpansionFault::TooManyIncludes));
                }
                Ok(Step::Opens(FileName::new(name), origin))
            }
            Err(ExpansionFailing::Fault(_)) => Ok(Step::Fails(ExpansionFault::BadFileName)),
            Err(ExpansionFailing::Memory) => Err(AllocError),
        }
    }

    /// What becomes of an `$INCLUDE`, of whose entry these are the items.
    ///
    /// # Errors
    ///
    /// `AllocError`.
    pub(crate) fn include(&self, alloc: Global, items: &[Item]) -> Result<Step, AllocError>
        ensures { IfOk result (IncludesAs self.now (drop 1 (map raw items.now))) }
    {
        match stated_include(after_first(items), &self.origin) {
            Some((file, origin)) => self.open_file(alloc, file, origin),
            None => Ok(Step::Fails(ExpansionFault::BadInclude)),
        }
    }
}
