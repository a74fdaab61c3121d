//! Whether octets are one record that states its class (RFC 1035 5.1).
ghost use Rattle.std.specs.Prelude.{◌≡◌, Ok, is_some, length, map};
ghost use Rattle.words_print.specs.Machine.Found.{StatesInFew};
ghost use Rattle.words_print.specs.Shown.{HasTooManyItems, StatesItsClass};
ghost use Rattle.words_print.specs.declared.class_stated.ClassStated.TheVariants as answers;
ghost use Rattle.zone_rdata.specs.Item.{raw};
ghost use Rattle.zone_text.specs.FirstEntry.{IsFirstEntry};
ghost use Rattle.zone_text.specs.Inherited.{class_word};
ghost use Rattle.zone_text.specs.Stated.{statement_in};

use std::alloc::{AllocError, Global};
use zone_rdata::Item;
use zone_text::{FirstEntry, MOST_ITEMS, Statement, first_entry, record_parts, statement_of};

/// Whether octets are one record of a master file that states its class.
#[derive(Clone, Copy, Debug)]
pub(crate) enum ClassStated {
    /// They are.
    Yes,
    /// They aren't.
    No,
    /// It isn't told: they are one entry of very many items.
    Untold,
}

/// Whether a statement is a record that states its class.
fn has_class(statement: Statement) -> bool
    ensures { result ≡ is_some (class_word (statement_in statement.entry)) }
{
    match statement {
        Statement::Blank => false,
        Statement::Directive(_) => false,
        Statement::Owned(_, items) => record_parts(items).class.is_some(),
        Statement::Unowned(items) => record_parts(items).class.is_some(),
    }
}

/// More items than most records have, so that room for them is made once.
const USUAL_ITEMS: usize = 16;

/// Room for the items of most records.
///
/// # Errors
///
/// `AllocError`.
pub(crate) fn room_for_items<'t>(alloc: Global) -> Result<Vec<Item<'t>>, AllocError> {
    Vec::with_capacity(alloc, USUAL_ITEMS)
}

/// Whether octets are one record that states its class, and the line feed that ends it. If so, its
/// items come in place of what `items` held.
///
/// # Errors
///
/// `AllocError`.
pub(crate) fn class_stated<'t>(
    octets: &'t [u8],
    items: &mut Vec<Item<'t>>,
) -> Result<ClassStated, AllocError>
    ensures yes { result ≡ Ok answers.Yes → StatesInFew octets.now }
    ensures no { result ≡ Ok answers.No → StatesItsClass octets.now → ⊥ }
    ensures untold { result ≡ Ok answers.Untold → HasTooManyItems octets.now }
    ensures whole { result ≡ Ok answers.Yes
        → IsFirstEntry octets.now (length octets.now) (map raw items.new.items) }
{
    match first_entry(octets, items)? {
        FirstEntry::Whole(len) => {
            if len != octets.len() {
                return Ok(ClassStated::No);
            }
            if items.len() >= MOST_ITEMS {
                return Ok(ClassStated::Untold);
            }
            if has_class(statement_of(octets, items)) {
                return Ok(ClassStated::Yes);
            }
            Ok(ClassStated::No)
        }
        FirstEntry::Open => Ok(ClassStated::No),
        FirstEntry::BadEscape => Ok(ClassStated::No),
        FirstEntry::UnbalancedParenthesis => Ok(ClassStated::No),
    }
}
