//! The names that the entries of a file spell (RFC 1035 5.1).
ghost use Rattle.std.specs.Prelude.{◌≡◌, ◌↔◌, IsTrue, Some, map};
ghost use Rattle.zone_name.specs.Spelling.{SpellsCased};
ghost use Rattle.zone_rdata.specs.Item.{raw};
ghost use Rattle.zone_words.specs.Inherited.{IsOneOrNone};
ghost use Rattle.zone_words.specs.Origin.{NamesOrigin};
ghost use Rattle.zone_text.specs.Stated.{statement_in};
ghost use Rattle.zone_files.specs.Expansion.{SpellsOwner, StatesOwner};

use zone_name::CasedName;
use zone_rdata::Item;
use zone_text::{Statement, split_bare};

/// The name that the text spells under an origin.
pub(crate) fn spelled(text: &[u8], above: &CasedName) -> Option<CasedName>
    ensures { IsOneOrNone (SpellsCased (Some above.now) text.now) result }
{
    match CasedName::from_text(text, Some(above)) {
        Ok(name) => Some(name),
        Err(_) => None,
    }
}

/// The origin that the items after `$ORIGIN` name under the one before it.
#[tactic(auto, using(crate::proofs::Expansions::Naming::named_by))]
pub(crate) fn named_origin(items: &[Item], above: &CasedName) -> Option<CasedName>
    ensures { IsOneOrNone (NamesOrigin above.now (map raw items.now)) result }
{
    match split_bare(items) {
        Some((text, [])) => spelled(text, above),
        _ => None,
    }
}

/// The name that the owner of a record spells.
pub(crate) fn named_owner(owner: Item, origin: &CasedName) -> Option<CasedName>
    ensures { IsOneOrNone (SpellsOwner origin.now (raw owner.entry)) result }
{
    match owner {
        Item::Bare(text) => spelled(text, origin),
        Item::Quoted(_) => None,
    }
}

/// The owner that an entry states, if that is a name.
pub(crate) fn stated_owner(statement: Statement, origin: &CasedName) -> Option<CasedName>
    ensures { StatesOwner origin.now (statement_in statement.entry) result }
{
    match statement {
        Statement::Owned(owner, _) => named_owner(owner, origin),
        Statement::Blank | Statement::Directive(_) | Statement::Unowned(_) => None,
    }
}

/// Whether two names are the same, letter for letter, or there is neither.
pub(crate) fn are_same(one: &Option<CasedName>, other: &Option<CasedName>) -> bool
    ensures { IsTrue result ↔ (one.now ≡ other.now) }
{
    match (one, other) {
        (Some(one), Some(other)) => one.wire() == other.wire(),
        (None, None) => true,
        _ => false,
    }
}
