ghost use Rattle.std.specs.Prelude.{◌≡◌, map, slice_get};
ghost use Rattle.zone_rdata.specs.Item.{raw};
ghost use Rattle.zone_text.specs.Statements.{directive, statement_by};
ghost use Rattle.zone_text.specs.Stated.{directive_in, statement_in};

use crate::items::is_blank;
use zone_rdata::{Item, is_word};

/// A directive (RFC 1035 5.1; `$TTL` RFC 2308 4).
#[derive(Clone, Copy)]
pub enum Directive<'i, 't> {
    /// `$ORIGIN`, and the items after the word.
    Origin(&'i [Item<'t>]),
    /// `$TTL`, and the items after the word.
    Ttl(&'i [Item<'t>]),
    /// `$INCLUDE`, which isn't read.
    Include,
    /// A directive of another word.
    Unknown,
}

/// An entry by what it states (RFC 1035 5.1).
#[derive(Clone, Copy)]
pub enum Statement<'i, 't> {
    /// No items.
    Blank,
    /// A directive.
    Directive(Directive<'i, 't>),
    /// A record that states its owner, and the items after the owner.
    Owned(Item<'t>, &'i [Item<'t>]),
    /// A record that omits its owner.
    Unowned(&'i [Item<'t>]),
}

/// The directive of a word in any letter case.
#[tactic(auto, using(crate::proofs::Heads::ClassWords::word_test))]
fn directive_of<'i, 't>(word: Item<'t>, items: &'i [Item<'t>]) -> Directive<'i, 't>
    ensures { directive_in result ≡ directive (raw word.entry) (map raw items.now) }
{
    let Item::Bare(word) = word else {
        return Directive::Unknown;
    };
    if is_word(word, b"$origin") {
        Directive::Origin(items)
    } else if is_word(word, b"$ttl") {
        Directive::Ttl(items)
    } else if is_word(word, b"$include") {
        Directive::Include
    } else {
        Directive::Unknown
    }
}

/// What an entry with these items states.
pub fn statement_of<'i, 't>(entry: &[u8], items: &'i [Item<'t>]) -> Statement<'i, 't>
    ensures { statement_in result ≡ statement_by (slice_get entry.now 0) (map raw items.now) }
{
    let [first, rest @ ..] = items else {
        return Statement::Blank;
    };
    match entry {
        [b'$', ..] => Statement::Directive(directive_of(*first, rest)),
        [octet, ..] if is_blank(*octet) => Statement::Unowned(items),
        _ => Statement::Owned(*first, rest),
    }
}
