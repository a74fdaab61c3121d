//! What the entries of a master file leave to those after them (RFC 1035 5.1).
ghost use Rattle.std.specs.Prelude.{◌≡◌, ◌↔◌, ◌∷◌, [], IsTrue, List, None, Some, map, option_map};
ghost use Rattle.zone_name.specs.Common.{Labels};
ghost use Rattle.zone_name.specs.Spelling.{SpellsCased};
ghost use Rattle.zone_rdata.specs.Item.{raw};
ghost use Rattle.zone_rdata.specs.Table.{in_class};
ghost use Rattle.zone_rdata.specs.Words.{IsClassWord};
ghost use Rattle.zone_text.specs.Entries.{Entry};
ghost use Rattle.zone_text.specs.Stated.{directive_in};
ghost use Rattle.zone_text.specs.Statements.{statement_of};
ghost use Rattle.zone_words.specs.Origin.{NamesOrigin, origin_items};
ghost use Rattle.zone_words.specs.Machine.Further.{HasParts, IsForm};
ghost use Rattle.zone_words.specs.Inherited.{
  IsInherited,
  IsInternetAfter,
  IsOneOrNone,
};

use crate::entry_form::EntryForm;
use zone_name::CasedName;
use zone_rdata::{Class, Item};
use zone_text::{Directive, RecordParts, split_bare};

/// The origin and the class that hold for the next entry.
#[derive(Debug, Drop)]
pub(crate) struct Inherited {
    /// The origin, its letters kept. `None`: a `$ORIGIN` named none, and no entry is looked at.
    pub(crate) origin: Option<CasedName>,
    /// The latest class is IN, or none was stated.
    pub(crate) is_internet: bool,
}

/// The name that the text spells under an origin.
fn spelled(text: &[u8], above: &CasedName) -> Option<CasedName>
    ensures { IsOneOrNone (SpellsCased (Some above.now) text.now) result }
{
    match CasedName::from_text(text, Some(above)) {
        Ok(name) => Some(name),
        Err(_) => None,
    }
}

/// The origin that the items after `$ORIGIN` name under the one before it.
#[tactic(auto, using(crate::proofs::Following::named_by))]
fn named_origin(items: &[Item], above: &CasedName) -> Option<CasedName>
    ensures { IsOneOrNone (NamesOrigin above.now (map raw items.now)) result }
{
    match split_bare(items) {
        Some((text, [])) => spelled(text, above),
        _ => None,
    }
}

/// The origin after `$ORIGIN` and these items, where one held before it.
fn next_origin(items: &[Item], above: &Option<CasedName>) -> Option<CasedName>
    ensures { IsOneOrNone (λ name. (held : Labels) × (above.now ≡ Some held)
        × NamesOrigin held (map raw items.now) name) result }
{
    match above {
        Some(above) => named_origin(items, above),
        None => None,
    }
}

/// Whether the word is one of class IN (RFC 1035 3.2.4).
fn is_internet(word: &[u8]) -> bool
    ensures { IsTrue result ↔ IsClassWord word.now in_class }
{
    match Class::read_word(word) {
        Ok(Some(class)) => class.number() == 1,
        Ok(None) => false,
        Err(_) => false,
    }
}

/// Whether the class is IN after a record that states this class word, if any.
fn stays_internet(word: Option<&[u8]>, before: bool) -> bool
    ensures { IsInternetAfter (option_map (λ text. text.now) word.entry) before result }
{
    match word {
        Some(word) => is_internet(word),
        None => before,
    }
}

impl Inherited {
    /// What the first entry finds, under the origin that is handed in with the file.
    pub(crate) fn new(origin: &CasedName) -> Inherited
        ensures { IsInherited origin.now [] result }
    {
        Inherited {
            origin: Some(origin.copy()),
            is_internet: true,
        }
    }

    /// Takes what a directive leaves.
    fn follow_directive(&mut self, directive: Directive)
        ensures { (origin : Labels) (before : List Entry) (entry : Entry)
            → IsInherited origin before self.old
            → statement_of entry ≡ directive_in directive.entry
            → IsInherited origin (entry ∷ before) self.new }
    {
        match directive {
            Directive::Origin(items) => self.origin = next_origin(items, &self.origin),
            Directive::Ttl(_) => {}
            Directive::Include => {}
            Directive::Unknown => {}
        }
    }

    /// Takes what a record leaves, of which these are the parts after the owner.
    #[tactic(auto, using(crate::proofs::Following::record_follows))]
    fn follow_record(&mut self, parts: RecordParts)
        ensures { (origin : Labels) (before : List Entry) (entry : Entry)
            → IsInherited origin before self.old
            → HasParts (statement_of entry) parts.entry
            → IsInherited origin (entry ∷ before) self.new }
    {
        self.is_internet = stays_internet(parts.class, self.is_internet);
    }

    /// Takes what an entry leaves.
    pub(crate) fn follow(&mut self, form: EntryForm)
        ensures { (origin : Labels) (before : List Entry) (entry : Entry)
            → IsInherited origin before self.old
            → IsForm (statement_of entry) form.entry
            → IsInherited origin (entry ∷ before) self.new }
    {
        match form {
            EntryForm::Blank => {}
            EntryForm::Directive(directive) => self.follow_directive(directive),
            EntryForm::Record(parts) => self.follow_record(parts),
        }
    }
}
