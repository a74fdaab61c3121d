//! The parts of a record after its owner, as they are written (RFC 1035 5.1).
ghost use Rattle.std.specs.Prelude.{◌≡◌, ◌∷◌, ◌++◌, List, [], map, true, false, None, IfNone, IfSome, IsSomeAnd};
ghost use Rattle.std.specs.List.{AllByRecursion};
ghost use Rattle.zone_name.specs.Common.{NothingIs};
ghost use Rattle.zone_rdata.specs.Item.{RawItem, bare, raw};
ghost use Rattle.zone_text.specs.Inherited.{IsTtl};
ghost use Rattle.zone_text.specs.PartsIn.{ArePartsIn};
ghost use Rattle.zone_text.specs.Records.{HasValue};
ghost use Rattle.zone_text.specs.Statements.{Word, class, is_class_word, parts_after, ttl, word_after};
ghost use Rattle.zone_text.specs.Machine.WordTexts.{HaveTexts};

use crate::laws::entry::lower_laws;
use crate::words::{begins_with_digit, split_bare, ttl_in};
use zone_rdata::{Class, Item};

/// The parts of a record after its owner: `[TTL] [class]` in either order, and the items from the
/// type on (RFC 1035 5.1).
#[derive(Clone, Copy)]
pub struct RecordParts<'i, 't> {
    /// The text of the TTL that is stated. It begins with a digit, and may still be no time.
    pub ttl: Option<&'t [u8]>,
    /// The word of the class that is stated: IN, CS, CH, HS or CLASS and digits, in any letter
    /// case.
    pub class: Option<&'t [u8]>,
    /// The items from the type on.
    pub rest: &'i [Item<'t>],
}

/// Whether the text is the word of a class, whether or not zone data can have it.
fn is_class_word(text: &[u8]) -> bool
    ensures { result ≡ is_class_word text.now }
{
    match Class::read_word(text) {
        Ok(None) => false,
        Ok(Some(_)) => true,
        Err(_) => true,
    }
}

impl<'i, 't> RecordParts<'i, 't> {
    /// The parts with one more word, and the items after it. `None`: the item is no word before the
    /// type.
    #[tactic(auto, using(crate::proofs::Heads::WordsLeft::one_more))]
    fn with(&self, text: &'t [u8], rest: &'i [Item<'t>]) -> Option<RecordParts<'i, 't>>
        ensures found { (words : List Word) → HaveTexts words self.now → IfSome result
            (λ next. IsSomeAnd (word_after words (bare text.now))
            (λ word. HaveTexts (words ++ word ∷ []) next)) }
        ensures rest { IfSome result (λ next. next.rest.now ≡ rest.now) }
        ensures none { (words : List Word) → HaveTexts words self.now
            → IfNone result (word_after words (bare text.now) ≡ None) }
    {
        if begins_with_digit(text) {
            if self.ttl.is_some() {
                return None;
            }
            return Some(RecordParts {
                ttl: Some(text),
                class: self.class,
                rest,
            });
        }
        if self.class.is_some() || !is_class_word(text) {
            return None;
        }
        Some(RecordParts {
            ttl: self.ttl,
            class: Some(text),
            rest,
        })
    }
}

/// The parts of a record, of the items after its owner.
pub fn record_parts<'i, 't>(items: &'i [Item<'t>]) -> RecordParts<'i, 't>
    ensures { ArePartsIn (parts_after [] (map raw items.now)) result }
{
    let mut parts = RecordParts {
        ttl: None,
        class: None,
        rest: items,
    };
    while let Some((text, rest)) = split_bare(parts.rest) {
        let Some(next) = parts.with(text, rest) else {
            return parts;
        };
        parts = next;
    }
    parts
}

/// The seconds of a TTL (RFC 2181 8). `None`: the text is no time, or over 2147483647.
pub fn ttl_of(text: &[u8]) -> Option<u32>
    ensures some { IfSome result (IsTtl text.now) }
    ensures none { IfNone result (NothingIs (IsTtl text.now)) }
{
    ttl_in(text).ok()
}

/// Whether a TTL that is stated has a value.
fn ttl_has_value(text: Option<&[u8]>) -> bool
    ensures yes { result ≡ true → IfSome text.entry (λ stated. HasValue (ttl stated.now)) }
    ensures no { result ≡ false → IsSomeAnd text.entry (λ stated. HasValue (ttl stated.now) → ⊥) }
{
    match text {
        Some(text) => ttl_of(text).is_some(),
        None => true,
    }
}

/// Whether a class that is stated has a value: one that zone data can have (RFC 6895 3.2).
fn class_has_value(word: Option<&[u8]>) -> bool
    ensures yes { result ≡ true → IfSome word.entry (λ stated. HasValue (class stated.now)) }
    ensures no { result ≡ false → IsSomeAnd word.entry (λ stated. HasValue (class stated.now) → ⊥) }
{
    lower_laws();
    let Some(word) = word else {
        return true;
    };
    match Class::read_word(word) {
        Ok(Some(class)) => {
            class.known();
            true
        }
        Ok(None) => false,
        Err(_) => false,
    }
}

impl RecordParts<'_, '_> {
    /// Whether each word before the type has a value: a TTL of at most 2147483647 seconds (RFC 2181
    /// 8), a class that zone data can have (RFC 6895 3.2).
    #[tactic(auto, using(crate::proofs::Heads::PartsLeft::head_words))]
    pub fn have_values(&self) -> bool
        ensures yes { result ≡ true → (items : List RawItem)
            → ArePartsIn (parts_after [] items) self.now
            → AllByRecursion HasValue (parts_after [] items).words }
        ensures no { result ≡ false → (items : List RawItem)
            → ArePartsIn (parts_after [] items) self.now
            → AllByRecursion HasValue (parts_after [] items).words → ⊥ }
    {
        ttl_has_value(self.ttl) && class_has_value(self.class)
    }
}
