ghost use Rattle.std.specs.Prelude.{◌≡◌, ◌≤◌, drop, length, ℕ, List, [], ◌∷◌, ◌++◌, map, None, IfOk, IfErr, IfSome, IfNone, IsSomeAnd};
ghost use Rattle.zone_name.specs.Common.{Octets};
ghost use Rattle.zone_rdata.specs.Cause.{fault_for};
ghost use Rattle.zone_rdata.specs.Fault.{NoValue};
ghost use Rattle.zone_rdata.specs.Item.{RawItem, bare, raw};
ghost use Rattle.zone_text.specs.EntryFault.{WordFault, PartsFault};
ghost use Rattle.zone_text.specs.Statements.{Word, begins_with_digit, parts_after, word_after};
ghost use Rattle.zone_text.specs.Inherited.{IsTtl};
ghost use Rattle.zone_text.specs.Machine.WordValues.{AreWordsOf, HaveValues};

use zone_rdata::{Cause, Class, Fault, Item, MAX_TTL, seconds_of};

/// The text of the first item where that is a bare one, and the items after it. `None`: there is no
/// item, or the first is quoted.
pub fn split_bare<'i, 't>(items: &'i [Item<'t>]) -> Option<(&'t [u8], &'i [Item<'t>])>
    ensures found { IfSome result (λ parts.
        map raw items.now ≡ bare parts.0.now ∷ map raw parts.1.now) }
    ensures none { IfNone result ((text : Octets) (rest : List RawItem)
        → map raw items.now ≡ bare text ∷ rest → ⊥) }
{
    let (first, rest) = items.split_first()?;
    match *first {
        Item::Bare(text) => Some((text, rest)),
        Item::Quoted(_) => None,
    }
}

/// Whether the first octet is a digit, as that of a TTL.
pub(crate) fn begins_with_digit(text: &[u8]) -> bool
    ensures { result ≡ begins_with_digit text.now }
{
    matches!(text, [b'0'..=b'9', ..])
}

/// The seconds of a TTL (RFC 2181 8).
///
/// # Errors
///
/// `BadTtl` for a text that is no time or is over 2147483647.
pub(crate) fn ttl_in(text: &[u8]) -> Result<u32, Cause>
    ensures found { IfOk result (IsTtl text.now) }
    ensures fault { IfErr result
        (λ cause. NoValue Fault.BadTtl (IsTtl text.now) (fault_for cause)) }
{
    match seconds_of(text) {
        Some(seconds) if seconds <= u64::from(MAX_TTL) => Ok(seconds as u32),
        _ => Err(Cause::BadTtl),
    }
}

/// The values of the words before a record's type: its TTL in seconds and its class.
#[derive(Clone, Copy)]
pub(crate) struct Words {
    pub(crate) ttl: Option<u32>,
    pub(crate) class: Option<Class>,
}

impl Words {
    /// The values with that of one more word. `None`: the item is no word before the type.
    ///
    /// # Errors
    ///
    /// `BadTtl` and `BadClass` for a word without a value.
    #[tactic(auto, using(crate::proofs::Heads::WordsLeft::no_word))]
    fn with(&self, text: &[u8]) -> Result<Option<Words>, Cause>
        ensures found { (words : List Word) → HaveValues words self.now → IfOk result (λ next.
            IfSome next (λ values. IsSomeAnd (word_after words (bare text.now))
            (λ word. HaveValues (words ++ word ∷ []) values))) }
        ensures none { (words : List Word) → HaveValues words self.now → IfOk result (λ next.
            IfNone next (word_after words (bare text.now) ≡ None)) }
        ensures fault { (words : List Word) → HaveValues words self.now → IfErr result (λ cause.
            IsSomeAnd (word_after words (bare text.now))
            (λ word. WordFault word (fault_for cause))) }
    {
        if begins_with_digit(text) {
            if self.ttl.is_some() {
                return Ok(None);
            }
            let ttl = ttl_in(text)?;
            return Ok(Some(Words {
                ttl: Some(ttl),
                class: self.class,
            }));
        }
        if self.class.is_some() {
            return Ok(None);
        }
        let Some(class) = Class::read_word(text)? else {
            return Ok(None);
        };
        class.known();
        Ok(Some(Words {
            ttl: self.ttl,
            class: Some(class),
        }))
    }
}

/// The values of the words before a record's type, and how many they are, of the items after the
/// owner.
///
/// # Errors
///
/// `BadTtl` and `BadClass` for the leftmost word without a value.
pub(crate) fn words_of(items: &[Item]) -> Result<(Words, usize), Cause>
    ensures found { IfOk result (λ found.
        AreWordsOf (parts_after [] (map raw items.now)) found.0
        (drop found.1 (map raw items.now))) }
    ensures within { IfOk result (λ found. found.1 ≤ length items.now) }
    ensures fault { IfErr result (λ cause. PartsFault
        (parts_after [] (map raw items.now)).words
        (parts_after [] (map raw items.now)).rest (fault_for cause)) }
{
    let mut words = Words {
        ttl: None,
        class: None,
    };
    for (index, item) in items.iter().enumerate() {
        let Item::Bare(text) = *item else {
            return Ok((words, index));
        };
        let Some(next) = words.with(text)? else {
            return Ok((words, index));
        };
        words = next;
    }
    Ok((words, items.len()))
}
