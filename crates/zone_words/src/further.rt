//! The records of further types among the entries of a master file (RFC 1035 5.1).
ghost use Rattle.std.specs.List.{count_by};
ghost use Rattle.std.specs.Prelude.{◌≡◌, ◌↔◌, ◌==◌, IsTrue, IfSome, IfNone, List, Some, [], map};
ghost use Rattle.zone_name.specs.Name.{folded_label};
ghost use Rattle.zone_rdata.specs.Item.{RawItem, raw};
ghost use Rattle.zone_text.specs.PartsIn.{ArePartsIn};
ghost use Rattle.zone_text.specs.Statements.{Parts, Statement, parts_after, parts_in};
ghost use Rattle.zone_words.specs.Machine.Further.{FindsParts, IsForm, NoneIsFurther, QuotesAreOnOneLine, quoted_feeds};
ghost use Rattle.zone_words.specs.Refusal.{refused_of};

use crate::entry_form::EntryForm;
use crate::refusal::Refusal;
use type_data::{FurtherType, WordsFault, further_type_of};
use zone_rdata::{Item, is_word};
use zone_text::{RecordParts, split_bare};

/// A record of a further type: its row of the table, the type's word and the items of the data.
#[derive(Clone, Copy)]
pub(crate) struct FurtherRecord<'i, 't> {
    pub(crate) further: &'static FurtherType,
    pub(crate) word: &'t [u8],
    pub(crate) items: &'i [Item<'t>],
}

/// The record of a further type that the parts after an owner are, where the class that holds is IN
/// or isn't. `None`: they are none.
fn record_of<'i, 't>(parts: RecordParts<'i, 't>, is_internet: bool) -> Option<FurtherRecord<'i, 't>>
    ensures found { IfSome result (λ found. (items : List RawItem)
        → ArePartsIn (parts_after [] items) parts.entry
        → FindsParts (parts_after [] items) is_internet found) }
    ensures none { IfNone result ((items : List RawItem)
        → ArePartsIn (parts_after [] items) parts.entry
        → NoneIsFurther (parts_after [] items) is_internet) }
{
    let Some((word, after)) = split_bare(parts.rest) else {
        return None;
    };
    let Some(further) = further_type_of(word) else {
        return None;
    };
    if !parts.have_values() {
        return None;
    }
    if further.in_internet_alone && !is_internet {
        return None;
    }
    Some(FurtherRecord {
        further,
        word,
        items: after,
    })
}

/// The record of a further type that an entry is, where the class that holds is IN or isn't. `None`:
/// it is none.
pub(crate) fn further_record<'i, 't>(
    form: EntryForm<'i, 't>,
    is_internet: bool,
) -> Option<FurtherRecord<'i, 't>>
    ensures found { IfSome result (λ found. (stated : Statement) → IsForm stated form.entry
        → (parts : Parts) × (parts_in stated ≡ Some parts)
        × FindsParts parts is_internet found) }
    ensures none { IfNone result ((stated : Statement) → IsForm stated form.entry
        → (parts : Parts) → parts_in stated ≡ Some parts → NoneIsFurther parts is_internet) }
{
    match form {
        EntryForm::Blank => None,
        EntryForm::Directive(_) => None,
        EntryForm::Record(parts) => record_of(parts, is_internet),
    }
}

impl FurtherRecord<'_, '_> {
    /// The refusal of the entry that begins on a line.
    pub(crate) fn refusal(&self, line: u64, field: &'static str, fault: WordsFault) -> Refusal
        ensures { refused_of result ≡ record {
          line = line;
          mnemonic = self.now.further.now.mnemonic.now;
          field = field.now;
          fault = fault;
        } }
    {
        Refusal {
            line,
            mnemonic: self.further.mnemonic,
            field,
            fault,
        }
    }

    /// Whether the type's word is the mnemonic, and not `TYPE` and the number.
    pub(crate) fn has_mnemonic(&self) -> bool
        ensures { IsTrue result
            ↔ (folded_label self.now.word.now ≡ folded_label self.now.further.now.mnemonic.now) }
    {
        is_word(self.word, self.further.mnemonic.as_bytes())
    }
}

/// Whether no line feed stands in octets.
fn has_no_line_feed(octets: &[u8]) -> bool
    ensures { IsTrue result ↔ (count_by (λ c. c == 10) octets.now ≡ 0) }
{
    !octets.contains(&b'\n')
}

/// Whether no line feed stands in an item. In a bare one none does.
fn is_on_one_line(item: &Item) -> bool
    ensures { IsTrue result ↔ (quoted_feeds (raw item.now) ≡ 0) }
{
    match item {
        Item::Bare(_) => true,
        Item::Quoted(text) => has_no_line_feed(text),
    }
}

/// Whether no line feed stands in the items.
pub(crate) fn are_on_one_line(items: &[Item]) -> bool
    ensures { IsTrue result ↔ QuotesAreOnOneLine (map raw items.now) }
{
    for item in items {
        if !is_on_one_line(item) {
            return false;
        }
    }
    true
}
