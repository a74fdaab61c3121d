//! Where a reading of an entry stops, from the left (RFC 1035 5.1).
ghost use Rattle.std.specs.Prelude.{◌≡◌, ℕ, IfNone, IfOk, IfSome, List, Some, [], false, map, option_map, slice_get, true};
ghost use Rattle.std.specs.List.{AllByRecursion};
ghost use Rattle.zone_name.specs.Common.{NothingIs};
ghost use Rattle.zone_rdata.specs.Item.{RawItem, raw};
ghost use Rattle.zone_text.specs.PartsIn.{ArePartsIn};
ghost use Rattle.zone_text.specs.Records.{HasValue};
ghost use Rattle.zone_text.specs.Statements.{class, parts_after, ttl};
ghost use Rattle.zone_text.specs.Stated.{directive_in};
ghost use Rattle.zone_text.specs.Tokens.{Cuts, Token};
ghost use Rattle.type_data.specs.DataItem.{TouchingItem, given, items_of};
ghost use Rattle.type_data.specs.Table.{further_of};
ghost use Rattle.zone_words.specs.Entry.{touching_items};
ghost use Rattle.faulty_items.specs.Coded.{coded_entry};
ghost use Rattle.faulty_items.specs.EntryStop.{EntryStops, IsNoOwner, IsValueless, ItemOfNone, NamesFurther, RestStops, TypeStop};
ghost use Rattle.faulty_items.specs.Machine.EntryReading.{EndIn, IsClassIfValued, RecordStops};

use crate::further::{FurtherStop, further_stop};
use crate::generic::generic_stop;
use crate::laid_out::laid_out_stop;
use crate::stop::DataStop;
use crate::touching::touching_items;
use std::alloc::{AllocError, Global};
use type_data::laws::data::a_word_is_one_further_type;
use type_data::{DataItem, FurtherType, further_type_of};
use zone_name::CasedName;
use zone_rdata::{Class, Item, Kind, is_generic};
use zone_text::{Directive, RecordParts, Statement, record_parts, statement_of, ttl_of};

/// Where a reading of an entry stops.
#[derive(Clone, Copy, Debug)]
pub enum EntryStop<'e> {
    /// Before the data, at this item: of a directive, an owner, a TTL, a class or a type. `None`:
    /// an item is missing, or the entry has 65,552 items or more.
    BeforeData(Option<Item<'e>>),
    /// In the data of a type of this number.
    Data(u16, DataStop<'e>),
    /// In the data of a further type of this number, in presentation format.
    FurtherData(u16, FurtherStop<'e>),
}

/// The further type that a word names, if records of the class can have it.
#[tactic(auto, using(crate::proofs::EntryParts::further_named))]
fn further_in(word: &[u8], class: Class) -> Option<&'static FurtherType>
    ensures found { IfSome result (λ row. NamesFurther class word.now (further_of row.now)) }
    ensures none { IfNone result (NothingIs (NamesFurther class word.now)) }
{
    a_word_is_one_further_type();
    let further = further_type_of(word)?;
    if further.in_internet_alone && class.number() != 1 {
        return None;
    }
    Some(further)
}

/// Where a reading of a record stops from its type on, which is no further type.
fn named_type_stop<'e>(
    alloc: Global,
    word: &'e [u8],
    items: &[Item<'e>],
    class: Class,
    origin: &CasedName,
) -> Result<EntryStop<'e>, AllocError>
    ensures { (touching : List TouchingItem) → map raw items.now ≡ items_of touching
        → NothingIs (NamesFurther class word.entry.now) → IfOk result
        (λ stop. TypeStop origin.now class word.entry.now touching (coded_entry stop)) }
{
    let Ok(kind) = Kind::read_word(word) else {
        return Ok(EntryStop::BeforeData(Some(Item::Bare(word))));
    };
    kind.known();
    let stop = laid_out_stop(alloc, class, kind, items, &origin.folded())?;
    Ok(EntryStop::Data(kind.number(), stop))
}

/// Where a reading of a record of a further type stops from its data on.
fn further_type_stop<'e>(
    alloc: Global,
    further: &FurtherType,
    plain: &[Item<'e>],
    items: &[DataItem<'e>],
    origin: &CasedName,
) -> Result<EntryStop<'e>, AllocError>
    ensures { (class_number : ℕ) (word : List ℕ) → map raw plain.now ≡ items_of (map given items.now)
        → NamesFurther class_number word (further_of further.now) → IfOk result
        (λ stop. TypeStop origin.now class_number word (map given items.now) (coded_entry stop)) }
{
    if is_generic(plain) {
        let stop = generic_stop(plain, &mut Vec::new(alloc))?;
        return Ok(EntryStop::Data(further.number, stop));
    }
    let stop = further_stop(alloc, &further.fields, items, origin)?;
    Ok(EntryStop::FurtherData(further.number, stop))
}

/// The items alone.
fn plain_items<'e>(alloc: Global, items: &[DataItem<'e>]) -> Result<Vec<Item<'e>>, AllocError>
    ensures { IfOk result (λ plain. map raw plain.items ≡ items_of (map given items.now)) }
{
    let mut plain = Vec::with_capacity(alloc, items.len())?;
    for item in items {
        plain.push(item.item)?;
    }
    Ok(plain)
}

/// Where a reading of a record stops from its type on.
fn type_stop<'e>(
    alloc: Global,
    word: &'e [u8],
    items: &[DataItem<'e>],
    class: Class,
    origin: &CasedName,
) -> Result<EntryStop<'e>, AllocError>
    ensures { IfOk result (λ stop.
        TypeStop origin.now class word.entry.now (map given items.now) (coded_entry stop)) }
{
    let plain = plain_items(alloc, items)?;
    match further_in(word, class) {
        Some(further) => further_type_stop(alloc, further, &plain, items, origin),
        None => named_type_stop(alloc, word, &plain, class, origin),
    }
}

/// Where a reading of a record stops from the type's place on.
fn rest_stop<'e>(
    alloc: Global,
    rest: &[DataItem<'e>],
    class: Class,
    origin: &CasedName,
) -> Result<EntryStop<'e>, AllocError>
    ensures { IfOk result
        (λ stop. RestStops origin.now class (map given rest.now) (coded_entry stop)) }
{
    let [first, others @ ..] = rest else {
        return Ok(EntryStop::BeforeData(None));
    };
    match first.item {
        Item::Quoted(_) => Ok(EntryStop::BeforeData(Some(first.item))),
        Item::Bare(word) => type_stop(alloc, word, others, class, origin),
    }
}

/// The TTL that is stated and has no value. `None`: there is none, or it has one.
fn valueless_ttl<'t>(text: Option<&'t [u8]>) -> Option<&'t [u8]>
    ensures found { IfSome result (λ found.
        (option_map (λ t. t.now) text.entry ≡ Some found.now) × (HasValue (ttl found.now) → ⊥)) }
    ensures none { IfNone result (IfSome text.entry (λ stated. HasValue (ttl stated.now))) }
{
    let stated = text?;
    match ttl_of(stated) {
        Some(_) => None,
        None => Some(stated),
    }
}

/// The class word that is stated and has no value. `None`: there is none, or it has one.
#[tactic(auto, using(crate::proofs::EntryParts::class_named))]
fn valueless_class<'t>(word: Option<&'t [u8]>) -> Option<&'t [u8]>
    ensures found { IfSome result (λ found.
        (option_map (λ t. t.now) word.entry ≡ Some found.now) × (HasValue (class found.now) → ⊥)) }
    ensures none { IfNone result (IfSome word.entry (λ stated. HasValue (class stated.now))) }
{
    let stated = word?;
    match Class::read_word(stated) {
        Ok(Some(class)) => {
            class.known();
            None
        }
        Ok(None) => Some(stated),
        Err(_) => Some(stated),
    }
}

/// The class of a record that states this class word, if any, after one of this class.
fn class_of(word: Option<&[u8]>, held: Class) -> Class
    ensures { IsClassIfValued held (option_map (λ t. t.now) word.entry) result }
{
    let Some(word) = word else {
        return held;
    };
    match Class::read_word(word) {
        Ok(Some(class)) => class,
        Ok(None) => held,
        Err(_) => held,
    }
}

/// The word before a record's type that has no value: of two the first, where the TTL is first or
/// isn't. `None`: each has one.
#[tactic(auto, using(crate::proofs::EntryParts::head_words))]
fn valueless_word<'t>(parts: &RecordParts<'_, 't>, is_ttl_first: bool) -> Option<&'t [u8]>
    ensures found { (items : List RawItem) → ArePartsIn (parts_after [] items) parts.now
        → IfSome result (λ text. IsValueless (parts_after [] items).words text.now) }
    ensures none { (items : List RawItem) → ArePartsIn (parts_after [] items) parts.now
        → IfNone result (AllByRecursion HasValue (parts_after [] items).words) }
{
    let Some(ttl) = valueless_ttl(parts.ttl) else {
        return valueless_class(parts.class);
    };
    if is_ttl_first {
        return Some(ttl);
    }
    match valueless_class(parts.class) {
        Some(word) => Some(word),
        None => Some(ttl),
    }
}

/// Whether the first item begins as a TTL does.
fn begins_with_ttl(items: &[Item]) -> bool {
    matches!(items.first(), Some(Item::Bare([b'0'..=b'9', ..])))
}

/// Where a reading of a record stops from the items after its owner on, which are the last of these.
#[tactic(auto, using(crate::proofs::EntryParts::record_stops))]
fn record_stop<'e>(
    alloc: Global,
    after: &[Item<'e>],
    all: &[DataItem<'e>],
    held: Class,
    origin: &CasedName,
) -> Result<EntryStop<'e>, AllocError>
    ensures { EndIn (items_of (map given all.now)) (map raw after.now) → IfOk result
        (λ stop. RecordStops origin.now held (map given all.now) (map raw after.now)
        (coded_entry stop)) }
{
    let parts = record_parts(after);
    if let Some(text) = valueless_word(&parts, begins_with_ttl(after)) {
        return Ok(EntryStop::BeforeData(Some(Item::Bare(text))));
    }
    let class = class_of(parts.class, held);
    let (_, rest) = all.split_at(all.len().saturating_sub(parts.rest.len()));
    rest_stop(alloc, rest, class, origin)
}

/// The item of a directive that is at fault, if one is.
fn item_of_directive<'e>(directive: Directive<'_, 'e>) -> Option<Item<'e>>
    ensures { ItemOfNone (directive_in directive.entry) (option_map raw result) }
{
    match directive {
        Directive::Origin(items) | Directive::Ttl(items) => items.get(1).or(items.first()).copied(),
        Directive::Include | Directive::Unknown => None,
    }
}

/// Whether an owner is a name under an origin.
fn is_owner(owner: Item, origin: &CasedName) -> bool
    ensures yes { result ≡ true → IsNoOwner origin.now (raw owner.entry) → ⊥ }
    ensures no { result ≡ false → IsNoOwner origin.now (raw owner.entry) }
{
    match owner {
        Item::Bare(text) => match CasedName::from_text(text, Some(origin)) {
            Ok(_) => true,
            Err(_) => false,
        },
        Item::Quoted(_) => false,
    }
}

/// Where a reading of an entry stops, from the left, under the origin that holds for it and after a
/// record of this class (RFC 1035 5.1): at its owner, if that is no name; at a word before its type
/// that has no value; at its type; or in its data. For an entry that was refused that is where its
/// fault lies, if it is one of the entry alone: not that it has no owner or no TTL, nor that it
/// doesn't fit the zone. The entry is a whole one: its quotes and parentheses are closed.
///
/// # Errors
///
/// `AllocError`.
pub fn entry_stop<'e>(
    alloc: Global,
    entry: &'e [u8],
    held: Class,
    origin: &CasedName,
) -> Result<EntryStop<'e>, AllocError>
    ensures { (tokens : List Token) → Cuts entry.entry.now tokens → IfOk result (λ stop.
        EntryStops origin.now held (slice_get entry.entry.now 0) (touching_items false tokens)
        (coded_entry stop)) }
{
    let Some(all) = touching_items(alloc, entry)? else {
        return Ok(EntryStop::BeforeData(None));
    };
    let items = plain_items(alloc, &all)?;
    match statement_of(entry, &items) {
        Statement::Blank => Ok(EntryStop::BeforeData(None)),
        Statement::Directive(directive) => Ok(EntryStop::BeforeData(item_of_directive(directive))),
        Statement::Owned(owner, after) => {
            if !is_owner(owner, origin) {
                return Ok(EntryStop::BeforeData(Some(owner)));
            }
            record_stop(alloc, after, &all, held, origin)
        }
        Statement::Unowned(after) => record_stop(alloc, after, &all, held, origin),
    }
}
