//! Where the items of an entry stand, which are known: what lies between them is looked at, and no
//! octet of theirs (RFC 1035 5.1).
ghost use Rattle.std.specs.Prelude.{◌≡◌, ◌≢◌, ◌<◌, ◌∷◌, ℕ, [], IfNone, IfOk, IfSome, List, OnOk, drop, false, filter, length, map, true};
ghost use Rattle.zone_rdata.specs.Item.{raw};
ghost use Rattle.zone_text.specs.Tokens.{Token, AreTokensOf, text};
ghost use Rattle.type_data.specs.DataItem.{given, items_of};
ghost use Rattle.zone_words.specs.Entry.{touching_items};
ghost use Rattle.zone_words.specs.Machine.KnownItems.{FollowsItem, FollowsItems, FrontIs, KeepsGap, PassesGap, StandsAround, from_item, is_between};
ghost use Rattle.zone_words.specs.Machine.Walking.{BeginsBlank};
ghost use Rattle.zone_words.specs.Written.{stays};

use std::alloc::AllocError;
use type_data::DataItem;
use zone_rdata::Item;
use zone_text::{first_token, is_blank};

/// Whether the octet is a token that is no item: a blank, a parenthesis or a line feed.
fn is_between(octet: u8) -> bool
    ensures { result ≡ is_between octet }
{
    is_blank(octet) || matches!(octet, b'\n' | b'(' | b')')
}

/// What follows the comment at the front.
// Not inlined: so what is found of a token takes no room where blanks are passed.
#[inline(never)]
fn past_comment(octets: &[u8]) -> Option<&[u8]>
    ensures found { IfSome result (λ rest. (after : List ℕ) → octets.now ≡ 59 ∷ after
        → FrontIs octets.now [] rest.now) }
    ensures shorter { IfSome result (λ rest. length rest.now < length octets.now) }
    ensures none { IfNone result (octets.now ≡ []) }
{
    let (_comment, after) = first_token(octets)?;
    Some(after)
}

/// What follows the token at the front. `None`: it is an item, or there is none.
#[inline(always)]
fn past_token(octets: &[u8]) -> Option<&[u8]>
    ensures found { IfSome result (λ rest. FrontIs octets.now [] rest.now) }
    ensures shorter { IfSome result (λ rest. length rest.now < length octets.now) }
    ensures none { IfNone result
        ((tokens : List Token) → AreTokensOf octets.now tokens → from_item tokens ≡ tokens) }
{
    let (first, after) = octets.split_first()?;
    if is_between(*first) {
        return Some(after);
    }
    if *first == b';' {
        past_comment(octets)
    } else {
        None
    }
}

/// Whether an item begins with the octet. No for some that begin one.
fn begins_item(octet: u8) -> bool
    ensures between { result ≡ true → is_between octet ≡ false }
    ensures comment { result ≡ true → octet ≢ 59 }
{
    octet > b')' && octet != b';'
}

/// What follows the gap at the front, where it is one blank, as most are. `None`: it may be another.
#[inline(always)]
fn past_one_blank(octets: &[u8]) -> Option<&[u8]>
    ensures passed { IfSome result (λ rest. PassesGap octets.now rest.now) }
    ensures kept { IfSome result (λ rest. (old : List ℕ) → KeepsGap octets.now old old) }
{
    let (first, rest) = octets.split_first()?;
    let (next, _) = rest.split_first()?;
    if *first != b' ' {
        return None;
    }
    if begins_item(*next) { Some(rest) } else { None }
}

/// The octets from the first item on.
fn past_gap(octets: &[u8]) -> &[u8]
    ensures { PassesGap octets.now result.now }
{
    if let Some(rest) = past_one_blank(octets) {
        return rest;
    }
    let mut rest = octets;
    while let Some(after) = past_token(rest) {
        rest = after;
    }
    rest
}

/// Whether the first octet parts items.
fn begins_with_blank(octets: &[u8]) -> bool
    ensures { BeginsBlank octets.now result }
{
    match octets.split_first() {
        Some((first, _)) => is_blank(*first),
        None => false,
    }
}

/// As `past_gap`. The parentheses, comments and line feeds before the item are put after others.
#[inline(always)]
fn take_gap<'e>(octets: &'e [u8], staying: &mut Vec<u8>) -> Result<&'e [u8], AllocError>
    ensures passed { IfOk result (λ rest. PassesGap octets.now rest.now) }
    ensures kept { OnOk result (KeepsGap octets.now staying.old.items staying.new.items) }
{
    match past_one_blank(octets) {
        Some(rest) => Ok(rest),
        None => take_any_gap(octets, staying),
    }
}

/// As `take_gap`, of a gap of which nothing is known.
#[inline(never)]
fn take_any_gap<'e>(octets: &'e [u8], staying: &mut Vec<u8>) -> Result<&'e [u8], AllocError>
    ensures passed { IfOk result (λ rest. PassesGap octets.now rest.now) }
    ensures kept { OnOk result (KeepsGap octets.now staying.old.items staying.new.items) }
{
    let mut rest = octets;
    while let Some(after) = past_token(rest) {
        if !begins_with_blank(rest) {
            let (token, _) = rest.split_at(rest.len() - after.len());
            staying.extend_from_slice(token)?;
        }
        rest = after;
    }
    Ok(rest)
}

/// What follows so many octets.
fn past(octets: &[u8], len: usize) -> &[u8]
    ensures { result.now ≡ drop len octets.now }
{
    match octets.split_at_checked(len) {
        Some((_, rest)) => rest,
        None => &[],
    }
}

/// What follows an item at the front.
fn past_item<'e>(octets: &'e [u8], item: &Item) -> &'e [u8]
    ensures { FollowsItem octets.now (raw item.now) result.now }
{
    match item {
        Item::Bare(text) => past(octets, text.len()),
        // and its two quotes
        Item::Quoted(text) => past(past(octets, text.len()), 2),
    }
}

/// What follows items and what lies before and between them.
fn past_items<'e>(octets: &'e [u8], items: &[Item]) -> &'e [u8]
    ensures { FollowsItems octets.now (map raw items.now) result.now }
{
    let mut rest = octets;
    for item in items {
        rest = past_item(past_gap(rest), item);
    }
    rest
}

/// What stands before the bare item after so many, and what after it, in an entry of which these are
/// the items.
pub(crate) fn around_item<'e>(
    entry: &'e [u8],
    items: &[Item],
    before: usize,
) -> (&'e [u8], &'e [u8])
    requires { before < length items.now }
    ensures { StandsAround entry.now (map raw items.now) before result.0.now result.1.now }
{
    let rest = past_gap(past_items(entry, &items[..before]));
    let (front, _) = entry.split_at(entry.len().saturating_sub(rest.len()));
    (front, past_item(rest, &items[before]))
}

/// Puts the items of the octets after a type's word, each with whether it directly follows another,
/// in place of what `found` held, and the parentheses, comments and line feeds in place of what
/// `staying` held.
///
/// # Errors
///
/// `AllocError`.
pub(crate) fn data_items<'e>(
    octets: &[u8],
    items: &[Item<'e>],
    found: &mut Vec<DataItem<'e>>,
    staying: &mut Vec<u8>,
) -> Result<(), AllocError>
    ensures found { OnOk result ((tokens : List Token) → AreTokensOf octets.now tokens
        → map raw items.now ≡ items_of (touching_items true tokens)
        → map given found.new.items ≡ touching_items true tokens) }
    ensures staying { OnOk result ((tokens : List Token) → AreTokensOf octets.now tokens
        → map raw items.now ≡ items_of (touching_items true tokens)
        → staying.new.items ≡ text (filter stays tokens)) }
{
    staying.clear();
    found.clear();
    found.reserve(items.len())?;
    let mut rest = octets;
    for item in items {
        let ahead = take_gap(rest, staying)?;
        found.push(DataItem {
            item: *item,
            touches: ahead.len() == rest.len(),
        })?;
        rest = past_item(ahead, item);
    }
    take_gap(rest, staying)?;
    Ok(())
}
