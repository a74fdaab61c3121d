//! What other tools on master files stand on: the entry at the front of octets, an entry's items,
//! and the tokens of a text, one by one (RFC 1035 5.1).
ghost use Rattle.std.specs.Prelude.{◌≡◌, ◌<◌, ◌==◌, ◌||◌, [], ◌∷◌, List, map, length, IfNone, IfOk, IfSome, OnErr, OnOk, option_map, option_to_list};
ghost use Rattle.zone_rdata.specs.Item.{raw};
ghost use Rattle.zone_text.specs.Entries.{item_of};
ghost use Rattle.zone_text.specs.FirstEntry.{FirstIs};
ghost use Rattle.zone_text.specs.Kept.{KeepsItems};
ghost use Rattle.zone_text.specs.Tokens.{Token, AreTokensOf, is_blank};

use crate::items::{is_blank, keep};
use crate::stops::Stops;
use crate::token::{Span, item_of, token_span};
use crate::walk::{Reached, walk};
use std::alloc::AllocError;
use zone_rdata::Item;

/// What the entry at the front of octets is (RFC 1035 5.1), in few octets: a `Fault` has room for a
/// name.
#[derive(Clone, Copy, Debug, Drop)]
pub enum FirstEntry {
    /// It has so many octets; the last of them is the line feed that ends it.
    Whole(usize),
    /// The octets don't end it.
    Open,
    /// They don't end it, and break by `Fault::BadEscape`, whatever follows them.
    BadEscape,
    /// They don't end it, and break by `Fault::UnbalancedParenthesis`, whatever follows them.
    UnbalancedParenthesis,
}

/// Finds the entry at the front of octets. Where the octets end it, its items come in place of what
/// `items` held: all, or where it has 65,552 or more those that `entry_items` keeps. Where they
/// don't, `items` is left empty.
///
/// It looks at the octets up to the end of the entry. For an entry that comes in many pieces see
/// `OpenEntry`.
///
/// # Errors
///
/// `AllocError`, and `items` is empty then.
pub fn first_entry<'t>(
    octets: &'t [u8],
    items: &mut Vec<Item<'t>>,
) -> Result<FirstEntry, AllocError>
    ensures found { IfOk result (λ found. FirstIs octets.now (map raw items.new.items) found) }
    ensures emptied { OnErr result (items.new.items ≡ []) }
{
    let found = match walk(octets, &mut Stops::unseen(octets), items) {
        Ok(Reached::Ends(len, _feeds)) => return Ok(FirstEntry::Whole(len)),
        Ok(Reached::Open(_at)) => Ok(FirstEntry::Open),
        Ok(Reached::LostEscape(_len)) => Ok(FirstEntry::BadEscape),
        Ok(Reached::ClosesNothing(_len)) => Ok(FirstEntry::UnbalancedParenthesis),
        Err(refused) => Err(refused),
    };
    items.clear();
    found
}

/// Puts the items of octets that are cut into tokens, as a whole entry is, in place of what `items`
/// held: all of them where they are fewer than `MOST_ITEMS`. Of more than that some that are short
/// enough for a string (255 octets, RFC 1035 3.3) are left out, so that an entry of many items
/// takes no more memory than its octets: where `items` then holds fewer than `MOST_ITEMS`, they are
/// all.
///
/// # Errors
///
/// `AllocError`, and `items` is empty then.
pub fn entry_items<'t>(entry: &'t [u8], items: &mut Vec<Item<'t>>) -> Result<(), AllocError>
    ensures found { OnOk result (KeepsItems entry.now (map raw items.new.items)) }
    ensures emptied { OnErr result (items.new.items ≡ []) }
{
    match first_entry(entry, items)? {
        FirstEntry::Whole(len) if len == entry.len() => return Ok(()),
        // No line feed ends it.
        _ => items.clear(),
    }
    let mut rest = entry;
    while let Some((item, after)) = first_token(rest) {
        rest = after;
        let Some(item) = item else {
            continue;
        };
        if let Err(refused) = keep(item, items) {
            items.clear();
            return Err(refused);
        }
    }
    Ok(())
}

/// Whether the octet is a token that is no item: a blank, a parenthesis or a line feed.
fn is_between(octet: u8) -> bool
    ensures { result ≡ (is_blank octet || octet == 10 || octet == 40 || octet == 41) }
{
    is_blank(octet) || matches!(octet, b'\n' | b'(' | b')')
}

/// The token at the front of a text that is cut into tokens: its item, if it is one, and the rest
/// of the text. A token without an item is a blank, which is one octet (`is_blank` tells it by the
/// first octet), a parenthesis, a comment without its line feed, or a line feed. `None`: the text
/// is empty.
pub fn first_token(text: &[u8]) -> Option<(Option<Item<'_>>, &[u8])>
    ensures none { IfNone result (text.now ≡ []) }
    ensures found { IfSome result (λ found. (p : Token) (more : List Token)
        → AreTokensOf text.now (p ∷ more)
        → (option_to_list (option_map raw found.0) ≡ item_of p) × AreTokensOf found.1.now more) }
    ensures shorter { IfSome result (λ found. length found.1.now < length text.now) }
{
    let (first, after) = text.split_first()?;
    if is_between(*first) {
        return Some((None, after));
    }
    if let Span::Whole(len) = token_span(text, 0) {
        let (token, rest) = text.split_at(len);
        return Some((item_of(token), rest));
    }
    // The end of the text ends it.
    Some((item_of(text), &[]))
}
