//! How far a token goes that more octets than one may belong to: an item or a comment (RFC 1035
//! 5.1).
ghost use Rattle.std.specs.Prelude.{◌≡◌, ◌∷◌, ◌-◌, option_map, option_to_list};
ghost use Rattle.zone_name.specs.Spelling.{IsBadEscape, is_digit};
ghost use Rattle.zone_rdata.specs.Item.{raw};
ghost use Rattle.zone_rdata.specs.Strings.{is_quote};
ghost use Rattle.zone_text.specs.Machine.ItemLengths.{ends_within};
ghost use Rattle.zone_text.specs.Machine.Spans.{AreUnits, IsLostBy, IsSeen, IsSpan, IsSeenComment, IsTokenSpan, ItemIs};

use crate::items::{Extent, plain_len};
use crate::until::len_until;
use zone_name::escape_at;
use zone_rdata::Item;

/// How far an item or a comment goes.
#[derive(Clone, Copy, Drop)]
pub(crate) enum Span {
    /// So many octets, and what follows ends it.
    Whole(usize),
    /// It isn't ended; so many of its octets are whole units.
    Open(usize),
    /// A backslash begins no escape, whatever follows these octets.
    Lost(usize),
}

/// How many of the octets after a backslash that begins no escape show this. `None`: they end where
/// an escape may go on.
fn lost_len(after: &[u8]) -> Option<usize>
    ensures { IsBadEscape (92 ∷ after.now) → IsLostBy after.now result }
{
    match after {
        [first, ..] if !first.is_ascii_digit() => Some(1),
        [_, second, ..] if !second.is_ascii_digit() => Some(2),
        [_, _, _, ..] => Some(3),
        _ => None,
    }
}

/// How far an item goes, without its quotes, of which so many octets are known to be whole units.
// Not inlined: few items have a backslash or quotes.
#[inline(never)]
#[tactic(auto, using(crate::proofs::Tokens::WrittenItems::escape_more))]
fn item_span(text: &[u8], known: usize, extent: Extent) -> Span
    requires { AreUnits (ends_within extent) text.now known }
    ensures { IsSpan (ends_within extent) text.now result }
{
    let (_, ahead) = text.split_at(known);
    let mut len = known + plain_len(ahead, extent);
    while len < text.len() {
        if text[len] != b'\\' {
            return Span::Whole(len);
        }
        let (_, escape) = text.split_at(len + 1);
        let Some((_, rest)) = escape_at(escape) else {
            return match lost_len(escape) {
                Some(more) => Span::Lost(len + 1 + more),
                None => Span::Open(len),
            };
        };
        len = text.len() - rest.len() + plain_len(rest, extent);
    }
    Span::Open(len)
}

/// How far a quoted item goes, with its quotes, of which so many octets were seen.
fn quoted_span(inside: &[u8], seen: usize) -> Span
    requires { AreUnits is_quote inside.now (seen - 1) }
    ensures { IsTokenSpan (34 ∷ inside.now) result }
{
    match item_span(inside, seen.saturating_sub(1), Extent::Quoted) {
        Span::Whole(len) => Span::Whole(len + 2),
        Span::Open(len) => Span::Open(len + 1),
        Span::Lost(len) => Span::Lost(len + 1),
    }
}

/// How far a comment goes, with its semicolon, of which so many octets were seen.
fn comment_span(note: &[u8], seen: usize) -> Span
    requires { IsSeenComment note.now (seen - 1) }
    ensures { IsTokenSpan (59 ∷ note.now) result }
{
    let known = seen.saturating_sub(1);
    let (_, ahead) = note.split_at(known);
    let len = known + len_until(ahead, b'\n', b'\n');
    if len < note.len() {
        Span::Whole(len + 1)
    } else {
        Span::Open(len + 1)
    }
}

/// How far the item or comment at the front goes, of which so many octets were seen.
#[inline(never)]
pub(crate) fn token_span(text: &[u8], seen: usize) -> Span
    requires { IsSeen text.now seen }
    ensures { IsTokenSpan text.now result }
{
    let Some((first, rest)) = text.split_first() else {
        return Span::Open(0);
    };
    if *first == b';' {
        comment_span(rest, seen)
    } else if *first == b'"' {
        quoted_span(rest, seen)
    } else {
        item_span(text, seen, Extent::Bare)
    }
}

/// The item that a whole token is. `None`: it is a comment.
pub(crate) fn item_of(token: &[u8]) -> Option<Item<'_>>
    ensures { ItemIs token.now (option_to_list (option_map raw result)) }
{
    match token.split_first() {
        Some((b';', _)) => None,
        Some((b'"', ended)) => {
            let (inside, _) = ended.split_at(ended.len().saturating_sub(1));
            Some(Item::Quoted(inside))
        }
        _ => Some(Item::Bare(token)),
    }
}
