//! One walk over an entry, which may stop where octets end and go on with more of them (RFC 1035
//! 5.1).
ghost use Rattle.std.specs.Prelude.{◌≡◌, ◌≢◌, ◌∷◌, ◌-◌, ◌<◌, ◌≤◌, ℕ, List, [], false, length, map, true, drop, IfOk, OnOk};
ghost use Rattle.zone_rdata.specs.Item.{raw};
ghost use Rattle.zone_text.specs.Machine.ItemLengths.{stops_bare};
ghost use Rattle.zone_text.specs.Machine.Kept.{KeepsBare};
ghost use Rattle.zone_text.specs.Machine.Spans.{BeginsToken};
ghost use Rattle.zone_text.specs.Machine.Stops.{Tells};
ghost use Rattle.zone_text.specs.Machine.Walk.{IsBegun, IsStep, IsWalked, KeepsToken, StandsAt, StandsOpen, TellsAfter};
ghost use Rattle.zone_text.specs.OpenEntry.{EndIs};
ghost use Rattle.zone_text.specs.Tokens.{is_blank};

use crate::feeds::line_feeds;
use crate::items::keep;
use crate::stops::Stops;
use crate::token::{Span, item_of, token_span};
use std::alloc::{AllocError, Global};
use zone_rdata::{Fault, Item};

/// Where octets leave the entry that they begin. The default is its beginning.
#[derive(Clone, Copy, Default, Drop)]
pub(crate) struct At {
    /// The octets of the tokens that are whole.
    pub(crate) start: usize,
    /// These, and the octets of the open token that are whole units.
    pub(crate) seen: usize,
    /// The parentheses that are open.
    pub(crate) depth: u64,
    /// The line feeds of the tokens that are whole.
    pub(crate) feeds: usize,
}

/// What a walk reaches.
#[derive(Clone, Copy, Drop)]
pub(crate) enum Reached {
    /// The line feed that ends the entry: so many octets with it, and line feeds.
    Ends(usize, usize),
    /// The end of the octets.
    Open(At),
    /// A backslash that begins no escape, as so many octets show, whatever follows them.
    LostEscape(usize),
    /// A `)` that closes nothing, the last of so many octets.
    ClosesNothing(usize),
}

/// A walk between two tokens.
#[derive(Clone, Copy, Drop)]
struct Between<'t> {
    /// The octets after the tokens that were passed.
    rest: &'t [u8],
    /// What is known of these octets.
    stops: Stops,
    /// The parentheses that are open.
    depth: u64,
    /// The line feeds of the tokens.
    feeds: usize,
}

/// What a walk comes to by a token.
#[derive(Clone, Copy, Drop)]
enum Step<'t> {
    /// The octets after it.
    Goes(Between<'t>),
    /// What the walk reaches, and what is known of the octets after the entry, where it ends.
    Reaches(Reached, Stops),
}

/// Whether an octet that stops a bare item is a blank.
#[inline(always)]
fn is_blank_stop(stop: u8) -> bool
    requires { stops_bare stop ≡ true }
    ensures { result ≡ is_blank stop }
{
    // Of what stops a bare item, the others up to a space are line feeds.
    stop <= b' ' && stop != b'\n'
}

/// Puts a bare item after those before it, where there are octets of it and items are kept.
#[inline(always)]
fn keep_bare<'t>(text: &'t [u8], keeps: bool, items: &mut Vec<Item<'t>>) -> Result<(), AllocError>
    ensures { OnOk result (keeps ≡ true
        → KeepsBare text.now (map raw items.old.items) (map raw items.new.items)) }
{
    if keeps && !text.is_empty() {
        keep(Item::Bare(text), items)?;
    }
    Ok(())
}

/// Puts the item that a token is after those before it, where it is one and items are kept, and
/// gives the number of its line feeds.
#[inline(never)]
fn keep_token<'t>(
    token: &'t [u8],
    keeps: bool,
    items: &mut Vec<Item<'t>>,
) -> Result<usize, AllocError>
    ensures kept { IfOk result (λ feeds. KeepsToken token.now feeds keeps
        (map raw items.old.items) (map raw items.new.items)) }
    ensures few { IfOk result (λ feeds. feeds ≤ length token.now) }
{
    let Some(item) = item_of(token) else {
        return Ok(0);
    };
    if keeps {
        keep(item, items)?;
    }
    Ok(line_feeds(token))
}

/// Passes over the item or comment at the front of `token`, and puts its item after those before it,
/// where items are kept. `after` is the walk past the octet that stopped a bare item there.
#[inline(always)]
fn pass_token<'t>(
    octets: &'t [u8],
    token: &'t [u8],
    after: Between<'t>,
    keeps: bool,
    items: &mut Vec<Item<'t>>,
) -> Result<Step<'t>, AllocError>
    requires begins { BeginsToken token.now }
    requires begun { IsBegun octets.now token.now after keeps (map raw items.old.items) }
    ensures { IfOk result (IsStep octets.now token.now keeps (map raw items.new.items)) }
{
    match token_span(token, 0) {
        Span::Whole(len) => {
            let (text, rest) = token.split_at(len);
            Ok(Step::Goes(Between {
                rest,
                stops: after.stops.past(after.rest, rest),
                depth: after.depth,
                feeds: after.feeds + keep_token(text, keeps, items)?,
            }))
        }
        Span::Open(seen) => {
            let start = octets.len() - token.len();
            let at = At {
                start,
                seen: start + seen,
                depth: after.depth,
                feeds: after.feeds,
            };
            Ok(Step::Reaches(Reached::Open(at), after.stops))
        }
        Span::Lost(len) => {
            let lost = Reached::LostEscape(octets.len() - token.len() + len);
            Ok(Step::Reaches(lost, after.stops))
        }
    }
}

/// Passes over the token that begins with an octet that stops a bare item, if it is no blank. `after`
/// is the walk past this octet.
#[inline(always)]
fn pass_mark<'t>(
    octets: &'t [u8],
    token: &'t [u8],
    stop: u8,
    after: Between<'t>,
    keeps: bool,
    items: &mut Vec<Item<'t>>,
) -> Result<Step<'t>, AllocError>
    requires stops { stops_bare stop ≡ true }
    requires other { stop ≢ 92 }
    requires marks { is_blank stop ≡ false }
    requires first { token.now ≡ stop ∷ after.rest.now }
    requires begun { IsBegun octets.now token.now after keeps (map raw items.old.items) }
    ensures { IfOk result (IsStep octets.now token.now keeps (map raw items.new.items)) }
{
    let passed = octets.len() - after.rest.len();
    match stop {
        b'\n' if after.depth == 0 => {
            Ok(Step::Reaches(Reached::Ends(passed, after.feeds + 1), after.stops))
        }
        b'\n' => Ok(Step::Goes(Between {
            feeds: after.feeds + 1,
            ..after
        })),
        b'(' => Ok(Step::Goes(Between {
            depth: after.depth + 1,
            ..after
        })),
        b')' if after.depth == 0 => Ok(Step::Reaches(Reached::ClosesNothing(passed), after.stops)),
        b')' => Ok(Step::Goes(Between {
            depth: after.depth - 1,
            ..after
        })),
        _ => pass_token(octets, token, after, keeps, items),
    }
}

/// Walks on from where fewer octets left the entry, and puts the items after those before them
/// where they are kept. What is known of the octets ahead becomes what is known of those after the
/// entry, where it ends.
#[inline(always)]
fn walk_on<'t>(
    octets: &'t [u8],
    from: At,
    known: &mut Stops,
    keeps: bool,
    items: &mut Vec<Item<'t>>,
) -> Result<Reached, AllocError>
    requires stands { StandsAt octets.now from keeps (map raw items.old.items) }
    requires known { Tells known.old (drop from.start octets.now) }
    ensures walked { IfOk result
        (λ reached. IsWalked octets.now keeps (map raw items.new.items) reached) }
    ensures known { IfOk result (λ reached. TellsAfter octets.now reached known.new) }
{
    let (_, rest) = octets.split_at(from.start);
    let mut walk = Between {
        rest,
        stops: *known,
        depth: from.depth,
        feeds: from.feeds,
    };
    loop {
        let (len, stops) = walk.stops.bare_len(walk.rest);
        let (bare, stopped) = walk.rest.split_at(len);
        let Some((stop, rest)) = stopped.split_first() else {
            return Ok(Reached::Open(At {
                start: octets.len() - walk.rest.len(),
                seen: octets.len(),
                depth: walk.depth,
                feeds: walk.feeds,
            }));
        };
        let after = Between {
            rest,
            stops,
            ..walk
        };
        // Most items stop so.
        if is_blank_stop(*stop) {
            keep_bare(bare, keeps, items)?;
            walk = after;
            continue;
        }
        let step = if *stop == b'\\' {
            pass_token(octets, walk.rest, after, keeps, items)?
        } else {
            keep_bare(bare, keeps, items)?;
            pass_mark(octets, stopped, *stop, after, keeps, items)?
        };
        match step {
            Step::Goes(next) => walk = next,
            Step::Reaches(reached, stops) => {
                *known = stops;
                return Ok(reached);
            }
        }
    }
}

/// Walks over the entry at the front of octets, and puts its items in place of what `items` held.
/// What is known of the octets becomes what is known of those after the entry, where it ends.
///
/// # Errors
///
/// `AllocError`. `items` holds nothing that is used again.
#[inline(always)]
pub(crate) fn walk<'t>(
    octets: &'t [u8],
    known: &mut Stops,
    items: &mut Vec<Item<'t>>,
) -> Result<Reached, AllocError>
    requires { Tells known.old octets.now }
    ensures walked { IfOk result
        (λ reached. IsWalked octets.now true (map raw items.new.items) reached) }
    ensures known { IfOk result (λ reached. TellsAfter octets.now reached known.new) }
{
    items.clear();
    walk_on(octets, At::default(), known, true, items)
}

/// Walks on over the octets of an entry from where fewer of them left it. No items are kept. Of the
/// token that was open there no octet is looked at again that was seen, until it is whole.
#[inline(never)]
pub(crate) fn walk_more(alloc: Global, octets: &[u8], at: At) -> Result<Reached, AllocError>
    requires { StandsAt octets.now at false [] }
    ensures { IfOk result (λ reached. IsWalked octets.now false [] reached) }
{
    let (_, rest) = octets.split_at(at.start);
    match token_span(rest, at.seen - at.start) {
        Span::Open(seen) => Ok(Reached::Open(At {
            seen: at.start + seen,
            ..at
        })),
        Span::Lost(len) => Ok(Reached::LostEscape(at.start + len)),
        Span::Whole(_) => {
            let mut known = Stops::unseen(rest);
            walk_on(octets, at, &mut known, false, &mut Vec::new(alloc))
        }
    }
}

/// Whether the first octet is a quote.
fn begins_with_quote(octets: &[u8]) -> bool
    ensures yes { result ≡ true → (after : List ℕ) × (octets.now ≡ 34 ∷ after) }
    ensures no { result ≡ false → (after : List ℕ) → octets.now ≢ 34 ∷ after }
{
    match octets.split_first() {
        Some((first, _)) => *first == b'"',
        None => false,
    }
}

/// What is wrong with an entry where the input ends after these octets, which a walk left open.
/// `None`: they are a whole entry, or there are none.
pub(crate) fn end_fault(octets: &[u8], at: At) -> Option<Fault>
    requires { StandsOpen octets.now at false [] }
    ensures { EndIs octets.now result }
{
    let (_, rest) = octets.split_at(at.start);
    if at.seen - at.start < rest.len() {
        return Some(Fault::BadEscape);
    }
    if begins_with_quote(rest) {
        return Some(Fault::UnclosedQuote);
    }
    if at.depth > 0 {
        return Some(Fault::UnbalancedParenthesis);
    }
    None
}
