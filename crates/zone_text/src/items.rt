ghost use Rattle.std.specs.Prelude.{◌≡◌, ◌≤◌, map, length, drop, not, take, false, IsTrue, OnOk};
ghost use Rattle.std.specs.List.{All, prefix_len};
ghost use Rattle.zone_rdata.specs.Item.{raw};
ghost use Rattle.zone_text.specs.Tokens.{is_blank};
ghost use Rattle.zone_text.specs.Machine.ItemLengths.{EndsAt, stops_bare, stops_within};
ghost use Rattle.zone_text.specs.Machine.Kept.{IsShort, Keeps};

use crate::until::len_until;
use std::alloc::AllocError;
use zone_name::laws::are_octets;
use zone_rdata::Item;

/// Whether the octet parts items: a space, a tab or a carriage return.
pub fn is_blank(octet: u8) -> bool
    ensures { result ≡ is_blank octet }
{
    matches!(octet, b' ' | b'\t' | b'\r')
}

/// The two kinds of items.
#[derive(Clone, Copy)]
pub(crate) enum Extent {
    /// Up to an octet that ends a bare item.
    Bare,
    /// Up to the closing quote.
    Quoted,
}

/// The number of octets before the first that ends the item or is a backslash.
pub(crate) fn plain_len(text: &[u8], extent: Extent) -> usize
    ensures within { result ≤ length text.now }
    ensures plain { All (λ c. stops_within extent c ≡ false) (take result text.now) }
    ensures stops { EndsAt (stops_within extent) (drop result text.now) }
{
    match extent {
        Extent::Bare => plain_bare_len(text),
        Extent::Quoted => len_until(text, b'"', b'\\'),
    }
}

/// Whether the octet ends a bare item where no backslash stands before it, or is a backslash.
fn stops_bare(octet: u8) -> bool
    ensures { result ≡ stops_bare octet }
{
    is_blank(octet) || matches!(octet, b'\n' | b'"' | b'(' | b')' | b';' | b'\\')
}

/// As `plain_len`, of a bare item.
pub(crate) fn plain_bare_len(text: &[u8]) -> usize
    ensures len { result ≡ prefix_len (λ c. not (stops_bare c)) text.now }
    ensures within { result ≤ length text.now }
{
    text.iter().take_while(|octet| !stops_bare(**octet)).count()
}

/// More items than an entry has that states anything: an owner, a TTL, a class, a type, and data,
/// of which all items but a few state an octet or more of 65,535.
pub const MOST_ITEMS: usize = 65_552;

/// Whether an item's text is no longer than a string may be (RFC 1035 3.3).
// Not inlined: only an entry of very many items asks, and each item of all would pay for it.
#[inline(never)]
fn is_short(item: Item) -> bool
    ensures { IsTrue result → IsShort (raw item.entry) }
{
    match item {
        Item::Bare(text) | Item::Quoted(text) => {
            are_octets(text);
            text.len() <= 255
        }
    }
}

/// Puts an item of an entry after those before it. After very many items a short one is left out:
/// the entry has a fault, and it doesn't hang on this item. So an entry of many items takes no more
/// memory than its octets.
pub(crate) fn keep<'t>(item: Item<'t>, items: &mut Vec<Item<'t>>) -> Result<(), AllocError>
    ensures { OnOk result
        (Keeps (raw item.entry) (map raw items.old.items) (map raw items.new.items)) }
{
    if items.len() < MOST_ITEMS || !is_short(item) {
        items.push(item)?;
    }
    Ok(())
}
