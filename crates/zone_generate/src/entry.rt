//! What the items of a `$GENERATE` entry state.
ghost use Rattle.std.specs.Prelude.{◌≡◌, ◌++◌, IfNone, IfSome, IfOk, None, OnOk, Some, map};
ghost use Rattle.std.specs.List.{flat_map};
ghost use Rattle.zone_rdata.specs.Item.{raw};
ghost use Rattle.zone_rdata.specs.Strings.{item_text};
ghost use Rattle.zone_generate.specs.Entry.{begins_with_quote, stated_in, template_in, unquoted};
ghost use Rattle.zone_generate.specs.Machine.{item_and_blank, stated_of};

use std::alloc::{AllocError, Global};
use zone_rdata::Item;
use zone_text::{record_parts, split_bare};

/// The parts of a `$GENERATE` entry, as they are written.
#[derive(Clone, Copy)]
pub(crate) struct Parts<'i, 't> {
    pub(crate) range: &'t [u8],
    pub(crate) owner: &'t [u8],
    /// Perhaps a TTL and a class.
    pub(crate) words: &'i [Item<'t>],
    pub(crate) kind: &'t [u8],
    pub(crate) rdata: Item<'t>,
}

/// The parts that the items after the word `$GENERATE` are. `None`: they are other items.
pub(crate) fn parts_of<'i, 't>(items: &'i [Item<'t>]) -> Option<Parts<'i, 't>>
    ensures none { IfNone result (stated_in (map raw items.now) ≡ None) }
    ensures some { IfSome result (λ parts. stated_in (map raw items.now) ≡ Some (stated_of parts)) }
{
    let (range, rest) = split_bare(items)?;
    let (owner, rest) = split_bare(rest)?;
    let from_type = record_parts(rest).rest;
    let (kind, data) = split_bare(from_type)?;
    if data.len() != 1 {
        return None;
    }
    Some(Parts {
        range,
        owner,
        words: &rest[..rest.len() - from_type.len()],
        kind,
        rdata: data[0],
    })
}

/// Whether the first octet is a quote.
fn begins_with_quote(text: &[u8]) -> bool
    ensures { result ≡ begins_with_quote text.now }
{
    matches!(text, [b'"', ..])
}

/// Appends what is within quotes, each `\"` as `"`.
fn push_unquoted(text: &[u8], out: &mut Vec<u8>) -> Result<(), AllocError>
    ensures { OnOk result (out.new.items ≡ out.old.items ++ unquoted text.now) }
{
    let mut rest = text;
    while let Some((first, after)) = rest.split_first() {
        rest = after;
        if *first == b'\\' && begins_with_quote(after) {
            continue;
        }
        out.push(*first)?;
    }
    Ok(())
}

/// The template that an item of data is.
pub(crate) fn template_in(alloc: Global, item: Item<'_>) -> Result<Vec<u8>, AllocError>
    ensures { IfOk result (λ template. template.items ≡ template_in (raw item.entry)) }
{
    let mut template = Vec::new(alloc);
    match item {
        Item::Bare(text) => template.extend_from_slice(text)?,
        Item::Quoted(text) => push_unquoted(text, &mut template)?,
    }
    Ok(template)
}

/// The octets of an item, without quotes.
fn text_of<'t>(item: Item<'t>) -> &'t [u8]
    ensures { result.now ≡ item_text (raw item.entry) }
{
    match item {
        Item::Bare(text) => text,
        Item::Quoted(text) => text,
    }
}

/// The words before a type, each with a blank after it, and the type.
pub(crate) fn joined(alloc: Global, words: &[Item<'_>], kind: &[u8]) -> Result<Vec<u8>, AllocError>
    ensures { IfOk result (λ joined. joined.items
        ≡ flat_map item_and_blank (map raw words.now) ++ kind.now) }
{
    let mut joined = Vec::new(alloc);
    for word in words {
        joined.extend_from_slice(text_of(*word))?;
        joined.push(b' ')?;
    }
    joined.extend_from_slice(kind)?;
    Ok(joined)
}
