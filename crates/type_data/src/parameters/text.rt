ghost use Rattle.std.specs.Prelude.{◌≡◌, ◌<◌, ◌≤◌, ◌∷◌, List, length, map, drop, true, IfSome, IfNone};
ghost use Rattle.zone_rdata.specs.Item.{quoted};
ghost use Rattle.type_data.specs.DataItem.{given, TouchingItem};
ghost use Rattle.type_data.specs.Parameters.Machine.Parts.{text_of};
ghost use Rattle.type_data.specs.Parameters.Text as texts;

use crate::cut::cut_at_first;
use crate::data_item::DataItem;
use zone_rdata::Item;

/// A key and its value as they are written (RFC 9460 2.1); a value that is left out is an empty
/// one.
#[derive(Clone, Copy, Debug)]
pub(super) struct ParameterText<'e> {
    /// What stands before the first `=`.
    pub key: &'e [u8],
    /// What stands after it, without the quotes of a quoted one.
    pub value: &'e [u8],
}

/// The text of a first item in quotes that touches what stands before it.
fn touching_quote<'e>(items: &[DataItem<'e>]) -> Option<&'e [u8]>
    ensures found { IfSome result (λ inside. map given items.now
        ≡ texts.placed (quoted inside.now) true ∷ map given (drop 1 items.now)) }
    ensures some { IfSome result (λ inside. 0 < length items.now) }
    ensures none { IfNone result (texts.BeginWithTouchingQuote (map given items.now) → ⊥) }
{
    let (first, _) = items.split_first()?;
    match first.item {
        Item::Quoted(inside) if first.touches => Some(inside),
        _ => None,
    }
}

/// The parameter that the items begin with, and how many items it takes. `None`: no item is left,
/// or it is in quotes and belongs to no `key=`.
pub(super) fn first_parameter<'e>(items: &[DataItem<'e>]) -> Option<(ParameterText<'e>, usize)>
    ensures found { IfSome result (λ first. texts.BeginWith (map given items.now)
        (text_of first.0) (map given (drop first.1 items.now))) }
    ensures within { IfSome result (λ first. (0 < first.1) × (first.1 ≤ length items.now)) }
    ensures none { IfNone result ((text : texts.ParameterText) (rest : List TouchingItem)
        → texts.BeginWith (map given items.now) text rest → ⊥) }
{
    let (first, rest) = items.split_first()?;
    let Item::Bare(text) = first.item else {
        return None;
    };
    let Some((key, value)) = cut_at_first(text, b'=') else {
        return Some((
            ParameterText {
                key: text,
                value: b"",
            },
            1,
        ));
    };
    if !value.is_empty() {
        return Some((ParameterText { key, value }, 1));
    }
    match touching_quote(rest) {
        Some(quoted) => Some((ParameterText { key, value: quoted }, 2)),
        None => Some((ParameterText { key, value }, 1)),
    }
}
