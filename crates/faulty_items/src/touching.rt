//! The items of an entry, each with whether it directly follows another (RFC 1035 5.1).
ghost use Rattle.std.specs.Prelude.{◌≡◌, ◌≤◌, IfOk, List, MatchOption, false, length, map};
ghost use Rattle.zone_text.specs.Tokens.{Cuts, Token};
ghost use Rattle.type_data.specs.DataItem.{given};
ghost use Rattle.zone_words.specs.Entry.{most_items, touching_items};

use std::alloc::{AllocError, Global};
use type_data::DataItem;
use zone_text::{MOST_ITEMS, first_token};

/// The items of an entry. `None`: they are 65,552 or more, which no entry has that states anything.
#[tactic(auto, using(crate::proofs::TouchingItems::touched))]
pub(crate) fn touching_items<'e>(
    alloc: Global,
    entry: &'e [u8],
) -> Result<Option<Vec<DataItem<'e>>>, AllocError>
    ensures { (tokens : List Token) → Cuts entry.entry.now tokens → IfOk result (λ found.
        MatchOption found (most_items ≤ length (touching_items false tokens))
        (λ items. map given items.items ≡ touching_items false tokens)) }
{
    let mut found = Vec::new(alloc);
    let (mut rest, mut touches) = (entry, false);
    while let Some((item, after)) = first_token(rest) {
        if let Some(item) = item {
            if found.len() + 1 >= MOST_ITEMS {
                return Ok(None);
            }
            found.push(DataItem { item, touches })?;
        }
        touches = item.is_some();
        rest = after;
    }
    Ok(Some(found))
}
