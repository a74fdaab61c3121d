ghost use Rattle.std.specs.Prelude.{◌<◌, length, map, IfErr, IfOk, OnOk};
ghost use Rattle.std.specs.Cow.{cow_slice_items};
ghost use Rattle.type_data.specs.DataItem.{raw_item};
ghost use Rattle.type_data.specs.Fault.{IfFault, NothingStated};
ghost use Rattle.type_data.specs.Kinds.Joined.{FailsAs, Joined};

use crate::data_item::DataItem;
use crate::fault::{WordsFailing, WordsFault};
use std::alloc::Global;
use std::borrow::CowSlice;
use zone_rdata::Item;

/// The text of bare items, one after the other. That of a single item isn't copied.
///
/// # Errors
///
/// `NothingLeft` where there is no item, `own` where one of them is quoted, and `OutOfMemory`
/// where memory is refused.
pub(super) fn joined_text<'e>(
    alloc: Global,
    items: &[DataItem<'e>],
    own: WordsFault,
) -> Result<CowSlice<'e, u8>, WordsFailing>
    ensures some { OnOk result (0 < length items.now) }
    ensures joined { IfOk result (λ text. Joined (map raw_item items.now) (cow_slice_items text)) }
    ensures fault { IfErr result (IfFault (FailsAs own Joined (map raw_item items.now))) }
{
    match items {
        [] => Err(WordsFailing::Fault(WordsFault::NothingLeft)),
        [single] => match single.item {
            Item::Bare(text) => Ok(CowSlice::Borrowed(text)),
            Item::Quoted(_) => Err(WordsFailing::Fault(own)),
        },
        _ => Ok(CowSlice::Owned(joined(alloc, items, own)?)),
    }
}

/// The texts of items, one after the other.
fn joined(alloc: Global, items: &[DataItem], own: WordsFault) -> Result<Vec<u8>, WordsFailing>
    ensures joined { IfOk result (λ text. Joined (map raw_item items.now) text.items) }
    ensures fault { IfErr result (IfFault (NothingStated own (Joined (map raw_item items.now)))) }
{
    let mut text = Vec::new(alloc);
    for item in items {
        let Item::Bare(piece) = item.item else {
            return Err(WordsFailing::Fault(own));
        };
        text.extend_from_slice(piece)?;
    }
    Ok(text)
}
