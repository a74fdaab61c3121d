ghost use Rattle.std.specs.Prelude.{◌↔◌, ◌<◌, ◌≤◌, IsTrue, length, map, IfErr, OnOk};
ghost use Rattle.zone_rdata.specs.DataFault.{IsWordsFault};
ghost use Rattle.zone_rdata.specs.Fault.{IfFault};
ghost use Rattle.zone_rdata.specs.Item.{raw, IsGeneric};
ghost use Rattle.zone_rdata.specs.Layout.{fields_of};
ghost use Rattle.zone_rdata.specs.Machine.Appending.{AreSpelt};

use crate::cause::Cause;
use crate::fault::{Failing, Fault};
use crate::item::Item;
use crate::layout::Layout;
use crate::limits::LONGEST_DATA;
use crate::narrow_failing::NarrowFailing;
use zone_name::Name;

/// Whether the first item is the mark of the generic form, `\#` (RFC 3597 5).
pub fn is_generic(items: &[Item]) -> bool
    ensures { IsTrue result ↔ IsGeneric (map raw items.now) }
{
    matches!(items.first(), Some(Item::Bare([b'\\', b'#'])))
}

/// Reads the octets of the values that the items spell, field by field. They come in the place of
/// those of before.
#[tactic(auto, using(crate::proofs::Items::Values::words_from_left))]
pub(crate) fn read_words(
    layout: Layout,
    items: &[Item],
    origin: &Name,
    octets: &mut Vec<u8>,
) -> Result<(), NarrowFailing>
    ensures found { OnOk result
        (AreSpelt origin.now (fields_of layout) (map raw items.now) octets.new.items) }
    ensures short { OnOk result (length octets.new.items ≤ LONGEST_DATA) }
    ensures fault { IfErr result (IfFault
        (IsWordsFault origin.now (fields_of layout) (map raw items.now))) }
{
    octets.clear();
    let mut place = 0;
    for field in layout.fields() {
        place += field.push_items(&items[place..], origin, octets)?;
    }
    if place < items.len() {
        return Err(NarrowFailing::of(Cause::BadRdata));
    }
    if octets.len() > LONGEST_DATA {
        return Err(NarrowFailing::of(Cause::RdataTooLong));
    }
    Ok(())
}
