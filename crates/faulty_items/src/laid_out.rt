//! Where a reading of data that `zone_rdata` lays out stops (RFC 1035 3.3, 5.1; RFC 3597 5).
ghost use Rattle.std.specs.Prelude.{◌≡◌, ◌≤◌, ℕ, IfOk, List, [], codes, drop, length, map, take};
ghost use Rattle.zone_name.specs.Common.{Labels};
ghost use Rattle.zone_rdata.specs.Field.{items_after, own_items};
ghost use Rattle.zone_rdata.specs.Item.{RawItem, raw};
ghost use Rattle.zone_rdata.specs.Layout.{IsLayout, fields_of};
ghost use Rattle.faulty_items.specs.FieldNames.{field_name};
ghost use Rattle.faulty_items.specs.LaidOutStop.{FieldsStop, LaidOutStops};
ghost use Rattle.faulty_items.specs.Machine.LaidOutReading.{AreOwn, JudgesItems};
ghost use Rattle.faulty_items.specs.Stop.{stop_of};

use crate::field_names::field_name;
use crate::generic::generic_stop;
use crate::spelling::spells;
use crate::stop::DataStop;
use std::alloc::{AllocError, Global};
use zone_name::Name;
use zone_rdata::laws::items::layouts_are_sound;
use zone_rdata::{Class, Field, Item, Kind, Layout, is_generic, layout_of};

/// How many of so many items that are left are a field's own.
fn own_count(field: Field, left: usize) -> usize
    ensures within { result ≤ left }
    ensures own { (items : List RawItem) → length items ≡ left → take result items ≡ own_items field items }
    ensures after { (items : List RawItem) → length items ≡ left → drop result items ≡ items_after field items }
{
    match field {
        Field::Strings => left,
        _ => left.min(1),
    }
}

/// What the own items of a field do.
enum OwnItems<'e> {
    /// They spell a value.
    Spell,
    /// They spell none, and a reading of them stops at this item, if at any.
    Stop(Option<Item<'e>>),
}

/// What the own items of a field do. `octets` is room.
fn judge<'e>(
    field: Field,
    own: &[Item<'e>],
    origin: &Name,
    octets: &mut Vec<u8>,
) -> Result<OwnItems<'e>, AllocError>
    requires { AreOwn field (map raw own.now) }
    ensures { IfOk result (JudgesItems origin.now field (map raw own.now)) }
{
    if own.is_empty() {
        return Ok(OwnItems::Stop(None));
    }
    for item in own {
        if !spells(field, *item, origin, octets)? {
            return Ok(OwnItems::Stop(Some(*item)));
        }
    }
    Ok(OwnItems::Spell)
}

/// Where a reading stops after the last field, by its name, where these items are left over.
fn stop_after<'e>(last: &'static str, left: &[Item<'e>]) -> DataStop<'e>
    ensures { (origin : Labels) (name_at : ℕ → List ℕ) (place : ℕ)
        → FieldsStop origin name_at place last.now [] (map raw left.now) (stop_of result) }
{
    match left.first() {
        Some(item) => DataStop {
            field: last,
            item: Some(*item),
        },
        None => DataStop {
            field: last,
            item: None,
        },
    }
}

/// Where a reading of items as the fields of a layout stops. `octets` is room.
fn fields_stop<'e>(
    layout: Layout,
    kind: u16,
    items: &[Item<'e>],
    origin: &Name,
    octets: &mut Vec<u8>,
) -> Result<DataStop<'e>, AllocError>
    requires { IsLayout (fields_of layout) }
    ensures { IfOk result (λ stop. FieldsStop origin.now (field_name kind) 0 (codes "data")
        (fields_of layout) (map raw items.now) (stop_of stop)) }
{
    let (mut place, mut taken, mut last) = (0, 0, "data");
    while let Some(field) = layout.field(place) {
        let next = taken + own_count(field, items.len() - taken);
        let name = field_name(kind, place);
        match judge(field, &items[taken..next], origin, octets)? {
            OwnItems::Spell => (place, taken, last) = (place + 1, next, name),
            OwnItems::Stop(item) => return Ok(DataStop { field: name, item }),
        }
    }
    Ok(stop_after(last, &items[taken..]))
}

/// Where a reading of the items of a record's data stops, as data of a class and type under an
/// origin (RFC 1035 5.1; RFC 3597 5): in presentation format at the first field that its items don't
/// state or at the first item after all fields, in the generic form at the length or at the first
/// item of its digits that is at fault. Of data with no fault it is the last field and no item.
///
/// # Errors
///
/// `AllocError`.
pub fn laid_out_stop<'e>(
    alloc: Global,
    class: Class,
    kind: Kind,
    items: &[Item<'e>],
    origin: &Name,
) -> Result<DataStop<'e>, AllocError>
    ensures { IfOk result (λ stop.
        LaidOutStops origin.now class kind (map raw items.now) (stop_of stop)) }
{
    layouts_are_sound();
    let mut octets = Vec::new(alloc);
    if is_generic(items) {
        return generic_stop(items, &mut octets);
    }
    match layout_of(class, kind) {
        Some(layout) => fields_stop(layout, kind.number(), items, origin, &mut octets),
        None => Ok(stop_after("data", items)),
    }
}
