//! Where a reading of data of a further type in presentation format stops (RFC 1035 5.1).
ghost use Rattle.std.specs.Prelude.{◌≡◌, ◌≤◌, ◌∷◌, [], IfOk, List, codes, drop, length, map, option_map, take};
ghost use Rattle.zone_rdata.specs.Item.{raw};
ghost use Rattle.type_data.specs.DataItem.{TouchingItem, given};
ghost use Rattle.zone_name.specs.Common.{Labels};
ghost use Rattle.type_data.specs.Field.{own_count, takes_one};
ghost use Rattle.type_data.specs.Table.{NamedField, field_of, fields_in, of_code};
ghost use Rattle.faulty_items.specs.FurtherStop.{FurtherFieldsStop};
ghost use Rattle.faulty_items.specs.Coded.{coded_stop};
ghost use Rattle.faulty_items.specs.Machine.FurtherReading.{IsStopIn};

use crate::fields::{count_of, field_at};
use crate::going_on::{Room, stop_in};
use std::alloc::{AllocError, Global};
use type_data::{DataFailing, DataItem, Field, FieldKind, Fields, WordsFault, read_data};
use zone_name::CasedName;
use zone_rdata::Item;

/// Where a reading of data of a further type stops.
#[derive(Clone, Copy, Debug)]
pub struct FurtherStop<'e> {
    /// The field by its name in the RFC of the type, in lower case.
    pub field: &'static str,
    /// What is wrong with it.
    pub fault: WordsFault,
    /// The item at fault. `None`: an item is missing, or the data as a whole is too long.
    pub item: Option<Item<'e>>,
}

/// Whether the field has one item at most, and not all that are left.
fn takes_one(kind: FieldKind) -> bool
    ensures { result ≡ takes_one kind }
{
    matches!(
        kind,
        FieldKind::Bare(_)
            | FieldKind::OneString
            | FieldKind::PerhapsOneString
            | FieldKind::Value
            | FieldKind::QuotedValue
    )
}

/// How many of so many items that are left are the field's own.
fn own_count(field: &'static [Field], left: usize) -> usize
    ensures own { (f : NamedField) → map field_of field.now ≡ f ∷ []
        → result ≡ own_count f.kind left }
    ensures within { result ≤ left }
{
    match field {
        [one] if takes_one(one.1) => left.min(1),
        _ => left,
    }
}

/// The name of a field.
fn name_of(field: &'static [Field]) -> &'static str
    ensures { (f : NamedField) → map field_of field.now ≡ f ∷ [] → result.now ≡ f.name }
{
    match field {
        [one] => one.0,
        _ => "data",
    }
}

/// The item alone.
fn item_in(found: Option<DataItem<'_>>) -> Option<Item<'_>>
    ensures { option_map raw result
        ≡ option_map (λ (t : TouchingItem). t.item) (option_map given found.entry) }
{
    match found {
        Some(found) => Some(found.item),
        None => None,
    }
}

/// Where a reading stops after the last field, by its name, where these items are left over.
fn stop_after<'e>(last: &'static str, left: &[DataItem<'e>]) -> FurtherStop<'e>
    ensures { (origin : Labels)
        → FurtherFieldsStop origin last.now [] (map given left.now) (coded_stop result) }
{
    match left.first() {
        Some(left) => FurtherStop {
            field: last,
            fault: WordsFault::ItemsLeftOver,
            item: Some(left.item),
        },
        None => FurtherStop {
            field: last,
            fault: WordsFault::TooLong,
            item: None,
        },
    }
}

/// Where a reading of a field's own items stops, of which this is told. `room` is room.
fn stop_of<'e>(
    field: &'static [Field],
    own: &[DataItem<'e>],
    name: &'static str,
    fault: WordsFault,
    origin: &CasedName,
    room: &mut Room<'e>,
) -> Result<FurtherStop<'e>, AllocError>
    ensures { (f : NamedField) → map field_of field.now ≡ f ∷ []
        → IfOk result (IsStopIn origin.now f own.now name.now fault) }
{
    let found = stop_in(field, own, origin, room)?;
    Ok(FurtherStop {
        field: name,
        fault,
        item: item_in(found),
    })
}

/// Where a reading of the items of a further type's data stops, in presentation format and under an
/// origin: at the first field of which its own items state no data, or at the first item after all
/// fields. Where each field has its data it is the last field, and the data as a whole is too long.
///
/// # Errors
///
/// `AllocError`.
pub fn further_stop<'e>(
    alloc: Global,
    fields: &Fields,
    items: &[DataItem<'e>],
    origin: &CasedName,
) -> Result<FurtherStop<'e>, AllocError>
    ensures { IfOk result (λ stop. FurtherFieldsStop origin.now (codes "data")
        (fields_in (of_code fields.now) (map given items.now)) (map given items.now)
        (coded_stop stop)) }
{
    let mut room = Room {
        items: Vec::new(alloc),
        octets: Vec::new(alloc),
    };
    let (mut taken, mut last) = (0, "data");
    for place in 0..count_of(fields) {
        let field = field_at(fields, items, place);
        let next = taken + own_count(field, items.len() - taken);
        let own = &items[taken..next];
        match read_data(&Fields::Same(field), own, origin, &mut room.octets) {
            Ok(()) => (taken, last) = (next, name_of(field)),
            Err(DataFailing::Fault { field: name, fault }) => {
                return stop_of(field, own, name, fault, origin, &mut room);
            }
            Err(DataFailing::OutOfMemory) => return Err(AllocError),
        }
    }
    Ok(stop_after(last, &items[taken..]))
}
