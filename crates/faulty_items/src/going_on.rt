//! Whether items of a field can go on to data of it.
ghost use Rattle.std.specs.Prelude.{◌≡◌, ◌∷◌, ◌++◌, [], Ok, map, true, false, option_map, IfOk};
ghost use Rattle.type_data.specs.DataItem.{given};
ghost use Rattle.type_data.specs.Table.{NamedField, field_of};
ghost use Rattle.faulty_items.specs.FurtherStop.{AreSoFar, CanGoOn, IsOfWhatIsMissing, continuations};
ghost use Rattle.faulty_items.specs.StopsAt.{StopsAt};

use std::alloc::AllocError;
use type_data::{DataFailing, DataItem, Field, FieldKind, Fields, WordsFault, read_data};
use zone_name::CasedName;
use zone_rdata::Item;

/// Room in which data is read.
#[derive(Drop)]
pub(crate) struct Room<'e> {
    /// Items of a field and what may come after them.
    pub(crate) items: Vec<DataItem<'e>>,
    /// The octets that items state.
    pub(crate) octets: Vec<u8>,
}

/// What may come after items of any field: nothing.
#[rattlefmt::skip]
static AFTER_ANY: &[&[DataItem<'static>]] = &[&[]];

/// What may come after hexadecimal digits: the second digit of a pair (RFC 4648 8).
#[rattlefmt::skip]
static AFTER_HEX: &[&[DataItem<'static>]] = &[
    &[],
    &[DataItem { item: Item::Bare(b"0"), touches: false }],
];

/// What may come after base64: the rest of a group of four (RFC 4648 4).
#[rattlefmt::skip]
static AFTER_BASE64: &[&[DataItem<'static>]] = &[
    &[],
    &[DataItem { item: Item::Bare(b"A"), touches: false }],
    &[DataItem { item: Item::Bare(b"AA"), touches: false }],
    &[DataItem { item: Item::Bare(b"AAA"), touches: false }],
    &[DataItem { item: Item::Bare(b"="), touches: false }],
];

/// What may come after a part of a location: the rest of it (RFC 1876 3).
#[rattlefmt::skip]
static AFTER_LOCATION: &[&[DataItem<'static>]] = &[
    &[],
    &[DataItem { item: Item::Bare(b"0m"), touches: false }],
    &[
        DataItem { item: Item::Bare(b"E"), touches: false },
        DataItem { item: Item::Bare(b"0m"), touches: false },
    ],
    &[
        DataItem { item: Item::Bare(b"0"), touches: false },
        DataItem { item: Item::Bare(b"E"), touches: false },
        DataItem { item: Item::Bare(b"0m"), touches: false },
    ],
    &[
        DataItem { item: Item::Bare(b"N"), touches: false },
        DataItem { item: Item::Bare(b"0"), touches: false },
        DataItem { item: Item::Bare(b"E"), touches: false },
        DataItem { item: Item::Bare(b"0m"), touches: false },
    ],
];

/// What may come after parameters: a value, where the last ends with `=` (RFC 9460 2.1).
#[rattlefmt::skip]
static AFTER_PARAMETERS: &[&[DataItem<'static>]] = &[
    &[],
    &[DataItem { item: Item::Quoted(b"1"), touches: true }],
    &[DataItem { item: Item::Quoted(b"192.0.2.1"), touches: true }],
    &[DataItem { item: Item::Quoted(b"2001:db8::1"), touches: true }],
    &[DataItem { item: Item::Quoted(b"AAAA"), touches: true }],
    &[DataItem { item: Item::Quoted(b"alpn"), touches: true }],
    &[DataItem { item: Item::Quoted(b"port"), touches: true }],
];

/// What may come after items of a field.
fn continuations(kind: FieldKind) -> &'static [&'static [DataItem<'static>]]
    ensures { map (λ more. map given more.now) result.now ≡ continuations kind }
{
    match kind {
        FieldKind::Hex => AFTER_HEX,
        FieldKind::Base64 => AFTER_BASE64,
        FieldKind::Location => AFTER_LOCATION,
        FieldKind::Parameters => AFTER_PARAMETERS,
        _ => AFTER_ANY,
    }
}

/// Whether what is wrong is that something is missing, which may come.
fn is_of_what_is_missing(fault: WordsFault) -> bool
    ensures yes { result ≡ true → IsOfWhatIsMissing fault }
    ensures no { result ≡ false → IsOfWhatIsMissing fault → ⊥ }
{
    matches!(
        fault,
        WordsFault::NothingLeft | WordsFault::MandatoryKeyMissing
    )
}

/// Whether items state data of a field, or only lack something. `octets` is room.
fn are_so_far(
    field: &'static [Field],
    items: &[DataItem],
    origin: &CasedName,
    octets: &mut Vec<u8>,
) -> Result<bool, AllocError>
    ensures yes { result ≡ Ok true → (f : NamedField) → map field_of field.now ≡ f ∷ []
        → AreSoFar origin.now f (map given items.now) }
    ensures no { result ≡ Ok false → (f : NamedField) → map field_of field.now ≡ f ∷ []
        → AreSoFar origin.now f (map given items.now) → ⊥ }
{
    match read_data(&Fields::Same(field), items, origin, octets) {
        Ok(()) => Ok(true),
        Err(DataFailing::Fault { field: _, fault }) => Ok(is_of_what_is_missing(fault)),
        Err(DataFailing::OutOfMemory) => Err(AllocError),
    }
}

/// Whether items of a field can go on to data of it. `room` is room.
fn can_go_on<'e>(
    field: &'static [Field],
    items: &[DataItem<'e>],
    origin: &CasedName,
    room: &mut Room<'e>,
) -> Result<bool, AllocError>
    ensures yes { result ≡ Ok true → (f : NamedField) → map field_of field.now ≡ f ∷ []
        → CanGoOn origin.now f (map given items.now) }
    ensures no { result ≡ Ok false → (f : NamedField) → map field_of field.now ≡ f ∷ []
        → CanGoOn origin.now f (map given items.now) → ⊥ }
{
    let [one] = field else {
        return Ok(false);
    };
    for more in continuations(one.1) {
        room.items.clear();
        room.items.extend_from_slice(items)?;
        room.items.extend_from_slice(more)?;
        if are_so_far(field, &room.items, origin, &mut room.octets)? {
            return Ok(true);
        }
    }
    Ok(false)
}

/// The item at which a reading of items of a field stops. `room` is room.
pub(crate) fn stop_in<'e>(
    field: &'static [Field],
    own: &[DataItem<'e>],
    origin: &CasedName,
    room: &mut Room<'e>,
) -> Result<Option<DataItem<'e>>, AllocError>
    ensures { (f : NamedField) → map field_of field.now ≡ f ∷ [] → IfOk result (λ found.
        StopsAt (CanGoOn origin.now f) (map given own.now) (option_map given found)) }
{
    if own.is_empty() || can_go_on(field, own, origin, room)? {
        return Ok(None);
    }
    // The first `low` can go on, if they are any, and the first `high` can't.
    let (mut low, mut high) = (0, own.len());
    while high - low > 1 {
        let middle = low + (high - low) / 2;
        if can_go_on(field, &own[..middle], origin, room)? {
            low = middle;
        } else {
            high = middle;
        }
    }
    Ok(Some(own[low]))
}
