//! Data in words: its fields, one after another.
ghost use Rattle.std.specs.Prelude.{◌≡◌, ◌≤◌, [], drop, length, map, IfOk, IfErr, IfSome, IfNone, OnOk, OnErr};
ghost use Rattle.type_data.specs.Data.{AFieldFails, DataFails, IfDataFault, StatesData, in_order, joined, last_name, lengths_first};
ghost use Rattle.type_data.specs.DataItem.{given};
ghost use Rattle.type_data.specs.Fault.{AppendsStated};
ghost use Rattle.type_data.specs.Field.{StatesField};
ghost use Rattle.type_data.specs.Machine.Fields.{AppendsParts, IsFieldFault, IsWhole, WholeFails};
ghost use Rattle.type_data.specs.Table.{field_of, fields_in, hip_fields, of_code};

use crate::data_item::DataItem;
use crate::fault::{WordsFailing, WordsFault};
use crate::field::Field;
use crate::fields::{Fields, amtrelay_fields, hip_fields, ipseckey_fields};
use crate::kinds::lengths_first;
use zone_name::CasedName;

/// Why items aren't the RDATA of a type in presentation format.
#[derive(Debug, Drop)]
pub enum DataFailing {
    /// A field doesn't parse.
    Fault {
        /// The field by its name in the RFC of the type, in lower case.
        field: &'static str,
        /// What is wrong with it.
        fault: WordsFault,
    },
    /// Memory was refused.
    OutOfMemory,
}

/// The most octets of data (RFC 1035 3.2.1).
pub(crate) const LONGEST_DATA: usize = 65_535;

/// Parses the items of RDATA in presentation format under an origin (RFC 1035 5.1), field after
/// field, and replaces what `octets` held by the octets of the RDATA, without their length. On any
/// error `octets` is empty.
///
/// # Errors
///
/// `Fault` with the leftmost field that doesn't parse. If each field parses, `ItemsLeftOver` for
/// items after the last, and else `TooLong` for more than 65,535 octets, both with the last field.
/// Or `OutOfMemory`, as soon as memory is refused.
pub fn read_data(
    fields: &Fields,
    items: &[DataItem],
    origin: &CasedName,
    octets: &mut Vec<u8>,
) -> Result<(), DataFailing>
    ensures states { OnOk result
        (StatesData origin.now (fields_in (of_code fields.now) (map given items.now))
        (in_order (of_code fields.now)) (map given items.now) octets.new.items) }
    ensures fault { IfErr result
        (IfDataFault (DataFails origin.now (fields_in (of_code fields.now) (map given items.now))
        (in_order (of_code fields.now)) (map given items.now))) }
    ensures emptied { OnErr result (octets.new.items ≡ []) }
{
    match fields {
        Fields::Same(fields) => read_fields(fields, items, origin, octets),
        Fields::Ipseckey => read_fields(&ipseckey_fields(items), items, origin, octets),
        Fields::Amtrelay => read_fields(&amtrelay_fields(items), items, origin, octets),
        Fields::Hip => read_host_identity(items, origin, octets),
    }
}

/// Puts the octets that items state under an origin as HIP data in place of what `octets` held. On
/// any error `octets` is left empty.
///
/// # Errors
///
/// Those of `read_fields`.
fn read_host_identity(
    items: &[DataItem],
    origin: &CasedName,
    octets: &mut Vec<u8>,
) -> Result<(), DataFailing>
    ensures states { OnOk result
        (StatesData origin.now hip_fields lengths_first (map given items.now) octets.new.items) }
    ensures fault { IfErr result
        (IfDataFault (DataFails origin.now hip_fields lengths_first (map given items.now))) }
    ensures emptied { OnErr result (octets.new.items ≡ []) }
{
    read_fields(&hip_fields(), items, origin, octets)?;
    lengths_first(octets);
    Ok(())
}

/// Puts the octets that items state under an origin, field after field, in place of what `octets`
/// held. On any error `octets` is left empty.
///
/// # Errors
///
/// The first of: what is wrong with the leftmost field that states nothing; `ItemsLeftOver`; and
/// `TooLong`, of which the last two are told of the last field. Or want of memory, as soon as it is
/// met.
fn read_fields(
    fields: &[Field],
    items: &[DataItem],
    origin: &CasedName,
    octets: &mut Vec<u8>,
) -> Result<(), DataFailing>
    ensures states { OnOk result
        (StatesData origin.now (map field_of fields.now) joined (map given items.now)
        octets.new.items) }
    ensures fault { IfErr result
        (IfDataFault (DataFails origin.now (map field_of fields.now) joined
        (map given items.now))) }
    ensures emptied { OnErr result (octets.new.items ≡ []) }
{
    octets.clear();
    match push_fields(fields, items, origin, octets) {
        Ok(count) => match fault_of_whole(items.len() - count, octets.len()) {
            Some(fault) => {
                octets.clear();
                Err(DataFailing::Fault {
                    field: last_name(fields),
                    fault,
                })
            }
            None => Ok(()),
        },
        Err(failing) => {
            octets.clear();
            Err(failing)
        }
    }
}

/// Appends the octets that items state, field after field, and gives how many items these are.
///
/// # Errors
///
/// What is wrong with the leftmost field that states nothing, and want of memory.
fn push_fields(
    fields: &[Field],
    items: &[DataItem],
    origin: &CasedName,
    out: &mut Vec<u8>,
) -> Result<usize, DataFailing>
    ensures states { IfOk result (λ count.
        AppendsParts origin.now (map field_of fields.now) (map given items.now)
        (map given (drop count items.now)) out.old.items out.new.items) }
    ensures inside { IfOk result (λ count. count ≤ length items.now) }
    ensures fault { IfErr result
        (IfDataFault (AFieldFails origin.now (map field_of fields.now) (map given items.now))) }
{
    let mut place: usize = 0;
    for field in fields {
        let next = place + field.1.count_of(items.len() - place);
        push_field(field, &items[place..next], origin, out)?;
        place = next;
    }
    Ok(place)
}

/// Appends the octets that a field's own items state.
///
/// # Errors
///
/// What is wrong with the field, and want of memory.
fn push_field(
    field: &Field,
    own: &[DataItem],
    origin: &CasedName,
    out: &mut Vec<u8>,
) -> Result<(), DataFailing>
    ensures states { OnOk result
        (AppendsStated (StatesField origin.now (field_of field.now).kind (map given own.now))
        out.old.items out.new.items) }
    ensures fault { IfErr result
        (IfDataFault (IsFieldFault origin.now (field_of field.now) (map given own.now))) }
{
    match field.1.read(own, origin, out) {
        Ok(()) => Ok(()),
        Err(WordsFailing::Fault(fault)) => Err(DataFailing::Fault {
            field: field.0,
            fault,
        }),
        Err(WordsFailing::OutOfMemory) => Err(DataFailing::OutOfMemory),
    }
}

/// What is wrong after the last field, where so many items are left and there are so many octets.
fn fault_of_whole(left: usize, len: usize) -> Option<WordsFault>
    ensures some { IfSome result (WholeFails left len) }
    ensures none { IfNone result (IsWhole left len) }
{
    if left > 0 {
        return Some(WordsFault::ItemsLeftOver);
    }
    if len > LONGEST_DATA {
        return Some(WordsFault::TooLong);
    }
    None
}

/// The name of the last field.
#[tactic(auto, using(crate::proofs::ReadFields::last_named))]
fn last_name(fields: &[Field]) -> &'static str
    ensures { result.now ≡ last_name (map field_of fields.now) }
{
    match fields.last() {
        Some(field) => field.0,
        None => "data",
    }
}
