//! The parameters of a service: the data of SVCB and HTTPS after the target name (RFC 9460 2.1, 7,
//! 8, A.1).
mod addresses;
mod key;
mod keys;
mod printing;
mod protocols;
mod single;
mod stated;
mod text;
mod value;

ghost use Rattle.std.specs.Prelude.{map, IfErr, OnOk};
ghost use Rattle.type_data.specs.DataItem.{given};
ghost use Rattle.type_data.specs.Fault.{AppendsStated, IfFault};
ghost use Rattle.type_data.specs.Parameters.{FailsParameters, StatesParameters};

use crate::data_item::DataItem;
use crate::fault::{WordsFailing, WordsFault};
pub(crate) use printing::print_parameters;
use stated::{has_required, push_sent, stated_parameters};

/// Appends the octets of the parameters that all the items state, in ascending order of their keys
/// (RFC 9460 2.1, 2.2).
///
/// # Errors
///
/// The first of these from the left: `NotAKey`; `RepeatedKey`; `NotAValue` and `BadEscape`. Where
/// there is none of them, `MandatoryKeyMissing`, and then `TooLong` for a value of more than 65,535
/// octets. Or memory is refused. Some of the octets may have been appended.
pub(crate) fn read_parameters(items: &[DataItem], out: &mut Vec<u8>) -> Result<(), WordsFailing>
    ensures states { OnOk result
        (AppendsStated (StatesParameters (map given items.now)) out.old.items out.new.items) }
    ensures fault { IfErr result (IfFault (FailsParameters (map given items.now))) }
{
    let stated = stated_parameters(*out.allocator(), items)?;
    if !has_required(&stated) {
        return Err(WordsFault::MandatoryKeyMissing.into());
    }
    push_sent(&stated.values, out)?;
    Ok(())
}
