ghost use Rattle.std.specs.Prelude.{IfErr, OnOk};
ghost use Rattle.type_data.specs.Fault.{AppendsStated, IfFault, NothingStated};
ghost use Rattle.type_data.specs.Parameters.Machine.Parts.{IsAddressOf};
ghost use Rattle.type_data.specs.Parameters.Value.{ListsAddresses};
ghost use Rattle.type_data.specs.declared.fault.WordsFault.TheVariants as faults;

use crate::cut::cut_at_first;
use crate::fault::{WordsFailing, WordsFault};
use crate::kinds::{Version, read_address};

/// Appends the octets of addresses that are parted by commas (RFC 9460 7.3).
///
/// # Errors
///
/// `NotAValue`; and want of memory. Some of the octets may have been appended.
pub(super) fn read_addresses(
    version: Version,
    text: &[u8],
    out: &mut Vec<u8>,
) -> Result<(), WordsFailing>
    ensures stated { OnOk result (AppendsStated
        (ListsAddresses (IsAddressOf version) text.now) out.old.items out.new.items) }
    ensures fault { IfErr result
        (IfFault (NothingStated faults.NotAValue (ListsAddresses (IsAddressOf version) text.now))) }
{
    let mut rest = text;
    while let Some((address, after)) = cut_at_first(rest, b',') {
        read_address(version, address, WordsFault::NotAValue, out)?;
        rest = after;
    }
    read_address(version, rest, WordsFault::NotAValue, out)?;
    Ok(())
}
