ghost use Rattle.std.specs.Prelude.{IfErr, OnOk};
ghost use Rattle.type_data.specs.Parameters.Machine.Printed.{AppendsUnquoted, NoAddresses, StopsAs, address_text, size_of};
ghost use Rattle.type_data.specs.Parameters.Printed.{PrintsAddresses};
ghost use Rattle.type_data.specs.Printed.{IfNoData};

use crate::kinds::{Version, len_of, push_address};
use crate::unprinted::Unprinted;

/// Appends addresses parted by commas, after `=` (RFC 9460 7.3).
pub(super) fn print_addresses(
    version: Version,
    value: &[u8],
    out: &mut Vec<u8>,
) -> Result<(), Unprinted>
    ensures printed { OnOk result (AppendsUnquoted
        (λ text. PrintsAddresses (size_of version) (address_text version) text value.now)
        out.old.items out.new.items) }
    ensures none { IfErr result (IfNoData
        (StopsAs (NoAddresses (size_of version) value.now) out.old.items out.new.items)) }
{
    if value.is_empty() {
        return Err(Unprinted::NoData);
    }
    let len = len_of(version);
    let mut mark: &[u8] = b"=";
    let mut rest = value;
    while !rest.is_empty() {
        if rest.len() < len {
            return Err(Unprinted::NoData);
        }
        let (address, after) = rest.split_at(len);
        out.extend_from_slice(mark)?;
        push_address(version, address, out)?;
        mark = b",";
        rest = after;
    }
    Ok(())
}
