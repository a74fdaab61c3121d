ghost use Rattle.std.specs.Prelude.{◌≡◌, ◌++◌, IfErr, OnOk};
ghost use Rattle.zone_rdata.specs.Strings.{inside_text};
ghost use Rattle.type_data.specs.Parameters.Machine.Printed.{AppendsQuoted, NoProtocols, StopsAs};
ghost use Rattle.type_data.specs.Parameters.Printed.{PrintsProtocols};
ghost use Rattle.type_data.specs.Parameters.Value.{escaped_item, escaped_octet};
ghost use Rattle.type_data.specs.Printed.{IfNoData};

use crate::taking::take_counted;
use crate::unprinted::Unprinted;
use std::alloc::AllocError;
use zone_name::decimal_escape;
use zone_name::laws::are_octets;

/// Appends an octet of an item of a list between quotes: a backslash stands before a comma and a
/// backslash (RFC 9460 A.1), and again before each backslash that comes of it (RFC 1035 5.1).
fn print_octet(octet: u8, out: &mut Vec<u8>) -> Result<(), AllocError>
    ensures { OnOk result (out.new.items ≡ out.old.items ++ inside_text (escaped_octet octet)) }
{
    match octet {
        b',' => out.extend_from_slice(b"\\\\,"),
        b'\\' => out.extend_from_slice(b"\\\\\\\\"),
        b'"' => out.extend_from_slice(b"\\\""),
        b' '..=b'~' => out.extend_from_slice(&[octet]),
        _ => out.extend_from_slice(&decimal_escape(octet)),
    }
}

/// Appends an item of a list between quotes.
fn print_listed(item: &[u8], out: &mut Vec<u8>) -> Result<(), AllocError>
    ensures { OnOk result (out.new.items ≡ out.old.items ++ inside_text (escaped_item item.now)) }
{
    for octet in item {
        print_octet(*octet, out)?;
    }
    Ok(())
}

/// Appends protocols as a list in quotes, after `=` (RFC 9460 7.1.1).
pub(super) fn print_protocols(value: &[u8], out: &mut Vec<u8>) -> Result<(), Unprinted>
    ensures printed { OnOk result
        (AppendsQuoted (λ text. PrintsProtocols text value.now) out.old.items out.new.items) }
    ensures none { IfErr result
        (IfNoData (StopsAs (NoProtocols value.now) out.old.items out.new.items)) }
{
    if value.is_empty() {
        return Err(Unprinted::NoData);
    }
    let mut mark: &[u8] = b"=\"";
    let mut rest = value;
    while !rest.is_empty() {
        are_octets(rest);
        let (protocol, after) = take_counted(rest)?;
        if protocol.is_empty() {
            return Err(Unprinted::NoData);
        }
        out.extend_from_slice(mark)?;
        print_listed(protocol, out)?;
        mark = b",";
        rest = after;
    }
    out.extend_from_slice(b"\"")?;
    Ok(())
}
