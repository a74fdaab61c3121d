//! Addresses of four octets (RFC 1035 3.4.1) and of sixteen (RFC 4291 2.2).
ghost use Rattle.std.specs.Prelude.{◌≡◌, ◌++◌, length, IfErr, IfOk, OnOk};
ghost use Rattle.type_data.specs.Fault.{AppendsStated, IfFault, NothingStated};
ghost use Rattle.type_data.specs.Parameters.Machine.Parts.{IsAddressOf};
ghost use Rattle.type_data.specs.Parameters.Machine.Printed.{PrintsAddress, address_text, size_of};
ghost use Rattle.type_data.specs.Printed.{IfNoData, NoFront, PrintsFront};

use crate::fault::{WordsFailing, WordsFault};
use crate::taking::take;
use crate::unprinted::Unprinted;
use std::alloc::AllocError;
use zone_rdata::{ipv4_octets_of, ipv6_octets_of, push_ipv4, push_ipv6};

/// The version of an address.
#[derive(Clone, Copy, Debug)]
pub(crate) enum Version {
    /// Of four octets.
    V4,
    /// Of sixteen octets.
    V6,
}

/// Appends the octets of an address (RFC 1035 3.4.1, RFC 4291 2.2).
///
/// # Errors
///
/// `own` where the text is no address; and want of memory. Either leaves `out` unchanged.
pub(crate) fn read_address(
    version: Version,
    text: &[u8],
    own: WordsFault,
    out: &mut Vec<u8>,
) -> Result<(), WordsFailing>
    ensures stated { OnOk result
        (AppendsStated (IsAddressOf version text.now) out.old.items out.new.items) }
    ensures fault { IfErr result
        (IfFault (NothingStated own (IsAddressOf version text.now))) }
{
    match version {
        Version::V4 => {
            let Some(octets) = ipv4_octets_of(text) else {
                return Err(own.into());
            };
            out.extend_from_slice(&octets)?;
            Ok(())
        }
        Version::V6 => {
            let Some(octets) = ipv6_octets_of(text) else {
                return Err(own.into());
            };
            out.extend_from_slice(&octets)?;
            Ok(())
        }
    }
}

/// Appends the address at the front (RFC 1035 3.4.1, RFC 5952 4), and gives what is left.
///
/// # Errors
///
/// `NoData` where the octets end before, and `OutOfMemory`.
pub(crate) fn print_address<'o>(
    version: Version,
    octets: &'o [u8],
    out: &mut Vec<u8>,
) -> Result<&'o [u8], Unprinted>
    ensures printed { IfOk result (λ rest. PrintsFront (PrintsAddress version)
        (IsAddressOf version) octets.now rest.now out.old.items out.new.items) }
    ensures none { IfErr result (IfNoData (NoFront (IsAddressOf version) octets.now)) }
{
    let (address, rest) = take(octets, len_of(version))?;
    push_address(version, address, out)?;
    Ok(rest)
}

/// Appends an address.
pub(crate) fn push_address(
    version: Version,
    address: &[u8],
    out: &mut Vec<u8>,
) -> Result<(), AllocError>
    requires { length address.now ≡ size_of version }
    ensures { OnOk result (out.new.items ≡ out.old.items ++ address_text version address.now) }
{
    match version {
        Version::V4 => push_ipv4(address, out),
        Version::V6 => push_ipv6(address, out),
    }
}

/// How many octets an address has.
pub(crate) fn len_of(version: Version) -> usize
    ensures { result ≡ size_of version }
{
    match version {
        Version::V4 => 4,
        Version::V6 => 16,
    }
}
