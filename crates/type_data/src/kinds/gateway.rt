//! Gateways and relays (RFC 4025, RFC 8777).
ghost use Rattle.std.specs.Prelude.{◌≡◌, ◌≤◌, ◌/◌, ◌++◌, decimal, map, slice_index, IfErr, IfOk, OnOk};
ghost use Rattle.type_data.specs.DataItem.{raw_item};
ghost use Rattle.type_data.specs.Fault.{AppendsStated, IfFault};
ghost use Rattle.type_data.specs.Kinds.Gateway.{FailsAddressType, FailsDiscovery, FailsNoAddress, FailsNothing, PrintsAddressType, PrintsDiscovery, StatesAddressType, StatesDiscovery, StatesNoAddress, StatesNothing, discovery_bit};
ghost use Rattle.type_data.specs.Printed.{IfNoData, NoFront, PrintsFront};

use super::number::{at_most, print_decimal};
use crate::data_item::DataItem;
use crate::fault::{WordsFailing, WordsFault};
use crate::taking::take_u8;
use crate::unprinted::Unprinted;
use zone_rdata::decimal_of;

/// The greatest type of a gateway or a relay, that of a name.
const MOST_TYPE: u32 = 3;

/// Appends the type of a gateway or a relay: 0 for none, 1 and 2 for an address of four and sixteen
/// octets and 3 for a name (RFC 4025 2.3, RFC 8777 4.2.3). The octet's highest bit is set where the
/// discovery of a relay is optional.
///
/// # Errors
///
/// `NotANumber`, `TooLarge` and want of memory.
pub(crate) fn read_address_type(
    text: &[u8],
    optional: bool,
    out: &mut Vec<u8>,
) -> Result<(), WordsFailing>
    ensures states { OnOk result
        (AppendsStated (StatesAddressType optional text.now) out.old.items out.new.items) }
    ensures fault { IfErr result (IfFault (FailsAddressType text.now)) }
{
    let number = at_most(MOST_TYPE, decimal_of(text))?;
    out.extend_from_slice(&[discovery_bit(optional) + number as u8])?;
    Ok(())
}

/// The highest bit of a relay's type.
fn discovery_bit(optional: bool) -> u8
    ensures value { result ≡ discovery_bit optional }
    ensures few { result ≤ 128 }
{
    if optional { 128 } else { 0 }
}

/// Reads whether the discovery of a relay is optional: 0 or 1. The bit stands in the octet of the
/// type after it, so nothing is appended (RFC 8777 4.2.2).
///
/// # Errors
///
/// `NotANumber` and `TooLarge`.
pub(crate) fn read_discovery(text: &[u8], out: &mut Vec<u8>) -> Result<(), WordsFailing>
    ensures states { OnOk result
        (AppendsStated (StatesDiscovery text.now) out.old.items out.new.items) }
    ensures fault { IfErr result (IfFault (FailsDiscovery text.now)) }
{
    at_most(1, decimal_of(text))?;
    Ok(())
}

/// Reads the `.` in place of a gateway or a relay, which is no octets (RFC 4025 3.1, RFC 8777
/// 4.3.1).
///
/// # Errors
///
/// `NotAName` where the text is another.
pub(crate) fn read_no_address(text: &[u8], out: &mut Vec<u8>) -> Result<(), WordsFailing>
    ensures states { OnOk result
        (AppendsStated (StatesNoAddress text.now) out.old.items out.new.items) }
    ensures fault { IfErr result (IfFault (FailsNoAddress text.now)) }
{
    match text {
        b"." => Ok(()),
        _ => Err(WordsFailing::Fault(WordsFault::NotAName(None))),
    }
}

/// Reads no items, where a field has to be left out.
///
/// # Errors
///
/// `ItemsLeftOver` where there is one.
pub(crate) fn read_nothing(items: &[DataItem], out: &mut Vec<u8>) -> Result<(), WordsFailing>
    ensures states { OnOk result
        (AppendsStated (StatesNothing (map raw_item items.now)) out.old.items out.new.items) }
    ensures fault { IfErr result (IfFault (FailsNothing (map raw_item items.now))) }
{
    if items.is_empty() {
        Ok(())
    } else {
        Err(WordsFailing::Fault(WordsFault::ItemsLeftOver))
    }
}

/// Appends the type of a gateway or a relay at the front, in digits, and gives what is left.
///
/// # Errors
///
/// `NoData` where the octet is no such type, and `OutOfMemory`.
pub(crate) fn print_address_type<'o>(
    octets: &'o [u8],
    optional: bool,
    out: &mut Vec<u8>,
) -> Result<&'o [u8], Unprinted>
    ensures printed { IfOk result (λ rest.
        PrintsFront (PrintsAddressType optional) (StatesAddressType optional) octets.now rest.now
        out.old.items out.new.items) }
    ensures none { IfErr result (IfNoData (NoFront (StatesAddressType optional) octets.now)) }
{
    let (octet, rest) = take_u8(octets)?;
    let bit = discovery_bit(optional);
    if octet < bit || octet - bit > 3 {
        return Err(Unprinted::NoData);
    }
    print_decimal(u32::from(octet - bit), out)?;
    Ok(rest)
}

/// Appends whether the discovery of a relay is optional, 1 or 0: the highest bit of the octet of its
/// type, which is left.
pub(crate) fn print_discovery<'o>(
    octets: &'o [u8],
    out: &mut Vec<u8>,
) -> Result<&'o [u8], Unprinted>
    ensures printed { IfOk result (λ rest.
        PrintsFront PrintsDiscovery StatesDiscovery octets.now rest.now out.old.items
        out.new.items) }
    ensures text { IfOk result (λ rest.
        out.new.items ≡ out.old.items ++ decimal (slice_index octets.now 0 / 128)) }
    ensures none { IfErr result (IfNoData (NoFront StatesDiscovery octets.now)) }
{
    let bit = match octets {
        [octet, ..] => *octet / 128,
        [] => 0,
    };
    print_decimal(u32::from(bit), out)?;
    Ok(octets)
}

/// Appends the `.` in place of a gateway or a relay, which is no octets.
pub(crate) fn print_no_address<'o>(
    octets: &'o [u8],
    out: &mut Vec<u8>,
) -> Result<&'o [u8], Unprinted>
    ensures printed { IfOk result (λ rest.
        PrintsFront StatesNoAddress StatesNoAddress octets.now rest.now out.old.items
        out.new.items) }
    ensures none { IfErr result (IfNoData (NoFront StatesNoAddress octets.now)) }
{
    out.push(b'.')?;
    Ok(octets)
}
