ghost use Rattle.std.specs.Prelude.{◌≡◌, ◌≢◌, ◌<◌, [], length, IfErr, OnOk};
ghost use Rattle.base64.specs.Engines.{standard};
ghost use Rattle.base64.specs.GeneralPurpose.{encode_of};
ghost use Rattle.zone_rdata.specs.Strings.{inside_text};
ghost use Rattle.type_data.specs.Parameters.Machine.Printed.{AppendsQuoted, AppendsUnquoted, AppendsValue, NoValue, StopsAs, all_sent};
ghost use Rattle.type_data.specs.Parameters.{Ascend};
ghost use Rattle.type_data.specs.Parameters.Printed.{PrintsPort, PrintsValue};
ghost use Rattle.type_data.specs.Printed.{IfNoData};
ghost use Rattle.type_data.specs.declared.parameters.key.Key.TheVariants as keys;

use super::addresses::print_addresses;
use super::mandatory::print_mandatory;
use super::protocols::print_protocols;
use super::sent::Parameter;
use crate::kinds::{Version, print_base64};
use crate::parameters::key::Key;
use crate::unprinted::Unprinted;
use std::alloc::AllocError;
use zone_rdata::{push_decimal, push_string_text};

/// Appends opaque octets in quotes after `=`, or nothing where there are none.
pub(super) fn print_opaque(value: &[u8], out: &mut Vec<u8>) -> Result<(), AllocError>
    ensures { OnOk result (AppendsValue
        (λ text. PrintsValue [] (keys.Numbered 0) text value.now) out.old.items out.new.items) }
{
    if value.is_empty() {
        return Ok(());
    }
    out.extend_from_slice(b"=")?;
    push_string_text(value, out)?;
    Ok(())
}

/// That no octet is there.
fn check_empty(value: &[u8]) -> Result<(), Unprinted>
    ensures empty { OnOk result (value.now ≡ []) }
    ensures some { IfErr result (IfNoData (0 < length value.now)) }
{
    if !value.is_empty() {
        return Err(Unprinted::NoData);
    }
    Ok(())
}

/// Appends a port (RFC 9460 7.2).
fn print_port(value: &[u8], out: &mut Vec<u8>) -> Result<(), Unprinted>
    ensures printed { OnOk result
        (AppendsUnquoted (λ text. PrintsPort text value.now) out.old.items out.new.items) }
    ensures none { IfErr result
        (IfNoData (StopsAs (length value.now ≢ 2) out.old.items out.new.items)) }
{
    let [high, low] = value else {
        return Err(Unprinted::NoData);
    };
    out.extend_from_slice(b"=")?;
    push_decimal(u32::from(u16::from_be_bytes([*high, *low])), out)?;
    Ok(())
}

/// Appends octets in base64, one or more (RFC 9848).
fn print_ech(value: &[u8], out: &mut Vec<u8>) -> Result<(), Unprinted>
    ensures printed { OnOk result (AppendsUnquoted
        (λ text. (0 < length value.now) × (text ≡ encode_of standard value.now))
        out.old.items out.new.items) }
    ensures none { IfErr result
        (IfNoData (StopsAs (value.now ≡ []) out.old.items out.new.items)) }
{
    if value.is_empty() {
        return Err(Unprinted::NoData);
    }
    out.extend_from_slice(b"=")?;
    print_base64(value, out)?;
    Ok(())
}

/// Appends a path in quotes, of one octet or more (RFC 9461 5).
fn print_path(value: &[u8], out: &mut Vec<u8>) -> Result<(), Unprinted>
    ensures printed { OnOk result (AppendsQuoted
        (λ text. (0 < length value.now) × (text ≡ inside_text value.now))
        out.old.items out.new.items) }
    ensures none { IfErr result
        (IfNoData (StopsAs (value.now ≡ []) out.old.items out.new.items)) }
{
    if value.is_empty() {
        return Err(Unprinted::NoData);
    }
    out.extend_from_slice(b"=")?;
    push_string_text(value, out)?;
    Ok(())
}

/// Appends the value of a key after `=`, or nothing for a key that has none.
///
/// # Errors
///
/// `NoData` where it isn't one of the key, or a key that it makes mandatory isn't one of those
/// parameters, and want of memory. Some of the text may have been appended.
pub(super) fn print_value(
    key: Key,
    value: &[u8],
    parameters: &[Parameter],
    out: &mut Vec<u8>,
) -> Result<(), Unprinted>
    requires { Ascend (all_sent parameters.now) }
    ensures printed { OnOk result (AppendsValue
        (λ text. PrintsValue (all_sent parameters.now) key text value.now)
        out.old.items out.new.items) }
    ensures none { IfErr result (IfNoData
        (StopsAs (NoValue (all_sent parameters.now) key value.now) out.old.items out.new.items)) }
{
    match key {
        Key::Mandatory => print_mandatory(value, parameters, out),
        Key::Alpn => print_protocols(value, out),
        Key::NoDefaultAlpn => check_empty(value),
        Key::Port => print_port(value, out),
        Key::Ipv4Hint => print_addresses(Version::V4, value, out),
        Key::Ech => print_ech(value, out),
        Key::Ipv6Hint => print_addresses(Version::V6, value, out),
        Key::DohPath => print_path(value, out),
        Key::Ohttp => check_empty(value),
        Key::Numbered(_) => Ok(print_opaque(value, out)?),
    }
}
