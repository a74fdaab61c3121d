//! What the data of a host's identity has: its public key, and the order of its octets (RFC 8005).
ghost use Rattle.std.specs.Prelude.{◌≡◌, IfErr, IfOk, OnOk};
ghost use Rattle.type_data.specs.Fault.{AppendsStated, IfFault};
ghost use Rattle.type_data.specs.Kinds.HostIdentity.{FailsPublicKey, PrintsHostIdentityTag, PrintsPublicKey, StatesHostIdentityTag, StatesPublicKey};
ghost use Rattle.type_data.specs.Kinds.HostIdentity.Machine.{AreLengthsWithin, PutsLengthsFirst};
ghost use Rattle.type_data.specs.Printed.{IfNoData, NoFront, PrintsFront};

use super::base64_text::{print_base64, push_decoded};
use crate::fault::{WordsFailing, WordsFault};
use crate::taking::{take, take_counted, take_u16};
use crate::unprinted::Unprinted;
use zone_rdata::push_hex;

/// The longest key, of which the length has two octets.
const MOST: usize = 65_535;

/// Appends a public key, of one octet or more, after its length, of two octets: base64 in one item
/// (RFC 8005 6).
///
/// # Errors
///
/// `NoBase64` where the text is none, `TooLong` where the key has more than 65,535 octets, and
/// `OutOfMemory` where memory is refused.
pub(crate) fn read_public_key(text: &[u8], out: &mut Vec<u8>) -> Result<(), WordsFailing>
    ensures states { OnOk result
        (AppendsStated (StatesPublicKey text.now) out.old.items out.new.items) }
    ensures fault { IfErr result (IfFault (FailsPublicKey text.now)) }
{
    let mut key = Vec::new(*out.allocator());
    push_decoded(text, &mut key)?;
    if key.len() > MOST {
        return Err(WordsFailing::Fault(WordsFault::TooLong));
    }
    out.extend_from_slice(&(key.len() as u16).to_be_bytes())?;
    out.extend_from_slice(&key)?;
    Ok(())
}

/// Puts the lengths of the tag and of the key, of one octet and two, before both and around the
/// algorithm, which has stood before them (RFC 8005 5).
pub(crate) fn lengths_first(octets: &mut Vec<u8>)
    requires { AreLengthsWithin octets.old.items }
    ensures { PutsLengthsFirst octets.old.items octets.new.items }
{
    octets.swap(0, 1);
    let key_length = 2 + usize::from(octets[0]);
    octets[2..key_length + 2].rotate_right(2);
}

/// Appends the tag of a host's identity at the front, in hexadecimal digits, and gives what is left.
///
/// # Errors
///
/// `NoData` where no tag of one octet or more is there, and `OutOfMemory`.
pub(crate) fn print_host_identity_tag<'o>(
    octets: &'o [u8],
    out: &mut Vec<u8>,
) -> Result<&'o [u8], Unprinted>
    ensures printed { IfOk result (λ rest.
        PrintsFront PrintsHostIdentityTag StatesHostIdentityTag octets.now rest.now out.old.items
        out.new.items) }
    ensures none { IfErr result (IfNoData (NoFront StatesHostIdentityTag octets.now)) }
{
    let (tag, rest) = take_counted(octets)?;
    if tag.is_empty() {
        return Err(Unprinted::NoData);
    }
    push_hex(tag, out)?;
    Ok(rest)
}

/// Appends the public key at the front, in base64, and gives what is left.
///
/// # Errors
///
/// `NoData` where no key of one octet or more is there, and `OutOfMemory`.
pub(crate) fn print_public_key<'o>(
    octets: &'o [u8],
    out: &mut Vec<u8>,
) -> Result<&'o [u8], Unprinted>
    ensures printed { IfOk result (λ rest.
        PrintsFront PrintsPublicKey StatesPublicKey octets.now rest.now out.old.items
        out.new.items) }
    ensures none { IfErr result (IfNoData (NoFront StatesPublicKey octets.now)) }
{
    let (len, rest) = take_u16(octets)?;
    let (key, rest) = take(rest, usize::from(len))?;
    if key.is_empty() {
        return Err(Unprinted::NoData);
    }
    print_base64(key, out)?;
    Ok(rest)
}
