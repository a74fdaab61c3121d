ghost use Rattle.std.specs.Prelude.{IfErr, IfOk, OnOk};
ghost use Rattle.type_data.specs.Fault.{AppendsStated, IfFault};
ghost use Rattle.type_data.specs.Kinds.Salt.{FailsSalt, PrintsSalt, StatesSalt};
ghost use Rattle.type_data.specs.Printed.{IfNoData, NoFront, PrintsFront};

use super::hexadecimal::read_counted_digits;
use crate::fault::WordsFailing;
use crate::taking::take_counted;
use crate::unprinted::Unprinted;
use zone_rdata::push_hex;

/// Appends a salt after its length, of one octet: `-` is an empty one, and hexadecimal digits in
/// either letter case are one of 1 to 255 octets (RFC 5155 3.3).
///
/// # Errors
///
/// `NoHexadecimal` where the text is neither `-` nor the digits of octets, `TooLong` where these are
/// more than 255, and `OutOfMemory` where memory is refused. `out` may then have some of the octets.
pub(crate) fn read_salt(text: &[u8], out: &mut Vec<u8>) -> Result<(), WordsFailing>
    ensures states { OnOk result (AppendsStated (StatesSalt text.now) out.old.items out.new.items) }
    ensures fault { IfErr result (IfFault (FailsSalt text.now)) }
{
    if text == b"-".as_slice() {
        return Ok(out.extend_from_slice(&[0])?);
    }
    read_counted_digits(text, out)
}

/// Appends the salt at the front, `-` for one without octets (RFC 5155 3.3), and gives what is
/// left.
///
/// # Errors
///
/// `NoData` where no salt stands at the front, and want of memory. `out` may have got some of it.
pub(crate) fn print_salt<'o>(octets: &'o [u8], out: &mut Vec<u8>) -> Result<&'o [u8], Unprinted>
    ensures printed { IfOk result (λ rest.
        PrintsFront PrintsSalt StatesSalt octets.now rest.now out.old.items out.new.items) }
    ensures none { IfErr result (IfNoData (NoFront StatesSalt octets.now)) }
{
    let (salt, rest) = take_counted(octets)?;
    if salt.is_empty() {
        out.extend_from_slice(b"-")?;
        return Ok(rest);
    }
    push_hex(salt, out)?;
    Ok(rest)
}
