ghost use Rattle.std.specs.Prelude.{map, IfErr, OnOk};
ghost use Rattle.type_data.specs.DataItem.{raw_item};
ghost use Rattle.type_data.specs.Fault.{AppendsStated, IfFault, NothingStated};
ghost use Rattle.type_data.specs.Kinds.AfterLength.{FailsAfterLength, StatesAfterLength};
ghost use Rattle.type_data.specs.Kinds.Hexadecimal.{FailsHex, IsHex, PrintsHex, StatesHex};
ghost use Rattle.type_data.specs.Printed.{IfNoData, NoItems, PrintsAll};
ghost use Rattle.type_data.specs.declared.fault.WordsFault.TheVariants.{NoHexadecimal};

use super::joined::joined_text;
use crate::data_item::DataItem;
use crate::fault::{WordsFailing, WordsFault};
use crate::unprinted::Unprinted;
use zone_rdata::{push_hex, push_octets_of_hex};

/// Appends the octets, one or more, that hexadecimal digits stand for, in one item or more (RFC
/// 4648 8). The digits of an octet may be parted between items, as by any white space (RFC 4034
/// 5.3).
///
/// # Errors
///
/// `NothingLeft` where there is no item; `NoHexadecimal` where an item is quoted or has another
/// character, and where the digits of all items are none or odd in number; and `OutOfMemory` where
/// memory is refused. `out` may then have some of the octets.
pub(crate) fn read_hex(items: &[DataItem], out: &mut Vec<u8>) -> Result<(), WordsFailing>
    ensures states { OnOk result
        (AppendsStated (StatesHex (map raw_item items.now)) out.old.items out.new.items) }
    ensures fault { IfErr result (IfFault (FailsHex (map raw_item items.now))) }
{
    let text = joined_text(*out.allocator(), items, WordsFault::NoHexadecimal)?;
    read_digits(text.as_slice(), out)
}

/// The digits of the most octets that stand after their length, which are 255.
const MOST_COUNTED: usize = 510;

/// Appends the octets, 1 to 255, that hexadecimal digits stand for, after their length, of one
/// octet.
///
/// # Errors
///
/// `NoHexadecimal` where the text is not the digits of octets, `TooLong` where these are more than
/// 255, and `OutOfMemory` where memory is refused. `out` may then have some of the octets.
pub(crate) fn read_counted_digits(text: &[u8], out: &mut Vec<u8>) -> Result<(), WordsFailing>
    ensures states { OnOk result
        (AppendsStated (StatesAfterLength IsHex text.now) out.old.items out.new.items) }
    ensures fault { IfErr result (IfFault (FailsAfterLength NoHexadecimal IsHex text.now)) }
{
    if text.len() > MOST_COUNTED {
        read_digits(text, out)?;
        return Err(WordsFailing::Fault(WordsFault::TooLong));
    }
    out.push((text.len() / 2) as u8)?;
    read_digits(text, out)
}

/// Appends the octets, one or more, that hexadecimal digits stand for.
pub(super) fn read_digits(text: &[u8], out: &mut Vec<u8>) -> Result<(), WordsFailing>
    ensures states { OnOk result (AppendsStated (IsHex text.now) out.old.items out.new.items) }
    ensures fault { IfErr result (IfFault (NothingStated NoHexadecimal (IsHex text.now))) }
{
    if text.is_empty() || !push_octets_of_hex(text, out)? {
        return Err(WordsFailing::Fault(WordsFault::NoHexadecimal));
    }
    Ok(())
}

/// Appends octets as one item of hexadecimal digits, after a blank (RFC 4648 8).
///
/// # Errors
///
/// `NoData` where there is no octet, and want of memory. `out` may have got some of the digits.
pub(crate) fn print_hex(octets: &[u8], out: &mut Vec<u8>) -> Result<(), Unprinted>
    ensures printed { OnOk result
        (PrintsAll PrintsHex octets.now out.old.items out.new.items) }
    ensures none { IfErr result (IfNoData (NoItems StatesHex octets.now)) }
{
    if octets.is_empty() {
        return Err(Unprinted::NoData);
    }
    out.push(b' ')?;
    push_hex(octets, out)?;
    Ok(())
}
