ghost use Rattle.base64.specs.Engines.{standard};
ghost use Rattle.base64.specs.GeneralPurpose.{encode_of};
ghost use Rattle.std.specs.Prelude.{◌≡◌, ◌<◌, ◌++◌, length, map, IfErr, OnOk};
ghost use Rattle.type_data.specs.DataItem.{raw_item};
ghost use Rattle.type_data.specs.Fault.{AppendsStated, IfFault, NothingStated};
ghost use Rattle.type_data.specs.Kinds.Base64.{FailsBase64, IsBase64, PrintsBase64, StatesBase64};
ghost use Rattle.type_data.specs.Printed.{IfNoData, NoItems, PrintsAll};
ghost use Rattle.type_data.specs.declared.fault.WordsFault.TheVariants.{NoBase64};

use super::base64_groups::push_groups;
use super::joined::joined_text;
use crate::data_item::DataItem;
use crate::fault::{WordsFailing, WordsFault};
use crate::unprinted::Unprinted;
use base64::DecodeAllocError;
use base64::engine::general_purpose::STANDARD;

/// Appends the octets, one or more, that a text in base64 stands for, in one item or more (RFC 4648
/// 4). It may be parted anywhere, as by any white space (RFC 4034 2.2).
///
/// # Errors
///
/// `NothingLeft` where there is no item; `NoBase64` where an item is quoted, or where the text of
/// all items has another character, no octet, not its whole padding at its very end, or unused bits
/// that aren't zero; and `OutOfMemory` where memory is refused. `out` may then have some of the
/// octets.
pub(crate) fn read_base64(items: &[DataItem], out: &mut Vec<u8>) -> Result<(), WordsFailing>
    ensures states { OnOk result
        (AppendsStated (StatesBase64 (map raw_item items.now)) out.old.items out.new.items) }
    ensures fault { IfErr result (IfFault (FailsBase64 (map raw_item items.now))) }
{
    let text = joined_text(*out.allocator(), items, WordsFault::NoBase64)?;
    push_decoded(text.as_slice(), out)
}

/// Appends the octets, one or more, that a text in base64 stands for.
pub(crate) fn push_decoded(text: &[u8], out: &mut Vec<u8>) -> Result<(), WordsFailing>
    ensures states { OnOk result (AppendsStated (IsBase64 text.now) out.old.items out.new.items) }
    ensures fault { IfErr result (IfFault (NothingStated NoBase64 (IsBase64 text.now))) }
{
    if text.is_empty() {
        return Err(WordsFailing::Fault(WordsFault::NoBase64));
    }
    let rest = push_groups(text, out)?;
    if rest.is_empty() {
        return Ok(());
    }
    push_last(rest, out)
}

/// As `push_decoded`, of the last groups.
fn push_last(text: &[u8], out: &mut Vec<u8>) -> Result<(), WordsFailing>
    requires { 0 < length text.now }
    ensures states { OnOk result (AppendsStated (IsBase64 text.now) out.old.items out.new.items) }
    ensures fault { IfErr result (IfFault (NothingStated NoBase64 (IsBase64 text.now))) }
{
    match STANDARD.decode_vec(text, out) {
        Ok(()) => Ok(()),
        Err(DecodeAllocError::DecodeError(_)) => Err(WordsFailing::Fault(WordsFault::NoBase64)),
        Err(DecodeAllocError::OutOfMemory) => Err(WordsFailing::OutOfMemory),
    }
}

/// Appends octets in base64 (RFC 4648 4).
///
/// # Errors
///
/// Want of memory, and `out` is unchanged.
pub(crate) fn print_base64(octets: &[u8], out: &mut Vec<u8>) -> Result<(), Unprinted>
    ensures printed { OnOk result
        (out.new.items ≡ out.old.items ++ encode_of standard octets.now) }
    ensures err { IfErr result (IfNoData ⊥) }
{
    let before = out.len();
    out.resize(before.saturating_add(octets.len().div_ceil(3) * 4), 0)?;
    let (_, room) = out.as_mut_slice().split_at_mut(before);
    let _ = STANDARD.encode_slice(octets, room);
    Ok(())
}

/// Appends octets as one item of base64, after a blank (RFC 4648 4).
///
/// # Errors
///
/// `NoData` where there is no octet, and want of memory. `out` may have got the blank.
pub(crate) fn print_base64_item(octets: &[u8], out: &mut Vec<u8>) -> Result<(), Unprinted>
    ensures printed { OnOk result
        (PrintsAll PrintsBase64 octets.now out.old.items out.new.items) }
    ensures none { IfErr result (IfNoData (NoItems StatesBase64 octets.now)) }
{
    if octets.is_empty() {
        return Err(Unprinted::NoData);
    }
    out.push(b' ')?;
    print_base64(octets, out)
}
