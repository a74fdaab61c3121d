//! Tags of properties of certification authorities (RFC 8659 4.1).
ghost use Rattle.std.specs.Prelude.{◌≡◌, ◌↔◌, true, IsTrue, IfErr, IfOk, OnOk};
ghost use Rattle.std.specs.List.{AllByRecursion};
ghost use Rattle.type_data.specs.Fault.{AppendsStated, IfFault};
ghost use Rattle.type_data.specs.Kinds.Tag.{FailsTag, IsTag, PrintsTag, StatesTag, is_letter_or_digit};
ghost use Rattle.type_data.specs.Printed.{IfNoData, NoFront, PrintsFront};

use crate::fault::{WordsFailing, WordsFault};
use crate::taking::take_counted;
use crate::unprinted::Unprinted;

/// Appends a tag of 1 to 255 letters and digits after its length.
///
/// # Errors
///
/// `NotATag` for any other text; and `OutOfMemory`.
pub(crate) fn read_tag(text: &[u8], out: &mut Vec<u8>) -> Result<(), WordsFailing>
    ensures states { OnOk result
        (AppendsStated (StatesTag text.now) out.old.items out.new.items) }
    ensures fault { IfErr result (IfFault (FailsTag text.now)) }
{
    if !is_tag(text) {
        return Err(WordsFailing::Fault(WordsFault::NotATag));
    }
    out.extend_from_slice(&[text.len() as u8])?;
    out.extend_from_slice(text)?;
    Ok(())
}

/// Whether the text is 1 to 255 letters and digits.
fn is_tag(text: &[u8]) -> bool
    ensures { IsTrue result ↔ IsTag text.now }
{
    !text.is_empty() && text.len() <= 255 && are_letters_and_digits(text)
}

/// Whether all octets are letters and digits.
fn are_letters_and_digits(text: &[u8]) -> bool
    ensures { IsTrue result ↔ AllByRecursion (λ c. is_letter_or_digit c ≡ true) text.now }
{
    for octet in text {
        if !octet.is_ascii_alphanumeric() {
            return false;
        }
    }
    true
}

/// Appends the letters and digits at the front as they are (RFC 8659 4.1), and gives what is left.
///
/// # Errors
///
/// `NoData` where no tag stands at the front, and want of memory. `out` may have got some of it.
pub(crate) fn print_tag<'o>(octets: &'o [u8], out: &mut Vec<u8>) -> Result<&'o [u8], Unprinted>
    ensures printed { IfOk result (λ rest.
        PrintsFront PrintsTag StatesTag octets.now rest.now out.old.items out.new.items) }
    ensures none { IfErr result (IfNoData (NoFront StatesTag octets.now)) }
{
    let (tag, rest) = take_counted(octets)?;
    if !is_tag(tag) {
        return Err(Unprinted::NoData);
    }
    out.extend_from_slice(tag)?;
    Ok(rest)
}
