ghost use Rattle.std.specs.Prelude.{◌≡◌, ◌<◌, ◌≤◌, length, IfErr, IfOk, OnOk};
ghost use Rattle.std.specs.List.{AllZip};
ghost use Rattle.type_data.specs.Fault.{AppendsStated, IfFault, NothingStated};
ghost use Rattle.type_data.specs.Kinds.Hash.{FailsHash, IsBase32Hex, PrintsHash, StatesHash, base32_digit};
ghost use Rattle.type_data.specs.Kinds.Hash.Machine.{AppendsDigits, IsLowerDigit, block_values};
ghost use Rattle.type_data.specs.Printed.{IfNoData, NoFront, PrintsFront};
ghost use Rattle.type_data.specs.declared.fault.WordsFault.TheVariants.{NoBase32Hex};

use crate::fault::{WordsFailing, WordsFault};
use crate::taking::take_counted;
use crate::unprinted::Unprinted;
use std::alloc::AllocError;

/// The digits of the longest hash, which has 255 octets.
const MOST_DIGITS: usize = 408;

/// Appends a hash of 1 to 255 octets after its length, of one octet: digits of base32hex in either
/// letter case, without padding (RFC 4648 7, RFC 5155 3.3).
///
/// # Errors
///
/// `NoBase32Hex` where the text is empty or has another character, a number of digits that no
/// octets have, or unused bits that aren't zero; `TooLong` where it stands for more than 255 octets;
/// and `OutOfMemory` where memory is refused. `out` may then have some of the octets.
pub(crate) fn read_hash(text: &[u8], out: &mut Vec<u8>) -> Result<(), WordsFailing>
    ensures states { OnOk result (AppendsStated (StatesHash text.now) out.old.items out.new.items) }
    ensures fault { IfErr result (IfFault (FailsHash text.now)) }
{
    if text.is_empty() {
        return Err(WordsFailing::Fault(WordsFault::NoBase32Hex));
    }
    if text.len() > MOST_DIGITS {
        push_octets(text, out)?;
        return Err(WordsFailing::Fault(WordsFault::TooLong));
    }
    out.push((text.len() * 5 / 8) as u8)?;
    push_octets(text, out)
}

/// The value of a digit, in either letter case.
fn value_of(digit: u8) -> Option<u8>
    ensures { result ≡ base32_digit digit }
{
    match digit {
        b'0'..=b'9' => Some(digit - b'0'),
        b'A'..=b'V' => Some(digit - b'A' + 10),
        b'a'..=b'v' => Some(digit - b'a' + 10),
        _ => None,
    }
}

/// Appends the octets, one or more, that digits stand for.
fn push_octets(text: &[u8], out: &mut Vec<u8>) -> Result<(), WordsFailing>
    requires { 0 < length text.now }
    ensures states { OnOk result
        (AppendsStated (IsBase32Hex text.now) out.old.items out.new.items) }
    ensures fault { IfErr result (IfFault (NothingStated NoBase32Hex (IsBase32Hex text.now))) }
{
    let mut bits: u32 = 0;
    let mut count: u32 = 0;
    for digit in text {
        let Some(value) = value_of(*digit) else {
            return Err(WordsFailing::Fault(WordsFault::NoBase32Hex));
        };
        bits = bits * 32 + u32::from(value);
        count += 5;
        if count >= 8 {
            count -= 8;
            out.push((bits >> count) as u8)?;
            bits %= 1 << count;
        }
    }
    if count >= 5 || bits != 0 {
        return Err(WordsFailing::Fault(WordsFault::NoBase32Hex));
    }
    Ok(())
}

/// The digit of a value below 32, in lower case (RFC 4648 7).
fn digit_of(value: u8) -> u8
    requires { value < 32 }
    ensures { IsLowerDigit result value }
{
    if value < 10 {
        b'0' + value
    } else {
        b'a' + (value - 10)
    }
}

/// The octets of a block, which eight digits stand for (RFC 4648 7).
const BLOCK: usize = 5;

/// The digits of a whole block, in lower case (RFC 4648 7).
fn digits_of(block: [u8; BLOCK]) -> [u8; 8]
    ensures { AllZip IsLowerDigit result (block_values block) }
{
    let [a, b, c, d, e] = block;
    [
        digit_of(a / 8),
        digit_of(a % 8 * 4 + b / 64),
        digit_of(b / 2 % 32),
        digit_of(b % 2 * 16 + c / 16),
        digit_of(c % 16 * 2 + d / 128),
        digit_of(d / 4 % 32),
        digit_of(d % 4 * 8 + e / 32),
        digit_of(e % 32),
    ]
}

/// Appends the digits of one to five octets, those of which have bits of theirs.
fn print_block(block: &[u8], out: &mut Vec<u8>) -> Result<(), AllocError>
    requires some { 0 < length block.now }
    requires few { length block.now ≤ BLOCK }
    ensures { OnOk result (AppendsDigits block.now out.old.items out.new.items) }
{
    let mut whole = [0; BLOCK];
    whole[..block.len()].copy_from_slice(block);
    let digits = digits_of(whole);
    out.extend_from_slice(&digits[..(8 * block.len()).div_ceil(5)])
}

/// Appends octets in base32hex without padding, in lower case.
fn print_base32_hex(octets: &[u8], out: &mut Vec<u8>) -> Result<(), AllocError>
    ensures { OnOk result (AppendsDigits octets.now out.old.items out.new.items) }
{
    let mut rest = octets;
    while !rest.is_empty() {
        let (block, after) = rest.split_at(BLOCK.min(rest.len()));
        print_block(block, out)?;
        rest = after;
    }
    Ok(())
}

/// Appends the hash at the front in base32hex, in lower case and without padding (RFC 5155 3.3), and
/// gives what is left.
///
/// # Errors
///
/// `NoData` where no hash stands at the front, and want of memory. `out` may have got some of it.
pub(crate) fn print_hash<'o>(octets: &'o [u8], out: &mut Vec<u8>) -> Result<&'o [u8], Unprinted>
    ensures printed { IfOk result (λ rest.
        PrintsFront PrintsHash StatesHash octets.now rest.now out.old.items out.new.items) }
    ensures none { IfErr result (IfNoData (NoFront StatesHash octets.now)) }
{
    let (hash, rest) = take_counted(octets)?;
    if hash.is_empty() {
        return Err(Unprinted::NoData);
    }
    print_base32_hex(hash, out)?;
    Ok(rest)
}
