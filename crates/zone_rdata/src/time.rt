ghost use Rattle.std.specs.Prelude.{◌≡◌, ◌-◌, ◌≤◌, ◌<◌, true, IfSome, IfNone};
ghost use Rattle.zone_name.specs.Common.{NothingIs};
ghost use Rattle.zone_name.specs.Spelling.{is_digit};
ghost use Rattle.zone_rdata.specs.Number.{IsCapped, IsDecimal, IsTime, unit_seconds};

use crate::number::{CAP, decimal_of};

/// The seconds of a unit in any letter case: w, d, h, m or s.
fn seconds_of_unit(octet: u8) -> Option<u64>
    ensures value { result ≡ unit_seconds octet }
    ensures some { IfSome result (λ n. (0 < n) × (n ≤ 604800)) }
{
    match octet {
        b'w' | b'W' => Some(604800),
        b'd' | b'D' => Some(86400),
        b'h' | b'H' => Some(3600),
        b'm' | b'M' => Some(60),
        b's' | b'S' => Some(1),
        _ => None,
    }
}

/// The value of a digit. `None`: it is none.
#[inline(always)]
fn value_of_digit(octet: u8) -> Option<u32>
    ensures { IfSome result (λ n. (is_digit octet ≡ true) × (n ≡ octet - 48) × (n ≤ 9)) }
{
    if octet.is_ascii_digit() {
        return Some(u32::from(octet - b'0'));
    }
    None
}

/// The number that four or five decimal digits stand for. `None`: the text isn't so.
#[inline(always)]
fn number_of_few(text: &[u8]) -> Option<u32>
    ensures { IfSome result (λ n. IsDecimal text.now n × (n ≤ 99999)) }
{
    let [a, b, c, d, rest @ ..] = text else {
        return None;
    };
    let front = value_of_digit(*a)? * 10 + value_of_digit(*b)?;
    let number = (front * 10 + value_of_digit(*c)?) * 10 + value_of_digit(*d)?;
    match rest {
        [] => Some(number),
        [last] => Some(number * 10 + value_of_digit(*last)?),
        _ => None,
    }
}

/// The seconds that a text states, at most 4294967296: decimal digits, or one or more groups of
/// digits and a unit w, d, h, m or s, summed. `None`: it is no time.
#[inline(always)]
#[tactic(auto, using(crate::specs::Number::plain))]
pub fn seconds_of(text: &[u8]) -> Option<u64>
    ensures found { IfSome result (IsCapped (IsTime text.now)) }
    ensures none { IfNone result (NothingIs (IsTime text.now)) }
{
    // Most times are some hours or a day or more in seconds, which are read without a loop.
    match number_of_few(text) {
        Some(seconds) => Some(u64::from(seconds)),
        None => seconds_of_any(text),
    }
}

/// The same of a text of any length.
#[inline(never)]
#[tactic(auto, using(crate::specs::Number::plain))]
fn seconds_of_any(text: &[u8]) -> Option<u64>
    ensures found { IfSome result (IsCapped (IsTime text.now)) }
    ensures none { IfNone result (NothingIs (IsTime text.now)) }
{
    // Most times are a number of seconds.
    if let Some(seconds) = decimal_of(text) {
        return Some(seconds);
    }
    let mut total = 0;
    // What the digits after the last unit stand for.
    let mut number = None;
    for octet in text {
        if octet.is_ascii_digit() {
            let front: u64 = number.unwrap_or(0);
            number = Some(CAP.min(front * 10 + u64::from(*octet - b'0')));
        } else {
            total = CAP.min(total + number? * seconds_of_unit(*octet)?);
            number = None;
        }
    }
    if text.is_empty() || number.is_some() {
        return None;
    }
    Some(total)
}
