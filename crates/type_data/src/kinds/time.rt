//! Times of signatures, as dates or as seconds (RFC 4034 3.2).
ghost use Rattle.std.specs.Prelude.{◌≡◌, ◌≤◌, ◌↔◌, ◌∷◌, [], length, true, IsTrue, IfSome, IfNone, IfOk, IfErr, OnOk};
ghost use Rattle.std.specs.List.{AllByRecursion};
ghost use Rattle.zone_name.specs.Common.{NothingIs};
ghost use Rattle.zone_name.specs.Spelling.{is_digit};
ghost use Rattle.zone_rdata.specs.Number.{decimal_value};
ghost use Rattle.type_data.specs.Fault.{AppendsStated, IfFault};
ghost use Rattle.type_data.specs.Kinds.Time.{AreFourteenDigits, AreSecondsOf, FailsTime, StatesTime, shown_in};

mod calendar;
mod date;

use crate::fault::{WordsFailing, WordsFault};
use calendar::DateTime;
pub(crate) use date::print_time;
use zone_rdata::decimal_of;

/// Appends the four octets of a time: up to ten digits are seconds since 1970, and fourteen a date
/// and a time of day in UTC, of the years 1970 to 9999 and modulo 2 ^ 32 (RFC 4034 3.1.5, 3.2).
///
/// # Errors
///
/// `TooLarge` where up to ten digits are a number of more than 32 bits, `NotATime` for any other
/// text that is no time; and `OutOfMemory`.
pub(crate) fn read_time(text: &[u8], out: &mut Vec<u8>) -> Result<(), WordsFailing>
    ensures states { OnOk result
        (AppendsStated (StatesTime text.now) out.old.items out.new.items) }
    ensures fault { IfErr result (IfFault (FailsTime text.now)) }
{
    let seconds = seconds_of(text)?;
    out.extend_from_slice(&seconds.to_be_bytes())?;
    Ok(())
}

/// The seconds of a time.
fn seconds_of(text: &[u8]) -> Result<u32, WordsFault>
    ensures found { IfOk result (AreSecondsOf text.now) }
    ensures fault { IfErr result (FailsTime text.now) }
{
    if text.len() <= 10 {
        seconds_in_digits(text)
    } else {
        seconds_of_date(text)
    }
}

/// The seconds that up to ten digits are the number of.
fn seconds_in_digits(text: &[u8]) -> Result<u32, WordsFault>
    requires { length text.now ≤ 10 }
    ensures found { IfOk result (AreSecondsOf text.now) }
    ensures fault { IfErr result (FailsTime text.now) }
{
    let Some(seconds) = decimal_of(text) else {
        return Err(WordsFault::NotATime);
    };
    if seconds > u64::from(u32::MAX) {
        return Err(WordsFault::TooLarge);
    }
    Ok(seconds as u32)
}

/// The seconds since 1970 of the date and time of day that fourteen digits show.
fn seconds_of_date(text: &[u8]) -> Result<u32, WordsFault>
    requires { 11 ≤ length text.now }
    ensures found { IfOk result (AreSecondsOf text.now) }
    ensures fault { IfErr result (FailsTime text.now) }
{
    match date_time_in(text) {
        Some(shown) if shown.exists() => Ok((shown.seconds() % 4294967296) as u32),
        _ => Err(WordsFault::NotATime),
    }
}

/// The date and time of day that fourteen digits show. `None`: the text is none.
fn date_time_in(text: &[u8]) -> Option<DateTime>
    ensures found { IfSome result (λ shown.
        AreFourteenDigits text.now × (shown ≡ shown_in text.now) × (shown.year ≤ 9999)) }
    ensures none { IfNone result (AreFourteenDigits text.now → ⊥) }
{
    let [y0, y1, y2, y3, m0, m1, d0, d1, h0, h1, n0, n1, s0, s1] = text else {
        return None;
    };
    if !are_digits(text) {
        return None;
    }
    Some(DateTime {
        year: two(*y0, *y1) * 100 + two(*y2, *y3),
        month: two(*m0, *m1),
        day: two(*d0, *d1),
        hour: two(*h0, *h1),
        minute: two(*n0, *n1),
        second: two(*s0, *s1),
    })
}

/// The number of two digits.
fn two(high: u8, low: u8) -> u32
    requires { (is_digit high ≡ true) × (is_digit low ≡ true) }
    ensures value { result ≡ decimal_value (high ∷ low ∷ []) }
    ensures few { result ≤ 99 }
{
    u32::from(high - b'0') * 10 + u32::from(low - b'0')
}

/// Whether all octets are digits.
fn are_digits(text: &[u8]) -> bool
    ensures { IsTrue result ↔ AllByRecursion (λ c. is_digit c ≡ true) text.now }
{
    for octet in text {
        if !octet.is_ascii_digit() {
            return false;
        }
    }
    true
}
