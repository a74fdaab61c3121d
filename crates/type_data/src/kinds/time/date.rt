ghost use Rattle.std.specs.Prelude.{◌≡◌, ◌+◌, ◌%◌, ◌≤◌, IfErr, IfOk};
ghost use Rattle.type_data.specs.Kinds.Time.Calendar.{IsDateTime};
ghost use Rattle.type_data.specs.Kinds.Time.{AreFourteenDigits, PrintsTime, StatesTime, shown_in};
ghost use Rattle.type_data.specs.Printed.{IfNoData, NoFront, PrintsFront};

use super::calendar::DateTime;
use crate::taking::take_u32;
use crate::unprinted::Unprinted;

/// The last decimal digit of a number.
fn digit(number: u32) -> u8
    ensures { result ≡ 48 + number % 10 }
{
    b'0' + (number % 10) as u8
}

/// The fourteen digits that show a date and a time of day.
fn digits_of(date: DateTime) -> [u8; 14]
    requires exists { IsDateTime date }
    requires four_digits { date.year ≤ 9999 }
    ensures digits { AreFourteenDigits result }
    ensures shown { shown_in result ≡ date }
{
    [
        digit(date.year / 1000),
        digit(date.year / 100),
        digit(date.year / 10),
        digit(date.year),
        digit(date.month / 10),
        digit(date.month),
        digit(date.day / 10),
        digit(date.day),
        digit(date.hour / 10),
        digit(date.hour),
        digit(date.minute / 10),
        digit(date.minute),
        digit(date.second / 10),
        digit(date.second),
    ]
}

/// Appends the time at the front as the date and the time of day in UTC (RFC 4034 3.2), and gives
/// what is left.
///
/// # Errors
///
/// `NoData` where the octets end before, and `OutOfMemory`.
pub(crate) fn print_time<'o>(octets: &'o [u8], out: &mut Vec<u8>) -> Result<&'o [u8], Unprinted>
    ensures printed { IfOk result (λ rest.
        PrintsFront PrintsTime StatesTime octets.now rest.now out.old.items out.new.items) }
    ensures none { IfErr result (IfNoData (NoFront StatesTime octets.now)) }
{
    let (seconds, rest) = take_u32(octets)?;
    let digits = digits_of(DateTime::after(seconds));
    out.extend_from_slice(&digits)?;
    Ok(rest)
}
