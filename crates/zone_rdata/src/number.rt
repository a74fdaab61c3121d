ghost use Rattle.std.specs.Prelude.{[], ◌≡◌, ◌<◌, ◌≤◌, Some, decimal, IfOk, IfErr, IfSome, IfNone, OnErr, OnOk};
ghost use Rattle.zone_name.specs.Common.{NothingIs};
ghost use Rattle.zone_rdata.specs.Cause.{fault_for};
ghost use Rattle.zone_rdata.specs.Number.{IsCapped, IsDecimal};

use crate::cause::Cause;
use crate::fault::Fault;
use itoa::Buffer;
use zone_name::Sink;

/// What a number is cut off at: one over the greatest number of 32 bits.
pub(crate) const CAP: u64 = 4294967296;

/// The number that one or more decimal digits stand for (RFC 1035 5.1), leading zeros allowed: 2 ^
/// 32 where it is greater. `None`: the text isn't so.
pub fn decimal_of(text: &[u8]) -> Option<u64>
    ensures found { IfSome result (IsCapped (IsDecimal text.now)) }
    ensures none { IfNone result (NothingIs (IsDecimal text.now)) }
{
    if text.is_empty() {
        return None;
    }
    let mut number = 0;
    for octet in text {
        if !octet.is_ascii_digit() {
            return None;
        }
        number = CAP.min(number * 10 + u64::from(*octet - b'0'));
    }
    Some(number)
}

/// The number that was read, where it is at most `most`.
pub(crate) fn at_most(most: u32, number: Option<u64>) -> Result<u32, Cause>
    ensures found { IfOk result (λ n. (number ≡ Some n) × (n ≤ most)) }
    ensures fault { IfErr result
        (λ cause. (fault_for cause ≡ Fault.BadNumber) × IfSome number (λ n. most < n)) }
{
    match number {
        Some(number) if number <= u64::from(most) => Ok(number as u32),
        _ => Err(Cause::BadNumber),
    }
}

/// Appends a number in decimal.
pub fn push_decimal<S: Sink>(number: u32, out: &mut S) -> Result<(), S::Error>
    ensures ok { OnOk result (S.takes out.old (decimal number) out.new) }
    ensures err { OnErr result (S.takes out.old [] out.new) }
{
    let mut buffer = Buffer::new();
    out.push(buffer.format(number).as_bytes())
}
