ghost use Rattle.std.specs.Prelude.{◌≡◌, ◌+◌, ◌≤◌, ℕ, suc, IfSome, IfNone};
ghost use Rattle.zone_name.specs.Common.{NothingIs, Octets};
ghost use Rattle.zone_rdata.specs.Address.{AreNumbers, IsIpv4Address, IsOctetNumber};
ghost use Rattle.zone_rdata.specs.Machine.AddressReading.{IsCutAtFirst, Lacks};

use crate::number::decimal_of;

/// What stands before the first of an octet, and what stands after it. `None`: the text lacks the
/// octet.
pub(super) fn cut_at(text: &[u8], octet: u8) -> Option<(&[u8], &[u8])>
    ensures some { IfSome result (λ parts. IsCutAtFirst octet text.now parts.0.now parts.1.now) }
    ensures none { IfNone result (Lacks octet text.now) }
{
    for (at, found) in text.iter().enumerate() {
        if *found == octet {
            return Some((&text[..at], &text[at + 1..]));
        }
    }
    None
}

/// The octet that a decimal number stands for. `None`: the text is no number, or it is over 255.
fn octet_of(text: &[u8]) -> Option<u8>
    ensures found { IfSome result (λ n. IsOctetNumber text.now n) }
    ensures none { IfNone result (NothingIs (IsOctetNumber text.now)) }
{
    u8::try_from(decimal_of(text)?).ok()
}

/// The octet of the number before the first dot, and what stands after that dot.
fn octet_before_dot(text: &[u8]) -> Option<(u8, &[u8])>
    ensures found { IfSome result (λ parts.
        (front : Octets) × (IsCutAtFirst 46 text.now front parts.1.now
        × IsOctetNumber front parts.0)) }
    ensures none { IfNone result ((more : ℕ) → NothingIs (AreNumbers (suc (suc more)) text.now)) }
{
    let (number, rest) = cut_at(text, b'.')?;
    let octet = octet_of(number)?;
    Some((octet, rest))
}

/// The octets of an address in four decimal numbers (RFC 1035 3.4.1). `None`: the text is no such
/// address.
#[inline(always)]
pub fn ipv4_octets_of(text: &[u8]) -> Option<[u8; 4]>
    ensures found { IfSome result (λ octets. IsIpv4Address text.now octets) }
    ensures none { IfNone result (NothingIs (IsIpv4Address text.now)) }
{
    let (first, rest) = octet_before_dot(text)?;
    let (second, rest) = octet_before_dot(rest)?;
    let (third, rest) = octet_before_dot(rest)?;
    let fourth = octet_of(rest)?;
    Some([first, second, third, fourth])
}
