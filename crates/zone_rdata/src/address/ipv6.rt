ghost use Rattle.std.specs.Prelude.{◌≡◌, ◌+◌, ◌<◌, ◌≤◌, ℕ, true, length, IfSome, IfNone};
ghost use Rattle.zone_name.specs.Common.{NothingIs, Octets};
ghost use Rattle.zone_rdata.specs.Address.{AreAround, ArePartsOf, IsIpv6Address};
ghost use Rattle.zone_rdata.specs.Machine.AddressReading.{HasGapAt};

use super::groups::octets_of_parts;

/// The offset of the first two colons in a row.
fn gap_in(text: &[u8]) -> Option<usize>
    ensures found { IfSome result (λ at. HasGapAt text.now at
        × ((k : ℕ) → k < at → HasGapAt text.now k → ⊥)) }
    ensures inside { IfSome result (λ at. at + 2 ≤ length text.now) }
    ensures none { IfNone result (NothingIs (HasGapAt text.now)) }
{
    for at in 1..text.len() {
        if text[at - 1] == b':' && text[at] == b':' {
            return Some(at - 1);
        }
    }
    None
}

/// The octets of eight groups. `None`: the text isn't eight groups without `::`.
#[tactic(auto, using(crate::proofs::Addresses::AddressParts::parts_length))]
fn octets_of_eight(text: &[u8]) -> Option<[u8; 16]>
    ensures found { IfSome result (λ octets. ArePartsOf true text.now octets × length octets ≡ 16) }
    ensures none { IfNone result ((octets : Octets) → ArePartsOf true text.now octets
        → length octets ≡ 16 → ⊥) }
{
    let parts = octets_of_parts(text, true)?;
    <[u8; 16]>::try_from(parts.as_slice()).ok()
}

/// The octets of the groups before and after `::`, and of the zero groups between them. `None`:
/// these texts aren't groups, or there are too many.
#[tactic(auto, using(crate::proofs::Addresses::AddressGaps::octets_set_around))]
fn octets_around(front: &[u8], back: &[u8]) -> Option<[u8; 16]>
    ensures found { IfSome result (λ octets. AreAround front.now back.now octets) }
    ensures none { IfNone result (NothingIs (AreAround front.now back.now)) }
{
    let before = octets_of_parts(front, false)?;
    let after = octets_of_parts(back, true)?;
    if before.len() + after.len() > 14 {
        return None;
    }
    let mut octets = [0; 16];
    octets[..before.len()].copy_from_slice(before.as_slice());
    octets[16 - after.len()..].copy_from_slice(after.as_slice());
    Some(octets)
}

/// The octets of an address in groups (RFC 4291 2.2). `None`: the text is no such address.
pub fn ipv6_octets_of(text: &[u8]) -> Option<[u8; 16]>
    ensures found { IfSome result (λ octets. IsIpv6Address text.now octets) }
    ensures none { IfNone result (NothingIs (IsIpv6Address text.now)) }
{
    if let Some(octets) = octets_of_eight(text) {
        return Some(octets);
    }
    let at = gap_in(text)?;
    octets_around(&text[..at], &text[at + 2..])
}
