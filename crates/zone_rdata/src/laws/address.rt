//! Laws of addresses in text.
ghost use Rattle.std.specs.Prelude.{◌≡◌, ◌⊎◌, ◌≤◌, ℕ, List, length};
ghost use Rattle.std.specs.List.{AllByRecursion};
ghost use Rattle.std.specs.Net.Addr.{segments_of};
ghost use Rattle.zone_name.specs.Common.{AreOctets, AtMostOneIs, NothingIs, Octets};
ghost use Rattle.zone_rdata.specs.Address.{IsAddressOctet, IsIpv4Address, IsIpv6Address, IsShortenedRun, IsZeroRun, ipv4_text, ipv6_text, parted_groups, shortened_groups};

/// A text is at most one address of IPv4, and at most one of IPv6.
pub fn a_text_is_one_address()
    ensures ipv4 { (text : Octets) → AtMostOneIs (IsIpv4Address text) }
    ensures ipv6 { (text : Octets) → AtMostOneIs (IsIpv6Address text) }
{}

/// What is printed for an address is read as that address.
pub fn printed_addresses_are_read()
    ensures ipv4 { (octets : Octets) → length octets ≡ 4 → AreOctets octets
        → IsIpv4Address (ipv4_text octets) octets }
    ensures ipv6 { (octets : Octets) → length octets ≡ 16 → AreOctets octets
        → IsIpv6Address (ipv6_text octets) octets }
{}

/// What is printed for an address holds digits, lower-case hexadecimal letters, dots and colons
/// only, so that it is one item of a master file.
#[tactic(auto, using(crate::proofs::Addresses::AddressLaws::plain_addresses))]
pub fn printed_addresses_are_plain()
    ensures ipv4 { (octets : Octets) → length octets ≡ 4 → AreOctets octets
        → AllByRecursion IsAddressOctet (ipv4_text octets) }
    ensures ipv6 { (octets : Octets) → length octets ≡ 16 → AreOctets octets
        → AllByRecursion IsAddressOctet (ipv6_text octets) }
{}

/// `::` is printed for the longest run of zero groups, the first of equal ones, and for none of
/// fewer than two groups (RFC 5952 4.2).
#[tactic(auto, using(crate::proofs::Addresses::AddressLaws::shortened_addresses))]
pub fn the_longest_zero_run_is_shortened()
    ensures run { (octets : Octets) (start len : ℕ) → IsShortenedRun (segments_of octets) start len
        → ipv6_text octets ≡ shortened_groups (segments_of octets) start len }
    ensures none { (octets : Octets)
        → ((start len : ℕ) → IsShortenedRun (segments_of octets) start len → ⊥)
        → ipv6_text octets ≡ parted_groups (segments_of octets) }
    ensures exists { (groups : List ℕ) (start len : ℕ) → IsZeroRun groups start len → 2 ≤ len
        → (first longest : ℕ) × IsShortenedRun groups first longest }
    ensures one { (groups : List ℕ) (start len other_start other_len : ℕ)
        → IsShortenedRun groups start len → IsShortenedRun groups other_start other_len
        → (start ≡ other_start) × (len ≡ other_len) }
{}

/// An address stands for four octets, of IPv4, or for sixteen, of IPv6.
pub fn addresses_have_their_octets()
    ensures ipv4 { (text octets : Octets) → IsIpv4Address text octets → length octets ≡ 4 }
    ensures ipv4_each { (text octets : Octets) → IsIpv4Address text octets → AreOctets octets }
    ensures ipv6 { (text octets : Octets) → IsIpv6Address text octets → length octets ≡ 16 }
    ensures ipv6_each { (text octets : Octets) → IsIpv6Address text octets → AreOctets octets }
{}

/// A text is an address of IPv4 or none, and one of IPv6 or none.
pub fn texts_are_addresses_or_none()
    ensures ipv4 { (text : Octets) → ((octets : Octets) × IsIpv4Address text octets)
        ⊎ NothingIs (IsIpv4Address text) }
    ensures ipv6 { (text : Octets) → ((octets : Octets) × IsIpv6Address text octets)
        ⊎ NothingIs (IsIpv6Address text) }
{}
