//! The mnemonics of numbers that stand in data, a row each, their numbers ascending.
ghost use Rattle.std.specs.Prelude.{◌≡◌, IfSome, IfNone, map, option_map};
ghost use Rattle.zone_name.specs.Common.{NothingIs};
ghost use Rattle.zone_rdata.specs.Words.{IsKind};
ghost use Rattle.zone_rdata.specs.Table.{mnemonic_among};
ghost use Rattle.type_data.specs.Mnemonics.{IsTypeWord, certificate_types, notify_schemes};
ghost use Rattle.type_data.specs.Table.{registered_types};

use crate::table::{number_of_type, type_numbered};
use zone_rdata::{Kind, Row, row_of};

/// A number and its mnemonic.
#[derive(Clone, Copy, Debug)]
pub(crate) struct Mnemonic(pub(crate) u16, pub(crate) &'static [u8]);

impl Row for Mnemonic {
    ghost use Rattle.zone_rdata.specs.Table.{Named};
    ghost use Rattle.type_data.specs.Mnemonics.{name_of};

    ghost names = { name_of };

    fn number(&self) -> u16 {
        self.0
    }

    fn mnemonic(&self) -> &'static [u8] {
        self.1
    }
}

/// The number itself, where it is that of a type that a record can have (RFC 6895 3.1).
pub(crate) fn number_of_kind(number: u64) -> Option<u16>
    ensures found { IfSome result (λ n. (n ≡ number) × IsKind number) }
    ensures none { IfNone result (IsKind number → ⊥) }
{
    match Kind::from_number(number) {
        Ok(kind) => Some(kind.number()),
        Err(_) => None,
    }
}

/// The type of a word in any letter case: a registered mnemonic, or TYPE with a number (RFC 3597
/// 5). `None`: it is no such word, or no record can have the type (RFC 6895 3.1).
pub(crate) fn type_of_word(word: &[u8]) -> Option<u16>
    ensures found { IfSome result (IsTypeWord word.now) }
    ensures none { IfNone result (NothingIs (IsTypeWord word.now)) }
{
    match number_of_type(word) {
        Some(number) => number_of_kind(number),
        None => None,
    }
}

/// The mnemonic of a registered type (RFC 6895 3.1), in upper case. `None`: it has none.
pub fn type_mnemonic(number: u16) -> Option<&'static [u8]>
    ensures { option_map (λ text. text.now) result
        ≡ mnemonic_among registered_types number }
{
    match type_numbered(number) {
        Some(row) => Some(row.mnemonic()),
        None => None,
    }
}

/// The mnemonic of a type of certificates (RFC 4398 2.1), in upper case. `None`: it has none.
pub fn certificate_mnemonic(number: u16) -> Option<&'static [u8]>
    ensures { option_map (λ text. text.now) result
        ≡ mnemonic_among certificate_types number }
{
    mnemonic_in(CERTIFICATE_TYPES, number)
}

/// The mnemonic of a scheme of DSYNC (RFC 9859 2.1), in upper case. `None`: it has none.
pub(crate) fn notify_scheme_mnemonic(number: u8) -> Option<&'static [u8]>
    ensures { option_map (λ text. text.now) result
        ≡ mnemonic_among notify_schemes number }
{
    mnemonic_in(NOTIFY_SCHEMES, u16::from(number))
}

/// The mnemonic of a number among rows.
fn mnemonic_in<R: Row>(rows: &'static [R], number: u16) -> Option<&'static [u8]>
    ensures { option_map (λ text. text.now) result
        ≡ mnemonic_among (map R.names rows.now) number }
{
    match row_of(rows, number) {
        Some(row) => Some(row.mnemonic()),
        None => None,
    }
}

/// The algorithms of DNSSEC (RFC 4034 A.1).
pub(crate) static ALGORITHMS: &[Mnemonic] = &[
    Mnemonic(0, b"DELETE"),
    Mnemonic(1, b"RSAMD5"),
    Mnemonic(2, b"DH"),
    Mnemonic(3, b"DSA"),
    Mnemonic(4, b"ECC"),
    Mnemonic(5, b"RSASHA1"),
    Mnemonic(6, b"DSA-NSEC3-SHA1"),
    Mnemonic(7, b"RSASHA1-NSEC3-SHA1"),
    Mnemonic(8, b"RSASHA256"),
    Mnemonic(10, b"RSASHA512"),
    Mnemonic(12, b"ECC-GOST"),
    Mnemonic(13, b"ECDSAP256SHA256"),
    Mnemonic(14, b"ECDSAP384SHA384"),
    Mnemonic(15, b"ED25519"),
    Mnemonic(16, b"ED448"),
    Mnemonic(17, b"SM2SM3"),
    Mnemonic(23, b"ECC-GOST12"),
    Mnemonic(252, b"INDIRECT"),
    Mnemonic(253, b"PRIVATEDNS"),
    Mnemonic(254, b"PRIVATEOID"),
];

/// Further mnemonics of algorithms of DNSSEC: those that BIND has in place of the registered ones.
pub(crate) static FURTHER_ALGORITHMS: &[Mnemonic] = &[
    Mnemonic(6, b"NSEC3DSA"),
    Mnemonic(7, b"NSEC3RSASHA1"),
    Mnemonic(12, b"ECCGOST"),
];

/// The types of certificates (RFC 4398 2.1).
pub(crate) static CERTIFICATE_TYPES: &[Mnemonic] = &[
    Mnemonic(1, b"PKIX"),
    Mnemonic(2, b"SPKI"),
    Mnemonic(3, b"PGP"),
    Mnemonic(4, b"IPKIX"),
    Mnemonic(5, b"ISPKI"),
    Mnemonic(6, b"IPGP"),
    Mnemonic(7, b"ACPKIX"),
    Mnemonic(8, b"IACPKIX"),
    Mnemonic(253, b"URI"),
    Mnemonic(254, b"OID"),
];

/// The schemes of DSYNC (RFC 9859 2.1).
pub(crate) static NOTIFY_SCHEMES: &[Mnemonic] = &[Mnemonic(1, b"NOTIFY")];
