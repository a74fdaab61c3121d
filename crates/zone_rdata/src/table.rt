//! The types and the classes that have a mnemonic, a row each (RFC 1035 3.2.2, 3.2.4).
ghost use Rattle.std.specs.Prelude.{◌≡◌, ◌==◌, option_copied};
ghost use Rattle.std.specs.List.{find};
ghost use Rattle.zone_rdata.specs.Table.{Named};

use crate::field::Field;

/// A row of a table: a number and the mnemonic that stands for it.
pub trait Row {
    ghost names: { Self → Named };

    /// The number.
    fn number(&self) -> u16
        ensures { result ≡ (names self.now).number };

    /// The mnemonic, in the letter case that is printed.
    fn mnemonic(&self) -> &'static [u8]
        ensures { result.now ≡ (names self.now).mnemonic };
}

/// A class that has a mnemonic.
pub(crate) struct ClassRow {
    pub(crate) number: u16,
    pub(crate) mnemonic: &'static [u8],
}

/// A type that has a mnemonic.
pub(crate) struct TypeRow {
    pub(crate) number: u16,
    pub(crate) mnemonic: &'static [u8],
    /// Whether its data has these fields in class IN alone.
    pub(crate) in_only: bool,
    pub(crate) fields: &'static [Field],
}

impl Row for ClassRow {
    ghost names = { λ row. record { number = row.number; mnemonic = row.mnemonic.now } };

    fn number(&self) -> u16 {
        self.number
    }

    fn mnemonic(&self) -> &'static [u8] {
        self.mnemonic
    }
}

impl Row for TypeRow {
    ghost names = { λ row. record { number = row.number; mnemonic = row.mnemonic.now } };

    fn number(&self) -> u16 {
        self.number
    }

    fn mnemonic(&self) -> &'static [u8] {
        self.mnemonic
    }
}

/// The classes, their numbers ascending (RFC 1035 3.2.4).
#[rattlefmt::skip]
pub(crate) static CLASSES: &[ClassRow] = &[
    ClassRow { number: 1, mnemonic: b"IN" },
    ClassRow { number: 2, mnemonic: b"CS" },
    ClassRow { number: 3, mnemonic: b"CH" },
    ClassRow { number: 4, mnemonic: b"HS" },
];

/// The types, their numbers ascending (RFC 1035 3.3, 3.4.1; AAAA RFC 3596 2.2, SRV RFC 2782, NAPTR
/// RFC 3403 4.1).
#[rattlefmt::skip]
pub(crate) static TYPES: &[TypeRow] = &[
    TypeRow { number: 1, mnemonic: b"A", in_only: true, fields: &[Field::Octets(4)] },
    TypeRow { number: 2, mnemonic: b"NS", in_only: false, fields: &[Field::Name] },
    TypeRow { number: 5, mnemonic: b"CNAME", in_only: false, fields: &[Field::Name] },
    TypeRow { number: 6, mnemonic: b"SOA", in_only: false, fields: &[
        Field::Name, Field::Name, Field::Serial, Field::Time, Field::Time, Field::Time, Field::Time,
    ] },
    TypeRow { number: 12, mnemonic: b"PTR", in_only: false, fields: &[Field::Name] },
    TypeRow { number: 15, mnemonic: b"MX", in_only: false, fields: &[Field::U16, Field::Name] },
    TypeRow { number: 16, mnemonic: b"TXT", in_only: false, fields: &[Field::Strings] },
    TypeRow { number: 28, mnemonic: b"AAAA", in_only: true, fields: &[Field::Octets(16)] },
    TypeRow { number: 33, mnemonic: b"SRV", in_only: false, fields: &[
        Field::U16, Field::U16, Field::U16, Field::Name,
    ] },
    TypeRow { number: 35, mnemonic: b"NAPTR", in_only: false, fields: &[
        Field::U16, Field::U16, Field::OneString, Field::OneString, Field::OneString, Field::Name,
    ] },
];

/// The first row of a number. `None`: there is none.
pub fn row_of<R: Row>(rows: &[R], number: u16) -> Option<&R>
    ensures { option_copied result ≡ find (λ row. number == (R.names row).number) rows.now }
{
    for row in rows {
        if number == row.number() {
            return Some(row);
        }
    }
    None
}
