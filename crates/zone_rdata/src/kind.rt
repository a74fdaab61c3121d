ghost use Rattle.std.specs.Prelude.{[], ◌≡◌, ◌↔◌, ◌<◌, ℕ, IsTrue, IfSome, IfNone, IfOk, IfErr, OnOk, OnErr, ◌≤◌, option_copied, option_map};
ghost use Rattle.zone_rdata.specs.Cause.{fault_for};
ghost use Rattle.zone_rdata.specs.Layout.{layout};
ghost use Rattle.zone_rdata.specs.Words.{IsKind, IsKindWord, IsWordFault, kind_text, laid_out_mnemonic};

use crate::cause::Cause;
use crate::class::{Class, IN};
use crate::fault::Fault;
use crate::table::{TYPES, TypeRow, row_of};
use crate::word::{number_of_word, push_numbered};
use std::marker::Model;
use zone_name::Sink;

/// A type of which records can be (RFC 1035 3.2.2). Contracts see its number.
#[derive(Clone, Copy, Debug, PartialEq, Eq, PartialOrd, Ord)]
pub struct Kind {
    number: u16,
}

impl Model for Kind {
    ghost use Rattle.std.specs.Prelude.{ℕ};
    ghost use Rattle.zone_rdata.specs.Words.{IsKind};

    ghost Value = { ℕ };

    ghost view = { λ c. c.number };

    ghost invariant = { λ c. IsKind c.number };

    ghost inverse = { λ n. record { number = n } };
}

/// The number of SOA (RFC 1035 3.3.13).
const SOA: u16 = 6;

impl Kind {
    /// The type of a number, or why no record can have it.
    fn admitted(number: u64) -> Result<Kind, Cause>
        ensures ok { IfOk result (λ kind. kind ≡ number) }
        ensures err { IfErr result (λ cause. (number < 65536 → fault_for cause ≡ Fault.MetaType)
            × (65536 ≤ number → fault_for cause ≡ Fault.UnknownType) × (IsKind number → ⊥)) }
    {
        match u16::try_from(number) {
            Ok(0 | 41 | 128..=255) => Err(Cause::MetaType),
            Ok(number) => Ok(Kind { number }),
            Err(_) => Err(Cause::UnknownType),
        }
    }

    /// The type of a number (RFC 6895 3.1).
    ///
    /// # Errors
    ///
    /// `UnknownType` from 65536 on, and `MetaType` where no record can have it: 0, 41 and 128 to
    /// 255.
    #[tactic(auto, using(std::proofs::lemmas::Result::err_from_is_err_and))]
    pub fn from_number(number: u64) -> Result<Kind, Fault>
        ensures ok { IfOk result (λ kind. kind ≡ number) }
        ensures err { IfErr result (λ fault. (number < 65536 → fault ≡ Fault.MetaType)
            × (65536 ≤ number → fault ≡ Fault.UnknownType) × (IsKind number → ⊥)) }
    {
        Ok(Kind::admitted(number)?)
    }

    /// The type of a number of 16 bits (RFC 6895 3.1). `None`: no record can have it.
    pub fn of_number(number: u16) -> Option<Kind>
        ensures some { IfSome result (λ kind. kind ≡ number) }
        ensures none { IfNone result (IsKind number → ⊥) }
    {
        Kind::admitted(u64::from(number)).ok()
    }

    /// The type of this number, which was judged before.
    pub fn of_judged(number: u16) -> Kind
        requires { IsKind number }
        ensures { result ≡ number }
    {
        Kind { number }
    }

    /// The type of a word in any letter case: a mnemonic, or TYPE with a number.
    ///
    /// # Errors
    ///
    /// `UnknownType` where it is no such word or the number is over 65535, and `MetaType` where no
    /// record can have the type.
    #[tactic(auto, using(std::proofs::lemmas::Result::err_from_is_err_and))]
    pub fn from_word(word: &[u8]) -> Result<Kind, Fault>
        ensures found { IfOk result (IsKindWord word.now) }
        ensures err { IfErr result (IsWordFault word.now) }
    {
        Ok(Kind::read_word(word)?)
    }

    /// The type of a mnemonic in any letter case, or of TYPE with a number. An error is the cause
    /// of the fault, which takes few octets.
    ///
    /// # Errors
    ///
    /// `UnknownType` where it is no such word or the number is over 65535, and `MetaType` where no
    /// record can have the type.
    #[tactic(auto, using(std::proofs::lemmas::Grind::common_steps))]
    pub fn read_word(word: &[u8]) -> Result<Kind, Cause>
        ensures found { IfOk result (IsKindWord word.now) }
        ensures err { IfErr result (λ cause. IsWordFault word.now (fault_for cause)) }
    {
        match number_of_word(TYPES, b"TYPE", word) {
            Some(number) => Kind::admitted(number),
            None => Err(Cause::UnknownType),
        }
    }

    /// What holds of every type.
    pub fn known(self)
        ensures { IsKind self }
    {}

    /// The number of the type.
    pub fn number(self) -> u16
        ensures value { result ≡ self }
        ensures kind { IsKind result }
    {
        self.number
    }

    /// Whether it is SOA, the type of the record that begins a zone.
    pub fn is_soa(self) -> bool
        ensures { IsTrue result ↔ (self ≡ 6) }
    {
        matches!(self.number, SOA)
    }

    /// Appends the word that is printed in the class.
    ///
    /// # Errors
    ///
    /// `out` refuses the octets, and is unchanged.
    pub fn push_word<S: Sink>(self, class: Class, out: &mut S) -> Result<(), S::Error>
        ensures ok { OnOk result (S.takes out.old (kind_text class self) out.new) }
        ensures err { OnErr result (S.takes out.old [] out.new) }
    {
        match row_in(class, self) {
            Some(row) => out.push(row.mnemonic),
            None => push_numbered(b"TYPE", self.number, out),
        }
    }
}

/// The row of a type whose data has a layout in a class.
pub(crate) fn row_in(class: Class, kind: Kind) -> Option<&'static TypeRow>
    ensures fields { option_map (λ row. row.fields.now) (option_copied result) ≡ layout class kind }
    ensures mnemonic { option_map (λ row. row.mnemonic.now) (option_copied result)
        ≡ laid_out_mnemonic (layout class kind) kind }
{
    let class = class.number();
    let row = row_of(TYPES, kind.number())?;
    if row.in_only && class != IN {
        return None;
    }
    Some(row)
}
