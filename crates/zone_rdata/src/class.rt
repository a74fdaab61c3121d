ghost use Rattle.std.specs.Prelude.{[], ◌≡◌, ◌↔◌, ◌<◌, ℕ, IfSome, IfNone, IfOk, IfErr, OnOk, OnErr};
ghost use Rattle.zone_name.specs.Common.{NothingIs};
ghost use Rattle.zone_rdata.specs.Cause.{fault_for};
ghost use Rattle.zone_rdata.specs.Words.{IsClass, IsClassWord, class_text};

use crate::cause::Cause;
use crate::fault::Fault;
use crate::table::{CLASSES, row_of};
use crate::word::{number_of_word, push_numbered};
use std::marker::Model;
use zone_name::Sink;

/// A class that can hold zone data (RFC 1035 3.2.4). Contracts see its number.
#[derive(Clone, Copy, Debug, PartialEq, Eq, PartialOrd, Ord)]
pub struct Class {
    number: u16,
}

impl Model for Class {
    ghost use Rattle.std.specs.Prelude.{ℕ};
    ghost use Rattle.zone_rdata.specs.Words.{IsClass};

    ghost Value = { ℕ };

    ghost view = { λ c. c.number };

    ghost invariant = { λ c. IsClass c.number };

    ghost inverse = { λ n. record { number = n } };
}

/// The number of class IN (RFC 1035 3.2.4).
pub(crate) const IN: u16 = 1;

impl Class {
    /// IN, the class of the Internet (RFC 1035 3.2.4).
    pub fn internet() -> Class
        ensures { result ≡ 1 }
    {
        Class { number: IN }
    }

    /// The class of a number, or why no zone data can have it.
    fn admitted(number: u64) -> Result<Class, Cause>
        ensures ok { IfOk result (λ class. class ≡ number) }
        ensures err { IfErr result
            (λ cause. (fault_for cause ≡ Fault.BadClass) × (IsClass number → ⊥)) }
    {
        match u16::try_from(number) {
            Ok(0 | 254 | 255) | Err(_) => Err(Cause::BadClass),
            Ok(number) => Ok(Class { number }),
        }
    }

    /// The class of a number (RFC 6895 3.2).
    ///
    /// # Errors
    ///
    /// `BadClass` where no zone data can have it: 0, 254, 255 and from 65536 on.
    #[tactic(auto, using(std::proofs::lemmas::Result::err_from_is_err_and))]
    pub fn from_number(number: u64) -> Result<Class, Fault>
        ensures ok { IfOk result (λ class. class ≡ number) }
        ensures err { IfErr result (λ fault. (fault ≡ Fault.BadClass) × (IsClass number → ⊥)) }
    {
        Ok(Class::admitted(number)?)
    }

    /// The class of a number of 16 bits (RFC 6895 3.2). `None`: no zone data can have it.
    pub fn of_number(number: u16) -> Option<Class>
        ensures some { IfSome result (λ class. class ≡ number) }
        ensures none { IfNone result (IsClass number → ⊥) }
    {
        Class::admitted(u64::from(number)).ok()
    }

    /// The class of a word in any letter case: IN, CS, CH, HS or CLASS with a number. `None`: it is
    /// no such word.
    ///
    /// # Errors
    ///
    /// `BadClass` where no zone data can have the class.
    #[tactic(auto, using(std::proofs::lemmas::Result::err_from_is_err_and))]
    pub fn from_word(word: &[u8]) -> Result<Option<Class>, Fault>
        ensures found { IfOk result (λ class. IfSome class (IsClassWord word.now)) }
        ensures none { IfOk result (λ class. IfNone class (NothingIs (IsClassWord word.now))) }
        ensures err { IfErr result (λ fault. (fault ≡ Fault.BadClass)
            × ((n : ℕ) × (IsClassWord word.now n × (IsClass n → ⊥)))) }
    {
        Ok(Class::read_word(word)?)
    }

    /// The class of a mnemonic in any letter case: IN, CS, CH, HS or CLASS with a number. `None`:
    /// it is none of these. An error is the cause of the fault, which takes few octets.
    ///
    /// # Errors
    ///
    /// `BadClass` where no zone data can have the class.
    pub fn read_word(word: &[u8]) -> Result<Option<Class>, Cause>
        ensures found { IfOk result (λ class. IfSome class (IsClassWord word.now)) }
        ensures none { IfOk result (λ class. IfNone class (NothingIs (IsClassWord word.now))) }
        ensures err { IfErr result (λ cause. (fault_for cause ≡ Fault.BadClass)
            × ((n : ℕ) × (IsClassWord word.now n × (IsClass n → ⊥)))) }
    {
        // Nearly all records are of the first class, and it is mostly written as it is printed.
        if word == CLASSES[0].mnemonic {
            return Ok(Some(Class::internet()));
        }
        match number_of_word(CLASSES, b"CLASS", word) {
            Some(number) => Ok(Some(Class::admitted(number)?)),
            None => Ok(None),
        }
    }

    /// What holds of every class.
    pub fn known(self)
        ensures { IsClass self }
    {}

    /// The number of the class.
    pub fn number(self) -> u16
        ensures value { result ≡ self }
        ensures class { IsClass result }
    {
        self.number
    }

    /// Appends the word of the class as it is printed.
    ///
    /// # Errors
    ///
    /// `out` refuses the octets, and is unchanged.
    pub fn push_word<S: Sink>(self, out: &mut S) -> Result<(), S::Error>
        ensures ok { OnOk result (S.takes out.old (class_text self) out.new) }
        ensures err { OnErr result (S.takes out.old [] out.new) }
    {
        match row_of(CLASSES, self.number) {
            Some(row) => out.push(row.mnemonic),
            None => push_numbered(b"CLASS", self.number, out),
        }
    }
}
