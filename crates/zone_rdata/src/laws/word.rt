//! Laws of words and times in text (RFC 1035 5.1, RFC 3597 5).
ghost use Rattle.std.specs.Prelude.{◌<◌, ◌^◌, ◌⊎◌, ℕ, decimal};
ghost use Rattle.zone_name.specs.Common.{AtMostOneIs, EitherIs, NothingIs, Octets};
ghost use Rattle.zone_rdata.specs.declared.fault.Fault.{Fault};
ghost use Rattle.zone_rdata.specs.Number.{IsDecimal, IsTime};
ghost use Rattle.zone_rdata.specs.Words.{IsClass, IsClassWord, IsKind, IsKindWord, IsWordFault, class_text, kind_text};

/// A text states at most one time.
pub fn time_is_unique()
    ensures { (text : Octets) → AtMostOneIs (IsTime text) }
{}

/// A word is that of at most one class.
pub fn class_word_is_unique()
    ensures { (word : Octets) → AtMostOneIs (IsClassWord word) }
{}

/// A word is that of at most one type.
pub fn kind_word_is_unique()
    ensures { (word : Octets) → AtMostOneIs (IsKindWord word) }
{}

/// A word that has a fault at a type's place is that of no type of which records can be, and it has
/// one fault.
pub fn kind_word_has_one_verdict()
    ensures never_both { (word : Octets) (n : ℕ) (fault : Fault)
        → IsKindWord word n → IsKind n → IsWordFault word fault → ⊥ }
    ensures one_fault { (word : Octets) → AtMostOneIs (IsWordFault word) }
{}

/// A text states a decimal number or none, and a time or none.
pub fn numbers_and_times_are_decided()
    ensures decimal { (text : Octets) → ((n : ℕ) × IsDecimal text n) ⊎ NothingIs (IsDecimal text) }
    ensures time { (text : Octets) → ((n : ℕ) × IsTime text n) ⊎ NothingIs (IsTime text) }
{}

/// A word is that of a class or of none.
pub fn class_word_or_none()
    ensures { (word : Octets) → ((n : ℕ) × IsClassWord word n) ⊎ NothingIs (IsClassWord word) }
{}

/// A word is that of a type of which records can be, or has a fault at a type's place.
pub fn kind_word_or_fault()
    ensures { (word : Octets) → EitherIs (λ n. IsKindWord word n × IsKind n) (IsWordFault word) }
{}

/// The word that is printed for a class is that of the class, and the one for a type, in any class,
/// that of the type.
#[tactic(auto, using(crate::proofs::Texts::PrintedWords::printed_words))]
pub fn printed_words_are_read()
    ensures class { (n : ℕ) → IsClass n → IsClassWord (class_text n) n }
    ensures kind { (class n : ℕ) → IsKind n → IsKindWord (kind_text class n) n }
{}

/// What is printed for a number of 64 bits is a decimal number, and as a time so many seconds.
pub fn printed_numbers_are_read()
    ensures decimal { (n : ℕ) → n < 2 ^ 64 → IsDecimal (decimal n) n }
    ensures time { (n : ℕ) → n < 2 ^ 64 → IsTime (decimal n) n }
{}
