use std::alloc::{AllocError, AllocFailed};
use zone_name::NameFault;

/// What is wrong with the items of a record's data, where they state none.
#[derive(Clone, Copy, Debug, PartialEq, Eq)]
pub enum WordsFault {
    /// No item is left for the field.
    NothingLeft,
    /// Items are left after the last field.
    ItemsLeftOver,
    /// The item is neither decimal digits nor a mnemonic of the field.
    NotANumber,
    /// The number is greater than the field holds.
    TooLarge,
    /// The item is no domain name, and what is wrong with it; a quoted one is none.
    NotAName(Option<NameFault>),
    /// The item is no time (RFC 4034 3.2).
    NotATime,
    /// The items are not base64 (RFC 4648 4).
    NoBase64,
    /// The items are not hexadecimal digits.
    NoHexadecimal,
    /// An item is the word of no type that a record can have.
    NotAType,
    /// A character-string has more than 255 octets.
    StringTooLong,
    /// A backslash is followed by digits that are no octet, or by nothing.
    BadEscape,
    /// The data has more than 65,535 octets, or a salt or a hash more than 255.
    TooLong,
    /// The entry has 65,552 items or more.
    TooManyItems,
    /// A line feed stands within quotes.
    LineFeedWithinQuotes,
    /// The item is no tag of 1 to 255 letters and digits (RFC 8659 4.1).
    NotATag,
    /// The item is no address.
    NotAnAddress,
    /// The item is not base32hex (RFC 4648 7).
    NoBase32Hex,
    /// The items are no location (RFC 1876 3).
    NotALocation,
    /// An item is no address prefix (RFC 3123 5).
    NoPrefix,
    /// The item has to stand in quotes.
    NotQuoted,
    /// A parameter begins with no key (RFC 9460 14.3).
    NotAKey,
    /// A key stands twice (RFC 9460 2.1).
    RepeatedKey,
    /// The value is none of its key (RFC 9460 7).
    NotAValue,
    /// A mandatory key is missing (RFC 9460 8).
    MandatoryKeyMissing,
}

/// Why no octets were made of items.
#[derive(Debug, Drop)]
pub enum WordsFailing {
    /// They state none.
    Fault(WordsFault),
    /// Memory was refused.
    OutOfMemory,
}

impl From<WordsFault> for WordsFailing {
    ghost use Rattle.std.specs.Prelude.{◌≡◌};
    ghost use Rattle.type_data.specs.declared.fault.WordsFailing.TheVariants as failings;

    ghost from_gives = { λ fault e. e ≡ failings.Fault fault };

    fn from(fault: WordsFault) -> WordsFailing {
        WordsFailing::Fault(fault)
    }
}

impl From<AllocError> for WordsFailing {
    ghost use Rattle.std.specs.Prelude.{◌≡◌};
    ghost use Rattle.type_data.specs.declared.fault.WordsFailing.TheVariants as failings;

    ghost from_gives = { λ _ e. e ≡ failings.OutOfMemory };

    fn from(_error: AllocError) -> WordsFailing {
        WordsFailing::OutOfMemory
    }
}

impl From<AllocFailed<u8>> for WordsFailing {
    ghost use Rattle.std.specs.Prelude.{◌≡◌};
    ghost use Rattle.type_data.specs.declared.fault.WordsFailing.TheVariants as failings;

    ghost from_gives = { λ _ e. e ≡ failings.OutOfMemory };

    fn from(_failed: AllocFailed<u8>) -> WordsFailing {
        WordsFailing::OutOfMemory
    }
}
