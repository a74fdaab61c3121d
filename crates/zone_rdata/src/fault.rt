ghost use Rattle.std.specs.Prelude.{◌≡◌};
ghost use Rattle.zone_rdata.specs.Fault.{fault_of};

use std::alloc::AllocError;
use zone_name::{Name, NameFault};

/// Why an input is refused.
#[derive(Debug, Drop)]
pub enum Fault {
    /// A label of a name's text has no octets, or the whole text is empty (RFC 1035 2.3.1).
    EmptyLabel,
    /// A label has more than 63 octets (RFC 1035 2.3.4).
    LabelTooLong,
    /// A name has more than 255 octets, with those of its origin (RFC 1035 2.3.4).
    NameTooLong,
    /// A backslash is followed by a line feed, a carriage return, the end, fewer than three digits
    /// or a number over 255 (RFC 1035 5.1).
    BadEscape,
    /// A name is relative and no origin was handed in (RFC 1035 5.1).
    RelativeName,
    /// The class is 0, NONE 254, ANY 255 or over 65535 (RFC 6895 3.2).
    BadClass,
    /// The type is missing or quoted, or is neither a mnemonic that is read nor TYPE with a number
    /// up to 65535 (RFC 3597 5).
    UnknownType,
    /// The type is 0, OPT 41 or one of 128 to 255 (RFC 6895 3.1).
    MetaType,
    /// The items or octets aren't exactly one value for each field of the type: one is missing,
    /// left over, quoted where no string belongs, or no address (RFC 1035 3.3, 5.1).
    BadRdata,
    /// The generic form is malformed, or missing for a type that is read in no other (RFC 3597 5).
    BadGeneric,
    /// A character-string has more than 255 octets (RFC 1035 3.3).
    StringTooLong,
    /// The data has more than 65,535 octets (RFC 1035 3.2.1).
    RdataTooLong,
    /// A number or time of the data is malformed, or over 4294967295 in an SOA, over 65535
    /// elsewhere (RFC 1035 3.3).
    BadNumber,
    /// The input ends inside a quoted item (RFC 1035 5.1).
    UnclosedQuote,
    /// A `)` closes nothing, or the input ends inside parentheses (RFC 1035 5.1).
    UnbalancedParenthesis,
    /// The entry is an `$INCLUDE`, which isn't read (RFC 1035 5.1).
    IncludeDirective,
    /// The entry's first item begins with `$` and is none of `$ORIGIN`, `$INCLUDE` and `$TTL` (RFC
    /// 1035 5.1; RFC 2308 4).
    UnknownDirective,
    /// What follows `$ORIGIN` (RFC 1035 5.1) or `$TTL` (RFC 2308 4) isn't exactly one item without
    /// quotes.
    BadDirective,
    /// An entry omits its owner and none was stated before, or the owner is quoted (RFC 1035 5.1).
    NoOwner,
    /// A record omits its TTL, and neither `$TTL`, an earlier TTL nor an SOA gives one (RFC 1035
    /// 5.1; RFC 2308 4).
    NoTtl,
    /// A TTL is malformed or over 2147483647 seconds (RFC 2181 8).
    BadTtl,
    /// The stream ends inside the two octets of a length or inside the message after them (RFC 1035
    /// 4.2.2).
    ShortFrame,
    /// The header, a question or a record runs past the end of the message (RFC 1035 4.1).
    ShortMessage,
    /// The message's QR is 0 or its OPCODE isn't 0 (RFC 1035 4.1.1).
    NotAResponse,
    /// The message's TC is 1 (RFC 1035 4.1.1).
    Truncated,
    /// The message carries this RCODE, which isn't 0 (RFC 1035 4.1.1).
    ErrorCode(u8),
    /// The message's QDCOUNT is over 1 or its NSCOUNT isn't 0 (RFC 5936 2.2).
    BadCounts,
    /// The message's ID differs from the first message's (RFC 5936 2.2.1).
    IdMismatch,
    /// A question's type isn't AXFR 252, or its name or class isn't that of the zone's SOA (RFC
    /// 5936 2.1.2, 2.2.2).
    BadQuestion,
    /// A label's two top bits are 01 or 10 (RFC 1035 4.1.4).
    ReservedLabel,
    /// A compression pointer leads into the header, below octet 12, or not before the labels that
    /// it ends: to no prior occurrence of a name (RFC 1035 4.1.4).
    BadPointer,
    /// A name has more than 128 compression pointers, a limit of this project's own (RFC 1035 4.1.4
    /// has none).
    TooManyPointers,
    /// The type's data may hold compression pointers and isn't read: MD 3, MF 4, MB 7, MG 8, MR 9,
    /// MINFO 14, RP 17, AFSDB 18, RT 21, SIG 24, PX 26 or NXT 30 (RFC 3597 4).
    CompressibleType,
    /// Octets follow the last record of the message (RFC 1035 4.1).
    TrailingOctets,
    /// The first answer of the transfer is no SOA (RFC 5936 2.2).
    NoOpeningSoa,
    /// A later SOA of the transfer differs from the opening one (RFC 5936 2.2).
    SoaMismatch,
    /// An answer follows the closing SOA of the transfer (RFC 5936 2.2).
    AfterClosing,
    /// The stream ends before the opening SOA comes again (RFC 5936 2.2).
    NoClosingSoa,
    /// A record's class differs from the first record's (RFC 1035 5.2).
    ClassMismatch,
    /// An SOA differs from an earlier one in owner or data (RFC 1035 5.2).
    MultipleSoa,
    /// A TTL differs from that of its record set (RFC 2181 5.2); RRSIG records are one set for each
    /// type covered.
    DifferingTtl,
    /// The zone has no SOA (RFC 1035 5.2).
    NoSoa,
    /// This owner, the least such one, is neither at nor below the SOA's owner (RFC 1034 3.1, 4.2).
    OutOfZone(Name),
    /// The canonical text has more than 1,073,741,824 octets, a limit of this project's own.
    ZoneTooLarge,
    /// The input has more than 1,073,741,824 octets, a limit of this project's own.
    InputTooLong,
}

impl Fault {
    /// A copy of the fault.
    pub fn copy(&self) -> Fault
        ensures { result ≡ self.now }
    {
        match self {
            Fault::EmptyLabel => Fault::EmptyLabel,
            Fault::LabelTooLong => Fault::LabelTooLong,
            Fault::NameTooLong => Fault::NameTooLong,
            Fault::BadEscape => Fault::BadEscape,
            Fault::RelativeName => Fault::RelativeName,
            Fault::BadClass => Fault::BadClass,
            Fault::UnknownType => Fault::UnknownType,
            Fault::MetaType => Fault::MetaType,
            Fault::BadRdata => Fault::BadRdata,
            Fault::BadGeneric => Fault::BadGeneric,
            Fault::StringTooLong => Fault::StringTooLong,
            Fault::RdataTooLong => Fault::RdataTooLong,
            Fault::BadNumber => Fault::BadNumber,
            Fault::UnclosedQuote => Fault::UnclosedQuote,
            Fault::UnbalancedParenthesis => Fault::UnbalancedParenthesis,
            Fault::IncludeDirective => Fault::IncludeDirective,
            Fault::UnknownDirective => Fault::UnknownDirective,
            Fault::BadDirective => Fault::BadDirective,
            Fault::NoOwner => Fault::NoOwner,
            Fault::NoTtl => Fault::NoTtl,
            Fault::BadTtl => Fault::BadTtl,
            Fault::ShortFrame => Fault::ShortFrame,
            Fault::ShortMessage => Fault::ShortMessage,
            Fault::NotAResponse => Fault::NotAResponse,
            Fault::Truncated => Fault::Truncated,
            Fault::ErrorCode(code) => Fault::ErrorCode(*code),
            Fault::BadCounts => Fault::BadCounts,
            Fault::IdMismatch => Fault::IdMismatch,
            Fault::BadQuestion => Fault::BadQuestion,
            Fault::ReservedLabel => Fault::ReservedLabel,
            Fault::BadPointer => Fault::BadPointer,
            Fault::TooManyPointers => Fault::TooManyPointers,
            Fault::CompressibleType => Fault::CompressibleType,
            Fault::TrailingOctets => Fault::TrailingOctets,
            Fault::NoOpeningSoa => Fault::NoOpeningSoa,
            Fault::SoaMismatch => Fault::SoaMismatch,
            Fault::AfterClosing => Fault::AfterClosing,
            Fault::NoClosingSoa => Fault::NoClosingSoa,
            Fault::ClassMismatch => Fault::ClassMismatch,
            Fault::MultipleSoa => Fault::MultipleSoa,
            Fault::DifferingTtl => Fault::DifferingTtl,
            Fault::NoSoa => Fault::NoSoa,
            Fault::OutOfZone(owner) => Fault::OutOfZone(owner.copy()),
            Fault::ZoneTooLarge => Fault::ZoneTooLarge,
            Fault::InputTooLong => Fault::InputTooLong,
        }
    }
}

/// Where a refusal stands.
#[derive(Clone, Copy, Debug, PartialEq, Eq)]
pub enum Place {
    /// The line of a master file's entry, from 1.
    Line(u64),
    /// A message of a transfer, from 1, and an offset in it, in octets.
    Message(u64, usize),
    /// The input as a whole.
    Whole,
}

/// Why a call stopped.
#[derive(Debug, Drop)]
pub enum Stop {
    /// The input is refused, and where.
    Refused(Fault, Place),
    /// The reader answered an error.
    Read,
    /// The writer answered an error, or took no octet of a nonempty buffer.
    Write,
    /// Memory was refused.
    Memory,
}

impl From<AllocError> for Stop {
    ghost use Rattle.zone_rdata.specs.declared.fault.Stop.TheVariants as stops;

    ghost from_gives = { λ _ e. e ≡ stops.Memory };

    fn from(_error: AllocError) -> Stop {
        Stop::Memory
    }
}

/// Why one record or its data could not be made.
#[derive(Debug, Drop)]
pub enum Failing {
    /// The record or its data is refused.
    Fault(Fault),
    /// Memory was refused.
    Memory,
}

impl From<Fault> for Failing {
    ghost use Rattle.zone_rdata.specs.declared.fault.Failing.TheVariants as failings;

    ghost from_gives = { λ fault e. e ≡ failings.Fault fault };

    fn from(fault: Fault) -> Failing {
        Failing::Fault(fault)
    }
}

impl From<NameFault> for Failing {
    ghost use Rattle.zone_rdata.specs.declared.fault.Failing.TheVariants as failings;

    ghost from_gives = { λ fault e. e ≡ failings.Fault (fault_of fault) };

    fn from(fault: NameFault) -> Failing {
        Failing::Fault(Fault::from(fault))
    }
}

impl From<AllocError> for Failing {
    ghost use Rattle.zone_rdata.specs.declared.fault.Failing.TheVariants.{Memory};

    ghost from_gives = { λ _ e. e ≡ Memory };

    fn from(_error: AllocError) -> Failing {
        Failing::Memory
    }
}
