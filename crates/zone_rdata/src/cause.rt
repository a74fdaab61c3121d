ghost use Rattle.std.specs.Prelude.{◌≡◌};
ghost use Rattle.zone_rdata.specs.Cause.{fault_for};
ghost use Rattle.zone_rdata.specs.Fault.{fault_of};

use crate::fault::Fault;
use zone_name::NameFault;

/// Why an entry, a word, an item, data or a message is refused, in two octets: a `Fault` has room
/// for a name.
#[derive(Clone, Copy, Debug)]
pub enum Cause {
    EmptyLabel,
    LabelTooLong,
    NameTooLong,
    BadEscape,
    RelativeName,
    BadClass,
    UnknownType,
    MetaType,
    BadRdata,
    BadGeneric,
    StringTooLong,
    RdataTooLong,
    BadNumber,
    IncludeDirective,
    UnknownDirective,
    BadDirective,
    NoOwner,
    NoTtl,
    BadTtl,
    ShortMessage,
    NotAResponse,
    Truncated,
    ErrorCode(u8),
    BadCounts,
    IdMismatch,
    BadQuestion,
    ReservedLabel,
    BadPointer,
    TooManyPointers,
    CompressibleType,
    TrailingOctets,
    NoOpeningSoa,
    SoaMismatch,
    AfterClosing,
}

impl Cause {
    /// The fault of the same name.
    // Not inlined: only what is refused needs the room.
    #[cold]
    #[inline(never)]
    pub fn widened(self) -> Fault
        ensures { result ≡ fault_for self }
    {
        match self {
            Cause::EmptyLabel => Fault::EmptyLabel,
            Cause::LabelTooLong => Fault::LabelTooLong,
            Cause::NameTooLong => Fault::NameTooLong,
            Cause::BadEscape => Fault::BadEscape,
            Cause::RelativeName => Fault::RelativeName,
            Cause::BadClass => Fault::BadClass,
            Cause::UnknownType => Fault::UnknownType,
            Cause::MetaType => Fault::MetaType,
            Cause::BadRdata => Fault::BadRdata,
            Cause::BadGeneric => Fault::BadGeneric,
            Cause::StringTooLong => Fault::StringTooLong,
            Cause::RdataTooLong => Fault::RdataTooLong,
            Cause::BadNumber => Fault::BadNumber,
            Cause::IncludeDirective => Fault::IncludeDirective,
            Cause::UnknownDirective => Fault::UnknownDirective,
            Cause::BadDirective => Fault::BadDirective,
            Cause::NoOwner => Fault::NoOwner,
            Cause::NoTtl => Fault::NoTtl,
            Cause::BadTtl => Fault::BadTtl,
            Cause::ShortMessage => Fault::ShortMessage,
            Cause::NotAResponse => Fault::NotAResponse,
            Cause::Truncated => Fault::Truncated,
            Cause::ErrorCode(code) => Fault::ErrorCode(code),
            Cause::BadCounts => Fault::BadCounts,
            Cause::IdMismatch => Fault::IdMismatch,
            Cause::BadQuestion => Fault::BadQuestion,
            Cause::ReservedLabel => Fault::ReservedLabel,
            Cause::BadPointer => Fault::BadPointer,
            Cause::TooManyPointers => Fault::TooManyPointers,
            Cause::CompressibleType => Fault::CompressibleType,
            Cause::TrailingOctets => Fault::TrailingOctets,
            Cause::NoOpeningSoa => Fault::NoOpeningSoa,
            Cause::SoaMismatch => Fault::SoaMismatch,
            Cause::AfterClosing => Fault::AfterClosing,
        }
    }
}

impl From<Cause> for Fault {
    ghost from_gives = { λ cause e. e ≡ fault_for cause };

    fn from(cause: Cause) -> Fault {
        cause.widened()
    }
}

impl From<NameFault> for Cause {
    ghost from_gives = { λ fault e. fault_for e ≡ fault_of fault };

    fn from(fault: NameFault) -> Cause {
        match fault {
            NameFault::EmptyLabel => Cause::EmptyLabel,
            NameFault::LabelTooLong => Cause::LabelTooLong,
            NameFault::NameTooLong => Cause::NameTooLong,
            NameFault::BadEscape => Cause::BadEscape,
            NameFault::RelativeName => Cause::RelativeName,
        }
    }
}

impl From<NameFault> for Fault {
    ghost from_gives = { λ fault e. e ≡ fault_of fault };

    fn from(fault: NameFault) -> Fault {
        Cause::from(fault).widened()
    }
}
