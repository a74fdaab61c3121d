//! What is wrong with the words of a record, in words.
ghost use Rattle.std.specs.Prelude.{◌≡◌};
ghost use Rattle.type_data.specs.FaultText.{fault_text, name_fault_text};

use crate::fault::{WordsFailing, WordsFault};
use std::error::Error;
use std::fmt;
use zone_name::NameFault;

/// What an item is that is no name, by what is wrong with the name.
fn name_fault_text(fault: NameFault) -> &'static str
    ensures { result.now ≡ name_fault_text fault }
{
    match fault {
        NameFault::EmptyLabel => "not a name: a label is empty",
        NameFault::LabelTooLong => "not a name: a label has more than 63 octets",
        NameFault::NameTooLong => "not a name: a name has more than 255 octets",
        NameFault::BadEscape => "not a name: a backslash escape is malformed",
        NameFault::RelativeName => "not a name: a relative name has no origin",
    }
}

impl WordsFault {
    /// What is wrong, in a few words.
    pub fn text(&self) -> &'static str
        ensures { result.now ≡ fault_text self.now }
    {
        match *self {
            WordsFault::NothingLeft => "nothing left",
            WordsFault::ItemsLeftOver => "items left over",
            WordsFault::NotANumber => "not a number",
            WordsFault::TooLarge => "too large",
            WordsFault::NotAName(None) => "not a name",
            WordsFault::NotAName(Some(fault)) => name_fault_text(fault),
            WordsFault::NotATime => "not a time",
            WordsFault::NoBase64 => "not base64",
            WordsFault::NoHexadecimal => "not hexadecimal",
            WordsFault::NotAType => "not a type",
            WordsFault::StringTooLong => "a string is too long",
            WordsFault::BadEscape => "a bad escape",
            WordsFault::TooLong => "too long",
            WordsFault::TooManyItems => "too many items",
            WordsFault::LineFeedWithinQuotes => "a line feed within quotes",
            WordsFault::NotATag => "not a tag",
            WordsFault::NotAnAddress => "not an address",
            WordsFault::NoBase32Hex => "not base32hex",
            WordsFault::NotALocation => "not a location",
            WordsFault::NoPrefix => "not a prefix",
            WordsFault::NotQuoted => "not quoted",
            WordsFault::NotAKey => "not a key",
            WordsFault::RepeatedKey => "a repeated key",
            WordsFault::NotAValue => "not a value",
            WordsFault::MandatoryKeyMissing => "a mandatory key is missing",
        }
    }
}

/// What is wrong, in a few English words, without the line, the type or the field.
impl fmt::Display for WordsFault {
    ghost use Rattle.std.specs.Prelude.{Some};
    ghost use Rattle.type_data.specs.FaultText.{fault_text};

    ghost output = { λ fault. Some (fault_text fault) };

    fn fmt<W: fmt::Write>(&self, f: &mut fmt::Formatter<W>) -> fmt::Result {
        f.write_str(self.text())
    }
}

/// What is wrong, in a few English words; or that memory was refused.
impl fmt::Display for WordsFailing {
    ghost use Rattle.std.specs.Prelude.{Some};
    ghost use Rattle.type_data.specs.FaultText.{failing_text};

    ghost output = { λ failing. Some (failing_text failing) };

    fn fmt<W: fmt::Write>(&self, f: &mut fmt::Formatter<W>) -> fmt::Result {
        match self {
            WordsFailing::Fault(fault) => fault.fmt(f),
            WordsFailing::OutOfMemory => f.write_str("out of memory"),
        }
    }
}

impl Error for WordsFault {}

impl Error for WordsFailing {}
