ghost use Rattle.std.specs.Prelude.{◌≡◌};
ghost use Rattle.zone_rdata.specs.FaultTable.{fault_row};

use crate::fault::Fault;
use std::fmt;

impl Fault {
    /// Its number, from 1 to 45, by which messages and documents call it.
    pub fn number(&self) -> u8
        ensures { result ≡ (fault_row self.now).number }
    {
        fault_row(self).number
    }

    /// The name of its variant.
    pub fn name(&self) -> &'static str
        ensures { result.now ≡ (fault_row self.now).name }
    {
        fault_row(self).name
    }

    /// What is wrong, in words, without what it carries: the error code or the owner.
    pub fn text(&self) -> &'static str
        ensures { result.now ≡ (fault_row self.now).text }
    {
        fault_row(self).text
    }
}

/// What is wrong, in a few English words, without the number, the name or the place.
impl fmt::Display for Fault {
    ghost use Rattle.std.specs.Prelude.{Some};
    ghost use Rattle.zone_rdata.specs.FaultTable.{fault_row};

    ghost output = { λ fault. Some (fault_row fault).text };

    fn fmt<W: fmt::Write>(&self, f: &mut fmt::Formatter<W>) -> fmt::Result {
        f.write_str(self.text())
    }
}

/// A fault's row in the table of faults.
#[derive(Clone, Copy)]
struct FaultRow {
    number: u8,
    name: &'static str,
    text: &'static str,
}

/// The row of a fault: one match, so that no fault can be without its row.
fn fault_row(fault: &Fault) -> FaultRow
    ensures number { result.number ≡ (fault_row fault.now).number }
    ensures name { result.name.now ≡ (fault_row fault.now).name }
    ensures text { result.text.now ≡ (fault_row fault.now).text }
{
    match fault {
        Fault::EmptyLabel => row(1, "EmptyLabel", "a label is empty"),
        Fault::LabelTooLong => row(2, "LabelTooLong", "a label has more than 63 octets"),
        Fault::NameTooLong => row(3, "NameTooLong", "a name has more than 255 octets"),
        Fault::BadEscape => row(4, "BadEscape", "a backslash escape is malformed"),
        Fault::RelativeName => row(5, "RelativeName", "a relative name has no origin"),
        Fault::BadClass => row(6, "BadClass", "the class can't hold zone data"),
        Fault::UnknownType => row(7, "UnknownType", "the type word is missing or unknown"),
        Fault::MetaType => row(8, "MetaType", "the type can't hold zone data"),
        Fault::BadRdata => row(9, "BadRdata", "the data doesn't fit its type"),
        Fault::BadGeneric => row(10, "BadGeneric", "the generic data is malformed"),
        Fault::StringTooLong => row(
            11,
            "StringTooLong",
            "a character-string has more than 255 octets",
        ),
        Fault::RdataTooLong => row(12, "RdataTooLong", "the data has more than 65535 octets"),
        Fault::BadNumber => row(13, "BadNumber", "a number is malformed or out of range"),
        Fault::UnclosedQuote => row(14, "UnclosedQuote", "a quoted string isn't closed"),
        Fault::UnbalancedParenthesis => row(
            15,
            "UnbalancedParenthesis",
            "parentheses don't balance",
        ),
        Fault::IncludeDirective => row(16, "IncludeDirective", "$INCLUDE isn't read"),
        Fault::UnknownDirective => row(17, "UnknownDirective", "the directive is unknown"),
        Fault::BadDirective => row(18, "BadDirective", "the directive needs one plain item"),
        Fault::NoOwner => row(19, "NoOwner", "the record has no owner"),
        Fault::NoTtl => row(20, "NoTtl", "the record has no TTL"),
        Fault::BadTtl => row(21, "BadTtl", "the TTL is malformed or out of range"),
        Fault::ShortFrame => row(22, "ShortFrame", "the stream ends inside a frame"),
        Fault::ShortMessage => row(23, "ShortMessage", "the message ends too early"),
        Fault::NotAResponse => row(24, "NotAResponse", "the message isn't an answer to a query"),
        Fault::Truncated => row(25, "Truncated", "the message is marked as truncated"),
        Fault::ErrorCode(_) => row(26, "ErrorCode", "the message carries an error code"),
        Fault::BadCounts => row(27, "BadCounts", "the section counts don't fit a transfer"),
        Fault::IdMismatch => row(28, "IdMismatch", "the message ID differs"),
        Fault::BadQuestion => row(29, "BadQuestion", "question and zone don't agree"),
        Fault::ReservedLabel => row(30, "ReservedLabel", "a label has a reserved form"),
        Fault::BadPointer => row(31, "BadPointer", "a compression pointer has a bad target"),
        Fault::TooManyPointers => row(32, "TooManyPointers", "a name has more than 128 pointers"),
        Fault::CompressibleType => row(
            33,
            "CompressibleType",
            "the type may hold pointers and isn't read",
        ),
        Fault::TrailingOctets => row(34, "TrailingOctets", "octets follow the last record"),
        Fault::NoOpeningSoa => row(35, "NoOpeningSoa", "the transfer doesn't begin with an SOA"),
        Fault::SoaMismatch => row(
            36,
            "SoaMismatch",
            "a later SOA differs from the opening one",
        ),
        Fault::AfterClosing => row(37, "AfterClosing", "a record follows the closing SOA"),
        Fault::NoClosingSoa => row(38, "NoClosingSoa", "the transfer has no closing SOA"),
        Fault::ClassMismatch => row(39, "ClassMismatch", "the class differs from the zone's"),
        Fault::MultipleSoa => row(40, "MultipleSoa", "the zone has two SOA records"),
        Fault::DifferingTtl => row(
            41,
            "DifferingTtl",
            "the TTL differs from that of its record set",
        ),
        Fault::NoSoa => row(42, "NoSoa", "the zone has no SOA record"),
        Fault::OutOfZone(_) => row(43, "OutOfZone", "an owner lies outside the zone"),
        Fault::ZoneTooLarge => row(44, "ZoneTooLarge", "the canonical text is too long"),
        Fault::InputTooLong => row(45, "InputTooLong", "the input is too long"),
    }
}

/// A row of the table.
fn row(number: u8, name: &'static str, text: &'static str) -> FaultRow
    ensures number { result.number ≡ number }
    ensures name { result.name.now ≡ name.now }
    ensures text { result.text.now ≡ text.now }
{
    FaultRow { number, name, text }
}
