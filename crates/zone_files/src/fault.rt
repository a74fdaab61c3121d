//! Why a file can't be expanded.
ghost use Rattle.std.specs.Prelude.{◌≡◌};
ghost use Rattle.zone_rdata.specs.FaultTable.{fault_row};
ghost use Rattle.zone_files.specs.ExpansionFault.{expansion_row};

use std::alloc::AllocError;
use std::error::Error;
use std::fmt;
use zone_rdata::Fault;

/// Why the entries of a file, and of those that it includes, make no text.
#[derive(Clone, Copy, Debug, PartialEq, Eq)]
pub enum ExpansionFault {
    /// An entry omits its owner, none holds in its file, and one was stated in another (RFC 1035
    /// 5.1).
    NoOwner,
    /// `$INCLUDE` has no item or more than two, or its origin is quoted or no name (RFC 1035 5.1).
    BadInclude,
    /// The file name of an `$INCLUDE` isn't one below the directory.
    BadFileName,
    /// More files are open or were opened than a run may open, or this one is open.
    TooManyIncludes,
    /// The items of a `$GENERATE` aren't a range, an owner, a type and one item of data, with at
    /// most a TTL and a class before the type.
    BadGenerate,
    /// A range isn't `START-STOP` or `START-STOP/STEP` within the limits.
    BadRange,
    /// A range has more than 16,777,216 values.
    TooManyValues,
    /// A template says nothing for a value, or the line for it isn't one entry.
    BadTemplate,
    /// The expanded text has more than 1,073,741,824 octets.
    InputTooLong,
}

impl ExpansionFault {
    /// Its number, by which messages and documents call it.
    pub fn number(self) -> u8
        ensures { result ≡ (expansion_row self).number }
    {
        row_of(self).number
    }

    /// The name of its variant.
    pub fn name(self) -> &'static str
        ensures { result.now ≡ (expansion_row self).name }
    {
        row_of(self).name
    }

    /// What is wrong.
    pub fn text(self) -> &'static str
        ensures { result.now ≡ (expansion_row self).text }
    {
        row_of(self).text
    }
}

/// What is wrong, as [`ExpansionFault::text`] has it.
impl fmt::Display for ExpansionFault {
    ghost use Rattle.std.specs.Prelude.{Some};
    ghost use Rattle.zone_files.specs.ExpansionFault.{expansion_row};

    ghost output = { λ fault. Some (expansion_row fault).text };

    fn fmt<W: fmt::Write>(&self, f: &mut fmt::Formatter<W>) -> fmt::Result {
        f.write_str(self.text())
    }
}

impl Error for ExpansionFault {}

/// Why something wasn't made of an entry.
#[derive(Debug, Drop)]
pub enum ExpansionFailing {
    /// The entry has a fault.
    Fault(ExpansionFault),
    /// Memory was refused.
    Memory,
}

impl From<ExpansionFault> for ExpansionFailing {
    ghost use Rattle.zone_files.specs.declared.fault.ExpansionFailing.TheVariants as failings;

    ghost from_gives = { λ fault e. e ≡ failings.Fault fault };

    fn from(fault: ExpansionFault) -> ExpansionFailing {
        ExpansionFailing::Fault(fault)
    }
}

impl From<AllocError> for ExpansionFailing {
    ghost use Rattle.zone_files.specs.declared.fault.ExpansionFailing.TheVariants.{Memory};

    ghost from_gives = { λ _ e. e ≡ Memory };

    fn from(_error: AllocError) -> ExpansionFailing {
        ExpansionFailing::Memory
    }
}

/// A fault's row in the table of faults.
#[derive(Clone, Copy)]
struct FaultRow {
    number: u8,
    name: &'static str,
    text: &'static str,
}

/// The row of a fault: one match, so that no fault can be without its row.
fn row_of(fault: ExpansionFault) -> FaultRow
    ensures number { result.number ≡ (expansion_row fault).number }
    ensures name { result.name.now ≡ (expansion_row fault).name }
    ensures text { result.text.now ≡ (expansion_row fault).text }
{
    match fault {
        ExpansionFault::NoOwner => shared_row(&Fault::NoOwner),
        ExpansionFault::BadInclude => row(
            47,
            "BadInclude",
            "$INCLUDE needs a file name and at most an origin",
        ),
        ExpansionFault::BadFileName => row(
            48,
            "BadFileName",
            "the file name isn't one below the directory",
        ),
        ExpansionFault::TooManyIncludes => row(
            49,
            "TooManyIncludes",
            "files include one another too deep or too often",
        ),
        ExpansionFault::BadGenerate => row(
            50,
            "BadGenerate",
            "$GENERATE needs a range, an owner, a type and one item of data",
        ),
        ExpansionFault::BadRange => row(
            51,
            "BadRange",
            "the range isn't START-STOP or START-STOP/STEP",
        ),
        ExpansionFault::TooManyValues => row(
            52,
            "TooManyValues",
            "the range has more than 16777216 values",
        ),
        ExpansionFault::BadTemplate => row(
            53,
            "BadTemplate",
            "the template says nothing for this value",
        ),
        ExpansionFault::InputTooLong => shared_row(&Fault::InputTooLong),
    }
}

/// A row of the table.
fn row(number: u8, name: &'static str, text: &'static str) -> FaultRow
    ensures number { result.number ≡ number }
    ensures name { result.name.now ≡ name.now }
    ensures text { result.text.now ≡ text.now }
{
    FaultRow { number, name, text }
}

/// The row of a fault that the reader of one text has too.
fn shared_row(fault: &Fault) -> FaultRow
    ensures number { result.number ≡ (fault_row fault.now).number }
    ensures name { result.name.now ≡ (fault_row fault.now).name }
    ensures text { result.text.now ≡ (fault_row fault.now).text }
{
    row(fault.number(), fault.name(), fault.text())
}
