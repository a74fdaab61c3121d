//! The answer of a call, beside its text.
ghost use Rattle.std.specs.Prelude.{◌≡◌};
ghost use Rattle.zonenorm_c.specs.Answering.{ReportsRefusal, answer_of};

use zone_rdata::{Fault, Place};

/// Accepted, the same, or verified.
pub const ACCEPTED: u32 = 0;

/// Two zones differ, or a zone isn't verified.
pub const DIFFERENT: u32 = 1;

/// The origin spells no absolute name.
pub const BAD_ORIGIN: u32 = 2;

/// An input denotes no zone.
pub const REFUSED: u32 = 3;

/// An allocation failed.
pub const NO_MEMORY: u32 = 4;

/// This library doesn't have that kind of input, that algorithm or that flag.
pub const UNSUPPORTED: u32 = 5;

/// An `$INCLUDE` names a file that wasn't given.
pub const WANTS_FILE: u32 = 6;

/// The answer of a call, beside its text. A field that says nothing is 0.
#[repr(C)]
#[derive(Clone, Copy, Drop)]
pub struct Answer {
    /// The status: one of the numbers above.
    pub status: u32,
    /// The input that stopped a call on two, 1 or 2.
    pub input: u32,
    /// The number of the fault (docs/FAULTS.md).
    pub fault: u32,
    /// The kind of place that the fault has: 0 the input as a whole, 1 a line, 2 a message and an
    /// offset in it.
    pub place: u32,
    /// The line or the message of the fault, or the first line at which two texts differ, from 1.
    pub line: u64,
    /// The offset in the message.
    pub offset: u64,
    /// The number of records of an accepted zone or of a difference, or of entries that state no data.
    pub count: u64,
    /// The file of the fault, by its number in the table from 1, or 0 for the main file.
    pub file: u32,
    /// Reserved: 0.
    pub reserved: u32,
    /// The value of the `$GENERATE` whose line has the fault.
    pub value: u64,
}

/// An answer with this status alone.
pub(crate) fn plain(status: u32) -> Answer
    ensures { result ≡ answer_of status }
{
    Answer {
        status,
        input: 0,
        fault: 0,
        place: 0,
        line: 0,
        offset: 0,
        count: 0,
        file: 0,
        reserved: 0,
        value: 0,
    }
}

/// An answer with this status and count.
pub(crate) fn counted(status: u32, count: u64) -> Answer
    ensures status { result.status ≡ status }
    ensures count { result.count ≡ count }
{
    let mut answer = plain(status);
    answer.count = count;
    answer
}

/// The answer of a refusal.
pub(crate) fn refusal(fault: &Fault, place: Place) -> Answer
    ensures { ReportsRefusal fault.now place result }
{
    let mut answer = plain(REFUSED);
    answer.fault = u32::from(fault.number());
    match place {
        Place::Whole => {}
        Place::Line(line) => {
            answer.place = 1;
            answer.line = line;
        }
        Place::Message(message, offset) => {
            answer.place = 2;
            answer.line = message;
            answer.offset = offset as u64;
        }
    }
    answer
}

/// Returns the version of these exports, which rises when a signature or a struct changes.
#[unsafe(no_mangle)]
pub extern "C" fn zonenorm_abi() -> u32
    ensures { result ≡ 1 }
{
    1
}
