//! The lines that tell people why a call stopped, or why a record could not be made.
ghost use Rattle.std.specs.Prelude.{◌≡◌, ◌++◌, ◌≤◌, codes, decimal, length, OnOk};
ghost use Rattle.zone_rdata.specs.FaultTable.{fault_row};
ghost use Rattle.zone_rdata.specs.StopText.{argument_of, place_words, refusal_line};

use crate::fault::{Failing, Fault, Place, Stop};
use itoa::Buffer;
use std::error::Error;
use std::fmt;
use zone_name::{FixedBuffer, FormatterSink, Sink};

/// No line of a refusal has more octets. An owner's canonical spelling has 1,021 at most.
const LONGEST: usize = 2048;

/// The line that tells a user why a call stopped, without a line feed: of a refusal the number, the
/// name and the argument of the fault, its place, and what is wrong.
impl fmt::Display for Stop {
    ghost use Rattle.std.specs.Prelude.{Some};
    ghost use Rattle.zone_rdata.specs.StopText.{stop_line};

    ghost output = { λ stop. Some (stop_line stop) };

    fn fmt<W: fmt::Write>(&self, f: &mut fmt::Formatter<W>) -> fmt::Result {
        match self {
            Stop::Refused(fault, place) => {
                let mut sink = FormatterSink::new(f);
                push_refusal(fault, *place, &mut sink)?;
                sink.finish()
            }
            Stop::Read => f.write_str("read failed"),
            Stop::Write => f.write_str("write failed"),
            Stop::Memory => f.write_str("out of memory"),
        }
    }
}

/// The line that tells a user why a record could not be made, without a line feed: of a fault its
/// number, its name and its argument, and what is wrong.
impl fmt::Display for Failing {
    ghost use Rattle.std.specs.Prelude.{Some};
    ghost use Rattle.zone_rdata.specs.StopText.{failing_line};

    ghost output = { λ failing. Some (failing_line failing) };

    fn fmt<W: fmt::Write>(&self, f: &mut fmt::Formatter<W>) -> fmt::Result {
        match self {
            Failing::Fault(fault) => {
                let mut sink = FormatterSink::new(f);
                push_fault(fault, &mut sink)?;
                sink.push(b": ")?;
                sink.push(fault.text().as_bytes())?;
                sink.finish()
            }
            Failing::Memory => f.write_str("out of memory"),
        }
    }
}

/// The line of a refusal, as `{}` shows it of a `Stop`, in a room of its own. It takes no memory.
pub fn line_of_refusal(fault: &Fault, place: Place) -> FixedBuffer<LONGEST>
    ensures { result ≡ refusal_line fault.now place }
{
    let mut line = FixedBuffer::new();
    let Ok(()) = push_refusal(fault, place, &mut line);
    line
}

/// Number, name and argument of the fault, its place, and what is wrong.
#[tactic(auto, using(crate::proofs::Texts::StopTexts::line_short))]
fn push_refusal<S: Sink>(fault: &Fault, place: Place, out: &mut S) -> Result<(), S::Error>
    ensures text { OnOk result (S.takes out.old (refusal_line fault.now place) out.new) }
    ensures short { OnOk result (length (refusal_line fault.now place) ≤ LONGEST) }
{
    push_fault(fault, out)?;
    match place {
        Place::Line(number) => push_number(b" at line ", number, out)?,
        Place::Message(number, offset) => {
            push_number(b" at message ", number, out)?;
            push_number(b" offset ", offset as u64, out)?;
        }
        Place::Whole => out.push(b" in the input")?,
    }
    out.push(b": ")?;
    out.push(fault.text().as_bytes())
}

/// Number and name of the fault, and the error code or the owner that it names.
#[tactic(auto, using(crate::proofs::Texts::StopTexts::owner_short))]
fn push_fault<S: Sink>(fault: &Fault, out: &mut S) -> Result<(), S::Error>
    ensures text { OnOk result (S.takes out.old (codes "F" ++ decimal (fault_row fault.now).number
        ++ codes " " ++ (fault_row fault.now).name ++ argument_of fault.now) out.new) }
    ensures short { OnOk result (length (argument_of fault.now) ≤ 1022) }
{
    push_number(b"F", u64::from(fault.number()), out)?;
    out.push(b" ")?;
    out.push(fault.name().as_bytes())?;
    match fault {
        Fault::ErrorCode(code) => push_number(b" ", u64::from(*code), out),
        Fault::OutOfZone(owner) => {
            owner.known();
            out.push(b" ")?;
            owner.push_text(out)
        }
        _ => Ok(()),
    }
}

/// Words, and a number after them.
fn push_number<S: Sink>(words: &[u8], number: u64, out: &mut S) -> Result<(), S::Error>
    ensures text { OnOk result (S.takes out.old (words.now ++ decimal number) out.new) }
    ensures short { OnOk result (length (decimal number) ≤ 40) }
{
    out.push(words)?;
    out.push(Buffer::new().format(number).as_bytes())
}

impl Error for Stop {}

impl Error for Failing {}

impl Error for Fault {}
