ghost use Rattle.std.specs.Prelude.{◌≡◌, ◌++◌, IfOk, OnErr, OnOk, string_bytes};
ghost use Rattle.zone_engine.specs.Telling.{TellsLine};
ghost use Rattle.command_input.specs.LineFault.{line_status, line_text};
ghost use Rattle.words_command.specs.Order.{bad_origin_line};
ghost use Rattle.words_command.specs.Run.{devices, failure_line, Runs, TellsRefused};
ghost use Rattle.words_command.specs.Telling.{others_words, refusals_line};

use crate::carry_out::carry_out;
use crate::failure::Failure;
use crate::order::Order;
use command_input::{LineFault, refuse_saying, status};
use std::alloc::{AllocError, Global};
use zone_engine::{OUT_OF_MEMORY, OctetReader, tell};
use zone_print::OctetWriter;
use zone_words::{Refusal, Refusals};

/// The whole program over a reader, a writer and an error writer.
///
/// It returns the exit status: 0 if the rewriting of the whole file, or all of the text in
/// presentation format, was written; 3 if the rewriting was, and some entry of a further type states
/// no data, which a line on the error writer reports; 4 if reading, writing or memory failed, with a
/// line that says which. If a line can't be written the status is 4: a proper prefix of it was
/// written, or, if memory was refused for it, the line `out of memory`. With 0 the error writer got
/// nothing.
///
/// If reading failed, or memory was refused before all was written, the writer got what is written
/// for the whole entries before and a last line `$STOPPED`, or a proper prefix of that. Of a text in
/// presentation format it got what is shown for the whole lines before, or a proper prefix of that.
/// A line feed goes before `$STOPPED` if the text broke inside a line. The line is still that of the
/// first failure. If writing failed it got a proper prefix of what was being written, and nothing
/// more. A reader that gives more than 2^63 octets counts as one that failed. No writer is flushed,
/// and a reader or a writer that failed isn't called again.
pub fn run<R: OctetReader, W: OctetWriter, E: OctetWriter>(
    alloc: Global,
    order: &Order,
    input: &mut R,
    output: &mut W,
    errors: &mut E,
) -> u8
    ensures { Runs order.now
        (devices (R.state input.old) (W.state output.old) (E.state errors.old))
        (devices (R.state input.new) (W.state output.new) (E.state errors.new)) result }
{
    match carry_out(alloc, order, input, output) {
        Ok(refusals) => tell_refusals(alloc, &refusals, errors),
        Err(failure) => tell(errors, "", failure.text(), status::FAILED),
    }
}

/// Prints the line on the entries that state no data, and returns the status.
fn tell_refusals<E: OctetWriter>(alloc: Global, refusals: &Refusals, errors: &mut E) -> u8
    ensures { TellsRefused refusals.now (E.state errors.old) (E.state errors.new) result }
{
    match &refusals.first {
        None => status::SUCCESS,
        Some(first) => tell_line(refusals_line(alloc, first, refusals.count), errors),
    }
}

/// The line on the first entry that states no data, of so many.
fn refusals_line(alloc: Global, first: &Refusal, count: u64) -> Result<String, AllocError>
    ensures { IfOk result (λ line. string_bytes line ≡ refusals_line first.now count) }
{
    let mut line = format!(in alloc; "{first}")?;
    push_others(&mut line, count.saturating_sub(1))?;
    Ok(line)
}

/// How many more entries state no data.
fn push_others(line: &mut String, others: u64) -> Result<(), AllocError>
    ensures { OnOk result (string_bytes line.new ≡ string_bytes line.old ++ others_words others) }
{
    match others {
        0 => Ok(()),
        1 => line.push_str(" (and 1 more entry)"),
        _ => write!(line, " (and {others} more entries)"),
    }
}

/// Prints the line on entries that state no data, or that memory was refused for it, and returns
/// the status.
fn tell_line<E: OctetWriter>(line: Result<String, AllocError>, errors: &mut E) -> u8
    ensures told { IfOk line (λ line. TellsLine (string_bytes line) 3
        (E.state errors.old) (E.state errors.new) result) }
    ensures untold { OnErr line (TellsLine (failure_line Failure.Memory) 4
        (E.state errors.old) (E.state errors.new) result) }
{
    match line {
        Ok(line) => tell(errors, "", line.as_str(), status::REFUSED),
        Err(_) => tell(errors, "", OUT_OF_MEMORY, status::FAILED),
    }
}

/// Prints why a command line is no order, and returns the status: 4 if that could not be printed.
pub fn refuse<E: OctetWriter>(fault: &LineFault, errors: &mut E) -> u8
    ensures { TellsLine (line_text bad_origin_line fault.now) (line_status fault.now)
        (E.state errors.old) (E.state errors.new) result }
{
    refuse_saying("an origin is an absolute name", fault, errors)
}
