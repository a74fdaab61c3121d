//! What is printed if no order was given, if a run stopped, or as its answer.
ghost use Rattle.std.specs.Prelude.{◌++◌};
ghost use Rattle.command_input.specs.Answering.{Answers, outputs};
ghost use Rattle.command_input.specs.LineFault.{bad_origin_line, line_status, line_text};
ghost use Rattle.zone_engine.specs.Telling.{stop_line, stop_status, verdict_line, verdict_status, TellsLine};

use crate::line_fault::LineFault;
use itoa::Buffer;
use zone_engine::{
    OUT_OF_MEMORY, READ_FAILED, Verdict, WRITE_FAILED, status, tell, tell_refusal, write_line,
};
use zone_print::OctetWriter;
use zone_rdata::Stop;

/// The exit status of a comparison of two zones that differ.
pub const DIFFERENT: u8 = 1;

/// Prints why a run stopped, after this text, and returns its status: 4 if that could not be
/// printed. It allocates nothing.
pub fn report<E: OctetWriter>(words: &str, stop: &Stop, errors: &mut E) -> u8
    ensures { TellsLine (words.now ++ stop_line stop.now) (stop_status stop.now)
        (E.state errors.old) (E.state errors.new) result }
{
    match stop {
        Stop::Refused(fault, place) => tell_refusal(errors, words, fault, *place, status::REFUSED),
        Stop::Read => tell(errors, words, READ_FAILED, status::FAILED),
        Stop::Write => tell(errors, words, WRITE_FAILED, status::FAILED),
        Stop::Memory => tell(errors, words, OUT_OF_MEMORY, status::FAILED),
    }
}

/// Prints why a command line is no order, and returns the status: 4 if that could not be printed. An
/// origin is one that [`origin_of`](crate::origin_of) reads.
pub fn refuse<E: OctetWriter>(fault: &LineFault, errors: &mut E) -> u8
    ensures { TellsLine (line_text bad_origin_line fault.now) (line_status fault.now)
        (E.state errors.old) (E.state errors.new) result }
{
    tell(errors, "", fault.text(), fault.status())
}

/// Prints why a command line is no order, with a line of the caller's for a bad origin, and returns
/// the status: 4 if that could not be printed.
pub fn refuse_saying<E: OctetWriter>(bad_origin: &str, fault: &LineFault, errors: &mut E) -> u8
    ensures { TellsLine (line_text bad_origin.now fault.now) (line_status fault.now)
        (E.state errors.old) (E.state errors.new) result }
{
    tell(errors, "", fault.text_saying(bad_origin), fault.status())
}

/// Writes these words and a line, and returns this status. If the writer failed, that is reported on
/// the error writer, with status 4. It allocates nothing.
pub fn answer_line<W: OctetWriter, E: OctetWriter>(
    words: &str,
    line: &str,
    answer: u8,
    output: &mut W,
    errors: &mut E,
) -> u8
    ensures { Answers (words.now ++ line.now) answer
        (outputs (W.state output.old) (W.state output.new) (E.state errors.old) (E.state errors.new)) result }
{
    match write_line(output, words, line) {
        Ok(()) => answer,
        Err(stop) => report("", &stop, errors),
    }
}

/// Writes the verdict on two zones, and returns the status: 0 for `same`, 1 for `different at line N`.
/// If the writer failed, that is reported on the error writer, with status 4. It allocates nothing.
pub fn answer_verdict<W: OctetWriter, E: OctetWriter>(
    verdict: Verdict,
    output: &mut W,
    errors: &mut E,
) -> u8
    ensures { Answers (verdict_line verdict) (verdict_status verdict)
        (outputs (W.state output.old) (W.state output.new) (E.state errors.old) (E.state errors.new)) result }
{
    let mut digits = Buffer::new();
    match verdict {
        Verdict::Same => answer_line("", "same", status::SUCCESS, output, errors),
        Verdict::Different(line) => {
            let line = digits.format(line);
            answer_line("different at line ", line, DIFFERENT, output, errors)
        }
    }
}
