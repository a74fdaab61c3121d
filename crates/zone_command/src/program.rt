ghost use Rattle.zone_command.specs.Run.{devices, ReadsSecond, Runs};
ghost use Rattle.zone_engine.specs.Reading.{ReadsFew};

use crate::order::Order;
use command_input::{answer_verdict, report, status};
use std::alloc::Global;
use zone_engine::{Form, OctetReader, compare, explain, normalise};
use zone_print::OctetWriter;

/// The whole program over two readers, a writer and an error writer. `normalise` and `explain` read
/// the first reader alone. A comparison reads the second one if the first was accepted.
///
/// It returns the exit status: 0 if the canonical text was written, the zone was accepted or both are
/// the same; 1 if two zones differ; 3 if an input is refused; 4 if reading, writing or memory failed.
/// With 3 and 4 a line on the error writer says why, for a comparison after the name of the input;
/// `explain` writes it to the writer with 3. If the line can't be written the status is 4, and a
/// proper prefix of it was written. With 4 the writer got nothing, or a proper prefix of the text or
/// line that the order writes. With 0 and 1 the error writer got nothing.
///
/// No writer is flushed, and a reader or a writer that failed isn't called again.
pub fn run<R1: OctetReader, R2: OctetReader, W: OctetWriter, E: OctetWriter>(
    alloc: Global,
    order: &Order,
    first: &mut R1,
    second: &mut R2,
    output: &mut W,
    errors: &mut E,
) -> u8
    ensures ran { Runs order.now
        (devices (R1.state first.old) (R2.state second.old)
        (W.state output.old) (E.state errors.old))
        (devices (R1.state first.new) (R2.state second.new)
        (W.state output.new) (E.state errors.new)) result }
    ensures first { ReadsFew (R1.state first.old) (R1.state first.new) }
    ensures second { ReadsSecond order.now (R2.state second.old) (R2.state second.new) }
{
    match order {
        Order::Normalise(origin) => {
            match normalise(alloc, Form::with_origin(origin), first, output) {
                Ok(_) => status::SUCCESS,
                Err(stop) => report("", &stop, errors),
            }
        }
        Order::Explain(origin) => {
            match explain(alloc, Form::with_origin(origin), first, output) {
                Ok(status) => status,
                Err(stop) => report("", &stop, errors),
            }
        }
        Order::Compare(one, other) => {
            let forms = (
                Form::with_origin(&one.origin),
                Form::with_origin(&other.origin),
            );
            match compare(alloc, forms.0, first, forms.1, second) {
                Ok(verdict) => answer_verdict(verdict, output, errors),
                Err((which, stop)) => report(which.words(), &stop, errors),
            }
        }
    }
}
