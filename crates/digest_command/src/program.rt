ghost use Rattle.digest_command.specs.Run.{devices, Runs, TellsKnown};
ghost use Rattle.zone_engine.specs.Reading.{ReadsFew};

use crate::answer::answer_to;
use crate::order::Order;
use command_input::report;
use std::alloc::Global;
use zone_engine::OctetReader;
use zone_engine::laws::{no_zone_of_a_refused_input, one_zone};
use zone_print::{OctetWriter, write_octets};

/// The whole program over a reader, a writer and an error writer.
///
/// It returns the exit status: of an order to verify 0 if the zone is verified, and 1 if it isn't,
/// with lines on the writer about its ZONEMD records; of one to digest 0, with the zone's record on
/// the writer; 3 if the input is refused; 4 if reading, writing or memory failed. With 3 and 4 a line
/// on the error writer says why. If that can't be written the status is 4, and a proper prefix of the
/// line was written. With 3 the writer got nothing, with 4 nothing or a proper prefix of the lines,
/// and with 0 and 1 the error writer got nothing. No writer is flushed, and a reader or a writer that
/// failed isn't called again.
pub fn run<R: OctetReader, W: OctetWriter, E: OctetWriter>(
    alloc: Global,
    order: &Order,
    input: &mut R,
    output: &mut W,
    errors: &mut E,
) -> u8
    ensures ran { Runs order.now
        (devices (R.state input.old) (W.state output.old) (E.state errors.old))
        (devices (R.state input.new) (W.state output.new) (E.state errors.new)) result }
    ensures told { TellsKnown order.now (R.state input.old).octets result }
    ensures few { ReadsFew (R.state input.old) (R.state input.new) }
{
    one_zone();
    no_zone_of_a_refused_input();
    let answer = match answer_to(alloc, order, input) {
        Ok(answer) => answer,
        Err(stop) => return report("", &stop, errors),
    };
    match write_octets(output, answer.text.as_slice()) {
        Ok(()) => answer.status,
        Err(stop) => report("", &stop, errors),
    }
}
