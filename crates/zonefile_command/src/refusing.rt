//! What is reported if a command line is no order.
ghost use Rattle.zonefile_command.specs.Telling.{AnswersNoOrder};

use crate::no_order::NoOrder;
use command_input::{LineFault, answer_line, status};
use command_line::NoCall;
use zone_engine::{OUT_OF_MEMORY, tell};
use zone_print::OctetWriter;

/// What is printed if the number of faults to report is none.
const BAD_MOST: &str = "error: --most needs a number from 1 to 4294967295";

/// Prints why a command line is no order, and answers the status: help and the version on the writer,
/// with status 0; all else on the error writer.
pub fn refuse<W: OctetWriter, E: OctetWriter>(
    no_order: &NoOrder,
    output: &mut W,
    errors: &mut E,
) -> u8
    ensures { AnswersNoOrder no_order.now (W.state output.old) (W.state output.new)
        (E.state errors.old) (E.state errors.new) result }
{
    match no_order {
        NoOrder::BadOrigin => tell(
            errors,
            "",
            LineFault::BadOrigin.text(),
            status::BAD_COMMAND_LINE,
        ),
        NoOrder::BadMost => tell(errors, "", BAD_MOST, status::BAD_COMMAND_LINE),
        NoOrder::NoCall(no_call) => match no_call {
            NoCall::Shown(text) => {
                answer_line("", text.as_str(), status::SUCCESS, output, errors)
            }
            NoCall::Told(text) => tell(errors, "", text.as_str(), status::BAD_COMMAND_LINE),
            NoCall::Memory => tell(errors, "", OUT_OF_MEMORY, status::FAILED),
        },
    }
}
