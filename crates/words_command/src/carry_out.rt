//! What an order does over a reader and a writer.
ghost use Rattle.std.specs.Prelude.{◌≡◌, List, IfErr, IfOk, OnOk};
ghost use Rattle.zone_words.specs.Entry.{IsRewriting};
ghost use Rattle.zone_words.specs.Refusal.{AreInShort};
ghost use Rattle.zone_words.specs.Rewriting.{Refused};
ghost use Rattle.zone_words.specs.Stopped.{stopped_line};
ghost use Rattle.words_print.specs.Shown.{IsShownText};
ghost use Rattle.words_command.specs.Filtering.{IsStopped, IsWrittenWhole};
ghost use Rattle.words_command.specs.Run.{CarriesOut, Stops, no_line, rewriting, showing};

use crate::failure::Failure;
use crate::filtering::filter_all;
use crate::last_line::LastLine;
use crate::order::Order;
use std::alloc::Global;
use words_print::WordsPrinter;
use zone_engine::OctetReader;
use zone_name::CasedName;
use zone_print::OctetWriter;
use zone_words::{Refusals, Rewriter};

/// The last line of a rewriting that isn't whole.
const STOPPED: LastLine = LastLine {
    inside_line: b"\n$STOPPED\n",
    after_line: b"$STOPPED\n",
};

/// Carries an order out, and returns what there is to report.
///
/// # Errors
///
/// Those of [`rewrite`] and [`show`].
pub(crate) fn carry_out<R: OctetReader, W: OctetWriter>(
    alloc: Global,
    order: &Order,
    input: &mut R,
    output: &mut W,
) -> Result<Refusals, Failure>
    ensures done { IfOk result (λ short. (told : List Refused) × AreInShort told short
        × CarriesOut order.now (R.state input.old) (R.state input.new) (W.state output.old)
        (W.state output.new) told) }
    ensures stopped { IfErr result (Stops order.now (R.state input.old) (R.state input.new)
        (W.state output.old) (W.state output.new)) }
{
    match order {
        Order::Generic(origin) => rewrite(alloc, origin, input, output),
        Order::Words => {
            show(alloc, input, output)?;
            Ok(Refusals {
                first: None,
                count: 0,
            })
        }
    }
}

/// Writes the rewriting of the master file that the reader gives, entry by entry as it comes, and
/// returns what is reported of it. Only the entry that isn't ended is kept.
///
/// # Errors
///
/// `Read` where the reader failed or gives more than 2^63 octets, and `Memory`: what is written for
/// the whole entries before is written, and a last line `$STOPPED`, as far as the writer takes it. A
/// line feed goes before it where the text broke inside a line. `Write` where the writer failed
/// before that.
fn rewrite<R: OctetReader, W: OctetWriter>(
    alloc: Global,
    origin: &CasedName,
    input: &mut R,
    output: &mut W,
) -> Result<Refusals, Failure>
    ensures done { IfOk result (λ short. (told : List Refused) × AreInShort told short
        × IsWrittenWhole (λ octets text. IsRewriting origin.now octets text told)
        (R.state input.old) (R.state input.new) (W.state output.old) (W.state output.new)) }
    ensures stopped { IfErr result (IsStopped (rewriting origin.now) stopped_line
        (R.state input.old) (R.state input.new) (W.state output.old) (W.state output.new)) }
{
    let mut rewriter = Rewriter::new(alloc, origin);
    filter_all(alloc, &mut rewriter, STOPPED, input, output)?;
    Ok(rewriter.refusals())
}

/// Shows the text that the reader gives in presentation format, line by line as it comes. Only the
/// line that isn't ended is kept.
///
/// # Errors
///
/// `Read` where the reader failed or gives more than 2^63 octets, and `Memory`: what is shown for
/// the lines before is written, as far as the writer takes it. `Write` where the writer failed
/// before that.
fn show<R: OctetReader, W: OctetWriter>(
    alloc: Global,
    input: &mut R,
    output: &mut W,
) -> Result<(), Failure>
    ensures done { OnOk result (IsWrittenWhole IsShownText (R.state input.old)
        (R.state input.new) (W.state output.old) (W.state output.new)) }
    ensures stopped { IfErr result (IsStopped showing no_line (R.state input.old)
        (R.state input.new) (W.state output.old) (W.state output.new)) }
{
    let mut printer = WordsPrinter::new(alloc);
    filter_all(alloc, &mut printer, LastLine::NONE, input, output)?;
    Ok(())
}
