//! What a reader gives, passed through a filter and written as it comes.
ghost use Rattle.std.specs.Prelude.{◌≡◌, ◌<◌, ◌≤◌, ◌++◌, ℕ, [], List, false, length, IfErr, IfOk, OnErr, OnOk};
ghost use Rattle.std.specs.Io.KnownBytes.{Appends, Consumes, IsAtEnd, Keeps};
ghost use Rattle.zone_print.specs.Device.{Fails, WorksOn};
ghost use Rattle.zone_print.specs.Writing.{AppendsPart, IsFailedWrite};
ghost use Rattle.zone_words.specs.Stopped.{ends_inside, inside_after};
ghost use Rattle.words_command.specs.Filtering.{EndsWith, IsStopped, IsWrittenWhole};
ghost use Rattle.words_command.specs.Machine.Halting.{IfWriterWorks, IsHalted, closing};

use crate::failure::Failure;
use crate::filter::Filter;
use crate::last_line::{LastLine, is_inside_after};
use std::alloc::Global;
use zone_engine::{OctetReader, PIECE, read_piece, zeros};
use zone_print::{OctetWriter, write_octets};
use zone_rdata::Stop;

/// No more is read after so many octets, so that none of them goes uncounted.
const MOST_OCTETS: u64 = 1 << 63;

/// Writes what a filter that was fed nothing writes for all that the reader gives, as it comes.
/// The octets are read in pieces.
///
/// # Errors
///
/// `Read` where the reader failed or gives more than 2^63 octets, and `Memory`: what the filter
/// writes for what was read is written, and the last line, as far as the writer takes it. `Write`
/// where the writer failed before that. A reader or a writer that failed isn't called again.
pub(crate) fn filter_all<F: Filter, R: OctetReader, W: OctetWriter>(
    alloc: Global,
    filter: &mut F,
    last: LastLine,
    input: &mut R,
    output: &mut W,
) -> Result<(), Failure>
    requires going { F.IsOpen filter.old }
    requires unfed { F.fed filter.old ≡ 0 }
    ensures done { OnOk result ((under : F.Under) → F.Stands under filter.old [] []
        → IsWrittenWhole (F.Whole under filter.new) (R.state input.old) (R.state input.new)
        (W.state output.old) (W.state output.new)) }
    ensures stopped { IfErr result (λ failure. (under : F.Under)
        → F.Stands under filter.old [] []
        → IsStopped (F.writes under) (closing last) (R.state input.old) (R.state input.new)
        (W.state output.old) (W.state output.new) failure) }
{
    let mut is_inside = false;
    match pass_all(alloc, filter, input, output, &mut is_inside) {
        Ok(()) => Ok(()),
        Err(failure) => {
            let text = filter.written();
            let end = last.octets(is_inside_after(is_inside, text));
            end_with(failure, text, end, output);
            Err(failure)
        }
    }
}

/// Takes all that the reader gives, and writes all that is written for it.
///
/// # Errors
///
/// Those of [`filter_all`]. But for `Write`, what the filter still holds is to be written, after a
/// text that ends inside a line or doesn't, as `is_inside` has it.
fn pass_all<F: Filter, R: OctetReader, W: OctetWriter>(
    alloc: Global,
    filter: &mut F,
    input: &mut R,
    output: &mut W,
    is_inside: &mut bool,
) -> Result<(), Failure>
    requires going { F.IsOpen filter.old }
    requires unfed { F.fed filter.old ≡ 0 }
    requires begun { is_inside.old ≡ false }
    ensures done { OnOk result ((under : F.Under) → F.Stands under filter.old [] []
        → IsWrittenWhole (F.Whole under filter.new) (R.state input.old) (R.state input.new)
        (W.state output.old) (W.state output.new)) }
    ensures halted { IfErr result (λ failure. (under : F.Under)
        → F.Stands under filter.old [] []
        → IsHalted (F.writes under) (F.held filter.new) is_inside.new
        (R.state input.old) (R.state input.new) (W.state output.old) (W.state output.new) failure) }
{
    let mut piece = zeros(alloc, PIECE)?;
    feed_all(filter, input, &mut piece, output, is_inside)?;
    filter.finish()?;
    write_held(filter, output, is_inside)?;
    Ok(())
}

/// Feeds all that the reader gives to a filter, in pieces, and writes what that decides of each.
///
/// # Errors
///
/// Those of [`pass_all`].
fn feed_all<F: Filter, R: OctetReader, W: OctetWriter>(
    filter: &mut F,
    input: &mut R,
    piece: &mut [u8],
    output: &mut W,
    is_inside: &mut bool,
) -> Result<(), Failure>
    requires going { F.IsOpen filter.old }
    requires unfed { F.fed filter.old ≡ 0 }
    requires begun { is_inside.old ≡ false }
    requires room { 0 < length piece.old }
    requires small { length piece.old ≤ 65536 }
    ensures read { OnOk result ((under : F.Under) → F.Stands under filter.old [] []
        → IsWrittenWhole (λ octets text. F.Stands under filter.new octets text
        × (is_inside.new ≡ ends_inside text)) (R.state input.old) (R.state input.new)
        (W.state output.old) (W.state output.new)) }
    ensures going { OnOk result (F.IsOpen filter.new) }
    ensures halted { IfErr result (λ failure. (under : F.Under)
        → F.Stands under filter.old [] []
        → IsHalted (F.writes under) (F.held filter.new) is_inside.new
        (R.state input.old) (R.state input.new) (W.state output.old) (W.state output.new) failure) }
{
    let mut count = 0;
    while count <= MOST_OCTETS {
        let given = read(input, piece)?;
        if given.is_empty() {
            return Ok(());
        }
        filter.feed(given)?;
        write_held(filter, output, is_inside)?;
        count += given.len() as u64;
    }
    Err(Failure::Read)
}

/// What one read into `piece` gives: nothing at the end alone.
///
/// # Errors
///
/// `Read` where the reader failed. Nothing was read.
fn read<'p, R: OctetReader>(input: &mut R, piece: &'p mut [u8]) -> Result<&'p [u8], Failure>
    requires { 0 < length piece.old }
    ensures taken { IfOk result
        (λ given. Consumes (R.state input.old).octets (R.state input.new).octets given.now) }
    ensures few { IfOk result (λ given. length given.now ≤ length piece.old) }
    ensures end { IfOk result (λ given. given.now ≡ [] → IsAtEnd (R.state input.new).octets) }
    ensures works { OnOk result (WorksOn (R.state input.old) (R.state input.new)) }
    ensures kept { OnErr result (Keeps (R.state input.old).octets (R.state input.new).octets) }
    ensures failed { OnErr result (Fails (R.state input.old) (R.state input.new)) }
    ensures read { IfErr result (λ failure. failure ≡ Failure.Read) }
{
    match read_piece(input, piece) {
        Ok(given) => Ok(given),
        Err(_) => Err(Failure::Read),
    }
}

/// Writes what a filter holds, which counts as given then, and keeps whether what was written ends
/// inside a line.
///
/// # Errors
///
/// `Write` where the writer failed. A proper prefix was written.
fn write_held<F: Filter, W: OctetWriter>(
    filter: &mut F,
    output: &mut W,
    is_inside: &mut bool,
) -> Result<(), Failure>
    ensures written { OnOk result (Appends (W.state output.old).octets (W.state output.new).octets
        (F.held filter.old)) }
    ensures stands { OnOk result ((under : F.Under) (octets given : List ℕ)
        → F.Stands under filter.old octets given
        → F.Stands under filter.new octets (given ++ F.held filter.old)) }
    ensures whole { OnOk result ((under : F.Under) (octets text : List ℕ)
        → F.Whole under filter.old octets text → F.Whole under filter.new octets text) }
    ensures going { OnOk result (F.IsOpen filter.old → F.IsOpen filter.new) }
    ensures count { OnOk result (F.fed filter.new ≡ F.fed filter.old) }
    ensures inside { OnOk result (is_inside.new ≡ inside_after is_inside.old (F.held filter.old)) }
    ensures works { OnOk result (WorksOn (W.state output.old) (W.state output.new)) }
    ensures part { OnErr result (AppendsPart (W.state output.old).octets
        (W.state output.new).octets (F.held filter.old)) }
    ensures failed { OnErr result (Fails (W.state output.old) (W.state output.new)) }
    ensures write { IfErr result (λ failure. failure ≡ Failure.Write) }
{
    match write_octets(output, filter.written()) {
        Ok(()) => {
            *is_inside = is_inside_after(*is_inside, filter.written());
            filter.clear_written();
            Ok(())
        }
        Err(_) => Err(Failure::Write),
    }
}

/// Ends what was written after a failure: by what is still to be written and a last line, where the
/// writer hasn't failed.
fn end_with<W: OctetWriter>(failure: Failure, text: &[u8], last: &[u8], output: &mut W)
    ensures ended { IfWriterWorks failure
        (EndsWith last.now text.now (W.state output.old) (W.state output.new)) }
    ensures left { failure ≡ Failure.Write → output.new ≡ output.old }
{
    match failure {
        Failure::Read => write_last(text, last, output),
        Failure::Memory => write_last(text, last, output),
        Failure::Write => {}
    }
}

/// Writes a text and then a last line, as far as the writer takes both.
fn write_last<W: OctetWriter>(text: &[u8], last: &[u8], output: &mut W)
    ensures { EndsWith last.now text.now (W.state output.old) (W.state output.new) }
{
    let _written = write_both(text, last, output);
}

/// Writes these octets and others.
///
/// # Errors
///
/// `Write` where the writer failed. A proper prefix of both was written.
fn write_both<W: OctetWriter>(octets: &[u8], others: &[u8], output: &mut W) -> Result<(), Stop>
    ensures written { OnOk result (Appends (W.state output.old).octets
        (W.state output.new).octets (octets.now ++ others.now)) }
    ensures part { OnErr result (AppendsPart (W.state output.old).octets
        (W.state output.new).octets (octets.now ++ others.now)) }
    ensures works { OnOk result (WorksOn (W.state output.old) (W.state output.new)) }
    ensures failed { IfErr result (IsFailedWrite (W.state output.old) (W.state output.new)) }
{
    write_octets(output, octets)?;
    write_octets(output, others)?;
    Ok(())
}
