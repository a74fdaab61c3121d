//! The lines on inputs that give no zone.
ghost use Rattle.std.specs.Prelude.{◌≡◌, ◌++◌, ℕ, List, IfErr, OnErr, OnOk, option_map, Some, None};
ghost use Rattle.zone_print.specs.Device.{WorksOn};
ghost use Rattle.zone_print.specs.Writing.{IsFailedWrite};
ghost use Rattle.zone_engine.specs.Telling.{TellsLine, WritesLine, WritesPartOfLine, stop_line, stop_status, which_words};
ghost use Rattle.zonefile_command.specs.Inputs.{path_of};
ghost use Rattle.zonefile_command.specs.Told.{IsPlaced, IsStopLine, TellsText, TellsUnread, TellsUnreadable, files_status, main_line};

use crate::order::FileSource;
use command_input::status;
use zone_engine::{OUT_OF_MEMORY, READ_FAILED, WRITE_FAILED, Which, write_line, write_refusal};
use zone_files::{
    EntryPlace, ExpandedRefusal, FaultPlace, FilesStop, IncludeStack, PresentationRefusal,
    write_data_fault, write_expansion_fault, write_fault, write_unreadable, write_unreadable_main,
};
use zone_print::OctetWriter;
use zone_rdata::{Place, Stop};

/// Prints why an input gives no zone, after these words, and returns the status: 4 if that couldn't be
/// printed. The path is that of the command line.
pub(crate) fn tell_stop<E: OctetWriter>(
    errors: &mut E,
    words: &str,
    path: &str,
    stop: &FilesStop,
) -> u8
    ensures { (line : List ℕ) × IsStopLine words.now path.now stop.now line
        × TellsLine line (files_status stop.now) (E.state errors.old) (E.state errors.new) result }
{
    match write_stop(errors, words, path, stop) {
        Ok(()) => status_of(stop),
        Err(_) => status::FAILED,
    }
}

/// Prints why one of two inputs gives no zone, after which it is, and returns the status: 4 if that
/// couldn't be printed.
pub(crate) fn tell_stop_of<E: OctetWriter>(
    errors: &mut E,
    which: Which,
    first: &FileSource,
    second: &FileSource,
    stop: &FilesStop,
) -> u8
    ensures { (line : List ℕ)
        × IsStopLine (which_words which) (path_of first.now second.now which) stop.now line
        × TellsLine line (files_status stop.now) (E.state errors.old) (E.state errors.new) result }
{
    let path = match which {
        Which::First => first.file.as_str(),
        Which::Second => second.file.as_str(),
    };
    tell_stop(errors, which.words(), path, stop)
}

/// The exit status if an input gives no zone.
pub(crate) fn status_of(stop: &FilesStop) -> u8
    ensures { result ≡ files_status stop.now }
{
    match stop {
        FilesStop::Files(ExpandedRefusal::Expansion(_), _) => status::REFUSED,
        FilesStop::Files(ExpandedRefusal::Unread, _) => status::FAILED,
        FilesStop::Files(ExpandedRefusal::Text(refusal), _) => status_of_input(&refusal.stop),
        FilesStop::Input(stop) => status_of_input(stop),
    }
}

/// The exit status of one stop.
fn status_of_input(stop: &Stop) -> u8
    ensures { result ≡ stop_status stop.now }
{
    match stop {
        Stop::Refused(_, _) => status::REFUSED,
        Stop::Read | Stop::Write | Stop::Memory => status::FAILED,
    }
}

/// Writes why an input gives no zone, after these words. A file that can't be read is named, without
/// the words. It allocates nothing.
///
/// # Errors
///
/// `Write` if the writer failed. A proper prefix of the line was written.
pub(crate) fn write_stop<W: OctetWriter>(
    writer: &mut W,
    words: &str,
    path: &str,
    stop: &FilesStop,
) -> Result<(), Stop>
    ensures written { OnOk result ((line : List ℕ) × IsStopLine words.now path.now stop.now line
        × WritesLine line (W.state writer.old) (W.state writer.new)) }
    ensures part { OnErr result ((line : List ℕ) × IsStopLine words.now path.now stop.now line
        × WritesPartOfLine line (W.state writer.old) (W.state writer.new)) }
    ensures works { OnOk result (WorksOn (W.state writer.old) (W.state writer.new)) }
    ensures failed { IfErr result (IsFailedWrite (W.state writer.old) (W.state writer.new)) }
{
    match stop {
        FilesStop::Files(ExpandedRefusal::Expansion(fault), stack) => {
            write_expansion_fault(writer, words, *fault, place_or_input(stack.last_place()))
        }
        FilesStop::Files(ExpandedRefusal::Unread, stack) => write_unread(writer, stack),
        FilesStop::Files(ExpandedRefusal::Text(refusal), stack) => {
            write_text_refusal(writer, words, refusal, stack)
        }
        FilesStop::Input(stop) => write_main_stop(writer, words, path, stop),
    }
}

/// Writes why the expanded text is refused.
fn write_text_refusal<W: OctetWriter>(
    writer: &mut W,
    words: &str,
    refusal: &PresentationRefusal,
    stack: &IncludeStack,
) -> Result<(), Stop>
    ensures written { OnOk result ((line : List ℕ) × TellsText words.now refusal.now.stop refusal.now.entry line
        × WritesLine line (W.state writer.old) (W.state writer.new)) }
    ensures part { OnErr result ((line : List ℕ) × TellsText words.now refusal.now.stop refusal.now.entry line
        × WritesPartOfLine line (W.state writer.old) (W.state writer.new)) }
    ensures works { OnOk result (WorksOn (W.state writer.old) (W.state writer.new)) }
    ensures failed { IfErr result (IsFailedWrite (W.state writer.old) (W.state writer.new)) }
{
    let Stop::Refused(fault, place) = &refusal.stop else {
        return write_input_stop(writer, words, &refusal.stop);
    };
    let place = place_in_files(*place, stack);
    match &refusal.entry {
        Some(entry) => write_data_fault(writer, words, entry, place),
        None => write_fault(writer, words, fault, place),
    }
}

/// Writes why the file of this path, which is that of the command line, stopped a run.
fn write_main_stop<W: OctetWriter>(
    writer: &mut W,
    words: &str,
    path: &str,
    stop: &Stop,
) -> Result<(), Stop>
    ensures written { OnOk result (WritesLine (main_line words.now path.now stop.now)
        (W.state writer.old) (W.state writer.new)) }
    ensures part { OnErr result (WritesPartOfLine (main_line words.now path.now stop.now)
        (W.state writer.old) (W.state writer.new)) }
    ensures works { OnOk result (WorksOn (W.state writer.old) (W.state writer.new)) }
    ensures failed { IfErr result (IsFailedWrite (W.state writer.old) (W.state writer.new)) }
{
    let Stop::Read = stop else {
        return write_input_stop(writer, words, stop);
    };
    write_unreadable_main(writer, path)
}

/// Writes why one input stopped a run.
fn write_input_stop<W: OctetWriter>(writer: &mut W, words: &str, stop: &Stop) -> Result<(), Stop>
    ensures written { OnOk result (WritesLine (words.now ++ stop_line stop.now)
        (W.state writer.old) (W.state writer.new)) }
    ensures part { OnErr result (WritesPartOfLine (words.now ++ stop_line stop.now)
        (W.state writer.old) (W.state writer.new)) }
    ensures works { OnOk result (WorksOn (W.state writer.old) (W.state writer.new)) }
    ensures failed { IfErr result (IsFailedWrite (W.state writer.old) (W.state writer.new)) }
{
    match stop {
        Stop::Refused(fault, place) => write_refusal(writer, words, fault, *place),
        Stop::Read => write_line(writer, words, READ_FAILED),
        Stop::Write => write_line(writer, words, WRITE_FAILED),
        Stop::Memory => write_line(writer, words, OUT_OF_MEMORY),
    }
}

/// Writes the line on the file that can't be read: the one that is wanted, or the innermost one.
fn write_unread<W: OctetWriter>(writer: &mut W, stack: &IncludeStack) -> Result<(), Stop>
    ensures written { OnOk result ((line : List ℕ) × TellsUnread stack.now line
        × WritesLine line (W.state writer.old) (W.state writer.new)) }
    ensures part { OnErr result ((line : List ℕ) × TellsUnread stack.now line
        × WritesPartOfLine line (W.state writer.old) (W.state writer.new)) }
    ensures works { OnOk result (WorksOn (W.state writer.old) (W.state writer.new)) }
    ensures failed { IfErr result (IsFailedWrite (W.state writer.old) (W.state writer.new)) }
{
    match stack.wanted() {
        Some(name) => write_unread_at(writer, name, stack.last_place()),
        None => {
            let name = stack.innermost_name().unwrap_or("");
            write_unread_at(writer, name, stack.include_place())
        }
    }
}

/// Writes the line on a file of this name that can't be read, which is included at this place, or is the
/// main file.
fn write_unread_at<W: OctetWriter>(
    writer: &mut W,
    name: &str,
    place: Option<EntryPlace<'_>>,
) -> Result<(), Stop>
    ensures written { OnOk result ((line : List ℕ) × TellsUnreadable name.now line
        × WritesLine line (W.state writer.old) (W.state writer.new)) }
    ensures part { OnErr result ((line : List ℕ) × TellsUnreadable name.now line
        × WritesPartOfLine line (W.state writer.old) (W.state writer.new)) }
    ensures works { OnOk result (WorksOn (W.state writer.old) (W.state writer.new)) }
    ensures failed { IfErr result (IsFailedWrite (W.state writer.old) (W.state writer.new)) }
{
    match place {
        Some(place) => write_unreadable(writer, place, name),
        None => write_unreadable_main(writer, name),
    }
}

/// Where a fault of the expanded text is in the files.
fn place_in_files(place: Place, stack: &IncludeStack) -> FaultPlace<'_>
    ensures { IsPlaced place result }
{
    match place {
        Place::Line(line) => place_or_input(stack.place_of(line)),
        Place::Message(_, _) | Place::Whole => FaultPlace::Input,
    }
}

/// The place of an entry, if it is known.
fn place_or_input<'n>(place: Option<EntryPlace<'n>>) -> FaultPlace<'n> {
    match place {
        Some(place) => FaultPlace::Entry(place),
        None => FaultPlace::Input,
    }
}
