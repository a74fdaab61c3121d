//! A fault of files, and its place.
ghost use Rattle.std.specs.Prelude.{◌≡◌, IfOk, option_map};
ghost use Rattle.zone_faults.specs.Checking.{IsFoundFor, breaks_text, faulty_text, line_of_stop};
ghost use Rattle.zone_files.specs.FaultLine.{entry_text};
ghost use Rattle.zone_rdata.specs.declared.fault.Stop.TheVariants.{Refused};

use std::alloc::{AllocError, Global};
use zone_files::{EntryPlace, ExpandedRefusal, FileFault, IncludeStack, PresentationRefusal};
use zone_rdata::{Fault, Place, Stop};

/// Where the entry at fault is.
#[derive(Drop)]
pub(crate) struct FaultyEntry {
    name: String,
    line: u64,
    value: Option<u64>,
}

/// A fault of a main file or of one that it includes.
#[derive(Drop)]
pub struct FoundFault {
    /// What is wrong.
    pub fault: FileFault,
    /// The line of the expanded text with which the entry at fault begins, without the entries that
    /// had a fault before. `None`: the fault belongs to no entry that can be taken out.
    pub line: Option<u64>,
    entry: Option<FaultyEntry>,
}

impl FoundFault {
    /// The fault for which files are refused that are open so.
    ///
    /// # Errors
    ///
    /// The stop, where it is of no fault; `Memory`.
    pub(crate) fn of(
        alloc: Global,
        refusal: ExpandedRefusal,
        stack: &IncludeStack,
    ) -> Result<FoundFault, Stop>
        ensures { IfOk result (IsFoundFor refusal stack.now.next_line) }
    {
        match refusal {
            ExpandedRefusal::Expansion(fault) => Ok(FoundFault {
                fault: FileFault::Expansion(fault),
                line: Some(stack.next_line().saturating_sub(1)),
                entry: faulty_entry(alloc, stack.last_place())?,
            }),
            ExpandedRefusal::Text(refusal) => FoundFault::of_text(alloc, refusal, stack),
            ExpandedRefusal::Unread => Err(Stop::Read),
        }
    }

    /// The fault for which the expanded text is refused.
    fn of_text(
        alloc: Global,
        refusal: PresentationRefusal,
        stack: &IncludeStack,
    ) -> Result<FoundFault, Stop>
        ensures { IfOk result (IsFoundFor (ExpandedRefusal.Text refusal) stack.now.next_line) }
    {
        let line = line_of_stop(&refusal.stop);
        let PresentationRefusal { stop, entry: data } = refusal;
        match stop {
            Stop::Refused(fault, place) => Ok(FoundFault {
                fault: FileFault::Text(fault, data),
                line,
                entry: faulty_entry(alloc, place_in(place, stack))?,
            }),
            Stop::Read | Stop::Write | Stop::Memory => Err(stop),
        }
    }

    /// Where the entry at fault is: its file, its line there, and the value of a `$GENERATE`. `None`: no
    /// entry is at fault.
    pub fn place(&self) -> Option<EntryPlace<'_>>
        ensures { option_map (λ place. entry_text place) result
            ≡ option_map faulty_text self.now.entry }
    {
        match &self.entry {
            Some(entry) => Some(EntryPlace {
                name: entry.name.as_str(),
                line: entry.line,
                value: entry.value,
            }),
            None => None,
        }
    }
}

/// Whether the text breaks with this fault: what follows it can't be told apart.
fn breaks_text(fault: &Fault) -> bool
    ensures { result ≡ breaks_text fault.now }
{
    matches!(
        fault,
        Fault::BadEscape | Fault::UnclosedQuote | Fault::UnbalancedParenthesis
    )
}

/// The line of the entry that a stop is of and that can be taken out.
fn line_of_stop(stop: &Stop) -> Option<u64>
    ensures { result ≡ line_of_stop stop.now }
{
    match stop {
        Stop::Refused(fault, Place::Line(line)) => {
            if breaks_text(fault) {
                None
            } else {
                Some(*line)
            }
        }
        _ => None,
    }
}

/// Where a place of the expanded text is.
fn place_in(place: Place, stack: &IncludeStack) -> Option<EntryPlace<'_>> {
    match place {
        Place::Line(line) => stack.place_of(line),
        Place::Message(_, _) | Place::Whole => None,
    }
}

/// Keeps a place.
fn faulty_entry(
    alloc: Global,
    place: Option<EntryPlace<'_>>,
) -> Result<Option<FaultyEntry>, AllocError> {
    match place {
        Some(place) => Ok(Some(FaultyEntry {
            name: String::from_str(alloc, place.name)?,
            line: place.line,
            value: place.value,
        })),
        None => Ok(None),
    }
}
