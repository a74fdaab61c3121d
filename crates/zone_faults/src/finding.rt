//! Every fault of files, one after another.
ghost use Rattle.std.specs.Prelude.{◌≡◌, [], IfErr, IfNone, IfOk, IfSome, option_map};
ghost use Rattle.zone_faults.specs.Checking.{AreDenoted, AreFaults, AreRefused, main_file};
ghost use Rattle.zone_faults.specs.Machine.Finding.{AddsFault, EndsWith, FindsOne, main_of};

use crate::found_fault::FoundFault;
use crate::kept_files::KeptFiles;
use crate::pass::Pass;
use std::alloc::Global;
use zone_files::{ExpandedLoader, ExpandedRefusal, IncludeStack, IncludedFiles};
use zone_name::CasedName;
use zone_rdata::Stop;
use zone_set::Zone;

/// Why no further fault was looked for.
#[derive(Drop)]
pub enum CheckEnd {
    /// Without the entries at fault the files denote a zone, of so many records.
    Accepted(u64),
    /// As many faults were found as were asked for.
    Enough,
    /// The last fault belongs to no entry, or the text breaks there.
    Last,
    /// A file can't be opened or read: the one that the stack wants.
    Unread(IncludeStack),
}

/// The faults of files.
#[derive(Drop)]
pub struct Checked {
    /// The faults, in the order of the entries.
    pub faults: Vec<FoundFault>,
    /// Why there is no further one.
    pub end: CheckEnd,
}

/// The faults that were found so far.
#[derive(Drop)]
pub(crate) struct FaultsSoFar {
    faults: Vec<FoundFault>,
    /// The lines of the expanded text whose entries are taken out for them, in their order.
    lines: Vec<u64>,
}

/// A main file.
#[derive(Clone, Copy)]
pub(crate) struct Main<'m> {
    directory: Option<&'m str>,
    name: &'m str,
    origin: &'m CasedName,
}

/// The faults of a main file and of the files that it includes (RFC 1035 5.1), at most so many.
///
/// The first is the one for which the files denote no zone. Each of the others is the first fault of the
/// same files where the entries of those before are taken out: of such an entry the line feeds stay,
/// and a record after it that omits its owner has the one that it states. The last one belongs to no
/// entry, or the text breaks with it, so that what follows can't be told apart; or the files denote a
/// zone without the entries at fault.
///
/// `name` is the name under which the main file was opened, and `origin` its origin, whose letters
/// names in data keep. The files are those under a directory (`included_file_name`). Each is read once,
/// to its end, and its octets are kept.
///
/// # Errors
///
/// `Read` if the main file can't be read; `Refused` with `InputTooLong` if a file has more than
/// [`TEXT_LIMIT`](zone_print::TEXT_LIMIT) octets; `Memory`.
pub fn check_files<S: IncludedFiles>(
    alloc: Global,
    directory: Option<&str>,
    name: &str,
    origin: &CasedName,
    mut main: S::File,
    files: &mut S,
    most: u64,
) -> Result<Checked, Stop>
    ensures faults { IfOk result (λ checked. AreFaults (main_file
        (option_map (λ folder. folder.now) directory.entry) name.now origin.now)
        most checked.faults.items checked.end) }
{
    let mut files = KeptFiles::new(alloc, name, &mut main, files)?;
    let input = Main {
        directory,
        name,
        origin,
    };
    let mut found = FaultsSoFar {
        faults: Vec::new(alloc),
        lines: Vec::new(alloc),
    };
    'passes: for _ in 0..most {
        if let Some(end) = find_next(alloc, input, &mut files, &mut found)? {
            return Ok(Checked {
                faults: found.faults,
                end,
            });
        }
    }
    Ok(Checked {
        faults: found.faults,
        end: CheckEnd::Enough,
    })
}

/// Finds the next fault. `None`: there may be further ones.
///
/// # Errors
///
/// `Memory`.
fn find_next<S: IncludedFiles>(
    alloc: Global,
    main: Main<'_>,
    files: &mut KeptFiles<'_, S>,
    found: &mut FaultsSoFar,
) -> Result<Option<CheckEnd>, Stop>
    ensures ends { IfOk result (λ answer. IfSome answer
        (EndsWith (main_of main.entry) found.old found.new.faults.items)) }
    ensures one { IfOk result (λ answer. IfNone answer
        (FindsOne (main_of main.entry) found.old found.new)) }
{
    let (loaded, stack) = load_without(alloc, main, &found.lines, files)?;
    match loaded {
        Ok(zone) => Ok(Some(CheckEnd::Accepted(zone.len()))),
        Err(ExpandedRefusal::Unread) => Ok(Some(CheckEnd::Unread(stack))),
        Err(refusal) => {
            let fault = FoundFault::of(alloc, refusal, &stack)?;
            found.add(fault)
        }
    }
}

impl FaultsSoFar {
    /// Adds a fault. `Some`: it is the last one.
    fn add(&mut self, fault: FoundFault) -> Result<Option<CheckEnd>, Stop>
        ensures { IfOk result (AddsFault fault self.old self.new) }
    {
        let line = fault.line;
        let Ok(()) = self.faults.push(fault) else {
            return Err(Stop::Memory);
        };
        let Some(line) = line else {
            return Ok(Some(CheckEnd::Last));
        };
        match self.lines.push(line) {
            Ok(()) => Ok(None),
            Err(_) => Err(Stop::Memory),
        }
    }
}

/// Loads the files without the entries of these lines.
///
/// # Errors
///
/// `Memory`.
fn load_without<S: IncludedFiles>(
    alloc: Global,
    main: Main<'_>,
    lines: &[u64],
    files: &mut KeptFiles<'_, S>,
) -> Result<(Result<Zone, ExpandedRefusal>, IncludeStack), Stop>
    ensures zone { IfOk result (λ loaded. IfOk loaded.0
        (AreDenoted (main_of main.entry) lines.now)) }
    ensures refused { IfOk result (λ loaded. IfErr loaded.0
        (λ refusal. AreRefused (main_of main.entry) lines.now refusal loaded.1)) }
{
    let loader = ExpandedLoader::without(alloc, lines, main.directory, main.name, main.origin)?;
    let mut pass = Pass::new(alloc, loader);
    pass.run(files)?;
    let Pass { loader, .. } = pass;
    Ok(loader.load())
}
