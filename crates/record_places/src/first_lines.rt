//! The lines of the entries that first state the records of a zone.
ghost use Rattle.std.specs.Prelude.{◌≡◌, ◌+◌, ◌<◌, ◌^◌, ◌++◌, ◌∷◌, ℕ, [], List, None, false, length, IfOk, OnOk};
ghost use Rattle.zone_name.specs.Common.{Labels};
ghost use Rattle.zone_rdata.specs.Lent.{placed_of};
ghost use Rattle.zone_rdata.specs.RrSource.{first_of};
ghost use Rattle.zone_rdata.specs.declared.record.Placed.{Placed};
ghost use Rattle.zone_files.specs.Presentation.{PresentationDenotes};
ghost use Rattle.record_places.specs.FirstLines.{AreFirstLines};
ghost use Rattle.record_places.specs.Machine.SoFar.{AreLinesSoFar, Finds};

use crate::sorted_records::SortedRecords;
use std::alloc::{AllocError, Global};
use zone_engine::PIECE;
use zone_name::CasedName;
use zone_rdata::{LendingSource, Place, PlacedRef};
use zone_set::Zone;
use zone_text::TextSource;
use zone_text::laws::file::{a_file_has_one_reading, a_file_states_what_is_read};
use zone_text::laws::given_records::an_answer_is_given;
use zone_words::laws::joined::a_rewriting_states_the_files_records;
use zone_words::rewrite_file;

/// For each record of a zone, in canonical order, the line of the entry that first states it (RFC 1035
/// 5.1). The zone is the one that these octets denote, a master file with records of all types in
/// presentation format; of another zone the lines mean nothing. Lines begin with 1.
///
/// While it runs it keeps the file's generic form and a borrow of each record.
///
/// # Errors
///
/// `AllocError`.
pub fn record_lines(
    alloc: Global,
    origin: &CasedName,
    octets: &[u8],
    zone: &Zone,
) -> Result<Vec<u64>, AllocError>
    ensures { IfOk result (λ lines. PresentationDenotes origin.now octets.now zone.now
        → AreFirstLines origin.now octets.now zone.now.records lines.items) }
{
    a_rewriting_states_the_files_records();
    a_file_states_what_is_read();
    a_file_has_one_reading();
    let sorted = SortedRecords::of_zone(alloc, zone)?;
    let mut lines = vec![in alloc; 0u64; sorted.len()]?;
    let generic = rewrite_file(alloc, origin, octets)?;
    let mut source = TextSource::new(alloc, &origin.folded());
    read(&mut source, &generic.text, &sorted, &mut lines)?;
    let Ok(()) = source.finish() else {
        return Err(AllocError);
    };
    take(&mut source, &sorted, &mut lines);
    Ok(lines)
}

/// Feeds octets to a source, and takes the records that they decide.
///
/// # Errors
///
/// `AllocError`.
fn read(
    source: &mut TextSource,
    octets: &[u8],
    sorted: &SortedRecords<'_>,
    lines: &mut [u64],
) -> Result<(), AllocError>
    requires open { source.old.held.finished ≡ false }
    requires fits { source.old.held.fed + length octets.now + 1 < 2 ^ 64 }
    ensures finds { OnOk result ((origin : Labels) (fed : List ℕ)
        → Finds origin source.old fed sorted.now lines.old
        → Finds origin source.new (fed ++ octets.now) sorted.now lines.new) }
    ensures open { source.new.held.finished ≡ false }
{
    let mut rest = octets;
    'pieces: while !rest.is_empty() {
        let (piece, after) = rest.split_at(rest.len().min(PIECE));
        let Ok(()) = source.feed(piece) else {
            return Err(AllocError);
        };
        take(source, sorted, lines);
        rest = after;
    }
    Ok(())
}

/// Takes the records that a source has left to give.
fn take(source: &mut TextSource, sorted: &SortedRecords<'_>, lines: &mut [u64])
    ensures finds { (origin : Labels) (fed : List ℕ)
        → Finds origin source.old fed sorted.now lines.old
        → Finds origin source.new fed sorted.now lines.new }
    ensures held { source.new.held ≡ source.old.held }
    ensures all { first_of source.new.pending ≡ None }
{
    an_answer_is_given();
    'records: while let Some(placed) = source.first() {
        note(sorted, lines, &placed);
        source.skip();
    }
}

/// Keeps the line of a record that is stated next, if it wasn't stated before.
fn note(sorted: &SortedRecords<'_>, lines: &mut [u64], placed: &PlacedRef<'_>)
    ensures { (given : List Placed)
        → AreLinesSoFar given sorted.now lines.old
        → AreLinesSoFar (given ++ placed_of placed.now ∷ [])
        sorted.now lines.new }
{
    let Some(index) = sorted.index_of(&placed.rr) else {
        return;
    };
    let Place::Line(line) = placed.place else {
        return;
    };
    if index >= lines.len() {
        return;
    }
    if lines[index] == 0 {
        lines[index] = line;
    }
}
