ghost use Rattle.std.specs.Prelude.{◌≡◌, ◌↔◌, ◌⊎◌, false, IsTrue, IfOk, IfErr, IfSome, MatchOption, OnOk, OnErr};
ghost use Rattle.std.specs.List.{AllByRecursion};
ghost use Rattle.sorted_chunks.specs.Chunks.{joined};
ghost use Rattle.zone_rdata.specs.Record.{data_of, IsRecord};
ghost use Rattle.zone_set.specs.Builder.{OtherTtl};
ghost use Rattle.zone_rdata.specs.declared.fault.Fault.TheVariants.{DifferingTtl};
ghost use Rattle.zone_rdata.specs.declared.fault.Stop.TheVariants.{Memory, Refused};
ghost use Rattle.zone_set.specs.Machine.Held.{all_records, entry_record, HoldsEntries, HasOtherTtl, IsComparable, IsEntry, IsPut};
ghost use Rattle.zone_rdata.specs.Lent.{record_of};
ghost use Rattle.zone_set.specs.Zone.{covered_octets};

use crate::entry::Entry;
use crate::hint::hint_of;
use crate::offered::Offered;
use crate::stored::append;
use sorted_chunks::SortedChunks;
use zone_name::Name;
use zone_rdata::{Fault, Place, RrRef, Stop};

/// How many entries a chunk holds at most.
pub(crate) const LIMIT: usize = 512;

/// Puts a record at its place among those held, and tells whether it is new. An equal one is
/// dropped.
///
/// # Errors
///
/// `DifferingTtl` at its place where a record of its set has another TTL, or want of memory. The
/// records are unchanged.
pub(crate) fn put(
    entries: &mut SortedChunks<Entry, LIMIT>,
    octets: &mut Vec<u8>,
    base: &Name,
    rr: &RrRef<'_>,
    place: Place,
) -> Result<bool, Stop>
    requires whole { IsRecord (record_of rr.now) }
    requires holds { HoldsEntries base.now rr.now.class octets.old.items (joined entries.old) }
    ensures each { AllByRecursion (IsEntry base.now rr.now.class octets.new.items)
        (joined entries.new) }
    ensures told { IfOk result (λ is_new.
        IsPut (all_records rr.now.class octets.old.items (joined entries.old))
        (record_of rr.now) is_new
        (all_records rr.now.class octets.new.items (joined entries.new))) }
    ensures one_ttl { OnOk result
        (OtherTtl (all_records rr.now.class octets.old.items (joined entries.old))
        (record_of rr.now) → ⊥) }
    ensures refused { IfErr result (λ stop. (stop ≡ Memory) ⊎ ((stop ≡ Refused DifferingTtl place)
        × OtherTtl (all_records rr.now.class octets.old.items (joined entries.old))
        (record_of rr.now))) }
    ensures same_entries { OnErr result (entries.new ≡ entries.old) }
    ensures unchanged { OnErr result (all_records rr.now.class octets.new.items (joined entries.new)
        ≡ all_records rr.now.class octets.old.items (joined entries.old)) }
{
    let hint = hint_of(base, &rr.owner, rr.kind);
    let offered = Offered {
        octets: octets.as_slice(),
        hint,
        rr,
    };
    let position = entries.place_of(&offered);
    // The records of a set stand together, so a neighbour is one of them where any is held.
    let last = entries.last_before(position).copied();
    let first = entries.first_after(position).copied();
    if is_of_other_ttl(&offered, last) {
        return Err(Stop::Refused(Fault::DifferingTtl, place));
    }
    if is_of_other_ttl(&offered, first) {
        return Err(Stop::Refused(Fault::DifferingTtl, place));
    }
    if is_equal(&offered, first) {
        return Ok(false);
    }
    let at = append(octets, rr)?;
    entries.insert(position, Entry { hint, at })?;
    Ok(true)
}

/// Whether there is an entry, and its record is of the same set with another TTL. The octets of a
/// record of another hint aren't looked at.
#[tactic(auto, using(crate::proofs::Holding::Putting::other_hint_other_set))]
fn is_of_other_ttl(offered: &Offered<'_, '_>, entry: Option<Entry>) -> bool
    requires { IfSome entry (IsComparable offered.now.octets.now offered.now.hint
        (record_of offered.now.rr.now)) }
    ensures { MatchOption entry (result ≡ false) (λ e. IsTrue result
        ↔ HasOtherTtl (entry_record offered.now.rr.now.class offered.now.octets.now e)
        (record_of offered.now.rr.now)) }
{
    match entry {
        Some(entry) => entry.hint == offered.hint
            && has_other_ttl(&offered.held(entry), offered.rr),
        None => false,
    }
}

/// Whether there is an entry, and its record is this one.
#[tactic(auto, using(crate::proofs::Holding::Putting::other_hint_other_record))]
fn is_equal(offered: &Offered<'_, '_>, entry: Option<Entry>) -> bool
    requires { IfSome entry (IsComparable offered.now.octets.now offered.now.hint
        (record_of offered.now.rr.now)) }
    ensures { MatchOption entry (result ≡ false) (λ e. IsTrue result
        ↔ (entry_record offered.now.rr.now.class offered.now.octets.now e
        ≡ record_of offered.now.rr.now)) }
{
    match entry {
        Some(entry) => entry.hint == offered.hint && offered.held(entry).is_same(offered.rr),
        None => false,
    }
}

/// Whether records are of one set, and their TTLs differ.
pub(crate) fn has_other_ttl(held: &RrRef<'_>, rr: &RrRef<'_>) -> bool
    ensures { IsTrue result ↔ HasOtherTtl (record_of held.now) (record_of rr.now) }
{
    held.ttl != rr.ttl
        && held.kind == rr.kind
        && covered(held) == covered(rr)
        && held.owner.is_same(&rr.owner)
}

/// The number of RRSIG (RFC 4034 3).
const RRSIG: u16 = 46;

/// The octets of the type that an RRSIG covers, as far as the data has them; of other types
/// nothing.
fn covered<'z>(rr: &RrRef<'z>) -> &'z [u8]
    ensures { result.now ≡ covered_octets (data_of (record_of rr.now)) }
{
    let octets = rr.rdata.octets();
    if rr.kind.number() != RRSIG {
        &octets[..0]
    } else if octets.len() < 2 {
        octets
    } else {
        &octets[..2]
    }
}
