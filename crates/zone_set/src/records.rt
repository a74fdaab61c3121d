ghost use Rattle.std.specs.Prelude.{◌≡◌, ◌≤◌, ◌++◌, [], drop, length, map};
ghost use Rattle.std.specs.List.{AllByRecursion};
ghost use Rattle.zone_set.specs.Machine.Held.{all_records, IsLinked, IsSeen, seen_record};

use crate::ahead::{AHEAD, ask_end};
use crate::entry::Entry;
use crate::stored::{Head, head_at, record_after};
use arrayvec::ArrayVec;
use sorted_chunks::Iter;
use std::marker::Model;
use zone_rdata::{Class, RrRef};

/// The records of a zone that are left, in canonical order.
#[derive(Drop)]
pub struct Records<'z> {
    class: Class,
    octets: &'z [u8],
    /// The heads of the next records that were read, and how many of these are gone.
    heads: ArrayVec<Head, AHEAD>,
    gone: usize,
    /// The entries of all after these.
    entries: Iter<'z, Entry>,
}

impl<'z> Model for Records<'z> {
    ghost use Rattle.std.specs.Prelude.{List, ◌++◌, drop, map};
    ghost use Rattle.std.specs.List.{AllByRecursion};
    ghost use Rattle.zone_rdata.specs.Record.{Record};
    ghost use Rattle.zone_set.specs.Machine.Held.{all_records, IsLinked, IsSeen, seen_record};

    ghost Value = { List Record };

    ghost view = { λ r.
        map (seen_record r.class r.octets.now) (drop r.gone r.heads.items)
        ++ all_records r.class r.octets.now r.entries };

    ghost invariant = { λ r.
        AllByRecursion (IsSeen r.class r.octets.now) r.heads.items
        × AllByRecursion (IsLinked r.class r.octets.now) r.entries };
}

impl<'z> Records<'z> {
    /// The records of entries.
    pub(crate) fn new(class: Class, octets: &'z [u8], entries: Iter<'z, Entry>) -> Records<'z>
        requires { AllByRecursion (IsLinked class octets.now) entries }
        ensures { result ≡ all_records class octets.now entries.entry }
    {
        Records {
            class,
            octets,
            heads: ArrayVec::new(),
            gone: 0,
            entries,
        }
    }
}

impl<'z> Iterator for Records<'z> {
    type Item = RrRef<'z>;

    ghost use Rattle.std.specs.Iterator.{YieldsFirstBy, item_count};
    ghost use Rattle.zone_rdata.specs.Lent.{record_of};

    ghost next_gives = { YieldsFirstBy record_of (λ s. s) };

    ghost remaining = { item_count (λ s. s) };

    #[inline(always)]
    fn next(&mut self) -> Option<RrRef<'z>> {
        let (heads, entries) = (&mut self.heads, &mut self.entries);
        self.gone = read_ahead(self.class, self.octets, heads, self.gone, entries);
        let head = *self.heads.as_slice().get(self.gone)?;
        self.gone += 1;
        Some(record_after(self.class, self.octets, head))
    }
}

/// Reads the next heads where all are gone, so that they come out of memory side by side, and answers
/// how many are gone then. There is none only where no entry is left.
fn read_ahead(
    class: Class,
    octets: &[u8],
    heads: &mut ArrayVec<Head, AHEAD>,
    gone: usize,
    entries: &mut Iter<'_, Entry>,
) -> usize
    requires seen { AllByRecursion (IsSeen class octets.now) heads.old.items }
    requires linked { AllByRecursion (IsLinked class octets.now) entries.old }
    ensures seen { AllByRecursion (IsSeen class octets.now) heads.new.items }
    ensures linked { AllByRecursion (IsLinked class octets.now) entries.new }
    ensures same { map (seen_record class octets.now) (drop gone heads.old.items)
        ++ all_records class octets.now entries.old
        ≡ map (seen_record class octets.now) (drop result heads.new.items)
        ++ all_records class octets.now entries.new }
    ensures end { length heads.new.items ≤ result → entries.new ≡ [] }
{
    if gone < heads.len() {
        return gone;
    }
    heads.clear();
    while !heads.is_full() {
        let Some(entry) = entries.next() else {
            break;
        };
        heads.push(head_at(octets, entry.at));
        if !ask_end(octets, entry.at) {
            break;
        }
    }
    0
}
