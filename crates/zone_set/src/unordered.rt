use crate::kept_records::KeptRecords;
use crate::records::Records;
use std::marker::Model;
use zone_rdata::RrRef;

/// The records of a zone that are left, in an order that isn't told.
#[derive(Drop)]
pub struct UnorderedRecords<'z> {
    pub(crate) left: Left<'z>,
}

/// Where the records come from.
#[derive(Drop)]
pub(crate) enum Left<'z> {
    /// The octets that keep them, which are passed over from the first to the last.
    Kept(KeptRecords<'z>),
    /// The entries, in canonical order.
    Sorted(Records<'z>),
}

impl<'z> Model for UnorderedRecords<'z> {
    ghost use Rattle.std.specs.Prelude.{List};
    ghost use Rattle.zone_rdata.specs.Record.{Record};
    ghost use Rattle.zone_set.specs.Machine.Unordered.{left_records};

    ghost Value = { List Record };

    ghost view = { λ u. left_records u.left };
}

impl<'z> Iterator for UnorderedRecords<'z> {
    type Item = RrRef<'z>;

    ghost use Rattle.std.specs.Iterator.{YieldsFirstBy, item_count};
    ghost use Rattle.zone_rdata.specs.Lent.{record_of};

    ghost next_gives = { YieldsFirstBy record_of (λ s. s) };

    ghost remaining = { item_count (λ s. s) };

    fn next(&mut self) -> Option<RrRef<'z>> {
        match &mut self.left {
            Left::Kept(records) => records.next(),
            Left::Sorted(records) => records.next(),
        }
    }
}
