ghost use Rattle.std.specs.Prelude.{◌≡◌, List};
ghost use Rattle.zone_rdata.specs.Record.{Record};
ghost use Rattle.zone_set.specs.Machine.Stored.{AreKept};

use crate::stored::record_at;
use crate::tie::span;
use std::marker::Model;
use zone_rdata::{Class, RrRef};

/// Records that octets keep one after another, of which these are left.
#[derive(Drop)]
pub(crate) struct KeptRecords<'z> {
    class: Class,
    /// The octets that keep them.
    octets: &'z [u8],
}

impl<'z> Model for KeptRecords<'z> {
    ghost use Rattle.std.specs.Prelude.{List, length};
    ghost use Rattle.zone_rdata.specs.Record.{Record};
    ghost use Rattle.zone_set.specs.Machine.Stored.{AreKept, kept_records};

    ghost Value = { List Record };

    ghost view = { λ k. kept_records k.class (length k.octets.now) k.octets.now };

    ghost invariant = { λ k.
        (records : List Record) × AreKept k.class k.octets.now records };
}

impl<'z> KeptRecords<'z> {
    /// The records of a class that octets keep.
    pub(crate) fn new(class: Class, octets: &'z [u8]) -> KeptRecords<'z>
        requires { (records : List Record) × AreKept class octets.now records }
        ensures { (records : List Record) → AreKept class octets.now records → result ≡ records }
    {
        KeptRecords { class, octets }
    }
}

impl<'z> Iterator for KeptRecords<'z> {
    type Item = RrRef<'z>;

    ghost use Rattle.std.specs.Iterator.{YieldsFirstBy, item_count};
    ghost use Rattle.zone_rdata.specs.Lent.{record_of};

    ghost next_gives = { YieldsFirstBy record_of (λ s. s) };

    ghost remaining = { item_count (λ s. s) };

    fn next(&mut self) -> Option<RrRef<'z>> {
        if self.octets.is_empty() {
            return None;
        }
        let rr = record_at(self.class, self.octets, 0);
        let (_, rest) = self.octets.split_at(span(self.octets, 0).len());
        self.octets = rest;
        Some(rr)
    }
}
