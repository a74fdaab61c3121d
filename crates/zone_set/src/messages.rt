//! What records take in messages where no name is compressed (RFC 1035 3.2.1).
ghost use Rattle.std.specs.Prelude.{◌≡◌, ◌+◌, ◌-◌, ◌^◌, min, if◌then◌else◌, IsTrue};
ghost use Rattle.std.specs.List.{AllByRecursion};
ghost use Rattle.zone_name.specs.Common.{Labels};
ghost use Rattle.zone_rdata.specs.Lent.{record_of};
ghost use Rattle.zone_set.specs.Machine.Held.{all_records, AreAllKept, IsEntry};
ghost use Rattle.zone_set.specs.Message.{message_len, message_octets};

use crate::entry::Entry;
use crate::stored::record_at;
use zone_rdata::{Class, RrRef};

/// The octets that the records of entries take in messages, or 2^64 - 1 where they are more.
/// `alone` tells whether the octets keep these records alone: then no record is looked at.
pub(crate) fn len_of_entries(class: Class, octets: &[u8], entries: &[Entry], alone: bool) -> u64
    ghost base: { Labels }
    requires each { AllByRecursion (IsEntry base class octets.now) entries.now }
    requires alone { IsTrue alone
        → AreAllKept class octets.now (all_records class octets.now entries.now) }
    ensures { result
        ≡ min (message_octets (all_records class octets.now entries.now)) (2 ^ 64 - 1) }
{
    if alone {
        // A message has the class of each record in two octets more, and the owner's length in none.
        return (octets.len() as u64).saturating_add(entries.len() as u64);
    }
    let mut octet_count: u64 = 0;
    let mut left = entries;
    while let Some((entry, rest)) = left.split_first() {
        let rr = record_at(class, octets, entry.at);
        octet_count = octet_count.saturating_add(message_len(&rr));
        left = rest;
    }
    octet_count
}

/// The octets that records take in messages, and those of one more where it is new.
pub(crate) fn octets_with(octets: u64, rr: &RrRef<'_>, is_new: bool) -> u64
    ensures { result ≡ min (octets + (if is_new then message_len (record_of rr.now) else 0))
        (2 ^ 64 - 1) }
{
    if is_new {
        octets.saturating_add(message_len(rr))
    } else {
        octets
    }
}

/// The octets that a record takes in messages where no name is compressed (RFC 1035 3.2.1).
pub fn message_len(rr: &RrRef<'_>) -> u64
    ensures { result ≡ message_len (record_of rr.now) }
{
    rr.known();
    // After the owner type, class, TTL and the length of the data.
    rr.owner.wire().len() as u64 + 10 + rr.rdata.octets().len() as u64
}
