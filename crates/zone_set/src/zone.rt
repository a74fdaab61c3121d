ghost use Rattle.std.specs.Prelude.{◌≡◌, ◌-◌, ◌^◌, length, min};
ghost use Rattle.std.specs.List.Sorted.{IsPermutation};
ghost use Rattle.zone_set.specs.Message.{message_octets};
ghost use Rattle.zone_set.specs.Zone.{IsZone};

use crate::records::Records;
use crate::sets::ZoneBuilder;
use crate::unordered::UnorderedRecords;
use std::marker::Model;
use zone_name::Name;
use zone_rdata::Class;

/// A zone: apex, class and records in canonical order (RFC 1035 5.2).
#[derive(Drop)]
pub struct Zone {
    pub(crate) apex: Name,
    pub(crate) class: Class,
    pub(crate) sets: ZoneBuilder,
}

impl Model for Zone {
    ghost use Rattle.zone_set.specs.Zone.{Zone, IsZone};

    ghost Value = { Zone };

    ghost view = { λ z. record { apex = z.apex; class = z.class; records = z.sets } };

    ghost invariant = { λ z. IsZone (record { apex = z.apex; class = z.class; records = z.sets }) };
}

impl Zone {
    /// The owner of the SOA.
    pub fn apex(&self) -> &Name
        ensures { result.now ≡ self.now.apex }
    {
        &self.apex
    }

    /// The class of all records.
    pub fn class(&self) -> Class
        ensures { result ≡ self.now.class }
    {
        self.class
    }

    /// How many records there are, or 2^64 - 1 where there are more.
    pub fn len(&self) -> u64
        ensures { result ≡ min (length self.now.records) (2 ^ 64 - 1) }
    {
        self.sets.len()
    }

    /// The octets that its records take in messages where no name is compressed (RFC 1035 3.2.1),
    /// or 2^64 - 1 where they are more.
    pub fn message_len(&self) -> u64
        ensures len { result ≡ min (message_octets self.now.records) (2 ^ 64 - 1) }
        ensures zone { IsZone self.now }
    {
        self.sets.message_len()
    }

    /// The records in an order that isn't told, in which they are passed over soonest.
    pub fn unordered_records(&self) -> UnorderedRecords<'_>
        ensures { IsPermutation result self.now.records }
    {
        self.sets.unordered()
    }

    /// The records in canonical order.
    pub fn records(&self) -> Records<'_>
        ensures records { result ≡ self.now.records }
        ensures zone { IsZone self.now }
    {
        self.sets.iter()
    }
}
