ghost use Rattle.std.specs.Prelude.{◌≡◌};

use std::marker::Model;
use zone_name::Name;

/// What a record of a message has but its owner (RFC 1035 4.1.3).
#[derive(Debug, Clone, Copy)]
pub(crate) struct RawFields<'m> {
    /// The octets of the whole message.
    pub(crate) message: &'m [u8],
    /// The offset at which the record begins.
    pub(crate) offset: usize,
    pub(crate) kind: u16,
    pub(crate) class: u16,
    pub(crate) ttl: u32,
    /// The offset at which the data begins.
    pub(crate) start: usize,
    /// The offset after the data.
    pub(crate) end: usize,
}

/// A record of a message as it stands there, its data not read (RFC 1035 4.1.3).
#[derive(Debug, Drop)]
pub struct RawRr<'m> {
    pub(crate) owner: Name,
    pub(crate) fields: RawFields<'m>,
}

impl<'m> Model for RawRr<'m> {
    ghost use Rattle.zone_wire.specs.Message.{IsRecordAt};
    ghost use Rattle.zone_wire.specs.View.{RawRecord, raw_with};

    ghost Value = { RawRecord };

    ghost view = { λ r. raw_with r.owner r.fields };

    ghost invariant = { λ r.
        IsRecordAt r.fields.message.now r.fields.offset (raw_with r.owner r.fields).at };
}

impl<'m> RawRr<'m> {
    /// The offset at which the record begins.
    pub fn offset(&self) -> usize
        ensures { result ≡ self.now.at.offset }
    {
        self.fields.offset
    }

    /// The name that the record stands at.
    pub fn owner(&self) -> &Name
        ensures { result.now ≡ self.now.at.owner }
    {
        &self.owner
    }

    /// The number of the record's class, which need be none that zone data has.
    pub fn class(&self) -> u16
        ensures { result ≡ self.now.at.class }
    {
        self.fields.class
    }

    /// The number of the record's type, which need be none that zone data has.
    pub fn kind(&self) -> u16
        ensures { result ≡ self.now.at.kind }
    {
        self.fields.kind
    }

    /// The TTL in seconds as it stands there, which may be over 2147483647.
    pub fn ttl(&self) -> u32
        ensures { result ≡ self.now.at.ttl }
    {
        self.fields.ttl
    }
}
