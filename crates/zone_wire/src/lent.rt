ghost use Rattle.std.specs.Prelude.{◌≡◌};

use crate::raw::{RawFields, RawRr};
use std::marker::Model;
use zone_name::NameRef;

/// A record of a message as it stands there, its data not read and its owner borrowed (RFC 1035
/// 4.1.3).
#[derive(Debug, Drop)]
pub(crate) struct RawRrRef<'m, 'r> {
    pub(crate) owner: NameRef<'r>,
    pub(crate) fields: RawFields<'m>,
}

impl<'m, 'r> Model for RawRrRef<'m, 'r> {
    ghost use Rattle.zone_wire.specs.Message.{IsRecordAt};
    ghost use Rattle.zone_wire.specs.View.{RawRecord, raw_with};

    ghost Value = { RawRecord };

    ghost view = { λ r. raw_with r.owner r.fields };

    ghost invariant = { λ r.
        IsRecordAt r.fields.message.now r.fields.offset (raw_with r.owner r.fields).at };
}

impl<'m, 'r> RawRrRef<'m, 'r> {
    /// The same record, which owns its owner.
    pub(crate) fn to_raw(&self) -> RawRr<'m>
        ensures { result ≡ self.now }
    {
        RawRr {
            owner: self.owner.to_name(),
            fields: self.fields,
        }
    }
}

impl<'m> RawRr<'m> {
    /// The same record, borrowed.
    pub(crate) fn lend(&self) -> RawRrRef<'m, '_>
        ensures { result ≡ self.now }
    {
        RawRrRef {
            owner: self.owner.lend(),
            fields: self.fields,
        }
    }
}
