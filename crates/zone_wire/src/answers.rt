ghost use Rattle.std.specs.Prelude.{◌≡◌, [], ◌∷◌, IfSome, IfNone};
ghost use Rattle.zone_wire.specs.Message.{RecordAt, IsRecordAt};

use crate::header::RECORD_HEAD_LEN;
use crate::labels::LabelRoom;
use crate::lent::RawRrRef;
use crate::name::read_name;
use crate::number::{u16_at, u32_at};
use crate::raw::{RawFields, RawRr};
use std::marker::Model;

/// The answers of a message that are left, in order (RFC 1035 4.1). Contracts see their
/// list.
#[derive(Debug, Drop)]
pub struct Answers<'m> {
    /// The octets of the whole message.
    pub(crate) message: &'m [u8],
    /// The offset at which the next answer begins.
    pub(crate) offset: usize,
    /// How many answers are left.
    pub(crate) left: u16,
}

impl<'m> Model for Answers<'m> {
    ghost use Rattle.std.specs.Prelude.{List};
    ghost use Rattle.zone_wire.specs.View.{RawRecord};

    ghost Value = { List RawRecord };

    ghost use Rattle.zone_wire.specs.Machine.Parsing.{raw_from, HasRecordsFrom};

    ghost view = { λ a. raw_from a.message.now a.left a.offset };

    ghost invariant = { λ a. HasRecordsFrom a.message.now a.left a.offset };
}

impl<'m> Iterator for Answers<'m> {
    type Item = RawRr<'m>;

    ghost use Rattle.std.specs.Iterator.{YieldsFirst, item_count};

    ghost next_gives = { YieldsFirst (λ s. s) };

    ghost remaining = { item_count (λ s. s) };

    fn next(&mut self) -> Option<RawRr<'m>> {
        let mut labels = LabelRoom::new();
        Some(self.next_in(&mut labels)?.to_raw())
    }
}

impl<'m> Answers<'m> {
    /// The next answer, its owner in a room.
    pub(crate) fn next_in<'r>(&mut self, labels: &'r mut LabelRoom) -> Option<RawRrRef<'m, 'r>>
        ensures some { IfSome result (λ r. self.old ≡ r ∷ self.new) }
        ensures none { IfNone result ((self.old ≡ []) × (self.new ≡ [])) }
    {
        if self.left == 0 {
            return None;
        }
        let answer = record_at(self.message, self.offset, labels);
        self.left -= 1;
        self.offset = answer.fields.end;
        Some(answer)
    }
}

/// The record that begins at an offset of a message. The room is for the labels of its owner.
#[tactic(auto, using(crate::proofs::Records::Pending::records_walked))]
fn record_at<'m, 'r>(
    message: &'m [u8],
    offset: usize,
    labels: &'r mut LabelRoom,
) -> RawRrRef<'m, 'r>
    requires { (r : RecordAt) × IsRecordAt message.now offset r }
    ensures octets { result.octets ≡ message.now }
    ensures at { IsRecordAt message.now offset result.at }
{
    let Ok((end, _)) = read_name(message, offset, true, labels) else {
        unreachable!()
    };
    let start = end + RECORD_HEAD_LEN;
    let fields = RawFields {
        message,
        offset,
        kind: u16_at(message, end),
        class: u16_at(message, end + 2),
        ttl: u32_at(message, end + 4),
        start,
        end: start + u16_at(message, end + 8) as usize,
    };
    RawRrRef {
        owner: labels.lend(),
        fields,
    }
}
