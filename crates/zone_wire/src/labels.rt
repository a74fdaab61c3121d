//! The labels of a name of a message as they are read, 16 octets at a time.
ghost use Rattle.std.specs.Prelude.{◌≡◌, ◌+◌, ◌-◌, ◌<◌, ◌≤◌, ◌++◌, [], drop, length, map, take};
ghost use Rattle.std.specs.List.{flat_map};
ghost use Rattle.std.specs.Simd.Lanes.{chunk, put_chunk};
ghost use Rattle.zone_name.specs.Name.{folded, folded_octet, labels_of, with_length};
ghost use Rattle.zone_wire.specs.Machine.Room.{IsRun};
ghost use Rattle.zone_wire.specs.Transfer.{octets_between};

use std::marker::Model;
use std::simd::prelude::*;
use zone_name::NameRef;

/// How many octets are copied at a time.
const LANES: usize = 16;

/// The octets of the longest name, and those that are copied after them.
const ROOM: usize = 271;

/// The labels of a name that were read, their letters in lower case. Contracts see their list.
#[derive(Debug, Drop)]
pub(crate) struct LabelRoom {
    /// Each label after its length. The octets after them say nothing.
    octets: [u8; ROOM],
    len: usize,
}

impl Model for LabelRoom {
    ghost use Rattle.std.specs.Prelude.{ℕ, List, take};
    ghost use Rattle.zone_name.specs.Name.{labels_of};
    ghost use Rattle.zone_wire.specs.Machine.Room.{IsRoom};

    ghost Value = { List (List ℕ) };

    ghost view = { λ r. labels_of (take r.len r.octets) };

    ghost invariant = { λ r. IsRoom r.octets r.len };
}

impl LabelRoom {
    /// No label yet.
    #[tactic(auto, using(crate::proofs::Names::RunLaws::empty_rooms))]
    pub(crate) fn new() -> LabelRoom
        ensures { result ≡ [] }
    {
        LabelRoom {
            octets: [0; ROOM],
            len: 0,
        }
    }

    /// Takes all labels out.
    #[tactic(auto, using(crate::proofs::Names::RunLaws::empty_rooms))]
    pub(crate) fn clear(&mut self)
        ensures { self.new ≡ [] }
    {
        self.len = 0;
    }

    /// Appends the labels that stand in a message from an offset to another, which fit in a name
    /// with those before them.
    pub(crate) fn push(&mut self, message: &[u8], start: usize, past: usize)
        requires run { IsRun message.now start past }
        requires fits { length (flat_map with_length self.old) + (past - start) < 255 }
        ensures { self.new
            ≡ self.old ++ folded (labels_of (octets_between message.now start past)) }
    {
        let size = past - start;
        copy_folded(message, start, size, &mut self.octets, self.len);
        self.len += size;
    }

    /// The name of the labels, borrowed.
    pub(crate) fn lend(&mut self) -> NameRef<'_>
        ensures { result ≡ self.old }
    {
        self.octets[self.len] = 0;
        NameRef::of_wire(&self.octets[..self.len + 1])
    }
}

/// Copies so many octets of a message to a place of a room, their letters in lower case (RFC 4343
/// 3). The room's octets after them then say nothing.
#[tactic(auto, using(crate::proofs::Names::RunLaws::lanes_are_copied))]
fn copy_folded(message: &[u8], start: usize, size: usize, room: &mut [u8], at: usize)
    requires part { start + size ≤ length message.now }
    requires room { at + size + LANES ≤ length room.old }
    ensures { take (at + size) room.new
        ≡ take at room.old ++ map folded_octet (take size (drop start message.now)) }
{
    if start + size + LANES > message.len() {
        room[at..at + size].copy_from_slice(&message[start..start + size]);
        room[at..at + size].make_ascii_lowercase();
        return;
    }
    let mut done = 0;
    while done < size {
        copy_lanes(message, start + done, room, at + done);
        done += LANES;
    }
}

/// Copies 16 octets of a message to a place of a room, their letters in lower case.
#[inline(always)]
fn copy_lanes(message: &[u8], start: usize, room: &mut [u8], at: usize)
    requires part { start + LANES ≤ length message.now }
    requires room { at + LANES ≤ length room.old }
    ensures { room.new ≡ put_chunk at room.old (map folded_octet (chunk start LANES message.now)) }
{
    let lanes = u8x16::from_slice(&message[start..]);
    let capitals = lanes.simd_ge(u8x16::splat(b'A')) & lanes.simd_le(u8x16::splat(b'Z'));
    let bits = capitals.select(u8x16::splat(0x20), u8x16::splat(0));
    (lanes | bits).copy_to_slice(&mut room[at..]);
}
