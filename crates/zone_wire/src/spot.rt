ghost use Rattle.std.specs.Prelude.{◌≡◌, ◌+◌, ◌^◌, ◌<◌, ◌≤◌, true, length, slice_index, Some};
ghost use Rattle.zone_wire.specs.Name.{target_at};
ghost use Rattle.zone_wire.specs.Machine.Spot.{IsSound, spot_of, standing_of, ticks_at};
ghost use Rattle.zone_wire.specs.Machine.Walk.{outset, past_label, past_pointer};
ghost use Rattle.zone_wire.specs.Machine.Walk.{standing_in, label_of, pointer_of};

use crate::header::HEADER_LEN;
use crate::number::u16_at;
use crate::ticks::Ticks;
use zone_name::MAX_NAME_LEN;
use zone_rdata::Cause;

/// The greatest number of pointers through which a name is followed. RFC 1035 states none; this is
/// the project's own choice.
const MAX_POINTERS: usize = 128;

/// What the two high bits of a pointer, both set, count in its 16 bits (RFC 1035 4.1.4).
const POINTER_BITS: u16 = 0xc000;

/// Where the walk along a name stands, and what it met before.
#[derive(Clone, Copy, Debug)]
pub(crate) struct Spot {
    pub(crate) offset: usize,
    /// The offset at which the run of labels began that stands here.
    pub(crate) bound: usize,
    pub(crate) pointers: usize,
    /// The octets of the labels that were met, each with its length.
    pub(crate) octets: usize,
}

/// What stands at one spot of a name.
#[derive(Clone, Copy, Debug)]
pub(crate) enum Standing {
    /// No octet of the message.
    Outside,
    Root,
    /// A label, and how many octets it has.
    Label(usize),
    /// A pointer, and where it leads.
    Pointer(usize),
    Bad(Cause),
}

/// What stands at a spot, by its first octet. A spot that lies in the message counts as a step before
/// it is looked at. Where a name is known to stand, no fault is looked for.
#[inline(always)]
#[tactic(auto, unfolding(crate::specs::Machine::Walk::standing_in))]
pub(crate) fn step_at(message: &[u8], spot: Spot, known: bool, ticks: &mut Ticks) -> Standing
    requires octets { spot.octets < 256 }
    requires ticks { ticks.old < 256 }
    requires known { known ≡ true → IsSound (standing_in message.now (spot_of spot)) }
    ensures place { standing_of result ≡ standing_in message.now (spot_of spot) }
    ensures ticks { ticks.new ≡ ticks.old + ticks_at (standing_of result) }
{
    if known {
        ticks.tick();
        return known_at(message, spot);
    }
    if spot.offset >= message.len() {
        return Standing::Outside;
    }
    ticks.tick();
    let first = message[spot.offset];
    // The two high bits say the form: 00 is a label's length, 11 a pointer, and the others are
    // reserved (RFC 1035 4.1.4).
    match first {
        0 => Standing::Root,
        1..=63 => label_at(message, spot, first as usize),
        64..=191 => Standing::Bad(Cause::ReservedLabel),
        _ => pointer_at(message, spot),
    }
}

/// What stands at a spot of a name, where no fault is known to stand.
#[tactic(auto, using(crate::proofs::Names::Walking::spot_known))]
fn known_at(message: &[u8], spot: Spot) -> Standing
    requires { IsSound (standing_in message.now (spot_of spot)) }
    ensures { standing_of result ≡ standing_in message.now (spot_of spot) }
{
    match message[spot.offset] {
        0 => Standing::Root,
        size @ 1..=63 => Standing::Label(size as usize),
        _ => Standing::Pointer((u16_at(message, spot.offset) - POINTER_BITS) as usize),
    }
}

/// A label of this many octets.
fn label_at(message: &[u8], spot: Spot, size: usize) -> Standing
    requires here { spot.offset < length message.now }
    requires octets { spot.octets < 256 }
    requires size { size < 256 }
    ensures { standing_of result ≡ Some (label_of message.now (spot_of spot) size) }
{
    if spot.offset + size >= message.len() {
        Standing::Bad(Cause::ShortMessage)
    } else if spot.octets + size > MAX_NAME_LEN - 2 {
        Standing::Bad(Cause::NameTooLong)
    } else {
        Standing::Label(size)
    }
}

/// A pointer, whose first octet is 192 or more.
fn pointer_at(message: &[u8], spot: Spot) -> Standing
    requires here { spot.offset < length message.now }
    requires first { 192 ≤ slice_index message.now spot.offset }
    ensures { standing_of result ≡ Some
        (pointer_of message.now (spot_of spot) (target_at message.now spot.offset)) }
{
    if spot.offset + 1 >= message.len() {
        return Standing::Bad(Cause::ShortMessage);
    }
    let target = (u16_at(message, spot.offset) - POINTER_BITS) as usize;
    if target < HEADER_LEN || target >= spot.bound {
        Standing::Bad(Cause::BadPointer)
    } else if spot.pointers >= MAX_POINTERS {
        Standing::Bad(Cause::TooManyPointers)
    } else {
        Standing::Pointer(target)
    }
}

impl Spot {
    /// Where the walk of the name at an offset begins.
    pub(crate) fn outset(offset: usize) -> Spot
        ensures { spot_of result ≡ outset offset }
    {
        Spot {
            offset,
            bound: offset,
            pointers: 0,
            octets: 0,
        }
    }

    /// The spot after a label of this many octets.
    pub(crate) fn past_label(self, size: usize) -> Spot
        requires offset { self.offset + 1 + size < 2 ^ 64 }
        requires octets { self.octets + 1 + size < 256 }
        ensures { spot_of result ≡ past_label (spot_of self) size }
    {
        Spot {
            offset: self.offset + 1 + size,
            octets: self.octets + 1 + size,
            ..self
        }
    }

    /// Where a pointer leads.
    pub(crate) fn past_pointer(self, target: usize) -> Spot
        requires { self.pointers < 128 }
        ensures { spot_of result ≡ past_pointer (spot_of self) target }
    {
        Spot {
            offset: target,
            bound: target,
            pointers: self.pointers + 1,
            ..self
        }
    }
}
