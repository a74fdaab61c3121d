//! The spelling of names whose octets all spell themselves, as most do.
ghost use Rattle.std.specs.Prelude.{◌≡◌, ◌+◌, ◌*◌, ◌≤◌, ◌<◌, ◌++◌, ◌∷◌, ℕ, drop, length, take, IsTrue};
ghost use Rattle.std.specs.List.{count_by, flat_map};
ghost use Rattle.zone_name.specs.Machine.Plain.{TurnsFront};
ghost use Rattle.zone_name.specs.Machine.Shown.{is_odd};
ghost use Rattle.zone_name.specs.Name.{BeginsWithName, HoldsName, labels_of, wire};
ghost use Rattle.zone_name.specs.Text.{name_text};

use crate::lanes::{LANES, odd_in, put, turn_evens};

/// Writes a dot and the spelling of a name that isn't the root over the first octets, and tells
/// whether each octet of its labels spells itself. If not, the octets say nothing.
#[inline(always)]
pub(crate) fn spell_shown(room: &mut [u8], name: &[u8]) -> bool
    requires name { HoldsName name.now }
    requires some { 1 < length name.now }
    requires room { length name.now + LANES ≤ length room.old }
    requires wide { 2 * LANES ≤ length room.old }
    ensures { IsTrue result
        → take (length name.now) room.new ≡ 46 ∷ name_text (labels_of name.now) }
{
    put(room, 0, name);
    let labels = write_dots(room);
    count_odd(room, name.len()) == labels + 1
}

/// Writes dots over the lengths of the labels of one octet that come first, by eight, as far as 16
/// octets follow them, and returns the place after them. An address in ip6.arpa has 32 (RFC 3596
/// 2.5).
#[inline(always)]
fn dot_ones(octets: &mut [u8]) -> usize
    requires { 2 * LANES ≤ length octets.old }
    ensures { TurnsFront octets.old octets.new result 1 46 }
{
    let mut at = 0;
    while octets[at] == 1 && octets.len() - at >= 2 * LANES && turn_evens(octets, at, 1, b'.') {
        at += LANES;
    }
    at
}

/// Writes a dot over the length of each label of the name that the octets begin with and over its
/// root, and returns how many labels it has.
#[inline(always)]
fn write_dots(octets: &mut [u8]) -> usize
    requires name { BeginsWithName octets.old }
    requires room { 2 * LANES ≤ length octets.old }
    ensures dots { octets.new ≡ flat_map (λ label. 46 ∷ label) (labels_of octets.old)
        ++ 46 ∷ drop (length (wire (labels_of octets.old))) octets.old }
    ensures labels { result ≡ length (labels_of octets.old) }
{
    let mut at = dot_ones(octets);
    let mut labels = at / 2;
    loop {
        let len = octets[at] as usize;
        octets[at] = b'.';
        if len == 0 {
            return labels;
        }
        at += len + 1;
        labels += 1;
    }
}

/// How many of the first octets don't spell themselves, as no dot does. Up to 15 octets after them
/// are counted too.
#[inline(always)]
fn count_odd(octets: &[u8], len: usize) -> usize
    requires { len + LANES ≤ length octets.now }
    ensures { (seen : ℕ) × (len ≤ seen) × (seen < len + LANES)
        × (result ≡ count_by is_odd (take seen octets.now)) }
{
    let mut at = 0;
    let mut odd = 0;
    while at < len {
        odd += odd_in(octets, at);
        at += LANES;
    }
    odd
}
