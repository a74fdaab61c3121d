ghost use Rattle.std.specs.Prelude.{◌≡◌, ◌≤◌, ◌↔◌, [], drop, length, slice_index, EachIndex, IsTrue, OnOk, OnErr};
ghost use Rattle.zone_name.specs.Name.{labels_of, wire, BeginsWithName, HoldsName, IsName};
ghost use Rattle.std.specs.List.{flat_map};
ghost use Rattle.zone_name.specs.Machine.Shown.{IsShown};
ghost use Rattle.zone_name.specs.Sink.{TakesSome};
ghost use Rattle.zone_name.specs.Text.{label_text, name_text, octet_text};

use crate::escape::{LONGEST_ESCAPE, is_special_octet, spell};
use crate::labels::Labels;
use crate::lanes::{LANES, ROOM};
use crate::limits::MAX_LABEL_LEN;
use crate::shown::spell_shown;
use crate::sink::Sink;
use std::marker::Model;

/// The most octets of a spelling that are made at once.
const LONGEST_PART: usize = LONGEST_ESCAPE * MAX_LABEL_LEN;

/// A domain name in borrowed octets: uncompressed (RFC 1035 3.1) and in lower case. Contracts
/// see its labels.
#[derive(Debug, Drop)]
pub struct NameRef<'a> {
    octets: &'a [u8],
}

impl<'a> Model for NameRef<'a> {
    ghost use Rattle.std.specs.Prelude.{List, ℕ};
    ghost use Rattle.zone_name.specs.Name.{labels_of, HoldsName};

    ghost Value = { List (List ℕ) };

    ghost view = { λ n. labels_of n.octets.now };

    ghost invariant = { λ n. HoldsName n.octets.now };
}

impl<'a> NameRef<'a> {
    /// The name of these uncompressed octets, which were judged before.
    pub fn of_wire(octets: &'a [u8]) -> NameRef<'a>
        requires { HoldsName octets.now }
        ensures { result ≡ labels_of octets.now }
    {
        NameRef { octets }
    }

    /// The name at the beginning of uncompressed octets that were judged before, and the octets
    /// after it.
    #[tactic(auto, using(crate::proofs::InOctets::Octets::names_split))]
    pub fn split_front(octets: &'a [u8]) -> (NameRef<'a>, &'a [u8])
        requires { BeginsWithName octets.now }
        ensures name { result.0 ≡ labels_of octets.now }
        ensures rest { result.1.now ≡ drop (length (wire (labels_of octets.now))) octets.now }
    {
        let mut len = 1;
        for label in (Labels { octets }) {
            len += label.len() + 1;
        }
        let (front, rest) = octets.split_at(len);
        (NameRef::of_wire(front), rest)
    }

    /// The uncompressed octets in lower case, at most 255 (RFC 1035 3.1).
    pub fn wire(&self) -> &'a [u8]
        ensures octets { result.now ≡ wire self.now }
        ensures name { IsName self.now }
        ensures back { labels_of result.now ≡ self.now }
    {
        self.octets
    }

    /// The same name, borrowed for as long.
    pub fn copy(&self) -> NameRef<'a>
        ensures { result ≡ self.now }
    {
        NameRef::of_wire(self.octets)
    }

    /// Whether the other has the same labels.
    pub fn is_same(&self, other: &NameRef<'_>) -> bool
        ensures { IsTrue result ↔ (self.now ≡ other.now) }
    {
        self.wire() == other.wire()
    }

    /// The labels, from the leftmost.
    pub fn labels(&self) -> Labels<'a>
        ensures value { result ≡ self.now }
    {
        Labels {
            octets: self.octets,
        }
    }

    /// Appends the canonical spelling, at most 1,021 octets.
    ///
    /// # Errors
    ///
    /// `out` refuses octets. A prefix of the spelling may have been appended.
    #[inline(always)]
    pub fn print<S: Sink>(&self, out: &mut S) -> Result<(), S::Error>
        ensures ok { OnOk result (S.takes out.old (name_text self.now) out.new) }
        ensures err { OnErr result (TakesSome S.takes out.old out.new) }
    {
        let len = self.octets.len();
        if len > 1 && len <= ROOM - LANES {
            let mut room = [b'a'; ROOM];
            if spell_shown(&mut room, self.octets) {
                return out.push(&room[1..len]);
            }
        }
        self.print_labels(out)
    }

    /// Appends the canonical spelling label by label.
    ///
    /// # Errors
    ///
    /// `out` refuses octets. A prefix of the spelling may have been appended.
    // Not inlined: only a name with an octet that takes an escape, a long one and the root need it.
    #[inline(never)]
    fn print_labels<S: Sink>(&self, out: &mut S) -> Result<(), S::Error>
        ensures ok { OnOk result (S.takes out.old (name_text self.now) out.new) }
        ensures err { OnErr result (TakesSome S.takes out.old out.new) }
    {
        let mut labels = self.labels();
        let Some(first) = labels.next() else {
            return out.push(b".");
        };
        push_label(first, out)?;
        for label in labels {
            push_label(label, out)?;
        }
        Ok(())
    }
}

/// Appends a label's spelling, its letters as they are, and the dot after it.
///
/// # Errors
///
/// `out` refuses octets. A prefix of the spelling may have been appended.
pub fn push_label<S: Sink>(label: &[u8], out: &mut S) -> Result<(), S::Error>
    ensures ok { OnOk result (S.takes out.old (label_text label.now) out.new) }
    ensures err { OnErr result (TakesSome S.takes out.old out.new) }
{
    push_octets(label, out)?;
    out.push(b".")
}

/// Appends the spelling of a label's octets, which is made in room of fixed size, as many octets at a
/// time as a label of a name has.
#[tactic(auto, using(crate::proofs::Texts::Lengths::flat_map_shown))]
fn push_octets<S: Sink>(label: &[u8], out: &mut S) -> Result<(), S::Error>
    ensures ok { OnOk result (S.takes out.old (flat_map octet_text label.now) out.new) }
    ensures err { OnErr result (TakesSome S.takes out.old out.new) }
{
    if is_shown(label) {
        return out.push(label);
    }
    let mut rest = label;
    while !rest.is_empty() {
        let (part, after) = rest.split_at(rest.len().min(MAX_LABEL_LEN));
        push_part(part, out)?;
        rest = after;
    }
    Ok(())
}

/// Appends the spelling of at most 63 octets at once.
fn push_part<S: Sink>(part: &[u8], out: &mut S) -> Result<(), S::Error>
    requires { length part.now ≤ 63 }
    ensures ok { OnOk result (S.takes out.old (flat_map octet_text part.now) out.new) }
    ensures err { OnErr result (S.takes out.old [] out.new) }
{
    let mut room = [0; LONGEST_PART];
    let len = spell(&mut room, part);
    out.push(&room[..len])
}

/// Whether each octet spells itself.
fn is_shown(label: &[u8]) -> bool
    ensures { IsTrue result ↔ EachIndex label.now (λ k. IsShown (slice_index label.now k)) }
{
    label.iter().all(|octet| octet_is_shown(*octet))
}

/// Whether the octet spells itself. Letters and digits are tested first, as most octets are one.
fn octet_is_shown(octet: u8) -> bool
    ensures { IsTrue result ↔ IsShown octet }
{
    if octet > b'\\' {
        octet <= b'~'
    } else if octet >= b'0' && octet <= b'9' {
        true
    } else {
        octet >= b'!' && !is_special_octet(octet)
    }
}
