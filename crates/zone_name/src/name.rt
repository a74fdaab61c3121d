ghost use Rattle.std.specs.Prelude.{◌≡◌, ◌≤◌, ◌↔◌, List, [], length, IsOk, IsTrue, IfOk, IfErr, IfSome, OnOk, OnErr, Ok, option_copied};
ghost use Rattle.zone_name.specs.Common.{Octets};
ghost use Rattle.zone_name.specs.Name.{wire, labels_of, IsName, HoldsName, IsWithin};
ghost use Rattle.zone_name.specs.Spelling.{AppendsSpelled, Spells, SpellingFault};
ghost use Rattle.zone_name.specs.Machine.Letters.{origin_in};

use crate::fault::NameFault;
use crate::labels::Labels;
use crate::lent::NameRef;
use crate::octets::NameOctets;
use crate::reading::{Letters, push_plain, read_name};
use std::alloc::AllocError;
use std::marker::Model;

/// A domain name: its uncompressed octets (RFC 1035 3.1) in lower case. Contracts see its labels.
#[derive(Debug, Drop)]
pub struct Name {
    octets: NameOctets,
}

impl Model for Name {
    ghost use Rattle.std.specs.Prelude.{List, ℕ};
    ghost use Rattle.zone_name.specs.Name.{labels_of, HoldsName};

    ghost Value = { List (List ℕ) };

    ghost view = { λ n. labels_of n.octets };

    ghost invariant = { λ n. HoldsName n.octets };
}

impl Name {
    /// The name that the text spells under the origin (RFC 1035 5.1). An absolute text needs no
    /// origin.
    ///
    /// # Errors
    ///
    /// The first of: the leftmost `EmptyLabel`, `LabelTooLong` or `BadEscape`; then `RelativeName`;
    /// then `NameTooLong`.
    pub fn from_text(text: &[u8], origin: Option<&Name>) -> Result<Name, NameFault>
        ensures found { IfOk result (λ name. Spells (option_copied origin.entry) text.now name) }
        ensures only { (name : List Octets) → Spells (option_copied origin.entry) text.now name
            → result ≡ Ok name }
        ensures fault { IfErr result (SpellingFault (option_copied origin.entry) text.now) }
    {
        let mut name = Name::root();
        name.set_from_text(text, origin)?;
        Ok(name)
    }

    /// Becomes the name that the text spells under the origin (RFC 1035 5.1), which is written in
    /// place. On an error it becomes the root.
    ///
    /// # Errors
    ///
    /// The first fault of the text: the leftmost `EmptyLabel`, `LabelTooLong` or `BadEscape`; then
    /// `RelativeName` where it is relative and there is no origin; then `NameTooLong`.
    pub fn set_from_text(&mut self, text: &[u8], origin: Option<&Name>) -> Result<(), NameFault>
        ensures found { OnOk result (Spells (option_copied origin.entry) text.now self.new) }
        ensures only { (name : List Octets) → Spells (option_copied origin.entry) text.now name
            → IsOk result × (self.new ≡ name) }
        ensures fault { IfErr result (SpellingFault (option_copied origin.entry) text.now) }
        ensures err { OnErr result (self.new ≡ []) }
    {
        let above = octets_of(origin);
        read_name(&mut self.octets, text, above, Letters::Folded)
    }

    /// Appends the uncompressed octets, in lower case, of the name that the text spells under the
    /// origin (RFC 1035 5.1).
    ///
    /// # Errors
    ///
    /// The outer one is `AllocError` where memory is refused; nothing is said of `out` then. The
    /// inner one is the first fault of the text: the leftmost `EmptyLabel`, `LabelTooLong` or
    /// `BadEscape`; then `RelativeName` where it is relative and there is no origin; then
    /// `NameTooLong`.
    pub fn push_spelled(
        text: &[u8],
        origin: Option<&Name>,
        out: &mut Vec<u8>,
    ) -> Result<Result<(), NameFault>, AllocError>
        ensures found { IfOk result (λ read. OnOk read (AppendsSpelled
            (option_copied origin.entry) text.now out.old.items out.new.items)) }
        ensures only { (name : List Octets) → Spells (option_copied origin.entry) text.now name
            → IfOk result IsOk }
        ensures fault { IfOk result (λ read.
            IfErr read (SpellingFault (option_copied origin.entry) text.now)) }
    {
        if push_plain(text, octets_of(origin), out)? {
            return Ok(Ok(()));
        }
        push_read(text, origin, out)
    }

    /// The root of all names: no label (RFC 1035 3.1).
    #[tactic(auto, using(crate::proofs::InOctets::Octets::folded_root))]
    pub fn root() -> Name
        ensures { result ≡ [] }
    {
        let octets = NameOctets::root();
        Name { octets }
    }

    /// The uncompressed octets in lower case, at most 255 (RFC 1035 3.1).
    pub fn wire(&self) -> &[u8]
        ensures octets { result.now ≡ wire self.now }
        ensures short { length result.now ≤ 255 }
        ensures name { IsName self.now }
        ensures back { labels_of result.now ≡ self.now }
    {
        self.octets.as_slice()
    }

    /// A copy of the name.
    pub fn copy(&self) -> Name
        ensures { result ≡ self.now }
    {
        Name::holding(self.octets.as_slice())
    }

    /// Becomes a copy of a name that is lent, which is written in place.
    pub fn copy_from(&mut self, other: &NameRef<'_>)
        ensures { self.new ≡ other.now }
    {
        self.octets.hold(other.wire());
    }

    /// Does nothing, and tells contracts what holds of every name.
    pub fn known(&self)
        ensures name { IsName self.now }
        ensures octets { labels_of (wire self.now) ≡ self.now }
    {
        let _ = &self.octets;
    }

    /// Whether the name lies at or below the apex: the apex's labels end the name's.
    pub fn is_within(&self, apex: &Name) -> bool
        ensures { IsTrue result ↔ IsWithin self.now apex.now }
    {
        self.lend().is_within(apex)
    }

    /// The labels, from the leftmost.
    pub fn labels(&self) -> Labels<'_>
        ensures value { result ≡ self.now }
        ensures name { IsName self.now }
    {
        Labels {
            octets: self.octets.as_slice(),
        }
    }

    /// The same name, borrowed.
    pub fn lend(&self) -> NameRef<'_>
        ensures value { result ≡ self.now }
        ensures name { IsName self.now }
    {
        NameRef::of_wire(self.octets.as_slice())
    }

    /// The name of these octets, which it copies.
    pub(crate) fn holding(octets: &[u8]) -> Name
        requires { HoldsName octets.now }
        ensures { result ≡ labels_of octets.now }
    {
        let octets = NameOctets::holding(octets);
        Name { octets }
    }
}

impl NameRef<'_> {
    /// A copy of the name that owns its octets.
    pub fn to_name(&self) -> Name
        ensures { result ≡ self.now }
    {
        Name::holding(self.wire())
    }

    /// Whether the name lies at or below the apex: the apex's labels end the name's.
    pub fn is_within(&self, apex: &Name) -> bool
        ensures { IsTrue result ↔ IsWithin self.now apex.now }
    {
        self.labels().ends_with(apex.labels())
    }
}

/// The uncompressed octets of an origin.
fn octets_of<'o>(origin: Option<&'o Name>) -> Option<&'o [u8]>
    ensures labels { origin_in (option_copied result) ≡ option_copied origin.entry }
    ensures name { IfSome (option_copied result) HoldsName }
{
    match origin {
        Some(name) => Some(name.wire()),
        None => None,
    }
}

/// As `Name::push_spelled`, by a name of its own.
// Not inlined: few names need the room for one.
#[inline(never)]
fn push_read(
    text: &[u8],
    origin: Option<&Name>,
    out: &mut Vec<u8>,
) -> Result<Result<(), NameFault>, AllocError>
    ensures found { IfOk result (λ read. OnOk read (AppendsSpelled
        (option_copied origin.entry) text.now out.old.items out.new.items)) }
    ensures fault { IfOk result (λ read.
        IfErr read (SpellingFault (option_copied origin.entry) text.now)) }
{
    match Name::from_text(text, origin) {
        Ok(name) => {
            out.extend_from_slice(name.wire())?;
            Ok(Ok(()))
        }
        Err(fault) => Ok(Err(fault)),
    }
}
