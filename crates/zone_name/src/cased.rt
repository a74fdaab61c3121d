ghost use Rattle.std.specs.Prelude.{◌≡◌, ◌≤◌, List, [], length, IsOk, IfOk, IfErr, IfSome, OnOk, OnErr, Ok, option_copied};
ghost use Rattle.zone_name.specs.Common.{Octets};
ghost use Rattle.zone_name.specs.Name.{HoldsCasedName, IsCasedName, folded, labels_of, wire};
ghost use Rattle.zone_name.specs.Spelling.{SpellingFault, SpellsCased};
ghost use Rattle.zone_name.specs.Machine.Letters.{origin_in};

use crate::fault::NameFault;
use crate::name::Name;
use crate::octets::NameOctets;
use crate::reading::{Letters, read_name};
use std::marker::Model;

/// A domain name with its letters as they are written: its uncompressed octets (RFC 1035 3.1).
/// Contracts see its labels.
#[derive(Debug, Drop)]
pub struct CasedName {
    octets: NameOctets,
}

impl Model for CasedName {
    ghost use Rattle.std.specs.Prelude.{List, ℕ};
    ghost use Rattle.zone_name.specs.Name.{labels_of, HoldsCasedName};

    ghost Value = { List (List ℕ) };

    ghost view = { λ n. labels_of n.octets };

    ghost invariant = { λ n. HoldsCasedName n.octets };
}

impl CasedName {
    /// The name that the text spells under the origin (RFC 1035 5.1), with the letters of both. An
    /// absolute text needs no origin.
    ///
    /// # Errors
    ///
    /// The first fault of the text: the leftmost `EmptyLabel`, `LabelTooLong` or `BadEscape`; then
    /// `RelativeName` where it is relative and there is no origin; then `NameTooLong`.
    pub fn from_text(text: &[u8], origin: Option<&CasedName>) -> Result<CasedName, NameFault>
        ensures found { IfOk result
            (λ name. SpellsCased (option_copied origin.entry) text.now name) }
        ensures only { (name : List Octets)
            → SpellsCased (option_copied origin.entry) text.now name → result ≡ Ok name }
        ensures fault { IfErr result (SpellingFault (option_copied origin.entry) text.now) }
    {
        let mut name = CasedName::root();
        name.set_from_text(text, origin)?;
        Ok(name)
    }

    /// Becomes the name that the text spells under the origin (RFC 1035 5.1), with the letters of
    /// both, which is written in place. On an error it becomes the root.
    ///
    /// # Errors
    ///
    /// The first fault of the text: the leftmost `EmptyLabel`, `LabelTooLong` or `BadEscape`; then
    /// `RelativeName` where it is relative and there is no origin; then `NameTooLong`.
    pub fn set_from_text(
        &mut self,
        text: &[u8],
        origin: Option<&CasedName>,
    ) -> Result<(), NameFault>
        ensures found { OnOk result (SpellsCased (option_copied origin.entry) text.now self.new) }
        ensures only { (name : List Octets)
            → SpellsCased (option_copied origin.entry) text.now name
            → IsOk result × (self.new ≡ name) }
        ensures fault { IfErr result (SpellingFault (option_copied origin.entry) text.now) }
        ensures err { OnErr result (self.new ≡ []) }
    {
        let above = octets_of(origin);
        read_name(&mut self.octets, text, above, Letters::Kept)
    }

    /// The root of all names: no label (RFC 1035 3.1).
    #[tactic(auto, using(crate::proofs::InOctets::Octets::cased_root))]
    pub fn root() -> CasedName
        ensures { result ≡ [] }
    {
        let octets = NameOctets::root();
        CasedName { octets }
    }

    /// The uncompressed octets, at most 255 (RFC 1035 3.1).
    pub fn wire(&self) -> &[u8]
        ensures octets { result.now ≡ wire self.now }
        ensures short { length result.now ≤ 255 }
        ensures name { IsCasedName self.now }
        ensures back { labels_of result.now ≡ self.now }
    {
        self.octets.as_slice()
    }

    /// A copy of the name.
    pub fn copy(&self) -> CasedName
        ensures { result ≡ self.now }
    {
        let octets = NameOctets::holding(self.octets.as_slice());
        CasedName { octets }
    }

    /// The name with its letters in lower case (RFC 4343 3).
    #[tactic(auto, using(crate::proofs::Spelling::Folding::folded_name))]
    pub fn folded(&self) -> Name
        ensures { result ≡ folded self.now }
    {
        let mut octets = NameOctets::holding(self.octets.as_slice());
        octets.fold();
        Name::holding(octets.as_slice())
    }
}

/// The uncompressed octets of an origin.
fn octets_of<'o>(origin: Option<&'o CasedName>) -> Option<&'o [u8]>
    ensures labels { origin_in (option_copied result) ≡ option_copied origin.entry }
    ensures name { IfSome (option_copied result) HoldsCasedName }
{
    match origin {
        Some(name) => Some(name.wire()),
        None => None,
    }
}
