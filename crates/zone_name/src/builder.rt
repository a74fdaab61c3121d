ghost use Rattle.std.specs.Prelude.{◌≡◌, ◌<◌, ◌≤◌, ◌↔◌, ◌++◌, ◌∷◌, [], List, ℕ, length, OnOk, OnErr, IfErr, Err};
ghost use Rattle.zone_name.specs.Name.{folded_label, wire, IsName};
ghost use Rattle.zone_name.specs.Spelling.{IsLabelFault};
ghost use Rattle.zone_name.specs.declared.fault.NameFault.TheVariants.{EmptyLabel, LabelTooLong, NameTooLong};

use crate::fault::NameFault;
use crate::limits::{MAX_LABEL_LEN, MAX_NAME_LEN};
use crate::name::Name;
use crate::reading::{Letters, append_label};
use arrayvec::ArrayVec;
use std::marker::Model;

/// A name that is made label by label. Contracts see the labels that were pushed.
#[derive(Debug, Drop)]
pub struct NameBuilder {
    /// Each label after its length, without the root's octet.
    octets: ArrayVec<u8, MAX_NAME_LEN>,
}

impl Model for NameBuilder {
    ghost use Rattle.std.specs.Prelude.{List, ℕ};
    ghost use Rattle.zone_name.specs.Name.{labels_of, HoldsLabels};

    ghost Value = { List (List ℕ) };

    ghost view = { λ b. labels_of b.octets.items };

    ghost invariant = { λ b. HoldsLabels b.octets.items };
}

impl NameBuilder {
    /// A builder of the root: no label yet.
    #[tactic(auto, using(crate::proofs::InOctets::Pushing::no_labels))]
    pub fn new() -> NameBuilder
        ensures { result ≡ [] }
    {
        let octets = ArrayVec::new();
        NameBuilder { octets }
    }

    /// Appends a label, with its letters in lower case (RFC 4343 3), to those that were pushed
    /// before.
    ///
    /// # Errors
    ///
    /// `EmptyLabel` for no octets, `LabelTooLong` for more than 63, and `NameTooLong` where the
    /// name would take more than 255 octets. The builder is then unchanged.
    pub fn push_label(&mut self, label: &[u8]) -> Result<(), NameFault>
        ensures ok { OnOk result (self.new ≡ self.old ++ folded_label label.now ∷ []) }
        ensures empty { (result ≡ Err EmptyLabel) ↔ (length label.now ≡ 0) }
        ensures long { (result ≡ Err LabelTooLong) ↔ (63 < length label.now) }
        ensures too_long { (result ≡ Err NameTooLong) ↔ ((0 < length label.now)
            × (length label.now ≤ 63) × (255 < length (wire (self.old ++ label.now ∷ [])))) }
        ensures err { OnErr result (self.new ≡ self.old) }
        ensures only { IfErr result IsLabelFault }
    {
        match label.len() {
            0 => Err(NameFault::EmptyLabel),
            1..=MAX_LABEL_LEN => {
                if append_label(&mut self.octets, label, Letters::Folded) {
                    Ok(())
                } else {
                    Err(NameFault::NameTooLong)
                }
            }
            _ => Err(NameFault::LabelTooLong),
        }
    }

    /// The name of the labels that were pushed.
    #[tactic(auto, using(crate::proofs::InOctets::Pushing::root_after_labels))]
    pub fn finish(self) -> Name
        ensures value { result ≡ self }
        ensures name { IsName result }
    {
        let mut octets = self.octets;
        octets.push(0);
        Name::holding(octets.as_slice())
    }
}
