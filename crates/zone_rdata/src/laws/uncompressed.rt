//! Laws of uncompressed octets (RFC 1035 3.3; RFC 4343 3).
ghost use Rattle.std.specs.Prelude.{◌≡◌, ◌⊎◌, List, ℕ, Some};
ghost use Rattle.zone_name.specs.Common.{AreOctets, AtMostOneIs, NothingIs, Octets};
ghost use Rattle.zone_rdata.specs.Layout.{layout};
ghost use Rattle.zone_rdata.specs.Uncompressed.{IsUncompressed};
ghost use Rattle.zone_rdata.specs.declared.field.Field.{Field};

/// Octets have at most one canonical form in the layout of a class and type.
pub fn canonical_octets_are_unique()
    ensures { (class kind : ℕ) (fields : List Field) (octets : Octets)
        → layout class kind ≡ Some fields
        → AtMostOneIs (IsUncompressed fields octets) }
{}

/// Octets have a canonical form in the layout of a class and type, or none.
#[tactic(auto, using(crate::proofs::Octets::Taken::canonical_or_not))]
pub fn octets_are_canonical_or_none()
    ensures { (class kind : ℕ) (fields : List Field) (octets : Octets)
        → layout class kind ≡ Some fields → AreOctets octets
        → ((canonical : Octets) × IsUncompressed fields octets canonical)
        ⊎ NothingIs (IsUncompressed fields octets) }
{}
