//! Laws of the generic form (RFC 3597 5).
ghost use Rattle.std.specs.Prelude.{◌≡◌, ◌≤◌, List, length, map};
ghost use Rattle.std.specs.List.{join_with_byte};
ghost use Rattle.zone_name.specs.Common.{AreOctets, AtMostOneIs, EitherIs, NeverBothAre, Octets};
ghost use Rattle.zone_rdata.specs.Generic.{GenericFault, StatesGeneric, generic_items};
ghost use Rattle.zone_rdata.specs.Item.{IsGeneric, RawItem};
ghost use Rattle.zone_rdata.specs.Strings.{item_text};
ghost use Rattle.zone_rdata.specs.Text.{generic_text};
ghost use Rattle.zone_rdata.specs.Limits.{longest_data};

/// Items state at most one list of octets.
pub fn generic_is_unique()
    ensures { (items : List RawItem) → AtMostOneIs (StatesGeneric items) }
{}

/// Items that begin with the mark state octets or have a first fault.
pub fn generic_or_fault()
    ensures { (items : List RawItem) → IsGeneric items
        → EitherIs (StatesGeneric items) (GenericFault items) }
{}

/// Items that have a first fault state no octets.
pub fn faulty_generic_states_none()
    ensures { (items : List RawItem) → NeverBothAre (StatesGeneric items) (GenericFault items) }
{}

/// Items have at most one first fault.
#[tactic(auto, using(crate::proofs::Items::GenericLaws::generic_fault_once))]
pub fn generic_fault_is_unique()
    ensures { (items : List RawItem) → AtMostOneIs (GenericFault items) }
{}

/// The items that are printed for octets, parted by single spaces, are their text and state those
/// octets.
#[tactic(auto, using(crate::proofs::Items::GenericLaws::printed_generic))]
pub fn printed_octets_are_stated()
    ensures text { (octets : Octets) → generic_text octets ≡ join_with_byte 32
        (map item_text (generic_items octets)) }
    ensures stated { (octets : Octets) → AreOctets octets → length octets ≤ longest_data
        → StatesGeneric (generic_items octets) octets }
{}
