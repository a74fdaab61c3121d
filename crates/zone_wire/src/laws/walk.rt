//! Laws of the walks along names.
ghost use Rattle.std.specs.Prelude.{◌<◌, ℕ, List, slice_index, Option};
ghost use Rattle.zone_name.specs.Common.{AtMostOneIs, IsVerdict, Octets};
ghost use Rattle.zone_rdata.specs.declared.fault.Fault.{Fault};
ghost use Rattle.zone_wire.specs.Name.{IsNameAt};
ghost use Rattle.zone_wire.specs.Walk.{Visit, IsWalk, NameFault};

/// One list is the walk from an offset, and it ends in one way.
#[tactic(auto, using(crate::proofs::Names::Walking::walks_from_an_offset))]
pub fn one_walk_from_an_offset()
    ensures one { (message : Octets) (offset : ℕ) → AtMostOneIs
        (λ (walk : List Visit × Option Fault). IsWalk message offset walk.0 walk.1) }
    ensures some { (message : Octets) (offset : ℕ) → (visits : List Visit)
        × (ending : Option Fault) × IsWalk message offset visits ending }
{}

/// At each offset of octets stands a name, or the walk from there ends with one fault, never both.
pub fn a_name_or_a_fault()
    ensures { (message : Octets) (offset : ℕ) → ((i : ℕ) → slice_index message i < 256)
        → IsVerdict (IsNameAt message offset) (NameFault message offset) }
{}
