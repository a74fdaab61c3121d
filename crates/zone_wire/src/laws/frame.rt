//! Laws of a stream's frames, one after another.
ghost use Rattle.std.specs.Prelude.{◌≡◌, ◌+◌, ◌<◌, ◌≤◌, ◌++◌, ◌∷◌, [], ℕ, List, Some, None, length, slice_index};
ghost use Rattle.zone_name.specs.Common.{IsVerdict, Octets};
ghost use Rattle.zone_rdata.specs.declared.fault.Fault.{Fault};
ghost use Rattle.zone_rdata.specs.declared.fault.Place.TheVariants.{Message};
ghost use Rattle.zone_rdata.specs.declared.record.Placed.{Placed};
ghost use Rattle.zone_wire.specs.Answers.{handed_on};
ghost use Rattle.zone_wire.specs.Frames.{IsFramed};
ghost use Rattle.zone_wire.specs.Stream.{octets_in, placed_in, IsReadAfter, AreRead, FaultAfter, StreamDecides};
ghost use Rattle.zone_wire.specs.Transfer.{StatedMessage, frame};
ghost use Rattle.zone_wire.specs.TransferSource.{AreAlike};
ghost use Rattle.zone_wire.specs.Message.{longest_message};

/// The frames of joined octets are those of the first octets, and then those of their rest and the
/// octets after it.
#[tactic(auto, using(crate::proofs::Streams::OneStream::frames_join))]
pub fn frames_of_joined_octets()
    ensures { (stream more : Octets) (messages others : List Octets) (rest last : Octets)
        → IsFramed stream messages rest
        → IsFramed (rest ++ more) others last
        → IsFramed (stream ++ more) (messages ++ others) last }
{}

/// After messages that are read, octets are one that is read, or are refused for one fault.
pub fn a_message_after_others()
    ensures { (before : List StatedMessage) (octets : Octets)
        → ((i : ℕ) → slice_index octets i < 256) → length octets ≤ longest_message
        → IsVerdict (λ (p : StatedMessage). (p.octets ≡ octets) × IsReadAfter before p)
        (λ (e : List Placed × Fault × ℕ). FaultAfter before octets e.0 e.1 e.2) }
{}

/// What is decided of a stream and a frame after it is what was decided of the stream, and then
/// what the frame adds.
#[tactic(auto, using(crate::proofs::Streams::OneStream::next_frame))]
pub fn one_frame_more()
    ensures read { (stream : Octets) (before : List StatedMessage) (p : StatedMessage)
        → IsFramed stream (octets_in before) []
        → AreRead [] before → length p.octets ≤ longest_message → IsReadAfter before p
        → StreamDecides (stream ++ frame p.octets) (handed_on (placed_in before ++ p.placed)) None }
    ensures refused { (stream octets : Octets) (before : List StatedMessage) (here : List Placed)
        (fault : Fault) (offset : ℕ)
        → IsFramed stream (octets_in before) [] → AreRead [] before
        → length octets ≤ longest_message → FaultAfter before octets here fault offset
        → StreamDecides (stream ++ frame octets) (handed_on (placed_in before ++ here))
        (Some (fault, Message (length before + 1) offset)) }
    ensures adds { (placed here : List Placed) → (rest : List Placed)
        × (handed_on (placed ++ here) ≡ handed_on placed ++ rest) }
{}

/// A message is judged by itself and, of the messages before it, by how many they are, the first
/// ID, the name and class that are fixed, the opening SOA and whether the closing one came.
pub fn what_a_message_is_judged_by()
    ensures read { (before other : List StatedMessage) (p : StatedMessage) → AreAlike before other
        → IsReadAfter before p → IsReadAfter other p }
    ensures refused { (before other : List StatedMessage) (octets : Octets) (here : List Placed)
        (fault : Fault) (offset : ℕ)
        → AreAlike before other → FaultAfter before octets here fault offset
        → FaultAfter other octets here fault offset }
    ensures stays { (before other : List StatedMessage) (p : StatedMessage) → AreAlike before other
        → IsReadAfter before p → AreAlike (before ++ p ∷ []) (other ++ p ∷ []) }
{}
