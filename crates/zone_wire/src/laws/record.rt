//! Laws of the records of answers.
ghost use Rattle.std.specs.Prelude.{◌≤◌, ◌<◌, ℕ, length, slice_index};
ghost use Rattle.zone_name.specs.Common.{IsVerdict, Octets};
ghost use Rattle.zone_wire.specs.AnswerFault.{OwnFault};
ghost use Rattle.zone_wire.specs.Message.{RecordAt, IsRecordAt, longest_message};
ghost use Rattle.zone_wire.specs.Transfer.{AnswerStates};

/// An answer of a message states one record by itself, or has one first fault.
pub fn a_record_or_a_fault()
    ensures { (octets : Octets) (offset : ℕ) (a : RecordAt) → ((i : ℕ) → slice_index octets i < 256)
        → length octets ≤ longest_message → IsRecordAt octets offset a
        → IsVerdict (AnswerStates octets a) (OwnFault octets a) }
{}
