//! Laws over the definitions alone.
pub mod frame;
pub mod given_records;
pub mod record;
pub mod walk;

ghost use Rattle.std.specs.Prelude.{◌++◌, Some, ◌≡◌, ◌+◌, ◌≤◌, ◌<◌, ℕ, List, length, slice_index, Option, None};
ghost use Rattle.std.specs.List.{AllByRecursion};
ghost use Rattle.zone_name.specs.Common.{AtMostOneIs, IsVerdict, Octets};
ghost use Rattle.zone_wire.specs.Message.{RecordAt, IsMessage};
ghost use Rattle.zone_wire.specs.Name.{Found, IsNameAt, OfEachName};
ghost use Rattle.zone_wire.specs.Transfer.{IsDataAt, StreamStates};
ghost use Rattle.zone_wire.specs.DataFault.{DataFault};
ghost use Rattle.zone_wire.specs.MessageFault.{MessageFault};
ghost use Rattle.zone_wire.specs.Stream.{StreamReads, StreamDecides};
ghost use Rattle.zone_rdata.specs.Record.{IsRecord};
ghost use Rattle.zone_rdata.specs.declared.fault.Fault.{Fault};
ghost use Rattle.zone_rdata.specs.declared.fault.Place.{Place};
ghost use Rattle.zone_rdata.specs.declared.record.Placed.{Placed};
ghost use Rattle.zone_wire.specs.Visits.{labels_in, pointers_in, LeadToLast};
ghost use Rattle.zone_wire.specs.Walk.{Visit, IsWalk, OfEachWalk};

/// At most one name stands at an offset of a message.
#[tactic(auto, using(crate::proofs::Names::Walking::one_name))]
pub fn one_name_at_an_offset()
    ensures { (message : Octets) (offset : ℕ) → AtMostOneIs (IsNameAt message offset) }
{}

/// A name in a message has at most 127 labels, 128 pointers and 256 steps, and ends in the message.
#[tactic(auto, using(crate::proofs::Names::Walking::name_bounds))]
pub fn a_name_is_bounded()
    ensures labels { OfEachName (λ message offset found. length found.labels ≤ 127) }
    ensures pointers { OfEachName (λ message offset found. found.pointers ≤ 128) }
    ensures steps { OfEachName (λ message offset found. found.steps ≤ 256) }
    ensures start { OfEachName (λ message offset found. offset < found.end) }
    ensures end { OfEachName (λ message offset found. found.end ≤ length message) }
{}

/// A walk has at most 256 places, all of them in the message: at most 127 labels and 128 pointers,
/// and what is neither stands at the last place alone.
#[tactic(auto, using(crate::proofs::Names::Walking::walk_lies))]
pub fn a_walk_is_bounded()
    ensures places { OfEachWalk (λ message visits. length visits ≤ 256) }
    ensures labels { OfEachWalk (λ message visits. labels_in visits ≤ 127) }
    ensures pointers { OfEachWalk (λ message visits. pointers_in visits ≤ 128) }
    ensures last { OfEachWalk (λ message visits. LeadToLast visits) }
    ensures inside { OfEachWalk (λ message.
        AllByRecursion (λ visit. visit.offset < length message)) }
{}

/// The walk of a name ends at the root, after as many places as the name has steps.
#[tactic(auto, using(crate::proofs::Names::Walking::named_walks))]
pub fn a_name_is_walked()
    ensures ending { (message : Octets) (offset : ℕ) (found : Found) (visits : List Visit)
        (ending : Option Fault)
        → IsNameAt message offset found
        → IsWalk message offset visits ending → ending ≡ None }
    ensures steps { (message : Octets) (offset : ℕ) (found : Found) (visits : List Visit)
        (ending : Option Fault)
        → IsNameAt message offset found
        → IsWalk message offset visits ending → length visits ≡ found.steps }
{}

/// Where the walk ends at the root, a name stands.
#[tactic(auto, using(crate::proofs::Names::Walking::root_is_name))]
pub fn a_walk_to_the_root_is_a_name()
    ensures { (message : Octets) (offset : ℕ) (visits : List Visit)
        → ((i : ℕ) → slice_index message i < 256)
        → IsWalk message offset visits None → (found : Found)
        × IsNameAt message offset found }
{}

/// Octets are a message in at most one way.
pub fn one_message_of_octets()
    ensures { (octets : Octets) → AtMostOneIs (IsMessage octets) }
{}

/// A stream states at most one list of records.
pub fn one_list_of_a_stream()
    ensures { (stream : Octets) → AtMostOneIs (StreamStates stream) }
{}

/// A stream is read in at most one way, and one thing is decided for it.
pub fn one_reading_of_a_stream()
    ensures whole { (stream : Octets) (placed other : List Placed)
        (ending late : Option (Fault × Place))
        → StreamReads stream placed ending → StreamReads stream other late → (placed ≡ other)
        × (ending ≡ late) }
    ensures decided { (stream : Octets) (placed other : List Placed)
        (ending late : Option (Fault × Place))
        → StreamDecides stream placed ending → StreamDecides stream other late → (placed ≡ other)
        × (ending ≡ late) }
{}

/// Each stream of octets is read in some way, and something is decided for it.
#[tactic(auto, using(crate::proofs::Streams::OneStream::something_of_streams))]
pub fn each_stream_is_read()
    ensures whole { (stream : Octets) → ((i : ℕ) → slice_index stream i < 256)
        → (placed : List Placed) × (ending : Option (Fault × Place))
        × StreamReads stream placed ending }
    ensures decided { (stream : Octets) → ((i : ℕ) → slice_index stream i < 256)
        → (placed : List Placed) × (ending : Option (Fault × Place))
        × StreamDecides stream placed ending }
{}

/// The records that are decided for a stream begin those of every longer one, and a decided fault
/// stays.
pub fn what_is_decided_stays()
    ensures records { (stream more : Octets) (placed other : List Placed)
        (ending late : Option (Fault × Place))
        → StreamDecides stream placed ending → StreamDecides (stream ++ more) other late
        → (rest : List Placed) × (other ≡ placed ++ rest) }
    ensures fault { (stream more : Octets) (placed other : List Placed) (e : Fault × Place)
        (late : Option (Fault × Place))
        → StreamDecides stream placed (Some e) → StreamDecides (stream ++ more) other late
        → (other ≡ placed) × (late ≡ Some e) }
{}

/// The records that are decided for a stream begin those that every longer one is read as, and a
/// decided fault is its fault.
pub fn what_is_decided_is_read()
    ensures records { (stream more : Octets) (placed other : List Placed)
        (ending late : Option (Fault × Place))
        → StreamDecides stream placed ending → StreamReads (stream ++ more) other late
        → (rest : List Placed) × (other ≡ placed ++ rest) }
    ensures fault { (stream more : Octets) (placed other : List Placed) (e : Fault × Place)
        (late : Option (Fault × Place))
        → StreamDecides stream placed (Some e) → StreamReads (stream ++ more) other late
        → (other ≡ placed) × (late ≡ Some e) }
{}

/// Octets are a message, or their structure has one first fault, at one offset.
pub fn a_message_or_a_fault()
    ensures { (octets : Octets) → ((i : ℕ) → slice_index octets i < 256)
        → IsVerdict (IsMessage octets) (λ (e : Fault × ℕ). MessageFault octets e.0 e.1) }
{}

/// A record that stands in octets has data, or its data has one first fault.
pub fn the_data_of_a_record()
    ensures { (octets : Octets) (a : RecordAt) → ((i : ℕ) → slice_index octets i < 256)
        → a.end ≤ length octets → IsVerdict (IsDataAt octets a) (DataFault octets a) }
{}

/// What a stream of octets is read as is records.
pub fn what_is_read_is_records()
    ensures { (stream : Octets) (placed : List Placed) (ending : Option (Fault × Place))
        → ((i : ℕ) → slice_index stream i < 256) → StreamReads stream placed ending
        → AllByRecursion (λ p. IsRecord p.rr) placed }
{}

/// A transfer is read as its records, without a fault, and a stream that is read without a fault is
/// that transfer.
#[tactic(auto, using(crate::proofs::Transfers::GivenTransfers::transfers_are_read))]
pub fn a_transfer_is_read()
    ensures found { (stream : Octets) (placed : List Placed)
        → ((i : ℕ) → slice_index stream i < 256)
        → StreamReads stream placed None → StreamStates stream placed }
    ensures only { (stream : Octets) (placed : List Placed) → StreamStates stream placed
        → StreamReads stream placed None }
{}
