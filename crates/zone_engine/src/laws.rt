//! Laws of inputs over the definitions alone. The functions only call other laws: their contracts
//! are the laws.
ghost use Rattle.std.specs.Prelude.{◌≡◌, ◌++◌, ◌⊎◌, ◌↔◌, ℕ, List, Option, Some, None};
ghost use Rattle.std.specs.Io.KnownBytes.{Appends};
ghost use Rattle.std.specs.List.{AllByRecursion};
ghost use Rattle.zone_name.specs.Common.{AtMostOneIs, Labels, NothingIs, Octets, AreOctets};
ghost use Rattle.zone_rdata.specs.Record.{IsRecord};
ghost use Rattle.zone_rdata.specs.declared.fault.Fault.{Fault};
ghost use Rattle.zone_rdata.specs.declared.fault.Place.{Place};
ghost use Rattle.zone_rdata.specs.declared.record.Placed.{Placed};
ghost use Rattle.zone_set.specs.Refusal.{records_of};
ghost use Rattle.zone_set.specs.Zone.{Zone};
ghost use Rattle.zone_rdata.specs.declared.fault.Stop.{Stop};
ghost use Rattle.zone_print.specs.Canonical.{canon};
ghost use Rattle.zone_print.specs.Laws.{HasNoFeed};
ghost use Rattle.zone_print.specs.Denotes.{MakesZone};
ghost use Rattle.zone_wire.specs.Walk.{Visit};
ghost use Rattle.zone_engine.specs.declared.comparison.Verdict.{Verdict};
ghost use Rattle.zone_engine.specs.declared.comparison.Verdict.TheVariants.{Same};
ghost use Rattle.zone_engine.specs.Compare.{Compares};
ghost use Rattle.zone_engine.specs.Headline.{DenoteOne, DenotesOnly, IsBoundedWalk, NormalisesOnlyTo};
ghost use Rattle.zone_engine.specs.Input.{file, Input, InputDenotes, IsInput, InputReads, InputStates};
ghost use Rattle.zone_engine.specs.Machine.Input.{Decides, IsForm, ReadAs, input_of};
ghost use Rattle.zone_engine.specs.Machine.Loading.{RefusesFront, RefusesRead};
ghost use Rattle.zone_engine.specs.Normalise.{Normalises, NormalisesTo};
ghost use Rattle.zone_engine.specs.Telling.{records_line, stop_line, verdict_line};
ghost use Rattle.zone_engine.specs.Refusal.{IsRefusal, IsRefused, RefusesReading};

/// A reading is refused for at most one fault, at one place.
#[tactic(auto, using(crate::proofs::Refusals::Refusing::one_refusal))]
pub fn one_fault_of_a_reading()
    ensures { (placed : List Placed) (ending : Option (Fault × Place)) (fault other : Fault)
        (place elsewhere : Place)
        → RefusesReading placed ending fault place → RefusesReading placed ending other elsewhere
        → (fault ≡ other) × (place ≡ elsewhere) }
{
    zone_name::laws::order_is_total();
}

/// A reading that is refused makes no zone.
#[tactic(auto, using(crate::proofs::Refusals::Refusing::refused_or_zone))]
pub fn no_zone_of_a_refused_reading()
    ensures { (placed : List Placed) (fault : Fault) (place : Place)
        → RefusesReading placed None fault place → NothingIs (MakesZone placed) }
{
    zone_print::laws::one_zone_of_records();
}

/// Every reading is refused or makes a zone, and one with a fault at its end is refused.
#[tactic(auto, using(crate::proofs::Refusals::Making::every_reading))]
pub fn refusal_or_zone_of_a_reading()
    ensures whole { (placed : List Placed) → AllByRecursion IsRecord (records_of placed)
        → ((fault : Fault) × (place : Place) × RefusesReading placed None fault place)
        ⊎ ((z : Zone) × MakesZone placed z) }
    ensures broken { (placed : List Placed) (ending : Fault × Place)
        → (fault : Fault) × (place : Place) × RefusesReading placed (Some ending) fault place }
{
    zone_name::laws::order_is_total();
    zone_name::laws::order_is_exact();
    zone_print::laws::canonical_order_is_total();
}

/// An input is refused for at most one fault, at one place.
pub fn one_refusal()
    ensures { (input : Input) (fault other : Fault) (place elsewhere : Place)
        → IsRefusal input fault place → IsRefusal input other elsewhere → (fault ≡ other)
        × (place ≡ elsewhere) }
{
    one_fault_of_a_reading();
    zone_text::laws::file::a_file_has_one_reading();
    zone_wire::laws::one_reading_of_a_stream();
}

/// An input denotes at most one zone.
#[tactic(auto, using(crate::proofs::Reading::Inputs::zones_of_inputs))]
pub fn one_zone()
    ensures { (input : Input) → AtMostOneIs (InputDenotes input) }
{
    zone_print::laws::one_zone_of_records();
    zone_text::laws::file::a_file_states_one_list();
    zone_wire::laws::one_list_of_a_stream();
}

/// An input that is refused denotes no zone.
pub fn no_zone_of_a_refused_input()
    ensures { (input : Input) (fault : Fault) (place : Place)
        → IsRefusal input fault place → NothingIs (InputDenotes input) }
{
    no_zone_of_a_refused_reading();
    zone_text::laws::file::a_file_has_one_reading();
    zone_text::laws::file::a_file_states_what_is_read();
    zone_wire::laws::one_reading_of_a_stream();
    zone_wire::laws::a_transfer_is_read();
}

/// Every input of octets is refused or denotes a zone.
pub fn refusal_or_zone()
    ensures { (input : Input) → IsInput input
        → ((fault : Fault) × (place : Place) × IsRefusal input fault place)
        ⊎ ((z : Zone) × InputDenotes input z) }
{
    refusal_or_zone_of_a_reading();
    zone_text::laws::file::a_file_has_a_reading();
    zone_text::laws::file::a_file_states_what_is_read();
    zone_wire::laws::each_stream_is_read();
    zone_wire::laws::what_is_read_is_records();
    zone_wire::laws::a_transfer_is_read();
}

/// What refuses a prefix of an input refuses the input.
#[tactic(auto, using(crate::proofs::Refusals::Decided::refused_by_front))]
pub(crate) fn what_is_decided_refuses()
    ensures { (form : ReadAs) (octets front more : Octets) (placed : List Placed)
        (ending : Option (Fault × Place)) (fault : Fault) (place : Place)
        → IsForm form → AreOctets octets → octets ≡ front ++ more
        → Decides (input_of form front) placed ending → RefusesFront placed ending fault place
        → RefusesRead (input_of form octets) fault place }
{
    zone_text::laws::file::a_file_has_a_reading();
    zone_text::laws::file::what_is_decided_stays();
    zone_wire::laws::each_stream_is_read();
    zone_wire::laws::what_is_decided_is_read();
}

/// What an input of octets is read as, without a fault, it states.
#[tactic(auto, using(crate::proofs::Reading::Inputs::read_is_stated))]
pub fn what_is_read_is_stated()
    ensures { (input : Input) (placed : List Placed) → IsInput input → InputReads input placed None
        → InputStates input placed }
{
    zone_text::laws::file::a_file_states_what_is_read();
    zone_wire::laws::a_transfer_is_read();
}

/// Of any two accepted inputs, each a master file with its origin or a transfer, however cut, the
/// normalised bytes are equal exactly if they denote the same zone; those bytes, as a master file
/// under any origin, denote that zone and normalise to themselves; an input is refused exactly if
/// it denotes no zone; and name decoding takes at most 256 steps, all inside its message.
pub fn headline()
    ensures same { (a b : Input) (z w : Zone) → InputDenotes a z → InputDenotes b w
        → (canon z ≡ canon w) ↔ DenoteOne a b }
    ensures back { (input : Input) (z : Zone) (origin : Labels) → InputDenotes input z
        → DenotesOnly (file origin (canon z)) z }
    ensures again { (input : Input) (z : Zone) (origin : Labels) → InputDenotes input z
        → NormalisesOnlyTo (file origin (canon z)) (canon z) }
    ensures refused { (input : Input) → IsInput input → IsRefused input
        ↔ NothingIs (InputDenotes input) }
    ensures bounded { (message : Octets) (offset : ℕ) → (visits : List Visit)
        × IsBoundedWalk message offset visits }
{
    one_zone();
    zone_print::laws::equal_texts_are_equal_zones();
    zone_print::laws::canonical_text_reads_back();
    no_zone_of_a_refused_input();
    refusal_or_zone();
    zone_wire::laws::walk::one_walk_from_an_offset();
    zone_wire::laws::a_walk_is_bounded();
    zone_wire::laws::a_name_is_walked();
}

/// What two inputs normalise to is equal exactly if they denote the same zone, and under every
/// origin it denotes that zone and normalises to itself. It is what was written.
#[tactic(auto, using(crate::proofs::Headline::text_back, crate::proofs::Headline::written_text))]
pub fn normalised_texts()
    ensures same { (a b : Input) (text other : Octets) → NormalisesTo a text → NormalisesTo b other
        → (text ≡ other) ↔ DenoteOne a b }
    ensures back { (input : Input) (text : Octets) (origin : Labels) → NormalisesTo input text
        → DenoteOne input (file origin text) }
    ensures again { (input : Input) (text : Octets) (origin : Labels) → NormalisesTo input text
        → NormalisesOnlyTo (file origin text) text }
    ensures written { (input : Input) (old new : Option Octets) (count : ℕ)
        → Normalises input old new count
        → (text : Octets) × NormalisesTo input text × Appends old new text }
{
    headline();
}

/// A comparison finds that two inputs are the same exactly if they denote the same zone, and it
/// finds one thing.
pub fn same_is_one_zone()
    ensures same { (first second : Input) (verdict : Verdict) → Compares first second verdict
        → (verdict ≡ Same) ↔ DenoteOne first second }
    ensures one { (first second : Input) → AtMostOneIs (Compares first second) }
{
    one_zone();
    headline();
}

/// No line that a run tells has a line feed: that on a stop, on an input that is accepted, and on a
/// verdict. What is written is the line and one line feed.
#[tactic(auto, using(crate::proofs::Telling::told_lines))]
pub fn each_line_is_one_line()
    ensures stop { (stop : Stop) → HasNoFeed (stop_line stop) }
    ensures records { (count : ℕ) → HasNoFeed (records_line count) }
    ensures verdict { (verdict : Verdict) → HasNoFeed (verdict_line verdict) }
{}
