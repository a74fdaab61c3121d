//! Laws of entries: what one states and the first fault of one, whatever stands before it.
ghost use Rattle.std.specs.Prelude.{◌≡◌, ◌↔◌, ◌⊎◌, false, List, ℕ, true};
ghost use Rattle.zone_name.specs.Name.{IsName};
ghost use Rattle.zone_rdata.specs.Record.{Record};
ghost use Rattle.zone_rdata.specs.Words.{IsClassWord};
ghost use Rattle.zone_rdata.specs.declared.fault.Fault.{Fault};
ghost use Rattle.zone_text.specs.Entries.{Entry};
ghost use Rattle.zone_text.specs.EntryFault.{EntryFault};
ghost use Rattle.zone_text.specs.Statements.{begins_with_digit, statement_of, is_class_word};
ghost use Rattle.zone_text.specs.Machine.Lower.{Choices, Lower};
ghost use Rattle.zone_text.specs.Outcome.{AllState, AreOctetItems};
ghost use Rattle.zone_text.specs.Records.{StatesNothing, EntryStates};

use zone_name::laws::{spelling_is_unique, texts_have_one_verdict};
use zone_rdata::laws::items::{
    data_fault_is_unique, data_is_unique, data_or_fault, faulty_items_state_none,
    stated_data_is_data,
};
use zone_rdata::laws::word::{
    class_word_is_unique, kind_word_has_one_verdict, kind_word_is_unique, kind_word_or_fault,
    numbers_and_times_are_decided, time_is_unique,
};

/// The laws of names, words and data on which those of entries stand.
pub(crate) fn lower_laws()
    ensures { Lower }
{
    spelling_is_unique();
    texts_have_one_verdict();
    time_is_unique();
    class_word_is_unique();
    kind_word_is_unique();
    kind_word_has_one_verdict();
    data_is_unique();
    faulty_items_state_none();
    data_fault_is_unique();
}

/// The laws by which texts, words and items have a value or a first fault.
pub(super) fn lower_choices()
    ensures { Choices }
{
    texts_have_one_verdict();
    numbers_and_times_are_decided();
    kind_word_or_fault();
    data_or_fault();
    stated_data_is_data();
}

/// An item is taken for a class where it is a class's word, and no word is a class's and begins
/// with a digit, as a TTL.
pub fn class_words_are_known()
    ensures word { (text : List ℕ) → (is_class_word text ≡ true)
        ↔ ((number : ℕ) × IsClassWord text number) }
    ensures no_ttl { (text : List ℕ) (number : ℕ) → IsClassWord text number
        → begins_with_digit text ≡ false }
{}

/// An entry states at most one record.
pub fn an_entry_states_one_record()
    ensures { (origin : List (List ℕ)) (before : List Entry) (entry : Entry) (a b : Record)
        → EntryStates origin before entry a → EntryStates origin before entry b → a ≡ b }
{
    lower_laws();
}

/// An entry has at most one first fault.
pub fn an_entry_has_one_fault()
    ensures { (origin : List (List ℕ)) (before : List Entry) (entry : Entry) (f g : Fault)
        → EntryFault origin before entry f → EntryFault origin before entry g → f ≡ g }
{
    lower_laws();
}

/// An entry that has a fault states neither a record nor nothing, and one that states nothing
/// states no record.
pub fn an_entry_has_one_outcome()
    ensures record_or_fault { (origin : List (List ℕ)) (before : List Entry) (entry : Entry)
        (r : Record) (fault : Fault) → EntryStates origin before entry r
        → EntryFault origin before entry fault → ⊥ }
    ensures nothing_or_fault { (origin : List (List ℕ)) (before : List Entry) (entry : Entry)
        (fault : Fault) → StatesNothing origin before (statement_of entry)
        → EntryFault origin before entry fault → ⊥ }
    ensures nothing_or_record { (origin : List (List ℕ)) (before : List Entry) (entry : Entry)
        (r : Record) → StatesNothing origin before (statement_of entry)
        → EntryStates origin before entry r → ⊥ }
{
    lower_laws();
}

/// An entry of octets states nothing or a record, or has a first fault, where each entry before it
/// states nothing or a record and the origin is a name.
#[tactic(auto, using(crate::proofs::Entries::EntryOutcome::entry_outcome))]
pub fn an_entry_has_an_outcome()
    ensures { (origin : List (List ℕ)) (before : List Entry) (entry : Entry) → IsName origin
        → AllState origin before → AreOctetItems entry.items
        → StatesNothing origin before (statement_of entry)
        ⊎ (((r : Record) × EntryStates origin before entry r)
        ⊎ ((fault : Fault) × EntryFault origin before entry fault)) }
{
    lower_laws();
    lower_choices();
}
