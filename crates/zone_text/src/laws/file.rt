//! Laws of files: the records that one states, and its reading.
ghost use Rattle.std.specs.Prelude.{◌≡◌, ◌++◌, ◌↔◌, List, ℕ, [], None};
ghost use Rattle.zone_name.specs.Common.{Labels, AreOctets};
ghost use Rattle.zone_name.specs.Name.{IsName};
ghost use Rattle.zone_rdata.specs.declared.record.Placed.{Placed};
ghost use Rattle.zone_text.specs.Decided.{FileDecides, Stays};
ghost use Rattle.zone_text.specs.File.{FileStates};
ghost use Rattle.zone_text.specs.FileReads.{FileReads, Ending};
ghost use Rattle.zone_text.specs.TextSource.{AreUnfinished};

use crate::laws::entry::{lower_choices, lower_laws};

/// A file states at most one list of records with their places.
pub fn a_file_states_one_list()
    ensures { (origin : Labels) (octets : List ℕ) (a b : List Placed)
        → FileStates origin octets a → FileStates origin octets b → a ≡ b }
{
    lower_laws();
}

/// Every file of octets has a reading under an origin that is a name.
#[tactic(auto, using(crate::proofs::Files::FileChoice::file_reads))]
pub fn a_file_has_a_reading()
    ensures { (origin : Labels) (octets : List ℕ) → IsName origin
        → AreOctets octets → (placed : List Placed)
        × ((ending : Ending) × FileReads origin octets placed ending) }
{
    lower_laws();
    lower_choices();
}

/// Something is decided of every prefix of a file under an origin that is a name, be it that no
/// fault is.
#[tactic(auto, using(crate::proofs::Files::FileChoice::file_is_decided))]
pub fn of_each_prefix_something_is_decided()
    ensures { (origin : Labels) (octets : List ℕ) → IsName origin
        → AreOctets octets → (placed : List Placed)
        × ((ending : Ending) × FileDecides origin octets placed ending) }
{
    lower_laws();
    lower_choices();
}

/// Of a prefix at most one thing is decided.
pub fn of_each_prefix_one_thing_is_decided()
    ensures { (origin : Labels) (octets : List ℕ) (a b : List Placed) (e f : Ending)
        → FileDecides origin octets a e → FileDecides origin octets b f → (a ≡ b) × (e ≡ f) }
{
    lower_laws();
}

/// Of nothing, nothing is decided.
pub fn of_nothing_nothing_is_decided()
    ensures { (origin : Labels) (placed : List Placed) (ending : Ending)
        → FileDecides origin [] placed ending ↔ ((placed ≡ []) × (ending ≡ None)) }
{}

/// The unfinished octets of a text are one list.
pub fn one_end_of_a_text_is_unfinished()
    ensures { (octets a b : List ℕ) → AreUnfinished octets a → AreUnfinished octets b → a ≡ b }
{}

/// A file has at most one reading.
pub fn a_file_has_one_reading()
    ensures { (origin : Labels) (octets : List ℕ) (a b : List Placed) (e f : Ending)
        → FileReads origin octets a e → FileReads origin octets b f → (a ≡ b) × (e ≡ f) }
{
    lower_laws();
}

/// A file states the records of its reading where that finds no fault, and no others.
pub fn a_file_states_what_is_read()
    ensures { (origin : Labels) (octets : List ℕ) (placed : List Placed)
        → FileStates origin octets placed ↔ FileReads origin octets placed None }
{}

/// What is decided of a file by a prefix of it stays for every longer prefix and for the whole
/// file: the records are the first ones, and nothing follows a fault.
pub fn what_is_decided_stays()
    ensures longer { (origin : Labels) (octets more : List ℕ) (placed later : List Placed)
        (ending last : Ending) → FileDecides origin octets placed ending
        → FileDecides origin (octets ++ more) later last → Stays placed ending later last }
    ensures whole { (origin : Labels) (octets more : List ℕ) (placed later : List Placed)
        (ending last : Ending) → FileDecides origin octets placed ending
        → FileReads origin (octets ++ more) later last → Stays placed ending later last }
{
    lower_laws();
}
