//! Laws of the lines of records, over the definitions alone.
ghost use Rattle.std.specs.Prelude.{◌≡◌, ◌≤◌, ◌∷◌, ◌++◌, List, ℕ};
ghost use Rattle.zone_name.specs.Common.{AreOctets, Labels};
ghost use Rattle.zone_name.specs.Name.{IsCasedName};
ghost use Rattle.zone_rdata.specs.Record.{Record};
ghost use Rattle.zone_rdata.specs.declared.fault.Place.TheVariants.{Line};
ghost use Rattle.zone_rdata.specs.declared.record.Placed.{Placed};
ghost use Rattle.zone_words.specs.WithWords.{FileStatesWithWords};
ghost use Rattle.record_places.specs.FirstLines.{AreFirstLines, IsFirstOn};

use zone_text::laws::file::a_file_states_one_list;
use zone_words::laws::a_text_has_a_rewriting;
use zone_words::laws::joined::a_rewriting_states_the_files_records;

/// The records that octets state, under an origin that is a name, have one list of lines.
pub fn records_have_one_list_of_lines()
    ensures { (origin : Labels) (octets : List ℕ) (records : List Record) (a b : List ℕ)
        → IsCasedName origin → AreOctets octets
        → AreFirstLines origin octets records a → AreFirstLines origin octets records b → a ≡ b }
{
    a_text_has_a_rewriting();
    a_rewriting_states_the_files_records();
    a_file_states_one_list();
}

/// The line of the entry that first states a record is the least of the lines of all entries that
/// state it.
pub fn the_first_line_is_the_least()
    ensures { (cased origin : Labels) (octets : List ℕ) (placed before others : List Placed)
        (r : Record) (line other : ℕ) → FileStatesWithWords cased origin octets placed
        → IsFirstOn placed r line
        → placed ≡ before ++ record { rr = r; place = Line other } ∷ others → line ≤ other }
{}
