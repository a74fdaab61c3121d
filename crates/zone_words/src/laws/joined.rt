//! Laws of what is written anew as the reader of plain master files reads it.
ghost use Rattle.std.specs.Prelude.{◌≡◌, ◌↔◌, ◌++◌, ◌∷◌, List, [], ℕ, IsSome};
ghost use Rattle.std.specs.List.{AllByRecursion};
ghost use Rattle.zone_name.specs.Common.{Labels};
ghost use Rattle.zone_rdata.specs.Record.{Record};
ghost use Rattle.zone_rdata.specs.declared.record.Placed.{Placed};
ghost use Rattle.zone_text.specs.Entries.{Entry, entry_of};
ghost use Rattle.zone_text.specs.File.{FileStates};
ghost use Rattle.zone_text.specs.FileReads.{Ending, FileReads};
ghost use Rattle.zone_text.specs.Records.{EntryStates, StatesNothing};
ghost use Rattle.zone_text.specs.Statements.{statement_of};
ghost use Rattle.zone_text.specs.Tokens.{IsToken, Token};
ghost use Rattle.zone_words.specs.Entry.{BecomesUnder, IsRewriting, TokensFail, TokensSay};
ghost use Rattle.zone_words.specs.Rewriting.{IsRewrittenSoFar, Refused};
ghost use Rattle.zone_words.specs.Stopped.{stopped_line};
ghost use Rattle.zone_words.specs.WithWords.{EndsBy, FileReadsWithWords, FileStatesWithWords};
ghost use Rattle.zone_words.specs.WithWords.{HasItsData, HasItsParts, LeaveAlike};
ghost use Rattle.zone_words.specs.Written.{Anew, written};

use zone_text::laws::entry::an_entry_has_one_outcome;

/// An entry that is written anew states, after entries that leave the same, the record that has the
/// owner, the class and the TTL of the entry, with the type and the data that the entry says anew,
/// and no other.
pub fn what_is_written_anew_is_read()
    ensures { (cased origin : Labels) (before after : List Entry) (line : ℕ)
        (tokens front back : List Token) (it : Anew) (r : Record)
        → AllByRecursion IsToken tokens → LeaveAlike origin before after
        → TokensSay cased before line tokens front back it
        → EntryStates origin after (entry_of line (front ++ written it back)) r
        ↔ (HasItsParts origin before (entry_of line tokens) r × HasItsData it back r) }
{}

/// An entry that is refused states neither nothing nor a record for the reader.
pub fn a_refused_entry_is_not_read()
    ensures record { (cased origin : Labels) (before after : List Entry) (line : ℕ)
        (tokens : List Token) (it : Refused) (r : Record)
        → TokensFail cased before line tokens it
        → EntryStates origin after (entry_of line tokens) r → ⊥ }
    ensures nothing { (cased origin : Labels) (before after : List Entry) (line : ℕ)
        (tokens : List Token) (it : Refused) → TokensFail cased before line tokens it
        → StatesNothing origin after (statement_of (entry_of line tokens)) → ⊥ }
{}

/// What is written for a file states the records that the file states, those of further types in
/// words too, each at its line, and no others.
pub fn a_rewriting_states_the_files_records()
    ensures { (cased origin : Labels) (octets new : List ℕ) (told : List Refused)
        (placed : List Placed) → IsRewriting cased octets new told
        → FileStates origin new placed ↔ FileStatesWithWords cased origin octets placed }
{}

/// Where something was refused, what is written states no list of records.
pub fn a_rewriting_with_refusals_states_none()
    ensures { (cased origin : Labels) (octets new : List ℕ) (told : List Refused)
        (placed : List Placed) → IsRewriting cased octets new told
        → FileStates origin new placed → told ≡ [] }
{}

/// A reading of what is written for a file ends with a fault at the line of the first entry that is
/// refused, or before.
pub fn a_reading_ends_where_an_entry_is_refused()
    ensures { (cased origin : Labels) (octets new : List ℕ) (it : Refused) (others : List Refused)
        (placed : List Placed) (ending : Ending) → IsRewriting cased octets new (it ∷ others)
        → FileReads origin new placed ending → EndsBy it.line ending }
{}

/// A reading of what is written for a file gives the records that the file states, those of further
/// types in words too, up to the first entry that states neither a record nor nothing, or up to what
/// breaks the file; and a fault there at its line, if there is such a place.
pub fn a_reading_of_a_rewriting_gives_the_files_records()
    ensures { (cased origin : Labels) (octets new : List ℕ) (told : List Refused)
        (placed : List Placed) (ending : Ending) → IsRewriting cased octets new told
        → FileReads origin new placed ending
        → FileReadsWithWords cased origin octets placed ending }
{
    an_entry_has_one_outcome();
}

/// What is written before more octets come, with a last line `$STOPPED` of its own, states no list of
/// records, and a reading of it finds a fault.
pub fn what_is_stopped_is_no_file()
    ensures stated { (cased origin : Labels) (fed waiting new : List ℕ) (told : List Refused)
        (placed : List Placed) → IsRewrittenSoFar (BecomesUnder cased) fed waiting new told
        → FileStates origin (new ++ stopped_line new) placed → ⊥ }
    ensures refused { (cased origin : Labels) (fed waiting new : List ℕ) (told : List Refused)
        (placed : List Placed) (ending : Ending)
        → IsRewrittenSoFar (BecomesUnder cased) fed waiting new told
        → FileReads origin (new ++ stopped_line new) placed ending → IsSome ending }
{}
