//! Laws of lines: the entry that one is, and the record that an entry states by itself.
ghost use Rattle.std.specs.Prelude.{◌≡◌, [], ◌∷◌, ℕ, List, zero};
ghost use Rattle.std.specs.List.{AllByRecursion, flat_map};
ghost use Rattle.zone_name.specs.Common.{Labels};
ghost use Rattle.zone_rdata.specs.Record.{Record};
ghost use Rattle.zone_text.specs.Entries.{cut_from, Entry, entries_of, entry_of, item_of};
ghost use Rattle.zone_text.specs.Inherited.{IsOrigin};
ghost use Rattle.zone_text.specs.Line.{IsItem, line_of, StatesWhole};
ghost use Rattle.zone_text.specs.Tokens.{Cuts, Token, text};
ghost use Rattle.zone_text.specs.Records.{EntryStates};

/// A line of items that are parted by single spaces is one entry with these items, which its line
/// feed ends.
#[tactic(auto, using(crate::proofs::Entries::Lines::canonical_lines))]
pub fn a_line_of_items_is_one_entry()
    ensures cut { (items : List Token) → AllByRecursion IsItem items
        → Cuts (text (line_of items)) (line_of items) }
    ensures entry { (items : List Token) → AllByRecursion IsItem items
        → entries_of (line_of items) ≡ entry_of 1 (line_of items) ∷ [] }
    ensures ended { (items : List Token) → AllByRecursion IsItem items
        → cut_from zero (line_of items) ≡ record { ended = line_of items ∷ []; open_tokens = [] } }
    ensures items { (items : List Token)
        → flat_map item_of (line_of items) ≡ flat_map item_of items }
{}

/// An entry that states every part of a record, with absolute names, states it after any entries.
pub fn a_whole_entry_states_its_record()
    ensures { (origin above : Labels) (before : List Entry) (entry : Entry) (r : Record)
        → IsOrigin origin before above → StatesWhole entry r → EntryStates origin before entry r }
{}

/// An entry that states every part of a record leaves the origin as it was.
#[tactic(auto, using(crate::proofs::Entries::Lines::whole_leaves_origin))]
pub fn a_whole_entry_leaves_the_origin()
    ensures { (origin above : Labels) (before : List Entry) (entry : Entry) (r : Record)
        → IsOrigin origin before above → StatesWhole entry r
        → IsOrigin origin (entry ∷ before) above }
{}
