//! Laws of records in words on a line, over the definitions alone.
ghost use Rattle.std.specs.List.{flat_map};
ghost use Rattle.std.specs.Prelude.{◌≡◌, ◌∷◌, ◌++◌, List, [], ℕ, IsSome, Some, codes, decimal, true};
ghost use Rattle.zone_name.specs.Common.{Labels};
ghost use Rattle.zone_rdata.specs.Generic.{generic_items};
ghost use Rattle.zone_rdata.specs.Item.{bare};
ghost use Rattle.zone_rdata.specs.Table.{in_class};
ghost use Rattle.zone_text.specs.Entries.{entry_of, item_of};
ghost use Rattle.zone_text.specs.FirstEntry.{IsOneEntry};
ghost use Rattle.zone_text.specs.Inherited.{class_word};
ghost use Rattle.zone_text.specs.Statements.{statement_of};
ghost use Rattle.zone_text.specs.Tokens.{Token};
ghost use Rattle.type_data.specs.DataItem.{TouchingItem};
ghost use Rattle.zone_words.specs.Entry.{IsRewriting};
ghost use Rattle.type_data.specs.PrintedData.{AreOfAType, PrintsData};
ghost use Rattle.type_data.specs.Table.{Fields, FurtherType, further_type};
ghost use Rattle.zone_words.specs.WordsLine.{AreWords, IsHead, IsOwnerlessHead, generic_line, words_line};

/// The line of a record with the words of its data is one entry, which states its
/// class, and it is rewritten, under every origin, as the line with that data in the generic form.
pub fn a_line_in_words_is_rewritten()
    ensures entry { (head : List ℕ) (class : ℕ) (further : FurtherType)
        (items : List TouchingItem) (octets : List ℕ) → IsHead head class
        → further_type further.number ≡ Some further → AreWords further.fields items octets
        → (tokens : List Token) × IsOneEntry (words_line head further items) tokens
        × IsSome (class_word (statement_of (entry_of 1 tokens))) }
    ensures rewritten { (origin : Labels) (head : List ℕ) (class : ℕ) (further : FurtherType)
        (items : List TouchingItem) (octets : List ℕ) → IsHead head class
        → further_type further.number ≡ Some further
        → (further.in_internet_alone ≡ true → class ≡ in_class)
        → AreWords further.fields items octets
        → IsRewriting origin (words_line head further items) (generic_line head further octets)
        [] }
{}

/// So it is with the line of a record that states no owner and no TTL, which begins with a blank.
pub fn a_record_without_an_owner_is_rewritten()
    ensures entry { (head : List ℕ) (class : ℕ) (further : FurtherType)
        (items : List TouchingItem) (octets : List ℕ) → IsOwnerlessHead head class
        → further_type further.number ≡ Some further → AreWords further.fields items octets
        → (tokens : List Token) × IsOneEntry (words_line head further items) tokens
        × IsSome (class_word (statement_of (entry_of 1 tokens))) }
    ensures rewritten { (origin : Labels) (head : List ℕ) (class : ℕ) (further : FurtherType)
        (items : List TouchingItem) (octets : List ℕ) → IsOwnerlessHead head class
        → further_type further.number ≡ Some further
        → (further.in_internet_alone ≡ true → class ≡ in_class)
        → AreWords further.fields items octets
        → IsRewriting origin (words_line head further items) (generic_line head further octets)
        [] }
{}

/// The line of a record with its data in the generic form is one entry, whose items are its parts.
pub fn a_generic_line_is_one_entry()
    ensures { (head : List ℕ) (class : ℕ) (further : FurtherType) (octets : List ℕ)
        (h : IsHead head class) → (tokens : List Token)
        × IsOneEntry (generic_line head further octets) tokens
        × (flat_map item_of tokens ≡ bare h.owner ∷ bare h.ttl ∷ bare h.word
        ∷ bare (codes "TYPE" ++ decimal further.number) ∷ generic_items octets) }
{}

/// The items that are printed for a type's data are the words of that data.
pub fn the_words_of_data()
    ensures { (fields : Fields) (items : List TouchingItem) (octets : List ℕ)
        → AreOfAType fields → PrintsData fields items octets → AreWords fields items octets }
{}
