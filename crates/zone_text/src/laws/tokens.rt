//! Laws of tokens and the entries that they make: how a text is cut, how it breaks, and what a
//! prefix of it settles.
ghost use Rattle.std.specs.Prelude.{[], ◌++◌, ◌≡◌, ◌↔◌, ◌⊎◌, ℕ, List, Some, zero};
ghost use Rattle.std.specs.List.{flat_map};
ghost use Rattle.zone_name.specs.Spelling.{IsBadEscape};
ghost use Rattle.zone_rdata.specs.declared.fault.Fault.{Fault};
ghost use Rattle.zone_text.specs.Breaks.{Breaks};
ghost use Rattle.zone_text.specs.Decided.{AreTokens};
ghost use Rattle.zone_text.specs.Entries.{and_last, cut_from, ended_entries, entries_of, Entry, numbered, open_line};
ghost use Rattle.zone_text.specs.Lasting.{BreaksAtEnd, BreaksForGood, EndInLineFeed, IsCutOff, IsLostEscape, StaysBroken};
ghost use Rattle.zone_text.specs.Tokens.{Cuts, depth_after, Token, text};

/// A text is cut into tokens in at most one way.
#[tactic(auto, using(crate::proofs::Tokens::Cuttings::one_cut))]
pub fn one_cut_of_a_text()
    ensures { (octets : List ℕ) (tokens other : List Token) → Cuts octets tokens → Cuts octets other
        → tokens ≡ other }
{}

/// A text breaks in at most one way.
pub fn one_break_of_a_text()
    ensures { (octets : List ℕ) (tokens other : List Token) (fault another : Fault)
        → Breaks octets tokens fault → Breaks octets other another → (tokens ≡ other)
        × (fault ≡ another) }
{}

/// No text both is cut and breaks.
pub fn no_text_is_cut_and_breaks()
    ensures { (octets : List ℕ) (tokens other : List Token) (fault : Fault) → Cuts octets tokens
        → Breaks octets other fault → ⊥ }
{}

/// Every text is cut or breaks.
pub fn each_text_is_cut_or_breaks()
    ensures { (octets : List ℕ) → ((tokens : List Token) × Cuts octets tokens)
        ⊎ ((tokens : List Token) × (fault : Fault) × Breaks octets tokens fault) }
{}

/// What stands after a line feed outside parentheses is cut, or breaks, as it is by itself.
pub fn lines_are_cut_by_themselves()
    ensures cut { (front rest : List ℕ) (tokens more : List Token) → Cuts front tokens
        → EndInLineFeed tokens → Cuts rest more → Cuts (front ++ rest) (tokens ++ more) }
    ensures broken { (front rest : List ℕ) (tokens more : List Token) (fault : Fault)
        → Cuts front tokens → EndInLineFeed tokens → Breaks rest more fault
        → Breaks (front ++ rest) (tokens ++ more) fault }
{}

/// Where the depth is zero between tokens, the text falls into two that are cut, or break, by
/// themselves.
pub fn a_text_is_parted_at_depth_zero()
    ensures cut { (octets : List ℕ) (tokens more : List Token) → depth_after zero tokens ≡ Some zero
        → Cuts octets (tokens ++ more) → (rest : List ℕ) × (octets ≡ text tokens ++ rest)
        × Cuts (text tokens) tokens × Cuts rest more }
    ensures broken { (octets : List ℕ) (tokens more : List Token) (fault : Fault)
        → depth_after zero tokens ≡ Some zero → Breaks octets (tokens ++ more) fault
        → (rest : List ℕ) × (octets ≡ text tokens ++ rest) × Cuts (text tokens) tokens
        × Breaks rest more fault }
{}

/// A backslash begins no escape exactly before a line feed, a carriage return, the end, fewer than
/// three digits or a number over 255.
pub fn bad_escapes_are_lost_or_cut_off()
    ensures { (rest : List ℕ) → IsBadEscape rest ↔ (IsLostEscape rest ⊎ IsCutOff rest) }
{}

/// What breaks a text does so as it stands, or since the text ends there, and not both.
pub fn a_break_stays_or_stands_at_the_end()
    ensures either { (octets : List ℕ) (tokens : List Token) (fault : Fault)
        (broken : Breaks octets tokens fault) → StaysBroken broken.rest ⊎ BreaksAtEnd broken.rest }
    ensures not_both { (rest : List ℕ) → StaysBroken rest → BreaksAtEnd rest → ⊥ }
{}

/// A `)` at depth zero, and a backslash that begins no escape as the octets after it tell, break
/// every text that goes on from there, and in the same way.
pub fn a_break_for_good_stays()
    ensures { (octets more : List ℕ) (tokens : List Token) (fault : Fault)
        → BreaksForGood octets tokens fault → BreaksForGood (octets ++ more) tokens fault }
{}

/// The texts of all entries joined are the text.
#[tactic(auto, using(crate::proofs::Files::Left::entries_text))]
pub fn entries_joined_are_the_text()
    ensures { (tokens : List Token)
        → flat_map text (and_last (cut_from zero tokens).ended (cut_from zero tokens).open_tokens)
        ≡ text tokens }
{}

/// The entries that a line feed has ended are the first ones of every text that goes on from there,
/// and of the text itself.
#[tactic(auto, using(crate::proofs::Files::Left::what_is_ended_stays))]
pub fn ended_entries_stay()
    ensures longer { (octets more : List ℕ) (tokens later : List Token) → AreTokens octets tokens
        → AreTokens (octets ++ more) later → (others : List Entry)
        × (ended_entries later ≡ ended_entries tokens ++ others) }
    ensures whole { (tokens : List Token) → (others : List Entry)
        × (entries_of tokens ≡ ended_entries tokens ++ others) }
{}

/// The entries of tokens one after the other, where the first all stand in ended entries, are those
/// of the first and then those of the second numbered from the line on which it begins.
#[tactic(auto, using(crate::proofs::Files::DecidedOnce::what_comes_after))]
pub fn entries_are_numbered_on()
    ensures ended { (tokens more : List Token) → (cut_from zero tokens).open_tokens ≡ []
        → ended_entries (tokens ++ more) ≡ ended_entries tokens ++ numbered (open_line tokens)
        (cut_from zero more).ended }
    ensures all { (tokens more : List Token) → (cut_from zero tokens).open_tokens ≡ []
        → entries_of (tokens ++ more) ≡ ended_entries tokens ++ numbered (open_line tokens)
        (and_last (cut_from zero more).ended (cut_from zero more).open_tokens) }
{}
