//! Laws over the definitions alone: of rewritings.
ghost use Rattle.std.specs.Prelude.{◌≡◌, ℕ, List, []};
ghost use Rattle.std.specs.List.{AllByRecursion};
ghost use Rattle.zone_name.specs.Common.{AreOctets, Labels};
ghost use Rattle.zone_name.specs.Name.{IsCasedName};
ghost use Rattle.zone_text.specs.Entries.{Entry};
ghost use Rattle.zone_text.specs.Outcome.{AreOctetItems};
ghost use Rattle.zone_text.specs.Tokens.{Token, text};
ghost use Rattle.zone_words.specs.CutAlike.{AreCutAlike, HaveAsManyLines, IsKeptOrAnew};
ghost use Rattle.zone_words.specs.Entry.{BecomesUnder, IsRewriting};
ghost use Rattle.zone_words.specs.NoFurther.{HasNoFurtherWord};
ghost use Rattle.zone_words.specs.Rewriting.{Outcome, Refused};

pub mod joined;
pub mod words;

/// Something becomes of every entry of octets after entries of octets, under an origin that is a
/// name: it is written anew, refused or stays.
pub fn an_entry_has_an_outcome()
    ensures { (origin : Labels) (before : List Entry) (line : ℕ) (tokens : List Token)
        → IsCasedName origin → AllByRecursion (λ (e : Entry). AreOctetItems e.items) before
        → AreOctets (text tokens)
        → (outcome : Outcome) × BecomesUnder origin before line tokens outcome }
{}

/// Every text of octets has a rewriting under an origin that is a name, one that breaks too.
pub fn a_text_has_a_rewriting()
    ensures { (origin : Labels) (octets : List ℕ) → IsCasedName origin → AreOctets octets
        → (new : List ℕ) × (told : List Refused) × IsRewriting origin octets new told }
{}

/// A file has one rewriting, and one list of refusals is told of it.
pub fn rewriting_is_unique()
    ensures { (origin : Labels) (octets new other : List ℕ) (told others : List Refused)
        → IsRewriting origin octets new told → IsRewriting origin octets other others
        → (new ≡ other) × (told ≡ others) }
{}

/// A file without words of further types is its own rewriting, and nothing is told of it.
pub fn a_file_without_further_words_stays()
    ensures { (origin : Labels) (octets : List ℕ)
        → HasNoFurtherWord octets → IsRewriting origin octets octets [] }
{}

/// A rewriting is cut where its file is: into as many entries, one by one, each of which stays or
/// is written anew; and it breaks where its file does.
pub fn entries_stay_entries()
    ensures { (origin : Labels) (octets new : List ℕ) (told : List Refused)
        → IsRewriting origin octets new told → AreCutAlike IsKeptOrAnew octets new }
{}

/// Each entry has as many line feeds as the file's, so that it stands at the same line.
pub fn entries_keep_their_lines()
    ensures { (origin : Labels) (octets new : List ℕ) (told : List Refused)
        → IsRewriting origin octets new told → AreCutAlike HaveAsManyLines octets new }
{}

/// A rewriting is its own rewriting, and the same is told of it.
pub fn a_rewriting_is_its_own()
    ensures { (origin : Labels) (octets new : List ℕ) (told : List Refused)
        → IsRewriting origin octets new told → IsRewriting origin new new told }
{}
