//! Laws of expanded texts.
ghost use Rattle.std.specs.Prelude.{◌≡◌, ◌++◌, ◌∷◌, ◌⊎◌, [], ℕ, List, Option};
ghost use Rattle.zone_name.specs.Common.{AreOctets, Labels};
ghost use Rattle.zone_name.specs.Name.{IsCasedName};
ghost use Rattle.zone_files.specs.Expansion.{Ending, Files, HasPlainEntries, IsExpanded, IsExpandedWithout, breaks_off, ends, first_without, last_line, stops, stops_at};
ghost use Rattle.zone_files.specs.FileExpander.{ExpanderState, StandsFor};
ghost use Rattle.zone_files.specs.declared.expansion.progress.FileStatus.TheVariants.{BrokenOff, Ended, Faulty, FaultyAt};
ghost use Rattle.zone_files.specs.declared.fault.ExpansionFault.{ExpansionFault};

/// A main file and the files that it includes have at most one expanded text, which ends in one way,
/// whichever entries are taken out.
pub fn an_expanded_text_is_unique()
    ensures { (lines : List ℕ) (directory : Option (List ℕ)) (name : List ℕ)
        (origin : Labels) (octets : List ℕ)
        (files : Files) (a b : List ℕ) (ending last : Ending)
        → IsExpandedWithout lines directory name origin octets files a ending
        → IsExpandedWithout lines directory name origin octets files b last → (a ≡ b) × (ending ≡ last) }
{}

/// A file without `$INCLUDE` and `$GENERATE` is its own expanded text, but for a line feed at its end.
pub fn a_file_without_directives_to_expand_stays()
    ensures { (directory : Option (List ℕ)) (name : List ℕ) (origin : Labels) (octets : List ℕ)
        (files : Files) → IsCasedName origin → AreOctets octets → HasPlainEntries octets
        → (expanded : List ℕ) × (ending : Ending)
        × IsExpanded directory name origin octets files expanded ending
        × ((expanded ≡ octets) ⊎ (expanded ≡ octets ++ 10 ∷ [])) }
{}

/// What an expander of a main file gave for it once it has ended is the expanded text, and so is what
/// it gave where the text broke; where an entry has a fault, or a value no line, the last line comes
/// after it.
pub fn an_ended_expander_gives_the_expanded_text()
    ensures ended { (lines : List ℕ) (directory : Option (List ℕ)) (name : List ℕ)
        (origin : Labels)
        (s : ExpanderState) (fed : List ℕ) (files : Files) (given : List ℕ)
        → StandsFor s (first_without lines directory name origin) fed files given → s.status ≡ Ended
        → IsExpandedWithout lines directory name origin fed files given (ends s.holds) }
    ensures broken { (lines : List ℕ) (directory : Option (List ℕ)) (name : List ℕ)
        (origin : Labels)
        (s : ExpanderState) (fed : List ℕ) (files : Files) (given : List ℕ)
        → StandsFor s (first_without lines directory name origin) fed files given → s.status ≡ BrokenOff
        → IsExpandedWithout lines directory name origin fed files given breaks_off }
    ensures faulty { (lines : List ℕ) (directory : Option (List ℕ)) (name : List ℕ)
        (origin : Labels)
        (s : ExpanderState) (fed : List ℕ) (files : Files) (given : List ℕ)
        (fault : ExpansionFault) → StandsFor s (first_without lines directory name origin) fed files given
        → s.status ≡ Faulty fault → IsExpandedWithout lines directory name origin fed files
        (given ++ last_line (stops fault)) (stops fault) }
    ensures lacking { (lines : List ℕ) (directory : Option (List ℕ)) (name : List ℕ)
        (origin : Labels)
        (s : ExpanderState) (fed : List ℕ) (files : Files) (given : List ℕ) (value : ℕ)
        → StandsFor s (first_without lines directory name origin) fed files given
        → s.status ≡ FaultyAt value → IsExpandedWithout lines directory name origin fed files
        (given ++ last_line (stops_at value)) (stops_at value) }
{}
