//! Laws of files that are expanded while they are read.
ghost use Rattle.std.specs.Prelude.{◌≡◌, [], ℕ, List, Option};
ghost use Rattle.zone_name.specs.Common.{Labels};
ghost use Rattle.zone_files.specs.Expansion.{IsExpandedWithout, breaks_off, ends, first_without, stops, stops_at};
ghost use Rattle.zone_files.specs.IncludeStack.{FedFiles, StackState, StandsForFiles, main_file};
ghost use Rattle.zone_files.specs.declared.expansion.progress.FileStatus.TheVariants.{BrokenOff, Ended, Faulty, FaultyAt};
ghost use Rattle.zone_files.specs.declared.fault.ExpansionFault.{ExpansionFault};

/// What a stack gave for a main file and the files that it includes is the expanded text, once the
/// main file has ended, a text broke, an entry has a fault, or a value has no line.
pub fn an_ended_stack_gives_the_expanded_text()
    ensures ended { (lines : List ℕ) (directory : Option (List ℕ)) (name : List ℕ)
        (origin : Labels)
        (s : StackState) (fed : FedFiles) (text : List ℕ)
        → StandsForFiles s (first_without lines directory name origin) fed text
        → s.innermost.status ≡ Ended → s.outer ≡ []
        → IsExpandedWithout lines directory name origin (main_file fed).octets (main_file fed).files text
        (ends s.innermost.holds) }
    ensures broken { (lines : List ℕ) (directory : Option (List ℕ)) (name : List ℕ)
        (origin : Labels)
        (s : StackState) (fed : FedFiles) (text : List ℕ)
        → StandsForFiles s (first_without lines directory name origin) fed text
        → s.innermost.status ≡ BrokenOff
        → IsExpandedWithout lines directory name origin (main_file fed).octets (main_file fed).files text
        breaks_off }
    ensures faulty { (lines : List ℕ) (directory : Option (List ℕ)) (name : List ℕ)
        (origin : Labels)
        (s : StackState) (fed : FedFiles) (text : List ℕ) (fault : ExpansionFault)
        → StandsForFiles s (first_without lines directory name origin) fed text
        → s.innermost.status ≡ Faulty fault
        → IsExpandedWithout lines directory name origin (main_file fed).octets (main_file fed).files text
        (stops fault) }
    ensures lacking { (lines : List ℕ) (directory : Option (List ℕ)) (name : List ℕ)
        (origin : Labels)
        (s : StackState) (fed : FedFiles) (text : List ℕ) (value : ℕ)
        → StandsForFiles s (first_without lines directory name origin) fed text
        → s.innermost.status ≡ FaultyAt value
        → IsExpandedWithout lines directory name origin (main_file fed).octets (main_file fed).files text
        (stops_at value) }
{}
