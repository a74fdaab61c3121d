//! Laws over the definitions alone.
ghost use Rattle.std.specs.Prelude.{◌≡◌, ◌↔◌, ◌≤◌, ℕ, List, [], Option, length};
ghost use Rattle.std.specs.Io.KnownBytes.{Appends};
ghost use Rattle.zone_name.specs.Common.{AreOctets, AtMostOneIs, Labels, NothingIs};
ghost use Rattle.zone_name.specs.Name.{IsCasedName, folded};
ghost use Rattle.zone_rdata.specs.declared.fault.Fault.{Fault};
ghost use Rattle.zone_rdata.specs.declared.fault.Place.{Place};
ghost use Rattle.zone_set.specs.Zone.{Zone};
ghost use Rattle.zone_print.specs.Canonical.{canon, text_limit};
ghost use Rattle.zone_engine.specs.Headline.{DenotesOnly};
ghost use Rattle.zone_engine.specs.Input.{InputDenotes, file};
ghost use Rattle.zone_words.specs.NoFurther.{HasNoFurtherWord};
ghost use Rattle.zone_words.specs.Rewriting.{Refused};
ghost use Rattle.zone_engine.specs.declared.comparison.Verdict.{Verdict};
ghost use Rattle.zone_engine.specs.declared.comparison.Verdict.TheVariants.{Same};
ghost use Rattle.zone_files.specs.Loading.Compare.{ComparesSources};
ghost use Rattle.zone_files.specs.Loading.Reading.{IsReportedSource};
ghost use Rattle.zone_files.specs.Normalise.{NormalisesSource, NormalisesSourceTo};
ghost use Rattle.words_print.specs.Shown.{IsShownText};
ghost use Rattle.zone_files.specs.Presentation.{
  AreOneZone,
  HasGenericForm,
  IsRefusedSource,
  IsSource,
  IsSourceRefusal,
  PresentationDenotes,
  Source,
  SourceDenotes,
};

pub mod expansion;
pub mod files;
pub mod stack;

use words_print::laws::a_canonical_text_comes_back;
use zone_engine::laws::{
    headline, no_zone_of_a_refused_input, one_refusal, one_zone, refusal_or_zone,
};
use zone_print::laws::{canonical_text_reads_back, equal_texts_are_equal_zones};
use zone_words::laws::joined::a_rewriting_states_the_files_records;
use zone_words::laws::{
    a_file_without_further_words_stays, a_text_has_a_rewriting, rewriting_is_unique,
};

/// A file within the limit denotes the zone that its generic form denotes.
pub fn a_file_denotes_what_its_generic_form_denotes()
    ensures { (origin : Labels) (octets generic : List ℕ) (z : Zone)
        → length octets ≤ text_limit → HasGenericForm origin octets generic
        → PresentationDenotes origin octets z ↔ InputDenotes (file (folded origin) generic) z }
{
    a_rewriting_states_the_files_records();
    rewriting_is_unique();
}

/// A file has one generic form.
pub fn a_file_has_one_generic_form()
    ensures some { (origin : Labels) (octets : List ℕ) → IsCasedName origin → AreOctets octets
        → (generic : List ℕ) × HasGenericForm origin octets generic × AreOctets generic }
    ensures one { (origin : Labels) (octets : List ℕ)
        → AtMostOneIs (HasGenericForm origin octets) }
{
    a_text_has_a_rewriting();
    rewriting_is_unique();
}

/// A file without further types in presentation format denotes what it denotes for the reader of
/// plain master files.
pub fn a_plain_file_denotes_the_same()
    ensures { (origin : Labels) (octets : List ℕ) (z : Zone) → HasNoFurtherWord octets
        → PresentationDenotes origin octets z ↔ InputDenotes (file (folded origin) octets) z }
{
    a_file_without_further_words_stays();
    a_file_denotes_what_its_generic_form_denotes();
}

/// A source denotes at most one zone, and is refused for at most one fault.
pub fn one_zone_of_a_source()
    ensures zone { (source : Source) → IsSource source → AtMostOneIs (SourceDenotes source) }
    ensures fault { (source : Source) (fault other : Fault) (place elsewhere : Place)
        → IsSourceRefusal source fault place → IsSourceRefusal source other elsewhere
        → (fault ≡ other) × (place ≡ elsewhere) }
{
    a_file_denotes_what_its_generic_form_denotes();
    a_file_has_one_generic_form();
    one_zone();
    one_refusal();
}

/// A source of which a refusal is reported is refused, and one refusal is reported of it.
pub fn one_report_of_a_source()
    ensures refused { (source : Source) (fault : Fault) (place : Place) (entry : Option Refused)
        → IsReportedSource source fault place entry → IsRefusedSource source }
    ensures one { (source : Source) (fault other : Fault) (place elsewhere : Place)
        (entry others : Option Refused) → IsReportedSource source fault place entry
        → IsReportedSource source other elsewhere others
        → (fault ≡ other) × (place ≡ elsewhere) × (entry ≡ others) }
{
    rewriting_is_unique();
    one_zone_of_a_source();
}

/// Of any two accepted sources, each a master file in presentation format with its origin or a zone
/// transfer, the canonical texts are equal exactly if they denote one zone; that text denotes the
/// zone, and so does what is shown of it in presentation format, where that is within the limit; and
/// a source is refused exactly if it denotes no zone.
pub fn presentation_headline()
    ensures same { (a b : Source) (z w : Zone) → IsSource a → IsSource b
        → SourceDenotes a z → SourceDenotes b w → (canon z ≡ canon w) ↔ AreOneZone a b }
    ensures back { (source : Source) (z : Zone) (origin : Labels) → IsSource source
        → SourceDenotes source z → DenotesOnly (file origin (canon z)) z }
    ensures shown { (source : Source) (z : Zone) (shown : List ℕ) → IsSource source
        → SourceDenotes source z → IsShownText (canon z) shown → length shown ≤ text_limit
        → PresentationDenotes [] shown z }
    ensures refused { (source : Source) → IsSource source → IsRefusedSource source
        ↔ NothingIs (SourceDenotes source) }
{
    a_file_denotes_what_its_generic_form_denotes();
    a_file_has_one_generic_form();
    one_zone();
    headline();
    equal_texts_are_equal_zones();
    canonical_text_reads_back();
    a_canonical_text_comes_back();
    refusal_or_zone();
    no_zone_of_a_refused_input();
}

/// What two sources normalise to is equal exactly if they denote one zone, and it is what was
/// written; and a comparison finds them the same exactly then.
pub fn normalised_sources()
    ensures same { (a b : Source) (text other : List ℕ) → IsSource a → IsSource b
        → NormalisesSourceTo a text → NormalisesSourceTo b other → (text ≡ other) ↔ AreOneZone a b }
    ensures written { (source : Source) (old new : Option (List ℕ)) (count : ℕ)
        → NormalisesSource source old new count
        → (text : List ℕ) × NormalisesSourceTo source text × Appends old new text }
    ensures compared { (a b : Source) (verdict : Verdict) → IsSource a → IsSource b
        → ComparesSources a b verdict → (verdict ≡ Same) ↔ AreOneZone a b }
{
    presentation_headline();
}
