//! Laws over the definitions alone.
ghost use Rattle.std.specs.List.{AllByRecursion};
ghost use Rattle.std.specs.Prelude.{◌≡◌, List, ℕ, [], Some, true};
ghost use Rattle.words_print.specs.Shown.{IsRecordLine, IsShownLine, IsShownText};
ghost use Rattle.zone_name.specs.Common.{AreOctets};
ghost use Rattle.zone_print.specs.Canonical.{lines};
ghost use Rattle.zone_rdata.specs.Record.{IsRecord, Record};
ghost use Rattle.zone_rdata.specs.Table.{in_class};
ghost use Rattle.type_data.specs.Data.{joined};
ghost use Rattle.type_data.specs.DataItem.{TouchingItem};
ghost use Rattle.zone_words.specs.Entry.{IsRewriting};
ghost use Rattle.type_data.specs.PrintedData.{HasNoWords, PrintsData};
ghost use Rattle.type_data.specs.Table.{FurtherType, further_type};
ghost use Rattle.zone_words.specs.WordsLine.{IsHead, generic_line, words_line};

pub mod printed;

use zone_print::laws::each_line_is_one_entry;
use zone_words::laws::words::{
    a_generic_line_is_one_entry, a_line_in_words_is_rewritten, the_words_of_data,
};

/// What is shown for a text of one record a line, each with its class and without words of further
/// types, is rewritten under the root as that text.
pub fn what_is_shown_is_rewritten()
    ensures { (lines : List (List ℕ)) (shown : List ℕ) → AllByRecursion IsRecordLine lines
        → IsShownText (joined lines) shown → IsRewriting [] shown (joined lines) [] }
{}

/// What is shown for the canonical text of records is rewritten under the root as that text.
pub fn a_canonical_text_comes_back()
    ensures { (records : List Record) (shown : List ℕ) → AllByRecursion IsRecord records
        → IsShownText (lines records) shown → IsRewriting [] shown (lines records) [] }
{
    each_line_is_one_entry();
}

/// A line of an owner, a TTL, a class and octets that items state as the data of a type is shown
/// with the words that are printed for the octets.
pub fn a_canonical_line_is_shown_in_words()
    ensures { (head : List ℕ) (class : ℕ) (further : FurtherType) (octets shown : List ℕ)
        → IsHead head class → further_type further.number ≡ Some further
        → (further.in_internet_alone ≡ true → class ≡ in_class) → AreOctets octets
        → (HasNoWords further.fields octets → ⊥)
        → IsShownLine (generic_line head further octets) shown → (items : List TouchingItem)
        × PrintsData further.fields items octets × (shown ≡ words_line head further items) }
{
    a_line_in_words_is_rewritten();
    the_words_of_data();
    a_generic_line_is_one_entry();
}
