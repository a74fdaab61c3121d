//! Laws of master files that are read with the files that they include.
ghost use Rattle.std.specs.Prelude.{◌≡◌, ◌↔◌, ◌<◌, ℕ, List, Option, length};
ghost use Rattle.zone_name.specs.Common.{AtMostOneIs, NothingIs};
ghost use Rattle.zone_rdata.specs.declared.fault.Fault.{Fault};
ghost use Rattle.zone_rdata.specs.declared.fault.Place.{Place};
ghost use Rattle.zone_set.specs.Zone.{Zone};
ghost use Rattle.zone_print.specs.Canonical.{canon, text_limit};
ghost use Rattle.zone_words.specs.Rewriting.{Refused};
ghost use Rattle.zone_files.specs.FileTree.{AreOneZoneOfTrees, FileTree, HasExpandedText, IsTree, TreeDenotes};
ghost use Rattle.zone_files.specs.Loading.Report.{IsReported};

use super::expansion::an_expanded_text_is_unique;
use super::{one_report_of_a_source, one_zone_of_a_source, presentation_headline};

/// Of any two main files with the files that they include, which denote zones, the canonical texts are
/// equal exactly if they denote one zone. Files denote at most one zone; and none if one of them or their
/// expanded text is too long, or if that text is refused.
pub fn files_headline()
    ensures same { (a b : FileTree) (z w : Zone) → IsTree a → IsTree b → TreeDenotes a z
        → TreeDenotes b w → (canon z ≡ canon w) ↔ AreOneZoneOfTrees a b }
    ensures one { (t : FileTree) → IsTree t → AtMostOneIs (TreeDenotes t) }
    ensures refused { (t : FileTree) (text : List ℕ) (fault : Fault) (place : Place)
        (entry : Option Refused) → IsTree t → HasExpandedText t text
        → IsReported t.origin text fault place entry → NothingIs (TreeDenotes t) }
    ensures long { (t : FileTree) (text : List ℕ) → HasExpandedText t text
        → text_limit < length text → NothingIs (TreeDenotes t) }
{
    presentation_headline();
    one_report_of_a_source();
    one_zone_of_a_source();
    an_expanded_text_is_unique();
}
