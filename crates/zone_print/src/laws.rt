//! Laws of zones and their canonical text. The functions only call other laws: their contracts are
//! the laws.
ghost use Rattle.std.specs.Prelude.{◌≡◌, ◌*◌, ◌≤◌, ◌↔◌, ◌++◌, ◌∷◌, [], List, length};
ghost use Rattle.std.specs.Cmp.{IsTotalOrder};
ghost use Rattle.std.specs.List.{AllByRecursion};
ghost use Rattle.std.specs.declared.cmp.Ordering.TheVariants.{Equal};
ghost use Rattle.zone_name.specs.Common.{AtMostOneIs, Labels, Octets};
ghost use Rattle.zone_rdata.specs.Record.{IsRecord, Record, data_of};
ghost use Rattle.zone_rdata.specs.RecordText.{record_text};
ghost use Rattle.zone_print.specs.Canonical.{canon, line, lines, text_limit};
ghost use Rattle.zone_print.specs.Denotes.{Denotes};
ghost use Rattle.zone_print.specs.Laws.{EachLineEnds, IsLineOf, placed_from};
ghost use Rattle.zone_set.specs.Message.{message_octets};
ghost use Rattle.zone_set.specs.Order.{canonical_cmp};
ghost use Rattle.zone_set.specs.Zone.{Zone, IsZone, SameRecords};
ghost use Rattle.zone_text.specs.File.{FileStates};

use zone_name::laws::printed_names_are_spelled;
use zone_rdata::laws::text::printed_data_is_stated;
use zone_rdata::laws::word::{printed_numbers_are_read, printed_words_are_read};
use zone_text::laws::entry::an_entry_states_one_record;
use zone_text::laws::file::a_file_states_one_list;
use zone_text::laws::line::{
    a_line_of_items_is_one_entry, a_whole_entry_leaves_the_origin, a_whole_entry_states_its_record,
};
use zone_text::laws::tokens::{lines_are_cut_by_themselves, one_cut_of_a_text};

/// The line of a record has one line feed, its last octet.
#[tactic(auto, using(crate::proofs::Feeds::line_ends_with_feed))]
pub fn each_line_ends()
    ensures { EachLineEnds }
{}

/// The line of a record is its canonical text, which `{}` shows of it, and a line feed.
#[tactic(auto, using(crate::proofs::Lines::line_shown))]
pub fn a_line_is_its_record_shown()
    ensures { (r : Record) → line r ≡ record_text r ++ 10 ∷ [] }
{}

/// The canonical order is total, and records that it doesn't tell apart have one owner and one
/// data.
#[tactic(auto, using(crate::proofs::OneZone::canonical_orders))]
pub fn canonical_order_is_total()
    ensures total { IsTotalOrder canonical_cmp }
    ensures exact { (r s : Record) → canonical_cmp r s ≡ Equal → (r.owner ≡ s.owner)
        × (data_of r ≡ data_of s) }
{
    zone_name::laws::order_is_exact();
}

/// A zone is fixed by the set of its records.
#[tactic(auto, using(crate::proofs::OneZone::one_zone))]
pub fn one_zone_of_records()
    ensures { (z w : Zone) → IsZone z → IsZone w → SameRecords z.records w.records → z ≡ w }
{}

/// A master file denotes at most one zone under its origin.
pub fn one_zone_of_a_file()
    ensures { (origin : Labels) (octets : Octets) → AtMostOneIs (Denotes origin octets) }
{
    a_file_states_one_list();
}

/// The line of a record is one entry of a master file that states every part of the record.
#[tactic(auto, using(crate::proofs::ReadBack::line_is_entry))]
pub fn each_line_is_one_entry()
    ensures { (r : Record) → IsRecord r → IsLineOf r (line r) }
{
    printed_names_are_spelled();
    printed_numbers_are_read();
    printed_words_are_read();
    printed_data_is_stated();
    a_line_of_items_is_one_entry();
}

/// Two lines of records are equal exactly if the records are.
#[tactic(auto, using(crate::proofs::ReadBack::equal_lines))]
pub fn equal_lines_are_equal_records()
    ensures { (r s : Record) → IsRecord r → IsRecord s → (line r ≡ line s) ↔ (r ≡ s) }
{
    each_line_is_one_entry();
    one_cut_of_a_text();
    a_whole_entry_states_its_record();
    an_entry_states_one_record();
}

/// The lines of records are a master file that states these records in their order, under every
/// origin: the first at line 1, the next at line 2 and so on.
#[tactic(auto, using(crate::proofs::ReadBack::lines_back))]
pub fn lines_read_back()
    ensures { (origin : Labels) (records : List Record) → AllByRecursion IsRecord records
        → FileStates origin (lines records) (placed_from 1 records) }
{
    each_line_is_one_entry();
    lines_are_cut_by_themselves();
    a_whole_entry_states_its_record();
    a_whole_entry_leaves_the_origin();
}

/// The canonical text of a zone, if it is within the limit, denotes that zone under every origin.
#[tactic(auto, using(crate::proofs::ReadBack::text_back))]
pub fn canonical_text_reads_back()
    ensures { (origin : Labels) (z : Zone) → IsZone z → length (canon z) ≤ text_limit
        → Denotes origin (canon z) z }
{
    lines_read_back();
}

/// Two zones have one canonical text exactly if they are one zone, however long it is.
#[tactic(auto, using(crate::proofs::ReadBack::equal_texts))]
pub fn equal_texts_are_equal_zones()
    ensures { (z w : Zone) → IsZone z → IsZone w → (canon z ≡ canon w) ↔ (z ≡ w) }
{
    lines_read_back();
    a_file_states_one_list();
    one_zone_of_records();
}

/// The canonical text of a zone has at most four times as many octets as its records take in
/// messages where no name is compressed (RFC 1035 3.2.1).
#[tactic(auto, using(crate::proofs::Lengths::lines_length))]
pub fn a_text_is_at_most_four_times_its_messages()
    ensures { (z : Zone) → IsZone z → length (canon z) ≤ 4 * message_octets z.records }
{}
