//! Laws of the items that state record data (RFC 1035 5.1; RFC 3597 5).
ghost use Rattle.std.specs.Prelude.{◌≡◌, List, ℕ, Some};
ghost use Rattle.std.specs.List.{AllByRecursion};
ghost use Rattle.zone_name.specs.Common.{AreOctets, AtMostOneIs, EitherIs, Labels, NeverBothAre};
ghost use Rattle.zone_name.specs.Name.{IsName};
ghost use Rattle.zone_rdata.specs.DataFault.{IsDataFault};
ghost use Rattle.zone_rdata.specs.Item.{RawItem};
ghost use Rattle.zone_rdata.specs.Layout.{IsData, IsLayout, layout};
ghost use Rattle.zone_rdata.specs.Spelling.{States};
ghost use Rattle.zone_rdata.specs.Strings.{item_text};
ghost use Rattle.zone_rdata.specs.declared.field.Field.{Field};

use zone_name::laws::{spelling_is_unique, texts_have_one_verdict};

/// A layout has at most seven fields, strings stand last in it, and its addresses have 4 or 16
/// octets.
#[tactic(auto, using(crate::proofs::Words::Tables::table_row))]
pub fn layouts_are_sound()
    ensures { (class kind : ℕ) (fields : List Field) → layout class kind ≡ Some fields
        → IsLayout fields }
{}

/// Items state at most one value of a class and type under an origin.
pub fn data_is_unique()
    ensures { (origin : Labels) (class kind : ℕ) (items : List RawItem)
        → AtMostOneIs (States origin class kind items) }
{
    spelling_is_unique();
}

/// What items state is data that a record can have.
pub fn stated_data_is_data()
    ensures { (origin : Labels) (class kind : ℕ) (items : List RawItem) (octets : List ℕ)
        → States origin class kind items octets → IsData class kind octets }
{}

/// Items of octets state a value of a class and type under an origin that is a name, or have a
/// first fault.
pub fn data_or_fault()
    ensures { (origin : Labels) (class kind : ℕ) (items : List RawItem) → IsName origin
        → AllByRecursion (λ item. AreOctets (item_text item)) items
        → EitherIs (States origin class kind items) (IsDataFault origin class kind items) }
{
    texts_have_one_verdict();
}

/// Items that have a first fault state no value.
pub fn faulty_items_state_none()
    ensures { (origin : Labels) (class kind : ℕ) (items : List RawItem)
        → NeverBothAre (States origin class kind items) (IsDataFault origin class kind items) }
{
    spelling_is_unique();
    texts_have_one_verdict();
}

/// Items have at most one first fault.
pub fn data_fault_is_unique()
    ensures { (origin : Labels) (class kind : ℕ) (items : List RawItem)
        → AtMostOneIs (IsDataFault origin class kind items) }
{
    texts_have_one_verdict();
}
