//! Laws of the values of a layout and their octets (RFC 1035 3.3).
ghost use Rattle.std.specs.Prelude.{◌≡◌, ◌≢◌, ◌≤◌, List, Some, length, ℕ};
ghost use Rattle.std.specs.List.{AllByRecursion, AllZip};
ghost use Rattle.zone_rdata.specs.Field.{FieldValue, Holds, octets_of, values_of};
ghost use Rattle.zone_rdata.specs.Layout.{IsData, layout};
ghost use Rattle.zone_rdata.specs.declared.field.Field.{Field};
ghost use Rattle.zone_rdata.specs.declared.field.Field.TheVariants.{Strings};
ghost use Rattle.zone_rdata.specs.Limits.{longest_data};

/// Values of a layout are data, unless their octets are too many.
pub fn held_values_are_data()
    ensures { (class kind : ℕ) (fields : List Field) (values : List FieldValue)
        → layout class kind ≡ Some fields → AllZip Holds fields values
        → length (octets_of values) ≤ longest_data → IsData class kind (octets_of values) }
{}

/// Values of a layout that does not end in strings are short: at most 7 fields of at most 256
/// octets each never reach the limit.
#[tactic(auto, using(crate::proofs::Octets::Layouts::stringless_short))]
pub fn values_without_strings_are_short()
    ensures { (class kind : ℕ) (fields : List Field) (values : List FieldValue)
        → layout class kind ≡ Some fields → AllByRecursion (λ field. field ≢ Strings) fields
        → AllZip Holds fields values → length (octets_of values) ≤ longest_data }
{}

/// Values of a layout with the same octets are the same values.
#[tactic(auto, using(crate::proofs::Octets::Layouts::equal_values))]
pub fn equal_octets_are_equal_values()
    ensures { (class kind : ℕ) (fields : List Field) (values others : List FieldValue)
        → layout class kind ≡ Some fields → AllZip Holds fields values → AllZip Holds fields others
        → octets_of values ≡ octets_of others → values ≡ others }
{}

/// The values of a layout are read back from their octets.
#[tactic(auto, using(crate::proofs::Octets::Layouts::got_back))]
pub fn values_are_got_back()
    ensures { (class kind : ℕ) (fields : List Field) (values : List FieldValue)
        → layout class kind ≡ Some fields → AllZip Holds fields values
        → values_of fields (octets_of values) ≡ values }
{}
