//! Laws of data in words, over the definitions alone.
ghost use Rattle.std.specs.Prelude.{◌≡◌, ◌⊎◌, List, ℕ};
ghost use Rattle.std.specs.List.{AllByRecursion};
ghost use Rattle.zone_name.specs.Common.{AreOctets, EitherIs, Labels};
ghost use Rattle.zone_name.specs.Name.{IsCasedName};
ghost use Rattle.zone_rdata.specs.Item.{RawItem};
ghost use Rattle.zone_rdata.specs.Strings.{item_text};
ghost use Rattle.type_data.specs.Data.{DataFails, StatesData};
ghost use Rattle.type_data.specs.DataItem.{TouchingItem, items_of};
ghost use Rattle.type_data.specs.Field.{FailsField, StatesField};
ghost use Rattle.type_data.specs.Kinds.Location.{FailsLocation, StatesLocation};
ghost use Rattle.type_data.specs.Table.{FurtherType, IsFurtherWord, NamedField};
ghost use Rattle.type_data.specs.declared.fault.WordsFault.{WordsFault};
ghost use Rattle.type_data.specs.declared.field.FieldKind.{FieldKind};

/// A word is that of one further type at most.
pub fn a_word_is_one_further_type()
    ensures { (word : List ℕ) (a b : FurtherType) → IsFurtherWord word a → IsFurtherWord word b
        → a ≡ b }
{}

/// Items state at most one list of octets as the data of fields under an origin.
pub fn data_is_unique()
    ensures { (origin : Labels) (fields : List NamedField) (ordered : List (List ℕ) → List ℕ)
        (items : List TouchingItem) (a b : List ℕ) → StatesData origin fields ordered items a
        → StatesData origin fields ordered items b → a ≡ b }
{}

/// Items with which something is wrong state no data.
pub fn faulty_items_state_none()
    ensures { (origin : Labels) (fields : List NamedField) (ordered : List (List ℕ) → List ℕ)
        (items : List TouchingItem) (octets name : List ℕ) (fault : WordsFault)
        → StatesData origin fields ordered items octets
        → DataFails origin fields ordered items name fault → ⊥ }
{}

/// Items state at most one fault, of one field, where they state no data.
pub fn data_has_one_fault()
    ensures { (origin : Labels) (fields : List NamedField) (ordered : List (List ℕ) → List ℕ)
        (items : List TouchingItem) (name other : List ℕ) (fault as_well : WordsFault)
        → DataFails origin fields ordered items name fault
        → DataFails origin fields ordered items other as_well
        → (name ≡ other) × (fault ≡ as_well) }
{}

/// Items of a location state octets or have a fault, never neither.
pub fn a_location_is_stated_or_faulty()
    ensures { (items : List RawItem) → EitherIs (StatesLocation items) (FailsLocation items) }
{}

/// Items of octets state octets as a field of a kind under an origin that is a name, or have a
/// fault, never neither.
pub fn a_field_is_stated_or_faulty()
    ensures { (origin : Labels) (kind : FieldKind) (items : List TouchingItem)
        → IsCasedName origin
        → AllByRecursion (λ item. AreOctets (item_text item)) (items_of items)
        → EitherIs (StatesField origin kind items) (FailsField origin kind items) }
{}

/// Items of octets state data of fields under an origin that is a name, or have a first fault, of
/// one of the fields by its name, never neither.
pub fn items_state_data_or_have_a_fault()
    ensures { (origin : Labels) (fields : List NamedField) (ordered : List (List ℕ) → List ℕ)
        (items : List TouchingItem) → IsCasedName origin
        → AllByRecursion (λ item. AreOctets (item_text item)) (items_of items)
        → ((octets : List ℕ) × StatesData origin fields ordered items octets)
        ⊎ ((name : List ℕ) × (fault : WordsFault)
        × DataFails origin fields ordered items name fault) }
{}
