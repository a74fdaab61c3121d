//! Laws over the definitions alone.
ghost use Rattle.std.specs.Prelude.{◌≡◌, ◌↔◌, List, []};
ghost use Rattle.zone_rdata.specs.Record.{Record};
ghost use Rattle.zone_set.specs.Order.{Ascends};
ghost use Rattle.zone_set.specs.Zone.{IsZone, Zone};
ghost use Rattle.zone_difference.specs.Difference.{AreChanges, AreOneFolded, Change, IsDifference, IsPatched, IsPatchedButForLetters, added_of, removed_of};
ghost use Rattle.zone_difference.specs.declared.name_case.NameCase.{NameCase};
ghost use Rattle.zone_difference.specs.declared.name_case.NameCase.TheVariants.{Exact, Folded};

/// Two lists of records have one difference.
pub fn one_difference()
    ensures { (case : NameCase) (records others removed added gone come : List Record)
        → IsDifference case records others removed added → IsDifference case records others gone come
        → (removed ≡ gone) × (added ≡ come) }
{}

/// The first records without those that are removed and with those that are added are the second.
pub fn a_patched_zone_is_the_other()
    ensures { (records others removed added : List Record)
        → IsDifference Exact records others removed added → IsPatched records removed added others }
{}

/// There are no changes from one zone to another exactly if they are one zone.
pub fn no_changes_of_one_zone()
    ensures { (z w : Zone) (changes : List Change) → IsZone z → IsZone w
        → AreChanges Exact z.records w.records changes → (changes ≡ []) ↔ (z ≡ w) }
{}

/// The first zone without the records that are removed and with those that are added is the second but
/// for letters of names in data, if these are compared without regard to case.
pub fn a_patched_zone_is_the_other_but_for_letters()
    ensures { (z w : Zone) (removed added : List Record) → IsZone z → IsZone w
        → IsDifference Folded z.records w.records removed added
        → IsPatchedButForLetters z.records removed added w.records }
{}

/// Without regard to case there are no changes from one zone to another exactly if they have the same
/// records with the names in their data in lower case.
pub fn no_changes_of_one_folded_zone()
    ensures { (z w : Zone) (changes : List Change) → IsZone z → IsZone w
        → AreChanges Folded z.records w.records changes
        → (changes ≡ []) ↔ AreOneFolded z.records w.records }
{}

/// Two zones have a list of changes.
pub fn zones_have_changes()
    ensures { (case : NameCase) (z w : Zone) → IsZone z → IsZone w
        → (changes : List Change) × AreChanges case z.records w.records changes }
{}

/// The changes the other way remove what is added and add what is removed.
pub fn changes_the_other_way()
    ensures { (case : NameCase) (records others : List Record) (changes back : List Change)
        → AreChanges case records others changes → AreChanges case others records back
        → (removed_of back ≡ added_of changes) × (added_of back ≡ removed_of changes) }
{}

/// There is one list of changes from the first records to the second.
pub fn one_list_of_changes()
    ensures { (case : NameCase) (records others : List Record) (changes more : List Change)
        → AreChanges case records others changes → AreChanges case records others more → changes ≡ more }
{}

/// Two ascending lists of records have a list of changes.
pub fn ascending_records_have_changes()
    ensures { (records others : List Record) → Ascends records → Ascends others
        → (changes : List Change) × AreChanges Exact records others changes }
{}
