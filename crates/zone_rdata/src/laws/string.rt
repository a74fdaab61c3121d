//! Laws of character-strings (RFC 1035 3.3, 5.1).
ghost use Rattle.zone_name.specs.Common.{AreOctets, AtMostOneIs, EitherIs, NeverBothAre, Octets};
ghost use Rattle.zone_rdata.specs.Item.{RawItem, quoted};
ghost use Rattle.zone_rdata.specs.Strings.{IsString, SpellsString, StandsInQuotes, StringFault, inside_text, item_text};

/// An item spells at most one string.
pub fn string_is_unique()
    ensures { (item : RawItem) → AtMostOneIs (SpellsString item) }
{}

/// An item spells a string or has a first fault.
#[tactic(auto, using(crate::proofs::Strings::Units::string_or_fault))]
pub fn string_or_fault()
    ensures { (item : RawItem) → AreOctets (item_text item)
        → EitherIs (SpellsString item) (StringFault item) }
{}

/// An item that has a first fault spells no string.
pub fn faulty_string_spells_none()
    ensures { (item : RawItem) → NeverBothAre (SpellsString item) (StringFault item) }
{}

/// An item has at most one first fault.
pub fn string_fault_is_unique()
    ensures { (item : RawItem) → AtMostOneIs (StringFault item) }
{}

/// What is printed for a string stands in quotes in one line, and spells that string.
#[tactic(auto, using(crate::proofs::Strings::StringLaws::printed_strings))]
pub fn printed_strings_are_spelled()
    ensures spells { (octets : Octets) → IsString octets
        → SpellsString (quoted (inside_text octets)) octets }
    ensures stands { (octets : Octets) → IsString octets → StandsInQuotes (inside_text octets) }
{}
