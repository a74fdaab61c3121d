//! Laws of what is printed, over the definitions alone: the text of octets states these octets, and
//! stands on a line as it is.
ghost use Rattle.std.specs.List.{AllByRecursion};
ghost use Rattle.std.specs.Prelude.{List, ℕ};
ghost use Rattle.zone_name.specs.Common.{Labels};
ghost use Rattle.zone_rdata.specs.Item.{RawItem};
ghost use Rattle.type_data.specs.DataItem.{TouchingItem};
ghost use Rattle.type_data.specs.FirstItem.{FirstStates};
ghost use Rattle.type_data.specs.Kinds.Address.{PrintsIpv4, PrintsIpv6, StatesIpv4, StatesIpv6};
ghost use Rattle.type_data.specs.Kinds.Base64.{PrintsBase64, StatesBase64};
ghost use Rattle.type_data.specs.Kinds.Eui.{PrintsEui, StatesEui};
ghost use Rattle.type_data.specs.Kinds.Hexadecimal.{PrintsHex, StatesHex};
ghost use Rattle.type_data.specs.Kinds.Location.{PrintsLocation, StatesLocation};
ghost use Rattle.type_data.specs.Kinds.Name.{PrintsName, StatesName};
ghost use Rattle.type_data.specs.Kinds.NodeId.{PrintsNodeId, StatesNodeId};
ghost use Rattle.type_data.specs.Kinds.Number.{PrintsU16, PrintsU32, PrintsU8, StatesU16, StatesU32, StatesU8};
ghost use Rattle.type_data.specs.Kinds.Prefixes.{PrintsPrefixes, StatesPrefixes};
ghost use Rattle.type_data.specs.Kinds.Salt.{PrintsSalt, StatesSalt};
ghost use Rattle.type_data.specs.Kinds.Strings.{PrintsStrings, StatesStrings};
ghost use Rattle.type_data.specs.Kinds.Tag.{PrintsTag, StatesTag};
ghost use Rattle.type_data.specs.Kinds.Time.{PrintsTime, StatesTime};
ghost use Rattle.type_data.specs.Kinds.Types.{PrintsPerhapsTypes, PrintsTypes, StatesPerhapsTypes, StatesTypes};
ghost use Rattle.type_data.specs.Kinds.Value.{PrintsValue, StatesQuotedValue};
ghost use Rattle.type_data.specs.Kinds.Word.{PrintsAlgorithm, PrintsCertificateType, PrintsNotifyScheme, PrintsType, StatesAlgorithm, StatesCertificateType, StatesNotifyScheme, StatesType};
ghost use Rattle.type_data.specs.Parameters.Printed.{written_touching};
ghost use Rattle.type_data.specs.Printed.{ArePrinted};
ghost use Rattle.type_data.specs.PrintedData.{PrintParts};
ghost use Rattle.type_data.specs.Table.{NamedField};
ghost use Rattle.type_data.specs.StandingItem.{StandsBehind};

/// The text that is printed for the octets of a kind states them, a name under every origin.
pub fn printed_texts_state_their_octets()
    ensures u8 { (text octets : List ℕ) → PrintsU8 text octets → StatesU8 text octets }
    ensures u16 { (text octets : List ℕ) → PrintsU16 text octets → StatesU16 text octets }
    ensures u32 { (text octets : List ℕ) → PrintsU32 text octets → StatesU32 text octets }
    ensures algorithm { (text octets : List ℕ) → PrintsAlgorithm text octets
        → StatesAlgorithm text octets }
    ensures certificate { (text octets : List ℕ) → PrintsCertificateType text octets
        → StatesCertificateType text octets }
    ensures notify_scheme { (text octets : List ℕ) → PrintsNotifyScheme text octets
        → StatesNotifyScheme text octets }
    ensures record_type { (text octets : List ℕ) → PrintsType text octets
        → StatesType text octets }
    ensures time { (text octets : List ℕ) → PrintsTime text octets → StatesTime text octets }
    ensures salt { (text octets : List ℕ) → PrintsSalt text octets → StatesSalt text octets }
    ensures tag { (text octets : List ℕ) → PrintsTag text octets → StatesTag text octets }
    ensures ipv4 { (text octets : List ℕ) → PrintsIpv4 text octets → StatesIpv4 text octets }
    ensures ipv6 { (text octets : List ℕ) → PrintsIpv6 text octets → StatesIpv6 text octets }
    ensures node_id { (text octets : List ℕ) → PrintsNodeId text octets
        → StatesNodeId text octets }
    ensures name { (origin : Labels) (text octets : List ℕ) → PrintsName text octets
        → StatesName origin text octets }
    ensures eui { (count : ℕ) (text octets : List ℕ) → PrintsEui count text octets
        → StatesEui count text octets }
{}

/// So do the items that are printed for the octets of a kind that takes several, and of a value.
pub fn printed_items_state_their_octets()
    ensures hex { (items : List RawItem) (octets : List ℕ) → PrintsHex items octets
        → StatesHex items octets }
    ensures base64 { (items : List RawItem) (octets : List ℕ) → PrintsBase64 items octets
        → StatesBase64 items octets }
    ensures strings { (items : List RawItem) (octets : List ℕ) → PrintsStrings items octets
        → StatesStrings items octets }
    ensures types { (items : List RawItem) (octets : List ℕ) → PrintsTypes items octets
        → StatesTypes items octets }
    ensures perhaps_types { (items : List RawItem) (octets : List ℕ)
        → PrintsPerhapsTypes items octets → StatesPerhapsTypes items octets }
    ensures prefixes { (items : List RawItem) (octets : List ℕ) → PrintsPrefixes items octets
        → StatesPrefixes items octets }
    ensures location { (items : List RawItem) (octets : List ℕ) → PrintsLocation items octets
        → StatesLocation items octets }
    ensures value { (items : List RawItem) (octets : List ℕ) → PrintsValue items octets
        → FirstStates StatesQuotedValue items octets }
{}

/// The items that are printed for the fields of data stand on a line as they are, and a terminal
/// shows each octet of what is written.
pub fn printed_words_stand_on_a_line()
    ensures stand { (fields : List NamedField) (items : List TouchingItem) (parts : List (List ℕ))
        → PrintParts fields items parts → AllByRecursion StandsBehind items }
    ensures printed { (fields : List NamedField) (items : List TouchingItem) (parts : List (List ℕ))
        → PrintParts fields items parts → ArePrinted (written_touching items) }
{}
