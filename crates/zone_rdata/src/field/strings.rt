ghost use Rattle.std.specs.Prelude.{◌≡◌, ◌<◌, length, map, IfOk, IfErr, OnOk, OnErr};
ghost use Rattle.std.specs.List.{flat_map, join_with_byte};
ghost use Rattle.zone_name.specs.Sink.{TakesSome};
ghost use Rattle.zone_rdata.specs.Strings.{string_text};
ghost use Rattle.zone_name.specs.Name.{with_length};
ghost use Rattle.zone_rdata.specs.Fault.{IfFault};
ghost use Rattle.zone_rdata.specs.Fields.Strings.{SpellsStrings, StringsFault, strings_of};
ghost use Rattle.zone_rdata.specs.Item.{raw};
ghost use Rattle.zone_rdata.specs.Appended.{Appends};
ghost use Rattle.zone_rdata.specs.Machine.Appending.{AppendsValue, BeginsWithNone};
ghost use Rattle.zone_rdata.specs.Machine.Fronts.{HoldsStrings};

use super::Field;
use super::string::{push_sent_string, split_string};
use crate::cause::Cause;
use crate::fault::Fault;
use crate::item::Item;
use crate::narrow_failing::NarrowFailing;
use crate::string::{push_string, push_string_text};
use zone_name::Sink;

/// Appends the strings that the items spell, one or more, each after its length.
#[tactic(auto, using(crate::proofs::Items::Values::strings_spelt))]
pub(crate) fn push_strings(items: &[Item], octets: &mut Vec<u8>) -> Result<(), NarrowFailing>
    ensures found { OnOk result
        (Appends (SpellsStrings (map raw items.now)) (flat_map with_length) octets.old.items
        octets.new.items) }
    ensures fault { IfErr result (IfFault (StringsFault (map raw items.now))) }
{
    if items.is_empty() {
        return Err(NarrowFailing::of(Cause::BadRdata));
    }
    for item in items {
        push_string(*item, octets)?;
    }
    Ok(())
}

/// Appends octets that are one string or more, each after its length.
#[tactic(auto, using(crate::proofs::Fields::Strings::pushed_strings))]
pub(crate) fn push_sent_strings<'o>(
    octets: &'o [u8],
    canonical: &mut Vec<u8>,
) -> Result<&'o [u8], NarrowFailing>
    ensures found { IfOk result (λ rest.
        AppendsValue Field.Strings octets.now rest.now canonical.old.items canonical.new.items) }
    ensures fault { IfErr result
        (IfFault (λ f. (f ≡ Fault.BadRdata) × BeginsWithNone Field.Strings octets.now)) }
{
    let mut rest = push_sent_string(octets, canonical)?;
    while !rest.is_empty() {
        rest = push_sent_string(rest, canonical)?;
    }
    Ok(rest)
}

/// Appends the strings in quotes, parted by single spaces.
#[tactic(auto, using(crate::proofs::Texts::FieldTexts::quoted_strings))]
pub(crate) fn push_strings_text<S: Sink>(octets: &[u8], out: &mut S) -> Result<(), S::Error>
    requires some { 0 < length octets.now }
    requires strings { HoldsStrings octets.now }
    ensures ok { OnOk result
        (S.takes out.old (join_with_byte 32 (map string_text (strings_of octets.now))) out.new) }
    ensures err { OnErr result (TakesSome S.takes out.old out.new) }
{
    let (string, mut rest) = split_string(octets);
    push_string_text(string, out)?;
    while !rest.is_empty() {
        let (string, after) = split_string(rest);
        out.push(b" ")?;
        push_string_text(string, out)?;
        rest = after;
    }
    Ok(())
}
