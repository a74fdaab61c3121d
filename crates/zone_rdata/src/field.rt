ghost use Rattle.std.specs.Prelude.{[], ◌≡◌, ◌↔◌, ◌≤◌, Some, drop, length, map, IsTrue, IfOk, IfErr, OnOk, OnErr};
ghost use Rattle.zone_rdata.specs.Field.{Suits, IsFieldFault, field_at, own_items, field_text};
ghost use Rattle.zone_rdata.specs.Part.{value_of};
ghost use Rattle.zone_rdata.specs.Fault.{IfFault};
ghost use Rattle.zone_name.specs.Sink.{TakesSome};
ghost use Rattle.zone_rdata.specs.Item.{raw};
ghost use Rattle.zone_rdata.specs.Layout.{IsSized};
ghost use Rattle.zone_rdata.specs.Machine.Appending.{AppendsFirst};
ghost use Rattle.zone_rdata.specs.Machine.Printing.{BeginsWithField, after_field};
ghost use Rattle.zone_rdata.specs.Machine.Appending.{AppendsValue, BeginsWithNone};

mod address;
mod name;
mod number;
mod prefix;
mod string;
mod strings;

use crate::cause::Cause;
use crate::fault::Fault;
use crate::item::Item;
use crate::narrow_failing::NarrowFailing;
use crate::number::{decimal_of, push_decimal};
use crate::part::Part;
use crate::string::{push_string, push_string_text};
use crate::time::seconds_of;
use address::{push_address, push_address_text};
use byteorder::{BigEndian, ByteOrder};
use name::{push_sent_name, split_name};
use number::{push_u16, push_u32};
use prefix::push_prefix;
use string::{push_sent_string, split_string};
use strings::{push_sent_strings, push_strings, push_strings_text};
use zone_name::{Name, Sink};

/// A field of record data (RFC 1035 3.3).
#[derive(Clone, Copy, Debug, PartialEq, Eq)]
pub enum Field {
    /// A domain name.
    Name,
    /// A number of 32 bits, written in digits.
    Serial,
    /// A number of seconds of 32 bits, written in digits or as a time.
    Time,
    /// A number of 16 bits, written in digits.
    U16,
    /// An address of this number of octets.
    Octets(usize),
    /// A character-string.
    OneString,
    /// One or more character-strings, up to the end of the data.
    Strings,
}

impl Field {
    /// Appends the octets of the value that the field's items spell, and gives how many items these
    /// are.
    #[tactic(auto, using(crate::proofs::Items::Values::no_serial))]
    pub(crate) fn push_items(
        self,
        items: &[Item],
        origin: &Name,
        octets: &mut Vec<u8>,
    ) -> Result<usize, NarrowFailing>
        ensures found { IfOk result (λ n.
            AppendsFirst origin.now self (map raw items.now)
            (map raw (drop n items.now)) octets.old.items octets.new.items) }
        ensures inside { IfOk result (λ n. n ≤ length items.now) }
        ensures fault { IfErr result
            (IfFault (IsFieldFault origin.now self (own_items self (map raw items.now)))) }
    {
        match (self, items.first()) {
            (Field::Strings, _) => {
                push_strings(items, octets)?;
                return Ok(items.len());
            }
            (Field::OneString, Some(item)) => push_string(*item, octets)?,
            (_, None | Some(Item::Quoted(_))) => return Err(NarrowFailing::of(Cause::BadRdata)),
            (Field::Name, Some(Item::Bare(text))) => {
                Name::push_spelled(text, Some(origin), octets)??;
            }
            (Field::Serial, Some(Item::Bare(text))) => push_u32(decimal_of(text), octets)?,
            (Field::Time, Some(Item::Bare(text))) => push_u32(seconds_of(text), octets)?,
            (Field::U16, Some(Item::Bare(text))) => push_u16(text, octets)?,
            (Field::Octets(count), Some(Item::Bare(text))) => push_address(count, text, octets)?,
        }
        Ok(1)
    }

    /// Appends the canonical octets of the field's value at the beginning of octets, and gives the
    /// octets after it.
    pub(crate) fn push_sent<'o>(
        self,
        octets: &'o [u8],
        canonical: &mut Vec<u8>,
    ) -> Result<&'o [u8], NarrowFailing>
        ensures found { IfOk result (λ rest.
            AppendsValue self octets.now rest.now canonical.old.items canonical.new.items) }
        ensures fault { IfErr result
            (IfFault (λ f. (f ≡ Fault.BadRdata) × BeginsWithNone self octets.now)) }
    {
        match self {
            Field::Name => push_sent_name(octets, canonical),
            Field::Serial | Field::Time => push_prefix(4, octets, canonical),
            Field::U16 => push_prefix(2, octets, canonical),
            Field::Octets(count) => push_prefix(count, octets, canonical),
            Field::OneString => push_sent_string(octets, canonical),
            Field::Strings => push_sent_strings(octets, canonical),
        }
    }

    /// Appends the text of the field at the beginning of octets, and gives the octets after it.
    /// After the last there are none.
    #[tactic(auto, using(crate::proofs::Octets::StringFields::strings_in_octets))]
    pub(crate) fn push_text<'o, S: Sink>(
        self,
        octets: &'o [u8],
        is_last: bool,
        out: &mut S,
    ) -> Result<&'o [u8], S::Error>
        requires sized { IsSized self }
        requires front { BeginsWithField self octets.now }
        requires last { IsTrue is_last → after_field self octets.now ≡ [] }
        ensures ok { OnOk result (S.takes out.old (field_text (field_at self octets.now)) out.new) }
        ensures rest { IfOk result (λ rest. rest.now ≡ after_field self octets.now) }
        ensures err { OnErr result (TakesSome S.takes out.old out.new) }
    {
        match self {
            Field::Name => {
                let (name, rest) = split_name(octets, is_last);
                name.print(out)?;
                Ok(rest)
            }
            Field::Serial | Field::Time => {
                let (number, rest) = octets.split_at(4);
                push_decimal(BigEndian::read_u32(number), out)?;
                Ok(rest)
            }
            Field::U16 => {
                let (number, rest) = octets.split_at(2);
                push_decimal(u32::from(BigEndian::read_u16(number)), out)?;
                Ok(rest)
            }
            Field::Octets(count) => {
                let (address, rest) = octets.split_at(count);
                push_address_text(address, out)?;
                Ok(rest)
            }
            Field::OneString => {
                let (string, rest) = split_string(octets);
                push_string_text(string, out)?;
                Ok(rest)
            }
            Field::Strings => {
                push_strings_text(octets, out)?;
                Ok(octets.split_at(octets.len()).1)
            }
        }
    }

    /// Whether the part is one for the field.
    pub(crate) fn suits(self, part: Part) -> bool
        ensures { IsTrue result ↔ Suits (Some self) (value_of part.entry) }
    {
        match (self, part) {
            (Field::Octets(count), Part::Octets(octets)) => octets.len() == count && count > 0,
            (Field::U16, Part::U16(_)) => true,
            (Field::Serial | Field::Time, Part::U32(_)) => true,
            (Field::Name, Part::Name(_)) => true,
            (Field::OneString | Field::Strings, Part::String(_)) => true,
            _ => false,
        }
    }
}
