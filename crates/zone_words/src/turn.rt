//! What becomes of an entry of a master file (RFC 1035 5.1, RFC 3597 5).
ghost use Rattle.std.specs.Prelude.{◌≡◌, ℕ, ◌<◌, length, map, IfOk, OnOk, OnErr};
ghost use Rattle.std.specs.List.{slice_get};
ghost use Rattle.zone_name.specs.Common.{Labels};
ghost use Rattle.zone_rdata.specs.Item.{raw, IsGeneric};
ghost use Rattle.zone_text.specs.Statements.{statement_by};
ghost use Rattle.zone_words.specs.Machine.Further.{IsForm};
ghost use Rattle.zone_words.specs.Machine.Turn.{AreInWords, StandsBeside, TakesRecordsTurn, TakesTurn, WritesTurn, refusal_in};
ghost use Rattle.zone_words.specs.declared.turn.EntryData.{EntryData};

use crate::entry_form::EntryForm;
use crate::further::{FurtherRecord, are_on_one_line, further_record};
use crate::inherited::Inherited;
use crate::known_items::{around_item, data_items};
use crate::refusal::Refusal;
use crate::writing::Around;
use std::alloc::AllocError;
use type_data::{DataFailing, DataItem, WordsFault, read_data};
use zone_name::CasedName;
use zone_rdata::{Item, is_generic};
use zone_text::MOST_ITEMS;

/// What becomes of an entry.
#[derive(Clone, Copy, Debug)]
pub(crate) enum Turn<'e> {
    /// It stays as it is.
    Stays,
    /// It stays as it is, and this is told.
    Refused(Refusal),
    /// `TYPE` and the number take the place of the type's word.
    Renamed(Around<'e>),
    /// The type and its data in the generic form take the place of the type's word and the items
    /// after it. The data is kept apart.
    InOctets(Around<'e>),
}

/// The data of an entry that is written anew in the generic form.
#[derive(Drop)]
pub(crate) struct EntryData {
    /// The octets that its words state.
    pub(crate) octets: Vec<u8>,
    /// The parentheses, comments and line feeds between its words and after them, which stay.
    pub(crate) staying: Vec<u8>,
}

/// What stands around the word of a record's type in an entry of which these are the items.
fn around_type<'e>(entry: &'e [u8], items: &[Item], found: &FurtherRecord) -> Around<'e>
    requires { length found.now.items.now < length items.now }
    ensures { StandsBeside entry.now (map raw items.now) found.now result }
{
    let (front, back) = around_item(entry, items, items.len() - found.items.len() - 1);
    Around {
        front,
        number: found.further.number,
        back,
    }
}

/// What becomes of a record whose data is in the generic form, of whose entry these items are kept.
fn turn_in_generic_form<'e>(entry: &'e [u8], items: &[Item], found: &FurtherRecord) -> Turn<'e>
    requires { length found.now.items.now < length items.now }
    ensures { (line : ℕ) (above : Labels) (stated : EntryData)
        → IsGeneric (map raw found.now.items.now)
        → TakesRecordsTurn entry.now found.now (map raw items.now) line above stated result }
{
    if items.len() >= MOST_ITEMS {
        return Turn::Stays;
    }
    if !found.has_mnemonic() {
        return Turn::Stays;
    }
    if !are_on_one_line(found.items) {
        return Turn::Stays;
    }
    Turn::Renamed(around_type(entry, items, found))
}

/// What becomes of a record whose data is in words, under the origin that holds for it. The data
/// that it states is put in place of what `stated` held, and the items of the data in place of what
/// `words` held.
fn turn_in_words<'e, 't>(
    entry: &'e [u8],
    items: &[Item],
    found: &FurtherRecord<'_, 't>,
    line: u64,
    above: &CasedName,
    words: &mut Vec<DataItem<'t>>,
    stated: &mut EntryData,
) -> Result<Turn<'e>, AllocError>
    requires { length found.now.items.now < length items.now }
    ensures { AreInWords found.now (map raw items.now) → IfOk result
        (TakesRecordsTurn entry.now found.now (map raw items.now) line above.now stated.new) }
{
    let around = around_type(entry, items, found);
    data_items(around.back, found.items, words, &mut stated.staying)?;
    match read_data(&found.further.fields, words, above, &mut stated.octets) {
        Ok(()) => Ok(Turn::InOctets(around)),
        Err(DataFailing::Fault { field, fault }) => {
            Ok(Turn::Refused(found.refusal(line, field, fault)))
        }
        Err(DataFailing::OutOfMemory) => Err(AllocError),
    }
}

/// What becomes of a record of whose entry these items are kept, under the origin that holds for it.
/// The data that it states is put in place of what `stated` held.
fn turn_of_record<'e, 't>(
    entry: &'e [u8],
    items: &[Item],
    found: &FurtherRecord<'_, 't>,
    line: u64,
    above: &CasedName,
    words: &mut Vec<DataItem<'t>>,
    stated: &mut EntryData,
) -> Result<Turn<'e>, AllocError>
    requires { length found.now.items.now < length items.now }
    ensures { IfOk result
        (TakesRecordsTurn entry.now found.now (map raw items.now) line above.now stated.new) }
{
    if is_generic(found.items) {
        return Ok(turn_in_generic_form(entry, items, found));
    }
    if items.len() >= MOST_ITEMS {
        return Ok(Turn::Refused(found.refusal(line, "data", WordsFault::TooManyItems)));
    }
    if !are_on_one_line(found.items) {
        let fault = WordsFault::LineFeedWithinQuotes;
        return Ok(Turn::Refused(found.refusal(line, "data", fault)));
    }
    turn_in_words(entry, items, found, line, above, words, stated)
}

/// What becomes of the entry on a line, of which these items are kept and which is of this form,
/// where it leaves this to the entries after it. The data that it states is put in place of what
/// `stated` held.
///
/// # Errors
///
/// `AllocError`.
pub(crate) fn turn_of<'e, 't>(
    entry: &'e [u8],
    items: &[Item<'t>],
    form: EntryForm<'_, 't>,
    line: u64,
    left: &Inherited,
    words: &mut Vec<DataItem<'t>>,
    stated: &mut EntryData,
) -> Result<Turn<'e>, AllocError>
    requires { IsForm (statement_by (slice_get entry.now 0) (map raw items.now)) form }
    ensures { IfOk result
        (TakesTurn entry.now (map raw items.now) line left.now stated.new) }
{
    let Some(found) = further_record(form, left.is_internet) else {
        return Ok(Turn::Stays);
    };
    match &left.origin {
        Some(above) => turn_of_record(entry, items, &found, line, above, words, stated),
        None => Ok(Turn::Stays),
    }
}

impl Turn<'_> {
    /// What is told of the entry.
    pub(crate) fn refusal(&self) -> Option<Refusal>
        ensures { result ≡ refusal_in self.now }
    {
        match *self {
            Turn::Stays => None,
            Turn::Refused(refusal) => Some(refusal),
            Turn::Renamed(_) => None,
            Turn::InOctets(_) => None,
        }
    }

    /// Appends what becomes of the entry, with the data that it states. What is written anew is put
    /// together in `scratch`.
    ///
    /// # Errors
    ///
    /// `AllocError`: `out` is unchanged.
    pub(crate) fn push(
        &self,
        entry: &[u8],
        stated: &EntryData,
        scratch: &mut Vec<u8>,
        out: &mut Vec<u8>,
    ) -> Result<(), AllocError>
        ensures ok { OnOk result
            (WritesTurn entry.now stated.now self.now out.old.items out.new.items) }
        ensures err { OnErr result (out.new.items ≡ out.old.items) }
    {
        match *self {
            Turn::Stays => out.extend_from_slice(entry)?,
            Turn::Refused(_) => out.extend_from_slice(entry)?,
            Turn::Renamed(around) => {
                scratch.clear();
                around.push_renamed(scratch)?;
                out.extend_from_slice(scratch)?;
            }
            Turn::InOctets(around) => {
                scratch.clear();
                around.push_in_octets(&stated.octets, &stated.staying, scratch)?;
                out.extend_from_slice(scratch)?;
            }
        }
        Ok(())
    }
}
