//! Lines in words.
ghost use Rattle.std.specs.Prelude.{◌≡◌, ◌++◌, ◌∷◌, ℕ, List, [], IfOk, Ok, OnErr, OnOk, false, length, map, true};
ghost use Rattle.words_print.specs.Machine.Found.{DoesNotFit, FoundIn, HasData, HasNoData, HoldsNothing, IsCanonicalLine, StatesInFew, with_octets};
ghost use Rattle.words_print.specs.Shown.{Fits, IsRecordInWords, IsShownLine, another_origin};
ghost use Rattle.zone_name.specs.Common.{AreOctets};
ghost use Rattle.zone_rdata.specs.Item.{raw};
ghost use Rattle.zone_text.specs.FirstEntry.{IsFirstEntry};
ghost use Rattle.zone_words.specs.Entry.{IsRewriting};
ghost use Rattle.type_data.specs.Fault.{AppendsStated};
ghost use Rattle.type_data.specs.PrintedData.{AreItsWords, AreOfAType, HasNoWords};
ghost use Rattle.type_data.specs.Table.{of_code};

use crate::canonical_head::{are_owner_and_ttl, is_plain_word};
use crate::class_stated::{ClassStated, class_stated, room_for_items};
use crate::generic_line::{GenericLine, generic_line};
use std::alloc::{AllocError, Global};
use type_data::{Unprinted, print_data};
use zone_name::CasedName;
use zone_name::laws::are_octets;
use zone_rdata::{Item, push_octets_of_hex};
use zone_words::laws::rewriting_is_unique;
use zone_words::laws::words::{a_line_in_words_is_rewritten, the_words_of_data};
use zone_words::{Rewriter, push_generic};

/// A printer of lines in words. It keeps the room that it needs from line to line, and nothing in
/// it.
#[derive(Drop)]
pub(crate) struct LinePrinter {
    alloc: Global,
    /// Reads what is printed, where the line isn't one of a canonical text.
    reader: Rewriter,
    /// The octets of a record's data.
    octets: Vec<u8>,
    /// Their words.
    words: Vec<u8>,
    /// The line in words.
    shown: Vec<u8>,
    /// The line as it has to be if it ends with these octets.
    wanted: Vec<u8>,
}

/// Whether what was read is rewritten as this, and nothing is told of it.
fn has_read(reader: &Rewriter, wanted: &[u8]) -> bool
    ensures yes { result ≡ true → (reader.now.held.told.count ≡ 0)
        × (reader.now.held.written ≡ wanted.now) }
    ensures no { result ≡ false → reader.now.held.told.count ≡ 0
        → reader.now.held.written ≡ wanted.now → ⊥ }
{
    reader.refusals().count == 0 && reader.written() == wanted
}

/// Whether a text that is one entry, of which these items are kept, is rewritten under an origin as
/// another one, and nothing is told of it.
fn is_rewritten(
    reader: &mut Rewriter,
    origin: &CasedName,
    text: &[u8],
    items: &[Item],
    wanted: &[u8],
) -> Result<bool, AllocError>
    requires { IsFirstEntry text.now (length text.now) (map raw items.now) }
    ensures yes { result ≡ Ok true → IsRewriting origin.now text.now wanted.now [] }
    ensures no { result ≡ Ok false → IsRewriting origin.now text.now wanted.now [] → ⊥ }
{
    reader.rewrite_entry(origin, text, items)?;
    Ok(has_read(reader, wanted))
}

/// The origin `x.`, which isn't the root.
fn other_origin() -> CasedName
    ensures { result ≡ another_origin }
{
    let mut origin = CasedName::root();
    let _ = origin.set_from_text(b"x.", None);
    origin
}

/// Whether a text is one record that states its class, and is rewritten under the root as another
/// one, and under another origin as the same, as a record without relative names is.
fn is_in_words(
    alloc: Global,
    reader: &mut Rewriter,
    text: &[u8],
    wanted: &[u8],
) -> Result<bool, AllocError>
    requires { StatesInFew wanted.now }
    ensures yes { result ≡ Ok true → IsRecordInWords wanted.now text.now }
    ensures no { result ≡ Ok false → IsRecordInWords wanted.now text.now → ⊥ }
{
    let mut items = room_for_items(alloc)?;
    let ClassStated::Yes = class_stated(text, &mut items)? else {
        return Ok(false);
    };
    if !is_rewritten(reader, &CasedName::root(), text, &items, wanted)? {
        return Ok(false);
    }
    is_rewritten(reader, &other_origin(), text, &items, wanted)
}

/// Whether a line is one of a canonical text: an owner, a TTL and a class word, and a line feed at
/// the end.
fn is_canonical(found: &GenericLine) -> bool
    ensures { result ≡ true → IsCanonicalLine found.now }
{
    !found.end.is_empty() && is_plain_word(found.class) && are_owner_and_ttl(found.ahead)
}

impl LinePrinter {
    /// A printer without any room yet.
    pub(crate) fn new(alloc: Global) -> LinePrinter
        ensures { HoldsNothing result }
    {
        LinePrinter {
            alloc,
            reader: Rewriter::new(alloc, &CasedName::root()),
            octets: Vec::new(alloc),
            words: Vec::new(alloc),
            shown: Vec::new(alloc),
            wanted: Vec::new(alloc),
        }
    }

    /// Lets go of all that it has of a line.
    fn let_go(&mut self)
        ensures { HoldsNothing self.new }
    {
        self.octets.clear();
        self.words.clear();
        self.shown.clear();
        self.wanted.clear();
    }

    /// Whether the line ends with the octets that it has, in the generic form.
    fn has_octets(&mut self, line: &[u8], found: &GenericLine) -> Result<bool, AllocError>
        ensures yes { result ≡ Ok true
            → line.now ≡ with_octets found.now self.new.octets.items }
        ensures no { result ≡ Ok false
            → line.now ≡ with_octets found.now self.old.octets.items → ⊥ }
        ensures octets { self.new.octets.items ≡ self.old.octets.items }
        ensures each { OnOk result (AreOctets self.new.octets.items) }
    {
        self.wanted.clear();
        self.wanted.extend_from_slice(found.stem)?;
        self.wanted.push(b' ')?;
        push_generic(found.further.number, &self.octets, &mut self.wanted)?;
        self.wanted.extend_from_slice(found.end)?;
        are_octets(&self.octets);
        Ok(self.wanted.as_slice() == line)
    }

    /// Puts the octets with which the line ends in place of those that it had. `false`: it ends
    /// with no octets in the generic form.
    fn find_octets(&mut self, line: &[u8], found: &GenericLine) -> Result<bool, AllocError>
        requires { FoundIn line.now found.now }
        ensures yes { result ≡ Ok true → HasData line.now found.now self.new.octets.items }
        ensures no { result ≡ Ok false → HasNoData line.now }
    {
        self.octets.clear();
        if !push_octets_of_hex(found.digits, &mut self.octets)? {
            return Ok(false);
        }
        self.has_octets(line, found)
    }

    /// Puts the words of the line's data in place of what `words` held. `false`: no items state the
    /// octets.
    fn find_words(&mut self, found: &GenericLine) -> Result<bool, AllocError>
        requires { AreOfAType (of_code found.now.further.now.fields) }
        ensures yes { result ≡ Ok true → AreItsWords (of_code found.now.further.now.fields)
            self.old.octets.items self.new.words.items }
        ensures no { result ≡ Ok false
            → HasNoWords (of_code found.now.further.now.fields) self.old.octets.items }
        ensures octets { self.new.octets.items ≡ self.old.octets.items }
    {
        match print_data(found.further.fields, &self.octets, &mut self.words) {
            Ok(()) => Ok(true),
            Err(Unprinted::NoData) => Ok(false),
            Err(Unprinted::OutOfMemory) => Err(AllocError),
        }
    }

    /// Puts the line in words in place of what `shown` held.
    fn put_shown(&mut self, found: &GenericLine) -> Result<(), AllocError>
        ensures shown { OnOk result (self.new.shown.items ≡ (found.now.stem.now ++ 32 ∷ [])
            ++ (found.now.further.now.mnemonic.now ++ (self.old.words.items
            ++ found.now.end.now))) }
        ensures octets { self.new.octets.items ≡ self.old.octets.items }
        ensures words { self.new.words.items ≡ self.old.words.items }
    {
        self.shown.clear();
        self.shown.extend_from_slice(found.stem)?;
        self.shown.push(b' ')?;
        self.shown
            .extend_from_slice(found.further.mnemonic.as_bytes())?;
        self.shown.extend_from_slice(&self.words)?;
        self.shown.extend_from_slice(found.end)
    }

    /// Whether the line, if it is one record that states its class, is the record that it is in
    /// words.
    fn fits(&mut self, line: &[u8], found: &GenericLine) -> Result<bool, AllocError>
        requires canonical { IsCanonicalLine found.now → Fits line.now self.old.shown.items }
        ensures yes { result ≡ Ok true → Fits line.now self.new.shown.items }
        ensures no { result ≡ Ok false → DoesNotFit line.now self.old.shown.items }
        ensures shown { self.new.shown.items ≡ self.old.shown.items }
    {
        if is_canonical(found) {
            return Ok(true);
        }
        let mut items = room_for_items(self.alloc)?;
        match class_stated(line, &mut items)? {
            ClassStated::No => Ok(true),
            ClassStated::Untold => Ok(false),
            ClassStated::Yes => is_in_words(self.alloc, &mut self.reader, &self.shown, line),
        }
    }

    /// Whether the line is shown in words, which come in place of what `shown` held. `false`: it
    /// stays.
    fn shows(&mut self, line: &[u8]) -> Result<bool, AllocError>
        ensures yes { result ≡ Ok true → IsShownLine line.now self.new.shown.items }
        ensures no { result ≡ Ok false → IsShownLine line.now line.now }
    {
        let Some(found) = generic_line(line) else {
            return Ok(false);
        };
        if !self.find_octets(line, &found)? {
            return Ok(false);
        }
        if !self.find_words(&found)? {
            return Ok(false);
        }
        self.put_shown(&found)?;
        a_line_in_words_is_rewritten();
        the_words_of_data();
        self.fits(line, &found)
    }

    /// Appends what is shown for a line.
    fn append_shown(&mut self, line: &[u8], out: &mut Vec<u8>) -> Result<(), AllocError>
        ensures shown { OnOk result
            (AppendsStated (IsShownLine line.now) out.old.items out.new.items) }
        ensures err { OnErr result (out.new.items ≡ out.old.items) }
    {
        if self.shows(line)? {
            out.extend_from_slice(&self.shown)
        } else {
            out.extend_from_slice(line)
        }
    }

    /// Appends what is shown for a line, of which the printer keeps nothing.
    ///
    /// # Errors
    ///
    /// `AllocError`, and nothing is appended.
    pub(crate) fn push_line(&mut self, line: &[u8], out: &mut Vec<u8>) -> Result<(), AllocError>
        ensures shown { OnOk result
            (AppendsStated (IsShownLine line.now) out.old.items out.new.items) }
        ensures err { OnErr result (out.new.items ≡ out.old.items) }
        ensures nothing { HoldsNothing self.new }
    {
        let answer = self.append_shown(line, out);
        self.let_go();
        answer
    }
}

/// What is shown for a line, with its line feed if it has one. Where it ends with a class word, the
/// type `TYPEn` of a further type and the generic form of octets as it is printed (RFC 3597 5), the
/// type gets its mnemonic and the octets the words that are printed for them. The line stays where
/// it ends with none, where no items state the octets, where it is a record of which they aren't
/// the data, and where it is one entry of very many items. All before the type stays.
///
/// # Errors
///
/// `AllocError`.
pub fn print_line(alloc: Global, line: &[u8]) -> Result<Vec<u8>, AllocError>
    ensures { IfOk result (λ shown. IsShownLine line.now shown.items) }
{
    let mut shown = Vec::new(alloc);
    LinePrinter::new(alloc).push_line(line, &mut shown)?;
    Ok(shown)
}
