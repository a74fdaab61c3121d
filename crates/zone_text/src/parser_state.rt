ghost use Rattle.std.specs.Prelude.{◌≡◌, List, [], map, None, Some, IfErr, IfOk, OnErr, OnOk};
ghost use Rattle.zone_name.specs.Common.{Labels};
ghost use Rattle.zone_name.specs.Spelling.{SpellingFault};
ghost use Rattle.zone_rdata.specs.Cause.{fault_for};
ghost use Rattle.zone_rdata.specs.Fault.{IfFault};
ghost use Rattle.zone_rdata.specs.Item.{raw};
ghost use Rattle.zone_text.specs.ParserState.{IsStateAfter};
ghost use Rattle.zone_text.specs.Entries.{Entry};
ghost use Rattle.zone_text.specs.EntryFault.{EntryFault};
ghost use Rattle.zone_text.specs.FileReads.{Ending};
ghost use Rattle.zone_text.specs.Statements.{statement_of};
ghost use Rattle.zone_text.specs.Machine.EntryReading.{DecidesEntry, LeavesNoRecord, SetsOwner, one_bare};
ghost use Rattle.zone_text.specs.Stated.{directive_in, statement_in};

mod record;

use crate::statements::{Directive, Statement};
use crate::words::{split_bare, ttl_in};
use std::alloc::{AllocError, Global};
use zone_name::{Name, NameFault};
use zone_rdata::{
    Cause, Class, Fault, Item, NarrowFailing, PendingRecords, Place, Rdata, RecordQueue,
};

/// What the entries of a master file leave to those after them (RFC 1035 5.1, RFC 2308 4).
#[derive(Debug, Drop)]
pub(crate) struct ParserState {
    /// The origin of relative names.
    pub(crate) origin: Name,
    /// The last owner that a record stated.
    pub(crate) owner: Option<Name>,
    /// The last class that a record stated, or IN.
    pub(crate) class: Class,
    /// The TTL of the last `$TTL`, in seconds.
    pub(crate) default_ttl: Option<u32>,
    /// The last TTL that a record stated, in seconds.
    pub(crate) last_ttl: Option<u32>,
    /// The MINIMUM of the last SOA, in seconds.
    pub(crate) minimum: Option<u32>,
    /// Data whose memory the next record's takes.
    rdata: Rdata,
}

/// The text of the one item of a directive.
///
/// # Errors
///
/// `BadDirective` where there isn't exactly one item or it is quoted.
fn one_bare<'t>(items: &[Item<'t>]) -> Result<&'t [u8], Cause>
    ensures found { IfOk result (λ text. one_bare (map raw items.now) ≡ Some text.now) }
    ensures fault { IfErr result (λ cause. (fault_for cause ≡ Fault.BadDirective)
        × (one_bare (map raw items.now) ≡ None)) }
{
    match split_bare(items) {
        Some((text, [])) => Ok(text),
        _ => Err(Cause::BadDirective),
    }
}

impl ParserState {
    /// What the first entry of a file finds, under the origin that is handed in with the file.
    pub(crate) fn new(alloc: Global, origin: &Name) -> ParserState
        ensures { IsStateAfter origin.now [] result }
    {
        ParserState {
            origin: origin.copy(),
            owner: None,
            class: Class::internet(),
            default_ttl: None,
            last_ttl: None,
            minimum: None,
            rdata: Rdata::empty(alloc),
        }
    }

    /// Reads the entry after those before it, and takes what it decides into `decided`: the record
    /// that it states, with its place; or its first fault; or nothing, as of a blank entry,
    /// `$ORIGIN` and `$TTL`. After a fault the state says nothing.
    // Records and faults hold names, and are wide. So they are written where they go, and not
    // handed up.
    pub(crate) fn read(
        &mut self,
        parsed: Statement,
        place: Place,
        decided: &mut PendingRecords,
    ) -> Result<(), AllocError>
        ensures { (origin : Labels) (before : List Entry) (entry : Entry)
            → IsStateAfter origin before self.old → statement_of entry ≡ statement_in parsed.entry
            → OnOk result
            (DecidesEntry origin before entry place decided.old decided.new self.new) }
    {
        match self.take(parsed, place, &mut decided.placed) {
            Ok(()) => Ok(()),
            Err(failing) => decided.refuse(failing, place),
        }
    }

    /// Takes what an entry states: a record comes after others.
    ///
    /// # Errors
    ///
    /// The first fault of the entry, and `Memory`. The others are unchanged.
    fn take(
        &mut self,
        parsed: Statement,
        place: Place,
        others: &mut RecordQueue,
    ) -> Result<(), NarrowFailing>
        ensures found { (origin : Labels) (before : List Entry) (entry : Entry) (ending : Ending)
            → IsStateAfter origin before self.old → statement_of entry ≡ statement_in parsed.entry
            → OnOk result (DecidesEntry origin before entry place
            (record { placed = others.old; ending = ending })
            (record { placed = others.new; ending = ending }) self.new) }
        ensures fault { (origin : Labels) (before : List Entry) (entry : Entry)
            → IsStateAfter origin before self.old → statement_of entry ≡ statement_in parsed.entry
            → IfErr result (IfFault (EntryFault origin before entry)) }
        ensures unchanged { OnErr result (others.new ≡ others.old) }
    {
        match parsed {
            Statement::Blank => Ok(()),
            Statement::Directive(directive) => Ok(self.follow(directive)?),
            Statement::Owned(owner, items) => {
                let Item::Bare(text) = owner else {
                    return Err(NarrowFailing::of(Cause::NoOwner));
                };
                self.set_owner(text)?;
                self.append_record(items, place, others)
            }
            Statement::Unowned(items) => self.append_record(items, place, others),
        }
    }

    /// Follows a directive, which states no record: takes the origin of `$ORIGIN` (RFC 1035 5.1) and
    /// the TTL of `$TTL` (RFC 2308 4).
    ///
    /// # Errors
    ///
    /// `BadDirective`, the faults of the name of `$ORIGIN`, `BadTtl` for a text that is no time or is
    /// over 2147483647, and `IncludeDirective` and `UnknownDirective`.
    #[inline(never)]
    fn follow(&mut self, directive: Directive) -> Result<(), Cause>
        ensures found { (origin : Labels) (before : List Entry) (entry : Entry)
            → IsStateAfter origin before self.old
            → statement_of entry ≡ directive_in directive.entry
            → OnOk result (LeavesNoRecord origin before entry self.new) }
        ensures fault { (origin : Labels) (before : List Entry) (entry : Entry)
            → IsStateAfter origin before self.old
            → statement_of entry ≡ directive_in directive.entry
            → IfErr result (λ cause. EntryFault origin before entry (fault_for cause)) }
    {
        match directive {
            Directive::Origin(items) => {
                let text = one_bare(items)?;
                self.origin = Name::from_text(text, Some(&self.origin))?;
                Ok(())
            }
            Directive::Ttl(items) => {
                let text = one_bare(items)?;
                self.default_ttl = Some(ttl_in(text)?);
                Ok(())
            }
            Directive::Include => Err(Cause::IncludeDirective),
            Directive::Unknown => Err(Cause::UnknownDirective),
        }
    }

    /// Takes the owner that a text spells, in place of the last one.
    ///
    /// # Errors
    ///
    /// The faults of the name. The owner then says nothing.
    fn set_owner(&mut self, text: &[u8]) -> Result<(), NameFault>
        ensures found { OnOk result (SetsOwner text.now self.old self.new) }
        ensures fault { IfErr result (SpellingFault (Some self.old.origin) text.now) }
    {
        match &mut self.owner {
            Some(owner) => owner.set_from_text(text, Some(&self.origin)),
            None => {
                self.owner = Some(Name::from_text(text, Some(&self.origin))?);
                Ok(())
            }
        }
    }
}
