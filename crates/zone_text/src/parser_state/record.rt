ghost use Rattle.zone_text.specs.Statements.{statement_of};
ghost use Rattle.std.specs.Prelude.{◌≡◌, List, map, IfOk, IfErr, OnOk, OnErr};
ghost use Rattle.zone_name.specs.Common.{Labels};
ghost use Rattle.zone_rdata.specs.Cause.{fault_for};
ghost use Rattle.zone_rdata.specs.Fault.{IfFault};
ghost use Rattle.zone_rdata.specs.Item.{raw};
ghost use Rattle.zone_text.specs.ParserState.{IsTtlOrNone};
ghost use Rattle.zone_text.specs.Entries.{Entry};
ghost use Rattle.zone_text.specs.EntryFault.{EntryFault};
ghost use Rattle.zone_text.specs.Inherited.{ttl_text};
ghost use Rattle.zone_text.specs.Records.{HasHead};
ghost use Rattle.zone_text.specs.Machine.EntryReading.{AppendsRecord, HasOwnerOrNone, IsRecordEntry};

use super::ParserState;
use crate::laws::entry::lower_laws;
use crate::words::{split_bare, words_of};
use zone_rdata::{Cause, Class, Item, Kind, MAX_TTL, NarrowFailing, Place, RecordQueue};

/// What a record states after its owner.
#[derive(Drop)]
struct Head<'i, 't> {
    /// The TTL that the record states, in seconds.
    ttl: Option<u32>,
    /// The class that the record states or inherits.
    class: Class,
    kind: Kind,
    /// The items of its data.
    items: &'i [Item<'t>],
}

impl ParserState {
    /// Appends the record of the last owner and of these items after it to others.
    ///
    /// # Errors
    ///
    /// The first fault after the owner, or that there is no owner, and `Memory`. The others are
    /// unchanged.
    #[inline(never)]
    pub(super) fn append_record(
        &mut self,
        items: &[Item],
        place: Place,
        others: &mut RecordQueue,
    ) -> Result<(), NarrowFailing>
        ensures found { (origin : Labels) (before : List Entry) (entry : Entry)
            → HasOwnerOrNone origin before entry self.old (map raw items.now) → OnOk result
            (AppendsRecord origin before entry place others.old others.new self.new) }
        ensures fault { (origin : Labels) (before : List Entry) (entry : Entry)
            → HasOwnerOrNone origin before entry self.old (map raw items.now)
            → IfErr result (IfFault (EntryFault origin before entry)) }
        ensures unchanged { OnErr result (others.new ≡ others.old) }
    {
        lower_laws();
        // Read before the owner is borrowed. That there is none is told first.
        let read = self.head_of(items);
        let Some(owner) = &self.owner else {
            return Err(NarrowFailing::of(Cause::NoOwner));
        };
        let head = match read {
            Ok(head) => head,
            Err(cause) => return Err(NarrowFailing::of(cause)),
        };
        self.rdata
            .set_from_items(head.class, head.kind, head.items, &self.origin)?;
        let stated = head.ttl.or(self.default_ttl).or(self.last_ttl);
        let minimum = self.rdata.soa_minimum().or(self.minimum);
        let Some(ttl) = stated.or(minimum) else {
            return Err(NarrowFailing::of(Cause::NoTtl));
        };
        if ttl > MAX_TTL {
            return Err(NarrowFailing::of(Cause::BadTtl));
        }
        others.push_exchanged(owner.lend(), ttl, &mut self.rdata, place)?;
        self.class = head.class;
        self.last_ttl = head.ttl.or(self.last_ttl);
        self.minimum = minimum;
        Ok(())
    }

    /// What the items after the owner state before the data.
    ///
    /// # Errors
    ///
    /// `BadTtl` and `BadClass` for the leftmost word before the type without a value; then
    /// `UnknownType` and `MetaType`.
    fn head_of<'i, 't>(&self, items: &'i [Item<'t>]) -> Result<Head<'i, 't>, Cause>
        ensures found { (origin : Labels) (before : List Entry) (entry : Entry) (owner : Labels)
            → IsRecordEntry origin before entry self.now owner (map raw items.now)
            → IfOk result (λ head. HasHead origin before entry owner head.class head.kind
            (map raw head.items.now) × IsTtlOrNone (ttl_text (statement_of entry)) head.ttl) }
        ensures fault { (origin : Labels) (before : List Entry) (entry : Entry) (owner : Labels)
            → IsRecordEntry origin before entry self.now owner (map raw items.now)
            → IfErr result (λ cause. EntryFault origin before entry (fault_for cause)) }
    {
        let (words, count) = words_of(items)?;
        let (_, rest) = items.split_at(count);
        let Some((word, rdata)) = split_bare(rest) else {
            return Err(Cause::UnknownType);
        };
        let kind = Kind::read_word(word)?;
        kind.known();
        Ok(Head {
            ttl: words.ttl,
            class: words.class.unwrap_or(self.class),
            kind,
            items: rdata,
        })
    }
}
