ghost use Rattle.std.specs.Prelude.{◌≡◌, [], ◌++◌, length, IfOk, IfSome, OnOk};
ghost use Rattle.zone_name.specs.Text.{name_text};
ghost use Rattle.zone_print.specs.Canonical.{line};
ghost use Rattle.zone_print.specs.Machine.Middle.{HoldsMiddle};
ghost use Rattle.zone_rdata.specs.Lent.{record_of};

use crate::line::{push_before_kind, push_data, push_kind};
use crate::text_buffer::TextBuffer;
use std::alloc::{AllocError, Global};
use std::marker::Model;
use zone_name::{NameRef, Sink};
use zone_rdata::{Class, Kind, RrRef};

/// What a line may have in common with the next one.
#[derive(Drop)]
struct Head<'z> {
    owner: NameRef<'z>,
    ttl: u32,
    class: Class,
    kind: Kind,
}

/// Lines that are gathered. What a line has in common with the one before it is copied.
#[derive(Drop)]
pub(crate) struct LineBuffer<'z> {
    octets: TextBuffer,
    /// The last line's; `None` where `owner` and `middle` are those of no line.
    last: Option<Head<'z>>,
    /// The text of its owner.
    owner: TextBuffer,
    /// What stands between its owner and its data.
    middle: TextBuffer,
    /// How many octets of that stand before the type.
    before_kind: usize,
}

impl<'z> Model for LineBuffer<'z> {
    ghost use Rattle.std.specs.Prelude.{◌≡◌, List, ℕ, IfSome};
    ghost use Rattle.zone_name.specs.Text.{name_text};
    ghost use Rattle.zone_print.specs.Machine.Middle.{HoldsMiddle};

    ghost Value = { List ℕ };

    ghost view = { λ b. b.octets };

    ghost invariant = { λ b. IfSome b.last (λ h. (b.owner ≡ name_text h.owner)
        × HoldsMiddle b.middle b.before_kind h.ttl h.class h.kind) };
}

impl<'z> LineBuffer<'z> {
    /// No line.
    pub(crate) fn new(alloc: Global) -> LineBuffer<'z>
        ensures { result ≡ [] }
    {
        LineBuffer {
            octets: TextBuffer::new(alloc),
            last: None,
            owner: TextBuffer::new(alloc),
            middle: TextBuffer::new(alloc),
            before_kind: 0,
        }
    }

    /// No line, with room for lines of so many octets.
    ///
    /// # Errors
    ///
    /// Want of memory.
    pub(crate) fn with_capacity(alloc: Global, len: usize) -> Result<LineBuffer<'z>, AllocError>
        ensures { IfOk result (λ buffer. buffer ≡ []) }
    {
        Ok(LineBuffer {
            octets: TextBuffer::with_capacity(alloc, len)?,
            last: None,
            owner: TextBuffer::new(alloc),
            middle: TextBuffer::new(alloc),
            before_kind: 0,
        })
    }

    /// The lines, which are owned from then on.
    pub(crate) fn into_octets(self) -> Vec<u8>
        ensures { result.items ≡ self.entry }
    {
        self.octets.into_octets()
    }

    /// The lines.
    pub(crate) fn as_slice(&self) -> &[u8]
        ensures value { result.now ≡ self.now }
    {
        self.octets.as_slice()
    }

    /// How many octets the lines have.
    pub(crate) fn len(&self) -> usize
        ensures { result ≡ length self.now }
    {
        self.octets.len()
    }

    /// Drops the lines.
    pub(crate) fn clear(&mut self)
        ensures items { self.new ≡ [] }
    {
        self.octets.clear();
    }

    /// Appends the record's line.
    ///
    /// # Errors
    ///
    /// Want of memory. A prefix of the line may have been appended.
    pub(crate) fn push_record(&mut self, rr: RrRef<'z>) -> Result<(), AllocError>
        ensures { OnOk result (self.new ≡ self.old ++ line (record_of rr.entry)) }
    {
        let (owner, middle) = (&mut self.owner, &mut self.middle);
        match hold_head(owner, middle, self.before_kind, &self.last, &rr) {
            Ok(before_kind) => self.before_kind = before_kind,
            Err(refused) => {
                self.last = None;
                return Err(refused);
            }
        }
        self.last = Some(Head {
            owner: rr.owner.copy(),
            ttl: rr.ttl,
            class: rr.class,
            kind: rr.kind,
        });
        self.octets.push(self.owner.as_slice())?;
        self.octets.push(self.middle.as_slice())?;
        push_data(&mut self.octets, &rr)
    }
}

/// Makes the texts the record's owner and what stands between that and its data, and tells how many
/// octets of this stand before the type.
fn hold_head(
    owner: &mut TextBuffer,
    middle: &mut TextBuffer,
    before_kind: usize,
    last: &Option<Head>,
    rr: &RrRef,
) -> Result<usize, AllocError>
    requires owner { IfSome last.now (λ last. owner.old ≡ name_text last.owner) }
    requires middle { IfSome last.now (λ last.
        HoldsMiddle middle.old before_kind last.ttl last.class last.kind) }
    ensures owner { OnOk result (owner.new ≡ name_text rr.now.owner) }
    ensures middle { IfOk result (λ n.
        HoldsMiddle middle.new n rr.now.ttl rr.now.class rr.now.kind) }
{
    hold_owner(owner, last, rr)?;
    hold_middle(middle, before_kind, last, rr)
}

/// Makes the text that of the record's owner, where it isn't already the last one's.
fn hold_owner(text: &mut TextBuffer, last: &Option<Head>, rr: &RrRef) -> Result<(), AllocError>
    requires { IfSome last.now (λ last. text.old ≡ name_text last.owner) }
    ensures { OnOk result (text.new ≡ name_text rr.now.owner) }
{
    if let Some(last) = last {
        if last.owner.is_same(&rr.owner) {
            return Ok(());
        }
    }
    text.clear();
    rr.owner.print(text)
}

/// Makes the text what stands between the record's owner and its data, and tells how many octets
/// of it stand before the type. What is already the last one's stays.
#[tactic(auto, using(crate::proofs::Lines::middle_kept))]
fn hold_middle(
    text: &mut TextBuffer,
    before_kind: usize,
    last: &Option<Head>,
    rr: &RrRef,
) -> Result<usize, AllocError>
    requires { IfSome last.now (λ last.
        HoldsMiddle text.old before_kind last.ttl last.class last.kind) }
    ensures { IfOk result (λ n.
        HoldsMiddle text.new n rr.now.ttl rr.now.class rr.now.kind) }
{
    if let Some(last) = last {
        if last.ttl == rr.ttl && last.class == rr.class {
            if last.kind == rr.kind {
                return Ok(before_kind);
            }
            text.truncate(before_kind);
            push_kind(text, rr)?;
            return Ok(before_kind);
        }
    }
    text.clear();
    push_before_kind(text, rr)?;
    let before_kind = text.len();
    push_kind(text, rr)?;
    Ok(before_kind)
}
