ghost use Rattle.std.specs.Prelude.{◌≡◌, ◌≤◌, ◌++◌, [], List, ℕ, length, take, IfOk, OnOk, OnErr};
ghost use Rattle.std.proofs.Common.{◌∙◌, ap, append_assoc, sym};
ghost use Rattle.std.proofs.lemmas.List.{append-nil};

use std::alloc::{AllocError, Global};
use std::marker::Model;
use zone_name::Sink;

/// Text that is gathered. What it grows by is written at once, so to append is to copy and to clear
/// is to forget, where a `Vec` has more to do for a few octets. Contracts see the octets.
#[derive(Drop)]
pub(crate) struct TextBuffer {
    /// The text, and octets after it that say nothing.
    room: Vec<u8>,
    /// How many octets of the room are text.
    len: usize,
}

impl Model for TextBuffer {
    ghost use Rattle.std.specs.Prelude.{◌≤◌, List, ℕ, length, take};

    ghost Value = { List ℕ };

    ghost view = { λ b. take b.len b.room.items };

    ghost invariant = { λ b. b.len ≤ length b.room.items };
}

impl TextBuffer {
    /// No text.
    pub(crate) fn new(alloc: Global) -> TextBuffer
        ensures { result ≡ [] }
    {
        TextBuffer {
            room: Vec::new(alloc),
            len: 0,
        }
    }

    /// No text, with room for so many octets.
    ///
    /// # Errors
    ///
    /// Want of memory.
    pub(crate) fn with_capacity(alloc: Global, len: usize) -> Result<TextBuffer, AllocError>
        ensures { IfOk result (λ buffer. buffer ≡ []) }
    {
        let mut room = Vec::with_capacity(alloc, len)?;
        room.resize(len, 0)?;
        Ok(TextBuffer { room, len: 0 })
    }

    /// The octets, which are owned from then on.
    pub(crate) fn into_octets(self) -> Vec<u8>
        ensures { result.items ≡ self }
    {
        let TextBuffer { mut room, len } = self;
        room.truncate(len);
        room
    }

    /// The octets.
    pub(crate) fn as_slice(&self) -> &[u8]
        ensures value { result.now ≡ self.now }
    {
        &self.room[..self.len]
    }

    /// How many octets there are.
    pub(crate) fn len(&self) -> usize
        ensures { result ≡ length self.now }
    {
        self.len
    }

    /// Drops the octets.
    pub(crate) fn clear(&mut self)
        ensures items { self.new ≡ [] }
    {
        self.len = 0;
    }

    /// Drops the octets after the first `len`.
    pub(crate) fn truncate(&mut self, len: usize)
        ensures items { self.new ≡ take len self.old }
    {
        self.len = self.len.min(len);
    }
}

/// Makes the room twice as long as is needed.
///
/// # Errors
///
/// Want of memory. The room is unchanged.
// Not inlined: nearly all octets find room.
#[cold]
#[inline(never)]
fn grow(room: &mut Vec<u8>, needed: usize) -> Result<(), AllocError>
    requires { length room.old.items ≤ needed }
    ensures enough { OnOk result (needed ≤ length room.new.items) }
    ensures grown { OnOk result ((more : List ℕ) × (room.new.items ≡ room.old.items ++ more)) }
    ensures unchanged { OnErr result (room.new.items ≡ room.old.items) }
{
    room.resize(needed.saturating_mul(2), 0)
}

impl Sink for TextBuffer {
    ghost takes = { λ a x b. b ≡ a ++ x };

    type Error = AllocError;

    #[inline(always)]
    fn push(&mut self, octets: &[u8]) -> Result<(), AllocError> {
        let end = self.len + octets.len();
        if end > self.room.len() {
            grow(&mut self.room, end)?;
        }
        self.room[self.len..end].copy_from_slice(octets);
        self.len = end;
        Ok(())
    }

    ghost nothing = { λ a. sym (append-nil a) };

    ghost joins = { λ a b c x y first second.
        second ∙ ap (λ t. t ++ y) first ∙ append_assoc a x y };
}
