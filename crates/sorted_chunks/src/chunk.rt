ghost use Rattle.std.specs.Prelude.{◌≡◌, ◌++◌, ◌∷◌, ◌-◌, ◌<◌, ◌≤◌, [], length, take, drop, insert, slice_index_or, IfOk, OnOk, OnErr};
ghost use Rattle.sorted_chunks.specs.Machine.Halves.{AreHalves};

use std::alloc::{AllocError, Global};
use std::marker::Model;

/// A part of a list that is never empty: its first element stands beside the others. Contracts see
/// all of them.
#[derive(Drop)]
pub struct Chunk<T> {
    pub(crate) head: T,
    pub(crate) rest: Vec<T>,
}

impl<T> Model for Chunk<T> {
    ghost use Rattle.std.specs.Prelude.{List, ◌∷◌};

    ghost Value = { List T };

    ghost view = { λ c. c.head ∷ c.rest.items };
}

impl<T: Copy> Chunk<T> {
    /// How many elements there are.
    pub(crate) fn len(&self) -> usize
        ensures { result ≡ length self.now }
    {
        self.rest.len() + 1
    }

    /// The element at a place.
    pub(crate) fn get(&self, offset: usize) -> &T
        requires { offset < length self.now }
        ensures { result.now ≡ slice_index_or self.now offset result.now }
    {
        if offset == 0 {
            &self.head
        } else {
            &self.rest[offset - 1]
        }
    }

    /// The last element.
    pub(crate) fn last(&self) -> &T
        ensures { result.now ≡ slice_index_or self.now (length self.now - 1) result.now }
    {
        self.get(self.rest.len())
    }

    /// Puts an element at a place. Where there is no room, room for `room` elements is made.
    ///
    /// # Errors
    ///
    /// `AllocError` where memory is refused. The chunk is unchanged.
    #[tactic(auto, using(crate::proofs::Halving::insert_after_head))]
    pub(crate) fn insert(&mut self, offset: usize, value: T, room: usize) -> Result<(), AllocError>
        requires { offset ≤ length self.old }
        ensures taken { OnOk result (self.new ≡ insert self.old offset value) }
        ensures unchanged { OnErr result (self.new ≡ self.old) }
    {
        if self.rest.len() == self.rest.capacity() {
            self.rest.reserve_exact(room)?;
        }
        if offset == 0 {
            self.rest.insert(0, self.head)?;
            self.head = value;
        } else {
            self.rest.insert(offset - 1, value)?;
        }
        Ok(())
    }

    /// The elements and one more at a place, in two chunks of about half of them.
    ///
    /// # Errors
    ///
    /// `AllocError` where memory is refused.
    pub(crate) fn halves(
        &self,
        alloc: Global,
        offset: usize,
        value: T,
        room: usize,
    ) -> Result<(Chunk<T>, Chunk<T>), AllocError>
        requires place { offset ≤ length self.now }
        requires many { 2 ≤ length self.now }
        ensures { IfOk result (λ two. AreHalves two.0 two.1 self.now offset value) }
    {
        let middle = self.len() / 2;
        let (mut lower, mut upper) = self.cut(alloc, middle, room)?;
        if offset <= middle {
            lower.insert(offset, value, room)?;
            return Ok((lower, upper));
        }
        upper.insert(offset - middle, value, room)?;
        Ok((lower, upper))
    }

    /// The first `middle` elements and the others, in two chunks, with room for more in each.
    ///
    /// # Errors
    ///
    /// `AllocError` where memory is refused.
    fn cut(
        &self,
        alloc: Global,
        middle: usize,
        room: usize,
    ) -> Result<(Chunk<T>, Chunk<T>), AllocError>
        requires some { 1 ≤ middle }
        requires others { middle < length self.now }
        ensures lower { IfOk result (λ two. two.0 ≡ take middle self.now) }
        ensures upper { IfOk result (λ two. two.1 ≡ drop middle self.now) }
    {
        let (front, back) = self.rest.as_slice().split_at(middle - 1);
        let lower = copy_with_room(alloc, front, room)?;
        let upper = copy_with_room(alloc, &back[1..], room)?;
        let lower = Chunk {
            head: self.head,
            rest: lower,
        };
        let upper = Chunk {
            head: back[0],
            rest: upper,
        };
        Ok((lower, upper))
    }
}

/// A copy of these elements, with room for `room` more.
///
/// # Errors
///
/// `AllocError` where memory is refused.
fn copy_with_room<T: Copy>(alloc: Global, elements: &[T], room: usize) -> Result<Vec<T>, AllocError>
    ensures { IfOk result (λ copy. copy.items ≡ elements.now) }
{
    let mut copy = Vec::with_capacity(alloc, elements.len().saturating_add(room))?;
    copy.extend_from_slice(elements)?;
    Ok(copy)
}
