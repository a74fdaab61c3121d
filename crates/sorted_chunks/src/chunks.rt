ghost use Rattle.std.specs.Prelude.{◌≡◌, ◌++◌, ◌∷◌, ◌+◌, ◌-◌, ◌^◌, ◌<◌, ◌≤◌, ◌↔◌, [], List, All, length, min, slice_index_or, IsTrue, IfOk, OnOk, OnErr, MatchOption};
ghost use Rattle.sorted_chunks.specs.Chunks.{after, before, joined, IsParting, IsPlace};

use crate::chunk::Chunk;
use crate::iter::Iter;
use crate::position::Position;
use crate::sought::{AmongChunks, Sought, count_before};
use std::alloc::{AllocError, Global};
use std::marker::Model;

/// A list in order, in chunks, none of them empty. An element that is put into one of `LIMIT` or
/// more cuts it in two, or begins a new one after the last. Contracts see the chunks.
#[derive(Drop)]
pub struct SortedChunks<T, const LIMIT: usize> {
    alloc: Global,
    chunks: Vec<Chunk<T>>,
}

impl<T, const LIMIT: usize> Model for SortedChunks<T, LIMIT> {
    ghost use Rattle.std.specs.Prelude.{List, ◌≤◌};
    ghost use Rattle.sorted_chunks.specs.Chunks.{AreChunks};

    ghost Value = { List (List T) };

    ghost view = { λ s. s.chunks.items };

    ghost invariant = { λ s. (2 ≤ LIMIT) × AreChunks s.chunks.items };
}

impl<T: Copy, const LIMIT: usize> SortedChunks<T, LIMIT> {
    /// No element.
    pub fn new(alloc: Global) -> Self
        requires { 2 ≤ LIMIT }
        ensures { result ≡ [] }
    {
        SortedChunks {
            alloc,
            chunks: Vec::new(alloc),
        }
    }

    /// These elements, in their order. They stand in one chunk, whatever its length.
    ///
    /// # Errors
    ///
    /// `AllocError` where memory is refused.
    pub fn of_sorted(alloc: Global, elements: Vec<T>) -> Result<Self, AllocError>
        requires { 2 ≤ LIMIT }
        ensures { IfOk result (λ chunks. joined chunks ≡ elements.items) }
    {
        let mut chunks = Vec::new(alloc);
        let Some(first) = elements.as_slice().first().copied() else {
            return Ok(SortedChunks { alloc, chunks });
        };
        let mut rest = elements;
        rest.remove(0);
        chunks.push(Chunk { head: first, rest })?;
        Ok(SortedChunks { alloc, chunks })
    }

    /// Whether there is no element.
    pub fn is_empty(&self) -> bool
        ensures { IsTrue result ↔ (joined self.now ≡ []) }
    {
        self.chunks.is_empty()
    }

    /// The elements, from the first.
    pub fn iter(&self) -> Iter<'_, T>
        ensures { result ≡ joined self.now }
    {
        Iter {
            rest: &[],
            chunks: self.chunks.as_slice(),
        }
    }

    /// How many elements there are, or 2^64 - 1 where there are more.
    pub fn len(&self) -> u64
        ensures { result ≡ min (length (joined self.now)) (2 ^ 64 - 1) }
    {
        let mut len: u64 = 0;
        for chunk in self.chunks.as_slice() {
            len = len.saturating_add(chunk.len() as u64);
        }
        len
    }

    /// The place of what is sought, where the elements that it comes after stand first. It is looked
    /// for among the chunks' first elements, and then in a chunk.
    #[tactic(auto, using(crate::proofs::Neighbours::whole_at))]
    pub fn place_of<S: Sought<T>>(&self, sought: &S) -> Position
        requires { All (S.knows sought.now) (joined self.now) }
        ensures place { IsPlace self.now result }
        ensures whole { before self.now result ++ after self.now result ≡ joined self.now }
        ensures parts { IsParting (S.follows sought.now) (joined self.now)
            (before self.now result) (after self.now result) }
    {
        let passed = count_before(self.chunks.as_slice(), &AmongChunks { sought });
        if passed == 0 {
            return Position {
                chunk: 0,
                offset: 0,
            };
        }
        // It comes after the first element of this chunk, and before those of the chunks after it.
        let chunk = passed - 1;
        let offset = count_before(self.chunks[chunk].rest.as_slice(), sought) + 1;
        Position { chunk, offset }
    }

    /// The last element before a place.
    #[tactic(auto, using(crate::proofs::Neighbours::last_neighbours))]
    pub fn last_before(&self, position: Position) -> Option<&T>
        requires { IsPlace self.now position }
        ensures { MatchOption result (before self.now position ≡ [])
            (λ x. (front : List T) × (before self.now position ≡ front ++ x.now ∷ [])) }
    {
        let Position { chunk, offset } = position;
        if offset > 0 {
            return Some(self.chunks[chunk].get(offset - 1));
        }
        if chunk > 0 {
            return Some(self.chunks[chunk - 1].last());
        }
        None
    }

    /// The first element after a place.
    #[tactic(auto, using(crate::proofs::Neighbours::first_in, crate::proofs::Neighbours::lent))]
    pub fn first_after(&self, position: Position) -> Option<&T>
        requires { IsPlace self.now position }
        ensures { MatchOption result (after self.now position ≡ [])
            (λ x. (rest : List T) × (after self.now position ≡ x.now ∷ rest)) }
    {
        let Position { chunk, offset } = position;
        if chunk >= self.chunks.len() {
            return None;
        }
        if offset < self.chunks[chunk].len() {
            return Some(self.chunks[chunk].get(offset));
        }
        if chunk + 1 < self.chunks.len() {
            return Some(&self.chunks[chunk + 1].head);
        }
        None
    }

    /// The last element.
    #[tactic(auto, using(crate::proofs::Neighbours::before_all))]
    pub fn last(&self) -> Option<&T>
        ensures { MatchOption result (joined self.now ≡ [])
            (λ x. (front : List T) × (joined self.now ≡ front ++ x.now ∷ [])) }
    {
        self.last_before(Position {
            chunk: self.chunks.len(),
            offset: 0,
        })
    }

    /// Puts an element at a place.
    ///
    /// # Errors
    ///
    /// `AllocError` where memory is refused. Nothing is changed.
    #[tactic(auto, using(crate::proofs::Placing::joined_past, crate::proofs::Placing::joined_last))]
    pub fn insert(&mut self, position: Position, value: T) -> Result<(), AllocError>
        requires { IsPlace self.old position }
        ensures taken { OnOk result
            (joined self.new ≡ before self.old position ++ value ∷ after self.old position) }
        ensures unchanged { OnErr result (self.new ≡ self.old) }
    {
        let Position { chunk, offset } = position;
        if chunk == self.chunks.len() {
            return self.append(value);
        }
        let len = self.chunks[chunk].len();
        if len < LIMIT {
            self.put(chunk, offset, value)
        } else if offset == len && chunk + 1 == self.chunks.len() {
            // So that elements which come in order fill their chunks.
            self.append(value)
        } else {
            self.split(chunk, offset, value)
        }
    }

    /// Puts an element into a chunk that isn't full.
    ///
    /// # Errors
    ///
    /// `AllocError` where memory is refused. Nothing is changed.
    #[tactic(auto, using(crate::proofs::Placing::joined_put))]
    fn put(&mut self, chunk: usize, offset: usize, value: T) -> Result<(), AllocError>
        requires bound { chunk < length self.old }
        requires place { offset ≤ length (slice_index_or self.old chunk []) }
        requires room { length (slice_index_or self.old chunk []) < LIMIT }
        ensures taken { OnOk result (joined self.new
            ≡ before self.old (record { chunk = chunk; offset = offset })
            ++ value ∷ after self.old (record { chunk = chunk; offset = offset })) }
        ensures unchanged { OnErr result (self.new ≡ self.old) }
    {
        self.chunks[chunk].insert(offset, value, LIMIT / 8 + 1)
    }

    /// Appends a chunk of one element.
    ///
    /// # Errors
    ///
    /// `AllocError` where memory is refused. Nothing is changed.
    fn append(&mut self, value: T) -> Result<(), AllocError>
        ensures taken { OnOk result (self.new ≡ self.old ++ (value ∷ []) ∷ []) }
        ensures unchanged { OnErr result (self.new ≡ self.old) }
    {
        let rest = Vec::with_capacity(self.alloc, LIMIT / 8 + 1)?;
        self.chunks.push(Chunk { head: value, rest })?;
        Ok(())
    }

    /// Puts an element into a chunk that is full, which two take the place of.
    ///
    /// # Errors
    ///
    /// `AllocError` where memory is refused. Nothing is changed.
    #[tactic(auto, using(crate::proofs::Placing::joined_split))]
    fn split(&mut self, chunk: usize, offset: usize, value: T) -> Result<(), AllocError>
        requires bound { chunk < length self.old }
        requires place { offset ≤ length (slice_index_or self.old chunk []) }
        requires full { LIMIT ≤ length (slice_index_or self.old chunk []) }
        ensures taken { OnOk result (joined self.new
            ≡ before self.old (record { chunk = chunk; offset = offset })
            ++ value ∷ after self.old (record { chunk = chunk; offset = offset })) }
        ensures unchanged { OnErr result (self.new ≡ self.old) }
    {
        let (lower, upper) = self.chunks[chunk].halves(self.alloc, offset, value, LIMIT / 8 + 1)?;
        self.chunks.insert(chunk + 1, upper)?;
        self.chunks[chunk] = lower;
        Ok(())
    }
}
