ghost use Rattle.std.specs.Prelude.{◌≡◌, ◌∷◌, [], MatchOption};

use crate::chunk::Chunk;
use std::marker::Model;

/// The elements of a list that are still to come. Contracts see them.
#[derive(Drop)]
pub struct Iter<'a, T> {
    /// Those of the chunk that was begun.
    pub(crate) rest: &'a [T],
    pub(crate) chunks: &'a [Chunk<T>],
}

impl<'a, T> Model for Iter<'a, T> {
    ghost use Rattle.std.specs.Prelude.{List, ◌++◌};
    ghost use Rattle.sorted_chunks.specs.Chunks.{joined};

    ghost Value = { List T };

    ghost view = { λ i. i.rest.now ++ joined i.chunks.now };
}

impl<'a, T> Iter<'a, T> {
    /// The next element.
    pub fn next(&mut self) -> Option<&'a T>
        ensures { MatchOption result ((self.old ≡ []) × (self.new ≡ []))
            (λ x. self.old ≡ x.now ∷ self.new) }
    {
        if let Some((first, rest)) = self.rest.split_first() {
            self.rest = rest;
            return Some(first);
        }
        let (chunk, chunks) = self.chunks.split_first()?;
        self.rest = chunk.rest.as_slice();
        self.chunks = chunks;
        Some(&chunk.head)
    }
}
