ghost use Rattle.std.specs.Prelude.{◌≡◌, ◌≤◌, All, length};
ghost use Rattle.sorted_chunks.specs.Machine.Splits.{SplitsAt};

use crate::chunk::Chunk;

/// What is sought among the elements of a list: it tells which of them stand before its place.
pub trait Sought<T> {
    /// The elements that it can be asked about.
    ghost knows: { Self → T → Type 0 };

    ghost use Rattle.std.specs.Prelude.{Bool};

    /// Whether its place is after an element.
    ghost follows: { Self → T → Bool };

    /// Whether its place is after this element.
    fn is_after(&self, element: &T) -> bool
        requires { knows self.now element.now }
        ensures { result ≡ follows self.now element.now };
}

/// What is sought, among chunks by their first elements.
#[derive(Drop)]
pub(crate) struct AmongChunks<'a, S> {
    pub(crate) sought: &'a S,
}

impl<'a, T, S: Sought<T>> Sought<Chunk<T>> for AmongChunks<'a, S> {
    ghost use Rattle.std.specs.Prelude.{All};
    ghost use Rattle.sorted_chunks.specs.Starts.{starts};

    ghost knows = { λ a chunk. All (S.knows a.sought.now) chunk };

    ghost follows = { λ a chunk. starts (S.follows a.sought.now) chunk };

    fn is_after(&self, chunk: &Chunk<T>) -> bool {
        self.sought.is_after(&chunk.head)
    }
}

/// How many elements stand before what is sought, where those that do come first: a binary
/// search.
#[tactic(auto, using(crate::proofs::Parting::narrowed_up, crate::proofs::Parting::narrowed_down))]
pub(crate) fn count_before<T, S: Sought<T>>(elements: &[T], sought: &S) -> usize
    requires { All (S.knows sought.now) elements.now }
    ensures bound { result ≤ length elements.now }
    ensures parts { SplitsAt (S.follows sought.now) elements.now result }
{
    let (mut low, mut high) = (0, elements.len());
    while low < high {
        let middle = low + (high - low) / 2;
        if sought.is_after(&elements[middle]) {
            low = middle + 1;
        } else {
            high = middle;
        }
    }
    low
}
