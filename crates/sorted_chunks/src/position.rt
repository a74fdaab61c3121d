/// A place in a list that is kept in chunks, as `SortedChunks::place_of` answers it.
#[derive(Clone, Copy, Debug, PartialEq, Eq)]
pub struct Position {
    /// Which chunk it is in.
    pub chunk: usize,
    /// How many elements of that chunk stand before it.
    pub offset: usize,
}
