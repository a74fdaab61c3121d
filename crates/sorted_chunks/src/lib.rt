//! An ordered list that is kept in chunks, so that putting an element anywhere moves few of the
//! others.
#![tactic(auto)]

mod chunk;
mod chunks;
mod iter;
mod position;
mod sought;

// A crate can name a list in a contract only if the types of its fields are exported.
#[doc(hidden)]
pub use chunk::Chunk;
pub use chunks::SortedChunks;
pub use iter::Iter;
pub use position::Position;
pub use sought::Sought;
