//! Laws of record data over the definitions alone. A law that rests on one of names calls it.
pub mod address;
pub mod generic;
pub mod items;
pub mod string;
pub mod text;
pub mod uncompressed;
pub mod value;
pub mod word;
