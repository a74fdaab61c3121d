//! Laws over the definitions alone: of data in presentation format, and of what is printed.

pub mod data;
pub mod printed;
