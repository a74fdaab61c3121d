//! How records are written.

/// How records of further types are written: those that `zonenorm` doesn't write in presentation format.
#[derive(Clone, Copy, Debug, PartialEq, Eq)]
pub enum Notation {
    /// In the generic form (RFC 3597 5), as the canonical text has them.
    Generic,
    /// In presentation format, for people.
    Presentation,
}
