//! How names in data are compared.

/// How the names in record data are compared.
#[derive(Clone, Copy, Debug, PartialEq, Eq)]
pub enum NameCase {
    /// Octet by octet, as the canonical text has them.
    Exact,
    /// Without regard to case (RFC 4343).
    Folded,
}
