//! How a ZONEMD record is written.

/// How a ZONEMD record is written.
#[derive(Clone, Copy, Debug, PartialEq, Eq)]
pub enum Notation {
    /// By its mnemonic, its data in presentation format (RFC 8976 2.3).
    Words,
    /// As a type without a mnemonic, its data in the generic form (RFC 3597 5).
    Generic,
}
