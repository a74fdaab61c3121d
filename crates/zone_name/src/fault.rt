use thiserror::Error;

/// Why a text spells no name, or a label can't be taken.
#[derive(Clone, Copy, Debug, PartialEq, Eq, Error)]
pub enum NameFault {
    /// A label has no octets, or the text is empty (RFC 1035 2.3.1).
    #[error("a label is empty")]
    EmptyLabel,
    /// A label has more than 63 octets (RFC 1035 2.3.4).
    #[error("a label has more than 63 octets")]
    LabelTooLong,
    /// The name has more than 255 octets (RFC 1035 2.3.4).
    #[error("a name has more than 255 octets")]
    NameTooLong,
    /// A backslash begins no escape (RFC 1035 5.1).
    #[error("a backslash escape is malformed")]
    BadEscape,
    /// The name is relative, and no origin was handed in.
    #[error("a relative name has no origin")]
    RelativeName,
}
