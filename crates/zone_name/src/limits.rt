/// The most octets that a label has (RFC 1035 2.3.4).
pub const MAX_LABEL_LEN: usize = 63;

/// The most octets that a name has, with the octet that each label's length takes and the root's
/// (RFC 1035 2.3.4).
pub const MAX_NAME_LEN: usize = 255;
