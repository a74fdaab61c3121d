//! Where the parts of messages and records stand that have a place of their own.

/// The octets of a message's header (RFC 1035 4.1.1).
pub(crate) const HEADER_LEN: usize = 12;

/// Where a header says how many questions there are (RFC 1035 4.1.1).
pub(crate) const QDCOUNT: usize = 4;

/// Where a header says how many answers there are (RFC 1035 4.1.1).
pub(crate) const ANCOUNT: usize = 6;

/// Where a header says how many authority records there are (RFC 1035 4.1.1).
pub(crate) const NSCOUNT: usize = 8;

/// Where a header says how many additional records there are (RFC 1035 4.1.1).
pub(crate) const ARCOUNT: usize = 10;

/// The octets of a record between its name and its data: its type, its class, its TTL and the
/// data's length (RFC 1035 4.1.3).
pub(crate) const RECORD_HEAD_LEN: usize = 10;
