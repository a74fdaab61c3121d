/// The most octets of record data: its length is a number of 16 bits (RFC 1035 3.2.1).
pub(crate) const LONGEST_DATA: usize = 65535;
