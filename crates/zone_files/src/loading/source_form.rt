use zone_name::CasedName;

/// How the octets of a source are to be read.
#[derive(Clone, Copy)]
pub enum SourceForm<'n> {
    /// A master file in presentation format with its origin (RFC 1035 5), whose letters names in
    /// data keep.
    File(&'n CasedName),
    /// The octets of a zone transfer as they came over TCP, each message after its length (RFC 5936
    /// 2.2, RFC 1035 4.2.2).
    Transfer,
}
