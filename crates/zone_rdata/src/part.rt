use zone_name::NameRef;

/// A part of data that is pushed (RFC 1035 3.3).
#[derive(Clone, Copy)]
pub enum Part<'p> {
    /// An address, or the octets of opaque data.
    Octets(&'p [u8]),
    /// A number of 16 bits.
    U16(u16),
    /// A number of 32 bits, a serial or a time in seconds.
    U32(u32),
    /// A name.
    Name(&'p NameRef<'p>),
    /// A string, the next field or one more of several.
    String(&'p [u8]),
}
