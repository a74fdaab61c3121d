ghost use Rattle.std.specs.Prelude.{◌≡◌, ◌+◌, ◌≤◌, length};
ghost use Rattle.zone_wire.specs.Message.{u16_at, u32_at};

use byteorder::{BigEndian, ByteOrder};

/// The number of 16 bits at an offset, the highest octet first (RFC 1035 2.3.2).
pub(crate) fn u16_at(octets: &[u8], offset: usize) -> u16
    requires { offset + 2 ≤ length octets.now }
    ensures { result ≡ u16_at octets.now offset }
{
    BigEndian::read_u16(&octets[offset..])
}

/// The number of 32 bits at an offset, the highest octet first (RFC 1035 2.3.2).
pub(crate) fn u32_at(octets: &[u8], offset: usize) -> u32
    requires { offset + 4 ≤ length octets.now }
    ensures { result ≡ u32_at octets.now offset }
{
    BigEndian::read_u32(&octets[offset..])
}
