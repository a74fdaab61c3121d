//! Numbers and octets from the front of a record's data. Each gives what is left after it too, and
//! answers `NoData` exactly where the octets end before.
ghost use Rattle.std.specs.Prelude.{◌≡◌, ◌+◌, ◌<◌, ◌∷◌, ◌++◌, IfOk, IfErr, length};
ghost use Rattle.std.specs.Int.{w16, w32, to_be_bytes};
ghost use Rattle.zone_name.specs.Name.{with_length};
ghost use Rattle.type_data.specs.Machine.Taking.{NoneCounted};
ghost use Rattle.type_data.specs.Printed.{IfNoData};

use crate::unprinted::Unprinted;

/// The first octets, so many.
pub(crate) fn take(octets: &[u8], count: usize) -> Result<(&[u8], &[u8]), Unprinted>
    ensures front { IfOk result (λ parts. length parts.0.now ≡ count) }
    ensures left { IfOk result (λ parts. count + length parts.1.now ≡ length octets.now) }
    ensures whole { IfOk result (λ parts. octets.now ≡ parts.0.now ++ parts.1.now) }
    ensures short { IfErr result (IfNoData (length octets.now < count)) }
{
    if octets.len() < count {
        return Err(Unprinted::NoData);
    }
    Ok(octets.split_at(count))
}

/// A number of one octet.
pub(crate) fn take_u8(octets: &[u8]) -> Result<(u8, &[u8]), Unprinted>
    ensures left { IfOk result (λ parts. 1 + length parts.1.now ≡ length octets.now) }
    ensures whole { IfOk result (λ parts. octets.now ≡ parts.0 ∷ parts.1.now) }
    ensures few { IfOk result (λ parts. parts.0 < 256) }
    ensures short { IfErr result (IfNoData (length octets.now < 1)) }
{
    match octets {
        [first, rest @ ..] => Ok((*first, rest)),
        _ => Err(Unprinted::NoData),
    }
}

/// A number of two octets.
pub(crate) fn take_u16(octets: &[u8]) -> Result<(u16, &[u8]), Unprinted>
    ensures left { IfOk result (λ parts. 2 + length parts.1.now ≡ length octets.now) }
    ensures whole { IfOk result (λ parts. octets.now ≡ to_be_bytes w16 parts.0 ++ parts.1.now) }
    ensures few { IfOk result (λ parts. parts.0 < 65536) }
    ensures short { IfErr result (IfNoData (length octets.now < 2)) }
{
    match octets {
        [high, low, rest @ ..] => Ok((u16::from_be_bytes([*high, *low]), rest)),
        _ => Err(Unprinted::NoData),
    }
}

/// A number of four octets.
pub(crate) fn take_u32(octets: &[u8]) -> Result<(u32, &[u8]), Unprinted>
    ensures left { IfOk result (λ parts. 4 + length parts.1.now ≡ length octets.now) }
    ensures whole { IfOk result (λ parts. octets.now ≡ to_be_bytes w32 parts.0 ++ parts.1.now) }
    ensures few { IfOk result (λ parts. parts.0 < 4294967296) }
    ensures short { IfErr result (IfNoData (length octets.now < 4)) }
{
    match octets {
        [a, b, c, d, rest @ ..] => Ok((u32::from_be_bytes([*a, *b, *c, *d]), rest)),
        _ => Err(Unprinted::NoData),
    }
}

/// Octets after their number, which is one octet.
pub(crate) fn take_counted(octets: &[u8]) -> Result<(&[u8], &[u8]), Unprinted>
    ensures left { IfOk result (λ parts.
        1 + length parts.0.now + length parts.1.now ≡ length octets.now) }
    ensures whole { IfOk result (λ parts.
        octets.now ≡ with_length parts.0.now ++ parts.1.now) }
    ensures short { IfErr result (IfNoData (NoneCounted octets.now)) }
{
    let (count, rest) = take_u8(octets)?;
    take(rest, usize::from(count))
}
