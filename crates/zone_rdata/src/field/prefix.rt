ghost use Rattle.std.specs.Prelude.{◌≡◌, ◌<◌, length, IfOk, IfErr};
ghost use Rattle.zone_rdata.specs.Fault.{IfFault};
ghost use Rattle.zone_rdata.specs.Machine.Appending.{AppendsPrefix};

use crate::cause::Cause;
use crate::fault::Fault;
use crate::narrow_failing::NarrowFailing;

/// Appends the first `count` of the octets.
pub(crate) fn push_prefix<'o>(
    count: usize,
    octets: &'o [u8],
    canonical: &mut Vec<u8>,
) -> Result<&'o [u8], NarrowFailing>
    ensures found { IfOk result (λ rest.
        AppendsPrefix count octets.now rest.now canonical.old.items canonical.new.items) }
    ensures fault { IfErr result
        (IfFault (λ f. (f ≡ Fault.BadRdata) × (length octets.now < count))) }
{
    if octets.len() < count {
        return Err(NarrowFailing::of(Cause::BadRdata));
    }
    let (front, rest) = octets.split_at(count);
    canonical.extend_from_slice(front)?;
    Ok(rest)
}
