ghost use Rattle.std.specs.Prelude.{◌≡◌, ◌<◌, ◌≤◌, drop, length, IfOk, IfErr};
ghost use Rattle.zone_name.specs.Name.{with_length};
ghost use Rattle.zone_rdata.specs.Fault.{IfFault};
ghost use Rattle.zone_rdata.specs.Fields.OneString.{string_at};
ghost use Rattle.zone_rdata.specs.Machine.Appending.{AppendsValue, BeginsWithNone};
ghost use Rattle.zone_rdata.specs.Machine.Fronts.{BeginsWithString};

use super::Field;
use super::prefix::push_prefix;
use crate::cause::Cause;
use crate::fault::Fault;
use crate::narrow_failing::NarrowFailing;

/// Appends the string at the beginning of octets, with its length.
#[tactic(auto, using(crate::proofs::Fields::OneString::strings_sent))]
pub(crate) fn push_sent_string<'o>(
    octets: &'o [u8],
    canonical: &mut Vec<u8>,
) -> Result<&'o [u8], NarrowFailing>
    ensures found { IfOk result (λ rest.
        AppendsValue Field.OneString octets.now rest.now canonical.old.items canonical.new.items) }
    ensures fault { IfErr result
        (IfFault (λ f. (f ≡ Fault.BadRdata) × BeginsWithNone Field.OneString octets.now)) }
{
    match octets {
        [count, ..] => push_prefix(usize::from(*count) + 1, octets, canonical),
        [] => Err(NarrowFailing::of(Cause::BadRdata)),
    }
}

/// The string at the beginning of octets, and the octets after it.
pub(crate) fn split_string(octets: &[u8]) -> (&[u8], &[u8])
    requires { BeginsWithString octets.now }
    ensures string { result.0.now ≡ string_at octets.now }
    ensures rest { result.1.now ≡ drop (length (with_length (string_at octets.now))) octets.now }
    ensures short { length result.0.now ≤ 255 }
{
    let (count, following) = octets.split_at(1);
    following.split_at(usize::from(count[0]))
}
