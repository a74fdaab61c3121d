ghost use Rattle.std.specs.Prelude.{◌≡◌, ◌<◌, ◌++◌, List, ℕ, IfErr, IfOk, map};
ghost use Rattle.type_data.specs.Parameters.Machine.Printed.{IsSentFront, sent_of};
ghost use Rattle.type_data.specs.Parameters.{Sent};
ghost use Rattle.type_data.specs.Parameters.Printed.{HaveOctets};
ghost use Rattle.type_data.specs.Printed.{IfNoData};

use crate::taking::{take, take_u16};
use crate::unprinted::Unprinted;
use std::alloc::Global;
use zone_name::laws::are_octets;

/// A parameter: the number of its key, and the octets of its value (RFC 9460 2.2).
#[derive(Clone, Copy, Debug)]
pub(super) struct Parameter<'o> {
    /// The number of its key.
    pub key: u16,
    /// The octets of its value.
    pub value: &'o [u8],
}

/// The parameter at the front, and what is left.
///
/// # Errors
///
/// `NoData` where the octets end before.
fn take_parameter(octets: &[u8]) -> Result<(Parameter<'_>, &[u8]), Unprinted>
    ensures found { IfOk result (λ first. IsSentFront octets.now (sent_of first.0) first.1.now) }
    ensures none { IfErr result (IfNoData ((s : Sent) → (rest : List ℕ)
        → IsSentFront octets.now s rest → ⊥)) }
{
    let (key, rest) = take_u16(octets)?;
    let (len, rest) = take_u16(rest)?;
    let (value, rest) = take(rest, usize::from(len))?;
    are_octets(value);
    Ok((Parameter { key, value }, rest))
}

/// The parameters that all octets are, whose keys ascend (RFC 9460 2.2).
///
/// # Errors
///
/// `NoData` where they aren't such parameters, and want of memory.
pub(super) fn parameters_of(alloc: Global, octets: &[u8]) -> Result<Vec<Parameter<'_>>, Unprinted>
    ensures found { IfOk result (λ parameters.
        HaveOctets (map sent_of parameters.items) octets.now) }
    ensures none { IfErr result (IfNoData ((parameters : List Sent)
        → HaveOctets parameters octets.now → ⊥)) }
{
    let mut parameters = Vec::new(alloc);
    let mut least = 0;
    let mut rest = octets;
    while !rest.is_empty() {
        let (parameter, after) = take_parameter(rest)?;
        if parameter.key < least || parameter.key == u16::MAX {
            return Err(Unprinted::NoData);
        }
        parameters.extend_from_slice(&[parameter])?;
        least = parameter.key + 1;
        rest = after;
    }
    Ok(parameters)
}
