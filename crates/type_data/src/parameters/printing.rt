//! The parameters of a service as they are printed (RFC 9460 2.1).
mod addresses;
mod key;
mod mandatory;
mod protocols;
mod sent;
mod value;

ghost use Rattle.std.specs.Prelude.{IfErr, OnOk};
ghost use Rattle.type_data.specs.Parameters.Machine.Printed.{AppendsParameter, AppendsParameters, all_sent, sent_of};
ghost use Rattle.type_data.specs.Parameters.{Ascend};
ghost use Rattle.type_data.specs.Parameters.Printed.{NoParameters, PrintsParameters, PrintsTouching};
ghost use Rattle.type_data.specs.Printed.{IfNoData};

use super::key::Key;
use crate::unprinted::Unprinted;
use key::{print_key, usual_key};
use sent::{Parameter, parameters_of};
use std::alloc::AllocError;
use value::{print_opaque, print_value};
use zone_name::laws::are_octets;

/// Appends the parameters that all octets are: each after a blank, in the order of the octets, by
/// the name of its key where its value is one of that key, and else by the number of its key with
/// its value as opaque octets.
///
/// # Errors
///
/// `NoData` where the octets aren't parameters whose keys ascend (RFC 9460 2.2), and want of
/// memory. Some of the text may have been appended.
pub(crate) fn print_parameters(octets: &[u8], out: &mut Vec<u8>) -> Result<(), Unprinted>
    ensures printed { OnOk result
        (PrintsTouching PrintsParameters octets.now out.old.items out.new.items) }
    ensures none { IfErr result (IfNoData (NoParameters octets.now)) }
{
    are_octets(octets);
    let parameters = parameters_of(*out.allocator(), octets)?;
    print_each(parameters.as_slice(), out)?;
    Ok(())
}

/// Appends parameters, each after a blank.
fn print_each(parameters: &[Parameter], out: &mut Vec<u8>) -> Result<(), AllocError>
    requires { Ascend (all_sent parameters.now) }
    ensures { OnOk result
        (AppendsParameters (all_sent parameters.now) out.old.items out.new.items) }
{
    for parameter in parameters {
        print_parameter(*parameter, parameters, out)?;
    }
    Ok(())
}

/// Appends one of the parameters, after a blank.
fn print_parameter(
    parameter: Parameter,
    parameters: &[Parameter],
    out: &mut Vec<u8>,
) -> Result<(), AllocError>
    requires { Ascend (all_sent parameters.now) }
    ensures { OnOk result (AppendsParameter (all_sent parameters.now) (sent_of parameter.entry)
        out.old.items out.new.items) }
{
    let before = out.len();
    out.extend_from_slice(b" ")?;
    let key = usual_key(parameter.key);
    print_key(key, out)?;
    match print_value(key, parameter.value, parameters, out) {
        Ok(()) => Ok(()),
        Err(Unprinted::OutOfMemory) => Err(AllocError),
        Err(Unprinted::NoData) => {
            out.truncate(before);
            out.extend_from_slice(b" ")?;
            print_key(Key::Numbered(parameter.key), out)?;
            print_opaque(parameter.value, out)
        }
    }
}
