//! The zone that a caller's input denotes.
ghost use Rattle.std.specs.Prelude.{◌≤◌, IfErr, IfOk, length};
ghost use Rattle.zone_print.specs.Canonical.{canon, text_limit};
ghost use Rattle.zonenorm_c.specs.Answering.{IsHalt};
ghost use Rattle.zone_engine.specs.Form.{read_as_with};
ghost use Rattle.zone_engine.specs.Input.{InputDenotes};
ghost use Rattle.zone_engine.specs.Normalise.{IsOfBytes};
ghost use Rattle.zone_engine.specs.Refusal.{IfRefused, IsRefusal};
ghost use Rattle.zonenorm_c.specs.Giving.{DenotesGiven, DenotesInput, source_octets};

use crate::files::zone_of_files;
use crate::given::{FILES, Given, Readable, Unread, read_given};
use crate::reply::Reply;
use std::alloc::Global;
use zone_engine::{Form, accepted_bytes};
use zone_rdata::{Fault, Place, Stop};
use zone_set::Zone;

/// Why there is no zone.
#[derive(Drop)]
pub(crate) enum Halt {
    /// The input isn't read.
    Unread(Unread),
    /// It is refused.
    Refused(Fault, Place),
    /// Files give no zone, which this reports.
    Files(Reply),
}

/// The zone that an input which is read denotes.
///
/// # Errors
///
/// Its refusal, or `Memory`.
pub(crate) fn zone_in(alloc: Global, input: &Readable<'_>) -> Result<Zone, Stop>
    ensures zone { IfOk result (InputDenotes
        (read_as_with input.now.origin (source_octets input.now.source))) }
    ensures short { IfOk result (λ z. length (canon z) ≤ text_limit) }
    ensures stopped { IfErr result IsOfBytes }
    ensures fault { IfErr result (λ stop. IfRefused stop (IsRefusal
        (read_as_with input.now.origin (source_octets input.now.source)))) }
{
    let form = Form::with_origin(&input.origin);
    accepted_bytes(alloc, form, input.source.octets())
}

/// The zone that an input denotes.
///
/// # Errors
///
/// Why there is none.
pub(crate) fn zone_of(alloc: Global, given: &Given<'_>) -> Result<Zone, Halt>
    ensures zone { IfOk result (DenotesGiven given.now) }
    ensures short { IfOk result (λ z. length (canon z) ≤ text_limit) }
    ensures halt { IfErr result (IsHalt given.now) }
{
    if given.kind == FILES {
        return zone_of_files(alloc, given);
    }
    zone_of_input(alloc, given)
}

/// The zone that an input without other files denotes.
///
/// # Errors
///
/// Why there is none.
fn zone_of_input(alloc: Global, given: &Given<'_>) -> Result<Zone, Halt>
    ensures zone { IfOk result (DenotesInput given.now) }
    ensures short { IfOk result (λ z. length (canon z) ≤ text_limit) }
    ensures halt { IfErr result (IsHalt given.now) }
{
    match read_given(alloc, given) {
        Err(why) => Err(Halt::Unread(why)),
        Ok(input) => match zone_in(alloc, &input) {
            Ok(zone) => Ok(zone),
            Err(Stop::Refused(fault, place)) => Err(Halt::Refused(fault, place)),
            Err(Stop::Memory) => Err(Halt::Unread(Unread::Memory)),
            Err(Stop::Read | Stop::Write) => unreachable!(),
        },
    }
}
