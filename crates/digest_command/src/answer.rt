//! What is written for an order.
ghost use Rattle.std.specs.Prelude.{◌≡◌, ◌⊎◌, IfErr, IfOk, Option};
ghost use Rattle.digest_command.specs.Machine.Answering.{StopsAnswer};
ghost use Rattle.digest_command.specs.Run.{IsAnswer, IsAnswered, input_for, origin_of};
ghost use Rattle.digest_command.specs.declared.order.Order.TheVariants.{Verify};
ghost use Rattle.zone_digest.specs.Laws.{TellsVerified};
ghost use Rattle.zone_name.specs.Common.{Labels};
ghost use Rattle.zone_engine.specs.Reading.{ReadsToEnd};
ghost use Rattle.zone_print.specs.Canonical.{text_limit};

use crate::lines::{findings_text, first_verified, record_line};
use crate::order::Order;
use command_input::status;
use std::alloc::{AllocError, Global};
use zone_digest::laws::findings_tell_whether_a_zone_is_verified;
use zone_digest::{Finding, serial_of, verify, zonemd_of};
use zone_engine::{Form, OctetReader, accepted_zone};
use zone_name::Name;
use zone_rdata::Stop;
use zone_set::Zone;

/// The exit status if the zone isn't verified.
const NOT_VERIFIED: u8 = 1;

/// What is written for an order, and the exit status.
#[derive(Drop)]
pub(crate) struct Answer {
    pub(crate) text: Vec<u8>,
    pub(crate) status: u8,
}

/// What is written for an order about the zone that the reader's octets denote.
///
/// # Errors
///
/// Those of `accepted_zone`, and `Memory`.
pub(crate) fn answer_to<R: OctetReader>(
    alloc: Global,
    order: &Order,
    input: &mut R,
) -> Result<Answer, Stop>
    ensures answered { IfOk result (λ answer. IsAnswered order.now (R.state input.old).octets
        answer.text.items answer.status) }
    ensures read { IfOk result (λ answer.
        ReadsToEnd text_limit (R.state input.old) (R.state input.new)) }
    ensures stopped { IfErr result
        (StopsAnswer (input_for order.now) (R.state input.old) (R.state input.new)) }
{
    let zone = accepted_zone(alloc, Form::with_origin(origin_of(order)), input)?;
    answer_about(alloc, &zone, order)
}

/// The origin of the input that an order is about.
fn origin_of(order: &Order) -> &Option<Name>
    ensures { result.now ≡ origin_of order.now }
{
    match order {
        Order::Verify(origin) | Order::Digest(origin, _, _) => origin,
    }
}

/// What is written for an order about a zone.
///
/// # Errors
///
/// `Memory`.
fn answer_about(alloc: Global, zone: &Zone, order: &Order) -> Result<Answer, Stop>
    ensures answered { IfOk result (λ answer.
        IsAnswer zone.now order.now answer.text.items answer.status) }
    ensures memory { IfErr result (λ stop. stop ≡ Stop.Memory) }
{
    match order {
        Order::Verify(_) => Ok(verdict_on(alloc, zone)?),
        Order::Digest(_, algorithm, notation) => {
            let rr = zonemd_of(alloc, zone, *algorithm)?;
            Ok(Answer {
                text: record_line(alloc, *notation, &rr)?,
                status: status::SUCCESS,
            })
        }
    }
}

/// What is printed of the ZONEMD records of a zone.
fn verdict_on(alloc: Global, zone: &Zone) -> Result<Answer, AllocError>
    ensures { IfOk result (λ answer. (origin : Option Labels)
        → IsAnswer zone.now (Verify origin) answer.text.items answer.status) }
{
    let findings = verify(alloc, zone)?;
    let findings = findings.as_slice();
    findings_tell_whether_a_zone_is_verified();
    Ok(Answer {
        text: findings_text(alloc, serial_of(zone), findings)?.into_bytes(),
        status: status_of(findings),
    })
}

/// The exit status of findings.
fn status_of(findings: &[Finding<'_>]) -> u8
    ensures { (TellsVerified findings.now × (result ≡ 0))
        ⊎ ((TellsVerified findings.now → ⊥) × (result ≡ 1)) }
{
    match first_verified(findings) {
        Some(_) => status::SUCCESS,
        None => NOT_VERIFIED,
    }
}
