//! Digests of zones (RFC 8976).
ghost use Rattle.std.specs.Prelude.{◌≡◌, ◌++◌, IfOk, OnOk, map};
ghost use Rattle.zonenorm_c.specs.Answering.{Answers};
ghost use Rattle.zonenorm_c.specs.Digests.{AnswersDigest, AreNumbers, AreVerdicts, IsWantedLine, verdict_number};

use crate::answer::{ACCEPTED, Answer, DIFFERENT, NO_MEMORY, UNSUPPORTED, counted, plain};
use crate::given::Given;
use crate::reply::{Reply, halt_reply, hand_out, without_text};
use crate::zone::zone_of;
use std::alloc::{AllocError, Global};
use zone_digest::{Algorithm, Finding, Verdict, verify, zonemd_of};
use zone_print::push_line;
use zone_set::Zone;

/// The number of a verdict.
fn number_of(verdict: Verdict) -> u8
    ensures { result ≡ verdict_number verdict }
{
    match verdict {
        Verdict::Malformed => 0,
        Verdict::OtherSerial => 1,
        Verdict::UnknownScheme => 2,
        Verdict::UnknownAlgorithm => 3,
        Verdict::Repeated => 4,
        Verdict::Differs => 5,
        Verdict::Verified => 6,
    }
}

/// The numbers of the verdicts.
fn numbers_of(alloc: Global, findings: &[Finding<'_>]) -> Result<Vec<u8>, AllocError>
    ensures { IfOk result (λ numbers. AreNumbers findings.now numbers.items) }
{
    let mut numbers = Vec::new(alloc);
    for finding in findings {
        numbers.push(number_of(finding.verdict))?;
    }
    Ok(numbers)
}

/// The reply on the ZONEMD records of a zone.
fn verdicts_reply(alloc: Global, zone: &Zone) -> Result<Reply, AllocError>
    ensures { IfOk result (λ reply. AreVerdicts zone.now reply.text.items reply.answer) }
{
    let findings = verify(alloc, zone)?;
    let text = numbers_of(alloc, findings.as_slice())?;
    let is_verified = text.as_slice().contains(&6);
    let status = if is_verified { ACCEPTED } else { DIFFERENT };
    let answer = counted(status, zone.len());
    Ok(Reply { text, answer })
}

/// The reply on the ZONEMD records of an input.
fn reply_of(alloc: Global, given: &Given<'_>) -> Reply
    ensures { Answers AreVerdicts given.now result.text.items result.answer }
{
    match zone_of(alloc, given) {
        Err(halt) => halt_reply(alloc, halt),
        Ok(zone) => match verdicts_reply(alloc, &zone) {
            Ok(reply) => reply,
            Err(_) => without_text(alloc, plain(NO_MEMORY)),
        },
    }
}

/// Verifies the zone against its ZONEMD records (RFC 8976): status 0 if one of those at the apex
/// verifies it, else 1. The text has an octet for each of these records, in canonical order: 0
/// malformed, 1 other serial, 2 unknown scheme, 3 unknown algorithm, 4 repeated, 5 the digest
/// differs, 6 verified.
///
/// # Errors
///
/// Status 2 to 5.
#[unsafe(no_mangle)]
pub extern "C" fn zonenorm_verify(
    alloc: Global,
    given: &Given<'_>,
    text: &mut &'static [u8],
    answer: &mut Answer,
)
    ensures { Answers AreVerdicts given.now text.new.now answer.new }
{
    let reply = reply_of(alloc, given);
    *answer = hand_out(reply, text);
}

/// The reply on the ZONEMD record that a zone wants: its canonical line.
fn wanted_reply(alloc: Global, zone: &Zone, algorithm: Algorithm) -> Result<Reply, AllocError>
    ensures { IfOk result (λ reply. IsWantedLine algorithm zone.now reply.text.items reply.answer) }
{
    let rr = zonemd_of(alloc, zone, algorithm)?;
    let mut text = Vec::new(alloc);
    push_line(&mut text, &rr.lend())?;
    let answer = counted(ACCEPTED, zone.len());
    Ok(Reply { text, answer })
}

/// The reply on the record that the zone of an input wants.
fn digest_reply(alloc: Global, given: &Given<'_>, algorithm: Algorithm) -> Reply
    ensures { Answers (IsWantedLine algorithm) given.now result.text.items result.answer }
{
    match zone_of(alloc, given) {
        Err(halt) => halt_reply(alloc, halt),
        Ok(zone) => match wanted_reply(alloc, &zone, algorithm) {
            Ok(reply) => reply,
            Err(_) => without_text(alloc, plain(NO_MEMORY)),
        },
    }
}

/// The reply on the record that the zone of an input wants, by the number of an algorithm.
fn reply_by_number(alloc: Global, given: &Given<'_>, algorithm: u32) -> Reply
    ensures { AnswersDigest algorithm given.now result.text.items result.answer }
{
    match algorithm {
        1 => digest_reply(alloc, given, Algorithm::Sha384),
        2 => digest_reply(alloc, given, Algorithm::Sha512),
        _ => without_text(alloc, plain(UNSUPPORTED)),
    }
}

/// Hands out the canonical line of the ZONEMD record that states the digest of the zone, by SHA-384
/// (1) or SHA-512 (2) (RFC 8976).
///
/// # Errors
///
/// Status 2 to 5; 5 for another algorithm too.
#[unsafe(no_mangle)]
pub extern "C" fn zonenorm_digest(
    alloc: Global,
    given: &Given<'_>,
    algorithm: u32,
    text: &mut &'static [u8],
    answer: &mut Answer,
)
    ensures { AnswersDigest algorithm given.now text.new.now answer.new }
{
    let reply = reply_by_number(alloc, given, algorithm);
    *answer = hand_out(reply, text);
}
