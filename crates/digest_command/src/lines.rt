//! The lines about ZONEMD records, and a ZONEMD record in presentation format.
ghost use Rattle.std.specs.List.{flat_map};
ghost use Rattle.std.specs.Option.{option_copied};
ghost use Rattle.std.specs.Prelude.{◌≡◌, ◌++◌, ◌∷◌, [], codes, drop, find, IfOk, OnOk, string_bytes};
ghost use Rattle.digest_command.specs.Lines.{algorithm_name, fields_text, findings_text, is_verified, octet_at, reason, record_line, refuted_line, refuted_text, verified_line, words_line};
ghost use Rattle.hex.specs.Hex.{encode_lower};
ghost use Rattle.zone_rdata.specs.Lent.{record_of};

use crate::notation::Notation;
use hex::encode;
use std::alloc::{AllocError, Global};
use zone_digest::{Finding, Verdict};
use zone_print::push_line;
use zone_rdata::{Rr, RrRef};

/// What is printed for a zone of this serial with these findings: the line of the first record that is
/// verified, or why none is.
///
/// # Errors
///
/// Memory was refused.
pub(crate) fn findings_text(
    alloc: Global,
    serial: u32,
    findings: &[Finding<'_>],
) -> Result<String, AllocError>
    ensures { IfOk result (λ text. string_bytes text ≡ findings_text serial findings.now) }
{
    match first_verified(findings) {
        Some(finding) => verified_line(alloc, serial, finding.octets),
        None => refuted_text(alloc, serial, findings),
    }
}

/// The line on a record that is verified.
fn verified_line(alloc: Global, serial: u32, octets: &[u8]) -> Result<String, AllocError>
    ensures { IfOk result (λ line. string_bytes line ≡ verified_line serial octets.now) }
{
    let mut line = format!(in alloc; "verified: serial {serial}, SIMPLE, ")?;
    line.push_str(algorithm_name(octets))?;
    line.push_str("\n")?;
    Ok(line)
}

/// The first finding of a record that is verified.
pub(crate) fn first_verified<'f, 'z>(findings: &'f [Finding<'z>]) -> Option<&'f Finding<'z>>
    ensures { option_copied result ≡ find is_verified findings.now }
{
    for finding in findings {
        if is_verified(finding) {
            return Some(finding);
        }
    }
    None
}

/// Whether the record is verified.
fn is_verified(finding: &Finding<'_>) -> bool
    ensures { result ≡ is_verified finding.now }
{
    matches!(finding.verdict, Verdict::Verified)
}

/// Why no record is verified: a line for each, or that there is none.
fn refuted_text(alloc: Global, serial: u32, findings: &[Finding<'_>]) -> Result<String, AllocError>
    ensures { IfOk result (λ text. string_bytes text ≡ refuted_text serial findings.now) }
{
    if findings.is_empty() {
        return String::from_str(alloc, "not verified: no ZONEMD record at the apex\n");
    }
    let mut text = String::new(alloc);
    for finding in findings {
        push_refuted(alloc, &mut text, serial, finding)?;
    }
    Ok(text)
}

/// Appends the line on a record that isn't verified.
fn push_refuted(
    alloc: Global,
    text: &mut String,
    serial: u32,
    finding: &Finding<'_>,
) -> Result<(), AllocError>
    ensures { OnOk result
        (string_bytes text.new ≡ string_bytes text.old ++ refuted_line serial finding.now) }
{
    text.push_str("not verified: ZONEMD ")?;
    push_fields(alloc, text, finding.octets)?;
    text.push_str(": ")?;
    push_reason(text, serial, finding)?;
    text.push_str("\n")
}

/// Appends why a record isn't verified.
fn push_reason(text: &mut String, serial: u32, finding: &Finding<'_>) -> Result<(), AllocError>
    ensures { OnOk result (string_bytes text.new ≡ string_bytes text.old
        ++ reason serial finding.now.octets.now finding.now.verdict) }
{
    match finding.verdict {
        Verdict::Malformed => text.push_str("the data is malformed"),
        Verdict::OtherSerial => write!(text, "the serial isn't {serial}"),
        Verdict::UnknownScheme => {
            let scheme = octet_at(finding.octets, 4);
            write!(text, "scheme {scheme} isn't supported")
        }
        Verdict::UnknownAlgorithm => {
            let algorithm = octet_at(finding.octets, 5);
            write!(text, "hash algorithm {algorithm} isn't supported")
        }
        Verdict::Repeated => text.push_str("another record has the same scheme and hash algorithm"),
        Verdict::Differs => text.push_str("the digest differs"),
        Verdict::Verified => Ok(()),
    }
}

/// Appends ZONEMD data up to its digest, or, where it is too short, in the generic form.
fn push_fields(alloc: Global, text: &mut String, octets: &[u8]) -> Result<(), AllocError>
    ensures { OnOk result
        (string_bytes text.new ≡ string_bytes text.old ++ fields_text octets.now) }
{
    match octets {
        [a, b, c, d, scheme, algorithm, ..] => {
            let serial = u32::from_be_bytes([*a, *b, *c, *d]);
            write!(text, "{serial} {scheme} {algorithm}")
        }
        [] => text.push_str("\\# 0"),
        _ => {
            let (len, digits) = (octets.len(), encode(alloc, octets)?);
            write!(text, "\\# {len} {digits}")
        }
    }
}

/// The name of the hash algorithm of ZONEMD data.
fn algorithm_name(octets: &[u8]) -> &'static str
    ensures { result.now ≡ algorithm_name octets.now }
{
    match octet_at(octets, 5) {
        2 => "SHA-512",
        _ => "SHA-384",
    }
}

/// The octet at a place, 0 where there is none.
fn octet_at(octets: &[u8], place: usize) -> u8
    ensures { result ≡ octet_at octets.now place }
{
    match octets.get(place) {
        Some(octet) => *octet,
        None => 0,
    }
}

/// The line of a ZONEMD record.
///
/// # Errors
///
/// Memory was refused.
pub(crate) fn record_line(alloc: Global, notation: Notation, rr: &Rr) -> Result<Vec<u8>, AllocError>
    ensures { IfOk result (λ line. line.items ≡ record_line notation rr.now) }
{
    let mut line = Vec::new(alloc);
    match notation {
        Notation::Words => push_in_words(alloc, &mut line, &rr.lend())?,
        Notation::Generic => push_line(&mut line, &rr.lend())?,
    }
    Ok(line)
}

/// Appends the line of a ZONEMD record in presentation format.
fn push_in_words(alloc: Global, line: &mut Vec<u8>, rr: &RrRef<'_>) -> Result<(), AllocError>
    ensures { OnOk result (line.new.items ≡ line.old.items ++ words_line (record_of rr.now)) }
{
    let ttl = rr.ttl;
    rr.owner.print(line)?;
    line.extend_from_slice(format!(in alloc; " {ttl} ")?.as_bytes())?;
    rr.class.push_word(line)?;
    line.extend_from_slice(data_in_words(alloc, rr.rdata.octets())?.as_bytes())
}

/// The type ZONEMD and its data in presentation format, as they follow the class.
fn data_in_words(alloc: Global, octets: &[u8]) -> Result<String, AllocError>
    ensures { IfOk result (λ text. string_bytes text ≡ codes " ZONEMD " ++ fields_text octets.now
        ++ 32 ∷ encode_lower (drop 6 octets.now) ++ 10 ∷ []) }
{
    let mut text = String::from_str(alloc, " ZONEMD ")?;
    push_fields(alloc, &mut text, octets)?;
    let (_, digest) = octets.split_at(octets.len().min(6));
    let digits = encode(alloc, digest)?;
    write!(text, " {digits}\n")?;
    Ok(text)
}
