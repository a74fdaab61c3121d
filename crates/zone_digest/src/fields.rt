//! The fields of ZONEMD data (RFC 8976 2.2).
ghost use Rattle.std.specs.Prelude.{◌≡◌, ◌≢◌, IfSome, IfNone};
ghost use Rattle.zone_digest.specs.Verdict.{Fields, HasFields, number};
ghost use Rattle.zone_digest.specs.Machine.Reading.{fields_of};

use crate::algorithm::Algorithm;

/// The number of the scheme SIMPLE (RFC 8976 5.2).
pub(crate) const SIMPLE: u8 = 1;

/// The fields of ZONEMD data (RFC 8976 2.2).
#[derive(Clone, Copy, Debug)]
pub(crate) struct ParsedFields<'a> {
    pub(crate) serial: &'a [u8],
    pub(crate) scheme: u8,
    pub(crate) algorithm: u8,
    pub(crate) digest: &'a [u8],
}

/// The fields of data that has them.
pub(crate) fn fields_at(octets: &[u8]) -> Option<ParsedFields<'_>>
    ensures found { IfSome result (λ p. HasFields octets.now (fields_of p)) }
    ensures none { IfNone result ((f : Fields) → HasFields octets.now f → ⊥) }
{
    if octets.len() < 6 {
        return None;
    }
    let (serial, rest) = octets.split_at(4);
    let (scheme, rest) = rest.split_first()?;
    let (algorithm, digest) = rest.split_first()?;
    Some(ParsedFields {
        serial,
        scheme: *scheme,
        algorithm: *algorithm,
        digest,
    })
}

/// The hash algorithm of fields of scheme SIMPLE, where it is a known one.
pub(crate) fn algorithm_of(fields: &ParsedFields<'_>) -> Option<Algorithm>
    ensures found { IfSome result (λ a. (fields.now.scheme ≡ 1)
        × (fields.now.algorithm ≡ number a)) }
    ensures none { IfNone result (fields.now.scheme ≡ 1 → (a : Algorithm)
        → fields.now.algorithm ≢ number a) }
{
    if fields.scheme != SIMPLE {
        return None;
    }
    Algorithm::of_number(fields.algorithm)
}
