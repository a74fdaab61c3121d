//! Octets read from their hexadecimal digits (RFC 4648 8).
ghost use Rattle.hex.specs.Hex.{decode_of};
ghost use Rattle.std.specs.Prelude.{◌≡◌, ◌≢◌, ◌≤◌, ◌++◌, ℕ, length, true, false, List, Ok};
ghost use Rattle.zone_name.specs.Common.{NothingIs};
ghost use Rattle.zone_rdata.specs.Appended.{Appends};

use crate::address::octet_of_pair;
use crate::digits::{DIGITS_LEN, octets_of};
use std::alloc::AllocError;

/// Appends the octets that hexadecimal digits state, two digits for each, in either letter case (RFC
/// 4648 8). `false`: the text has an odd length or another character, and `out` is unchanged.
///
/// # Errors
///
/// `AllocError` where memory is refused, and `out` is unchanged.
pub fn push_octets_of_hex(text: &[u8], out: &mut Vec<u8>) -> Result<bool, AllocError>
    ensures yes { result ≡ Ok true → Appends (λ octets. decode_of text.now ≡ Ok octets)
        (λ octets. octets) out.old.items out.new.items }
    ensures no { result ≡ Ok false → NothingIs (λ octets. decode_of text.now ≡ Ok octets) }
    ensures unchanged { result ≢ Ok true → out.new.items ≡ out.old.items }
{
    let before = out.len();
    let pushed = push_parts(text, out);
    if !matches!(pushed, Ok(true)) {
        out.truncate(before);
    }
    pushed
}

/// As `push_octets_of_hex`, part by part. `out` may have got some of the octets where it isn't
/// `true`.
fn push_parts(text: &[u8], out: &mut Vec<u8>) -> Result<bool, AllocError>
    ensures yes { result ≡ Ok true → Appends (λ octets. decode_of text.now ≡ Ok octets)
        (λ octets. octets) out.old.items out.new.items }
    ensures no { result ≡ Ok false → NothingIs (λ octets. decode_of text.now ≡ Ok octets) }
    ensures grown { (more : List ℕ) × (out.new.items ≡ out.old.items ++ more) }
{
    let mut rest = text;
    while !rest.is_empty() {
        let (part, after) = rest.split_at(DIGITS_LEN.min(rest.len()));
        if !push_part(part, out)? {
            return Ok(false);
        }
        rest = after;
    }
    Ok(true)
}

/// Appends the octets that a few hexadecimal digits state. `false`: the text isn't so.
fn push_part(text: &[u8], out: &mut Vec<u8>) -> Result<bool, AllocError>
    requires { length text.now ≤ DIGITS_LEN }
    ensures yes { result ≡ Ok true → Appends (λ octets. decode_of text.now ≡ Ok octets)
        (λ octets. octets) out.old.items out.new.items }
    ensures no { result ≡ Ok false → NothingIs (λ octets. decode_of text.now ≡ Ok octets) }
    ensures grown { (more : List ℕ) × (out.new.items ≡ out.old.items ++ more) }
{
    let mut few = [b'0'; DIGITS_LEN];
    few[..text.len()].copy_from_slice(text);
    match octets_of(&few) {
        Some(octets) if text.len() % 2 == 0 => {
            out.extend_from_slice(&octets[..text.len() / 2])?;
            Ok(true)
        }
        // Digits in both letter cases come here too.
        _ => push_pairs(text, out),
    }
}

/// Appends the octets that hexadecimal digits state, pair by pair. `false`: the text isn't so.
#[inline(never)]
fn push_pairs(text: &[u8], out: &mut Vec<u8>) -> Result<bool, AllocError>
    ensures yes { result ≡ Ok true → Appends (λ octets. decode_of text.now ≡ Ok octets)
        (λ octets. octets) out.old.items out.new.items }
    ensures no { result ≡ Ok false → NothingIs (λ octets. decode_of text.now ≡ Ok octets) }
    ensures grown { (more : List ℕ) × (out.new.items ≡ out.old.items ++ more) }
{
    let mut rest = text;
    while let [high, low, after @ ..] = rest {
        let Some(octet) = octet_of_pair(*high, *low) else {
            return Ok(false);
        };
        out.extend_from_slice(&[octet])?;
        rest = after;
    }
    Ok(rest.is_empty())
}
