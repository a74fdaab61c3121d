//! Base64 digits of whole groups: four digits for three octets (RFC 4648 4).
ghost use Rattle.base64.specs.Engines.{standard};
ghost use Rattle.base64.specs.GeneralPurpose.{encode_of};
ghost use Rattle.std.specs.Prelude.{◌≡◌, ◌∷◌, [], slice_index, IfOk, IfSome};
ghost use Rattle.zone_name.specs.Common.{AreOctets};
ghost use Rattle.type_data.specs.Kinds.Base64.Machine.{HasGroups};

use std::alloc::AllocError;

/// The values of base64 digits, and 255 of other characters, sixteen a row.
#[rattlefmt::skip]
static DIGIT_VALUES: [u8; 256] = [
    255, 255, 255, 255, 255, 255, 255, 255, 255, 255, 255, 255, 255, 255, 255, 255,
    255, 255, 255, 255, 255, 255, 255, 255, 255, 255, 255, 255, 255, 255, 255, 255,
    255, 255, 255, 255, 255, 255, 255, 255, 255, 255, 255, 62, 255, 255, 255, 63,
    52, 53, 54, 55, 56, 57, 58, 59, 60, 61, 255, 255, 255, 255, 255, 255,
    255, 0, 1, 2, 3, 4, 5, 6, 7, 8, 9, 10, 11, 12, 13, 14,
    15, 16, 17, 18, 19, 20, 21, 22, 23, 24, 25, 255, 255, 255, 255, 255,
    255, 26, 27, 28, 29, 30, 31, 32, 33, 34, 35, 36, 37, 38, 39, 40,
    41, 42, 43, 44, 45, 46, 47, 48, 49, 50, 51, 255, 255, 255, 255, 255,
    255, 255, 255, 255, 255, 255, 255, 255, 255, 255, 255, 255, 255, 255, 255, 255,
    255, 255, 255, 255, 255, 255, 255, 255, 255, 255, 255, 255, 255, 255, 255, 255,
    255, 255, 255, 255, 255, 255, 255, 255, 255, 255, 255, 255, 255, 255, 255, 255,
    255, 255, 255, 255, 255, 255, 255, 255, 255, 255, 255, 255, 255, 255, 255, 255,
    255, 255, 255, 255, 255, 255, 255, 255, 255, 255, 255, 255, 255, 255, 255, 255,
    255, 255, 255, 255, 255, 255, 255, 255, 255, 255, 255, 255, 255, 255, 255, 255,
    255, 255, 255, 255, 255, 255, 255, 255, 255, 255, 255, 255, 255, 255, 255, 255,
    255, 255, 255, 255, 255, 255, 255, 255, 255, 255, 255, 255, 255, 255, 255, 255,
];

/// The value of a base64 digit, and 255 of another character.
#[inline(always)]
fn digit_value(digit: u8) -> u8
    ensures { result ≡ slice_index standard.decode_table digit }
{
    DIGIT_VALUES[digit as usize]
}

/// The three octets of four digits. `None`: a character is none.
#[inline(always)]
fn octets_of_group(first: u8, second: u8, third: u8, last: u8) -> Option<(u8, u8, u8)>
    ensures { IfSome result (λ octets. AreOctets (octets.0 ∷ octets.1 ∷ octets.2 ∷ [])
        × (first ∷ second ∷ third ∷ last ∷ []
        ≡ encode_of standard (octets.0 ∷ octets.1 ∷ octets.2 ∷ []))) }
{
    let (first, second) = (digit_value(first), digit_value(second));
    let (third, last) = (digit_value(third), digit_value(last));
    if first > 63 || second > 63 || third > 63 || last > 63 {
        return None;
    }
    Some((
        first * 4 + second / 16,
        second % 16 * 16 + third / 4,
        third % 4 * 64 + last,
    ))
}

/// Appends the octets of the groups at the front, two groups at a time, and gives the text that is
/// left: all from two groups on that have another character, as padding is.
pub(super) fn push_groups<'t>(text: &'t [u8], out: &mut Vec<u8>) -> Result<&'t [u8], AllocError>
    ensures { IfOk result (λ rest. HasGroups text.now rest.now out.old.items out.new.items) }
{
    let mut rest = text;
    while let [a, b, c, d, e, f, g, h, after @ ..] = rest {
        let Some((first, second, third)) = octets_of_group(*a, *b, *c, *d) else {
            return Ok(rest);
        };
        let Some((fourth, fifth, sixth)) = octets_of_group(*e, *f, *g, *h) else {
            return Ok(rest);
        };
        out.extend_from_slice(&[first, second, third, fourth, fifth, sixth])?;
        rest = after;
    }
    Ok(rest)
}
