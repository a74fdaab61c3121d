ghost use Rattle.std.specs.Prelude.{◌≡◌, IfErr, OnOk};
ghost use Rattle.type_data.specs.Fault.{AppendsStated, IfFault};
ghost use Rattle.type_data.specs.Unescaped.{ComesToBadEscape, Unescaped};
ghost use Rattle.type_data.specs.declared.fault.WordsFault.TheVariants.{BadEscape};

use crate::fault::{WordsFailing, WordsFault};
use zone_name::{NextUnit, next_unit};

/// Appends the octets that a text is written for, its escapes undone (RFC 1035 5.1).
///
/// # Errors
///
/// `BadEscape` where a backslash begins no escape; and `OutOfMemory`. `out` may have got some of
/// the octets.
#[tactic(auto, using(crate::proofs::UnescapedTexts::more_written))]
pub(crate) fn push_unescaped(text: &[u8], out: &mut Vec<u8>) -> Result<(), WordsFailing>
    ensures states { OnOk result (AppendsStated (Unescaped text.now) out.old.items out.new.items) }
    ensures fault { IfErr result
        (IfFault (λ fault. (fault ≡ BadEscape) × ComesToBadEscape text.now)) }
{
    let mut rest = text;
    loop {
        match next_unit(rest) {
            NextUnit::End => return Ok(()),
            NextUnit::Octet(octet, after) => {
                out.extend_from_slice(&[octet])?;
                rest = after;
            }
            NextUnit::BadEscape => return Err(WordsFailing::Fault(WordsFault::BadEscape)),
        }
    }
}
