//! The origin of an input, as an argument gives it.
ghost use Rattle.std.specs.Prelude.{IfErr, IfOk};
ghost use Rattle.command_input.specs.Origin.{IsOfOrigin, IsOriginText};

use crate::line_fault::LineFault;
use zone_name::Name;

/// The argument in the place of an origin if the input is a transfer.
const TRANSFER: &str = "transfer";

/// The origin that a text gives, none for a transfer.
///
/// # Errors
///
/// `BadOrigin` if the text is neither an absolute name nor `transfer`.
pub fn origin_of(text: &str) -> Result<Option<Name>, LineFault>
    ensures ordered { IfOk result (IsOriginText text.now) }
    ensures refused { IfErr result (IsOfOrigin IsOriginText text.now) }
{
    if text == TRANSFER {
        return Ok(None);
    }
    match Name::from_text(text.as_bytes(), None) {
        Ok(origin) => Ok(Some(origin)),
        Err(_) => Err(LineFault::BadOrigin),
    }
}
