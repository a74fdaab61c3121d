ghost use Rattle.std.specs.Prelude.{◌≡◌, ◌<◌, ◌≤◌, Some, IfErr, IfSome, OnOk};
ghost use Rattle.std.specs.Int.{w16, w32, to_be_bytes};
ghost use Rattle.zone_rdata.specs.Fault.{NoValue, IfFault};
ghost use Rattle.zone_rdata.specs.Fields.Number.{SpellsNumber};
ghost use Rattle.zone_rdata.specs.Appended.{Appends};

use crate::fault::Fault;
use crate::narrow_failing::NarrowFailing;
use crate::number::{at_most, decimal_of};

/// Appends the number of 16 bits that decimal digits stand for.
pub(crate) fn push_u16(text: &[u8], octets: &mut Vec<u8>) -> Result<(), NarrowFailing>
    ensures found { OnOk result
        (Appends (SpellsNumber w16 text.now) (to_be_bytes w16) octets.old.items octets.new.items) }
    ensures fault { IfErr result (IfFault (NoValue Fault.BadNumber (SpellsNumber w16 text.now))) }
{
    let number = at_most(u32::from(u16::MAX), decimal_of(text))?;
    octets.extend_from_slice(&(number as u16).to_be_bytes())?;
    Ok(())
}

/// Appends the number that was read, where 32 bits hold it.
pub(crate) fn push_u32(number: Option<u64>, octets: &mut Vec<u8>) -> Result<(), NarrowFailing>
    ensures found { OnOk result (Appends (λ n. (number ≡ Some n) × (n ≤ 4294967295))
        (to_be_bytes w32) octets.old.items octets.new.items) }
    ensures fault { IfErr result
        (IfFault (λ f. (f ≡ Fault.BadNumber) × IfSome number (λ n. 4294967295 < n))) }
{
    let number = at_most(u32::MAX, number)?;
    octets.extend_from_slice(&number.to_be_bytes())?;
    Ok(())
}
