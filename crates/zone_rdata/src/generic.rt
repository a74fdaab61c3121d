ghost use Rattle.std.specs.Prelude.{◌≡◌, ◌≢◌, ◌≤◌, length, map, IfErr, OnOk, Ok};
ghost use Rattle.hex.specs.Hex.{decode_of, encode_lower};
ghost use Rattle.zone_name.specs.Common.{Octets};
ghost use Rattle.zone_rdata.specs.Fault.{IfFault, NoValue};
ghost use Rattle.zone_rdata.specs.Generic.{GenericFault, JoinTo, StatesGeneric};
ghost use Rattle.zone_rdata.specs.Appended.{Appends};
ghost use Rattle.zone_rdata.specs.Item.{IsGeneric, raw};

use crate::cause::Cause;
use crate::fault::Fault;
use crate::hexadecimal::push_octets_of_hex;
use crate::item::Item;
use crate::limits::LONGEST_DATA;
use crate::narrow_failing::NarrowFailing;
use crate::number::decimal_of;

/// Reads the octets that items state in the generic form: `\#`, their number, and their hexadecimal
/// digits (RFC 3597 5). They come in the place of those of before.
///
/// # Errors
///
/// The first of: `BadGeneric` for a length that is missing or no decimal number, `RdataTooLong` for
/// one over 65,535, and `BadGeneric` for digits that aren't those of so many octets; and `Memory`
/// where memory is refused.
#[tactic(auto, using(crate::proofs::Items::GenericLaws::generic_read))]
pub(crate) fn read_generic(items: &[Item], octets: &mut Vec<u8>) -> Result<(), NarrowFailing>
    requires { IsGeneric (map raw items.now) }
    ensures found { OnOk result (StatesGeneric (map raw items.now) octets.new.items) }
    ensures fault { IfErr result (IfFault (GenericFault (map raw items.now))) }
{
    let [_, first, digits @ ..] = items else {
        return Err(NarrowFailing::of(Cause::BadGeneric));
    };
    let Item::Bare(length) = *first else {
        return Err(NarrowFailing::of(Cause::BadGeneric));
    };
    match decimal_of(length) {
        None => Err(NarrowFailing::of(Cause::BadGeneric)),
        Some(len) if len > LONGEST_DATA as u64 => Err(NarrowFailing::of(Cause::RdataTooLong)),
        Some(len) => join_digits(digits, len as usize, octets),
    }
}

/// Joins the items' digits to octets, so many, which come in the place of those of before.
fn join_digits(items: &[Item], len: usize, octets: &mut Vec<u8>) -> Result<(), NarrowFailing>
    requires { len ≤ LONGEST_DATA }
    ensures found { OnOk result (JoinTo (map raw items.now) octets.new.items) }
    ensures count { OnOk result (length octets.new.items ≡ len) }
    ensures fault { IfErr result (IfFault (λ f. (f ≡ Fault.BadGeneric)
        × ((octets : Octets) → JoinTo (map raw items.now) octets → length octets ≢ len))) }
{
    octets.clear();
    octets.reserve(len)?;
    for item in items {
        let Item::Bare(text) = *item else {
            return Err(NarrowFailing::of(Cause::BadGeneric));
        };
        if text.len() / 2 > len - octets.len() {
            return Err(NarrowFailing::of(Cause::BadGeneric));
        }
        if !push_octets_of_hex(text, octets)? {
            return Err(NarrowFailing::of(Cause::BadGeneric));
        }
    }
    if octets.len() < len {
        return Err(NarrowFailing::of(Cause::BadGeneric));
    }
    Ok(())
}
