ghost use Rattle.std.specs.Prelude.{[], ◌≡◌, ◌⊎◌, length, IfErr, OnOk, OnErr};
ghost use Rattle.zone_rdata.specs.Field.{fixed, field_text};
ghost use Rattle.zone_rdata.specs.Fault.{NoValue, IfFault};
ghost use Rattle.zone_rdata.specs.Fields.Address.{IsAddress};
ghost use Rattle.zone_rdata.specs.Appended.{Appends};

use crate::address::{ipv4_octets_of, ipv6_octets_of, push_ipv4, push_ipv6};
use crate::cause::Cause;
use crate::fault::Fault;
use crate::narrow_failing::NarrowFailing;
use zone_name::Sink;

/// Appends the address of so many octets.
pub(crate) fn push_address(
    count: usize,
    text: &[u8],
    octets: &mut Vec<u8>,
) -> Result<(), NarrowFailing>
    ensures found { OnOk result
        (Appends (IsAddress count text.now) (λ address. address) octets.old.items
        octets.new.items) }
    ensures fault { IfErr result (IfFault (NoValue Fault.BadRdata (IsAddress count text.now))) }
{
    match count {
        4 => {
            let address = ipv4_octets_of(text).ok_or(Cause::BadRdata)?;
            octets.extend_from_slice(&address)?;
        }
        16 => {
            let address = ipv6_octets_of(text).ok_or(Cause::BadRdata)?;
            octets.extend_from_slice(&address)?;
        }
        _ => return Err(NarrowFailing::of(Cause::BadRdata)),
    }
    Ok(())
}

/// Appends the text of an address of 4 or 16 octets.
pub(crate) fn push_address_text<S: Sink>(octets: &[u8], out: &mut S) -> Result<(), S::Error>
    requires { (length octets.now ≡ 4) ⊎ (length octets.now ≡ 16) }
    ensures ok { OnOk result (S.takes out.old (field_text (fixed octets.now)) out.new) }
    ensures err { OnErr result (S.takes out.old [] out.new) }
{
    if octets.len() == 4 {
        push_ipv4(octets, out)
    } else {
        push_ipv6(octets, out)
    }
}
