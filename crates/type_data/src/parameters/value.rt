ghost use Rattle.std.specs.Prelude.{IfErr, OnOk};
ghost use Rattle.type_data.specs.Fault.{AppendsStated, IfFault};
ghost use Rattle.type_data.specs.Parameters.Value.{FailsValue, RequiresKeys, StatesValue};

use super::addresses::read_addresses;
use super::key::Key;
use super::keys::read_mandatory;
use super::protocols::read_protocols;
use super::single::{read_ech, read_none, read_path, read_port};
use crate::fault::WordsFailing;
use crate::kinds::Version;
use crate::unescaped::push_unescaped;

/// Appends the octets of the value of a key, and adds the keys that it makes mandatory to those
/// that are required.
///
/// # Errors
///
/// `BadEscape` where escapes are undone and one is none, and else `NotAValue`; and want of memory.
/// Some of either may have been appended.
pub(super) fn read_value(
    key: Key,
    text: &[u8],
    required: &mut Vec<u16>,
    out: &mut Vec<u8>,
) -> Result<(), WordsFailing>
    ensures stated { OnOk result
        (AppendsStated (StatesValue key text.now) out.old.items out.new.items) }
    ensures required { OnOk result
        (AppendsStated (RequiresKeys key text.now) required.old.items required.new.items) }
    ensures fault { IfErr result (IfFault (FailsValue key text.now)) }
{
    match key {
        Key::Mandatory => read_mandatory(text, required, out),
        Key::Alpn => read_protocols(text, out),
        Key::NoDefaultAlpn => read_none(text, out),
        Key::Port => read_port(text, out),
        Key::Ipv4Hint => read_addresses(Version::V4, text, out),
        Key::Ech => read_ech(text, out),
        Key::Ipv6Hint => read_addresses(Version::V6, text, out),
        Key::DohPath => read_path(text, out),
        Key::Ohttp => read_none(text, out),
        Key::Numbered(_) => push_unescaped(text, out),
    }
}
