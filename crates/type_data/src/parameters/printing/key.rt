ghost use Rattle.std.specs.Prelude.{◌≡◌, ◌++◌, OnOk};
ghost use Rattle.type_data.specs.Parameters.Keys.{key_text};
ghost use Rattle.type_data.specs.Parameters.Printed as printed;

use crate::parameters::key::Key;
use std::alloc::AllocError;
use zone_rdata::push_decimal;

/// The key of a number: the one that has a name, if there is one.
pub(super) fn usual_key(number: u16) -> Key
    ensures { result ≡ printed.usual_key number }
{
    match number {
        0 => Key::Mandatory,
        1 => Key::Alpn,
        2 => Key::NoDefaultAlpn,
        3 => Key::Port,
        4 => Key::Ipv4Hint,
        5 => Key::Ech,
        6 => Key::Ipv6Hint,
        7 => Key::DohPath,
        8 => Key::Ohttp,
        _ => Key::Numbered(number),
    }
}

/// Appends a key by its name, or else `key` and its number.
pub(super) fn print_key(key: Key, out: &mut Vec<u8>) -> Result<(), AllocError>
    ensures { OnOk result (out.new.items ≡ out.old.items ++ key_text key) }
{
    match key {
        Key::Mandatory => out.extend_from_slice(b"mandatory"),
        Key::Alpn => out.extend_from_slice(b"alpn"),
        Key::NoDefaultAlpn => out.extend_from_slice(b"no-default-alpn"),
        Key::Port => out.extend_from_slice(b"port"),
        Key::Ipv4Hint => out.extend_from_slice(b"ipv4hint"),
        Key::Ech => out.extend_from_slice(b"ech"),
        Key::Ipv6Hint => out.extend_from_slice(b"ipv6hint"),
        Key::DohPath => out.extend_from_slice(b"dohpath"),
        Key::Ohttp => out.extend_from_slice(b"ohttp"),
        Key::Numbered(number) => {
            out.extend_from_slice(b"key")?;
            push_decimal(u32::from(number), out)
        }
    }
}
