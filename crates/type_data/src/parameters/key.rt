ghost use Rattle.std.specs.Prelude.{◌≡◌, IfSome, IfNone};
ghost use Rattle.zone_name.specs.Common.{NothingIs};
ghost use Rattle.type_data.specs.Parameters.Machine.Parts.{IsKeyNumber, IsNamed};
ghost use Rattle.type_data.specs.Parameters.Keys.{number_of, SpellsKey};

use itoa::Buffer;
use zone_rdata::decimal_of;

/// A key of a parameter as its text states it (RFC 9460 14.3.2; `ech` RFC 9848, `dohpath` RFC 9461
/// 5, `ohttp` RFC 9540 4).
#[derive(Clone, Copy, Debug)]
pub(crate) enum Key {
    /// `mandatory`, 0.
    Mandatory,
    /// `alpn`, 1.
    Alpn,
    /// `no-default-alpn`, 2.
    NoDefaultAlpn,
    /// `port`, 3.
    Port,
    /// `ipv4hint`, 4.
    Ipv4Hint,
    /// `ech`, 5.
    Ech,
    /// `ipv6hint`, 6.
    Ipv6Hint,
    /// `dohpath`, 7.
    DohPath,
    /// `ohttp`, 8.
    Ohttp,
    /// `keyN`: the number N, whose value is opaque octets even where it has a name.
    Numbered(u16),
}

impl Key {
    /// Its number on the wire.
    pub(crate) fn number(self) -> u16
        ensures { result ≡ number_of self }
    {
        match self {
            Key::Mandatory => 0,
            Key::Alpn => 1,
            Key::NoDefaultAlpn => 2,
            Key::Port => 3,
            Key::Ipv4Hint => 4,
            Key::Ech => 5,
            Key::Ipv6Hint => 6,
            Key::DohPath => 7,
            Key::Ohttp => 8,
            Key::Numbered(number) => number,
        }
    }
}

/// The number below 65,535 that digits without leading zeros stand for. `None`: the text isn't so.
fn number_in(digits: &[u8]) -> Option<u16>
    ensures found { IfSome result (IsKeyNumber digits.now) }
    ensures none { IfNone result (NothingIs (IsKeyNumber digits.now)) }
{
    let number = decimal_of(digits)?;
    if number >= 65535 {
        return None;
    }
    let number = number as u16;
    let mut buffer = Buffer::new();
    if buffer.format(number).as_bytes() != digits {
        return None;
    }
    Some(number)
}

/// The key that is named so.
fn named(text: &[u8]) -> Option<Key>
    ensures found { IfSome result (IsNamed text.now) }
    ensures none { IfNone result (NothingIs (IsNamed text.now)) }
{
    match text {
        b"mandatory" => Some(Key::Mandatory),
        b"alpn" => Some(Key::Alpn),
        b"no-default-alpn" => Some(Key::NoDefaultAlpn),
        b"port" => Some(Key::Port),
        b"ipv4hint" => Some(Key::Ipv4Hint),
        b"ech" => Some(Key::Ech),
        b"ipv6hint" => Some(Key::Ipv6Hint),
        b"dohpath" => Some(Key::DohPath),
        b"ohttp" => Some(Key::Ohttp),
        _ => None,
    }
}

/// The key that a text states. `None`: it is no key.
pub(crate) fn key_of(text: &[u8]) -> Option<Key>
    ensures found { IfSome result (SpellsKey text.now) }
    ensures none { IfNone result (NothingIs (SpellsKey text.now)) }
{
    if let Some(digits) = text.strip_prefix(b"key") {
        return Some(Key::Numbered(number_in(digits)?));
    }
    named(text)
}
