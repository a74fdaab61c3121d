ghost use Rattle.std.specs.Prelude.{◌≡◌, ◌≤◌, ◌*◌, ◌∷◌, length, take, true, IfSome, IfNone, option_map};
ghost use Rattle.std.specs.List.{flat_map};
ghost use Rattle.zone_name.specs.Machine.Units.{digits_first, valued};
ghost use Rattle.zone_name.specs.NextUnit.{IsNextUnit};
ghost use Rattle.zone_name.specs.Spelling.{BeginsWithEscape, IsBadEscape, is_digit};
ghost use Rattle.zone_name.specs.Text.{decimal_escape, is_special, octet_text};

use crate::lanes::put;

/// The written octet that a text begins with (RFC 1035 5.1).
#[derive(Drop)]
pub enum NextUnit<'t> {
    /// The text ends.
    End,
    /// An octet, by itself or by an escape, and the rest of the text.
    Octet(u8, &'t [u8]),
    /// A backslash that begins no escape.
    BadEscape,
}

/// The octet that a text begins with, by itself or by an escape (RFC 1035 5.1). Only a backslash
/// does not stand for itself.
#[tactic(auto, using(crate::proofs::Spelling::Units::plain_found))]
pub fn next_unit(text: &[u8]) -> NextUnit<'_>
    ensures { IsNextUnit text.now result }
{
    let Some((first, after)) = text.split_first() else {
        return NextUnit::End;
    };
    if *first != b'\\' {
        return NextUnit::Octet(*first, after);
    }
    match escape_at(after) {
        Some((octet, rest)) => NextUnit::Octet(octet, rest),
        None => NextUnit::BadEscape,
    }
}

/// The octet that an escape stands for, and what follows the escape (RFC 1035 5.1), of a text that
/// follows its backslash. `None`: the backslash begins no escape.
#[tactic(auto, using(crate::proofs::Spelling::Units::escapes_found))]
pub fn escape_at(after: &[u8]) -> Option<(u8, &[u8])>
    ensures found { IfSome result (λ read. BeginsWithEscape (92 ∷ after.now) read.0 read.1.now) }
    ensures none { IfNone result (IsBadEscape (92 ∷ after.now)) }
{
    let (first, rest) = after.split_first()?;
    if first.is_ascii_digit() {
        digits_at(*first, rest)
    } else if *first == b'\n' || *first == b'\r' {
        None
    } else {
        Some((*first, rest))
    }
}

/// The octet of three digits, of which the first was read, and what follows them.
fn digits_at(first: u8, after: &[u8]) -> Option<(u8, &[u8])>
    requires { is_digit first ≡ true }
    ensures { option_map (λ read. (read.0, read.1.now)) result
        ≡ valued (digits_first first after.now) }
{
    match after {
        [second, third, rest @ ..] => {
            if !second.is_ascii_digit() || !third.is_ascii_digit() {
                return None;
            }
            let value = 100 * (first - b'0') as u16
                + 10 * (*second - b'0') as u16
                + (*third - b'0') as u16;
            if value <= 255 {
                Some((value as u8, rest))
            } else {
                None
            }
        }
        _ => None,
    }
}

/// The escape of an octet: a backslash and three decimal digits (RFC 1035 5.1).
pub fn decimal_escape(octet: u8) -> [u8; 4]
    ensures { result ≡ decimal_escape octet }
{
    [
        b'\\',
        b'0' + octet / 100,
        b'0' + octet / 10 % 10,
        b'0' + octet % 10,
    ]
}

/// Whether the octet means something else inside a master file, and takes a backslash (RFC 1035
/// 5.1).
pub(crate) fn is_special_octet(octet: u8) -> bool
    ensures { result ≡ is_special octet }
{
    octet == b'"'
        || octet == b'$'
        || octet == b'('
        || octet == b')'
        || octet == b'.'
        || octet == b';'
        || octet == b'@'
        || octet == b'\\'
}

/// How many octets an escape has, at most.
pub(crate) const LONGEST_ESCAPE: usize = 4;

/// Writes the spelling of octets over the first of the room, and returns how many octets it has.
pub(crate) fn spell(room: &mut [u8], octets: &[u8]) -> usize
    requires { 4 * length octets.now ≤ length room.old }
    ensures room { length room.new ≡ length room.old }
    ensures fits { result ≤ length room.new }
    ensures text { take result room.new ≡ flat_map octet_text octets.now }
{
    let mut at = 0;
    for octet in octets {
        let (text, len) = spelled(*octet);
        put(room, at, &text);
        at += len;
    }
    at
}

/// An octet's spelling, and how many octets it has. Those after it say nothing.
fn spelled(octet: u8) -> ([u8; LONGEST_ESCAPE], usize)
    ensures len { result.1 ≤ 4 }
    ensures text { take result.1 result.0 ≡ octet_text octet }
{
    if octet < b'!' || octet > b'~' {
        (decimal_escape(octet), 4)
    } else if is_special_octet(octet) {
        ([b'\\', octet, 0, 0], 2)
    } else {
        ([octet, 0, 0, 0], 1)
    }
}
