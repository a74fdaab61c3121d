//! What stands before the class word on a line of a canonical text.
ghost use Rattle.std.specs.Prelude.{◌≡◌, ◌≢◌, EachIndex, IfSome, slice_get, slice_index, true};
ghost use Rattle.words_print.specs.Machine.Found.{AreOwnerAndTtl, IsPlainOctet};
ghost use Rattle.type_data.specs.StandingItem.{IsBareText};

use crate::generic_line::around_first;
use zone_text::ttl_of;

/// Whether an octet stands for itself in a bare item: it is a graphic one of ASCII (RFC 20 4), and
/// none of `"`, `(`, `)`, `;` and the backslash.
fn is_plain(octet: u8) -> bool
    ensures { result ≡ true → IsPlainOctet octet }
{
    octet > b' '
        && octet < 127
        && octet != b'"'
        && octet != b'('
        && octet != b')'
        && octet != b';'
        && octet != b'\\'
}

/// Whether octets stand for themselves in a bare item.
fn are_plain(octets: &[u8]) -> bool
    ensures { result ≡ true
        → EachIndex octets.now (λ k. IsPlainOctet (slice_index octets.now k)) }
{
    octets.iter().all(|octet| is_plain(*octet))
}

/// Whether a text is one bare item whose octets stand for themselves.
pub(crate) fn is_plain_word(text: &[u8]) -> bool
    ensures { result ≡ true → IsBareText text.now }
{
    !text.is_empty() && are_plain(text)
}

/// Whether a text is one bare item whose octets stand for themselves, and no directive.
fn is_plain_owner(text: &[u8]) -> bool
    ensures bare { result ≡ true → IsBareText text.now }
    ensures owner { result ≡ true → IfSome (slice_get text.now 0) (λ c. c ≢ 36) }
{
    match text.first() {
        Some(b'$') => false,
        _ => is_plain_word(text),
    }
}

/// Whether octets are an owner and a TTL, a blank after each, in which all octets stand for
/// themselves.
pub(crate) fn are_owner_and_ttl(octets: &[u8]) -> bool
    ensures { result ≡ true → AreOwnerAndTtl octets.now }
{
    let Some((owner, rest)) = around_first(b' ', octets) else {
        return false;
    };
    let Some((ttl, back)) = around_first(b' ', rest) else {
        return false;
    };
    if !back.is_empty() {
        return false;
    }
    if !is_plain_owner(owner) {
        return false;
    }
    if !is_plain_word(ttl) {
        return false;
    }
    ttl_of(ttl).is_some()
}
