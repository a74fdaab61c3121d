ghost use Rattle.std.specs.Prelude.{◌≡◌, ◌↔◌, ◌<◌, ◌≤◌, ◌++◌, ◌+◌, ◌*◌, ◌^◌, [], length, map, List, ℕ, IfNone, IfSome, IsTrue};
ghost use Rattle.zone_name.specs.Name.{IsWithin};
ghost use Rattle.zone_set.specs.Machine.Hint.{first_digits, GathersOnes, IsHint, IsPutBefore};
ghost use Rattle.zone_set.specs.Machine.LabelKey.{inner_digit, owner_key};

use crate::order::are_same;
use crate::owner::{are_ones, first_label, past_far};
use std::cmp::Ordering;
use zone_name::{Name, NameRef};
use zone_rdata::Kind;

/// The hint of an owner before the base, but for those at or below it.
const BEFORE: u64 = 1;

/// The least hint of an owner at or below the base.
const WITHIN: u64 = 2;

/// The hint of an owner after the base, but for those at or below it.
const AFTER: u64 = WITHIN + (1 << 63);

/// How many digits a hint has, each of an octet.
const DIGITS: usize = 9;

/// What a digit to the base 128 counts that two follow.
const TWO: u64 = 128 * 128;

/// What one counts that three follow.
const THREE: u64 = 128 * 128 * 128;

/// The highest of nine digits.
const HIGHEST: u64 = 1 << 56;

/// The lowest bit of each of nine digits, which is 1 in those of octets that share a digit.
const LOWEST_BITS: u64 = 0x0102_0408_1020_4081;

/// The digits of octets that others follow in their label, sixteen a row.
#[rattlefmt::skip]
static INNER_DIGITS: [u8; 256] = [
    1, 1, 1, 1, 1, 1, 1, 1, 1, 1, 1, 1, 1, 1, 1, 1,
    1, 1, 1, 1, 1, 1, 1, 1, 1, 1, 1, 1, 1, 1, 1, 1,
    1, 2, 4, 6, 8, 10, 12, 14, 16, 18, 20, 22, 24, 26, 28, 30,
    32, 34, 36, 38, 40, 42, 44, 46, 48, 50, 52, 54, 56, 58, 60, 62,
    64, 65, 65, 65, 65, 65, 65, 65, 65, 65, 65, 65, 65, 65, 65, 65,
    65, 65, 65, 65, 65, 65, 65, 65, 65, 65, 65, 65, 65, 65, 65, 66,
    68, 70, 72, 74, 76, 78, 80, 82, 84, 86, 88, 90, 92, 94, 96, 98,
    100, 102, 104, 106, 108, 110, 112, 114, 116, 118, 120, 121, 121, 121, 121, 121,
    121, 121, 121, 121, 121, 121, 121, 121, 121, 121, 121, 121, 121, 121, 121, 121,
    121, 121, 121, 121, 121, 121, 121, 121, 121, 121, 121, 121, 121, 121, 121, 121,
    121, 121, 121, 121, 121, 121, 121, 121, 121, 121, 121, 121, 121, 121, 121, 121,
    121, 121, 121, 121, 121, 121, 121, 121, 121, 121, 121, 121, 121, 121, 121, 121,
    121, 121, 121, 121, 121, 121, 121, 121, 121, 121, 121, 121, 121, 121, 121, 121,
    121, 121, 121, 121, 121, 121, 121, 121, 121, 121, 121, 121, 121, 121, 121, 121,
    121, 121, 121, 121, 121, 121, 121, 121, 121, 121, 121, 121, 121, 121, 121, 121,
    121, 121, 121, 121, 121, 121, 121, 121, 121, 121, 121, 121, 121, 121, 121, 121,
];

/// The hint of a record: a number that is never less than that of a record before it in canonical
/// order. Most owners of a zone lie below its base, and these the first octets of the labels before
/// the base's tell apart.
pub(crate) fn hint_of(base: &Name, owner: &NameRef<'_>, kind: Kind) -> u64
    ensures { IsHint base.now owner.now kind result }
{
    if kind.is_soa() {
        return 0;
    }
    match front_key(base, owner) {
        Some(key) => WITHIN + key,
        None => match owner.cmp(&base.lend()) {
            Ordering::Less => BEFORE,
            Ordering::Equal | Ordering::Greater => AFTER,
        },
    }
}

/// How many digits of keys stand before those of types, where hints tell owners whole: those of the
/// base, whose root's octet is none, and those of a hint.
pub(crate) fn told_front(base_len: usize) -> usize {
    base_len.saturating_add(DIGITS - 1)
}

/// The first digit of keys that the hint of an owner at or below the base may not tell. `None`: the
/// hint is another's.
pub(crate) fn first_untold(hint: u64, front: usize) -> Option<usize> {
    if hint < WITHIN || hint >= AFTER {
        return None;
    }
    let key = hint - WITHIN;
    let zeros = (key.trailing_zeros() / 7) as usize;
    // In keys the end of a label has a digit of its own.
    let ends = (key & LOWEST_BITS).count_ones() as usize;
    let told = match key.checked_shr(7 * zeros as u32) {
        // Neither this digit nor what follows it is told.
        Some(digits) if is_shared(digits % 128) => (DIGITS - 1 + ends - 1).saturating_sub(zeros),
        _ if zeros > 0 => DIGITS,
        _ => DIGITS + ends,
    };
    Some(front.saturating_sub(DIGITS).saturating_add(told))
}

/// Whether a digit is one that octets share.
fn is_shared(digit: u64) -> bool {
    digit == one(0) || digit == one(b'A') || digit == one(u8::MAX)
}

/// The first nine digits of the key of the labels before the base's. `None`: the owner doesn't lie
/// at or below the base.
fn front_key(base: &Name, owner: &NameRef<'_>) -> Option<u64>
    ensures within { IfSome result (λ key. (front : List (List ℕ))
        × (owner.now ≡ front ++ base.now) × (key ≡ first_digits 9 (owner_key front))) }
    ensures short { IfSome result (λ key. key < 2 ^ 63) }
    ensures none { IfNone result (IsWithin owner.now base.now → ⊥) }
{
    let ending = base.wire();
    // A label takes up one octet more than it has digits: before eighteen more, nine follow.
    let near = past_far(owner.wire(), ending.len() + 18);
    let (mut key, mut left) = gather_nine(near, ending.len());
    // The octets of the labels that are left become fewer, until they are as many as the base's.
    while left.len() > ending.len() {
        let (label, rest) = first_label(left)?;
        key = put_label(label, key);
        left = rest;
    }
    if are_same(left, ending) {
        Some(key)
    } else {
        None
    }
}

/// The number of the first nine labels, if each is an octet that has digits of its own, as in an
/// address in ip6.arpa (RFC 3596 2.5), and octets follow that are as many as said; and what follows
/// them. Else that of no label.
fn gather_nine(octets: &[u8], near: usize) -> (u64, &[u8])
    requires { near ≤ 255 }
    ensures { GathersOnes octets.now near result.0 result.1.now }
{
    // Most names are short.
    if octets.len() < near + 18 {
        return (0, octets);
    }
    let Some((first, rest)) = octets.split_first_chunk::<18>() else {
        return (0, octets);
    };
    match nine_alone(first) {
        Some(number) => (number, rest),
        None => (0, octets),
    }
}

/// The number of nine labels of one octet each that has digits of its own, the last one's first.
fn nine_alone(octets: &[u8; 18]) -> Option<u64>
    ensures { IfSome result (λ number. GathersOnes octets.now 0 number []) }
{
    let [_, a, _, b, _, c, _, d, _, e, _, f, _, g, _, h, last, i] = *octets;
    if last != 1 || !are_ones(octets.as_slice()) {
        return None;
    }
    let six = three(i, h, g) * THREE + three(f, e, d);
    let digits = six * THREE + three(c, b, a);
    if digits & LOWEST_BITS == 0 {
        // Each ends its label.
        Some(digits - LOWEST_BITS)
    } else {
        None
    }
}

/// Puts a label before the digits of a number, of which the last ones go.
fn put_label(label: &[u8], after: u64) -> u64
    ensures { IsPutBefore label.now after result }
{
    match label {
        [] => after,
        [a] => put_own(label, one(*a), 56, after),
        [a, b] => put_own(label, two(*a, *b), 49, after),
        [a, b, c] => put_own(label, three(*a, *b, *c), 42, after),
        _ => put_longer(label, after),
    }
}

/// Puts a label of four octets or more before the digits of a number, of which the last ones go.
fn put_longer(label: &[u8], after: u64) -> u64
    requires { 4 ≤ length label.now }
    ensures { IsPutBefore label.now after result }
{
    let Some((front, rest)) = label.split_first_chunk::<4>() else {
        unreachable!();
    };
    let [a, b, c, d] = *front;
    let four = three(a, b, c) * 128 + one(d);
    match rest {
        [] => put_own(label, four, 35, after),
        [e] => put_own(label, four * 128 + one(*e), 28, after),
        [e, f] => put_own(label, four * TWO + two(*e, *f), 21, after),
        [e, f, g] => put_own(label, four * THREE + three(*e, *f, *g), 14, after),
        [e, f, g, h] => {
            let seven = four * THREE + three(*e, *f, *g);
            put_own(label, seven * 128 + one(*h), 7, after)
        }
        [e, f, g, h, i, more @ ..] => {
            let seven = four * THREE + three(*e, *f, *g);
            put_nine(label, seven * TWO + two(*h, *i), more.is_empty(), after)
        }
    }
}

/// Puts a label of at most nine octets before the digits of a number, by its own digits, as if octets
/// followed each.
#[inline(always)]
fn put_own(label: &[u8], digits: u64, shift: u32, after: u64) -> u64
    requires some { 0 < length label.now }
    requires room { 7 * length label.now + shift ≡ 63 }
    requires digits { digits ≡ first_digits (length label.now) (map inner_digit label.now) }
    ensures { IsPutBefore label.now after result }
{
    if digits & LOWEST_BITS == 0 {
        // The last octet ends the label.
        ((digits - 1) << shift) + (after >> (63 - shift))
    } else {
        put_octets(label, after)
    }
}

/// Puts a label of nine octets or more in the place of all digits of a number, by its first nine, as
/// if octets followed each.
#[inline(always)]
fn put_nine(label: &[u8], digits: u64, is_all: bool, after: u64) -> u64
    requires long { 9 ≤ length label.now }
    requires all { IsTrue is_all ↔ (length label.now ≡ 9) }
    requires digits { digits ≡ first_digits 9 (map inner_digit label.now) }
    ensures { IsPutBefore label.now after result }
{
    if digits & LOWEST_BITS == 0 {
        digits - is_all as u64
    } else {
        put_octets(label, after)
    }
}

/// Puts a label before the digits of a number, octet by octet.
// Not inlined: hardly any name has an octet that shares its digit.
#[inline(never)]
fn put_octets(label: &[u8], after: u64) -> u64
    ensures { IsPutBefore label.now after result }
{
    let (mut key, mut left, mut ended) = (after, label, 1);
    while let Some((octet, front)) = left.split_last() {
        let digit = one(*octet);
        key = if digit % 2 == 0 {
            (digit - ended) * HIGHEST + key / 128
        } else {
            digit * HIGHEST
        };
        left = front;
        ended = 0;
    }
    key
}

/// The digit of an octet that others follow in its label.
#[inline(always)]
fn one(octet: u8) -> u64
    ensures digit { result ≡ inner_digit octet }
    ensures low { result < 128 }
{
    INNER_DIGITS[octet as usize] as u64
}

/// The digits of two octets.
#[inline(always)]
fn two(a: u8, b: u8) -> u64
    ensures digits { result ≡ inner_digit a * 128 + inner_digit b }
    ensures low { result < 128 * 128 }
{
    one(a) * 128 + one(b)
}

/// The digits of three octets.
#[inline(always)]
fn three(a: u8, b: u8, c: u8) -> u64
    ensures digits { result ≡ (inner_digit a * 128 + inner_digit b) * 128 + inner_digit c }
    ensures low { result < 128 * 128 * 128 }
{
    (one(a) * 128 + one(b)) * 128 + one(c)
}
