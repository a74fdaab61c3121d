//! Type bitmaps (RFC 4034 4.1.2).
ghost use Rattle.std.specs.Prelude.{◌≡◌, ◌≢◌, ◌/◌, ◌-◌, ◌<◌, ◌≤◌, ◌↔◌, ℕ, List, length, slice_index, take, IfErr, IfOk, OnOk};
ghost use Rattle.std.specs.List.{AllByRecursion, Contains};
ghost use Rattle.std.specs.List.Sorted.{IsNonDecreasing};
ghost use Rattle.type_data.specs.Fault.{AppendsStated};
ghost use Rattle.type_data.specs.Kinds.Bitmap.{HasBit, IsBitmapOf, Window};
ghost use Rattle.type_data.specs.Kinds.Bitmap.Machine.{AppendsWindow, BeginsWithWindow, HavePlace, window_of};
ghost use Rattle.type_data.specs.Printed.{IfNoData};

use crate::taking::{take_counted, take_u8};
use crate::unprinted::Unprinted;
use std::alloc::AllocError;

/// The octets of bits that a window has at most.
const WINDOW_LEN: usize = 32;

/// Appends the windows of types in ascending order, any of which may stand there more than once.
pub(super) fn push_windows(types: &[u16], out: &mut Vec<u8>) -> Result<(), AllocError>
    requires { IsNonDecreasing types.now }
    ensures { OnOk result
        (AppendsStated (IsBitmapOf (Contains types.now)) out.old.items out.new.items) }
{
    let mut rest = types;
    while let Some(first) = rest.first() {
        let window = (*first / 256) as u8;
        let (own, after) = rest.split_at(count_in_window(window, rest));
        push_window(window, &window_bits(own), out)?;
        rest = after;
    }
    Ok(())
}

/// How many types at the front are those of a window.
fn count_in_window(window: u8, types: &[u16]) -> usize
    ensures within { result ≤ length types.now }
    ensures own { AllByRecursion (λ n. n / 256 ≡ window) (take result types.now) }
    ensures other { result < length types.now → slice_index types.now result / 256 ≢ window }
{
    for (index, number) in types.iter().enumerate() {
        if *number / 256 != u16::from(window) {
            return index;
        }
    }
    types.len()
}

/// The bits of types in their window, from the highest of the first octet on.
fn window_bits(types: &[u16]) -> [u8; WINDOW_LEN]
    ensures len { length result ≡ 32 }
    ensures bits { (k : ℕ) → HasBit result k ↔ HavePlace types.now k }
{
    let mut bits = [0; WINDOW_LEN];
    for number in types {
        bits[usize::from(*number % 256 / 8)] |= 1 << (7 - *number % 8);
    }
    bits
}

/// Appends a window up to its last octet that isn't 0, if it has one.
fn push_window(number: u8, bits: &[u8], out: &mut Vec<u8>) -> Result<(), AllocError>
    requires { length bits.now ≤ 32 }
    ensures { OnOk result (AppendsWindow number bits.now out.old.items out.new.items) }
{
    let len = trimmed_len(bits);
    if len == 0 {
        return Ok(());
    }
    out.extend_from_slice(&[number, len as u8])?;
    out.extend_from_slice(&bits[..len])?;
    Ok(())
}

/// How many octets there are up to the last that isn't 0.
pub(super) fn trimmed_len(bits: &[u8]) -> usize
    ensures few { result ≤ length bits.now }
    ensures last { 0 < result → slice_index bits.now (result - 1) ≢ 0 }
    ensures after { (k : ℕ) → result ≤ k → slice_index bits.now k ≡ 0 }
{
    let mut len = bits.len();
    while len > 0 && bits[len - 1] == 0 {
        len -= 1;
    }
    len
}

/// The window at the front, as its number and its bits, and what is left.
///
/// # Errors
///
/// `NoData` where no window stands there: they end before, or there are none of its bits, too many,
/// or the last octet of them is 0.
pub(super) fn take_window(octets: &[u8]) -> Result<(u8, &[u8], &[u8]), Unprinted>
    ensures window { IfOk result (λ parts.
        BeginsWithWindow octets.now (window_of parts.0 parts.1.now) parts.2.now) }
    ensures none { IfErr result (IfNoData ((w : Window) (rest : List ℕ)
        → BeginsWithWindow octets.now w rest → ⊥)) }
    ensures less { IfOk result (λ parts. length parts.2.now < length octets.now) }
{
    let (number, rest) = take_u8(octets)?;
    let (bits, rest) = take_counted(rest)?;
    match bits.last() {
        Some(last) if *last != 0 && bits.len() <= WINDOW_LEN => Ok((number, bits, rest)),
        _ => Err(Unprinted::NoData),
    }
}
