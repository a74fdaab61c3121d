ghost use Rattle.std.specs.Prelude.{◌≡◌, ◌<◌, ◌^◌, ◌++◌, ◌∷◌, [], length, true, IfErr, IfNone, IfSome, OnOk};
ghost use Rattle.std.specs.Int.{to_be_bytes, w16};
ghost use Rattle.type_data.specs.Parameters.Machine.Printed.{AppendsUnquoted, AreKeys, IsAfterKey, StopsAs, all_sent, key_texts, marked, numbers_in};
ghost use Rattle.type_data.specs.Parameters.{Ascend};
ghost use Rattle.type_data.specs.Parameters.Printed.{PrintsKeys};
ghost use Rattle.type_data.specs.Printed.{IfNoData};

use super::key::{print_key, usual_key};
use super::sent::Parameter;
use crate::unprinted::Unprinted;
use std::alloc::AllocError;

/// The number of the key at the front, and what is left. `None`: there are less than two octets.
fn next_key(keys: &[u8]) -> Option<(u16, &[u8])>
    ensures found { IfSome result (λ next. keys.now ≡ to_be_bytes w16 next.0 ++ next.1.now) }
    ensures small { IfSome result (λ next. next.0 < 2 ^ 16) }
    ensures none { IfNone result (length keys.now < 2) }
{
    match keys {
        [high, low, rest @ ..] => Some((u16::from_be_bytes([*high, *low]), rest)),
        _ => None,
    }
}

/// What is left of keys where the first is this one, and isn't 0; else all of them.
fn after_key(key: u16, keys: &[u8]) -> &[u8]
    ensures { IsAfterKey key keys.now result.now }
{
    let Some((first, rest)) = next_key(keys) else {
        return keys;
    };
    if first != key || key == 0 {
        return keys;
    }
    rest
}

/// Whether these are the numbers of keys in ascending order, none of them 0, and each that of a
/// parameter.
fn are_there(keys: &[u8], parameters: &[Parameter]) -> bool
    requires { Ascend (all_sent parameters.now) }
    ensures there { result ≡ true → AreKeys (all_sent parameters.now) (numbers_in keys.now) keys.now }
    ensures only { AreKeys (all_sent parameters.now) (numbers_in keys.now) keys.now → result ≡ true }
{
    let mut wanted = keys;
    for parameter in parameters {
        wanted = after_key(parameter.key, wanted);
    }
    wanted.is_empty()
}

/// Appends keys with commas between, after `=`.
fn print_keys(keys: &[u8], out: &mut Vec<u8>) -> Result<(), AllocError>
    ensures { OnOk result
        (out.new.items ≡ out.old.items ++ marked (61 ∷ []) (key_texts (numbers_in keys.now))) }
{
    let mut mark: &[u8] = b"=";
    let mut rest = keys;
    while let Some((key, after)) = next_key(rest) {
        out.extend_from_slice(mark)?;
        print_key(usual_key(key), out)?;
        mark = b",";
        rest = after;
    }
    Ok(())
}

/// Appends the keys that have to be there, which ascend and are those of parameters (RFC 9460 8).
pub(super) fn print_mandatory(
    value: &[u8],
    parameters: &[Parameter],
    out: &mut Vec<u8>,
) -> Result<(), Unprinted>
    requires { Ascend (all_sent parameters.now) }
    ensures printed { OnOk result (AppendsUnquoted
        (λ text. PrintsKeys (all_sent parameters.now) text value.now) out.old.items out.new.items) }
    ensures none { IfErr result (IfNoData (StopsAs
        (0 < length value.now → AreKeys (all_sent parameters.now) (numbers_in value.now) value.now → ⊥)
        out.old.items out.new.items)) }
{
    if value.is_empty() || !are_there(value, parameters) {
        return Err(Unprinted::NoData);
    }
    print_keys(value, out)?;
    Ok(())
}
