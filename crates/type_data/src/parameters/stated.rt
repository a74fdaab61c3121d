ghost use Rattle.std.specs.BTreeMap.{get};
ghost use Rattle.std.specs.List.{AllByRecursion, flat_map};
ghost use Rattle.std.specs.Ordering.{nat_cmp};
ghost use Rattle.std.specs.Prelude.{◌≡◌, ◌↔◌, ◌++◌, ◌∷◌, ◌≤◌, ◌<◌, [], List, length, map, drop, is_some, true, IsTrue, IfErr, IfOk, OnOk};
ghost use Rattle.type_data.specs.DataItem.{given, TouchingItem};
ghost use Rattle.type_data.specs.Fault.{IfFault};
ghost use Rattle.type_data.specs.Parameters.Machine.Parts.{text_of};
ghost use Rattle.type_data.specs.Parameters.Machine.Stated.{AddsParameter, FailsAfter, Holds, IsLong, AreSent, all_sent, HasStated};
ghost use Rattle.type_data.specs.Parameters.{FailsParameters, IsShort, Parameter, Sent, longest_value, sent_octets};
ghost use Rattle.type_data.specs.declared.fault.WordsFault.TheVariants as faults;

use super::key::key_of;
use super::text::{ParameterText, first_parameter};
use super::value::read_value;
use crate::data_item::DataItem;
use crate::fault::{WordsFailing, WordsFault};
use std::alloc::{AllocError, Global};
use std::collections::BTreeMap;

/// The most octets of a value: their number is one of 16 bits (RFC 9460 2.2).
const LONGEST_VALUE: usize = 65535;

/// The parameters that were read.
#[derive(Drop)]
pub(super) struct Stated {
    /// The octets of the values by the numbers of their keys.
    pub values: BTreeMap<u16, Vec<u8>>,
    /// The keys that have to be there.
    pub required: Vec<u16>,
}

/// Adds a parameter to those that were read.
fn add_parameter(text: ParameterText, stated: &mut Stated) -> Result<(), WordsFailing>
    ensures adds { OnOk result (AddsParameter (text_of text.entry) stated.old stated.new) }
    ensures fault { IfErr result (IfFault (λ fault. (before : List Parameter)
        → Holds stated.old before → FailsAfter before (text_of text.entry) fault)) }
{
    let Some(key) = key_of(text.key) else {
        return Err(WordsFault::NotAKey.into());
    };
    let number = key.number();
    if stated.values.contains_key(&number) {
        return Err(WordsFault::RepeatedKey.into());
    }
    let mut value = Vec::new(*stated.required.allocator());
    read_value(key, text.value, &mut stated.required, &mut value)?;
    match stated.values.insert(number, value) {
        Ok(_) => Ok(()),
        Err(failed) => Err(AllocError::from(failed).into()),
    }
}

/// Reads the parameter that the items begin with, and answers how many items it takes.
fn read_parameter(items: &[DataItem], stated: &mut Stated) -> Result<usize, WordsFailing>
    requires { 0 < length items.now }
    ensures reads { IfOk result (λ count. (all : List TouchingItem)
        → HasStated all (map given items.now) stated.old
        → HasStated all (map given (drop count items.now)) stated.new) }
    ensures within { IfOk result (λ count. (0 < count) × (count ≤ length items.now)) }
    ensures fault { IfErr result (IfFault (λ fault. (all : List TouchingItem)
        → HasStated all (map given items.now) stated.old → FailsParameters all fault)) }
{
    let Some((text, count)) = first_parameter(items) else {
        return Err(WordsFault::NotAKey.into());
    };
    add_parameter(text, stated)?;
    Ok(count)
}

/// Reads the parameters that all the items state.
pub(super) fn stated_parameters(alloc: Global, items: &[DataItem]) -> Result<Stated, WordsFailing>
    ensures found { IfOk result (HasStated (map given items.now) []) }
    ensures fault { IfErr result (IfFault (FailsParameters (map given items.now))) }
{
    let mut stated = Stated {
        values: BTreeMap::new(alloc),
        required: Vec::new(alloc),
    };
    let mut place = 0;
    while place < items.len() {
        place += read_parameter(&items[place..], &mut stated)?;
    }
    Ok(stated)
}

/// Whether the keys that have to be there are.
pub(super) fn has_required(stated: &Stated) -> bool
    ensures { IsTrue result ↔ AllByRecursion (λ n. is_some (get nat_cmp stated.now.values n) ≡ true)
        stated.now.required.items }
{
    for number in stated.required.as_slice() {
        if !stated.values.contains_key(number) {
            return false;
        }
    }
    true
}

/// Appends the octets of a parameter: its key, the number of the value's octets, and these (RFC
/// 9460 2.2).
fn push_parameter(number: u16, value: &[u8], out: &mut Vec<u8>) -> Result<(), WordsFailing>
    ensures sent { OnOk result ((length value.now ≤ longest_value) × (out.new.items ≡ out.old.items
        ++ sent_octets (record { number = number; octets = value.now }))) }
    ensures fault { IfErr result
        (IfFault (λ fault. (fault ≡ faults.TooLong) × (longest_value < length value.now))) }
{
    if value.len() > LONGEST_VALUE {
        return Err(WordsFault::TooLong.into());
    }
    let length = value.len() as u16;
    out.extend_from_slice(&number.to_be_bytes())?;
    out.extend_from_slice(&length.to_be_bytes())?;
    out.extend_from_slice(value)?;
    Ok(())
}

/// Appends the octets of parameters, in ascending order of their keys.
pub(super) fn push_sent(
    values: &BTreeMap<u16, Vec<u8>>,
    out: &mut Vec<u8>,
) -> Result<(), WordsFailing>
    ensures sent { OnOk result (AreSent values.now out.old.items out.new.items) }
    ensures fault { IfErr result (IfFault (IsLong values.now)) }
{
    for (number, value) in values.iter() {
        push_parameter(*number, value.as_slice(), out)?;
    }
    Ok(())
}
