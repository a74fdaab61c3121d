//! The words that are printed for a type's data.
ghost use Rattle.std.specs.Prelude.{◌≤◌, IfErr, OnOk, length, map};
ghost use Rattle.zone_rdata.specs.Limits.{longest_data};
ghost use Rattle.type_data.specs.Kinds.HostIdentity.Machine.{HasNoLengthsFirst, PutsLengthsWithin};
ghost use Rattle.type_data.specs.Machine.PrintedFields.{OnlyLastPrintsAll};
ghost use Rattle.type_data.specs.Parameters.Printed.{PrintsTouching};
ghost use Rattle.type_data.specs.Printed.{ArePrinted, IfNoData};
ghost use Rattle.type_data.specs.PrintedData.{AreItsWords, AreOfAType, HasNoWords, NoItemsOf, PrintsData, PrintsFields};
ghost use Rattle.type_data.specs.Table.{field_of, of_amtrelay, of_code, of_hip, of_ipseckey};

use crate::data::LONGEST_DATA;
use crate::field::Field;
use crate::fields::{Fields, amtrelay_by, hip_fields, ipseckey_by};
use crate::kinds::{print_discovery, print_u8};
use crate::taking::{take, take_u8};
use crate::unprinted::Unprinted;

/// Puts the words of data in place of what `words` held, each after a blank but for an item that
/// touches the one before it. A terminal shows each of their octets as it is.
///
/// # Errors
///
/// `NoData` where no items state the octets as data of these fields, and `OutOfMemory`. `words` may
/// have got some words.
pub fn print_data(fields: Fields, octets: &[u8], words: &mut Vec<u8>) -> Result<(), Unprinted>
    ensures printed { OnOk result
        (AreItsWords (of_code fields) octets.now words.new.items) }
    ensures shown { OnOk result (ArePrinted words.new.items) }
    ensures none { IfErr result
        (IfNoData (AreOfAType (of_code fields) → HasNoWords (of_code fields) octets.now)) }
{
    words.clear();
    if octets.len() > LONGEST_DATA {
        return Err(Unprinted::NoData);
    }
    match fields {
        Fields::Same(fields) => print_fields(fields, octets, words),
        Fields::Ipseckey => print_ipseckey(octets, words),
        Fields::Amtrelay => print_amtrelay(octets, words),
        Fields::Hip => print_hip(octets, words),
    }
}

/// Appends the words of fields, one after another.
///
/// # Errors
///
/// `NoData` where no items state the octets as these fields, of which none but the last is printed
/// for all octets that are left; and `OutOfMemory`.
fn print_fields(fields: &[Field], octets: &[u8], out: &mut Vec<u8>) -> Result<(), Unprinted>
    ensures printed { OnOk result (PrintsTouching (PrintsFields (map field_of fields.now))
        octets.now out.old.items out.new.items) }
    ensures none { IfErr result (IfNoData (OnlyLastPrintsAll (map field_of fields.now)
        → NoItemsOf (map field_of fields.now) octets.now)) }
{
    let mut rest = octets;
    for field in fields {
        rest = field.1.print(rest, out)?;
    }
    if rest.is_empty() {
        Ok(())
    } else {
        Err(Unprinted::NoData)
    }
}

/// Appends the words of IPSECKEY data (RFC 4025 3.1).
///
/// # Errors
///
/// `NoData` where no items state the octets, and `OutOfMemory`.
fn print_ipseckey(octets: &[u8], out: &mut Vec<u8>) -> Result<(), Unprinted>
    requires { length octets.now ≤ longest_data }
    ensures printed { OnOk result
        (PrintsTouching (PrintsData of_ipseckey) octets.now out.old.items out.new.items) }
    ensures none { IfErr result (IfNoData (HasNoWords of_ipseckey octets.now)) }
{
    let [_, gateway, algorithm, ..] = octets else {
        return Err(Unprinted::NoData);
    };
    let fields = ipseckey_by(Some(u64::from(*gateway)), Some(u64::from(*algorithm)));
    print_fields(&fields, octets, out)
}

/// Appends the words of AMTRELAY data (RFC 8777 4.3.1).
///
/// # Errors
///
/// `NoData` where no items state the octets, and `OutOfMemory`.
fn print_amtrelay(octets: &[u8], out: &mut Vec<u8>) -> Result<(), Unprinted>
    requires { length octets.now ≤ longest_data }
    ensures printed { OnOk result
        (PrintsTouching (PrintsData of_amtrelay) octets.now out.old.items out.new.items) }
    ensures none { IfErr result (IfNoData (HasNoWords of_amtrelay octets.now)) }
{
    out.push(b' ')?;
    let rest = print_u8(octets, out)?;
    out.push(b' ')?;
    print_discovery(rest, out)?;
    // The highest bit of the relay's octet is whether its discovery is optional.
    let (octet, _) = take_u8(rest)?;
    let fields = amtrelay_by(Some(u64::from(octet / 128)), Some(u64::from(octet % 128)));
    print_fields(&fields[2..], rest, out)
}

/// Appends the words of HIP data (RFC 8005 6).
///
/// # Errors
///
/// `NoData` where no items state the octets, and `OutOfMemory`.
fn print_hip(octets: &[u8], out: &mut Vec<u8>) -> Result<(), Unprinted>
    requires { length octets.now ≤ longest_data }
    ensures printed { OnOk result
        (PrintsTouching (PrintsData of_hip) octets.now out.old.items out.new.items) }
    ensures none { IfErr result (IfNoData (HasNoWords of_hip octets.now)) }
{
    let mut ordered = Vec::new(*out.allocator());
    push_lengths_within(octets, &mut ordered)?;
    print_fields(&hip_fields(), &ordered, out)
}

/// Appends the octets of HIP data in the order of its fields: the lengths of the tag and of the key,
/// which stand before both, each before its own (RFC 8005 5, 6).
///
/// # Errors
///
/// `NoData` where the octets end before the tag does, and `OutOfMemory`.
fn push_lengths_within(octets: &[u8], out: &mut Vec<u8>) -> Result<(), Unprinted>
    ensures put { OnOk result
        (PutsLengthsWithin octets.now out.old.items out.new.items) }
    ensures none { IfErr result (IfNoData (HasNoLengthsFirst octets.now)) }
{
    let (tag_len, rest) = take_u8(octets)?;
    let (algorithm, rest) = take_u8(rest)?;
    let (key_len, rest) = take(rest, 2)?;
    let (tag, rest) = take(rest, usize::from(tag_len))?;
    out.extend_from_slice(&[algorithm, tag_len])?;
    out.extend_from_slice(tag)?;
    out.extend_from_slice(key_len)?;
    out.extend_from_slice(rest)?;
    Ok(())
}
