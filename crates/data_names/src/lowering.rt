//! Data with its names in lower case (RFC 4034 6.2).
ghost use Rattle.std.specs.Prelude.{◌≡◌, ◌↔◌, ◌++◌, ℕ, List, map, IsTrue, OnOk};
ghost use Rattle.data_names.specs.NamesInData.{IsLowered, names_in};
ghost use Rattle.zone_name.specs.Name.{folded_octet};

use crate::names::split_names;
use crate::table::FoldedTypes;
use std::alloc::AllocError;

/// Whether no octet is a letter in upper case.
fn is_low(octets: &[u8]) -> bool
    ensures { IsTrue result ↔ (map folded_octet octets.now ≡ octets.now) }
{
    let mut left = octets;
    while let Some((octet, rest)) = left.split_first() {
        if octet.is_ascii_uppercase() {
            return false;
        }
        left = rest;
    }
    true
}

/// Returns whether data of a type is the same with its names in lower case (RFC 4034 6.2). It is, if
/// none of them has a letter in upper case, and if it has no names at their place.
///
/// ```
/// assert!(stays_low(FoldedTypes::Canonical, 39, b"\x01a\x00")); // DNAME a.
/// assert!(!stays_low(FoldedTypes::Canonical, 39, b"\x01A\x00"));
/// ```
pub fn stays_low(types: FoldedTypes, kind: u16, octets: &[u8]) -> bool
    ensures { IsTrue result
        ↔ IsLowered (names_in types kind octets.now) octets.now octets.now }
{
    match split_names(types, kind, octets) {
        Some((_, names, _)) => is_low(names),
        None => true,
    }
}

/// Appends the data of a type with its names in lower case (RFC 4034 6.2). Data that has no names at
/// their place is appended as it is.
///
/// ```
/// push_lowered(FoldedTypes::Canonical, 39, b"\x01A\x00", &mut out)?; // DNAME A.
/// assert_eq!(out, b"\x01a\x00");
/// ```
///
/// # Errors
///
/// Returns an error if it runs out of memory. A prefix may have been appended.
pub fn push_lowered(
    types: FoldedTypes,
    kind: u16,
    octets: &[u8],
    out: &mut Vec<u8>,
) -> Result<(), AllocError>
    ensures { OnOk result ((lowered : List ℕ) × (out.new.items ≡ out.old.items ++ lowered)
        × IsLowered (names_in types kind octets.now) octets.now lowered) }
{
    let Some((front, names, rest)) = split_names(types, kind, octets) else {
        out.extend_from_slice(octets)?;
        return Ok(());
    };
    out.extend_from_slice(front)?;
    push_low(names, out)?;
    out.extend_from_slice(rest)?;
    Ok(())
}

/// Appends octets, letters in lower case.
///
/// # Errors
///
/// Returns an error if it runs out of memory. A prefix may have been appended.
fn push_low(octets: &[u8], out: &mut Vec<u8>) -> Result<(), AllocError>
    ensures { OnOk result (out.new.items ≡ out.old.items ++ map folded_octet octets.now) }
{
    let mut left = octets;
    while let Some((octet, rest)) = left.split_first() {
        out.push(octet.to_ascii_lowercase())?;
        left = rest;
    }
    Ok(())
}
