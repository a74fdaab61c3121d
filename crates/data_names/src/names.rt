//! The names in data, found by the table.
ghost use Rattle.std.specs.Prelude.{◌≡◌, ◌↔◌, ℕ, List, length, IsTrue, Some, IfSome, IfNone};
ghost use Rattle.std.specs.List.{flat_map};
ghost use Rattle.data_names.specs.Machine.Front.{AreNames, BeginsWithCased, BeginsWithExtent, BeginsWithMany};
ghost use Rattle.data_names.specs.NamesInData.{HasNames, names_in};
ghost use Rattle.data_names.specs.declared.table.NamesAt.{NamesAt};
ghost use Rattle.zone_name.specs.Common.{Labels};
ghost use Rattle.zone_name.specs.Name.{wire};

use crate::table::{Extent, FoldedTypes, names_at};
use zone_name::laws::are_octets;

/// How many octets the name at the beginning of octets has.
pub(crate) fn name_len(octets: &[u8]) -> Option<usize>
    ensures found { IfSome result (λ n. (name : Labels) × (rest : List ℕ)
        × BeginsWithCased octets.now name rest × (n ≡ length (wire name))) }
    ensures none { IfNone result ((name : Labels) (rest : List ℕ)
        → BeginsWithCased octets.now name rest → ⊥) }
{
    are_octets(octets);
    let mut rest = octets;
    let mut len: usize = 1;
    loop {
        let Some((first, following)) = rest.split_first() else {
            return None;
        };
        let count = usize::from(*first);
        if count == 0 {
            return Some(len);
        }
        if count > 63 {
            return None;
        }
        if following.len() < count {
            return None;
        }
        if len + count + 1 > 255 {
            return None;
        }
        len += count + 1;
        rest = following.split_at(count).1;
    }
}

/// How many octets so many names at the beginning of octets have.
fn names_len(count: usize, octets: &[u8]) -> Option<usize>
    ensures found { IfSome result (BeginsWithMany count octets.now) }
    ensures none { IfNone result ((len : ℕ) → BeginsWithMany count octets.now len → ⊥) }
{
    let mut len: usize = 0;
    for _ in 0..count {
        let Some(next) = name_len(octets.split_at(len).1) else {
            return None;
        };
        len += next;
    }
    Some(len)
}

/// Whether octets are names, one after another.
fn are_names(octets: &[u8]) -> bool
    ensures { IsTrue result ↔ AreNames octets.now }
{
    let mut rest = octets;
    'walk: while !rest.is_empty() {
        let Some(len) = name_len(rest) else {
            return false;
        };
        rest = rest.split_at(len).1;
    }
    true
}

/// How many octets the names of an extent have at the beginning of octets.
fn extent_len(extent: Extent, octets: &[u8]) -> Option<usize>
    ensures found { IfSome result (BeginsWithExtent extent octets.now) }
    ensures none { IfNone result ((len : ℕ) → BeginsWithExtent extent octets.now len → ⊥) }
{
    match extent {
        Extent::Whole(count) => match names_len(count, octets) {
            Some(len) if len == octets.len() => Some(len),
            _ => None,
        },
        Extent::Front(count) => names_len(count, octets),
        Extent::ToEnd => {
            if are_names(octets) {
                Some(octets.len())
            } else {
                None
            }
        }
    }
}

/// The names in data that are put in lower case, with the octets before and after them.
pub(crate) fn split_names(
    types: FoldedTypes,
    kind: u16,
    octets: &[u8],
) -> Option<(&[u8], &[u8], &[u8])>
    ensures found { IfSome result (λ r. (place : NamesAt) × (names : List Labels)
        × (names_in types kind octets.now ≡ Some place)
        × HasNames place octets.now r.0.now names r.2.now
        × (r.1.now ≡ flat_map wire names)) }
    ensures none { IfNone result ((place : NamesAt) (front : List ℕ) (names : List Labels)
        (rest : List ℕ) → names_in types kind octets.now ≡ Some place
        → HasNames place octets.now front names rest → ⊥) }
{
    let Some(at) = names_at(types, kind, octets) else {
        return None;
    };
    if octets.len() < at.before {
        return None;
    }
    let (front, from) = octets.split_at(at.before);
    let Some(len) = extent_len(at.extent, from) else {
        return None;
    };
    let (names, rest) = from.split_at(len);
    Some((front, names, rest))
}
