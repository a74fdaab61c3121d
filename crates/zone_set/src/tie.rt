ghost use Rattle.std.specs.Prelude.{◌≡◌};
ghost use Rattle.zone_set.specs.Machine.Bulk as bulk;

use crate::entry::Entry;
use crate::order::{are_same, octet_order};
use crate::owner::owner_order;
use std::cmp::Ordering;

/// How the records of entries of one hint lie, by which these are sorted: by owner, type and data.
/// Nothing rests on it but how soon a zone is made: it may be asked of any places, and no contract
/// speaks of what it answers.
#[inline(never)]
pub(crate) fn tie_order(octets: &[u8], a: usize, b: usize) -> Ordering {
    let (Some(x), Some(y)) = (stored_at(octets, a), stored_at(octets, b)) else {
        return Ordering::Equal;
    };
    owner_order(x.owner, y.owner)
        .then_with(|| x.kind.cmp(&y.kind))
        .then_with(|| octet_order(x.data, y.data))
        // Repeats of two TTLs that take turns must come to stand together.
        .then_with(|| x.ttl.cmp(&y.ttl))
}

/// What is compared of a record.
#[derive(Drop)]
pub(crate) struct StoredParts<'z> {
    ttl: u32,
    pub(crate) owner: &'z [u8],
    pub(crate) kind: u16,
    pub(crate) data: &'z [u8],
}

/// The parts of what stands at a place, if a whole record does.
pub(crate) fn stored_at<'z>(octets: &'z [u8], at: usize) -> Option<StoredParts<'z>> {
    let (_, from) = octets.split_at_checked(at)?;
    let (head, from) = from.split_first_chunk::<9>()?;
    let [t0, t1, t2, t3, k0, k1, owner_len, d0, d1] = *head;
    let (owner, from) = from.split_at_checked(owner_len as usize)?;
    let (data, _) = from.split_at_checked(u16::from_be_bytes([d0, d1]) as usize)?;
    Some(StoredParts {
        ttl: u32::from_be_bytes([t0, t1, t2, t3]),
        owner,
        kind: u16::from_be_bytes([k0, k1]),
        data,
    })
}

/// Whether the same octets keep the records of two entries of one hint, whatever the entries. Those
/// of other hints aren't looked at.
pub(crate) fn is_repeat(octets: &[u8], a: &Entry, b: &Entry) -> bool
    ensures { result ≡ bulk.is_repeat octets.now a.now b.now }
{
    a.hint == b.hint && are_same(span(octets, a.at), span(octets, b.at))
}

/// The octets that keep the record at a place, as far as there are any.
pub(crate) fn span(octets: &[u8], at: usize) -> &[u8]
    ensures { result.now ≡ bulk.span octets.now at }
{
    let Some((_, from)) = octets.split_at_checked(at) else {
        return &octets[..0];
    };
    let Some((head, _)) = from.split_first_chunk::<9>() else {
        return from;
    };
    let [_, _, _, _, _, _, owner_len, d0, d1] = *head;
    let len = 9 + owner_len as usize + u16::from_be_bytes([d0, d1]) as usize;
    if len > from.len() { from } else { &from[..len] }
}
