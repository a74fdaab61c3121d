ghost use Rattle.std.specs.Int.{to_be_bytes, w16, w32};
ghost use Rattle.std.specs.Prelude.{◌≡◌, ◌+◌, ◌≤◌, ◌++◌, ◌∷◌, length, IfOk, OnOk, OnErr};
ghost use Rattle.zone_rdata.specs.Record.{IsRecord};
ghost use Rattle.zone_set.specs.Machine.Stored.{record_from, stored, IsHead, IsStored};
ghost use Rattle.zone_rdata.specs.Lent.{record_of};

use std::alloc::AllocError;
use zone_name::NameRef;
use zone_rdata::{Class, Kind, RdataRef, RrRef};

/// How many octets of a record stand before its owner.
const HEAD_LEN: usize = 9;

/// What stands before the owner of a record that is kept, and where.
#[derive(Clone, Copy, Default)]
pub(crate) struct Head {
    pub(crate) at: usize,
    octets: [u8; HEAD_LEN],
}

/// Appends the octets that keep a record, and answers where they begin.
///
/// # Errors
///
/// `AllocError` where memory is refused. The octets are unchanged.
#[inline(always)]
pub(crate) fn append(octets: &mut Vec<u8>, rr: &RrRef<'_>) -> Result<usize, AllocError>
    requires { IsRecord (record_of rr.now) }
    ensures place { IfOk result (λ at. at ≡ length octets.old.items) }
    ensures appended { OnOk result
        (octets.new.items ≡ octets.old.items ++ stored (record_of rr.now)) }
    ensures unchanged { OnErr result (octets.new.items ≡ octets.old.items) }
{
    let at = octets.len();
    let (owner, data) = (rr.owner.wire(), rr.rdata.octets());
    octets.reserve(HEAD_LEN + owner.len() + data.len())?;
    let head = head_of(rr.ttl, rr.kind, owner.len() as u8, data.len() as u16);
    octets.extend_from_slice(&head)?;
    octets.extend_from_slice(owner)?;
    octets.extend_from_slice(data)?;
    Ok(at)
}

/// The octets of a record before its owner: TTL, type and the lengths of owner and data.
fn head_of(ttl: u32, kind: Kind, owner_len: u8, data_len: u16) -> [u8; HEAD_LEN]
    ensures { result ≡ to_be_bytes w32 ttl ++ (to_be_bytes w16 kind
        ++ (owner_len ∷ to_be_bytes w16 data_len)) }
{
    let [t0, t1, t2, t3] = ttl.to_be_bytes();
    let [k0, k1] = kind.number().to_be_bytes();
    let [d0, d1] = data_len.to_be_bytes();
    [t0, t1, t2, t3, k0, k1, owner_len, d0, d1]
}

/// The record that stands at a place.
pub(crate) fn record_at<'z>(class: Class, octets: &'z [u8], at: usize) -> RrRef<'z>
    requires stands { IsStored class octets.now at }
    requires whole { IsRecord (record_from class octets.now at) }
    ensures { record_of result ≡ record_from class octets.now at }
{
    record_after(class, octets, head_at(octets, at))
}

/// The head of the record that stands at a place.
pub(crate) fn head_at(octets: &[u8], at: usize) -> Head
    requires { at + HEAD_LEN ≤ length octets.now }
    ensures at { result.at ≡ at }
    ensures head { IsHead octets.now result }
{
    let (_, from) = octets.split_at(at);
    let Some((head, _)) = from.split_first_chunk::<HEAD_LEN>() else {
        unreachable!();
    };
    Head { at, octets: *head }
}

/// The record that has a head.
pub(crate) fn record_after<'z>(class: Class, octets: &'z [u8], head: Head) -> RrRef<'z>
    requires stands { IsStored class octets.now head.at }
    requires whole { IsRecord (record_from class octets.now head.at) }
    requires head { IsHead octets.now head }
    ensures { record_of result ≡ record_from class octets.now head.at }
{
    let [t0, t1, t2, t3, k0, k1, owner_len, d0, d1] = head.octets;
    let (_, from) = octets.split_at(head.at);
    let (_, from) = from.split_at(HEAD_LEN);
    let (owner, from) = from.split_at(owner_len as usize);
    let (data, _) = from.split_at(u16::from_be_bytes([d0, d1]) as usize);
    let kind = Kind::of_judged(u16::from_be_bytes([k0, k1]));
    RrRef {
        owner: NameRef::of_wire(owner),
        class,
        kind,
        ttl: u32::from_be_bytes([t0, t1, t2, t3]),
        rdata: RdataRef::of_octets(class, kind, data),
    }
}
