ghost use Rattle.std.specs.Prelude.{◌≡◌, ◌<◌, ◌≤◌, ◌∷◌, ◌⊎◌, [], List, ℕ, drop, length, take, IfNone, IfSome, IsTrue};
ghost use Rattle.zone_name.specs.Common.{each_after};
ghost use Rattle.zone_name.specs.Name.{labels_of, wire};
ghost use Rattle.zone_name.specs.Order.{name_cmp};
ghost use Rattle.zone_set.specs.Machine.Owner.{AreFirst, IsAfterLabels, IsEndOf, IsFirst, IsLabelBefore};

use crate::order::{are_same, octet_order};
use std::cmp::Ordering;
use std::simd::prelude::*;

/// How owners lie, by the labels of their octets from the right (RFC 4034 6.1). Any octets have some.
#[inline(always)]
pub(crate) fn owner_order(a: &[u8], b: &[u8]) -> Ordering
    ensures { result ≡ name_cmp (labels_of a.now) (labels_of b.now) }
{
    match order_by_first_label(a, b) {
        Some(order) => order,
        None => match order_by_end(a, b) {
            Some(order) => order,
            None => order_by_labels(a, b),
        },
    }
}

/// How owners lie, label by label.
#[inline(never)]
fn order_by_labels(a: &[u8], b: &[u8]) -> Ordering
    ensures { result ≡ name_cmp (labels_of a.now) (labels_of b.now) }
{
    let (len, other_len) = (label_count(a), label_count(b));
    let mut labels = past(a, len.saturating_sub(other_len));
    let mut others = past(b, other_len.saturating_sub(len));
    // The rightmost pair that differs decides, and else the number of labels.
    let mut order = len.cmp(&other_len);
    while let (Some((label, rest)), Some((other, more))) = (
        next_label(labels),
        next_label(others),
    ) {
        order = label.cmp(other).then(order);
        labels = rest;
        others = more;
    }
    order
}

/// How many labels there are.
fn label_count(octets: &[u8]) -> usize
    ensures { result ≡ length (labels_of octets.now) }
{
    let (mut left, mut count) = (octets, 0);
    while let Some((_, rest)) = next_label(left) {
        left = rest;
        count += 1;
    }
    count
}

/// What follows so many labels.
fn past(octets: &[u8], count: usize) -> &[u8]
    ensures { labels_of result.now ≡ drop count (labels_of octets.now) }
{
    let mut left = octets;
    for _ in 0..count {
        if let Some((_, rest)) = next_label(left) {
            left = rest;
        }
    }
    left
}

/// The first label and what follows it, of any octets, which may end within a label.
#[tactic(auto, using(crate::proofs::Ordering::Owners::without_labels))]
fn next_label(octets: &[u8]) -> Option<(&[u8], &[u8])>
    ensures shorter { IfSome result (λ parts. length parts.1.now < length octets.now) }
    ensures parts { IfSome result (λ parts. IsFirst octets.now parts.0.now parts.1.now) }
    ensures none { IfNone result (labels_of octets.now ≡ []) }
{
    let (len, after) = octets.split_first()?;
    if *len > 0 {
        Some(after.split_at((*len as usize).min(after.len())))
    } else {
        None
    }
}

/// How owners lie, by the labels before the octets that end both, if these tell it.
#[inline(never)]
fn order_by_end(a: &[u8], b: &[u8]) -> Option<Ordering>
    ensures { IfSome result (λ order. order ≡ name_cmp (labels_of a.now) (labels_of b.now)) }
{
    let end = shared_len(a, b);
    let (label, rest) = label_before(a, end)?;
    let (other, more) = label_before(b, end)?;
    if !are_same(rest, more) {
        return None;
    }
    match octet_order(label, other) {
        Ordering::Equal => None,
        order => Some(order),
    }
}

/// How many octets end both.
fn shared_len(a: &[u8], b: &[u8]) -> usize {
    let (mut left, mut right) = (a, b);
    while let (Some((rest, x)), Some((more, y))) = (
        left.split_last_chunk::<8>(),
        right.split_last_chunk::<8>(),
    ) {
        // The last octet is the highest of the number.
        let other = u64::from_le_bytes(*x) ^ u64::from_le_bytes(*y);
        if other != 0 {
            let same = (other.leading_zeros() / 8) as usize;
            return a.len().saturating_sub(left.len()).saturating_add(same);
        }
        left = rest;
        right = more;
    }
    while let (Some((x, rest)), Some((y, more))) = (left.split_last(), right.split_last()) {
        if x != y {
            break;
        }
        left = rest;
        right = more;
    }
    a.len().saturating_sub(left.len())
}

/// The label before the last octets of a name, and those octets.
#[tactic(auto, using(crate::proofs::Ordering::Owners::label_more))]
fn label_before(name: &[u8], end: usize) -> Option<(&[u8], &[u8])>
    ensures { IfSome result (λ parts. IsLabelBefore name.now parts.0.now parts.1.now) }
{
    let (mut label, mut rest) = first_label(past_ones(name, end.saturating_add(1)))?;
    while rest.len() > end {
        let (next, after) = first_label(rest)?;
        label = next;
        rest = after;
    }
    Some((label, rest))
}

/// The octets of the labels that end both names, as far as these are told.
pub(crate) fn shared_end<'z>(a: &'z [u8], b: &[u8]) -> &'z [u8] {
    let (mut end, mut left) = (a, past_far(b, a.len()));
    while left.len() != end.len() || !are_same(left, end) {
        if left.len() > end.len() {
            match first_label(left) {
                Some((_, rest)) => left = rest,
                None => return end,
            }
        } else {
            match first_label(end) {
                Some((_, rest)) => end = rest,
                None => return end,
            }
        }
    }
    end
}

/// How owners lie, if their first labels tell it. Those of one hint mostly are the same, or differ
/// in their first label alone, or one has a label before those of the other.
#[inline(always)]
fn order_by_first_label(a: &[u8], b: &[u8]) -> Option<Ordering>
    ensures { IfSome result (λ order. order ≡ name_cmp (labels_of a.now) (labels_of b.now)) }
{
    if are_same(a, b) {
        Some(Ordering::Equal)
    } else if let Some((label, other)) = first_labels(a, b) {
        Some(octet_order(label, other))
    } else if is_child(a, b) {
        Some(Ordering::Less)
    } else if is_child(b, a) {
        Some(Ordering::Greater)
    } else {
        None
    }
}

/// The first label of each of two names, where the same labels follow both.
fn first_labels<'a, 'b>(a: &'a [u8], b: &'b [u8]) -> Option<(&'a [u8], &'b [u8])>
    ensures { IfSome result (λ labels. AreFirst a.now b.now labels.0.now labels.1.now) }
{
    let (label, rest) = first_label(a)?;
    let (other, more) = first_label(b)?;
    if are_same(rest, more) {
        Some((label, other))
    } else {
        None
    }
}

/// Whether the other owner has one label before those of this one.
fn is_child(owner: &[u8], other: &[u8]) -> bool
    ensures { IsTrue result → (label : List ℕ) × IsFirst other.now label owner.now }
{
    match first_label(other) {
        Some((_, rest)) => are_same(rest, owner),
        None => false,
    }
}

/// The octets of the labels that end a name, from the first one on after which fewer octets than
/// said are left.
pub(crate) fn past_far(name: &[u8], near: usize) -> &[u8]
    ensures end { (labels : List (List ℕ)) → name.now ≡ wire labels → IsEndOf labels result.now }
    ensures far { (result.now ≡ name.now) ⊎ (near ≤ length result.now) }
{
    let mut left = name;
    while let Some(rest) = past_first(left, near) {
        left = rest;
    }
    left
}

/// What follows the first label, or the first of one octet each, at most eight, as those of an address
/// in ip6.arpa have (RFC 3596 2.5). `None`: fewer octets than said follow.
fn past_first(name: &[u8], near: usize) -> Option<&[u8]>
    ensures shorter { IfSome result (λ rest. length rest.now < length name.now) }
    ensures far { IfSome result (λ rest. near ≤ length rest.now) }
    ensures end { IfSome result (λ rest.
        (labels : List (List ℕ)) → name.now ≡ wire labels → IsEndOf labels rest.now) }
{
    // Most names are short.
    if name.len() <= near {
        return None;
    }
    if let Some(rest) = past_few_ones(name, near) {
        return Some(rest);
    }
    let (_, rest) = first_label(name)?;
    if rest.len() >= near { Some(rest) } else { None }
}

/// What follows the first labels of one octet each, as far as octets follow that are as many as
/// said, and eight are seen to have one.
#[tactic(auto, using(crate::proofs::Ordering::Owners::after_none, crate::proofs::Ordering::Owners::after_more))]
fn past_ones(name: &[u8], near: usize) -> &[u8]
    ensures { IsAfterLabels name.now result.now }
{
    let mut left = name;
    while let Some(rest) = past_few_ones(left, near) {
        left = rest;
    }
    left
}

/// What follows as many of the first eight labels as octets follow them that are as many as said.
/// `None`: one hasn't one octet, or its octet is 1, or none can be passed.
#[inline(always)]
fn past_few_ones(name: &[u8], near: usize) -> Option<&[u8]>
    ensures shorter { IfSome result (λ rest. length rest.now < length name.now) }
    ensures far { IfSome result (λ rest. near ≤ length rest.now) }
    ensures end { IfSome result (λ rest.
        (labels : List (List ℕ)) → name.now ≡ wire labels → IsEndOf labels rest.now) }
    ensures after { IfSome result (λ rest. IsAfterLabels name.now rest.now) }
{
    let labels = (name.len().saturating_sub(near) / 2).min(8);
    if labels == 0 || name.len() < 16 || !are_ones(name) {
        return None;
    }
    Some(&name[2 * labels..])
}

/// Whether the first 16 octets are eight after 1 each, and none of these is 1.
#[inline(always)]
pub(crate) fn are_ones(octets: &[u8]) -> bool
    requires { 16 ≤ length octets.now }
    ensures { IsTrue result → (others : List ℕ) × (take 16 octets.now ≡ each_after 1 others) }
{
    let lanes = u8x16::from_slice(octets);
    lanes.simd_eq(u8x16::splat(1)).to_bitmask() == 0x5555
}

/// The first label and what follows it. `None`: a name has no label.
pub(crate) fn first_label(octets: &[u8]) -> Option<(&[u8], &[u8])>
    ensures shorter { IfSome result (λ parts. length parts.1.now < length octets.now) }
    ensures parts { IfSome result (λ parts. IsFirst octets.now parts.0.now parts.1.now) }
    ensures none { IfNone result ((label : List ℕ) → (labels : List (List ℕ)) → 0 < length label
        → octets.now ≡ wire (label ∷ labels) → ⊥) }
{
    let (len, after) = octets.split_first()?;
    if *len == 0 {
        return None;
    }
    after.split_at_checked(*len as usize)
}
