ghost use Rattle.std.specs.Prelude.{◌≡◌, ◌≢◌, ◌⊎◌, ◌<◌, bytes_eq, length, IsTrue};
ghost use Rattle.std.specs.Cmp.Lexicographic.{slice_cmp};
ghost use Rattle.std.specs.Ordering.{nat_cmp};
ghost use Rattle.zone_set.specs.Machine.Octets.{AreSameButForFew};

use std::cmp::Ordering;
use zone_name::laws::are_octets;

/// How octets lie as unsigned strings, a missing octet first. Mostly the first eight tell, which
/// are compared as numbers.
pub(crate) fn octet_order(a: &[u8], b: &[u8]) -> Ordering
    ensures { result ≡ slice_cmp nat_cmp a.now b.now }
{
    let Some((x, more)) = a.split_first_chunk::<8>() else {
        return a.cmp(b);
    };
    let Some((y, others)) = b.split_first_chunk::<8>() else {
        return a.cmp(b);
    };
    are_octets(a);
    are_octets(b);
    let (x, y) = (u64::from_be_bytes(*x), u64::from_be_bytes(*y));
    if x != y {
        return x.cmp(&y);
    }
    more.cmp(others)
}

/// Whether octets are the same. None is looked at where the lengths differ, and else eight at a
/// time: std's `==` has more to look at before.
pub(crate) fn are_same(a: &[u8], b: &[u8]) -> bool
    ensures { result ≡ bytes_eq a.now b.now }
{
    if a.len() != b.len() {
        return false;
    }
    let (Some(last), Some(other)) = (a.last_chunk::<8>(), b.last_chunk::<8>()) else {
        return are_same_few(a, b);
    };
    // The last eight have those that are left after the others.
    last == other && have_same_eights(a, b)
}

/// Whether octets are the same, of which there are as many, and fewer than eight.
fn are_same_few(a: &[u8], b: &[u8]) -> bool
    requires as_many { length a.now ≡ length b.now }
    requires few { length a.now < 8 }
    ensures { result ≡ bytes_eq a.now b.now }
{
    let (Some(x), Some(y)) = (a.first_chunk::<4>(), b.first_chunk::<4>()) else {
        return a == b;
    };
    let (Some(last), Some(other)) = (a.last_chunk::<4>(), b.last_chunk::<4>()) else {
        return a == b;
    };
    x == y && last == other
}

/// Whether octets are the same as far as there are eight in both.
fn have_same_eights(a: &[u8], b: &[u8]) -> bool
    ensures same { IsTrue result → AreSameButForFew a.now b.now }
    ensures other { IsTrue result ⊎ (a.now ≢ b.now) }
{
    let (mut left, mut right) = (a, b);
    while let (Some((x, more)), Some((y, others))) = (
        left.split_first_chunk::<8>(),
        right.split_first_chunk::<8>(),
    ) {
        if x != y {
            return false;
        }
        left = more;
        right = others;
    }
    true
}
