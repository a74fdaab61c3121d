ghost use Rattle.std.specs.Prelude.{◌≡◌, ◌↔◌, ◌≤◌, List, ℕ, IsTrue, drop, length};
ghost use Rattle.zone_name.specs.Name.{IsWithin};
ghost use Rattle.std.specs.Iterator.{YieldsFirstRef, item_count};

use std::iter::FusedIterator;
use std::marker::Model;

/// The labels of a name that are left, from the leftmost. Contracts see their list.
#[derive(Debug, Drop)]
pub struct Labels<'a> {
    pub(crate) octets: &'a [u8],
}

impl<'a> Model for Labels<'a> {
    ghost use Rattle.std.specs.Prelude.{List, ℕ};
    ghost use Rattle.zone_name.specs.Name.{labels_of, BeginsWithName};

    ghost Value = { List (List ℕ) };

    ghost view = { λ l. labels_of l.octets.now };

    ghost invariant = { λ l. BeginsWithName l.octets.now };
}

impl<'a> Iterator for Labels<'a> {
    type Item = &'a [u8];

    ghost next_gives = { YieldsFirstRef (λ l. l) };

    ghost remaining = { item_count (λ l. l) };

    #[tactic(auto, using(crate::proofs::InOctets::Octets::root_label))]
    fn next(&mut self) -> Option<&'a [u8]> {
        let (len, after) = self.octets.split_first()?;
        if *len == 0 {
            return None;
        }
        let (label, rest) = after.split_at(*len as usize);
        self.octets = rest;
        Some(label)
    }
}

impl<'a> FusedIterator for Labels<'a> {}

impl<'a> Labels<'a> {
    /// How many labels are left, at most 127.
    #[tactic(auto, using(crate::proofs::InOctets::Octets::few_labels))]
    pub(crate) fn len(&self) -> usize
        ensures value { result ≡ length self.now }
        ensures short { result ≤ 127 }
    {
        let mut len = 0;
        for _ in (Labels {
            octets: self.octets,
        }) {
            len += 1;
        }
        len
    }

    /// The labels but for the first ones, as many as said.
    pub(crate) fn past(self, count: usize) -> Labels<'a>
        ensures { result ≡ drop count self.entry }
    {
        let mut left = self;
        for _ in 0..count {
            let _ = left.next();
        }
        left
    }

    /// Whether the same labels are left.
    pub(crate) fn is_same(self, other: Labels<'_>) -> bool
        ensures { IsTrue result ↔ (self.entry ≡ other.entry) }
    {
        let mut others = other;
        for label in self {
            match others.next() {
                Some(theirs) if label == theirs => {}
                _ => return false,
            }
        }
        others.next().is_none()
    }

    /// Whether other labels end these.
    pub(crate) fn ends_with(self, ending: Labels<'_>) -> bool
        ensures { IsTrue result ↔ IsWithin self.entry ending.entry }
    {
        let (len, ending_len) = (self.len(), ending.len());
        ending_len <= len && self.past(len - ending_len).is_same(ending)
    }
}
