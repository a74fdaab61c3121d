ghost use Rattle.std.specs.Prelude.{refl, reverse, nat_eq};
ghost use Rattle.std.proofs.Common.{rules};
ghost use Rattle.std.specs.Cmp.{partial_order_from_own_ties};
ghost use Rattle.std.specs.Cmp.Rules.{comparing};
ghost use Rattle.std.specs.Cmp.Lexicographic.{lists_ties, pointwise, slice_cmp, texts_ties};
ghost use Rattle.std.specs.Ordering.{nat_cmp, on, as_partial_cmp};

use crate::lent::NameRef;
use crate::name::Name;
use std::cmp::Ordering;

impl PartialEq for Name {
    ghost eq = { on reverse (pointwise (pointwise nat_eq)) };

    ghost laws = { Prim.search (comparing, rules) };

    fn eq(&self, other: &Name) -> bool {
        self.lend() == other.lend()
    }
}

impl<'a> PartialEq for NameRef<'a> {
    ghost eq = { on reverse (pointwise (pointwise nat_eq)) };

    ghost laws = { Prim.search (comparing, rules) };

    #[tactic(auto, using(crate::proofs::InOctets::Comparing::eq_from_octets))]
    fn eq(&self, other: &NameRef<'a>) -> bool {
        self.wire() == other.wire()
    }
}

impl Eq for Name {
    ghost laws = { Prim.search (comparing, rules) };
}

impl PartialOrd for Name {
    ghost partial_cmp = { as_partial_cmp (on reverse (slice_cmp (slice_cmp nat_cmp))) };

    ghost laws = { partial_order_from_own_ties (Prim.search (comparing, rules))
        (λ x y. lists_ties (slice_cmp nat_cmp) texts_ties (reverse x) (reverse y)) };

    fn partial_cmp(&self, other: &Name) -> Option<Ordering> {
        self.lend().partial_cmp(&other.lend())
    }
}

/// The order of names (RFC 4034 6.1).
impl Ord for Name {
    ghost cmp = { on reverse (slice_cmp (slice_cmp nat_cmp)) };

    ghost total = { Prim.search (comparing, rules) };

    ghost matches_partial_cmp = { λ x y. refl };

    ghost matches_eq = { λ x y. lists_ties (slice_cmp nat_cmp) texts_ties (reverse x) (reverse y) };

    fn cmp(&self, other: &Name) -> Ordering {
        self.lend().cmp(&other.lend())
    }
}

impl<'a> Eq for NameRef<'a> {
    ghost laws = { Prim.search (comparing, rules) };
}

impl<'a> PartialOrd for NameRef<'a> {
    ghost partial_cmp = { as_partial_cmp (on reverse (slice_cmp (slice_cmp nat_cmp))) };

    ghost laws = { partial_order_from_own_ties (Prim.search (comparing, rules))
        (λ x y. lists_ties (slice_cmp nat_cmp) texts_ties (reverse x) (reverse y)) };

    fn partial_cmp(&self, other: &NameRef<'a>) -> Option<Ordering> {
        Some(self.cmp(other))
    }
}

/// The order of names (RFC 4034 6.1).
impl<'a> Ord for NameRef<'a> {
    ghost cmp = { on reverse (slice_cmp (slice_cmp nat_cmp)) };

    ghost total = { Prim.search (comparing, rules) };

    ghost matches_partial_cmp = { λ x y. refl };

    ghost matches_eq = { λ x y. lists_ties (slice_cmp nat_cmp) texts_ties (reverse x) (reverse y) };

    #[tactic(auto, using(crate::proofs::InOctets::Comparing::name_cmp_same))]
    fn cmp(&self, other: &NameRef<'a>) -> Ordering {
        if self == other {
            return Ordering::Equal;
        }
        let (len, other_len) = (self.labels().len(), other.labels().len());
        let mut labels = self.labels().past(len.saturating_sub(other_len));
        let mut others = other.labels().past(other_len.saturating_sub(len));
        // The rightmost pair that differs decides, and else the number of labels.
        let mut order = len.cmp(&other_len);
        while let (Some(label), Some(other)) = (labels.next(), others.next()) {
            order = label.cmp(other).then(order);
        }
        order
    }
}
