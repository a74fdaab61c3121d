ghost use Rattle.std.specs.Prelude.{refl, nat_eq};
ghost use Rattle.std.proofs.Common.{rules};
ghost use Rattle.std.specs.Cmp.{partial_order_from_own_ties};
ghost use Rattle.std.specs.Cmp.Rules.{comparing};
ghost use Rattle.std.specs.Cmp.Lexicographic.{pointwise, slice_cmp};
ghost use Rattle.std.specs.Ordering.{nat_cmp, on, then_cmp, eq_of_both, as_partial_cmp};

use crate::rdata::Rdata;
use std::cmp::Ordering;

impl PartialEq for Rdata {
    ghost eq = { eq_of_both (on (λ d. d.class) nat_eq)
        (eq_of_both (on (λ d. d.kind) nat_eq) (on (λ d. d.octets) (pointwise nat_eq))) };

    ghost laws = { Prim.search (comparing, rules) };

    fn eq(&self, other: &Rdata) -> bool {
        self.class() == other.class()
            && self.kind() == other.kind()
            && self.octets() == other.octets()
    }
}

impl Eq for Rdata {
    ghost laws = { Prim.search (comparing, rules) };
}

impl PartialOrd for Rdata {
    ghost partial_cmp = { as_partial_cmp
        (then_cmp (on (λ d. d.class) nat_cmp)
        (then_cmp (on (λ d. d.kind) nat_cmp) (on (λ d. d.octets) (slice_cmp nat_cmp)))) };

    ghost laws = { partial_order_from_own_ties (Prim.search (comparing, rules))
        (Prim.search (comparing, rules)) };

    fn partial_cmp(&self, other: &Rdata) -> Option<Ordering> {
        Some(self.cmp(other))
    }
}

/// By class, by type number, then by canonical octets (RFC 4034 6.3).
impl Ord for Rdata {
    ghost cmp = { then_cmp (on (λ d. d.class) nat_cmp)
        (then_cmp (on (λ d. d.kind) nat_cmp) (on (λ d. d.octets) (slice_cmp nat_cmp))) };

    ghost total = { Prim.search (comparing, rules) };

    ghost matches_partial_cmp = { λ x y. refl };

    ghost matches_eq = { Prim.search (comparing, rules) };

    fn cmp(&self, other: &Rdata) -> Ordering {
        self.class()
            .cmp(&other.class())
            .then(self.kind().cmp(&other.kind()))
            .then(self.octets().cmp(other.octets()))
    }
}
