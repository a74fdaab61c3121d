//! Octets that proofs alone know of. They take no memory, and the calls do nothing.
ghost use Rattle.std.specs.Prelude.{◌≡◌, ℕ, List, [], ◌++◌};
ghost use Rattle.std.specs.Borrow.{ftrue};

use std::marker::Model;

/// Octets of which a clause reads `octets`.
#[derive(Drop)]
pub(crate) struct GhostOctets {
    ghost octets: { List ℕ },
}

impl Model for GhostOctets {
    ghost also_owns = { λ _. ftrue };
}

/// Octets that follow.
#[derive(Clone, Copy, Drop)]
pub(crate) struct Piece<'o> {
    pub(crate) octets: &'o [u8],
}

impl GhostOctets {
    /// None.
    pub(crate) fn new() -> GhostOctets
        ensures { result.octets ≡ [] }
    {
        GhostOctets {}
    }

    /// These, and then those of the piece.
    pub(crate) fn followed_by(&self, _piece: &Piece<'_>) -> GhostOctets
        ensures { result.octets ≡ self.now.octets ++ _piece.now.octets.now }
    {
        GhostOctets {}
    }
}
