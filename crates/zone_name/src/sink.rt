ghost use Rattle.std.specs.Prelude.{◌≡◌, ◌-◌, ◌++◌, ℕ, List, [], length, OnOk, OnErr};
ghost use Rattle.std.proofs.Common.{rules, sym};
ghost use Rattle.std.proofs.lemmas.List.{append-nil};
ghost use Rattle.zone_name.specs.Machine.Joined.{appended_twice, counted_twice, fitted_twice};
ghost use Rattle.zone_name.specs.Sink.{TakesWhatFits};

use arrayvec::ArrayVec;
use std::alloc::AllocError;
use std::convert::Infallible;
use std::marker::Model;

/// What takes octets, one slice after another: a vector that grows by them, or a count of them.
pub trait Sink {
    // Between two states of the sink it took these octets.
    ghost takes: { Self → List ℕ → Self → Type 0 };

    /// Why octets are refused.
    type Error: Drop;

    /// Takes the octets.
    ///
    /// # Errors
    ///
    /// The sink refuses them, and is unchanged.
    fn push(&mut self, octets: &[u8]) -> Result<(), Self::Error>
        ensures ok { OnOk result (takes self.old octets.now self.new) }
        ensures err { OnErr result (takes self.old [] self.new) };

    // A sink that is left alone took nothing.
    ghost nothing: { (a : Self) → takes a [] a };

    // Octets that were taken in two calls were taken as one list.
    ghost joins: { (a b c : Self) (x y : List ℕ) → takes a x b → takes b y c → takes a (x ++ y) c };
}

impl Sink for Vec<u8> {
    ghost takes = { λ a x b. b.items ≡ a.items ++ x };

    type Error = AllocError;

    fn push(&mut self, octets: &[u8]) -> Result<(), AllocError> {
        self.extend_from_slice(octets)
    }

    ghost nothing = { λ a. sym (append-nil a.items) };

    ghost joins = { λ a b c x y. appended_twice a.items b.items c.items x y };
}

/// A count of octets, from a limit down to none, where it stays. It keeps no octet and takes no
/// memory.
#[derive(Clone, Copy, Debug)]
pub struct Room {
    /// How many more octets it takes.
    pub left: u64,
}

impl Sink for Room {
    ghost takes = { λ a x b. b.left ≡ a.left - length x };

    type Error = Infallible;

    fn push(&mut self, octets: &[u8]) -> Result<(), Infallible> {
        self.left = self.left.saturating_sub(octets.len() as u64);
        Ok(())
    }

    ghost nothing = { λ a. Prim.search rules };

    ghost joins = { λ a b c x y. counted_twice a.left b.left c.left x y };
}

/// Room in which a text of at most `N` octets is made without memory. Octets that don't fit are
/// dropped. Contracts see the octets.
#[derive(Debug, Drop)]
pub struct FixedBuffer<const N: usize> {
    octets: ArrayVec<u8, N>,
}

impl<const N: usize> Model for FixedBuffer<N> {
    ghost use Rattle.std.specs.Prelude.{List, ℕ};

    ghost Value = { List ℕ };

    ghost view = { λ b. b.octets.items };
}

impl<const N: usize> FixedBuffer<N> {
    /// No octet yet.
    pub fn new() -> FixedBuffer<N>
        ensures { result ≡ [] }
    {
        FixedBuffer {
            octets: ArrayVec::new(),
        }
    }

    /// The octets.
    pub fn as_slice(&self) -> &[u8]
        ensures { result.now ≡ self.now }
    {
        self.octets.as_slice()
    }
}

impl<const N: usize> Sink for FixedBuffer<N> {
    ghost takes = { λ a x b. TakesWhatFits N a x b };

    type Error = Infallible;

    fn push(&mut self, octets: &[u8]) -> Result<(), Infallible> {
        let _ = self.octets.try_extend_from_slice(octets);
        Ok(())
    }

    ghost nothing = { λ a _. sym (append-nil a) };

    ghost joins = { λ a b c x y. fitted_twice N a b c x y };
}
