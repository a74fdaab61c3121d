ghost use Rattle.std.specs.Prelude.{◌≡◌, ◌+◌, ◌<◌};

use std::marker::Model;

/// The steps of a walk so far: one for each place that was looked at. Only `tick` changes it.
#[derive(Debug, Drop)]
pub(crate) struct Ticks {
    made: u16,
}

impl Model for Ticks {
    ghost use Rattle.std.specs.Prelude.{ℕ};

    ghost Value = { ℕ };

    ghost view = { λ t. t.made };
}

impl Ticks {
    /// No step yet.
    pub(crate) fn new() -> Ticks
        ensures { result ≡ 0 }
    {
        Ticks { made: 0 }
    }

    /// One step more.
    pub(crate) fn tick(&mut self)
        requires { self.old < 256 }
        ensures { self.new ≡ self.old + 1 }
    {
        self.made += 1;
    }

    pub(crate) fn count(&self) -> u16
        ensures { result ≡ self.now }
    {
        self.made
    }
}
