//! Why arguments call no command.

use std::alloc::AllocError;

/// Why arguments call no command.
#[derive(Debug, Drop)]
pub enum NoCall {
    /// The help or the version, which the arguments ask for, without a line feed at its end.
    Shown(String),
    /// What is printed instead of a call, without a line feed at its end.
    Told(String),
    /// Memory was refused.
    Memory,
}

impl From<AllocError> for NoCall {
    ghost use Rattle.std.specs.Prelude.{◌≡◌};
    ghost use Rattle.command_line.specs.declared.no_call.NoCall.TheVariants as no_calls;

    ghost from_gives = { λ _ e. e ≡ no_calls.Memory };

    fn from(_error: AllocError) -> NoCall {
        NoCall::Memory
    }
}
