//! Why a run stops before it is done.
ghost use Rattle.std.specs.Prelude.{◌≡◌};
ghost use Rattle.words_command.specs.Run.{failure_line};

use std::alloc::AllocError;
use zone_engine::{OUT_OF_MEMORY, READ_FAILED, WRITE_FAILED};

/// Why a run stops before it is done.
#[derive(Clone, Copy, Debug)]
pub(crate) enum Failure {
    /// The reader failed, or gives too many octets.
    Read,
    /// The writer failed.
    Write,
    /// Memory was refused.
    Memory,
}

impl From<AllocError> for Failure {
    ghost use Rattle.words_command.specs.declared.failure.Failure.TheVariants as failures;

    ghost from_gives = { λ _ e. e ≡ failures.Memory };

    fn from(_error: AllocError) -> Failure {
        Failure::Memory
    }
}

impl Failure {
    /// The text for the user.
    pub(crate) fn text(self) -> &'static str
        ensures { result.now ≡ failure_line self }
    {
        match self {
            Failure::Read => READ_FAILED,
            Failure::Write => WRITE_FAILED,
            Failure::Memory => OUT_OF_MEMORY,
        }
    }
}
