use std::alloc::{AllocError, AllocFailed};

/// Why octets aren't printed in words.
#[derive(Debug, Drop)]
pub enum Unprinted {
    /// They are no data of their type.
    NoData,
    /// Memory was refused.
    OutOfMemory,
}

impl From<AllocError> for Unprinted {
    ghost use Rattle.std.specs.Prelude.{◌≡◌};
    ghost use Rattle.type_data.specs.declared.unprinted.Unprinted.TheVariants as answers;

    ghost from_gives = { λ _ e. e ≡ answers.OutOfMemory };

    fn from(_error: AllocError) -> Unprinted {
        Unprinted::OutOfMemory
    }
}

impl From<AllocFailed<u8>> for Unprinted {
    ghost use Rattle.std.specs.Prelude.{◌≡◌};
    ghost use Rattle.type_data.specs.declared.unprinted.Unprinted.TheVariants as answers;

    ghost from_gives = { λ _ e. e ≡ answers.OutOfMemory };

    fn from(_failed: AllocFailed<u8>) -> Unprinted {
        Unprinted::OutOfMemory
    }
}
