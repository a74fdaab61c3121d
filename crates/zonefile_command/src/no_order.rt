//! Why a command line is no order.

use command_line::NoCall;
use std::alloc::AllocError;

/// Why a command line is no order.
#[derive(Debug, Drop)]
pub enum NoOrder {
    /// An origin is none that the command takes.
    BadOrigin,
    /// The number of faults to report is none from 1 to 4294967295.
    BadMost,
    /// The arguments call nothing: they ask for help or the version, or are no command with all its
    /// arguments; or memory was refused.
    NoCall(NoCall),
}

impl From<AllocError> for NoOrder {
    ghost use Rattle.std.specs.Prelude.{◌≡◌};
    ghost use Rattle.command_line.specs.declared.no_call.NoCall.TheVariants.{Memory};
    ghost use Rattle.zonefile_command.specs.declared.no_order.NoOrder.TheVariants as no_orders;

    ghost from_gives = { λ _ e. e ≡ no_orders.NoCall Memory };

    fn from(_error: AllocError) -> NoOrder {
        NoOrder::NoCall(NoCall::Memory)
    }
}

impl From<NoCall> for NoOrder {
    ghost use Rattle.std.specs.Prelude.{◌≡◌};
    ghost use Rattle.zonefile_command.specs.declared.no_order.NoOrder.TheVariants as no_orders;

    ghost from_gives = { λ no_call e. e ≡ no_orders.NoCall no_call };

    fn from(no_call: NoCall) -> NoOrder {
        NoOrder::NoCall(no_call)
    }
}
