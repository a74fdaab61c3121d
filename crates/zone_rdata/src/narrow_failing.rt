ghost use Rattle.std.specs.Prelude.{◌≡◌};
ghost use Rattle.zone_rdata.specs.Cause.{fault_for};
ghost use Rattle.zone_rdata.specs.declared.fault.Failing.TheVariants as failings;

use crate::cause::Cause;
use crate::fault::Failing;
use std::alloc::AllocError;
use std::error::Error;
use std::fmt;
use std::marker::Model;
use zone_name::NameFault;

/// Why a record or its data could not be made, in few octets: a `Failing` has room for a name.
/// Contracts see the failing.
#[derive(Debug, Drop)]
pub struct NarrowFailing {
    /// The cause of the fault. `None`: memory was refused.
    cause: Option<Cause>,
}

impl Model for NarrowFailing {
    ghost use Rattle.zone_rdata.specs.Cause.{failing_for};
    ghost use Rattle.zone_rdata.specs.declared.fault.Failing.{Failing};

    ghost Value = { Failing };

    ghost view = { λ r. failing_for r.cause };
}

impl NarrowFailing {
    /// The failing for a fault.
    pub fn of(cause: Cause) -> NarrowFailing
        ensures { result ≡ failings.Fault (fault_for cause) }
    {
        NarrowFailing { cause: Some(cause) }
    }
}

impl From<Cause> for NarrowFailing {
    ghost from_gives = { λ cause e. e ≡ failings.Fault (fault_for cause) };

    fn from(cause: Cause) -> NarrowFailing {
        NarrowFailing::of(cause)
    }
}

impl From<NameFault> for NarrowFailing {
    ghost use Rattle.zone_rdata.specs.Fault.{fault_of};

    ghost from_gives = { λ fault e. e ≡ failings.Fault (fault_of fault) };

    fn from(fault: NameFault) -> NarrowFailing {
        NarrowFailing::of(Cause::from(fault))
    }
}

impl From<AllocError> for NarrowFailing {
    ghost from_gives = { λ _ e. e ≡ failings.Memory };

    fn from(_error: AllocError) -> NarrowFailing {
        NarrowFailing { cause: None }
    }
}

impl From<NarrowFailing> for Failing {
    ghost from_gives = { λ narrow e. e ≡ narrow };

    // Not inlined: only what is refused needs the room.
    #[cold]
    #[inline(never)]
    fn from(narrow: NarrowFailing) -> Failing {
        match narrow.cause {
            Some(cause) => Failing::Fault(cause.widened()),
            None => Failing::Memory,
        }
    }
}

/// The line of the failing.
impl fmt::Display for NarrowFailing {
    ghost use Rattle.std.specs.Prelude.{Some};
    ghost use Rattle.zone_rdata.specs.StopText.{failing_line};

    ghost output = { λ failing. Some (failing_line failing) };

    fn fmt<W: fmt::Write>(&self, f: &mut fmt::Formatter<W>) -> fmt::Result {
        let copy = NarrowFailing { cause: self.cause };
        Failing::from(copy).fmt(f)
    }
}

impl Error for NarrowFailing {}
