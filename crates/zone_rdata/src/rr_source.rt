ghost use Rattle.std.specs.Prelude.{◌≡◌, false, option_map};
ghost use Rattle.zone_rdata.specs.Lent.{placed_of};
ghost use Rattle.zone_rdata.specs.RrSource.{Pending, after, answer_of, answer_with, first_of};

use crate::fault::{Fault, Place, Stop};
use crate::lent::PlacedRef;
use crate::record::Placed;
use std::collections::VecDeque;

/// A source of records in order, and the fault after them.
pub trait RrSource {
    /// What else the source holds.
    ghost Beside: { Type 0 };

    ghost beside: { Self → Beside };

    /// Whether it failed, the records still to come, and the fault after them, if one is decided.
    ghost pending: { Self → Pending };

    /// The next record. With none left the fault, and the same again from then on; `None` where no
    /// fault is decided.
    ///
    /// # Errors
    ///
    /// `Memory` where the source has failed, and `Refused` with the fault.
    fn next(&mut self) -> Result<Option<Placed>, Stop>
        ensures answer { result ≡ answer_of (pending self.old) }
        ensures left { pending self.new ≡ after (pending self.old) }
        ensures beside { beside self.new ≡ beside self.old };
}

/// A source that lends its records, so that they need not be moved.
pub trait LendingSource: RrSource {
    /// The first record still to come, borrowed. `None`: there is none, or the source has failed.
    fn first(&self) -> Option<PlacedRef<'_>>
        ensures { option_map placed_of result ≡ first_of (Self.pending self.now) };

    /// Drops the first record still to come, if there is one.
    fn skip(&mut self)
        ensures left { Self.pending self.new ≡ after (Self.pending self.old) }
        ensures beside { Self.beside self.new ≡ Self.beside self.old };
}

/// What a source answers: the record that was taken out of it, or else how its records end.
///
/// # Errors
///
/// `Refused` with the fault after the records.
pub(crate) fn record_or_ending(
    taken: Option<Placed>,
    ending: &Option<(Fault, Place)>,
) -> Result<Option<Placed>, Stop>
    ensures { result ≡ answer_with taken ending.now }
{
    if taken.is_some() {
        return Ok(taken);
    }
    match ending {
        None => Ok(None),
        Some((fault, place)) => Err(Stop::Refused(fault.copy(), *place)),
    }
}

/// The records of a whole input up to its first fault, and that fault.
#[derive(Debug, Drop)]
pub struct Reading {
    /// The records that are still to come, in order.
    pub placed: VecDeque<Placed>,
    /// The fault after them and where it stands. `None`: no fault is decided.
    pub ending: Option<(Fault, Place)>,
}

impl RrSource for Reading {
    ghost Beside = { Unit {0} };

    ghost beside = { λ _. tt };

    ghost pending = { λ r. record { failed = false; records = r.placed.items; ending = r.ending } };

    fn next(&mut self) -> Result<Option<Placed>, Stop> {
        record_or_ending(self.placed.pop_front(), &self.ending)
    }
}

impl LendingSource for Reading {
    fn first(&self) -> Option<PlacedRef<'_>> {
        Some(self.placed.front()?.lend())
    }

    fn skip(&mut self) {
        let _ = self.placed.pop_front();
    }
}
