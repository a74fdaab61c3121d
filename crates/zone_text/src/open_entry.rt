//! An entry that comes in pieces (RFC 1035 5.1).
ghost use Rattle.std.specs.Prelude.{◌≡◌, ◌<◌, ◌+◌, ◌^◌, [], length, IfOk, OnErr, None, Some};
ghost use Rattle.zone_rdata.specs.declared.fault.Fault.{Fault};
ghost use Rattle.zone_text.specs.OpenEntry.{EndIs, EntryIs, TakesFrom};
ghost use Rattle.zone_text.specs.declared.open_entry.EntryState.TheVariants.{Open, Ended, Broken};
ghost use Rattle.zone_text.specs.Machine.OpenEntry.{len_of, state_of};

use crate::walk::{At, Reached, end_fault, walk_more};
use std::alloc::{AllocError, Global};
use std::marker::Model;
use zone_rdata::Fault;

/// Where octets leave the entry that they begin.
#[derive(Debug, Drop)]
pub enum EntryState {
    /// It isn't ended.
    Open,
    /// The last of them is the line feed that ends it.
    Ended,
    /// They break by this fault, whatever follows them.
    Broken(Fault),
}

/// What was taken of a piece.
#[derive(Debug, Drop)]
pub struct Taken {
    /// How many of its octets: all, or those up to the end of the entry or to what breaks it.
    pub len: usize,
    /// Where they leave the entry.
    pub state: EntryState,
}

/// An entry that comes in pieces: its octets so far. No octet is looked at again for each
/// piece, however small the pieces are. Contracts see the octets, and where they leave the entry.
#[derive(Drop)]
pub struct OpenEntry {
    alloc: Global,
    octets: Vec<u8>,
    /// Where they leave the entry.
    reached: Reached,
}

impl Model for OpenEntry {
    ghost use Rattle.zone_text.specs.Machine.OpenEntry.{IsHeld, state_of};
    ghost use Rattle.zone_text.specs.OpenEntry.{HeldEntry};

    ghost Value = { HeldEntry };

    ghost view = { λ e. record { octets = e.octets.items; state = state_of e.reached } };

    ghost invariant = { λ e. IsHeld e.octets.items e.reached };
}

/// Where a walk leaves the entry.
fn state_of(reached: Reached) -> EntryState
    ensures { result ≡ state_of reached }
{
    match reached {
        Reached::Open(_) => EntryState::Open,
        Reached::Ends(_, _) => EntryState::Ended,
        Reached::LostEscape(_) => EntryState::Broken(Fault::BadEscape),
        Reached::ClosesNothing(_) => EntryState::Broken(Fault::UnbalancedParenthesis),
    }
}

/// How many of so many octets are the entry's.
fn len_of(reached: Reached, all: usize) -> usize
    ensures { result ≡ len_of reached all }
{
    match reached {
        Reached::Open(_) => all,
        Reached::Ends(len, _) | Reached::LostEscape(len) | Reached::ClosesNothing(len) => len,
    }
}

impl OpenEntry {
    /// No octets yet.
    #[tactic(auto, using(crate::proofs::Scanning::Unfinished::none_held))]
    pub fn new(alloc: Global) -> OpenEntry
        ensures octets { result.octets ≡ [] }
        ensures state { result.state ≡ Open }
    {
        OpenEntry {
            alloc,
            octets: Vec::new(alloc),
            reached: Reached::Open(At::default()),
        }
    }

    /// The octets that were taken, from the first of the entry on.
    pub fn octets(&self) -> &[u8]
        ensures { result.now ≡ self.now.octets }
    {
        self.octets.as_slice()
    }

    /// Where they leave the entry.
    #[tactic(auto, using(crate::proofs::Scanning::Unfinished::held_is))]
    pub fn state(&self) -> EntryState
        ensures state { result ≡ self.now.state }
        ensures is { EntryIs self.now.octets result }
    {
        state_of(self.reached)
    }

    /// Takes the octets of a piece that go on with the entry, where it is open: all, or those up to
    /// its end or to what breaks it. Once the entry is ended or broken nothing more is taken.
    ///
    /// # Errors
    ///
    /// `AllocError`. Nothing is taken then.
    pub fn take(&mut self, piece: &[u8]) -> Result<Taken, AllocError>
        requires fits { length self.old.octets + length piece.now < 2 ^ 64 }
        ensures taken { IfOk result (λ taken. TakesFrom self.old piece.now taken self.new) }
        ensures refused { OnErr result (self.new ≡ self.old) }
    {
        let Reached::Open(at) = self.reached else {
            return Ok(Taken {
                len: 0,
                state: state_of(self.reached),
            });
        };
        let held = self.octets.len();
        self.octets.extend_from_slice(piece)?;
        let reached = match walk_more(self.alloc, self.octets.as_slice(), at) {
            Ok(reached) => reached,
            Err(refused) => {
                self.octets.truncate(held);
                return Err(refused);
            }
        };
        let len = len_of(reached, self.octets.len());
        self.octets.truncate(len);
        self.reached = reached;
        Ok(Taken {
            len: len - held,
            state: state_of(reached),
        })
    }

    /// What is wrong with the entry where the input ends after its octets: an open quote,
    /// parenthesis or escape, or what broke it. `None`: the octets are a whole entry, or there are
    /// none.
    pub fn end_fault(&self) -> Option<Fault>
        ensures open { self.now.state ≡ Open → EndIs self.now.octets result }
        ensures ended { self.now.state ≡ Ended → result ≡ None }
        ensures broken { (fault : Fault) → self.now.state ≡ Broken fault → result ≡ Some fault }
    {
        match self.reached {
            Reached::Open(at) => end_fault(self.octets.as_slice(), at),
            Reached::Ends(_, _) => None,
            Reached::LostEscape(_) => Some(Fault::BadEscape),
            Reached::ClosesNothing(_) => Some(Fault::UnbalancedParenthesis),
        }
    }

    /// Lets go of the octets: the next entry begins.
    #[tactic(auto, using(crate::proofs::Scanning::Unfinished::none_held))]
    pub fn clear(&mut self)
        ensures octets { self.new.octets ≡ [] }
        ensures state { self.new.state ≡ Open }
    {
        self.octets.clear();
        self.reached = Reached::Open(At::default());
    }
}
