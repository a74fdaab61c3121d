//! Octets of a stream as they come in pieces: the frames that came whole, and the octets after them
//! (RFC 1035 4.2.2).
ghost use Rattle.std.specs.Prelude.{◌≡◌, ◌+◌, ◌-◌, ◌<◌, ◌≤◌, ◌^◌, ◌++◌, [], ℕ, List, None, length, take, IfOk, IfSome, IsOk, MatchOption, OnOk};
ghost use Rattle.zone_rdata.specs.declared.record.Placed.{Placed};
ghost use Rattle.zone_wire.specs.Machine.Feeding.{Follow, IsCut};
ghost use Rattle.zone_wire.specs.Message.{u16_at, longest_message};
ghost use Rattle.zone_wire.specs.Stream.{end_fault, StreamReads};
ghost use Rattle.zone_wire.specs.Answers.{is_closed};
ghost use Rattle.zone_wire.specs.Transfer.{frame};

use crate::transfer::Transfer;
use std::alloc::{AllocError, Global};
use zone_rdata::{Fault, Place, Rdata};

/// The octets of a frame's length.
const LENGTH_LEN: usize = 2;

/// The messages of the frames that came whole, and the octets after them.
#[derive(Drop)]
pub(crate) struct Framer {
    pub(crate) transfer: Transfer,
    /// The octets of the unfinished frame. No other input is kept.
    pub(crate) unfinished: Vec<u8>,
    /// In its memory the data of one record after another is made.
    rdata: Rdata,
}

impl Framer {
    /// No octets yet.
    pub(crate) fn new(alloc: Global) -> Framer
        ensures follow { Follow result.transfer result.unfinished.items [] [] }
        ensures none { result.unfinished.items ≡ [] }
        ensures count { result.transfer.messages ≡ 0 }
        ensures records { result.transfer.decided.placed ≡ [] }
        ensures undecided { result.transfer.decided.ending ≡ None }
    {
        Framer {
            transfer: Transfer::new(alloc),
            unfinished: Vec::new(alloc),
            rdata: Rdata::empty(alloc),
        }
    }

    /// Takes the octets of a piece up to a fault.
    pub(crate) fn feed(&mut self, piece: &[u8]) -> Result<(), AllocError>
        requires cut { IsCut self.old.unfinished.items }
        requires fits { self.old.transfer.messages + length piece.now + 1 < 2 ^ 64 }
        requires dropped { IfSome self.old.transfer.decided.ending
            (λ _. self.old.unfinished.items ≡ []) }
        ensures cut { OnOk result (IsCut self.new.unfinished.items) }
        ensures dropped { OnOk result
            (IfSome self.new.transfer.decided.ending (λ _. self.new.unfinished.items ≡ [])) }
        ensures count { OnOk result
            (self.new.transfer.messages ≤ self.old.transfer.messages + length piece.now) }
        ensures decided { IfSome self.old.transfer.decided.ending (λ _. IsOk result
            × (self.new ≡ self.old)) }
        ensures nothing { piece.now ≡ [] → IsOk result × (self.new ≡ self.old) }
        ensures follow { OnOk result ((fed : List ℕ) (given : List Placed)
            → Follow self.old.transfer self.old.unfinished.items fed given
            → Follow self.new.transfer self.new.unfinished.items (fed ++ piece.now) given) }
    {
        let mut rest = piece;
        while !rest.is_empty() && self.transfer.decided.ending.is_none() {
            let taken = self.take_front(rest)?;
            rest = &rest[taken..];
        }
        Ok(())
    }

    /// Takes octets up to the end of the unfinished frame, all where it doesn't end in them, and
    /// gives their number.
    fn take_front(&mut self, octets: &[u8]) -> Result<usize, AllocError>
        requires cut { IsCut self.old.unfinished.items }
        requires some { 0 < length octets.now }
        requires going { self.old.transfer.decided.ending ≡ None }
        requires fits { self.old.transfer.messages + 1 < 2 ^ 64 }
        ensures cut { OnOk result (IsCut self.new.unfinished.items) }
        ensures dropped { OnOk result
            (IfSome self.new.transfer.decided.ending (λ _. self.new.unfinished.items ≡ [])) }
        ensures within { IfOk result (λ taken. (0 < taken) × (taken ≤ length octets.now)) }
        ensures count { OnOk result (self.new.transfer.messages ≤ self.old.transfer.messages + 1) }
        ensures follow { IfOk result (λ taken. (fed : List ℕ) (given : List Placed)
            → Follow self.old.transfer self.old.unfinished.items fed given
            → Follow self.new.transfer self.new.unfinished.items
            (fed ++ take taken octets.now) given) }
    {
        match frame_end(self.unfinished.as_slice(), octets) {
            None => {
                self.unfinished.extend_from_slice(octets)?;
                Ok(octets.len())
            }
            Some(end) if self.unfinished.is_empty() => {
                let message = message_of(&octets[..end]);
                self.transfer.read(message, &mut self.rdata)?;
                Ok(end)
            }
            Some(end) => {
                self.unfinished.extend_from_slice(&octets[..end])?;
                let message = message_of(self.unfinished.as_slice());
                self.transfer.read(message, &mut self.rdata)?;
                self.unfinished.clear();
                Ok(end)
            }
        }
    }

    /// Takes the end of the stream.
    pub(crate) fn finish(&mut self)
        requires fits { self.old.transfer.messages + 1 < 2 ^ 64 }
        ensures none { self.new.unfinished.items ≡ [] }
        ensures count { self.new.transfer.messages ≡ self.old.transfer.messages }
        ensures reads { (fed : List ℕ) (given : List Placed)
            → Follow self.old.transfer self.old.unfinished.items fed given
            → StreamReads fed (given ++ self.new.transfer.decided.placed)
            self.new.transfer.decided.ending }
    {
        if self.transfer.decided.ending.is_none() {
            self.transfer.decided.ending = self.end();
        }
        self.unfinished.clear();
    }

    /// How the stream ends after frames without a fault.
    #[tactic(auto, using(crate::proofs::Streams::Feeding::empty_of))]
    fn end(&self) -> Option<(Fault, Place)>
        requires { self.now.transfer.messages + 1 < 2 ^ 64 }
        ensures { (placed : List Placed) → self.now.transfer.closed ≡ is_closed placed
            → result
            ≡ end_fault (self.now.transfer.messages + 1) placed self.now.unfinished.items }
    {
        let place = Place::Message(self.transfer.messages + 1, 0);
        if !self.unfinished.is_empty() {
            Some((Fault::ShortFrame, place))
        } else if !self.transfer.closed {
            Some((Fault::NoClosingSoa, place))
        } else {
            None
        }
    }
}

/// The message of a frame, after its length.
#[tactic(auto, using(crate::proofs::Streams::Feeding::frames_taken))]
fn message_of(framed: &[u8]) -> &[u8]
    requires { length framed.now ≡ 2 + u16_at framed.now 0 }
    ensures framed { framed.now ≡ frame result.now }
    ensures short { length result.now ≤ longest_message }
{
    &framed[LENGTH_LEN..]
}

/// Where in further octets the frame ends that cut-off octets begin; none, where it doesn't end
/// there.
fn frame_end(cut: &[u8], more: &[u8]) -> Option<usize>
    requires { IsCut cut.now }
    ensures { MatchOption result (IsCut (cut.now ++ more.now))
        (λ end. (length cut.now + end ≡ 2 + u16_at (cut.now ++ more.now) 0) × (0 < end)
        × (end ≤ length more.now)) }
{
    let (high, low) = match (cut, more) {
        ([high, low, ..], _) => (*high, *low),
        ([high], [low, ..]) => (*high, *low),
        ([], [high, low, ..]) => (*high, *low),
        _ => return None,
    };
    let len = LENGTH_LEN + u16::from_be_bytes([high, low]) as usize;
    if len - cut.len() > more.len() {
        return None;
    }
    Some(len - cut.len())
}
