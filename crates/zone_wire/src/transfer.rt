//! The messages of a zone transfer one after another, and what those before one fix (RFC 5936 2.2).
ghost use Rattle.std.specs.Prelude.{◌≡◌, ◌+◌, ◌<◌, ◌≤◌, ◌^◌, [], length, List, None, Some, IfErr, OnOk, option_map};
ghost use Rattle.zone_rdata.specs.Cause.{fault_for};
ghost use Rattle.zone_rdata.specs.Fault.{IfFault};
ghost use Rattle.zone_rdata.specs.Lent.{record_of};
ghost use Rattle.zone_rdata.specs.declared.record.Placed.{Placed};
ghost use Rattle.zone_wire.specs.Machine.Answers.{agrees, order_fault, same_record};
ghost use Rattle.zone_wire.specs.Machine.Transferring.{zone_held, zone_with, Among, IsAfter, IsTaken, IsRefused, TakesEach, TakesHead, HeadFault, TakesMessage, ReadsNext};
ghost use Rattle.zone_wire.specs.Message.{QuestionAt, longest_message};
ghost use Rattle.zone_wire.specs.Transfer.{StatedMessage};

use crate::header::HEADER_LEN;
use crate::labels::LabelRoom;
use crate::lent::RawRrRef;
use crate::message::Message;
use crate::record::counted_ttl;
use std::alloc::{AllocError, Global};
use std::mem::replace;
use zone_name::{Name, NameRef};
use zone_rdata::{Cause, NarrowFailing, PendingRecords, Place, Rdata, Rr, RrRef};

/// The number of the query type AXFR, of a whole zone (RFC 5936 2.1.2).
const AXFR: u16 = 252;

/// The name and the class of the zone that is transferred.
#[derive(Debug, Drop)]
pub(crate) struct FixedZone {
    pub(crate) name: Name,
    pub(crate) class: u16,
}

/// What the messages so far fix, and the records that their answers state.
#[derive(Drop)]
pub(crate) struct Transfer {
    alloc: Global,
    pub(crate) messages: u64,
    /// The ID of the first message.
    pub(crate) id: Option<u16>,
    /// By the first question or the opening SOA.
    pub(crate) zone: Option<FixedZone>,
    pub(crate) opening: Option<Rr>,
    /// Whether the closing SOA came.
    pub(crate) closed: bool,
    pub(crate) decided: PendingRecords,
}

impl Transfer {
    /// No message yet.
    pub(crate) fn new(alloc: Global) -> Transfer
        ensures after { IsAfter [] result }
        ensures none { result.decided.ending ≡ None }
        ensures records { result.decided.placed ≡ [] }
    {
        Transfer {
            alloc,
            messages: 0,
            id: None,
            zone: None,
            opening: None,
            closed: false,
            decided: PendingRecords::new(alloc),
        }
    }

    /// Takes the next message. Nothing is taken after a fault in it. The data gives its memory up to
    /// that of the records.
    #[tactic(auto, using(crate::proofs::Transfers::Progress::read_next))]
    pub(crate) fn read(&mut self, octets: &[u8], rdata: &mut Rdata) -> Result<(), AllocError>
        requires going { self.old.decided.ending ≡ None }
        requires fits { self.old.messages + 1 < 2 ^ 64 }
        requires short { length octets.now ≤ longest_message }
        ensures next { OnOk result ((before : List StatedMessage) → IsAfter before self.old
            → ReadsNext octets.now before self.old self.new) }
        ensures count { OnOk result (self.new.messages ≤ self.old.messages + 1) }
    {
        let number = self.messages + 1;
        match self.take_message(octets, rdata) {
            Ok(()) => Ok(()),
            Err((failing, offset)) => {
                let place = Place::Message(number, offset);
                self.decided.refuse(failing, place)
            }
        }
    }

    /// Takes the records of the message that octets are.
    #[tactic(auto, using(crate::proofs::Transfers::Progress::message_stops))]
    fn take_message(
        &mut self,
        octets: &[u8],
        rdata: &mut Rdata,
    ) -> Result<(), (NarrowFailing, usize)>
        requires fits { self.old.messages + 1 < 2 ^ 64 }
        requires short { length octets.now ≤ longest_message }
        ensures taken { (before : List StatedMessage) → IsAfter before self.old
            → TakesMessage octets.now before result self.old self.new }
        ensures ending { self.new.decided.ending ≡ self.old.decided.ending }
        ensures count { self.new.messages ≤ self.old.messages + 1 }
    {
        let message = match Message::read(octets) {
            Ok(message) => message,
            Err((cause, offset)) => return Err((NarrowFailing::of(cause), offset)),
        };
        match self.take_head(&message) {
            Ok(()) => self.take_answers(&message, rdata),
            Err((cause, offset)) => Err((NarrowFailing::of(cause), offset)),
        }
    }

    /// Counts a message, and takes its ID and its question.
    fn take_head(&mut self, message: &Message<'_>) -> Result<(), (Cause, usize)>
        requires { self.old.messages + 1 < 2 ^ 64 }
        ensures taken { OnOk result ((before : List StatedMessage) → IsAfter before self.old
            → TakesHead before message.now.sections self.old self.new) }
        ensures fault { IfErr result (λ e. (before : List StatedMessage) → IsAfter before self.old
            → HeadFault before message.now.sections (fault_for e.0, e.1)) }
        ensures decided { self.new.decided ≡ self.old.decided }
        ensures count { self.new.messages ≤ self.old.messages + 1 }
    {
        let id = message.id();
        let first = self.id.unwrap_or(id);
        if first != id {
            return Err((Cause::IdMismatch, 0));
        }
        if let Some(question) = message.question() {
            if question.kind != AXFR || !self.is_of_zone(&question.name.lend(), question.class) {
                return Err((Cause::BadQuestion, HEADER_LEN));
            }
            self.zone = Some(FixedZone {
                name: question.name,
                class: question.class,
            });
        }
        self.id = Some(id);
        self.messages += 1;
        Ok(())
    }

    /// Takes the records of a message's answers up to the first fault.
    #[tactic(auto, using(crate::proofs::Transfers::Progress::answers_are_taken))]
    fn take_answers(
        &mut self,
        message: &Message<'_>,
        rdata: &mut Rdata,
    ) -> Result<(), (NarrowFailing, usize)>
        ensures taken { (questions : List QuestionAt) (placed : List Placed)
            → Among questions placed self.old
            → TakesEach message.now.octets message.now.sections.answers questions placed result
            self.old self.new }
        ensures count { self.new.messages ≡ self.old.messages }
        ensures ending { self.new.decided.ending ≡ self.old.decided.ending }
    {
        let mut answers = message.answers();
        let (mut owner, mut labels) = (LabelRoom::new(), LabelRoom::new());
        while let Some(answer) = answers.next_in(&mut owner) {
            let offset = answer.fields.offset;
            match self.take_answer(&answer, &mut labels, rdata) {
                Ok(()) => {}
                Err(failing) => return Err((failing, offset)),
            }
        }
        Ok(())
    }

    /// Takes the record that an answer states: the first opens the transfer, and an SOA after it closes
    /// it. Its data takes the memory of `rdata`, and the room is for the labels of names in it.
    #[tactic(auto, using(crate::proofs::Records::Answering::answer_judged))]
    fn take_answer(
        &mut self,
        answer: &RawRrRef<'_, '_>,
        labels: &mut LabelRoom,
        rdata: &mut Rdata,
    ) -> Result<(), NarrowFailing>
        ensures taken { OnOk result (IsTaken answer.now self.old self.new) }
        ensures fault { IfErr result (IfFault (IsRefused answer.now self.old)) }
        ensures unchanged { IfErr result (IfFault (λ _. self.new ≡ self.old)) }
        ensures count { self.new.messages ≡ self.old.messages }
        ensures ending { self.new.decided.ending ≡ self.old.decided.ending }
    {
        let memory = replace(rdata, Rdata::empty(self.alloc));
        *rdata = answer.rdata(labels, memory)?;
        let ttl = counted_ttl(answer.fields.ttl);
        let rr = RrRef::of_parts(answer.owner.copy(), ttl, rdata.lend());
        if let Some(cause) = self.order_cause(&rr) {
            return Err(NarrowFailing::of(cause));
        }
        if self.opening.is_none() {
            self.open(&rr)?;
        } else if rr.kind.is_soa() {
            self.closed = true;
            return Ok(());
        }
        let owner = answer.owner.copy();
        let place = Place::Message(self.messages, answer.fields.offset);
        self.decided
            .placed
            .push_exchanged(owner, ttl, rdata, place)?;
        Ok(())
    }

    /// Keeps the record that opens the transfer. It fixes the zone if no question does.
    #[cold]
    #[inline(never)]
    fn open(&mut self, rr: &RrRef<'_>) -> Result<(), AllocError>
        ensures others { self.new
            ≡ record self.old { zone = self.new.zone; opening = self.new.opening } }
        ensures opening { OnOk result (self.new.opening ≡ Some (record_of rr.now)) }
        ensures zone { zone_held self.new.zone
            ≡ zone_with (zone_held self.old.zone) (record_of rr.now) }
    {
        if self.zone.is_none() {
            self.zone = Some(FixedZone {
                name: rr.owner.to_name(),
                class: rr.class.number(),
            });
        }
        self.opening = Some(rr.to_rr(self.alloc)?);
        Ok(())
    }

    /// The fault of a record after those before it.
    fn order_cause(&self, rr: &RrRef<'_>) -> Option<Cause>
        ensures { (questions : List QuestionAt) (placed : List Placed)
            → Among questions placed self.now
            → option_map fault_for result ≡ order_fault questions placed (record_of rr.now) }
    {
        match &self.opening {
            None if !rr.kind.is_soa() => Some(Cause::NoOpeningSoa),
            None if !self.is_of_zone(&rr.owner, rr.class.number()) => Some(Cause::BadQuestion),
            None => None,
            Some(_) if self.closed => Some(Cause::AfterClosing),
            Some(opening) if rr.kind.is_soa() && !is_same(rr, opening) => Some(Cause::SoaMismatch),
            Some(_) => None,
        }
    }

    /// Whether a name and a class are those of the zone, if it is fixed.
    fn is_of_zone(&self, name: &NameRef<'_>, class: u16) -> bool
        ensures { result ≡ agrees (zone_held self.now.zone) name.now class }
    {
        match &self.zone {
            Some(zone) => name.is_same(&zone.name.lend()) && class == zone.class,
            None => true,
        }
    }
}

/// Whether records are the same in owner, class, type, TTL and data.
fn is_same(rr: &RrRef<'_>, other: &Rr) -> bool
    ensures { result ≡ same_record (record_of rr.now) other.now }
{
    rr.is_same(&other.lend())
}
