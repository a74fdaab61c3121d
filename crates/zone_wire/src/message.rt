ghost use Rattle.std.specs.Prelude.{◌≡◌, [], ◌∷◌, map, IfOk, IfErr, IsOk, MatchOption};
ghost use Rattle.zone_rdata.specs.Cause.{fault_for};
ghost use Rattle.zone_wire.specs.Message.{Sections, IsMessage};
ghost use Rattle.zone_wire.specs.MessageFault.{MessageFault};
ghost use Rattle.zone_wire.specs.View.{raw_at, asked};

use crate::answers::Answers;
use crate::header::{ANCOUNT, HEADER_LEN, QDCOUNT};
use crate::name::{Decoded, name_at};
use crate::number::u16_at;
use crate::structure::answers_start;
use std::marker::Model;
use zone_name::Name;
use zone_rdata::{Cause, Fault};

/// What a message asks for (RFC 1035 4.1.2).
#[derive(Debug, Drop)]
pub struct Question {
    /// The name that is asked for.
    pub name: Name,
    /// The number of the type that is asked for.
    pub kind: u16,
    /// The number of the class that is asked for.
    pub class: u16,
}

/// A message of a zone transfer: a header without a fault, as many questions and records as it
/// counts, and nothing after them (RFC 1035 4.1, RFC 5936 2.2). It borrows the octets.
#[derive(Debug, Drop)]
pub struct Message<'m> {
    octets: &'m [u8],
    /// The offset at which the answers begin.
    answers: usize,
}

impl<'m> Model for Message<'m> {
    ghost use Rattle.zone_wire.specs.View.{Parsed};

    ghost Value = { Parsed };

    ghost use Rattle.zone_wire.specs.Machine.Parsing.{parsed, IsParsed};

    ghost view = { λ m. parsed m.octets.now };

    ghost invariant = { λ m. IsParsed m.octets.now m.answers };
}

impl<'m> Message<'m> {
    /// The message that octets are. Of records it judges the owners' names and where they end, and
    /// no more.
    ///
    /// # Errors
    ///
    /// The first fault of the message's structure and the offset at which it stands: 0 for a fault
    /// of the header and for `TrailingOctets`, else the start of the question or record.
    pub fn parse(octets: &'m [u8]) -> Result<Message<'m>, (Fault, usize)>
        ensures octets { IfOk result (λ m. m.octets ≡ octets.now) }
        ensures found { IfOk result (λ m. IsMessage octets.now m.sections) }
        ensures only { (sections : Sections) → IsMessage octets.now sections → IsOk result }
        ensures fault { IfErr result (λ e. MessageFault octets.now e.0 e.1) }
    {
        match Message::read(octets) {
            Ok(message) => Ok(message),
            Err((cause, offset)) => Err((cause.widened(), offset)),
        }
    }

    /// `parse`, with an answer of few octets.
    #[tactic(auto, using(crate::proofs::Messages::MessageFaults::message_refused))]
    pub(crate) fn read(octets: &'m [u8]) -> Result<Message<'m>, (Cause, usize)>
        ensures octets { IfOk result (λ m. m.octets ≡ octets.now) }
        ensures found { IfOk result (λ m. IsMessage octets.now m.sections) }
        ensures only { (sections : Sections) → IsMessage octets.now sections → IsOk result }
        ensures fault { IfErr result (λ e. MessageFault octets.now (fault_for e.0) e.1) }
    {
        let answers = answers_start(octets)?;
        Ok(Message { octets, answers })
    }

    /// The message's ID.
    pub fn id(&self) -> u16
        ensures { result ≡ self.now.sections.id }
    {
        u16_at(self.octets, 0)
    }

    /// The message's question; none, where it has none.
    pub fn question(&self) -> Option<Question>
        ensures { MatchOption result (self.now.sections.questions ≡ [])
            (λ q. map asked self.now.sections.questions ≡ q ∷ []) }
    {
        if u16_at(self.octets, QDCOUNT) == 0 {
            return None;
        }
        match name_at(self.octets, HEADER_LEN) {
            Ok(Decoded { name, end, .. }) => Some(Question {
                name,
                kind: u16_at(self.octets, end),
                class: u16_at(self.octets, end + 2),
            }),
            Err(_) => unreachable!(),
        }
    }

    /// The message's answers in order.
    #[tactic(auto, using(crate::proofs::Records::Pending::answers_shown))]
    pub fn answers(&self) -> Answers<'m>
        ensures answers { result ≡ map (raw_at self.now.octets) self.now.sections.answers }
        ensures message { IsMessage self.now.octets self.now.sections }
    {
        Answers {
            message: self.octets,
            offset: self.answers,
            left: u16_at(self.octets, ANCOUNT),
        }
    }
}
