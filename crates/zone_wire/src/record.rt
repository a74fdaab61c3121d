ghost use Rattle.std.specs.Prelude.{◌≡◌, ◌↔◌, ◌≤◌, IsTrue, IfOk, IfErr};
ghost use Rattle.zone_rdata.specs.Cause.{fault_for};
ghost use Rattle.zone_rdata.specs.Fault.{IfFault};
ghost use Rattle.zone_rdata.specs.Record.{Record};
ghost use Rattle.zone_rdata.specs.Words.{IsClass, IsKind};
ghost use Rattle.zone_wire.specs.AnswerFault.{OwnFault};
ghost use Rattle.zone_wire.specs.Transfer.{IsReadable, AnswerStates, ttl_of};

use crate::labels::LabelRoom;
use crate::lent::RawRrRef;
use crate::raw::RawRr;
use std::alloc::Global;
use zone_name::laws::are_octets;
use zone_rdata::{Cause, Class, Failing, Kind, MAX_TTL, Rdata, Rr};

/// The types whose data may hold compressed names and isn't read: MD, MF, MB, MG, MR and MINFO (RFC
/// 1035 3.3), and RP, AFSDB, RT, SIG, PX and NXT (RFC 3597 4).
const COMPRESSIBLE: [u16; 12] = [3, 4, 7, 8, 9, 14, 17, 18, 21, 24, 26, 30];

/// Whether records of a type are read.
fn is_readable(kind: u16) -> bool
    ensures { IsTrue result ↔ IsReadable kind }
{
    !COMPRESSIBLE.contains(&kind)
}

/// The TTL that a TTL in a message counts as: 0 where its top bit is set (RFC 2181 8).
pub(crate) fn counted_ttl(ttl: u32) -> u32
    ensures value { result ≡ ttl_of ttl }
    ensures short { result ≤ MAX_TTL }
{
    if ttl > MAX_TTL { 0 } else { ttl }
}

impl<'m, 'r> RawRrRef<'m, 'r> {
    /// The class and the type, if a zone can have them and the type is read.
    pub(crate) fn class_and_kind(&self) -> Result<(Class, Kind), Cause>
        ensures class { IfOk result (λ p. (p.0 ≡ self.now.at.class) × IsClass self.now.at.class) }
        ensures kind { IfOk result (λ p. (p.1 ≡ self.now.at.kind) × IsKind self.now.at.kind) }
        ensures readable { IfOk result (λ _. IsReadable self.now.at.kind) }
        ensures fault { IfErr result (λ c. OwnFault self.now.octets self.now.at (fault_for c)) }
    {
        let Some(class) = Class::of_number(self.fields.class) else {
            return Err(Cause::BadClass);
        };
        class.known();
        let Some(kind) = Kind::of_number(self.fields.kind) else {
            return Err(Cause::MetaType);
        };
        kind.known();
        if !is_readable(self.fields.kind) {
            return Err(Cause::CompressibleType);
        }
        Ok((class, kind))
    }
}

impl<'m> RawRr<'m> {
    /// The record that the answer states by itself, wherever it stands in a transfer (RFC 1035
    /// 3.2.1, 4.1.3). Names in its data are followed into the whole message. A TTL with its top bit
    /// set counts as 0 (RFC 2181 8).
    ///
    /// # Errors
    ///
    /// `BadClass` or `MetaType` where no zone data has the class or the type, `CompressibleType`
    /// where the type may hold compressed names and has no layout, then the first fault of the
    /// data: `BadRdata`, or a name's `ShortMessage`, `ReservedLabel`, `BadPointer`,
    /// `TooManyPointers` or `NameTooLong`; and `Failing::Memory` for want of memory.
    #[tactic(auto, using(crate::proofs::Records::Answering::answer_refused))]
    pub fn to_rr(&self, alloc: Global) -> Result<Rr, Failing>
        ensures found { IfOk result (AnswerStates self.now.octets self.now.at) }
        ensures only { (r : Record) → AnswerStates self.now.octets self.now.at r
            → IfOk result (λ s. s ≡ r) × IfErr result (λ e. e ≡ Failing.Memory) }
        ensures fault { IfErr result (IfFault (OwnFault self.now.octets self.now.at)) }
    {
        are_octets(self.fields.message);
        let rdata = self
            .lend()
            .rdata(&mut LabelRoom::new(), Rdata::empty(alloc))?;
        let ttl = counted_ttl(self.fields.ttl);
        Ok(Rr::of_parts(self.owner.copy(), ttl, rdata))
    }
}
