ghost use Rattle.std.specs.Prelude.{◌≡◌, ◌<◌, ◌≤◌, ◌↔◌, IfOk, IfErr, IsOk, IsTrue, OnOk, Err};
ghost use Rattle.zone_rdata.specs.Lent.{placed_of, record_of};
ghost use Rattle.zone_rdata.specs.Record.{IsRecord, data_of, record_with};

use crate::class::Class;
use crate::fault::{Fault, Place};
use crate::kind::Kind;
use crate::lent::{PlacedRef, RdataRef, RrRef};
use crate::rdata::Rdata;
use std::alloc::{AllocError, Global};
use std::marker::Model;
use std::mem::swap;
use zone_name::{Name, NameRef};

/// The greatest TTL, in seconds (RFC 2181 8).
pub const MAX_TTL: u32 = 2147483647;

/// A resource record (RFC 1035 3.2.1) with a TTL of 31 bits (RFC 2181 8).
#[derive(Debug, Drop)]
pub struct Rr {
    owner: Name,
    ttl: u32,
    rdata: Rdata,
}

impl Model for Rr {
    ghost use Rattle.zone_rdata.specs.Record.{Record, IsRecord, record_with};

    ghost Value = { Record };

    ghost view = { λ r. record_with r.owner r.ttl r.rdata };

    ghost invariant = { λ r. IsRecord (record_with r.owner r.ttl r.rdata) };
}

/// A record and where it was stated.
#[derive(Debug, Drop)]
pub struct Placed {
    /// The record.
    pub rr: Rr,
    /// Where the input states it.
    pub place: Place,
}

impl Rr {
    /// The record of an owner, a TTL in seconds and data.
    ///
    /// # Errors
    ///
    /// `BadTtl` where the TTL is over 2147483647.
    pub fn new(owner: Name, ttl: u32, rdata: Rdata) -> Result<Rr, Fault>
        ensures ok { IsOk result ↔ (ttl ≤ MAX_TTL) }
        ensures value { IfOk result (λ r. r ≡ record {
          owner = owner;
          class = rdata.class;
          kind = rdata.kind;
          ttl = ttl;
          octets = rdata.octets;
        }) }
        ensures record { IfOk result IsRecord }
        ensures err { IfErr result (λ e. e ≡ Fault.BadTtl) }
    {
        if ttl > MAX_TTL {
            return Err(Fault::BadTtl);
        }
        Ok(Rr::of_parts(owner, ttl, rdata))
    }

    /// The record of an owner, a TTL in seconds that was judged before, and data.
    pub fn of_parts(owner: Name, ttl: u32, rdata: Rdata) -> Rr
        requires { ttl ≤ MAX_TTL }
        ensures value { result ≡ record {
          owner = owner;
          class = rdata.class;
          kind = rdata.kind;
          ttl = ttl;
          octets = rdata.octets;
        } }
        ensures record { IsRecord result }
    {
        owner.known();
        rdata.known();
        Rr { owner, ttl, rdata }
    }

    /// Lets the memory of the data go where it has room for more than `most` octets. It is then
    /// data without octets.
    pub(crate) fn free(&mut self, most: usize) {
        self.rdata.free(most);
    }

    /// The name that the record stands at.
    pub fn owner(&self) -> &Name
        ensures { result.now ≡ self.now.owner }
    {
        &self.owner
    }

    /// The class, which is that of the data.
    pub fn class(&self) -> Class
        ensures { result ≡ self.now.class }
    {
        self.rdata.class()
    }

    /// The type, which is that of the data.
    pub fn kind(&self) -> Kind
        ensures { result ≡ self.now.kind }
    {
        self.rdata.kind()
    }

    /// The TTL in seconds, at most 2147483647.
    pub fn ttl(&self) -> u32
        ensures value { result ≡ self.now.ttl }
        ensures short { result ≤ MAX_TTL }
    {
        self.ttl
    }

    /// The data, with its class and type.
    pub fn rdata(&self) -> &Rdata
        ensures { result.now ≡ data_of self.now }
    {
        &self.rdata
    }

    /// The record, borrowed.
    pub fn lend(&self) -> RrRef<'_>
        ensures record { record_of result ≡ self.now }
        ensures whole { IsRecord self.now }
    {
        RrRef::of_parts(self.owner.lend(), self.ttl, self.rdata.lend())
    }

    /// The owner, the TTL in seconds and the data.
    pub fn into_parts(self) -> (Name, u32, Rdata)
        ensures owner { result.0 ≡ self.owner }
        ensures ttl { result.1 ≡ self.ttl }
        ensures rdata { result.2 ≡ data_of self }
        ensures record { IsRecord self }
    {
        let Rr { owner, ttl, rdata } = self;
        (owner, ttl, rdata)
    }
}

impl<'a> RrRef<'a> {
    /// The record of an owner, a TTL in seconds that was judged before, and data.
    pub fn of_parts(owner: NameRef<'a>, ttl: u32, rdata: RdataRef<'a>) -> RrRef<'a>
        requires { ttl ≤ MAX_TTL }
        ensures value { record_of result ≡ record_with owner.entry ttl rdata.entry }
        ensures record { IsRecord (record_of result) }
    {
        let rr = RrRef {
            owner,
            class: rdata.class(),
            kind: rdata.kind(),
            ttl,
            rdata,
        };
        rr.known();
        rr
    }

    /// The same record, which owns its octets.
    ///
    /// # Errors
    ///
    /// `AllocError` where memory is refused.
    pub fn to_rr(&self, alloc: Global) -> Result<Rr, AllocError>
        ensures { IfOk result (λ r. r ≡ record_of self.now) }
    {
        let rdata = self.rdata.to_rdata(alloc)?;
        Ok(Rr::of_parts(self.owner.to_name(), self.ttl, rdata))
    }

    /// Whether the other has the same owner, class, type, TTL and data.
    pub fn is_same(&self, other: &RrRef<'_>) -> bool
        ensures { IsTrue result ↔ (record_of self.now ≡ record_of other.now) }
    {
        self.kind == other.kind
            && self.ttl == other.ttl
            && self.class == other.class
            && self.rdata.octets() == other.rdata.octets()
            && self.owner.is_same(&other.owner)
    }

    /// Does nothing, and tells contracts what holds of every record.
    pub fn known(&self)
        ensures { IsRecord (record_of self.now) }
    {
        let _ = self.owner.wire();
        self.rdata.known();
    }
}

impl Placed {
    /// A record of the root with data without octets, which takes no memory.
    pub(crate) fn empty(alloc: Global) -> Placed {
        Placed {
            rr: Rr::of_parts(Name::root(), 0, Rdata::empty(alloc)),
            place: Place::Line(0),
        }
    }

    /// Becomes the record of an owner, a TTL in seconds that was judged before, and data, with its
    /// place. The data is exchanged for that of the record of before.
    #[inline(always)]
    pub(crate) fn exchange(
        &mut self,
        owner: &NameRef<'_>,
        ttl: u32,
        rdata: &mut Rdata,
        place: Place,
    )
        requires { ttl ≤ MAX_TTL }
        ensures { self.new ≡ record { rr = record_with owner.now ttl rdata.old; place = place } }
    {
        let _ = owner.wire();
        rdata.known();
        let slot = &mut self.rr;
        swap(&mut slot.rdata, rdata);
        slot.owner.copy_from(owner);
        (slot.ttl, self.place) = (ttl, place);
    }

    /// The record and its place, borrowed.
    pub fn lend(&self) -> PlacedRef<'_>
        ensures { placed_of result ≡ self.now }
    {
        PlacedRef {
            rr: self.rr.lend(),
            place: self.place,
        }
    }
}
