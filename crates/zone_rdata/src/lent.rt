ghost use Rattle.std.specs.Prelude.{◌≡◌, ◌≤◌, OnOk, OnErr};
ghost use Rattle.zone_name.specs.Sink.{TakesSome};
ghost use Rattle.zone_rdata.specs.Record.{Data, IsRdata};
ghost use Rattle.zone_rdata.specs.Text.{data_text};
ghost use Rattle.zone_rdata.specs.Limits.{greatest_ttl};

use crate::class::Class;
use crate::fault::Place;
use crate::kind::Kind;
use crate::layout::layout_of;
use crate::printing::{push_fields, push_generic};
use std::marker::Model;
use zone_name::{NameRef, Sink};

/// The data of a record in borrowed octets: class, type and canonical octets (RFC 1035 3.2.1).
/// Contracts see these three.
#[derive(Debug, Drop)]
pub struct RdataRef<'a> {
    class: Class,
    kind: Kind,
    octets: &'a [u8],
}

impl<'a> Model for RdataRef<'a> {
    ghost use Rattle.zone_rdata.specs.Record.{Data, IsRdata};

    ghost Value = { Data };

    ghost view = { λ d. record { class = d.class; kind = d.kind; octets = d.octets.now } };

    ghost invariant = { λ d.
        IsRdata (record { class = d.class; kind = d.kind; octets = d.octets.now }) };
}

impl<'a> RdataRef<'a> {
    /// The data of these canonical octets, which were judged before.
    pub fn of_octets(class: Class, kind: Kind, octets: &'a [u8]) -> RdataRef<'a>
        requires { IsRdata (record { class = class; kind = kind; octets = octets.now }) }
        ensures { result ≡ record { class = class; kind = kind; octets = octets.now } }
    {
        RdataRef {
            class,
            kind,
            octets,
        }
    }

    /// The class in which the data has its meaning.
    pub(crate) fn class(&self) -> Class
        ensures { result ≡ self.now.class }
    {
        self.class
    }

    /// The type of the data.
    pub(crate) fn kind(&self) -> Kind
        ensures { result ≡ self.now.kind }
    {
        self.kind
    }

    /// The canonical octets, at most 65,535: names uncompressed and in lower case.
    pub fn octets(&self) -> &'a [u8]
        ensures { result.now ≡ self.now.octets }
    {
        self.octets
    }

    /// Does nothing, and tells contracts what holds of all data.
    pub fn known(&self)
        ensures { IsRdata self.now }
    {
        let _ = &self.octets;
    }

    /// Appends the canonical text to any sink.
    ///
    /// # Errors
    ///
    /// `out` refuses octets. A prefix of the text may have been appended.
    #[tactic(auto, using(crate::proofs::Texts::TextItems::printed_data))]
    pub fn print<S: Sink>(&self, out: &mut S) -> Result<(), S::Error>
        ensures ok { OnOk result (S.takes out.old (data_text self.now) out.new) }
        ensures err { OnErr result (TakesSome S.takes out.old out.new) }
    {
        match layout_of(self.class, self.kind) {
            Some(layout) => push_fields(layout, self.octets, out),
            None => push_generic(self.octets, out),
        }
    }
}

/// A borrowed record (RFC 1035 3.2.1).
#[derive(Drop)]
pub struct RrRef<'a> {
    /// The name at which the record stands.
    pub owner: NameRef<'a>,
    /// The class, which is that of the data.
    pub class: Class,
    /// The type, which is that of the data.
    pub kind: Kind,
    /// The TTL in seconds, at most 2147483647.
    pub ttl: u32,
    /// The data, with its class and type.
    pub rdata: RdataRef<'a>,
    pub ghost same_class: { rdata.class ≡ class },
    pub ghost same_kind: { rdata.kind ≡ kind },
    pub ghost short: { ttl ≤ greatest_ttl },
}

/// A borrowed record and where it was stated.
#[derive(Drop)]
pub struct PlacedRef<'a> {
    /// The record.
    pub rr: RrRef<'a>,
    /// Where the input states it.
    pub place: Place,
}
