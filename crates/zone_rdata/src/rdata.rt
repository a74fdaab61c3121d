ghost use Rattle.std.specs.Prelude.{◌≡◌, ◌++◌, map, IfOk, IfErr, IfSome, OnOk, OnErr, option_map};
ghost use Rattle.zone_name.specs.Common.{Octets};
ghost use Rattle.zone_name.specs.Sink.{TakesSome};
ghost use Rattle.zone_rdata.specs.DataFault.{IsDataFault, IsFaultFor, IsGenericDataFault};
ghost use Rattle.zone_rdata.specs.Fault.{IfFault};
ghost use Rattle.zone_rdata.specs.Item.{IsGeneric, raw};
ghost use Rattle.zone_rdata.specs.Layout.{StringsLast, fields_of, layout};
ghost use Rattle.zone_rdata.specs.Minimum.{minimum};
ghost use Rattle.zone_rdata.specs.Record.{Data, IsRdata, empty_data};
ghost use Rattle.zone_rdata.specs.Spelling.{States, StatesFor, StatesInForm};
ghost use Rattle.zone_rdata.specs.Text.{data_text};
ghost use Rattle.zone_rdata.specs.Wire.{IsWireData, IsWireFault};

use crate::cause::Cause;
use crate::class::Class;
use crate::fault::{Failing, Fault};
use crate::generic::read_generic;
use crate::item::Item;
use crate::kind::Kind;
use crate::laws::items::{data_is_unique, faulty_items_state_none};
use crate::layout::{Layout, layout_of};
use crate::lent::RdataRef;
use crate::limits::LONGEST_DATA;
use crate::narrow_failing::NarrowFailing;
use crate::reading::{is_generic, read_words};
use crate::uncompressed::canonical_of;
use std::alloc::{AllocError, Global};
use std::marker::Model;
use zone_name::laws::are_octets;
use zone_name::{Name, Sink};

/// The number of NULL, of which any octets are data (RFC 1035 3.3.10).
const NULL: u16 = 10;

/// The data of a record: class, type and canonical octets (RFC 1035 3.2.1). Contracts see these
/// three.
#[derive(Debug, Drop)]
pub struct Rdata {
    class: Class,
    kind: Kind,
    octets: Vec<u8>,
}

impl Model for Rdata {
    ghost use Rattle.zone_rdata.specs.Record.{Data, IsRdata};

    ghost Value = { Data };

    ghost view = { λ d. record { class = d.class; kind = d.kind; octets = d.octets.items } };

    ghost invariant = { λ d.
        IsRdata (record { class = d.class; kind = d.kind; octets = d.octets.items }) };
}

/// Reads the canonical octets that items state for a layout, in words or in the generic form. They
/// come in the place of those of before.
#[tactic(auto, using(crate::proofs::Items::Forms::octets_read))]
fn read_octets(
    layout: Option<Layout>,
    items: &[Item],
    origin: &Name,
    octets: &mut Vec<u8>,
) -> Result<(), NarrowFailing>
    requires { IfSome layout (λ l. StringsLast (fields_of l)) }
    ensures found { OnOk result (StatesFor origin.now (option_map fields_of layout)
        (map raw items.now) octets.new.items) }
    ensures fault { IfErr result (IfFault
        (IsFaultFor origin.now (option_map fields_of layout) (map raw items.now))) }
{
    if !is_generic(items) {
        return match layout {
            Some(layout) => read_words(layout, items, origin, octets),
            None => Err(NarrowFailing::of(Cause::BadGeneric)),
        };
    }
    read_generic(items, octets)?;
    if let Some(layout) = layout {
        *octets = canonical_of(*octets.allocator(), Some(layout), octets)?;
    }
    Ok(())
}

impl Rdata {
    /// Data without octets, of the type NULL, which may have any. It takes no memory.
    pub fn empty(alloc: Global) -> Rdata
        ensures { result ≡ empty_data }
    {
        Rdata::of_octets(Class::internet(), Kind::of_judged(NULL), Vec::new(alloc))
    }

    /// The data that the items state under the origin (RFC 1035 5.1; RFC 3597 5).
    ///
    /// # Errors
    ///
    /// The first fault of the items from the left, one of `EmptyLabel`, `LabelTooLong`,
    /// `NameTooLong`, `BadEscape`, `StringTooLong`, `BadNumber`, `BadRdata`, `BadGeneric` and
    /// `RdataTooLong`; and `Memory` where memory is refused.
    pub fn from_items(
        alloc: Global,
        class: Class,
        kind: Kind,
        items: &[Item],
        origin: &Name,
    ) -> Result<Rdata, Failing>
        ensures class { IfOk result (λ d. d.class ≡ class) }
        ensures kind { IfOk result (λ d. d.kind ≡ kind) }
        ensures found { IfOk result (λ d.
            States origin.now class kind (map raw items.now) d.octets) }
        ensures only { (octets : Octets) → States origin.now class kind (map raw items.now) octets
            → IfOk result (λ d. d.octets ≡ octets) × IfErr result (λ e. e ≡ Failing.Memory) }
        ensures fault { IfErr result (IfFault
            (IsDataFault origin.now class kind (map raw items.now))) }
    {
        let mut data = Rdata::empty(alloc);
        data.set_from_items(class, kind, items, origin)?;
        Ok(data)
    }

    /// Becomes the data that the items state under the origin (RFC 1035 5.1; RFC 3597 5), which is
    /// written in place. On an error it becomes data without octets.
    ///
    /// # Errors
    ///
    /// The first fault of the items from the left, one of `EmptyLabel`, `LabelTooLong`,
    /// `NameTooLong`, `BadEscape`, `StringTooLong`, `BadNumber`, `BadRdata`, `BadGeneric` and
    /// `RdataTooLong`; and `Memory` where memory is refused. The error takes few octets.
    pub fn set_from_items(
        &mut self,
        class: Class,
        kind: Kind,
        items: &[Item],
        origin: &Name,
    ) -> Result<(), NarrowFailing>
        ensures class { OnOk result (self.new.class ≡ class) }
        ensures kind { OnOk result (self.new.kind ≡ kind) }
        ensures found { OnOk result
            (States origin.now class kind (map raw items.now) self.new.octets) }
        ensures only { (octets : Octets) → States origin.now class kind (map raw items.now) octets
            → OnOk result (self.new.octets ≡ octets) × IfErr result (λ e. e ≡ Failing.Memory) }
        ensures fault { IfErr result (IfFault
            (IsDataFault origin.now class kind (map raw items.now))) }
        ensures err { OnErr result (self.new ≡ empty_data) }
    {
        data_is_unique();
        faulty_items_state_none();
        match read_octets(layout_of(class, kind), items, origin, &mut self.octets) {
            Ok(()) => {
                are_octets(&self.octets);
                (self.class, self.kind) = (class, kind);
                Ok(())
            }
            Err(failing) => {
                *self = Rdata::empty(*self.octets.allocator());
                Err(failing)
            }
        }
    }

    /// The data whose octets are these, names uncompressed and in any letter case (RFC 1035 3.3;
    /// RFC 4343 3). Data without a layout takes any octets.
    ///
    /// # Errors
    ///
    /// `RdataTooLong` over 65,535 octets, `BadRdata` where they aren't exactly one value of the
    /// layout; and `Memory` where memory is refused.
    #[tactic(auto, using(crate::proofs::Octets::Taken::only_canonical))]
    pub fn from_wire(
        alloc: Global,
        class: Class,
        kind: Kind,
        octets: &[u8],
    ) -> Result<Rdata, Failing>
        ensures class { IfOk result (λ d. d.class ≡ class) }
        ensures kind { IfOk result (λ d. d.kind ≡ kind) }
        ensures found { IfOk result (λ d. IsWireData (layout class kind) octets.now d.octets) }
        ensures only { (canonical : Octets) → IsWireData (layout class kind) octets.now canonical
            → IfOk result (λ d. d.octets ≡ canonical) × IfErr result (λ e. e ≡ Failing.Memory) }
        ensures fault { IfErr result (IfFault (IsWireFault (layout class kind) octets.now)) }
    {
        if octets.len() > LONGEST_DATA {
            return Err(Failing::Fault(Fault::RdataTooLong));
        }
        let octets = canonical_of(alloc, layout_of(class, kind), octets)?;
        are_octets(&octets);
        Ok(Rdata {
            class,
            kind,
            octets,
        })
    }

    /// The data of these octets.
    pub(crate) fn of_octets(class: Class, kind: Kind, octets: Vec<u8>) -> Rdata
        requires { IsRdata (record { class = class; kind = kind; octets = octets.items }) }
        ensures { result ≡ record { class = class; kind = kind; octets = octets.items } }
    {
        Rdata {
            class,
            kind,
            octets,
        }
    }

    /// The class in which the data has its meaning.
    pub fn class(&self) -> Class
        ensures { result ≡ self.now.class }
    {
        self.class
    }

    /// The type of the data.
    pub fn kind(&self) -> Kind
        ensures { result ≡ self.now.kind }
    {
        self.kind
    }

    /// The canonical octets, at most 65,535: names uncompressed and in lower case.
    pub fn octets(&self) -> &[u8]
        ensures { result.now ≡ self.now.octets }
    {
        self.octets.as_slice()
    }

    /// The octets, in a memory that can be used anew.
    pub(crate) fn into_octets(self) -> Vec<u8>
        ensures { result.items ≡ self.octets }
    {
        self.octets
    }

    /// The data, borrowed.
    pub fn lend(&self) -> RdataRef<'_>
        ensures { result ≡ self.now }
    {
        RdataRef::of_octets(self.class, self.kind, &self.octets)
    }

    /// Lets the memory of the octets go where it has room for more than `most`. It is then data
    /// without octets.
    pub(crate) fn free(&mut self, most: usize)
        ensures { IsRdata self.new }
    {
        if self.octets.capacity() > most {
            *self = Rdata::empty(*self.octets.allocator());
        }
    }

    /// What holds of all data.
    pub fn known(&self)
        ensures { IsRdata self.now }
    {
        let _ = &self.octets;
    }

    /// The MINIMUM of an SOA, in seconds (RFC 1035 3.3.13). `None`: the data is of another type.
    #[tactic(auto, using(crate::proofs::Octets::LastNumber::last_of_soa))]
    pub fn soa_minimum(&self) -> Option<u32>
        ensures { result ≡ minimum self.now }
    {
        if !self.kind.is_soa() {
            return None;
        }
        Some(u32::from_be_bytes(*self.octets.last_chunk::<4>()?))
    }

    /// Appends the canonical text. Where memory is refused, `out` is unchanged.
    ///
    /// # Errors
    ///
    /// `AllocError` where memory is refused.
    pub fn push_text(&self, out: &mut Vec<u8>) -> Result<(), AllocError>
        ensures ok { OnOk result (out.new.items ≡ out.old.items ++ data_text self.now) }
        ensures err { OnErr result (out.new.items ≡ out.old.items) }
    {
        let before = out.len();
        let pushed = self.print(out);
        if pushed.is_err() {
            out.truncate(before);
        }
        pushed
    }

    /// Appends the canonical text to any sink.
    ///
    /// # Errors
    ///
    /// `out` refuses octets. A prefix of the text may have been appended.
    pub fn print<S: Sink>(&self, out: &mut S) -> Result<(), S::Error>
        ensures ok { OnOk result (S.takes out.old (data_text self.now) out.new) }
        ensures err { OnErr result (TakesSome S.takes out.old out.new) }
    {
        self.lend().print(out)
    }
}

impl RdataRef<'_> {
    /// The same data, which owns its octets.
    ///
    /// # Errors
    ///
    /// `AllocError` where memory is refused.
    pub fn to_rdata(&self, alloc: Global) -> Result<Rdata, AllocError>
        ensures { IfOk result (λ d. d ≡ self.now) }
    {
        self.known();
        let mut octets = Vec::new(alloc);
        octets.extend_from_slice(self.octets())?;
        Ok(Rdata::of_octets(self.class(), self.kind(), octets))
    }
}
