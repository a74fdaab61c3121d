ghost use Rattle.std.specs.Prelude.{◌≡◌, ◌↔◌, [], ◌≤◌, length, IsTrue, IfOk, IfErr, IfSome, IfNone, OnOk, OnErr, option_map};
ghost use Rattle.zone_name.specs.Common.{AreOctets};
ghost use Rattle.zone_rdata.specs.Builder.{Built, IsNext, IsPushFault, IsWhole, Pushes};
ghost use Rattle.zone_rdata.specs.Machine.Building.{Grows, IsOver, IsReal};
ghost use Rattle.zone_rdata.specs.Part.{value_of};
ghost use Rattle.zone_rdata.specs.Fault.{IfFault};
ghost use Rattle.zone_rdata.specs.Field.{fixed, u32_value, name, octets_of, string, u16_value};
ghost use Rattle.zone_rdata.specs.Layout.{fields_of, layout};

use crate::cause::Cause;
use crate::class::Class;
use crate::fault::{Failing, Fault};
use crate::kind::Kind;
use crate::layout::{Layout, layout_of};
use crate::lent::RdataRef;
use crate::limits::LONGEST_DATA;
use crate::narrow_failing::NarrowFailing;
use crate::part::Part;
use crate::rdata::Rdata;
use crate::string::{LONGEST_STRING, push_with_length};
use std::alloc::Global;
use std::marker::Model;
use zone_name::Name;
use zone_name::laws::are_octets;

/// Record data that is made part by part. Contracts see class, type and the parts that were pushed.
#[derive(Debug, Drop)]
pub struct RdataBuilder {
    class: Class,
    kind: Kind,
    /// Those of the class and type. `None`: the data is opaque.
    fields: Option<Layout>,
    /// How many parts were pushed.
    count: usize,
    octets: Vec<u8>,
}

impl Model for RdataBuilder {
    ghost use Rattle.zone_rdata.specs.Builder.{Built};
    ghost use Rattle.zone_rdata.specs.Machine.Building.{IsBuilt, parts_held};
    ghost use Rattle.std.specs.Option.{option_map};
    ghost use Rattle.zone_rdata.specs.Layout.{fields_of, layout};

    ghost Value = { Built };

    ghost view = { λ b.
        record {
          class = b.class;
          kind = b.kind;
          parts = parts_held (layout b.class b.kind) b.count b.octets.items;
        } };

    ghost invariant = { λ b.
        IsBuilt b.class b.kind (option_map fields_of b.fields) b.count b.octets.items };
}

impl RdataBuilder {
    /// Data of a class and type, without a part yet.
    pub fn new(alloc: Global, class: Class, kind: Kind) -> RdataBuilder
        ensures { result ≡ record { class = class; kind = kind; parts = [] } }
    {
        RdataBuilder::reusing(Rdata::empty(alloc), class, kind)
    }

    /// Data of a class and type, without a part yet, in the memory of other data.
    #[inline(always)]
    pub fn reusing(rdata: Rdata, class: Class, kind: Kind) -> RdataBuilder
        ensures { result ≡ record { class = class; kind = kind; parts = [] } }
    {
        let fields = layout_of(class, kind);
        let mut octets = rdata.into_octets();
        octets.clear();
        RdataBuilder {
            class,
            kind,
            fields,
            count: 0,
            octets,
        }
    }

    /// Begins anew with a class and type: the parts go, and their memory stays.
    pub fn restart(&mut self, class: Class, kind: Kind)
        ensures { self.new ≡ record { class = class; kind = kind; parts = [] } }
    {
        (self.class, self.kind) = (class, kind);
        (self.fields, self.count) = (layout_of(class, kind), 0);
        self.octets.clear();
    }

    /// Pushes an address, or the octets of opaque data. On an error the builder is unchanged.
    ///
    /// # Errors
    ///
    /// `BadRdata` where that isn't the next part or the octets are not as many as the field's,
    /// `RdataTooLong` where the data would have more than 65,535 octets; and `Memory` where memory
    /// is refused.
    #[tactic(auto, using(std::proofs::lemmas::Result::err_from_is_err_and))]
    pub fn push_octets(&mut self, octets: &[u8]) -> Result<(), Failing>
        ensures ok { OnOk result (Pushes self.old (fixed octets.now) self.new) }
        ensures fault { IfErr result (IfFault (IsPushFault self.old (fixed octets.now))) }
        ensures err { OnErr result (self.new ≡ self.old) }
    {
        Ok(self.push(Part::Octets(octets))?)
    }

    /// Pushes a number of 16 bits. On an error the builder is unchanged.
    ///
    /// # Errors
    ///
    /// `BadRdata` where that isn't the next part, `RdataTooLong` where the data would have more
    /// than 65,535 octets; and `Memory` where memory is refused.
    #[tactic(auto, using(std::proofs::lemmas::Result::err_from_is_err_and))]
    pub fn push_u16(&mut self, number: u16) -> Result<(), Failing>
        ensures ok { OnOk result (Pushes self.old (u16_value number) self.new) }
        ensures fault { IfErr result (IfFault (IsPushFault self.old (u16_value number))) }
        ensures err { OnErr result (self.new ≡ self.old) }
    {
        Ok(self.push(Part::U16(number))?)
    }

    /// Pushes a number of 32 bits, a serial or a time in seconds. On an error the
    /// builder is unchanged.
    ///
    /// # Errors
    ///
    /// `BadRdata` where that isn't the next part, `RdataTooLong` where the data would have more
    /// than 65,535 octets; and `Memory` where memory is refused.
    #[tactic(auto, using(std::proofs::lemmas::Result::err_from_is_err_and))]
    pub fn push_u32(&mut self, number: u32) -> Result<(), Failing>
        ensures ok { OnOk result (Pushes self.old (u32_value number) self.new) }
        ensures fault { IfErr result (IfFault (IsPushFault self.old (u32_value number))) }
        ensures err { OnErr result (self.new ≡ self.old) }
    {
        Ok(self.push(Part::U32(number))?)
    }

    /// Pushes a name. On an error the builder is unchanged.
    ///
    /// # Errors
    ///
    /// `BadRdata` where that isn't the next part, `RdataTooLong` where the data would have more
    /// than 65,535 octets; and `Memory` where memory is refused.
    #[tactic(auto, using(std::proofs::lemmas::Result::err_from_is_err_and))]
    pub fn push_name(&mut self, target: &Name) -> Result<(), Failing>
        ensures ok { OnOk result (Pushes self.old (name target.now) self.new) }
        ensures fault { IfErr result (IfFault (IsPushFault self.old (name target.now))) }
        ensures err { OnErr result (self.new ≡ self.old) }
    {
        Ok(self.push(Part::Name(&target.lend()))?)
    }

    /// Pushes a string, the next field or one more of several. On an error the
    /// builder is unchanged.
    ///
    /// # Errors
    ///
    /// `BadRdata` where that isn't the next part, `StringTooLong` over 255 octets, `RdataTooLong`
    /// where the data would have more than 65,535 octets; and `Memory` where memory is refused.
    #[tactic(auto, using(std::proofs::lemmas::Result::err_from_is_err_and))]
    pub fn push_string(&mut self, octets: &[u8]) -> Result<(), Failing>
        ensures ok { OnOk result (Pushes self.old (string octets.now) self.new) }
        ensures fault { IfErr result (IfFault (IsPushFault self.old (string octets.now))) }
        ensures err { OnErr result (self.new ≡ self.old) }
    {
        Ok(self.push(Part::String(octets))?)
    }

    /// Pushes a part, and answers in few octets. On an error the builder is unchanged.
    ///
    /// # Errors
    ///
    /// `BadRdata` where that isn't the next part, `StringTooLong` for a string over 255 octets,
    /// `RdataTooLong` where the data would have more than 65,535 octets; and `Memory` where memory
    /// is refused.
    #[tactic(auto, using(crate::proofs::Octets::Building::push_faults))]
    pub fn push(&mut self, part: Part) -> Result<(), NarrowFailing>
        ensures ok { OnOk result (Pushes self.old (value_of part.entry) self.new) }
        ensures fault { IfErr result (IfFault (IsPushFault self.old (value_of part.entry))) }
        ensures err { OnErr result (self.new ≡ self.old) }
    {
        if !is_next(self.fields, self.count, part) {
            return Err(NarrowFailing::of(Cause::BadRdata));
        }
        append(part, &mut self.octets)?;
        self.count += 1;
        Ok(())
    }

    /// The layout of the class and type. `None`: the data is opaque.
    pub fn layout(&self) -> Option<Layout>
        ensures { option_map fields_of result ≡ layout self.now.class self.now.kind }
    {
        self.fields
    }

    /// The data of the parts that were pushed.
    ///
    /// # Errors
    ///
    /// `BadRdata` where a part is missing.
    #[inline(always)]
    pub fn finish(self) -> Result<Rdata, Fault>
        ensures whole { OnOk result (IsWhole (layout self.class self.kind) self.parts) }
        ensures ok { IfOk result (λ d. d ≡ record {
          class = self.class;
          kind = self.kind;
          octets = octets_of self.parts;
        }) }
        ensures err { IfErr result (λ f. (f ≡ Fault.BadRdata)
            × (IsWhole (layout self.class self.kind) self.parts → ⊥)) }
    {
        match self.whole() {
            Some(data) => data.known(),
            None => return Err(Fault::BadRdata),
        }
        Ok(Rdata::of_octets(self.class, self.kind, self.octets))
    }

    /// The data of the parts that were pushed, borrowed. `None`: a part is missing.
    #[tactic(auto, using(crate::proofs::Octets::Building::finish_missing))]
    pub fn whole(&self) -> Option<RdataRef<'_>>
        ensures whole { IfSome result (λ _.
            IsWhole (layout self.now.class self.now.kind) self.now.parts) }
        ensures some { IfSome result (λ d. d ≡ record {
          class = self.now.class;
          kind = self.now.kind;
          octets = octets_of self.now.parts;
        }) }
        ensures none { IfNone result
            (IsWhole (layout self.now.class self.now.kind) self.now.parts → ⊥) }
    {
        let least = match self.fields {
            Some(layout) => layout.fields().len(),
            None => 1,
        };
        if self.count < least {
            return None;
        }
        are_octets(&self.octets);
        Some(RdataRef::of_octets(self.class, self.kind, &self.octets))
    }
}

/// Whether the part can be the next after `count` parts.
fn is_next(layout: Option<Layout>, count: usize, part: Part) -> bool
    ensures { IsTrue result
        ↔ IsNext (option_map fields_of layout) count (value_of part.entry) }
{
    let Some(layout) = layout else {
        return count == 0 && matches!(part, Part::Octets(_));
    };
    match layout.part_at(count) {
        Some(field) => field.suits(part),
        None => false,
    }
}

/// Appends the octets of a part. If it is refused, `out` is unchanged.
#[tactic(auto, using(crate::proofs::Octets::Building::over_as))]
fn append(part: Part, out: &mut Vec<u8>) -> Result<(), NarrowFailing>
    requires { length out.old.items ≤ LONGEST_DATA }
    ensures real { IsReal (value_of part.entry) }
    ensures ok { OnOk result (Grows out.old.items (value_of part.entry) out.new.items) }
    ensures fault { IfErr result (IfFault (IsOver out.old.items (value_of part.entry))) }
    ensures err { OnErr result (out.new.items ≡ out.old.items) }
{
    match part {
        Part::Octets(octets) => append_octets(octets, out),
        Part::U16(number) => append_octets(&number.to_be_bytes(), out),
        Part::U32(number) => append_octets(&number.to_be_bytes(), out),
        Part::Name(name) => append_octets(name.wire(), out),
        Part::String(octets) => append_string(octets, out),
    }
}

/// Appends octets. If they are refused, `out` is unchanged.
#[tactic(auto, using(crate::specs::Machine::Building::over_data))]
fn append_octets(octets: &[u8], out: &mut Vec<u8>) -> Result<(), NarrowFailing>
    requires { length out.old.items ≤ LONGEST_DATA }
    ensures each { AreOctets octets.now }
    ensures ok { OnOk result (Grows out.old.items (fixed octets.now) out.new.items) }
    ensures fault { IfErr result (IfFault (IsOver out.old.items (fixed octets.now))) }
    ensures err { OnErr result (out.new.items ≡ out.old.items) }
{
    are_octets(octets);
    if octets.len() > LONGEST_DATA - out.len() {
        return Err(NarrowFailing::of(Cause::RdataTooLong));
    }
    out.extend_from_slice(octets)?;
    Ok(())
}

/// Appends a string after its length. If it is refused, `out` is unchanged.
#[tactic(auto, using(crate::proofs::Octets::Building::strings_over))]
fn append_string(octets: &[u8], out: &mut Vec<u8>) -> Result<(), NarrowFailing>
    requires { length out.old.items ≤ LONGEST_DATA }
    ensures each { AreOctets octets.now }
    ensures ok { OnOk result (Grows out.old.items (string octets.now) out.new.items) }
    ensures fault { IfErr result (IfFault (IsOver out.old.items (string octets.now))) }
    ensures err { OnErr result (out.new.items ≡ out.old.items) }
{
    are_octets(octets);
    if octets.len() > LONGEST_STRING {
        return Err(NarrowFailing::of(Cause::StringTooLong));
    }
    if octets.len() + 1 > LONGEST_DATA - out.len() {
        return Err(NarrowFailing::of(Cause::RdataTooLong));
    }
    push_with_length(octets, out)?;
    Ok(())
}
