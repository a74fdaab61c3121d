//! The data of a record is read by its layout, field by field.
ghost use Rattle.std.specs.Prelude.{◌≡◌, [], Err, Some, IfOk, IfErr, OnOk};
ghost use Rattle.zone_rdata.specs.Fault.{IfFault};
ghost use Rattle.zone_rdata.specs.Layout.{fields_of, layout};
ghost use Rattle.zone_wire.specs.AnswerFault.{OwnFault};
ghost use Rattle.zone_wire.specs.Transfer.{IsDataAt, IsReadable};
ghost use Rattle.zone_wire.specs.Machine.Data.{values_at};
ghost use Rattle.zone_wire.specs.Machine.DataReading.{AwaitsStrings, IsReadyFor, PutsValue, PutsValues, next_value};

use crate::cursor::Cursor;
use crate::labels::LabelRoom;
use crate::lent::RawRrRef;
use zone_name::laws::are_octets;
use zone_rdata::{Cause, Field, Layout, NarrowFailing, Part, Rdata, RdataBuilder};

/// Pushes the strings that are left, each after its length: one at least.
#[tactic(auto, using(crate::proofs::Fields::DataReading::strings_pushed))]
fn push_strings(cursor: &mut Cursor, builder: &mut RdataBuilder) -> Result<(), NarrowFailing>
    requires next { AwaitsStrings cursor.old builder.old }
    ensures found { OnOk result
        (PutsValue Field.Strings cursor.old cursor.new builder.old builder.new) }
    ensures fault { IfErr result (IfFault (λ f. next_value cursor.old Field.Strings ≡ Err f)) }
{
    if cursor.is_empty() {
        return Err(NarrowFailing::of(Cause::BadRdata));
    }
    while !cursor.is_empty() {
        builder.push(Part::String(cursor.string()?))?;
    }
    Ok(())
}

/// Pushes the value of the field that is next. The room is for the labels of a name.
#[tactic(auto, using(crate::proofs::Fields::FieldReading::field_pushed))]
fn push_field(
    field: Field,
    cursor: &mut Cursor,
    labels: &mut LabelRoom,
    builder: &mut RdataBuilder,
) -> Result<(), NarrowFailing>
    requires next { IsReadyFor cursor.old builder.old field }
    ensures found { OnOk result (PutsValue field cursor.old cursor.new builder.old builder.new) }
    ensures fault { IfErr result (IfFault (λ f. next_value cursor.old field ≡ Err f)) }
{
    match field {
        Field::Name => {
            cursor.name(labels)?;
            builder.push(Part::Name(&labels.lend()))
        }
        Field::Serial | Field::Time => builder.push(Part::U32(cursor.u32()?)),
        Field::U16 => builder.push(Part::U16(cursor.u16()?)),
        Field::Octets(size) => builder.push(Part::Octets(cursor.take(size)?)),
        Field::OneString => builder.push(Part::String(cursor.string()?)),
        Field::Strings => push_strings(cursor, builder),
    }
}

/// Pushes the values of the fields of a layout, one after another. They are all the data.
#[tactic(auto, using(crate::proofs::Fields::DataReading::field_put))]
fn push_fields(
    fields: Layout,
    cursor: &mut Cursor,
    labels: &mut LabelRoom,
    builder: &mut RdataBuilder,
) -> Result<(), NarrowFailing>
    requires laid { layout builder.old.class builder.old.kind ≡ Some (fields_of fields) }
    requires new { builder.old.parts ≡ [] }
    ensures found { OnOk result (PutsValues cursor.old.message.now cursor.old.end cursor.old.at
        (fields_of fields) builder.old builder.new) }
    ensures fault { IfErr result (IfFault (λ f.
        values_at cursor.old.message.now cursor.old.end cursor.old.at (fields_of fields) ≡ Err f)) }
{
    let mut count = 0;
    while let Some(field) = fields.field(count) {
        push_field(field, cursor, labels, builder)?;
        count += 1;
    }
    if !cursor.is_empty() {
        return Err(NarrowFailing::of(Cause::BadRdata));
    }
    Ok(())
}

impl<'m, 'r> RawRrRef<'m, 'r> {
    /// The record's data, in the memory of other data, if a zone can have its class and its type and
    /// the type is read: the values of its layout, or the octets as they are where there is none (RFC
    /// 3597 3, 4). The room is for the labels of names in it.
    #[inline(always)]
    pub(crate) fn rdata(&self, labels: &mut LabelRoom, other: Rdata) -> Result<Rdata, NarrowFailing>
        ensures class { IfOk result (λ d. d.class ≡ self.now.at.class) }
        ensures kind { IfOk result (λ d. d.kind ≡ self.now.at.kind) }
        ensures readable { IfOk result (λ _. IsReadable self.now.at.kind) }
        ensures found { IfOk result (λ d. IsDataAt self.now.octets self.now.at d.octets) }
        ensures fault { IfErr result (IfFault (OwnFault self.now.octets self.now.at)) }
    {
        are_octets(self.fields.message);
        let fields = &self.fields;
        let (class, kind) = self.class_and_kind()?;
        let mut builder = RdataBuilder::reusing(other, class, kind);
        match builder.layout() {
            Some(layout) => {
                let mut cursor = Cursor {
                    message: fields.message,
                    at: fields.start,
                    end: fields.end,
                };
                push_fields(layout, &mut cursor, labels, &mut builder)?;
            }
            None => builder.push(Part::Octets(&fields.message[fields.start..fields.end]))?,
        }
        match builder.finish() {
            Ok(rdata) => Ok(rdata),
            Err(_) => Err(NarrowFailing::of(Cause::BadRdata)),
        }
    }
}
