//! A place in the data of a record, from which its values are read one after another.
ghost use Rattle.std.specs.Prelude.{ℕ, ◌+◌, ◌<◌, ◌≤◌, length, slice_index};
ghost use Rattle.zone_rdata.specs.Limits.{longest_data};

use crate::labels::LabelRoom;
use crate::name::read_name;
use crate::number::{u16_at, u32_at};
use zone_rdata::Cause;

/// What is left to read of the data of a record. After an error no more is read.
#[derive(Debug, Drop)]
pub(crate) struct Cursor<'m> {
    /// The octets of the whole message.
    pub(crate) message: &'m [u8],
    /// The offset of the next octet.
    pub(crate) at: usize,
    /// The offset after the data.
    pub(crate) end: usize,
    ghost octets: { (i : ℕ) → slice_index message.now i < 256 },
    ghost order: { at ≤ end },
    ghost inside: { end ≤ length message.now },
    ghost short: { end ≤ at + longest_data },
}

impl<'m> Cursor<'m> {
    ghost use Rattle.std.specs.Prelude.{◌≡◌, ◌+◌, ◌<◌, ◌≤◌, ◌↔◌, [], Err, IfErr, IfOk, IsTrue, OnOk, length};
    ghost use Rattle.zone_rdata.specs.Cause.{fault_for};
    ghost use Rattle.zone_rdata.specs.Field.{name, string, u16_value, u32_value};
    ghost use Rattle.zone_rdata.specs.declared.fault.Fault.TheVariants.{BadRdata};
    ghost use Rattle.zone_rdata.specs.declared.field.Field.TheVariants.{Name, OneString, Serial, U16};
    ghost use Rattle.zone_wire.specs.Machine.DataReading.{Reads, TakesOctets, next_value};

    /// Whether nothing is left.
    pub(crate) fn is_empty(&self) -> bool
        ensures { IsTrue result ↔ self.now.at ≡ self.now.end }
    {
        self.at == self.end
    }

    /// The next so many octets.
    pub(crate) fn take(&mut self, size: usize) -> Result<&'m [u8], Cause>
        ensures found { IfOk result (λ part. TakesOctets self.old self.new size part.now) }
        ensures fault { IfErr result
            (λ c. (fault_for c ≡ BadRdata) × (self.old.end < self.old.at + size)) }
    {
        if size > self.end - self.at {
            return Err(Cause::BadRdata);
        }
        let start = self.at;
        self.at += size;
        Ok(&self.message[start..self.at])
    }

    /// The number of 16 bits that is next.
    #[tactic(auto, using(crate::proofs::Fields::FieldReading::two_reads))]
    pub(crate) fn u16(&mut self) -> Result<u16, Cause>
        ensures found { IfOk result (λ n. Reads self.old self.new U16 (u16_value n)) }
        ensures fault { IfErr result (λ c. next_value self.old U16 ≡ Err (fault_for c)) }
    {
        Ok(u16_at(self.take(2)?, 0))
    }

    /// The number of 32 bits that is next.
    #[tactic(auto, using(crate::proofs::Fields::FieldReading::long_reads))]
    pub(crate) fn u32(&mut self) -> Result<u32, Cause>
        ensures found { IfOk result (λ n. Reads self.old self.new Serial (u32_value n)) }
        ensures fault { IfErr result (λ c. next_value self.old Serial ≡ Err (fault_for c)) }
    {
        Ok(u32_at(self.take(4)?, 0))
    }

    /// The string that is next, after its length.
    #[tactic(auto, using(crate::proofs::Fields::FieldReading::string_reads))]
    pub(crate) fn string(&mut self) -> Result<&'m [u8], Cause>
        ensures found { IfOk result
            (λ text. Reads self.old self.new OneString (string text.now)) }
        ensures short { IfOk result (λ text. length text.now ≤ 255) }
        ensures fault { IfErr result
            (λ c. next_value self.old OneString ≡ Err (fault_for c)) }
    {
        let size = self.take(1)?[0];
        self.take(size as usize)
    }

    /// Puts the labels of the name that is next into a room, in place of those there. The name is
    /// followed into the whole message.
    pub(crate) fn name(&mut self, labels: &mut LabelRoom) -> Result<(), Cause>
        ensures found { OnOk result (Reads self.old self.new Name (name labels.new)) }
        ensures fault { IfErr result (λ c. next_value self.old Name ≡ Err (fault_for c)) }
    {
        match read_name(self.message, self.at, false, labels) {
            Err((cause, _)) => Err(cause),
            Ok((past, _)) if past > self.end => Err(Cause::BadRdata),
            Ok((past, _)) => {
                self.at = past;
                Ok(())
            }
        }
    }
}
