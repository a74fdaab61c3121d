ghost use Rattle.std.specs.Prelude.{[], ◌≤◌, length, OnOk, OnErr, Some};
ghost use Rattle.std.specs.List.{AllByRecursion};
ghost use Rattle.zone_name.specs.Sink.{TakesSome};
ghost use Rattle.zone_rdata.specs.Layout.{AreLaidOut, IsSized, fields_of};
ghost use Rattle.zone_rdata.specs.Machine.Printing.{generic_head, laid_out_text};
ghost use Rattle.zone_rdata.specs.Text.{generic_text};
ghost use Rattle.hex.specs.Hex.{encode_lower};

use crate::digits::{LANES, digits_of};
use crate::layout::Layout;
use arrayvec::ArrayVec;
use itoa::Buffer;
use zone_name::Sink;

/// Appends the fields, parted by single spaces.
#[tactic(auto, using(crate::proofs::Texts::FieldTexts::printed_last))]
pub(crate) fn push_fields<S: Sink>(
    layout: Layout,
    octets: &[u8],
    out: &mut S,
) -> Result<(), S::Error>
    requires sized { AllByRecursion IsSized (fields_of layout) }
    requires laid { AreLaidOut (fields_of layout) octets.now }
    ensures ok { OnOk result
        (S.takes out.old (laid_out_text (Some (fields_of layout)) octets.now) out.new) }
    ensures err { OnErr result (TakesSome S.takes out.old out.new) }
{
    let fields = layout.fields();
    let mut rest = octets;
    for (i, field) in fields.iter().enumerate() {
        if i > 0 {
            out.push(b" ")?;
        }
        rest = field.push_text(rest, i + 1 == fields.len(), out)?;
    }
    Ok(())
}

/// The octets of the longest head of the generic form: the mark, twenty digits and two spaces.
const LONGEST_HEAD: usize = 24;

/// Appends the mark of the generic form, the number of octets and what parts it from their digits.
fn push_generic_head<S: Sink>(octets: &[u8], out: &mut S) -> Result<(), S::Error>
    ensures ok { OnOk result (S.takes out.old (generic_head octets.now) out.new) }
    ensures err { OnErr result (S.takes out.old [] out.new) }
{
    if octets.is_empty() {
        return out.push(b"\\# 0");
    }
    let mut digits = Buffer::new();
    let mut head: ArrayVec<u8, LONGEST_HEAD> = ArrayVec::new();
    let _ = head.try_extend_from_slice(b"\\# ");
    let _ = head.try_extend_from_slice(digits.format(octets.len()).as_bytes());
    head.push(b' ');
    out.push(head.as_slice())
}

/// Appends two hexadecimal digits for each octet, in lower case (RFC 4648 8).
///
/// # Errors
///
/// `out` refuses octets. A prefix of the digits may have been appended.
#[tactic(auto, using(crate::proofs::Texts::FieldTexts::digits_all))]
pub fn push_hex<S: Sink>(octets: &[u8], out: &mut S) -> Result<(), S::Error>
    ensures ok { OnOk result (S.takes out.old (encode_lower octets.now) out.new) }
    ensures err { OnErr result (TakesSome S.takes out.old out.new) }
{
    let mut rest = octets;
    while !rest.is_empty() {
        let (part, after) = rest.split_at(LANES.min(rest.len()));
        push_hex_of_few(part, out)?;
        rest = after;
    }
    Ok(())
}

/// Appends two hexadecimal digits for each octet of a few.
fn push_hex_of_few<S: Sink>(octets: &[u8], out: &mut S) -> Result<(), S::Error>
    requires { length octets.now ≤ LANES }
    ensures ok { OnOk result (S.takes out.old (encode_lower octets.now) out.new) }
    ensures err { OnErr result (S.takes out.old [] out.new) }
{
    if octets.len() == LANES {
        return out.push(&digits_of(octets));
    }
    let mut few = [0; LANES];
    few[..octets.len()].copy_from_slice(octets);
    out.push(&digits_of(&few)[..2 * octets.len()])
}

/// Appends octets in the generic form (RFC 3597 5).
pub(crate) fn push_generic<S: Sink>(octets: &[u8], out: &mut S) -> Result<(), S::Error>
    ensures ok { OnOk result (S.takes out.old (generic_text octets.now) out.new) }
    ensures err { OnErr result (TakesSome S.takes out.old out.new) }
{
    push_generic_head(octets, out)?;
    push_hex(octets, out)
}
