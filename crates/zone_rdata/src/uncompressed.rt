ghost use Rattle.std.specs.Prelude.{IfOk, IfErr, IfSome, option_map};
ghost use Rattle.zone_rdata.specs.Fault.{IfFault, NoValue};
ghost use Rattle.zone_rdata.specs.Layout.{StringsLast, fields_of};
ghost use Rattle.zone_rdata.specs.Spelling.{IsCanonicalOf};

use crate::cause::Cause;
use crate::fault::Fault;
use crate::layout::Layout;
use crate::narrow_failing::NarrowFailing;
use std::alloc::Global;

/// The canonical octets of octets that are one value of a layout, names in any letter case, or the
/// octets themselves where there is none.
///
/// # Errors
///
/// `BadRdata` where they aren't; and `Memory` where memory is refused.
#[tactic(auto, using(crate::proofs::Octets::Taken::fields_taken))]
pub(crate) fn canonical_of(
    alloc: Global,
    layout: Option<Layout>,
    octets: &[u8],
) -> Result<Vec<u8>, NarrowFailing>
    requires { IfSome layout (λ l. StringsLast (fields_of l)) }
    ensures found { IfOk result (λ canonical.
        IsCanonicalOf (option_map fields_of layout) octets.now canonical.items) }
    ensures fault { IfErr result (IfFault (NoValue Fault.BadRdata
        (IsCanonicalOf (option_map fields_of layout) octets.now))) }
{
    let mut canonical = Vec::with_capacity(alloc, octets.len())?;
    let Some(layout) = layout else {
        canonical.extend_from_slice(octets)?;
        return Ok(canonical);
    };
    let mut rest = octets;
    for field in layout.fields() {
        rest = field.push_sent(rest, &mut canonical)?;
    }
    if !rest.is_empty() {
        return Err(NarrowFailing::of(Cause::BadRdata));
    }
    Ok(canonical)
}
