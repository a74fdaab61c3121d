ghost use Rattle.std.specs.Prelude.{[], ◌≡◌, ℕ, List, IfOk, IfErr, IfSome, IfNone, IsTrue};
ghost use Rattle.zone_name.specs.Name.{labels_of};
ghost use Rattle.zone_rdata.specs.Fault.{IfFault};
ghost use Rattle.zone_rdata.specs.Machine.Appending.{AppendsValue, BeginsWithNone};
ghost use Rattle.zone_rdata.specs.Machine.Fronts.{BeginsWithSent};
ghost use Rattle.zone_rdata.specs.Machine.Printing.{BeginsWithField, after_field};

use super::Field;
use crate::cause::Cause;
use crate::fault::Fault;
use crate::narrow_failing::NarrowFailing;
use zone_name::{Name, NameBuilder, NameRef};

/// Appends the name at the beginning of octets, in lower case.
#[tactic(auto, using(crate::proofs::Fields::Name::appends_name))]
pub(crate) fn push_sent_name<'o>(
    octets: &'o [u8],
    canonical: &mut Vec<u8>,
) -> Result<&'o [u8], NarrowFailing>
    ensures found { IfOk result (λ rest.
        AppendsValue Field.Name octets.now rest.now canonical.old.items canonical.new.items) }
    ensures fault { IfErr result
        (IfFault (λ f. (f ≡ Fault.BadRdata) × BeginsWithNone Field.Name octets.now)) }
{
    let Some((name, rest)) = name_at(octets) else {
        return Err(NarrowFailing::of(Cause::BadRdata));
    };
    canonical.extend_from_slice(name.wire())?;
    Ok(rest)
}

/// The name at the beginning of uncompressed octets, in lower case, and the octets after it.
fn name_at(octets: &[u8]) -> Option<(Name, &[u8])>
    ensures found { IfSome result (λ r. BeginsWithSent octets.now r.0 r.1.now) }
    ensures none { IfNone result
        ((labels : List (List ℕ)) (rest : List ℕ) → BeginsWithSent octets.now labels rest → ⊥) }
{
    let mut labels = NameBuilder::new();
    let mut rest = octets;
    loop {
        let (first, following) = rest.split_first()?;
        let count = usize::from(*first);
        if count == 0 {
            return Some((labels.finish(), following));
        }
        if following.len() < count {
            return None;
        }
        let (label, after) = following.split_at(count);
        match labels.push_label(label) {
            Ok(()) => rest = after,
            Err(_) => return None,
        }
    }
}

/// The name at the beginning of octets, and the octets after it. Where it is said that there are
/// none no label is looked at.
#[tactic(auto, using(crate::proofs::Texts::FieldTexts::last_name))]
pub(crate) fn split_name(octets: &[u8], is_last: bool) -> (NameRef<'_>, &[u8])
    requires front { BeginsWithField Field.Name octets.now }
    requires last { IsTrue is_last → after_field Field.Name octets.now ≡ [] }
    ensures name { result.0 ≡ labels_of octets.now }
    ensures rest { result.1.now ≡ after_field Field.Name octets.now }
{
    if is_last {
        return (NameRef::of_wire(octets), &octets[octets.len()..]);
    }
    NameRef::split_front(octets)
}
