//! Names as the expanded text has them: absolute, with their letters (RFC 1035 5.1).
ghost use Rattle.std.specs.Prelude.{◌≡◌, ◌<◌, ◌++◌, [], length, OnOk, IfNone, IfSome};
ghost use Rattle.std.specs.List.{AllByRecursion};
ghost use Rattle.zone_name.specs.Common.{Labels};
ghost use Rattle.zone_name.specs.Name.{IsCasedLabel, wire};
ghost use Rattle.zone_name.specs.Text.{name_text};
ghost use Rattle.zone_files.specs.Expansion.{origin_line};
ghost use Rattle.zone_files.specs.Machine.Naming.{TakesLabel};

use std::alloc::AllocError;
use zone_name::{CasedName, push_label};

/// The label at the front of a name's uncompressed octets, and what is left of them. `None`: the
/// root is left.
#[tactic(auto, using(crate::proofs::Expansions::Naming::label_steps))]
fn take_label(octets: &[u8]) -> Option<(&[u8], &[u8])>
    ensures some { (labels : Labels) → AllByRecursion IsCasedLabel labels
        → octets.now ≡ wire labels
        → IfSome result (λ parts. TakesLabel labels parts.0.now parts.1.now) }
    ensures none { (labels : Labels) → AllByRecursion IsCasedLabel labels
        → octets.now ≡ wire labels → IfNone result (labels ≡ []) }
    ensures shorter { IfSome result (λ parts. length parts.1.now < length octets.now) }
{
    let (len, after) = octets.split_first()?;
    let len = usize::from(*len);
    if len == 0 || after.len() < len {
        return None;
    }
    Some(after.split_at(len))
}

/// Appends a name, absolute (RFC 1035 5.1).
///
/// # Errors
///
/// `AllocError`. `out` may have got some of it.
pub(crate) fn push_name(name: &CasedName, out: &mut Vec<u8>) -> Result<(), AllocError>
    ensures { OnOk result (out.new.items ≡ out.old.items ++ name_text name.now) }
{
    let mut rest = name.wire();
    if rest.len() == 1 {
        out.push(b'.')?;
        return Ok(());
    }
    'labels: while let Some((label, after)) = take_label(rest) {
        push_label(label, out)?;
        rest = after;
    }
    Ok(())
}

/// Appends `$ORIGIN` and a name, absolute, on a line (RFC 1035 5.1).
///
/// # Errors
///
/// `AllocError`. `out` may have got some of it.
pub(crate) fn push_origin_line(origin: &CasedName, out: &mut Vec<u8>) -> Result<(), AllocError>
    ensures { OnOk result (out.new.items ≡ out.old.items ++ origin_line origin.now) }
{
    out.extend_from_slice(b"$ORIGIN ")?;
    push_name(origin, out)?;
    out.push(b'\n')?;
    Ok(())
}
