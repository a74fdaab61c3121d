//! The comparison of sources that are read.
ghost use Rattle.std.specs.Prelude.{IfErr, IfOk, IfSome, OnOk};
ghost use Rattle.zone_print.specs.Canonical.{text_limit};
ghost use Rattle.zone_engine.specs.Reading.{ReadsToEnd};
ghost use Rattle.zone_files.specs.Loading.Compare.{ComparesSources, StopsCompareSources};
ghost use Rattle.zone_files.specs.Loading.Reading.{source_of};

use super::accepting::accepted_source;
use super::refusal::PresentationRefusal;
use super::source_form::SourceForm;
use std::alloc::Global;
use zone_engine::{OctetReader, Verdict, Which, first_difference};

/// Compares the canonical texts of the zones that two readers' octets denote, without making the
/// texts. Each reader is read as by [`accepted_source`], the second one after the first source was
/// judged whole.
///
/// # Errors
///
/// The first source that stops it, and why: `Refused` where it denotes no zone, `Read` where its
/// reader failed, and `Memory`. Where that is the first source, the second isn't read.
pub fn compare_sources<R: OctetReader, S: OctetReader>(
    alloc: Global,
    first_form: SourceForm<'_>,
    first: &mut R,
    second_form: SourceForm<'_>,
    second: &mut S,
) -> Result<Verdict, (Which, PresentationRefusal)>
    ensures compared { IfOk result (λ verdict.
        IfSome (R.state first.old).octets (λ octets. IfSome (S.state second.old).octets (λ others.
        ComparesSources (source_of first_form.entry octets)
        (source_of second_form.entry others) verdict))) }
    ensures stopped { IfErr result
        (λ why. StopsCompareSources (source_of first_form.entry) (source_of second_form.entry)
        (R.state first.old) (R.state first.new) (S.state second.old) (S.state second.new)
        why.0 why.1) }
    ensures read { OnOk result (ReadsToEnd text_limit (R.state first.old) (R.state first.new)
        × ReadsToEnd text_limit (S.state second.old) (S.state second.new)) }
{
    let zone = match accepted_source(alloc, first_form, first) {
        Ok(zone) => zone,
        Err(refusal) => return Err((Which::First, refusal)),
    };
    match accepted_source(alloc, second_form, second) {
        Ok(other) => Ok(first_difference(&zone, &other)),
        Err(refusal) => Err((Which::Second, refusal)),
    }
}
