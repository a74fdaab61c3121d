ghost use Rattle.std.specs.Prelude.{[], ◌∷◌, ◌++◌, OnOk};
ghost use Rattle.zone_print.specs.Canonical.{line};
ghost use Rattle.zone_print.specs.Machine.Middle.{before_kind, kind_column};
ghost use Rattle.zone_rdata.specs.Record.{data_of};
ghost use Rattle.zone_rdata.specs.Text.{data_text};
ghost use Rattle.zone_rdata.specs.Lent.{record_of};

use itoa::Buffer;
use zone_name::Sink;
use zone_rdata::RrRef;

/// Appends TTL and class of the record, each after a space, and a space.
///
/// # Errors
///
/// `out` refuses octets. A prefix of the text may have been appended.
pub(crate) fn push_before_kind<S: Sink>(out: &mut S, rr: &RrRef) -> Result<(), S::Error>
    ensures { OnOk result (S.takes out.old (before_kind rr.now.ttl rr.now.class) out.new) }
{
    let mut digits = Buffer::new();
    out.push(b" ")?;
    out.push(digits.format(rr.ttl).as_bytes())?;
    out.push(b" ")?;
    rr.class.push_word(out)?;
    out.push(b" ")
}

/// Appends the record's type and a space.
///
/// # Errors
///
/// `out` refuses octets. A prefix of the text may have been appended.
pub(crate) fn push_kind<S: Sink>(out: &mut S, rr: &RrRef) -> Result<(), S::Error>
    ensures { OnOk result (S.takes out.old (kind_column rr.now.class rr.now.kind) out.new) }
{
    rr.kind.push_word(rr.class, out)?;
    out.push(b" ")
}

/// Appends the record's data and the line feed after it.
///
/// # Errors
///
/// `out` refuses octets. A prefix of the text may have been appended.
#[tactic(auto, using(crate::proofs::Lines::same_text))]
pub(crate) fn push_data<S: Sink>(out: &mut S, rr: &RrRef) -> Result<(), S::Error>
    ensures { OnOk result
        (S.takes out.old (data_text (data_of (record_of rr.now)) ++ 10 ∷ []) out.new) }
{
    rr.rdata.print(out)?;
    out.push(b"\n")
}

/// Appends the record's line, with its line feed.
///
/// # Errors
///
/// `out` refuses octets. A prefix of the line may have been appended.
pub fn push_line<S: Sink>(out: &mut S, rr: &RrRef) -> Result<(), S::Error>
    ensures { OnOk result (S.takes out.old (line (record_of rr.now)) out.new) }
{
    rr.owner.print(out)?;
    push_before_kind(out, rr)?;
    push_kind(out, rr)?;
    push_data(out, rr)
}
