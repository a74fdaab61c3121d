ghost use Rattle.std.specs.Prelude.{◌≡◌, ◌≤◌, length, IfOk, IfErr, IfSome, OnOk};
ghost use Rattle.zone_print.specs.Canonical.{canon, text_limit};
ghost use Rattle.zone_engine.specs.Compare.{Compares, IsVerdictOnTexts, StopsCompare, StopsCompareBytes};
ghost use Rattle.zone_engine.specs.Form.{read_as};
ghost use Rattle.zone_engine.specs.Reading.{ReadsToEnd};
ghost use Rattle.zone_engine.specs.Telling.{which_words};

use crate::engine::accepted_zone;
use crate::form::Form;
use crate::octets::{OctetReader, OctetSlice};
use std::alloc::Global;
use std::error::Error;
use std::fmt;
use zone_print::laws::equal_lines_are_equal_records;
use zone_rdata::Stop;
use zone_set::Zone;

/// What comparing two zones finds.
#[derive(Clone, Copy, Debug, PartialEq, Eq)]
pub enum Verdict {
    /// Their canonical texts are equal.
    Same,
    /// The number of the first line, from 1, at which their canonical texts differ: the one after
    /// the shorter text's last where that text begins the other.
    Different(u64),
}

/// Which of two inputs.
#[derive(Clone, Copy, Debug, PartialEq, Eq)]
pub enum Which {
    /// The one read first.
    First,
    /// The one read once the first was accepted.
    Second,
}

impl Which {
    /// What a line on this input begins with: `first: ` or `second: `.
    pub fn words(self) -> &'static str
        ensures { result.now ≡ which_words self }
    {
        match self {
            Which::First => "first: ",
            Which::Second => "second: ",
        }
    }
}

/// What shows a user why two inputs weren't compared. It is made of the pair that [`compare`]
/// answers.
#[derive(Debug, Drop)]
pub struct CompareError {
    /// The first input that stopped it.
    pub which: Which,
    /// Why that input stopped it.
    pub stop: Stop,
}

/// The line that tells a user which input stopped a comparison, and why, without a line feed.
impl fmt::Display for CompareError {
    ghost use Rattle.std.specs.Prelude.{Some};
    ghost use Rattle.zone_engine.specs.Telling.{compare_error_line};

    ghost output = { λ error. Some (compare_error_line error) };

    fn fmt<W: fmt::Write>(&self, f: &mut fmt::Formatter<W>) -> fmt::Result {
        f.write_str(self.which.words())?;
        self.stop.fmt(f)
    }
}

impl Error for CompareError {}

impl From<(Which, Stop)> for CompareError {
    ghost from_gives = { λ pair error. error ≡ record { which = pair.0; stop = pair.1 } };

    fn from(pair: (Which, Stop)) -> CompareError {
        let (which, stop) = pair;
        CompareError { which, stop }
    }
}

/// Compares the canonical texts of the zones that two readers' octets denote, without making the
/// texts. Each reader is read as by [`normalise`](crate::normalise), the second one after the first
/// input was judged whole.
///
/// # Errors
///
/// The first input that stops it, and by what: `Refused` where its octets denote no zone, `Read`
/// where its reader failed, which isn't called again, and `Memory`. Where that is the first input,
/// the second isn't read.
pub fn compare<R: OctetReader, S: OctetReader>(
    alloc: Global,
    first_form: Form<'_>,
    first: &mut R,
    second_form: Form<'_>,
    second: &mut S,
) -> Result<Verdict, (Which, Stop)>
    ensures compared { IfOk result (λ verdict.
        IfSome (R.state first.old).octets (λ octets. IfSome (S.state second.old).octets (λ others.
        Compares (read_as first_form.entry octets)
        (read_as second_form.entry others) verdict))) }
    ensures stopped { IfErr result
        (λ why. StopsCompare (read_as first_form.entry) (read_as second_form.entry)
        (R.state first.old) (R.state first.new) (S.state second.old) (S.state second.new)
        why.0 why.1) }
    ensures read { OnOk result (ReadsToEnd text_limit (R.state first.old) (R.state first.new)
        × ReadsToEnd text_limit (S.state second.old) (S.state second.new)) }
{
    let zone = match accepted_zone(alloc, first_form, first) {
        Ok(zone) => zone,
        Err(stop) => return Err((Which::First, stop)),
    };
    match accepted_zone(alloc, second_form, second) {
        Ok(other) => Ok(first_difference(&zone, &other)),
        Err(stop) => Err((Which::Second, stop)),
    }
}

/// Compares the canonical texts of the zones that two inputs in memory denote, without making the
/// texts: they are the same, or differ first at a line.
///
/// # Errors
///
/// The first input that stops it, and by what: `Refused` where it denotes no zone, and `Memory`.
pub fn compare_bytes(
    alloc: Global,
    first_form: Form<'_>,
    first: &[u8],
    second_form: Form<'_>,
    second: &[u8],
) -> Result<Verdict, (Which, Stop)>
    ensures compared { IfOk result (Compares (read_as first_form.entry first.now)
        (read_as second_form.entry second.now)) }
    ensures stopped { IfErr result
        (λ why. StopsCompareBytes (read_as first_form.entry first.now)
        (read_as second_form.entry second.now) why.0 why.1) }
{
    let mut first = OctetSlice { rest: first };
    let mut second = OctetSlice { rest: second };
    compare(alloc, first_form, &mut first, second_form, &mut second)
}

/// The verdict on the canonical texts of two zones. Each line is that of a record, and lines are
/// equal exactly if the records are, so records are compared.
pub fn first_difference(zone: &Zone, other: &Zone) -> Verdict
    requires { length (canon zone.now) ≤ text_limit }
    ensures { IsVerdictOnTexts result (canon zone.now) (canon other.now) }
{
    equal_lines_are_equal_records();
    let mut others = other.records();
    let mut line = 1;
    for rr in zone.records() {
        match others.next() {
            Some(other) if rr.is_same(&other) => line += 1,
            _ => return Verdict::Different(line),
        }
    }
    match others.next() {
        Some(_) => Verdict::Different(line),
        None => Verdict::Same,
    }
}
