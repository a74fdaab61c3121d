//! What `normalise`, `normalise_bytes`, `explain` and `run` answer to each vector, and to its
//! canonical text.
use crate::tests::push_answer;
use crate::tests::vectors::{check_inputs, input_of};
use std::alloc::Global;
use std::io::Read;
use std::test::Fail;
use test_support::{
    BROKEN, Question, Run, Supply, check_octets, check_same, had_memory, push_words, roomy, rooted,
};
use zone_command::{Order, run};
use zone_engine::{
    CompareError, Form, Verdict, compare, explain, explain_line, normalise, normalise_bytes,
};
use zone_name::Name;
use zone_rdata::Stop;

/// What `normalise_bytes` answers.
struct OfOctets;

impl Question for OfOctets {
    fn answer(alloc: Global, asked: &'static str, out: &mut Vec<u8>) -> Result<(), Fail> {
        push_answer(alloc, out, input_of(alloc, asked)?.answered(alloc))
    }
}

#[test]
fn inputs_of_octets(rt: HostRuntime) -> Result<(), Fail> {
    check_inputs::<OfOctets>(rt.alloc())
}

/// The number of lines of a text.
fn line_count(text: &[u8]) -> u64 {
    text.iter().filter(|octet| **octet == b'\n').count() as u64
}

/// What `normalise` writes and answers over a reader. It counts the lines, and writes nothing where
/// it refuses.
fn written(alloc: Global, form: Form<'_>, octets: &[u8]) -> Result<Result<Vec<u8>, Stop>, Fail> {
    let (mut reader, mut written) = (octets, roomy(alloc)?);
    match normalise(alloc, form, &mut reader, &mut written) {
        Ok(count) => {
            check_same("the records", count, line_count(&written))?;
            Ok(Ok(written))
        }
        Err(stop) => {
            check_octets("what is written of what is refused", &written, b"")?;
            Ok(Err(stop))
        }
    }
}

/// What `normalise` answers and writes.
struct OfAReader;

impl Question for OfAReader {
    fn answer(alloc: Global, asked: &'static str, out: &mut Vec<u8>) -> Result<(), Fail> {
        let input = input_of(alloc, asked)?;
        let form = Form::with_origin(&input.origin);
        push_answer(alloc, out, written(alloc, form, &input.octets)?)
    }
}

#[test]
fn inputs_of_readers(rt: HostRuntime) -> Result<(), Fail> {
    check_inputs::<OfAReader>(rt.alloc())
}

/// What a run of an order over two readers does.
pub(super) fn ran<F: Read, S: Read>(
    alloc: Global,
    order: &Order,
    first: &mut F,
    second: &mut S,
) -> Result<Run, Fail> {
    let (mut output, mut told) = (roomy(alloc)?, roomy(alloc)?);
    let status = run(alloc, order, first, second, &mut output, &mut told);
    had_memory(&told)?;
    Ok(Run {
        status,
        output,
        told,
    })
}

/// What a run does that normalises what a reader gives; its second reader fails.
fn ran_alone<R: Read>(alloc: Global, origin: &Option<Name>, reader: &mut R) -> Result<Run, Fail> {
    let mut second = Supply::at_once(b"", BROKEN);
    let origin = match origin {
        Some(origin) => Some(origin.copy()),
        None => None,
    };
    ran(alloc, &Order::Normalise(origin), reader, &mut second)
}

/// The line that explains a stop, with its line feed.
fn refusal_line(alloc: Global, stop: &Stop) -> Result<String, Fail> {
    let mut line = explain_line(alloc, stop)?;
    line.push('\n')?;
    had_memory(line.as_bytes())?;
    Ok(line)
}

/// That a run over a reader of the input does what `normalise_bytes` answers.
fn check_run<R: Read>(
    alloc: Global,
    origin: &Option<Name>,
    answered: &Result<Vec<u8>, Stop>,
    reader: &mut R,
) -> Result<(), Fail> {
    let ran = ran_alone(alloc, origin, reader)?;
    match answered {
        Ok(text) => ran.check(0, text, b""),
        Err(stop) => ran.check(3, b"", refusal_line(alloc, stop)?.as_bytes()),
    }
}

/// What `run` does, over a reader that gives all at once and over one that gives an octet at a
/// time.
struct Runs;

impl Question for Runs {
    fn answer(alloc: Global, asked: &'static str, out: &mut Vec<u8>) -> Result<(), Fail> {
        let input = input_of(alloc, asked)?;
        let answered = input.answered(alloc);
        let mut reader = input.octets.as_slice();
        let mut singly = Supply::singly(&input.octets, None);
        check_run(alloc, &input.origin, &answered, &mut reader)?;
        check_run(alloc, &input.origin, &answered, &mut singly)?;
        push_answer(alloc, out, answered)
    }
}

#[test]
fn runs_over_inputs(rt: HostRuntime) -> Result<(), Fail> {
    check_inputs::<Runs>(rt.alloc())
}

/// That a run ends in the failure of its reader, and writes nothing.
pub(super) fn check_broken<R: Read>(
    alloc: Global,
    origin: &Option<Name>,
    reader: &mut R,
) -> Result<(), Fail> {
    ran_alone(alloc, origin, reader)?.check(4, b"", b"read failed\n")
}

/// That runs end so where a reader that gives all at once before that, and one that gives an octet
/// at a time, fails at once, after half of the input, and in place of its end.
fn check_all_broken(alloc: Global, origin: &Option<Name>, octets: &[u8]) -> Result<(), Fail> {
    for count in [0, octets.len() / 2, octets.len()] {
        let (left, _) = octets.split_at(count);
        check_broken(alloc, origin, &mut Supply::at_once(left, BROKEN))?;
        check_broken(alloc, origin, &mut Supply::singly(left, BROKEN))?;
    }
    Ok(())
}

/// What is answered where no read fails; where one does, that is told, whatever was wrong before.
struct BrokenRuns;

impl Question for BrokenRuns {
    fn answer(alloc: Global, asked: &'static str, out: &mut Vec<u8>) -> Result<(), Fail> {
        let input = input_of(alloc, asked)?;
        check_all_broken(alloc, &input.origin, &input.octets)?;
        push_answer(alloc, out, input.answered(alloc))
    }
}

#[test]
fn runs_whose_reader_fails(rt: HostRuntime) -> Result<(), Fail> {
    check_inputs::<BrokenRuns>(rt.alloc())
}

/// That a canonical text under this origin normalises to itself, and is the zone of the input.
fn check_kept_under(
    alloc: Global,
    origin: &[u8],
    form: Form<'_>,
    octets: &[u8],
    text: &[u8],
) -> Result<(), Fail> {
    let origin = rooted(origin)?;
    let again = normalise_bytes(alloc, Form::File(&origin), text)?;
    check_octets("a canonical text is read back", &again, text)?;
    let (mut first, mut second) = (octets, text);
    let verdict = compare(alloc, form, &mut first, Form::File(&origin), &mut second).map_err(
        CompareError::from,
    )?;
    check_same("an input and its text", verdict, Verdict::Same)
}

/// That a canonical text of an input is read back under other origins and its own.
fn check_kept(alloc: Global, form: Form<'_>, octets: &[u8], text: &[u8]) -> Result<(), Fail> {
    for origin in [b".".as_slice(), b"x.", b"other.example."] {
        check_kept_under(alloc, origin, form, octets, text)?;
    }
    Ok(())
}

/// What is answered, of which a canonical text is read back.
struct ReadBack;

impl Question for ReadBack {
    fn answer(alloc: Global, asked: &'static str, out: &mut Vec<u8>) -> Result<(), Fail> {
        let input = input_of(alloc, asked)?;
        let answered = input.answered(alloc);
        if let Ok(text) = &answered {
            check_kept(alloc, Form::with_origin(&input.origin), &input.octets, text)?;
        }
        push_answer(alloc, out, answered)
    }
}

#[test]
fn canonical_texts_as_files(rt: HostRuntime) -> Result<(), Fail> {
    check_inputs::<ReadBack>(rt.alloc())
}

/// That this status and line are what `explain` should give.
fn check_explanation(
    alloc: Global,
    answered: &Result<Vec<u8>, Stop>,
    status: u8,
    line: &[u8],
) -> Result<(), Fail> {
    match answered {
        Ok(text) => {
            let mut accepted = roomy(alloc)?;
            let count = line_count(text);
            push_words(
                alloc,
                &mut accepted,
                format_args!("accepted, records: {count}\n"),
            )?;
            check_same("the status", status, 0)?;
            check_octets("the line", line, &accepted)
        }
        Err(stop) => {
            let refusal = refusal_line(alloc, stop)?;
            check_same("the status", status, 3)?;
            check_octets("the line", line, refusal.as_bytes())
        }
    }
}

/// What is answered, which `explain` explains.
struct Explained;

impl Question for Explained {
    fn answer(alloc: Global, asked: &'static str, out: &mut Vec<u8>) -> Result<(), Fail> {
        let input = input_of(alloc, asked)?;
        let form = Form::with_origin(&input.origin);
        let answered = input.answered(alloc);
        let (mut reader, mut told) = (input.octets.as_slice(), roomy(alloc)?);
        let status = explain(alloc, form, &mut reader, &mut told)?;
        check_explanation(alloc, &answered, status, &told)?;
        push_answer(alloc, out, answered)
    }
}

#[test]
fn inputs_are_explained(rt: HostRuntime) -> Result<(), Fail> {
    check_inputs::<Explained>(rt.alloc())
}
