//! Runs of a program: the words that it is handed, and what it does.
use crate::comparing::{check_octets, check_same};
use crate::devices::{BROKEN, Narrow, Supply};
use crate::tables::parted;
use crate::writing::{push_text, push_words, roomy};
use std::alloc::{AllocError, Global};
use std::io::{ErrorKind, Read, Write};
use std::test::Fail;

/// The words of a line, in which a blank stands between two. An empty line has none.
pub fn words_of(alloc: Global, line: &str) -> Result<Vec<String>, AllocError> {
    let mut words = Vec::new(alloc);
    if !line.is_empty() {
        for word in line.split(' ') {
            words.push(String::from_str(alloc, word)?)?;
        }
    }
    Ok(words)
}

/// What a run does: its status, its output, and the line that it tells.
#[derive(Drop)]
pub struct Run {
    pub status: u8,
    pub output: Vec<u8>,
    pub told: Vec<u8>,
}

impl Run {
    /// That a run has this status, output and line.
    pub fn check(&self, status: u8, output: &[u8], told: &[u8]) -> Result<(), Fail> {
        check_same("the status", self.status, status)?;
        check_octets("the output", &self.output, output)?;
        check_octets("the line that is told", &self.told, told)
    }
}

/// Appends the status of a run, its output, and the line that it tells.
pub fn push_run(alloc: Global, out: &mut Vec<u8>, ran: &Run) -> Result<(), Fail> {
    let status = ran.status;
    push_words(alloc, out, format_args!(" {status}\n"))?;
    out.extend_from_slice(&ran.output)?;
    push_text(out, "--\n")?;
    Ok(out.extend_from_slice(&ran.told)?)
}

/// Nothing, unless a run told want of memory.
///
/// # Errors
///
/// Want of memory.
pub fn had_memory(told: &[u8]) -> Result<(), Fail> {
    if told.ends_with(b"out of memory\n") {
        return Err(Fail::from("memory"));
    }
    Ok(())
}

/// A program over one input and two writers.
pub trait Program {
    /// Its status for these words, with what it tells.
    fn run<R: Read, W: Write>(
        alloc: Global,
        words: &[String],
        input: &mut R,
        output: &mut W,
        told: &mut Vec<u8>,
    ) -> u8;
}

/// The status of a run of a command line over a reader and a writer, and what it tells.
pub fn told_by<P: Program, R: Read, W: Write>(
    alloc: Global,
    line: &str,
    input: &mut R,
    output: &mut W,
) -> Result<(u8, Vec<u8>), Fail> {
    let mut told = roomy(alloc)?;
    let status = P::run(alloc, &words_of(alloc, line)?, input, output, &mut told);
    had_memory(&told)?;
    Ok((status, told))
}

/// What a run of a command line over a reader does.
pub fn run_of<P: Program, R: Read>(alloc: Global, line: &str, input: &mut R) -> Result<Run, Fail> {
    let mut output = roomy(alloc)?;
    let (status, told) = told_by::<P, R, Vec<u8>>(alloc, line, input, &mut output)?;
    Ok(Run {
        status,
        output,
        told,
    })
}

/// Appends what a run of a command line does, which must be the same over a reader that gives all
/// at once and over one that gives an octet at a time, before the end or an error.
pub fn push_run_of<P: Program>(
    alloc: Global,
    out: &mut Vec<u8>,
    line: &str,
    supplied: (&[u8], Option<ErrorKind>),
) -> Result<(), Fail> {
    let (octets, error) = supplied;
    let at_once = run_of::<P, Supply<'_>>(alloc, line, &mut Supply::at_once(octets, error))?;
    let singly = run_of::<P, Supply<'_>>(alloc, line, &mut Supply::singly(octets, error))?;
    singly.check(at_once.status, &at_once.output, &at_once.told)?;
    push_run(alloc, out, &at_once)
}

/// The octets of a file, before which a line says what the reader does after them: `whole` ends, and
/// `broken` is an error.
pub fn supplied(input: &str) -> Result<(&[u8], Option<ErrorKind>), Fail> {
    match parted(input, "\n")? {
        ("whole", file) => Ok((file.as_bytes(), None)),
        ("broken", file) => Ok((file.as_bytes(), BROKEN)),
        (word, _) => Err(Fail::from(word)),
    }
}

/// That a run which writes a text writes as much of it as a writer takes that fails before its end, and
/// tells that it failed.
pub fn check_narrow<P: Program>(
    alloc: Global,
    line: &str,
    input: &[u8],
    text: &[u8],
) -> Result<(), Fail> {
    for room in 0..text.len() {
        let mut writer = Narrow::new(alloc, 3, room, true)?;
        let mut reader = Supply::at_once(input, None);
        let (status, told) = told_by::<P, Supply<'_>, Narrow>(
            alloc,
            line,
            &mut reader,
            &mut writer,
        )?;
        check_same("the status", status, 4)?;
        check_octets("the front", writer.taken(), text.split_at(room).0)?;
        check_octets("the line", &told, b"write failed\n")?;
    }
    Ok(())
}
