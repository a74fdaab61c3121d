//! Inputs whose reader fails at one of its reads, whatever was read before.
use crate::tests::push_answer;
use crate::tests::streams::STREAMS;
use crate::tests::vectors::{check_files, input_of};
use std::alloc::Global;
use std::io;
use std::io::{ErrorKind, Read};
use std::test::Fail;
use test_support::{Question, check, check_table, roomy};
use zone_engine::{Form, normalise};
use zone_rdata::Stop;

/// How many octets a read gives.
const EACH: usize = 16;

/// A reader that gives its octets in pieces, and of which one read fails: the one after so many. A
/// read after that goes on, so a reader that is called again is seen.
#[derive(Drop)]
struct FailingOnce<'o> {
    left: &'o [u8],
    reads: usize,
}

impl Read for FailingOnce<'_> {
    fn read(&mut self, buf: &mut [u8]) -> io::Result<usize> {
        if self.reads == 0 {
            self.reads = usize::MAX;
            return Err(ErrorKind::Other.into());
        }
        self.reads -= 1;
        let count = self.left.len().min(EACH).min(buf.len());
        let (mut piece, rest) = self.left.split_at(count);
        self.left = rest;
        piece.read(buf)
    }
}

/// Whether the octets are answered by a failed read, the one after so many, and nothing is written.
fn is_told(alloc: Global, form: Form<'_>, left: &[u8], reads: usize) -> Result<bool, Fail> {
    let mut written = roomy(alloc)?;
    match normalise(alloc, form, &mut FailingOnce { left, reads }, &mut written) {
        Err(Stop::Memory) => Err(Fail::from("memory")),
        answer => Ok(matches!(answer, Err(Stop::Read)) && written.is_empty()),
    }
}

/// What is answered where no read fails; where one does, each that gives a piece, and the one at
/// the end, that is told.
struct OfFailingReads;

impl Question for OfFailingReads {
    fn answer(alloc: Global, asked: &'static str, out: &mut Vec<u8>) -> Result<(), Fail> {
        let input = input_of(alloc, asked)?;
        let form = Form::with_origin(&input.origin);
        for reads in 0..=input.octets.len().div_ceil(EACH) {
            let is_told = is_told(alloc, form, &input.octets, reads)?;
            check(is_told, "a failed read is told")?;
        }
        push_answer(alloc, out, input.answered(alloc))
    }
}

#[test]
fn files_whose_reads_fail(rt: HostRuntime) -> Result<(), Fail> {
    check_files::<OfFailingReads>(rt.alloc())
}

#[test]
fn streams_whose_reads_fail(rt: HostRuntime) -> Result<(), Fail> {
    check_table::<OfFailingReads>(rt.alloc(), STREAMS)
}
