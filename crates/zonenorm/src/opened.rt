//! The inputs of an order, opened.
ghost use Rattle.zonenorm.specs.Machine.Opened.{IsOpened, TakesStandard};

use std::fs::{File, Files};
use std::io;
use std::io::{ErrorKind, Read};
use zone_command::{Order, Source};

/// An input of the program.
#[derive(Drop)]
pub(crate) enum Input<S, F> {
    Standard(S),
    File(F),
    /// A file that can't be opened, or an input that the order doesn't have. Its first read fails.
    Missing,
}

impl<S: Read, F: Read> Read for Input<S, F> {
    ghost use Rattle.zonenorm.specs.Machine.Opened.{remaining_of};

    ghost remaining = { remaining_of S.remaining F.remaining };

    fn read(&mut self, buf: &mut [u8]) -> io::Result<usize> {
        match self {
            Input::Standard(input) => input.read(buf),
            Input::File(file) => file.read(buf),
            Input::Missing => Err(ErrorKind::NotFound.into()),
        }
    }
}

/// The two inputs of an order: standard input alone, or both files of a comparison.
pub(crate) fn inputs<R: Files, S: Drop>(
    rt: &R,
    standard: S,
    order: &Order,
) -> (Input<S, R::File>, Input<S, R::File>)
    ensures first { TakesStandard order.now standard result.0 }
    ensures second { IsOpened result.1 }
{
    match order {
        Order::Normalise(_) | Order::Explain(_) => (Input::Standard(standard), Input::Missing),
        Order::Compare(first, second) => (opened(rt, first), opened(rt, second)),
    }
}

/// The file of a source.
fn opened<R: Files, S>(rt: &R, source: &Source) -> Input<S, R::File>
    ensures { IsOpened result }
{
    match File::open(rt, source.path.as_str()) {
        Ok(file) => Input::File(file),
        Err(_) => Input::Missing,
    }
}
