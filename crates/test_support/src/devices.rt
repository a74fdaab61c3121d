//! Readers that fail, and writers that take little at a time and fail.
use crate::writing::roomy;
use std::alloc::{AllocError, Global};
use std::io;
use std::io::{ErrorKind, Read, Write};

/// A reader that gives its octets, at most so many a read, and then an error, or the end of its
/// input where it has none.
#[derive(Drop)]
pub struct Supply<'o> {
    pub left: &'o [u8],
    pub each: usize,
    pub error: Option<ErrorKind>,
}

/// The error of a reader that fails.
pub const BROKEN: Option<ErrorKind> = Some(ErrorKind::Other);

impl<'o> Supply<'o> {
    /// A reader that gives as many octets as a read takes.
    pub fn at_once(left: &'o [u8], error: Option<ErrorKind>) -> Supply<'o> {
        Supply {
            left,
            each: usize::MAX,
            error,
        }
    }

    /// A reader that gives its octets one at a time.
    pub fn singly(left: &'o [u8], error: Option<ErrorKind>) -> Supply<'o> {
        Supply {
            left,
            each: 1,
            error,
        }
    }
}

impl Read for Supply<'_> {
    fn read(&mut self, buf: &mut [u8]) -> io::Result<usize> {
        match self.error {
            Some(error) if self.left.is_empty() => return Err(io::Error::from(error)),
            _ => {}
        }
        let count = self.left.len().min(self.each).min(buf.len());
        let (mut piece, rest) = self.left.split_at(count);
        self.left = rest;
        piece.read(buf)
    }
}

/// A writer that takes `each` octets a call and `room` in all, and then answers an error or takes
/// nothing. It can't be flushed.
#[derive(Drop)]
pub struct Narrow {
    taken: Vec<u8>,
    each: usize,
    room: usize,
    fails: bool,
}

impl Narrow {
    pub fn new(alloc: Global, each: usize, room: usize, fails: bool) -> Result<Narrow, AllocError> {
        Ok(Narrow {
            taken: roomy(alloc)?,
            each,
            room,
            fails,
        })
    }

    /// What it has taken.
    pub fn taken(&self) -> &[u8] {
        &self.taken
    }
}

impl Write for Narrow {
    fn write(&mut self, octets: &[u8]) -> io::Result<usize> {
        if self.room == 0 && self.fails {
            return Err(ErrorKind::Other.into());
        }
        let count = octets.len().min(self.each).min(self.room);
        let (front, _) = octets.split_at(count);
        self.taken.extend_from_slice(front)?;
        self.room -= count;
        Ok(count)
    }

    fn flush(&mut self) -> io::Result<()> {
        Err(ErrorKind::Other.into())
    }
}
