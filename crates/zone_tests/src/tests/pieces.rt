//! Inputs that are fed in pieces: however they are cut, the same records and the same fault.
use std::alloc::Global;
use std::test::Fail;
use test_support::{push_fault, roomy};
use zone_name::Name;
use zone_rdata::{Fault, LendingSource, Place, PlacedRef, Reading, Rr, RrRef, Stop};
use zone_text::TextSource;

/// A source that is fed.
pub(super) trait Fed: LendingSource + Drop {
    /// A source that was fed nothing. Of a transfer the origin says nothing.
    fn begin(alloc: Global, origin: &Name) -> Self;

    /// Feeds a piece.
    ///
    /// # Errors
    ///
    /// Want of memory, and that the input has ended or is too long for a test.
    fn hand(&mut self, piece: &[u8]) -> Result<(), Fail>;

    /// Ends the input.
    ///
    /// # Errors
    ///
    /// Want of memory, and that the input has ended.
    fn end(&mut self) -> Result<(), Fail>;

    /// How many octets are kept, how many were fed, and whether the input has ended.
    fn state(&self) -> (usize, u64, bool);
}

/// More octets than a test feeds.
pub(super) const MOST: u64 = 1 << 30;

impl Fed for TextSource {
    fn begin(alloc: Global, origin: &Name) -> TextSource {
        TextSource::new(alloc, origin)
    }

    fn hand(&mut self, piece: &[u8]) -> Result<(), Fail> {
        if self.is_finished() || self.fed() > MOST || piece.len() as u64 > MOST {
            return Err(Fail::from("no piece can be fed"));
        }
        Ok(self.feed(piece)?)
    }

    fn end(&mut self) -> Result<(), Fail> {
        if self.is_finished() {
            return Err(Fail::from("ended twice"));
        }
        Ok(self.finish()?)
    }

    fn state(&self) -> (usize, u64, bool) {
        (self.undecided(), self.fed(), self.is_finished())
    }
}

/// Whether a record and one that is lent are the same.
fn is_same_record(left: &Rr, right: &RrRef<'_>) -> bool {
    left.owner().wire() == right.owner.wire()
        && left.ttl() == right.ttl
        && left.class().number() == right.class.number()
        && left.kind().number() == right.kind.number()
        && left.rdata().octets() == right.rdata.octets()
}

/// Whether two faults have one name and argument.
fn is_same_fault(alloc: Global, left: &Fault, right: &Fault) -> Result<bool, Fail> {
    let (mut name, mut other) = (roomy(alloc)?, roomy(alloc)?);
    push_fault(alloc, &mut name, left)?;
    push_fault(alloc, &mut other, right)?;
    Ok(name.as_slice() == other.as_slice())
}

/// What a source gives, against the records and the fault that it should give.
#[derive(Drop)]
struct Taken<'r> {
    wanted: &'r Reading,
    /// How many records it gave.
    count: usize,
}

impl<'r> Taken<'r> {
    /// Whether the next record is this one.
    fn is_next(&self, placed: &PlacedRef<'_>) -> bool {
        match self.wanted.placed.get(self.count) {
            Some(next) => next.place == placed.place && is_same_record(&next.rr, &placed.rr),
            None => false,
        }
    }

    /// Passes over the record that a source lends, if it is the next.
    fn pass_over<S: Fed>(&mut self, source: &mut S) {
        let is_next = match source.first() {
            Some(lent) => self.is_next(&lent),
            None => false,
        };
        if is_next {
            source.skip();
            self.count = self.count.wrapping_add(1);
        }
    }

    /// Whether this fault ends the records.
    fn is_ending(&self, alloc: Global, fault: &Fault, place: Place) -> Result<bool, Fail> {
        let Some((wanted, at)) = &self.wanted.ending else {
            return Ok(false);
        };
        let is_there = *at == place && self.count == self.wanted.placed.len();
        Ok(is_there && is_same_fault(alloc, fault, wanted)?)
    }

    /// Whether what the source has decided is what it should give. Every second record is lent.
    fn is_right<S: Fed>(&mut self, alloc: Global, source: &mut S) -> Result<bool, Fail> {
        for _ in self.count..=self.wanted.placed.len() {
            self.pass_over(source);
            match source.next() {
                Ok(None) => return Ok(true),
                Ok(Some(placed)) if self.is_next(&placed.lend()) => {
                    self.count = self.count.wrapping_add(1);
                }
                Err(Stop::Refused(fault, place)) => return self.is_ending(alloc, &fault, place),
                Err(Stop::Memory) => return Err(Fail::from("memory")),
                _ => return Ok(false),
            }
        }
        Ok(false)
    }

    /// Whether what the source has decided is what it should give once it is fed this piece, and an
    /// empty one before it where pieces are spaced.
    fn is_right_after<S: Fed>(
        &mut self,
        alloc: Global,
        source: &mut S,
        piece: &[u8],
        is_spaced: bool,
    ) -> Result<bool, Fail> {
        if is_spaced {
            source.hand(b"")?;
        }
        source.hand(piece)?;
        self.is_right(alloc, source)
    }

    /// Whether the source, whose input has ended, gives what is left, and nothing after it.
    fn is_whole<S: Fed>(&mut self, alloc: Global, source: &mut S) -> Result<bool, Fail> {
        if !self.is_right(alloc, source)? || self.count != self.wanted.placed.len() {
            return Ok(false);
        }
        match source.next() {
            Ok(None) => Ok(self.wanted.ending.is_none()),
            Err(Stop::Refused(..)) => Ok(self.wanted.ending.is_some()),
            Err(Stop::Memory) => Err(Fail::from("memory")),
            _ => Ok(false),
        }
    }
}

/// How an input is cut: into a first piece and pieces of one length, empty pieces between them or
/// not.
#[derive(Clone, Copy)]
struct Cut {
    first: usize,
    each: usize,
    is_spaced: bool,
}

/// Whether the octets, cut so, give what they should.
fn is_right_cut<S: Fed>(
    alloc: Global,
    origin: &Name,
    octets: &[u8],
    wanted: &Reading,
    cut: Cut,
) -> Result<bool, Fail> {
    let mut source = S::begin(alloc, origin);
    let mut taken = Taken { wanted, count: 0 };
    let (first, rest) = octets.split_at(cut.first.min(octets.len()));
    let mut is_right = taken.is_right_after(alloc, &mut source, first, false)?;
    for piece in rest.chunks(cut.each.max(1)) {
        is_right = is_right && taken.is_right_after(alloc, &mut source, piece, cut.is_spaced)?;
    }
    source.end()?;
    Ok(is_right && taken.is_whole(alloc, &mut source)?)
}

/// Whether the octets, cut into two pieces at each octet, give what they should.
pub(super) fn is_right_in_two<S: Fed>(
    alloc: Global,
    origin: &Name,
    octets: &[u8],
    wanted: &Reading,
) -> Result<bool, Fail> {
    for first in 0..=octets.len() {
        let cut = Cut {
            first,
            each: usize::MAX,
            is_spaced: false,
        };
        if !is_right_cut::<S>(alloc, origin, octets, wanted, cut)? {
            return Ok(false);
        }
    }
    Ok(true)
}

/// Whether the octets give what they should one by one, and with empty pieces between.
pub(super) fn is_right_singly<S: Fed>(
    alloc: Global,
    origin: &Name,
    octets: &[u8],
    wanted: &Reading,
) -> Result<bool, Fail> {
    for (first, is_spaced) in [(1, false), (0, true)] {
        let cut = Cut {
            first,
            each: 1,
            is_spaced,
        };
        if !is_right_cut::<S>(alloc, origin, octets, wanted, cut)? {
            return Ok(false);
        }
    }
    Ok(true)
}
