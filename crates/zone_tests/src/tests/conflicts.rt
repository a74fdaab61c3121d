//! A set of which one record has another TTL, wherever that one stands: the first record is told
//! that can't stand with those before it (RFC 2181 5.2).
use crate::tests::check_refused;
use std::alloc::Global;
use std::test::Fail;
use test_support::{Case, check_rows, push_text, push_words, rooted};
use zone_engine::Form;

/// Empty lines before the record with another TTL, more than a short step.
const GAP: u64 = 300;

/// How many addresses a message of a transfer has.
const A_MESSAGE: u64 = 10;

/// The octets of the record of an address: owner, type, class, TTL, a length and the data.
const ADDRESS_LEN: u64 = 17;

/// The header of a message with a number of answers below 256 (RFC 1035 4.1.1).
const HEADER: &[u8] = b"\x2a\x17\x84\x00\x00\x00\x00";

/// The SOA of `x.` in a message (RFC 1035 3.3.13).
const SOA: &[u8] = b"\x01x\x00\x00\x06\x00\x01\x00\x00\x00\x3c\x00\x1e\x01n\x01x\x00\x01h\x01x\x00\
    \x00\x00\x00\x01\x00\x00\x00\x02\x00\x00\x00\x03\x00\x00\x00\x04\x00\x00\x00\x05";

/// A set of addresses with one TTL, and one more record of it with another.
#[derive(Drop)]
struct OddTtl {
    /// How many those of one TTL are.
    count: u64,
    /// How many of them stand before the other.
    before: u64,
    /// From one address to the next, modulo their number.
    step: u64,
}

/// A record of the set: the last octets of its address, and its TTL.
#[derive(Clone, Copy)]
struct Member {
    number: u64,
    ttl: u64,
}

impl OddTtl {
    /// The record at a place of the set.
    fn member(&self, place: u64) -> Member {
        if place == self.before {
            return Member {
                number: self.count,
                ttl: 61,
            };
        }
        let among = if place < self.before {
            place
        } else {
            place.wrapping_sub(1)
        };
        Member {
            number: among.wrapping_mul(self.step) % self.count.max(1),
            ttl: 60,
        }
    }

    /// The place of the record that is refused: where the odd one is the first, the next one.
    fn refused(&self) -> u64 {
        self.before.max(1)
    }

    /// A file with the SOA in line 1, and then the set.
    fn file(&self, alloc: Global) -> Result<Vec<u8>, Fail> {
        let mut file = Vec::new(alloc);
        push_text(&mut file, "x. 60 IN SOA n.x. h.x. 1 2 3 4 5\n")?;
        for place in 0..self.count.saturating_add(1) {
            if place == self.before {
                file.resize(file.len().saturating_add(GAP as usize), b'\n')?;
            }
            let Member { number, ttl } = self.member(place);
            let (third, fourth) = (number / 256, number % 256);
            let line = format_args!("x. {ttl} IN A 10.0.{third}.{fourth}\n");
            push_words(alloc, &mut file, line)?;
        }
        Ok(file)
    }

    /// The records of the set, as messages have them.
    fn answers(&self, alloc: Global) -> Result<Vec<u8>, Fail> {
        let mut answers = Vec::new(alloc);
        for place in 0..self.count.saturating_add(1) {
            let Member { number, ttl } = self.member(place);
            answers.extend_from_slice(b"\x01x\x00\x00\x01\x00\x01\x00\x00\x00")?;
            answers.push((ttl % 256) as u8)?;
            answers.extend_from_slice(b"\x00\x04\x0a\x00")?;
            answers.push((number / 256 % 256) as u8)?;
            answers.push((number % 256) as u8)?;
        }
        Ok(answers)
    }

    /// A transfer with the SOA in message 1, then the set, and the SOA again.
    fn transfer(&self, alloc: Global) -> Result<Vec<u8>, Fail> {
        let mut stream = Vec::new(alloc);
        push_message(&mut stream, SOA, 1)?;
        let answers = self.answers(alloc)?;
        for message in answers
            .as_slice()
            .chunks((ADDRESS_LEN * A_MESSAGE) as usize)
        {
            push_message(&mut stream, message, message.len() / ADDRESS_LEN as usize)?;
        }
        push_message(&mut stream, SOA, 1)?;
        Ok(stream)
    }
}

/// Appends a message of so many answers, after its length.
fn push_message(stream: &mut Vec<u8>, answers: &[u8], count: usize) -> Result<(), Fail> {
    let len = answers.len().saturating_add(12);
    stream.push((len / 256 % 256) as u8)?;
    stream.push((len % 256) as u8)?;
    stream.extend_from_slice(HEADER)?;
    stream.push((count % 256) as u8)?;
    stream.extend_from_slice(b"\x00\x00\x00\x00")?;
    stream.extend_from_slice(answers)?;
    Ok(())
}

impl Case for OddTtl {
    fn check(&self, alloc: Global) -> Result<(), Fail> {
        let origin = rooted(b"x.")?;
        let refused = self.refused();
        let line = refused.saturating_add(2).saturating_add(GAP);
        let front = format!(in alloc; "F41 DifferingTtl at line {line}")?;
        check_refused(
            alloc,
            Form::File(&origin),
            &self.file(alloc)?,
            front.as_str(),
        )?;
        let message = (refused / A_MESSAGE).saturating_add(2);
        let offset = (refused % A_MESSAGE)
            .saturating_mul(ADDRESS_LEN)
            .saturating_add(12);
        let front = format!(in alloc; "F41 DifferingTtl at message {message} offset {offset}")?;
        check_refused(
            alloc,
            Form::Transfer,
            &self.transfer(alloc)?,
            front.as_str(),
        )
    }
}

/// Sets of so many addresses, drawn and in order, with the odd one first, within and last.
fn check_sets(alloc: Global, count: u64) -> Result<(), Fail> {
    for step in [1, 1009] {
        let odd = |before: u64| OddTtl {
            count,
            before,
            step,
        };
        check_rows(alloc, &[odd(0), odd(count / 2), odd(count)])?;
    }
    Ok(())
}

#[test]
fn a_ttl_that_differs_is_told_in_sets_of_one_and_two(rt: HostRuntime) -> Result<(), Fail> {
    check_sets(rt.alloc(), 1)?;
    check_sets(rt.alloc(), 2)
}

#[test]
fn a_ttl_that_differs_is_told_in_sets_of_some_hundreds(rt: HostRuntime) -> Result<(), Fail> {
    check_sets(rt.alloc(), 511)?;
    check_sets(rt.alloc(), 513)
}
