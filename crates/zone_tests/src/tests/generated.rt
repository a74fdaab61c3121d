//! Files that are too long to be written out, and inputs that have no end.
use crate::tests::{check_refused, check_stopped};
use std::alloc::Global;
use std::io;
use std::io::Read;
use std::test::Fail;
use test_support::{
    Case, check, check_octets, check_rows, check_same, push_text, push_words, rooted,
};
use zone_engine::{Form, accepted_zone_within, normalise_bytes};
use zone_name::Name;

/// How many owners a file has.
const OWNERS: u64 = 1000;

/// Appends the line of an address whose owner is `a` with this number and the rest.
fn push_address(alloc: Global, file: &mut Vec<u8>, number: u64, rest: &str) -> Result<(), Fail> {
    push_words(alloc, file, format_args!("a{number}{rest} A 10.0.0.1\n"))
}

/// The owners from the highest number down, after the SOA.
fn descending(alloc: Global) -> Result<Vec<u8>, Fail> {
    let mut file = Vec::new(alloc);
    push_text(&mut file, "@ 60 SOA n h 1 2 3 4 5\n")?;
    for number in 0..OWNERS {
        push_address(alloc, &mut file, 999u64.wrapping_sub(number), " 60")?;
    }
    Ok(file)
}

/// The owners from the lowest number up, before the SOA.
fn ascending(alloc: Global) -> Result<Vec<u8>, Fail> {
    let mut file = Vec::new(alloc);
    for number in 0..OWNERS {
        push_address(alloc, &mut file, number, " 60")?;
    }
    push_text(&mut file, "@ 60 SOA n h 1 2 3 4 5\n")?;
    Ok(file)
}

/// The number below 1000 whose digits are the next in the order of texts, in which 1, 10 and 100
/// come before 11.
fn after(number: u64) -> u64 {
    if number == 0 {
        return 1;
    }
    if number < 100 {
        return number.wrapping_mul(10);
    }
    if number % 10 != 9 {
        return number.wrapping_add(1);
    }
    match number / 10 % 10 {
        9 => (number / 100).wrapping_add(1),
        _ => (number / 10).wrapping_add(1),
    }
}

/// The canonical text of both files.
fn canonical(alloc: Global) -> Result<Vec<u8>, Fail> {
    let mut text = Vec::new(alloc);
    push_text(&mut text, "x. 60 IN SOA n.x. h.x. 1 2 3 4 5\n")?;
    let mut number = 0;
    for _ in 0..OWNERS {
        push_address(alloc, &mut text, number, ".x. 60 IN")?;
        number = after(number);
    }
    Ok(text)
}

/// What `normalise_bytes` makes of a file under the origin `x.`.
fn text_of(alloc: Global, file: &[u8]) -> Result<Vec<u8>, Fail> {
    let origin = rooted(b"x.")?;
    Ok(normalise_bytes(alloc, Form::File(&origin), file)?)
}

/// That this is the text that a file under the origin `x.` has.
fn check_text(alloc: Global, file: &[u8], text: &[u8], asked: &str) -> Result<(), Fail> {
    check_octets(asked, &text_of(alloc, file)?, text)
}

#[test]
fn a_thousand_owners_are_sorted(rt: HostRuntime) -> Result<(), Fail> {
    let text = canonical(rt.alloc())?;
    check(text.len() == 24923, "the text has 24923 octets")?;
    let file = descending(rt.alloc())?;
    check_text(rt.alloc(), &file, &text, "owners from the highest down")?;
    let file = ascending(rt.alloc())?;
    check_text(rt.alloc(), &file, &text, "owners from the lowest up")
}

/// The SOA and lines of addresses from 10.0.0.0 on, so many lines of so many addresses, each a step
/// after the one before.
fn addresses(alloc: Global, count: u64, lines: u64, step: u64) -> Result<Vec<u8>, Fail> {
    let mut file = Vec::new(alloc);
    push_text(&mut file, "x. 60 IN SOA n.x. h.x. 1 2 3 4 5\n")?;
    for line in 0..lines {
        let number = line.wrapping_mul(step) % count.max(1);
        let (third, fourth) = (number / 256, number % 256);
        push_words(
            alloc,
            &mut file,
            format_args!("x. 60 IN A 10.0.{third}.{fourth}\n"),
        )?;
    }
    Ok(file)
}

/// A set of so many data, which stand in no order, a third of them twice.
struct ManyData(u64);

impl Case for ManyData {
    fn check(&self, alloc: Global) -> Result<(), Fail> {
        // 1009 is a prime, so each address stands there.
        let drawn = addresses(alloc, self.0, self.0.wrapping_add(self.0 / 3), 1009)?;
        let text = addresses(alloc, self.0, self.0, 1)?;
        check_text(alloc, &drawn, &text, "a set of many data")
    }
}

static MANY_DATA: &[ManyData] = &[
    ManyData(15),
    ManyData(16),
    ManyData(17),
    ManyData(100),
    ManyData(300),
    ManyData(3000),
];

#[test]
fn sets_of_many_data_are_sorted(rt: HostRuntime) -> Result<(), Fail> {
    check_rows(rt.alloc(), MANY_DATA)
}

#[test]
fn a_million_open_parentheses(rt: HostRuntime) -> Result<(), Fail> {
    let mut file = Vec::new(rt.alloc());
    file.resize(1_000_000, b'(')?;
    let root = Name::root();
    let front = "F15 UnbalancedParenthesis at line 1";
    check_refused(rt.alloc(), Form::File(&root), &file, front)
}

/// A reader that gives its octets and then line feeds without an end.
#[derive(Drop)]
struct Endless {
    left: &'static [u8],
    /// How many octets it gave.
    given: u64,
}

impl Read for Endless {
    fn read(&mut self, buf: &mut [u8]) -> io::Result<usize> {
        let count = if self.left.is_empty() {
            buf.fill(b'\n');
            buf.len()
        } else {
            self.left.read(buf)?
        };
        self.given = self.given.wrapping_add(count as u64);
        Ok(count)
    }
}

/// A front of an endless file under the origin `x.`, and the most octets that an input may have.
struct Unending {
    front: &'static [u8],
    limit: u64,
}

/// That a file under the origin `x.` is refused as too long, where it may have so many octets,
/// which are at most 100,000.
fn check_too_long(alloc: Global, reader: &mut Endless, limit: u64) -> Result<(), Fail> {
    let origin = rooted(b"x.")?;
    let answer = accepted_zone_within(alloc, Form::File(&origin), reader, limit.min(100_000));
    check_stopped(alloc, answer.err(), "F45 InputTooLong in the input")
}

impl Case for Unending {
    fn check(&self, alloc: Global) -> Result<(), Fail> {
        let mut reader = Endless {
            left: self.front,
            given: 0,
        };
        check_too_long(alloc, &mut reader, self.limit)?;
        check_same("octets given", reader.given, self.limit.wrapping_add(1))
    }
}

static UNENDING: &[Unending] = &[
    Unending {
        front: b"",
        limit: 1000,
    },
    Unending {
        front: b"@ 60 SOA n h 1 2 3 4 5\n",
        limit: 1000,
    },
    Unending {
        front: b"",
        limit: 70_000,
    },
    Unending {
        front: b")",
        limit: 1000,
    },
];

#[test]
fn endless_inputs_are_too_long(rt: HostRuntime) -> Result<(), Fail> {
    check_rows(rt.alloc(), UNENDING)
}
