//! That an answer is the one that is wanted, and what a failing test shows of both.
use std::fmt::{Debug, Display};
use std::slice::EscapeAscii;
use std::test::Fail;

/// How many octets of each of two answers are shown. A failure has room for 512.
const SHOWN: usize = 100;

/// How many octets are shown before the first that differs.
const BEFORE: usize = 20;

/// How many octets two answers begin with that are the same.
fn same_octets(got: &[u8], wanted: &[u8]) -> usize {
    let mut count: usize = 0;
    for (octet, other) in got.iter().zip(wanted) {
        if octet != other {
            return count;
        }
        count = count.wrapping_add(1);
    }
    count
}

/// What is shown of octets, from this one on.
fn shown(octets: &[u8], from: usize) -> EscapeAscii<'_> {
    let rest = octets.get(from..).unwrap_or(b"");
    rest.get(..SHOWN).unwrap_or(rest).escape_ascii()
}

/// That the octets of an answer are those that are wanted.
///
/// # Errors
///
/// The octets about the first that differs, those that are wanted there, and what was asked.
pub fn check_octets<D: Display + Drop>(asked: D, got: &[u8], wanted: &[u8]) -> Result<(), Fail> {
    if got == wanted {
        return Ok(());
    }
    let from = same_octets(got, wanted).saturating_sub(BEFORE);
    let (got, wanted) = (shown(got, from), shown(wanted, from));
    Err(Fail::new(format_args!("from octet {from} on got `{got}`, wanted `{wanted}`: {asked}",)))
}

/// That an answer is the one that is wanted.
///
/// # Errors
///
/// The answer, the one that is wanted, and what was asked.
pub fn check_same<D: Display + Drop, T: PartialEq + Debug + Drop>(
    asked: D,
    got: T,
    wanted: T,
) -> Result<(), Fail> {
    if got == wanted {
        return Ok(());
    }
    Err(Fail::new(format_args!("got {got:?}, wanted {wanted:?}: {asked}")))
}

/// That a test finds what is wanted.
///
/// # Errors
///
/// What was to be found.
pub fn check(is_right: bool, wanted: &'static str) -> Result<(), Fail> {
    if is_right {
        return Ok(());
    }
    Err(Fail::new(format_args!("not so: {wanted}")))
}
