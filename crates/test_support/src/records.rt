//! Names, records and faults: what tests make of texts, and how they show them.
use crate::writing::{push_hex, push_text, push_words};
use std::alloc::Global;
use std::test::Fail;
use zone_name::Name;
use zone_rdata::{Fault, Rr};

/// The name that a text spells without an origin.
pub fn rooted(text: &[u8]) -> Result<Name, Fail> {
    Ok(Name::from_text(text, None)?)
}

/// Appends the name of a fault.
pub fn push_fault(alloc: Global, out: &mut Vec<u8>, fault: &Fault) -> Result<(), Fail> {
    push_words(alloc, out, format_args!("{fault:?}"))
}

/// Appends TTL and class of a record, with a blank before and after each.
fn push_ttl_and_class(alloc: Global, rr: &Rr, line: &mut Vec<u8>) -> Result<(), Fail> {
    push_words(alloc, line, format_args!(" {} ", rr.ttl()))?;
    rr.class().push_word(line)?;
    push_text(line, " ")
}

/// The canonical line of a record, without its line feed.
pub fn line_of(alloc: Global, rr: &Rr) -> Result<Vec<u8>, Fail> {
    let mut line = Vec::new(alloc);
    rr.owner().push_text(&mut line)?;
    push_ttl_and_class(alloc, rr, &mut line)?;
    rr.kind().push_word(rr.class(), &mut line)?;
    push_text(&mut line, " ")?;
    rr.rdata().push_text(&mut line)?;
    Ok(line)
}

/// Appends a record in numbers: owner, TTL, class, type and data.
pub fn push_numbers(alloc: Global, out: &mut Vec<u8>, rr: &Rr) -> Result<(), Fail> {
    push_hex(alloc, out, rr.owner().wire())?;
    let (ttl, class, kind) = (rr.ttl(), rr.class().number(), rr.kind().number());
    push_words(alloc, out, format_args!(" {ttl} CLASS{class} TYPE{kind} "))?;
    push_hex(alloc, out, rr.rdata().octets())
}
