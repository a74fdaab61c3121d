//! Where `rt try --test --fail-alloc N` refuses a growth, that call appends nothing and the next
//! one goes on.
use crate::tests::items::data_of;
use crate::tests::names::named;
use crate::tests::wire::in_class_in;
use std::alloc::{AllocError, Global};
use std::test::Fail;
use test_support::check;
use zone_name::Name;
use zone_rdata::{Class, Rdata, RdataBuilder};

/// What appends its text to a vector.
#[derive(Drop)]
enum Printed {
    Name(Name),
    Class(Class),
    Data(Rdata),
}

impl Printed {
    fn push(&self, out: &mut Vec<u8>) -> Result<(), AllocError> {
        match self {
            Printed::Name(name) => name.push_text(out),
            Printed::Class(class) => class.push_word(out),
            Printed::Data(data) => data.push_text(out),
        }
    }
}

/// Whether each of four calls appends the text, or where it is refused nothing.
fn is_whole_or_nothing(alloc: Global, printed: &Printed, text: &[u8]) -> bool {
    let mut out = Vec::new(alloc);
    for _ in 0..4 {
        let before = out.len();
        let appended = match printed.push(&mut out) {
            Ok(()) => text,
            Err(_) => b"",
        };
        if out.as_slice().get(before..) != Some(appended) {
            return false;
        }
    }
    true
}

#[test]
fn a_refused_name_appends_nothing(rt: HostRuntime) -> Result<(), Fail> {
    let name = Printed::Name(named(b"a\\046b", b"x.")?);
    check(
        is_whole_or_nothing(rt.alloc(), &name, b"a\\.b.x."),
        "a refused name appends nothing",
    )
}

#[test]
fn a_refused_word_appends_nothing(rt: HostRuntime) -> Result<(), Fail> {
    let class = Printed::Class(Class::from_number(32)?);
    check(
        is_whole_or_nothing(rt.alloc(), &class, b"CLASS32"),
        "a refused word appends nothing",
    )
}

#[test]
fn a_refused_text_appends_nothing(rt: HostRuntime) -> Result<(), Fail> {
    let service = Printed::Data(data_of(rt.alloc(), "x.", "IN SRV 0 5 5060 h.")??);
    check(
        is_whole_or_nothing(rt.alloc(), &service, b"0 5 5060 h."),
        "a refused text appends nothing",
    )
}

/// Pushes a string of eight octets four times, and counts the octets that are pushed.
fn push_four(builder: &mut RdataBuilder) -> usize {
    let mut pushed: usize = 0;
    for _ in 0..4 {
        if builder.push_string(b"abcdefgh").is_ok() {
            pushed = pushed.wrapping_add(9);
        }
    }
    pushed
}

#[test]
fn a_refused_part_is_not_pushed(rt: HostRuntime) -> Result<(), Fail> {
    let framed: &[u8] = b"\x08abcdefgh\x08abcdefgh\x08abcdefgh\x08abcdefgh";
    let (class, kind) = in_class_in("16")?;
    let mut builder = RdataBuilder::new(rt.alloc(), class, kind);
    let pushed = push_four(&mut builder);
    let strings = builder.finish()?;
    check(
        framed.get(..pushed) == Some(strings.octets()),
        "the strings are those that were pushed",
    )
}
