//! Uncompressed octets of data, and data that is built part by part (RFC 1035 3.3, RFC 3597 4).
use crate::tests::judged;
use std::alloc::Global;
use std::test::Fail;
use test_support::{
    Question, check, check_lines, check_same, octets_of, parted, push_fault, push_hex, push_text,
    push_words, rooted,
};
use zone_rdata::{Class, Fault, Field, Kind, Rdata, RdataBuilder};

/// What octets of a type and class IN are read as: the data's octets and MINIMUM, or the fault.
struct Wired;

/// Class IN, and the type of a number.
pub(super) fn in_class_in(number: &str) -> Result<(Class, Kind), Fail> {
    Ok((
        Class::internet(),
        Kind::from_number(number.parse::<u64>()?)?,
    ))
}

fn data_of(alloc: Global, kind: &str, octets: &[u8]) -> Result<Result<Rdata, Fault>, Fail> {
    let (class, kind) = in_class_in(kind)?;
    judged(Rdata::from_wire(alloc, class, kind, octets))
}

/// Appends the octets and MINIMUM of data.
fn push_read(alloc: Global, out: &mut Vec<u8>, data: &Rdata) -> Result<(), Fail> {
    push_hex(alloc, out, data.octets())?;
    let minimum = data.soa_minimum();
    push_words(alloc, out, format_args!(", minimum {minimum:?}"))
}

impl Question for Wired {
    fn answer(alloc: Global, asked: &'static str, out: &mut Vec<u8>) -> Result<(), Fail> {
        let (kind, digits) = parted(asked, " ")?;
        match data_of(alloc, kind, &octets_of(alloc, digits)?)? {
            Ok(data) => push_read(alloc, out, &data),
            Err(fault) => push_fault(alloc, out, &fault),
        }
    }
}

/// A type and octets, and what they are read as.
const WIRED: &str = "\
15 000a014d017800 => #000a016d017800, minimum None
2 016e017800 => #016e017800, minimum None
2 c00c => BadRdata
33 c01f => BadRdata
731  => #, minimum None
6 016e01780001680178000000000100000002000000030000000400000005 => #016e01780001680178000000000100000002000000030000000400000005, minimum Some(5)
";

#[test]
fn data_of_octets(rt: HostRuntime) -> Result<(), Fail> {
    check_lines::<Wired>(rt.alloc(), WIRED)
}

#[test]
fn data_of_too_many_octets(rt: HostRuntime) -> Result<(), Fail> {
    let mut zeros = Vec::new(rt.alloc());
    zeros.resize(65536, 0)?;
    let answer = data_of(rt.alloc(), "731", &zeros)?;
    check(
        matches!(answer, Err(Fault::RdataTooLong)),
        "the fault is RdataTooLong",
    )
}

/// The answer of a builder to a part.
fn pushed(
    alloc: Global,
    builder: &mut RdataBuilder,
    part: &str,
) -> Result<Result<(), Fault>, Fail> {
    let (word, value) = parted(part, " ")?;
    judged(match word {
        "name" => builder.push_name(&rooted(value.as_bytes())?),
        "u16" => builder.push_u16(value.parse::<u16>()?),
        "u32" => builder.push_u32(value.parse::<u32>()?),
        "octets" => builder.push_octets(&octets_of(alloc, value)?),
        _ => builder.push_string(value.as_bytes()),
    })
}

/// Hands the parts to the builder, and appends the answer to each.
fn push_parts(
    alloc: Global,
    builder: &mut RdataBuilder,
    parts: &str,
    out: &mut Vec<u8>,
) -> Result<(), Fail> {
    for part in parts.split("; ") {
        if !part.is_empty() {
            match pushed(alloc, builder, part)? {
                Ok(()) => push_text(out, "ok")?,
                Err(fault) => push_fault(alloc, out, &fault)?,
            }
            push_text(out, "; ")?;
        }
    }
    Ok(())
}

/// A builder of data of this type and class IN, which was one of a TXT record before.
fn builder_of(alloc: Global, kind: &str) -> Result<RdataBuilder, Fail> {
    let (class, strings) = in_class_in("16")?;
    let mut builder = RdataBuilder::new(alloc, class, strings);
    judged(builder.push_string(b"octets of before"))??;
    let (class, kind) = in_class_in(kind)?;
    builder.restart(class, kind);
    Ok(builder)
}

/// What a builder of a type and class IN answers to parts of data, then the octets of the data that
/// it lends, if that is whole, and those of the data that it makes, or the fault.
struct Built;

impl Question for Built {
    fn answer(alloc: Global, asked: &'static str, out: &mut Vec<u8>) -> Result<(), Fail> {
        let (kind, parts) = parted(asked, ": ")?;
        let mut builder = builder_of(alloc, kind)?;
        push_parts(alloc, &mut builder, parts, out)?;
        if let Some(data) = builder.whole() {
            push_hex(alloc, out, data.octets())?;
            push_text(out, "; ")?;
        }
        match builder.finish() {
            Ok(data) => push_hex(alloc, out, data.octets()),
            Err(fault) => push_fault(alloc, out, &fault),
        }
    }
}

/// A type and its parts, one of them a string of 256 octets, and the answers.
const BUILT: &str = "\
15: name M.x.; u16 10; name M.x. => BadRdata; ok; ok; #000a016d017800; #000a016d017800
15: u16 10 => ok; BadRdata
16: string aaaaaaaaaaaaaaaaaaaaaaaaaaaaaaaaaaaaaaaaaaaaaaaaaaaaaaaaaaaaaaaaaaaaaaaaaaaaaaaaaaaaaaaaaaaaaaaaaaaaaaaaaaaaaaaaaaaaaaaaaaaaaaaaaaaaaaaaaaaaaaaaaaaaaaaaaaaaaaaaaaaaaaaaaaaaaaaaaaaaaaaaaaaaaaaaaaaaaaaaaaaaaaaaaaaaaaaaaaaaaaaaaaaaaaaaaaaaaaaaaaaaaaaaaaaaaaaa; string a; string  => StringTooLong; ok; ok; #016100; #016100
16:  => BadRdata
1: octets 0a0000; octets 0a000001 => BadRdata; ok; #0a000001; #0a000001
731: octets ; octets  => ok; BadRdata; #; #
6: name n.x.; name n.x.; u32 1; u32 2; u32 3; u32 4; u32 5 => ok; ok; ok; ok; ok; ok; ok; #016e017800016e0178000000000100000002000000030000000400000005; #016e017800016e0178000000000100000002000000030000000400000005
";

#[test]
fn a_builder_has_its_layout(rt: HostRuntime) -> Result<(), Fail> {
    let builder = builder_of(rt.alloc(), "15")?;
    let layout = builder.layout().ok_or("no layout")?;
    check_same("MX", layout.field(0), Some(Field::U16))
}

#[test]
fn a_builder_in_the_memory_of_other_data(rt: HostRuntime) -> Result<(), Fail> {
    let mut other = builder_of(rt.alloc(), "731")?;
    judged(other.push_octets(b"octets of before"))??;
    let (class, kind) = in_class_in("1")?;
    let mut builder = RdataBuilder::reusing(other.finish()?, class, kind);
    judged(builder.push_octets(b"abcd"))??;
    check(
        builder.finish()?.octets() == b"abcd".as_slice(),
        "the data has no octets of the other",
    )
}

#[test]
fn data_of_parts(rt: HostRuntime) -> Result<(), Fail> {
    check_lines::<Built>(rt.alloc(), BUILT)
}
