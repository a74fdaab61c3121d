//! Words and numbers of classes and types, times, and layouts (RFC 1035 3.2, RFC 3597 5).
use crate::tests::wire::in_class_in;
use std::alloc::Global;
use std::test::Fail;
use test_support::{
    Case, Question, check_lines, check_rows, check_same, parted, push_fault, push_text, push_words,
};
use zone_rdata::{Class, Fault, Field, Kind, layout_of, seconds_of};

/// What a word or a number is read as: the number and the word of a class, none, or the fault.
struct ReadClass;

fn class_of(asked: &str) -> Result<Option<Class>, Fault> {
    match asked.parse::<u64>() {
        Ok(number) => Ok(Some(Class::from_number(number)?)),
        Err(_) => Class::from_word(asked.as_bytes()),
    }
}

/// Appends the number and the word of a class.
fn push_class(alloc: Global, out: &mut Vec<u8>, class: Class) -> Result<(), Fail> {
    let number = class.number();
    push_words(alloc, out, format_args!("{number} "))?;
    Ok(class.push_word(out)?)
}

impl Question for ReadClass {
    fn answer(alloc: Global, asked: &'static str, out: &mut Vec<u8>) -> Result<(), Fail> {
        match class_of(asked) {
            Ok(Some(class)) => push_class(alloc, out, class),
            Ok(None) => push_text(out, "no class"),
            Err(fault) => push_fault(alloc, out, &fault),
        }
    }
}

/// Words and numbers, and what they are read as.
const CLASSES: &str = "\
In => 1 IN
in => 1 IN
class0032 => 32 CLASS32
CLASS => no class
CLASS0 => BadClass
CLASS254 => BadClass
CLASS65536 => BadClass
CLASS65537 => BadClass
255 => BadClass
";

/// What a word or a number is read as: the number of a type and its word in a class, or the fault.
struct ReadKind;

fn kind_of(asked: &str) -> Result<Kind, Fault> {
    match asked.parse::<u64>() {
        Ok(number) => Kind::from_number(number),
        Err(_) => Kind::from_word(asked.as_bytes()),
    }
}

/// Appends the number of a type, its word in a class, and whether it is that of an SOA.
fn push_kind(alloc: Global, out: &mut Vec<u8>, kind: Kind, class: Class) -> Result<(), Fail> {
    let (number, is_soa) = (kind.number(), kind.is_soa());
    push_words(alloc, out, format_args!("{number} "))?;
    kind.push_word(class, out)?;
    push_words(alloc, out, format_args!(", SOA {is_soa}"))
}

impl Question for ReadKind {
    fn answer(alloc: Global, asked: &'static str, out: &mut Vec<u8>) -> Result<(), Fail> {
        let (asked, class) = parted(asked, " in ")?;
        let class = Class::from_number(class.parse::<u64>()?)?;
        match kind_of(asked) {
            Ok(kind) => push_kind(alloc, out, kind, class),
            Err(fault) => push_fault(alloc, out, &fault),
        }
    }
}

/// Words and numbers with the number of a class, and what they are read as.
const KINDS: &str = "\
sOa in 1 => 6 SOA, SOA true
SOA in 1 => 6 SOA, SOA true
ns in 1 => 2 NS, SOA false
TYPE1 in 1 => 1 A, SOA false
TYPE1 in 3 => 1 TYPE1, SOA false
TYPE257 in 1 => 257 TYPE257, SOA false
type65535 in 32 => 65535 TYPE65535, SOA false
CAA in 1 => UnknownType
caa in 1 => UnknownType
TYPE65536 in 1 => UnknownType
TYPE41 in 1 => MetaType
41 in 1 => MetaType
0 in 1 => MetaType
";

#[test]
fn classes_and_types(rt: HostRuntime) -> Result<(), Fail> {
    check_lines::<ReadClass>(rt.alloc(), CLASSES)?;
    check_lines::<ReadKind>(rt.alloc(), KINDS)
}

/// The seconds that a text says as a time.
struct Time;

impl Question for Time {
    fn answer(alloc: Global, asked: &'static str, out: &mut Vec<u8>) -> Result<(), Fail> {
        let seconds = seconds_of(asked.as_bytes());
        push_words(alloc, out, format_args!("{seconds:?}"))
    }
}

/// Texts, the empty one among them.
const TIMES: &str = "\
1h30M => Some(5400)
1W1s => Some(604801)
0000h1w => Some(604800)
007 => Some(7)
1h30 => None
 => None
99999999999 => Some(4294967296)
99999999999999999999w => Some(4294967296)
";

/// A field of the layout of SOA data in class IN.
struct SoaField(usize, Option<Field>);

impl Case for SoaField {
    fn check(&self, _alloc: Global) -> Result<(), Fail> {
        let (class, kind) = in_class_in("6")?;
        let layout = layout_of(class, kind).ok_or("no layout")?;
        check_same(self.0, layout.field(self.0), self.1)
    }
}

static SOA_FIELDS: &[SoaField] = &[
    SoaField(1, Some(Field::Name)),
    SoaField(2, Some(Field::Serial)),
    SoaField(6, Some(Field::Time)),
    SoaField(7, None),
];

#[test]
fn times_and_fields(rt: HostRuntime) -> Result<(), Fail> {
    check_lines::<Time>(rt.alloc(), TIMES)?;
    check_rows(rt.alloc(), SOA_FIELDS)
}
