//! Record data: from a line of words to its text, its octets and its order (RFC 1035 3.3, RFC 3597,
//! RFC 4034 6.3).
use crate::tests::judged;
use std::alloc::Global;
use std::test::Fail;
use test_support::{
    Question, check, check_lines, parted, push_fault, push_hex, push_text, push_words, rooted,
};
use zone_rdata::{Class, Failing, Fault, Item, Kind, Rdata};

/// What data is made of.
#[derive(Drop)]
struct Words<'l> {
    class: Class,
    kind: Kind,
    items: Vec<Item<'l>>,
}

/// What stands between the quotes of a quoted word.
fn unquoted(word: &str) -> Option<&str> {
    word.strip_prefix("\"")?.strip_suffix("\"")
}

/// The item of a word: quotes enclose a quoted one.
fn item_of(word: &str) -> Item<'_> {
    match unquoted(word) {
        Some(quoted) => Item::Quoted(quoted.as_bytes()),
        None => Item::Bare(word.as_bytes()),
    }
}

/// Class, type and items of a line, in which each blank ends a word.
fn words_of(alloc: Global, line: &str) -> Result<Words<'_>, Fail> {
    let mut words = line.split(' ');
    let class = words.next().unwrap_or("");
    let class = Class::from_word(class.as_bytes())?.ok_or("no class")?;
    let kind = Kind::from_word(words.next().unwrap_or("").as_bytes())?;
    let mut items = Vec::new(alloc);
    for word in words {
        items.push(item_of(word))?;
    }
    Ok(Words { class, kind, items })
}

/// The data that a line states under an origin.
pub(super) fn data_of(
    alloc: Global,
    origin: &str,
    line: &str,
) -> Result<Result<Rdata, Fault>, Fail> {
    let origin = rooted(origin.as_bytes())?;
    let Words { class, kind, items } = words_of(alloc, line)?;
    judged(Rdata::from_items(alloc, class, kind, &items, &origin))
}

/// Reads the data that a line states under an origin in the place of other data.
fn set_from_line(
    alloc: Global,
    data: &mut Rdata,
    origin: &str,
    line: &str,
) -> Result<Result<(), Fault>, Fail> {
    let origin = rooted(origin.as_bytes())?;
    let Words { class, kind, items } = words_of(alloc, line)?;
    match data.set_from_items(class, kind, &items, &origin) {
        Ok(()) => Ok(Ok(())),
        Err(failing) => judged(Err(Failing::from(failing))),
    }
}

/// The canonical text of the data that a line states under the origin `x.`, or the name of the
/// fault.
pub(super) struct Stated;

impl Question for Stated {
    fn answer(alloc: Global, asked: &'static str, out: &mut Vec<u8>) -> Result<(), Fail> {
        match data_of(alloc, "x.", asked)? {
            Ok(data) => Ok(data.push_text(out)?),
            Err(fault) => push_fault(alloc, out, &fault),
        }
    }
}

/// Data in words; data in generic form (RFC 3597 5); words that are missing, left over, malformed
/// or out of range; and generic form that is malformed, or is no value of its type.
const DATA: &str = "\
IN NS \\035 => #.x.
IN MX 010 M => 10 m.x.
IN SOA n h 4294967295 2 3 4 5 => n.x. h.x. 4294967295 2 3 4 5
IN SOA n h 1 1h30m 1W1s 2d 5 => n.x. h.x. 1 5400 604801 172800 5
IN TXT \"ab\" => \"ab\"
IN TXT \"a\" \"b\" => \"a\" \"b\"
IN TXT a b => \"a\" \"b\"
IN TXT A => \"A\"
IN TXT \\035 => \"#\"
IN TXT \"\\#\" 2 0161 => \"#\" \"2\" \"0161\"
IN SRV 00 05 5060 H => 0 5 5060 h.x.
CH SRV 00 05 5060 H => 0 5 5060 h.x.
IN NAPTR 1 2 u s r N => 1 2 \"u\" \"s\" \"r\" n.x.
IN NAPTR 1 2 U s r n => 1 2 \"U\" \"s\" \"r\" n.x.
IN NAPTR 100 10 u \"E2U+sip\" \"!^.*$!sip:a@x!\" . => 100 10 \"u\" \"E2U+sip\" \"!^.*$!sip:a@x!\" .
IN A \\# 4 0a00 0001 => 10.0.0.1
CH A \\# 4 0a00 0001 => \\# 4 0a000001
IN NS \\# 5 014e015800 => n.x.
IN TXT \\# 2 0161 => \"a\"
IN AAAA \\# 16 20010db8000000000000000000000001 => 2001:db8::1
IN SRV \\# 11 0000000513c40148017800 => 0 5 5060 h.x.
IN NAPTR \\# 30 0064000a0175074532552b7369700e215e2e2a24217369703a6140782100 => 100 10 \"u\" \"E2U+sip\" \"!^.*$!sip:a@x!\" .
IN TYPE257 \\# 2 0000 => \\# 2 0000
CLASS32 TYPE731 \\# 6 abcd ef 01 23 45 => \\# 6 abcdef012345
CLASS32 TYPE731 \\# 0 => \\# 0
IN NS => BadRdata
IN NS \"a\" => BadRdata
IN NS a..b => EmptyLabel
IN MX 65536 m => BadNumber
IN SOA a b 4294967296 => BadNumber
IN SOA n h 1h 2 3 4 5 => BadNumber
IN SOA n h 4294967296 2 3 4 5 => BadNumber
IN SOA n h 1 2 3 4 => BadRdata
IN TXT => BadRdata
IN TXT \"aaaaaaaaaaaaaaaaaaaaaaaaaaaaaaaaaaaaaaaaaaaaaaaaaaaaaaaaaaaaaaaaaaaaaaaaaaaaaaaaaaaaaaaaaaaaaaaaaaaaaaaaaaaaaaaaaaaaaaaaaaaaaaaaaaaaaaaaaaaaaaaaaaaaaaaaaaaaaaaaaaaaaaaaaaaaaaaaaaaaaaaaaaaaaaaaaaaaaaaaaaaaaaaaaaaaaaaaaaaaaaaaaaaaaaaaaaaaaaaaaaaaaaaaaaaaaaaa\" => StringTooLong
IN SRV 0 5 65536 h => BadNumber
IN SRV 0 5 5060 => BadRdata
IN NAPTR 100 10 u \"E2U+sip\" . => BadRdata
IN NAPTR \"1\" 2 \"\" \"\" \"\" . => BadRdata
IN NAPTR 1 2 \"aaaaaaaaaaaaaaaaaaaaaaaaaaaaaaaaaaaaaaaaaaaaaaaaaaaaaaaaaaaaaaaaaaaaaaaaaaaaaaaaaaaaaaaaaaaaaaaaaaaaaaaaaaaaaaaaaaaaaaaaaaaaaaaaaaaaaaaaaaaaaaaaaaaaaaaaaaaaaaaaaaaaaaaaaaaaaaaaaaaaaaaaaaaaaaaaaaaaaaaaaaaaaaaaaaaaaaaaaaaaaaaaaaaaaaaaaaaaaaaaaaaaaaaaaaaaaaaa\" \"\" \"\" . => StringTooLong
IN NS \\# => BadGeneric
IN A \\# 3 0A0000 => BadRdata
IN A \\# 4 0A0000 => BadGeneric
IN SRV \\# 2 0000 => BadRdata
CH A 10.0.0.1 => BadGeneric
IN TYPE731 => BadGeneric
IN TYPE731 00 => BadGeneric
IN TYPE731 \\# => BadGeneric
IN TYPE731 \\# 65536 0 => RdataTooLong
IN TYPE731 \\# 2 000 0 => BadGeneric
IN TYPE731 \\# 1 \"00\" => BadGeneric
";

#[test]
fn data_of_lines(rt: HostRuntime) -> Result<(), Fail> {
    check_lines::<Stated>(rt.alloc(), DATA)
}

/// Appends the text, octets, class and MINIMUM of data, and whether it is of an SOA.
fn push_data(alloc: Global, out: &mut Vec<u8>, data: &Rdata) -> Result<(), Fail> {
    data.push_text(out)?;
    push_text(out, " ")?;
    push_hex(alloc, out, data.octets())?;
    let class = data.class().number();
    let minimum = data.soa_minimum();
    let is_soa = data.kind().is_soa();
    push_words(
        alloc,
        out,
        format_args!(" class {class}, minimum {minimum:?}, SOA {is_soa}"),
    )
}

/// The data that a line states under an origin, which stands before it.
struct Held;

impl Question for Held {
    fn answer(alloc: Global, asked: &'static str, out: &mut Vec<u8>) -> Result<(), Fail> {
        let (origin, line) = parted(asked, " ")?;
        push_data(alloc, out, &data_of(alloc, origin, line)??)
    }
}

/// The same, read in the place of other data, lent and copied.
struct HeldInPlace;

impl Question for HeldInPlace {
    fn answer(alloc: Global, asked: &'static str, out: &mut Vec<u8>) -> Result<(), Fail> {
        let (origin, line) = parted(asked, " ")?;
        let mut data = data_of(alloc, "x.", "IN TXT \"octets of before\"")??;
        set_from_line(alloc, &mut data, origin, line)??;
        push_data(alloc, out, &data.lend().to_rdata(alloc)?)
    }
}

/// An origin and a line, and the data.
const HELD: &str = "\
example. IN SOA Ns1 host.master. 0002024 2h 3600 1209600 4294967295 => ns1.example. host.master. 2024 7200 3600 1209600 4294967295 #036e7331076578616d706c650004686f7374066d617374657200000007e800001c2000000e1000127500ffffffff class 1, minimum Some(4294967295), SOA true
x. IN A 010.000.00.001 => 10.0.0.1 #0a000001 class 1, minimum None, SOA false
x. IN AAAA 2001:db8::1 => 2001:db8::1 #20010db8000000000000000000000001 class 1, minimum None, SOA false
x. IN AAAA ::1.2.3.4 => ::102:304 #00000000000000000000000001020304 class 1, minimum None, SOA false
x. IN TXT aaaaaaaaaaaaaaaaaaaaaaaaaaaaaaaaaaaaaaaaaaaaaaaaaaaaaaaaaaaaaaaaaaaaaaaaaaaaaaaaaaaaaaaaaaaaaaaaaaaaaaaaaaaaaaaaaaaaaaaaaaaaaaaaaaaaaaaaaaaaaaaaaaaaaaaaaaaaaaaaaaaaaaaaaaaaaaaaaaaaaaaaaaaaaaaaaaaaaaaaaaaaaaaaaaaaaaaaaaaaaaaaaaaaaaaaaaaaaaaaaaaaaaaaaaaaaaa => \"aaaaaaaaaaaaaaaaaaaaaaaaaaaaaaaaaaaaaaaaaaaaaaaaaaaaaaaaaaaaaaaaaaaaaaaaaaaaaaaaaaaaaaaaaaaaaaaaaaaaaaaaaaaaaaaaaaaaaaaaaaaaaaaaaaaaaaaaaaaaaaaaaaaaaaaaaaaaaaaaaaaaaaaaaaaaaaaaaaaaaaaaaaaaaaaaaaaaaaaaaaaaaaaaaaaaaaaaaaaaaaaaaaaaaaaaaaaaaaaaaaaaaaaaaaaaaaa\" #ff616161616161616161616161616161616161616161616161616161616161616161616161616161616161616161616161616161616161616161616161616161616161616161616161616161616161616161616161616161616161616161616161616161616161616161616161616161616161616161616161616161616161616161616161616161616161616161616161616161616161616161616161616161616161616161616161616161616161616161616161616161616161616161616161616161616161616161616161616161616161616161616161616161616161616161616161616161616161616161616161616161616161616161616161616161 class 1, minimum None, SOA false
";

#[test]
fn data_as_it_is_held(rt: HostRuntime) -> Result<(), Fail> {
    check_lines::<Held>(rt.alloc(), HELD)?;
    check_lines::<HeldInPlace>(rt.alloc(), HELD)
}

#[test]
fn refused_items_leave_no_octets(rt: HostRuntime) -> Result<(), Fail> {
    let mut data = data_of(rt.alloc(), "x.", "IN NS b.")??;
    let answer = set_from_line(rt.alloc(), &mut data, "x.", "IN MX 1 a..b")?;
    let is_refused = matches!(answer, Err(Fault::EmptyLabel));
    let is_null = data.kind().number() == 10 && data.octets().is_empty();
    check(
        is_refused && is_null && data == Rdata::empty(rt.alloc()),
        "no octets are left",
    )
}

/// The order of the data of two lines, and whether they are the same.
struct Compared;

impl Question for Compared {
    fn answer(alloc: Global, asked: &'static str, out: &mut Vec<u8>) -> Result<(), Fail> {
        let (line, other) = parted(asked, " and ")?;
        let left = data_of(alloc, "x.", line)??;
        let right = data_of(alloc, "x.", other)??;
        let (ordering, is_same) = (left.cmp(&right), left == right);
        push_words(alloc, out, format_args!("{ordering:?}, same {is_same}"))
    }
}

/// Two lines, and how they compare.
const COMPARED: &str = "\
IN NS A. and IN NS b. => Less, same false
IN NS b. and IN NS B. => Equal, same true
IN SRV 00 05 5060 H and IN SRV \\# 11 0000000513c40148017800 => Equal, same true
IN SRV \\# 9 0000000513c4014800 and IN SRV \\# 9 0000000513c4016800 => Equal, same true
IN NAPTR 100 10 u \"E2U+sip\" \"!^.*$!sip:a@x!\" . and IN NAPTR \\# 30 0064000a0175074532552b7369700e215e2e2a24217369703a6140782100 => Equal, same true
";

#[test]
fn data_in_order(rt: HostRuntime) -> Result<(), Fail> {
    check_lines::<Compared>(rt.alloc(), COMPARED)
}
