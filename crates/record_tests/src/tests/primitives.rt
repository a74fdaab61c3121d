//! What other crates read data with: numbers, words of a table, strings and addresses (RFC 1035
//! 5.1, RFC 4291 2.2).
use std::test::Fail;
use test_support::{check_octets, check_same};
use zone_rdata::{
    Item, Row, decimal_of, four_groups_of, ipv4_octets_of, ipv6_octets_of, is_word, number_of_word,
    push_decimal, push_hex, push_ipv4, push_ipv6, push_octets_of_hex, push_string,
    push_string_text, row_named, row_of,
};

/// A metal by its number and its sign.
struct Metal {
    number: u16,
    sign: &'static [u8],
}

impl Row for Metal {
    ghost use Rattle.zone_rdata.specs.Table.{Named};

    ghost names = { λ row. record { number = row.number; mnemonic = row.sign.now } };

    fn number(&self) -> u16 {
        self.number
    }

    fn mnemonic(&self) -> &'static [u8] {
        self.sign
    }
}

static METALS: &[Metal] = &[
    Metal {
        number: 26,
        sign: b"Fe",
    },
    Metal {
        number: 79,
        sign: b"Au",
    },
];

#[test]
fn numbers_in_digits(_rt: HostRuntime) -> Result<(), Fail> {
    check_same("leading zeros", decimal_of(b"0065"), Some(65))?;
    check_same("past 2^32", decimal_of(b"99999999999"), Some(4294967296))?;
    check_same("a sign", decimal_of(b"-1"), None)
}

/// RFC 4648 8; 33 octets are written in two parts.
#[test]
fn octets_in_hexadecimal_digits(rt: HostRuntime) -> Result<(), Fail> {
    let mut out = Vec::new(rt.alloc());
    push_hex(&[0x0f, 0xa9], &mut out)?;
    push_hex(&[0xff; 33], &mut out)?;
    check_octets(
        "two digits for each octet",
        &out,
        b"0fa9ffffffffffffffffffffffffffffffffffffffffffffffffffffffffffffffffff",
    )
}

/// That digits are read as octets, after one that is there.
fn check_read(rt: HostRuntime, digits: &[u8], octets: &[u8]) -> Result<(), Fail> {
    let mut out = Vec::new(rt.alloc());
    out.push(b'<')?;
    check_same(
        "digits of octets",
        push_octets_of_hex(digits, &mut out)?,
        true,
    )?;
    check_octets("the octet before", &out[..1], b"<")?;
    check_octets("the octets of digits", &out[1..], octets)
}

/// RFC 4648 8, in either letter case and in both. Of 66 digits the last two are read by themselves.
#[test]
fn octets_of_hexadecimal_digits(rt: HostRuntime) -> Result<(), Fail> {
    let lower = b"666f6f626172666f6f626172666f6f626172666f6f626172666f6f626172666f6f";
    let capitals = b"666F6F626172666F6F626172666F6F626172666F6F626172666F6F626172666F6F";
    let both = b"666F6f626172666f6F626172666f6f626172666f6F626172666f6f626172666F6f";
    check_read(rt, b"", b"")?;
    check_read(rt, b"0fA9", b"\x0f\xa9")?;
    check_read(rt, lower, b"foobarfoobarfoobarfoobarfoobarfoo")?;
    check_read(rt, capitals, b"foobarfoobarfoobarfoobarfoobarfoo")?;
    check_read(rt, both, b"foobarfoobarfoobarfoobarfoobarfoo")
}

/// That a text isn't the digits of octets, and nothing is appended.
fn check_unread(rt: HostRuntime, text: &[u8]) -> Result<(), Fail> {
    let mut out = Vec::new(rt.alloc());
    out.push(b'<')?;
    check_same(
        "no digits of octets",
        push_octets_of_hex(text, &mut out)?,
        false,
    )?;
    check_octets("nothing is appended", &out, b"<")
}

/// An odd number of digits, and the characters beside them in ASCII.
#[test]
fn texts_that_are_no_hexadecimal_digits(rt: HostRuntime) -> Result<(), Fail> {
    check_unread(rt, b"0")?;
    check_unread(
        rt,
        b"00000000000000000000000000000000000000000000000000000000000000000",
    )?;
    check_unread(
        rt,
        b"0000000000000000000000000000000000000000000000000000000000000000g0",
    )?;
    check_unread(rt, b"0/")?;
    check_unread(rt, b":0")?;
    check_unread(rt, b"@0")?;
    check_unread(rt, b"0G")?;
    check_unread(rt, b"`0")?;
    check_unread(rt, b"\x10\x19")?;
    check_unread(rt, b"\xc1\xb0")
}

/// RFC 2181 8.
#[test]
fn number_is_printed(rt: HostRuntime) -> Result<(), Fail> {
    let mut out = Vec::new(rt.alloc());
    push_decimal(2147483647, &mut out)?;
    check_octets("the greatest TTL", &out, b"2147483647")
}

/// RFC 1035 3.4.1 and RFC 5952 4.2.3, whose example is 2001:db8:0:0:1:0:0:1.
#[test]
fn addresses_are_printed(rt: HostRuntime) -> Result<(), Fail> {
    let mut out = Vec::new(rt.alloc());
    push_ipv4(&[10, 0, 0, 52], &mut out)?;
    check_octets("RFC 1035 5.3", &out, b"10.0.0.52")?;
    out.clear();
    let octets = [0x20, 1, 0xd, 0xb8, 0, 0, 0, 0, 0, 1, 0, 0, 0, 0, 0, 1];
    push_ipv6(&octets, &mut out)?;
    check_octets("the first of equal runs", &out, b"2001:db8::1:0:0:1")
}

/// RFC 1035 5.1.
#[test]
fn string_is_printed_in_quotes(rt: HostRuntime) -> Result<(), Fail> {
    let mut out = Vec::new(rt.alloc());
    push_string_text(b"a \"b\"\x07", &mut out)?;
    check_octets("escapes", &out, b"\"a \\\"b\\\"\\007\"")
}

#[test]
fn rows_by_number_and_word(_rt: HostRuntime) -> Result<(), Fail> {
    let gold = row_of(METALS, 79).ok_or("no row of 79")?;
    check_octets("79", gold.mnemonic(), b"Au")?;
    let iron = row_named(METALS, b"FE").ok_or("no row of FE")?;
    check_same("FE", iron.number(), 26)?;
    check_same("no row", row_of(METALS, 27).is_none(), true)?;
    check_same("letter case", is_word(b"aU", b"Au"), true)?;
    check_same("AU", number_of_word(METALS, b"METAL", b"AU"), Some(79))?;
    check_same(
        "metal80",
        number_of_word(METALS, b"METAL", b"metal80"),
        Some(80),
    )?;
    check_same("Ag", number_of_word(METALS, b"METAL", b"Ag"), None)
}

#[test]
fn strings_after_their_length(rt: HostRuntime) -> Result<(), Fail> {
    let mut out = Vec::new(rt.alloc());
    push_string(Item::Bare(b"a\\098"), &mut out)?;
    push_string(Item::Quoted(b""), &mut out)?;
    check_octets("two strings", &out, b"\x02ab\x00")
}

#[test]
fn octets_of_addresses(_rt: HostRuntime) -> Result<(), Fail> {
    let four = ipv4_octets_of(b"192.0.2.1").ok_or("no address of four octets")?;
    check_octets("192.0.2.1", &four, &[192, 0, 2, 1])?;
    let groups = four_groups_of(b"14:4fff:ff20:ee64").ok_or("no four groups")?;
    let stated = [0, 0x14, 0x4f, 0xff, 0xff, 0x20, 0xee, 0x64];
    check_octets("14:4fff:ff20:ee64", &groups, &stated)?;
    let sixteen = ipv6_octets_of(b"::102:3").ok_or("no address of sixteen octets")?;
    check_octets(
        "::102:3",
        &sixteen,
        &[0, 0, 0, 0, 0, 0, 0, 0, 0, 0, 0, 0, 1, 2, 0, 3],
    )
}
