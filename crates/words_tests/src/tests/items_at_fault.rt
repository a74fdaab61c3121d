//! Where a reading of an entry stops: the type and the field, and the item as a line shows it.
use faulty_items::{EntryStop, ShownItem, entry_stop, write_item};
use std::alloc::Global;
use std::test::Fail;
use test_support::{Question, check_lines, check_octets, check_table};
use type_data::type_mnemonic;
use zone_name::CasedName;
use zone_print::OctetVec;
use zone_rdata::{Class, Item};

/// The octets of an item.
fn text_of(item: Item<'_>) -> &[u8] {
    match item {
        Item::Bare(text) | Item::Quoted(text) => text,
    }
}

/// Appends the type, the field and what is wrong with it.
fn push_place(number: u16, field: &str, text: &str, out: &mut Vec<u8>) -> Result<(), Fail> {
    out.extend_from_slice(type_mnemonic(number).unwrap_or(b"TYPE"))?;
    out.extend_from_slice(b", ")?;
    out.extend_from_slice(field.as_bytes())?;
    if !text.is_empty() {
        out.extend_from_slice(b": ")?;
        out.extend_from_slice(text.as_bytes())?;
    }
    Ok(())
}

/// Where the entry stops, under `example.` and after a record of class IN.
struct Stop;

impl Question for Stop {
    fn answer(alloc: Global, asked: &'static str, out: &mut Vec<u8>) -> Result<(), Fail> {
        let origin = CasedName::from_text(b"example.", None).map_err(|_| "example.")?;
        let item = match entry_stop(alloc, asked.as_bytes(), Class::internet(), &origin)? {
            EntryStop::BeforeData(item) => item,
            EntryStop::Data(number, stop) => {
                push_place(number, stop.field, "", out)?;
                stop.item
            }
            EntryStop::FurtherData(number, stop) => {
                push_place(number, stop.field, stop.fault.text(), out)?;
                stop.item
            }
        };
        if let Some(item) = item {
            out.extend_from_slice(ShownItem::of(text_of(item)).as_slice())?;
        }
        Ok(())
    }
}

/// Entries that are refused, and where. The items are those that `named-checkzone` of BIND 9.18 says
/// that its fault is near, where it names one: it names none in names, strings, hexadecimal digits
/// and base64. The fields have the names of their RFCs.
const STOPS: &str = "\
a A 1.2.3.4.5 => A, address: \"1.2.3.4.5\"
a A 192.0.2.1 extra => A, address: \"extra\"
a A => A, address
a AAAA 2001:db8::g => AAAA, address: \"2001:db8::g\"
a NS \"b\" => NS, nsdname: \"b\"
a SOA n h 1 2 3x 4 5 => SOA, retry: \"3x\"
a MX ten mail => MX, preference: \"ten\"
a MX 65536 mail => MX, preference: \"65536\"
a MX 10 mail left => MX, exchange: \"left\"
a MX 10 a..b => MX, exchange: \"a..b\"
a SRV 0 0 x t => SRV, port: \"x\"
a NAPTR 1 2 \"s\" \"x\" \"r\" a..b => NAPTR, replacement: \"a..b\"
a NAPTR 1 2 \"s\" => NAPTR, services
a TXT => TXT, txt-data
a CAA 256 issue x => CAA, flags: too large: \"256\"
a CAA 0 is-sue x => CAA, tag: not a tag: \"is-sue\"
a DS 60485 5 1 2BB183AF5F22588179A53B0A 98631FAD1A29211Z 00 => DS, digest: not hexadecimal: \"98631\
FAD1A29211Z\"
a DS 1 8 2 ABC => DS, digest: not hexadecimal
a RRSIG A 8 2 3600 20260101000000 20250101000000 1 example. AAAA no! AAAA => RRSIG, signature: not \
base64: \"no!\"
a RRSIG A 8 2 3600 20260101000000 20250101000000 1 example. AA== AAAA => RRSIG, signature: not base\
64: \"AAAA\"
a NSEC b A NOTYPE MX => NSEC, types: not a type: \"NOTYPE\"
a HTTPS 1 . alpn=h2 port=x key7=y => HTTPS, parameters: not a value: \"port=x\"
a HTTPS 1 . alpn=\"h2\" port=\"1\" port=\"2\" => HTTPS, parameters: a repeated key: \"port=\"
a HTTPS 1 . mandatory=alpn port=1 => HTTPS, parameters: a mandatory key is missing
a LOC 52 22 23.000 X 4 53 32.000 E -2.00m => LOC, data: not a location: \"X\"
a LOC 52 22 23.000 N 4 53 32.000 E => LOC, data: not a location
a APL 1:192.0.2.0/24 1:192.0.2.0/33 1:192.0.2.0/1 => APL, data: not a prefix: \"1:192.0.2.0/33\"
a NID 10 0014:4fff:ff20 => NID, nodeid: not an address: \"0014:4fff:ff20\"
a IPSECKEY 10 1 2 192.0.2.999 AQNRU3mG => IPSECKEY, gateway: not an address: \"192.0.2.999\"
a IPSECKEY 10 1 0 192.0.2.9 AQNRU3mG => IPSECKEY, public key: items left over: \"AQNRU3mG\"
a AMTRELAY 10 2 1 192.0.2.9 => AMTRELAY, discovery optional: too large: \"2\"
a HIP 2 200100107B1A74DF365639CC39F1D578 AwEA b..c => HIP, rendezvous servers: not a name: a label \
is empty: \"b..c\"
a URI 10 1 target => URI, target: not quoted: \"target\"
a HINFO cpu => HINFO, os: nothing left
a DNSKEY 256 3 RSASHA999 AwEA => DNSKEY, algorithm: not a number: \"RSASHA999\"
a TYPE731 \\# x 0a => TYPE, length: \"x\"
a TYPE731 \\# 2 0a 0 0b => TYPE, data: \"0\"
a TYPE731 \\# 4 0a00 => TYPE, data
a TYPE731 words => TYPE, data: \"words\"
a DS \\# 2 0a 0b 0c => DS, data: \"0c\"
a CH A 192.0.2.1 => A, data: \"192.0.2.1\"
a NOTYPE 1 => : \"NOTYPE\"
a CH HTTPS 1 . => : \"HTTPS\"
a 1x A 192.0.2.1 => : \"1x\"
a 1x CLASS0 A 192.0.2.1 => : \"1x\"
a CLASS0 1x A 192.0.2.1 => : \"CLASS0\"
a \"A\" 192.0.2.1 => : \"A\"
a IN 60 =>\x20
a..b A 192.0.2.1 => : \"a..b\"
 A 192.0.2.256 => A, address: \"192.0.2.256\"
$TTL 1x => : \"1x\"
$ORIGIN a b => : \"b\"
$TTL =>\x20";

/// Entries of more lines than one.
const LONG_STOPS: &str = "\
== a ( ; no
 A 192.0.2.x )=>A, address: \"192.0.2.x\"\
";

#[test]
fn stops(rt: HostRuntime) -> Result<(), Fail> {
    check_lines::<Stop>(rt.alloc(), STOPS)?;
    check_table::<Stop>(rt.alloc(), LONG_STOPS)
}

/// What a line shows of long items and of octets that don't stand for themselves.
#[test]
fn shown_items(rt: HostRuntime) -> Result<(), Fail> {
    let mut out = OctetVec::new(rt.alloc());
    write_item(&mut out, b"a\"b\\\xffc\x1f ~").map_err(|_| "written")?;
    check_octets(
        "escapes",
        &out.finish()?,
        b": \"a\\034b\\092\\255c\\031 ~\"",
    )?;
    let mut out = OctetVec::new(rt.alloc());
    write_item(&mut out, &[b'\n'; 61]).map_err(|_| "written")?;
    let mut expected = Vec::new(rt.alloc());
    expected.extend_from_slice(b": \"")?;
    for _ in 0..60 {
        expected.extend_from_slice(b"\\010")?;
    }
    expected.push(b'"')?;
    check_octets("61 octets", &out.finish()?, &expected)
}
