//! Zones of master files with further types in presentation format, whole, fed in pieces and read.
use std::alloc::Global;
use std::test::Fail;
use test_support::{Question, Supply, check, check_octets, check_table, push_text, push_words};
use zone_engine::{FileLoader, Verdict, explain_line};
use zone_files::{
    PresentationLoader, PresentationRefusal, SourceForm, accepted_source, compare_sources,
    normalise_presentation, normalise_source,
};
use zone_name::{CasedName, Name};
use zone_print::push_zone;
use zone_rdata::Stop;

/// The canonical text of the zone of a file under the origin `x.`, or why it is refused. It is the
/// same where the file is fed in two pieces, cut at any octet, and where it is read octet by octet.
struct Normalised;

/// Appends why a file is refused, and the entry at fault where its items state no data.
fn push_refusal(
    alloc: Global,
    out: &mut Vec<u8>,
    refusal: PresentationRefusal,
) -> Result<(), Fail> {
    if matches!(refusal.stop, Stop::Memory) {
        return Err(Fail::from("memory"));
    }
    push_text(out, explain_line(alloc, &refusal.stop)?.as_str())?;
    if let Some(entry) = refusal.entry {
        push_words(alloc, out, format_args!("\n{entry}"))?;
    }
    push_text(out, "\n")
}

/// That a file which is fed in two pieces becomes this.
fn check_pieces(
    alloc: Global,
    origin: &CasedName,
    (front, back): (&[u8], &[u8]),
    whole: &[u8],
) -> Result<(), Fail> {
    let mut loader = PresentationLoader::new(alloc, origin);
    loader.feed(front)?;
    loader.feed(back)?;
    let len = front.len().saturating_add(back.len()) as u64;
    check(loader.fed() == len, "the octets of both pieces")?;
    let mut loaded = Vec::new(alloc);
    match loader.finish() {
        Ok(zone) => loaded.extend_from_slice(&push_zone(alloc, &zone)?)?,
        Err(refusal) => push_refusal(alloc, &mut loaded, refusal)?,
    }
    check_octets("a file in two pieces", &loaded, whole)
}

/// That a canonical text which is fed in two pieces becomes itself.
fn check_canonical(alloc: Global, (front, back): (&[u8], &[u8]), text: &[u8]) -> Result<(), Fail> {
    let mut loader = FileLoader::new(alloc, &Name::root());
    loader.feed(front)?;
    loader.feed(back)?;
    check(!loader.is_refused(), "no refusal is decided")?;
    check(
        loader.fed() == text.len() as u64,
        "the octets of both pieces",
    )?;
    let zone = loader.finish()?;
    check_octets(
        "a canonical text in two pieces",
        &push_zone(alloc, &zone)?,
        text,
    )
}

/// That a file which is read octet by octet becomes this.
fn check_reading(alloc: Global, origin: &CasedName, file: &[u8], whole: &[u8]) -> Result<(), Fail> {
    let mut supply = Supply::singly(file, None);
    let mut read = Vec::new(alloc);
    match accepted_source(alloc, SourceForm::File(origin), &mut supply) {
        Ok(zone) => read.extend_from_slice(&push_zone(alloc, &zone)?)?,
        Err(refusal) => push_refusal(alloc, &mut read, refusal)?,
    }
    check_octets("a file that is read", &read, whole)
}

impl Question for Normalised {
    fn answer(alloc: Global, asked: &'static str, out: &mut Vec<u8>) -> Result<(), Fail> {
        let origin = CasedName::from_text(b"x.", None)?;
        let file = asked.as_bytes();
        let mut whole = Vec::new(alloc);
        match normalise_presentation(alloc, &origin, file) {
            Ok(text) => {
                for first in 0..text.len() {
                    check_canonical(alloc, text.split_at(first), &text)?;
                }
                whole.extend_from_slice(&text)?;
            }
            Err(refusal) => push_refusal(alloc, &mut whole, refusal)?,
        }
        for first in 0..file.len() {
            check_pieces(alloc, &origin, file.split_at(first), &whole)?;
        }
        check_reading(alloc, &origin, file, &whole)?;
        Ok(out.extend_from_slice(&whole)?)
    }
}

/// Files and their canonical texts: `== ` stands before each file, `=>` after it. The generic forms
/// of the data are those that BIND 9.18 writes; that of CAA is RFC 8659's example.
const FILES: &str = "\
== $TTL 60
@ SOA ns h 1 2 3 4 5
@ NS ns
ns A 192.0.2.1
@ CAA 0 issue \"ca1.example.net\"
_443._tcp TLSA 0 0 1 d2abde240d7cd3ee6b4b28c54df034b97983a1d16e8a410e4561cb106618e971
=>x. 60 IN SOA ns.x. h.x. 1 2 3 4 5
x. 60 IN NS ns.x.
x. 60 IN TYPE257 \\# 22 000569737375656361312e6578616d706c652e6e6574
_443._tcp.x. 60 IN TYPE52 \\# 35 000001d2abde240d7cd3ee6b4b28c54df034b97983a1d16e8a410e4561cb106618e971
ns.x. 60 IN A 192.0.2.1
== $TTL 60
@ SOA ns h 1 2 3 4 5
@ DNSKEY 256 3 5 ( AQ
 ==)
=>x. 60 IN SOA ns.x. h.x. 1 2 3 4 5
x. 60 IN TYPE48 \\# 5 0100030501
== $TTL 60
@ SOA ns h 1 2 3 4 5
a TLSA 1 1
=>F9 BadRdata at line 3: the data doesn't fit its type
line 3: TLSA, matching type: nothing left
== a A 192.0.2.1
=>F20 NoTtl at line 1: the record has no TTL
";

#[test]
fn files_in_presentation_format(rt: HostRuntime) -> Result<(), Fail> {
    check_table::<Normalised>(rt.alloc(), FILES)
}

/// A zone in presentation format, the same zone with its data in the generic form (RFC 8659 4.1.1),
/// and its canonical text.
const ZONE: &str = "@ 60 SOA ns h 1 2 3 4 5\n@ 60 CAA 0 issue \"ca1.example.net\"\n";

const GENERIC: &str = "\
@ 60 SOA ns h 1 2 3 4 5
@ 60 TYPE257 \\# 22 000569737375656361312e6578616d706c652e6e6574
";

const TEXT: &str = "\
x. 60 IN SOA ns.x. h.x. 1 2 3 4 5
x. 60 IN TYPE257 \\# 22 000569737375656361312e6578616d706c652e6e6574
";

#[test]
fn sources_that_are_read(rt: HostRuntime) -> Result<(), Fail> {
    let alloc = rt.alloc();
    let origin = CasedName::from_text(b"x.", None)?;
    let form = SourceForm::File(&origin);
    let mut written = Vec::new(alloc);
    let mut supply = Supply::at_once(ZONE.as_bytes(), None);
    let Ok(count) = normalise_source(alloc, form, &mut supply, &mut written) else {
        return Err(Fail::from("the zone is refused"));
    };
    check(count == 2, "two records")?;
    check_octets("the canonical text", &written, TEXT.as_bytes())?;
    let mut supply = Supply::singly(ZONE.as_bytes(), None);
    let mut other = Supply::at_once(GENERIC.as_bytes(), None);
    let Ok(verdict) = compare_sources(alloc, form, &mut supply, form, &mut other) else {
        return Err(Fail::from("a zone is refused"));
    };
    check(verdict == Verdict::Same, "one zone")
}
