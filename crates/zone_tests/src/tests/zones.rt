//! Records that make a zone, its records in order and its text (RFC 1035 5.2, RFC 2181 5, RFC 4034
//! 6).
use crate::tests::push_stop;
use std::alloc::Global;
use std::test::Fail;
use test_support::{
    Question, check, check_octets, check_table, push_hex, push_text, push_words, rooted,
};
use zone_print::{canon_len, push_zone, text_fits, write_zone};
use zone_rdata::{Fault, Place, Placed, Reading, Stop};
use zone_set::{Zone, ZoneBuilder, ZoneList, message_len};
use zone_text::read_file;

/// The records of a file under the origin `x.`.
pub(super) fn reading_of(alloc: Global, file: &[u8]) -> Result<Reading, Fail> {
    let origin = rooted(b"x.")?;
    Ok(read_file(alloc, &origin, file)?)
}

/// The zone of records that are added one by one.
fn added(alloc: Global, reading: Reading) -> Result<Zone, Stop> {
    let mut builder = ZoneBuilder::new(alloc);
    for placed in reading.placed {
        builder.add(placed).map_err(|(stop, _)| stop)?;
    }
    builder.finish()
}

/// The zone of the records of a source.
pub(super) fn taken(alloc: Global, mut reading: Reading) -> Result<Zone, Stop> {
    let mut builder = ZoneBuilder::new(alloc);
    builder.take_all(&mut reading)?;
    builder.finish()
}

/// The zone of the records that a source lends, or the first refusal among them.
fn lent(alloc: Global, mut reading: Reading) -> Result<Zone, Stop> {
    let mut list = ZoneList::new(alloc);
    let taken = list.take_lent(&mut reading);
    let builder = list.settle()?;
    taken?;
    builder.finish()
}

/// Appends class and apex of a zone, how many records it has, the octets that they take in
/// messages, and the length of its text.
fn push_head(alloc: Global, out: &mut Vec<u8>, zone: &Zone) -> Result<(), Fail> {
    let class = zone.class().number();
    push_words(alloc, out, format_args!("\nclass {class}, apex "))?;
    push_hex(alloc, out, zone.apex().wire())?;
    let (count, octets, length) = (zone.len(), zone.message_len(), canon_len(zone));
    push_words(
        alloc,
        out,
        format_args!(", records {count} in {octets} octets, text of {length}\n"),
    )
}

/// Appends type, TTL and data of each record of a zone.
fn push_records(alloc: Global, out: &mut Vec<u8>, zone: &Zone) -> Result<(), Fail> {
    let mut octets = 0u64;
    for rr in zone.records() {
        let (kind, ttl) = (rr.kind.number(), rr.ttl);
        push_words(alloc, out, format_args!("TYPE{kind} {ttl} "))?;
        push_hex(alloc, out, rr.rdata.octets())?;
        push_text(out, "\n")?;
        octets = octets.saturating_add(message_len(&rr));
    }
    check(octets == zone.message_len(), "each record takes its octets")
}

/// Appends the text of a zone, which is written as it is appended.
fn push_zone_text(alloc: Global, out: &mut Vec<u8>, zone: &Zone) -> Result<(), Fail> {
    let text = push_zone(alloc, zone)?;
    check(text_fits(zone), "the text fits")?;
    let before = out.len();
    write_zone(alloc, zone, out)?;
    let written = out.get(before..).unwrap_or(b"");
    check_octets("the text is written as it is appended", written, &text)
}

/// Appends a zone, or what explains its refusal.
fn push_made(alloc: Global, out: &mut Vec<u8>, made: Result<Zone, Stop>) -> Result<(), Fail> {
    match made {
        Ok(zone) => {
            push_head(alloc, out, &zone)?;
            push_records(alloc, out, &zone)?;
            push_zone_text(alloc, out, &zone)
        }
        Err(stop) => {
            push_text(out, " ")?;
            push_stop(alloc, out, &stop)?;
            push_text(out, "\n")
        }
    }
}

/// That what is made of records that come another way is appended as before.
fn check_made(alloc: Global, told: &[u8], made: Result<Zone, Stop>, way: &str) -> Result<(), Fail> {
    let mut again = Vec::new(alloc);
    push_made(alloc, &mut again, made)?;
    check_octets(way, &again, told)
}

/// The zone of a file's records, the same if they are added one by one, taken or lent.
struct OfFile;

impl Question for OfFile {
    fn answer(alloc: Global, asked: &'static str, out: &mut Vec<u8>) -> Result<(), Fail> {
        let file = asked.as_bytes();
        push_made(alloc, out, added(alloc, reading_of(alloc, file)?))?;
        let made = taken(alloc, reading_of(alloc, file)?);
        check_made(alloc, out, made, "records that are taken make the same")?;
        let made = lent(alloc, reading_of(alloc, file)?);
        check_made(alloc, out, made, "records that are lent make the same")
    }
}

/// Files under the origin `x.`, and their zones. A record takes 13 octets in a message besides the
/// data, with an owner of three (RFC 1035 3.2.1).
const ZONED: &str = "\
== x. 3600 IN NS n.x.
x. 3600 IN SOA n.x. h.x. 1 2 3 4 5
=>
class 1, apex #017800, records 2 in 61 octets, text of 54
TYPE6 3600 #016e01780001680178000000000100000002000000030000000400000005
TYPE2 3600 #016e017800
x. 3600 IN SOA n.x. h.x. 1 2 3 4 5
x. 3600 IN NS n.x.
== x. 3600 IN SOA n.x. h.x. 1 2 3 4 5
x. 3600 IN NS n.x.
x. 3600 IN NS n.x.
=>
class 1, apex #017800, records 2 in 61 octets, text of 54
TYPE6 3600 #016e01780001680178000000000100000002000000030000000400000005
TYPE2 3600 #016e017800
x. 3600 IN SOA n.x. h.x. 1 2 3 4 5
x. 3600 IN NS n.x.
== x. 3600 IN SOA n.x. h.x. 1 2 3 4 5
x. 3600 IN NS n.x.
x. 60 IN NS m.x.
=> F41 DifferingTtl at line 3
== x. 3600 IN SOA n.x. h.x. 1 2 3 4 5
x. 3600 IN NS n.x.
x. 60 IN NS m.x.
x. 60 CH NS n.x.
=> F41 DifferingTtl at line 3
== x. 3600 IN SOA n.x. h.x. 1 2 3 4 5
x. 3600 IN NS n.x.
x. 60 CH NS n.x.
x. 60 IN NS m.x.
=> F39 ClassMismatch at line 3
== x. 3600 IN SOA n.x. h.x. 1 2 3 4 5
x. 3600 IN NS n.x.
x. 3600 IN SOA n.x. h.x. 1 2 3 4 6
x. 60 IN NS m.x.
=> F40 MultipleSoa at line 3
== x. 3600 IN SOA n.x. h.x. 1 2 3 4 5
x. 60 IN SOA n.x. h.x. 1 2 3 4 5
=> F41 DifferingTtl at line 2
== x. 3600 IN SOA n.x. h.x. 1 2 3 4 5
b.y. 60 IN NS n.x.
y. 60 IN NS n.x.
=> F43 OutOfZone y. in the input
== m.x. 60 IN NS n.x.
z.x. 60 IN NS n.x.
c.a.x. 60 IN NS n.x.
y.z.x. 60 IN NS n.x.
a.x. 60 IN NS n.x.
b.m.x. 60 IN NS n.x.
c.a.x. 60 IN NS n.x.
x. 60 IN SOA n.x. h.x. 1 2 3 4 5
=>
class 1, apex #017800, records 7 in 169 octets, text of 153
TYPE6 60 #016e01780001680178000000000100000002000000030000000400000005
TYPE2 60 #016e017800
TYPE2 60 #016e017800
TYPE2 60 #016e017800
TYPE2 60 #016e017800
TYPE2 60 #016e017800
TYPE2 60 #016e017800
x. 60 IN SOA n.x. h.x. 1 2 3 4 5
a.x. 60 IN NS n.x.
c.a.x. 60 IN NS n.x.
m.x. 60 IN NS n.x.
b.m.x. 60 IN NS n.x.
z.x. 60 IN NS n.x.
y.z.x. 60 IN NS n.x.
== => F42 NoSoa in the input
";

#[test]
fn zones_of_files(rt: HostRuntime) -> Result<(), Fail> {
    check_table::<OfFile>(rt.alloc(), ZONED)
}

/// Whether this is `x. 60 IN NS m.x.`.
fn is_of_m(placed: Placed) -> bool {
    let (owner, ttl, rdata) = placed.rr.into_parts();
    owner.wire() == b"\x01x\x00".as_slice()
        && ttl == 60
        && rdata.octets() == b"\x01m\x01x\x00".as_slice()
}

/// Whether the builder refuses this record for its TTL and gives it back.
fn comes_back(builder: &mut ZoneBuilder, placed: Placed) -> bool {
    match builder.add(placed) {
        Ok(()) => false,
        Err((Stop::Refused(Fault::DifferingTtl, Place::Line(3)), back)) => is_of_m(back),
        Err(_) => false,
    }
}

#[test]
fn a_refused_record_comes_back(rt: HostRuntime) -> Result<(), Fail> {
    let file = b"x. 3600 IN SOA n.x. h.x. 1 2 3 4 5\nx. 3600 IN NS n.x.\nx. 60 IN NS m.x.\n";
    let mut reading = reading_of(rt.alloc(), file)?;
    let last = reading.placed.pop_back().ok_or("no record")?;
    let mut builder = ZoneBuilder::new(rt.alloc());
    builder.take_all(&mut reading)?;
    check(comes_back(&mut builder, last), "the record comes back")?;
    check(builder.finish()?.len() == 2, "the others stay")
}

/// Whether the records of a zone in any order are two, of which one is an SOA.
fn are_two(zone: &Zone) -> bool {
    let mut records = zone.unordered_records();
    let (Some(first), Some(second)) = (records.next(), records.next()) else {
        return false;
    };
    first.kind.is_soa() != second.kind.is_soa() && records.next().is_none()
}

#[test]
fn records_in_any_order(rt: HostRuntime) -> Result<(), Fail> {
    let file = b"x. 3600 IN NS n.x.\nx. 3600 IN SOA n.x. h.x. 1 2 3 4 5\n";
    let zone = lent(rt.alloc(), reading_of(rt.alloc(), file)?)?;
    check(are_two(&zone), "of records that were listed")?;
    let zone = taken(rt.alloc(), reading_of(rt.alloc(), file)?)?;
    check(are_two(&zone), "of records that were added")
}
