//! The places of the entries that first state the records of a zone.
use super::include_stacks::{expand, push_place};
use record_places::{place_records, record_lines};
use std::alloc::Global;
use std::test::Fail;
use test_support::{Question, check, check_table, push_text};
use zone_name::CasedName;
use zone_print::push_zone;
use zone_rdata::Stop;

/// The canonical text of the zone of a main file with the files that it includes, each line behind the
/// place of the entry that first states its record.
struct Placed;

impl Question for Placed {
    fn answer(alloc: Global, asked: &'static str, out: &mut Vec<u8>) -> Result<(), Fail> {
        let origin = CasedName::from_text(b"example.", None)?;
        let expanded = expand(alloc, asked, usize::MAX)?;
        let placed = match place_records(alloc, &origin, &expanded.text) {
            Ok(placed) => placed,
            Err(refusal) => return push_stop(out, &refusal.stop),
        };
        let lines = record_lines(alloc, &origin, &expanded.text, &placed.zone)?;
        check(lines == placed.lines, "the lines of the same zone")?;
        let text = push_zone(alloc, &placed.zone)?;
        let mut records = text.split_inclusive(|octet| *octet == b'\n');
        for line in placed.lines.iter() {
            push_place(alloc, out, expanded.stack.place_of(*line))?;
            push_text(out, " ")?;
            let Some(record) = records.next() else {
                return Err(Fail::from("more lines than records"));
            };
            out.extend_from_slice(record)?;
        }
        check(records.next().is_none(), "a line for each record")
    }
}

/// Appends that a text is refused.
fn push_stop(out: &mut Vec<u8>, stop: &Stop) -> Result<(), Fail> {
    match stop {
        Stop::Refused(_, _) => push_text(out, "refused"),
        _ => Err(Fail::from("memory")),
    }
}

/// The places are read off the files by hand. The last lines of the first two cases state records that
/// are stated before; in the third the types are further ones, in presentation format and in the generic
/// form.
const ZONES: &str = "\
== $TTL 1h
@     SOA  ns1 hostmaster 2026113001 2h 30m 2w 1h
      NS   ns1
ns1   A    192.0.2.1
$GENERATE 10-12 host-${-9,2,d} A 192.0.2.$
      TXT  \"of ns1\"
$INCLUDE parts/web.db web
      AAAA 2001:db8::1
$GENERATE 171-172 ${0,5,n}.e A 192.0.2.$
~~parts/web.db
; the web servers
@    A 192.0.2.80
www  CNAME @
$TTL 5m
     ; done
alias CNAME www=>main.zone:2 example. 3600 IN SOA ns1.example. hostmaster.example. 2026113001 7200 1800 1209600 3600
main.zone:3 example. 3600 IN NS ns1.example.
main.zone:9 value 171 b.a.0.e.example. 300 IN A 192.0.2.171
main.zone:9 value 172 c.a.0.e.example. 300 IN A 192.0.2.172
main.zone:5 value 10 host-01.example. 3600 IN A 192.0.2.10
main.zone:5 value 11 host-02.example. 3600 IN A 192.0.2.11
main.zone:5 value 12 host-03.example. 3600 IN A 192.0.2.12
main.zone:4 ns1.example. 3600 IN A 192.0.2.1
main.zone:6 ns1.example. 3600 IN TXT \"of ns1\"
main.zone:8 ns1.example. 300 IN AAAA 2001:db8::1
parts/web.db:2 web.example. 3600 IN A 192.0.2.80
parts/web.db:6 alias.web.example. 300 IN CNAME www.web.example.
parts/web.db:3 www.web.example. 3600 IN CNAME web.example.
== z 60 A 192.0.2.1
; two lines before the SOA record

@ 60 SOA n h (
 1 2 3 4
 5 ) ; the SOA
  ( 60
 NS n )
n 60 A 192.0.2.2
$INCLUDE a
Z 60 A 192.0.2.1
@ 60 SOA N H 1 2 3 4 5
~~a
n 60 A 192.0.2.2
b 60 A 192.0.2.4
$GENERATE 1-3 c 60 A 192.0.2.${0,0,d}
$GENERATE 2-4 c 60 A 192.0.2.$=>main.zone:4 example. 60 IN SOA n.example. h.example. 1 2 3 4 5
main.zone:7 example. 60 IN NS n.example.
a:2 b.example. 60 IN A 192.0.2.4
a:3 value 1 c.example. 60 IN A 192.0.2.1
a:3 value 2 c.example. 60 IN A 192.0.2.2
a:3 value 3 c.example. 60 IN A 192.0.2.3
a:4 value 4 c.example. 60 IN A 192.0.2.4
main.zone:9 n.example. 60 IN A 192.0.2.2
main.zone:1 z.example. 60 IN A 192.0.2.1
== @ 60 SOA n h 1 2 3 4 5
@ 60 NS n
a 60 CAA 0 issue \"ca1.example.net\"
a 60 TYPE257 \\# 22 000569737375656361312e6578616d706c652e6e6574
b 60 TYPE257 \\# 22 000569737375656361312e6578616d706c652e6e6574
  60 CAA 0 issue \"ca1.example.net\"=>main.zone:1 example. 60 IN SOA n.example. h.example. 1 2 3 4 5
main.zone:2 example. 60 IN NS n.example.
main.zone:3 a.example. 60 IN TYPE257 \\# 22 000569737375656361312e6578616d706c652e6e6574
main.zone:5 b.example. 60 IN TYPE257 \\# 22 000569737375656361312e6578616d706c652e6e6574
== @ 60 SOA n h 1 2 3 4 5
@ 60 NS n
a 60 A 192.0.2.256=>refused";

#[test]
fn the_places_of_records(rt: HostRuntime) -> Result<(), Fail> {
    check_table::<Placed>(rt.alloc(), ZONES)
}
