//! What two zones differ in, record by record (RFC 1995 4).
use crate::tests::zones::{reading_of, taken};
use std::alloc::Global;
use std::test::Fail;
use test_support::{Question, check_table, parted};
use zone_difference::{NameCase, write_difference};
use zone_set::Zone;

/// The zone of a file under the origin `x.`.
fn zone_of(alloc: Global, file: &str) -> Result<Zone, Fail> {
    taken(alloc, reading_of(alloc, file.as_bytes())?).map_err(|_| Fail::from("a zone"))
}

/// Appends the changes from the first of two zones to the second.
fn push_changes(
    alloc: Global,
    asked: &'static str,
    case: NameCase,
    out: &mut Vec<u8>,
) -> Result<(), Fail> {
    let (first, second) = parted(asked, "--\n")?;
    let (zone, other) = (zone_of(alloc, first)?, zone_of(alloc, second)?);
    let differ = write_difference(alloc, &zone, &other, case, out).map_err(|_| Fail::from(
        "a difference",
    ))?;
    if differ == out.is_empty() {
        return Err(Fail::from("whether they differ"));
    }
    Ok(())
}

/// The changes from the first of two zones to the second.
struct Difference;

impl Question for Difference {
    fn answer(alloc: Global, asked: &'static str, out: &mut Vec<u8>) -> Result<(), Fail> {
        push_changes(alloc, asked, NameCase::Exact, out)
    }
}

/// The same without regard to case of names in data.
struct FoldedDifference;

impl Question for FoldedDifference {
    fn answer(alloc: Global, asked: &'static str, out: &mut Vec<u8>) -> Result<(), Fail> {
        push_changes(alloc, asked, NameCase::Folded, out)
    }
}

/// Pairs of files: `== ` stands before the first, `--` before the second and `=>` after it. What is
/// wanted is what GNU `diff` says of their canonical texts, sorted by owner and type, then `-` before
/// `+`, then by data.
const PAIRS: &str = "\
== @ 60 SOA . . 1 2 3 4 5
@ 60 NS a
a 60 A 192.0.2.1
--
@ 60 SOA . . 1 2 3 4 5
a 60 A 192.0.2.1
@ 60 NS A
=>== @ 60 SOA . . 1 2 3 4 5
a 60 A 192.0.2.1
a 60 A 192.0.2.2
b 60 TXT b
--
@ 60 SOA . . 2 2 3 4 5
a 60 A 192.0.2.2
a 60 A 192.0.2.3
b 61 TXT b
c 60 NS .
=>- x. 60 IN SOA . . 1 2 3 4 5
+ x. 60 IN SOA . . 2 2 3 4 5
- a.x. 60 IN A 192.0.2.1
+ a.x. 60 IN A 192.0.2.3
- b.x. 60 IN TXT \"b\"
+ b.x. 61 IN TXT \"b\"
+ c.x. 60 IN NS .
== @ 60 SOA . . 1 2 3 4 5
z 60 A 192.0.2.1
--
@ 60 SOA . . 1 2 3 4 5
=>- z.x. 60 IN A 192.0.2.1
== @ 60 SOA . . 1 2 3 4 5
a 60 A 192.0.2.1
a 60 A 192.0.2.3
a 60 A 192.0.2.5
a 60 AAAA 2001:db8::2
b.a 60 A 192.0.2.9
--
@ 60 SOA . . 1 2 3 4 5
a 60 A 192.0.2.2
a 60 A 192.0.2.3
a 60 A 192.0.2.4
a 60 AAAA 2001:db8::1
c.a 60 A 192.0.2.9
=>- a.x. 60 IN A 192.0.2.1
- a.x. 60 IN A 192.0.2.5
+ a.x. 60 IN A 192.0.2.2
+ a.x. 60 IN A 192.0.2.4
- a.x. 60 IN AAAA 2001:db8::2
+ a.x. 60 IN AAAA 2001:db8::1
- b.a.x. 60 IN A 192.0.2.9
+ c.a.x. 60 IN A 192.0.2.9
== @ 60 SOA . . 1 2 3 4 5
a 60 TXT a
a 60 TXT b
--
@ 60 SOA . . 1 2 3 4 5
a 61 TXT a
a 61 TXT b
=>- a.x. 60 IN TXT \"a\"
- a.x. 60 IN TXT \"b\"
+ a.x. 61 IN TXT \"a\"
+ a.x. 61 IN TXT \"b\"
== @ 60 SOA . . 1 2 3 4 5
a 60 TXT a
c 60 TXT c
--
@ 60 CH SOA . . 1 2 3 4 5
a 60 CH TXT a
b 60 CH TXT b
=>- x. 60 IN SOA . . 1 2 3 4 5
+ x. 60 CH SOA . . 1 2 3 4 5
- a.x. 60 IN TXT \"a\"
+ a.x. 60 CH TXT \"a\"
+ b.x. 60 CH TXT \"b\"
- c.x. 60 IN TXT \"c\"
";

#[test]
fn differences_of_zones(rt: HostRuntime) -> Result<(), Fail> {
    check_table::<Difference>(rt.alloc(), PAIRS)
}

/// Pairs of files, compared without regard to case of names in data. What is wanted is what GNU `diff`
/// says of their canonical texts after the names in data of both were put in lower case, with the
/// letters that the zone has.
const FOLDED_PAIRS: &str = "\
== @ 60 SOA . . 1 2 3 4 5
d 60 TYPE39 \\# 3 014100
t 60 TXT a
--
@ 60 SOA . . 1 2 3 4 5
d 60 TYPE39 \\# 3 016100
t 60 TXT A
=>- t.x. 60 IN TXT \"a\"
+ t.x. 60 IN TXT \"A\"
== @ 60 SOA . . 1 2 3 4 5
k 60 TYPE36 \\# 5 000a014100
k 60 TYPE36 \\# 5 000a014200
k 60 TYPE36 \\# 5 000a016300
--
@ 60 SOA . . 1 2 3 4 5
k 60 TYPE36 \\# 5 000a014300
k 60 TYPE36 \\# 5 000a016100
k 60 TYPE36 \\# 5 000a014400
=>- k.x. 60 IN TYPE36 \\# 5 000a014200
+ k.x. 60 IN TYPE36 \\# 5 000a014400
== @ 60 SOA . . 1 2 3 4 5
s 60 TYPE64 \\# 5 0001014100
--
@ 60 SOA . . 1 2 3 4 5
s 61 TYPE64 \\# 5 0001016100
=>- s.x. 60 IN TYPE64 \\# 5 0001014100
+ s.x. 61 IN TYPE64 \\# 5 0001016100
== @ 60 SOA . . 1 2 3 4 5
s 60 TYPE64 \\# 5 0001014100
s 60 TYPE64 \\# 5 0001016100
t 60 TYPE64 \\# 5 0001014100
--
@ 60 SOA . . 1 2 3 4 5
t 60 TYPE64 \\# 4 00010141
=>- s.x. 60 IN TYPE64 \\# 5 0001014100
- s.x. 60 IN TYPE64 \\# 5 0001016100
- t.x. 60 IN TYPE64 \\# 5 0001014100
+ t.x. 60 IN TYPE64 \\# 4 00010141
";

#[test]
fn differences_without_regard_to_case(rt: HostRuntime) -> Result<(), Fail> {
    check_table::<FoldedDifference>(rt.alloc(), FOLDED_PAIRS)
}
