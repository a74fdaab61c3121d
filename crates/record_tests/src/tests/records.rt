//! Records, and a source of them.
use crate::tests::items::data_of;
use std::alloc::Global;
use std::test::Fail;
use test_support::{Case, check, check_rows, check_same, rooted};
use zone_name::Name;
use zone_rdata::{
    Cause, Fault, LendingSource, NarrowFailing, PendingRecords, Place, Placed, Rr, RrRef, RrSource,
    Stop,
};
use zone_text::read_file;

/// A TTL, and the fault of a record that has it, if it may not.
struct Ttl(u32, Option<&'static str>);

/// The octets of `b.`.
const SERVER: &[u8] = b"\x01b\x00";

/// Whether the record is `example. ttl IN NS b.`.
fn is_server(rr: Rr, ttl: u32) -> bool {
    let has_words = rr.ttl() == ttl && rr.class().number() == 1 && rr.kind().number() == 2;
    let has_data = rr.owner().wire() == b"\x07example\x00".as_slice()
        && rr.rdata().octets() == SERVER;
    let (owner, seconds, rdata) = rr.into_parts();
    has_words
        && has_data
        && owner.wire() == b"\x07example\x00".as_slice()
        && seconds == ttl
        && rdata.octets() == SERVER
}

impl Case for Ttl {
    fn check(&self, alloc: Global) -> Result<(), Fail> {
        let owner = rooted(b"example.")?;
        let data = data_of(alloc, "x.", "IN NS b.")??;
        match Rr::new(owner, self.0, data) {
            Ok(rr) => {
                let copy = rr.lend().to_rr(alloc)?;
                check(is_server(rr, self.0), "the record is that of its parts")?;
                check(is_server(copy, self.0), "a copy of it is the same")?;
                check_same(self.0, None, self.1)
            }
            Err(fault) => check_same(self.0, Some(fault.name()), self.1),
        }
    }
}

static TTLS: &[Ttl] = &[Ttl(2147483647, None), Ttl(2147483648, Some("BadTtl"))];

#[test]
fn records_of_31_bits(rt: HostRuntime) -> Result<(), Fail> {
    check_rows(rt.alloc(), TTLS)
}

/// Whether this is refused for its TTL at line 4.
fn is_bad_ttl(answer: Result<Option<Placed>, Stop>) -> bool {
    matches!(answer, Err(Stop::Refused(Fault::BadTtl, Place::Line(4))))
}

#[test]
fn a_reading_gives_its_fault_again(rt: HostRuntime) -> Result<(), Fail> {
    let mut reading = read_file(rt.alloc(), &Name::root(), b"example. 1 IN NS b.\n")?;
    reading.ending = Some((Fault::BadTtl, Place::Line(4)));
    check(reading.next()?.is_some(), "the record is given first")?;
    let is_refused = is_bad_ttl(reading.next());
    check(
        is_refused && is_bad_ttl(reading.next()),
        "the fault is given twice",
    )
}

/// A record that is lent: its owner's octets, its TTL, its data's octets and its line.
#[derive(Drop)]
struct Lent(&'static [u8], u32, &'static [u8], u64);

impl Lent {
    /// Whether a source lends this record first.
    fn is_first<S: LendingSource>(&self, source: &S) -> bool {
        match source.first() {
            Some(lent) => {
                lent.rr.owner.wire() == self.0
                    && lent.rr.ttl == self.1
                    && lent.rr.rdata.octets() == self.2
                    && lent.place == Place::Line(self.3)
            }
            None => false,
        }
    }
}

static LENT: &[Lent] = &[
    Lent(b"\x01a\x00", 1, SERVER, 1),
    Lent(b"\x01c\x00", 2, b"\x01d\x00", 2),
];

#[test]
fn a_reading_lends_its_records(rt: HostRuntime) -> Result<(), Fail> {
    let file = b"a. 1 IN NS b.\nc. 2 IN NS d.\n";
    let mut reading = read_file(rt.alloc(), &Name::root(), file)?;
    for lent in LENT {
        check(lent.is_first(&reading), "a record is lent")?;
        reading.skip();
    }
    let is_empty = reading.first().is_none();
    check(
        is_empty && reading.next()?.is_none(),
        "nothing is left after them",
    )
}

/// A queue with the servers of `example.` of the TTLs 1 to 4, and the fault of a TTL after them.
fn queue_of_four(alloc: Global) -> Result<PendingRecords, Fail> {
    let owner = rooted(b"example.")?;
    let mut pending = PendingRecords::new(alloc);
    for ttl in 1..5 {
        let data = data_of(alloc, "x.", "IN NS b.")??;
        let rr = RrRef::of_parts(owner.lend(), ttl, data.lend());
        pending.placed.push(&rr, Place::Line(3))?;
    }
    pending.refuse(NarrowFailing::of(Cause::BadTtl), Place::Line(4))?;
    Ok(pending)
}

/// The strings `ab` and `c`.
const STRINGS: &[u8] = b"\x02ab\x01c";

/// Appends a record of these strings.
fn push_strings(alloc: Global, pending: &mut PendingRecords) -> Result<(), Fail> {
    let owner = rooted(b"b.")?;
    let mut data = data_of(alloc, "x.", "IN TXT ab c")??;
    pending
        .placed
        .push_exchanged(owner.lend(), 5, &mut data, Place::Line(5))?;
    Ok(())
}

/// Whether this is the server of `example.` with this TTL.
fn is_given(placed: Option<Placed>, ttl: u32) -> bool {
    match placed {
        Some(placed) => placed.place == Place::Line(3) && is_server(placed.rr, ttl),
        None => false,
    }
}

#[test]
fn a_queue_gives_what_was_put_in(rt: HostRuntime) -> Result<(), Fail> {
    let mut pending = queue_of_four(rt.alloc())?;
    let first = Lent(b"\x07example\x00", 1, SERVER, 3);
    check(first.is_first(&pending), "the first record is lent")?;
    pending.skip();
    push_strings(rt.alloc(), &mut pending)?;
    check(
        is_given(pending.placed.pop(), 2),
        "the second record is given",
    )?;
    check(is_given(pending.next()?, 3), "the third record is given")?;
    let mut rest = pending.into_reading();
    check(is_given(rest.next()?, 4), "the fourth record is given")?;
    let last = Lent(SERVER, 5, STRINGS, 5);
    check(last.is_first(&rest), "the last record is lent")?;
    rest.skip();
    check(is_bad_ttl(rest.next()), "the fault is given after them")
}

/// The owner of a server with a TTL, in words and its octets.
fn owner_of(ttl: u16) -> (&'static [u8], &'static [u8]) {
    if ttl % 2 == 0 {
        (b"b.", SERVER)
    } else {
        (b"example.", b"\x07example\x00")
    }
}

/// Appends a server with a TTL.
fn push_server(alloc: Global, pending: &mut PendingRecords, ttl: u16) -> Result<(), Fail> {
    let (owner, _) = owner_of(ttl);
    let data = data_of(alloc, "x.", "IN NS b.")??;
    let owner = rooted(owner)?;
    let rr = RrRef::of_parts(owner.lend(), u32::from(ttl), data.lend());
    pending.placed.push(&rr, Place::Line(3))?;
    Ok(())
}

/// Whether the server with a TTL is the first.
fn is_first_server(pending: &PendingRecords, ttl: u16) -> bool {
    let (_, owner) = owner_of(ttl);
    Lent(owner, u32::from(ttl), SERVER, 3).is_first(pending)
}

#[test]
fn a_queue_that_is_never_empty_keeps_its_order(rt: HostRuntime) -> Result<(), Fail> {
    let mut pending = PendingRecords::new(rt.alloc());
    push_server(rt.alloc(), &mut pending, 1)?;
    for ttl in 2..9 {
        push_server(rt.alloc(), &mut pending, ttl)?;
        check(
            is_first_server(&pending, ttl - 1),
            "the record before is lent",
        )?;
        pending.skip();
    }
    check(is_first_server(&pending, 8), "the last record is lent")?;
    pending.skip();
    check(pending.first().is_none(), "nothing is left")
}
