//! Readers and writers that fail, and writers that take little at a time.
use crate::tests::orders::ordered;
use crate::tests::runs::check_broken;
use crate::tests::zones::{reading_of, taken};
use std::alloc::{AllocError, Global};
use std::io::{ErrorKind, Read, Write};
use std::test::Fail;
use test_support::{
    BROKEN, Case, Narrow, Supply, check_octets, check_rows, check_same, had_memory, roomy, rooted,
};
use zone_command::{Order, run};
use zone_engine::{read_piece, zeros};
use zone_print::write_zone;
use zone_rdata::Stop;

const FILE: &[u8] = b"$TTL 1h\n@ SOA N h 1 2 3 4 5\n  NS n\n";

const TEXT: &[u8] = b"x. 3600 IN SOA n.x. h.x. 1 2 3 4 5\nx. 3600 IN NS n.x.\n";

/// The status of a run that normalises the input under `x.`.
fn run_first<R: Read, W: Write>(
    alloc: Global,
    reader: &mut R,
    writer: &mut W,
    errors: &mut Vec<u8>,
) -> Result<u8, Fail> {
    let order = Order::Normalise(Some(rooted(b"x.")?));
    let mut second = Supply::at_once(b"", BROKEN);
    Ok(run(alloc, &order, reader, &mut second, writer, errors))
}

/// What a reader gives before its error, and that error.
struct Broken(&'static [u8], ErrorKind);

impl Case for Broken {
    fn check(&self, alloc: Global) -> Result<(), Fail> {
        let mut reader = Supply::at_once(self.0, Some(self.1));
        check_broken(alloc, &Some(rooted(b"x.")?), &mut reader)
    }
}

static BROKEN_READERS: &[Broken] = &[
    Broken(b"$TTL 1h\n@ ", ErrorKind::Other),
    Broken(b"$TTL 1h\n@ ", ErrorKind::Interrupted),
    Broken(
        b"@ 60 SOA n h 1 2 3 4 5\na 300 A 10.0.0.1\na 600 A 10.0.0.2\n",
        ErrorKind::Other,
    ),
    Broken(b"x. 60 IN N", ErrorKind::Other),
    Broken(b"x. 60 IN N", ErrorKind::Interrupted),
    Broken(b"x. 60 IN NS n.x.\nx. 61 IN NS m.x.\n", ErrorKind::Other),
];

#[test]
fn a_failing_reader_is_told(rt: HostRuntime) -> Result<(), Fail> {
    check_rows(rt.alloc(), BROKEN_READERS)
}

#[test]
fn pieces_are_read(rt: HostRuntime) -> Result<(), Fail> {
    let mut piece = zeros(rt.alloc(), 4)?;
    check_octets("room for a piece", &piece, b"\0\0\0\0")?;
    let mut reader = Supply::at_once(b"abcdef", None);
    check_octets("a piece", read_piece(&mut reader, &mut piece)?, b"abcd")?;
    check_octets("a rest", read_piece(&mut reader, &mut piece)?, b"ef")?;
    check_octets("the end", read_piece(&mut reader, &mut piece)?, b"")
}

/// How many octets a writer takes a call and in all, whether it answers an error then, and what it
/// has taken of the text.
struct Narrowed(usize, usize, bool, &'static [u8]);

impl Narrowed {
    fn writer(&self, alloc: Global) -> Result<Narrow, AllocError> {
        Narrow::new(alloc, self.0, self.1, self.2)
    }

    fn is_whole(&self) -> bool {
        self.3 == TEXT
    }

    /// That `write_zone` answers as it should.
    fn check_written(&self, alloc: Global) -> Result<(), Fail> {
        let zone = taken(alloc, reading_of(alloc, FILE)?)?;
        let mut writer = self.writer(alloc)?;
        self.check_answer(write_zone(alloc, &zone, &mut writer))?;
        check_octets("what is written of a zone", writer.taken(), self.3)
    }

    /// That `write_zone` should answer so.
    fn check_answer(&self, answer: Result<(), Stop>) -> Result<(), Fail> {
        let answer = match answer {
            Ok(()) => "whole",
            Err(Stop::Write) => "write failed",
            Err(Stop::Memory) => return Err(Fail::from("memory")),
            Err(_) => "another stop",
        };
        let wanted = if self.is_whole() {
            "whole"
        } else {
            "write failed"
        };
        check_same("the answer of write_zone", answer, wanted)
    }

    /// The status of a run, and the line that it tells.
    fn ending(&self) -> (u8, &'static [u8]) {
        if self.is_whole() {
            (0, b"")
        } else {
            (4, b"write failed\n")
        }
    }

    /// That `run` answers as it should.
    fn check_run(&self, alloc: Global) -> Result<(), Fail> {
        let (mut reader, mut writer, mut errors) = (FILE, self.writer(alloc)?, roomy(alloc)?);
        let status = run_first(alloc, &mut reader, &mut writer, &mut errors)?;
        had_memory(&errors)?;
        let (ending, told) = self.ending();
        check_same("the status", status, ending)?;
        check_octets("the line that is told", &errors, told)?;
        check_octets("what a run writes", writer.taken(), self.3)
    }
}

impl Case for Narrowed {
    fn check(&self, alloc: Global) -> Result<(), Fail> {
        self.check_written(alloc)?;
        self.check_run(alloc)
    }
}

static NARROWED: &[Narrowed] = &[
    Narrowed(1, 100, true, TEXT),
    Narrowed(1, usize::MAX, true, TEXT),
    Narrowed(1, 0, false, b""),
    Narrowed(usize::MAX, 0, false, b""),
    Narrowed(7, 20, true, b"x. 3600 IN SOA n.x. "),
    Narrowed(usize::MAX, 20, true, b"x. 3600 IN SOA n.x. "),
];

#[test]
fn a_narrow_writer_has_a_front(rt: HostRuntime) -> Result<(), Fail> {
    check_rows(rt.alloc(), NARROWED)
}

/// The words of a command over inputs of the origin `x.`, what each input gives, and the status and
/// the line where nothing can be written on standard output; none where nothing can be written on
/// standard error.
struct Mute(&'static str, &'static [u8], u8, Option<&'static [u8]>);

impl Mute {
    /// The status of a run whose other writer takes everything.
    fn status(&self, alloc: Global, order: &Order, open: &mut Vec<u8>, mute: &mut Narrow) -> u8 {
        let (mut first, mut second) = (self.1, self.1);
        match self.3 {
            Some(_) => run(alloc, order, &mut first, &mut second, mute, open),
            None => run(alloc, order, &mut first, &mut second, open, mute),
        }
    }
}

impl Case for Mute {
    fn check(&self, alloc: Global) -> Result<(), Fail> {
        let order = ordered(alloc, self.0)?;
        let mut open = roomy(alloc)?;
        let mut mute = Narrow::new(alloc, usize::MAX, 0, true)?;
        let status = self.status(alloc, &order, &mut open, &mut mute);
        had_memory(&open)?;
        check_same(self.0, status, self.2)?;
        check_octets(self.0, mute.taken(), b"")?;
        check_octets(self.0, &open, self.3.unwrap_or(b""))
    }
}

static MUTE: &[Mute] = &[
    Mute("normalise x.", FILE, 4, Some(b"write failed\n")),
    Mute("explain x.", FILE, 4, Some(b"write failed\n")),
    Mute("compare x. p x. q", FILE, 4, Some(b"write failed\n")),
    Mute("normalise x.", b"", 4, None),
    Mute("compare x. p x. q", b"", 4, None),
];

#[test]
fn what_cannot_be_told_fails(rt: HostRuntime) -> Result<(), Fail> {
    check_rows(rt.alloc(), MUTE)
}
