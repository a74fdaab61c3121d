//! Runs of `zonedigest`: zones that are verified or digested, from the words of the command line to
//! the exit status. The digests are those of RFC 8976, appendix A, and for a zone that has nothing
//! but its SOA of a second program.
//!
//! A row has a name, the words after the program's name, and the input: its first line says what it
//! is, a section of the appendix, whose zone has the changes after it, `transfer`, a stream in
//! notation, or a file and what the reader does at its end, `whole` or `broken`. The answer is the
//! exit status, what is written on standard output, and after `--` what is written on standard error.
use crate::tests::rfc_8976::zone_of;
use digest_command::{LineFault, Notation, Order, order_after_name, order_of, refuse, run};
use std::alloc::Global;
use std::io::{Read, Write};
use std::test::Fail;
use test_support::{
    Program, Question, check_lines, check_narrow, check_octets, check_table, parted, push_run_of,
    push_text, push_words, roomy, stream_of, supplied, words_of,
};
use zone_digest::Algorithm;
use zone_name::Name;

/// The program.
struct Zonedigest;

impl Program for Zonedigest {
    fn run<R: Read, W: Write>(
        alloc: Global,
        words: &[String],
        input: &mut R,
        output: &mut W,
        told: &mut Vec<u8>,
    ) -> u8 {
        match order_of(alloc, words) {
            Ok(order) => run(alloc, &order, input, output, told),
            Err(fault) => refuse(&fault, told),
        }
    }
}

/// What a run does.
struct Digesting;

impl Question for Digesting {
    fn answer(alloc: Global, asked: &'static str, out: &mut Vec<u8>) -> Result<(), Fail> {
        let (_, rest) = parted(asked, "\n")?;
        let (line, input) = parted(rest, "\n")?;
        match parted(input, "\n")? {
            ("whole" | "broken", _) => {
                push_run_of::<Zonedigest>(alloc, out, line, supplied(input)?)
            }
            ("transfer", lines) => {
                let stream = stream_of(alloc, lines)?;
                push_run_of::<Zonedigest>(alloc, out, line, (&stream, None))
            }
            (section, changes) => {
                let file = zone_of(alloc, section, changes)?;
                push_run_of::<Zonedigest>(alloc, out, line, (file.as_bytes(), None))
            }
        }
    }
}

/// Zones that are verified and digested, and inputs that are refused.
const ZONES: &str = "\
== zone_of_a_1
verify example.
A.1
=> 0
verified: serial 2018031900, SIMPLE, SHA-384
--
== zone_of_a_1_changed
verify example.
A.1
cb00713f to cb00703f
=> 1
not verified: ZONEMD 2018031900 1 1: the digest differs
--
== transfer_of_a_1
verify transfer
transfer
header 1 8400 1 4 0 0; question example. AXFR IN; \
@12 86400 IN SOA ns1@12 admin@12 2018031900 1800 900 604800 86400; @12 86400 IN NS ns1@12; \
@12 86400 IN NS ns2@12; @12 86400 IN TYPE63 #7848b91c0101c68090d90a7aed716bc459f9340e3d7c1370d4d2\
4b7e2fc3a1ddc0b9a87153b9a9713b3c9ae5cc27777f98b8e730044c
header 1 8400 0 3 0 0; ns1.example. 3600 IN A #cb00713f; \
ns2@16 3600 IN TYPE28 #20010db8000000000000000000000063; \
@16 86400 IN SOA ns1@16 admin@16 2018031900 1800 900 604800 86400
=> 0
verified: serial 2018031900, SIMPLE, SHA-384
--
== transfer_without_a_record
verify transfer
transfer
header 1 8400 1 3 0 0; QUESTION; OPENING; SERVER; CLOSING
=> 1
not verified: no ZONEMD record at the apex
--
== transfer_cut_off
verify transfer
transfer
header 1 8400 1 2 0 0; QUESTION; OPENING; SERVER
=> 3
--
F38 NoClosingSoa at message 2 offset 0: the transfer has no closing SOA
== first_verified_of_a_3
verify example.
A.3
=> 0
verified: serial 2018031900, SIMPLE, SHA-384
--
== second_verified_of_a_3
verify example.
A.3
62e6cf51b0 to 63e6cf51b0
=> 0
verified: serial 2018031900, SIMPLE, SHA-512
--
== each_record_of_a_3_changed
verify example.
A.3
cb00713f to cb00703f
=> 1
not verified: ZONEMD 2018031900 1 1: the digest differs
not verified: ZONEMD 2018031900 1 2: the digest differs
not verified: ZONEMD 2018031900 1 240: hash algorithm 240 isn't supported
not verified: ZONEMD 2018031900 241 1: scheme 241 isn't supported
--
== no_record
verify x.
whole
x. 60 IN SOA n.x. h.x. 1 2 3 4 5
=> 1
not verified: no ZONEMD record at the apex
--
== record_below_the_apex
verify x.
whole
x. 60 IN SOA n.x. h.x. 1 2 3 4 5
a.x. 60 IN TYPE63 \\# 18 000000010101000000000000000000000000
=> 1
not verified: no ZONEMD record at the apex
--
== serial_of_another_zone
verify x.
whole
x. 60 IN SOA n.x. h.x. 1 2 3 4 5
x. 60 IN TYPE63 \\# 54 000000020101965841cb8633bf69e3e7218820478ee487dae11891215c706ebbc8c06b5abf\
d5e3287f03f83e18e26a293ba0a41bfbef
=> 1
not verified: ZONEMD 2 1 1: the serial isn't 1
--
== greatest_serial
verify x.
whole
x. 60 IN SOA n.x. h.x. 1 2 3 4 5
x. 60 IN TYPE63 \\# 54 ffffffff0101965841cb8633bf69e3e7218820478ee487dae11891215c706ebbc8c06b5abf\
d5e3287f03f83e18e26a293ba0a41bfbef
=> 1
not verified: ZONEMD 4294967295 1 1: the serial isn't 1
--
== malformed
verify x.
whole
x. 60 IN SOA n.x. h.x. 1 2 3 4 5
x. 60 IN TYPE63 \\# 17 000000010101965841cb8633bf69e3e721
=> 1
not verified: ZONEMD 1 1 1: the data is malformed
--
== shorter_than_its_fields
verify x.
whole
x. 60 IN SOA n.x. h.x. 1 2 3 4 5
x. 60 IN TYPE63 \\# 0
x. 60 IN TYPE63 \\# 3 000000
x. 60 IN TYPE63 \\# 5 0000000101
=> 1
not verified: ZONEMD \\# 0: the data is malformed
not verified: ZONEMD \\# 3 000000: the data is malformed
not verified: ZONEMD \\# 5 0000000101: the data is malformed
--
== one_pair_twice
verify x.
whole
x. 60 IN SOA n.x. h.x. 1 2 3 4 5
x. 60 IN TYPE63 \\# 54 000000010101965841cb8633bf69e3e7218820478ee487dae11891215c706ebbc8c06b5abf\
d5e3287f03f83e18e26a293ba0a41bfbef
x. 60 IN TYPE63 \\# 54 000000010101965841cb8633bf69e3e7218820478ee487dae11891215c706ebbc8c06b5abf\
d5e3287f03f83e18e26a293ba0a41bfbee
=> 1
not verified: ZONEMD 1 1 1: another record has the same scheme and hash algorithm
not verified: ZONEMD 1 1 1: another record has the same scheme and hash algorithm
--
== verified_beside_malformed
verify x.
whole
x. 60 IN SOA n.x. h.x. 1 2 3 4 5
x. 60 IN TYPE63 \\# 54 000000010101965841cb8633bf69e3e7218820478ee487dae11891215c706ebbc8c06b5abf\
d5e3287f03f83e18e26a293ba0a41bfbef
x. 60 IN TYPE63 \\# 5 0000000101
=> 0
verified: serial 1, SIMPLE, SHA-384
--
== digest_of_a_1
digest example.
A.1
=> 0
example. 86400 IN ZONEMD 2018031900 1 1 c68090d90a7aed716bc459f9340e3d7c1370d4d24b7e2fc3a1ddc\
0b9a87153b9a9713b3c9ae5cc27777f98b8e730044c
--
== digest_of_a_1_generic
digest example. --generic
A.1
=> 0
example. 86400 IN TYPE63 \\# 54 7848b91c0101c68090d90a7aed716bc459f9340e3d7c1370d4d24b7e2fc3a1ddc\
0b9a87153b9a9713b3c9ae5cc27777f98b8e730044c
--
== sha_512_of_a_3
digest --sha512 example.
A.3
=> 0
example. 86400 IN ZONEMD 2018031900 1 2 08cfa1115c7b948c4163a901270395ea226a930cd2cbcf2fa9a5e\
6eb85f37c8a4e114d884e66f176eab121cb02db7d652e0cc4827e7a3204f166b47e5613fd27
--
== sha_512_of_a_3_generic
digest example. --generic --sha512
A.3
=> 0
example. 86400 IN TYPE63 \\# 70 7848b91c010208cfa1115c7b948c4163a901270395ea226a930cd2cbcf2fa9a5e\
6eb85f37c8a4e114d884e66f176eab121cb02db7d652e0cc4827e7a3204f166b47e5613fd27
--
== ttl_of_the_soa
digest x.
whole
x. 60 IN SOA n.x. h.x. 1 2 3 4 5
=> 0
x. 60 IN ZONEMD 1 1 1 965841cb8633bf69e3e7218820478ee487dae11891215c706ebbc8c06b5abf\
d5e3287f03f83e18e26a293ba0a41bfbef
--
== ttl_of_the_records_that_are_there
digest x.
whole
x. 60 IN SOA n.x. h.x. 1 2 3 4 5
x. 70 IN TYPE63 \\# 18 000000010201414141414141414141414141
=> 0
x. 70 IN ZONEMD 1 1 1 965841cb8633bf69e3e7218820478ee487dae11891215c706ebbc8c06b5abf\
d5e3287f03f83e18e26a293ba0a41bfbef
--
== class_of_the_soa
digest x.
whole
x. 60 CH SOA n.x. h.x. 1 2 3 4 5
=> 0
x. 60 CH ZONEMD 1 1 1 c0195b04938fbdf4765ff1173789de8fc25b9fc9b5dfb555e853c897f03c64016f0b2cc5787db464323848ef25ae07de
--
== record_of_another_zone
verify example.
A.1
+ foo.test. 555 IN TXT a
=> 3
--
F43 OutOfZone foo.test. in the input: an owner lies outside the zone
== refused_by_digest
digest x.
whole
x. 60 IN NS n.x.
=> 3
--
F42 NoSoa in the input: the zone has no SOA record
== reader_fails
verify x.
broken
x. 60 IN SOA n.x. h.x. 1 2 3 4 5
=> 4
--
read failed
== undotted_origin
verify x
whole
x. 60 IN SOA n.x. h.x. 1 2 3 4 5
=> 2
--
F46 BadOrigin: an origin is an absolute name or the word transfer
";

#[test]
fn zones_are_verified_and_digested(rt: HostRuntime) -> Result<(), Fail> {
    check_table::<Digesting>(rt.alloc(), ZONES)
}

/// Appends a word and the origin of an input, which a transfer has none of.
fn push_input(out: &mut Vec<u8>, word: &str, origin: &Option<Name>) -> Result<(), Fail> {
    push_text(out, word)?;
    match origin {
        Some(name) => Ok(name.push_text(out)?),
        None => push_text(out, "transfer"),
    }
}

/// Appends an order.
fn push_order(out: &mut Vec<u8>, order: &Order) -> Result<(), Fail> {
    match order {
        Order::Verify(origin) => push_input(out, "verify ", origin),
        Order::Digest(origin, algorithm, notation) => {
            push_input(out, "digest ", origin)?;
            push_text(
                out,
                match algorithm {
                    Algorithm::Sha384 => " by SHA-384",
                    Algorithm::Sha512 => " by SHA-512",
                },
            )?;
            push_text(
                out,
                match notation {
                    Notation::Words => " in words",
                    Notation::Generic => " in the generic form",
                },
            )
        }
    }
}

/// What a line gives: an order, or the status and the text of its fault. What `clap` tells is any
/// text.
struct Given;

impl Question for Given {
    fn answer(alloc: Global, asked: &'static str, out: &mut Vec<u8>) -> Result<(), Fail> {
        match order_of(alloc, &words_of(alloc, asked)?) {
            Ok(order) => push_order(out, &order),
            Err(LineFault::Memory) => Err(Fail::from("memory")),
            Err(LineFault::Clap(text)) if !text.is_empty() => push_text(out, "clap"),
            Err(fault) => {
                let mut told = roomy(alloc)?;
                let status = refuse(&fault, &mut told);
                push_words(alloc, out, format_args!("{status} "))?;
                Ok(out.extend_from_slice(told.strip_suffix(b"\n").ok_or("no line")?)?)
            }
        }
    }
}

/// The words after the program's name, and what they give.
const LINES: &str = "\
verify X. => verify x.
verify transfer => verify transfer
digest . => digest . by SHA-384 in words
digest --sha512 X. => digest x. by SHA-512 in words
digest X. --generic => digest x. by SHA-384 in the generic form
digest --generic transfer --sha512 => digest transfer by SHA-512 in the generic form
verify x => 2 F46 BadOrigin: an origin is an absolute name or the word transfer
digest @ => 2 F46 BadOrigin: an origin is an absolute name or the word transfer
 => clap
verify => clap
digest --sha512 => clap
verify --sha512 x. => clap
digest x. --sha384 => clap
digest x. --generic --generic => clap
digest x. y. => clap
normalise x. => clap
--help => clap
--version => clap
";

#[test]
fn command_lines_of_digests(rt: HostRuntime) -> Result<(), Fail> {
    check_lines::<Given>(rt.alloc(), LINES)
}

#[test]
fn the_name_of_zonedigest_is_passed_over(rt: HostRuntime) -> Result<(), Fail> {
    let words = words_of(rt.alloc(), "zonedigest verify X.")?;
    let order = match order_after_name(rt.alloc(), &words) {
        Err(LineFault::Memory) => return Err(Fail::from("memory")),
        answer => answer?,
    };
    let mut told = roomy(rt.alloc())?;
    push_order(&mut told, &order)?;
    check_octets("the order", &told, b"verify x.")
}

#[test]
fn a_failing_writer_of_verdicts_is_told(rt: HostRuntime) -> Result<(), Fail> {
    check_narrow::<Zonedigest>(
        rt.alloc(),
        "verify x.",
        b"@ 60 SOA n h 1 2 3 4 5\n",
        b"not verified: no ZONEMD record at the apex\n",
    )
}
