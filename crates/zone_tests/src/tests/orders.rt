//! Command lines.
use std::alloc::Global;
use std::test::Fail;
use test_support::{
    Question, check_lines, check_octets, check_same, push_text, push_words, roomy, words_of,
};
use zone_command::{LineFault, Order, order_after_name, order_of, refuse};
use zone_name::Name;

/// The order that a line gives.
pub(super) fn ordered(alloc: Global, line: &str) -> Result<Order, Fail> {
    match order_of(alloc, &words_of(alloc, line)?) {
        Ok(order) => Ok(order),
        Err(LineFault::Memory) => Err(Fail::from("memory")),
        Err(_) => Err(Fail::from("no order")),
    }
}

/// Appends a word, the origin of an input, which a transfer has none of, and a path.
fn push_input(
    out: &mut Vec<u8>,
    word: &str,
    origin: &Option<Name>,
    path: &str,
) -> Result<(), Fail> {
    push_text(out, word)?;
    match origin {
        Some(name) => name.push_text(out)?,
        None => push_text(out, "transfer")?,
    }
    push_text(out, path)
}

/// Appends an order as its line may be written, but for the blank before a path.
fn push_order(out: &mut Vec<u8>, order: &Order) -> Result<(), Fail> {
    match order {
        Order::Normalise(origin) => push_input(out, "normalise ", origin, ""),
        Order::Explain(origin) => push_input(out, "explain ", origin, ""),
        Order::Compare(first, second) => {
            push_input(out, "compare ", &first.origin, first.path.as_str())?;
            push_input(out, " ", &second.origin, second.path.as_str())
        }
    }
}

/// Appends the status and the line of a fault. What `clap` tells is any text.
fn push_refusal(alloc: Global, out: &mut Vec<u8>, fault: &LineFault) -> Result<(), Fail> {
    let mut told = roomy(alloc)?;
    let status = refuse(fault, &mut told);
    push_words(alloc, out, format_args!("{status} "))?;
    match fault {
        LineFault::Clap(text) if !text.is_empty() => push_text(out, "clap"),
        _ => Ok(out.extend_from_slice(told.strip_suffix(b"\n").ok_or("no line")?)?),
    }
}

/// What a line gives: an order, or the status and the text of its fault.
struct Given;

impl Question for Given {
    fn answer(alloc: Global, asked: &'static str, out: &mut Vec<u8>) -> Result<(), Fail> {
        match order_of(alloc, &words_of(alloc, asked)?) {
            Ok(order) => push_order(out, &order),
            Err(LineFault::Memory) => Err(Fail::from("memory")),
            Err(fault) => push_refusal(alloc, out, &fault),
        }
    }
}

/// The words after the program's name, and what they give.
const LINES: &str = "\
normalise X. => normalise x.
normalise . => normalise .
normalise transfer. => normalise transfer.
normalise \\-a. => normalise -a.
normalise transfer => normalise transfer
explain . => explain .
explain transfer => explain transfer
compare X. p transfer q => compare x.p transferq
compare transfer q X. p => compare transferq x.p
normalise x => 2 F46 BadOrigin: an origin is an absolute name or the word transfer
normalise @ => 2 F46 BadOrigin: an origin is an absolute name or the word transfer
normalise a.. => 2 F46 BadOrigin: an origin is an absolute name or the word transfer
normalise Transfer => 2 F46 BadOrigin: an origin is an absolute name or the word transfer
normalise \\@ => 2 F46 BadOrigin: an origin is an absolute name or the word transfer
normalise  => 2 F46 BadOrigin: an origin is an absolute name or the word transfer
explain @ => 2 F46 BadOrigin: an origin is an absolute name or the word transfer
compare x p y. q => 2 F46 BadOrigin: an origin is an absolute name or the word transfer
compare x. p y q => 2 F46 BadOrigin: an origin is an absolute name or the word transfer
compare x p a.. q => 2 F46 BadOrigin: an origin is an absolute name or the word transfer
compare a.. p y q => 2 F46 BadOrigin: an origin is an absolute name or the word transfer
 => 2 clap
sort x. => 2 clap
normalise => 2 clap
normalise x. y. => 2 clap
compare x. p y. => 2 clap
compare x p y. => 2 clap
--help => 2 clap
normalise -a. => 2 clap
";

#[test]
fn command_lines(rt: HostRuntime) -> Result<(), Fail> {
    check_lines::<Given>(rt.alloc(), LINES)
}

#[test]
fn the_name_of_the_program_is_passed_over(rt: HostRuntime) -> Result<(), Fail> {
    let words = words_of(rt.alloc(), "zonenorm normalise X.")?;
    let order = match order_after_name(rt.alloc(), &words) {
        Err(LineFault::Memory) => return Err(Fail::from("memory")),
        answer => answer?,
    };
    let mut told = roomy(rt.alloc())?;
    push_order(&mut told, &order)?;
    check_octets("the order", &told, b"normalise x.")
}

#[test]
fn a_bad_origin_is_told(rt: HostRuntime) -> Result<(), Fail> {
    let mut told = roomy(rt.alloc())?;
    let status = refuse(&LineFault::BadOrigin, &mut told);
    check_same("the status", status, 2)?;
    let wanted = b"F46 BadOrigin: an origin is an absolute name or the word transfer\n";
    check_octets("the line", &told, wanted)
}

#[test]
fn a_fault_gives_its_text_and_status(rt: HostRuntime) -> Result<(), Fail> {
    let fault = LineFault::BadOrigin;
    let wanted = b"F46 BadOrigin: an origin is an absolute name or the word transfer";
    check_octets("the text of a bad origin", fault.text().as_bytes(), wanted)?;
    check_same("its status", fault.status(), 2)?;
    let fault = LineFault::Clap(String::from_str(rt.alloc(), "usage")?);
    check_octets("the text of clap", fault.text().as_bytes(), b"usage")?;
    check_same("its status", fault.status(), 2)?;
    let fault = LineFault::Memory;
    check_octets(
        "the text of memory",
        fault.text().as_bytes(),
        b"out of memory",
    )?;
    check_same("its status", fault.status(), 4)
}
