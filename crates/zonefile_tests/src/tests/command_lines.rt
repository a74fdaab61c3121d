//! Orders that command lines of `zonefile` give, and what is printed of those that give none.
use std::alloc::Global;
use std::test::Fail;
use test_support::{
    Question, check_lines, check_octets, check_same, had_memory, push_text, push_words, roomy,
    words_of,
};
use zone_difference::NameCase;
use zonefile_command::{Action, NoOrder, Notation, Order, order_after_name, order_of, refuse};

/// What a command line gives: an order, or the status and the first line of what is printed.
struct Given;

impl Question for Given {
    fn answer(alloc: Global, asked: &'static str, out: &mut Vec<u8>) -> Result<(), Fail> {
        match order_of(alloc, &words_of(alloc, asked)?) {
            Ok(order) => push_order(alloc, out, &order),
            Err(no_order) => {
                let (mut shown, mut told) = (roomy(alloc)?, roomy(alloc)?);
                let status = refuse(&no_order, &mut shown, &mut told);
                had_memory(&told)?;
                let (name, octets) = match told.is_empty() {
                    true => ("shown", &shown),
                    false => ("told", &told),
                };
                let text = str::from_utf8(octets).map_err(|_| Fail::from("no text"))?;
                let (line, _) = text.split_once('\n').unwrap_or((text, ""));
                push_words(alloc, out, format_args!("{name} {status} {line}"))
            }
        }
    }
}

/// Appends an order.
fn push_order(alloc: Global, out: &mut Vec<u8>, order: &Order) -> Result<(), Fail> {
    if let Some(directory) = &order.directory {
        push_text(out, directory.as_str())?;
        push_text(out, ": ")?;
    }
    match &order.action {
        Action::Normalise(source, notation) => {
            if let Notation::Presentation = notation {
                push_text(out, "in presentation format: ")?;
            }
            push_text(out, source.file.as_str())
        }
        Action::Explain(source) => match &source.origin {
            Some(origin) => Ok(out.extend_from_slice(origin.wire())?),
            None => push_text(out, "transfer"),
        },
        Action::Compare(first, second) => {
            push_text(out, first.file.as_str())?;
            push_text(out, " and ")?;
            push_text(out, second.file.as_str())
        }
        Action::Difference(first, second, form) => {
            if let NameCase::Exact = form.name_case {
                push_text(out, "exactly: ")?;
            }
            if let Notation::Generic = form.notation {
                push_text(out, "in the generic form: ")?;
            }
            push_text(out, first.file.as_str())?;
            push_text(out, " to ")?;
            push_text(out, second.file.as_str())
        }
        Action::Check(origin, file, most) => {
            out.extend_from_slice(origin.wire())?;
            push_words(alloc, out, format_args!("{}, {most} faults", file.as_str()))
        }
        Action::Expand(origin, file) => {
            out.extend_from_slice(origin.wire())?;
            push_text(out, file.as_str())
        }
    }
}

/// The arguments after the program's name, and what they give: the octets of an origin, as RFC 1035
/// 3.1 has them.
const LINES: &str = "\
explain X. f => \x01X\0
explain X f => \x01X\0
explain . f => \0
explain transfer f => transfer
explain transfer. f => \x08transfer\0
explain \\-a f => \x02-a\0
explain -- -a f => \x02-a\0
normalise x - => -
normalise x f --directory d => d: f
normalise --words x f => in presentation format: f
normalise x f --words --directory d => d: in presentation format: f
explain --words x f => told 2 error: unexpected argument '--words' found
normalise --directory=d x f => d: f
compare x. a transfer b => a and b
compare x. a y. b --directory d => d: a and b
diff x. a transfer b => a to b
diff --exact x. a y b --directory d => d: exactly: a to b
diff x a y b --generic => in the generic form: a to b
diff x a y b --generic --exact => exactly: in the generic form: a to b
diff x a y => told 2 error: the following required arguments were not provided:
diff x a y b --words => told 2 error: unexpected argument '--words' found
diff a. f b..c g => told 2 F46 BadOrigin: an origin is an absolute name or the word transfer
check x f => \x01x\0f, 20 faults
check x f --most 1 => \x01x\0f, 1 faults
check x f --most=0004294967295 --directory d => d: \x01x\0f, 4294967295 faults
check x f --most 0 => told 2 error: --most needs a number from 1 to 4294967295
check x f --most 4294967296 => told 2 error: --most needs a number from 1 to 4294967295
check x f --most ten => told 2 error: --most needs a number from 1 to 4294967295
check transfer f => told 2 F46 BadOrigin: an origin is an absolute name or the word transfer
expand x f => \x01x\0f
expand transfer f => told 2 F46 BadOrigin: an origin is an absolute name or the word transfer
explain @ f => told 2 F46 BadOrigin: an origin is an absolute name or the word transfer
explain a..b f => told 2 F46 BadOrigin: an origin is an absolute name or the word transfer
compare a. f b..c g => told 2 F46 BadOrigin: an origin is an absolute name or the word transfer
explain x. => told 2 error: the following required arguments were not provided:
explain x. f g => told 2 error: unexpected argument 'g' found
words x. f => told 2 error: unrecognized subcommand 'words'
 => told 2 Reads master files as operators keep them: with $INCLUDE, $GENERATE and 72 types
--help => shown 0 Reads master files as operators keep them: with $INCLUDE, $GENERATE and 72 types
explain --help => shown 0 Reports how many records the zone has, or why and where it is refused
diff --help => shown 0 Writes the records by which two zones differ: - of the first, + of the second
help expand => shown 0 Writes one master file of the file and those that it includes, each $GENERATE in its place
--version => shown 0 zonefile 0.1.0, canonical text 1
";

#[test]
fn command_lines(rt: HostRuntime) -> Result<(), Fail> {
    check_lines::<Given>(rt.alloc(), LINES)
}

/// The program's name is no argument of its command line.
#[test]
fn the_name_of_the_program_is_passed_over(rt: HostRuntime) -> Result<(), Fail> {
    let words = words_of(rt.alloc(), "zonefile explain Example file")?;
    let Ok(order) = order_after_name(rt.alloc(), &words) else {
        return Err(Fail::from("no order"));
    };
    match &order.action {
        Action::Explain(source) => check_octets("the file", source.file.as_bytes(), b"file"),
        _ => Err(Fail::from("no order to explain")),
    }
}

/// Refused memory before there is an order.
#[test]
fn refused_memory_is_reported(rt: HostRuntime) -> Result<(), Fail> {
    let (mut shown, mut told) = (roomy(rt.alloc())?, roomy(rt.alloc())?);
    let memory = NoOrder::from(std::alloc::AllocError);
    check_same("the status", refuse(&memory, &mut shown, &mut told), 4)?;
    check_octets("the line", &told, b"out of memory\n")
}
