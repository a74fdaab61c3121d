ghost use Rattle.std.specs.Prelude.{drop, map, IfOk, IfErr, string_bytes};
ghost use Rattle.zone_command.specs.Order.{IsLineFault, Orders};

use crate::command::PROGRAM;
use command_input::{LineFault, origin_of};
use command_line::{after_name, call_of};
use std::alloc::Global;
use zone_name::Name;

/// One input of a comparison.
#[derive(Debug, Drop)]
pub struct Source {
    /// The origin of a master file, none of a transfer.
    pub origin: Option<Name>,
    /// The file that has the input.
    pub path: String,
}

/// What a command line asks for. An origin is that of a master file, and a transfer has none.
#[derive(Debug, Drop)]
pub enum Order {
    /// Write the canonical text of the input on standard input.
    Normalise(Option<Name>),
    /// Print how many records the zone on standard input has, or why it is refused.
    Explain(Option<Name>),
    /// Print whether two inputs denote one zone, or at which line their canonical texts differ.
    Compare(Source, Source),
}

/// The order that the arguments after the program's name give. The origins are judged from the left.
///
/// # Errors
///
/// `BadOrigin` if the text of an origin is neither an absolute name nor `transfer`; `Clap` if
/// `clap` gives no matches for one of the commands, help included; `Memory`.
pub fn order_of(alloc: Global, words: &[String]) -> Result<Order, LineFault>
    ensures ordered { IfOk result (Orders (map string_bytes words.now)) }
    ensures refused { IfErr result (IsLineFault (map string_bytes words.now)) }
{
    let call = call_of(alloc, &PROGRAM, words)?;
    match call.command() {
        "normalise" => Ok(Order::Normalise(origin_of(call.text("ORIGIN"))?)),
        "explain" => Ok(Order::Explain(origin_of(call.text("ORIGIN"))?)),
        "compare" => {
            let first = origin_of(call.text("ORIGIN1"))?;
            let second = origin_of(call.text("ORIGIN2"))?;
            Ok(Order::Compare(
                Source {
                    origin: first,
                    path: String::from_str(alloc, call.text("PATH1"))?,
                },
                Source {
                    origin: second,
                    path: String::from_str(alloc, call.text("PATH2"))?,
                },
            ))
        }
        _ => unreachable!(),
    }
}

/// The order of the program's arguments, the first of which is its name.
///
/// # Errors
///
/// `BadOrigin` if the text of an origin is neither an absolute name nor `transfer`; `Clap` if
/// `clap` gives no matches for one of the commands, help included; `Memory`.
pub fn order_after_name(alloc: Global, words: &[String]) -> Result<Order, LineFault>
    ensures ordered { IfOk result (Orders (drop 1 (map string_bytes words.now))) }
    ensures refused { IfErr result (IsLineFault (drop 1 (map string_bytes words.now))) }
{
    order_of(alloc, after_name(words))
}
