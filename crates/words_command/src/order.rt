ghost use Rattle.std.specs.Prelude.{drop, map, IfOk, IfErr, string_bytes};
ghost use Rattle.command_input.specs.Origin.{IsOfOrigin};
ghost use Rattle.words_command.specs.Order.{IsLineFault, IsOriginText, Orders};

use crate::command::PROGRAM;
use command_input::LineFault;
use command_line::{after_name, call_of};
use std::alloc::Global;
use zone_name::CasedName;

/// What a command line asks for.
#[derive(Debug, Drop)]
pub enum Order {
    /// Write the master file on standard input again, under this origin, with the data of further
    /// types in the generic form (RFC 3597 5).
    Generic(CasedName),
    /// Write the text on standard input again, line by line, with the data of further types in
    /// presentation format instead of the generic form.
    Words,
}

/// The order that the arguments after the program's name give.
///
/// # Errors
///
/// `BadOrigin` if the text of the origin spells no absolute name (RFC 1035 5.1); `Clap` if
/// `clap` gives no matches for a command, help included; `Memory`.
pub fn order_of(alloc: Global, words: &[String]) -> Result<Order, LineFault>
    ensures ordered { IfOk result (Orders (map string_bytes words.now)) }
    ensures refused { IfErr result (IsLineFault (map string_bytes words.now)) }
{
    let call = call_of(alloc, &PROGRAM, words)?;
    match call.command() {
        "generic" => Ok(Order::Generic(origin_of(call.text("ORIGIN"))?)),
        "words" => Ok(Order::Words),
        _ => unreachable!(),
    }
}

/// The order of the program's arguments, the first of which is its name.
///
/// # Errors
///
/// `BadOrigin` if the text of the origin spells no absolute name (RFC 1035 5.1); `Clap` if
/// `clap` gives no matches for a command, help included; `Memory`.
pub fn order_after_name(alloc: Global, words: &[String]) -> Result<Order, LineFault>
    ensures ordered { IfOk result (Orders (drop 1 (map string_bytes words.now))) }
    ensures refused { IfErr result (IsLineFault (drop 1 (map string_bytes words.now))) }
{
    order_of(alloc, after_name(words))
}

/// The origin that a text gives, with its letters as they are.
///
/// # Errors
///
/// `BadOrigin`.
fn origin_of(text: &str) -> Result<CasedName, LineFault>
    ensures ordered { IfOk result (IsOriginText text.now) }
    ensures refused { IfErr result (IsOfOrigin IsOriginText text.now) }
{
    match CasedName::from_text(text.as_bytes(), None) {
        Ok(origin) => Ok(origin),
        Err(_) => Err(LineFault::BadOrigin),
    }
}
