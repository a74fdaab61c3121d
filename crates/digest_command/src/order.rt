ghost use Rattle.std.specs.Prelude.{◌≡◌, drop, map, IfOk, IfErr, string_bytes};
ghost use Rattle.digest_command.specs.Order.{IsLineFault, Orders, algorithm_for, notation_for};

use crate::command::PROGRAM;
use crate::notation::Notation;
use command_input::{LineFault, origin_of};
use command_line::{after_name, call_of};
use std::alloc::Global;
use zone_digest::Algorithm;
use zone_name::Name;

/// What a command line asks for. An origin is that of a master file, and a transfer has none.
#[derive(Debug, Drop)]
pub enum Order {
    /// Verify the zone on standard input, and print why it isn't verified.
    Verify(Option<Name>),
    /// Write the ZONEMD record of the zone on standard input, by this hash algorithm and in
    /// this notation.
    Digest(Option<Name>, Algorithm, Notation),
}

/// The order that the arguments after the program's name give.
///
/// # Errors
///
/// `BadOrigin` if the text of the origin is neither an absolute name nor `transfer`; `Clap` if
/// `clap` gives no matches for one of the commands, help included; `Memory`.
pub fn order_of(alloc: Global, words: &[String]) -> Result<Order, LineFault>
    ensures ordered { IfOk result (Orders (map string_bytes words.now)) }
    ensures refused { IfErr result (IsLineFault (map string_bytes words.now)) }
{
    let call = call_of(alloc, &PROGRAM, words)?;
    match call.command() {
        "verify" => Ok(Order::Verify(origin_of(call.text("ORIGIN"))?)),
        "digest" => {
            let origin = origin_of(call.text("ORIGIN"))?;
            let algorithm = algorithm_of(call.flag("sha512"));
            Ok(Order::Digest(origin, algorithm, notation_of(call.flag("generic"))))
        }
        _ => unreachable!(),
    }
}

/// The order of the program's arguments, the first of which is its name.
///
/// # Errors
///
/// `BadOrigin` if the text of the origin is neither an absolute name nor `transfer`; `Clap` if
/// `clap` gives no matches for one of the commands, help included; `Memory`.
pub fn order_after_name(alloc: Global, words: &[String]) -> Result<Order, LineFault>
    ensures ordered { IfOk result (Orders (drop 1 (map string_bytes words.now))) }
    ensures refused { IfErr result (IsLineFault (drop 1 (map string_bytes words.now))) }
{
    order_of(alloc, after_name(words))
}

/// The hash algorithm that is asked for with the flag `--sha512`, or without it.
fn algorithm_of(sha512: bool) -> Algorithm
    ensures { result ≡ algorithm_for sha512 }
{
    match sha512 {
        true => Algorithm::Sha512,
        false => Algorithm::Sha384,
    }
}

/// The notation that is asked for with the flag `--generic`, or without it.
fn notation_of(generic: bool) -> Notation
    ensures { result ≡ notation_for generic }
{
    match generic {
        true => Notation::Generic,
        false => Notation::Words,
    }
}
