//! The program `zonedigest`: computes the digest of a zone that is given as a master file or as a
//! captured zone transfer, and verifies its ZONEMD records (RFC 8976).
#![tactic(auto)]

use command_line::given_words;
pub use digest_command::{LineFault, Notation, Order, order_of, run};
use digest_command::{order_after_name, refuse};
use std::process::ExitCode;
use std::rt::Env;

fn main(rt: HostRuntime) -> ExitCode {
    ExitCode::from(match ordered(&rt) {
        Ok(order) => run(
            rt.alloc(),
            &order,
            &mut rt.stdin(),
            &mut rt.stdout(),
            &mut rt.stderr(),
        ),
        Err(fault) => refuse(&fault, &mut rt.stderr()),
    })
}

/// The order of the program's words.
fn ordered<R: Env + AllocGlobal>(rt: &R) -> Result<Order, LineFault> {
    order_after_name(rt.alloc(), &given_words(rt)?)
}
