//! The program `zonewords`: writes a master file again with the data of further types in the
//! generic form, as `zonenorm` reads it (RFC 1035 5, RFC 3597 5), and shows what `zonenorm` writes
//! in words.
#![tactic(auto)]

use command_line::given_words;
use std::process::ExitCode;
use std::rt::Env;
pub use words_command::{LineFault, Order, order_of, run};
use words_command::{order_after_name, refuse};

fn main(rt: HostRuntime) -> ExitCode {
    ExitCode::from(match ordered(&rt) {
        Ok(order) => run(
            rt.alloc(),
            &order,
            &mut rt.stdin(),
            &mut rt.stdout(),
            &mut rt.stderr(),
        ),
        Err(fault) => refuse(&fault, &mut rt.stderr()),
    })
}

/// The order of the program's words.
fn ordered<R: Env + AllocGlobal>(rt: &R) -> Result<Order, LineFault> {
    order_after_name(rt.alloc(), &given_words(rt)?)
}
