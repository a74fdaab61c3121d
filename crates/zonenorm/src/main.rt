//! The program `zonenorm`: normalises, compares and explains zones that are given as master files
//! or as captured zone transfers.
#![tactic(auto)]

mod opened;

use command_line::given_words;
use opened::inputs;
use std::process::ExitCode;
use std::rt::Env;
pub use zone_command::{LineFault, Order, Source, order_of, run};
use zone_command::{order_after_name, refuse};
pub use zone_engine::{
    CompareError, Form, OctetReader, Verdict, Which, compare, examples, explain, explain_line,
    laws, normalise, normalise_bytes,
};

fn main(rt: HostRuntime) -> ExitCode {
    ExitCode::from(match ordered(&rt) {
        Ok(order) => {
            let (mut first, mut second) = inputs(&rt, rt.stdin(), &order);
            run(
                rt.alloc(),
                &order,
                &mut first,
                &mut second,
                &mut rt.stdout(),
                &mut rt.stderr(),
            )
        }
        Err(fault) => refuse(&fault, &mut rt.stderr()),
    })
}

/// The order of the program's words.
fn ordered<R: Env + AllocGlobal>(rt: &R) -> Result<Order, LineFault> {
    order_after_name(rt.alloc(), &given_words(rt)?)
}
