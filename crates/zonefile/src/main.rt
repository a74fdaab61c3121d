//! The program `zonefile`: normalises, compares, explains and expands master files with those that
//! they include, and zone transfers.
#![tactic(auto)]

mod opened;

use command_line::given_words;
use opened::Opener;
use std::process::ExitCode;
use std::rt::Env;
pub use zonefile_command::{Action, FileSource, NoOrder, Order, ZoneFiles, order_of, run};
use zonefile_command::{order_after_name, refuse};

fn main(rt: HostRuntime) -> ExitCode {
    ExitCode::from(match ordered(&rt) {
        Ok(order) => {
            let mut files = Opener {
                rt: &rt,
                standard: Some(rt.stdin()),
            };
            run(
                rt.alloc(),
                &order,
                &mut files,
                &mut rt.stdout(),
                &mut rt.stderr(),
            )
        }
        Err(no_order) => refuse(&no_order, &mut rt.stdout(), &mut rt.stderr()),
    })
}

/// The order of the program's arguments.
fn ordered<R: Env + AllocGlobal>(rt: &R) -> Result<Order, NoOrder> {
    order_after_name(rt.alloc(), &given_words(rt)?)
}
