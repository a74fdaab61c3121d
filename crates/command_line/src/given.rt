//! The arguments that a program was started with.
ghost use Rattle.std.specs.Prelude.{◌≡◌, ◌≢◌, ◌↔◌, IfErr, IfOk, IsErrAnd, IsOk, IsOkAnd};
ghost use Rattle.std.specs.IoError.{error_kind};
ghost use Rattle.std.specs.Vec.Iter.{into_iter_items};
ghost use Rattle.std.specs.declared.io.ErrorKind.TheVariants.{OutOfMemory};
ghost use Rattle.command_line.specs.Calls.{IsNoWords};
ghost use Rattle.command_line.specs.declared.no_call.NoCall.TheVariants as no_calls;

use crate::no_call::NoCall;
use std::alloc::Global;
use std::env::Args;
use std::rt::Env;
use std::{env, io};

/// The arguments that the program was started with. The first is its name.
///
/// # Errors
///
/// `Told` if one of them isn't valid UTF-8; `Memory`.
pub fn given_words<R: Env + AllocGlobal>(rt: &R) -> Result<Vec<String>, NoCall>
    ensures { IfErr result IsNoWords }
{
    words_of(rt.alloc(), env::args(rt))
}

/// The arguments that `std` gives, or why there are none.
fn words_of(alloc: Global, given: io::Result<Args>) -> Result<Vec<String>, NoCall>
    ensures words { IfOk result (λ words.
        IsOkAnd given (λ given. words.items ≡ into_iter_items given)) }
    ensures refused { IfErr result (λ no_call. IsOk given → no_call ≡ no_calls.Memory) }
    ensures no_words { IfErr result (λ no_call. IfErr given (λ error.
        IsNoWords no_call
        × (error_kind error ≡ OutOfMemory → no_call ≡ no_calls.Memory))) }
{
    match given {
        Ok(words) => Ok(words.collect::<Vec<String>>(alloc)?),
        Err(error) => {
            let no_text = String::from_str(alloc, "error: an argument isn't valid UTF-8")?;
            Err(no_words(error.kind(), no_text))
        }
    }
}

/// What is printed for such an error: memory was refused, or an argument isn't valid UTF-8.
fn no_words(kind: io::ErrorKind, no_text: String) -> NoCall
    ensures memory { (result ≡ no_calls.Memory) ↔ (kind ≡ OutOfMemory) }
    ensures told { kind ≢ OutOfMemory → result ≡ no_calls.Told no_text }
{
    match kind {
        io::ErrorKind::OutOfMemory => NoCall::Memory,
        _ => NoCall::Told(no_text),
    }
}
