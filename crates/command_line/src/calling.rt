//! The command that the arguments call.
ghost use Rattle.std.specs.Prelude.{◌≡◌, ◌≢◌, ◌↔◌, ◌⊎◌, drop, map, true, IfErr, IfOk, IsErr, string_bytes};
ghost use Rattle.clap.specs.Words.{is_simple_and_free};
ghost use Rattle.clap.specs.declared.error.kind.ErrorKind.TheVariants.{OutOfMemory};
ghost use Rattle.clap.specs.declared.error.kind.ErrorKind.{ErrorKind};
ghost use Rattle.command_line.specs.Calls.{Calls, IsAskedFor, IsNoCall};
ghost use Rattle.command_line.specs.Program.{described};
ghost use Rattle.command_line.specs.Machine.Telling.{Answers, EndsWell, IsWithoutLineFeeds, Tells};

use crate::call::Call;
use crate::no_call::NoCall;
use crate::program::Program;
use crate::reading::readable;
use clap::error::ErrorKind;
use std::alloc::{AllocError, Global};

/// The command that the arguments after a program's name call.
///
/// # Errors
///
/// `Shown` if the arguments ask for help or the version; `Told` if `clap` otherwise gives no matches for
/// one of the commands; `Memory`.
pub fn call_of<'w>(
    alloc: Global,
    program: &Program,
    words: &'w [String],
) -> Result<Call<'w>, NoCall>
    requires { is_simple_and_free (described program.now).app ≡ true }
    ensures called { IfOk result (Calls (described program.now) (map string_bytes words.now)) }
    ensures refused { IfErr result (IsNoCall (described program.now) (map string_bytes words.now)) }
{
    let matches = match readable(alloc, program)?.try_get_matches_from(words) {
        Ok(matches) => matches,
        Err(error) => return Err(refusal(error.kind(), error.to_string(alloc))),
    };
    match Call::found(matches, program.commands) {
        Some(call) => Ok(call),
        None => Err(told(help(alloc, program))),
    }
}

/// The arguments after the program's name, which is the first of these.
pub fn after_name(words: &[String]) -> &[String]
    ensures { map string_bytes result.now ≡ drop 1 (map string_bytes words.now) }
{
    match words {
        [_, words @ ..] => words,
        [] => words,
    }
}

/// What is printed instead of matches, by the kind and the text of what `clap` returns.
fn refusal(kind: ErrorKind, text: Result<String, AllocError>) -> NoCall
    ensures told { kind ≢ OutOfMemory → IfOk text (λ text. Tells (string_bytes text) result) }
    ensures memory { (result ≡ NoCall.Memory) ↔ ((kind ≡ OutOfMemory) ⊎ IsErr text) }
    ensures ends { EndsWell result }
    ensures kind { Answers kind result }
{
    match kind {
        ErrorKind::OutOfMemory => NoCall::Memory,
        ErrorKind::DisplayHelp | ErrorKind::DisplayVersion => shown(text),
        _ => told(text),
    }
}

/// The program's help, for arguments that name no command.
fn help(alloc: Global, program: &Program) -> Result<String, AllocError> {
    readable(alloc, program)?.render_help()
}

/// What is printed of a help or version that was asked for: the text without the line feeds at its end.
fn shown(text: Result<String, AllocError>) -> NoCall
    ensures told { IfOk text (λ text. Tells (string_bytes text) result) }
    ensures memory { (result ≡ NoCall.Memory) ↔ IsErr text }
    ensures ends { EndsWell result }
    ensures kind { (kind : ErrorKind) → IsAskedFor kind → Answers kind result }
{
    match text {
        Ok(text) => NoCall::Shown(without_line_feeds(text)),
        Err(_) => NoCall::Memory,
    }
}

/// What is printed of any other text that `clap` gives: the text without the line feeds at its end.
fn told(text: Result<String, AllocError>) -> NoCall
    ensures told { IfOk text (λ text. Tells (string_bytes text) result) }
    ensures memory { (result ≡ NoCall.Memory) ↔ IsErr text }
    ensures ends { EndsWell result }
    ensures kind { (kind : ErrorKind) → (IsAskedFor kind → ⊥) → Answers kind result }
{
    match text {
        Ok(text) => NoCall::Told(without_line_feeds(text)),
        Err(_) => NoCall::Memory,
    }
}

/// The text without the line feeds at its end.
fn without_line_feeds(mut text: String) -> String
    ensures { IsWithoutLineFeeds (string_bytes text) (string_bytes result) }
{
    while text.as_str().ends_with('\n') {
        text.pop();
    }
    text
}
