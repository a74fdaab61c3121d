//! A program as `clap` reads and explains it.
ghost use Rattle.std.specs.Prelude.{◌≡◌, false, IfOk, Some};
ghost use Rattle.clap.specs.Words.{app_of, rule_of};
ghost use Rattle.clap.specs.declared.builder.Command.TheViews.{out-Command as fields_of};
ghost use Rattle.command_line.specs.Machine.Adding.{ShowsTexts};
ghost use Rattle.command_line.specs.Program.{app_described, app_of_command, rule_of_argument};

use crate::program::{Argument, ArgumentKind, Program, ProgramCommand};
use clap::{Arg, ArgAction, Command};
use std::alloc::{AllocError, Global};

/// The program with its commands. It is given the arguments after its name.
#[tactic(auto, using(std::proofs::lemmas::List::take_all))]
pub(crate) fn readable<'a>(alloc: Global, program: &Program) -> Result<Command<'a>, AllocError>
    ensures app { IfOk result (λ command. app_of command ≡ app_described program.now) }
    ensures version { IfOk result (λ command.
        (fields_of command).version ≡ Some program.now.version) }
    ensures texts { IfOk result (ShowsTexts
        program.now.about program.now.usage program.now.notes) }
{
    let mut command = Command::new(alloc, program.name).no_binary_name(true);
    for row in program.commands {
        command = command.subcommand(readable_command(alloc, row, program.notes)?)?;
    }
    let command = command.version(program.version);
    Ok(with_texts(command, program.about, program.usage, program.notes))
}

/// A command with its arguments and with these notes below its help.
fn readable_command<'a>(
    alloc: Global,
    row: &ProgramCommand,
    notes: &'a str,
) -> Result<Command<'a>, AllocError>
    ensures app { IfOk result (λ command. app_of command ≡ app_of_command row.now) }
    ensures local { IfOk result (λ command. (fields_of command).has_globals ≡ false) }
    ensures texts { IfOk result (ShowsTexts row.now.about row.now.usage notes.entry) }
{
    let mut command = Command::new(alloc, row.word);
    for argument in row.arguments {
        command = command.arg(readable_argument(alloc, argument))?;
    }
    Ok(with_texts(command, row.about, row.usage, notes))
}

/// The command with what its help shows: what it does, how it is called, and the notes below.
fn with_texts<'a>(
    command: Command<'a>,
    about: &'a str,
    usage: &'a str,
    notes: &'a str,
) -> Command<'a>
    ensures app { app_of result ≡ app_of command.entry }
    ensures version { (fields_of result).version ≡ (fields_of command.entry).version }
    ensures local { (fields_of result).has_globals ≡ (fields_of command.entry).has_globals }
    ensures texts { ShowsTexts about.entry usage.entry notes.entry result }
{
    command.about(about).override_usage(usage).after_help(notes)
}

/// An argument.
fn readable_argument<'a>(alloc: Global, argument: &Argument) -> Arg<'a>
    ensures rule { rule_of result ≡ rule_of_argument argument.now }
    ensures local { result.global ≡ false }
    ensures help { result.help ≡ Some argument.now.help }
{
    let readable = Arg::new(alloc, argument.id).help(argument.help);
    match argument.kind {
        ArgumentKind::Word => readable.required(true),
        ArgumentKind::Flag => readable.long(argument.id).action(ArgAction::SetTrue),
        ArgumentKind::Value => readable.long(argument.id),
    }
}
