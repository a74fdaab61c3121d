//! A command of a program, with what `clap` found for its arguments.
ghost use Rattle.std.specs.Prelude.{◌≡◌, ◌↔◌, map, option_map, IfSome, IsNone, IsSome, IsTrue, Some};
ghost use Rattle.clap.specs.Words.{subcommand_rows_of};
ghost use Rattle.command_line.specs.Calls.{Called, HasAll, IsGiven, IsOf, IsOneOf, flag_text, text_of};
ghost use Rattle.command_line.specs.Program.{argument_described, row_described};

use crate::program::{Argument, ArgumentKind, ProgramCommand};
use clap::ArgMatches;
use std::marker::Model;

/// A command of a program, with what was found for its arguments.
#[derive(Drop)]
pub struct Call<'w> {
    command: &'w str,
    found: ArgMatches<'w>,
}

impl<'w> Model for Call<'w> {
    ghost use Rattle.clap.specs.Words.{found_of, rows_of};
    ghost use Rattle.command_line.specs.Calls.{Called};

    ghost Value = { Called };

    ghost view = { λ c. (c.command.now, rows_of (found_of c.found)) };
}

impl<'w> Call<'w> {
    /// The command that was found; `None` if it isn't one of these with all its arguments.
    pub(crate) fn found(
        mut matches: ArgMatches<'w>,
        commands: &[ProgramCommand],
    ) -> Option<Call<'w>>
        ensures found { IfSome result (λ call. (subcommand_rows_of matches.entry ≡ Some call)
            × IsOneOf (map row_described commands.now) call) }
        ensures none { IsNone result → (call : Called)
            → subcommand_rows_of matches.entry ≡ Some call
            → IsOneOf (map row_described commands.now) call → ⊥ }
    {
        let (command, found) = matches.remove_subcommand()?;
        let call = Call { command, found };
        match call.is_one_of(commands) {
            true => Some(call),
            false => None,
        }
    }

    /// Whether it is one of these commands, with all its arguments.
    fn is_one_of(&self, commands: &[ProgramCommand]) -> bool
        ensures { IsTrue result ↔ IsOneOf (map row_described commands.now) self.now }
    {
        for row in commands {
            if self.is_of(row) {
                return true;
            }
        }
        false
    }

    /// Whether it is this command, with all its arguments.
    fn is_of(&self, row: &ProgramCommand) -> bool
        ensures { IsTrue result ↔ IsOf (row_described row.now) self.now }
    {
        row.word == self.command && self.has_all(row.arguments)
    }

    /// Whether each of these arguments is given.
    fn has_all(&self, arguments: &[Argument]) -> bool
        ensures { IsTrue result ↔ HasAll (map argument_described arguments.now) self.now }
    {
        for argument in arguments {
            if !self.has(argument) {
                return false;
            }
        }
        true
    }

    /// Whether the argument is given.
    fn has(&self, argument: &Argument) -> bool
        ensures { IsTrue result
            ↔ IsGiven argument.now.kind (text_of self.now argument.now.id.now) }
    {
        match argument.kind {
            ArgumentKind::Word => self.value(argument.id).is_some(),
            ArgumentKind::Flag => matches!(self.value(argument.id), Some("true" | "false")),
            ArgumentKind::Value => true,
        }
    }

    /// The name of the command.
    pub fn command(&self) -> &'w str
        ensures { result.now ≡ self.now.0 }
    {
        self.command
    }

    /// What was found for an argument or an option; of a flag `true` or `false`.
    pub fn value(&self, id: &str) -> Option<&'w str>
        ensures { option_map (λ text. text.now) result ≡ text_of self.now id.now }
    {
        self.found.get_str(id)
    }

    /// The text of an argument.
    pub fn text(&self, id: &str) -> &'w str
        requires { IsSome (text_of self.now id.now) }
        ensures { text_of self.now id.now ≡ Some result.now }
    {
        match self.value(id) {
            Some(text) => text,
            None => unreachable!(),
        }
    }

    /// Whether a flag was given.
    pub fn flag(&self, id: &str) -> bool
        requires { IsGiven ArgumentKind.Flag (text_of self.now id.now) }
        ensures { text_of self.now id.now ≡ Some (flag_text result) }
    {
        matches!(self.value(id), Some("true"))
    }
}
