//! A program as a table: its commands, their arguments and the texts of its help.

/// A program, with the texts of its help.
#[derive(Clone, Copy, Debug)]
pub struct Program {
    /// Its name.
    pub name: &'static str,
    /// Its version.
    pub version: &'static str,
    /// What it does.
    pub about: &'static str,
    /// How it is called.
    pub usage: &'static str,
    /// What is printed below its help and that of each command.
    pub notes: &'static str,
    /// Its commands.
    pub commands: &'static [ProgramCommand],
}

/// A command of a program.
#[derive(Clone, Copy, Debug)]
pub struct ProgramCommand {
    /// Its name.
    pub word: &'static str,
    /// What it does.
    pub about: &'static str,
    /// How it is called.
    pub usage: &'static str,
    /// Its arguments. Positional ones are in order.
    pub arguments: &'static [Argument],
}

/// An argument of a command.
#[derive(Clone, Copy, Debug)]
pub struct Argument {
    /// Its name in a usage, by which its text is found; of a flag or an option what follows its two
    /// hyphens.
    pub id: &'static str,
    /// What it is.
    pub help: &'static str,
    /// How it is given.
    pub kind: ArgumentKind,
}

/// How an argument is given.
#[derive(Clone, Copy, Debug)]
pub enum ArgumentKind {
    /// As one required positional argument.
    Word,
    /// As a flag, two hyphens and its name, or not at all. Its text is then `true` or `false`.
    Flag,
    /// As an option, two hyphens, its name and a value, or not at all.
    Value,
}
