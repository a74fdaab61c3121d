//! The program as a table: its commands, and the texts of its help.

use command_line::{Argument, ArgumentKind, Program, ProgramCommand, version};

/// The program and its commands.
pub(crate) static PROGRAM: Program = Program {
    name: "zonefile",
    version: version!(", canonical text 1"),
    about: "Reads master files as operators keep them: with $INCLUDE, $GENERATE and 72 types",
    usage: USAGE,
    notes: NOTES,
    commands: &[
        ProgramCommand {
            word: "normalise",
            about: "Writes the canonical text of the zone",
            usage: "zonefile normalise <ORIGIN> <FILE> [--words] [--directory <DIR>]",
            arguments: &[ORIGIN, FILE, WORDS, DIRECTORY],
        },
        ProgramCommand {
            word: "explain",
            about: "Reports how many records the zone has, or why and where it is refused",
            usage: "zonefile explain <ORIGIN> <FILE> [--directory <DIR>]",
            arguments: &[ORIGIN, FILE, DIRECTORY],
        },
        ProgramCommand {
            word: "compare",
            about: "Reports whether two inputs hold one zone, or the first line of canonical text that differs",
            usage: "zonefile compare <ORIGIN1> <FILE1> <ORIGIN2> <FILE2> [--directory <DIR>]",
            arguments: &[ORIGIN1, FILE1, ORIGIN2, FILE2, DIRECTORY],
        },
        ProgramCommand {
            word: "diff",
            about: "Writes the records by which two zones differ: - of the first, + of the second",
            usage: "zonefile diff <ORIGIN1> <FILE1> <ORIGIN2> <FILE2> [--exact] [--generic] [--directory <DIR>]",
            arguments: &[ORIGIN1, FILE1, ORIGIN2, FILE2, EXACT, GENERIC, DIRECTORY],
        },
        ProgramCommand {
            word: "check",
            about: "Reports how many records the zone has, or every fault, each with its place",
            usage: "zonefile check <ORIGIN> <FILE> [--most <N>] [--directory <DIR>]",
            arguments: &[EXPANDED_ORIGIN, FILE, MOST, DIRECTORY],
        },
        ProgramCommand {
            word: "expand",
            about: "Writes one master file of the file and those that it includes, each $GENERATE in its place",
            usage: "zonefile expand <ORIGIN> <FILE> [--directory <DIR>]",
            arguments: &[EXPANDED_ORIGIN, FILE, DIRECTORY],
        },
    ],
};

const ORIGIN: Argument = Argument {
    id: "ORIGIN",
    help: ORIGIN_HELP,
    kind: ArgumentKind::Word,
};

const ORIGIN1: Argument = Argument {
    id: "ORIGIN1",
    help: ORIGIN_HELP,
    kind: ArgumentKind::Word,
};

const ORIGIN2: Argument = Argument {
    id: "ORIGIN2",
    help: ORIGIN_HELP,
    kind: ArgumentKind::Word,
};

/// The origin of a file that is expanded or checked: a transfer has no expanded text.
const EXPANDED_ORIGIN: Argument = Argument {
    id: "ORIGIN",
    help: "The file's origin, a name",
    kind: ArgumentKind::Word,
};

const FILE: Argument = Argument {
    id: "FILE",
    help: FILE_HELP,
    kind: ArgumentKind::Word,
};

const FILE1: Argument = Argument {
    id: "FILE1",
    help: FILE_HELP,
    kind: ArgumentKind::Word,
};

const FILE2: Argument = Argument {
    id: "FILE2",
    help: FILE_HELP,
    kind: ArgumentKind::Word,
};

const WORDS: Argument = Argument {
    id: "words",
    help: "Write records of further types in presentation format, for people",
    kind: ArgumentKind::Flag,
};

const EXACT: Argument = Argument {
    id: "exact",
    help: "Compare names in data octet by octet, not without regard to case",
    kind: ArgumentKind::Flag,
};

const GENERIC: Argument = Argument {
    id: "generic",
    help: "Write records of further types in the generic form, as the canonical text has them",
    kind: ArgumentKind::Flag,
};

const MOST: Argument = Argument {
    id: "most",
    help: "Report so many faults at most, 20 if no number is given",
    kind: ArgumentKind::Value,
};

const DIRECTORY: Argument = Argument {
    id: "directory",
    help: "The directory of the files that $INCLUDE names",
    kind: ArgumentKind::Value,
};

const ORIGIN_HELP: &str = "The file's origin, a name, or the word transfer";

const FILE_HELP: &str = "The file, or - for standard input";

const USAGE: &str = "\
zonefile normalise <ORIGIN> <FILE> [--words] [--directory <DIR>]
       zonefile explain <ORIGIN> <FILE> [--directory <DIR>]
       zonefile compare <ORIGIN1> <FILE1> <ORIGIN2> <FILE2> [--directory <DIR>]
       zonefile diff <ORIGIN1> <FILE1> <ORIGIN2> <FILE2> [--exact] [--generic] [--directory <DIR>]
       zonefile check <ORIGIN> <FILE> [--most <N>] [--directory <DIR>]
       zonefile expand <ORIGIN> <FILE> [--directory <DIR>]";

/// What stands below the help of the program and of each command.
const NOTES: &str = "\
ORIGIN is the origin of a master file, as example.com or example.com., or the word transfer for a captured TCP stream of a
zone transfer (AXFR). A zone of that name is written transfer. with the dot. A leading hyphen of a name is written \\-

FILE is the path of a file, or - for standard input. Files that $INCLUDE names are regular files below DIR, or below the
working directory if no DIR is given. A name is relative, or begins with DIR and a slash; no part of it is empty, . or ..

diff writes a line for each record that only one zone has: - or +, a blank, and the line of the canonical text. Names in
data that differ in their letters alone are the same name, unless --exact is given.

Exit status: 0 the zone is accepted, both are the same, nothing differs, the text is written, or help or the version was
asked for; 1 the zones differ; 2 the command line is wrong; 3 the input is refused, and a line says why and where;
4 reading, writing or memory failed.";
