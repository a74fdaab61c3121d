//! The program as a table: its commands, and the texts of its help.

use command_line::{Argument, ArgumentKind, Program, ProgramCommand, version};

/// The program and its commands.
pub(crate) static PROGRAM: Program = Program {
    name: "zonenorm",
    version: VERSION,
    about: "Writes a DNS zone in canonical form, or compares two zones",
    usage: USAGE,
    notes: NOTES,
    commands: &[
        ProgramCommand {
            word: "normalise",
            about: "Writes the canonical text of the zone on standard input",
            usage: "zonenorm normalise <ORIGIN> < FILE",
            arguments: &[Argument {
                id: "ORIGIN",
                help: ORIGIN,
                kind: ArgumentKind::Word,
            }],
        },
        ProgramCommand {
            word: "explain",
            about: "Prints how many records the zone on standard input has, or why it is refused",
            usage: "zonenorm explain <ORIGIN> < FILE",
            arguments: &[Argument {
                id: "ORIGIN",
                help: ORIGIN,
                kind: ArgumentKind::Word,
            }],
        },
        ProgramCommand {
            word: "compare",
            about: "Prints whether two files are the same zone, or the first line of canonical text that differs",
            usage: "zonenorm compare <ORIGIN1> <PATH1> <ORIGIN2> <PATH2>",
            arguments: &[
                Argument {
                    id: "ORIGIN1",
                    help: ORIGIN,
                    kind: ArgumentKind::Word,
                },
                Argument {
                    id: "PATH1",
                    help: PATH,
                    kind: ArgumentKind::Word,
                },
                Argument {
                    id: "ORIGIN2",
                    help: ORIGIN,
                    kind: ArgumentKind::Word,
                },
                Argument {
                    id: "PATH2",
                    help: PATH,
                    kind: ArgumentKind::Word,
                },
            ],
        },
    ],
};

/// The version of the programs and that of the canonical text, which a change of any zone's text
/// raises.
const VERSION: &str = version!(", canonical text 1");

const USAGE: &str = "\
zonenorm normalise <ORIGIN> < FILE
       zonenorm explain <ORIGIN> < FILE
       zonenorm compare <ORIGIN1> <PATH1> <ORIGIN2> <PATH2>";

/// What is printed below the help of the program and of each command.
const NOTES: &str = "\
ORIGIN is the origin of a master file, an absolute name such as example.com. with its final dot, or the word transfer
for a captured zone transfer (AXFR over TCP). A leading hyphen of a name is written \\-

Exit status: 0 the zone is accepted, or both are the same; 1 the zones differ; 2 the command line is wrong; 3 the input
is refused, and a line says why and where; 4 reading, writing or memory failed.";

const ORIGIN: &str = "The file's origin, an absolute name, or the word transfer";

const PATH: &str = "The master file or captured zone transfer";
