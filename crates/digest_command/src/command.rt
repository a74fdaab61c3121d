//! The program as a table: its commands, and the texts of its help.

use command_line::{Argument, ArgumentKind, Program, ProgramCommand, version};

/// The program and its commands.
pub(crate) static PROGRAM: Program = Program {
    name: "zonedigest",
    version: version!(),
    about: "Verifies a DNS zone against its ZONEMD record (RFC 8976), or writes that record",
    usage: USAGE,
    notes: NOTES,
    commands: &[
        ProgramCommand {
            word: "verify",
            about: "Verifies the zone on standard input against its ZONEMD records",
            usage: "zonedigest verify <ORIGIN> < FILE",
            arguments: &[Argument {
                id: "ORIGIN",
                help: ORIGIN,
                kind: ArgumentKind::Word,
            }],
        },
        ProgramCommand {
            word: "digest",
            about: "Writes the ZONEMD record of the zone on standard input",
            usage: "zonedigest digest <ORIGIN> [--sha512] [--generic] < FILE",
            arguments: &[
                Argument {
                    id: "ORIGIN",
                    help: ORIGIN,
                    kind: ArgumentKind::Word,
                },
                Argument {
                    id: "sha512",
                    help: "Use SHA-512, hash algorithm 2, instead of SHA-384",
                    kind: ArgumentKind::Flag,
                },
                Argument {
                    id: "generic",
                    help: "Write the record in the generic form (RFC 3597), which zonenorm reads",
                    kind: ArgumentKind::Flag,
                },
            ],
        },
    ],
};

const USAGE: &str = "\
zonedigest verify <ORIGIN> < FILE
       zonedigest digest <ORIGIN> [--sha512] [--generic] < FILE";

/// What is printed below the help of the program and of each command.
const NOTES: &str = "\
The digest is that of the scheme SIMPLE. A right digest doesn't say who made it: that is for DNSSEC to validate.
Before ZONEMD records in presentation format are read, zonewords generic writes them in the generic form.

ORIGIN is the origin of a master file, an absolute name such as example.com. with its final dot, or the word transfer
for a captured zone transfer (AXFR over TCP). A leading hyphen of a name is written \\-

Exit status: 0 the zone is verified, or the record is written; 1 it isn't verified, and lines say why; 2 the command
line is wrong; 3 the input is refused, and a line says why and where; 4 reading, writing or memory failed.";

const ORIGIN: &str = "The file's origin, an absolute name, or the word transfer";
