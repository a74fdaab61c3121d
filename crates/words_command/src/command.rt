//! The program as a table: its commands, and the texts of its help.

use command_line::{Argument, ArgumentKind, Program, ProgramCommand, version};

/// The program and its commands.
pub(crate) static PROGRAM: Program = Program {
    name: "zonewords",
    version: version!(),
    about: "Writes DNS records in the generic form, or in presentation format",
    usage: USAGE,
    notes: NOTES,
    commands: &[
        ProgramCommand {
            word: "generic",
            about: "Writes the master file on standard input in the form that zonenorm reads",
            usage: "zonewords generic <ORIGIN> < FILE",
            arguments: &[Argument {
                id: "ORIGIN",
                help: "The file's origin, an absolute name",
                kind: ArgumentKind::Word,
            }],
        },
        ProgramCommand {
            word: "words",
            about: "Writes the canonical text on standard input, or a diff of two, in presentation format",
            usage: "zonewords words < TEXT",
            arguments: &[],
        },
    ],
};

const USAGE: &str = "\
zonewords generic <ORIGIN> < FILE
       zonewords words < TEXT";

/// What is printed below the help of the program and of each command.
const NOTES: &str = "\
generic copies a master file and rewrites the records that zonenorm can't read. A record of a further type (CAA, DS,
DNSKEY, RRSIG, NSEC, TLSA, HTTPS and others) gets its type and data in the generic form of RFC 3597: TYPEn \\# length
hex. Everything else is copied byte for byte, and every entry keeps its line number. A record whose data is wrong is
copied as it is, and a line on standard error reports the first one.

words copies a canonical text, or a diff of two, line by line. A line that ends with a class and a further type in the
generic form gets its type and data in presentation format, if the data is data of its type. Every other line is copied
byte for byte. generic . turns the output for a canonical text into that text again.

ORIGIN is the origin of the file, an absolute name such as example.com. with its final dot. A leading hyphen of a name
is written \\-

Exit status: 0 the text is written; 2 the command line is wrong; 3 the file is written, and the data of some record is
wrong; 4 reading, writing or memory failed. If generic can't read to the end, or runs out of memory, the last line that
it writes is $STOPPED, so that nothing takes the beginning of the file for all of it.";
