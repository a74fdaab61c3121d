//! The expanded text of a master file and those that it includes.
ghost use Rattle.std.specs.Prelude.{◌≡◌, None, option_map};
ghost use Rattle.zone_name.specs.Spelling.{SpellsCased};
ghost use Rattle.zonenorm_c.specs.Expand.{AnswersExpand};
ghost use Rattle.zonenorm_c.specs.Files.{IsDirectory};

use crate::answer::{ACCEPTED, Answer, NO_MEMORY, UNSUPPORTED, plain};
use crate::file_table::FileTable;
use crate::files::{FilesInput, MAIN_NAME, files_input, files_reply};
use crate::given::{FILES, Given};
use crate::reply::{Reply, hand_out, unread_reply, without_text};
use std::alloc::Global;
use zone_engine::OctetSlice;
use zone_files::expand_files;
use zone_print::OctetVec;

/// The reply on files that are read: their expanded text.
fn expansion_reply(alloc: Global, given: &Given<'_>, input: &FilesInput<'_>) -> Reply
    requires kind { given.now.kind ≡ 3 }
    requires origin { SpellsCased None given.now.origin.now input.now.origin }
    requires directory { IsDirectory given.now.directory.now
        (option_map (λ directory. directory.now) input.now.directory) }
    ensures { AnswersExpand given.now result.text.items result.answer }
{
    let mut table = FileTable {
        names: given.names,
        files: given.files,
    };
    let main = OctetSlice { rest: given.octets };
    let mut writer = OctetVec::new(alloc);
    let expanded = expand_files(
        alloc,
        input.directory,
        MAIN_NAME,
        &input.origin,
        main,
        &mut table,
        &mut writer,
    );
    match expanded {
        Ok(_stack) => match writer.finish() {
            Ok(text) => Reply {
                text,
                answer: plain(ACCEPTED),
            },
            Err(_) => without_text(alloc, plain(NO_MEMORY)),
        },
        Err(stop) => files_reply(alloc, given.names, &stop),
    }
}

/// The reply on an input: its expanded text.
fn reply_of(alloc: Global, given: &Given<'_>) -> Reply
    ensures { AnswersExpand given.now result.text.items result.answer }
{
    if given.kind != FILES {
        return without_text(alloc, plain(UNSUPPORTED));
    }
    match files_input(given) {
        Ok(input) => expansion_reply(alloc, given, &input),
        Err(why) => unread_reply(alloc, why),
    }
}

/// Hands out the expanded text of a master file and the files that it includes (RFC 1035 5.1), each
/// `$GENERATE` as its lines, as `zonefile expand` writes it.
///
/// # Errors
///
/// Status 3 if an entry can't be expanded: the text is the line of the fault. Status 6 if an `$INCLUDE`
/// names a file that wasn't given: the text is its name and a line feed. Status 2, 4 or 5; 5 for another
/// kind than 3.
#[unsafe(no_mangle)]
pub extern "C" fn zonenorm_expand(
    alloc: Global,
    given: &Given<'_>,
    text: &mut &'static [u8],
    answer: &mut Answer,
)
    ensures { AnswersExpand given.now text.new.now answer.new }
{
    let reply = reply_of(alloc, given);
    *answer = hand_out(reply, text);
}
