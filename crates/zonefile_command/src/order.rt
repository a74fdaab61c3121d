//! What a command line asks for.
ghost use Rattle.std.specs.Prelude.{◌≡◌, codes, drop, map, option_map, IfErr, IfOk, IsSome, string_bytes};
ghost use Rattle.command_line.specs.Calls.{IsOneOf, text_of};
ghost use Rattle.zonefile_command.specs.Machine.Ordering.{IsOfAction, IsOfMost, IsOfOrigin};
ghost use Rattle.zonefile_command.specs.Order.{AreSources, AsksFor, IsFileOrigin, IsMost, IsNoOrder, IsOriginText, Orders, case_for, commands, notation_for, notation_of_changes};

use crate::command::PROGRAM;
use crate::no_order::NoOrder;
use crate::notation::Notation;
use command_line::{Call, after_name, call_of};
use std::alloc::{AllocError, Global};
use zone_difference::NameCase;
use zone_name::CasedName;
use zone_rdata::decimal_of;

/// The word that stands in the place of an origin if the input is a transfer.
const TRANSFER: &str = "transfer";

/// The text that spells the origin which holds, and which no file has before its first entry.
const AT: &str = "@";

/// How many faults are reported at most if no number is stated.
const MOST: u64 = 20;

/// An input of the program.
#[derive(Debug, Drop)]
pub struct FileSource {
    /// The origin of a master file, with its letters; none of a transfer.
    pub origin: Option<CasedName>,
    /// The path of the file, or `-` for standard input.
    pub file: String,
}

/// How the difference of two zones is made and written.
#[derive(Clone, Copy, Debug, PartialEq, Eq)]
pub struct DifferenceForm {
    /// How names in data are compared.
    pub name_case: NameCase,
    /// How records of further types are written.
    pub notation: Notation,
}

/// What is to be done.
#[derive(Debug, Drop)]
pub enum Action {
    /// Write the canonical text of the input, or the same for people.
    Normalise(FileSource, Notation),
    /// Report how many records the zone of the input has, or why it is refused.
    Explain(FileSource),
    /// Report whether two inputs denote one zone, or at which line their canonical texts differ.
    Compare(FileSource, FileSource),
    /// Write the changes from the zone of one input to that of another.
    Difference(FileSource, FileSource, DifferenceForm),
    /// Report every fault of the master file at this path, under this origin, at most so many.
    Check(CasedName, String, u64),
    /// Write the expanded text of the master file at this path, under this origin.
    Expand(CasedName, String),
}

/// What a command line asks for.
#[derive(Debug, Drop)]
pub struct Order {
    /// The directory below which the files of `$INCLUDE` are; none for the working directory.
    pub directory: Option<String>,
    /// What is to be done.
    pub action: Action,
}

/// The order that the arguments after the program's name give. The origins are judged from the left.
///
/// # Errors
///
/// `BadOrigin` if the text of an origin is neither a name nor `transfer`, or `transfer` is to be
/// expanded or checked; `BadMost` if that of `--most` is no number from 1 to 4294967295; `NoCall` if the arguments ask for help or the version, or `clap` gives no matches for
/// one of the commands, or memory was refused.
pub fn order_of(alloc: Global, words: &[String]) -> Result<Order, NoOrder>
    ensures ordered { IfOk result (Orders (map string_bytes words.now)) }
    ensures refused { IfErr result (IsNoOrder (map string_bytes words.now)) }
{
    let call = call_of(alloc, &PROGRAM, words)?;
    let action = action_of(alloc, &call)?;
    let directory = directory_of(alloc, &call)?;
    Ok(Order { directory, action })
}

/// The order of the program's arguments, of which the first is its name.
///
/// # Errors
///
/// `BadOrigin` if the text of an origin is neither a name nor `transfer`, or `transfer` is to be
/// expanded or checked; `BadMost` if that of `--most` is no number from 1 to 4294967295; `NoCall` if the arguments ask for help or the version, or `clap` gives no matches for
/// one of the commands, or memory was refused.
pub fn order_after_name(alloc: Global, words: &[String]) -> Result<Order, NoOrder>
    ensures ordered { IfOk result (Orders (drop 1 (map string_bytes words.now))) }
    ensures refused { IfErr result (IsNoOrder (drop 1 (map string_bytes words.now))) }
{
    order_of(alloc, after_name(words))
}

/// What a call of one of the commands asks for.
fn action_of(alloc: Global, call: &Call) -> Result<Action, NoOrder>
    requires { IsOneOf commands.rows call.now }
    ensures asked { IfOk result (AsksFor call.now) }
    ensures refused { IfErr result (IsOfAction call.now) }
{
    match call.command() {
        "normalise" => {
            let source = source_of(alloc, call.text("ORIGIN"), call.text("FILE"))?;
            Ok(Action::Normalise(source, notation_of(call.flag("words"))))
        }
        "explain" => Ok(Action::Explain(source_of(alloc, call.text("ORIGIN"), call.text("FILE"))?)),
        "compare" => {
            let (first, second) = sources_of(alloc, call)?;
            Ok(Action::Compare(first, second))
        }
        "diff" => {
            let (first, second) = sources_of(alloc, call)?;
            let form = DifferenceForm {
                name_case: case_of(call.flag("exact")),
                notation: changes_notation(call.flag("generic")),
            };
            Ok(Action::Difference(first, second, form))
        }
        "check" => {
            let origin = name_of(call.text("ORIGIN"))?;
            let most = most_of(call.value("most"))?;
            Ok(Action::Check(origin, String::from_str(alloc, call.text("FILE"))?, most))
        }
        "expand" => {
            let origin = name_of(call.text("ORIGIN"))?;
            Ok(Action::Expand(origin, String::from_str(alloc, call.text("FILE"))?))
        }
        _ => unreachable!(),
    }
}

/// The notation that is asked for with the flag `--words`, or without it.
fn notation_of(words: bool) -> Notation
    ensures { result ≡ notation_for words }
{
    match words {
        true => Notation::Presentation,
        false => Notation::Generic,
    }
}

/// How names in data are compared with the flag `--exact`, or without it.
fn case_of(exact: bool) -> NameCase
    ensures { result ≡ case_for exact }
{
    match exact {
        true => NameCase::Exact,
        false => NameCase::Folded,
    }
}

/// The notation of a difference with the flag `--generic`, or without it.
fn changes_notation(generic: bool) -> Notation
    ensures { result ≡ notation_of_changes generic }
{
    match generic {
        true => Notation::Generic,
        false => Notation::Presentation,
    }
}

/// How many faults are reported at most: a number from 1 to 4294967295, or 20 if none is stated.
fn most_of(stated: Option<&str>) -> Result<u64, NoOrder>
    ensures found { IfOk result (IsMost (option_map (λ text. text.now) stated.entry)) }
    ensures refused { IfErr result (IsOfMost (option_map (λ text. text.now) stated.entry)) }
{
    let Some(text) = stated else {
        return Ok(MOST);
    };
    match decimal_of(text.as_bytes()) {
        Some(number) => {
            if number == 0 || number > u64::from(u32::MAX) {
                Err(NoOrder::BadMost)
            } else {
                Ok(number)
            }
        }
        None => Err(NoOrder::BadMost),
    }
}

/// The directory that a call states.
fn directory_of(alloc: Global, call: &Call) -> Result<Option<String>, AllocError>
    ensures { IfOk result (λ directory.
        text_of call.now (codes "directory") ≡ option_map string_bytes directory) }
{
    match call.value("directory") {
        Some(directory) => Ok(Some(String::from_str(alloc, directory)?)),
        None => Ok(None),
    }
}

/// The input that the texts of an origin and a file ask for.
fn source_of(alloc: Global, origin: &str, file: &str) -> Result<FileSource, NoOrder>
    ensures origin { IfOk result (λ source. IsOriginText origin.now source.origin) }
    ensures file { IfOk result (λ source. string_bytes source.file ≡ file.now) }
    ensures refused { IfErr result (IsOfOrigin IsOriginText origin.now) }
{
    Ok(FileSource {
        origin: origin_of(origin)?,
        file: String::from_str(alloc, file)?,
    })
}

/// The inputs of a command on two. The origins are judged from the left.
fn sources_of(alloc: Global, call: &Call) -> Result<(FileSource, FileSource), NoOrder>
    requires first { IsSome (text_of call.now (codes "ORIGIN1")) }
    requires first_file { IsSome (text_of call.now (codes "FILE1")) }
    requires second { IsSome (text_of call.now (codes "ORIGIN2")) }
    requires second_file { IsSome (text_of call.now (codes "FILE2")) }
    ensures asked { IfOk result (λ sources. AreSources call.now sources.0 sources.1) }
    ensures refused { IfErr result (IsOfAction call.now) }
{
    let first = origin_of(call.text("ORIGIN1"))?;
    let second = origin_of(call.text("ORIGIN2"))?;
    Ok((
        FileSource {
            origin: first,
            file: String::from_str(alloc, call.text("FILE1"))?,
        },
        FileSource {
            origin: second,
            file: String::from_str(alloc, call.text("FILE2"))?,
        },
    ))
}

/// The origin that a text asks for, none for a transfer.
fn origin_of(text: &str) -> Result<Option<CasedName>, NoOrder>
    ensures found { IfOk result (IsOriginText text.now) }
    ensures refused { IfErr result (IsOfOrigin IsOriginText text.now) }
{
    if text == TRANSFER {
        return Ok(None);
    }
    Ok(Some(name_of(text)?))
}

/// The origin of a master file that a text gives.
fn name_of(text: &str) -> Result<CasedName, NoOrder>
    ensures found { IfOk result (IsFileOrigin text.now) }
    ensures refused { IfErr result (IsOfOrigin IsFileOrigin text.now) }
{
    if text == TRANSFER || text == AT {
        return Err(NoOrder::BadOrigin);
    }
    match CasedName::from_text(text.as_bytes(), Some(&CasedName::root())) {
        Ok(name) => Ok(name),
        Err(_) => Err(NoOrder::BadOrigin),
    }
}
