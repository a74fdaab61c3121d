//! The file names of `$INCLUDE` entries.
ghost use Rattle.std.specs.Prelude.{◌≡◌, ◌==◌, ◌↔◌, ◌++◌, ◌∷◌, IfErr, IfOk, IfSome, IsNone, IsTrue, option_map, string_bytes};
ghost use Rattle.std.specs.List.{list_all, slice_split};
ghost use Rattle.zone_files.specs.FileName.{is_part, is_plain, under, IsAbsoluteBelow, IsFileText, IsPath, NamesFile};
ghost use Rattle.zone_files.specs.FileNameRefusal.{RefusesName};

use crate::fault::{ExpansionFailing, ExpansionFault};
use std::alloc::{AllocError, Global};
use std::str;

/// The most octets that a file name may have.
const LONGEST: usize = 4095;

/// The name under which the file of an `$INCLUDE` is opened: that of a relative one is the file name
/// under the directory, and an absolute one is below it already. Where no directory is given,
/// relative ones alone name a file, as they are.
///
/// A file name is 1 to 4,095 octets of UTF-8 without control octets and backslashes, and no part of
/// it between slashes is empty, `.` or `..`.
///
/// # Errors
///
/// `Fault(BadFileName)` where the file name denotes no file below the directory; `Memory`.
#[tactic(auto, using(crate::proofs::FileNames::names))]
pub fn included_file_name(
    alloc: Global,
    directory: Option<&str>,
    file: &[u8],
) -> Result<String, ExpansionFailing>
    ensures named { IfOk result (λ name.
        NamesFile (option_map (λ folder. folder.now) directory.entry) file.now
        (string_bytes name)) }
    ensures refused { IfErr result
        (RefusesName (option_map (λ folder. folder.now) directory.entry) file.now) }
{
    let Some(text) = file_text(file) else {
        return Err(ExpansionFailing::Fault(ExpansionFault::BadFileName));
    };
    if is_path(file) {
        return Ok(path_under(alloc, directory, text)?);
    }
    match directory {
        Some(folder) if is_absolute_below(folder.as_bytes(), file) => {
            Ok(String::from_str(alloc, text)?)
        }
        _ => Err(ExpansionFailing::Fault(ExpansionFault::BadFileName)),
    }
}

/// The file name as a text.
fn file_text(file: &[u8]) -> Option<&str>
    ensures text { IfSome result (λ text. (text.now ≡ file.now) × IsFileText file.now) }
    ensures none { IsNone result → ¬ (IsFileText file.now) }
{
    if file.is_empty() || file.len() > LONGEST || !are_plain(file) {
        return None;
    }
    match str::from_utf8(file) {
        Ok(text) => Some(text),
        Err(_) => None,
    }
}

/// Whether no octet is a control octet or a backslash.
fn are_plain(octets: &[u8]) -> bool
    ensures { result ≡ list_all is_plain octets.now }
{
    octets.iter().all(|octet| is_plain(*octet))
}

/// Whether an octet is neither a control octet nor a backslash.
fn is_plain(octet: u8) -> bool
    ensures { result ≡ is_plain octet }
{
    octet >= 32 && octet != 127 && octet != b'\\'
}

/// Whether no part between slashes is empty, `.` or `..`.
fn is_path(path: &[u8]) -> bool
    ensures { result ≡ list_all is_part (slice_split (λ c. c == 47) path.now) }
{
    path.split(|c| *c == b'/').all(|part| is_part(part))
}

/// Whether a part is neither empty, `.` nor `..`.
fn is_part(part: &[u8]) -> bool
    ensures { result ≡ is_part part.now }
{
    part != b"".as_slice() && part != b".".as_slice() && part != b"..".as_slice()
}

/// Whether a file name is absolute and below a folder.
#[tactic(auto, using(crate::proofs::FileNames::below))]
fn is_absolute_below(folder: &[u8], file: &[u8]) -> bool
    ensures { IsTrue result ↔ IsAbsoluteBelow folder.now file.now }
{
    if file.len() <= folder.len() || file[0] != b'/' {
        return false;
    }
    let (front, rest) = file.split_at(folder.len());
    if !is_same(front, folder) {
        return false;
    }
    if rest[0] != b'/' {
        return false;
    }
    is_path(&rest[1..])
}

/// Whether two texts are the same.
fn is_same(text: &[u8], other: &[u8]) -> bool
    ensures { IsTrue result ↔ (text.now ≡ other.now) }
{
    text == other
}

/// A path under a folder, or a path where none is given.
///
/// # Errors
///
/// Want of memory.
fn path_under(alloc: Global, folder: Option<&str>, path: &str) -> Result<String, AllocError>
    ensures { IfOk result (λ name. string_bytes name
        ≡ under (option_map (λ folder. folder.now) folder.entry) path.now) }
{
    let Some(folder) = folder else {
        return String::from_str(alloc, path);
    };
    let mut name = String::from_str(alloc, folder)?;
    name.push_str("/")?;
    name.push_str(path)?;
    Ok(name)
}
