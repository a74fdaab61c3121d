//! The input that a caller gives.
ghost use Rattle.std.specs.Prelude.{◌≡◌, IfErr, IfOk, None};
ghost use Rattle.zone_name.specs.Spelling.{SpellsCased};
ghost use Rattle.zonenorm_c.specs.Giving.{IsNoOrigin, IsOrigin, IsReadAs, IsUnread, limit_of, source_octets};
ghost use Rattle.zone_engine.specs.Form.{read_as_with};

use std::alloc::Global;
use zone_name::laws::{are_octets, letters_are_folded_before_or_after};
use zone_name::{CasedName, Name};
use zone_print::TEXT_LIMIT;
use zone_words::rewrite_file;

/// A master file with the ten types that the engine reads in presentation format.
pub const FILE: u32 = 0;

/// The octets of a zone transfer as they came over TCP.
pub const TRANSFER: u32 = 1;

/// A master file with the ten types and the further types in presentation format.
pub const ALL_TYPES: u32 = 2;

/// A master file with the files that it includes (`$INCLUDE`), with `$GENERATE`, and with the ten
/// types and the further types in presentation format.
pub const FILES: u32 = 3;

/// An input, as a caller gives it.
#[repr(C)]
#[derive(Clone, Copy, Drop)]
pub struct Given<'a> {
    /// The kind of input: one of the numbers above.
    pub kind: u32,
    /// Reserved: 0.
    pub reserved: u32,
    /// The most octets that are read; 0 means 1,073,741,824, and so does more.
    pub limit: u64,
    /// The origin of a master file, in presentation format with its final dot.
    pub origin: &'a [u8],
    /// The octets.
    pub octets: &'a [u8],
    /// The directory of the files that `$INCLUDE` names, empty if names are relative.
    pub directory: &'a [u8],
    /// The names of included files, each as an `$INCLUDE` states it.
    pub names: &'a [&'a [u8]],
    /// Their octets, in the same order.
    pub files: &'a [&'a [u8]],
}

/// Why an input isn't read.
#[derive(Clone, Copy)]
pub(crate) enum Unread {
    /// This library doesn't have its kind.
    Unsupported,
    /// Its origin spells no absolute name.
    BadOrigin,
    /// It has more octets than its limit.
    TooLong,
    /// An allocation failed.
    Memory,
}

/// Octets to read: the caller's, or what they were rewritten to.
#[derive(Drop)]
pub(crate) enum Source<'a> {
    /// The caller's.
    Lent(&'a [u8]),
    /// Rewritten.
    Rewritten(Vec<u8>),
}

impl Source<'_> {
    /// The octets.
    pub(crate) fn octets(&self) -> &[u8]
        ensures { result.now ≡ source_octets self.now }
    {
        match self {
            Source::Lent(octets) => octets,
            Source::Rewritten(text) => text.as_slice(),
        }
    }
}

/// An input that can be read.
#[derive(Drop)]
pub(crate) struct Readable<'a> {
    pub(crate) origin: Option<Name>,
    pub(crate) source: Source<'a>,
}

/// The most octets of an input.
pub(crate) fn limit_in(limit: u64) -> u64
    ensures { result ≡ limit_of limit }
{
    if limit == 0 {
        return TEXT_LIMIT;
    }
    if limit > TEXT_LIMIT {
        TEXT_LIMIT
    } else {
        limit
    }
}

/// What a caller's input is read as.
///
/// # Errors
///
/// Why it isn't read.
pub(crate) fn read_given<'a>(alloc: Global, given: &Given<'a>) -> Result<Readable<'a>, Unread>
    ensures read { IfOk result (λ input.
        IsReadAs given.now (read_as_with input.origin (source_octets input.source))) }
    ensures unread { IfErr result (IsUnread given.now) }
{
    if given.octets.len() as u64 > limit_in(given.limit) {
        return Err(Unread::TooLong);
    }
    match given.kind {
        FILE => {
            let origin = origin_in(given.origin)?;
            let source = Source::Lent(given.octets);
            Ok(Readable { origin, source })
        }
        TRANSFER => {
            let source = Source::Lent(given.octets);
            Ok(Readable {
                origin: None,
                source,
            })
        }
        ALL_TYPES => {
            let origin = origin_in(given.origin)?;
            let cased = cased_origin_in(given.origin)?;
            match rewrite_file(alloc, &cased, given.octets) {
                Ok(rewritten) => {
                    let source = Source::Rewritten(rewritten.text);
                    Ok(Readable { origin, source })
                }
                Err(_) => Err(Unread::Memory),
            }
        }
        _ => Err(Unread::Unsupported),
    }
}

/// The origin of a master file with its letters kept.
///
/// # Errors
///
/// The text spells no absolute name.
pub(crate) fn cased_origin_in(text: &[u8]) -> Result<CasedName, Unread>
    ensures origin { IfOk result (SpellsCased None text.now) }
    ensures none { IfErr result (λ why. IsNoOrigin text.now why) }
{
    are_octets(text);
    letters_are_folded_before_or_after();
    match CasedName::from_text(text, None) {
        Ok(cased) => Ok(cased),
        Err(_) => Err(Unread::BadOrigin),
    }
}

/// The origin of a master file.
///
/// # Errors
///
/// The text spells no absolute name.
pub(crate) fn origin_in(text: &[u8]) -> Result<Option<Name>, Unread>
    ensures origin { IfOk result (λ origin. IsOrigin text.now origin) }
    ensures none { IfErr result (λ why. IsNoOrigin text.now why) }
{
    match Name::from_text(text, None) {
        Ok(origin) => Ok(Some(origin)),
        Err(_) => Err(Unread::BadOrigin),
    }
}
