//! Test vectors of whole inputs: rows of which the answer is the canonical text from the line after
//! `=>` on, or on that line what explains the refusal.
use crate::tests::streams::STREAMS;
use std::alloc::{AllocError, Global};
use std::test::Fail;
use test_support::{Question, check_table, parted, rooted, stream_of};
use zone_engine::{Form, normalise_bytes};
use zone_name::Name;
use zone_rdata::Stop;

mod data;
mod directives;
mod groups;
mod kept;
mod lexing;
mod names;
mod printing;
mod read_back;
mod services;
mod sets;
mod short_files;

/// An input: the octets of a master file and its origin, or those of a stream.
#[derive(Drop)]
pub(super) struct Input {
    pub(super) origin: Option<Name>,
    pub(super) octets: Vec<u8>,
}

impl Input {
    /// What `normalise_bytes` answers.
    pub(super) fn answered(&self, alloc: Global) -> Result<Vec<u8>, Stop> {
        normalise_bytes(alloc, Form::with_origin(&self.origin), &self.octets)
    }
}

/// The octets of a text.
pub(super) fn file_of(alloc: Global, text: &str) -> Result<Vec<u8>, AllocError> {
    let mut octets = Vec::new(alloc);
    octets.extend_from_slice(text.as_bytes())?;
    Ok(octets)
}

/// The input of a row, which has a name and the origin of a file on its first line, and then the
/// file, or the stream in notation.
pub(super) fn input_of(alloc: Global, asked: &'static str) -> Result<Input, Fail> {
    let (head, text) = parted(asked, "\n")?;
    match head.split_once(' ') {
        Some((_, origin)) => Ok(Input {
            origin: Some(rooted(origin.as_bytes())?),
            octets: file_of(alloc, text)?,
        }),
        None => Ok(Input {
            origin: None,
            octets: stream_of(alloc, text)?,
        }),
    }
}

/// The tables of master files.
static TABLES: &[&str] = &[
    short_files::FILES,
    names::FILES,
    data::FILES,
    lexing::FILES,
    directives::FILES,
    sets::FILES,
    printing::FILES,
    services::FILES,
    groups::FILES,
    kept::FILES,
    read_back::FILES,
];

/// That each master file gets its answer.
///
/// # Errors
///
/// The first that gets another.
pub(super) fn check_files<Q: Question>(alloc: Global) -> Result<(), Fail> {
    for table in TABLES {
        check_table::<Q>(alloc, table)?;
    }
    Ok(())
}

/// That each master file and each stream gets its answer.
///
/// # Errors
///
/// The first that gets another.
pub(super) fn check_inputs<Q: Question>(alloc: Global) -> Result<(), Fail> {
    check_files::<Q>(alloc)?;
    check_table::<Q>(alloc, STREAMS)
}
