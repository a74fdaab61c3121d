//! Names, words and numbers, record data, records, messages and entries, by worked examples.
use std::test::Fail;
use zone_rdata::{Failing, Fault};

mod addresses;
mod answers;
mod generated_lines;
mod growth;
mod handed;
mod items;
mod messages;
mod names;
mod names_in_data;
mod parsing;
mod primitives;
mod records;
mod shown;
mod wire;
mod words;

/// An answer or its fault.
///
/// # Errors
///
/// Want of memory.
fn judged<T>(answer: Result<T, Failing>) -> Result<Result<T, Fault>, Fail> {
    match answer {
        Ok(answer) => Ok(Ok(answer)),
        Err(Failing::Fault(fault)) => Ok(Err(fault)),
        Err(Failing::Memory) => Err(Fail::from("memory")),
    }
}
