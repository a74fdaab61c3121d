//! What no contract says: worked examples, texts for people, and devices that fail.
use std::alloc::Global;
use std::test::Fail;
use test_support::{check_octets, push_text, roomy};
use zone_engine::{Form, explain_line, normalise_bytes};
use zone_rdata::Stop;

mod conflicts;
mod devices;
mod differences;
mod digest_runs;
mod digests;
mod explained;
mod failing_reads;
mod fed_files;
mod files;
mod generated;
mod limits;
mod lists;
mod orders;
mod pieces;
mod programs;
mod readings;
mod rfc_8976;
mod runs;
mod scripts;
mod streams;
mod transfers;
mod vectors;
mod zones;

/// Appends the line that explains a stop, up to the colon: number, name, argument and place.
///
/// # Errors
///
/// Want of memory, also where that is the stop.
fn push_stop(alloc: Global, out: &mut Vec<u8>, stop: &Stop) -> Result<(), Fail> {
    if matches!(stop, Stop::Memory) {
        return Err(Fail::from("memory"));
    }
    let line = explain_line(alloc, stop)?;
    let (front, _) = line
        .as_str()
        .split_once(": ")
        .unwrap_or((line.as_str(), ""));
    push_text(out, front)
}

/// Appends what an input is answered: its canonical text from the next line on, or on this line
/// what explains the refusal.
///
/// # Errors
///
/// Want of memory, also where that is the answer.
fn push_answer(
    alloc: Global,
    out: &mut Vec<u8>,
    answered: Result<Vec<u8>, Stop>,
) -> Result<(), Fail> {
    match answered {
        Ok(text) => {
            push_text(out, "\n")?;
            Ok(out.extend_from_slice(&text)?)
        }
        Err(stop) => {
            push_text(out, " ")?;
            push_stop(alloc, out, &stop)?;
            push_text(out, "\n")
        }
    }
}

/// That octets are refused, by a stop that is explained so.
fn check_refused(alloc: Global, form: Form<'_>, octets: &[u8], front: &str) -> Result<(), Fail> {
    check_stopped(alloc, normalise_bytes(alloc, form, octets).err(), front)
}

/// That a call was stopped, by a stop that is explained so.
fn check_stopped(alloc: Global, stopped: Option<Stop>, front: &str) -> Result<(), Fail> {
    let mut told = roomy(alloc)?;
    match stopped {
        Some(stop) => push_stop(alloc, &mut told, &stop)?,
        None => push_text(&mut told, "accepted")?,
    }
    check_octets("a refusal", &told, front.as_bytes())
}
