//! What answers are written with.
use std::alloc::{AllocError, Global};
use std::fmt::Display;
use std::test::Fail;

/// Appends a text.
pub fn push_text(out: &mut Vec<u8>, text: &str) -> Result<(), Fail> {
    Ok(out.extend_from_slice(text.as_bytes())?)
}

/// Appends what is shown so.
pub fn push_words<D: Display + Drop>(
    alloc: Global,
    out: &mut Vec<u8>,
    words: D,
) -> Result<(), Fail> {
    push_text(out, format!(in alloc; "{words}")?.as_str())
}

/// Appends `#` and octets in hexadecimal digits.
pub fn push_hex(alloc: Global, out: &mut Vec<u8>, octets: &[u8]) -> Result<(), Fail> {
    push_text(out, "#")?;
    for octet in octets {
        push_words(alloc, out, format_args!("{octet:02x}"))?;
    }
    Ok(())
}

/// A vector for what is written, with room for the text of each row.
pub fn roomy(alloc: Global) -> Result<Vec<u8>, AllocError> {
    Vec::with_capacity(alloc, 1024)
}
