ghost use Rattle.std.specs.Prelude.{◌≡◌, IfOk};
ghost use Rattle.zone_text.specs.FileReads.{FileReads};

use crate::text_source::TextSource;
use std::alloc::{AllocError, Global};
use zone_name::Name;
use zone_rdata::Reading;

/// The records of a master file before its first fault, and that fault (RFC 1035 5.1).
///
/// # Errors
///
/// `AllocError`.
pub fn read_file(alloc: Global, origin: &Name, text: &[u8]) -> Result<Reading, AllocError>
    ensures { IfOk result
        (λ reading. FileReads origin.now text.now reading.placed.items reading.ending) }
{
    let mut source = TextSource::new(alloc, origin);
    source.feed(text).map_err(|_| AllocError)?;
    source.finish().map_err(|_| AllocError)?;
    Ok(source.into_reading())
}
