ghost use Rattle.std.specs.Prelude.{◌≡◌, IfOk, IsTrue, ◌↔◌};
ghost use Rattle.zone_generate.specs.Lines.{IsOneLine};

use std::alloc::{AllocError, Global};
use zone_text::{FirstEntry, first_entry, line_feeds};

/// Whether octets are one entry of a master file (RFC 1035 5.1), with the line feed that ends it
/// and no other.
pub(crate) fn is_one_line(alloc: Global, octets: &[u8]) -> Result<bool, AllocError>
    ensures { IfOk result (λ is. IsTrue is ↔ IsOneLine octets.now) }
{
    if line_feeds(octets) != 1 {
        return Ok(false);
    }
    let mut items = Vec::new(alloc);
    match first_entry(octets, &mut items)? {
        FirstEntry::Whole(len) => Ok(len == octets.len()),
        FirstEntry::Open => Ok(false),
        FirstEntry::BadEscape => Ok(false),
        FirstEntry::UnbalancedParenthesis => Ok(false),
    }
}
