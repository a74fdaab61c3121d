//! A writer to memory, which never fails.
ghost use Rattle.std.specs.Prelude.{◌≡◌, [], false, IfOk, Some, ⊤};

use crate::ghost_octets::{GhostOctets, Piece};
use crate::write::OctetWriter;
use std::alloc::{AllocError, Global};
use zone_rdata::Stop;

/// A writer to a vector, which never fails: of it the contracts of all that writes say that `Write`
/// isn't answered. Where memory is refused it goes on, and `finish` tells.
#[derive(Drop)]
pub struct OctetVec {
    octets: Vec<u8>,
    /// Memory was refused.
    refused: bool,
    /// All octets that were written, kept or not.
    written: GhostOctets,
    // All are kept unless memory was refused.
    ghost kept: { refused ≡ false → octets.items ≡ written.octets },
}

impl OctetVec {
    ghost use Rattle.zone_print.specs.OctetVec.{written};

    /// No octet was written.
    pub fn new(alloc: Global) -> OctetVec
        ensures { written result ≡ [] }
    {
        OctetVec {
            octets: Vec::new(alloc),
            refused: false,
            written: GhostOctets::new(),
        }
    }

    /// All octets that were written.
    ///
    /// # Errors
    ///
    /// Want of memory, when they were written.
    pub fn finish(self) -> Result<Vec<u8>, AllocError>
        ensures { IfOk result (λ octets. octets.items ≡ written self) }
    {
        if self.refused {
            Err(AllocError)
        } else {
            Ok(self.octets)
        }
    }
}

impl OctetWriter for OctetVec {
    ghost use Rattle.zone_print.specs.OctetVec.{written};

    ghost state = { λ writer. record { octets = Some (written writer); works = ⊤; failed = ⊥ } };

    fn write_some(&mut self, octets: &[u8]) -> Result<usize, Stop> {
        let written = self.written.followed_by(&Piece { octets });
        let refused = self.refused || self.octets.extend_from_slice(octets).is_err();
        self.refused = refused;
        self.written = written;
        Ok(octets.len())
    }
}
