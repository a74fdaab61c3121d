//! Which hash algorithms were seen in ZONEMD records (RFC 8976 2).
ghost use Rattle.std.specs.Prelude.{◌≡◌, ◌⊎◌, IfSome, false, true};
ghost use Rattle.zone_digest.specs.Machine.Seen.{HasPair, has_seen};

use crate::algorithm::Algorithm;
use crate::fields::{algorithm_of, fields_at};

/// Which hash algorithms the records of scheme SIMPLE have that were looked at.
#[derive(Clone, Copy, Debug)]
pub(crate) struct Seen {
    sha384: bool,
    sha512: bool,
}

impl Seen {
    /// None was looked at.
    pub(crate) fn none() -> Seen
        ensures { (a : Algorithm) → has_seen result a ≡ false }
    {
        Seen {
            sha384: false,
            sha512: false,
        }
    }

    /// Whether one has this algorithm.
    pub(crate) fn has(self, algorithm: Algorithm) -> bool
        ensures { result ≡ has_seen self algorithm }
    {
        match algorithm {
            Algorithm::Sha384 => self.sha384,
            Algorithm::Sha512 => self.sha512,
        }
    }

    /// The same once one with this data was looked at too.
    pub(crate) fn with(self, octets: &[u8]) -> Seen
        ensures { (a : Algorithm) → has_seen result a ≡ true
            → (has_seen self a ≡ true) ⊎ HasPair octets.now a }
    {
        match algorithm_in(octets) {
            Some(Algorithm::Sha384) => Seen {
                sha384: true,
                ..self
            },
            Some(Algorithm::Sha512) => Seen {
                sha512: true,
                ..self
            },
            None => self,
        }
    }
}

/// The hash algorithm of data that has scheme SIMPLE.
fn algorithm_in(octets: &[u8]) -> Option<Algorithm>
    ensures { IfSome result (HasPair octets.now) }
{
    algorithm_of(&fields_at(octets)?)
}
