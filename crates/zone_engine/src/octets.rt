ghost use Rattle.std.specs.Prelude.{◌≡◌, ◌<◌, ◌≤◌, [], Some, IfErr, IfOk, OnErr, OnOk, length, replicate, ⊤};
ghost use Rattle.std.specs.Io.{ReadsAtMost};
ghost use Rattle.std.specs.Io.KnownBytes.{Consumes, IsAtEnd, Keeps, ReadConsumes};
ghost use Rattle.zone_print.specs.Device.{Device, WorksOn, of_std};
ghost use Rattle.zone_engine.specs.Reading.{IsFailedRead};

use std::alloc::{AllocError, Global};
use std::io::Read;
use zone_rdata::Stop;

/// What octets are read from. Every reader of std is one.
///
/// All that reads is proved for every `state`. So it answers `Read` only where a call of the reader
/// did, and where one did it answers `Read`, and calls it no more.
pub trait OctetReader {
    /// The octets that it has still to give, where they are known; that no call of it has failed;
    /// and that its last call failed, and none before.
    ghost state: { Self → Device };

    /// Reads into a prefix of `piece` and answers its length, which is 0 at the end or for an empty
    /// piece alone.
    ///
    /// # Errors
    ///
    /// `Read` where it failed. Nothing was read.
    fn read_some(&mut self, piece: &mut [u8]) -> Result<usize, Stop>
        ensures bound { ReadsAtMost result piece.new }
        ensures bytes { ReadConsumes (state self.old).octets (state self.new).octets
            result piece.new }
        ensures works { OnOk result (WorksOn (state self.old) (state self.new)) }
        ensures failed { IfErr result (IsFailedRead (state self.old) (state self.new)) };
}

/// Std's trait can't say that a reader failed: nothing is known of it.
impl<R: Read> OctetReader for R {
    ghost state = { λ reader. of_std (R.remaining reader) };

    fn read_some(&mut self, piece: &mut [u8]) -> Result<usize, Stop> {
        self.read(piece).map_err(|_| Stop::Read)
    }
}

/// A reader of octets in memory, which never fails: of it the contracts of all that reads say that
/// `Read` isn't answered.
#[derive(Drop)]
pub struct OctetSlice<'o> {
    /// Those that it has still to give.
    pub rest: &'o [u8],
}

impl OctetReader for OctetSlice<'_> {
    ghost state = { λ slice. record { octets = Some slice.rest.now; works = ⊤; failed = ⊥ } };

    fn read_some(&mut self, piece: &mut [u8]) -> Result<usize, Stop> {
        self.rest.read(piece).map_err(|_| Stop::Read)
    }
}

/// How many octets one read asks for at most.
pub const PIECE: usize = 65_536;

/// So many zero octets, to read into. The length is a parameter, so that no proof counts up to it.
///
/// # Errors
///
/// Want of memory.
pub fn zeros(alloc: Global, len: usize) -> Result<Vec<u8>, AllocError>
    ensures zeros { IfOk result (λ octets. octets.items ≡ replicate len 0) }
    ensures len { IfOk result (λ octets. length octets.items ≡ len) }
{
    vec![in alloc; 0u8; len]
}

/// What one read into `piece` gives: nothing at the end alone.
///
/// # Errors
///
/// `Read` where the reader failed. Nothing was read.
pub fn read_piece<'p, R: OctetReader>(reader: &mut R, piece: &'p mut [u8]) -> Result<&'p [u8], Stop>
    requires { 0 < length piece.old }
    ensures taken { IfOk result
        (λ given. Consumes (R.state reader.old).octets (R.state reader.new).octets given.now) }
    ensures few { IfOk result (λ given. length given.now ≤ length piece.old) }
    ensures end { IfOk result (λ given. given.now ≡ [] → IsAtEnd (R.state reader.new).octets) }
    ensures works { OnOk result (WorksOn (R.state reader.old) (R.state reader.new)) }
    ensures failed { IfErr result (IsFailedRead (R.state reader.old) (R.state reader.new)) }
    ensures kept { OnErr result
        (Keeps (R.state reader.old).octets (R.state reader.new).octets) }
{
    let count = reader.read_some(piece)?;
    Ok(&piece[..count])
}
