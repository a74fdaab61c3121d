ghost use Rattle.std.specs.Prelude.{◌≡◌, ◌+◌, ◌^◌, ◌≤◌, ◌<◌, false, length, IfOk, IfErr};
ghost use Rattle.zone_engine.specs.Machine.Loading.{BeginsAs, ReadsAs, ReadsKnown};
ghost use Rattle.zone_engine.specs.Normalise.{IsOfReading};

use crate::fed::FedSource;
use crate::loader::ZoneLoader;
use crate::octets::{OctetReader, read_piece};
use std::alloc::Global;
use zone_rdata::{Fault, Place, Stop};
use zone_set::Zone;

/// The zone of what the reader gives up to its end, which is read into `piece` and fed to a source.
/// After a fault it reads on, since an input that is too long is refused for that.
///
/// # Errors
///
/// `Read` where the reader failed, by an interruption too; `Refused` with `InputTooLong` where it
/// gives more than `limit` octets, of which `limit + 1` are read, and else with the refusal of the
/// input, but for the length of its canonical text; `Memory`.
pub(crate) fn read_zone<S: FedSource, R: OctetReader>(
    alloc: Global,
    source: &mut S,
    reader: &mut R,
    piece: &mut [u8],
    limit: u64,
) -> Result<Zone, Stop>
    requires limit { limit + 2 < 2 ^ 64 }
    requires open { (S.held source.old).finished ≡ false }
    requires unfed { (S.held source.old).fed ≡ 0 }
    requires room { 0 < length piece.old }
    ensures zone { IfOk result (ReadsKnown
        (BeginsAs S.IsOf S.Leave (S.pending source.old) (S.held source.old)) limit
        (R.state reader.old).octets) }
    ensures stopped { IfErr result IsOfReading }
    ensures read { ReadsAs
        (BeginsAs S.IsOf S.Leave (S.pending source.old) (S.held source.old)) limit
        (R.state reader.old) (R.state reader.new) result }
{
    let mut loader = ZoneLoader::new(alloc);
    let mut count = 0;
    while count <= limit {
        let others = (limit - count).min(piece.len() as u64 - 1) as usize;
        let given = read_piece(reader, &mut piece[..others + 1])?;
        if given.is_empty() {
            return loader.finish(source);
        }
        loader.take(source, given)?;
        count += given.len() as u64;
    }
    Err(Stop::Refused(Fault::InputTooLong, Place::Whole))
}
