ghost use Rattle.std.specs.Prelude.{◌≡◌, [], OnOk, OnErr, IfOk, IfErr};
ghost use Rattle.std.specs.Io.{WritesAtMost};
ghost use Rattle.std.specs.Io.KnownBytes.{Appends, WriteAppends};
ghost use Rattle.zone_print.specs.Device.{Device, WorksOn, of_std};
ghost use Rattle.zone_print.specs.Writing.{AppendsPart, IsFailedWrite};

use std::io::Write;
use zone_rdata::Stop;

/// What octets are written to. Every writer of std is one.
///
/// All that writes is proved for every `state`. So it answers `Write` only where a call of the
/// writer did, and where one did it answers `Write`, and calls it no more.
pub trait OctetWriter {
    /// The octets that it holds, where they are known; that no call of it has failed; and that its
    /// last call failed, and none before.
    ghost state: { Self → Device };

    /// Takes a prefix of the octets and answers its length, which is 0 for no octets alone.
    ///
    /// # Errors
    ///
    /// `Write` where it failed. Nothing was taken.
    fn write_some(&mut self, octets: &[u8]) -> Result<usize, Stop>
        ensures bound { WritesAtMost result octets.now }
        ensures bytes { WriteAppends (state self.old).octets (state self.new).octets
            result octets.now }
        ensures some { IfOk result (λ n. n ≡ 0 → octets.now ≡ []) }
        ensures works { OnOk result (WorksOn (state self.old) (state self.new)) }
        ensures failed { IfErr result (IsFailedWrite (state self.old) (state self.new)) };
}

/// Std's trait can't say that a writer failed: nothing is known of it.
impl<W: Write> OctetWriter for W {
    ghost state = { λ writer. of_std (W.contents writer) };

    fn write_some(&mut self, octets: &[u8]) -> Result<usize, Stop> {
        if octets.is_empty() {
            return Ok(0);
        }
        match self.write(octets) {
            Ok(0) | Err(_) => Err(Stop::Write),
            Ok(n) => Ok(n),
        }
    }
}

/// Writes all these octets. Every error of the writer ends it, `Interrupted` too. It doesn't flush
/// the writer.
///
/// # Errors
///
/// `Write` where the writer failed. A proper prefix of the octets was written.
#[tactic(auto, using(crate::proofs::Front::left_after))]
pub fn write_octets<W: OctetWriter>(writer: &mut W, octets: &[u8]) -> Result<(), Stop>
    ensures written { OnOk result
        (Appends (W.state writer.old).octets (W.state writer.new).octets octets.now) }
    ensures part { OnErr result
        (AppendsPart (W.state writer.old).octets (W.state writer.new).octets octets.now) }
    ensures works { OnOk result (WorksOn (W.state writer.old) (W.state writer.new)) }
    ensures failed { IfErr result (IsFailedWrite (W.state writer.old) (W.state writer.new)) }
{
    let mut rest = octets;
    while !rest.is_empty() {
        let count = writer.write_some(rest)?;
        let (_, after) = rest.split_at(count);
        rest = after;
    }
    Ok(())
}
