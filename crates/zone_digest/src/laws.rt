//! Laws of digests and verdicts: facts about their definitions alone, as the contracts of functions
//! that do nothing.
ghost use Rattle.std.specs.Prelude.{◌≡◌, ◌↔◌, List};
ghost use Rattle.zone_digest.specs.Digest.{AreDigestOctets, IsDigested, IsDigest};
ghost use Rattle.zone_digest.specs.Findings.{AreFindings};
ghost use Rattle.zone_digest.specs.Laws.{DifferInLeftOut, DifferInLetters, HasNoPair, HasOneMore, HasTtlOfItsSet, TellTheSame, TellsVerified};
ghost use Rattle.zone_digest.specs.Verdict.{IsSerial, IsVerdictOn, IsVerified, IsZonemd};
ghost use Rattle.zone_digest.specs.Wanted.{IsWanted, StatesDigest};
ghost use Rattle.zone_digest.specs.declared.algorithm.Algorithm.{Algorithm};
ghost use Rattle.zone_digest.specs.declared.algorithm.ZoneDigest.{ZoneDigest};
ghost use Rattle.zone_digest.specs.declared.verdict.Finding.{Finding};
ghost use Rattle.zone_digest.specs.declared.verdict.Verdict.{Verdict};
ghost use Rattle.zone_digest.specs.declared.verdict.Verdict.TheVariants.{Verified};
ghost use Rattle.zone_name.specs.Common.{AtMostOneIs, Octets};
ghost use Rattle.zone_rdata.specs.Record.{IsRecord, Record};
ghost use Rattle.zone_set.specs.Zone.{IsZone, SameRecords, Zone};

/// A zone has at most one digest by each hash algorithm.
pub fn one_digest_of_a_zone()
    ensures { (z : Zone) (a : Algorithm) → AtMostOneIs (IsDigest z a) }
{}

/// The octets that are digested tell the digested records: what two zones with the same ones have in
/// common is all but letters of names in data and what is left out.
pub fn digested_octets_tell_the_records()
    ensures { (z w : Zone) (octets : Octets) (r : Record) → IsZone z → IsZone w
        → AreDigestOctets z octets → AreDigestOctets w octets → IsDigested z r ↔ IsDigested w r }
{}

/// A zone has a digest by each hash algorithm.
pub fn each_zone_has_a_digest()
    ensures { (z : Zone) (a : Algorithm) → IsZone z → (d : ZoneDigest) × IsDigest z a d }
{}

/// A record has at most one verdict.
#[tactic(auto, using(crate::proofs::OneVerdict::one_verdict))]
pub fn one_verdict_of_a_record()
    ensures { (z : Zone) (r : Record) → AtMostOneIs (IsVerdictOn z r) }
{}

/// The letters of names in data don't matter, where the names are put in lower case (RFC 4034 6.2).
pub fn letters_of_names_dont_matter()
    ensures { (z w : Zone) (a : Algorithm) (d : ZoneDigest) → DifferInLetters z w
        → IsDigest z a d ↔ IsDigest w a d }
{}

/// The ZONEMD records at the apex don't matter, nor do the RRSIG records that cover them.
#[tactic(auto, using(crate::proofs::SameDigest::same_but_left_out))]
pub fn zonemd_records_dont_matter()
    ensures { (z w : Zone) (a : Algorithm) (d : ZoneDigest) → DifferInLeftOut z w
        → IsDigest z a d ↔ IsDigest w a d }
{}

/// A ZONEMD record can be added at the apex of a zone, if it has the zone's class and the TTL of
/// those that are there.
pub fn a_zonemd_record_fits()
    ensures { (z : Zone) (r : Record) → IsZone z → IsRecord r → r.class ≡ z.class
        → r.owner ≡ z.apex → r.kind ≡ 63 → HasTtlOfItsSet z r
        → (w : Zone) × IsZone w × HasOneMore z r w }
{}

/// The record that a zone wants has the TTL of the ZONEMD records that are there, so it can be added.
#[tactic(auto, using(crate::proofs::OneTtl::has_ttl))]
pub fn the_wanted_record_fits()
    ensures { (z : Zone) (r : Record) (a : Algorithm) → IsZone z → IsWanted z a r
        → HasTtlOfItsSet z r }
{}

/// In the zone with the record that states its digest this record is verified, if the zone has no
/// other of its scheme and hash algorithm.
pub fn the_record_of_a_digest_is_verified()
    ensures { (z w : Zone) (r : Record) (a : Algorithm) → StatesDigest z a r → HasNoPair z a
        → HasOneMore z r w → IsVerdictOn w r Verified }
{}

/// Each ZONEMD record at the apex of a zone has a verdict.
pub fn each_zonemd_record_has_a_verdict()
    ensures { (z : Zone) (r : Record) → IsZone z → IsZonemd z r
        → (v : Verdict) × IsVerdictOn z r v }
{}

/// A verdict depends on the apex and on the set of records alone.
pub fn one_zone_has_one_verdict()
    ensures { (z w : Zone) (r : Record) (v : Verdict) → z.apex ≡ w.apex
        → SameRecords z.records w.records → IsVerdictOn z r v ↔ IsVerdictOn w r v }
{}

/// A zone has at most one serial.
pub fn one_serial_of_a_zone()
    ensures { (z : Zone) → IsZone z → AtMostOneIs (IsSerial z) }
{}

/// A zone wants at most one record by a hash algorithm.
pub fn one_wanted_record()
    ensures { (z : Zone) (a : Algorithm) → IsZone z → AtMostOneIs (IsWanted z a) }
{}

/// The verdicts on the ZONEMD records of a zone are one list.
pub fn one_list_of_findings()
    ensures { (z : Zone) (findings others : List Finding) → AreFindings z findings
        → AreFindings z others → TellTheSame findings others }
{}

/// What is told of a zone says that a record is verified exactly if the zone is.
pub fn findings_tell_whether_a_zone_is_verified()
    ensures { (z : Zone) (findings : List Finding) → AreFindings z findings
        → TellsVerified findings ↔ IsVerified z }
{}
