//! The digest of a zone and the verdicts on its ZONEMD records (RFC 8976).
#![tactic(auto)]

mod algorithm;
mod digest;
mod emit;
mod fields;
pub mod laws;
mod ordered;
mod seen;
mod serial;
mod verdict;
mod wanted;

pub use algorithm::{Algorithm, ZoneDigest};
pub use digest::digest_of;
pub use serial::serial_of;
pub use verdict::{Finding, Verdict, verify};
pub use wanted::zonemd_of;
