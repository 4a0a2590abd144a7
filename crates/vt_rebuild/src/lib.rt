//! The index of a log, built anew from the log alone (venti(8), buildindex).
// Tests: crates/vt_store_tests/src/upkeep.rt.
#![tactic(auto)]

mod error;
mod filling;
mod gathering;
mod heads;
mod rebuilding;
mod walking;

pub use error::RebuildBad;
pub use rebuilding::rebuild;

/// How many buckets all sections may have.
pub const MAX_BUCKETS: u64 = 1 << 20;

const _: () = prove!(MAX_BUCKETS == 1_048_576);

/// How many entries one reading of the log gathers at most, unless those of one bucket are more.
pub const GATHERED: usize = 1 << 20;

const _: () = prove!(GATHERED == 1_048_576);
