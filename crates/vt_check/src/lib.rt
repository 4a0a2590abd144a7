//! Checking the arenas of a log (venti(8), checkarenas).
// Tests: crates/vt_store_tests/src/check.rt.
#![tactic(auto)]

mod checking;
mod clumps;

pub use checking::{ArenaReport, BYTES_AT_ONCE, CLUMPS_AT_ONCE, CheckErr, Damage, Report, check};
