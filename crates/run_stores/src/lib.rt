//! The commands that format partitions, rebuild an index, check arenas and rehearse a store in memory
//! (venti(8)).
// Tests: crates/run_tests_stores/src.
#![tactic(auto)]

mod commands;
mod refusal;

pub use commands::buildindex::buildindex;
pub use commands::checkarenas::checkarenas;
pub use commands::fmtarenas::fmtarenas;
pub use commands::fmtbloom::fmtbloom;
pub use commands::fmtindex::fmtindex;
pub use commands::fmtisect::fmtisect;
pub use commands::rehearse::rehearse;
