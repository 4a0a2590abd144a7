//! The commands that archive a folder and show an archive (vac(1), vacfs(4)).
// Tests: crates/run_tests_archives/src.
#![tactic(auto)]

mod commands;
mod skipped;
mod viewed;
mod watched;

pub use commands::vac::vac;
pub use commands::vacfs::vacfs;
pub use skipped::paths_are_told_apart;
