//! The program: the words of its command line, the command that they ask for, and how that ended
//! (venti(8)).
// Tests: crates/run_tests_sessions/src, crates/run_tests_stores/src, crates/run_tests_archives/src.
#![tactic(auto)]

pub mod laws;
mod program;

pub use program::{end, run, run_with};
