//! The words of the program's command line (venti(8)), as clap reads them.
// Tests: crates/vt_base_tests/src/words.rt.
#![tactic(auto)]

mod asked;
mod command;
pub mod laws;
mod venti;

pub use asked::{Asked, ask};
pub use command::Command;
