//! The system's calls, of which each that fails is told to a `Teller`.
//!
//! What wraps them stands between them and the adapters of `vt_host`, and is to each clause on these
//! calls what it wraps. What is done with what is told, no clause speaks of.
// Tests: crates/vt_told_tests/src/calls.rt, lines.rt (lines).
#![tactic(auto)]

mod error_lines;
mod reasons;
mod teller;
mod told;
mod told_clock;
mod told_files;
mod told_folders;
pub mod told_laws;
mod told_net;
mod told_streams;

pub use error_lines::ErrorLines;
pub use teller::{Call, Teller};
pub use told::{Told, ToldAs};
pub use told_net::ToldNet;
