//! A store of this process, or a share of one, as a store of blocks for files and archives.
// Tests: crates/vt_wire_tests/src/local.rt.
#![tactic(auto)]

pub mod laws;
mod local;

pub use local::Local;
