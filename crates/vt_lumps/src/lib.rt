//! A cache of blocks: up to so many, of which the least recently used one goes where there is no
//! room for a new one.
// Tests: crates/vt_disk_tests/src/lumps.rt.
#![tactic(auto)]

mod lumps;

pub use lumps::Lumps;
