//! An archive as a tree of files for a client that speaks 9P2000 (vacfs(4)), of any store of blocks; and
//! what holds of that over the store of a configuration and over a server at an address.
// Tests: crates/nine_tests/src/shown.rt.
#![tactic(auto)]

mod archive;
mod job;
pub mod laws;

pub use archive::view_archive;
pub use job::ViewArchive;
