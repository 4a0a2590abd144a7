//! The entries of the index that are kept in memory: dirty ones, which aren't yet written back to
//! their buckets and are never lost, and clean ones, of which the least recently used goes where
//! there is no room. Only `new` takes memory, but that a clean entry is dropped where there is none
//! for it.
// Tests: crates/vt_disk_tests/src/icache.rt.
#![tactic(auto)]

mod cache;

pub use cache::{IndexCache, entry_of};
