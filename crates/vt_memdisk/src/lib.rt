//! A disk in memory. Between two syncs, a crash leaves any combination of the bytes that writes
//! touched.
// Tests: crates/vt_disk_tests/src/memdisk.rt.
#![tactic(auto)]

mod cells;
mod choices;
mod crash;
mod dirty;
mod laws;
mod mem_disk;
mod plan;

pub use crash::CrashMode;
pub use laws::{each_image_is_chosen, memory_as_a_disk, nothing_pending, unsynced_writes};
pub use mem_disk::MemDisk;
pub use plan::{Listed, Never, Plan};
