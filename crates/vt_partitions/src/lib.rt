//! Partitions that are handed out by name, as a trait, and those in memory, which are kept from one
//! run to the next.
// Tests: crates/vt_disk_tests/src/memparts.rt.
#![tactic(auto)]

mod fault_count;
mod laws;
mod lending;
mod making_disks;
mod mem_parts;
mod parts;

pub use laws::what_is_handed_out;
pub use lending::MemPart;
pub use making_disks::{Failing, MakesDisks};
pub use mem_parts::MemParts;
pub use parts::Parts;
