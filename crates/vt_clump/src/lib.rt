//! Clumps: a block with its header, as it stands in an arena.
// Tests: crates/vt_disk_tests/src/clump.rt.
#![tactic(auto)]

mod header;
mod laws;
mod packed;
mod packing;
mod reading;

pub use header::{HEADER_LEN, block_len};
pub use laws::clumps_are_told_apart;
pub use packed::Packed;
pub use packing::pack;
pub use reading::{Clump, ClumpBad, Encoding, unpack, unpack_block};
