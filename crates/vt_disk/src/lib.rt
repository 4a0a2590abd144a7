//! A disk: what a read gives, and what a crash may leave.
// Tests: crates/vt_disk_tests/src/memdisk.rt (disks, regions), crates/vt_disk_tests/src/twin.rt
// (calls that are counted).
#![tactic(auto)]

mod call;
mod disk;
mod laws;
mod region;

pub use call::{Call, CallCount, CallError};
pub use disk::Disk;
pub use laws::moments_within_calls;
pub use region::Region;

/// How many bytes a sector has, the least piece that a torn write leaves whole or not.
pub const SECTOR_LEN: usize = 512;

const _: () = prove!(SECTOR_LEN == 512);

/// How many bytes a block of a layout has: the heads of this project's structures are counted in
/// them.
pub const BLOCK_LEN: usize = 16 * SECTOR_LEN;

const _: () = prove!(BLOCK_LEN == 8192);

/// How many bytes the head of a partition or a section keeps for its name, with the zeros that fill
/// it up.
pub const NAME_LEN: usize = 64;

const _: () = prove!(NAME_LEN == 64);

/// The least bytes of an arena.
pub const LEAST_ARENA: u64 = 4 * BLOCK_LEN as u64;

const _: () = prove!(LEAST_ARENA == 32_768);

/// The most bytes of an arena.
pub const MOST_ARENA: u64 = 1 << 30;

const _: () = prove!(MOST_ARENA == 1_073_741_824);
