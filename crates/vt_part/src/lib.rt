//! Partitions of arenas: a block that names a disk and says into how many arenas it is divided, and
//! behind it their regions, one after another.
// Tests: crates/vt_disk_tests/src/part.rt.
#![tactic(auto)]

mod error;
mod formatting;
mod head;
mod laws;
mod layout;
mod listing;
mod mounting;
mod part;

pub use error::{Field, PartBad};
pub use formatting::{format, is_arena_size, is_name};
pub use laws::{
    arenas_are_apart, layouts_are_in_order, partitions_are_told_apart, partitions_stay_on_disks,
};
pub use layout::{ArenaRegion, Layout};
pub use listing::list;
pub use mounting::mount;
pub use part::Part;
use vt_disk::NAME_LEN;

/// How many bytes the table has: magic, version, name, size of an arena and count.
pub const TABLE_LEN: usize = 4 + 2 + NAME_LEN + 8 + 4;

const _: () = prove!(TABLE_LEN == 82);
