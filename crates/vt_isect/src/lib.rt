//! A section of the index: a head, and buckets that hold the entries of blocks. Entries are written
//! back to groups of buckets and the head's mark is raised behind them, one device call at a time,
//! so that whatever a crash leaves has for each block below the mark its entry.
// Tests: crates/vt_index_tests/src/isect.rt.
#![tactic(auto)]

mod entries;
mod error;
mod filling;
mod formatting;
mod groups;
mod head;
mod laws;
mod merging;
mod mounting;
mod phase;
mod place;
mod remembered;
mod section;
mod writeback;

pub use entries::Entries;
pub use error::{Field, SectBad, ShardErr};
pub use formatting::format;
pub use groups::Member;
pub use head::Head;
pub use laws::{
    agreement_grows, agreement_is_kept, blocks_are_counted, images_agree, one_key_has_one_entry,
    sections_are_told_apart, soundness_is_kept, what_is_read_is_settled,
};
pub use mounting::mount;
pub use place::bucket_number;
pub use section::Section;
use vt_disk::{BLOCK_LEN, NAME_LEN, SECTOR_LEN};

/// How many bytes a frame has, that of the head and that of a bucket.
pub const FRAME_LEN: usize = BLOCK_LEN;

const _: () = prove!(FRAME_LEN == 8192);

/// How many bytes the place of the head has: two frames and a block.
pub const HEAD_PLACE_LEN: u64 = 2 * FRAME_LEN as u64 + BLOCK_LEN as u64;

const _: () = prove!(HEAD_PLACE_LEN == 24_576);

/// How many bytes the place of a bucket has: two frames and a sector.
pub const BUCKET_PLACE_LEN: u64 = 2 * FRAME_LEN as u64 + SECTOR_LEN as u64;

const _: () = prove!(BUCKET_PLACE_LEN == 16_896);

/// How many bytes the least section has: a head and one bucket.
pub const LEAST_LEN: u64 = HEAD_PLACE_LEN + BUCKET_PLACE_LEN;

const _: () = prove!(LEAST_LEN == 41_472);

/// How many bytes of a frame the head's fields are: magic, version, state, name, first, count,
/// total and mark.
pub const FIELDS_LEN: usize = 4 + 2 + 1 + NAME_LEN + 4 + 4 + 4 + 8;

const _: () = prove!(FIELDS_LEN == 91);

/// How many buckets are written back together at most, behind one sync of their frames and one of
/// their selectors.
pub const GROUP_MAX: usize = 64;

const _: () = prove!(GROUP_MAX == 64);
