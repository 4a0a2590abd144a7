//! A shard: one section of the index with what is kept in memory for it. Entries of new blocks wait
//! there until they are written back to their buckets, those that were are kept too, and so are
//! blocks that were read. Whatever is dropped from memory, and whatever is under way, a search in
//! it is the search in the blocks that it has.
//!
//! Only `mount` and `keep_lump` take memory.
// Tests: crates/vt_index_tests/src/shard.rt.
#![tactic(auto)]

mod laws;
mod looking;
mod mounting;
mod shard;
mod writeback;

pub use laws::{
    base_is_free, files_agree, more_are_durable, no_block_lacks, numbers_are_durable,
    others_are_added, others_lack_nothing,
};
pub use mounting::{Sizes, mount};
pub use shard::Shard;

/// How many dirty entries a shard has room for.
pub const ROOM: u32 = 1024;
