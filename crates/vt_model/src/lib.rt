//! What a write-once block store answers: laws over one list of blocks, and a store that is that
//! list.
// Tests: crates/vt_base_tests/src/model.rt.
#![tactic(auto)]

pub mod laws;
mod layout;
mod plain;
mod stored;

pub use layout::bucket_of;
pub use plain::PlainStore;

/// How many bytes the head of an arena takes, and so where its first block stands: two frames and a
/// block.
pub const ARENA_HEAD_LEN: usize = 2 * 8_192 + 8_192;

/// How many bytes stand before a block in its arena: magic, type, two sizes, score, encoding,
/// creator and time.
pub const CLUMP_HEADER_LEN: usize = 4 + 1 + 2 + 2 + 20 + 1 + 4 + 4;

/// How many bytes an arena's directory keeps of a block: type, two sizes and score.
pub const DIRECTORY_ENTRY_LEN: usize = 1 + 2 + 2 + 20;

/// In an arena of version 2 a clump takes a multiple of so many bytes, and so does the directory:
/// those of a disk's sector.
pub const CLUMP_UNIT: usize = 512;

/// The version of the arenas that blocks are put into. One of another version takes no more.
pub const WRITTEN_VERSION: u16 = 1;

/// The version in which an arena's clumps take whole sectors, and its directory does.
pub const SECTOR_VERSION: u16 = 2;

/// How many blocks a bucket of the index has room for.
pub const BUCKET_ROOM: usize = 263;
