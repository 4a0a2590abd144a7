//! The shape of a store.

/// How large a store is. Its arenas stand in one partition.
#[derive(Clone, Copy, Debug, PartialEq, Eq)]
pub struct Shape {
    pub arenas: u32,
    /// How many bytes each arena has.
    pub arena_len: u64,
    pub sections: u32,
    /// How many buckets each section has.
    pub buckets: u32,
    /// How many bytes the Bloom filter has.
    pub filter: u64,
    /// How many of its bits a score has.
    pub positions: u8,
}
