//! Where blocks stand, and what is kept of them beside their bytes.

use crate::Key;

/// Where a block stands: its arena's number over all partitions, and its offset in the arena's region.
#[derive(Clone, Copy, Debug, PartialEq, Eq)]
pub struct Place {
    /// Counted from 0; where vt_arena gives it, within the partition alone.
    pub arena: u32,
    /// In bytes; the arena's head is counted.
    pub offset: u32,
}

/// What the index keeps of a block: its key, how many bytes it has, and where it stands.
#[derive(Clone, Copy, Debug, PartialEq, Eq)]
pub struct Entry {
    pub key: Key,
    pub size: u16,
    pub place: Place,
}

/// What a directory says of a block: its index entry, and its number in the log, counted from 0.
#[derive(Clone, Copy, Debug, PartialEq, Eq)]
pub struct Info {
    pub key: Key,
    pub size: u16,
    pub place: Place,
    /// Where vt_arena gives it, within the arena alone.
    pub number: u64,
}
