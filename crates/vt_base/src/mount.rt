//! Why a store can't be mounted.

use crate::{FieldValue, Site};

/// A field of a part of a store that is compared at mounting.
#[derive(Clone, Copy, Debug, PartialEq, Eq)]
pub enum MountField {
    /// The version of an on-disk structure.
    Version,
    /// The number of an arena in its partition.
    Number,
    /// Whether an arena is sealed.
    Sealed,
    /// How many bytes of an arena are in use, its directory counted.
    Used,
    /// How many sectors the last clump of an arena takes.
    Last,
    /// How many clumps an arena has.
    Clumps,
    /// How many bytes each arena of a partition has.
    ArenaSize,
    /// How many arenas a partition has, or buckets a section.
    Count,
    /// The state of an index section.
    State,
    /// The number of a section's first bucket.
    First,
    /// How many buckets all sections have.
    Total,
    /// How many blocks of the log have their entries, or their bits of the filter, on the disk.
    Mark,
    /// The exponent of a filter's count of bits.
    M,
    /// How many bits of a filter each score has.
    K,
    /// How many blocks of the log one bucket has.
    Crowd,
    /// How many arenas all partitions have (no test: the disks would be too large).
    Arenas,
    /// How many buckets all sections have, where there are too many (no test: the disks would be too
    /// large).
    Buckets,
}

/// Why a store can't be mounted. Parts are counted from 0 in the order of the configuration: first
/// the partitions of arenas, then the index sections, then the Bloom filter.
#[derive(Clone, Copy, Debug, PartialEq, Eq)]
pub enum MountBad {
    /// A device call failed, and the device's count of faults rose.
    Fault,
    /// The part has no magic number.
    NotFormatted {
        part: u32,
    },
    /// The part has `len` bytes, and needs `need`.
    TooSmall {
        part: u32,
        len: u64,
        need: u64,
    },
    /// Two partitions, by their numbers, have one name.
    DuplicateName {
        first: u32,
        second: u32,
    },
    /// A field of the part is another than the layout, the configuration or the log wants. Sums of
    /// fields as read can pass 64 bits.
    Disagree {
        part: u32,
        field: MountField,
        found: u128,
        want: u128,
    },
    /// What was read differs from what was wanted.
    Damaged {
        site: Site,
        want: FieldValue,
        found: FieldValue,
    },
    /// Memory ran out.
    NoMemory,
}
