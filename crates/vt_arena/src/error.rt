//! Why an arena, a clump or a directory entry is refused.

use vt_base::FieldValue;

/// A field of a head that is tested.
#[derive(Clone, Copy, Debug, PartialEq, Eq)]
pub enum Field {
    /// The version of the format, 1 or 2.
    Version,
    /// The arena's number in its partition.
    Number,
    /// The byte that says whether the arena is closed for more: 0 or 1.
    Sealed,
    /// What clumps and directory take by the head's counts, in bytes.
    Used,
    /// How many sectors the last clump takes; version 1 doesn't have it.
    Last,
}

/// Why an arena can't be mounted.
#[derive(Clone, Copy, Debug, PartialEq, Eq)]
pub enum ArenaBad {
    /// A call of the disk failed, and its count of faults rose.
    Fault,
    /// The first four bytes of the head aren't `VARN`.
    NotFormatted,
    /// What was found in a field can't stand there. What was wanted is the one value that can or,
    /// where there are several, the largest.
    Torn {
        field: Field,
        found: u128,
        want: u128,
    },
    /// Memory ran out.
    NoMemory,
}

/// Why a clump can't be read.
#[derive(Clone, Copy, Debug, PartialEq, Eq)]
pub enum ReadBad {
    /// A call of the disk failed, and its count of faults rose.
    Fault,
    /// What stands there differs by this value from a clump.
    Damaged { want: FieldValue, found: FieldValue },
    /// Memory ran out.
    NoMemory,
}

/// Why a directory entry, or the header that stands for one, isn't given.
#[derive(Clone, Copy, Debug, PartialEq, Eq)]
pub enum BackBad {
    /// A call of the disk failed, and its count of faults rose.
    Fault,
    /// A value of the entry or header can't stand there.
    Damaged { want: FieldValue, found: FieldValue },
}
