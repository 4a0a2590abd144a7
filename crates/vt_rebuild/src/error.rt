//! Why an index isn't rebuilt.

use vt_base::{FieldValue, Place};

/// Why an index isn't rebuilt.
#[derive(Clone, Copy, Debug, PartialEq, Eq)]
pub enum RebuildBad {
    /// A call of a disk failed, and its count of faults rose.
    Fault,
    /// More than 263 blocks of the log have the bucket of this number, and none before it has as
    /// many.
    IndexFull {
        bucket: u32,
    },
    /// In the directory of the place's arena, the entry of the block that ends there has something
    /// else than is wanted.
    Damaged {
        place: Place,
        want: FieldValue,
        found: FieldValue,
    },
    /// Memory ran out.
    NoMemory,
}
