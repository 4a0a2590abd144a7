//! Why a store isn't opened.

use vt_base::MountBad;

/// Why a store isn't opened. Partitions are counted from 0 in the order of the configuration: first
/// those of arenas, then the index sections, then the Bloom filter.
#[derive(Clone, Copy, Debug, PartialEq, Eq)]
pub enum OpenError {
    /// This partition wasn't handed out: there is none, or another holds it.
    Missing { part: u32 },
    /// The store isn't found on the partitions, or memory runs out.
    Refused(MountBad),
}
