//! What a session asks of a store.

use crate::Score;

/// What a session asks of a store (venti(6)). The kind of a block is as it came, of a block type or
/// not.
#[derive(Clone, Copy, Debug, PartialEq, Eq)]
pub enum Operation<'a> {
    /// The block of this score and type, for a reader who takes `count` bytes at most.
    Read { score: Score, kind: u8, count: u32 },
    /// A block that is to be held.
    Write { kind: u8, bytes: &'a [u8] },
    /// All that was accepted before is to be durable.
    Sync,
}
