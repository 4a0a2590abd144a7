//! What a store answers.

use crate::{Bytes, Score, Why};

/// What a store says to a read, a write or a sync.
#[derive(Drop)]
pub enum Said {
    /// The block that was written has this score, and is held.
    Score(Score),
    /// The bytes of the block that was asked for.
    Block(Bytes),
    /// What was accepted before the sync is on the disk.
    Synced,
    /// The request was not done.
    Refused(Why),
}

/// What a store says, and about how much of its history: it is the answer of a store that holds the
/// first `at` blocks.
#[derive(Drop)]
pub struct Answer {
    pub said: Said,
    pub at: u64,
}
