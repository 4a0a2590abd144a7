//! The events of a store: what is asked of it, what work it is let do, and what each gives.

use vt_base::{Answer, Operation, Why};

/// One step of a store: an operation of a session, the answer to a sync that waits, or one device call
/// or one drop of its own work. Sessions and shards are counted from 0.
#[derive(Clone, Copy, Debug)]
pub enum Event<'a> {
    /// A session asks for an operation. `now` is the time that a clump gets which it adds.
    Ask {
        session: u32,
        operation: Operation<'a>,
        now: u32,
    },
    /// A session asks for the answer to the sync that it waits for.
    Answer(u32),
    /// The log makes its next device call.
    LogAdvance,
    /// A shard begins to write back what is durable.
    FileBegin(u32),
    /// It makes its next device call.
    FileAdvance(u32),
    /// The saved Bloom filter makes its next device call. Where none is due, a save begins first.
    BloomAdvance,
    /// A shard forgets a block that it keeps.
    EvictLump(u32),
    /// It forgets an entry that is on its disk.
    EvictIndex(u32),
}

/// What an event gives.
#[derive(Drop)]
pub enum Out {
    /// The answer to a session.
    Said(Answer),
    /// The session waits from now on for its sync.
    Waits,
    /// It is too early: the queue is full, or the shard has no spare, or the sync's blocks aren't
    /// all durable.
    NotYet,
    /// A device call was made, a writeback was begun, or something was dropped.
    Moved,
    /// There was nothing to do.
    Nothing,
    /// The call failed or was refused.
    Failed(Why),
}
