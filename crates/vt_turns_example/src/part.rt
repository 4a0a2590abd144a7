//! The parts of a store that threads take in turns: the log, and two shards of keys.

ghost use Rattle.std.specs.Prelude.{◌≡◌};
ghost use Rattle.std.specs.Ordering.{nat_cmp};
ghost use Rattle.std.specs.BTreeMap.{get};

use std::collections::BTreeMap;
use vt_turns::Held;

/// A key and its value.
#[derive(Clone, Copy)]
pub struct Block {
    /// Any number but the largest, 2^64 - 1, at which the second shard ends.
    pub key: u64,
    pub value: u64,
}

/// The accepted blocks, in order. None of them is ever durable.
#[derive(Drop)]
pub struct Log {
    pub blocks: Vec<Block>,
}

/// The numbers of the blocks whose keys lie from `low` up to `high`.
#[derive(Drop)]
pub struct Shard {
    pub low: u64,
    /// The end of its keys, which is none of them.
    pub high: u64,
    /// For each of its keys that has a value, the number of its block in the log.
    pub numbers: BTreeMap<u64, u64>,
}

/// What threads take in turns.
#[derive(Drop)]
pub enum Part {
    /// The first part: all blocks, whatever their keys.
    Log(Log),
    /// Each of the other parts.
    Shard(Shard),
}

impl Held<Block> for Part {
    ghost use Rattle.vt_turns_example.specs.Parts.{part_means};
    ghost use Rattle.vt_turns_example.specs.Laws.{part_lawful};

    ghost means = { part_means };

    ghost lawful = { part_lawful };
}

impl Shard {
    /// The number of the block of a key, or None where it has none.
    pub fn find(&self, key: u64) -> Option<u64>
        ensures { result ≡ get nat_cmp self.now.numbers key }
    {
        self.numbers.get(&key).copied()
    }
}
