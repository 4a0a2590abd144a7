//! The blocks that the plain store keeps, and searches from the front.

ghost use Rattle.std.specs.Prelude.{◌≡◌, ◌==◌, ◌&&◌, ◌-◌, ◌^◌, ◌<◌, ◌≤◌, not, find, count_by, length, sum_by, IfSome};
ghost use Rattle.std.specs.List.{list_any};
ghost use Rattle.std.specs.Option.{option_copied, SomeIff};
ghost use Rattle.std.specs.Str.{bytes_eq};
ghost use Rattle.vt_model.specs.Places.{clump_len_in, lengths_in, last_arena, bucket_of};
ghost use Rattle.vt_model.specs.Stored.{history_of};

use crate::layout::{Left, bucket_of, clump_len_in};
use vt_base::{Bytes, Key, Score};

/// A block that was accepted: its key, its bytes, and the number of its arena.
#[derive(Drop)]
pub struct Stored {
    pub key: Key,
    pub bytes: Bytes,
    pub arena: usize,
}

/// The first block with this key.
pub fn find_key<'a>(blocks: &'a [Stored], key: &Key) -> Option<&'a Stored>
    ensures { let k = key.now in
        option_copied result
        ≡ find (λ b. bytes_eq b.key.score.0 k.score.0 && b.key.kind == k.kind) blocks.now }
{
    blocks.iter().find(|b| b.key == *key)
}

/// Whether a block has this score and other bytes.
pub fn has_other_bytes(blocks: &[Stored], score: &Score, bytes: &[u8]) -> bool
    ensures { let s = score.now.0 in
        result
        ≡ list_any (λ b. bytes_eq b.key.score.0 s && not (bytes_eq b.bytes bytes.now)) blocks.now }
{
    blocks
        .iter()
        .any(|b| b.key.score == *score && b.bytes.as_slice() != bytes)
}

/// How many blocks are in a bucket.
pub fn crowd(blocks: &[Stored], buckets: u128, bucket: u128) -> usize
    requires { buckets < 2 ^ 96 }
    ensures { result ≡ count_by (λ b. bucket_of buckets b.key.score.0 == bucket) blocks.now }
{
    blocks
        .iter()
        .filter(|b| bucket_of(buckets, &b.key.score) == bucket)
        .count()
}

/// The last block's arena, or 0 where there is no block.
pub fn last_arena(blocks: &[Stored]) -> usize
    ensures { result ≡ last_arena 0 (history_of blocks.now) }
{
    match blocks.last() {
        Some(block) => block.arena,
        None => 0,
    }
}

/// What is left of an arena's room behind its clumps, and how many these are; None where they take
/// more.
pub fn room_left(blocks: &[Stored], arena: usize, version: u16, room: usize) -> Option<Left>
    ensures left { let lengths = lengths_in arena (history_of blocks.now) in
        let used = sum_by (clump_len_in version) lengths in
        SomeIff result (used ≤ room) (record { room = room - used; clumps = length lengths }) }
    ensures few { IfSome result (λ left. left.clumps < 2 ^ 64) }
{
    let mut left = room as u128;
    let mut clumps = 0;
    for b in blocks {
        if b.arena == arena {
            left = left.checked_sub(clump_len_in(version, b.bytes.len()))?;
            clumps += 1;
        }
    }
    Some(Left { room: left, clumps })
}
