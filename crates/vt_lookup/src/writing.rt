//! Testing a block that is to be written, and adding it: the further steps of a write.

ghost use Rattle.std.specs.Prelude.{◌≡◌, ◌≢◌, ◌<◌, ◌≤◌, ◌-◌, ◌^◌, ◌++◌, ◌∷◌, [], ℕ, List, IsTrue, None, Some, Ok, Err, true, false, if◌then◌else◌, length};
ghost use Rattle.vt_icache.specs.Index.{dirty_info};
ghost use Rattle.vt_log.specs.declared.TheConstants.{QUEUE_MAX};
ghost use Rattle.vt_log.specs.Log.{queued, front, has_next};
ghost use Rattle.vt_base.specs.declared.why.Why.TheVariants.{Collision};
ghost use Rattle.vt_base.specs.Protocol.{write};
ghost use Rattle.vt_clump.specs.Clumps.{IsPacked, stored_of};
ghost use Rattle.vt_model.specs.Answer.{answer, collides};
ghost use Rattle.vt_model.specs.History.{History, Accepted, IsBlock, held};
ghost use Rattle.vt_model.specs.Places.{Setup};
ghost use Rattle.vt_shard.specs.Shard.{HasScore, HasRead, bucket_at};
ghost use Rattle.vt_shard.specs.declared.TheConstants.{ROOM};
ghost use Rattle.vt_lookup.specs.Adding.{AddsPacked};
ghost use Rattle.vt_lookup.specs.Finding.{AreSound, IsRightFilter, JudgesWrite, LooksFor, TestsOther, TestsRoom, TestsWrite, parts_of, room_verdict};
ghost use Rattle.vt_lookup.specs.Seeking.{StaySound};
ghost use Rattle.vt_lookup.specs.declared.writing.Verdict.TheVariants.{Held, New};

use crate::finding::{compare_block, other_collides, why_of_shard};
use std::alloc::Global;
use std::sync::ledger::Ledger;
use vt_base::{Info, Key, Scorer, Steps, Why};
use vt_clump::Packed;
use vt_disk::Disk;
use vt_isect::ShardErr;
use vt_log::Log;
use vt_model::BUCKET_ROOM;
use vt_shard::Shard;

/// What a write finds that isn't refused.
#[derive(Clone, Copy, Debug, PartialEq, Eq)]
pub enum Verdict {
    /// The block is held.
    Held,
    /// It is new, and the arenas and its bucket have room for it.
    New,
}

/// Tests a block that is to be written under this key, whose score is the block's: whether it or
/// another one of its score is held, and whether its bucket and the arenas have room for it. It is
/// refused by the first test that fails, or where one can't be made.
pub fn test_write<D: Disk, S: Scorer, L: Ledger>(
    alloc: Global,
    log: &mut Log<D, S>,
    shard: &mut Shard<D>,
    may_have: bool,
    key: &Key,
    block: &[u8],
    steps: &mut Steps<L>,
) -> Result<Verdict, Why>
    requires range { HasScore shard.old key.now.score.0 }
    requires most { length block.now < 2 ^ 32 }

    // On sound parts the verdict is that of the model's answer, and they stay sound.
    ensures tests { (c : Setup) (h : History) (durable : ℕ) → IsTrue D.tells
        → AreSound S.score_of D.Disk c (parts_of log.old shard.old) h durable
        → IsRightFilter S.score_of h key.now.score.0 may_have
        → IsBlock (record { kind = key.now.kind; bytes = block.now })
        → key.now.score.0 ≡ S.score_of block.now → S.score_of block.now ≢ S.score_of []
        → JudgesWrite S.score_of c h key.now block.now result }
    ensures sound { StaySound S.score_of D.Disk (parts_of log.old shard.old)
        (parts_of log.new shard.new) }

    // Whatever the devices hold, it is what is in memory or what was read.
    ensures read { TestsWrite S.score_of D.Disk may_have key.now block.now result
        (parts_of log.old shard.old) (parts_of log.new shard.new) }
    ensures looks { LooksFor S.score_of D.Disk 2 2 result (parts_of log.old shard.old)
        (parts_of log.new shard.new) }

    // A new block can be added: an arena has room, and no entry of its key is dirty.
    ensures fits { result ≡ Ok New → IsTrue (has_next log.new (length block.now)) }
    ensures absent { result ≡ Ok New → may_have ≡ true
        → dirty_info key.now shard.new.index ≡ None }
{
    vt_model::laws::held_by_number();
    vt_model::laws::collides_by_number();
    if !may_have {
        return test_room(log, shard, key, block);
    }
    let own = compare_block(alloc, log, shard, key, block, steps)?;
    match own {
        Some(same) => judge_own(same),
        None => test_other(alloc, log, shard, key, block, steps),
    }
}

/// The verdict where a block has the key, by whether it is the same.
fn judge_own(same: bool) -> Result<Verdict, Why>
    ensures { result ≡ if same then Ok Held else Err Collision }
{
    if same {
        Ok(Verdict::Held)
    } else {
        Err(Why::Collision)
    }
}

/// The further tests of a block whose key no block has, and whose bucket was read.
fn test_other<D: Disk, S: Scorer, L: Ledger>(
    alloc: Global,
    log: &mut Log<D, S>,
    shard: &mut Shard<D>,
    key: &Key,
    block: &[u8],
    steps: &mut Steps<L>,
) -> Result<Verdict, Why>
    requires range { HasScore shard.old key.now.score.0 }
    requires read { HasRead shard.old (bucket_at shard.old key.now.score.0) }
    requires most { length block.now < 2 ^ 32 }
    ensures right { (c : Setup) (h : History) (durable : ℕ) → IsTrue D.tells
        → AreSound S.score_of D.Disk c (parts_of log.old shard.old) h durable
        → IsBlock (record { kind = key.now.kind; bytes = block.now })
        → key.now.score.0 ≡ S.score_of block.now → S.score_of block.now ≢ S.score_of []
        → held S.score_of h (S.score_of block.now) key.now.kind ≡ None
        → JudgesWrite S.score_of c h key.now block.now result }
    ensures sound { StaySound S.score_of D.Disk (parts_of log.old shard.old)
        (parts_of log.new shard.new) }
    ensures tests { TestsOther S.score_of D.Disk true key.now.score.0 block.now result
        (parts_of log.old shard.old) (parts_of log.new shard.new) }
    ensures looks { LooksFor S.score_of D.Disk 2 0 result (parts_of log.old shard.old)
        (parts_of log.new shard.new) }
    ensures fits { result ≡ Ok New → IsTrue (has_next log.new (length block.now)) }
{
    let collides = other_collides(alloc, log, shard, &key.score, block, steps)?;
    if collides {
        return Err(Why::Collision);
    }
    test_room(log, shard, key, block)
}

/// Whether a new block's bucket and the arenas have room for it.
fn test_room<D: Disk, S: Scorer>(
    log: &Log<D, S>,
    shard: &mut Shard<D>,
    key: &Key,
    block: &[u8],
) -> Result<Verdict, Why>
    requires range { HasScore shard.old key.now.score.0 }
    requires most { length block.now < 2 ^ 32 }
    ensures right { (c : Setup) (h : History) (durable : ℕ) → IsTrue D.tells
        → AreSound S.score_of D.Disk c (parts_of log.now shard.old) h durable
        → IsBlock (record { kind = key.now.kind; bytes = block.now })
        → key.now.score.0 ≡ S.score_of block.now → collides S.score_of h block.now ≡ false
        → held S.score_of h (S.score_of block.now) key.now.kind ≡ None
        → JudgesWrite S.score_of c h key.now block.now result }
    ensures sound { StaySound S.score_of D.Disk (parts_of log.now shard.old)
        (parts_of log.now shard.new) }
    ensures room { TestsRoom D.Disk key.now.score.0 block.now result (parts_of log.now shard.old)
        (parts_of log.now shard.new) }
    ensures looks { LooksFor S.score_of D.Disk 0 2 result (parts_of log.now shard.old)
        (parts_of log.now shard.new) }

    ensures fits { result ≡ Ok New → IsTrue (has_next log.now (length block.now)) }

    // A bucket that was read last isn't read again.
    ensures read_last { HasRead shard.old (bucket_at shard.old key.now.score.0)
        → LooksFor S.score_of D.Disk 0 0 result (parts_of log.now shard.old)
        (parts_of log.now shard.new) }
{
    let bucket = shard.bucket_of(&key.score);
    let count = shard.crowd(bucket);
    let fits = log.room(block.len() as u32);
    judge_room(count, fits)
}

/// The verdict by how many blocks the bucket has, and whether an arena has room.
fn judge_room(count: Result<u32, ShardErr>, fits: bool) -> Result<Verdict, Why>
    ensures { result ≡ room_verdict count fits }
{
    match count {
        Ok(count) if count as usize >= BUCKET_ROOM => Err(Why::IndexFull),
        Ok(_) if fits => Ok(Verdict::New),
        Ok(_) => Err(Why::ArenasFull),
        Err(bad) => Err(why_of_shard(bad)),
    }
}

/// Adds a block that is new: to the log's queue, and to its shard as a dirty entry.
pub fn add_block<D: Disk, S: Scorer>(log: &mut Log<D, S>, shard: &mut Shard<D>, packed: Packed)
    requires queue { queued log.old < QUEUE_MAX }
    requires room { IsTrue (has_next log.old packed.len) }
    requires small { packed.len < 2 ^ 16 }
    requires spare { length shard.old.index.dirty < ROOM }
    requires range { HasScore shard.old packed.score.0 }
    requires absent { dirty_info (record { score = packed.score; kind = packed.kind })
        shard.old.index ≡ None }
    requires number { front log.old < 2 ^ 64 - 1 }
    requires later { (below : ℕ) → shard.old.writeback ≡ Some below → below ≤ front log.old }

    // On sound parts it is the block that the model adds.
    ensures sound { (c : Setup) (h : History) (durable : ℕ) (block : Accepted) → IsTrue D.tells
        → AreSound S.score_of D.Disk c (parts_of log.old shard.old) h durable
        → IsPacked S.score_of packed
        → (answer S.score_of c h (write packed.kind (stored_of packed).block)).added ≡ Some block
        → AreSound S.score_of D.Disk c (parts_of log.new shard.new) (h ++ block ∷ []) durable }
    ensures adds { AddsPacked packed (parts_of log.old shard.old)
        (parts_of log.new shard.new) }
{
    vt_model::laws::adding_keeps_legal();
    vt_model::laws::refusals_add_nothing();
    vt_model::laws::places_stay();
    let key = Key {
        score: packed.score,
        kind: packed.kind,
    };
    let number = log.front();
    let size = packed.len as u16;
    let Ok(place) = log.append(packed) else {
        unreachable!()
    };
    shard.put(Info {
        key,
        size,
        place,
        number,
    });
}
