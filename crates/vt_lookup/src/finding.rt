//! Looking for a block in the log and in the shard of its score.
//!
//! These are the first steps of a read and of a write. They are functions over the parts that are
//! handed in, so that a store that shares its parts takes the same steps.

ghost use Rattle.std.specs.Prelude.{◌≡◌, ◌≢◌, [], ℕ, List, IfErr, IsTrue, IsSome, MatchOption, MatchResult, OnOk, Ok, Some, None, true, false};
ghost use Rattle.std.specs.Str.{bytes_eq};
ghost use Rattle.vt_icache.specs.Index.{dirty_info};
ghost use Rattle.vt_isect.specs.Agreement.{IsEntryOfBlock};
ghost use Rattle.vt_lumps.specs.Lumps.{cached_bytes, with_lump};
ghost use Rattle.vt_model.specs.Answer.{collides as collision};
ghost use Rattle.vt_model.specs.History.{History, held};
ghost use Rattle.vt_model.specs.Places.{Setup};
ghost use Rattle.vt_shard.specs.Search.{HasKeyOf, IsLumpOf};
ghost use Rattle.vt_shard.specs.Shard.{HasScore, HasRead, bucket_at};
ghost use Rattle.vt_shard.specs.Sound.{IsSoundShard};
ghost use Rattle.vt_lookup.specs.Finding.{AreSound, IsRightFilter, LooksFor, MayKeepFrom, SeeksBlock, parts_of, why_of_read};
ghost use Rattle.vt_lookup.specs.Seeking.{ComparesBlock, ComparesOther, Fetches, IsOwn, StaySound, fetched, sought};
ghost use Rattle.vt_lookup.specs.Finding.{why_of_shard};

use std::alloc::{AllocError, Global};
use std::sync::ledger::Ledger;
use vt_arena::ReadBad;
use vt_base::{Bytes, Entry, Key, Place, Score, Scorer, Site, Steps, Why};
use vt_disk::Disk;
use vt_isect::ShardErr;
use vt_log::Log;
use vt_shard::Shard;

/// The block of a key, by the filter's bits, which say whether it may be there, the shard and the
/// log. It is kept in memory from then on.
pub fn find_block<D: Disk, S: Scorer, L: Ledger>(
    alloc: Global,
    log: &mut Log<D, S>,
    shard: &mut Shard<D>,
    may_have: bool,
    key: &Key,
    steps: &mut Steps<L>,
) -> Result<Option<Bytes>, Why>
    requires { HasScore shard.old key.now.score.0 }

    // On sound parts it is the block that is held, and they stay sound.
    ensures found { (c : Setup) (h : History) (durable : ℕ) → IsTrue D.tells
        → AreSound S.score_of D.Disk c (parts_of log.old shard.old) h durable
        → IsRightFilter S.score_of h key.now.score.0 may_have → key.now.score.0 ≢ S.score_of []
        → MatchResult result
        (λ block. block ≡ held S.score_of h key.now.score.0 key.now.kind) MayKeepFrom }
    ensures sound { StaySound S.score_of D.Disk (parts_of log.old shard.old)
        (parts_of log.new shard.new) }

    // Whatever the devices hold, the answer is what is in memory or what was read.
    ensures seeks { SeeksBlock S.score_of D.Disk may_have key.now result
        (parts_of log.old shard.old) (parts_of log.new shard.new) }
    ensures looks { LooksFor S.score_of D.Disk 2 2 result (parts_of log.old shard.old)
        (parts_of log.new shard.new) }
{
    vt_model::laws::held_by_number();
    if !may_have {
        return Ok(None);
    }
    let there = seek(alloc, log, shard, key, steps)?;
    if !there {
        return Ok(None);
    }
    let copy = copy_of_lump(alloc, shard, key)?;
    Ok(Some(copy))
}

/// Whether the block of a key has these bytes; None where there is no such block.
pub(crate) fn compare_block<D: Disk, S: Scorer, L: Ledger>(
    alloc: Global,
    log: &mut Log<D, S>,
    shard: &mut Shard<D>,
    key: &Key,
    block: &[u8],
    steps: &mut Steps<L>,
) -> Result<Option<bool>, Why>
    requires { HasScore shard.old key.now.score.0 }
    ensures right { (c : Setup) (h : History) (durable : ℕ) → IsTrue D.tells
        → AreSound S.score_of D.Disk c (parts_of log.old shard.old) h durable
        → MatchResult result (IsOwn S.score_of h key.now block.now) MayKeepFrom }
    ensures sound { StaySound S.score_of D.Disk (parts_of log.old shard.old)
        (parts_of log.new shard.new) }
    ensures compares { ComparesBlock S.score_of D.Disk key.now block.now result
        (parts_of log.old shard.old) (parts_of log.new shard.new) }
    ensures looks { LooksFor S.score_of D.Disk 2 2 result (parts_of log.old shard.old)
        (parts_of log.new shard.new) }

    // Where there is none, the bucket was read and the log wasn't, and no entry of it is dirty.
    ensures absent { result ≡ Ok None → (log.new ≡ log.old)
        × HasRead shard.new (bucket_at shard.old key.now.score.0)
        × (dirty_info key.now shard.new.index ≡ None) }
{
    let there = seek(alloc, log, shard, key, steps)?;
    if !there {
        return Ok(None);
    }
    Ok(Some(is_lump(shard, key, block)))
}

/// Whether a block of this score under any type has other bytes. The score's bucket was read.
pub(crate) fn other_collides<D: Disk, S: Scorer, L: Ledger>(
    alloc: Global,
    log: &mut Log<D, S>,
    shard: &mut Shard<D>,
    score: &Score,
    block: &[u8],
    steps: &mut Steps<L>,
) -> Result<bool, Why>
    requires range { HasScore shard.old score.now.0 }
    requires read { HasRead shard.old (bucket_at shard.old score.now.0) }
    ensures right { (c : Setup) (h : History) (durable : ℕ) → IsTrue D.tells
        → AreSound S.score_of D.Disk c (parts_of log.old shard.old) h durable
        → score.now.0 ≡ S.score_of block.now → S.score_of block.now ≢ S.score_of []
        → MatchResult result (λ collides. collides ≡ collision S.score_of h block.now)
        MayKeepFrom }
    ensures sound { StaySound S.score_of D.Disk (parts_of log.old shard.old)
        (parts_of log.new shard.new) }
    ensures compares { ComparesOther S.score_of D.Disk score.now.0 block.now result
        (parts_of log.old shard.old) (parts_of log.new shard.new) }
    ensures looks { LooksFor S.score_of D.Disk 2 0 result (parts_of log.old shard.old)
        (parts_of log.new shard.new) }
    ensures bucket { shard.new.bucket ≡ shard.old.bucket }
{
    vt_model::laws::collides_by_number();
    match shard.others(score) {
        Ok(Some(entry)) => {
            fetch(alloc, log, shard, &entry, steps)?;
            let same = is_lump(shard, &entry.key, block);
            Ok(!same)
        }
        Ok(None) => Ok(false),
        Err(bad) => Err(why_of_shard(bad)),
    }
}

/// Looks for the block of a key, and brings it into memory: from its place in the log, by its entry
/// in the index. Whether there is one.
fn seek<D: Disk, S: Scorer, L: Ledger>(
    alloc: Global,
    log: &mut Log<D, S>,
    shard: &mut Shard<D>,
    key: &Key,
    steps: &mut Steps<L>,
) -> Result<bool, Why>
    requires { HasScore shard.old key.now.score.0 }
    ensures right { (c : Setup) (h : History) (durable : ℕ) → IsTrue D.tells
        → AreSound S.score_of D.Disk c (parts_of log.old shard.old) h durable
        → MatchResult result (λ there. there ≡ false → (i : ℕ) → ¬ HasKeyOf S.score_of h i key.now)
        MayKeepFrom }
    ensures sound { StaySound S.score_of D.Disk (parts_of log.old shard.old)
        (parts_of log.new shard.new) }
    ensures seeks { SeeksBlock S.score_of D.Disk true key.now
        (sought key.now result shard.new) (parts_of log.old shard.old)
        (parts_of log.new shard.new) }
    ensures there { result ≡ Ok true → IsSome (cached_bytes key.now shard.new.lumps) }
    ensures looks { LooksFor S.score_of D.Disk 2 2 result (parts_of log.old shard.old)
        (parts_of log.new shard.new) }
    ensures absent { result ≡ Ok false → (log.new ≡ log.old)
        × HasRead shard.new (bucket_at shard.old key.now.score.0)
        × (dirty_info key.now shard.new.index ≡ None) }
{
    if shard.touch_lump(key) {
        return Ok(true);
    }
    match shard.lookup(key, steps) {
        Ok(Some(entry)) => {
            fetch(alloc, log, shard, &entry, steps)?;
            Ok(true)
        }
        Ok(None) => Ok(false),
        Err(bad) => Err(why_of_shard(bad)),
    }
}

/// Brings the block of an entry into memory from its place in the log, unless it is there.
fn fetch<D: Disk, S: Scorer, L: Ledger>(
    alloc: Global,
    log: &mut Log<D, S>,
    shard: &mut Shard<D>,
    entry: &Entry,
    steps: &mut Steps<L>,
) -> Result<(), Why>
    ensures right { (c : Setup) (h : History) (durable : ℕ) → IsTrue D.tells
        → AreSound S.score_of D.Disk c (parts_of log.old shard.old) h durable
        → IsEntryOfBlock S.score_of c h entry.now → IfErr result MayKeepFrom }
    ensures sound { (c : Setup) (h : History) (durable : ℕ) → IsTrue D.tells
        → AreSound S.score_of D.Disk c (parts_of log.old shard.old) h durable
        → IsEntryOfBlock S.score_of c h entry.now
        → AreSound S.score_of D.Disk c (parts_of log.new shard.new) h durable }
    ensures fetches { Fetches S.score_of D.Disk entry.now
        (fetched entry.now.key result shard.new) (parts_of log.old shard.old)
        (parts_of log.new shard.new) }
    ensures there { OnOk result (IsSome (cached_bytes entry.now.key shard.new.lumps)) }
    ensures looks { LooksFor S.score_of D.Disk 2 0 result (parts_of log.old shard.old)
        (parts_of log.new shard.new) }
    ensures lumps { shard.new ≡ record shard.old { lumps = shard.new.lumps } }
{
    if shard.touch_lump(&entry.key) {
        return Ok(());
    }
    match log.read(alloc, entry.place, entry.size, &entry.key, steps) {
        Ok(bytes) => keep(shard, entry.key, bytes),
        Err(bad) => Err(why_of_read(entry.place, bad)),
    }
}

/// Keeps a block that was read in the shard's cache, from which another may go.
fn keep<D: Disk>(shard: &mut Shard<D>, key: Key, bytes: Bytes) -> Result<(), Why>
    ensures kept { MatchResult result
        (λ _. shard.new ≡ record shard.old { lumps = with_lump key bytes shard.old.lumps })
        (λ why. (why ≡ Why.NoMemory) × (shard.new ≡ shard.old)) }
    ensures sound { (score : List ℕ → List ℕ) (c : Setup) (h : History) (durable : ℕ)
        → IsSoundShard score c D.Disk shard.old h durable → IsLumpOf score h key bytes
        → IsSoundShard score c D.Disk shard.new h durable }
{
    if shard.keep_lump(key, bytes) {
        Ok(())
    } else {
        Err(Why::NoMemory)
    }
}

/// Whether the block of a key that is in memory has these bytes.
fn is_lump<D: Disk>(shard: &Shard<D>, key: &Key, block: &[u8]) -> bool
    requires { IsSome (cached_bytes key.now shard.now.lumps) }
    ensures same { MatchOption (cached_bytes key.now shard.now.lumps) ⊥
        (λ bytes. result ≡ bytes_eq bytes block.now) }
    ensures right { (score : List ℕ → List ℕ) (c : Setup) (h : History) (durable : ℕ)
        → IsSoundShard score c D.Disk shard.now h durable
        → (bytes : List ℕ) × IsLumpOf score h key.now bytes × (result ≡ bytes_eq bytes block.now) }
{
    match shard.lump(key) {
        Some(bytes) => bytes.as_slice() == block,
        None => unreachable!(),
    }
}

/// A copy of the block of a key that is in memory.
fn copy_of_lump<D: Disk>(alloc: Global, shard: &Shard<D>, key: &Key) -> Result<Bytes, Why>
    requires { IsSome (cached_bytes key.now shard.now.lumps) }
    ensures copy { MatchResult result (λ copy. cached_bytes key.now shard.now.lumps ≡ Some copy)
        (λ why. why ≡ Why.NoMemory) }
    ensures right { (score : List ℕ → List ℕ) (c : Setup) (h : History) (durable : ℕ)
        → IsSoundShard score c D.Disk shard.now h durable
        → MatchResult result (IsLumpOf score h key.now) (λ why. why ≡ Why.NoMemory) }
{
    match shard.lump(key) {
        Some(bytes) => match Bytes::copy_of(alloc, bytes.as_slice()) {
            Ok(copy) => Ok(copy),
            Err(AllocError) => Err(Why::NoMemory),
        },
        None => unreachable!(),
    }
}

/// Why a request isn't done where a call of its shard fails.
pub fn why_of_shard(bad: ShardErr) -> Why
    ensures { result ≡ why_of_shard bad }
{
    match bad {
        ShardErr::Fault => Why::DiskFault,
        ShardErr::Damaged {
            bucket,
            want,
            found,
        } => Why::Damaged {
            site: Site::Bucket(bucket),
            want,
            found,
        },
        ShardErr::Stopped(call) => Why::Stopped(call),
    }
}

/// Why a request is refused where the log's read of this place fails.
fn why_of_read(place: Place, bad: ReadBad) -> Why
    ensures { result ≡ why_of_read place bad }
{
    match bad {
        ReadBad::Fault => Why::DiskFault,
        ReadBad::Damaged { want, found } => Why::Damaged {
            site: Site::Clump(place),
            want,
            found,
        },
        ReadBad::NoMemory => Why::NoMemory,
    }
}
