//! Reading the log back, from its end to the least mark, while a store is mounted.

ghost use Rattle.std.specs.Prelude.{◌≡◌, ◌+◌, ◌-◌, ◌^◌, ◌<◌, ◌≤◌, ℕ, MatchOption, None, Some, length, slice_get};
ghost use Rattle.vt_bloom.specs.Bits.{MarksScore};
ghost use Rattle.vt_icache.specs.Index.{dirty_info};
ghost use Rattle.vt_log.specs.Back.{IsTailOf};
ghost use Rattle.vt_log.specs.Log.{IsMountedLog, queued};
ghost use Rattle.vt_shard.specs.Shard.{ShardState, HasScore};
ghost use Rattle.vt_shard.specs.declared.TheConstants.{ROOM};
ghost use Rattle.vt_recover.specs.Recalling.{IsAtRestUnstopped, IsUnused, ReadsLogBack, opened};
ghost use Rattle.vt_recover.specs.TakingBack.{GivesNext, HasCome, LooksForEntry, PutsBack, StandsOnDisks, TakesAllBack, TakesBack, WritesAllBack};
ghost use Rattle.vt_recover.specs.Marks.{AreCovered};

use std::marker::Brand;
use std::sync::ledger::{Blank, Ledger};
use vt_arena::BackBad;
use vt_base::{Info, MountBad, MountField, Scorer, Site, Steps};
use vt_bloom::{Bits, Bloom};
use vt_disk::Disk;
use vt_log::{Log, Tail};
use vt_model::BUCKET_ROOM;
use vt_mount_errors::of_shard;
use vt_shard::{Shard, no_block_lacks, others_lack_nothing};

/// The least of all marks: for each block below it all sections have their entries, and the filter
/// its bits. Without a filter's device it is 0.
pub fn least_mark<D: Disk>(shards: &[Shard<D>], bloom: &Option<Bloom<D>>) -> u64
    ensures marks { (i : ℕ) (s : ShardState D) → slice_get shards.now i ≡ Some s
        → result ≤ s.section.head.mark }
    ensures filter { MatchOption bloom.now (result ≡ 0) (λ b. result ≤ b.mark) }
    ensures greatest { (n : ℕ) → AreCovered shards.now bloom.now n → n ≤ result }
{
    let mut least = match bloom {
        Some(bloom) => bloom.mark(),
        None => return 0,
    };
    for shard in shards {
        least = least.min(shard.mark());
    }
    least
}

/// Reads the log back until so many blocks are left: it sets the bits of each of the others, and
/// puts the entries that its shard lacks there. The first section is this part of the store. Where
/// more entries are lacking than a shard has room for, it writes those that it has to their
/// buckets.
pub fn read_back<D: Disk, S: Scorer>(
    log: &mut Log<D, S>,
    shards: &mut [Shard<D>],
    bits: &mut Bits,
    least: u64,
    part: u32,
) -> Result<(), MountBad>
    requires many { part + length shards.old < 2 ^ 32 }
    requires mounted { IsMountedLog log.old }
    requires unused { (i : ℕ) (s : ShardState D) → slice_get shards.old i ≡ Some s → IsUnused s }

    ensures { ReadsLogBack S.score_of D.Disk least part result
        (opened log.old shards.old bits.old) (opened log.new shards.new bits.new) }
{
    read_back_on::<D, S, Brand>(log, shards, bits, least, part, Blank::new(1))
}

/// Reads the log back as `read_back` does, on a new ledger, in which steps are counted in contracts
/// alone (`vt_base`).
fn read_back_on<D: Disk, S: Scorer, L: Ledger>(
    log: &mut Log<D, S>,
    shards: &mut [Shard<D>],
    bits: &mut Bits,
    least: u64,
    part: u32,
    blank: Blank,
) -> Result<(), MountBad>
    requires many { part + length shards.old < 2 ^ 32 }
    requires mounted { IsMountedLog log.old }
    requires unused { (i : ℕ) (s : ShardState D) → slice_get shards.old i ≡ Some s → IsUnused s }
    requires name { blank.name ≡ L.name }
    requires parts { blank.parts ≡ L.parts }
    requires some { 0 < L.parts }
    ensures { ReadsLogBack S.score_of D.Disk least part result
        (opened log.old shards.old bits.old) (opened log.new shards.new bits.new) }
{
    vt_model::laws::sections_have_ranges();
    vt_bloom::marked_scores_stay();
    vt_bucket::frames_are_told_apart();
    vt_isect::sections_are_told_apart();
    no_block_lacks::<D>();
    let mut steps = Steps::<L>::new(blank);
    let mut tail = log.tail();
    while tail.left() > least {
        let info = next_back(log, &mut tail, &mut steps)?;
        recall(shards, bits, info, part, &mut steps)?;
    }
    Ok(())
}

/// What is known of the block that comes next on the way to the log's first, where one is left.
fn next_back<D: Disk, S: Scorer, L: Ledger>(
    log: &mut Log<D, S>,
    tail: &mut Tail,
    steps: &mut Steps<L>,
) -> Result<Info, MountBad>
    requires tail { IsTailOf log.old tail.old }
    requires some { 0 < tail.old.left }
    requires rest { queued log.old ≡ 0 }
    requires stands { StandsOnDisks log.old }
    requires come { HasCome D.Disk log.old tail.old }
    ensures { GivesNext S.score_of D.Disk result log.old log.new tail.old tail.new }
{
    match log.back(tail, steps) {
        Ok(Some(info)) => Ok(info),
        Ok(None) => unreachable!(),
        Err(BackBad::Fault) => Err(MountBad::Fault),
        Err(BackBad::Damaged { want, found }) => Err(MountBad::Damaged {
            site: Site::Clump(log.tail_place(tail)),
            want,
            found,
        }),
    }
}

/// Takes a block back in: its bits and, where its shard lacks its entry, that. The first shard is
/// this part of the store.
fn recall<D: Disk, L: Ledger>(
    shards: &mut [Shard<D>],
    bits: &mut Bits,
    info: Info,
    part: u32,
    steps: &mut Steps<L>,
) -> Result<(), MountBad>
    requires many { part + length shards.old < 2 ^ 32 }
    requires number { info.number < 2 ^ 64 - 1 }
    requires quiet { (i : ℕ) (s : ShardState D) → slice_get shards.old i ≡ Some s
        → IsAtRestUnstopped s }
    ensures takes { TakesAllBack D.Disk part info result shards.old shards.new }
    ensures marks { MarksScore bits.old info.key.score.0 bits.new }
{
    no_block_lacks::<D>();
    bits.mark_bits(&info.key.score);
    for i in 0..shards.len() {
        take_back(&mut shards[i], info, part + i as u32, steps)?;
    }
    Ok(())
}

/// Takes a block back into its shard, which is this part of the store. Another shard lacks nothing.
fn take_back<D: Disk, L: Ledger>(
    shard: &mut Shard<D>,
    info: Info,
    part: u32,
    steps: &mut Steps<L>,
) -> Result<(), MountBad>
    requires number { info.number < 2 ^ 64 - 1 }
    requires quiet { IsAtRestUnstopped shard.old }
    ensures { TakesBack D.Disk part info result shard.old shard.new }
{
    others_lack_nothing::<D>();
    no_block_lacks::<D>();
    if !shard.has_key(&info.key) {
        return Ok(());
    }
    if info.number < shard.mark() {
        return Ok(());
    }
    let there = has_entry(shard, &info, steps)?;
    if there {
        return Ok(());
    }
    if shard.spare() > 0 {
        return put_back(shard, info, part);
    }
    write_back(shard)?;
    let there = has_entry(shard, &info, steps)?;
    if there {
        return Ok(());
    }
    put_back(shard, info, part)
}

/// Whether a block has its entry.
fn has_entry<D: Disk, L: Ledger>(
    shard: &mut Shard<D>,
    info: &Info,
    steps: &mut Steps<L>,
) -> Result<bool, MountBad>
    requires { HasScore shard.old info.now.key.score.0 }
    ensures { LooksForEntry D.Disk info.now.key result shard.old shard.new }
{
    vt_bucket::frames_are_told_apart();
    match shard.lookup(&info.key, steps) {
        Ok(found) => Ok(found.is_some()),
        Err(bad) => Err(of_shard(bad)),
    }
}

/// Writes all dirty entries back.
fn write_back<D: Disk>(shard: &mut Shard<D>) -> Result<(), MountBad>
    requires { IsAtRestUnstopped shard.old }
    ensures { WritesAllBack D.Disk result shard.old shard.new }
{
    if !shard.begin_bare() {
        return Ok(());
    }
    while shard.owed() > 0 {
        if let Err(bad) = shard.advance() {
            return Err(of_shard(bad));
        }
    }
    Ok(())
}

/// Puts the entry of a block in that lacks it, which its bucket must have room for. The shard is
/// this part of the store.
fn put_back<D: Disk>(shard: &mut Shard<D>, info: Info, part: u32) -> Result<(), MountBad>
    requires range { HasScore shard.old info.key.score.0 }
    requires number { info.number < 2 ^ 64 - 1 }
    requires quiet { IsAtRestUnstopped shard.old }
    requires room { length shard.old.index.dirty < ROOM }
    requires absent { dirty_info info.key shard.old.index ≡ None }
    ensures { PutsBack D.Disk part info result shard.old shard.new }
{
    vt_bucket::frames_are_told_apart();
    let bucket = shard.bucket_of(&info.key.score);
    shard.put(info);
    match shard.crowd(bucket) {
        Ok(crowd) if crowd as usize > BUCKET_ROOM => Err(MountBad::Disagree {
            part,
            field: MountField::Crowd,
            found: u128::from(crowd),
            want: BUCKET_ROOM as u128,
        }),
        Ok(_) => Ok(()),
        Err(bad) => Err(of_shard(bad)),
    }
}
