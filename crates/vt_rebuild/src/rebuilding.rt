//! Rebuilding an index.

ghost use Rattle.std.specs.Prelude.{◌≡◌, ◌+◌, ◌^◌, ◌<◌, ◌≤◌, ℕ, [], All, IsTrue, IfErr, IfOk, IfSome, IfNone, OnOk, OnErr, Err, length, slice_index, sum};
ghost use Rattle.vt_base.specs.Faults.{CountsFault};
ghost use Rattle.vt_isect.specs.Faults.{is_section_fault};
ghost use Rattle.vt_isect.specs.Filling.{ReadsKnown};
ghost use Rattle.vt_isect.specs.Section.{IsAtRest};
ghost use Rattle.vt_isect.specs.Sound.{DiskHolds, KnownBuckets, nothing_known};
ghost use Rattle.vt_log.specs.Log.{front, queued};
ghost use Rattle.vt_model.specs.History.{History};
ghost use Rattle.vt_log.specs.Faults.{CountsFaults};
ghost use Rattle.vt_model.specs.Places.{Setup};
ghost use Rattle.vt_model.specs.declared.TheConstants.{BUCKET_ROOM};
ghost use Rattle.vt_rebuild.specs.Building.{AreFinished, AreHalfFinished, AreToFinish, CountsAll, IsRefusedFor, IsFinished, IsStoppedBuild, IsToFinish, NamesDamage, StopsInUse, in_use};
ghost use Rattle.vt_rebuild.specs.Filling.{CanFill, CountsEither, FitsBuckets};
ghost use Rattle.vt_rebuild.specs.Gathering.{IsGathered, IsInOrder};
ghost use Rattle.vt_rebuild.specs.Heads.{HasHead, IsSameSection};
ghost use Rattle.vt_rebuild.specs.Rebuilt.{AreHalfRebuilt, AreRebuilt, HasHistory, IsOpened, counts_of, setup_with};
ghost use Rattle.vt_rebuild.specs.Walking.{FaultOrMemory, KeepsLog, is_rebuild_fault};

use crate::filling::fill_section;
use crate::gathering::Gathered;
use crate::heads::{begin_all, change_head};
use crate::walking::count_blocks;
use crate::{GATHERED, MAX_BUCKETS, RebuildBad};
use std::alloc::Global;
use std::marker::Brand;
use std::sync::ledger::{Blank, Ledger};
use vt_base::{Scorer, Steps};
use vt_disk::Disk;
use vt_isect::{Head, Section, ShardErr, images_agree, soundness_is_kept, what_is_read_is_settled};
use vt_log::Log;
use vt_model::BUCKET_ROOM;
use vt_out::Progress;

/// Rebuilds the index of a log, whose blocks are all committed, in these sections, and gives the
/// count of its blocks. The sections have their buckets one behind the other, whatever their heads
/// said, and whatever their buckets hold.
///
/// The log's directories are read once to count the blocks of each bucket, and once for each part
/// of the index that has at most 1,048,576 blocks. So it takes two bytes of memory for each bucket,
/// and 32 MiB at most besides, however long the log is. Nothing is written before all is counted
/// and the memory is there. Then all heads say state 2, by which nothing counts, and the buckets of
/// each section are written. One sync stands behind them, before its head says state 1 and that all
/// blocks are below the mark.
///
/// A bucket that has too many blocks is told before anything is written. What was begun is begun
/// anew by the next call.
pub fn rebuild<D: Disk, S: Scorer, G: Progress>(
    alloc: Global,
    log: &mut Log<D, S>,
    sections: &mut [Section<D>],
    progress: &mut G,
) -> Result<u64, RebuildBad>
    requires opened { All (IsOpened D.Disk) sections.old }
    requires some { 0 < sum (counts_of sections.old) }
    requires few { sum (counts_of sections.old) ≤ MAX_BUCKETS }
    requires committed { queued log.old ≡ 0 }

    // The sections have the entries of the log's blocks, and no others. All blocks are below each
    // mark.
    ensures rebuilt { (h : History) → HasHistory S.score_of D.Disk log.old h
        → OnOk result (AreRebuilt S.score_of D.Disk (setup_with log.old sections.old) h
        sections.old sections.new) }
    ensures blocks { IfOk result (λ blocks. blocks ≡ front log.old) }
    ensures room { (h : History) → HasHistory S.score_of D.Disk log.old h
        → OnOk result (FitsBuckets S.score_of (sum (counts_of sections.old)) h) }

    // Else a disk failed, memory ran out, or the first bucket is told that has more blocks than it
    // has room for. Damage is told only where the log isn't one, by two values that differ.
    ensures refused { (h : History) → HasHistory S.score_of D.Disk log.old h
        → IfErr result (IsRefusedFor S.score_of (sum (counts_of sections.old)) h) }
    ensures damage { IfErr result NamesDamage }

    // Then each section counts for nothing, is as it was, or is rebuilt. For a bucket that is too
    // full nothing is written.
    ensures left { (h : History) → HasHistory S.score_of D.Disk log.old h
        → OnErr result (AreHalfRebuilt S.score_of D.Disk (setup_with log.old sections.old) h
        sections.old sections.new) }
    ensures unwritten { (h : History) (n : ℕ) → HasHistory S.score_of D.Disk log.old h
        → result ≡ Err (RebuildBad.IndexFull n) → sections.new ≡ sections.old }

    // The log is only read from.
    ensures keeps { KeepsLog S.score_of D.Disk log.old log.new }
    ensures faults { CountsAll D.Disk result log.old log.new sections.old sections.new }
{
    rebuild_on::<D, S, Brand, G>(alloc, log, sections, progress, Blank::new(1))
}

/// Rebuilds the index as `rebuild` does, on a new ledger, in which steps are counted in contracts
/// alone (`vt_base`).
fn rebuild_on<D: Disk, S: Scorer, L: Ledger, G: Progress>(
    alloc: Global,
    log: &mut Log<D, S>,
    sections: &mut [Section<D>],
    progress: &mut G,
    blank: Blank,
) -> Result<u64, RebuildBad>
    requires opened { All (IsOpened D.Disk) sections.old }
    requires some { 0 < sum (counts_of sections.old) }
    requires few { sum (counts_of sections.old) ≤ MAX_BUCKETS }
    requires committed { queued log.old ≡ 0 }
    requires name { blank.name ≡ L.name }
    requires parts { blank.parts ≡ L.parts }
    requires ledger { 0 < L.parts }
    ensures rebuilt { (h : History) → HasHistory S.score_of D.Disk log.old h
        → OnOk result (AreRebuilt S.score_of D.Disk (setup_with log.old sections.old) h
        sections.old sections.new) }
    ensures blocks { IfOk result (λ blocks. blocks ≡ front log.old) }
    ensures room { (h : History) → HasHistory S.score_of D.Disk log.old h
        → OnOk result (FitsBuckets S.score_of (sum (counts_of sections.old)) h) }
    ensures refused { (h : History) → HasHistory S.score_of D.Disk log.old h
        → IfErr result (IsRefusedFor S.score_of (sum (counts_of sections.old)) h) }
    ensures damage { IfErr result NamesDamage }
    ensures left { (h : History) → HasHistory S.score_of D.Disk log.old h
        → OnErr result (AreHalfRebuilt S.score_of D.Disk (setup_with log.old sections.old) h
        sections.old sections.new) }
    ensures unwritten { (h : History) (n : ℕ) → HasHistory S.score_of D.Disk log.old h
        → result ≡ Err (RebuildBad.IndexFull n) → sections.new ≡ sections.old }
    ensures keeps { KeepsLog S.score_of D.Disk log.old log.new }
    ensures faults { CountsAll D.Disk result log.old log.new sections.old sections.new }
{
    images_agree::<D>();
    let mut steps = Steps::<L>::new(blank);
    let total = buckets_in(sections);
    let blocks = log.front();
    let (counts, mut gathered) = count_all(alloc, log, total, &mut steps)?;
    begin_all(sections, total)?;
    finish_all(
        log,
        sections,
        &counts,
        &mut gathered,
        blocks,
        progress,
        &mut steps,
    )?;
    Ok(blocks)
}

/// Counts the blocks of each bucket, of so many, and makes room for gathering their entries.
fn count_all<D: Disk, S: Scorer, L: Ledger>(
    alloc: Global,
    log: &mut Log<D, S>,
    total: u32,
    steps: &mut Steps<L>,
) -> Result<(Vec<u16>, Gathered), RebuildBad>
    requires { 0 < total }
    ensures counts { IfOk result (λ made. (length made.0.items ≡ total)
        × (made.1.total ≡ total) × IsInOrder made.1) }
    ensures none { IfOk result (λ made. (c : Setup) (h : History)
        → IsGathered S.score_of c h made.1) }
    ensures room { (h : History) → HasHistory S.score_of D.Disk log.old h
        → OnOk result (FitsBuckets S.score_of total h) }
    ensures refused { (h : History) → HasHistory S.score_of D.Disk log.old h
        → IfErr result (IsRefusedFor S.score_of total h) }
    ensures damage { IfErr result NamesDamage }
    ensures keeps { KeepsLog S.score_of D.Disk log.old log.new }
    ensures faults { CountsFaults D.Disk is_rebuild_fault result log.old.disks log.new.disks }
{
    let Ok(mut counts) = vec![in alloc; 0u16; total as usize] else {
        return Err(RebuildBad::NoMemory);
    };
    count_blocks(log, &mut counts, steps)?;
    if let Some(bucket) = first_full(&counts) {
        return Err(RebuildBad::IndexFull { bucket });
    }
    let gathered = gather_none(alloc, total, log.front())?;
    Ok((counts, gathered))
}

/// Nothing is gathered yet, of a log of so many blocks; the room for what is gathered at once is
/// there.
fn gather_none(alloc: Global, total: u32, blocks: u64) -> Result<Gathered, RebuildBad>
    ensures none { IfOk result (λ gathered. (gathered.total ≡ total) × (gathered.first ≡ 0)
        × (gathered.end ≡ 0) × (gathered.entries.items ≡ [])) }
    ensures refused { IfErr result (λ bad. bad ≡ RebuildBad.NoMemory) }
{
    let room = blocks.min(GATHERED as u64) as usize;
    match Vec::with_capacity(alloc, room) {
        Ok(entries) => Ok(Gathered {
            total,
            first: 0,
            end: 0,
            entries,
        }),
        Err(_) => Err(RebuildBad::NoMemory),
    }
}

/// The number of the first bucket that has more blocks than it has room for, by these counts.
fn first_full(counts: &[u16]) -> Option<u32>
    requires { length counts.now < 2 ^ 32 }
    ensures first { IfSome result (λ n. (n < length counts.now)
        × (BUCKET_ROOM < slice_index counts.now n)
        × ((m : ℕ) → m < n → slice_index counts.now m ≤ BUCKET_ROOM)) }
    ensures none { IfNone result ((n : ℕ) → n < length counts.now
        → slice_index counts.now n ≤ BUCKET_ROOM) }
{
    for number in 0..counts.len() {
        if usize::from(counts[number]) > BUCKET_ROOM {
            return Some(number as u32);
        }
    }
    None
}

/// How many buckets these sections have.
fn buckets_in<D: Disk>(sections: &[Section<D>]) -> u32
    requires { sum (counts_of sections.now) ≤ MAX_BUCKETS }
    ensures { result ≡ sum (counts_of sections.now) }
{
    let mut buckets = 0;
    for section in sections {
        buckets += section.buckets();
    }
    buckets
}

/// Fills all sections and puts them to use, one behind the other.
fn finish_all<D: Disk, S: Scorer, L: Ledger, G: Progress>(
    log: &mut Log<D, S>,
    sections: &mut [Section<D>],
    counts: &[u16],
    gathered: &mut Gathered,
    blocks: u64,
    progress: &mut G,
    steps: &mut Steps<L>,
) -> Result<(), RebuildBad>
    requires total { length counts.now ≡ gathered.old.total }
    requires few { gathered.old.total ≤ MAX_BUCKETS }
    requires order { IsInOrder gathered.old }
    requires begun { AreToFinish gathered.old.total sections.old }
    ensures finished { (c : Setup) (h : History)
        → CanFill S.score_of D.Disk c h log.old gathered.old → blocks ≡ length h
        → OnOk result (AreFinished S.score_of D.Disk c h sections.old sections.new) }
    ensures left { (c : Setup) (h : History)
        → CanFill S.score_of D.Disk c h log.old gathered.old → blocks ≡ length h
        → OnErr result (AreHalfFinished S.score_of D.Disk c h sections.old sections.new) }
    ensures fits { (c : Setup) (h : History)
        → CanFill S.score_of D.Disk c h log.old gathered.old
        → FitsBuckets S.score_of gathered.old.total h → IfErr result FaultOrMemory }
    ensures damage { IfErr result NamesDamage }
    ensures keeps { KeepsLog S.score_of D.Disk log.old log.new }
    ensures faults { CountsAll D.Disk result log.old log.new sections.old sections.new }
{
    for section in sections.iter_mut() {
        finish(log, section, counts, gathered, blocks, progress, steps)?;
    }
    Ok(())
}

/// Fills a section and puts it to use.
fn finish<D: Disk, S: Scorer, L: Ledger, G: Progress>(
    log: &mut Log<D, S>,
    section: &mut Section<D>,
    counts: &[u16],
    gathered: &mut Gathered,
    blocks: u64,
    progress: &mut G,
    steps: &mut Steps<L>,
) -> Result<(), RebuildBad>
    requires begun { IsToFinish gathered.old.total section.old }
    requires total { length counts.now ≡ gathered.old.total }
    requires few { gathered.old.total ≤ MAX_BUCKETS }
    requires order { IsInOrder gathered.old }
    ensures finished { (c : Setup) (h : History)
        → CanFill S.score_of D.Disk c h log.old gathered.old → blocks ≡ length h
        → OnOk result (IsFinished S.score_of D.Disk c h section.old section.new) }
    ensures left { (c : Setup) (h : History)
        → CanFill S.score_of D.Disk c h log.old gathered.old → blocks ≡ length h
        → OnErr result (IsStoppedBuild S.score_of D.Disk c h section.old section.new) }
    ensures fits { (c : Setup) (h : History)
        → CanFill S.score_of D.Disk c h log.old gathered.old
        → FitsBuckets S.score_of gathered.old.total h → IfErr result FaultOrMemory }
    ensures gathered { (c : Setup) (h : History)
        → CanFill S.score_of D.Disk c h log.old gathered.old
        → OnOk result (IsGathered S.score_of c h gathered.new) }
    ensures order { OnOk result (IsInOrder gathered.new) }
    ensures total { gathered.new.total ≡ gathered.old.total }
    ensures damage { IfErr result NamesDamage }
    ensures keeps { KeepsLog S.score_of D.Disk log.old log.new }
    ensures faults { CountsEither D.Disk result log.old log.new section.old section.new }
{
    fill_section(log, section, counts, gathered, progress, steps)?;
    match put_to_use(section, blocks) {
        Ok(()) => Ok(()),
        Err(_) => Err(RebuildBad::Fault),
    }
}

/// Settles the buckets of a section by a sync, and then has its head say that it is in use, with
/// the entries of so many blocks.
fn put_to_use<D: Disk>(section: &mut Section<D>, blocks: u64) -> Result<(), ShardErr>
    requires rest { IsAtRest section.old }
    requires count { section.old.head.count ≡ section.old.buckets }
    requires next { section.old.next ≡ section.old.head }
    requires numbers { section.old.head.first + section.old.buckets ≤ 2 ^ 32 }
    ensures head { OnOk result
        (HasHead D.Disk (in_use blocks section.old.head) section.old section.new) }
    ensures used { (known : KnownBuckets) → IsTrue D.tells
        → DiskHolds D.Disk section.old nothing_known
        → ReadsKnown D.Disk section.old known → OnOk result (DiskHolds D.Disk section.new known) }
    ensures stops { OnErr result
        (StopsInUse D.Disk (in_use blocks section.old.head) section.old section.new) }
    ensures same { IsSameSection D.Disk section.old section.new }
    ensures calls { IsTrue D.tells
        → D.calls section.new.disk ≤ D.calls section.old.disk + 5 }
    ensures refused { IfErr result (λ bad. bad ≡ ShardErr.Fault) }
    ensures faults { CountsFault is_section_fault result
        (D.faults section.old.disk) (D.faults section.new.disk) }
{
    soundness_is_kept::<D>();
    what_is_read_is_settled::<D>();
    let building = section.head();
    // Clearing no bucket makes the sync alone.
    section.clear(building.first, 0)?;
    change_head(
        section,
        Head {
            state: 1,
            mark: blocks,
            ..building
        },
    )
}
