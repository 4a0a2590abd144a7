//! Making partitions a log, and finding the log of partitions.

ghost use Rattle.std.specs.Prelude.{◌≡◌, ◌⊎◌, ◌+◌, ◌*◌, ◌^◌, ◌<◌, ◌≤◌, [], ℕ, Bool, List, All, Some, IsTrue, IsFalse, IfOk, IfErr, OnOk, OnErr, MatchResult, None, length, map, sum_by, slice_get};
ghost use Rattle.vt_base.specs.Faults.{HasCause};
ghost use Rattle.vt_disk.specs.Calls.{IsSynced};
ghost use Rattle.vt_model.specs.History.{History};
ghost use Rattle.vt_part.specs.Layout.{layout_of, AreDistinct};
ghost use Rattle.vt_part.specs.Parts.{disk_of, table_of, tables_of, names_of};
ghost use Rattle.vt_part.specs.Table.{arenas_end};
ghost use Rattle.vt_part.specs.declared.layout.ArenaRegion.{ArenaRegion};
ghost use Rattle.vt_part.specs.declared.part.Part.{Part};
ghost use Rattle.vt_arena.specs.declared.head.Found.{Found};
ghost use Rattle.vt_arena.specs.Arena.{version_counted};
ghost use Rattle.vt_arena.specs.Faults.{CanStand, reads_to_find};
ghost use Rattle.vt_arena.specs.Heads.{fields_of};
ghost use Rattle.vt_arena.specs.Places.{IsArenaLen};
ghost use Rattle.vt_log.specs.Answers.{HoldTheSame};
ghost use Rattle.vt_log.specs.Faults.{AreReadAt, RefusesLogMount, CountsFaults, IsMountedBy, out_of_order, is_log_fault};
ghost use Rattle.vt_log.specs.Formatting.{IsEmpty, WritesInHeads, StopsAtArena, StopsIn};
ghost use Rattle.vt_log.specs.Log.{IsMountedLog, disks_of, disks_after};
ghost use Rattle.vt_log.specs.Logs.{IsLog, arena_count};
ghost use Rattle.vt_log.specs.Mounting.{TellsOfSettled, IsBeforeCalls, StopsSyncing, OnlyReadsParts, reads_to_find_all, MountsInCalls, AreFieldsAt, FindsNext, arena_refusal, IsFoundArena, AreFound, RefusesArenas, ArePassed, IsFirstOpen, IsRoomFor};
ghost use Rattle.vt_log.specs.Queue.{no_queue};
ghost use Rattle.vt_log.specs.Sound.{IsSoundLog, AreImagesOf};
ghost use Rattle.vt_log.specs.Whole.{IsOnDisk, IsWholeLog};

use crate::error::LogBad;
use crate::filling::Filling;
use crate::log::Log;
use crate::queue::Queue;
use std::alloc::{AllocError, Global};
use vt_arena::{Arena, ArenaBad, ArenaHead, Field, Found, find, version_counted};
use vt_base::{Failed, Score, Scorer};
use vt_disk::{CallCount, Disk, LEAST_ARENA};
use vt_part::{ArenaRegion, Layout, Part, PartBad};

/// Makes each arena of these partitions one without blocks. Its head is written and synced; other
/// bytes stay. Failed says that a device call failed.
pub fn format<D: Disk>(parts: &mut [Part<D>]) -> Result<(), Failed>
    requires rooms { All (λ part. arenas_end (table_of part) ≤ D.size (disk_of part)) parts.old }

    // Any images taken together are a log without blocks, whose base is its first arena.
    ensures empty { (score_of : List ℕ → List ℕ) (files : List (List ℕ)) → IsTrue D.tells
        → AreImagesOf D.Disk (disks_of parts.new) files → OnOk result
        (IsLog score_of (layout_of (tables_of parts.old)) files [] 0) }
    ensures settled { OnOk result (All (IsSynced D.Disk) (disks_of parts.new)) }

    // The tables stay in memory, and on the disks all bytes that are in no head of an arena.
    ensures tables { tables_of parts.new ≡ tables_of parts.old }
    ensures writes { (i : ℕ) (before after : Part D) → slice_get parts.old i ≡ Some before
        → slice_get parts.new i ≡ Some after
        → WritesInHeads D.Disk (table_of before) (disk_of before) (disk_of after) }
    ensures size { map D.size (disks_of parts.new) ≡ map D.size (disks_of parts.old) }

    // Nothing further is written behind a failed call.
    ensures stops { OnErr result (StopsIn D.Disk parts.old parts.new) }
    ensures cause { CountsFaults D.Disk (λ _. Bool.true) result (disks_of parts.old)
        (disks_of parts.new) }
{
    for part in parts.iter_mut() {
        format_part(part)?;
    }
    Ok(())
}

/// Makes each arena of a partition one without blocks.
fn format_part<D: Disk>(part: &mut Part<D>) -> Result<(), Failed>
    requires { arenas_end (table_of part.old) ≤ D.size (disk_of part.old) }
    ensures empty { OnOk result (IsEmpty D.Disk part.new) }
    ensures table { table_of part.new ≡ table_of part.old }
    ensures writes { WritesInHeads D.Disk (table_of part.old) (disk_of part.old)
        (disk_of part.new) }
    ensures stops { OnErr result (StopsAtArena D.Disk part.old part.new) }
    ensures cause { HasCause result (D.faults (disk_of part.old)) (D.faults (disk_of part.new)) }
{
    for arena in 0..part.count() {
        let region = part.region(arena);
        vt_arena::format(&mut part.disk, region, arena)?;
    }
    Ok(())
}

/// Finds the log of these partitions. It syncs each disk, since only what was synced names the
/// heads for good, and then reads the head of each arena. A refusal hands the partitions back.
///
/// Part refuses two partitions of one name, and Arena the first arena that can't be mounted. An
/// arena with blocks that stands behind an unsealed one is refused by Order, and a sealed one there
/// by Arena. Fault says that a device call failed, and NoMemory that there was no room.
// (what is tested and found: specs/Mounting.antt, Faults.antt; the log: Logs.antt, Sound.antt)
pub fn mount<D: Disk, S: Scorer + Drop>(
    alloc: Global,
    mut parts: Vec<Part<D>>,
    scorer: S,
) -> Result<Log<D, S>, (LogBad, Vec<Part<D>>)>
    requires many { length parts.items < 2 ^ 32 }
    requires few { arena_count (tables_of parts.items) < 2 ^ 32 }
    requires rooms { All (λ part. arenas_end (table_of part) ≤ D.size (disk_of part)) parts.items }

    // The log that is there is found, with exactly its history and its base.
    ensures found { (h : History) (base : ℕ) → IsTrue D.tells → AreDistinct (names_of parts.items)
        → IsLog S.score_of (layout_of (tables_of parts.items))
        (map D.bytes (disks_of parts.items)) h base
        → MatchResult result (λ log. IsSoundLog S.score_of D.Disk log h
        × (log.base ≡ base) × (log.durable ≡ length h))
        (λ refusal. (refusal.0 ≡ LogBad.Fault) ⊎ (refusal.0 ≡ LogBad.NoMemory)) }
    ensures mounted { IfOk result IsMountedLog }
    ensures whole { IfOk result (IsWholeLog D.Disk) }
    ensures layout { IfOk result (λ log. (log.layout ≡ layout_of (tables_of parts.items))
        × (log.tables ≡ tables_of parts.items)) }

    // Each refusal comes exactly where its test is the first to fail. A log is mounted by a sync of
    // each disk, and two reads of each arena or, by what its head says, three.
    ensures answer { (fields : List (List ℕ)) × (IsTrue D.tells
        → AreReadAt (layout_of (tables_of parts.items)) (map D.bytes (disks_of parts.items)) fields)
        × MatchResult result
        (IsMountedBy (names_of parts.items) (layout_of (tables_of parts.items)) fields)
        (λ it. RefusesLogMount (names_of parts.items) (layout_of (tables_of parts.items)) fields
        it.0)
        × IfOk result (MountsInCalls D.Disk parts.items fields) }

    // A refusal is told of disks that are settled, and nothing is read behind a failed sync.
    ensures told { IfErr result
        (λ refusal. TellsOfSettled D.Disk parts.items refusal.1.items refusal.0) }

    // It writes nothing, and syncs each disk and reads each head once.
    ensures handed_back { IfErr result (λ refusal. tables_of refusal.1.items
        ≡ tables_of parts.items) }
    ensures settled { IfOk result (λ log. All (IsSynced D.Disk) log.disks) }
    ensures disks { HoldTheSame D.Disk (disks_of parts.items) (disks_after result) }
    ensures most_calls { IsTrue D.tells → sum_by D.calls (disks_after result)
        ≤ sum_by D.calls (disks_of parts.items) + length parts.items
        + 3 * arena_count (tables_of parts.items) }
    ensures cause { CountsFaults D.Disk (λ refusal. is_log_fault refusal.0) result
        (disks_of parts.items) (disks_after result) }
{
    match find_log(alloc, &mut parts) {
        Ok(opened) => Ok(opened.into_log(parts, scorer)),
        Err(bad) => Err((bad, parts)),
    }
}

/// What was found of a log, and room for its calls.
#[derive(Drop)]
struct Opened {
    layout: Layout,
    /// Each arena's current head.
    heads: Vec<Found>,
    /// Each arena's version, as it counts.
    versions: Vec<u16>,
    /// The first arena that isn't sealed, or the count of arenas.
    base: u32,
    /// That one. Where every arena is sealed, it is one of no partition.
    arena: Arena,
    /// Empty, with all the room that it will want.
    queue: Queue,
}

impl Opened {
    ghost use Rattle.vt_log.specs.Mounting.{found_log};
    ghost use Rattle.vt_log.specs.Queue.{no_queue};

    /// Makes the log of what was found. It takes no memory and can't fail, so the partitions aren't
    /// lost.
    fn into_log<D: Disk, S: Scorer>(self, parts: Vec<Part<D>>, scorer: S) -> Log<D, S>
        requires queue { self.queue ≡ no_queue }
        requires versions { self.versions.items ≡ map (λ f. version_counted f.head) self.heads.items }
        requires whole { IsWholeLog D.Disk (found_log (disks_of parts.items) (tables_of parts.items)
            self.layout self.heads.items self.base self.arena) }
        ensures { result ≡ found_log (disks_of parts.items) (tables_of parts.items)
            self.layout self.heads.items self.base self.arena }
    {
        let Opened {
            layout,
            heads,
            versions,
            base,
            arena,
            queue,
        } = self;
        let durable = blocks_in(&heads);
        let filling = Filling::of(base, &arena.head());
        Log {
            parts,
            scorer,
            layout,
            heads,
            versions,
            base,
            committing: base,
            arena,
            queue,
            filling,
            durable,
            calls: CallCount::new(),
        }
    }
}

/// How many blocks arenas with these heads have.
fn blocks_in(heads: &[Found]) -> u64
    requires { length heads.now < 2 ^ 32 }
    ensures { result ≡ sum_by (λ found. found.head.clumps) heads.now }
{
    let mut blocks = 0;
    for found in heads {
        blocks += u64::from(found.head.clumps);
    }
    blocks
}

/// Finds the log, and makes room.
// (find_log syncs, find_all goes over all arenas, find_next tests their order, find_arena reads)
fn find_log<D: Disk>(alloc: Global, parts: &mut [Part<D>]) -> Result<Opened, LogBad>
    requires many { length parts.old < 2 ^ 32 }
    requires few { arena_count (tables_of parts.old) < 2 ^ 32 }
    requires rooms { All (λ part. arenas_end (table_of part) ≤ D.size (disk_of part)) parts.old }
    ensures distinct { OnOk result (AreDistinct (names_of parts.old)) }
    ensures answer { (fields : List (List ℕ)) × (IsTrue D.tells
        → AreReadAt (layout_of (tables_of parts.old)) (map D.bytes (disks_of parts.old)) fields)
        × MatchResult result
        (λ it. ArePassed (layout_of (tables_of parts.old)) fields it.heads.items)
        (λ bad. RefusesLogMount (names_of parts.old) (layout_of (tables_of parts.old)) fields bad)
        × OnOk result (OnlyReadsParts D.Disk
        (length parts.old + reads_to_find_all (layout_of (tables_of parts.old)) fields)
        parts.old parts.new) }
    ensures found { IfOk result (λ it. AreFound D.tells (layout_of (tables_of parts.old))
        (map D.bytes (disks_of parts.old)) it.heads.items) }
    ensures layout { IfOk result (λ it. it.layout ≡ layout_of (tables_of parts.old)) }
    ensures base { IfOk result (λ it. IsFirstOpen it.heads.items it.base) }
    ensures arena { IfOk result
        (λ it. IsRoomFor (layout_of (tables_of parts.old)) it.heads.items it.base it.arena) }
    ensures versions { IfOk result
        (λ it. it.versions.items ≡ map (λ f. version_counted f.head) it.heads.items) }
    ensures queue { IfOk result (λ it. it.queue ≡ no_queue) }
    ensures settled { OnOk result (All (IsSynced D.Disk) (disks_of parts.new)) }
    ensures told { IfErr result (TellsOfSettled D.Disk parts.old parts.new) }
    ensures read { OnlyReadsParts D.Disk
        (length parts.old + 3 * arena_count (tables_of parts.old)) parts.old parts.new }
    ensures cause { CountsFaults D.Disk is_log_fault result (disks_of parts.old)
        (disks_of parts.new) }
{
    let layout = list(alloc, parts)?;
    sync_all(parts)?;
    let heads = find_all(alloc, parts, &layout)?;
    make_room(alloc, layout, heads)
}

/// The regions of all arenas.
fn list<D>(alloc: Global, parts: &[Part<D>]) -> Result<Layout, LogBad>
    requires { length parts.now < 2 ^ 32 }
    ensures listed { IfOk result (λ layout. layout ≡ layout_of (tables_of parts.now)) }
    ensures distinct { OnOk result (AreDistinct (names_of parts.now)) }
    ensures refused { (layout : List ArenaRegion) (fields : List (List ℕ))
        → IfErr result (RefusesLogMount (names_of parts.now) layout fields) }
    ensures early { IfErr result IsBeforeCalls }
    ensures no_fault { IfErr result (λ bad. IsFalse (is_log_fault bad)) }
{
    match vt_part::list(alloc, parts) {
        Ok(layout) => Ok(layout),
        Err(PartBad::NoMemory) => Err(LogBad::NoMemory),
        Err(bad) => Err(LogBad::Part(bad)),
    }
}

/// Syncs each disk.
fn sync_all<D: Disk>(parts: &mut [Part<D>]) -> Result<(), LogBad>
    ensures settled { OnOk result (All (IsSynced D.Disk) (disks_of parts.new)) }
    ensures fault { IfErr result (λ bad. bad ≡ LogBad.Fault) }
    ensures stops { OnErr result (StopsSyncing D.Disk parts.old parts.new) }
    ensures read { OnlyReadsParts D.Disk (length parts.old) parts.old parts.new }
    ensures cause { CountsFaults D.Disk is_log_fault result (disks_of parts.old)
        (disks_of parts.new) }
{
    for part in parts.iter_mut() {
        part.disk.sync()?;
    }
    Ok(())
}

/// Finds each arena, and tests that they are in order.
fn find_all<D: Disk>(
    alloc: Global,
    parts: &mut [Part<D>],
    layout: &Layout,
) -> Result<Vec<Found>, LogBad>
    requires few { length layout.now < 2 ^ 32 }
    requires regions { All (IsOnDisk D.Disk (disks_of parts.old)) layout.now }
    ensures answer { (fields : List (List ℕ)) × (IsTrue D.tells
        → AreReadAt layout.now (map D.bytes (disks_of parts.old)) fields)
        × MatchResult result (λ heads. ArePassed layout.now fields heads.items)
        (λ bad. RefusesArenas layout.now fields bad)
        × OnOk result (OnlyReadsParts D.Disk (reads_to_find_all layout.now fields)
        parts.old parts.new) }
    ensures found { IfOk result (λ heads. AreFound D.tells layout.now
        (map D.bytes (disks_of parts.old)) heads.items) }
    ensures read { OnlyReadsParts D.Disk (3 * length layout.now) parts.old parts.new }
    ensures cause { CountsFaults D.Disk is_log_fault result (disks_of parts.old)
        (disks_of parts.new) }
{
    let regions = layout.as_slice();
    let Ok(mut heads) = Vec::with_capacity(alloc, regions.len()) else {
        return Err(LogBad::NoMemory);
    };
    let mut behind = false;
    for i in 0..regions.len() {
        let found = find_next(parts, regions[i], i as u32, behind)?;
        behind = behind || !found.head.sealed;
        let Ok(()) = heads.push(found) else {
            return Err(LogBad::NoMemory);
        };
    }
    Ok(heads)
}

/// Finds an arena, and tests that it may stand behind an unsealed one, if it does.
fn find_next<D: Disk>(
    parts: &mut [Part<D>],
    r: ArenaRegion,
    arena: u32,
    behind: bool,
) -> Result<Found, LogBad>
    requires { IsOnDisk D.Disk (disks_of parts.old) r }
    ensures answer { (fields : List ℕ)
        × (IsTrue D.tells → AreFieldsAt (map D.bytes (disks_of parts.old)) r fields)
        × FindsNext behind arena r fields result
        × OnOk result (OnlyReadsParts D.Disk (reads_to_find r.number r.region.len fields)
        parts.old parts.new) }
    ensures found { IfOk result (λ found. (disk : D) → slice_get (disks_of parts.old) r.part
        ≡ Some disk → IsFoundArena D.tells r (D.bytes disk) found) }
    ensures read { OnlyReadsParts D.Disk 3 parts.old parts.new }
    ensures cause { CountsFaults D.Disk is_log_fault result (disks_of parts.old)
        (disks_of parts.new) }
{
    let found = find_arena(parts, r, arena)?;
    if behind {
        check_order(arena, &found.head)?;
    }
    Ok(found)
}

/// Finds the arena of this region, by its own number in its partition.
fn find_arena<D: Disk>(parts: &mut [Part<D>], r: ArenaRegion, arena: u32) -> Result<Found, LogBad>
    requires { IsOnDisk D.Disk (disks_of parts.old) r }
    ensures answer { (fields : List ℕ)
        × (IsTrue D.tells → AreFieldsAt (map D.bytes (disks_of parts.old)) r fields)
        × FindsNext Bool.false arena r fields result
        × OnOk result (OnlyReadsParts D.Disk (reads_to_find r.number r.region.len fields)
        parts.old parts.new) }
    ensures found { IfOk result (λ found. (disk : D) → slice_get (disks_of parts.old) r.part
        ≡ Some disk → IsFoundArena D.tells r (D.bytes disk) found) }
    ensures read { OnlyReadsParts D.Disk 3 parts.old parts.new }
    ensures cause { CountsFaults D.Disk is_log_fault result (disks_of parts.old)
        (disks_of parts.new) }
{
    match find(&mut parts[r.part as usize].disk, r.region, r.number) {
        Ok(found) => Ok(found),
        Err(bad) => Err(refused(arena, bad)),
    }
}

/// Why a log can't be mounted, where this is why its arena of this number can't.
fn refused(arena: u32, bad: ArenaBad) -> LogBad
    ensures { result ≡ arena_refusal arena bad }
{
    match bad {
        ArenaBad::Fault => LogBad::Fault,
        _ => LogBad::Arena { arena, bad },
    }
}

/// Tests that an arena behind an unsealed one has no blocks, and isn't sealed.
fn check_order(arena: u32, head: &ArenaHead) -> Result<(), LogBad>
    ensures order { MatchResult result (λ _. out_of_order arena (fields_of head.now) ≡ None)
        (λ bad. out_of_order arena (fields_of head.now) ≡ Some bad) }
    ensures no_fault { IfErr result (λ bad. IsFalse (is_log_fault bad)) }
{
    if head.clumps > 0 {
        return Err(LogBad::Order {
            arena,
            clumps: head.clumps,
        });
    }
    if head.sealed {
        return Err(LogBad::Arena {
            arena,
            bad: ArenaBad::Torn {
                field: Field::Sealed,
                found: 1,
                want: 0,
            },
        });
    }
    Ok(())
}

/// Makes room for the calls of a log.
fn make_room(alloc: Global, layout: Layout, heads: Vec<Found>) -> Result<Opened, LogBad>
    requires few { length layout < 2 ^ 32 }
    requires many { length heads.items ≡ length layout }
    requires heads { (i : ℕ) (r : ArenaRegion) (found : Found) → slice_get layout i ≡ Some r
        → slice_get heads.items i ≡ Some found
        → IsArenaLen r.region.len × CanStand r.number r.region.len found.head }
    ensures layout { IfOk result (λ it. it.layout ≡ layout) }
    ensures heads { IfOk result (λ it. it.heads.items ≡ heads.items) }
    ensures base { IfOk result (λ it. IsFirstOpen heads.items it.base) }
    ensures arena { IfOk result (λ it. IsRoomFor layout heads.items it.base it.arena) }
    ensures versions { IfOk result
        (λ it. it.versions.items ≡ map (λ f. version_counted f.head) heads.items) }
    ensures queue { IfOk result (λ it. it.queue ≡ no_queue) }
    ensures memory { IfErr result (λ bad. bad ≡ LogBad.NoMemory) }
{
    let base = first_unsealed(&heads);
    let Ok(arena) = room_for(alloc, &layout, &heads, base) else {
        return Err(LogBad::NoMemory);
    };
    let Ok(queue) = Queue::new(alloc) else {
        return Err(LogBad::NoMemory);
    };
    let versions = versions_of(alloc, &heads)?;
    Ok(Opened {
        layout,
        heads,
        versions,
        base: base as u32,
        arena,
        queue,
    })
}

/// The version of each arena: one without blocks counts as one of the version that is written.
fn versions_of(alloc: Global, heads: &[Found]) -> Result<Vec<u16>, LogBad>
    ensures versions { IfOk result
        (λ it. it.items ≡ map (λ f. version_counted f.head) heads.now) }
    ensures memory { IfErr result (λ bad. bad ≡ LogBad.NoMemory) }
{
    let Ok(mut versions) = Vec::with_capacity(alloc, heads.len()) else {
        return Err(LogBad::NoMemory);
    };
    for found in heads {
        let Ok(()) = versions.push(version_counted(&found.head)) else {
            return Err(LogBad::NoMemory);
        };
    }
    Ok(versions)
}

/// The number of the first arena that isn't sealed, or their count.
fn first_unsealed(heads: &[Found]) -> usize
    ensures { IsFirstOpen heads.now result }
{
    for (i, found) in heads.iter().enumerate() {
        if !found.head.sealed {
            return i;
        }
    }
    heads.len()
}

/// Room to commit in an arena. Where there is none, it is that of an arena without blocks.
fn room_for(
    alloc: Global,
    layout: &Layout,
    heads: &[Found],
    arena: usize,
) -> Result<Arena, AllocError>
    requires many { length heads.now ≡ length layout.now }
    requires heads { (r : ArenaRegion) (found : Found) → slice_get layout.now arena ≡ Some r
        → slice_get heads.now arena ≡ Some found
        → IsArenaLen r.region.len × CanStand r.number r.region.len found.head }
    ensures { IfOk result (λ a. IsRoomFor layout.now heads.now arena a) }
{
    if arena >= heads.len() {
        return Arena::resume(alloc, LEAST_ARENA, no_arena());
    }
    Arena::resume(alloc, layout.as_slice()[arena].region.len, heads[arena])
}

/// The head that the log works with where every arena is sealed: none of a disk.
fn no_arena() -> Found
    ensures { (result.head.sealed ≡ Bool.false) × (result.head.used ≡ 0)
        × (result.head.clumps ≡ 0) }
{
    Found {
        head: ArenaHead {
            version: 1,
            number: 0,
            sealed: false,
            clumps: 0,
            used: 0,
            chain: Score([0; 20]),
            last: 0,
        },
        selector: 0,
    }
}
