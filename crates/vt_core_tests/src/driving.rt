//! Stores that are driven to the answers of a session, and to the end of their use.

ghost use Rattle.std.specs.Prelude.{IsTrue};
ghost use Rattle.vt_core.specs.Machine.{WaitsForNone};

use crate::disks::{Disks, Fails, Mem, SMALL, Shape, TestDisk, TestDisks};
use crate::stores::{DATA, TestScorer, TestStore, there};
use std::alloc::Global;
use std::test::Fail;
use vt_base::{Bytes, Operation, Said, Score, Scorer, Sha1Scorer, Why};
use vt_core::{Core, Event, Out};
use vt_disk::Disk;
use vt_handler::{read, write};
use vt_memdisk::CrashMode;
use vt_requests::{Driven, ask, end, sync};
use vt_rows::Rows;

/// What is done to a store behind its session: its use is ended, or all is synced, by the call for
/// that or by a request.
#[derive(Clone, Copy)]
pub enum Last {
    /// Its use is ended: all is written back, too.
    End,
    /// The call for a sync.
    Sync,
    /// A request for a sync.
    Ask,
}

/// What that gave, how many blocks are accepted, durable and synced then, and the disks.
#[derive(Drop)]
pub struct Finished<K> {
    pub done: Result<(), Why>,
    pub counts: [u64; 3],
    pub disks: K,
}

/// A store that one session asks, on disks that a test makes. What a test does is proved for any
/// such store, which is much less work than for the real one, and runs on that.
pub trait DrivenStore: Drop {
    type Disks: TestDisks;

    /// The store of these disks. None says that there is none.
    fn open(alloc: Global, disks: Self::Disks) -> Option<Self>;

    /// Writes a block of data.
    fn put(&mut self, alloc: Global, bytes: &[u8]) -> Result<Score, Why>;

    /// Reads a block of data of four bytes.
    fn get(&mut self, alloc: Global, score: &Score) -> Result<Bytes, Why>;

    /// Asks that all be durable.
    fn sync(&mut self, alloc: Global) -> Result<(), Why>;

    /// Its session is over.
    fn finish(self, alloc: Global, last: Last) -> Option<Finished<Self::Disks>>;
}

impl<D: TestDisk, S: TestScorer> DrivenStore for Driven<D, S> {
    type Disks = Disks<D>;

    fn open(alloc: Global, disks: Disks<D>) -> Option<Self> {
        let mut core = mounted(alloc, disks)?;
        if is_free(alloc, &mut core) {
            Some(Driven::new(core, 7))
        } else {
            None
        }
    }

    fn put(&mut self, alloc: Global, bytes: &[u8]) -> Result<Score, Why> {
        write(alloc, self, DATA, bytes)
    }

    fn get(&mut self, alloc: Global, score: &Score) -> Result<Bytes, Why> {
        read(alloc, self, score, DATA, 4)
    }

    fn sync(&mut self, alloc: Global) -> Result<(), Why> {
        vt_handler::sync(alloc, self)
    }

    fn finish(self, alloc: Global, last: Last) -> Option<Finished<Disks<D>>> {
        let mut core = self.into_core();
        let done = match last {
            Last::End => end(&mut core, alloc),
            Last::Sync => sync(&mut core, alloc, 0),
            Last::Ask => synced(ask(&mut core, alloc, 0, Operation::Sync, 7).said),
        };
        let counts = core.counts();
        let disks = core.close()?;
        Some(Finished {
            done,
            counts,
            disks,
        })
    }
}

/// The store of these disks, if there is one.
fn mounted<D: TestDisk, S: TestScorer>(alloc: Global, disks: Disks<D>) -> Option<Core<D, S>> {
    match TestStore::open(alloc, disks) {
        Some(Ok(core)) => Some(core),
        _ => None,
    }
}

/// Whether its first session waits for nothing.
fn is_free<D: Disk, S: Scorer>(alloc: Global, core: &mut Core<D, S>) -> bool
    ensures { IsTrue result → WaitsForNone core.new.waiting 0 }
{
    core.sessions() > 0 && matches!(core.step(alloc, Event::Answer(0)), Out::Nothing)
}

/// What the answer to a sync comes to.
fn synced(said: Said) -> Result<(), Why> {
    match said {
        Said::Synced => Ok(()),
        Said::Refused(why) => Err(why),
        Said::Score(_) | Said::Block(_) => Err(Why::Absent),
    }
}

/// The store of these disks.
fn opened<T: DrivenStore>(alloc: Global, disks: Option<T::Disks>) -> Result<T, &'static str> {
    match disks {
        Some(disks) => T::open(alloc, disks).ok_or("the store is opened"),
        None => Err("memory for the disks"),
    }
}

/// Whether the block with this number is written.
fn is_written<T: DrivenStore>(alloc: Global, store: &mut T, number: u32) -> bool {
    let bytes = number.to_be_bytes();
    match store.put(alloc, &bytes) {
        Ok(score) => score == Sha1Scorer.score(&bytes),
        Err(_) => false,
    }
}

/// Writes so many blocks. It gives whether all are.
fn writes<T: DrivenStore>(alloc: Global, store: &mut T, count: u32) -> bool {
    for number in 0..count {
        if !is_written(alloc, store, number) {
            return false;
        }
    }
    true
}

/// Whether the block with this number is read.
fn is_read<T: DrivenStore>(alloc: Global, store: &mut T, number: u32) -> bool {
    let bytes = number.to_be_bytes();
    match store.get(alloc, &Sha1Scorer.score(&bytes)) {
        Ok(found) => found.as_slice() == &bytes[..],
        Err(_) => false,
    }
}

/// Whether so many blocks are read.
fn reads<T: DrivenStore>(alloc: Global, store: &mut T, count: u32) -> bool {
    for number in 0..count {
        if !is_read(alloc, store, number) {
            return false;
        }
    }
    true
}

/// A crash leaves so many blocks on disks on which all is synced.
fn left<T: DrivenStore>(alloc: Global, disks: T::Disks, count: u32, rows: &mut Rows, row: usize) {
    let store = opened::<T>(alloc, disks.crashed(alloc, CrashMode::Synced));
    if let Some(mut store) = there(rows, row, store) {
        let found = reads(alloc, &mut store, count);
        rows.nth(row, "all blocks are read behind a crash", found);
    }
}

/// What a store comes to whose session is over.
fn ended<T: DrivenStore>(
    alloc: Global,
    store: T,
    last: Last,
) -> Result<Finished<T::Disks>, &'static str> {
    store.finish(alloc, last).ok_or("the disks are handed back")
}

/// The use of a store of so many blocks is ended well, so many of which are synced then, and they are
/// there behind a crash.
fn ends<T: DrivenStore>(
    alloc: Global,
    store: T,
    last: Last,
    count: u32,
    synced: u64,
    rows: &mut Rows,
) {
    let row = count as usize;
    let Some(finished) = there(rows, row, ended(alloc, store, last)) else {
        return;
    };
    let Finished {
        done,
        counts,
        disks,
    } = finished;
    let many = u64::from(count);
    rows.nth(row, "what the end of the store's use tells", done == Ok(()));
    rows.nth(row, "the counts in the end", counts == [many, many, synced]);
    left::<T>(alloc, disks, count, rows, row);
}

/// So many blocks are written, and read, and are there behind the end of the store's use.
fn fills<T: DrivenStore>(alloc: Global, disks: Option<T::Disks>, count: u32, rows: &mut Rows) {
    let row = count as usize;
    let Some(mut store) = there(rows, row, opened::<T>(alloc, disks)) else {
        return;
    };
    let written = writes(alloc, &mut store, count);
    rows.nth(row, "so many blocks are written", written);
    let found = reads(alloc, &mut store, count);
    rows.nth(row, "so many blocks are read", found);
    ends(alloc, store, Last::End, count, 0, rows);
}

/// One section of eight buckets, and no filter.
const LARGE: Shape = Shape {
    arenas: 1,
    arena_len: 262_144,
    sections: 1,
    buckets: 8,
    has_filter: false,
};

/// The disks of a store without blocks, of which none fails.
fn new_disks<T: DrivenStore>(alloc: Global, shape: Shape) -> Option<T::Disks> {
    T::Disks::made(alloc, shape, 0, Fails::Never)
}

// ---- failures

/// How many calls of the partition mounting makes: the read of its table, a sync, and two reads of
/// the arena's head.
const MOUNTING: u64 = 4;

/// The third call of a commit fails: the sync tells it, and later ones tell that the log has
/// stopped there. What was queued is still read, and isn't durable.
fn fails_sync<T: DrivenStore>(alloc: Global, rows: &mut Rows) {
    let store = opened::<T>(
        alloc,
        T::Disks::made(alloc, SMALL, 0, Fails::At(MOUNTING + 2)),
    );
    let Some(mut store) = there(rows, 0, store) else {
        return;
    };
    see_stopped(alloc, &mut store, rows);
    if let Some(finished) = there(rows, 0, ended(alloc, store, Last::End)) {
        rows.is(
            "what the end tells of a stopped log",
            finished.done == Err(STOPPED),
        );
        rows.is("the counts of a stopped log", finished.counts == [1, 0, 0]);
    }
}

/// The log has stopped at this call of a commit, counted from 0.
const STOPPED: Why = Why::Stopped(2);

/// A sync fails, and what comes behind it is refused, but for a read of what is queued.
fn see_stopped<T: DrivenStore>(alloc: Global, store: &mut T, rows: &mut Rows) {
    let written = writes(alloc, store, 1);
    rows.is("a block is written", written);
    let sync = store.sync(alloc);
    rows.is("the sync that fails", sync == Err(Why::DiskFault));
    let sync = store.sync(alloc);
    rows.is("a later sync", sync == Err(STOPPED));
    let write = store.put(alloc, b"abc");
    rows.is("a later write", write == Err(STOPPED));
    let found = reads(alloc, store, 1);
    rows.is("what was queued is read", found);
}

/// A store of which these calls of this disk fail, with two blocks. There is none where a call fails
/// before all is written.
fn with_two<T: DrivenStore>(
    alloc: Global,
    device: u32,
    fails: Fails,
    rows: &mut Rows,
    row: usize,
) -> Option<T> {
    let disks = T::Disks::made(alloc, SMALL, device, fails).ok_or("memory for the disks");
    let mut store = T::open(alloc, there(rows, row, disks)?)?;
    if writes(alloc, &mut store, 2) {
        Some(store)
    } else {
        None
    }
}

/// Two blocks are written to a store of which these calls of this disk fail, and its use is ended:
/// the log is durable all the same, the failure is told, and the blocks are there behind a crash.
/// It gives whether one failed in the end, or None where it did so before.
fn fails_in_end<T: DrivenStore>(
    alloc: Global,
    device: u32,
    fails: Fails,
    rows: &mut Rows,
    row: usize,
) -> Option<bool> {
    let store: T = with_two(alloc, device, fails, rows, row)?;
    let finished = there(rows, row, ended(alloc, store, Last::End))?;
    let Finished {
        done,
        counts,
        disks,
    } = finished;
    rows.nth(row, "the log is durable in the end", counts == [2, 2, 0]);
    if done.is_ok() {
        return Some(false);
    }
    rows.nth(row, "the failure is told", done == Err(Why::DiskFault));
    left::<T>(alloc, disks, 2, rows, row);
    Some(true)
}

/// Each call of a disk that an end makes fails once, alone or with all behind it. It gives how many
/// they are, or None where no call is the last. A row that doesn't hold has the call's number.
fn fails_each<T: DrivenStore>(
    alloc: Global,
    device: u32,
    alone: bool,
    rows: &mut Rows,
) -> Option<u32> {
    let mut failed = 0u32;
    for call in 0..60u8 {
        let fails = if alone {
            Fails::At(u64::from(call))
        } else {
            Fails::From(u64::from(call))
        };
        match fails_in_end::<T>(alloc, device, fails, rows, usize::from(call)) {
            Some(true) => failed = failed.saturating_add(1),
            Some(false) => return Some(failed),
            None => {}
        }
    }
    None
}

/// What a row tells, a disk, and how many calls of it an end makes: each section has a block, whose
/// writeback makes five calls for its bucket and four for the head; the filter is saved by four.
const CALLS: [(&str, u32, u32); 3] = [
    ("the calls of the first section", 1, 9),
    ("the calls of the second section", 2, 9),
    ("the calls of the filter", 3, 4),
];

/// Each call of each part but the log fails at the end of a store's use: it alone, or all from it on.
fn fails_parts<T: DrivenStore>(alloc: Global, alone: bool, rows: &mut Rows) {
    for (what, device, calls) in &CALLS {
        let failed = fails_each::<T>(alloc, *device, alone, rows);
        rows.is(what, failed == Some(*calls));
    }
}

// ---- without a session

/// All that was written is durable behind a sync, and not before.
fn syncs<T: DrivenStore>(alloc: Global, last: Last, rows: &mut Rows) {
    let store = opened::<T>(alloc, new_disks::<T>(alloc, SMALL));
    let Some(mut store) = there(rows, 0, store) else {
        return;
    };
    let written = writes(alloc, &mut store, 2);
    rows.is("two blocks are written", written);
    ends(alloc, store, last, 2, 2, rows);
}

// ---- the tests

/// What a test sees.
#[derive(Clone, Copy)]
enum Case {
    /// Writes find a queue or a shard that is full.
    Room,
    /// Calls fail in a sync, and at the end of a store's use.
    Failures,
}

/// More blocks are written than the queue takes, and than a shard has room for.
fn get_room<T: DrivenStore>(alloc: Global, rows: &mut Rows) {
    fills::<T>(alloc, new_disks::<T>(alloc, SMALL), 65, rows);
    fills::<T>(alloc, new_disks::<T>(alloc, LARGE), 1_100, rows);
}

/// Calls fail: of the log, of one part at the end, and of all.
fn fail<T: DrivenStore>(alloc: Global, rows: &mut Rows) {
    fails_sync::<T>(alloc, rows);
    fails_parts::<T>(alloc, true, rows);
    fails_parts::<T>(alloc, false, rows);
    syncs::<T>(alloc, Last::Sync, rows);
    syncs::<T>(alloc, Last::Ask, rows);
}

fn see<T: DrivenStore>(alloc: Global, case: Case, rows: &mut Rows) {
    match case {
        Case::Room => get_room::<T>(alloc, rows),
        Case::Failures => fail::<T>(alloc, rows),
    }
}

/// The same, of stores on disks in memory.
fn passes(alloc: Global, case: Case) -> Result<(), Fail> {
    let mut rows = Rows::new();
    see::<Driven<Mem, Sha1Scorer>>(alloc, case, &mut rows);
    rows.passes()
}

/// The 65th write finds the queue full, and the 1,025th finds no room for an entry in its shard.
/// Both are answered as the others are.
#[test]
fn writes_get_room(rt: HostRuntime) -> Result<(), Fail> {
    passes(rt.alloc(), Case::Room)
}

#[test]
fn one_failure_keeps_no_part_from_its_end(rt: HostRuntime) -> Result<(), Fail> {
    passes(rt.alloc(), Case::Failures)
}
