//! Stores on disks that tests make, and what is done to them.

ghost use Rattle.std.specs.Prelude.{◌<◌, IsTrue, length};
ghost use Rattle.vt_core.specs.Events.{IsFor};

use crate::disks::{Disks, Fails, SMALL, Shape, TestDisk, TestDisks, closed, mounted_part, only};
use std::alloc::Global;
use vt_base::{MountBad, Operation, Said, Score, Scorer, Sha1Scorer, ShortScorer, Why};
use vt_core::{Core, Event, Out};
use vt_disk::Disk;
use vt_memdisk::CrashMode;
use vt_recover::Devices;
use vt_rows::Rows;
use vt_shard::Sizes;

/// What a shard keeps in memory: four blocks, and 64 clean entries.
pub const SIZES: Sizes = Sizes {
    lumps: 4,
    clean: 64,
};

/// A block of data has this type.
pub const DATA: u8 = 13;

/// What is there. Where it isn't, a row says so.
pub fn there<T>(rows: &mut Rows, row: usize, found: Result<T, &'static str>) -> Option<T> {
    match found {
        Ok(it) => Some(it),
        Err(what) => {
            rows.nth(row, what, false);
            None
        }
    }
}

/// A store that a test asks, stops, crashes and mounts again. What a test does is proved for any
/// such store, which is much less work than for the real one, and runs on that.
pub trait TestStore: Drop {
    type Disks: TestDisks;

    /// The store of these disks, for two sessions, or why there is none, and the disks. None says
    /// that they aren't disks of a store.
    fn open(alloc: Global, disks: Self::Disks) -> Option<Result<Self, (MountBad, Self::Disks)>>;

    /// It is stopped, and hands its disks back.
    fn close(self) -> Option<Self::Disks>;

    /// An event happens. One that isn't for this store does nothing.
    fn event(&mut self, alloc: Global, event: Event<'_>) -> Out;

    /// How many blocks are accepted, how many of them durable, and how many synced.
    fn counts(&self) -> [u64; 3];

    /// The score that the store gives a block of these bytes.
    fn score(&self, bytes: &[u8]) -> Score;
}

/// A scorer that a test makes.
pub trait TestScorer: Scorer + Drop {
    fn made() -> Self;
}

impl TestScorer for Sha1Scorer {
    fn made() -> Self {
        Sha1Scorer
    }
}

impl TestScorer for ShortScorer {
    fn made() -> Self {
        ShortScorer
    }
}

impl<D: TestDisk, S: TestScorer> TestStore for Core<D, S> {
    type Disks = Disks<D>;

    fn open(alloc: Global, disks: Disks<D>) -> Option<Result<Self, (MountBad, Disks<D>)>> {
        let Disks {
            arenas,
            sections,
            filter,
        } = disks;
        if sections.is_empty() || sections.len() > 100 {
            return None;
        }
        let devices = Devices {
            parts: only(alloc, mounted_part(arenas)?)?,
            sections,
            filter,
        };
        match Core::mount(alloc, devices, SIZES, 2, S::made()) {
            Ok(core) => Some(Ok(core)),
            Err((bad, devices)) => Some(Err((bad, closed(devices)?))),
        }
    }

    fn close(self) -> Option<Disks<D>> {
        closed(self.into_devices())
    }

    fn event(&mut self, alloc: Global, event: Event<'_>) -> Out {
        if !is_for(self, &event) {
            return Out::Nothing;
        }
        self.step(alloc, event)
    }

    fn counts(&self) -> [u64; 3] {
        [self.history_len(), self.durable(), self.synced()]
    }

    fn score(&self, bytes: &[u8]) -> Score {
        S::made().score(bytes)
    }
}

/// Whether an event's session and its shard are those of the store.
fn is_for<D: Disk, S: Scorer>(core: &Core<D, S>, event: &Event<'_>) -> bool
    ensures { IsTrue result
        → IsFor (length core.now.waiting) (length core.now.shards) event.now }
{
    match *event {
        Event::Ask { session, .. } | Event::Answer(session) => session < core.sessions(),
        Event::LogAdvance | Event::BloomAdvance => true,
        Event::FileBegin(shard)
        | Event::FileAdvance(shard)
        | Event::EvictLump(shard)
        | Event::EvictIndex(shard) => shard < core.shards(),
    }
}

/// The store of disks on which there is one.
pub fn opened<T: TestStore>(alloc: Global, disks: T::Disks) -> Result<T, &'static str> {
    match T::open(alloc, disks) {
        Some(Ok(store)) => Ok(store),
        Some(Err(_)) => Err("the store is mounted"),
        None => Err("disks of a store"),
    }
}

/// A store without blocks, with so many small arenas. These calls of this disk fail.
pub fn fresh<T: TestStore>(
    alloc: Global,
    arenas: u32,
    device: u32,
    fails: Fails,
) -> Result<T, &'static str> {
    match T::Disks::made(alloc, Shape { arenas, ..SMALL }, device, fails) {
        Some(disks) => opened(alloc, disks),
        None => Err("memory for the disks"),
    }
}

/// A store is stopped, crashes in a mode, and is mounted again.
pub fn again<T: TestStore>(alloc: Global, store: T, mode: CrashMode) -> Result<T, &'static str> {
    let Some(disks) = store.close() else {
        return Err("disks of a store");
    };
    match disks.crashed(alloc, mode) {
        Some(disks) => opened(alloc, disks),
        None => Err("memory for what a crash leaves"),
    }
}

// ---- events

/// A session asks.
pub fn ask(session: u32, operation: Operation<'_>) -> Event<'_> {
    Event::Ask {
        session,
        operation,
        now: 0,
    }
}

/// Makes this event happen until there is nothing to do. It gives whether no call failed.
pub fn work<T: TestStore>(alloc: Global, store: &mut T, event: Event<'static>) -> bool {
    for _ in 0..10_000u16 {
        match store.event(alloc, event) {
            Out::Moved => {}
            Out::Nothing => return true,
            _ => return false,
        }
    }
    false
}

/// Writes back what is durable of a shard.
pub fn file<T: TestStore>(alloc: Global, store: &mut T, shard: u32) -> bool {
    work(alloc, store, Event::FileBegin(shard)) && work(alloc, store, Event::FileAdvance(shard))
}

/// Commits all, writes all back in two shards, and saves the filter. It gives whether no call
/// failed.
pub fn settle<T: TestStore>(alloc: Global, store: &mut T) -> bool {
    work(alloc, store, Event::LogAdvance)
        && file(alloc, store, 0)
        && file(alloc, store, 1)
        && work(alloc, store, Event::BloomAdvance)
}

// ---- what is done, and what it gives

/// What an event gives, but for answers to reads and writes.
#[derive(Clone, Copy)]
pub enum Given {
    /// A sync was asked for, and waits.
    Waits,
    /// It is too early, as the queue is full, or what it waits for is still to be done.
    NotYet,
    /// A device call was made, a writeback begun, or something dropped.
    Moved,
    /// There was nothing to be done.
    Nothing,
    /// A device call failed.
    Failed,
    /// A sync is answered, for so many blocks.
    Synced(u64),
    Refused(Why),
}

/// Something that is done to a store, and what is wanted of it. The first session reads and writes.
#[derive(Clone, Copy)]
pub enum Act<'a> {
    /// A block of a type is written, and its score given.
    Write(u8, &'a [u8], Result<(), Why>),
    /// Of the block of a type with the score of these bytes this many bytes are asked for.
    Read(u8, &'a [u8], u32, Result<&'a [u8], Why>),
    /// A session asks.
    Ask(u32, Operation<'a>, Given),
    /// An event happens once.
    Step(Event<'static>, Given),
    /// It happens until there is nothing to do, and no call fails.
    Work(Event<'static>),
    /// So many blocks are accepted, durable, and synced.
    Count([u64; 3]),
}

/// Sees that an act gives what is wanted.
pub fn does<T: TestStore>(alloc: Global, store: &mut T, act: &Act<'_>) -> bool {
    match *act {
        Act::Write(kind, bytes, wanted) => {
            let score = store.score(bytes);
            let out = store.event(alloc, ask(0, Operation::Write { kind, bytes }));
            is_score(&out, &score, wanted)
        }
        Act::Read(kind, bytes, count, wanted) => {
            let score = store.score(bytes);
            let out = store.event(alloc, ask(0, Operation::Read { score, kind, count }));
            is_block(&out, wanted)
        }
        Act::Ask(session, operation, given) => {
            is(&store.event(alloc, ask(session, operation)), given)
        }
        Act::Step(event, given) => is(&store.event(alloc, event), given),
        Act::Work(event) => work(alloc, store, event),
        Act::Count(counts) => store.counts() == counts,
    }
}

/// Notes for each of them whether it does.
pub fn do_all<T: TestStore>(
    alloc: Global,
    store: &mut T,
    what: &'static str,
    acts: &[Act<'_>],
    rows: &mut Rows,
) {
    for (row, act) in acts.iter().enumerate() {
        rows.nth(row, what, does(alloc, store, act));
    }
}

/// What a session is told.
fn said(out: &Out) -> Option<&Said> {
    match out {
        Out::Said(answer) => Some(&answer.said),
        _ => None,
    }
}

/// A write was answered with this score, or refused.
pub fn is_score(out: &Out, score: &Score, wanted: Result<(), Why>) -> bool {
    match (wanted, said(out)) {
        (Ok(()), Some(Said::Score(found))) => *found == *score,
        (Err(why), Some(Said::Refused(found))) => *found == why,
        _ => false,
    }
}

/// A read was answered with these bytes, or refused.
pub fn is_block(out: &Out, wanted: Result<&[u8], Why>) -> bool {
    match (wanted, said(out)) {
        (Ok(bytes), Some(Said::Block(found))) => found.as_slice() == bytes,
        (Err(why), Some(Said::Refused(found))) => *found == why,
        _ => false,
    }
}

/// An event gave this.
pub fn is(out: &Out, given: Given) -> bool {
    match (given, out) {
        (Given::Waits, Out::Waits)
        | (Given::NotYet, Out::NotYet)
        | (Given::Moved, Out::Moved)
        | (Given::Nothing, Out::Nothing)
        | (Given::Failed, Out::Failed(Why::DiskFault)) => true,
        (Given::Synced(blocks), Out::Said(answer)) => {
            matches!(answer.said, Said::Synced) && answer.at == blocks
        }
        (Given::Refused(why), Out::Said(answer)) => match answer.said {
            Said::Refused(found) => found == why,
            _ => false,
        },
        _ => false,
    }
}
