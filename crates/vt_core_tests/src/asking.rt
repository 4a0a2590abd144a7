//! What stores answer, also to a sync that waits, with a full queue, and with a log that has
//! stopped.

use crate::disks::Fails;
use crate::running::{Case, passes};
use crate::stores::{Act, DATA, Given, TestStore, again, do_all, does, fresh, there};
use std::alloc::Global;
use std::test::Fail;
use vt_base::{Operation, Why};
use vt_core::Event;
use vt_memdisk::CrashMode;
use vt_rows::Rows;

/// Reads of a store that holds `abc` as data, and not as a directory.
const READS: [Act<'static>; 6] = [
    Act::Read(DATA, b"abc", 3, Ok(b"abc")),
    Act::Read(DATA, b"abc", 2, Err(Why::TooSmall)),
    Act::Read(2, b"abc", 3, Err(Why::Absent)),
    Act::Read(DATA, b"abd", 3, Err(Why::Absent)),
    Act::Read(10, b"abc", 3, Err(Why::BadType)),
    Act::Read(DATA, b"", 0, Ok(b"")),
];

/// A block is written twice, under no type and under another one, and so is one of no bytes.
const WRITES: [Act<'static>; 7] = [
    Act::Write(DATA, b"abc", Ok(())),
    Act::Count([1, 0, 0]),
    Act::Write(DATA, b"abc", Ok(())),
    Act::Write(0, b"abc", Err(Why::BadType)),
    Act::Write(DATA, b"", Ok(())),
    Act::Write(3, b"abc", Ok(())),
    Act::Count([2, 0, 0]),
];

/// A sync waits until its blocks are durable.
const SYNCS: [Act<'static>; 8] = [
    Act::Ask(1, Operation::Sync, Given::Waits),
    Act::Ask(1, Operation::Sync, Given::Nothing),
    Act::Step(Event::Answer(1), Given::NotYet),
    Act::Step(Event::Answer(0), Given::Nothing),
    Act::Work(Event::LogAdvance),
    Act::Count([2, 2, 0]),
    Act::Step(Event::Answer(1), Given::Synced(2)),
    Act::Count([2, 2, 2]),
];

/// What the second shard, which has `abc`, keeps of it in memory is dropped once, and read again.
const DROPS: [Act<'static>; 10] = [
    Act::Work(Event::FileBegin(1)),
    Act::Work(Event::FileAdvance(1)),
    Act::Work(Event::BloomAdvance),
    Act::Work(Event::EvictLump(1)),
    Act::Read(DATA, b"abc", 3, Ok(b"abc")),
    Act::Step(Event::EvictLump(1), Given::Moved),
    Act::Step(Event::EvictLump(1), Given::Nothing),
    Act::Step(Event::EvictIndex(1), Given::Moved),
    Act::Work(Event::EvictIndex(1)),
    Act::Step(Event::EvictIndex(1), Given::Nothing),
];

/// The length behind the next mount, and the reads.
const LEFT: [Act<'static>; 1] = [Act::Count([2, 2, 2])];

/// What is done before a crash, and behind it.
const BEFORE: [(&str, &[Act<'static>]); 5] = [
    ("a write", &WRITES),
    ("a read of what is queued", &READS),
    ("a sync", &SYNCS),
    ("what is dropped", &DROPS),
    ("a read of what is on the disks", &READS),
];

const BEHIND: [(&str, &[Act<'static>]); 2] = [
    ("the length behind a crash", &LEFT),
    ("a read behind a crash", &READS),
];

/// Does what these tables say, each told by its words.
fn do_tables<T: TestStore>(
    alloc: Global,
    store: &mut T,
    tables: &[(&'static str, &[Act<'_>])],
    rows: &mut Rows,
) {
    for (what, acts) in tables {
        do_all(alloc, store, what, acts, rows);
    }
}

/// Requests of a session, their refusals, syncs, what is dropped, and the next mount.
fn answers<T: TestStore>(alloc: Global, rows: &mut Rows) {
    let Some(mut store) = there(rows, 0, fresh::<T>(alloc, 1, 0, Fails::Never)) else {
        return;
    };
    do_tables(alloc, &mut store, &BEFORE, rows);
    if let Some(mut store) = there(rows, 0, again(alloc, store, CrashMode::Synced)) {
        do_tables(alloc, &mut store, &BEHIND, rows);
    }
}

// ---- a full queue

/// What is done behind 64 writes.
const FULL: [Act<'static>; 5] = [
    Act::Ask(
        0,
        Operation::Write {
            kind: DATA,
            bytes: &[64],
        },
        Given::NotYet,
    ),
    Act::Count([64, 0, 0]),
    Act::Work(Event::LogAdvance),
    Act::Write(DATA, &[64], Ok(())),
    Act::Count([65, 64, 0]),
];

/// Of 65 writes without a sync the last one meets a full queue, which is committed.
fn fills_queue<T: TestStore>(alloc: Global, rows: &mut Rows) {
    let Some(mut store) = there(rows, 0, fresh::<T>(alloc, 1, 0, Fails::Never)) else {
        return;
    };
    for number in 0..64u8 {
        let write = does(alloc, &mut store, &Act::Write(DATA, &[number], Ok(())));
        rows.nth(
            usize::from(number),
            "a write before the queue is full",
            write,
        );
    }
    do_all(alloc, &mut store, "an act at a full queue", &FULL, rows);
}

// ---- a stopped log

/// How many calls of the partition mounting makes: the read of its table, a sync, and two reads of
/// the arena's head.
const MOUNTING: u64 = 4;

/// The third call of a commit fails. Every reply says from then on that the log has stopped there,
/// but that a queued block is still read.
const STOPPED: [Act<'static>; 9] = [
    Act::Write(DATA, b"abc", Ok(())),
    Act::Ask(0, Operation::Sync, Given::Waits),
    Act::Step(Event::LogAdvance, Given::Moved),
    Act::Step(Event::LogAdvance, Given::Moved),
    Act::Step(Event::LogAdvance, Given::Failed),
    Act::Step(Event::Answer(0), Given::Refused(Why::Stopped(2))),
    Act::Write(DATA, b"abd", Err(Why::Stopped(2))),
    Act::Ask(0, Operation::Sync, Given::Refused(Why::Stopped(2))),
    Act::Read(DATA, b"abc", 3, Ok(b"abc")),
];

/// The first sync of the partition behind mounting fails.
fn stops<T: TestStore>(alloc: Global, rows: &mut Rows) {
    if let Some(mut store) = there(rows, 0, fresh::<T>(alloc, 1, 0, Fails::At(MOUNTING + 2))) {
        do_all(
            alloc,
            &mut store,
            "an act at a log that stops",
            &STOPPED,
            rows,
        );
    }
}

pub fn see<T: TestStore>(alloc: Global, rows: &mut Rows) {
    answers::<T>(alloc, rows);
    fills_queue::<T>(alloc, rows);
    stops::<T>(alloc, rows);
}

#[test]
fn requests_are_answered(rt: HostRuntime) -> Result<(), Fail> {
    passes(rt.alloc(), Case::Answers)
}
