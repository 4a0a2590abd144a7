//! Scripts that are stopped at each device call, and what a crash leaves then.

use crate::disks::{Fails, SMALL, TestDisks};
use crate::running::{Case, passes};
use crate::stores::{
    Act, DATA, Given, TestStore, again, ask, do_all, does, fresh, is, opened, settle, there,
};
use std::alloc::Global;
use std::test::Fail;
use vt_base::{MountBad, Operation, Why};
use vt_core::Event;
use vt_memdisk::CrashMode;
use vt_rows::Rows;

// ---- a script

/// The blocks that the script writes, in order.
const BLOCKS: [&[u8]; 3] = [b"abc", b"def", b"a third block"];

/// What the script does: it writes one of the blocks, asks for a sync, or does a piece of the
/// store's own work.
#[derive(Clone, Copy)]
enum Deed {
    /// The block of this number in `BLOCKS` is written.
    Write(usize),
    /// Session 0 asks for a sync.
    Sync,
    Own(Event<'static>),
}

/// A block is written and synced, and while all else is done of it a second one is written and
/// synced; then a third one, of which no sync is asked. Each deed is done so often.
const SCRIPT: [(u8, Deed); 20] = [
    (1, Deed::Write(0)),
    (1, Deed::Sync),
    (6, Deed::Own(Event::LogAdvance)),
    (1, Deed::Own(Event::Answer(0))),
    (1, Deed::Write(1)),
    (1, Deed::Own(Event::FileBegin(0))),
    (1, Deed::Own(Event::FileBegin(1))),
    (10, Deed::Own(Event::FileAdvance(0))),
    (10, Deed::Own(Event::FileAdvance(1))),
    (4, Deed::Own(Event::BloomAdvance)),
    (6, Deed::Own(Event::LogAdvance)),
    (1, Deed::Sync),
    (1, Deed::Own(Event::Answer(0))),
    (1, Deed::Own(Event::FileBegin(0))),
    (1, Deed::Own(Event::FileBegin(1))),
    (1, Deed::Write(2)),
    (10, Deed::Own(Event::FileAdvance(0))),
    (10, Deed::Own(Event::FileAdvance(1))),
    (4, Deed::Own(Event::BloomAdvance)),
    (6, Deed::Own(Event::LogAdvance)),
];

/// The event that a deed is.
fn event(deed: Deed) -> Event<'static> {
    match deed {
        Deed::Write(block) => {
            let bytes = if block < 3 { BLOCKS[block] } else { b"" };
            ask(0, Operation::Write { kind: DATA, bytes })
        }
        Deed::Sync => ask(0, Operation::Sync),
        Deed::Own(event) => event,
    }
}

/// Does a deed so often, and a request that a failed read refuses once more. It gives whether a
/// call failed.
fn repeat<T: TestStore>(alloc: Global, store: &mut T, times: u8, deed: Deed) -> bool {
    let mut failed = false;
    for _ in 0..times {
        let out = store.event(alloc, event(deed));
        if is(&out, Given::Refused(Why::DiskFault)) {
            store.event(alloc, event(deed));
            failed = true;
        }
        if is(&out, Given::Failed) {
            failed = true;
        }
    }
    failed
}

/// Whether a deed isn't a write, or all blocks before its own were accepted.
fn is_next<T: TestStore>(store: &T, deed: Deed) -> bool {
    match deed {
        Deed::Write(block) => store.counts()[0] == block as u64,
        Deed::Sync | Deed::Own(_) => true,
    }
}

/// Makes the script happen, also behind a call that fails, but for writes behind one that isn't
/// accepted. It gives whether a call failed.
fn play<T: TestStore>(alloc: Global, store: &mut T) -> bool {
    let mut failed = false;
    for (times, deed) in &SCRIPT {
        if is_next(store, *deed) && repeat(alloc, store, *times, *deed) {
            failed = true;
        }
    }
    failed
}

// ---- what is found

/// Whether the first so many blocks are there, and the others aren't.
fn has_just<T: TestStore>(alloc: Global, store: &mut T, count: u64) -> bool {
    let mut right = true;
    for (i, block) in BLOCKS.iter().enumerate() {
        let wanted = if (i as u64) < count {
            Ok(*block)
        } else {
            Err(Why::Absent)
        };
        right &= does(alloc, store, &Act::Read(DATA, block, 100, wanted));
    }
    right
}

/// Whether all of them are accepted.
fn accepts_all<T: TestStore>(alloc: Global, store: &mut T) -> bool {
    let mut right = true;
    for block in BLOCKS {
        right &= does(alloc, store, &Act::Write(DATA, block, Ok(())));
    }
    right
}

/// All of them are accepted, and found behind the next mount.
fn goes_on<T: TestStore>(alloc: Global, mut store: T, rows: &mut Rows, row: usize) {
    let accepted = accepts_all(alloc, &mut store);
    rows.nth(row, "all blocks are accepted behind a crash", accepted);
    let settled = settle(alloc, &mut store);
    rows.nth(row, "no call fails behind a crash", settled);
    if let Some(mut store) = there(rows, row, again(alloc, store, CrashMode::Synced)) {
        rows.nth(row, "the length in the end", store.counts() == [3, 3, 3]);
        let found = has_just(alloc, &mut store, 3);
        rows.nth(row, "all blocks are found in the end", found);
    }
}

/// After a crash the store has a prefix of what was accepted, with all that was durable, and goes
/// on.
fn recovers<T: TestStore>(alloc: Global, store: T, mode: CrashMode, rows: &mut Rows, row: usize) {
    let [accepted, durable, synced] = store.counts();
    rows.nth(row, "what is synced is durable", synced <= durable);
    let Some(mut store) = there(rows, row, again(alloc, store, mode)) else {
        return;
    };
    let [left, is_durable, is_synced] = store.counts();
    let prefix = durable <= left && left <= accepted;
    rows.nth(row, "a prefix is left, with what was durable", prefix);
    let all = is_durable == left && is_synced == left;
    rows.nth(row, "all that is left is durable", all);
    let found = has_just(alloc, &mut store, left);
    rows.nth(row, "the blocks that are left are found", found);
    goes_on(alloc, store, rows, row);
}

/// Mounting fails by a call of the disks. Behind a crash it succeeds.
fn mounts_again<T: TestStore>(
    alloc: Global,
    disks: T::Disks,
    mode: CrashMode,
    rows: &mut Rows,
    row: usize,
) {
    let store = match disks.crashed(alloc, mode) {
        Some(disks) => opened::<T>(alloc, disks),
        None => Err("memory for what a crash leaves"),
    };
    if let Some(store) = there(rows, row, store) {
        recovers(alloc, store, mode, rows, row);
    }
}

/// These calls of this disk fail in the script, with a crash in this mode behind it. It gives
/// whether one of them came.
fn stops_at<T: TestStore>(
    alloc: Global,
    device: u32,
    fails: Fails,
    mode: CrashMode,
    rows: &mut Rows,
    row: usize,
) -> bool {
    let Some(disks) = T::Disks::made(alloc, SMALL, device, fails) else {
        rows.nth(row, "memory for the disks", false);
        return false;
    };
    match T::open(alloc, disks) {
        None => true,
        Some(Err((bad, disks))) => {
            rows.nth(row, "the refusal", bad == MountBad::Fault);
            mounts_again::<T>(alloc, disks, mode, rows, row);
            true
        }
        Some(Ok(mut store)) => {
            let failed = play(alloc, &mut store);
            recovers(alloc, store, mode, rows, row);
            failed
        }
    }
}

/// It is stopped at this call of this disk, which fails alone, or with all behind it. It gives
/// whether the call came. A row that doesn't hold has the number of the disk, and that of the call
/// in its last two digits.
fn stops_in_each_mode<T: TestStore>(alloc: Global, device: u32, call: u8, rows: &mut Rows) -> bool {
    let row = (device as usize)
        .saturating_mul(100)
        .saturating_add(usize::from(call));
    let call = u64::from(call);
    let mut came = false;
    for mode in CrashMode::ALL {
        came = stops_at::<T>(alloc, device, Fails::At(call), mode, rows, row);
        let also = stops_at::<T>(alloc, device, Fails::From(call), mode, rows, row);
        rows.nth(row, "a call comes once", came == also);
    }
    came
}

/// It is stopped at each call of this disk. It gives how many there are, or 100 where there are
/// more.
fn stops<T: TestStore>(alloc: Global, device: u32, rows: &mut Rows) -> u8 {
    for call in 0..100u8 {
        if !stops_in_each_mode::<T>(alloc, device, call, rows) {
            return call;
        }
    }
    100
}

/// A disk, and how many calls of it come: the partition, each section, and the filter's. Mounting
/// makes four of the partition, and three of each other disk. A block takes six calls of the log, two
/// that read its bucket, and five that write it back, since its selector was read; the first section
/// gets one block, and the second one two of one bucket, of which one is written back, and whose frame
/// is known for the other. Twice each mark is raised, by four calls.
const CALLS: [(u32, u8); 4] = [
    (0, 4 + 3 * 6),
    (1, 3 + 2 + 5 + 2 * 4),
    (2, 3 + 2 + 1 + 5 + 2 * 4),
    (3, 3 + 2 * 4),
];

/// No call fails.
fn plays<T: TestStore>(alloc: Global, rows: &mut Rows) {
    if let Some(mut store) = there(rows, 0, fresh::<T>(alloc, 1, 0, Fails::Never)) {
        let failed = play(alloc, &mut store);
        rows.is("no call fails", !failed);
        rows.is("the length behind the script", store.counts() == [3, 3, 2]);
    }
}

/// The script is played through, and stopped at each call of each disk.
pub fn script<T: TestStore>(alloc: Global, rows: &mut Rows) {
    plays::<T>(alloc, rows);
    for (device, calls) in &CALLS {
        let found = stops::<T>(alloc, *device, rows) == *calls;
        rows.nth(
            *device as usize,
            "how many calls of a disk there are",
            found,
        );
    }
}

// ---- a torn selector

/// A store with one block, of whose section's writeback these calls were made: the frame is read,
/// whose number the write of the block has found, the other frame is written and synced, and the
/// selector is written.
const WRITTEN: [Act<'static>; 7] = [
    Act::Write(DATA, b"abc", Ok(())),
    Act::Work(Event::LogAdvance),
    Act::Step(Event::FileBegin(1), Given::Moved),
    Act::Step(Event::FileAdvance(1), Given::Moved),
    Act::Step(Event::FileAdvance(1), Given::Moved),
    Act::Step(Event::FileAdvance(1), Given::Moved),
    Act::Step(Event::FileAdvance(1), Given::Moved),
];

/// The store whose selector has this byte.
fn torn_store<T: TestStore>(alloc: Global, store: T, byte: u16) -> Result<T, &'static str> {
    let Some(disks) = store.close() else {
        return Err("disks of a store");
    };
    match disks.torn(byte) {
        Some(disks) => opened(alloc, disks),
        None => Err("the disks with a torn selector"),
    }
}

/// A crash leaves this byte of a bucket's selector.
fn is_torn<T: TestStore>(alloc: Global, byte: u16, rows: &mut Rows) {
    let Some(mut store) = there(rows, 0, fresh::<T>(alloc, 1, 0, Fails::Never)) else {
        return;
    };
    do_all(
        alloc,
        &mut store,
        "the writeback that is stopped",
        &WRITTEN,
        rows,
    );
    let row = usize::from(byte);
    if let Some(mut store) = there(rows, row, torn_store(alloc, store, byte)) {
        let found = has_just(alloc, &mut store, 1);
        rows.nth(
            row,
            "the block is found with this byte of a selector",
            found,
        );
    }
}

/// A crash leaves each of these bytes as a selector; from 256 on these are the old one, and the new one.
pub fn tear<T: TestStore>(alloc: Global, rows: &mut Rows) {
    for byte in [0, 1, 2, 3, 126, 127, 128, 129, 254, 255, 256, 257] {
        is_torn::<T>(alloc, byte, rows);
    }
}

// ---- the tests

#[test]
fn a_script_is_stopped_at_each_call(rt: HostRuntime) -> Result<(), Fail> {
    passes(rt.alloc(), Case::Script)
}

/// Whatever byte is left of a selector, the block is found.
#[test]
fn a_torn_selector_is_old_or_new(rt: HostRuntime) -> Result<(), Fail> {
    passes(rt.alloc(), Case::TornSelector)
}
