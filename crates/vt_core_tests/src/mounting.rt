//! Recovery: calls that fail while a log is read back, damage, a second crash in the middle of it,
//! and a smaller index under an old log.

use crate::disks::{ARENA_LEN, Fails, Shape, TestDisks};
use crate::running::{Case, passes_short};
use crate::stores::{Act, DATA, TestStore, ask, does, file, opened, there, work};
use std::alloc::Global;
use std::test::Fail;
use vt_base::{FieldValue, MountBad, MountField, Operation, Place, Site};
use vt_core::{Event, Out};
use vt_memdisk::CrashMode;
use vt_rows::Rows;

/// The bytes of an arena with room for more blocks than a shard has for their entries.
const LARGE: u32 = 131_072;

/// The disks of a store without blocks, with one arena and one section. These calls of the arena's
/// disk fail.
fn devices<T: TestStore>(
    alloc: Global,
    arena_len: u32,
    buckets: u32,
    fails: Fails,
) -> Option<T::Disks> {
    let shape = Shape {
        arenas: 1,
        arena_len,
        sections: 1,
        buckets,
        has_filter: true,
    };
    T::Disks::made(alloc, shape, 0, fails)
}

// ---- blocks

/// The block with this number, and its type. Each 255 in a row have one type and all scores but
/// that of no bytes, which lie evenly over all buckets.
fn block(number: u32) -> (u8, [u8; 4]) {
    let kind = match number / 255 {
        0 => DATA,
        cycle => (cycle % 8) as u8 + 1,
    };
    (kind, [(number % 255) as u8 + 1, 1, 2, 3])
}

/// Writes the block with this number. Where the queue is full, all is committed and written back
/// first.
fn write_block<T: TestStore>(alloc: Global, store: &mut T, number: u32) -> bool {
    let (kind, bytes) = block(number);
    let write = ask(
        0,
        Operation::Write {
            kind,
            bytes: &bytes,
        },
    );
    if let Out::NotYet = store.event(alloc, write) {
        return work(alloc, store, Event::LogAdvance)
            && file(alloc, store, 0)
            && matches!(store.event(alloc, write), Out::Said(_));
    }
    true
}

/// Writes so many blocks, and commits them. It gives whether all are.
fn write_blocks<T: TestStore>(alloc: Global, store: &mut T, count: u32) -> bool {
    for number in 0..count {
        if !write_block(alloc, store, number) {
            return false;
        }
    }
    work(alloc, store, Event::LogAdvance)
}

/// Whether the block with this number is found.
fn has_block<T: TestStore>(alloc: Global, store: &mut T, number: u32) -> bool {
    let (kind, bytes) = block(number);
    does(alloc, store, &Act::Read(kind, &bytes, 4, Ok(&bytes)))
}

/// It has so many blocks, each of which is found and durable.
fn see_blocks<T: TestStore>(alloc: Global, store: &mut T, count: u32, rows: &mut Rows, row: usize) {
    let len = u64::from(count);
    rows.nth(
        row,
        "the length of a store",
        store.counts() == [len, len, len],
    );
    let mut found = true;
    for number in 0..count {
        found &= has_block(alloc, store, number);
    }
    rows.nth(row, "each block is found", found);
}

/// The same, of the store of these disks, which is mounted. It gives the disks back.
fn see_disks<T: TestStore>(
    alloc: Global,
    disks: T::Disks,
    count: u32,
    rows: &mut Rows,
    row: usize,
) -> Option<T::Disks> {
    let mut store: T = there(rows, row, opened(alloc, disks))?;
    see_blocks(alloc, &mut store, count, rows, row);
    there(rows, row, store.close().ok_or("disks of a store"))
}

/// Writes so many blocks, which are committed, and in the index and the filter, too, if they are
/// settled.
fn is_filled<T: TestStore>(alloc: Global, store: &mut T, count: u32, settled: bool) -> bool {
    write_blocks(alloc, store, count)
        && (!settled || file(alloc, store, 0) && work(alloc, store, Event::BloomAdvance))
}

/// The disks of a store with so many blocks.
fn filled<T: TestStore>(
    alloc: Global,
    disks: Option<T::Disks>,
    count: u32,
    settled: bool,
) -> Result<T::Disks, &'static str> {
    let mut store: T = match disks {
        Some(disks) => opened(alloc, disks)?,
        None => return Err("memory for the disks"),
    };
    if !is_filled(alloc, &mut store, count, settled) {
        return Err("the blocks are written");
    }
    store.close().ok_or("disks of a store")
}

/// Why the store isn't mounted, and its disks.
fn refused<T: TestStore>(
    alloc: Global,
    disks: T::Disks,
) -> Result<(MountBad, T::Disks), &'static str> {
    match T::open(alloc, disks) {
        Some(Err(refusal)) => Ok(refusal),
        Some(Ok(_)) => Err("the store is refused"),
        None => Err("disks of a store"),
    }
}

// ---- a directory read that fails

/// A store with three blocks is refused for this call of the arena's disk, and the next time it is
/// found. It gives whether the call came while it was mounted.
fn fails_once<T: TestStore>(alloc: Global, call: u8, settled: bool, rows: &mut Rows) -> bool {
    let disks = devices::<T>(alloc, ARENA_LEN, 1, Fails::At(u64::from(call)));
    let Ok(disks) = filled::<T>(alloc, disks, 3, settled) else {
        return false;
    };
    let Ok((bad, disks)) = refused::<T>(alloc, disks) else {
        return false;
    };
    let row = usize::from(call);
    rows.nth(
        row,
        "the refusal where this call fails",
        bad == MountBad::Fault,
    );
    see_disks::<T>(alloc, disks, 3, rows, row).is_some()
}

/// How many calls of the arena's disk mounting makes that may fail. A row that doesn't hold has the
/// call's number.
fn calls_of_mounting<T: TestStore>(alloc: Global, settled: bool, rows: &mut Rows) -> u32 {
    let mut faults = 0u32;
    for call in 0..32u8 {
        if fails_once::<T>(alloc, call, settled, rows) {
            faults = faults.saturating_add(1);
        }
    }
    faults
}

/// How many calls may fail by which a store is mounted, with three entries to be read back, and with none.
pub fn read_directory<T: TestStore>(alloc: Global, rows: &mut Rows) {
    let entries = calls_of_mounting::<T>(alloc, false, rows);
    rows.is("the calls that read three entries", entries == 6);
    let none = calls_of_mounting::<T>(alloc, true, rows);
    rows.is("the calls that read no entry", none == 3);
}

// ---- damage

/// Bytes that are written over those of a disk: disk 0 is the arena's, and disk 1 the section's.
struct Damage {
    disk: u32,
    /// From this place of the disk on.
    at: u64,
    bytes: &'static [u8],
    /// What mounting then tells: where the damage is, and the value that is wanted and found there.
    site: Site,
    want: FieldValue,
    found: FieldValue,
}

/// Where the directory ends. Each of the three clumps has 42 bytes.
const END: u64 = 8_192 + 32_768;

/// The site of the last block, and of the first: where its clump ends.
const LAST: Site = Site::Clump(Place {
    arena: 0,
    offset: 24_576 + 126,
});

const FIRST: Site = Site::Clump(Place {
    arena: 0,
    offset: 24_576 + 42,
});

/// The last block has no type of a block; it has two sizes; the sizes of all three pass what is in
/// use by a byte; and the bucket has no magic number.
const DAMAGES: [Damage; 4] = [
    Damage {
        disk: 0,
        at: END - 75,
        bytes: &[10],
        site: LAST,
        want: FieldValue::Number(13),
        found: FieldValue::Number(10),
    },
    Damage {
        disk: 0,
        at: END - 72,
        bytes: &[0, 5],
        site: LAST,
        want: FieldValue::Number(4),
        found: FieldValue::Number(5),
    },
    Damage {
        disk: 0,
        at: END - 24,
        bytes: &[0, 5, 0, 5],
        site: FIRST,
        want: FieldValue::Number(126),
        found: FieldValue::Number(127),
    },
    Damage {
        disk: 1,
        at: 24_576,
        bytes: b"none",
        site: Site::Bucket(0),
        want: FieldValue::Magic(*b"VBKT"),
        found: FieldValue::Magic(*b"none"),
    },
];

/// The disks of a store with three blocks, of which no entry is in the index.
fn bare<T: TestStore>(alloc: Global) -> Result<T::Disks, &'static str> {
    filled::<T>(
        alloc,
        devices::<T>(alloc, ARENA_LEN, 1, Fails::Never),
        3,
        false,
    )
}

/// It is refused for the damage.
fn see_damage<T: TestStore>(alloc: Global, damage: &Damage, rows: &mut Rows, row: usize) {
    let Some(mut disks) = there(rows, row, bare::<T>(alloc)) else {
        return;
    };
    let is_damaged = disks.spoil(damage.disk, damage.at, damage.bytes);
    rows.nth(row, "the damage is written", is_damaged);
    if let Some((bad, _)) = there(rows, row, refused::<T>(alloc, disks)) {
        let wanted = MountBad::Damaged {
            site: damage.site,
            want: damage.want,
            found: damage.found,
        };
        rows.nth(row, "the refusal of a damage", bad == wanted);
    }
}

/// Each of these damages refuses a store. A row is one of `DAMAGES`.
pub fn tell_damages<T: TestStore>(alloc: Global, rows: &mut Rows) {
    for (row, damage) in DAMAGES.iter().enumerate() {
        see_damage::<T>(alloc, damage, rows, row);
    }
}

// ---- a second crash

/// How many blocks the large log has, and how many buckets its index.
const BLOCKS: u32 = 1_100;

const BUCKETS: u32 = 5;

/// What mounting is refused for where this call of a new section without entries fails, and what a
/// crash leaves of the disks behind that.
fn stopped<T: TestStore>(
    alloc: Global,
    mut disks: T::Disks,
    call: u8,
) -> Result<(MountBad, T::Disks), &'static str> {
    if !disks.replace_sections(alloc, BUCKETS, Fails::At(u64::from(call))) {
        return Err("memory for a section");
    }
    let (bad, disks) = refused::<T>(alloc, disks)?;
    let mode = CrashMode::ALL[usize::from(call % 4)];
    match disks.crashed(alloc, mode) {
        Some(disks) => Ok((bad, disks)),
        None => Err("memory for what a crash leaves"),
    }
}

/// A section without entries is put under the large log, of which this call fails. The store is
/// mounted until that call, crashes, and is mounted again.
fn mount_twice<T: TestStore>(
    alloc: Global,
    disks: T::Disks,
    call: u8,
    rows: &mut Rows,
) -> Option<T::Disks> {
    let row = usize::from(call);
    let (bad, disks) = there(rows, row, stopped::<T>(alloc, disks, call))?;
    rows.nth(
        row,
        "the refusal where this call fails",
        bad == MountBad::Fault,
    );
    see_disks::<T>(alloc, disks, BLOCKS, rows, row)
}

/// More entries are lacking than a shard has room for, so that mounting writes, by six calls for
/// each bucket. It is stopped at calls of the section's disk, each fifth one of them while it
/// writes, with a crash behind it.
pub fn second_crashes<T: TestStore>(alloc: Global, rows: &mut Rows) {
    let disks = devices::<T>(alloc, LARGE, BUCKETS, Fails::Never);
    let mut disks = there(rows, 0, filled::<T>(alloc, disks, BLOCKS, false));
    for call in [4, 14, 19, 24, 29, 34, 39] {
        disks = match disks {
            Some(disks) => mount_twice::<T>(alloc, disks, call, rows),
            None => None,
        };
    }
    rows.is("the disks are handed back", disks.is_some());
}

// ---- a smaller index

/// What mounting is refused for where an index of one bucket is put under a log of 264 blocks, and
/// the disks, with one of two buckets without entries.
fn with_small<T: TestStore>(alloc: Global) -> Result<(MountBad, T::Disks), &'static str> {
    let mut old = filled::<T>(
        alloc,
        devices::<T>(alloc, LARGE, 2, Fails::Never),
        264,
        false,
    )?;
    if !old.replace_sections(alloc, 1, Fails::Never) {
        return Err("memory for a section");
    }
    let (bad, mut old) = refused::<T>(alloc, old)?;
    if !old.replace_sections(alloc, 2, Fails::Never) {
        return Err("memory for a section");
    }
    Ok((bad, old))
}

/// An index of one bucket is put under a log of 264 blocks, and one of two under it again.
pub fn smaller_index<T: TestStore>(alloc: Global, rows: &mut Rows) {
    let Some((bad, old)) = there(rows, 0, with_small::<T>(alloc)) else {
        return;
    };
    let wanted = MountBad::Disagree {
        part: 1,
        field: MountField::Crowd,
        found: 264,
        want: 263,
    };
    rows.is("the refusal of a smaller index", bad == wanted);
    let back = see_disks::<T>(alloc, old, 264, rows, 0);
    rows.is("the disks are handed back", back.is_some());
}

// ---- the tests

/// A sync and two reads of the arena's head, and the read of each directory entry, of which none is
/// made below the least mark.
#[test]
fn a_directory_read_fails(rt: HostRuntime) -> Result<(), Fail> {
    passes_short(rt.alloc(), Case::DirectoryReads)
}

#[test]
fn what_is_damaged_is_told(rt: HostRuntime) -> Result<(), Fail> {
    passes_short(rt.alloc(), Case::Damages)
}

#[test]
fn a_second_crash_loses_nothing(rt: HostRuntime) -> Result<(), Fail> {
    passes_short(rt.alloc(), Case::SecondCrashes)
}

#[test]
fn a_smaller_index_is_refused(rt: HostRuntime) -> Result<(), Fail> {
    passes_short(rt.alloc(), Case::SmallerIndex)
}
