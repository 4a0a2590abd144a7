//! Disks in memory, written, failing and crashed.

use crate::disks::{FailingDisk, Made, TestDisk, left_in, read, write};
use std::alloc::Global;
use std::test::Fail;
use vt_base::Failed;
use vt_disk::{Disk, Region};
use vt_memdisk::{CrashMode, MemDisk};
use vt_rows::Rows;

/// How many bytes are written by a call, and how many the disk has.
const PIECE: usize = 8192;

const LEN: u64 = 16 * 1024 * 1024;

/// Writes this byte everywhere, piece by piece. Whether all pieces are written.
fn write_all<D: Disk>(disk: &mut D, byte: u8) -> bool {
    let piece = [byte; PIECE];
    let mut is_written = true;
    for k in 0..2048u64 {
        is_written &= write(disk, 8192 * k, &piece) == Some(Ok(()));
    }
    is_written
}

/// Writes a disk, syncs it, and writes it again.
fn write_twice<D: TestDisk>(rows: &mut Rows, disk: &mut D) {
    rows.is("sevens are written everywhere", write_all(disk, 7));
    rows.is("the sync", disk.sync() == Ok(()));
    rows.is("nines are written everywhere", write_all(disk, 9));
    let first = disk.is_pending(0);
    rows.is("the first byte is pending", first == Some(true));
    let last = disk.is_pending(LEN - 1);
    rows.is("the last byte is pending", last == Some(true));
}

/// What a crash left of a disk of which the first byte was chosen to be the written one, and the
/// second one to be 3.
fn see_crashed<D: TestDisk>(rows: &mut Rows, disk: &mut D) {
    rows.is("the length behind the crash", disk.len() == LEN);
    let first = disk.is_pending(0);
    rows.is("no byte is pending then", first == Some(false));
    let front = read(disk, 0);
    rows.is("the first bytes then", front == Some([9, 3, 7, 7]));
    let back = read(disk, LEN - 2);
    rows.is("the last bytes then", back == Some([7, 7]));
}

/// Writes a disk twice, and crashes it.
fn crash_large<D: TestDisk>(rows: &mut Rows, mut disk: D) {
    write_twice(rows, &mut disk);
    see_crashed(rows, &mut disk.crashed(&[257, 3]));
}

#[test]
fn a_large_disk_is_written_and_synced(rt: HostRuntime) -> Result<(), Fail> {
    let mut rows = Rows::new();
    match MemDisk::new(rt.alloc(), LEN) {
        Ok(disk) => crash_large(&mut rows, disk),
        Err(_) => rows.is("memory for a disk", false),
    }
    rows.passes()
}

/// Writes 1 to 8 to a disk and syncs it, and writes bytes 2 to 5 over with 20. Whether all is done.
fn is_written<D: Disk>(disk: &mut D) -> bool {
    let first = write(disk, 0, &[1, 2, 3, 4, 5, 6, 7, 8]);
    let synced = disk.sync();
    let second = write(disk, 2, &[20; 4]);
    first == Some(Ok(())) && synced == Ok(()) && second == Some(Ok(()))
}

/// The bytes of a disk of 8.
fn bytes<D: Disk + Drop>(mut disk: D) -> Option<[u8; 8]> {
    if disk.len() == 8 {
        read(&mut disk, 0)
    } else {
        None
    }
}

/// Whether a crash with these choices leaves these four bytes of a disk of 8 between the others.
fn leaves<D: TestDisk>(mut disk: D, choice: &[u16], [a, b, c, d]: [u8; 4]) -> bool {
    is_written(&mut disk) && bytes(disk.crashed(choice)) == Some([1, 2, a, b, c, d, 7, 8])
}

/// Choices, and the four bytes that they leave.
const CHOICES: [(&[u16], [u8; 4]); 6] = [
    (&[256; 4], [3, 4, 5, 6]),
    (&[257; 4], [20; 4]),
    (&[257, 256, 257, 256], [20, 4, 20, 6]),
    (&[0xa5; 4], [0xa5; 4]),
    // A short list, and a number that is no choice, stand for the synced byte.
    (&[257, 258, 255], [20, 4, 255, 6]),
    (&[], [3, 4, 5, 6]),
];

/// The same of a new disk.
fn is_left(alloc: Global, choice: &[u16], left: [u8; 4]) -> bool {
    match MemDisk::new(alloc, 8) {
        Ok(disk) => leaves(disk, choice, left),
        Err(_) => false,
    }
}

/// A crash by each of these choices. A row is one of `CHOICES`.
fn choose(alloc: Global) -> Rows {
    let mut rows = Rows::new();
    for (row, (choice, left)) in CHOICES.iter().enumerate() {
        let is_it = is_left(alloc, choice, *left);
        rows.nth(row, "the bytes behind the crash", is_it);
    }
    rows
}

#[test]
fn a_crash_leaves_what_was_chosen(rt: HostRuntime) -> Result<(), Fail> {
    choose(rt.alloc()).passes()
}

/// Whether a crash in this mode leaves these four bytes of a disk of 8 between the others.
fn leaves_in<D: TestDisk>(mut disk: D, mode: CrashMode, [a, b, c, d]: [u8; 4]) -> bool {
    is_written(&mut disk) && bytes(disk.crashed_in(mode)) == Some([1, 2, a, b, c, d, 7, 8])
}

/// The four bytes that a crash in each mode leaves.
const MODES: [(CrashMode, [u8; 4]); 4] = [
    (CrashMode::Synced, [3, 4, 5, 6]),
    (CrashMode::Written, [20; 4]),
    (CrashMode::EvenWritten, [20, 4, 20, 6]),
    (CrashMode::Garbled, [0xa5; 4]),
];

/// The same of a new disk.
fn is_left_in(alloc: Global, mode: CrashMode, left: [u8; 4]) -> bool {
    match MemDisk::new(alloc, 8) {
        Ok(disk) => leaves_in(disk, mode, left),
        Err(_) => false,
    }
}

/// A crash in each mode. A row is one of `MODES`.
fn crash_in_each(alloc: Global) -> Rows {
    let mut rows = Rows::new();
    for (row, (mode, left)) in MODES.iter().enumerate() {
        rows.nth(row, left_in(*mode), is_left_in(alloc, *mode, *left));
    }
    rows
}

#[test]
fn a_crash_leaves_what_its_mode_says(rt: HostRuntime) -> Result<(), Fail> {
    crash_in_each(rt.alloc()).passes()
}

/// Which of these places are pending.
fn pending<D: TestDisk>(disk: &D, [a, b, c, d]: [u64; 4]) -> [Option<bool>; 4] {
    [
        disk.is_pending(a),
        disk.is_pending(b),
        disk.is_pending(c),
        disk.is_pending(d),
    ]
}

/// Makes calls of a disk of which calls 1 and 3 fail.
fn make_calls<D: TestDisk>(rows: &mut Rows, disk: &mut D) {
    let first = write(disk, 510, &[1; 4]);
    rows.is("call 0, a write", first == Some(Ok(())));
    let second = write(disk, 598, &[2; 2]);
    rows.is("call 1, a write, fails", second == Some(Err(Failed)));
    let found = read(disk, 598);
    rows.is("the bytes that it left", found == Some([0, 0]));
    rows.is("call 3, a sync, fails", disk.sync() == Err(Failed));
    let touched = pending(disk, [510, 513, 598, 599]);
    rows.is("what was touched is pending", touched == [Some(true); 4]);
    let others = pending(disk, [0, 509, 514, 597]);
    rows.is("nothing else is pending", others == [Some(false); 4]);
}

/// Makes calls behind the crash. It ends the list: calls are numbered from 0 again, and none fails.
fn make_others<D: TestDisk>(rows: &mut Rows, disk: &mut D) {
    let found = read(disk, 512);
    rows.is("call 0 behind the crash, a read", found == Some([1, 0]));
    let written = write(disk, 0, &[5]);
    rows.is("call 1 behind the crash, a write", written == Some(Ok(())));
    let found = read(disk, 598);
    rows.is("what is left of the failed write", found == Some([8, 0]));
    rows.is("call 3 behind the crash, a sync", disk.sync() == Ok(()));
    let first = disk.is_pending(0);
    rows.is("no byte is pending behind the sync", first == Some(false));
}

/// Makes calls of a disk before a crash and behind it. None where it isn't made.
fn fail<D: FailingDisk>(rows: &mut Rows, alloc: Global) -> Option<()> {
    let mut disk = D::failing_at(alloc, 600, &[1, 3])?;
    make_calls(rows, &mut disk);
    make_others(rows, &mut disk.crashed(&[257, 257, 257, 256, 8]));
    Some(())
}

#[test]
fn listed_calls_fail(rt: HostRuntime) -> Result<(), Fail> {
    let mut rows = Rows::new();
    let is_done = fail::<Made>(&mut rows, rt.alloc()).is_some();
    rows.is("a disk is made", is_done);
    rows.passes()
}

/// Writes and reads in the second half of a disk of 1,024 bytes.
fn use_region<D: Disk>(rows: &mut Rows, disk: &mut D) {
    let region = Region {
        start: 512,
        len: 512,
    };
    if disk.len() != 1024 {
        rows.is("the disk's length", false);
        return;
    }
    let mut last = [0; 1];
    let written = region.write_at(disk, 510, &[3, 4]);
    let is_read = region.read_at(disk, 511, &mut last);
    rows.is("the write", written == Ok(()));
    rows.is("the read", is_read == Ok(()));
    rows.is("the region's last byte", last == [4]);
    rows.is("the disk's last bytes", read(disk, 1021) == Some([0, 3, 4]));
}

#[test]
fn a_region_counts_from_its_start(rt: HostRuntime) -> Result<(), Fail> {
    let mut rows = Rows::new();
    match MemDisk::new(rt.alloc(), 1024) {
        Ok(mut disk) => use_region(&mut rows, &mut disk),
        Err(_) => rows.is("memory for a disk", false),
    }
    rows.passes()
}

/// Takes what may go to another thread.
fn go<T: Send + Drop>(_disk: T) {}

#[test]
fn disks_may_go_to_other_threads(rt: HostRuntime) -> Result<(), Fail> {
    go(MemDisk::new(rt.alloc(), 8)?);
    go(Made::failing_at(rt.alloc(), 8, &[]).ok_or("no memory")?);
    Ok(())
}
