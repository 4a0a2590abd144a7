//! The disks in memory that tests make, write over and crash.

use std::alloc::Global;
use vt_disk::Disk;
use vt_memdisk::{CrashMode, Listed, MemDisk, Plan};

/// A disk that a test makes and crashes. What is done with disks is proved for any such disk, which is
/// much less work than for one in memory, and runs on that.
pub trait TestDisk: Disk + Drop {
    /// One of so many zero bytes, of which the calls with these numbers fail.
    fn failing(alloc: Global, len: u64, calls: &[u64]) -> Option<Self>;

    /// What a crash in a mode leaves.
    fn crashed_in(self, mode: CrashMode) -> Self;

    /// What a crash leaves if the first pending byte takes this choice.
    fn torn(self, choice: u16) -> Self;
}

/// A plan by which a test's disk fails.
pub trait TestPlan: Plan {
    /// A disk of so many zero bytes, of which the calls with these numbers fail.
    fn disk(alloc: Global, len: u64, calls: &[u64]) -> Option<MemDisk<Self>>;
}

impl TestPlan for Listed {
    fn disk(alloc: Global, len: u64, calls: &[u64]) -> Option<MemDisk<Self>> {
        let calls = Vec::from_slice(alloc, calls).ok()?;
        MemDisk::failing(alloc, len, calls).ok()
    }
}

impl<P: TestPlan> TestDisk for MemDisk<P> {
    fn failing(alloc: Global, len: u64, calls: &[u64]) -> Option<Self> {
        P::disk(alloc, len, calls)
    }

    fn crashed_in(self, mode: CrashMode) -> Self {
        self.crash_in(mode)
    }

    fn torn(self, choice: u16) -> Self {
        self.crash(&[choice])
    }
}

/// The disk in memory that tests make.
pub type Made = MemDisk<Listed>;

/// What happens to a disk between two mounts.
#[derive(Clone, Copy)]
pub enum Change<'a> {
    /// It is mounted again as it is.
    Nothing,
    /// A crash in a mode.
    Crash(CrashMode),
    /// A crash by which the first pending byte takes this choice.
    Torn(u16),
    /// Bytes are written over it, each at its place.
    Spoil(&'a [(u64, &'a [u8])]),
}

/// The disk behind a change.
pub fn changed<D: TestDisk>(disk: D, change: Change<'_>) -> Option<D> {
    match change {
        Change::Nothing => Some(disk),
        Change::Crash(mode) => Some(disk.crashed_in(mode)),
        Change::Torn(choice) => Some(disk.torn(choice)),
        Change::Spoil(bytes) => spoiled(disk, bytes),
    }
}

/// The disk behind writes of these bytes.
fn spoiled<D: Disk + Drop>(mut disk: D, bytes: &[(u64, &[u8])]) -> Option<D> {
    if are_written(&mut disk, bytes) {
        Some(disk)
    } else {
        None
    }
}

/// Writes these bytes, each at its place. Whether all are written.
fn are_written<D: Disk>(disk: &mut D, bytes: &[(u64, &[u8])]) -> bool {
    for (at, bytes) in bytes {
        if !is_written(disk, *at, bytes) {
            return false;
        }
    }
    true
}

/// Writes bytes at a place. False says that the call failed, or that the disk ends before.
fn is_written<D: Disk>(disk: &mut D, at: u64, bytes: &[u8]) -> bool {
    let room = disk.len();
    bytes.len() as u64 <= room
        && at <= room - bytes.len() as u64
        && disk.write_at(at, bytes) == Ok(())
}

/// All bytes of a disk.
pub fn bytes_of<D: Disk>(alloc: Global, disk: &mut D) -> Option<Vec<u8>> {
    let mut bytes = vec![in alloc; 0; usize::try_from(disk.len()).ok()?].ok()?;
    disk.read_at(0, &mut bytes).ok()?;
    Some(bytes)
}
