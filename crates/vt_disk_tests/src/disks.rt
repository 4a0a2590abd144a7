//! The disks that tests write, read and crash.

use std::alloc::Global;
use vt_base::Failed;
use vt_disk::Disk;
use vt_memdisk::{CrashMode, Listed, MemDisk, Plan};

/// The number of a call that no test reaches.
pub const NEVER: u64 = u64::MAX;

/// A disk that a test crashes. What is done to disks is proved for any such disk, which is much less
/// work than for one in memory, and runs on that.
pub trait TestDisk: Disk + Drop {
    /// Whether a crash may leave anything at a place: None where the disk doesn't have it.
    fn is_pending(&self, at: u64) -> Option<bool>;

    /// The disk after a crash, of which the pending bytes take these choices.
    fn crashed(self, choice: &[u16]) -> Self;

    /// The disk after a crash in a mode.
    fn crashed_in(self, mode: CrashMode) -> Self;
}

impl<P: Plan> TestDisk for MemDisk<P> {
    fn is_pending(&self, at: u64) -> Option<bool> {
        if at < self.len() {
            Some(self.pending(at))
        } else {
            None
        }
    }

    fn crashed(self, choice: &[u16]) -> Self {
        self.crash(choice)
    }

    fn crashed_in(self, mode: CrashMode) -> Self {
        self.crash_in(mode)
    }
}

/// A disk that a test makes, of which calls fail.
pub trait FailingDisk: TestDisk {
    /// One of so many zero bytes, of which the calls with these numbers fail.
    fn failing_at(alloc: Global, len: u64, calls: &[u64]) -> Option<Self>;
}

/// A plan by which a test's disk fails.
pub trait TestPlan: Plan {
    /// A disk of so many zero bytes, of which the calls with these numbers fail.
    fn disk(alloc: Global, len: u64, calls: &[u64]) -> Option<MemDisk<Self>>;
}

impl TestPlan for Listed {
    fn disk(alloc: Global, len: u64, calls: &[u64]) -> Option<MemDisk<Self>> {
        let calls = Vec::from_slice(alloc, calls).ok()?;
        MemDisk::failing(alloc, len, calls).ok()
    }
}

impl<P: TestPlan> FailingDisk for MemDisk<P> {
    fn failing_at(alloc: Global, len: u64, calls: &[u64]) -> Option<Self> {
        P::disk(alloc, len, calls)
    }
}

/// The disk in memory that tests make.
pub type Made = MemDisk<Listed>;

/// What is compared behind a crash in a mode.
pub fn left_in(mode: CrashMode) -> &'static str {
    match mode {
        CrashMode::Synced => "what is there behind a crash that loses the writes",
        CrashMode::Written => "what is there behind a crash that keeps the writes",
        CrashMode::EvenWritten => "what is there behind a crash that keeps every other byte",
        CrashMode::Garbled => "what is there behind a crash that garbles the writes",
    }
}

/// What is wanted in a mode, of what is wanted in each in turn.
pub fn in_mode(mode: CrashMode, wanted: &[bool; 4]) -> bool {
    let [synced, written, even, garbled] = wanted;
    match mode {
        CrashMode::Synced => *synced,
        CrashMode::Written => *written,
        CrashMode::EvenWritten => *even,
        CrashMode::Garbled => *garbled,
    }
}

/// Writes at a place: None where the disk doesn't have it.
pub fn write<D: Disk>(disk: &mut D, at: u64, bytes: &[u8]) -> Option<Result<(), Failed>> {
    let room = disk.len();
    if bytes.len() as u64 > room || at > room - bytes.len() as u64 {
        return None;
    }
    Some(disk.write_at(at, bytes))
}

/// The bytes at a place: None where the disk doesn't have it, or doesn't read it.
pub fn read<D: Disk, const N: usize>(disk: &mut D, at: u64) -> Option<[u8; N]> {
    let mut bytes = [0; N];
    let room = disk.len();
    let has_it = N as u64 <= room && at <= room - N as u64;
    if has_it && disk.read_at(at, &mut bytes).is_ok() {
        Some(bytes)
    } else {
        None
    }
}
