//! The disks in memory that tests make and crash.

use std::alloc::Global;
use vt_disk::Disk;
use vt_memdisk::{CrashMode, Listed, MemDisk, Plan};

/// A disk that a test makes and crashes. What is done with disks is proved for any such disk, which is
/// much less work than for one in memory, and runs on that.
pub trait TestDisk: Disk + Drop {
    /// One of so many zero bytes, of which the calls with these numbers fail.
    fn failing(alloc: Global, len: u64, calls: &[u64]) -> Option<Self>;

    /// What a crash in a mode leaves.
    fn crashed_in(self, mode: CrashMode) -> Self;

    /// What a crash leaves if the pending bytes take these choices.
    fn torn(self, choice: &[u16]) -> Self;
}

/// A plan by which a test's disk fails.
pub trait TestPlan: Plan {
    /// A disk of so many zero bytes, of which the calls with these numbers fail.
    fn disk(alloc: Global, len: u64, calls: &[u64]) -> Option<MemDisk<Self>>;
}

impl TestPlan for Listed {
    fn disk(alloc: Global, len: u64, calls: &[u64]) -> Option<MemDisk<Self>> {
        let calls = Vec::from_slice(alloc, calls).ok()?;
        MemDisk::failing(alloc, len, calls).ok()
    }
}

impl<P: TestPlan> TestDisk for MemDisk<P> {
    fn failing(alloc: Global, len: u64, calls: &[u64]) -> Option<Self> {
        P::disk(alloc, len, calls)
    }

    fn crashed_in(self, mode: CrashMode) -> Self {
        self.crash_in(mode)
    }

    fn torn(self, choice: &[u16]) -> Self {
        self.crash(choice)
    }
}

/// The disk in memory that tests make.
pub type Made = MemDisk<Listed>;

/// What happens to a disk between two mounts.
#[derive(Clone, Copy)]
pub enum Crash<'a> {
    /// There is no crash.
    None,
    /// There is one in a mode.
    Mode(CrashMode),
    /// There is one by which the pending bytes take these choices.
    Choice(&'a [u16]),
}

/// What is left of a disk then.
pub fn left<D: TestDisk>(disk: D, crash: Crash<'_>) -> D {
    match crash {
        Crash::None => disk,
        Crash::Mode(mode) => disk.crashed_in(mode),
        Crash::Choice(choice) => disk.torn(choice),
    }
}
