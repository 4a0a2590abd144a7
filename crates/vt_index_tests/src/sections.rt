//! What tests do with a section of the index, one call each.

ghost use Rattle.std.specs.Prelude.{◌≡◌, ◌<◌};
ghost use Rattle.vt_isect.specs.Layout.{InRange};

use crate::disks::{Change, Made, TestDisk, bytes_of, changed};
use std::alloc::Global;
use std::marker::Brand;
use std::sync::ledger::{Blank, Ledger};
use vt_base::{Steps, Text};
use vt_bucket::Bucket;
use vt_disk::Disk;
use vt_isect::{Entries, SectBad, Section, ShardErr, format, mount};
use vt_twin::Step;

/// What a section tells of itself.
#[derive(Clone, Copy)]
pub struct Told {
    /// How its name begins.
    pub name: [u8; 8],
    pub buckets: u32,
    /// The entries of so many blocks, the first of the log, are on the disk.
    pub mark: u64,
    /// Whether something is under way, and how many calls that makes at most.
    pub is_changing: bool,
    pub calls: u64,
    /// The bucket under way.
    pub bucket: Option<u32>,
    /// How many entries are written.
    pub written: usize,
    /// The call that stopped it.
    pub stopped: Option<u64>,
}

/// The only section of an index, with which a test does something. What a test does is proved for any
/// such section, which is much less work than for the real one, and runs on that.
///
/// A call isn't made where its condition doesn't hold, and gives None or false then.
pub trait TestSection: Drop {
    /// One of a new disk of this length, over which these bytes are written before it is formatted.
    /// The disk's calls with these numbers fail.
    fn made(alloc: Global, len: u64, failing: &[u64], bytes: &[(u64, &[u8])]) -> Option<Self>;

    /// It is mounted again, behind a change of its disk.
    fn again(self, alloc: Global, change: Change<'_>) -> Option<Self>;

    /// All bytes of its disk.
    fn bytes(self, alloc: Global) -> Option<Vec<u8>>;

    fn told(&self) -> Told;

    /// Begins to change the head to this state and mark.
    fn begin_change(&mut self, state: u8, mark: u64) -> bool;

    /// Begins to write entries back and to raise the mark to 3, those of buckets behind this one
    /// first.
    fn begin_writeback(&mut self, entries: Entries, behind: Option<u32>) -> bool;

    /// Makes one device call of what is under way.
    fn step(&mut self) -> Option<Result<Step, ShardErr>>;

    /// The entries of the last writeback are handed back.
    fn take_back(&mut self) -> Option<Entries>;

    /// Clears so many buckets, from this one on.
    fn empty(&mut self, first: u32, count: u32) -> Option<Result<(), ShardErr>>;

    /// Fills a bucket.
    fn refill(&mut self, bucket: &Bucket) -> Option<Result<(), ShardErr>>;

    /// Looks a bucket up.
    fn look_up(&mut self, number: u32) -> Option<Result<Bucket, ShardErr>>;
}

/// The section of a disk in memory.
pub type MadeSection = Section<Made>;

impl<D: TestDisk> TestSection for Section<D> {
    fn made(alloc: Global, len: u64, failing: &[u64], bytes: &[(u64, &[u8])]) -> Option<Self> {
        let disk = changed(D::failing(alloc, len, failing)?, Change::Spoil(bytes))?;
        mount(alloc, formatted(alloc, disk)?).ok()
    }

    fn again(self, alloc: Global, change: Change<'_>) -> Option<Self> {
        mount(alloc, changed(self.into_devices(), change)?).ok()
    }

    fn bytes(self, alloc: Global) -> Option<Vec<u8>> {
        bytes_of(alloc, &mut self.into_devices())
    }

    fn told(&self) -> Told {
        let mut name = [0; 8];
        name.copy_from_slice(&self.name()[..8]);
        Told {
            name,
            buckets: self.buckets(),
            mark: self.mark(),
            is_changing: self.is_changing(),
            calls: self.calls_left(),
            bucket: self.bucket_under_way(),
            written: self.written(),
            stopped: self.stopped(),
        }
    }

    fn begin_change(&mut self, state: u8, mark: u64) -> bool {
        if self.is_changing() {
            return false;
        }
        let buckets = self.buckets();
        self.begin_head(state, 0, buckets, mark);
        true
    }

    fn begin_writeback(&mut self, entries: Entries, behind: Option<u32>) -> bool {
        if self.is_changing() || !self.has_buckets(entries.as_slice()) {
            return false;
        }
        self.begin_file(entries, 3, behind);
        true
    }

    fn step(&mut self) -> Option<Result<Step, ShardErr>> {
        if !self.is_changing() {
            return None;
        }
        Some(self.advance())
    }

    fn take_back(&mut self) -> Option<Entries> {
        self.idle()
    }

    fn empty(&mut self, first: u32, count: u32) -> Option<Result<(), ShardErr>> {
        let buckets = self.buckets();
        let is_there = self.head().first == 0 && first < buckets && count <= buckets - first;
        if self.is_changing() || !is_there {
            return None;
        }
        Some(self.clear(first, count))
    }

    fn refill(&mut self, bucket: &Bucket) -> Option<Result<(), ShardErr>> {
        if self.is_changing() || !self.has_bucket(bucket.number()) {
            return None;
        }
        Some(self.fill(bucket))
    }

    fn look_up(&mut self, number: u32) -> Option<Result<Bucket, ShardErr>> {
        if !self.has_bucket(number) {
            return None;
        }
        Some(counted::<D, Brand>(self, number, Blank::new(1)))
    }
}

/// Makes a disk a section, and gives the count of its buckets, or why it isn't made one. None says
/// that there is no memory for its name.
pub fn make<D: Disk>(alloc: Global, disk: &mut D) -> Option<Result<u32, SectBad>> {
    let name = Text::copy_of(alloc, b"index.0").ok()?;
    if name.len() > 64 {
        return None;
    }
    Some(format(disk, &name))
}

/// A disk that is made a section.
fn formatted<D: Disk + Drop>(alloc: Global, mut disk: D) -> Option<D> {
    match make(alloc, &mut disk) {
        Some(Ok(_)) => Some(disk),
        _ => None,
    }
}

/// How many buckets the section of a disk has, or why it isn't one.
pub fn count<D: Disk + Drop>(alloc: Global, disk: D) -> Result<u32, SectBad> {
    match mount(alloc, disk) {
        Ok(section) => Ok(section.buckets()),
        Err((bad, _disk)) => Err(bad),
    }
}

/// A bucket, with a count of steps of its own.
fn counted<D: Disk, L: Ledger>(
    section: &mut Section<D>,
    number: u32,
    blank: Blank,
) -> Result<Bucket, ShardErr>
    requires range { InRange section.old.head section.old.buckets number }
    requires name { blank.name ≡ L.name }
    requires parts { blank.parts ≡ L.parts }
    requires some { 0 < L.parts }
{
    let mut steps = Steps::<L>::new(blank);
    section.bucket(number, &mut steps)
}
