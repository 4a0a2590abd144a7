//! The disks of small stores, made byte by byte as docs/FORMATS.md has them.

ghost use Rattle.std.specs.Prelude.{◌≡◌, ◌≤◌, ◌<◌, [], ◌∷◌, IfSome};
ghost use Rattle.vt_part.specs.Parts.{disk_of, table_of};
ghost use Rattle.vt_part.specs.Table.{arenas_end};

use std::alloc::Global;
use vt_disk::Disk;
use vt_memdisk::{CrashMode, Listed, MemDisk, Plan};
use vt_part::Part;
use vt_recover::Devices;

/// Which calls of a disk fail: its reads, writes and syncs, counted together from 0.
#[derive(Clone, Copy)]
pub enum Fails {
    Never,
    /// This one alone.
    At(u64),
    /// It, and all behind it.
    From(u64),
}

/// A disk that a test makes and crashes. What is done to stores is proved for any such disk, which
/// is much less work than for one in memory, and runs on that.
pub trait TestDisk: Disk + Drop {
    /// One of so many zero bytes, of which these calls fail behind the first ones that are made.
    fn failing(alloc: Global, len: u64, made: u64, fails: Fails) -> Option<Self>;

    /// What a crash in a mode leaves.
    fn crashed(self, mode: CrashMode) -> Self;

    /// What a crash leaves if the first byte that isn't synced takes this choice, and each other
    /// one is what it was.
    fn torn(self, choice: u16) -> Self;
}

/// A plan by which a test's disk fails.
pub trait TestPlan: Plan {
    /// A disk of so many zero bytes, of which these calls fail behind the first ones.
    fn disk(alloc: Global, len: u64, made: u64, fails: Fails) -> Option<MemDisk<Self>>;
}

impl TestPlan for Listed {
    fn disk(alloc: Global, len: u64, made: u64, fails: Fails) -> Option<MemDisk<Self>> {
        MemDisk::failing(alloc, len, listed(alloc, made, fails)?).ok()
    }
}

/// How many calls a disk has at most in a test in which all fail from one on.
const MOST: u64 = 200;

/// The calls that fail behind the first ones, as a list.
fn listed(alloc: Global, made: u64, fails: Fails) -> Option<Vec<u64>> {
    let (first, count) = match fails {
        Fails::Never => (0, 0),
        Fails::At(call) => (call, 1),
        Fails::From(call) => (call, MOST),
    };
    let mut calls = Vec::new(alloc);
    for i in 0..count {
        let call = made.checked_add(first)?.checked_add(i)?;
        calls.push(call).ok()?;
    }
    Some(calls)
}

impl<P: TestPlan> TestDisk for MemDisk<P> {
    fn failing(alloc: Global, len: u64, made: u64, fails: Fails) -> Option<Self> {
        P::disk(alloc, len, made, fails)
    }

    fn crashed(self, mode: CrashMode) -> Self {
        self.crash_in(mode)
    }

    fn torn(self, choice: u16) -> Self {
        self.crash(&[choice])
    }
}

pub type Mem = MemDisk<Listed>;

/// The bytes of a small arena.
pub const ARENA_LEN: u32 = 32_768;

/// The bytes of the disk of a filter of 8 KiB.
const FILTER_LEN: u64 = 40_960;

/// Writes bytes at a place. None says that the call failed, or that the disk ends before.
pub fn put<D: Disk>(disk: &mut D, at: u64, bytes: &[u8]) -> Option<()> {
    if disk.len() < at || disk.len() - at < bytes.len() as u64 {
        return None;
    }
    disk.write_at(at, bytes).ok()
}

/// Writes the head of an arena without blocks.
fn put_arena<D: Disk>(disk: &mut D, start: u64, number: u32) -> Option<()> {
    let mut head = *b"VARN\0\x01\0\0\0\0";
    head[6..].copy_from_slice(&number.to_be_bytes());
    put(disk, start, &head)
}

/// Writes the heads of so many arenas of so many bytes.
fn put_arenas<D: Disk>(disk: &mut D, arenas: u32, arena_len: u32) -> Option<()> {
    let mut start = 8_192u64;
    for number in 0..arenas {
        put_arena(disk, start, number)?;
        start = start.checked_add(u64::from(arena_len))?;
    }
    disk.sync().ok()
}

/// Writes the table of a partition, by three calls, and its arenas.
fn put_partition<D: Disk>(disk: &mut D, arenas: u32, arena_len: u32) -> Option<()> {
    put(disk, 0, b"VPRT\0\x01arenas0")?;
    put(disk, 70, &u64::from(arena_len).to_be_bytes())?;
    put(disk, 78, &arenas.to_be_bytes())?;
    put_arenas(disk, arenas, arena_len)
}

/// A partition of so many arenas without blocks. These calls of it fail, counted from here on.
pub fn partition<D: TestDisk>(
    alloc: Global,
    arenas: u32,
    arena_len: u32,
    fails: Fails,
) -> Option<D> {
    let made = u64::from(arenas) + 4;
    let len = u64::from(arenas).checked_mul(u64::from(arena_len))?;
    let mut disk = D::failing(alloc, len.checked_add(8_192)?, made, fails)?;
    put_partition(&mut disk, arenas, arena_len)?;
    Some(disk)
}

/// Writes the frame of an empty bucket, where there is one of this number.
fn put_bucket<D: Disk>(disk: &mut D, i: u32, number: Option<u32>) -> Option<()> {
    let mut frame = *b"VBKT\0\0\0\0";
    frame[4..].copy_from_slice(&number?.to_be_bytes());
    put(disk, 24_576 + 16_896 * u64::from(i), &frame)
}

/// Writes the frames of so many empty buckets, of which the first has this number, and syncs.
fn put_buckets<D: Disk>(disk: &mut D, first: u32, count: u32) -> Option<()> {
    for i in 0..count {
        put_bucket(disk, i, first.checked_add(i))?;
    }
    disk.sync().ok()
}

/// Writes the head of a section, by four calls, and its buckets.
fn put_section<D: Disk>(disk: &mut D, first: u32, count: u32, total: u32) -> Option<()> {
    put(disk, 0, b"VSEC\0\x01\x01isect")?;
    put(disk, 71, &first.to_be_bytes())?;
    put(disk, 75, &count.to_be_bytes())?;
    put(disk, 79, &total.to_be_bytes())?;
    put_buckets(disk, first, count)
}

/// A section in use, of so many empty buckets from this one on, of so many over all. These calls of
/// it fail, counted from here on.
pub fn section<D: TestDisk>(
    alloc: Global,
    first: u32,
    count: u32,
    total: u32,
    fails: Fails,
) -> Option<D> {
    let made = u64::from(count) + 5;
    let len = 24_576 + 16_896 * u64::from(count);
    let mut disk = D::failing(alloc, len, made, fails)?;
    put_section(&mut disk, first, count, total)?;
    Some(disk)
}

/// Writes the frame of a filter without bits, and syncs.
fn put_filter<D: Disk>(disk: &mut D) -> Option<()> {
    put(disk, 0, b"VBLM\0\x01\x10\x04")?;
    disk.sync().ok()
}

/// A filter without bits, of which a score has four.
pub fn filter<D: TestDisk>(alloc: Global, fails: Fails) -> Option<D> {
    let mut disk = D::failing(alloc, FILTER_LEN, 2, fails)?;
    put_filter(&mut disk)?;
    Some(disk)
}

/// The disks of a store: a partition, its sections, and a filter's.
#[derive(Drop)]
pub struct Disks<D> {
    pub arenas: D,
    pub sections: Vec<D>,
    pub filter: Option<D>,
}

/// One of them: disk 0 is the partition, disks 1 and 2 are the sections, and disk 3 is the filter's.
fn nth<D>(disks: &mut Disks<D>, number: u32) -> Option<&mut D> {
    match number {
        0 => Some(&mut disks.arenas),
        3 => disks.filter.as_mut(),
        _ => disks.sections.get_mut(number.checked_sub(1)? as usize),
    }
}

/// A list of one thing.
pub fn only<T: Drop>(alloc: Global, item: T) -> Option<Vec<T>>
    ensures { IfSome result (λ list. list.items ≡ item ∷ []) }
{
    let mut list = Vec::new(alloc);
    list.push(item).ok()?;
    Some(list)
}

/// Which disks a store without blocks has: so many arenas of so many bytes, so many sections of so many
/// buckets each, and a filter of 8 KiB, if it has one.
#[derive(Clone, Copy)]
pub struct Shape {
    pub arenas: u32,
    pub arena_len: u32,
    pub sections: u32,
    pub buckets: u32,
    pub has_filter: bool,
}

/// A small store's.
pub const SMALL: Shape = Shape {
    arenas: 1,
    arena_len: ARENA_LEN,
    sections: 2,
    buckets: 1,
    has_filter: true,
};

/// The disks of a store, which a test makes, changes and crashes: disk 0 is the partition, the next ones
/// are the sections, and disk 3 is the filter's. What is done to stores is proved for any such disks,
/// which is much less work than for those in memory, and runs on these.
pub trait TestDisks: Drop {
    /// Those of a store without blocks. These calls of this disk fail.
    fn made(alloc: Global, shape: Shape, device: u32, fails: Fails) -> Option<Self>;

    /// A section without entries, of so many buckets, takes the place of all sections. These calls of
    /// it fail.
    fn replace_sections(&mut self, alloc: Global, buckets: u32, fails: Fails) -> bool;

    /// A disk of so many zero bytes takes the place of one.
    fn shorten(&mut self, alloc: Global, number: u32, len: u64) -> bool;

    /// Writes bytes over one of them, from a place on.
    fn spoil(&mut self, number: u32, at: u64, bytes: &[u8]) -> bool;

    /// What a crash in a mode leaves of them.
    fn crashed(self, alloc: Global, mode: CrashMode) -> Option<Self>;

    /// What a crash leaves if the first byte of the last section that isn't synced takes this choice,
    /// and each other one is what it was.
    fn torn(self, choice: u16) -> Option<Self>;
}

impl<D: TestDisk> TestDisks for Disks<D> {
    fn made(alloc: Global, shape: Shape, device: u32, fails: Fails) -> Option<Self> {
        let arenas = partition(
            alloc,
            shape.arenas,
            shape.arena_len,
            fails_at(device, 0, fails),
        )?;
        let sections = sections(alloc, shape, device, fails)?;
        let filter = if shape.has_filter {
            Some(filter(alloc, fails_at(device, 3, fails))?)
        } else {
            None
        };
        Some(Disks {
            arenas,
            sections,
            filter,
        })
    }

    fn replace_sections(&mut self, alloc: Global, buckets: u32, fails: Fails) -> bool {
        match lone_section(alloc, buckets, fails) {
            Some(sections) => {
                self.sections = sections;
                true
            }
            None => false,
        }
    }

    fn shorten(&mut self, alloc: Global, number: u32, len: u64) -> bool {
        let Some(short) = D::failing(alloc, len, 0, Fails::Never) else {
            return false;
        };
        match nth(self, number) {
            Some(disk) => {
                *disk = short;
                true
            }
            None => false,
        }
    }

    fn spoil(&mut self, number: u32, at: u64, bytes: &[u8]) -> bool {
        match nth(self, number) {
            Some(disk) => put(disk, at, bytes).is_some(),
            None => false,
        }
    }

    fn crashed(self, alloc: Global, mode: CrashMode) -> Option<Self> {
        let Disks {
            arenas,
            sections,
            filter,
        } = self;
        let filter = match filter {
            Some(filter) => Some(filter.crashed(mode)),
            None => None,
        };
        Some(Disks {
            arenas: arenas.crashed(mode),
            sections: each_crashed(alloc, sections, mode)?,
            filter,
        })
    }

    fn torn(mut self, choice: u16) -> Option<Self> {
        let section = self.sections.pop()?;
        self.sections.push(section.torn(choice)).ok()?;
        Some(self)
    }
}

/// The calls of disk `number` that fail, where these calls of this disk do.
fn fails_at(device: u32, number: u32, fails: Fails) -> Fails {
    if device == number {
        fails
    } else {
        Fails::Never
    }
}

/// The sections of a store.
fn sections<D: TestDisk>(alloc: Global, shape: Shape, device: u32, fails: Fails) -> Option<Vec<D>> {
    let buckets = shape.buckets;
    let total = shape.sections.checked_mul(buckets)?;
    let mut list = Vec::new(alloc);
    for number in 0..shape.sections {
        let fails = fails_at(device, number.saturating_add(1), fails);
        let first = number.saturating_mul(buckets);
        list.push(section(alloc, first, buckets, total, fails)?)
            .ok()?;
    }
    Some(list)
}

/// The only section of a store.
fn lone_section<D: TestDisk>(alloc: Global, buckets: u32, fails: Fails) -> Option<Vec<D>> {
    only(alloc, section(alloc, 0, buckets, buckets, fails)?)
}

/// What a crash in a mode leaves of sections.
fn each_crashed<D: TestDisk>(alloc: Global, sections: Vec<D>, mode: CrashMode) -> Option<Vec<D>> {
    let mut left = Vec::new(alloc);
    for section in sections {
        left.push(section.crashed(mode)).ok()?;
    }
    Some(left)
}

/// A partition with arenas.
pub fn mounted_part<D: Disk + Drop>(disk: D) -> Option<Part<D>>
    ensures { IfSome result (λ part. (arenas_end (table_of part) ≤ D.size (disk_of part))
        × (0 < (table_of part).count) × ((table_of part).count ≤ 100)) }
{
    let Ok(part) = vt_part::mount(disk) else {
        return None;
    };
    if part.count() == 0 || part.count() > 100 {
        return None;
    }
    Some(part)
}

/// They are handed back.
pub fn closed<D: Disk + Drop>(devices: Devices<D>) -> Option<Disks<D>> {
    let Devices {
        mut parts,
        sections,
        filter,
    } = devices;
    Some(Disks {
        arenas: parts.pop()?.into_devices(),
        sections,
        filter,
    })
}
