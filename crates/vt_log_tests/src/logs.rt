//! What tests do with a log, one call each.

ghost use Rattle.std.specs.Prelude.{◌≡◌, ◌<◌, ◌≤◌, [], ◌∷◌, IfSome};
ghost use Rattle.vt_log.specs.Back.{IsTailOf};
ghost use Rattle.vt_part.specs.Parts.{disk_of, table_of};
ghost use Rattle.vt_part.specs.Table.{arenas_end};

use crate::disks::{Crash, Made, TestDisk, left};
use std::alloc::Global;
use std::marker::Brand;
use std::sync::ledger::{Blank, Ledger};
use vt_arena::{BackBad, ReadBad};
use vt_base::{Bytes, Failed, Info, Key, Place, Scorer, Sha1Scorer, Steps, Text};
use vt_clump::Packed;
use vt_disk::Disk;
use vt_log::{Log, LogBad, LogErr, Progress, Tail, format, mount};
use vt_part::Part;

/// The bytes of an arena.
pub const ARENA_LEN: u64 = 32_768;

/// What a log tells of itself.
#[derive(Clone, Copy)]
pub struct Told {
    /// How many blocks are accepted, and how many of them committed.
    pub front: u64,
    pub durable: u64,
    /// How many calls of commits are left at most.
    pub owed: u64,
    /// Whether the queue takes no block before a commit.
    pub is_full: bool,
}

/// Bytes that are written from a place of an arena's region on.
#[derive(Clone, Copy)]
pub struct Write<'a> {
    pub arena: u32,
    pub at: u64,
    pub bytes: &'a [u8],
}

/// A log with which a test does something. What a test does is proved for any such log, which is much
/// less work than for the real one, and runs on that.
///
/// A call isn't made where its condition doesn't hold, and gives None or false then.
pub trait TestLog: Drop {
    /// One without blocks, on a partition named `a` of a new disk of this length. The disk's calls
    /// with these numbers fail.
    fn made(alloc: Global, len: u64, failing: &[u64]) -> Option<Self>;

    /// One on two such partitions, the second with this name, or why there is none. Calls of the
    /// second disk fail.
    fn made_pair(
        alloc: Global,
        lens: (u64, u64),
        name: &[u8],
        failing: &[u64],
    ) -> Option<Result<Self, LogBad>>;

    /// One on one partition is mounted again, behind a crash if there is one.
    fn again(self, alloc: Global, crash: Crash<'_>) -> Option<Self>;

    /// One on one partition is mounted again, with these bytes in its arenas.
    fn with(self, alloc: Global, writes: &[Write<'_>]) -> Option<Self>;

    fn told(&self) -> Told;

    /// Whether an arena is sealed, and how many blocks it has.
    fn head_of(&self, arena: u32) -> Option<(bool, u32)>;

    /// The version of an arena's head.
    fn version(&self, arena: u32) -> Option<u16>;

    /// Takes a block in: its place, or that there is no room for it. None says too that a place is
    /// given where there is no room, or the other way round.
    fn add(&mut self, packed: Packed) -> Option<Option<Place>>;

    /// Makes one call of a commit.
    fn step(&mut self) -> Result<Progress, LogErr>;

    /// The block of a key at a place, which is thought to have so many bytes.
    fn find(&mut self, alloc: Global, place: Place, size: u16, key: &Key) -> Result<Bytes, ReadBad>;

    /// Puts in a list what a walk gives, from the last block to the first. Whether it ends behind as
    /// many steps as it has blocks before it at first.
    fn walk(&mut self, infos: &mut Vec<Info>) -> bool;

    /// Whether a walk's first step fails and leaves as many blocks.
    fn stays(&mut self) -> bool;

    /// How many blocks a walk gives before a step fails, and why that does.
    fn stops(&mut self) -> Option<(u64, BackBad)>;

    /// The clump of three bytes at the start of the first arena.
    fn first_clump(&mut self) -> Option<Result<[u8; 41], Failed>>;
}

/// A scorer that a test makes.
pub trait TestScorer: Scorer + Drop {
    fn made() -> Self;
}

impl TestScorer for Sha1Scorer {
    fn made() -> Self {
        Sha1Scorer
    }
}

/// The log of disks in memory.
pub type MadeLog = Log<Made, Sha1Scorer>;

impl<D: TestDisk, S: TestScorer> TestLog for Log<D, S> {
    fn made(alloc: Global, len: u64, failing: &[u64]) -> Option<Self> {
        opened(
            alloc,
            formatted(alloc, D::failing(alloc, len, failing)?, b"a")?,
        )
    }

    fn made_pair(
        alloc: Global,
        lens: (u64, u64),
        name: &[u8],
        failing: &[u64],
    ) -> Option<Result<Self, LogBad>> {
        let first = formatted(alloc, D::failing(alloc, lens.0, &[])?, b"a")?;
        let second = formatted(alloc, D::failing(alloc, lens.1, failing)?, name)?;
        opened_pair(alloc, first, second)
    }

    fn again(self, alloc: Global, crash: Crash<'_>) -> Option<Self> {
        let disk = self.into_devices().pop()?.into_devices();
        opened(alloc, left(disk, crash))
    }

    fn with(self, alloc: Global, writes: &[Write<'_>]) -> Option<Self> {
        let mut part = self.into_devices().pop()?;
        for write in writes {
            if !is_written(&mut part, *write) {
                return None;
            }
        }
        opened(alloc, part.into_devices())
    }

    fn told(&self) -> Told {
        Told {
            front: self.front(),
            durable: self.durable(),
            owed: self.owed(),
            is_full: self.queue_full(),
        }
    }

    fn head_of(&self, arena: u32) -> Option<(bool, u32)> {
        if arena >= self.arenas() {
            return None;
        }
        let head = self.head(arena);
        Some((head.sealed, head.clumps))
    }

    fn version(&self, arena: u32) -> Option<u16> {
        if arena >= self.arenas() {
            return None;
        }
        Some(self.head(arena).version)
    }

    fn add(&mut self, packed: Packed) -> Option<Option<Place>> {
        if self.queue_full() {
            return None;
        }
        let room = self.room(packed.len);
        let place = self.append(packed).ok();
        if room == place.is_some() {
            Some(place)
        } else {
            None
        }
    }

    fn step(&mut self) -> Result<Progress, LogErr> {
        self.advance()
    }

    fn find(
        &mut self,
        alloc: Global,
        place: Place,
        size: u16,
        key: &Key,
    ) -> Result<Bytes, ReadBad> {
        read::<D, S, Brand>(alloc, self, place, size, key, Blank::new(1))
    }

    fn walk(&mut self, infos: &mut Vec<Info>) -> bool {
        walk_back::<D, S, Brand>(self, infos, Blank::new(1))
    }

    fn stays(&mut self) -> bool {
        fails_back::<D, S, Brand>(self, Blank::new(1))
    }

    fn stops(&mut self) -> Option<(u64, BackBad)> {
        stops_back::<D, S, Brand>(self, Blank::new(1))
    }

    fn first_clump(&mut self) -> Option<Result<[u8; 41], Failed>> {
        if self.arenas() == 0 || self.arena_len(0) < ARENA_LEN {
            return None;
        }
        let mut clump = [0; 41];
        match self.bytes(0, 24_576, &mut clump) {
            Ok(()) => Some(Ok(clump)),
            Err(failed) => Some(Err(failed)),
        }
    }
}

// ---- partitions

/// A list of one partition.
fn only<D: Disk + Drop>(alloc: Global, part: Part<D>) -> Option<Vec<Part<D>>>
    ensures { IfSome result (λ list. list.items ≡ part ∷ []) }
{
    let mut list = Vec::new(alloc);
    list.push(part).ok()?;
    Some(list)
}

/// The partition of a disk, with a hundred arenas at most.
fn mounted_part<D: Disk + Drop>(disk: D) -> Option<Part<D>>
    ensures { IfSome result (λ part. (arenas_end (table_of part) ≤ D.size (disk_of part))
        × ((table_of part).count ≤ 100)) }
{
    let Ok(part) = vt_part::mount(disk) else {
        return None;
    };
    if part.count() > 100 {
        return None;
    }
    Some(part)
}

/// Whether a disk is made a partition of this name, with arenas of 32,768 bytes.
fn is_made<D: Disk>(alloc: Global, disk: &mut D, name: &[u8]) -> bool {
    match Text::copy_of(alloc, name) {
        Ok(name) => {
            vt_part::is_name(name.as_slice()) && vt_part::format(disk, &name, ARENA_LEN).is_ok()
        }
        Err(_) => false,
    }
}

/// Whether these bytes are written into an arena of a partition.
fn is_written<D: Disk>(part: &mut Part<D>, write: Write<'_>) -> bool {
    let Write { arena, at, bytes } = write;
    if arena >= part.count() {
        return false;
    }
    let place = part.region(arena).start.saturating_add(at);
    let len = part.disk.len();
    place <= len && bytes.len() as u64 <= len - place && part.disk.write_at(place, bytes) == Ok(())
}

/// A disk that is made a partition of this name, whose arenas have no blocks.
fn formatted<D: Disk + Drop>(alloc: Global, mut disk: D, name: &[u8]) -> Option<D> {
    if !is_made(alloc, &mut disk, name) {
        return None;
    }
    let mut parts = only(alloc, mounted_part(disk)?)?;
    format(&mut parts).ok()?;
    Some(parts.pop()?.into_devices())
}

/// The log of the partition on a disk.
fn opened<D: Disk + Drop, S: TestScorer>(alloc: Global, disk: D) -> Option<Log<D, S>> {
    mount(alloc, only(alloc, mounted_part(disk)?)?, S::made()).ok()
}

/// The log of the partitions on two disks, or why there is none.
fn opened_pair<D: Disk + Drop, S: TestScorer>(
    alloc: Global,
    first: D,
    second: D,
) -> Option<Result<Log<D, S>, LogBad>> {
    let mut parts = only(alloc, mounted_part(first)?)?;
    parts.push(mounted_part(second)?).ok()?;
    match mount(alloc, parts, S::made()) {
        Ok(log) => Some(Ok(log)),
        Err((bad, _)) => Some(Err(bad)),
    }
}

// ---- calls that count their steps

/// Reads a block, and counts the steps on a ledger of its own.
fn read<D: Disk, S: Scorer, L: Ledger>(
    alloc: Global,
    log: &mut Log<D, S>,
    place: Place,
    size: u16,
    key: &Key,
    blank: Blank,
) -> Result<Bytes, ReadBad>
    requires name { blank.name ≡ L.name }
    requires parts { blank.parts ≡ L.parts }
    requires some { 0 < L.parts }
{
    let mut steps = Steps::<L>::new(blank);
    log.read(alloc, place, size, key, &mut steps)
}

/// Whether a walk ends in as many steps as the log has blocks; their infos come behind these.
fn walk_back<D: Disk, S: Scorer, L: Ledger>(
    log: &mut Log<D, S>,
    infos: &mut Vec<Info>,
    blank: Blank,
) -> bool
    requires name { blank.name ≡ L.name }
    requires parts { blank.parts ≡ L.parts }
    requires some { 0 < L.parts }
{
    let mut steps = Steps::<L>::new(blank);
    let mut tail = log.tail();
    for _ in 0..tail.left() {
        if !gives_one(log, &mut tail, infos, &mut steps) {
            return false;
        }
    }
    log.back(&mut tail, &mut steps) == Ok(None)
}

/// Puts in a list what a step of a walk gives. False says that it gives nothing, or fails, or that
/// there is no memory.
fn gives_one<D: Disk, S: Scorer, L: Ledger>(
    log: &mut Log<D, S>,
    tail: &mut Tail,
    infos: &mut Vec<Info>,
    steps: &mut Steps<L>,
) -> bool
    requires { IsTailOf log.old tail.old }
    ensures { IsTailOf log.new tail.new }
{
    match log.back(tail, steps) {
        Ok(Some(info)) => infos.push(info).is_ok(),
        _ => false,
    }
}

/// Whether the first step back fails, and leaves as many blocks as there are.
fn fails_back<D: Disk, S: Scorer, L: Ledger>(log: &mut Log<D, S>, blank: Blank) -> bool
    requires name { blank.name ≡ L.name }
    requires parts { blank.parts ≡ L.parts }
    requires some { 0 < L.parts }
{
    let mut steps = Steps::<L>::new(blank);
    let mut tail = log.tail();
    log.back(&mut tail, &mut steps) == Err(BackBad::Fault) && tail.left() == log.front()
}

/// How many blocks a walk gives before a step fails, and why that does. None says that none fails.
fn stops_back<D: Disk, S: Scorer, L: Ledger>(
    log: &mut Log<D, S>,
    blank: Blank,
) -> Option<(u64, BackBad)>
    requires name { blank.name ≡ L.name }
    requires parts { blank.parts ≡ L.parts }
    requires some { 0 < L.parts }
{
    let mut steps = Steps::<L>::new(blank);
    let mut tail = log.tail();
    for given in 0..tail.left() {
        if let Some(bad) = step_fails(log, &mut tail, &mut steps) {
            return Some((given, bad));
        }
    }
    None
}

/// Why a step of a walk fails, if it does.
fn step_fails<D: Disk, S: Scorer, L: Ledger>(
    log: &mut Log<D, S>,
    tail: &mut Tail,
    steps: &mut Steps<L>,
) -> Option<BackBad>
    requires { IsTailOf log.old tail.old }
    ensures { IsTailOf log.new tail.new }
{
    log.back(tail, steps).err()
}
