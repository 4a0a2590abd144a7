//! What tests do with an arena, one call each.

ghost use Rattle.std.specs.Prelude.{◌≡◌, IsSome, true};

use crate::disks::{Crash, Made, TestDisk, left};
use std::alloc::Global;
use vt_arena::{
    Arena, ArenaBad, ArenaHead, At, BackBad, Found, ReadBad, STAGED_MAX, find, format, info, mount,
    read,
};
use vt_base::{Info, Sha1Scorer};
use vt_clump::{Clump, Packed};
use vt_disk::{CallCount, Disk, Region};
use vt_twin::{Step, TwinErr};

/// The length of a disk, and the arena's region and number.
pub const LEN: u64 = 33_792;

pub const REGION: Region = Region {
    start: 512,
    len: 32_768,
};

pub const NUMBER: u32 = 3;

/// What an arena tells of itself.
#[derive(Clone, Copy)]
pub struct Told {
    pub head: ArenaHead,
    /// How many calls a commit of what is staged has.
    pub calls: u64,
    /// Whether a commit is under way, and whether one is to seal the arena.
    pub is_committing: bool,
    pub is_sealing: bool,
    /// The call that stopped it.
    pub stopped: Option<u64>,
}

/// An arena on a disk, with which a test does something. What a test does is proved for any such
/// arena, which is much less work than for the real one, and runs on that.
///
/// A call isn't made where its condition doesn't hold, and gives None or false then.
pub trait TestArena: Drop {
    /// One without blocks on a new disk, of which this call fails, or why it isn't mounted.
    fn made(alloc: Global, failing: u64) -> Option<Result<Self, ArenaBad>>;

    /// It is mounted again, behind a crash.
    fn again(self, alloc: Global, crash: Crash<'_>) -> Option<Self>;

    fn told(&self) -> Told;

    /// Stages a block.
    fn add(&mut self, packed: Packed) -> bool;

    /// Makes one call of a commit.
    fn step(&mut self) -> Result<Step, TwinErr>;

    /// Lets the next commit seal the arena, which takes more until then.
    fn begin_seal(&mut self) -> bool;

    /// The arena that stands on the disk.
    fn found(&mut self) -> Result<Found, ArenaBad>;

    /// Gives the arena's room to the one that stands there.
    fn turn_to_itself(&mut self) -> bool;

    /// Why the arena isn't mounted once more, if it isn't.
    fn refusal(&mut self, alloc: Global) -> Option<ArenaBad>;

    /// The block at an offset, which is thought to have so many bytes at most, or why it isn't
    /// read.
    fn block(&mut self, alloc: Global, offset: u64, size: u16) -> Result<Clump, ReadBad>;

    /// What the directory of an arena of version 1 says where a walk stands, while it isn't at its end.
    fn walk(&mut self, at: &mut At) -> Option<Result<Info, BackBad>>;

    /// Writes over the disk, from a place of the region on.
    fn write_over(&mut self, at: u64, bytes: &[u8]) -> bool;

    /// All bytes of the disk.
    fn bytes(&mut self, alloc: Global) -> Option<Vec<u8>>;
}

/// A disk with an arena, the arena, and the count of its calls.
#[derive(Drop)]
pub struct Rig<D: Disk> {
    disk: D,
    arena: Arena,
    calls: CallCount,
    ghost sized: { D.size disk ≡ 33792 },
    ghost len: { arena.len ≡ 32768 },
    ghost lent: { arena.failed ≡ true → IsSome calls.stopped },
}

/// The arena of a disk in memory.
pub type MadeArena = Rig<Made>;

impl<D: TestDisk> TestArena for Rig<D> {
    fn made(alloc: Global, failing: u64) -> Option<Result<Self, ArenaBad>> {
        let mut disk = D::failing(alloc, LEN, &[failing])?;
        if disk.len() != LEN || format(&mut disk, REGION, NUMBER).is_err() {
            return None;
        }
        opened(alloc, disk)
    }

    fn again(self, alloc: Global, crash: Crash<'_>) -> Option<Self> {
        let Rig {
            disk,
            arena: _,
            calls: _,
        } = self;
        opened(alloc, left(disk, crash))?.ok()
    }

    fn told(&self) -> Told {
        Told {
            head: self.arena.head(),
            calls: self.arena.calls_left(),
            is_committing: self.arena.is_committing(),
            is_sealing: self.arena.is_sealing(),
            stopped: self.calls.stopped,
        }
    }

    fn add(&mut self, packed: Packed) -> bool {
        let arena = &mut self.arena;
        let is_full = arena.staged().len() == STAGED_MAX || !arena.fits(packed.len);
        if arena.is_committing() || is_full {
            return false;
        }
        arena.stage(&Sha1Scorer, packed);
        true
    }

    fn step(&mut self) -> Result<Step, TwinErr> {
        self.arena.advance(&mut self.calls, &mut self.disk, REGION)
    }

    fn begin_seal(&mut self) -> bool {
        let arena = &mut self.arena;
        if arena.is_committing() || !arena.fits(0) {
            return false;
        }
        arena.seal();
        true
    }

    fn found(&mut self) -> Result<Found, ArenaBad> {
        find(&mut self.disk, REGION, NUMBER)
    }

    fn turn_to_itself(&mut self) -> bool {
        let Ok(found) = find(&mut self.disk, REGION, NUMBER) else {
            return false;
        };
        let arena = &mut self.arena;
        if arena.is_committing() {
            return false;
        }
        let [] = arena.staged() else {
            return false;
        };
        arena.move_to(REGION.len, found);
        true
    }

    fn refusal(&mut self, alloc: Global) -> Option<ArenaBad> {
        mount(alloc, &mut self.disk, REGION, NUMBER).err()
    }

    fn block(&mut self, alloc: Global, offset: u64, size: u16) -> Result<Clump, ReadBad> {
        read(alloc, &mut self.disk, REGION, offset, size, &Sha1Scorer)
    }

    fn walk(&mut self, at: &mut At) -> Option<Result<Info, BackBad>> {
        let head = self.arena.head();
        if head.version != 1 || at.index == 0 || at.index > head.clumps || at.end > head.used {
            return None;
        }
        Some(info(&mut self.disk, REGION, &head, at))
    }

    fn write_over(&mut self, at: u64, bytes: &[u8]) -> bool {
        at <= REGION.len
            && bytes.len() as u64 <= REGION.len - at
            && self.disk.write_at(REGION.start + at, bytes) == Ok(())
    }

    fn bytes(&mut self, alloc: Global) -> Option<Vec<u8>> {
        let mut bytes = vec![in alloc; 0; LEN as usize].ok()?;
        self.disk.read_at(0, &mut bytes).ok()?;
        Some(bytes)
    }
}

/// The arena of a disk, or why it isn't mounted. None says that the disk has another length.
fn opened<D: Disk + Drop>(alloc: Global, mut disk: D) -> Option<Result<Rig<D>, ArenaBad>> {
    if disk.len() != LEN {
        return None;
    }
    match mount(alloc, &mut disk, REGION, NUMBER) {
        Ok(arena) => Some(Ok(Rig {
            disk,
            arena,
            calls: CallCount::new(),
        })),
        Err(bad) => Some(Err(bad)),
    }
}
