//! A log in memory: which arena it commits in, what is queued, and how full the arenas are.

ghost use Rattle.std.specs.Prelude.{Bool, ◌≡◌, ◌↔◌, ◌+◌, ◌<◌, ◌≤◌, ◌^◌, Some, Err, Result, IsTrue, IsFalse, OnOk, IfSome, is_some, [], length, map, slice_get, slice_index};
ghost use Rattle.vt_disk.specs.Disk.{part as part_of};
ghost use Rattle.vt_disk.specs.Region.{FitsDisk};
ghost use Rattle.vt_clump.specs.Clumps.{IsPacked};
ghost use Rattle.vt_model.specs.declared.TheConstants.{CLUMP_HEADER_LEN};
ghost use Rattle.vt_model.specs.History.{History};
ghost use Rattle.vt_model.specs.Places.{next_arena};
ghost use Rattle.vt_part.specs.declared.layout.ArenaRegion.{ArenaRegion};
ghost use Rattle.vt_part.specs.Parts.{disk_of, tables_of};
ghost use Rattle.vt_arena.specs.declared.head.Found.{Found};
ghost use Rattle.vt_arena.specs.Places.{IsArenaLen, directory_room, arena_room};
ghost use Rattle.vt_log.specs.declared.TheConstants.{QUEUE_MAX};

use crate::QUEUE_MAX;
use crate::error::Full;
use crate::filling::Filling;
use crate::queue::Queue;
use std::marker::Model;
use vt_arena::{Arena, ArenaHead, Found, has_room};
use vt_base::{Failed, Place, Score, Scorer};
use vt_clump::Packed;
use vt_disk::{CallCount, Disk};
use vt_model::{ARENA_HEAD_LEN, SECTOR_VERSION, WRITTEN_VERSION};
use vt_part::{ArenaRegion, Layout, Part};

/// The arenas of all partitions as one log, in the order of the partitions, and a queue of at most
/// 64 blocks that are accepted and not yet committed. Arenas are counted from 0, over all
/// partitions.
///
/// One arena at a time is committed in: the next one's head is written only where that of the one
/// before says on the disk that it is sealed. When a device call of a commit fails, no more are
/// made, and what is queued can still be read.
#[derive(Drop)]
pub struct Log<D: Disk, S: Scorer> {
    pub(crate) parts: Vec<Part<D>>,
    pub(crate) scorer: S,
    /// The regions of all arenas.
    pub(crate) layout: Layout,
    /// Each arena's head, as mounted or last committed. The selectors are those at mounting.
    pub(crate) heads: Vec<Found>,
    /// Each arena's version, fixed at mounting: one without blocks counts as one of the version that
    /// is written.
    pub(crate) versions: Vec<u16>,
    /// The first arena that wasn't sealed at mounting, or the count of arenas.
    pub(crate) base: u32,
    /// The number of the arena that is committed in.
    pub(crate) committing: u32,
    /// The arena that is committed in. Its room goes to the next one with it. Where every arena is
    /// sealed, it is one of no partition.
    pub(crate) arena: Arena,
    /// What is accepted and not yet committed.
    pub(crate) queue: Queue,
    /// How full the arena is that blocks are taken in for, queued ones counted.
    pub(crate) filling: Filling,
    /// How many blocks are committed.
    pub(crate) durable: u64,
    /// The device calls of `advance`.
    pub(crate) calls: CallCount,
}

impl<D: Disk, S: Scorer> Model for Log<D, S> {
    ghost use Rattle.vt_log.specs.Log.{LogState};

    ghost Value = { LogState D };

    ghost use Rattle.vt_log.specs.View.{state_of};
    ghost use Rattle.vt_log.specs.Whole.{IsWholeLog};

    ghost view = { state_of };

    ghost invariant = { λ l. IsWholeLog D.Disk (state_of l) };
}

impl<D: Disk, S: Scorer> Log<D, S> {
    ghost use Rattle.vt_log.specs.Answers.{AppendsBlock, OnlyReadsLog, TakesOrRefuses, Spares};
    ghost use Rattle.vt_log.specs.Faults.{CountsFaults};
    ghost use Rattle.vt_log.specs.Log.{LogState, front, queued, setup_of_log, has_next, next_filling, fits_in};
    ghost use Rattle.vt_log.specs.Sound.{IsArenaAt, IsSoundLog};
    ghost use Rattle.vt_log.specs.Whole.{IsHeadFor};

    /// How many arenas there are.
    pub fn arenas(&self) -> u32
        ensures { result ≡ length self.now.layout }
    {
        self.heads.len() as u32
    }

    /// How many bytes the region of an arena has.
    pub fn arena_len(&self, arena: u32) -> u64
        requires { arena < length self.now.layout }
        ensures len { (r : ArenaRegion) × (slice_get self.now.layout arena ≡ Some r)
            × (result ≡ r.region.len) }
        ensures bounds { IsArenaLen result }
    {
        self.layout.as_slice()[arena as usize].region.len
    }

    /// The head of an arena, as mounted or last committed.
    pub fn head(&self, arena: u32) -> ArenaHead
        requires { arena < length self.now.layout }
        ensures head { (found : Found) × (slice_get self.now.heads arena ≡ Some found)
            × (result ≡ found.head) }
        ensures fit { (r : ArenaRegion) → slice_get self.now.layout arena ≡ Some r
            → result.used + directory_room result.version result.clumps
            ≤ arena_room r.region.len }
        ensures stands { (r : ArenaRegion) → slice_get self.now.layout arena ≡ Some r
            → IsHeadFor r result }
        ensures within { (r : ArenaRegion) (disk : D) → IsArenaAt self.now arena r disk
            → FitsDisk r.region (D.size disk) }
    {
        self.heads[arena as usize].head
    }

    /// Reads bytes of an arena's region, from this offset on. Failed says that the device call
    /// failed.
    pub fn bytes(&mut self, arena: u32, at: u64, buf: &mut [u8]) -> Result<(), Failed>
        requires arena { arena < length self.old.layout }
        requires within { (r : ArenaRegion) → slice_get self.old.layout arena ≡ Some r
            → at + length buf.old ≤ r.region.len }
        ensures read { OnOk result (IsTrue D.tells → (r : ArenaRegion) × (disk : D)
            × (slice_get self.old.layout arena ≡ Some r)
            × (slice_get self.old.disks r.part ≡ Some disk)
            × (buf.new ≡ part_of (r.region.start + at) (length buf.old) (D.bytes disk))) }

        // It makes one read of the arena's disk, and changes nothing.
        ensures reads { OnlyReadsLog S.score_of D.Disk 1 self.old self.new }
        ensures spares { (r : ArenaRegion) → slice_get self.old.layout arena ≡ Some r
            → Spares r.part self.old.disks self.new.disks }
        ensures cause { CountsFaults D.Disk (λ _. Bool.true) result self.old.disks self.new.disks }
    {
        let r = self.layout.as_slice()[arena as usize];
        r.region
            .read_at(&mut self.parts[r.part as usize].disk, at, buf)
    }

    /// How many blocks were accepted.
    pub fn front(&self) -> u64
        ensures front { result ≡ front self.now }
        ensures most { result < 2 ^ 63 }
    {
        self.durable + self.queue.len() as u64
    }

    /// How many of them are committed: after a crash the log still has these.
    pub fn durable(&self) -> u64
        ensures { result ≡ self.now.durable }
    {
        self.durable
    }

    /// The score of a block's bytes.
    pub fn score(&self, block: &[u8]) -> Score
        ensures { result.0 ≡ S.score_of block.now }
    {
        self.scorer.score(block)
    }

    /// The zero score, that of no bytes.
    pub fn zero_score(&self) -> Score
        ensures { result.0 ≡ S.score_of [] }
    {
        self.scorer.zero_score()
    }

    /// Whether 64 blocks are queued.
    pub fn queue_full(&self) -> bool
        ensures full { IsTrue result ↔ (front self.now ≡ self.now.durable + QUEUE_MAX) }
        ensures room { IsFalse result → queued self.now < QUEUE_MAX }
        ensures most { queued self.now ≤ QUEUE_MAX }
    {
        self.queue.len() >= QUEUE_MAX
    }

    /// The number of the device call that stopped it, if one did. The calls are those that
    /// `advance` made, counted from 0.
    pub fn stopped(&self) -> Option<u64>
        ensures { result ≡ self.now.stopped }
    {
        self.calls.stopped
    }

    /// Whether a block of `n` bytes has room: in the arena that is being filled, or in the next
    /// one.
    pub fn room(&self, n: u32) -> bool
        ensures room { result ≡ has_next self.now n }
        ensures next { (h : History)
            → IsSoundLog S.score_of D.Disk self.now h
            → result ≡ is_some (next_arena (setup_of_log self.now) h n) }
    {
        self.next_filling(n).is_some()
    }

    /// Takes a block in: it goes behind those that the arena has that is being filled or, where it
    /// doesn't fit there, into the next one. It makes no device call. Full says that neither has
    /// room for it; the log is as it was then.
    pub fn append(&mut self, packed: Packed) -> Result<Place, Full>
        requires { queued self.old < QUEUE_MAX }

        // For each history for which the disks are sound, the block is added exactly where there is
        // a next arena for it, in that arena.
        ensures appends { (h : History) → IsPacked S.score_of packed
            → IsSoundLog S.score_of D.Disk self.old h
            → AppendsBlock S.score_of D.Disk self.old self.new h packed result }

        // So much holds whatever the disks have.
        ensures takes { TakesOrRefuses packed self.old self.new result }
    {
        let Some(filling) = self.next_filling(packed.len) else {
            return Err(Full);
        };
        let place = Place {
            arena: filling.arena,
            offset: (ARENA_HEAD_LEN as u64 + filling.used) as u32,
        };
        self.filling = filling.with(packed.len);
        self.queue.push(packed, place);
        Ok(place)
    }

    /// How full the arena is that a block of `n` bytes goes to, before that block; None where no
    /// arena has room for it.
    fn next_filling(&self, n: u32) -> Option<Filling>
        ensures next { result ≡ next_filling self.now n }
        ensures small { IfSome result
            (λ f. (f.used + n + CLUMP_HEADER_LEN < 2 ^ 31) × (f.clumps + 1 < 2 ^ 32)) }
    {
        let filling = self.filling;
        if self.fits(filling, n) {
            return Some(filling);
        }
        if self.version(filling.arena) == SECTOR_VERSION {
            // (no arena of version 2 is sealed)
            return None;
        }
        let arena = filling.arena.checked_add(1)?;
        let found = self.heads.get(arena as usize)?;
        let next = Filling::of(arena, &found.head);
        if self.fits(next, n) { Some(next) } else { None }
    }

    /// Whether a block of `n` bytes fits behind what fills an arena.
    fn fits(&self, filling: Filling, n: u32) -> bool
        ensures { result ≡ fits_in self.now.layout self.now.versions filling n }
    {
        match self.layout.as_slice().get(filling.arena as usize) {
            Some(r) => {
                let len = r.region.len;
                self.version(filling.arena) == WRITTEN_VERSION
                    && has_room(WRITTEN_VERSION, len, filling.used, filling.clumps, n)
            }
            None => false,
        }
    }

    /// The version of an arena; 0 past the last one.
    fn version(&self, arena: u32) -> u16
        ensures { result ≡ slice_index self.now.versions arena }
    {
        match self.versions.get(arena as usize) {
            Some(version) => *version,
            None => 0,
        }
    }
}

impl<D: Disk, S: Scorer + Drop> Log<D, S> {
    /// Hands the partitions back. It makes no device call.
    pub fn into_devices(self) -> Vec<Part<D>>
        ensures disks { map (λ part. disk_of part) result.items ≡ self.disks }
        ensures tables { tables_of result.items ≡ self.tables }
    {
        self.parts
    }
}
