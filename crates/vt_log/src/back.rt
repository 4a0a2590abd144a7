//! Walking a log from its last block to the first.

ghost use Rattle.std.specs.Prelude.{◌≡◌, ◌≢◌, ◌↔◌, ◌⊎◌, ◌∷◌, ◌++◌, [], ◌+◌, ◌-◌, ◌<◌, ◌≤◌, ℕ, List, Some, None, Ok, Err, IsTrue, IfOk, IfErr, MatchOption, MatchResult, length, slice_get};
ghost use Rattle.vt_base.specs.declared.place.Info.{Info};
ghost use Rattle.vt_base.specs.declared.place.Place.{Place};
ghost use Rattle.vt_clump.specs.declared.packed.Packed.{Packed};
ghost use Rattle.vt_model.specs.declared.TheConstants.{ARENA_HEAD_LEN};
ghost use Rattle.vt_model.specs.History.{History};
ghost use Rattle.vt_part.specs.declared.layout.ArenaRegion.{ArenaRegion};
ghost use Rattle.vt_arena.specs.declared.directory.At.{At};
ghost use Rattle.vt_arena.specs.declared.head.Found.{Found};
ghost use Rattle.vt_clump.specs.Spelling.{Stored};
ghost use Rattle.vt_arena.specs.Directory.{what_is_walked, WalksOn, IsOnClump, IsInfoOfBlock, NamesDamage, is_back_fault, IsAtBlock};
ghost use Rattle.vt_arena.specs.Layout.{Content, IsArenaContent, HasBlocks, arena_head};
ghost use Rattle.vt_arena.specs.Places.{block_room};

use crate::log::Log;
use std::marker::Model;
use std::sync::ledger::Ledger;
use vt_arena::{At, BackBad, info};
use vt_base::{Info, Key, Place, Scorer, Steps};
use vt_disk::Disk;
use vt_model::ARENA_HEAD_LEN;

/// Where a walk of a log stands, from its last block to the first.
#[derive(Drop)]
pub struct Tail {
    /// How many blocks weren't given yet.
    left: u64,
    /// How many of those that are left are queued.
    queued: usize,
    /// The arena of the others that come next, if it has one left.
    arena: u32,
    /// Where the walk stands in that arena.
    at: At,
}

impl Model for Tail {
    ghost use Rattle.vt_log.specs.Back.{TailState};

    ghost Value = { TailState };

    ghost view = { λ t. record {
      left = t.left;
      queued = t.queued;
      arena = t.arena;
      at = t.at;
    } };
}

impl Tail {
    /// How many blocks are left: the next one that is given has one less as its number.
    pub fn left(&self) -> u64
        ensures { result ≡ self.now.left }
    {
        self.left
    }
}

impl<D: Disk, S: Scorer> Log<D, S> {
    ghost use Rattle.vt_log.specs.Answers.{OnlyReadsLog, Spares};
    ghost use Rattle.vt_log.specs.Back.{IsTailOf, IsTailBehind, StepsBack, IsNextEntry, GivesEntry, MovesBack, IsQueued};
    ghost use Rattle.vt_log.specs.Faults.{CountsFaults};
    ghost use Rattle.vt_log.specs.Log.{front, packed_of};
    ghost use Rattle.vt_log.specs.Sound.{IsSoundLog, IsArenaAt};
    ghost use Rattle.vt_log.specs.Whole.{IsWholeLog};

    /// A walk that has all blocks before it.
    pub fn tail(&self) -> Tail
        ensures whole { IsWholeLog D.Disk self.now }
        ensures tail { IsTailOf self.now result }
        ensures all { result.left ≡ front self.now }
        ensures past { result.arena ≡ length self.now.heads }
        ensures behind { (h : History)
            → IsSoundLog S.score_of D.Disk self.now h
            → IsTailBehind self.now h (length h) result }
    {
        Tail {
            left: self.front(),
            queued: self.queue.len(),
            arena: self.heads.len() as u32,
            at: At {
                index: 0,
                end: 0,
                sectors: 0,
            },
        }
    }

    /// Where the arena's blocks end that a walk has before it, and so where the block ends that
    /// comes next, if it isn't queued and the walk needn't turn to another arena for it.
    pub fn tail_place(&self, tail: &Tail) -> Place
        requires { IsTailOf self.now tail.now }
        ensures { result ≡ record {
          arena = tail.now.arena;
          offset = ARENA_HEAD_LEN + tail.now.at.end;
        } }
    {
        let _durable = self.durable;
        Place {
            arena: tail.arena,
            offset: (ARENA_HEAD_LEN as u64 + tail.at.end) as u32,
        }
    }

    /// What is known of the block that comes next on the way from the last to the first. None where
    /// all were given. A queued one comes from the queue; else one directory entry, or the header
    /// that stands for it in an arena of version 2 that isn't sealed, is read, and counted as one
    /// step.
    ///
    /// Damaged says by what value the entry or header differs from what was wanted, and Fault that
    /// the device call failed. The walk has as many blocks before it then as it had.
    pub fn back<L: Ledger>(
        &mut self,
        tail: &mut Tail,
        steps: &mut Steps<L>,
    ) -> Result<Option<Info>, BackBad>
        requires { IsTailOf self.old tail.old }

        // The blocks are given from the last to the first.
        ensures blocks { (h : History) (n : ℕ) → IsTrue D.tells
            → IsSoundLog S.score_of D.Disk self.old h → IsTailBehind self.old h n tail.old
            → MatchResult result (StepsBack S.score_of self.old h n tail.new)
            (λ bad. (bad ≡ BackBad.Fault) × IsTailBehind self.old h n tail.new) }

        // Whatever the disks hold, an answer is what the queue or an entry says.
        ensures queued { 0 < tail.old.queued → (info : Info) × (p : Packed) × (place : Place)
            × (result ≡ Ok (Some info)) × IsQueued p place tail.old.left info
            × (slice_get (packed_of self.old) (tail.old.queued - 1) ≡ Some p)
            × (slice_get self.old.queue.places (tail.old.queued - 1) ≡ Some place)
            × (tail.new ≡ record tail.old {
              left = tail.old.left - 1;
              queued = tail.old.queued - 1;
            }) }
        ensures entry { (arena : ℕ) (at : At) (found : Found) (r : ArenaRegion) (disk : D)
            → tail.old.queued ≡ 0 → IsNextEntry self.old.heads tail.old arena at
            → slice_get self.old.heads arena ≡ Some found → IsArenaAt self.old arena r disk
            → (bytes : List ℕ) × (IsTrue D.tells
            → bytes ≡ what_is_walked found.head r.region at (D.bytes disk))
            × GivesEntry arena tail.old.left found.head at bytes result
            × MovesBack arena found.head at bytes tail.new result }
        ensures none { (result ≡ Ok None) ↔ (tail.old.left ≡ 0) }

        // The two values of a damage are of one form, and differ.
        ensures differs { IfErr result NamesDamage }

        ensures tail { IsTailOf self.new tail.new }
        ensures left { MatchResult result (λ it. MatchOption it (tail.new.left ≡ tail.old.left)
            (λ _. tail.new.left + 1 ≡ tail.old.left)) (λ _. tail.new.left ≡ tail.old.left) }

        // One step is counted where an entry is read, and none else. It changes nothing.
        ensures cost { 0 < tail.old.left → tail.old.queued ≡ 0 → steps.new ≡ steps.old + 1 }
        ensures free { (tail.old.left ≡ 0) ⊎ (0 < tail.old.queued)
            → (steps.new ≡ steps.old) × (self.new ≡ self.old) }
        ensures reads { OnlyReadsLog S.score_of D.Disk 1 self.old self.new }
        ensures spares { (arena : ℕ) (at : At) (found : Found) (r : ArenaRegion)
            → IsNextEntry self.old.heads tail.old arena at → slice_get self.old.heads arena
            ≡ Some found
            → slice_get self.old.layout arena ≡ Some r
            → Spares r.part self.old.disks self.new.disks }
        ensures cause { CountsFaults D.Disk is_back_fault result self.old.disks self.new.disks }
    {
        if tail.queued > 0 {
            return Ok(Some(self.back_in_queue(tail)));
        }
        if tail.left == 0 {
            return Ok(None);
        }
        self.skip_empty(tail);
        steps.tick();
        self.back_in_arena(tail)
    }

    /// What is known of the last queued block that is before the walk.
    fn back_in_queue(&self, tail: &mut Tail) -> Info
        requires tail { IsTailOf self.now tail.old }
        requires some { 0 < tail.old.queued }
        ensures blocks { (h : History) (n : ℕ)
            → IsSoundLog S.score_of D.Disk self.now h → IsTailBehind self.now h n tail.old
            → StepsBack S.score_of self.now h n tail.new (Some result) }
        ensures queued { (p : Packed) × (place : Place) × IsQueued p place tail.old.left result
            × (slice_get (packed_of self.now) (tail.old.queued - 1) ≡ Some p)
            × (slice_get self.now.queue.places (tail.old.queued - 1) ≡ Some place) }
        ensures tail { IsTailOf self.now tail.new }
        ensures moved { tail.new ≡ record tail.old {
          left = tail.old.left - 1;
          queued = tail.old.queued - 1;
        } }
        ensures left { tail.new.left + 1 ≡ tail.old.left }
    {
        tail.queued -= 1;
        tail.left -= 1;
        let packed = self.packed(tail.queued);
        Info {
            key: Key {
                score: packed.score,
                kind: packed.kind,
            },
            size: packed.len as u16,
            place: self.queue.place(tail.queued),
            number: tail.left,
        }
    }

    /// Turns to the next arena that has a block left.
    fn skip_empty(&self, tail: &mut Tail)
        requires tail { IsTailOf self.now tail.old }
        requires queued { tail.old.queued ≡ 0 }
        requires left { 0 < tail.old.left }
        ensures tail { IsTailOf self.now tail.new }
        ensures same { (tail.new.left ≡ tail.old.left) × (tail.new.queued ≡ 0) }
        ensures next { IsNextEntry self.now.heads tail.old tail.new.arena tail.new.at }
        ensures behind { (h : History) (n : ℕ)
            → IsSoundLog S.score_of D.Disk self.now h → IsTailBehind self.now h n tail.old
            → IsTailBehind self.now h n tail.new }
    {
        while tail.at.index == 0 {
            tail.arena -= 1;
            tail.at = At::start(&self.heads[tail.arena as usize].head);
        }
    }

    /// What is known of the last block that is left in an arena. It fails where its directory entry
    /// or header can't be read, or can't stand there.
    fn back_in_arena(&mut self, tail: &mut Tail) -> Result<Option<Info>, BackBad>
        requires tail { IsTailOf self.old tail.old }
        requires queued { tail.old.queued ≡ 0 }
        requires some { 0 < tail.old.at.index }
        ensures blocks { (h : History) (n : ℕ) → IsTrue D.tells
            → IsSoundLog S.score_of D.Disk self.old h → IsTailBehind self.old h n tail.old
            → MatchResult result (StepsBack S.score_of self.old h n tail.new)
            (λ bad. (bad ≡ BackBad.Fault) × IsTailBehind self.old h n tail.new) }
        ensures entry { (found : Found) (r : ArenaRegion) (disk : D)
            → slice_get self.old.heads tail.old.arena ≡ Some found
            → IsArenaAt self.old tail.old.arena r disk → (bytes : List ℕ)
            × (IsTrue D.tells → bytes ≡ what_is_walked found.head r.region tail.old.at (D.bytes disk))
            × GivesEntry tail.old.arena tail.old.left found.head tail.old.at bytes result
            × MovesBack tail.old.arena found.head tail.old.at bytes tail.new result }
        ensures differs { IfErr result NamesDamage }
        ensures some { result ≢ Ok None }
        ensures tail { IsTailOf self.new tail.new }
        ensures left { MatchResult result (λ it. MatchOption it (tail.new.left ≡ tail.old.left)
            (λ _. tail.new.left + 1 ≡ tail.old.left)) (λ _. tail.new.left ≡ tail.old.left) }
        ensures reads { OnlyReadsLog S.score_of D.Disk 1 self.old self.new }
        ensures spares { (r : ArenaRegion) → slice_get self.old.layout tail.old.arena ≡ Some r
            → Spares r.part self.old.disks self.new.disks }
        ensures cause { CountsFaults D.Disk is_back_fault result self.old.disks self.new.disks }
    {
        let arena = tail.arena;
        let info = self.read_entry(arena, &mut tail.at)?;
        tail.left -= 1;
        Ok(Some(Info {
            key: info.key,
            size: info.size,
            place: Place {
                arena,
                offset: info.place.offset,
            },
            number: tail.left,
        }))
    }

    /// What the directory of an arena says of the block at which a walk of it stands, or the block's
    /// header. It fails where that can't be read, or can't stand there.
    fn read_entry(&mut self, arena: u32, at: &mut At) -> Result<Info, BackBad>
        requires arena { arena < length self.old.heads }
        requires some { 0 < at.old.index }
        requires head { (found : Found) → slice_get self.old.heads arena ≡ Some found
            → (at.old.index ≤ found.head.clumps) × (at.old.end ≤ found.head.used)
            × IsOnClump found.head at.old }
        ensures entry { (found : Found) (r : ArenaRegion) (disk : D)
            → slice_get self.old.heads arena ≡ Some found
            → IsArenaAt self.old arena r disk → (bytes : List ℕ)
            × (IsTrue D.tells → bytes ≡ what_is_walked found.head r.region at.old (D.bytes disk))
            × WalksOn found.head at.old at.new bytes result }
        ensures differs { IfErr result NamesDamage }
        ensures moved { (found : Found) → slice_get self.old.heads arena ≡ Some found
            → IfOk result (λ info. (at.new.index + 1 ≡ at.old.index)
            × (at.new.end + block_room found.head.version info.size ≡ at.old.end)) }
        ensures clump { (found : Found) → slice_get self.old.heads arena ≡ Some found
            → IsOnClump found.head at.new }
        ensures stays { IfErr result (λ _. at.new ≡ at.old) }
        ensures committed { (found : Found) (r : ArenaRegion) (disk : D) (number : ℕ)
            (a : Content) (before behind : List Stored) (s : Stored) → IsTrue D.tells
            → slice_get self.old.heads arena ≡ Some found → IsArenaAt self.old arena r disk
            → IsArenaContent S.score_of r.region.len a → HasBlocks r.region a (D.bytes disk)
            → a.stored ≡ before ++ s ∷ behind → found.head ≡ arena_head S.score_of number a
            → IsAtBlock found.head before s at.old
            → MatchResult result (λ info. IsInfoOfBlock found.head before s info
            × ((first : List Stored) (t : Stored) → before ≡ first ++ t ∷ []
            → IsAtBlock found.head first t at.new)) (λ bad. bad ≡ BackBad.Fault) }
        ensures reads { OnlyReadsLog S.score_of D.Disk 1 self.old self.new }
        ensures spares { (r : ArenaRegion) → slice_get self.old.layout arena ≡ Some r
            → Spares r.part self.old.disks self.new.disks }
        ensures cause { CountsFaults D.Disk is_back_fault result self.old.disks self.new.disks }
    {
        let r = self.layout.as_slice()[arena as usize];
        let head = self.heads[arena as usize].head;
        info(&mut self.parts[r.part as usize].disk, r.region, &head, at)
    }
}
