//! An arena in memory: what is committed, what is staged, and how far a commit has come.

ghost use Rattle.std.specs.Prelude.{◌≡◌, ◌↔◌, ◌+◌, ◌%◌, ◌<◌, ◌≤◌, ℕ, List, [], length, IsTrue, IsFalse, IsSome, true, IfOk, None, Some, Ok, Err};

use crate::committing::entry_bytes;
use crate::head::{ArenaHead, Found, version_counted};
use crate::{DIRECTORY_MAX, FRAME_LEN, STAGED_MAX, block_room, has_room};
use std::alloc::{AllocError, Global};
use std::marker::Model;
use vt_base::fields::put;
use vt_base::{Bytes, Scorer};
use vt_clump::Packed;
use vt_disk::{CallCount, CallError, Disk, Region};
use vt_model::{DIRECTORY_ENTRY_LEN, WRITTEN_VERSION};
use vt_twin::{Step, Twin, TwinErr};

/// How many bytes a link of the chain is the score of: the chain before it, and an entry.
const LINK_LEN: usize = 20 + DIRECTORY_ENTRY_LEN;

/// An arena of a disk: a head, clumps and their directory in a region, and clumps that are staged
/// for the next commit.
///
/// It holds no device. A call that reaches the disk is handed the disk and the region, the same one
/// each time.
#[derive(Drop)]
pub struct Arena {
    /// The arena's number in its partition.
    pub(crate) number: u32,
    /// How many bytes its region has.
    pub(crate) len: u64,
    /// The two frames of the head on the disk.
    pub(crate) twin: Twin,
    /// The head as it was committed last.
    pub(crate) head: ArenaHead,
    /// The head that the commit under way brings.
    pub(crate) next: ArenaHead,
    /// The clumps of the commit under way.
    pub(crate) staged: Vec<Packed>,
    /// The directory of what is staged, at the end of a buffer for as many as may be.
    pub(crate) directory: Vec<u8>,
    /// How many pieces of the commit under way were written: clumps, then their directory.
    pub(crate) written: usize,
    /// How many bytes the clumps take, those counted that the commit under way has written.
    pub(crate) end: u64,
    /// The buffer of the head's next frame, while no change of the head is under way.
    pub(crate) buffer: Option<Bytes>,
    /// How many calls of the head's change under way succeeded.
    pub(crate) head_calls: u8,
    /// Whether a call of a commit failed: then no more are made.
    pub(crate) failed: bool,
}

impl Model for Arena {
    ghost use Rattle.vt_arena.specs.Arena.{ArenaState};

    ghost Value = { ArenaState };

    ghost use Rattle.vt_arena.specs.Whole.{IsWholeArena, state_of};

    ghost view = { state_of };

    ghost invariant = { IsWholeArena };
}

impl Arena {
    ghost use Rattle.vt_model.specs.declared.TheConstants.{WRITTEN_VERSION};
    ghost use Rattle.vt_disk.specs.Calls.{WritesWithin, IsSynced};
    ghost use Rattle.vt_base.specs.Faults.{CountsFault};
    ghost use Rattle.vt_disk.specs.DeviceCalls.{CallMade, is_call_fault};
    ghost use Rattle.vt_disk.specs.Disk.{WithinCall};
    ghost use Rattle.vt_arena.specs.Layout.{Content, IsArena};
    ghost use Rattle.vt_arena.specs.Arena.{fresh_arena, fits, is_committing, with_staged, with_seal, version_counted, next_content, pieces, commit_calls, calls_made, ArenaAdvances, content_after};
    ghost use Rattle.vt_arena.specs.Places.{IsArenaLen, directory_room, arena_room};
    ghost use Rattle.vt_arena.specs.Sound.{IsRegion, IsSoundArena, GivesOldOrNext};
    ghost use Rattle.vt_arena.specs.Written.{next_commit_call};

    /// The arena of this length that was found. It makes room for commits, and no device call.
    pub fn resume(alloc: Global, len: u64, found: Found) -> Result<Arena, AllocError>
        requires len { IsArenaLen len }
        requires fit { found.head.used + directory_room found.head.version found.head.clumps
            ≤ arena_room len }
        ensures { IfOk result (λ a. a ≡ fresh_arena len (found.selector % 2) found.head) }
    {
        let staged = Vec::with_capacity(alloc, STAGED_MAX)?;
        let directory = vec![in alloc; 0; DIRECTORY_MAX]?;
        let buffer = Bytes::copy_of(alloc, &[0; FRAME_LEN])?;
        Ok(Arena {
            number: found.head.number,
            len,
            twin: Twin::resume(FRAME_LEN as u64, found.selector),
            head: found.head,
            next: found.head,
            staged,
            directory,
            written: 0,
            end: found.head.used,
            buffer: Some(buffer),
            head_calls: 0,
            failed: false,
        })
    }

    /// Turns to the arena of this length that was found, with the room for commits as it is. It
    /// makes no device call.
    pub fn move_to(&mut self, len: u64, found: Found)
        requires rest { IsFalse (is_committing self.old) }
        requires none { self.old.staged ≡ [] }
        requires len { IsArenaLen len }
        requires fit { found.head.used + directory_room found.head.version found.head.clumps
            ≤ arena_room len }
        ensures { self.new ≡ fresh_arena len (found.selector % 2) found.head }
    {
        self.number = found.head.number;
        self.len = len;
        self.twin = Twin::resume(FRAME_LEN as u64, found.selector);
        self.head = found.head;
        self.next = found.head;
        self.end = found.head.used;
    }

    /// The head, as mounted or last committed.
    pub fn head(&self) -> ArenaHead
        ensures head { result ≡ self.now.head }
        ensures fit { result.used + directory_room result.version result.clumps
            ≤ arena_room self.now.len }
    {
        self.head
    }

    /// The clumps that are staged, in order. Those of a commit under way are among them until it is
    /// done.
    pub fn staged(&self) -> &[Packed]
        ensures staged { result.now ≡ self.now.staged }
        ensures most { length result.now ≤ STAGED_MAX }
    {
        &self.staged
    }

    /// Whether a block of `n` bytes fits behind what is committed and what is staged. Only an arena
    /// of the version that is written takes more.
    pub fn fits(&self, n: u32) -> bool
        ensures { result ≡ fits self.now n }
    {
        version_counted(&self.next) == WRITTEN_VERSION
            && has_room(
                WRITTEN_VERSION,
                self.len,
                self.next.used,
                self.next.clumps,
                n,
            )
    }

    /// Whether a call of a commit was made that isn't done. One of which a call failed stays so.
    pub fn is_committing(&self) -> bool
        ensures { result ≡ is_committing self.now }
    {
        self.written > 0 || self.twin.is_changing() || self.failed
    }

    /// Whether the next commit leaves the arena sealed.
    pub fn is_sealing(&self) -> bool
        ensures { result ≡ self.now.next.sealed }
    {
        self.next.sealed
    }

    /// How many device calls a commit of what is staged takes, or the one under way still takes.
    pub fn calls_left(&self) -> u64
        ensures left { result + calls_made self.now ≡ commit_calls self.now }
        ensures some { 0 < result }
    {
        // 4: the head's frame, a sync, its selector, a sync.
        let calls = self.pieces() + 4;
        (calls - self.written) as u64 - u64::from(self.head_calls)
    }

    /// How many pieces a commit of what is staged writes.
    pub(crate) fn pieces(&self) -> usize
        ensures pieces { result ≡ pieces self.now }
        ensures most { result ≤ STAGED_MAX + 1 }
        ensures written { self.now.written ≤ result }
    {
        let blocks = self.staged.len();
        blocks + blocks.min(1)
    }

    /// Takes in a clump for the next commit. It makes no device call.
    pub fn stage<S: Scorer>(&mut self, scorer: &S, packed: Packed)
        requires fits { IsTrue (fits self.old packed.len) }
        requires few { length self.old.staged < STAGED_MAX }
        requires rest { IsFalse (is_committing self.old) }
        ensures { self.new ≡ with_staged S.score_of packed self.old }
    {
        let entry = entry_bytes(&packed);
        let mut link = [0; LINK_LEN];
        let at = put(&mut link, 0, &self.next.chain.0);
        put(&mut link, at, &entry);
        self.next.chain = scorer.score(&link);
        self.next.version = WRITTEN_VERSION;
        self.next.clumps += 1;
        self.next.used += block_room(WRITTEN_VERSION, packed.len);
        let place = (STAGED_MAX - 1 - self.staged.len()) * DIRECTORY_ENTRY_LEN;
        put(&mut self.directory, place, &entry);
        let Ok(()) = self.staged.push(packed) else {
            unreachable!()
        };
    }

    /// Lets the next commit seal the arena, which counts as one of the version that is written: this
    /// program seals none of version 2. It makes no device call.
    pub fn seal(&mut self)
        requires rest { IsFalse (is_committing self.old) }
        requires version { version_counted self.old.next ≡ WRITTEN_VERSION }
        ensures { self.new ≡ with_seal self.old }
    {
        self.next.sealed = true;
    }

    /// Makes one device call of a commit of all that is staged: it writes each clump, then their
    /// directory entries, all by one call, then the idle frame of the head, syncs, writes the
    /// head's selector, syncs. Where nothing is staged, it makes the last four alone.
    ///
    /// Done is the answer to the last of them, and Fault to one that fails. The count is lent by
    /// whoever owns the arena, the same one in each call. Once a call that it counts has failed the
    /// answer is Stopped with that call's number, and nothing is done.
    pub fn advance<D: Disk>(
        &mut self,
        calls: &mut CallCount,
        disk: &mut D,
        region: Region,
    ) -> Result<Step, TwinErr>
        requires region { IsRegion region (D.size disk.old) }
        requires same { region.len ≡ self.old.len }
        requires lent { self.old.failed ≡ true → IsSome calls.old.stopped }

        // A sound disk stays so, for what the arena held or, after the last call, for that with all
        // that was staged behind it.
        ensures sound { (score_of : List ℕ → List ℕ) (old : Content) → IsTrue D.tells
            → IsSoundArena score_of self.old region old (D.bytes disk.old) (D.images disk.old)
            → IsSoundArena score_of self.new region (content_after result self.old old)
            (D.bytes disk.new) (D.images disk.new) }

        // A crash at any moment of it leaves the arena as it was or, from the selector's write on,
        // as it was or with all that was staged.
        ensures crash { (score_of : List ℕ → List ℕ) (old : Content) → IsTrue D.tells
            → IsSoundArena score_of self.old region old (D.bytes disk.old) (D.images disk.old)
            → (c : List ℕ) → WithinCall (D.images disk.old) (D.images disk.new) c
            → GivesOldOrNext (commit_calls self.old ≤ calls_made self.old + 2) score_of region
            self.old.number old (next_content self.old old) c }

        // After the last call each crash leaves the arena with all that was staged.
        ensures last { (score_of : List ℕ → List ℕ) (old : Content) → IsTrue D.tells
            → IsSoundArena score_of self.old region old (D.bytes disk.old) (D.images disk.old)
            → result ≡ Ok Step.Done → (c : List ℕ) → D.images disk.new c
            → IsArena score_of region self.old.number (next_content self.old old) c }

        // Where the count isn't stopped it makes this call, and no other.
        ensures makes { calls.old.stopped ≡ None
            → CallMade D.Disk (next_commit_call self.old region) result
            calls.old calls.new disk.old disk.new }
        ensures frame { self.old.twin.frame_len ≡ FRAME_LEN }
        ensures steps { calls.old.stopped ≡ None → ArenaAdvances result self.old self.new }
        ensures left { calls_made self.old < commit_calls self.old }
        ensures len { self.new.len ≡ self.old.len }
        ensures done { IfOk result (λ step. (step ≡ Step.Done)
            ↔ (calls_made self.old + 1 ≡ commit_calls self.old)) }

        // After the last call a read gives what every image is.
        ensures settled { result ≡ Ok Step.Done → IsSynced D.Disk disk.new }

        ensures stopped { (n : ℕ)
            → (result ≡ Err (CallError.Stopped n)) ↔ (calls.old.stopped ≡ Some n) }
        ensures faults { CountsFault is_call_fault result (D.faults disk.old) (D.faults disk.new) }
        ensures untouched { IsSome calls.old.stopped
            → (self.new ≡ self.old) × (calls.new ≡ calls.old) × (disk.new ≡ disk.old) }

        // Nothing outside the region changes.
        ensures writes { WritesWithin D.Disk region 1 disk.old disk.new }
    {
        // (so that what the arena keeps is known here)
        let _ = &self.staged;
        if let Some(call) = calls.stopped {
            return Err(TwinErr::Stopped(call));
        }
        self.make_call(calls, disk, region)
    }
}
