//! Committing what is queued, one device call at a time.

ghost use Rattle.std.specs.Prelude.{◌≡◌, ◌↔◌, ◌⊎◌, ◌+◌, ◌*◌, ◌<◌, ◌≤◌, ℕ, List, Some, None, Ok, Err, IsTrue, IsFalse, length, if◌then◌else◌};
ghost use Rattle.vt_model.specs.History.{History};
ghost use Rattle.vt_arena.specs.Arena.{calls_made, commit_calls, is_committing};

use crate::error::{LogErr, Progress};
use crate::log::Log;
use crate::queue::Queue;
use vt_arena::Arena;
use vt_base::Scorer;
use vt_disk::Disk;
use vt_twin::Step;

impl<D: Disk, S: Scorer> Log<D, S> {
    ghost use Rattle.vt_log.specs.Committing.{Stages, IsCommitReady, TakesAllWaiting, LogTakesStep, Prepares, MakesOneCall};
    ghost use Rattle.vt_log.specs.Log.{LogState, queued, packed_of};
    ghost use Rattle.vt_log.specs.Queue.{WaitsFor};
    ghost use Rattle.vt_log.specs.Owed.{owed, seal_calls};
    ghost use Rattle.vt_log.specs.Sound.{IsSoundLog, AreWithinCallOf, LogStandsForPrefix};

    /// How many calls of `advance` are left at most until nothing is queued: at most six for each
    /// queued block, and six. Each that makes a device call lowers it.
    pub fn owed(&self) -> u64
        ensures owed { result ≡ owed self.now }
        ensures idle { (result ≡ 0) ↔ (queued self.now ≡ 0) }
        ensures most { result ≤ 6 * queued self.now + 6 }
    {
        let waiting = self.queue.waiting() as u64;
        let commit = if self.arena.is_sealing() || !self.arena.staged().is_empty() {
            self.arena.calls_left()
        } else {
            0
        };
        // 6: a commit of that block alone, its clump, its directory entry and the head's 4.
        commit + 6 * waiting + self.seal_calls()
    }

    /// How many calls are owed to seal the arena, beside those of a commit that is under way.
    fn seal_calls(&self) -> u64
        ensures { result ≡ (if self.now.arena.next.sealed then 0
            else seal_calls self.now.committing self.now.queue.waiting) }
    {
        match self.queue.next_arena() {
            Some(arena) if arena != self.committing && !self.arena.is_sealing() => 4,
            _ => 0,
        }
    }

    /// Makes one device call: the next one of the commit under way or, where there is none, the
    /// first of a commit of all that waits for the same arena. Where a block waits for the next
    /// arena, the commit seals this one.
    ///
    /// Idle is the answer where nothing is queued. A commit whose last call is made answers
    /// Durable, with how many blocks are committed then; one that only seals does too. Fault says
    /// that the device call failed: the log is stopped then, and each further call answers Stopped.
    pub fn advance(&mut self) -> Result<Progress, LogErr>
        // For each history for which the disks are sound they stay so. It isn't changed.
        ensures sound { (h : History) → IsTrue D.tells
            → IsSoundLog S.score_of D.Disk self.old h → IsSoundLog S.score_of D.Disk self.new h }

        // A crash at any moment of the call leaves disks that, taken together, stand for a prefix
        // of it that has all durable blocks.
        ensures crash { (h : History) → IsTrue D.tells
            → IsSoundLog S.score_of D.Disk self.old h
            → (files : List (List ℕ)) → AreWithinCallOf D.Disk self.old.disks self.new.disks files
            → LogStandsForPrefix S.score_of self.old files h }

        // So much holds whatever the disks have.
        ensures step { LogTakesStep D.Disk result self.old self.new }
    {
        if let Some(call) = self.calls.stopped {
            return Err(LogErr::Stopped(call));
        }
        if self.queue.is_empty() {
            return Ok(Progress::Idle);
        }
        self.stage_commit();
        self.make_call()
    }

    /// Stages a commit, where none is under way.
    fn stage_commit(&mut self)
        requires { 0 < queued self.old }
        ensures prepares { Prepares self.old self.new }
        ensures sound { (h : History) → IsSoundLog S.score_of D.Disk self.old h
            → IsSoundLog S.score_of D.Disk self.new h }
    {
        if !self.arena.is_committing() {
            self.stage_all();
        }
    }

    /// Stages all that waits for the arena, and asks for its seal where a block waits for the next
    /// one.
    fn stage_all(&mut self)
        requires rest { IsFalse (is_committing self.old.arena) }
        requires some { 0 < queued self.old }
        ensures same { self.new
            ≡ record self.old { arena = self.new.arena; queue = self.new.queue } }
        ensures places { self.new.queue.places ≡ self.old.queue.places }
        ensures packed { packed_of self.new ≡ packed_of self.old }
        ensures ready { IsCommitReady self.new }
        ensures batch { TakesAllWaiting self.new }
        ensures owed { owed self.new ≤ owed self.old }
        ensures still { IsFalse (is_committing self.new.arena) }
        ensures sound { (h : History) → IsSoundLog S.score_of D.Disk self.old h
            → IsSoundLog S.score_of D.Disk self.new h }
    {
        while self.stage_next() {}
        if self.queue.waiting() > 0 {
            self.arena.seal();
        }
    }

    /// Stages the block that waits longest, if it goes to the arena. Whether it did.
    fn stage_next(&mut self) -> bool
        requires rest { IsFalse (is_committing self.old.arena) }
        ensures stages { Stages self.old self.new }
        ensures fewer { IsTrue result
            → length self.new.queue.waiting + 1 ≡ length self.old.queue.waiting }
        ensures none { IsFalse result → (self.new ≡ self.old)
            × ¬ WaitsFor self.old.committing self.old.queue.waiting }
        ensures sound { (h : History) → IsSoundLog S.score_of D.Disk self.old h
            → IsSoundLog S.score_of D.Disk self.new h }
    {
        match self.queue.take_for(self.committing) {
            Some(packed) => {
                self.arena.stage(&self.scorer, packed);
                true
            }
            None => false,
        }
    }

    /// Makes the next device call of the commit that is staged. It fails where the call does, and
    /// the log is stopped then.
    fn make_call(&mut self) -> Result<Progress, LogErr>
        requires runs { self.old.stopped ≡ None }
        requires some { 0 < queued self.old }
        requires ready { IsCommitReady self.old }
        ensures { MakesOneCall S.score_of D.Disk self.old self.new result }
    {
        let blocks = self.arena.staged().len();
        let at = self.committing as usize;
        let r = self.layout.as_slice()[at];
        let disk = &mut self.parts[r.part as usize].disk;
        match self.arena.advance(&mut self.calls, disk, r.region) {
            Ok(Step::More) => Ok(Progress::Step),
            Ok(Step::Done) => {
                self.queue.drop_committed(blocks);
                self.durable += blocks as u64;
                self.heads[at].head = self.arena.head();
                let sealed = self.arena.is_sealing();
                if !sealed {
                    return Ok(Progress::Durable(self.durable));
                }
                self.committing += 1;
                let len = self.layout.as_slice()[at + 1].region.len;
                self.arena.move_to(len, self.heads[at + 1]);
                Ok(Progress::Durable(self.durable))
            }
            // (the count isn't stopped)
            Err(_) => Err(LogErr::Fault),
        }
    }
}
