//! The device calls of a commit.

ghost use Rattle.std.specs.Prelude.{◌≡◌, ◌↔◌, ◌+◌, ◌^◌, ◌<◌, ◌≤◌, ℕ, List, length, IsTrue, IsSome, IsOk, IfOk, IfErr, false, None, Ok};
ghost use Rattle.vt_disk.specs.Calls.{WritesWithin};
ghost use Rattle.vt_disk.specs.DeviceCalls.{CallMade, call_of};
ghost use Rattle.vt_arena.specs.Layout.{Content, head_place, entry_bytes as entry_bytes_of};

use crate::arena::Arena;
use crate::{DIRECTORY_MAX, block_room, entries_len};
use vt_base::fields::{put, put_u8, put_u16};
use vt_base::{Bytes, Failed};
use vt_clump::Packed;
use vt_disk::{Call, CallCount, CallError, Disk, Region};
use vt_model::{ARENA_HEAD_LEN, DIRECTORY_ENTRY_LEN, WRITTEN_VERSION};
use vt_twin::{Step, TwinErr};

impl Arena {
    ghost use Rattle.vt_twin.specs.Twin.{with_change, twin_calls_made, next_call as next_head_call};
    ghost use Rattle.vt_arena.specs.Arena.{pieces, commit_calls, calls_made, ArenaAdvances, PieceAdvances, content_after, HeadAdvances};
    ghost use Rattle.vt_arena.specs.Heads.{head_frame};
    ghost use Rattle.vt_arena.specs.Sound.{IsRegion, IsSoundArena};
    ghost use Rattle.vt_arena.specs.Written.{next_commit_call, next_piece};

    /// Makes the next device call of a commit.
    pub(crate) fn make_call<D: Disk>(
        &mut self,
        calls: &mut CallCount,
        disk: &mut D,
        region: Region,
    ) -> Result<Step, TwinErr>
        requires region { IsRegion region (D.size disk.old) }
        requires same { region.len ≡ self.old.len }
        requires runs { (self.old.failed ≡ false) × (calls.old.stopped ≡ None) }
        ensures sound { (score_of : List ℕ → List ℕ) (old : Content) → IsTrue D.tells
            → IsSoundArena score_of self.old region old (D.bytes disk.old) (D.images disk.old)
            → IsSoundArena score_of self.new region (content_after result self.old old)
            (D.bytes disk.new) (D.images disk.new) }
        ensures makes { CallMade D.Disk (next_commit_call self.old region) result
            calls.old calls.new disk.old disk.new }
        ensures fault { IfErr result (λ err. err ≡ CallError.Fault) }
        ensures steps { ArenaAdvances result self.old self.new }
        ensures done { IfOk result (λ step. (step ≡ Step.Done)
            ↔ (calls_made self.old + 1 ≡ commit_calls self.old)) }
        ensures writes { WritesWithin D.Disk region 1 disk.old disk.new }

        // What is kept of the commit under way.
        ensures running { self.old.twin.failed ≡ false }
        ensures begun { (self.old.written ≤ pieces self.old)
            × (twin_calls_made self.old.twin ≤ 3)
            × (0 < twin_calls_made self.old.twin → self.old.written ≡ pieces self.old) }
    {
        if self.written < self.pieces() {
            return self.write_piece(calls, disk, region);
        }
        if !self.twin.is_changing() {
            self.begin_head();
        }
        self.advance_head(calls, disk, region)
    }

    /// Writes the next piece: the next staged clump or, behind the last one, their directory.
    fn write_piece<D: Disk>(
        &mut self,
        calls: &mut CallCount,
        disk: &mut D,
        region: Region,
    ) -> Result<Step, TwinErr>
        requires region { IsRegion region (D.size disk.old) }
        requires same { region.len ≡ self.old.len }
        requires runs { calls.old.stopped ≡ None }
        requires next { self.old.written < pieces self.old }
        ensures sound { (score_of : List ℕ → List ℕ) (old : Content) → IsTrue D.tells
            → IsSoundArena score_of self.old region old (D.bytes disk.old) (D.images disk.old)
            → IsSoundArena score_of self.new region old (D.bytes disk.new) (D.images disk.new) }
        ensures makes { CallMade D.Disk (next_piece self.old region) result
            calls.old calls.new disk.old disk.new }
        ensures fault { IfErr result (λ err. err ≡ CallError.Fault) }
        ensures steps { PieceAdvances result self.old self.new }
        ensures writes { WritesWithin D.Disk region 1 disk.old disk.new }
    {
        // (so that what the arena keeps is known here)
        let _ = &self.staged;
        let outcome = calls.make(disk, self.next_piece(region));
        self.go_on(outcome)
    }

    /// The device call that writes the next piece of a commit: a clump, or behind the last one the
    /// directory of all.
    fn next_piece(&self, region: Region) -> Call<'_>
        requires same { region.len ≡ self.now.len }
        requires end { region.start + region.len < 2 ^ 64 }
        requires next { self.now.written < pieces self.now }
        ensures { call_of result ≡ next_piece self.now region }
    {
        if self.written < self.staged.len() {
            let packed = &self.staged[self.written];
            return region.write_call(ARENA_HEAD_LEN as u64 + self.end, packed.bytes.as_slice());
        }
        let entries = &self.directory[DIRECTORY_MAX - self.staged.len() * DIRECTORY_ENTRY_LEN..];
        region.write_call(self.len - entries_len(u64::from(self.next.clumps)), entries)
    }

    /// What comes behind the write of a piece.
    fn go_on(&mut self, outcome: Result<(), Failed>) -> Result<Step, TwinErr>
        requires { self.old.written < pieces self.old }
        ensures outcome { IsOk result ↔ IsOk outcome }
        ensures fault { IfErr result (λ err. err ≡ CallError.Fault) }
        ensures steps { PieceAdvances result self.old self.new }
    {
        let Ok(()) = outcome else {
            self.failed = true;
            return Err(TwinErr::Fault);
        };
        if self.written < self.staged.len() {
            self.end += block_room(WRITTEN_VERSION, self.staged[self.written].len);
        }
        self.written += 1;
        Ok(Step::More)
    }

    /// Begins the head's change. It makes no device call.
    fn begin_head(&mut self)
        requires made { self.old.written ≡ pieces self.old }
        requires rest { self.old.twin.change ≡ None }
        ensures begun { self.new ≡ record self.old {
          twin = with_change (head_frame self.old.next) self.old.twin;
        } }
    {
        let Some(frame) = self.buffer.take() else {
            unreachable!()
        };
        let mut frame = frame.into_vec();
        self.next.encode(&mut frame);
        self.twin.begin(Bytes::from_vec(frame));
    }

    /// Makes the next call of the head's change.
    fn advance_head<D: Disk>(
        &mut self,
        calls: &mut CallCount,
        disk: &mut D,
        region: Region,
    ) -> Result<Step, TwinErr>
        requires region { IsRegion region (D.size disk.old) }
        requires same { region.len ≡ self.old.len }
        requires runs { (self.old.failed ≡ false) × (calls.old.stopped ≡ None) }
        requires begun { IsSome self.old.twin.change }
        ensures sound { (score_of : List ℕ → List ℕ) (old : Content) → IsTrue D.tells
            → IsSoundArena score_of self.old region old (D.bytes disk.old) (D.images disk.old)
            → IsSoundArena score_of self.new region (content_after result self.old old)
            (D.bytes disk.new) (D.images disk.new) }
        ensures makes { CallMade D.Disk (next_head_call self.old.twin (head_place region)) result
            calls.old calls.new disk.old disk.new }
        ensures fault { IfErr result (λ err. err ≡ CallError.Fault) }
        ensures steps { HeadAdvances result self.old self.new }
        ensures done { IfOk result (λ step. (step ≡ Step.Done)
            ↔ (twin_calls_made self.old.twin ≡ 3)) }
        ensures writes { WritesWithin D.Disk region 1 disk.old disk.new }
    {
        let head = Region {
            start: region.start,
            len: ARENA_HEAD_LEN as u64,
        };
        match self.twin.advance(calls, disk, head) {
            Ok(Step::Done) => {
                self.buffer = self.twin.idle();
                self.staged.clear();
                self.written = 0;
                self.head = self.next;
                self.end = self.next.used;
                self.head_calls = 0;
                Ok(Step::Done)
            }
            Ok(Step::More) => {
                self.head_calls += 1;
                Ok(Step::More)
            }
            Err(err) => {
                self.failed = true;
                Err(err)
            }
        }
    }
}

/// The directory entry of a clump.
pub fn entry_bytes(packed: &Packed) -> [u8; DIRECTORY_ENTRY_LEN]
    ensures score { length packed.now.score.0 ≡ 20 }
    ensures bytes { result ≡ entry_bytes_of packed.now.kind packed.now.len packed.now.score.0 }
{
    let mut bytes = [0; DIRECTORY_ENTRY_LEN];
    let at = put_u8(&mut bytes, 0, packed.kind.wire());
    let at = put_u16(&mut bytes, at, packed.len as u16);
    let at = put_u16(&mut bytes, at, packed.len as u16);
    put(&mut bytes, at, &packed.score.0);
    bytes
}
