//! A twin, and its changes step by step.

ghost use Rattle.std.specs.Prelude.{◌≡◌, ◌↔◌, ◌+◌, ◌-◌, ◌*◌, ◌^◌, ◌%◌, ◌<◌, ◌≤◌, ℕ, List, length, IsTrue, IsSome, is_some, is_none, IfOk, IfErr, IsOk, true, None, Some, Ok, Err};

use crate::Step;
use crate::calls::{Stage, left, next, selector_call, selector_naming};
use std::marker::Model;
use vt_base::{Bytes, Failed};
use vt_disk::{BLOCK_LEN, Call, CallCount, CallError, Disk, Region};

/// Why a step of a change made no device call that succeeded.
pub type TwinErr = CallError;

/// A change under way: how far it has come, and the frame that it brings.
#[derive(Drop)]
struct Pending {
    stage: Stage,
    frame: Bytes,
}

/// A frame that changes whole: one of two frames of a region is current, and a change writes the
/// other one and then the selector that names it.
///
/// It holds no frame but the one of a change. A call that reaches the device is handed the device
/// and the region, the same one each time.
#[derive(Drop)]
pub struct Twin {
    /// How many bytes each of the two frames has.
    frame_len: u64,
    /// The number of the current frame, 0 or 1.
    current: u8,
    /// The change under way.
    pending: Option<Pending>,
    /// The buffer of the last change's frame, until it is handed back.
    spare: Option<Bytes>,
    /// Whether a call of a change failed: then no more are made.
    failed: bool,
}

impl Model for Twin {
    ghost use Rattle.std.specs.Prelude.{◌≡◌, ◌<◌, length, None};
    ghost use Rattle.std.specs.Option.{ForSome, option_map};
    ghost use Rattle.vt_twin.specs.Twin.{TwinState};

    ghost Value = { TwinState };

    ghost use Rattle.vt_twin.specs.Calls.{stage_number};

    ghost view = { λ t. record {
      frame_len = t.frame_len;
      current = t.current;
      change = option_map (λ it. record { frame = it.frame; made = stage_number it.stage })
          t.pending;
      spare = t.spare;
      failed = t.failed;
    } };

    ghost invariant = { λ t. (t.current < 2)
        × ForSome t.pending (λ it. length it.frame ≡ t.frame_len)
        × ForSome t.pending (λ _. t.spare ≡ None) };
}

impl Twin {
    ghost use Rattle.vt_twin.specs.declared.calls.Stage.{Stage};
    ghost use Rattle.vt_twin.specs.Calls.{stage_number};
    ghost use Rattle.vt_disk.specs.Calls.{WritesWithin};
    ghost use Rattle.vt_base.specs.Faults.{CountsFault};
    ghost use Rattle.vt_disk.specs.DeviceCalls.{CallMade, call_of, is_call_fault};
    ghost use Rattle.vt_disk.specs.Disk.{WithinCall};
    ghost use Rattle.vt_twin.specs.Frames.{FitsTwin, frame_of, current_frame, selector_bytes};
    ghost use Rattle.vt_twin.specs.Twin.{fresh, with_change, without_spare, twin_calls_made, next_frame, next_call, TwinAdvances};
    ghost use Rattle.vt_twin.specs.Sound.{IsSoundTwin, GivesOldOrNew, frame_after};

    /// A twin with frames of `frame_len` bytes whose current one is named by this first byte of its
    /// selector: frame 0 by an even byte, frame 1 by an odd one. It makes no device call.
    ///
    /// A disk is sound for it where every image names that frame and has it as it is read.
    pub fn resume(frame_len: u64, selector: u8) -> Twin
        ensures { result ≡ fresh frame_len (selector % 2) }
    {
        Twin {
            frame_len,
            current: selector % 2,
            pending: None,
            spare: None,
            failed: false,
        }
    }

    /// The current frame's number, 0 or 1. It begins at this many frames' lengths in the region.
    pub fn current(&self) -> u8
        ensures number { result ≡ self.now.current }
        ensures bound { result < 2 }
    {
        self.current
    }

    /// Whether a change is under way. One of which a call failed stays so.
    pub fn is_changing(&self) -> bool
        ensures { result ≡ is_some self.now.change }
    {
        self.pending.is_some()
    }

    /// How many device calls of the change under way are still to succeed: 4 of one that was begun,
    /// 1 before the last, 0 where none is under way.
    pub fn calls_left(&self) -> u64
        ensures under_way { IsSome self.now.change → result + twin_calls_made self.now ≡ 4 }
        ensures some { IsSome self.now.change → 0 < result }
        ensures rest { self.now.change ≡ None → result ≡ 0 }
    {
        match &self.pending {
            Some(pending) => left(pending.stage),
            None => 0,
        }
    }

    /// Takes in the frame of the next change. It makes no device call.
    pub fn begin(&mut self, frame: Bytes)
        requires rest { self.old.change ≡ None }
        requires whole { length frame ≡ self.old.frame_len }
        ensures { self.new ≡ with_change frame self.old }
    {
        self.pending = Some(Pending {
            stage: Stage::WriteFrame,
            frame,
        });
        self.spare = None;
    }

    /// Hands back the last change's buffer, once, where there is one. While a change is under way
    /// there is none.
    pub fn idle(&mut self) -> Option<Bytes>
        ensures buffer { result ≡ self.old.spare }
        ensures under_way { IsSome self.old.change → result ≡ None }
        ensures same { self.new ≡ without_spare self.old }
    {
        self.spare.take()
    }

    /// Makes one device call of the change under way: it writes the idle frame, syncs it, writes
    /// the selector, syncs it.
    ///
    /// Done is the answer to the last of them, and Fault to one that fails. The count is lent by
    /// whoever owns the twin, the same one in each call. Once a call that it counts has failed the
    /// answer is Stopped with that call's number, and nothing is done.
    pub fn advance<D: Disk>(
        &mut self,
        calls: &mut CallCount,
        disk: &mut D,
        region: Region,
    ) -> Result<Step, TwinErr>
        requires under_way { IsSome self.old.change }
        requires lent { self.old.failed ≡ true → IsSome calls.old.stopped }
        requires room { FitsTwin region self.old.frame_len (D.size disk.old) }

        // A sound disk stays so, for the old frame or, after the last call, for the new one.
        ensures sound { (old : List ℕ) → IsTrue D.tells
            → IsSoundTwin self.old region old (D.bytes disk.old) (D.images disk.old)
            → IsSoundTwin self.new region (frame_after result self.old old)
            (D.bytes disk.new) (D.images disk.new) }

        // A crash at any moment of it leaves the old frame or, from the selector's write on, the
        // old one or the new.
        ensures crash { (old : List ℕ) → IsTrue D.tells
            → IsSoundTwin self.old region old (D.bytes disk.old) (D.images disk.old)
            → (c : List ℕ) → WithinCall (D.images disk.old) (D.images disk.new) c
            → GivesOldOrNew (2 ≤ twin_calls_made self.old) region self.old.frame_len
            old (next_frame self.old) c }

        // After the last call each crash leaves the new one.
        ensures last { (old : List ℕ) → IsTrue D.tells
            → IsSoundTwin self.old region old (D.bytes disk.old) (D.images disk.old)
            → result ≡ Ok Step.Done → (c : List ℕ) → D.images disk.new c
            → current_frame region self.old.frame_len c ≡ next_frame self.old }

        // Whatever the answer, the current frame is read whole: the old one, and after the last
        // call the new one.
        ensures read { (old : List ℕ) → IsTrue D.tells
            → IsSoundTwin self.old region old (D.bytes disk.old) (D.images disk.old)
            → frame_of region self.new.frame_len self.new.current (D.bytes disk.new)
            ≡ frame_after result self.old old }

        // Where the count isn't stopped it makes this call, and no other.
        ensures makes { calls.old.stopped ≡ None
            → CallMade D.Disk (next_call self.old region) result
            calls.old calls.new disk.old disk.new }
        ensures whole { calls.old.stopped ≡ None
            → length (next_frame self.old) ≡ self.old.frame_len }
        ensures steps { calls.old.stopped ≡ None → TwinAdvances result self.old self.new }
        ensures len { self.new.frame_len ≡ self.old.frame_len }
        ensures done { IfOk result (λ step. (step ≡ Step.Done) ↔ (twin_calls_made self.old ≡ 3)) }
        ensures stopped { (n : ℕ)
            → (result ≡ Err (CallError.Stopped n)) ↔ (calls.old.stopped ≡ Some n) }
        ensures faults { CountsFault is_call_fault result (D.faults disk.old) (D.faults disk.new) }
        ensures untouched { IsSome calls.old.stopped
            → (self.new ≡ self.old) × (calls.new ≡ calls.old) × (disk.new ≡ disk.old) }

        // Nothing outside the region changes.
        ensures within { WritesWithin D.Disk region 1 disk.old disk.new }
    {
        if let Some(call) = calls.stopped {
            return Err(TwinErr::Stopped(call));
        }
        let selector = selector_naming(1 - self.current);
        let outcome = calls.make(disk, self.next_call(region, &selector));
        self.go_on(outcome)
    }

    /// The next device call of the change under way, by a selector that names the idle frame.
    fn next_call<'a>(&'a self, region: Region, selector: &'a [u8; BLOCK_LEN]) -> Call<'a>
        requires under_way { IsSome self.now.change }
        requires end { region.start + region.len < 2 ^ 64 }
        requires least { 2 * self.now.frame_len < region.len }
        requires most { region.len ≤ 2 * self.now.frame_len + BLOCK_LEN }
        requires names { selector.now ≡ selector_bytes (1 - self.now.current) BLOCK_LEN }
        ensures call { call_of result ≡ next_call self.now region }
        ensures stage { (stage : Stage) × (twin_calls_made self.now ≡ stage_number stage) }
        ensures whole { length (next_frame self.now) ≡ self.now.frame_len }
    {
        let Some(Pending { stage, frame }) = &self.pending else {
            unreachable!()
        };
        let len = self.frame_len;
        match stage {
            Stage::WriteFrame => region.write_call(
                len * u64::from(1 - self.current),
                frame.as_slice(),
            ),
            Stage::WriteSelector => selector_call(region, len, 1 - self.current, selector),
            Stage::SyncFrame | Stage::SyncSelector => Call::Sync,
        }
    }

    /// What comes behind the next call of the change under way.
    fn go_on(&mut self, outcome: Result<(), Failed>) -> Result<Step, TwinErr>
        requires { IsSome self.old.change }
        ensures outcome { IsOk result ↔ IsOk outcome }
        ensures fault { IfErr result (λ err. err ≡ CallError.Fault) }
        ensures steps { TwinAdvances result self.old self.new }
        ensures done { IfOk result (λ step. (step ≡ Step.Done) ↔ (twin_calls_made self.old ≡ 3)) }
    {
        let Ok(()) = outcome else {
            self.failed = true;
            return Err(TwinErr::Fault);
        };
        let Some(Pending { stage, frame }) = self.pending.take() else {
            unreachable!()
        };
        match next(stage) {
            Some(stage) => {
                self.pending = Some(Pending { stage, frame });
                Ok(Step::More)
            }
            None => {
                self.current = 1 - self.current;
                self.spare = Some(frame);
                Ok(Step::Done)
            }
        }
    }
}
