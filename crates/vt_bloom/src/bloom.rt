//! The filter that is saved on a device, and its saves step by step.

ghost use Rattle.std.specs.Prelude.{◌≡◌, ◌⊎◌, ◌↔◌, ◌≤◌, ℕ, List, length, IsTrue, IsSome, is_some, IfOk, None, Some, Ok, Err};
ghost use Rattle.vt_twin.specs.Twin.{without_spare};
ghost use Rattle.vt_bloom.specs.Bloom.{at_end};

use crate::bits::Bits;
use crate::frame::encoded;
use crate::size::region;
use std::marker::Model;
use vt_base::Bytes;
use vt_disk::{CallCount, CallError, Disk};
use vt_twin::{Step, Twin};

/// The filter that is saved on a device: its counts and its mark, which says for how many of the
/// log's first blocks its bits are set. The bits are elsewhere in memory, and are handed to each
/// save; a crash leaves the filter of the last save or, while one is under way, of that one or the
/// next.
#[derive(Drop)]
pub struct Bloom<D: Disk> {
    pub(crate) disk: D,
    /// It has 2^m bits.
    pub(crate) m: u8,
    /// How many bits a score has.
    pub(crate) k: u8,
    /// Of how many blocks the saved bits surely are.
    pub(crate) mark: u64,
    /// The mark that the save under way brings.
    pub(crate) next: u64,
    /// The two frames on the disk.
    pub(crate) twin: Twin,
    /// The device calls of saves.
    pub(crate) calls: CallCount,
    /// What the next save is written into. The twin has it while a save is under way.
    pub(crate) frame: Option<Bytes>,
}

impl<D: Disk> Model for Bloom<D> {
    ghost use Rattle.std.specs.Prelude.{◌≡◌, ◌≤◌, length, false, None, IsSome};
    ghost use Rattle.std.specs.Option.{ForSome};
    ghost use Rattle.vt_bloom.specs.Bits.{AreCounts};
    ghost use Rattle.vt_bloom.specs.Bloom.{BloomState};
    ghost use Rattle.vt_bloom.specs.Size.{filter_frame_len, filter_len};

    ghost Value = { BloomState D };

    ghost view = { λ b. record {
      disk = b.disk;
      m = b.m;
      k = b.k;
      mark = b.mark;
      next = b.next;
      twin = b.twin;
      calls = b.calls;
    } };

    ghost invariant = { λ b. record {
      counts : AreCounts b.m b.k;
      room : filter_len b.m ≤ D.size b.disk;
      twin : b.twin.frame_len ≡ filter_frame_len b.m;
      buffer : ForSome b.frame (λ it. length it ≡ filter_frame_len b.m);
      coming : ForSome b.twin.change (λ it. length it.frame ≡ filter_frame_len b.m);
      rest : b.twin.change ≡ None → IsSome b.frame;
      runs : b.calls.stopped ≡ None → b.twin.failed ≡ false;
    } };
}

impl<D: Disk> Bloom<D> {
    ghost use Rattle.vt_base.specs.Faults.{CountsFault};
    ghost use Rattle.vt_disk.specs.Calls.{WritesWithin};
    ghost use Rattle.vt_disk.specs.DeviceCalls.{CallMade, is_call_fault};
    ghost use Rattle.vt_disk.specs.Disk.{WithinCall};
    ghost use Rattle.vt_twin.specs.Twin.{twin_calls_made, next_call, next_frame};
    ghost use Rattle.vt_bloom.specs.Bits.{AreCounts};
    ghost use Rattle.vt_bloom.specs.Bloom.{IsSoundBloom, HasOldOrNew, with_save, saved_after, BloomAdvances};
    ghost use Rattle.vt_bloom.specs.Frame.{Saved, Covers, HasSaved};
    ghost use Rattle.vt_bloom.specs.Size.{filter_region};

    /// How many bits the filter has, as a power of two.
    pub fn m(&self) -> u8
        ensures m { result ≡ self.now.m }
        ensures counts { AreCounts self.now.m self.now.k }
    {
        self.m
    }

    /// How many of them each score has.
    pub fn k(&self) -> u8
        ensures k { result ≡ self.now.k }
        ensures counts { AreCounts self.now.m self.now.k }
    {
        self.k
    }

    /// Of how many of the log's first blocks the bits are surely saved.
    pub fn mark(&self) -> u64
        ensures { result ≡ self.now.mark }
    {
        self.mark
    }

    /// Whether a save is under way. One that was stopped stays so.
    pub fn saving(&self) -> bool
        ensures { result ≡ is_some self.now.twin.change }
    {
        self.twin.is_changing()
    }

    /// The number of the device call that stopped it, if one did.
    pub fn stopped(&self) -> Option<u64>
        ensures { result ≡ self.now.calls.stopped }
    {
        self.calls.stopped
    }

    /// Gives the device back. It makes no device call.
    pub fn into_devices(self) -> D
        ensures { result ≡ self.disk }
    {
        let Bloom {
            disk,
            m: _,
            k: _,
            mark: _,
            next: _,
            twin: _,
            calls: _,
            frame: _,
        } = self;
        disk
    }

    /// Takes in the bits and the mark of the next save. It makes no device call.
    pub fn save(&mut self, bits: &Bits, mark: u64)
        requires rest { self.old.twin.change ≡ None }
        requires m { bits.now.m ≡ self.old.m }
        requires k { bits.now.k ≡ self.old.k }
        ensures begun { self.new
            ≡ with_save (record { filter = bits.now; mark = mark }) self.old }

        // A sound device stays so, for what was saved and for what now is being saved.
        ensures sound { (saved coming : Saved) → IsTrue D.tells
            → IsSoundBloom self.old saved coming (D.bytes self.old.disk) (D.images self.old.disk)
            → IsSoundBloom self.new saved (record { filter = bits.now; mark = mark })
            (D.bytes self.new.disk) (D.images self.new.disk) }
    {
        let Some(frame) = self.frame.take() else {
            unreachable!()
        };
        self.twin.begin(encoded(bits, mark, frame));
        self.next = mark;
    }

    /// Makes one device call of the save under way: it writes the idle frame, syncs it, writes the
    /// selector, syncs it.
    ///
    /// Done is the answer to the last of them, and Fault to one that fails. From then on the answer
    /// is Stopped with the number of that call, and nothing is done.
    pub fn advance(&mut self) -> Result<Step, CallError>
        requires { IsSome self.old.twin.change }

        // A sound device stays so, for the old filter or, after the last call, for the new one.
        ensures sound { (saved coming : Saved) → IsTrue D.tells
            → IsSoundBloom self.old saved coming (D.bytes self.old.disk) (D.images self.old.disk)
            → IsSoundBloom self.new (saved_after result saved coming) coming
            (D.bytes self.new.disk) (D.images self.new.disk) }

        // A crash at any moment of it leaves the old filter or, from the selector's write on, the
        // old one or the new.
        ensures crash { (saved coming : Saved) → IsTrue D.tells
            → IsSoundBloom self.old saved coming (D.bytes self.old.disk) (D.images self.old.disk)
            → (c : List ℕ) → WithinCall (D.images self.old.disk) (D.images self.new.disk) c
            → HasOldOrNew (2 ≤ twin_calls_made self.old.twin) saved coming c }

        // So where the marks of both are true, the mark of what is left is.
        ensures covered { (saved coming : Saved) (scores : List (List ℕ)) → IsTrue D.tells
            → IsSoundBloom self.old saved coming (D.bytes self.old.disk) (D.images self.old.disk)
            → Covers scores saved → Covers scores coming
            → (c : List ℕ) → WithinCall (D.images self.old.disk) (D.images self.new.disk) c
            → (left : Saved) × HasSaved left c × Covers scores left }

        // After the last call each crash leaves the new one.
        ensures last { (saved coming : Saved) → IsTrue D.tells
            → IsSoundBloom self.old saved coming (D.bytes self.old.disk) (D.images self.old.disk)
            → result ≡ Ok Step.Done → (c : List ℕ) → D.images self.new.disk c
            → HasSaved coming c }

        // Where it isn't stopped it makes the next call of its frames, and no other.
        ensures makes { self.old.calls.stopped ≡ None
            → CallMade D.Disk (next_call self.old.twin (filter_region self.old.m)) result
            self.old.calls self.new.calls self.old.disk self.new.disk }

        ensures whole { self.old.calls.stopped ≡ None
            → length (next_frame self.old.twin) ≡ self.old.twin.frame_len }
        ensures steps { BloomAdvances result self.old self.new }
        ensures done { IfOk result
            (λ step. (step ≡ Step.Done) ↔ (twin_calls_made self.old.twin ≡ 3)) }
        ensures goes_on { (result ≡ Ok Step.Done) ⊎ IsSome self.new.twin.change }
        ensures stopped { (n : ℕ)
            → (result ≡ Err (CallError.Stopped n)) ↔ (self.old.calls.stopped ≡ Some n) }
        ensures faults { CountsFault is_call_fault result
            (D.faults self.old.disk) (D.faults self.new.disk) }

        ensures untouched { IsSome self.old.calls.stopped → self.new.disk ≡ self.old.disk }

        // Nothing behind the filter changes.
        ensures within { WritesWithin D.Disk (filter_region self.old.m) 1
            self.old.disk self.new.disk }
    {
        if let Some(call) = self.calls.stopped {
            return Err(CallError::Stopped(call));
        }
        let region = region(self.m);
        let outcome = self.twin.advance(&mut self.calls, &mut self.disk, region);
        end_save(
            outcome,
            &mut self.twin,
            &mut self.frame,
            &mut self.mark,
            self.next,
        )
    }
}

/// Behind a call of a save: the last one ends it. The twin gives the frame back then, and the mark
/// of the save is the one that is saved.
fn end_save(
    outcome: Result<Step, CallError>,
    twin: &mut Twin,
    frame: &mut Option<Bytes>,
    mark: &mut u64,
    next: u64,
) -> Result<Step, CallError>
    ensures told { result ≡ outcome }
    ensures twin { twin.new ≡ at_end outcome (without_spare twin.old) twin.old }
    ensures frame { frame.new ≡ at_end outcome twin.old.spare frame.old }
    ensures mark { mark.new ≡ at_end outcome next mark.old }
{
    match outcome {
        Ok(Step::Done) => {
            *frame = twin.idle();
            *mark = next;
            Ok(Step::Done)
        }
        Ok(Step::More) => Ok(Step::More),
        Err(err) => Err(err),
    }
}
