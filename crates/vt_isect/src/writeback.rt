//! The device calls of a writeback and of a change of the head.

ghost use Rattle.std.specs.Prelude.{◌≡◌, ◌≢◌, ◌⊎◌, ◌↔◌, ◌+◌, ◌-◌, ◌%◌, ◌<◌, ◌≤◌, ℕ, List, [], length, IsTrue, IsSome, IfOk, IfErr, OnOk, Option, None, Some, Ok, Err};
ghost use Rattle.std.specs.Option.{option_map};
ghost use Rattle.vt_base.specs.Faults.{CountsFault};
ghost use Rattle.vt_base.specs.declared.place.Entry.{Entry};
ghost use Rattle.vt_disk.specs.Calls.{WritesAt, MadeCalls, IsSynced};
ghost use Rattle.vt_disk.specs.Disk.{WithinCall};
ghost use Rattle.vt_disk.specs.declared.region.Region.{Region};
ghost use Rattle.vt_model.specs.History.{History};
ghost use Rattle.vt_model.specs.Places.{Setup, bucket_count, crowd};
ghost use Rattle.vt_twin.specs.Frames.{frame_of as twin_frame, selector_bytes};
ghost use Rattle.vt_twin.specs.Twin.{twin_calls_made, with_change};
ghost use Rattle.vt_isect.specs.declared.phase.Phase.TheVariants.{WriteSelector, SyncSelectors};
ghost use Rattle.vt_isect.specs.Agreement.{KnownAgrees, LeavesAgreeing};
ghost use Rattle.vt_isect.specs.Entries.{IsOrdered};
ghost use Rattle.vt_isect.specs.Faults.{NamesDamage, is_section_fault};
ghost use Rattle.vt_isect.specs.Head.{IsHead, encoded};
ghost use Rattle.vt_isect.specs.Layout.{IsBucketPlace};
ghost use Rattle.vt_isect.specs.Merging.{IsMerged, IsDamage};
ghost use Rattle.vt_isect.specs.Remembered.{first_read};
ghost use Rattle.vt_isect.specs.Writeback.{NextCallReads};

use crate::FRAME_LEN;
use crate::entries::items;
use crate::error::ShardErr;
use crate::groups::{Member, bucket_behind};
use crate::head::{Head, encode_head};
use crate::merging::read_merged;
use crate::phase::Phase;
use crate::place::{bucket_place, frame_write, head_place, selector_write};
use crate::section::Section;
use vt_base::{Bytes, Failed};
use vt_disk::{Call, Disk, SECTOR_LEN};
use vt_model::BUCKET_ROOM;
use vt_twin::Step;

impl<D: Disk> Section<D> {
    ghost use Rattle.vt_isect.specs.declared.phase.Phase.TheVariants.{Rest, ReadSelector, ReadFrame, WriteFrame, SyncFrames, WriteSelector, SyncSelectors, ChangeHead};
    ghost use Rattle.vt_isect.specs.Section.{AreInRange, ChangesGroup, IsAtRest, IsOfGroup, PutsEntries, bucket_number as number_of, entering, entries_of};
    ghost use Rattle.vt_isect.specs.Sound.{KnownBuckets, DiskHolds, LeavesSection, KnowsEachBucket, StillNames};
    ghost use Rattle.vt_isect.specs.Writeback.{SectionAdvances, BeginsBehind, ComesNext, Completes, FindsDamage, Follows, GetsFrame, JoinsGroup, KeepsDiskSound, KeepsCovered, MakesNext, MayWrite, NextPhase, NextCallSyncs, SectionTakesStep, NextCallWrites, WritesEntryBack, calls_left};

    /// Makes one device call of what is under way. Of a writeback, for each bucket of a group: it
    /// reads the selector, unless the frame that this names is remembered, reads that frame, and
    /// writes the idle one with the bucket's entries, too. Then it syncs these frames, writes the
    /// selector of each, and syncs those. Behind the last group come the four calls of the change
    /// of the head.
    ///
    /// Done is the answer to the last of them. A fault in a read and a damaged bucket end the
    /// writeback: the groups that were completed stay so, the buckets of the one under way are as
    /// they were, and so is the head. A fault in a write or a sync stops the section: from then on
    /// the answer is Stopped with the number of that call, and nothing is done.
    pub fn advance(&mut self) -> Result<Step, ShardErr>
        requires under_way { ¬ IsAtRest self.old }

        // The disk stays sound: each bucket that the step completes has its entries in it, and each
        // other one is known as before.
        ensures sound { IsTrue D.tells → KeepsDiskSound D.Disk result self.old self.new }

        // A crash at any moment of it leaves a section as it is before the step or after it.
        ensures crash { (known : KnownBuckets) → IsTrue D.tells
            → DiskHolds D.Disk self.old known
            → KnowsEachBucket self.old known → self.old.next.first ≡ self.old.head.first
            → (knows : KnownBuckets) × Follows result self.old self.new known knows
            × ((file : List ℕ) → WithinCall (D.images self.old.disk) (D.images self.new.disk) file
            → LeavesSection self.old known file ⊎ LeavesSection self.new knows file) }

        // In state 1 that agrees with a history, as what is known does.
        ensures agrees { (score : List ℕ → List ℕ) (c : Setup) (h : History) (known : KnownBuckets)
            → IsTrue D.tells
            → DiskHolds D.Disk self.old known
            → KnownAgrees score c h self.old known
            → (knows : KnownBuckets) × Follows result self.old self.new known knows
            × ((file : List ℕ) → WithinCall (D.images self.old.disk) (D.images self.new.disk) file
            → LeavesAgreeing score c h self.old known file
            ⊎ LeavesAgreeing score c h self.new knows file) }

        // Whatever mark is covered stays so, with what is known after the step.
        ensures covers { (score : List ℕ → List ℕ) (c : Setup) (h : History)
            (known knows : KnownBuckets) → KnownAgrees score c h self.old known
            → Follows result self.old self.new known knows
            → KeepsCovered score c h result self.old self.new known knows }

        // What it writes, and that it syncs: behind that a crash leaves what a read gives.
        ensures written { IsTrue D.tells → OnOk result (NextCallWrites self.old.phase self.old
            (D.bytes self.old.disk) (D.bytes self.new.disk)) }
        ensures settled { NextCallSyncs self.old.phase self.old
            → OnOk result (IsSynced D.Disk self.new.disk) }

        ensures steps { SectionAdvances result self.old self.new }
        ensures done { IfOk result (λ step. (step ≡ Step.Done)
            ↔ ((self.old.phase ≡ ChangeHead) × (twin_calls_made self.old.head_twin ≡ 3))) }
        ensures left { OnOk result (calls_left self.new < calls_left self.old) }
        ensures ended { IfErr result (λ _. self.new.stopped ≡ None → calls_left self.new ≡ 0) }
        ensures stopped { (n : ℕ)
            → (result ≡ Err (ShardErr.Stopped n)) ↔ (self.old.stopped ≡ Some n) }

        // The entries that it puts into their buckets are those of the buckets that it completes.
        ensures wrote { (entry : Entry) → WritesEntryBack self.old self.new entry
            ↔ (Completes result self.old (number_of self.old entry)
            × IsOfGroup self.old (number_of self.old entry) entry) }

        // The frame that it begins to write has the entries of the frame that it read, and those of
        // the writeback that belong to the bucket. Damage is that of the frame that it read.
        ensures merged { (s : ℕ) → OnOk result (self.old.phase ≡ ReadFrame s
            → (read : List ℕ) × IsMerged self.old.bucket (entering self.old) read self.new.frame
            × ((region : Region) → IsTrue D.tells
            → IsBucketPlace (self.old.bucket - self.old.head.first) region
            → read ≡ twin_frame region FRAME_LEN (s % 2) (D.bytes self.old.disk))) }
        ensures differs { IfErr result NamesDamage }
        ensures damaged { (s : ℕ) → IfErr result (λ bad. bad ≢ ShardErr.Fault
            → self.old.stopped ≡ None → self.old.phase ≡ ReadFrame s
            → (read : List ℕ) × IsDamage self.old.bucket (entering self.old) read bad
            × ((region : Region) → IsTrue D.tells
            → IsBucketPlace (self.old.bucket - self.old.head.first) region
            → read ≡ twin_frame region FRAME_LEN (s % 2) (D.bytes self.old.disk))) }

        // While no bucket has more blocks than it has room for, it finds no damage.
        ensures undamaged { (score : List ℕ
            → List ℕ) (c : Setup) (h : History) (known : KnownBuckets)
            → IsTrue D.tells
            → DiskHolds D.Disk self.old known
            → KnownAgrees score c h self.old known
            → ((n : ℕ) → crowd score (bucket_count c) h n ≤ BUCKET_ROOM)
            → IfErr result (λ bad. (bad ≡ ShardErr.Fault)
            ⊎ ((n : ℕ) × (bad ≡ ShardErr.Stopped n))) }

        ensures faults { CountsFault is_section_fault result
            (D.faults self.old.disk) (D.faults self.new.disk) }

        // It makes one call or, where it is stopped, none.
        ensures calls { self.old.stopped ≡ None
            → MadeCalls D.Disk 1 self.old.disk self.new.disk }
        ensures untouched { IsSome self.old.stopped → self.new ≡ self.old }

        // Nothing changes but the place of the bucket under way, of one of the group, or of the
        // head.
        ensures writes { WritesAt D.Disk (MayWrite self.old.phase self.old) 1
            self.old.disk self.new.disk }
    {
        if let Some(call) = self.calls.stopped {
            return Err(ShardErr::Stopped(call));
        }
        self.make_call()
    }

    /// Makes the next device call of what is under way.
    fn make_call(&mut self) -> Result<Step, ShardErr>
        requires under_way { ¬ IsAtRest self.old }
        requires goes { self.old.stopped ≡ None }
        ensures step { SectionTakesStep D.Disk result self.old self.new }
        ensures merged { (s : ℕ) → OnOk result (self.old.phase ≡ ReadFrame s
            → GetsFrame D.Disk s self.old self.new) }
        ensures damaged { (s : ℕ) → IfErr result (λ bad. bad ≢ ShardErr.Fault
            → self.old.phase ≡ ReadFrame s → FindsDamage D.Disk s self.old bad) }
    {
        match self.phase {
            Phase::Rest => unreachable!(),
            Phase::ReadSelector => self.read_selector(),
            Phase::ReadFrame(selector) => self.read_frame(selector),
            Phase::WriteFrame(_)
            | Phase::SyncFrames
            | Phase::WriteSelector(_)
            | Phase::SyncSelectors => self.change_group(),
            Phase::ChangeHead => self.change_head(),
        }
    }

    /// Reads the selector of the bucket under way.
    fn read_selector(&mut self) -> Result<Step, ShardErr>
        requires phase { self.old.phase ≡ ReadSelector }
        requires goes { self.old.stopped ≡ None }
        ensures { SectionTakesStep D.Disk result self.old self.new }
    {
        self.calls.count();
        let index = self.bucket - self.head.first;
        match self.frames.read(&mut self.disk, bucket_place(index), index) {
            Ok(number) => {
                self.phase = Phase::ReadFrame(number);
                Ok(Step::More)
            }
            Err(Failed) => {
                self.end();
                Err(ShardErr::Fault)
            }
        }
    }

    /// Reads its current frame, and makes the one that has the bucket's entries, too.
    fn read_frame(&mut self, selector: u8) -> Result<Step, ShardErr>
        requires phase { self.old.phase ≡ ReadFrame selector }
        requires goes { self.old.stopped ≡ None }
        ensures step { SectionTakesStep D.Disk result self.old self.new }
        ensures merged { OnOk result (GetsFrame D.Disk selector self.old self.new) }
        ensures damaged { IfErr result (λ bad. bad ≢ ShardErr.Fault
            → FindsDamage D.Disk selector self.old bad) }
    {
        self.calls.count();
        let merged = read_merged(
            &mut self.disk,
            bucket_place(self.bucket - self.head.first),
            selector,
            self.bucket,
            &items(&self.entries)[self.framed..self.begun],
            &mut self.frame,
        );
        match merged {
            Ok(()) => {
                self.phase = Phase::WriteFrame(selector % 2);
                Ok(Step::More)
            }
            Err(bad) => {
                self.end();
                Err(bad)
            }
        }
    }

    /// Makes the write or the sync for buckets of the group that is next.
    fn change_group(&mut self) -> Result<Step, ShardErr>
        requires phase { ChangesGroup self.old.phase }
        requires goes { self.old.stopped ≡ None }
        ensures { SectionTakesStep D.Disk result self.old self.new }
    {
        // (so that what the section keeps is known here)
        let _ = &self.calls;
        self.make_next()?;
        self.come_next();
        Ok(Step::More)
    }

    /// Makes that call, and nothing else.
    fn make_next(&mut self) -> Result<(), Failed>
        requires phase { ChangesGroup self.old.phase }
        requires goes { self.old.stopped ≡ None }
        ensures { MakesNext D.Disk result self.old self.new }
    {
        match self.phase {
            Phase::WriteFrame(current) => self.write_frame(current),
            Phase::WriteSelector(member) => self.write_selector(member),
            _ => self.calls.make(&mut self.disk, Call::Sync),
        }
    }

    /// Writes the idle frame of the bucket under way.
    fn write_frame(&mut self, current: u8) -> Result<(), Failed>
        requires phase { self.old.phase ≡ WriteFrame current }
        requires goes { self.old.stopped ≡ None }
        ensures { MakesNext D.Disk result self.old self.new }
    {
        let index = self.bucket - self.head.first;
        self.calls.make(&mut self.disk, frame_write(index, 1 - current, &self.frame))
    }

    /// Writes the selector of a member of the group. Nothing is remembered of that until it is
    /// written.
    fn write_selector(&mut self, member: usize) -> Result<(), Failed>
        requires phase { self.old.phase ≡ WriteSelector member }
        requires goes { self.old.stopped ≡ None }
        ensures { MakesNext D.Disk result self.old self.new }
    {
        let Member { bucket, current } = self.group[member];
        let index = bucket - self.head.first;
        let selector = selector_naming(1 - current);
        self.frames.forget(index);
        self.calls
            .make(&mut self.disk, selector_write(index, &selector))?;
        self.frames.put(index, 1 - current);
        Ok(())
    }

    /// What comes behind it: behind the write of a frame the next bucket, or where the group is
    /// whole its syncs and selectors. Behind these its entries are in their buckets, and the next
    /// group is under way, or the head.
    fn come_next(&mut self)
        requires phase { ChangesGroup self.old.phase }
        requires goes { self.old.stopped ≡ None }
        ensures { ComesNext D.Disk self.old self.new }
    {
        match self.phase {
            Phase::WriteFrame(current) => self.join(current),
            Phase::SyncFrames => self.phase = Phase::WriteSelector(0),
            Phase::WriteSelector(member) => {
                self.phase = behind_selector(member, self.group.len());
            }
            Phase::SyncSelectors => {
                let next = self.next;
                self.end();
                self.go_on(self.begun, next);
            }
            _ => unreachable!(),
        }
    }

    /// Makes a call of the change of the head.
    fn change_head(&mut self) -> Result<Step, ShardErr>
        requires phase { self.old.phase ≡ ChangeHead }
        requires goes { self.old.stopped ≡ None }
        ensures { SectionTakesStep D.Disk result self.old self.new }
    {
        match self
            .head_twin
            .advance(&mut self.calls, &mut self.disk, head_place())
        {
            Ok(Step::More) => Ok(Step::More),
            Ok(Step::Done) => {
                self.head_frame = memory_of(self.head_twin.idle());
                self.head = self.next;
                self.phase = Phase::Rest;
                Ok(Step::Done)
            }
            // (the count isn't stopped)
            Err(_) => Err(ShardErr::Fault),
        }
    }

    /// Nothing is under way any more, and the head stays.
    fn end(&mut self)
        requires phase { PutsEntries self.old.phase }
        requires goes { self.old.stopped ≡ None }
        ensures { self.new ≡ record self.old { next = self.old.head; phase = Rest; group = [] } }
    {
        self.group.clear();
        self.next = self.head;
        self.phase = Phase::Rest;
    }

    /// Goes on with the entries behind the first so many, which are written, or where there are
    /// none with the change to this head.
    pub(crate) fn go_on(&mut self, from: usize, next: Head)
        requires rest { self.old.phase ≡ Rest }
        requires in_range { AreInRange self.old.head self.old.buckets (entries_of self.old) }
        requires ordered { (behind : Option ℕ)
            × IsOrdered self.old.head.total behind (entries_of self.old) }
        requires from { from ≤ length (entries_of self.old) }
        ensures begins { BeginsBehind from self.new }
        ensures named { (s : ℕ) → IsTrue D.tells → self.new.phase ≡ ReadFrame s
            → StillNames self.new (s % 2) (D.bytes self.new.disk) }
        ensures same { (NextCallReads self.new.phase × (self.new ≡ record self.old {
          next = next;
          phase = self.new.phase;
          written = from;
          framed = from;
          begun = self.new.begun;
          bucket = self.new.bucket;
        })) ⊎ (self.new ≡ record self.old {
          next = next;
          phase = ChangeHead;
          written = from;
          head_twin = with_change (encoded self.old.name next) self.old.head_twin;
        }) }
        ensures fits { self.new.phase ≡ ChangeHead → IsHead next }
    {
        self.written = from;
        match bucket_behind(&self.entries, self.head.total, from) {
            Some((bucket, end)) => {
                self.next = next;
                self.framed = from;
                self.begun = end;
                self.bucket = bucket;
                self.phase = first_read(self.frames.get(bucket - self.head.first));
            }
            None => self.begin_next(next),
        }
    }

    /// The bucket under way, whose current frame has this number, is one of the group. The next one
    /// is under way, or where the group is full or no entries are left the sync of its frames.
    fn join(&mut self, current: u8)
        requires phase { self.old.phase ≡ WriteFrame current }
        requires goes { self.old.stopped ≡ None }
        ensures { ComesNext D.Disk self.old self.new }
    {
        let member = Member {
            bucket: self.bucket,
            current,
        };
        let Ok(()) = self.group.push(member) else {
            unreachable!()
        };
        self.framed = self.begun;
        self.phase = Phase::SyncFrames;
        if self.group.len() == self.most {
            return;
        }
        if let Some((bucket, end)) = bucket_behind(&self.entries, self.head.total, self.begun) {
            self.begun = end;
            self.bucket = bucket;
            self.phase = first_read(self.frames.get(bucket - self.head.first));
        }
    }

    /// Begins the head's change to this one, by which a writeback ends.
    pub(crate) fn begin_next(&mut self, next: Head)
        requires rest { self.old.phase ≡ Rest }
        ensures same { self.new ≡ record self.old {
          next = next;
          phase = ChangeHead;
          head_twin = with_change (encoded self.old.name next) self.old.head_twin;
        } }
        ensures fits { IsHead next }
    {
        let Some(mut frame) = self.head_frame.take() else {
            unreachable!()
        };
        encode_head(&self.name, &next, &mut frame);
        self.next = next;
        self.head_twin.begin(Bytes::from_vec(frame));
        self.phase = Phase::ChangeHead;
    }
}

/// What is read first of a bucket of whose current frame so much is remembered: its selector, or
/// that frame.
fn first_read(current: Option<u8>) -> Phase
    ensures first { result ≡ first_read current }
    ensures reads { NextCallReads result }
{
    match current {
        Some(number) => Phase::ReadFrame(number),
        None => Phase::ReadSelector,
    }
}

/// A selector that names this frame.
fn selector_naming(number: u8) -> [u8; SECTOR_LEN]
    ensures { result ≡ selector_bytes number SECTOR_LEN }
{
    let mut selector = [0; SECTOR_LEN];
    selector[0] = number;
    selector
}

/// What comes behind the write of a member's selector, in a group of so many.
fn behind_selector(member: usize, many: usize) -> Phase
    requires { member < many }
    ensures { ((member + 1 < many) × (result ≡ WriteSelector (member + 1)))
        ⊎ ((member + 1 ≡ many) × (result ≡ SyncSelectors)) }
{
    if member + 1 < many {
        Phase::WriteSelector(member + 1)
    } else {
        Phase::SyncSelectors
    }
}

/// The memory of a frame's buffer; None where there is no buffer.
fn memory_of(frame: Option<Bytes>) -> Option<Vec<u8>>
    ensures { option_map (λ memory. memory.items) result ≡ frame }
{
    match frame {
        Some(frame) => Some(frame.into_vec()),
        None => None,
    }
}
