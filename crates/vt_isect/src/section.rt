//! A section that is mounted.

ghost use Rattle.std.specs.Prelude.{◌≡◌, ◌≢◌, ◌⊎◌, ◌↔◌, ◌+◌, ◌-◌, ◌*◌, ◌^◌, ◌<◌, ◌≤◌, ℕ, List, [], length, replicate, slice_get, IsTrue, IfOk, IfErr, IfSome, IsOk, OnOk, None, Some, vec_capacity};
ghost use Rattle.std.specs.List.{Contains};
ghost use Rattle.vt_base.specs.Faults.{HasCause, CountsFault};
ghost use Rattle.vt_base.specs.declared.place.Entry.{Entry};
ghost use Rattle.vt_bucket.specs.Buckets.{number_of_bucket, bucket_entries};
ghost use Rattle.vt_bucket.specs.Frame.{IsBucketFrame};
ghost use Rattle.vt_disk.specs.Calls.{OnlyReads, MadeCalls};
ghost use Rattle.vt_disk.specs.declared.region.Region.{Region};
ghost use Rattle.vt_model.specs.History.{History};
ghost use Rattle.vt_model.specs.Places.{Setup};
ghost use Rattle.vt_twin.specs.Frames.{current_frame, named_number};
ghost use Rattle.vt_twin.specs.Twin.{fresh, twin_calls_made, next_frame};
ghost use Rattle.vt_isect.specs.declared.groups.Member.{Member};
ghost use Rattle.vt_isect.specs.Agreement.{KnownAgrees, IsMarkCovered, IsEntryOfBlock, NoOthers};
ghost use Rattle.vt_isect.specs.Head.{IsHeadFrame, encoded};
ghost use Rattle.vt_isect.specs.Layout.{IsBucketPlace, InRange};
ghost use Rattle.vt_isect.specs.Entries.{EntriesState, Orders};
ghost use Rattle.vt_isect.specs.Faults.{NamesDamage, is_section_fault};
ghost use Rattle.vt_isect.specs.Merging.{IsFaultyFrame};

use crate::entries::{Entries, items};
use crate::error::ShardErr;
use crate::groups::{Member, member_of};
use crate::head::Head;
use crate::merging::decode_bucket;
use crate::mounting::Opened;
use crate::phase::Phase;
use crate::place::{bucket_number, bucket_place};
use crate::remembered::Remembered;
use crate::{BUCKET_PLACE_LEN, FRAME_LEN, GROUP_MAX, HEAD_PLACE_LEN};
use std::marker::Model;
use std::sync::ledger::Ledger;
use vt_base::{Entry, Failed, Steps};
use vt_bucket::Bucket;
use vt_disk::{CallCount, Disk, NAME_LEN};
use vt_twin::Twin;

/// An index section on its disk: a head, and buckets of entries by their scores.
///
/// A writeback puts entries into their buckets and then raises the head's mark, by `begin_file` and
/// one `advance` for each device call.
#[derive(Drop)]
pub struct Section<D: Disk> {
    pub(crate) disk: D,
    /// How many buckets its disk has room for.
    pub(crate) buckets: u32,
    /// The section's name, as the head has it: filled up with zeros.
    pub(crate) name: [u8; NAME_LEN],
    /// The head as it stands on the disk.
    pub(crate) head: Head,
    /// The head that it gets by what is under way.
    pub(crate) next: Head,
    /// From here to `most`: what is under way, a writeback bucket by bucket and the head's change.
    pub(crate) phase: Phase,
    /// The entries of the writeback under way, or the memory for them until it is handed back.
    pub(crate) entries: Option<Entries>,
    /// How many of the entries are in their buckets: the first ones.
    pub(crate) written: usize,
    /// How many are there or in a frame of the group.
    pub(crate) framed: usize,
    /// How many are there or on the way into the bucket under way.
    pub(crate) begun: usize,
    /// The number of the bucket under way, over all sections.
    pub(crate) bucket: u32,
    /// The frame that it gets.
    pub(crate) frame: Vec<u8>,
    /// The buckets whose idle frames were written and wait for one sync.
    pub(crate) group: Vec<Member>,
    /// How many these may be.
    pub(crate) most: usize,
    /// The two frames of the head on the disk.
    pub(crate) head_twin: Twin,
    /// The buffer of the head's frame, but where a change has it.
    pub(crate) head_frame: Option<Vec<u8>>,
    /// The number of each bucket's current frame, once that was read or written.
    pub(crate) frames: Remembered,
    /// The device calls of `advance`.
    pub(crate) calls: CallCount,
}

impl<D: Disk> Model for Section<D> {
    ghost use Rattle.std.specs.Prelude.{vec_capacity};
    ghost use Rattle.std.specs.Option.{option_map};
    ghost use Rattle.vt_isect.specs.Section.{SectionState, IsWell};

    ghost Value = { SectionState D };

    ghost use Rattle.vt_isect.specs.View.{state_of};

    ghost view = { state_of };

    ghost invariant = { λ s. IsWell D.Disk (D.size s.disk) (state_of s)
        (option_map (λ frame. frame.items) s.head_frame)
        (vec_capacity s.group) s.frames };
}

impl<D: Disk> Section<D> {
    ghost use Rattle.vt_isect.specs.declared.phase.Phase.TheVariants.{Rest, ReadSelector, ChangeHead};
    ghost use Rattle.vt_isect.specs.Section.{SectionState, AreInRange, IsAtRest, IsChanging, IsIdleSection, IsMember, IsTodo, PutsEntries, bucket_under_way, entries_of, most_after, mounted_section};
    ghost use Rattle.vt_isect.specs.Sound.{KnownBuckets, DiskHolds, IsReadFrom};
    ghost use Rattle.vt_isect.specs.Writeback.{BeginsBehind, calls_left, later};

    /// A section as it was found on its disk, with nothing under way.
    pub(crate) fn new(disk: D, buckets: u32, opened: Opened) -> Self
        requires room { HEAD_PLACE_LEN + BUCKET_PLACE_LEN * buckets ≤ D.size disk }
        requires name { length opened.name ≡ NAME_LEN }
        requires head_frame { length opened.head_frame.items ≡ FRAME_LEN }
        requires frame { opened.frame.items ≡ replicate FRAME_LEN 0 }
        requires group { (opened.group.items ≡ []) × (GROUP_MAX ≤ vec_capacity opened.group) }
        requires room_for_frames { buckets ≤ length opened.frames }
        requires frames { (j : ℕ) → j < length opened.frames
            → slice_get opened.frames j ≡ Some None }
        requires twin { opened.twin ≡ fresh FRAME_LEN opened.twin.current }
        ensures { result ≡ mounted_section disk buckets opened.name opened.head opened.twin.current }
    {
        let Opened {
            twin,
            name,
            head,
            head_frame,
            frame,
            group,
            frames,
        } = opened;
        Section {
            disk,
            buckets,
            name,
            head,
            next: head,
            phase: Phase::Rest,
            entries: None,
            written: 0,
            framed: 0,
            begun: 0,
            bucket: 0,
            frame,
            group,
            most: GROUP_MAX,
            head_twin: twin,
            head_frame: Some(head_frame),
            frames,
            calls: CallCount::new(),
        }
    }

    /// The section's name, with the zeros that fill it up.
    pub fn name(&self) -> &[u8]
        ensures name { result.now ≡ self.now.name }
        ensures len { length result.now ≡ NAME_LEN }
    {
        &self.name
    }

    /// What its head says.
    pub fn head(&self) -> Head
        ensures { result ≡ self.now.head }
    {
        self.head
    }

    /// How many blocks of the log surely have their entries in the index: each block below it that
    /// belongs to this section has its entry.
    pub fn mark(&self) -> u64
        ensures { result ≡ self.now.head.mark }
    {
        self.head.mark
    }

    /// How many buckets it has. They are numbered from its head's `first` on.
    pub fn buckets(&self) -> u32
        ensures { result ≡ self.now.buckets }
    {
        self.buckets
    }

    /// Whether it has the bucket of this number, over all sections.
    pub fn has_bucket(&self, number: u32) -> bool
        ensures { IsTrue result ↔ InRange self.now.head self.now.buckets number }
    {
        number >= self.head.first
            && u64::from(number) < u64::from(self.head.first) + u64::from(self.buckets)
    }

    /// Whether it has the buckets of these entries.
    pub fn has_buckets(&self, entries: &[Entry]) -> bool
        ensures { IsTrue result ↔ AreInRange self.now.head self.now.buckets entries.now }
    {
        for entry in entries {
            if !self.has_bucket(bucket_number(self.head.total, &entry.key.score)) {
                return false;
            }
        }
        true
    }

    /// Whether a writeback or a change of the head is under way. One that was stopped stays so.
    pub fn is_changing(&self) -> bool
        ensures under_way { IsTrue result ↔ ¬ IsAtRest self.now }
        ensures left { IsTrue result ↔ (0 < calls_left self.now) }
        ensures idle { IsAtRest self.now → IsIdleSection self.now }
    {
        self.phase != Phase::Rest
    }

    /// The number of the bucket that a writeback is putting entries into, if there is one.
    pub fn bucket_under_way(&self) -> Option<u32>
        ensures bucket { result ≡ bucket_under_way self.now.phase self.now.bucket }
        ensures in_range { IfSome result (InRange self.now.head self.now.buckets) }
    {
        match self.phase {
            Phase::ReadSelector | Phase::ReadFrame(_) | Phase::WriteFrame(_) => Some(self.bucket),
            _ => None,
        }
    }

    /// How many device calls what is under way makes at most: four for the head, two syncs for each
    /// group, and two reads and two writes for each bucket. There are no more of these than entries
    /// behind the bucket under way, and that one.
    pub fn calls_left(&self) -> u64
        ensures { result ≡ calls_left self.now }
    {
        let group = self.group.len() as u64;
        match self.phase {
            Phase::Rest => 0,
            // 6: a later bucket's reads, writes and syncs, 2 each; 10: this one's and the head's 4.
            Phase::ReadSelector => 6 * self.later() + group + 10,
            Phase::ReadFrame(_) => 6 * self.later() + group + 9,
            Phase::WriteFrame(_) => 6 * self.later() + group + 8,
            // group: a selector for each of its buckets; 6: its 2 syncs and the head's 4.
            Phase::SyncFrames => 6 * self.later() + group + 6,
            Phase::WriteSelector(member) => 6 * self.later() + (group - member as u64) + 5,
            Phase::SyncSelectors => 6 * self.later() + 5,
            Phase::ChangeHead => self.head_twin.calls_left(),
        }
    }

    /// How many entries stand behind those of the bucket under way.
    fn later(&self) -> u64
        requires { PutsEntries self.now.phase }
        ensures later { result ≡ later self.now }
        ensures most { 6 * result + GROUP_MAX + 10 < 2 ^ 64 }
    {
        (items(&self.entries).len() - self.begun) as u64
    }

    /// The entries of the writeback that is under way or was the last, in the order in which they
    /// are put into their buckets, until they are handed back.
    pub fn entries(&self) -> &[Entry]
        ensures { result.now ≡ entries_of self.now }
    {
        items(&self.entries)
    }

    /// How many of those entries, from the first on, are in their buckets. A step puts those into
    /// theirs that stand between the count before it and the one behind it.
    pub fn written(&self) -> usize
        ensures count { result ≡ self.now.written }
        ensures most { PutsEntries self.now.phase → result ≤ length (entries_of self.now) }
    {
        self.written
    }

    /// The number of the device call that stopped it, if one did.
    pub fn stopped(&self) -> Option<u64>
        ensures { result ≡ self.now.stopped }
    {
        self.calls.stopped
    }

    /// Gives the disk back.
    pub fn into_devices(self) -> D
        ensures { result ≡ self.disk }
    {
        self.disk
    }

    /// The entries of a bucket, by its number over all sections.
    ///
    /// It reads the bucket's current frame, and no other, and before it the selector that names
    /// this, unless that was read or written before. While a bucket is being changed it gives what
    /// the bucket had before.
    pub fn bucket<L: Ledger>(
        &mut self,
        number: u32,
        steps: &mut Steps<L>,
    ) -> Result<Bucket, ShardErr>
        requires { InRange self.old.head self.old.buckets number }

        // It gives exactly what is known of the bucket, and where something is known it finds no
        // damage.
        ensures found { (known : KnownBuckets) (entries : List Entry) → IfOk result (λ bucket.
            IsTrue D.tells → DiskHolds D.Disk self.old known
            → known number ≡ Some entries → bucket_entries bucket ≡ entries) }
        ensures undamaged { (known : KnownBuckets) (entries : List Entry) → IsTrue D.tells
            → DiskHolds D.Disk self.old known → known number ≡ Some entries
            → IfErr result (λ bad. bad ≡ ShardErr.Fault) }

        // Else too it gives what the frame that it reads spells, and damage is a fault of that.
        ensures number { IfOk result (λ bucket. number_of_bucket bucket ≡ number) }
        ensures spelled { IfOk result (λ bucket. (frame : List ℕ)
            × IsBucketFrame number (bucket_entries bucket) frame
            × ((region : Region) → IsTrue D.tells
            → IsBucketPlace (number - self.old.head.first) region
            → IsReadFrom self.old number region (D.bytes self.old.disk) frame)) }
        ensures differs { IfErr result NamesDamage }
        ensures damaged { IfErr result (λ bad. bad ≢ ShardErr.Fault → (frame : List ℕ)
            × IsFaultyFrame number frame bad
            × ((region : Region) → IsTrue D.tells
            → IsBucketPlace (number - self.old.head.first) region
            → IsReadFrom self.old number region (D.bytes self.old.disk) frame)) }
        ensures faults { CountsFault is_section_fault result
            (D.faults self.old.disk) (D.faults self.new.disk) }

        // It changes nothing, and reads one bucket frame at most.
        ensures same { self.new ≡ record self.old { disk = self.new.disk } }
        ensures reads { OnlyReads D.Disk 2 self.old.disk self.new.disk }
        ensures cost { OnOk result (steps.new ≡ steps.old + 1) }
        ensures cost_of_damage { IfErr result (λ bad. bad ≢ ShardErr.Fault
            → steps.new ≡ steps.old + 1) }
        ensures least_cost { steps.old ≤ steps.new }
        ensures most_cost { steps.new ≤ steps.old + 1 }

        // It reads the selector once at most, and never of a bucket that is being changed, and
        // counts a step exactly where it reads a frame.
        ensures calls { ¬ IsChanging self.old number
            → MadeCalls D.Disk (steps.new - steps.old) self.old.disk self.new.disk
            ⊎ MadeCalls D.Disk (1 + (steps.new - steps.old)) self.old.disk self.new.disk }
        ensures calls_of_change { IsChanging self.old number
            → MadeCalls D.Disk 1 self.old.disk self.new.disk × (steps.new ≡ steps.old + 1) }
    {
        let place = bucket_place(number - self.head.first);
        let current = self.current_number(number)?;
        let mut frame = [0; FRAME_LEN];
        steps.tick();
        place.read_at(
            &mut self.disk,
            FRAME_LEN as u64 * u64::from(current),
            &mut frame,
        )?;
        decode_bucket(&frame, number)
    }

    /// Takes in entries that are to be written to their buckets, and the mark that the head gets
    /// behind them. It makes no device call. The entries need no order, and it puts them into that
    /// of their buckets, first those of the buckets behind this one and then the others; of two
    /// with one key one is kept. Entries of an earlier writeback that `idle` hasn't handed back are
    /// freed.
    ///
    /// Up to 64 buckets are written together, and one at a time where the last writeback ended
    /// early at a bucket: so a damaged one keeps no other from being written.
    pub fn begin_file(&mut self, mut entries: Entries, mark: u64, behind: Option<u32>)
        requires rest { IsAtRest self.old }
        requires in_range { AreInRange self.old.head self.old.buckets entries.items }
        ensures begins { BeginsBehind 0 self.new }
        ensures left { calls_left self.new ≤ 6 * length entries.items + 4 }
        ensures entries { (ordered : EntriesState) × (self.new.entries ≡ Some ordered)
            × Orders self.old.head.total behind entries ordered }
        ensures next { self.new.next ≡ record self.old.head { mark = mark } }
        ensures same { self.new ≡ record self.old {
          next = self.new.next;
          phase = self.new.phase;
          entries = self.new.entries;
          written = self.new.written;
          framed = self.new.framed;
          begun = self.new.begun;
          bucket = self.new.bucket;
          most = self.new.most;
          head_twin = self.new.head_twin;
        } }
        ensures most { self.new.most ≡ most_after behind }
        ensures sound { (known : KnownBuckets) → IsTrue D.tells → DiskHolds D.Disk self.old known
            → DiskHolds D.Disk self.new known }

        // What is known goes on to agree with a history where each entry is that of a block, and
        // each block below the mark is in its bucket or among the entries.
        ensures agrees { (score : List ℕ → List ℕ) (c : Setup) (h : History) (known : KnownBuckets)
            → KnownAgrees score c h self.old known
            → ((entry : Entry) → Contains entries.items entry → IsEntryOfBlock score c h entry)
            → (self.old.head.state ≡ 1
            → IsMarkCovered score c h self.old known (Contains entries.items) mark)
            → KnownAgrees score c h self.new known }

        // Whatever the state, a mark that is covered by what is known and the entries stays so.
        ensures covers { (score : List ℕ → List ℕ) (c : Setup) (h : History) (known : KnownBuckets)
            (covered : ℕ) → IsMarkCovered score c h self.old known (Contains entries.items) covered
            → IsMarkCovered score c h self.new known (IsTodo self.new) covered }
    {
        let next = Head { mark, ..self.head };
        entries.order(self.head.total, behind);
        self.entries = Some(entries);
        self.most = if behind.is_some() { 1 } else { GROUP_MAX };
        self.go_on(0, next);
    }

    /// Begins to change the head: `advance` makes the four device calls. The count of buckets
    /// becomes what the section has, and their numbers fit in four bytes. The entries of the last
    /// writeback can still be handed back.
    pub fn begin_head(&mut self, state: u8, first: u32, total: u32, mark: u64)
        requires rest { IsAtRest self.old }
        requires numbers { first + self.old.buckets ≤ 2 ^ 32 }
        ensures begins { (self.new.phase ≡ ChangeHead) × (twin_calls_made self.new.head_twin ≡ 0)
            × (next_frame self.new.head_twin ≡ encoded self.old.name self.new.next) }
        ensures left { calls_left self.new ≡ 4 }
        ensures next { self.new.next ≡ record {
          state = state;
          first = first;
          count = self.old.buckets;
          total = total;
          mark = mark;
        } }
        ensures same { self.new ≡ record self.old {
          next = self.new.next;
          phase = self.new.phase;
          head_twin = self.new.head_twin;
        } }
        ensures sound { (known : KnownBuckets) → IsTrue D.tells → DiskHolds D.Disk self.old known
            → DiskHolds D.Disk self.new known }
        ensures agrees { (score : List ℕ → List ℕ) (c : Setup) (h : History) (known : KnownBuckets)
            → KnownAgrees score c h self.old known
            → first ≡ self.old.head.first → total ≡ self.old.head.total
            → (state ≡ 1 → IsMarkCovered score c h self.old known NoOthers mark)
            → KnownAgrees score c h self.new known }
    {
        let next = Head {
            state,
            first,
            count: self.buckets,
            total,
            mark,
        };
        self.begin_next(next);
    }

    /// Hands back the entries of the last writeback, once, where there is one. While one is under
    /// way there are none.
    pub fn idle(&mut self) -> Option<Entries>
        ensures rest { IsAtRest self.old
            → (result ≡ self.old.entries) × (self.new ≡ record self.old { entries = None }) }
        ensures under_way { ¬ IsAtRest self.old → (result ≡ None) × (self.new ≡ self.old) }
    {
        if self.is_changing() {
            return None;
        }
        self.entries.take()
    }

    /// The number of the current frame of a bucket. While that is being changed, it is the one that
    /// was current before.
    fn current_number(&mut self, number: u32) -> Result<u8, Failed>
        requires { InRange self.old.head self.old.buckets number }
        ensures bound { IfOk result (λ current. current < 2) }
        ensures changing { (member : Member) → IfOk result (λ current.
            IsMember self.old number member → current ≡ member.current) }
        ensures named { IfOk result (λ current. IsTrue D.tells → ¬ IsChanging self.old number
            → (region : Region) → IsBucketPlace (number - self.old.head.first) region
            → current ≡ named_number region FRAME_LEN (D.bytes self.old.disk)) }
        ensures same { self.new ≡ record self.old { disk = self.new.disk } }
        ensures reads { OnlyReads D.Disk 1 self.old.disk self.new.disk }
        ensures calls { ¬ IsChanging self.old number
            → (IsOk result × (self.new ≡ self.old))
            ⊎ MadeCalls D.Disk 1 self.old.disk self.new.disk }
        ensures of_change { IsChanging self.old number
            → IsOk result × (self.new ≡ self.old) }
        ensures cause { HasCause result (D.faults self.old.disk) (D.faults self.new.disk) }
    {
        if let Some(member) = member_of(&self.group, number) {
            return Ok(member.current);
        }
        let index = number - self.head.first;
        self.frames.find(&mut self.disk, bucket_place(index), index)
    }
}
