//! Writing dirty entries back to their buckets.

ghost use Rattle.std.specs.Prelude.{◌≡◌, ◌≢◌, ◌⊎◌, ◌↔◌, ◌==◌, ◌+◌, ◌-◌, ◌^◌, ◌<◌, ◌≤◌, ℕ, List, [], count_by, max, length, slice_index, true, false, take, IsTrue, IsSome, IfSome, IfNone, IfOk, IfErr, OnOk, None, Some, Ok, Err, vec_capacity};
ghost use Rattle.std.specs.List.{All, AllPairs, Contains};
ghost use Rattle.std.specs.Option.{option_map};
ghost use Rattle.vt_base.specs.declared.place.Entry.{Entry};
ghost use Rattle.vt_base.specs.declared.place.Info.{Info};
ghost use Rattle.vt_disk.specs.Disk.{WithinCall};
ghost use Rattle.vt_icache.specs.Index.{entries_below};
ghost use Rattle.vt_isect.specs.Layout.{InRange};
ghost use Rattle.vt_isect.specs.Section.{IsAtRest};
ghost use Rattle.vt_model.specs.History.{History};
ghost use Rattle.vt_model.specs.Places.{Setup, bucket_count, bucket_of, crowd};
ghost use Rattle.vt_shard.specs.Shard.{ReadBucket, HasBelow, IsAboveAll, IsDirtyBelow, read_bucket};
ghost use Rattle.vt_shard.specs.Writeback.{SettlesAll};

use crate::ROOM;
use crate::shard::Shard;
use vt_base::{Entry, Info};
use vt_bucket::Bucket;
use vt_disk::Disk;
use vt_icache::{IndexCache, entry_of};
use vt_isect::{Entries, Head, Section, ShardErr, bucket_number};
use vt_model::BUCKET_ROOM;
use vt_twin::Step;

impl<D: Disk> Shard<D> {
    ghost use Rattle.vt_shard.specs.Sound.{IsSoundShard, IsSoundFrom, KeepsSound, LeavesLive};
    ghost use Rattle.vt_shard.specs.Writeback.{BeginsShardWriteback, HasWork, ShardMakesCall, ReadsFrame, ShardTakesStep};

    /// Begins to put the dirty entries of the blocks below `durable` into their buckets. Behind
    /// them the mark is raised to that number. It makes no device call: `advance` does. False says
    /// that there is nothing to do.
    ///
    /// It begins with the bucket behind the one at which the last writeback ended early, if it did,
    /// and comes to that one last: so a damaged bucket keeps no other from being written back.
    pub fn begin_file(&mut self, durable: u64) -> bool
        requires rest { self.old.writeback ≡ None }
        ensures begins { IsTrue result ↔ HasWork durable self.old }
        ensures begun { result ≡ true
            → BeginsShardWriteback durable (max self.old.section.head.mark durable) self.old
            self.new }
        ensures idle { result ≡ false → self.new ≡ self.old }
        ensures sound { (score : List ℕ → List ℕ) (c : Setup) (h : History) (most : ℕ)
            → IsTrue D.tells → IsSoundShard score c D.Disk self.old h most → durable ≤ most
            → IsSoundShard score c D.Disk self.new h most }
    {
        let mark = self.section.mark();
        if mark >= durable && !has_below(self.index.dirty(), durable) {
            return false;
        }
        self.begin(durable, mark.max(durable));
        true
    }

    /// Begins to put all dirty entries into their buckets, and leaves the mark, as while a log is
    /// read back. It makes no device call. False says that none is dirty.
    pub fn begin_bare(&mut self) -> bool
        requires rest { self.old.writeback ≡ None }
        ensures begins { IsTrue result ↔ (0 < length self.old.index.dirty) }
        ensures begun { result ≡ true → (below : ℕ) × IsAboveAll self.old.index.dirty below
            × BeginsShardWriteback below self.old.section.head.mark self.old self.new }
        ensures idle { result ≡ false → self.new ≡ self.old }
        ensures sound { (score : List ℕ → List ℕ) (c : Setup) (h : History) (durable from : ℕ)
            → IsTrue D.tells → IsSoundFrom score c D.Disk self.old h durable from
            → ((info : Info) → Contains self.old.index.dirty info → info.number < durable)
            → IsSoundFrom score c D.Disk self.new h durable from }
    {
        match above_all(self.index.dirty()) {
            Some(below) => {
                let mark = self.section.mark();
                self.begin(below, mark);
                true
            }
            None => false,
        }
    }

    /// Makes one device call of the writeback under way. Of each bucket of a group it reads the
    /// selector, then the current frame, and writes the idle one with the bucket's entries too.
    /// Then it syncs these frames, writes the selector of each, and syncs those, and the group's
    /// entries are clean. Behind the last group come the four calls that raise the mark, and Done
    /// is the answer to the last of them: no entry below the writeback's number is dirty then.
    ///
    /// A fault in a read and a damaged bucket end the writeback, and its entries stay dirty but for
    /// those of the groups that were completed. A fault in a write or a sync stops the shard: from
    /// then on the answer is Stopped with the number of that call, and nothing is done.
    pub fn advance(&mut self) -> Result<Step, ShardErr>
        requires under_way { IsSome self.old.writeback }
        ensures sound { IsTrue D.tells → KeepsSound D.Disk self.old self.new }

        // What a crash at any moment of it leaves is a section in use that agrees with the first n
        // blocks, for whatever n from the durable ones on.
        ensures crash { (score : List ℕ → List ℕ) (c : Setup) (h : History)
            (durable from n : ℕ) → IsTrue D.tells
            → IsSoundFrom score c D.Disk self.old h durable from → durable ≤ n → n ≤ length h
            → (file : List ℕ)
            → WithinCall (D.images self.old.section.disk) (D.images self.new.section.disk) file
            → LeavesLive score c (take n h) self.old file }

        // Whatever the disk holds:
        ensures takes { ShardTakesStep result self.old self.new }
        ensures reads { ReadsFrame D.Disk result self.old self.new }
        ensures calls { ShardMakesCall D.Disk result self.old self.new }

        // While no bucket has more blocks than it has room for, it finds no damage.
        ensures undamaged { (score : List ℕ → List ℕ) (c : Setup) (h : History)
            (durable from : ℕ) → IsTrue D.tells
            → IsSoundFrom score c D.Disk self.old h durable from
            → ((n : ℕ) → crowd score (bucket_count c) h n ≤ BUCKET_ROOM)
            → IfErr result (λ bad. (bad ≡ ShardErr.Fault)
            ⊎ ((n : ℕ) × (bad ≡ ShardErr.Stopped n))) }
    {
        let Some(below) = self.writeback else {
            unreachable!()
        };
        let head = self.section.head();
        let before = self.section.written();
        let bucket = self.section.bucket_under_way();
        let answer = self.section.advance();
        let written = &self.section.entries()[before..self.section.written()];
        settle(&mut self.index, written, below);
        count_off(&mut self.waiting, written, head);
        forget(&mut self.bucket, written, head.total);
        end_at_rest(
            &mut self.section,
            &mut self.list,
            &mut self.writeback,
            &mut self.ended_at,
            bucket,
        );
        answer
    }

    /// Begins to write the dirty entries of the blocks below a number back.
    fn begin(&mut self, below: u64, mark: u64)
        requires rest { self.old.writeback ≡ None }
        requires rises { self.old.section.head.mark ≤ mark }
        ensures begins { BeginsShardWriteback below mark self.old self.new }
        ensures sound { (score : List ℕ → List ℕ) (c : Setup) (h : History) (durable from : ℕ)
            → IsTrue D.tells → IsSoundFrom score c D.Disk self.old h durable from → below ≤ durable
            → (mark ≡ self.old.section.head.mark)
            ⊎ ((from ≡ 0) × (mark ≡ max self.old.section.head.mark below))
            → IsSoundFrom score c D.Disk self.new h durable from }
    {
        let Some(mut list) = self.list.take() else {
            unreachable!()
        };
        self.index.forget_settled();
        fill(&mut list, self.index.dirty(), below);
        self.section
            .begin_file(Entries::from_vec(list), mark, self.ended_at);
        self.writeback = Some(below);
        self.filed = self.filed.max(below);
    }
}

/// Whether one of these dirty entries is that of a block whose number in the log is below this.
fn has_below(dirty: &[Info], below: u64) -> bool
    ensures { IsTrue result ↔ HasBelow below dirty.now }
{
    dirty.iter().any(|info| info.number < below)
}

/// These dirty entries, of blocks below a number, become clean.
fn settle(index: &mut IndexCache, entries: &[Entry], below: u64)
    requires keys { AllPairs (λ a b. a.key ≢ b.key) index.old.dirty }
    requires apart { AllPairs (λ a b. a.key ≢ b.key) entries.now }
    requires dirty { (entry : Entry) → Contains entries.now entry
        → IsDirtyBelow below index.old.dirty entry }
    ensures settled { SettlesAll below entries.now index.old index.new }
    ensures none { entries.now ≡ [] → index.new ≡ index.old }
{
    for entry in entries {
        index.settle(&entry.key, below);
    }
}

/// Of these entries, counts each off those of its bucket. The counts stand in the order of the
/// buckets, from the head's first one on.
fn count_off(waiting: &mut [u16], entries: &[Entry], head: Head)
    requires in_range { (entry : Entry) → Contains entries.now entry
        → InRange head (length waiting.old) (bucket_of head.total entry.key.score.0) }
    requires some { (entry : Entry) (n : ℕ) → Contains entries.now entry
        → bucket_of head.total entry.key.score.0 ≡ n
        → count_by (λ entry. bucket_of head.total entry.key.score.0 == n) entries.now
        ≤ slice_index waiting.old (n - head.first) }
    ensures { (n : ℕ) → InRange head (length waiting.old) n
        → slice_index waiting.new (n - head.first)
        + count_by (λ entry. bucket_of head.total entry.key.score.0 == n) entries.now
        ≡ slice_index waiting.old (n - head.first) }
{
    for entry in entries {
        let bucket = bucket_number(head.total, &entry.key.score);
        waiting[(bucket - head.first) as usize] -= 1;
    }
}

/// Drops the bucket that was read, if it is that of one of these entries.
fn forget(read: &mut Option<Bucket>, entries: &[Entry], total: u32)
    ensures dropped { (bucket : ReadBucket) (entry : Entry) → read_bucket read.old ≡ Some bucket
        → Contains entries.now entry → bucket_of total entry.key.score.0 ≡ bucket.number
        → read_bucket read.new ≡ None }
    ensures kept { ((bucket : ReadBucket) (entry : Entry) → read_bucket read.old ≡ Some bucket
        → Contains entries.now entry → bucket_of total entry.key.score.0 ≢ bucket.number)
        → read_bucket read.new ≡ read_bucket read.old }
{
    if let Some(bucket) = read
        && has_one_of(entries, total, bucket.number())
    {
        *read = None;
    }
}

/// Whether one of these entries belongs to a bucket.
fn has_one_of(entries: &[Entry], total: u32, bucket: u32) -> bool
    ensures { IsTrue result ↔ (entry : Entry) × Contains entries.now entry
        × (bucket_of total entry.key.score.0 ≡ bucket) }
{
    entries
        .iter()
        .any(|entry| bucket_number(total, &entry.key.score) == bucket)
}

/// Once nothing is under way any more, the writeback has ended: at this bucket, if it ended early.
/// The memory for its entries is handed back.
fn end_at_rest<D: Disk>(
    section: &mut Section<D>,
    list: &mut Option<Vec<Entry>>,
    writeback: &mut Option<u64>,
    ended_at: &mut Option<u32>,
    bucket: Option<u32>,
)
    ensures section { section.new ≡ record section.old { entries = section.new.entries } }
    ensures rest { IsAtRest section.old → (section.new.entries ≡ None)
        × (writeback.new ≡ None) × (ended_at.new ≡ bucket) }
    ensures goes_on { ¬ IsAtRest section.old → (section.new.entries ≡ section.old.entries)
        × (writeback.new ≡ writeback.old) × (ended_at.new ≡ ended_at.old) }
    ensures room { IsAtRest section.old → option_map (λ list. vec_capacity list) list.new
        ≡ option_map (λ list. list.room) section.old.entries }
{
    if section.is_changing() {
        return;
    }
    *list = take_back(section);
    *writeback = None;
    *ended_at = bucket;
}

/// The memory for the entries of a writeback, which the section at rest hands back; None where it
/// has none.
fn take_back<D: Disk>(section: &mut Section<D>) -> Option<Vec<Entry>>
    requires { IsAtRest section.old }
    ensures taken { section.new ≡ record section.old { entries = None } }
    ensures room { option_map (λ list. vec_capacity list) result
        ≡ option_map (λ list. list.room) section.old.entries }
{
    match section.idle() {
        Some(entries) => Some(entries.into_vec()),
        None => None,
    }
}

/// Puts the entries of the blocks below a number into a list, which has room for them.
fn fill(list: &mut Vec<Entry>, dirty: &[Info], below: u64)
    requires { length dirty.now ≤ vec_capacity list.old }
    ensures items { list.new.items ≡ entries_below below dirty.now }
    ensures room { vec_capacity list.old ≤ vec_capacity list.new }
{
    list.clear();
    for info in dirty {
        if info.number < below {
            // (there is room, so that no push fails)
            let _ = list.push(entry_of(info));
        }
    }
}

/// The least number above those of all dirty entries; None where there are none.
fn above_all(dirty: &[Info]) -> Option<u64>
    requires { All (λ info. info.number < 2 ^ 64 - 1) dirty.now }
    ensures some { IfSome result (IsAboveAll dirty.now) }
    ensures none { IfNone result (dirty.now ≡ []) }
{
    let mut greatest = None;
    for info in dirty {
        greatest = Some(info.number.max(greatest.unwrap_or(0)));
    }
    Some(greatest? + 1)
}
