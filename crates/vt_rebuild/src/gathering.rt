//! Gathering the entries of some buckets' blocks from the log.

ghost use Rattle.std.specs.Prelude.{◌≡◌, ◌≢◌, ◌+◌, ◌^◌, ◌<◌, ◌≤◌, ◌∷◌, ◌++◌, ℕ, List, [], IsTrue, IfOk, IfErr, OnOk, OnErr, MatchResult, length};
ghost use Rattle.std.specs.List.{AllPairs, Contains};
ghost use Rattle.vt_base.specs.declared.place.Entry.{Entry};
ghost use Rattle.vt_bucket.specs.Buckets.{number_of_bucket, bucket_entries};
ghost use Rattle.vt_isect.specs.Merging.{Merges};
ghost use Rattle.vt_log.specs.Faults.{CountsFaults};
ghost use Rattle.vt_log.specs.Log.{setup_of_log};
ghost use Rattle.vt_log.specs.Sound.{IsSoundLog};
ghost use Rattle.vt_model.specs.History.{History};
ghost use Rattle.vt_model.specs.Places.{Setup, bucket_of, bucket_count, crowd};
ghost use Rattle.vt_model.specs.declared.TheConstants.{BUCKET_ROOM};
ghost use Rattle.vt_rebuild.specs.Gathering.{HasGathered, entry_of};
ghost use Rattle.vt_rebuild.specs.Walking.{FaultOrMemory, KeepsLog, TellsOfReading, is_rebuild_fault};

use crate::walking::next_back;
use crate::{GATHERED, RebuildBad};
use std::sync::ledger::Ledger;
use vt_base::{Entry, Info, Scorer, Steps};
use vt_bucket::{Bucket, Full};
use vt_disk::Disk;
use vt_isect::{blocks_are_counted, bucket_number, one_key_has_one_entry};
use vt_log::Log;

/// The entries of the blocks of some buckets, of so many: those from `first` on and before `end`.
#[derive(Drop)]
pub(crate) struct Gathered {
    /// How many buckets all sections have.
    pub(crate) total: u32,
    /// The first of the buckets, over all sections.
    pub(crate) first: u32,
    /// The bucket behind the last of them.
    pub(crate) end: u32,
    /// In the order of their buckets.
    pub(crate) entries: Vec<Entry>,
}

impl Gathered {
    ghost use Rattle.vt_rebuild.specs.Gathering.{CanIndex, HasItsBlocks, IsGathered, IsInOrder};

    /// Gathers the entries of the next buckets, from this one on: as many buckets as have not too
    /// many blocks by these counts, and one at least.
    pub(crate) fn refill<D: Disk, S: Scorer, L: Ledger>(
        &mut self,
        log: &mut Log<D, S>,
        counts: &[u16],
        first: u32,
        steps: &mut Steps<L>,
    ) -> Result<(), RebuildBad>
        requires first { first < length counts.now }
        requires total { length counts.now ≡ self.old.total }
        ensures range { OnOk result ((self.new.first ≡ first) × (first < self.new.end)
            × (self.new.end ≤ self.new.total)) }
        ensures total { self.new.total ≡ self.old.total }
        ensures gathered { (c : Setup) (h : History) → IsTrue D.tells
            → IsSoundLog S.score_of D.Disk log.old h
            → c.versions ≡ (setup_of_log log.old).versions → bucket_count c ≡ self.old.total
            → OnOk result (IsGathered S.score_of c h self.new) }
        ensures order { OnOk result (IsInOrder self.new) }
        ensures keeps { KeepsLog S.score_of D.Disk log.old log.new }
        ensures faults { CountsFaults D.Disk is_rebuild_fault result log.old.disks log.new.disks }
        ensures undamaged { (h : History) → IsTrue D.tells → IsSoundLog S.score_of D.Disk log.old h
            → IfErr result FaultOrMemory }
        ensures ends_early { IfErr result TellsOfReading }
    {
        let total = self.total;
        let end = range_end(counts, first);
        gather(log, total, first, end, &mut self.entries, steps)?;
        self.entries
            .sort_unstable_by_key(|entry| bucket_number(total, &entry.key.score));
        self.first = first;
        self.end = end;
        Ok(())
    }

    /// A bucket with the entries of its blocks. Full says that there are more of them than it has
    /// room for.
    pub(crate) fn bucket(&self, number: u32) -> Result<Bucket, Full>
        requires { IsInOrder self.now }
        ensures number { IfOk result (λ bucket. number_of_bucket bucket ≡ number) }
        ensures blocks { (score : List ℕ → List ℕ) (c : Setup) (h : History)
            → CanIndex score c h self.now.total → IsGathered score c h self.now
            → self.now.first ≤ number → number < self.now.end
            → MatchResult result (λ bucket. HasItsBlocks score c h number (bucket_entries bucket))
            (λ _. BUCKET_ROOM < crowd score self.now.total h number) }
    {
        one_key_has_one_entry();
        blocks_are_counted();
        let total = self.total;
        let entries = self.entries.as_slice();
        let from = entries.partition_point(|entry| bucket_number(total, &entry.key.score) < number);
        let rest = &entries[from..];
        let count = rest.partition_point(|entry| bucket_number(total, &entry.key.score) <= number);
        bucket_of_run(&rest[..count], number)
    }
}

/// Up to where the buckets go that are gathered together from this one on, by their counts.
fn range_end(counts: &[u16], first: u32) -> u32
    requires first { first < length counts.now }
    requires few { length counts.now < 2 ^ 32 }
    ensures some { first < result }
    ensures most { result ≤ length counts.now }
{
    let mut entries = 0;
    for end in first as usize..counts.len() {
        entries += u64::from(counts[end]);
        if entries > GATHERED as u64 && end > first as usize {
            return end as u32;
        }
    }
    counts.len() as u32
}

/// Gathers the entries of all blocks of these buckets, of so many, in the place of others.
fn gather<D: Disk, S: Scorer, L: Ledger>(
    log: &mut Log<D, S>,
    total: u32,
    first: u32,
    end: u32,
    entries: &mut Vec<Entry>,
    steps: &mut Steps<L>,
) -> Result<(), RebuildBad>
    ensures gathered { (c : Setup) (h : History) → IsTrue D.tells
        → IsSoundLog S.score_of D.Disk log.old h
        → c.versions ≡ (setup_of_log log.old).versions → bucket_count c ≡ total
        → OnOk result (HasGathered S.score_of c h first end 0 entries.new.items) }
    ensures keeps { KeepsLog S.score_of D.Disk log.old log.new }
    ensures faults { CountsFaults D.Disk is_rebuild_fault result log.old.disks log.new.disks }
    ensures undamaged { (h : History) → IsTrue D.tells → IsSoundLog S.score_of D.Disk log.old h
        → IfErr result FaultOrMemory }
    ensures ends_early { IfErr result TellsOfReading }
{
    entries.clear();
    let mut tail = log.tail();
    while tail.left() > 0 {
        let info = next_back(log, &mut tail, steps)?;
        let bucket = bucket_number(total, &info.key.score);
        if first <= bucket && bucket < end {
            take_in(entries, &info)?;
        }
    }
    Ok(())
}

/// Takes the entry of a block in, behind the others.
fn take_in(entries: &mut Vec<Entry>, info: &Info) -> Result<(), RebuildBad>
    ensures taken { OnOk result (entries.new.items ≡ entries.old.items ++ entry_of info.now ∷ []) }
    ensures refused { IfErr result (λ bad. bad ≡ RebuildBad.NoMemory) }
{
    let entry = Entry {
        key: info.key,
        size: info.size,
        place: info.place,
    };
    match entries.push(entry) {
        Ok(()) => Ok(()),
        Err(_) => Err(RebuildBad::NoMemory),
    }
}

/// A bucket with these entries, one of each key. Full says that there are more keys than it has
/// room for.
fn bucket_of_run(run: &[Entry], number: u32) -> Result<Bucket, Full>
    ensures number { IfOk result (λ bucket. number_of_bucket bucket ≡ number) }
    ensures merged { IfOk result
        (λ bucket. Merges [] (Contains run.now) (bucket_entries bucket)) }
    ensures full { OnErr result ((more : List Entry) × (length more ≡ BUCKET_ROOM + 1)
        × AllPairs (λ a b. a.key ≢ b.key) more
        × ((entry : Entry) → Contains more entry → Contains run.now entry)) }
{
    let mut bucket = Bucket::new(number);
    for i in 0..run.len() {
        if let Err(Full) = bucket.with(run[i]) {
            return Err(Full);
        }
    }
    Ok(bucket)
}
