//! Looking up entries, in memory and else in a bucket.

ghost use Rattle.std.specs.Prelude.{◌≡◌, ◌≢◌, ◌+◌, ◌-◌, ◌*◌, ◌<◌, ◌≤◌, ℕ, List, length, IsTrue, IsSome, IsOk, IsOkAnd, IsSomeAnd, IfOk, IfErr, IfSome, OnOk, MatchOption, MatchResult, [], None, Some, Ok};
ghost use Rattle.std.specs.Option.{option_map, option_map_or};
ghost use Rattle.vt_base.specs.declared.place.Entry.{Entry};
ghost use Rattle.vt_bucket.specs.Buckets.{number_of_bucket, bucket_entries};
ghost use Rattle.vt_disk.specs.Calls.{OnlyReads};
ghost use Rattle.vt_icache.specs.Index.{IsCached, dirty_info, cached_entry};
ghost use Rattle.vt_isect.specs.Layout.{InRange};
ghost use Rattle.vt_model.specs.History.{History};
ghost use Rattle.vt_model.specs.Places.{Setup, bucket_count, crowd};
ghost use Rattle.vt_shard.specs.Search.{FindsEntry, FindsScore, HasKeyOf, IsOneOf, IsFoundIn, KeepsScore};

use crate::shard::Shard;
use std::marker::Brand;
use std::sync::ledger::{Blank, Ledger};
use vt_base::{Entry, Key, Score, Steps};
use vt_bucket::Bucket;
use vt_disk::Disk;
use vt_isect::ShardErr;
use vt_model::BUCKET_ROOM;

impl<D: Disk> Shard<D> {
    ghost use Rattle.vt_shard.specs.Looking.{CountsCrowd, FindsOther, Looks, LooksUp};
    ghost use Rattle.vt_shard.specs.Shard.{HasScore, HasRead, bucket_at, dirty_in};
    ghost use Rattle.vt_shard.specs.Sound.{IsSoundShard, IsSoundFrom, IsSoundWithout, LooksSoundly};

    /// The entry of a key: the one in memory or, where there is none, that of the key's bucket. The
    /// bucket that was read last is asked in memory. Of another one frame is read, and where that
    /// is damaged it is told.
    pub fn lookup<L: Ledger>(
        &mut self,
        key: &Key,
        steps: &mut Steps<L>,
    ) -> Result<Option<Entry>, ShardErr>
        requires in_range { HasScore self.old key.now.score.0 }

        // It is the search in the blocks that the shard has.
        ensures found { (score : List ℕ → List ℕ) (c : Setup) (h : History) (durable from : ℕ)
            → IsTrue D.tells → IsSoundFrom score c D.Disk self.old h durable from
            → IfOk result (FindsEntry score c h from key.now) }
        ensures sound { LooksSoundly D.Disk result self.old self.new }

        // While a log is read back, from its end: a block whose key is found doesn't lack its
        // entry, and where it isn't found its bucket lacks it.
        ensures recalls { (score : List ℕ → List ℕ) (c : Setup) (h : History) (durable i : ℕ)
            → IsTrue D.tells → IsSoundFrom score c D.Disk self.old h durable (i + 1)
            → HasKeyOf score h i key.now → IfOk result (λ found. MatchOption found
            (IsSoundWithout score c D.Disk self.new h durable (i + 1) key.now)
            (λ _. IsSoundFrom score c D.Disk self.new h durable i)) }

        // Whatever the disk holds:
        ensures looks_up { LooksUp D.Disk key.now result self.old self.new }
        ensures key { IfOk result (λ found. IfSome found (λ entry. entry.key ≡ key.now)) }
        ensures absent { MatchResult result
            (λ found. found ≡ None → dirty_info key.now self.new.index ≡ None)
            (λ _. dirty_info key.now self.new.index ≡ None) }

        // It counts each bucket frame that it reads: one at most, and none where memory has the
        // entry or the bucket.
        ensures cost_in_memory { IsSome (cached_entry key.now self.old.index)
            → steps.new ≡ steps.old }
        ensures cost_of_read { cached_entry key.now self.old.index ≡ None
            → ¬ HasRead self.old (bucket_at self.old key.now.score.0)
            → OnOk result (steps.new ≡ steps.old + 1) }
        ensures cost { steps.new ≤ steps.old + 1 }
        ensures least_cost { steps.old ≤ steps.new }
        ensures cost_of_known { HasRead self.old (bucket_at self.old key.now.score.0)
            → steps.new ≡ steps.old }
        ensures calls { OnlyReads D.Disk (1 + (steps.new - steps.old))
            self.old.section.disk self.new.section.disk }
    {
        if let Some(entry) = self.index.find(key) {
            return Ok(Some(entry));
        }
        let number = self.bucket_of(&key.score);
        self.read(number, steps)?;
        Ok(find_in(&self.bucket, key))
    }

    /// An entry of a score under any type, which stands for each of them: blocks of one score have
    /// the same bytes. One in memory is the answer, and else one of the score's bucket.
    pub fn others(&mut self, score: &Score) -> Result<Option<Entry>, ShardErr>
        requires in_range { HasScore self.old score.now.0 }
        ensures found { (scorer : List ℕ → List ℕ) (c : Setup) (h : History) (durable from : ℕ)
            → IsTrue D.tells → IsSoundFrom scorer c D.Disk self.old h durable from
            → IfOk result (FindsScore scorer c h from score.now.0) }
        ensures sound { LooksSoundly D.Disk result self.old self.new }
        ensures finds { FindsOther D.Disk score.now.0 result self.old self.new }
    {
        if let Some(entry) = self.index.find_score(score) {
            return Ok(Some(entry));
        }
        self.read_uncounted(self.bucket_of(score))?;
        Ok(find_score_in(&self.bucket, score))
    }

    /// How many blocks of a bucket the shard has: entries of the bucket, and dirty ones.
    pub fn crowd(&mut self, number: u32) -> Result<u32, ShardErr>
        requires in_range { InRange self.old.section.head self.old.section.buckets number }
        ensures count { (score : List ℕ → List ℕ) (c : Setup) (h : History) (durable : ℕ)
            → IsTrue D.tells → IsSoundShard score c D.Disk self.old h durable
            → IfOk result (λ count. count ≡ crowd score (bucket_count c) h number) }

        // While some blocks may still lack their entries it counts no more than the history has.
        ensures most { (score : List ℕ → List ℕ) (c : Setup) (h : History) (durable from : ℕ)
            → IsTrue D.tells → IsSoundFrom score c D.Disk self.old h durable from
            → IfOk result (λ count. count ≤ crowd score (bucket_count c) h number) }
        ensures sound { LooksSoundly D.Disk result self.old self.new }
        ensures counts { CountsCrowd D.Disk number result self.old self.new }
    {
        self.read_uncounted(number)?;
        let place = number - self.section.head().first;
        Ok(len_of(&self.bucket) + u32::from(self.waiting[place as usize]))
    }

    /// Reads a bucket, unless it is the one that was read last.
    fn read<L: Ledger>(&mut self, number: u32, steps: &mut Steps<L>) -> Result<(), ShardErr>
        requires in_range { InRange self.old.section.head self.old.section.buckets number }
        ensures has { OnOk result (HasRead self.new number) }
        ensures looks { Looks D.Disk number result self.old self.new }
        ensures cost_of_known { HasRead self.old number → steps.new ≡ steps.old }
        ensures sound { LooksSoundly D.Disk result self.old self.new }
        ensures cost_of_read { ¬ HasRead self.old number
            → OnOk result (steps.new ≡ steps.old + 1) }
        ensures cost { steps.new ≤ steps.old + 1 }
        ensures least_cost { steps.old ≤ steps.new }
        ensures calls { OnlyReads D.Disk (1 + (steps.new - steps.old))
            self.old.section.disk self.new.section.disk }
    {
        if number_of(&self.bucket) != Some(number) {
            self.bucket = Some(self.section.bucket(number, steps)?);
        }
        Ok(())
    }

    /// Reads the frame of this bucket as `read` does, where nobody counts the steps.
    fn read_uncounted(&mut self, number: u32) -> Result<(), ShardErr>
        requires in_range { InRange self.old.section.head self.old.section.buckets number }
        ensures has { OnOk result (HasRead self.new number) }
        ensures looks { Looks D.Disk number result self.old self.new }
        ensures sound { LooksSoundly D.Disk result self.old self.new }
    {
        self.read_on::<Brand>(number, Blank::new(1))
    }

    /// Reads the frame of this bucket as `read` does, on a new ledger, in which steps are counted
    /// in contracts alone (`vt_base`).
    fn read_on<L: Ledger>(&mut self, number: u32, blank: Blank) -> Result<(), ShardErr>
        requires in_range { InRange self.old.section.head self.old.section.buckets number }
        requires name { blank.name ≡ L.name }
        requires parts { blank.parts ≡ L.parts }
        requires some { 0 < L.parts }
        ensures has { OnOk result (HasRead self.new number) }
        ensures looks { Looks D.Disk number result self.old self.new }
        ensures sound { LooksSoundly D.Disk result self.old self.new }
    {
        let mut steps = Steps::<L>::new(blank);
        self.read(number, &mut steps)
    }
}

/// The number of the bucket that was read; None where none is.
fn number_of(bucket: &Option<Bucket>) -> Option<u32>
    ensures { result ≡ option_map (λ b. number_of_bucket b) bucket.now }
{
    match bucket {
        Some(bucket) => Some(bucket.number()),
        None => None,
    }
}

/// How many entries the bucket that was read has.
fn len_of(bucket: &Option<Bucket>) -> u32
    ensures count { result ≡ option_map_or (λ b. length (bucket_entries b)) bucket.now 0 }
    ensures most { result ≤ BUCKET_ROOM }
{
    match bucket {
        Some(bucket) => bucket.entries().len() as u32,
        None => 0,
    }
}

/// The entry of a key in the bucket that was read, or None where it has none.
fn find_in(bucket: &Option<Bucket>, key: &Key) -> Option<Entry>
    ensures { IsOneOf (option_map_or bucket_entries bucket.now [])
        (λ entry. entry.key ≡ key.now) result }
{
    match bucket {
        Some(bucket) => bucket.find(key),
        None => None,
    }
}

/// An entry of this score, of any type, in the bucket that was read, or None where it has none.
fn find_score_in(bucket: &Option<Bucket>, score: &Score) -> Option<Entry>
    ensures { IsOneOf (option_map_or bucket_entries bucket.now [])
        (λ entry. entry.key.score.0 ≡ score.now.0) result }
{
    match bucket {
        Some(bucket) => entry_of_score(bucket.entries(), score),
        None => None,
    }
}

/// One of these entries that has the score; None where none does.
fn entry_of_score(entries: &[Entry], score: &Score) -> Option<Entry>
    ensures { IsOneOf entries.now (λ entry. entry.key.score.0 ≡ score.now.0) result }
{
    for entry in entries {
        if entry.key.score == *score {
            return Some(*entry);
        }
    }
    None
}
