//! What tests do with a shard, one call each.

ghost use Rattle.std.specs.Prelude.{◌≡◌, ◌<◌, IsTrue, MatchResult, None};
ghost use Rattle.vt_icache.specs.Index.{dirty_info};
ghost use Rattle.vt_shard.specs.Shard.{HasScore};

use crate::disks::{Change, Made, TestDisk, changed};
use crate::sections::TestSection;
use std::alloc::Global;
use std::marker::Brand;
use std::sync::ledger::{Blank, Ledger};
use vt_base::{Bytes, Entry, Info, Key, Score, Steps};
use vt_disk::Disk;
use vt_isect::{Section, ShardErr};
use vt_shard::{Shard, Sizes, mount};
use vt_twin::Step;

/// What a shard tells of itself.
#[derive(Clone, Copy)]
pub struct Told {
    /// The entries of so many blocks, the first of the log, are on the disk.
    pub mark: u64,
    /// How many dirty entries there is room for.
    pub spare: u32,
    /// How many calls the writeback under way takes at most.
    pub owed: u64,
    /// Whether a call failed by which it writes.
    pub is_stopped: bool,
}

/// A shard with which a test does something. What a test does is proved for any such shard, which is
/// much less work than for the real one, and runs on that.
///
/// A call isn't made where its condition doesn't hold, and gives None or false then, or says which.
pub trait TestShard: Drop {
    type Section: TestSection;

    /// The shard of a section, if there is one.
    fn open(alloc: Global, section: Self::Section, sizes: Sizes) -> Option<Self>;

    /// It is mounted again, behind a change of its disk.
    fn again(self, alloc: Global, change: Change<'_>, sizes: Sizes) -> Option<Self>;

    fn told(&self) -> Told;

    /// The number of a score's bucket.
    fn bucket_number(&self, score: &Score) -> u32;

    /// Looks a key up.
    fn find(&mut self, key: &Key) -> Option<Result<Option<Entry>, ShardErr>>;

    /// Looks for an entry of a key's score.
    fn find_score(&mut self, key: &Key) -> Option<Result<Option<Entry>, ShardErr>>;

    /// How many blocks a bucket has.
    fn count(&mut self, number: u32) -> Option<Result<u32, ShardErr>>;

    /// Puts in a block that isn't held, as far as its bucket tells.
    fn add(&mut self, info: Info) -> Result<(), &'static str>;

    /// Begins to write back the blocks below this number. Whether there is something to do.
    fn begin(&mut self, durable: u64) -> Option<bool>;

    /// Begins to write back all blocks, without a new mark. Whether there is something to do.
    fn begin_all(&mut self) -> Option<bool>;

    /// Makes one device call of the writeback under way.
    fn step(&mut self) -> Option<Result<Step, ShardErr>>;

    /// Drops a clean entry. Whether there was one.
    fn drop_clean(&mut self) -> bool;

    /// Keeps a block's bytes in memory.
    fn keep(&mut self, key: Key, bytes: Bytes) -> bool;

    /// Whether a block is in memory, which becomes the most recently used.
    fn touch(&mut self, key: &Key) -> bool;

    /// The bytes of a block in memory.
    fn kept(&self, key: &Key) -> Option<&Bytes>;

    /// Drops a block from memory. Whether there was one.
    fn drop_block(&mut self) -> bool;
}

/// The shard of a disk in memory.
pub type MadeShard = Shard<Made>;

impl<D: TestDisk> TestShard for Shard<D> {
    type Section = Section<D>;

    fn open(alloc: Global, section: Section<D>, sizes: Sizes) -> Option<Self> {
        opened(alloc, section, sizes)
    }

    fn again(self, alloc: Global, change: Change<'_>, sizes: Sizes) -> Option<Self> {
        let disk = changed(self.into_devices(), change)?;
        opened(alloc, vt_isect::mount(alloc, disk).ok()?, sizes)
    }

    fn told(&self) -> Told {
        Told {
            mark: self.mark(),
            spare: self.spare(),
            owed: self.owed(),
            is_stopped: self.stopped().is_some(),
        }
    }

    fn bucket_number(&self, score: &Score) -> u32 {
        self.bucket_of(score)
    }

    fn find(&mut self, key: &Key) -> Option<Result<Option<Entry>, ShardErr>> {
        if !self.has_key(key) {
            return None;
        }
        Some(look_up(self, key))
    }

    fn find_score(&mut self, key: &Key) -> Option<Result<Option<Entry>, ShardErr>> {
        if !self.has_key(key) {
            return None;
        }
        Some(self.others(&key.score))
    }

    fn count(&mut self, number: u32) -> Option<Result<u32, ShardErr>> {
        if !self.has_bucket(number) {
            return None;
        }
        Some(self.crowd(number))
    }

    fn add(&mut self, info: Info) -> Result<(), &'static str> {
        if !is_new(self, &info.key) {
            return Err("a block to be put in is of the shard, and isn't held");
        }
        if self.spare() == 0 || !self.has_key(&info.key) {
            return Err("a block to be put in has room");
        }
        if info.number == u64::MAX || info.number < self.filed() {
            return Err("a block to be put in has a later number");
        }
        self.put(info);
        Ok(())
    }

    fn begin(&mut self, durable: u64) -> Option<bool> {
        if self.owed() != 0 {
            return None;
        }
        Some(self.begin_file(durable))
    }

    fn begin_all(&mut self) -> Option<bool> {
        if self.owed() != 0 {
            return None;
        }
        Some(self.begin_bare())
    }

    fn step(&mut self) -> Option<Result<Step, ShardErr>> {
        if self.owed() == 0 {
            return None;
        }
        Some(self.advance())
    }

    fn drop_clean(&mut self) -> bool {
        self.evict()
    }

    fn keep(&mut self, key: Key, bytes: Bytes) -> bool {
        self.keep_lump(key, bytes)
    }

    fn touch(&mut self, key: &Key) -> bool {
        self.touch_lump(key)
    }

    fn kept(&self, key: &Key) -> Option<&Bytes> {
        self.lump(key)
    }

    fn drop_block(&mut self) -> bool {
        self.drop_last()
    }
}

/// The shard of a section at rest.
fn opened<D: Disk + Drop>(alloc: Global, section: Section<D>, sizes: Sizes) -> Option<Shard<D>> {
    if section.is_changing() || sizes.lumps == 0 || sizes.clean == 0 {
        return None;
    }
    mount(alloc, section, sizes).ok()
}

/// Whether a key is one of the shard, and isn't held as far as its bucket tells.
fn is_new<D: Disk>(shard: &mut Shard<D>, key: &Key) -> bool
    ensures { IsTrue result → dirty_info key.now shard.new.index ≡ None }
{
    shard.has_key(key) && !matches!(look_up(shard, key), Ok(Some(_)))
}

fn look_up<D: Disk>(shard: &mut Shard<D>, key: &Key) -> Result<Option<Entry>, ShardErr>
    requires { HasScore shard.old key.now.score.0 }
    ensures { MatchResult result
        (λ found. found ≡ None → dirty_info key.now shard.new.index ≡ None)
        (λ _. dirty_info key.now shard.new.index ≡ None) }
{
    counted::<D, Brand>(shard, key, Blank::new(1))
}

/// The same, with a count of steps of its own.
fn counted<D: Disk, L: Ledger>(
    shard: &mut Shard<D>,
    key: &Key,
    blank: Blank,
) -> Result<Option<Entry>, ShardErr>
    requires range { HasScore shard.old key.now.score.0 }
    requires name { blank.name ≡ L.name }
    requires parts { blank.parts ≡ L.parts }
    requires some { 0 < L.parts }
    ensures absent { MatchResult result
        (λ found. found ≡ None → dirty_info key.now shard.new.index ≡ None)
        (λ _. dirty_info key.now shard.new.index ≡ None) }
{
    let mut steps = Steps::<L>::new(blank);
    shard.lookup(key, &mut steps)
}
