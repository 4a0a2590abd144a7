//! A shard that is mounted, and its calls that need no device.

ghost use Rattle.std.specs.Prelude.{◌≡◌, ◌≢◌, ◌↔◌, ◌+◌, ◌-◌, ◌*◌, ◌^◌, ◌<◌, ◌≤◌, ◌++◌, ◌∷◌, [], ℕ, List, length, take, true, false, IsTrue, IsSome, IfSome, None, Some, is_some, slice_get, option_copied};
ghost use Rattle.std.specs.List.{AllPairs};
ghost use Rattle.vt_icache.specs.Index.{entry_of, dirty_info};
ghost use Rattle.vt_isect.specs.Agreement.{IsEntryOf};
ghost use Rattle.vt_isect.specs.Layout.{InRange};
ghost use Rattle.vt_isect.specs.Writeback.{calls_left};
ghost use Rattle.vt_lumps.specs.Lumps.{cached_bytes, used, with_lump, without_last};
ghost use Rattle.vt_model.specs.History.{History, Accepted};
ghost use Rattle.vt_model.specs.Legal.{HasOtherKey};
ghost use Rattle.vt_model.specs.Places.{Setup};
ghost use Rattle.vt_shard.specs.Search.{IsLumpOf};

use crate::ROOM;
use std::marker::Model;
use vt_base::{Bytes, Entry, Info, Key, Score};
use vt_bucket::Bucket;
use vt_disk::Disk;
use vt_icache::IndexCache;
use vt_isect::{Section, bucket_number};
use vt_lumps::Lumps;

/// One section of the index, with the index entries and the blocks that are kept in memory for it.
#[derive(Drop)]
pub struct Shard<D: Disk> {
    pub(crate) section: Section<D>,
    pub(crate) index: IndexCache,
    pub(crate) lumps: Lumps,
    /// The bucket that was read last, until it is written back.
    pub(crate) bucket: Option<Bucket>,
    /// How many dirty entries each bucket of the section has.
    pub(crate) waiting: Vec<u16>,
    /// The memory for the entries of a writeback, but where the section has it.
    pub(crate) list: Option<Vec<Entry>>,
    /// The number of the writeback under way: it puts the entries of the blocks below that into
    /// their buckets.
    pub(crate) writeback: Option<u64>,
    /// The greatest number that a writeback had.
    pub(crate) filed: u64,
    /// The bucket at which the last writeback ended early, if it did.
    pub(crate) ended_at: Option<u32>,
}

impl<D: Disk> Model for Shard<D> {
    ghost use Rattle.std.specs.Prelude.{vec_capacity};
    ghost use Rattle.std.specs.Option.{option_map};
    ghost use Rattle.vt_shard.specs.Shard.{ShardState, IsWell};

    ghost Value = { ShardState D };

    ghost use Rattle.vt_shard.specs.View.{state_of};

    ghost view = { state_of };

    ghost invariant = { λ s. IsWell (state_of s)
        (option_map (λ list. vec_capacity list) s.list)
        s.waiting.items };
}

impl<D: Disk> Shard<D> {
    ghost use Rattle.vt_shard.specs.Shard.{HasScore, bucket_at};
    ghost use Rattle.vt_shard.specs.Sound.{IsSoundFrom, IsSoundWithout, KeepsSound};

    /// How many dirty entries more there is room for, of 1,024.
    pub fn spare(&self) -> u32
        ensures count { result ≡ ROOM - length self.now.index.dirty }
        ensures fits { length self.now.index.dirty ≤ ROOM }
        ensures apart { AllPairs (λ a b. a.key ≢ b.key) self.now.index.dirty }
    {
        self.index.spare()
    }

    /// How many blocks of the log surely have their entries in the index: each block below it that
    /// belongs to this shard has its entry in its bucket, whatever a crash leaves.
    pub fn mark(&self) -> u64
        ensures { result ≡ self.now.section.head.mark }
    {
        self.section.mark()
    }

    /// The number below which the writebacks since mounting put the entries of blocks into their
    /// buckets. Other entries on the disk stood there at mounting.
    pub fn filed(&self) -> u64
        ensures filed { result ≡ self.now.filed }
        ensures most { (below : ℕ) → self.now.writeback ≡ Some below → below ≤ result }
    {
        self.filed
    }

    /// The number of the device call of `advance` that stopped it, if one did.
    pub fn stopped(&self) -> Option<u64>
        ensures { result ≡ self.now.section.stopped }
    {
        self.section.stopped()
    }

    /// At most how many calls of `advance` the writeback under way takes: up to 6,148, and 0 where
    /// none is under way. One that was stopped stays under way.
    pub fn owed(&self) -> u64
        ensures owed { result ≡ calls_left self.now.section }
        ensures none { (result ≡ 0) ↔ (self.now.writeback ≡ None) }
        ensures most { result ≤ 6 * ROOM + 4 }
    {
        if self.section.is_changing() {
            self.section.calls_left()
        } else {
            0
        }
    }

    /// Whether it has the bucket of this number, over all sections.
    pub fn has_bucket(&self, number: u32) -> bool
        ensures { IsTrue result ↔ InRange self.now.section.head self.now.section.buckets number }
    {
        self.section.has_bucket(number)
    }

    /// Whether it has the bucket of a key's score.
    pub fn has_key(&self, key: &Key) -> bool
        ensures { IsTrue result ↔ HasScore self.now key.now.score.0 }
    {
        self.section.has_bucket(self.bucket_of(&key.score))
    }

    /// The number of a score's bucket, over all sections.
    pub fn bucket_of(&self, score: &Score) -> u32
        ensures { result ≡ bucket_at self.now score.now.0 }
    {
        bucket_number(self.section.head().total, score)
    }

    /// Takes in the entry of a block, with the block's number in the log. From then on it is dirty,
    /// until a writeback has put it into its bucket. While one is under way it is of a block that
    /// this doesn't put there.
    pub fn put(&mut self, info: Info)
        requires room { length self.old.index.dirty < ROOM }
        requires in_range { HasScore self.old info.key.score.0 }
        requires absent { dirty_info info.key self.old.index ≡ None }
        requires number { info.number < 2 ^ 64 - 1 }
        requires later { (below : ℕ) → self.old.writeback ≡ Some below → below ≤ info.number }
        ensures put { self.new ≡ record self.old {
          index = record self.old.index { dirty = self.old.index.dirty ++ info ∷ [] };
        } }

        // The shard has the block that is added to the history.
        ensures adds { (score : List ℕ → List ℕ) (c : Setup) (h : History) (durable from : ℕ)
            (block : Accepted) → IsSoundFrom score c D.Disk self.old h durable from
            → AllPairs (HasOtherKey score) (h ++ block ∷ []) → info.number ≡ length h
            → IsEntryOf score c (h ++ block ∷ []) (length h) (entry_of info)
            → IsSoundFrom score c D.Disk self.new (h ++ block ∷ []) durable from }

        // While a log is read back, from its end: a block whose bucket lacks its entry doesn't lack
        // it any more.
        ensures recalls { (score : List ℕ → List ℕ) (c : Setup) (h : History) (durable : ℕ)
            → IsSoundWithout score c D.Disk self.old h durable (info.number + 1) info.key
            → IsEntryOf score c h info.number (entry_of info)
            → IsSoundFrom score c D.Disk self.new h durable info.number }
    {
        let place = self.bucket_of(&info.key.score) - self.section.head().first;
        self.waiting[place as usize] += 1;
        self.index.put_dirty(info);
    }

    /// Drops the least recently used clean entry, and never a dirty one. False says that there was
    /// none.
    pub fn evict(&mut self) -> bool
        ensures evicted { self.new ≡ record self.old {
          index = record self.old.index {
            clean = take (length self.old.index.clean - 1) self.old.index.clean;
          };
        } }
        ensures some { IsTrue result ↔ (0 < length self.old.index.clean) }
        ensures sound { KeepsSound D.Disk self.old self.new }
    {
        self.index.evict()
    }

    /// Whether a block is kept in memory. It becomes the most recently used, and `lump` gives it.
    pub fn touch_lump(&mut self, key: &Key) -> bool
        ensures kept { result ≡ is_some (cached_bytes key.now self.old.lumps) }
        ensures used { self.new ≡ record self.old { lumps = used key.now self.old.lumps } }
        ensures sound { KeepsSound D.Disk self.old self.new }
    {
        self.lumps.touch(key)
    }

    /// The bytes of a block that is kept in memory. None comes exactly where it isn't.
    pub fn lump(&self, key: &Key) -> Option<&Bytes>
        ensures bytes { option_copied result ≡ cached_bytes key.now self.now.lumps }
        ensures right { (score : List ℕ → List ℕ) (c : Setup) (h : History) (durable from : ℕ)
            → IsSoundFrom score c D.Disk self.now h durable from
            → IfSome result (λ bytes. IsLumpOf score h key.now bytes.now) }
    {
        self.lumps.get(key)
    }

    /// Keeps a block in memory, in place of the least recently used one where there is no room.
    /// False is want of memory: it leaves the shard as it was, and never comes for a block that is
    /// kept.
    pub fn keep_lump(&mut self, key: Key, bytes: Bytes) -> bool
        ensures kept { result ≡ true
            → self.new ≡ record self.old { lumps = with_lump key bytes self.old.lumps } }
        ensures dropped { result ≡ false → self.new ≡ self.old }
        ensures succeeds { IsSome (cached_bytes key self.old.lumps) → result ≡ true }
        ensures sound { (score : List ℕ → List ℕ) (c : Setup) (h : History) (durable from : ℕ)
            → IsSoundFrom score c D.Disk self.old h durable from → IsLumpOf score h key bytes
            → IsSoundFrom score c D.Disk self.new h durable from }
    {
        self.lumps.keep(key, bytes)
    }

    /// Drops the least recently used block. False says that there was none.
    pub fn drop_last(&mut self) -> bool
        ensures dropped { self.new ≡ record self.old { lumps = without_last self.old.lumps } }
        ensures some { result ≡ is_some (slice_get self.old.lumps.entries 0) }
        ensures sound { KeepsSound D.Disk self.old self.new }
    {
        self.lumps.drop_last()
    }

    /// Gives the device back.
    pub fn into_devices(self) -> D
        ensures { result ≡ self.section.disk }
    {
        self.section.into_devices()
    }
}
