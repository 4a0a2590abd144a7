//! The store, and its events.

ghost use Rattle.std.specs.Prelude.{◌≡◌, ◌≢◌, ◌-◌, ◌<◌, ◌≤◌, ℕ, All, IfOk, OnErr, Some, length, slice_get};
ghost use Rattle.std.specs.List.{AllPairs, Contains};
ghost use Rattle.vt_base.specs.Bytes.{AreBytes};
ghost use Rattle.vt_base.specs.declared.place.Info.{Info};
ghost use Rattle.vt_log.specs.Log.{front};
ghost use Rattle.vt_model.specs.History.{History};
ghost use Rattle.vt_model.specs.Places.{section_of_score};
ghost use Rattle.vt_shard.specs.declared.TheConstants.{ROOM};

use crate::event::{Event, Out};
use crate::outs::Outs;
use std::alloc::{AllocError, Global};
use std::marker::Model;
use vt_base::{Score, Scorer};
use vt_bloom::{Bits, Bloom};
use vt_disk::Disk;
use vt_log::Log;
use vt_recover::{Devices, close_shards, device_of};
use vt_shard::Shard;

/// A write-once store over its devices (Quinlan and Dorward 2002). It does one thing at a time, an
/// event: an operation of a session, the answer to a sync that waits, or one piece of its own work.
///
/// What it accepts is queued, and its own work brings that to the disks: the log's commits, the
/// writebacks of index entries, and saves of the Bloom filter. An event makes one device call at
/// most, but for an operation, which may read.
#[derive(Drop)]
pub struct Core<D: Disk, S: Scorer> {
    /// The arenas, and the queue of the blocks that aren't on them yet.
    pub(crate) log: Log<D, S>,
    /// A shard for each index section, in order: the section, and those of its entries that are in memory.
    pub(crate) shards: Vec<Shard<D>>,
    /// The filter as it is saved, where the store has a device for it.
    pub(crate) bloom: Option<Bloom<D>>,
    /// The bits of all blocks.
    pub(crate) bits: Bits,
    /// For each session the number at which its sync waits.
    pub(crate) waiting: Vec<Option<u64>>,
    /// How many blocks answered syncs cover: a crash leaves at least these.
    pub(crate) synced: u64,
    /// Where the sections' devices go when they are handed back.
    /// (the list that they came in, emptied, so that it takes no memory)
    pub(crate) room: Vec<D>,
}

impl<D: Disk, S: Scorer> Model for Core<D, S> {
    ghost use Rattle.vt_core.specs.Core.{CoreState};

    ghost Value = { CoreState D };

    ghost use Rattle.std.specs.Prelude.{length};
    ghost use Rattle.vt_core.specs.View.{state_of};
    ghost use Rattle.vt_recover.specs.Opening.{HasRoomForDevices};
    ghost use Rattle.vt_core.specs.Whole.{IsWhole};

    ghost view = { state_of };

    ghost invariant = { λ k. IsWhole D.Disk (state_of k)
        × HasRoomForDevices (length k.shards.items) k.room };
}

impl<D: Disk, S: Scorer> Core<D, S> {
    ghost use Rattle.vt_core.specs.Events.{IsFor};
    ghost use Rattle.vt_core.specs.Sound.{IsSound};
    ghost use Rattle.vt_core.specs.Core.{setup_of};
    ghost use Rattle.vt_core.specs.Steps.{Steps, Runs};
    ghost use Rattle.vt_shard.specs.Shard.{ShardState, HasScore};

    /// One event. Its session is one of those for which the store was mounted, and its shard one of
    /// the store's.
    ///
    /// For each history for which the devices are sound it is a step of the write-once machine, and
    /// at every moment of it whatever a crash leaves of all devices, taken together, stands for a
    /// prefix of that history with every durable block. Whatever the devices hold, each answer has
    /// its cause, one device call is made or none, and an operation only reads.
    pub fn step(&mut self, alloc: Global, event: Event<'_>) -> Out
        requires { IsFor (length self.old.waiting) (length self.old.shards) event }
        ensures { Steps S.score_of D.Disk event.entry result self.old self.new }
    {
        match event {
            Event::Ask {
                session,
                operation,
                now,
            } => self.ask(alloc, session, operation, now),
            Event::Answer(session) => self.answer_sync(session),
            Event::LogAdvance => self.advance_log(),
            Event::FileBegin(shard) => self.begin_file(shard),
            Event::FileAdvance(shard) => self.advance_file(shard),
            Event::BloomAdvance => self.advance_filter(),
            Event::EvictLump(shard) => self.drop_lump(shard),
            Event::EvictIndex(shard) => self.drop_entry(shard),
        }
    }

    /// A list of events, one after another, and what each gave. The memory for that is taken first.
    pub fn run(&mut self, alloc: Global, events: &[Event<'_>]) -> Result<Outs, AllocError>
        requires { All (IsFor (length self.old.waiting) (length self.old.shards)) events.now }
        ensures runs { IfOk result (λ outs. Runs S.score_of D.Disk events.now outs
            self.old self.new) }
        ensures memory { OnErr result (self.new ≡ self.old) }
    {
        let mut outs = Vec::with_capacity(alloc, events.len())?;
        for i in 0..events.len() {
            let out = self.step(alloc, events[i]);
            outs.push_reserved(out);
        }
        Ok(Outs { outs })
    }

    /// How many blocks were accepted.
    pub fn history_len(&self) -> u64
        ensures len { result ≡ front self.now.log }
        ensures sound { (h : History) → IsSound S.score_of D.Disk self.now h
            → result ≡ length h }
        ensures durable { self.now.log.durable ≤ result }
    {
        self.log.front()
    }

    /// How many of them are durable: whatever a crash leaves, the store still has these.
    pub fn durable(&self) -> u64
        ensures { result ≡ self.now.log.durable }
    {
        self.log.durable()
    }

    /// The greatest number of blocks that an answered sync covered or, where there was none, with
    /// which the store was mounted.
    pub fn synced(&self) -> u64
        ensures synced { result ≡ self.now.synced }
        ensures durable { result ≤ self.now.log.durable }
    {
        self.synced
    }

    /// The score of a block's bytes.
    pub fn score(&self, block: &[u8]) -> Score
        ensures { result.0 ≡ S.score_of block.now }
    {
        self.log.score(block)
    }

    /// How many shards there are: one for each index section.
    pub fn shards(&self) -> u32
        ensures { result ≡ length self.now.shards }
    {
        self.shards.len() as u32
    }

    /// The number of the shard that has the bucket of a score.
    pub fn shard_of(&self, score: &Score) -> u32
        ensures shard { result ≡ section_of_score (setup_of self.now) score.now.0 }
        ensures within { result < length self.now.shards }
        ensures has { (s : ShardState D) → slice_get self.now.shards result ≡ Some s
            → HasScore s score.now.0 }
    {
        is_of_bytes(*score);
        vt_model::laws::buckets_are_in_range();
        vt_model::laws::sections_have_ranges();
        for i in 0..self.shards.len() {
            let shard = &self.shards[i];
            if shard.has_bucket(shard.bucket_of(score)) {
                return i as u32;
            }
        }
        unreachable!()
    }

    /// How many dirty entries more a shard has room for. Each is that of a block that was accepted.
    pub fn spare(&self, shard: u32) -> u32
        requires { shard < length self.now.shards }
        ensures count { (s : ShardState D) → slice_get self.now.shards shard ≡ Some s
            → result ≡ ROOM - length s.index.dirty }
        ensures apart { (s : ShardState D) → slice_get self.now.shards shard ≡ Some s
            → AllPairs (λ a b. a.key ≢ b.key) s.index.dirty }
        ensures accepted { (s : ShardState D) (info : Info)
            → slice_get self.now.shards shard ≡ Some s → Contains s.index.dirty info
            → info.number < front self.now.log }
    {
        self.shards[shard as usize].spare()
    }

    /// How many sessions there is room for.
    pub fn sessions(&self) -> u32
        ensures { result ≡ length self.now.waiting }
    {
        self.waiting.len() as u32
    }
}

/// Tells the proof that a score is a list of bytes.
fn is_of_bytes(score: Score)
    ensures { AreBytes score.0 }
{}

impl<D: Disk, S: Scorer + Drop> Core<D, S> {
    ghost use Rattle.vt_core.specs.Core.{devices_of};
    ghost use Rattle.vt_core.specs.Mounting.{devices_in, tables_in};

    /// Hands the devices back, as they are: what is queued or dirty isn't on them. It makes no device
    /// call and takes no memory.
    pub fn into_devices(self) -> Devices<D>
        ensures devices { devices_in result ≡ devices_of self }
        ensures tables { tables_in result ≡ self.log.tables }
    {
        let Core {
            log,
            shards,
            bloom,
            bits: _,
            waiting: _,
            synced: _,
            room,
        } = self;
        Devices {
            parts: log.into_devices(),
            sections: close_shards(shards, room),
            filter: device_of(bloom),
        }
    }
}
