//! Blocks that are accepted and not yet committed.

ghost use Rattle.std.specs.Prelude.{◌≡◌, ◌+◌, ◌<◌, ◌≤◌, ◌==◌, length, map, drop, IfOk, IfSome, IfNone, Some, slice_get};
ghost use Rattle.vt_log.specs.declared.TheConstants.{QUEUE_MAX};

use crate::QUEUE_MAX;
use std::alloc::{AllocError, Global};
use std::collections::VecDeque;
use std::marker::Model;
use vt_base::Place;
use vt_clump::Packed;

/// A queued block that isn't staged yet.
#[derive(Drop)]
pub(crate) struct Waiting {
    /// The arena that it goes to, by its number over all partitions.
    pub arena: u32,
    pub packed: Packed,
}

/// Blocks that are accepted and not yet committed, in order. The first of them may be staged for a
/// commit: of these it has the places alone. There is room for 64.
#[derive(Drop)]
pub(crate) struct Queue {
    /// The queued blocks that aren't staged, as clumps.
    waiting: VecDeque<Waiting>,
    /// Where each will stand, the staged ones first.
    places: VecDeque<Place>,
}

impl Model for Queue {
    ghost use Rattle.std.specs.Prelude.{◌≤◌, length};
    ghost use Rattle.std.specs.VecDeque.{deque_capacity};
    ghost use Rattle.vt_log.specs.declared.TheConstants.{QUEUE_MAX};
    ghost use Rattle.vt_log.specs.Queue.{QueueState};

    ghost Value = { QueueState };

    ghost view = { λ q. record { waiting = q.waiting.items; places = q.places.items } };

    ghost invariant = { λ q. (QUEUE_MAX ≤ deque_capacity q.waiting)
        × (QUEUE_MAX ≤ deque_capacity q.places) };
}

impl Queue {
    ghost use Rattle.vt_log.specs.Queue.{no_queue, with_waiting_block, TakesFor, IsArenaOfFirst, IsFirstAt, IsNowhere};

    /// No blocks, and room for 64.
    pub fn new(alloc: Global) -> Result<Queue, AllocError>
        ensures { IfOk result (λ q. q ≡ no_queue) }
    {
        Ok(Queue {
            waiting: VecDeque::with_capacity(alloc, QUEUE_MAX)?,
            places: VecDeque::with_capacity(alloc, QUEUE_MAX)?,
        })
    }

    /// How many blocks are queued, staged ones too.
    pub fn len(&self) -> usize
        ensures { result ≡ length self.now.places }
    {
        self.places.len()
    }

    /// Whether each accepted block is committed.
    pub fn is_empty(&self) -> bool
        ensures { result ≡ (length self.now.places == 0) }
    {
        self.places.is_empty()
    }

    /// How many of them aren't staged yet.
    pub fn waiting(&self) -> usize
        ensures { result ≡ length self.now.waiting }
    {
        self.waiting.len()
    }

    /// Puts a block behind them.
    pub fn push(&mut self, packed: Packed, place: Place)
        requires waiting { length self.old.waiting < QUEUE_MAX }
        requires places { length self.old.places < QUEUE_MAX }
        ensures { self.new ≡ with_waiting_block
            (record { arena = place.arena; packed = packed }) place self.old }
    {
        let Ok(()) = self.waiting.push_back(Waiting {
            arena: place.arena,
            packed,
        })
        else {
            unreachable!()
        };
        let Ok(()) = self.places.push_back(place) else {
            unreachable!()
        };
    }

    /// Hands out the first block that isn't staged yet, if it goes to this arena.
    pub fn take_for(&mut self, arena: u32) -> Option<Packed>
        ensures { TakesFor arena self.old self.new result }
    {
        match self.waiting.front() {
            Some(waiting) if waiting.arena == arena => {}
            _ => return None,
        }
        let waiting = self.waiting.pop_front()?;
        Some(waiting.packed)
    }

    /// The arena of the first block that isn't staged yet.
    pub fn next_arena(&self) -> Option<u32>
        ensures { IsArenaOfFirst self.now.waiting result }
    {
        match self.waiting.front() {
            Some(waiting) => Some(waiting.arena),
            None => None,
        }
    }

    /// Drops the places of the first so many blocks, which are committed.
    pub fn drop_committed(&mut self, blocks: usize)
        requires { blocks ≤ length self.old.places }
        ensures waiting { self.new.waiting ≡ self.old.waiting }
        ensures places { self.new.places ≡ drop blocks self.old.places }
    {
        for _ in 0..blocks {
            self.places.pop_front();
        }
    }

    /// The place of a block, counted from the first queued one.
    pub fn place(&self, index: usize) -> Place
        requires { index < length self.now.places }
        ensures { slice_get self.now.places index ≡ Some result }
    {
        self.places[index]
    }

    /// A block that isn't staged, counted from the first of these.
    // (in the model: waiting_block of specs/Queue.antt; tests: crates/vt_log_tests/src/log.rt)
    pub fn waiting_block(&self, index: usize) -> &Packed
        requires { index < length self.now.waiting }
        ensures { slice_get (map (λ w. w.packed) self.now.waiting) index ≡ Some result.now }
    {
        &self.waiting[index].packed
    }

    /// The first queued block with this place, counted from the first queued one.
    pub fn find(&self, place: Place) -> Option<usize>
        ensures found { IfSome result (IsFirstAt self.now.places place) }
        ensures none { IfNone result (IsNowhere self.now.places place) }
    {
        for index in 0..self.places.len() {
            if self.places[index] == place {
                return Some(index);
            }
        }
        None
    }
}
