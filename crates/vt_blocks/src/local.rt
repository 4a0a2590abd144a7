//! Any store as a store of blocks.

ghost use Rattle.std.specs.Prelude.{◌≡◌, ℕ, List, None};
ghost use Rattle.vt_blocks.specs.Local.{IsToldAs};

use std::alloc::{AllocError, Global};
use std::marker::Model;
use vt_base::{Bytes, Kind, MAX_BLOCK, Score, Scorer, Text, Why, why_text};
use vt_handler::{Store, read, sync, write};
use vt_tree::{BlockErr, Blocks};

/// A store, or one share of a store, as a store of blocks. It tells what it holds where nobody else
/// adds to it.
#[derive(Drop)]
pub struct Local<T: Store, S: Scorer> {
    store: T,
    /// What gives the scores, which are the store's.
    scorer: S,
    /// How many calls failed by a disk's fault.
    faults: u64,
    /// How many were refused for another reason than want of memory.
    refusals: u64,
    /// Why the store said no first, want of memory and a disk's fault included.
    refused: Option<Why>,
    ghost scores: { (bytes : List ℕ) → S.score_of bytes ≡ T.score_of bytes },
}

impl<T: Store, S: Scorer> Model for Local<T, S> {
    ghost use Rattle.vt_blocks.specs.Local.{LocalState};

    ghost Value = { LocalState T };

    ghost view = { λ l. record {
      store = l.store;
      counts = record { faults = l.faults; refusals = l.refusals };
      refused = l.refused;
    } };
}

impl<T: Store, S: Scorer> Local<T, S> {
    ghost use Rattle.std.specs.Prelude.{◌≡◌, Some};
    ghost use Rattle.std.specs.Option.{option_or};
    ghost use Rattle.vt_tree.specs.Calls.{with_refusal};

    /// This store, with the scorer by which it scores its blocks.
    pub fn new(store: T, scorer: S) -> Self
        requires { (bytes : List ℕ) → S.score_of bytes ≡ T.score_of bytes }
        ensures { result ≡ record {
          store = store;
          counts = record { faults = 0; refusals = 0 };
          refused = None;
        } }
    {
        Local {
            store,
            scorer,
            faults: 0,
            refusals: 0,
            refused: None,
        }
    }

    /// The store and the scorer, given back.
    pub fn into_parts(self) -> (T, S)
        ensures { result.0 ≡ self.store }
    {
        let Local {
            store,
            scorer,
            faults: _,
            refusals: _,
            refused: _,
        } = self;
        (store, scorer)
    }

    /// Why the store said no to the first call that it said no to; None where it never did.
    pub fn refused(&self) -> Option<Why>
        ensures { result ≡ self.now.refused }
    {
        self.refused
    }

    /// What a refusal of the store is to who sees a store of blocks, counted; why the first was is
    /// kept.
    fn refuse(&mut self, alloc: Global, why: Why) -> BlockErr
        ensures err { IsToldAs why result }
        ensures left { self.new ≡ record self.old {
          counts = with_refusal (Some result) self.old.counts;
          refused = option_or self.old.refused (Some why);
        } }
    {
        self.refused = self.refused.or(Some(why));
        let err = told(alloc, &why);
        match err {
            BlockErr::Fault => self.faults = self.faults.saturating_add(1),
            BlockErr::NoMemory => {}
            BlockErr::Refused(_) | BlockErr::WrongScore { .. } | BlockErr::Damaged { .. } => {
                self.refusals = self.refusals.saturating_add(1)
            }
        }
        err
    }
}

/// The refusal that says why, or want of memory for its text.
fn told(alloc: Global, why: &Why) -> BlockErr
    ensures { IsToldAs why.now result }
{
    match *why {
        Why::DiskFault => BlockErr::Fault,
        Why::NoMemory => BlockErr::NoMemory,
        Why::Damaged { want, found, .. } => BlockErr::Damaged { want, found },
        _ => match Text::copy_of(alloc, why_text(why).as_bytes()) {
            Ok(text) => BlockErr::Refused(text),
            Err(AllocError) => BlockErr::NoMemory,
        },
    }
}

impl<T: Store, S: Scorer> Scorer for Local<T, S> {
    ghost score_of = { S.score_of };

    ghost score_len = { S.score_len };

    ghost score_bytes = { S.score_bytes };

    /// The score by its scorer, which scores as the store does.
    fn score(&self, block: &[u8]) -> Score {
        self.scorer.score(block)
    }
}

impl<T: Store, S: Scorer> Blocks for Local<T, S> {
    ghost use Rattle.vt_blocks.specs.Local.{DoesLocal, HoldsLocal};
    ghost use Rattle.vt_blocks.specs.LocalLaws as laws;

    ghost does = { DoesLocal T.Store };

    ghost holds = { HoldsLocal T.Store S.score_of };

    ghost counts = { λ l. l.counts };

    ghost tells = { λ l l' call m does holds.
        laws.tells T.durable_is_held S.score_of l l' call m does holds };

    ghost synced_is_held = { λ l m holds.
        laws.synced_is_held T.durable_is_held S.score_of l m holds };

    ghost write_once = { λ l m holds.
        laws.write_once T.durable_is_held S.score_of l m holds };

    ghost counting = { λ l l' call does. does.counts };

    /// Asks the store for the block, of as many bytes as one may have at most. A refusal is
    /// counted, and why the first was is kept.
    fn get(&mut self, alloc: Global, kind: Kind, score: &Score) -> Result<Bytes, BlockErr> {
        match read(alloc, &mut self.store, score, kind.wire(), MAX_BLOCK as u32) {
            Ok(bytes) => Ok(bytes),
            Err(why) => Err(self.refuse(alloc, why)),
        }
    }

    /// Hands the block to the store, and gives the score that this answers. A refusal is counted,
    /// and why the first was is kept.
    fn put(&mut self, alloc: Global, kind: Kind, bytes: &[u8]) -> Result<Score, BlockErr> {
        match write(alloc, &mut self.store, kind.wire(), bytes) {
            Ok(score) => Ok(score),
            Err(why) => Err(self.refuse(alloc, why)),
        }
    }

    /// Asks the store for a sync. A refusal is counted, and why the first was is kept.
    fn sync(&mut self, alloc: Global) -> Result<(), BlockErr> {
        match sync(alloc, &mut self.store) {
            Ok(()) => Ok(()),
            Err(why) => Err(self.refuse(alloc, why)),
        }
    }
}
