//! One block, read of a store or written to it.

ghost use Rattle.std.specs.Prelude.{◌≡◌, ℕ, List, Option, Result};
ghost use Rattle.vt_base.specs.declared.score.Score.{Score};
ghost use Rattle.vt_base.specs.declared.why.Why.{Why};
ghost use Rattle.vt_model.specs.History.{Block};
ghost use Rattle.vt_requests.specs.Driven.{DrivenState};
ghost use Rattle.vt_tree.specs.declared.error.BlockErr.{BlockErr};
ghost use Rattle.vt_use.specs.LocalJobs.{DoesOnStore};
ghost use Rattle.vt_use.specs.OneBlock.{ArePut, ReadsOne, WritesOne, own_answer, asks_block};
ghost use Rattle.vt_use.specs.Stores.{Exchange, store_on};

use crate::block_job::BlockJob;
use std::alloc::Global;
use vt_base::{Bytes, Kind, MAX_BLOCK, Score, Why};
use vt_disk::Disk;
use vt_tree::{BlockErr, Blocks};

/// The block of a type and a score is read.
#[derive(Clone, Copy)]
pub struct ReadBlock {
    pub kind: Kind,
    pub score: Score,
}

impl BlockJob<()> for ReadBlock {
    ghost use Rattle.std.specs.Prelude.{⊤, false};
    ghost use Rattle.vt_use.specs.OneBlock.{ReadsOne};

    type Output = Result<Bytes, BlockErr>;

    ghost fits = { λ it beside. ⊤ };

    ghost does = { λ S act holds score_of it output beside beside' calls old new.
        ReadsOne it.kind it.score.0 output calls };

    ghost writes = { λ it. false };

    /// It only reads.
    fn writes(&self) -> bool {
        false
    }

    /// Asks for the block.
    fn run<B: Blocks>(
        &self,
        alloc: Global,
        blocks: &mut B,
        beside: &mut (),
    ) -> Result<Bytes, BlockErr> {
        blocks.get(alloc, self.kind, &self.score)
    }
}

/// A block of at most 57,344 bytes is written, and made durable with all that the store holds.
#[derive(Drop)]
pub struct WriteBlock<'a> {
    pub kind: Kind,
    pub bytes: &'a [u8],
}

impl<'a> BlockJob<()> for WriteBlock<'a> {
    ghost use Rattle.std.specs.Prelude.{◌≤◌, true, length};
    ghost use Rattle.vt_base.specs.declared.TheConstants.{MAX_BLOCK};
    ghost use Rattle.vt_use.specs.OneBlock.{WritesOne};

    type Output = Result<Score, BlockErr>;

    ghost fits = { λ it beside. length it.bytes.now ≤ MAX_BLOCK };

    ghost does = { λ S act holds score_of it output beside beside' calls old new.
        WritesOne score_of (record { kind = it.kind; bytes = it.bytes.now }) output calls };

    ghost writes = { λ it. true };

    /// It writes.
    fn writes(&self) -> bool {
        true
    }

    /// Puts the block and then syncs; where the block is refused, nothing is synced.
    fn run<B: Blocks>(
        &self,
        alloc: Global,
        blocks: &mut B,
        beside: &mut (),
    ) -> Result<Score, BlockErr> {
        let score = blocks.put(alloc, self.kind, self.bytes)?;
        blocks.sync(alloc)?;
        Ok(score)
    }
}

/// What a store of this process answered itself, where it said no first for this reason, if it did.
pub fn own_answer<T>(output: Result<T, BlockErr>, first_refusal: Option<Why>) -> Result<T, Why>
    ensures { result ≡ own_answer output first_refusal }
{
    match (output, first_refusal) {
        (Ok(value), _) => Ok(value),
        (Err(_), Some(why)) => Err(why),
        (Err(_), None) => Err(Why::NoMemory),
    }
}

/// What a store on devices is asked for by these jobs, and what it answers.
pub fn blocks_are_asked<D: Disk>()
    ensures read { (score : List ℕ → List ℕ) (kind : ℕ) (s : List ℕ)
        (output : Result (List ℕ) BlockErr) (refused : Option Why) (exchanges : List Exchange)
        (old new : DrivenState D)
        → DoesOnStore (store_on score D.Disk) (λ calls l l'. ReadsOne kind s output calls) refused
        exchanges old new
        → exchanges ≡ asks_block kind s (own_answer output refused) }
    ensures written { (score : List ℕ → List ℕ) (b : Block) (output : Result Score BlockErr)
        (refused : Option Why) (exchanges : List Exchange) (old new : DrivenState D)
        → DoesOnStore (store_on score D.Disk) (λ calls l l'. WritesOne score b output calls)
        refused exchanges old new
        → ArePut b.kind b.bytes (own_answer output refused) exchanges }
{}
