//! Reading one block, and writing one.

ghost use Rattle.std.specs.Prelude.{◌≡◌, ◌≤◌, IfOk, length};
ghost use Rattle.vt_base.specs.declared.TheConstants.{MAX_BLOCK};
ghost use Rattle.vt_core.specs.Machine.{WaitsForNone};
ghost use Rattle.vt_use.specs.Blocks.{ReadsBlock, WritesBlock, closed_behind};

use crate::block_job::LocalJob;
use crate::one_block::{ReadBlock, WriteBlock, blocks_are_asked, own_answer};
use crate::using::use_core;
use std::alloc::Global;
use vt_base::{Bytes, Kind, Score, Scorer, Why};
use vt_core::Core;
use vt_disk::Disk;

/// Asks a store whose first session waits for nothing for the block of a type and a score. That
/// only reads. The scorer is the store's own.
pub fn read_block<D: Disk, S: Scorer + Drop>(
    alloc: Global,
    core: Core<D, S>,
    scorer: S,
    kind: Kind,
    score: &Score,
) -> (Result<Bytes, Why>, Core<D, S>)
    requires { WaitsForNone core.waiting 0 }
    ensures reads { ReadsBlock S.score_of D.Disk kind score.now.0 result.0 core result.1 }
    ensures most { IfOk result.0 (λ bytes. length bytes ≤ MAX_BLOCK) }
{
    blocks_are_asked::<D>();
    let job = LocalJob {
        job: ReadBlock {
            kind,
            score: *score,
        },
        scorer: &scorer,
    };
    let (used, core) = use_core(alloc, core, 0, &job, &mut ());
    let (block, first_refusal) = used.output;
    (own_answer(block, first_refusal), core)
}

/// Hands a block of at most 57,344 bytes to a store whose first session waits for nothing, makes
/// all durable that the store has accepted, and ends the store's use, whatever was answered. The
/// score is given where all of that was done. The scorer is the store's own. `now` is the time of
/// a clump that is added.
pub fn write_block<D: Disk, S: Scorer + Drop>(
    alloc: Global,
    core: Core<D, S>,
    scorer: S,
    now: u32,
    kind: Kind,
    bytes: &[u8],
) -> (Result<Score, Why>, Core<D, S>)
    requires free { WaitsForNone core.waiting 0 }
    requires most { length bytes.now ≤ MAX_BLOCK }
    ensures writes { WritesBlock S.score_of D.Disk now kind bytes.now result.0 core result.1 }
    ensures scored { IfOk result.0 (λ score. score.0 ≡ S.score_of bytes.now) }
{
    blocks_are_asked::<D>();
    let job = LocalJob {
        job: WriteBlock { kind, bytes },
        scorer: &scorer,
    };
    let (used, core) = use_core(alloc, core, now, &job, &mut ());
    let (put, first_refusal) = used.output;
    (
        closed_behind(own_answer(put, first_refusal), used.closed),
        core,
    )
}

/// The first refusal of the two, or the score.
fn closed_behind(put: Result<Score, Why>, closed: Result<(), Why>) -> Result<Score, Why>
    ensures { result ≡ closed_behind put closed }
{
    let score = put?;
    closed?;
    Ok(score)
}
