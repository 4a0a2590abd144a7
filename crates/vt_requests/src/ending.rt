//! The end of a store's use.

ghost use Rattle.std.specs.Prelude.{◌≡◌, ◌⊎◌, ◌<◌, ◌≤◌, ℕ, Ok, OnOk, Some, None, Result, length, slice_get};
ghost use Rattle.vt_core.specs.Core.{history_len};
ghost use Rattle.vt_core.specs.declared.event.Event.{Event};
ghost use Rattle.vt_bloom.specs.Bloom.{BloomState};
ghost use Rattle.vt_core.specs.Work.{IsSaved};
ghost use Rattle.vt_requests.specs.Ending.{Ends, FilesAll, first_of};
ghost use Rattle.vt_requests.specs.Working.{FilesEntries, DoesWork, HasFiled, HasNoWriteback, IsEnding};

use crate::working::commit;
use std::alloc::Global;
use vt_base::{Scorer, Why};
use vt_core::{Core, Event, Out};
use vt_disk::Disk;

/// Ends a store's use: what is queued is committed, the entry of every durable block is written
/// back, each mark is raised to the number of durable blocks, and the Bloom filter is saved. A part
/// in which that fails, or that had stopped, keeps no other from it. What failed first is told.
///
/// It takes no memory.
pub fn end<D: Disk, S: Scorer>(core: &mut Core<D, S>, alloc: Global) -> Result<(), Why>
    ensures { Ends S.score_of D.Disk result core.old core.new }
{
    let number = core.history_len();
    let committed = commit(core, alloc, number);
    let filed = file_all(core, alloc);
    let saved = save_filter(core, alloc);
    first_of(first_of(committed, filed), saved)
}

/// Writes the entries of durable blocks back in all shards. What failed first is told.
fn file_all<D: Disk, S: Scorer>(core: &mut Core<D, S>, alloc: Global) -> Result<(), Why>
    ensures { FilesAll S.score_of D.Disk (length core.old.shards) result core.old core.new }
{
    let mut all = Ok(());
    for shard in 0..core.shards() {
        let filed = file(core, alloc, shard);
        all = first_of(all, filed);
    }
    all
}

/// Writes the entries of durable blocks back in a shard: it ends the writeback that is under way,
/// and begins and ends one of all durable blocks.
fn file<D: Disk, S: Scorer>(core: &mut Core<D, S>, alloc: Global, shard: u32) -> Result<(), Why>
    requires { shard < length core.old.shards }
    ensures works { DoesWork S.score_of D.Disk (FilesEntries shard) result core.old core.new }
    ensures filed { OnOk result (HasFiled shard core.new) }
{
    advance_file(core, alloc, shard)?;
    core.step(alloc, Event::FileBegin(shard));
    advance_file(core, alloc, shard)
}

/// Advances the writeback of a shard until none is under way.
fn advance_file<D: Disk, S: Scorer>(
    core: &mut Core<D, S>,
    alloc: Global,
    shard: u32,
) -> Result<(), Why>
    requires { shard < length core.old.shards }
    ensures works { DoesWork S.score_of D.Disk (λ event k. event ≡ Event.FileAdvance shard) result
        core.old core.new }
    ensures rests { OnOk result (HasNoWriteback shard core.new) }
    ensures filed { IsEnding shard core.old → OnOk result (HasFiled shard core.new) }
{
    loop {
        match core.step(alloc, Event::FileAdvance(shard)) {
            Out::Moved => {}
            Out::Nothing => return Ok(()),
            Out::Failed(why) => return Err(why),
            Out::Said(_) | Out::Waits | Out::NotYet => unreachable!(),
        }
    }
}

/// Saves the filter, if there is a device for it.
fn save_filter<D: Disk, S: Scorer>(core: &mut Core<D, S>, alloc: Global) -> Result<(), Why>
    ensures works { DoesWork S.score_of D.Disk (λ event k. event ≡ Event.BloomAdvance) result
        core.old core.new }
    ensures saved { (b : BloomState D) → result ≡ Ok tt → core.new.bloom ≡ Some b
        → IsSaved core.new.log.durable b }
{
    loop {
        match core.step(alloc, Event::BloomAdvance) {
            Out::Moved => {}
            Out::Nothing => return Ok(()),
            Out::Failed(why) => return Err(why),
            Out::Said(_) | Out::Waits | Out::NotYet => unreachable!(),
        }
    }
}

/// The first failure of two steps, by which the end of the use is told.
fn first_of(first: Result<(), Why>, second: Result<(), Why>) -> Result<(), Why>
    ensures { result ≡ first_of first second }
{
    match first {
        Ok(()) => second,
        Err(why) => Err(why),
    }
}
