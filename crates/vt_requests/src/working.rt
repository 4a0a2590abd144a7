//! The store's own work: commits of the log, and writebacks of a shard's entries.

ghost use Rattle.std.specs.Prelude.{◌≡◌, ◌-◌, ◌<◌, ◌≤◌, Ok, OnOk, Some, length, slice_get};
ghost use Rattle.std.specs.List.{Contains};
ghost use Rattle.vt_base.specs.declared.place.Info.{Info};
ghost use Rattle.vt_log.specs.declared.TheConstants.{QUEUE_MAX};
ghost use Rattle.vt_log.specs.Log.{queued};
ghost use Rattle.vt_shard.specs.Shard.{ShardState};
ghost use Rattle.vt_shard.specs.declared.TheConstants.{ROOM};
ghost use Rattle.vt_core.specs.Core.{history_len};
ghost use Rattle.vt_requests.specs.Working.{DoesWork, HasNoSpare, NeedsDurable, NeedsRoom, work_left};

use std::alloc::Global;
use vt_base::{Scorer, Why};
use vt_core::{Core, Event, Out};
use vt_disk::Disk;
use vt_log::QUEUE_MAX;

/// Advances the log until so many blocks are durable.
pub(crate) fn commit<D: Disk, S: Scorer>(
    core: &mut Core<D, S>,
    alloc: Global,
    number: u64,
) -> Result<(), Why>
    requires { number ≤ history_len core.old }
    ensures works { DoesWork S.score_of D.Disk (NeedsDurable number) result core.old core.new }
    ensures durable { OnOk result (number ≤ core.new.log.durable) }
{
    while core.durable() < number {
        match core.step(alloc, Event::LogAdvance) {
            Out::Moved => {}
            Out::Failed(why) => return Err(why),
            Out::Nothing | Out::Said(_) | Out::Waits | Out::NotYet => unreachable!(),
        }
    }
    Ok(())
}

/// Makes room for a block of this shard: in the log's queue, and among the shard's dirty entries.
pub(crate) fn make_room<D: Disk, S: Scorer>(
    core: &mut Core<D, S>,
    alloc: Global,
    shard: u32,
) -> Result<(), Why>
    requires { shard < length core.old.shards }
    ensures works { DoesWork S.score_of D.Disk (NeedsRoom shard) result core.old core.new }
    ensures queue { OnOk result (queued core.new.log < QUEUE_MAX) }
    ensures spare { (s : ShardState D) → result ≡ Ok tt
        → slice_get core.new.shards shard ≡ Some s → length s.index.dirty < ROOM }
{
    let most = QUEUE_MAX as u64 - 1;
    let number = core.history_len().saturating_sub(most);
    commit(core, alloc, number)?;
    make_spare(core, alloc, shard)
}

/// Writes entries of a shard back until it has spare.
fn make_spare<D: Disk, S: Scorer>(
    core: &mut Core<D, S>,
    alloc: Global,
    shard: u32,
) -> Result<(), Why>
    requires { shard < length core.old.shards }
    ensures works { DoesWork S.score_of D.Disk (NeedsRoom shard) result core.old core.new }
    ensures queue { queued core.new.log ≤ queued core.old.log }
    ensures spare { (s : ShardState D) → result ≡ Ok tt
        → slice_get core.new.shards shard ≡ Some s → length s.index.dirty < ROOM }
{
    while core.spare(shard) == 0 {
        work_in_shard(core, alloc, shard)?;
    }
    Ok(())
}

/// Does a piece of work that brings a shard without spare nearer to having some: of its writeback,
/// which is begun where none is under way, or of the log, where nothing durable waits to be written
/// back.
fn work_in_shard<D: Disk, S: Scorer>(
    core: &mut Core<D, S>,
    alloc: Global,
    shard: u32,
) -> Result<(), Why>
    requires full { HasNoSpare shard core.old }
    requires accepted { (s : ShardState D) (info : Info) → slice_get core.old.shards shard ≡ Some s
        → Contains s.index.dirty info → info.number < history_len core.old }
    ensures works { DoesWork S.score_of D.Disk (NeedsRoom shard) result core.old core.new }
    ensures less { OnOk result (work_left shard core.new < work_left shard core.old) }
{
    match core.step(alloc, Event::FileAdvance(shard)) {
        Out::Moved => return Ok(()),
        Out::Failed(why) => return Err(why),
        Out::Nothing => {}
        Out::Said(_) | Out::Waits | Out::NotYet => unreachable!(),
    }
    match core.step(alloc, Event::FileBegin(shard)) {
        Out::Moved => return Ok(()),
        Out::Nothing => {}
        Out::Failed(_) | Out::Said(_) | Out::Waits | Out::NotYet => unreachable!(),
    }
    match core.step(alloc, Event::LogAdvance) {
        Out::Moved => Ok(()),
        Out::Failed(why) => Err(why),
        Out::Nothing | Out::Said(_) | Out::Waits | Out::NotYet => unreachable!(),
    }
}
