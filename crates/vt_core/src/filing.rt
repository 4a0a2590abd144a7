//! The work of the shards: their writebacks, and what they drop from memory.

ghost use Rattle.std.specs.Prelude.{◌≡◌, ◌<◌, if◌then◌else◌, length};
ghost use Rattle.vt_core.specs.declared.event.Event.{Event};
ghost use Rattle.vt_core.specs.declared.event.Out.{Out};
ghost use Rattle.vt_core.specs.declared.event.Out.TheVariants.{Moved, Nothing};
ghost use Rattle.vt_core.specs.Work.{out_of_writeback};

use crate::event::Out;
use crate::laws::crash_gives_a_prefix;
use crate::store::Core;
use vt_base::Scorer;
use vt_disk::Disk;
use vt_isect::ShardErr;
use vt_lookup::why_of_shard;
use vt_twin::Step;

impl<D: Disk, S: Scorer> Core<D, S> {
    ghost use Rattle.vt_core.specs.Steps.{Steps};

    /// A shard begins to write back the entries of all durable blocks, where no writeback is under
    /// way and there is something to do.
    pub(crate) fn begin_file(&mut self, shard: u32) -> Out
        requires { shard < length self.old.shards }
        ensures { Steps S.score_of D.Disk (Event.FileBegin shard) result self.old self.new }
    {
        crash_gives_a_prefix::<D>();
        let durable = self.log.durable();
        let part = &mut self.shards[shard as usize];
        if part.owed() > 0 {
            return Out::Nothing;
        }
        let begun = part.begin_file(durable);
        moved_if(begun)
    }

    /// The writeback under way, if one is, makes its next device call.
    pub(crate) fn advance_file(&mut self, shard: u32) -> Out
        requires { shard < length self.old.shards }
        ensures { Steps S.score_of D.Disk (Event.FileAdvance shard) result self.old self.new }
    {
        crash_gives_a_prefix::<D>();
        let part = &mut self.shards[shard as usize];
        if part.owed() == 0 {
            return Out::Nothing;
        }
        let answer = part.advance();
        out_of_writeback(answer)
    }

    /// It drops the block that was used least recently.
    pub(crate) fn drop_lump(&mut self, shard: u32) -> Out
        requires { shard < length self.old.shards }
        ensures { Steps S.score_of D.Disk (Event.EvictLump shard) result self.old self.new }
    {
        crash_gives_a_prefix::<D>();
        let dropped = self.shards[shard as usize].drop_last();
        moved_if(dropped)
    }

    /// It drops the entry on its disk that was used least recently.
    pub(crate) fn drop_entry(&mut self, shard: u32) -> Out
        requires { shard < length self.old.shards }
        ensures { Steps S.score_of D.Disk (Event.EvictIndex shard) result self.old self.new }
    {
        crash_gives_a_prefix::<D>();
        let dropped = self.shards[shard as usize].evict();
        moved_if(dropped)
    }
}

/// What a call of a writeback gives.
fn out_of_writeback(answer: Result<Step, ShardErr>) -> Out
    ensures { result ≡ out_of_writeback answer }
{
    match answer {
        Ok(_) => Out::Moved,
        Err(bad) => Out::Failed(why_of_shard(bad)),
    }
}

/// What an event of the store's own work gives: that something was done, or that there was nothing
/// to do.
fn moved_if(done: bool) -> Out
    ensures { result ≡ if done then Moved else Nothing }
{
    if done { Out::Moved } else { Out::Nothing }
}
