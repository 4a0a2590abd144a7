//! A store's operations, each with what it gives.

ghost use Rattle.std.specs.Prelude.{◌≡◌, ◌≤◌, IfOk, length};
ghost use Rattle.vt_base.specs.declared.TheConstants.{MAX_BLOCK};
ghost use Rattle.vt_base.specs.Protocol.{read, write, sync, r_read, r_write, r_sync};
ghost use Rattle.vt_model.specs.History.{History};
ghost use Rattle.vt_handler.specs.Condition.{ConditionGoesOn};
ghost use Rattle.vt_handler.specs.Serving.{ServesOperation, TellsCause, answered};

use crate::Store;
use std::alloc::Global;
use vt_base::{Bytes, Operation, Said, Score, Why};

/// Takes a block in, and gives its score. A sync makes it durable.
pub fn write<T: Store>(alloc: Global, store: &mut T, kind: u8, bytes: &[u8]) -> Result<Score, Why>
    ensures serves { (h : History) → T.holds store.old h
        → ServesOperation T.score_of (T.condition store.old) (T.condition store.new)
        (T.holds store.new) h
        (write kind bytes.now) (λ score. r_write score.0) result }
    ensures cause { TellsCause (T.condition store.old) (T.condition store.new) result }
    ensures goes_on { ConditionGoesOn (T.condition store.old) (T.condition store.new) }
    ensures once { T.does store.old (write kind bytes.now)
        (answered (λ score. r_write score.0) result) store.new }
    ensures scored { IfOk result (λ score. score.0 ≡ T.score_of bytes.now) }
{
    match store.ask(alloc, Operation::Write { kind, bytes }) {
        Said::Score(score) => Ok(score),
        Said::Refused(why) => Err(why),
        Said::Block(_) | Said::Synced => unreachable!(),
    }
}

/// The bytes of a block, if it has `count` at most.
pub fn read<T: Store>(
    alloc: Global,
    store: &mut T,
    score: &Score,
    kind: u8,
    count: u32,
) -> Result<Bytes, Why>
    ensures serves { (h : History) → T.holds store.old h
        → ServesOperation T.score_of (T.condition store.old) (T.condition store.new)
        (T.holds store.new) h
        (read score.now.0 kind count) (λ block. r_read block) result }
    ensures cause { TellsCause (T.condition store.old) (T.condition store.new) result }
    ensures goes_on { ConditionGoesOn (T.condition store.old) (T.condition store.new) }
    ensures once { T.does store.old (read score.now.0 kind count)
        (answered (λ block. r_read block) result) store.new }
    ensures most { IfOk result (λ block. length block ≤ MAX_BLOCK) }
{
    let score = *score;
    match store.ask(alloc, Operation::Read { score, kind, count }) {
        Said::Block(block) => Ok(block),
        Said::Refused(why) => Err(why),
        Said::Score(_) | Said::Synced => unreachable!(),
    }
}

/// Makes every block durable that was accepted before it.
pub fn sync<T: Store>(alloc: Global, store: &mut T) -> Result<(), Why>
    ensures serves { (h : History) → T.holds store.old h
        → ServesOperation T.score_of (T.condition store.old) (T.condition store.new)
        (T.holds store.new) h
        sync (λ _. r_sync) result }
    ensures cause { TellsCause (T.condition store.old) (T.condition store.new) result }
    ensures goes_on { ConditionGoesOn (T.condition store.old) (T.condition store.new) }
    ensures once { T.does store.old sync (answered (λ _. r_sync) result) store.new }
{
    match store.ask(alloc, Operation::Sync) {
        Said::Synced => Ok(()),
        Said::Refused(why) => Err(why),
        Said::Score(_) | Said::Block(_) => unreachable!(),
    }
}
