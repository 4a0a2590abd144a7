//! Walking the log from its end to its beginning.

ghost use Rattle.std.specs.Prelude.{◌≡◌, ◌+◌, ◌^◌, ◌<◌, ℕ, IsTrue, IfErr, OnOk, length, replicate};
ghost use Rattle.vt_log.specs.Back.{IsTailOf};
ghost use Rattle.vt_log.specs.Faults.{CountsFaults};
ghost use Rattle.vt_log.specs.Log.{queued};
ghost use Rattle.vt_log.specs.Sound.{IsSoundLog};
ghost use Rattle.vt_model.specs.History.{History};
ghost use Rattle.vt_rebuild.specs.Walking.{AreCounted, GivesNext, KeepsLog, TellsOfLog, is_rebuild_fault};

use crate::RebuildBad;
use std::sync::ledger::Ledger;
use vt_arena::BackBad;
use vt_base::{Info, Scorer, Steps};
use vt_disk::Disk;
use vt_isect::bucket_number;
use vt_log::{Log, Tail};

/// What is known of the block that comes next on the way to the log's first, where one is left.
pub(crate) fn next_back<D: Disk, S: Scorer, L: Ledger>(
    log: &mut Log<D, S>,
    tail: &mut Tail,
    steps: &mut Steps<L>,
) -> Result<Info, RebuildBad>
    requires tail { IsTailOf log.old tail.old }
    requires some { 0 < tail.old.left }
    ensures { GivesNext S.score_of D.Disk result log.old log.new tail.old tail.new }
{
    match log.back(tail, steps) {
        Ok(Some(info)) => Ok(info),
        Ok(None) => unreachable!(),
        Err(BackBad::Fault) => Err(RebuildBad::Fault),
        Err(BackBad::Damaged { want, found }) => Err(RebuildBad::Damaged {
            place: log.tail_place(tail),
            want,
            found,
        }),
    }
}

/// Counts the blocks of each bucket, by its number: there are as many buckets as counts.
pub(crate) fn count_blocks<D: Disk, S: Scorer, L: Ledger>(
    log: &mut Log<D, S>,
    counts: &mut [u16],
    steps: &mut Steps<L>,
) -> Result<(), RebuildBad>
    requires zeros { counts.old ≡ replicate (length counts.old) 0 }
    requires some { 0 < length counts.old }
    requires few { length counts.old < 2 ^ 32 }
    ensures counted { (h : History) → IsTrue D.tells → IsSoundLog S.score_of D.Disk log.old h
        → OnOk result (AreCounted S.score_of (length counts.old) h counts.new) }
    ensures undamaged { (h : History) → IsTrue D.tells → IsSoundLog S.score_of D.Disk log.old h
        → IfErr result (λ bad. bad ≡ RebuildBad.Fault) }
    ensures len { length counts.new ≡ length counts.old }
    ensures keeps { KeepsLog S.score_of D.Disk log.old log.new }
    ensures faults { CountsFaults D.Disk is_rebuild_fault result log.old.disks log.new.disks }
    ensures ends_early { IfErr result TellsOfLog }
{
    let total = counts.len() as u32;
    let mut tail = log.tail();
    while tail.left() > 0 {
        let info = next_back(log, &mut tail, steps)?;
        let count = &mut counts[bucket_number(total, &info.key.score) as usize];
        *count = count.saturating_add(1);
    }
    Ok(())
}
