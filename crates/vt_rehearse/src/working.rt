//! The rounds of a rehearsal that sync, and those in which the store does a piece of its own work.

ghost use Rattle.std.specs.Prelude.{◌≡◌, ◌+◌, ◌<◌, ◌≤◌, ℕ, [], ◌∷◌};
ghost use Rattle.vt_core.specs.Core.{history_len};
ghost use Rattle.vt_core.specs.Events.{IsFor};
ghost use Rattle.vt_log.specs.Owed.{owed};
ghost use Rattle.vt_model.specs.History.{History};
ghost use Rattle.vt_rehearse.specs.Counts.{with_events};
ghost use Rattle.vt_rehearse.specs.Limits.{AreAtMost, EVENTS_MOST, GrowsByRound, MOST};
ghost use Rattle.vt_rehearse.specs.Rehearsal.{CommitsAll, SyncsSession, RunsEvents};
ghost use Rattle.vt_rehearse.specs.Stage.{AreAlike, IsMemory, IsNoRequest, IsSteady};
ghost use Rattle.vt_rehearse.specs.declared.TheConstants.{SESSIONS, SHARDS};

use crate::stage::Stage;
use std::alloc::Global;
use vt_base::{Operation, Scorer};
use vt_core::{Event, Out};
use vt_disk::Disk;

/// A session asks for a sync, the log makes all blocks durable, and the session is told so.
pub(crate) fn sync<D: Disk, S: Scorer>(stage: &mut Stage<D, S>, alloc: Global, session: u32)
    requires memory { IsMemory D.Disk }
    requires session { session < SESSIONS }
    requires alike { AreAlike S.score_of D.Disk stage.old }
    requires most { AreAtMost MOST stage.old.summary }
    ensures syncs { SyncsSession S.score_of D.Disk session stage.old stage.new }
    ensures alike { AreAlike S.score_of D.Disk stage.new }
    ensures grows { GrowsByRound stage.old.summary stage.new.summary }
{
    let operation = Operation::Sync;
    let event = Event::Ask {
        session,
        operation,
        now: 0,
    };
    stage.step(alloc, event);
    commit_all(stage, alloc);
    match stage.step(alloc, Event::Answer(session)) {
        Out::Said(answer) => {
            stage.judge_sync(&answer);
            stage.note_synced();
        }
        _ => unreachable!(),
    }
}

/// The log makes device calls until all blocks are durable.
fn commit_all<D: Disk, S: Scorer>(stage: &mut Stage<D, S>, alloc: Global)
    requires memory { IsMemory D.Disk }
    requires steady { (h : History) × IsSteady S.score_of D.Disk stage.old.core h }
    requires few { owed stage.old.core.log ≤ EVENTS_MOST }
    requires most { AreAtMost (MOST + 1) stage.old.summary }
    ensures commits { (calls : ℕ) × (calls ≤ EVENTS_MOST)
        × CommitsAll S.score_of D.Disk calls stage.old.core stage.new.core
        × (stage.new ≡ record stage.old {
          core = stage.new.core;
          summary = with_events calls stage.old.summary;
        }) }
    ensures steady { (h : History) → IsSteady S.score_of D.Disk stage.old.core h
        → IsSteady S.score_of D.Disk stage.new.core h }
    ensures waiting { stage.new.core.waiting ≡ stage.old.core.waiting }
    ensures durable { stage.new.core.log.durable ≡ history_len stage.new.core }
{
    while stage.durable() < stage.history_len() {
        stage.step(alloc, Event::LogAdvance);
    }
}

/// The store does a piece of its own work.
pub(crate) fn work<D: Disk, S: Scorer>(
    mut stage: Stage<D, S>,
    alloc: Global,
    event: Event<'_>,
) -> Stage<D, S>
    requires memory { IsMemory D.Disk }
    requires work { IsNoRequest event }
    requires event { IsFor SESSIONS SHARDS event }
    requires alike { AreAlike S.score_of D.Disk stage }
    requires most { AreAtMost MOST stage.summary }
    ensures works { RunsEvents S.score_of D.Disk (event.entry ∷ []) stage result }
    ensures alike { AreAlike S.score_of D.Disk result }
    ensures grows { GrowsByRound stage.summary result.summary }
{
    stage.step(alloc, event);
    stage
}
