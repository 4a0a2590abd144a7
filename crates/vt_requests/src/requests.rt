//! Requests, driven to their answers.

ghost use Rattle.std.specs.Prelude.{◌≡◌, ◌<◌, Some, length, slice_get};
ghost use Rattle.vt_base.specs.declared.answer.Answer.{Answer};
ghost use Rattle.vt_base.specs.declared.answer.Said.{Said};
ghost use Rattle.vt_base.specs.declared.operation.Operation.{Operation};
ghost use Rattle.vt_log.specs.declared.TheConstants.{QUEUE_MAX};
ghost use Rattle.vt_log.specs.Log.{queued};
ghost use Rattle.vt_shard.specs.Shard.{ShardState};
ghost use Rattle.vt_shard.specs.declared.TheConstants.{ROOM};
ghost use Rattle.vt_core.specs.declared.event.Event.{Event};
ghost use Rattle.vt_core.specs.declared.event.Out.{Out};
ghost use Rattle.vt_core.specs.Asking.{shard_of};
ghost use Rattle.vt_core.specs.Core.{history_len};
ghost use Rattle.vt_core.specs.Steps.{Steps};
ghost use Rattle.vt_core.specs.Machine.{WaitsAt, WaitsForNone};
ghost use Rattle.vt_requests.specs.Answers.{DrivesRequest, done};
ghost use Rattle.vt_requests.specs.Requests.{EndsWait, WritesAgain, refused};

use crate::working::{commit, make_room};
use std::alloc::Global;
use vt_base::{Answer, Operation, Said, Scorer, Why};
use vt_core::{Core, Event, Out};
use vt_disk::Disk;

/// Asks a store for an operation of a session that waits for none, and does the
/// store's own work until that is answered. `now` is the time of a clump that it adds.
///
/// Where a block finds no room, since the queue is full or its shard has no spare, the log is
/// advanced, or entries of the shard are written back, until it does. A sync advances the log until
/// what was accepted before it is durable. Where that work fails, the failure is answered, and
/// nothing is added. Every other request makes no device call but reads.
pub fn ask<D: Disk, S: Scorer>(
    core: &mut Core<D, S>,
    alloc: Global,
    session: u32,
    operation: Operation<'_>,
    now: u32,
) -> Answer
    requires { WaitsForNone core.old.waiting session }
    ensures { DrivesRequest S.score_of D.Disk session operation.entry now result
        core.old core.new }
{
    match core.step(
        alloc,
        Event::Ask {
            session,
            operation,
            now,
        },
    ) {
        Out::Said(answer) => answer,
        Out::NotYet => match operation {
            Operation::Write { kind, bytes } => write_again(core, alloc, session, kind, bytes, now),
            Operation::Read { .. } | Operation::Sync => unreachable!(),
        },
        Out::Waits => end_wait(core, alloc, session),
        Out::Moved | Out::Nothing | Out::Failed(_) => unreachable!(),
    }
}

/// Makes all durable that was accepted, as a sync of a session that waits for none.
pub fn sync<D: Disk, S: Scorer>(
    core: &mut Core<D, S>,
    alloc: Global,
    session: u32,
) -> Result<(), Why>
    requires { WaitsForNone core.old.waiting session }
    ensures { (a : Answer) × (result ≡ done a.said)
        × DrivesRequest S.score_of D.Disk session Operation.Sync 0 a core.old core.new }
{
    match ask(core, alloc, session, Operation::Sync, 0).said {
        Said::Refused(why) => Err(why),
        Said::Score(_) | Said::Block(_) | Said::Synced => Ok(()),
    }
}

/// Makes room for a block that found none, and writes it then.
fn write_again<D: Disk, S: Scorer>(
    core: &mut Core<D, S>,
    alloc: Global,
    session: u32,
    kind: u8,
    bytes: &[u8],
    now: u32,
) -> Answer
    requires { WaitsForNone core.old.waiting session }
    ensures { WritesAgain S.score_of D.Disk session (Operation.Write kind bytes.entry) now result
        core.old core.new }
{
    let at = core.history_len();
    let shard = core.shard_of(&core.score(bytes));
    match make_room(core, alloc, shard) {
        Ok(()) => write_in_room(core, alloc, session, kind, bytes, now),
        Err(why) => refused(why, at),
    }
}

/// Writes a block for which there is room.
fn write_in_room<D: Disk, S: Scorer>(
    core: &mut Core<D, S>,
    alloc: Global,
    session: u32,
    kind: u8,
    bytes: &[u8],
    now: u32,
) -> Answer
    requires free { WaitsForNone core.old.waiting session }
    requires queue { queued core.old.log < QUEUE_MAX }
    requires spare { (s : ShardState D)
        → slice_get core.old.shards (shard_of core.old (S.score_of bytes.now)) ≡ Some s
        → length s.index.dirty < ROOM }
    ensures { Steps S.score_of D.Disk (Event.Ask session (Operation.Write kind bytes.entry) now)
        (Out.Said result) core.old core.new }
{
    let operation = Operation::Write { kind, bytes };
    match core.step(
        alloc,
        Event::Ask {
            session,
            operation,
            now,
        },
    ) {
        Out::Said(answer) => answer,
        Out::NotYet | Out::Waits | Out::Moved | Out::Nothing | Out::Failed(_) => unreachable!(),
    }
}

/// Advances the log until the sync that a session waits for can be answered, and takes the answer.
fn end_wait<D: Disk, S: Scorer>(core: &mut Core<D, S>, alloc: Global, session: u32) -> Answer
    requires { WaitsAt core.old.waiting session (history_len core.old) }
    ensures { EndsWait S.score_of D.Disk session result core.old core.new }
{
    let number = core.history_len();
    let made = commit(core, alloc, number);
    let Out::Said(answer) = core.step(alloc, Event::Answer(session)) else {
        unreachable!()
    };
    match made {
        Ok(()) => answer,
        Err(why) => refused(why, answer.at),
    }
}

/// The answer to a request for which the store's work failed.
fn refused(why: Why, at: u64) -> Answer
    ensures { result ≡ refused why at }
{
    Answer {
        said: Said::Refused(why),
        at,
    }
}
