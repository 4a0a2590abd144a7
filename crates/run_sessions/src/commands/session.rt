//! The command `session :memory:`: one session over a store in memory.
// Tests: crates/run_tests_sessions/src/session.rt.

ghost use Rattle.std.specs.Prelude.{◌≡◌};
ghost use Rattle.run_base.specs.Change.{PassesNothing, sink_change, source_change};
ghost use Rattle.run_sessions.specs.Session.{DoesSession, ServesMemory};
ghost use Rattle.run_base.specs.Errors.{HasCauseIn, no_cause, with_sink, with_source};

use run_base::{CommandError, memory_store, outcome_of};
use std::alloc::Global;
use vt_base::Scorer;
use vt_empty::laws::memory_never_fails;
use vt_handler::Streams;
use vt_memdisk::MemDisk;
use vt_out::{Sink, Source};
use vt_session::Ended;
use vt_use::{StoreServed, serve_store, sound_stores_need_memory};

/// Serves one session over a store that begins empty, from this second on. What can be answered is
/// answered, and has gone out, before more is read.
pub fn session<R: Source, K: Sink, S: Scorer>(
    alloc: Global,
    streams: &mut Streams<R, K>,
    now: u32,
    scorer: &S,
) -> Result<(), CommandError>
    ensures does { DoesSession S.score_of result
        (source_change R.Source streams.old.source streams.new.source)
        (sink_change K.Sink streams.old.sink streams.new.sink) }
    ensures cause { HasCauseIn
        (with_source (source_change R.Source streams.old.source streams.new.source)
        (with_sink (sink_change K.Sink streams.old.sink streams.new.sink) no_cause)) result }
{
    outcome_of(serve_memory(alloc, streams, now, scorer))
}

/// Makes the store, and serves the session.
fn serve_memory<R: Source, K: Sink, S: Scorer>(
    alloc: Global,
    streams: &mut Streams<R, K>,
    now: u32,
    scorer: &S,
) -> StoreServed
    ensures serves { ServesMemory S.score_of result
        (source_change R.Source streams.old.source streams.new.source)
        (sink_change K.Sink streams.old.sink streams.new.sink) }
    ensures idle { result.ended ≡ Ended.NoMemory → PassesNothing
        (source_change R.Source streams.old.source streams.new.source)
        (sink_change K.Sink streams.old.sink streams.new.sink) }
{
    memory_never_fails();
    sound_stores_need_memory::<MemDisk>();
    let Ok(core) = memory_store(alloc, scorer) else {
        return StoreServed {
            ended: Ended::NoMemory,
            taken: 0,
            failure: None,
            closed: Ok(()),
        };
    };
    let (served, _) = serve_store(alloc, core, now, streams);
    served
}
