//! The command `session STORE`: one session over a store, in memory or of a configuration.
// Tests: crates/run_tests_sessions/src/session.rt, crates/run_tests_sessions/src/session_conf.rt.

ghost use Rattle.run_base.specs.Change.{files_change, parts_change, sink_change, source_change};
ghost use Rattle.run_sessions.specs.SessionAt.{DoesSessionAt};
ghost use Rattle.run_base.specs.Errors.{HasCauseIn, no_cause, with_files, with_parts, with_sink, with_source};

use crate::commands::session::session;
use crate::commands::session_conf::session_conf;
use run_base::{CommandError, is_in_memory};
use std::alloc::Global;
use vt_base::{Scorer, Text};
use vt_handler::Streams;
use vt_out::{Files, Sink, Source};
use vt_partitions::Parts;

/// Serves one session over the store that a word names, from this second on.
pub fn session_at<R: Source, K: Sink, I: Files, P: Parts, T: Sink + Drop, S: Scorer>(
    alloc: Global,
    streams: &mut Streams<R, K>,
    files: &mut I,
    parts: &mut P,
    terminal: Option<T>,
    now: u32,
    store: &Text,
    scorer: &S,
) -> Result<(), CommandError>
    ensures does { DoesSessionAt S.score_of P.Disk.Disk store.now result
        (source_change R.Source streams.old.source streams.new.source)
        (sink_change K.Sink streams.old.sink streams.new.sink)
        (files_change I.Files files.old files.new) (parts_change P.Parts parts.old parts.new) }
    ensures cause { HasCauseIn
        (with_source (source_change R.Source streams.old.source streams.new.source)
        (with_sink (sink_change K.Sink streams.old.sink streams.new.sink)
        (with_files (files_change I.Files files.old files.new)
        (with_parts P.Disk.Disk (parts_change P.Parts parts.old parts.new) no_cause)))) result }
{
    if is_in_memory(store) {
        session(alloc, streams, now, scorer)
    } else {
        session_conf(alloc, streams, files, parts, terminal, now, store, scorer)
    }
}
