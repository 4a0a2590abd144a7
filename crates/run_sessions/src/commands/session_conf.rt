//! The command `session CONF`: one session over the store that a configuration names.
// Tests: crates/run_tests_sessions/src/session_conf.rt.

ghost use Rattle.std.specs.Prelude.{◌≡◌, ◌⊎◌, ◌+◌, ◌^◌, ◌<◌, IsTrue, length};
ghost use Rattle.vt_core.specs.Core.{devices_of};
ghost use Rattle.vt_core.specs.Machine.{WaitsForNone};
ghost use Rattle.vt_open.specs.Names.{HaveOneShape, files_of};
ghost use Rattle.run_base.specs.Change.{files_change, parts_change, sink_change, source_change};
ghost use Rattle.run_sessions.specs.SessionConf.{DoesSessionConf, ServesConf, ServesOpened};
ghost use Rattle.run_base.specs.Unopened.{TellsUnopened};
ghost use Rattle.run_base.specs.Errors.{HasCauseIn, no_cause, with_files, with_parts, with_sink, with_source};

use run_base::{CommandError, outcome_of, read_conf, told};
use std::alloc::Global;
use vt_base::{Scorer, Text};
use vt_conf::Conf;
use vt_core::Core;
use vt_handler::Streams;
use vt_open::{close_store, configurations_can_be_opened, open_store, shapes_are_kept};
use vt_out::{Files, Sink, Source};
use vt_partitions::Parts;
use vt_use::{serve_store, sessions_are_runs};

/// Reads the configuration, opens its store, serves one session over it, from this second on, and
/// closes it, whatever ended the session. Where the store isn't opened, nothing is read or written.
pub fn session_conf<R: Source, K: Sink, I: Files, P: Parts, T: Sink + Drop, S: Scorer>(
    alloc: Global,
    streams: &mut Streams<R, K>,
    files: &mut I,
    parts: &mut P,
    terminal: Option<T>,
    now: u32,
    file: &Text,
    scorer: &S,
) -> Result<(), CommandError>
    ensures does { DoesSessionConf S.score_of P.Disk.Disk file.now result
        (source_change R.Source streams.old.source streams.new.source)
        (sink_change K.Sink streams.old.sink streams.new.sink)
        (files_change I.Files files.old files.new) (parts_change P.Parts parts.old parts.new) }
    ensures cause { HasCauseIn
        (with_source (source_change R.Source streams.old.source streams.new.source)
        (with_sink (sink_change K.Sink streams.old.sink streams.new.sink)
        (with_files (files_change I.Files files.old files.new)
        (with_parts P.Disk.Disk (parts_change P.Parts parts.old parts.new) no_cause)))) result }
{
    configurations_can_be_opened();
    let conf = read_conf(alloc, files, file)?;
    serve_conf(alloc, streams, parts, terminal, now, file, scorer, &conf)
}

/// Serves a session over the store of a configuration, if it is opened.
fn serve_conf<R: Source, K: Sink, P: Parts, T: Sink + Drop, S: Scorer>(
    alloc: Global,
    streams: &mut Streams<R, K>,
    parts: &mut P,
    terminal: Option<T>,
    now: u32,
    file: &Text,
    scorer: &S,
    conf: &Conf,
) -> Result<(), CommandError>
    requires few { length conf.now.arenas.items + length conf.now.sections.items + 1 < 2 ^ 32 }
    requires some_arenas { 0 < length conf.now.arenas.items }
    requires some_section { 0 < length conf.now.sections.items }
    ensures { TellsUnopened S.score_of P.Disk.Disk file.now conf.now result
        (source_change R.Source streams.old.source streams.new.source)
        (sink_change K.Sink streams.old.sink streams.new.sink)
        (parts_change P.Parts parts.old parts.new)
        ⊎ ServesConf S.score_of P.Disk.Disk conf.now result
        (source_change R.Source streams.old.source streams.new.source)
        (sink_change K.Sink streams.old.sink streams.new.sink)
        (parts_change P.Parts parts.old parts.new) }
{
    match open_store(alloc, parts, conf, 1, scorer) {
        Ok(core) => serve_opened(alloc, streams, parts, now, conf, core),
        Err(bad) => Err(told(alloc, terminal, file, conf, bad)),
    }
}

/// Serves a session over a store that was opened, and closes it.
fn serve_opened<R: Source, K: Sink, P: Parts, S: Scorer + Drop>(
    alloc: Global,
    streams: &mut Streams<R, K>,
    parts: &mut P,
    now: u32,
    conf: &Conf,
    core: Core<P::Disk, S>,
) -> Result<(), CommandError>
    requires free { WaitsForNone core.waiting 0 }
    requires shape { HaveOneShape (devices_of core) (files_of conf.now) }
    ensures serves { ServesOpened S.score_of P.Disk.Disk conf.now core result
        (source_change R.Source streams.old.source streams.new.source)
        (sink_change K.Sink streams.old.sink streams.new.sink)
        (IsTrue P.tells) (P.standing parts.old) (P.standing parts.new) }
    ensures faults { P.faults parts.new ≡ P.faults parts.old }
{
    sessions_are_runs::<P::Disk>();
    shapes_are_kept::<P::Disk>();
    let (served, core) = serve_store(alloc, core, now, streams);
    close_store(parts, conf, core);
    outcome_of(served)
}
