//! The command `vacfs STORE SCORE`: an archive as a tree of files for a client that speaks 9P2000.
// Tests: crates/run_tests_archives/src/vacfs.rt, crates/run_tests_archives/src/edges.rt.

ghost use Rattle.std.specs.Prelude.{Err};
ghost use Rattle.vt_use.specs.Places.{CanBeOpened};
ghost use Rattle.run_base.specs.Change.{dialer_change, files_change, parts_change, sink_change, source_change};
ghost use Rattle.run_archives.specs.Vacfs.{DoesVacfs, IsUnmade, ViewsAt};
ghost use Rattle.run_base.specs.Errors.{HasCauseIn, no_cause, with_dialer, with_files, with_parts, with_sink, with_source};

use crate::viewed::outcome_of_view;
use run_base::{CommandError, Place, find_store, read_made, refusal_for, score_in, told_at};
use std::alloc::Global;
use vac_view::ViewArchive;
use vac_view::laws::{failures_have_causes, remote_failures_have_causes};
use vt_base::{Kind, Score, Scorer, Text};
use vt_dial::Dialer;
use vt_handler::Streams;
use vt_out::{Files, Sink, Source};
use vt_partitions::Parts;
use vt_remote::refusals_have_causes;
use vt_use::{StoreAt, local_refusals_have_causes, use_at};

/// Reads the word, and serves the archive that it names until the client has ended.
pub fn vacfs<R: Source, K: Sink, I: Files, P: Parts, N: Dialer, T: Sink + Drop, S: Scorer>(
    alloc: Global,
    streams: &mut Streams<R, K>,
    files: &mut I,
    parts: &mut P,
    dialer: &mut N,
    terminal: Option<T>,
    store: &Text,
    score: &Text,
    scorer: &S,
) -> Result<(), CommandError>
    ensures does { DoesVacfs S.score_of P.Disk.Disk N.Link.Link store.now score.now result
        (source_change R.Source streams.old.source streams.new.source)
        (sink_change K.Sink streams.old.sink streams.new.sink)
        (files_change I.Files files.old files.new) (parts_change P.Parts parts.old parts.new)
        (dialer_change N.Dialer N.Link.Link dialer.old dialer.new) }
    ensures cause { HasCauseIn
        (with_source (source_change R.Source streams.old.source streams.new.source)
        (with_sink (sink_change K.Sink streams.old.sink streams.new.sink)
        (with_files (files_change I.Files files.old files.new)
        (with_parts P.Disk.Disk (parts_change P.Parts parts.old parts.new)
        (with_dialer (dialer_change N.Dialer N.Link.Link dialer.old dialer.new) no_cause)))))
        result }
{
    local_refusals_have_causes::<P::Disk>();
    refusals_have_causes::<N::Link>();
    failures_have_causes::<P::Disk>();
    remote_failures_have_causes::<N::Link>();
    let score = score_in(score)?;
    match find_store(alloc, files, store)? {
        Place::Memory => Err(no_archive(alloc, &score, scorer)),
        Place::At(at) => view_at(
            alloc, streams, parts, dialer, terminal, store, &at, &score, scorer,
        ),
    }
}

/// Why the store in memory, which has no block but that of no bytes, has no archive of this score.
fn no_archive<S: Scorer>(alloc: Global, score: &Score, scorer: &S) -> CommandError
    ensures { IsUnmade S.score_of score.now.0 (Err result) }
{
    match read_made(alloc, scorer, Kind::ROOT, score) {
        Ok(_empty) => CommandError::BadArchive(0),
        Err(why) => refusal_for(why),
    }
}

/// Serves an archive of the store at a place.
fn view_at<R: Source, K: Sink, P: Parts, N: Dialer, T: Sink + Drop, S: Scorer>(
    alloc: Global,
    streams: &mut Streams<R, K>,
    parts: &mut P,
    dialer: &mut N,
    terminal: Option<T>,
    file: &Text,
    at: &StoreAt,
    score: &Score,
    scorer: &S,
) -> Result<(), CommandError>
    requires { CanBeOpened at.now }
    ensures { ViewsAt S.score_of P.Disk.Disk N.Link.Link file.now at.now score.now.0 result
        (source_change R.Source streams.old.source streams.new.source)
        (sink_change K.Sink streams.old.sink streams.new.sink)
        (parts_change P.Parts parts.old parts.new)
        (dialer_change N.Dialer N.Link.Link dialer.old dialer.new) }
{
    let job = ViewArchive { score: *score };
    match use_at(alloc, parts, dialer, at, scorer, 0, job, streams) {
        Ok(used) => outcome_of_view(used.output, used.refusal),
        Err(bad) => Err(told_at(alloc, terminal, file, at, bad)),
    }
}
