//! The command `read STORE SCORE TYPE`: one block of a store is printed.
// Tests: crates/run_tests_sessions/src/read.rt, crates/run_tests_sessions/src/write.rt (over a
// server).

ghost use Rattle.run_base.specs.Change.{dialer_change, files_change, parts_change, sink_change};
ghost use Rattle.vt_use.specs.Places.{CanBeOpened};
ghost use Rattle.run_sessions.specs.Read.{DoesRead, PrintsAt, PrintsMade};
ghost use Rattle.run_base.specs.Errors.{HasCauseIn, no_cause, with_dialer, with_files, with_parts, with_sink};

use run_base::{
    CommandError, Place, find_store, print, read_made, refusal_for, score_in, told_at, type_in,
};
use std::alloc::Global;
use vt_base::{Kind, Score, Scorer, Text};
use vt_dial::Dialer;
use vt_out::{Files, Sink};
use vt_partitions::Parts;
use vt_remote::refusals_have_causes;
use vt_use::{ReadBlock, StoreAt, answer_at, local_refusals_have_causes, use_at};

/// Reads the words, and prints the block that they ask for.
pub fn read<I: Files, P: Parts, N: Dialer, K: Sink, T: Sink + Drop, S: Scorer>(
    alloc: Global,
    files: &mut I,
    parts: &mut P,
    dialer: &mut N,
    sink: &mut K,
    terminal: Option<T>,
    store: &Text,
    score: &Text,
    kind: &Text,
    scorer: &S,
) -> Result<(), CommandError>
    ensures does { DoesRead S.score_of P.Disk.Disk N.Link.Link store.now score.now kind.now result
        (files_change I.Files files.old files.new) (parts_change P.Parts parts.old parts.new)
        (dialer_change N.Dialer N.Link.Link dialer.old dialer.new)
        (sink_change K.Sink sink.old sink.new) }
    ensures cause { HasCauseIn (with_files (files_change I.Files files.old files.new)
        (with_parts P.Disk.Disk (parts_change P.Parts parts.old parts.new)
        (with_dialer (dialer_change N.Dialer N.Link.Link dialer.old dialer.new)
        (with_sink (sink_change K.Sink sink.old sink.new) no_cause)))) result }
{
    local_refusals_have_causes::<P::Disk>();
    refusals_have_causes::<N::Link>();
    let score = score_in(score)?;
    let kind = type_in(kind)?;
    match find_store(alloc, files, store)? {
        Place::Memory => print_made(alloc, sink, kind, &score, scorer),
        Place::At(at) => print_at(
            alloc, parts, dialer, sink, terminal, store, &at, kind, &score, scorer,
        ),
    }
}

/// Asks the store in memory for the block, which has none but that of no bytes.
fn print_made<K: Sink, S: Scorer>(
    alloc: Global,
    sink: &mut K,
    kind: Kind,
    score: &Score,
    scorer: &S,
) -> Result<(), CommandError>
    ensures { PrintsMade S.score_of score.now.0 kind result
        (sink_change K.Sink sink.old sink.new) }
{
    match read_made(alloc, scorer, kind, score) {
        Ok(block) => print(sink, &[block.as_slice()]),
        Err(why) => Err(refusal_for(why)),
    }
}

/// Asks the store at a place for the block, and prints that when it is closed, or the link to it.
fn print_at<P: Parts, N: Dialer, K: Sink, T: Sink + Drop, S: Scorer>(
    alloc: Global,
    parts: &mut P,
    dialer: &mut N,
    sink: &mut K,
    terminal: Option<T>,
    file: &Text,
    at: &StoreAt,
    kind: Kind,
    score: &Score,
    scorer: &S,
) -> Result<(), CommandError>
    requires { CanBeOpened at.now }
    ensures { PrintsAt S.score_of P.Disk.Disk N.Link.Link file.now at.now score.now.0 kind result
        (parts_change P.Parts parts.old parts.new)
        (dialer_change N.Dialer N.Link.Link dialer.old dialer.new)
        (sink_change K.Sink sink.old sink.new) }
{
    let score = *score;
    let job = ReadBlock { kind, score };
    let used = use_at(alloc, parts, dialer, at, scorer, 0, job, &mut ());
    match answer_at(used) {
        Ok(block) => print(sink, &[block.as_slice()]),
        Err(bad) => Err(told_at(alloc, terminal, file, at, bad)),
    }
}
