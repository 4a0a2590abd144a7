//! The top call: the words of the command line are done, and the status is told.

ghost use Rattle.sha1.specs.Sha1.{sha1};
ghost use Rattle.std.specs.Prelude.{◌≡◌, ℕ, List, map, OnErr, OnOk};
ghost use Rattle.run_base.specs.Change.{Attempts, sink_change};
ghost use Rattle.run_base.specs.Errors.{status_of, outcome_line};
ghost use Rattle.run_base.specs.Said.{Said};
ghost use Rattle.vt_commands.specs.Run.{DoesWords, Ran, SaysAndDoes};
ghost use Rattle.vt_commands.specs.Work.{work_of};

use run_archives::{vac, vacfs};
use run_base::{CommandError, Outside, complain_of, print, status};
use run_sessions::{read, session_at, write};
use run_stores::{buildindex, checkarenas, fmtarenas, fmtbloom, fmtindex, fmtisect, rehearse};
use std::alloc::{AllocError, Global};
use std::convert::AsStr;
use std::thread::Threads;
use vt_base::{Failed, Scorer, Sha1Scorer};
use vt_cli::{Asked, Command, ask};
use vt_dial::Dialer;
use vt_out::{Clock, Files, Folders, Sink, Source};
use vt_partitions::Parts;

/// Does what the words of the command line say, and answers the exit status (venti(8)). A status
/// other than 0 has its line on the fault sink, if that takes it.
///
/// `session` answers what comes from the source, as it comes, as one session of venti(6), and
/// writes the replies to the sink: over the store of a configuration, or `:memory:`, one in memory.
/// `fmtarenas`, `fmtisect` and `fmtbloom` make the file that they name a partition of arenas, an
/// index section or a Bloom filter, and print a line on the sink. `fmtindex` puts the sections that
/// a configuration names to use as an index, `buildindex` rebuilds it from the arenas, and
/// `checkarenas` checks these, and prints a line for each. `read` prints one block of a store, and
/// `write` stores what comes in as one and prints its score. `rehearse` rehearses crashes of a
/// store in memory, and prints what the rounds came to; its scores are by SHA-1, whatever the
/// scorer. `vac` stores a folder, says what it leaves out of it, and prints what the archive is
/// found by. `vacfs` shows an archive as a tree of files to a client that speaks 9P2000 on the
/// source and the sink. Help and the version are printed on the sink.
pub fn run<
    R: Source,
    K: Sink,
    F: Sink,
    I: Files,
    P: Parts,
    N: Dialer,
    G: Folders,
    C: Clock,
    T: Sink + Drop,
    W: AsStr,
>(
    rt: &(impl Threads + Sync),
    alloc: Global,
    words: &[W],
    host: &mut Outside<R, K, F, I, P, N, G, C, T>,
) -> u8
    ensures did { Ran R.Source K.Sink F.Sink I.Files P.Parts G.Folders N.Dialer P.Disk.Disk
        N.Link.Link sha1 (map W.text words.now) result host.old host.new }
{
    run_with(rt, alloc, words, host, &Sha1Scorer)
}

/// Runs a command as `run` does, with scores by any scorer.
pub fn run_with<
    R: Source,
    K: Sink,
    F: Sink,
    I: Files,
    P: Parts,
    N: Dialer,
    G: Folders,
    C: Clock,
    T: Sink + Drop,
    S: Scorer + Sync,
    W: AsStr,
>(
    rt: &(impl Threads + Sync),
    alloc: Global,
    words: &[W],
    host: &mut Outside<R, K, F, I, P, N, G, C, T>,
    scorer: &S,
) -> u8
    ensures did { Ran R.Source K.Sink F.Sink I.Files P.Parts G.Folders N.Dialer P.Disk.Disk
        N.Link.Link S.score_of (map W.text words.now) result host.old host.new }
{
    let (said, outcome) = do_words(rt, alloc, words, host, scorer);
    end(&mut host.fault_sink, said, &outcome)
}

/// Says why a command did not end well, if it didn't, where the fault sink took what was said
/// before, and gives the exit status.
pub fn end<F: Sink>(
    fault_sink: &mut F,
    said: Result<(), Failed>,
    outcome: &Result<(), CommandError>,
) -> u8
    ensures complained { OnOk said
        (Attempts (sink_change F.Sink fault_sink.old fault_sink.new) (outcome_line outcome.now)) }
    ensures silent { OnErr said (fault_sink.new ≡ fault_sink.old) }
    ensures status { result ≡ status_of outcome.now }
{
    if said.is_ok() {
        complain_of(fault_sink, outcome);
    }
    status(outcome)
}

/// Does what these words ask for, and says whether the fault sink took what goes before the line.
fn do_words<
    R: Source,
    K: Sink,
    F: Sink,
    I: Files,
    P: Parts,
    N: Dialer,
    G: Folders,
    C: Clock,
    T: Sink + Drop,
    S: Scorer + Sync,
    W: AsStr,
>(
    rt: &(impl Threads + Sync),
    alloc: Global,
    words: &[W],
    host: &mut Outside<R, K, F, I, P, N, G, C, T>,
    scorer: &S,
) -> (Result<(), Failed>, Result<(), CommandError>)
    ensures { (preface : List ℕ) × DoesWords P.Disk.Disk N.Link.Link S.score_of
        (map W.text words.now) preface result.1
        (work_of R.Source K.Sink I.Files P.Parts G.Folders N.Dialer
        N.Link.Link host.old host.new)
        × Said result.0 (sink_change F.Sink host.old.fault_sink host.new.fault_sink) preface }
{
    match ask(alloc, words) {
        Ok(Asked::Do(command)) => do_command(rt, alloc, command, host, scorer),
        Ok(Asked::Help(text) | Asked::Version(text)) => (
            Ok(()),
            print(&mut host.streams.sink, &[text.as_bytes()]),
        ),
        Ok(Asked::Faulty) => (Ok(()), Err(CommandError::BadWords)),
        Err(AllocError) => (Ok(()), Err(CommandError::NoMemory)),
    }
}

/// Does a command: lends each what it touches.
fn do_command<
    R: Source,
    K: Sink,
    F: Sink,
    I: Files,
    P: Parts,
    N: Dialer,
    G: Folders,
    C: Clock,
    T: Sink + Drop,
    S: Scorer + Sync,
>(
    rt: &(impl Threads + Sync),
    alloc: Global,
    command: Command,
    host: &mut Outside<R, K, F, I, P, N, G, C, T>,
    scorer: &S,
) -> (Result<(), Failed>, Result<(), CommandError>)
    ensures { SaysAndDoes P.Disk.Disk N.Link.Link S.score_of command result.0 result.1
        (work_of R.Source K.Sink I.Files P.Parts G.Folders N.Dialer
        N.Link.Link host.old host.new)
        (sink_change F.Sink host.old.fault_sink host.new.fault_sink) }
{
    let terminal = host.terminal.take();
    match command {
        Command::Session { store } => {
            let now = host.clock.now();
            (
                Ok(()),
                session_at(
                    alloc,
                    &mut host.streams,
                    &mut host.files,
                    &mut host.parts,
                    terminal,
                    now,
                    &store,
                    scorer,
                ),
            )
        }
        Command::FormatArenas {
            file,
            name,
            length,
            arena_size,
        } => (
            Ok(()),
            fmtarenas(
                alloc,
                &mut host.parts,
                &mut host.streams.sink,
                terminal,
                file,
                &name,
                &length,
                &arena_size,
            ),
        ),
        Command::FormatSection { file, name, length } => (
            Ok(()),
            fmtisect(
                alloc,
                &mut host.parts,
                &mut host.streams.sink,
                terminal,
                file,
                &name,
                &length,
            ),
        ),
        Command::FormatFilter {
            file,
            size,
            positions,
        } => (
            Ok(()),
            fmtbloom(
                alloc,
                &mut host.parts,
                &mut host.streams.sink,
                terminal,
                file,
                &size,
                &positions,
            ),
        ),
        Command::FormatIndex { file } => (
            Ok(()),
            fmtindex(
                alloc,
                &mut host.files,
                &mut host.parts,
                &mut host.streams.sink,
                terminal,
                &file,
                scorer,
            ),
        ),
        Command::RebuildIndex { file } => (
            Ok(()),
            buildindex(
                alloc,
                &mut host.files,
                &mut host.parts,
                &mut host.streams.sink,
                terminal,
                &file,
                scorer,
            ),
        ),
        Command::CheckArenas { file } => (
            Ok(()),
            checkarenas(
                rt,
                alloc,
                &mut host.files,
                &mut host.parts,
                &mut host.streams.sink,
                terminal,
                &file,
                scorer,
            ),
        ),
        Command::Read { store, score, kind } => (
            Ok(()),
            read(
                alloc,
                &mut host.files,
                &mut host.parts,
                &mut host.dialer,
                &mut host.streams.sink,
                terminal,
                &store,
                &score,
                &kind,
                scorer,
            ),
        ),
        Command::Write { store, kind } => (
            Ok(()),
            write(
                alloc,
                &mut host.streams.source,
                &mut host.streams.sink,
                &mut host.files,
                &mut host.parts,
                &mut host.dialer,
                &mut host.clock,
                terminal,
                &store,
                &kind,
                scorer,
            ),
        ),
        Command::Rehearse { seed, count } => (
            Ok(()),
            rehearse(alloc, &mut host.streams.sink, terminal, &seed, &count),
        ),
        Command::View { store, score } => (
            Ok(()),
            vacfs(
                alloc,
                &mut host.streams,
                &mut host.files,
                &mut host.parts,
                &mut host.dialer,
                terminal,
                &store,
                &score,
                scorer,
            ),
        ),
        Command::Vac {
            store,
            folder,
            size,
        } => {
            let now = host.clock.now();
            vac(
                alloc,
                &mut host.files,
                &mut host.folders,
                &mut host.parts,
                &mut host.dialer,
                &mut host.streams.sink,
                &mut host.fault_sink,
                terminal,
                now,
                &store,
                &folder,
                &size,
                scorer,
            )
        }
    }
}
