//! The program over any calls of the system.

ghost use Rattle.sha1.specs.Sha1.{sha1};
ghost use Rattle.std.specs.Prelude.{◌≡◌, IfErr, IfOk, Err, drop, map};
ghost use Rattle.run_base.specs.Change.{Attempts, sink_change};
ghost use Rattle.run_base.specs.Errors.{outcome_line, status_of};
ghost use Rattle.vt_commands.specs.Run.{Ran};

use run_base::{CommandError, Outside};
use std::alloc::Global;
use std::convert::AsStr;
use std::thread::Threads;
use vt_commands::{end, run};
use vt_dial::Dialer;
use vt_disk::Disk;
use vt_host::{
    ClockCalls, Connector, FileDisk, FileParts, FolderCalls, Opener, ReadCalls, StdClock,
    StdDialer, StdFiles, StdFolders, StdLink, StdSink, StdSource, WriteCalls,
};
use vt_out::{Files, Folders, Link, Sink, Source};
use vt_partitions::Parts;

/// What the program is lent, over these calls of the system.
pub type Host<I, W, E, O, P, N, C, U, K, T> = Outside<
    StdSource<I>,
    StdSink<W>,
    StdSink<E>,
    StdFiles<O>,
    FileParts<P>,
    StdDialer<N>,
    StdFolders<C, U>,
    StdClock<K>,
    T,
>;

/// Does what the words behind the program's name say, and gives the exit status. Where the words
/// can't be had, nothing is done but to say why.
pub fn program<
    I: ReadCalls,
    W: WriteCalls,
    E: WriteCalls,
    O: Opener,
    P: Opener,
    N: Connector,
    C: FolderCalls + Drop,
    U: Opener,
    K: ClockCalls,
    T: Sink + Drop,
>(
    rt: &(impl Threads + Sync),
    alloc: Global,
    words: Result<Vec<String>, CommandError>,
    host: &mut Host<I, W, E, O, P, N, C, U, K, T>,
) -> u8
where
    O::File: Drop,
    P::File: Drop,
    N::Input: Drop,
    N::Output: Drop,
    C::File: Drop,
    U::File: Drop,
    ensures did { IfOk words (λ words. Ran ⟦<StdSource<I> as Source>⟧ ⟦<StdSink<W> as Sink>⟧
        ⟦<StdSink<E> as Sink>⟧ ⟦<StdFiles<O> as Files>⟧ ⟦<FileParts<P> as Parts>⟧
        ⟦<StdFolders<C, U> as Folders>⟧ ⟦<StdDialer<N> as Dialer>⟧ ⟦<FileDisk<P::File> as Disk>⟧
        ⟦<StdLink<N::Input, N::Output> as Link>⟧ sha1
        (map ⟦<String as AsStr>⟧.text (drop 1 words.items)) result host.old host.new) }
    ensures status { IfErr words (λ failure. result ≡ status_of (Err failure)) }
    ensures said { IfErr words (λ failure. Attempts
        (sink_change ⟦<StdSink<E> as Sink>⟧ host.old.fault_sink host.new.fault_sink)
        (outcome_line (Err failure))) }
    ensures idle { IfErr words (λ _. host.new ≡ record host.old { fault_sink = host.new.fault_sink }) }
{
    match words {
        Ok(words) => run(rt, alloc, words_of(&words), host),
        Err(failure) => end(&mut host.fault_sink, Ok(()), &Err(failure)),
    }
}

/// The words behind the program's name.
fn words_of(words: &[String]) -> &[String]
    ensures { result.now ≡ drop 1 words.now }
{
    match words {
        [_, behind @ ..] => behind,
        [] => words,
    }
}
