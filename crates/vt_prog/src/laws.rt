//! What a run of the program comes to over calls of the system that tell.

ghost use Rattle.sha1.specs.Sha1.{sha1};
ghost use Rattle.std.specs.Prelude.{◌&&◌, ℕ, List};
ghost use Rattle.run_base.specs.declared.host.Outside.{Outside};
ghost use Rattle.vt_commands.specs.Run.{Ran};
ghost use Rattle.vt_commands.specs.Seen.{RunTells};
ghost use Rattle.vt_host.specs.Dialling.{dialer_net, linked_of};
ghost use Rattle.vt_host.specs.Streams.{sink_output, source_input};
ghost use Rattle.vt_host.specs.declared.clock.StdClock.{StdClock};
ghost use Rattle.vt_host.specs.declared.dialer.StdDialer.{StdDialer};
ghost use Rattle.vt_host.specs.declared.files.StdFiles.{StdFiles};
ghost use Rattle.vt_host.specs.declared.folders.StdFolders.{StdFolders};
ghost use Rattle.vt_host.specs.declared.parts.FileParts.{FileParts};
ghost use Rattle.vt_host.specs.declared.sink.StdSink.{StdSink};
ghost use Rattle.vt_host.specs.declared.source.StdSource.{StdSource};

use vt_commands::laws::runs_are_seen;
use vt_dial::Dialer;
use vt_disk::Disk;
use vt_host::{
    Connector, FileDisk, FileParts, FolderCalls, Opener, ReadCalls, StdClock, StdDialer, StdFiles,
    StdFolders, StdLink, StdSink, StdSource, WriteCalls,
};
use vt_out::{Files, Folders, Link, Sink, Source};
use vt_partitions::Parts;

/// What follows from `did`, the clause of `program`, of the bytes of any calls of the system that
/// tell what they hold. What partitions hold isn't among it, nor what folders do, nor standard error's line
/// where that tells nothing.
pub fn runs_tell<
    I: ReadCalls,
    W: WriteCalls,
    E: WriteCalls,
    O: Opener,
    P: Opener,
    N: Connector,
    C: FolderCalls + Drop,
    U: Opener,
    K,
    T,
>()
where
    O::File: Drop,
    P::File: Drop,
    N::Input: Drop,
    N::Output: Drop,
    C::File: Drop,
    U::File: Drop,
    ensures { (words : List (List ℕ)) (status : ℕ)
        (before after : Outside (StdSource I) (StdSink W) (StdSink E) (StdFiles O) (FileParts P)
        (StdDialer N) (StdFolders C U) (StdClock K) T)
        → Ran ⟦<StdSource<I> as Source>⟧ ⟦<StdSink<W> as Sink>⟧ ⟦<StdSink<E> as Sink>⟧
        ⟦<StdFiles<O> as Files>⟧ ⟦<FileParts<P> as Parts>⟧ ⟦<StdFolders<C, U> as Folders>⟧
        ⟦<StdDialer<N> as Dialer>⟧ ⟦<FileDisk<P::File> as Disk>⟧
        ⟦<StdLink<N::Input, N::Output> as Link>⟧ sha1 words status before after
        → RunTells ⟦<StdLink<N::Input, N::Output> as Link>⟧ words status (record {
          reads = I.tells;
          came = I.left (source_input before.streams.source);
          left = I.left (source_input after.streams.source);
          read_faults = ⟦<StdSource<I> as Source>⟧.faults before.streams.source;
          read_faults' = ⟦<StdSource<I> as Source>⟧.faults after.streams.source;
          writes = W.tells;
          went = W.went (sink_output before.streams.sink);
          went' = W.went (sink_output after.streams.sink);
          write_faults = ⟦<StdSink<W> as Sink>⟧.faults before.streams.sink;
          write_faults' = ⟦<StdSink<W> as Sink>⟧.faults after.streams.sink;
          says = E.tells;
          said = E.went (sink_output before.fault_sink);
          said' = E.went (sink_output after.fault_sink);
          said_faults = ⟦<StdSink<E> as Sink>⟧.faults before.fault_sink;
          said_faults' = ⟦<StdSink<E> as Sink>⟧.faults after.fault_sink;
          names = O.File.tells && O.still;
          holds = O.holds;
          dials = N.tells;
          dialled = linked_of (N.dialled (dialer_net before.dialer)) before.dialer;
          dialled' = linked_of (N.dialled (dialer_net after.dialer)) after.dialer;
        }) }
{
    runs_are_seen::<
        StdSource<I>,
        StdSink<W>,
        StdSink<E>,
        StdFiles<O>,
        FileParts<P>,
        StdDialer<N>,
        StdFolders<C, U>,
        StdClock<K>,
        T,
    >();
}
