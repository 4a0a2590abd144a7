//! Connections of the system.

use crate::faults::Faults;
use crate::sink::StdSink;
use crate::source::StdSource;
use crate::system::{ReadCalls, WriteCalls};
use vt_base::Failed;
use vt_out::{Link, Sink, Source};

/// What comes in is read straight into the caller's buffer, and what goes out is written straight
/// from the piece, and whole.
#[derive(Drop)]
pub struct StdLink<R, W> {
    source: StdSource<R>,
    sink: StdSink<W>,
}

impl<R: ReadCalls, W: WriteCalls> StdLink<R, W> {
    ghost use Rattle.std.specs.Prelude.{◌≡◌};
    ghost use Rattle.vt_host.specs.Dialling.{link_of};
    ghost use Rattle.vt_host.specs.Streams.{link_sink, link_source, sink_output, source_input};

    /// Over the two directions of one connection.
    pub fn new(input: R, output: W) -> Self
        ensures input { source_input (link_source result) ≡ input }
        ensures output { sink_output (link_sink result) ≡ output }
        ensures reads { ⟦<StdLink<R, W> as Link>⟧.read_faults result ≡ 0 }
        ensures writes { ⟦<StdLink<R, W> as Link>⟧.write_faults result ≡ 0 }
    {
        StdLink {
            source: StdSource::new(input),
            sink: StdSink::new(output),
        }
    }

    /// The two directions, and how many calls of each have failed.
    pub(crate) fn into_parts(self) -> (R, W, Faults, Faults)
        ensures { self ≡ link_of (result.0, result.1) result.2 result.3 }
    {
        let StdLink { source, sink } = self;
        let (input, read_faults) = source.into_parts();
        let (output, write_faults) = sink.into_parts();
        (input, output, read_faults, write_faults)
    }
}

impl<R: ReadCalls, W: WriteCalls> Link for StdLink<R, W> {
    ghost use Rattle.std.specs.Prelude.{◌≡◌, ◌≤◌, ◌&&◌, length, IfOk, OnOk, IsTrue};
    ghost use Rattle.std.specs.Io.KnownBytes.{Appends, ReadConsumes};
    ghost use Rattle.vt_base.specs.Faults.{HasCause};
    ghost use Rattle.vt_host.specs.Passing.{PutsBytes, TakesBytes, TakesOnce, WritesThrough};
    ghost use Rattle.vt_host.specs.Streams.{link_sink, link_source, sink_output, source_input};

    ghost tells = { R.tells && W.tells };

    ghost given = { λ link. R.given link.source.input };

    ghost left = { λ link. R.left link.source.input };

    ghost written = { λ link. W.went link.sink.output };

    ghost read_faults = { λ link. ⟦<StdSource<R> as Source>⟧.faults link.source };

    ghost write_faults = { λ link. ⟦<StdSink<W> as Sink>⟧.faults link.sink };

    ghost left_bytes = { λ link. R.left_bytes link.source.input };

    ghost read_faults_fit = { λ link. link.source.faults.fits };

    ghost write_faults_fit = { λ link. link.sink.faults.fits };

    /// As the source of the standard input does it.
    fn take(&mut self, buf: &mut [u8]) -> Result<usize, Failed>
        ensures fits { IfOk result (λ n. n ≤ length buf.old) }
        ensures made { IsTrue R.tells → TakesOnce result buf.new
            (R.made (source_input (link_source self.old)))
            (R.made (source_input (link_source self.new))) }
        ensures takes { IsTrue R.tells → TakesBytes result buf.old buf.new
            (R.given (source_input (link_source self.old)))
            (R.given (source_input (link_source self.new)))
            (R.left (source_input (link_source self.old)))
            (R.left (source_input (link_source self.new))) }
        ensures bytes { ReadConsumes (R.remaining (source_input (link_source self.old)))
            (R.remaining (source_input (link_source self.new))) result buf.new }
        ensures cause { HasCause result (⟦<StdLink<R, W> as Link>⟧.read_faults self.old)
            (⟦<StdLink<R, W> as Link>⟧.read_faults self.new) }
        ensures sink { link_sink self.new ≡ link_sink self.old }
    {
        self.source.take(buf)
    }

    /// As the sink of the standard output does it.
    fn put(&mut self, piece: &[u8]) -> Result<(), Failed>
        ensures made { IsTrue W.tells → WritesThrough piece.now result
            (W.made (sink_output (link_sink self.old)))
            (W.made (sink_output (link_sink self.new))) }
        ensures puts { IsTrue W.tells → PutsBytes result piece.now
            (W.went (sink_output (link_sink self.old)))
            (W.went (sink_output (link_sink self.new))) }
        ensures bytes { OnOk result (Appends (W.contents (sink_output (link_sink self.old)))
            (W.contents (sink_output (link_sink self.new))) piece.now) }
        ensures cause { HasCause result (⟦<StdLink<R, W> as Link>⟧.write_faults self.old)
            (⟦<StdLink<R, W> as Link>⟧.write_faults self.new) }
        ensures source { link_source self.new ≡ link_source self.old }
    {
        self.sink.put(piece)
    }
}
