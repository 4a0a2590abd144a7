//! Standard output and standard error.

ghost use Rattle.std.specs.Prelude.{OnOk, IsTrue};
ghost use Rattle.std.specs.Io.KnownBytes.{Appends};
ghost use Rattle.vt_host.specs.Passing.{PutsBytes, WritesThrough};

use crate::faults::Faults;
use crate::system::WriteCalls;
use std::io;
use vt_base::Failed;
use vt_out::Sink;

/// Writes straight from the piece, and whole: a full or closed output is a fault of the `put` that
/// met it.
#[derive(Drop)]
pub struct StdSink<W> {
    output: W,
    faults: Faults,
}

impl<W: WriteCalls> StdSink<W> {
    ghost use Rattle.std.specs.Prelude.{◌≡◌};
    ghost use Rattle.vt_host.specs.Streams.{sink_output};

    /// Over a writer, as `rt.stdout()` or `rt.stderr()`.
    pub fn new(output: W) -> Self
        ensures output { sink_output result ≡ output }
        ensures faults { ⟦<StdSink<W> as Sink>⟧.faults result ≡ 0 }
    {
        StdSink {
            output,
            faults: Faults::new(),
        }
    }

    /// The writer, and how many calls have failed.
    pub(crate) fn into_parts(self) -> (W, Faults)
        ensures { self ≡ record { output = result.0; faults = result.1 } }
    {
        let StdSink { output, faults } = self;
        (output, faults)
    }
}

/// Writes the whole piece, and leaves none of it in a buffer.
fn write_through<W: WriteCalls>(output: &mut W, piece: &[u8]) -> io::Result<()>
    ensures made { IsTrue W.tells
        → WritesThrough piece.now result (W.made output.old) (W.made output.new) }
    ensures puts { IsTrue W.tells
        → PutsBytes result piece.now (W.went output.old) (W.went output.new) }
    ensures bytes { OnOk result
        (Appends (W.contents output.old) (W.contents output.new) piece.now) }
{
    output.put_all(piece)?;
    output.flush_all()
}

impl<W: WriteCalls> Sink for StdSink<W> {
    ghost use Rattle.std.specs.Prelude.{OnOk, IsTrue};
    ghost use Rattle.std.specs.Io.KnownBytes.{Appends};
    ghost use Rattle.vt_host.specs.Passing.{PutsBytes, WritesThrough};
    ghost use Rattle.vt_host.specs.Streams.{sink_output};
    ghost use Rattle.vt_base.specs.Faults.{HasCause};

    ghost tells = { W.tells };

    ghost written = { λ sink. W.went sink.output };

    ghost faults = { λ sink. sink.faults.count };

    ghost faults_fit = { λ sink. sink.faults.fits };

    /// Where the writer tells what it holds, the piece comes to it.
    fn put(&mut self, piece: &[u8]) -> Result<(), Failed>
        ensures made { IsTrue W.tells → WritesThrough piece.now result
            (W.made (sink_output self.old)) (W.made (sink_output self.new)) }
        ensures puts { IsTrue W.tells → PutsBytes result piece.now
            (W.went (sink_output self.old)) (W.went (sink_output self.new)) }
        ensures bytes { OnOk result (Appends (W.contents (sink_output self.old))
            (W.contents (sink_output self.new)) piece.now) }
        ensures cause { HasCause result (⟦<StdSink<W> as Sink>⟧.faults self.old)
            (⟦<StdSink<W> as Sink>⟧.faults self.new) }
    {
        self.faults.counted(write_through(&mut self.output, piece))
    }
}
