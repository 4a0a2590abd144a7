//! Standard input.

ghost use Rattle.std.specs.Prelude.{◌≤◌, length, IfOk, IsTrue};
ghost use Rattle.std.specs.Io.KnownBytes.{ReadConsumes};
ghost use Rattle.vt_host.specs.Passing.{ReadsOnce, TakesBytes};

use crate::faults::Faults;
use crate::system::ReadCalls;
use std::io;
use std::io::ErrorKind;
use vt_base::Failed;
use vt_out::Source;

/// How often a read that a signal interrupted is made again.
const RETRIES: u32 = 64;

/// Reads straight into the caller's buffer: one call of the system for each `take`, which is made
/// again where a signal interrupts it.
#[derive(Drop)]
pub struct StdSource<R> {
    input: R,
    faults: Faults,
}

impl<R: ReadCalls> StdSource<R> {
    ghost use Rattle.std.specs.Prelude.{◌≡◌};
    ghost use Rattle.vt_host.specs.Streams.{source_input};

    /// Over a reader without a buffer of its own, as `rt.stdin()`.
    pub fn new(input: R) -> Self
        ensures input { source_input result ≡ input }
        ensures faults { ⟦<StdSource<R> as Source>⟧.faults result ≡ 0 }
    {
        StdSource {
            input,
            faults: Faults::new(),
        }
    }

    /// The reader, and how many calls have failed.
    pub(crate) fn into_parts(self) -> (R, Faults)
        ensures { self ≡ record { input = result.0; faults = result.1 } }
    {
        let StdSource { input, faults } = self;
        (input, faults)
    }
}

/// Makes one read, as often as a signal interrupts it.
fn read_once<R: ReadCalls>(input: &mut R, buf: &mut [u8]) -> io::Result<usize>
    ensures fits { IfOk result (λ n. n ≤ length buf.old) }
    ensures made { IsTrue R.tells → ReadsOnce (record { buf = buf.new; answer = result })
        (R.made input.old) (R.made input.new) }
    ensures takes { IsTrue R.tells → TakesBytes result buf.old buf.new
        (R.given input.old) (R.given input.new) (R.left input.old) (R.left input.new) }
    ensures bytes { ReadConsumes (R.remaining input.old) (R.remaining input.new) result buf.new }
{
    for _ in 0..RETRIES {
        match input.read_some(buf) {
            Err(error) if error.kind() == ErrorKind::Interrupted => {}
            answer => return answer,
        }
    }
    input.read_some(buf)
}

impl<R: ReadCalls> Source for StdSource<R> {
    ghost use Rattle.std.specs.Prelude.{◌≤◌, length, IfOk, IsTrue};
    ghost use Rattle.std.specs.Io.KnownBytes.{ReadConsumes};
    ghost use Rattle.vt_host.specs.Passing.{TakesBytes, TakesOnce};
    ghost use Rattle.vt_host.specs.Streams.{source_input};
    ghost use Rattle.vt_base.specs.Faults.{HasCause};

    ghost tells = { R.tells };

    ghost given = { λ source. R.given source.input };

    ghost left = { λ source. R.left source.input };

    ghost faults = { λ source. source.faults.count };

    ghost Kept = { Unit {0} };

    ghost kept = { λ _. tt };

    ghost left_bytes = { λ source. R.left_bytes source.input };

    ghost faults_fit = { λ source. source.faults.fits };

    /// Where the reader tells its bytes, these come to the caller.
    fn take(&mut self, buf: &mut [u8]) -> Result<usize, Failed>
        ensures fits { IfOk result (λ n. n ≤ length buf.old) }
        ensures made { IsTrue R.tells → TakesOnce result buf.new
            (R.made (source_input self.old)) (R.made (source_input self.new)) }
        ensures takes { IsTrue R.tells → TakesBytes result buf.old buf.new
            (R.given (source_input self.old)) (R.given (source_input self.new))
            (R.left (source_input self.old)) (R.left (source_input self.new)) }
        ensures bytes { ReadConsumes (R.remaining (source_input self.old))
            (R.remaining (source_input self.new)) result buf.new }
        ensures cause { HasCause result (⟦<StdSource<R> as Source>⟧.faults self.old)
            (⟦<StdSource<R> as Source>⟧.faults self.new) }
    {
        self.faults.counted(read_once(&mut self.input, buf))
    }
}
