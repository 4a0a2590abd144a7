//! Bytes that go out, as a trait (`Sink`).

ghost use Rattle.std.specs.Prelude.{◌≡◌, ◌<◌, ◌^◌, ◌++◌, ℕ, Bool, List, IsTrue, OnOk, OnErr};
ghost use Rattle.vt_base.specs.Faults.{HasCause};
ghost use Rattle.vt_out.specs.Streams.{AppendsPrefix};

use vt_base::Failed;

/// A stream of bytes that is written once, front to back.
pub trait Sink {
    /// Whether sinks of this type tell what was written. Standard output doesn't.
    ghost tells: { Bool };

    /// The bytes that were written, where it tells them.
    ghost written: { Self → List ℕ };

    /// How many calls have failed.
    ghost faults: { Self → ℕ };

    /// Writes the piece behind what was written. A call that fails may have written a prefix of it.
    fn put(&mut self, piece: &[u8]) -> Result<(), Failed>
        ensures appended { OnOk result (IsTrue tells →
            written self.new ≡ written self.old ++ piece.now) }
        ensures failed { OnErr result (IsTrue tells →
            AppendsPrefix (written self.old) (written self.new) piece.now) }
        ensures cause { HasCause result (faults self.old) (faults self.new) };

    /// A count of failed calls is a u64.
    ghost faults_fit: { (sink : Self) → faults sink < 2 ^ 64 };
}
