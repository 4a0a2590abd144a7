//! Bytes that come in and go out on one connection.

ghost use Rattle.std.specs.Prelude.{◌≡◌, ◌≤◌, ◌<◌, ◌^◌, ◌++◌, ℕ, Bool, IsTrue, IfOk, OnOk, OnErr};
ghost use Rattle.std.specs.Prelude.{List, [], length, take, drop};
ghost use Rattle.vt_base.specs.Bytes.{AreBytes};
ghost use Rattle.vt_base.specs.Faults.{HasCause};
ghost use Rattle.vt_out.specs.Streams.{AppendsPrefix};

use vt_base::Failed;

/// A source and a sink in one, each with its count of faults. What one of them does leaves the
/// other as it was.
pub trait Link {
    /// Whether links of this type tell what comes in and what went out. A connection of the system
    /// doesn't.
    ghost tells: { Bool };

    /// The bytes that came in so far, where it tells them.
    ghost given: { Self → List ℕ };

    /// The bytes that are left to come in, where it tells them.
    ghost left: { Self → List ℕ };

    /// The bytes that were written, where it tells them.
    ghost written: { Self → List ℕ };

    /// How many calls of `take` have failed.
    ghost read_faults: { Self → ℕ };

    /// How many calls of `put` have failed.
    ghost write_faults: { Self → ℕ };

    /// Moves bytes to the front of the buffer, and says how many. 0 is the end of what comes in,
    /// where the buffer has room.
    fn take(&mut self, buf: &mut [u8]) -> Result<usize, Failed>
        ensures fits { IfOk result (λ n. n ≤ length buf.old) }
        ensures moved { IfOk result (λ n. IsTrue tells →
            left self.old ≡ take n buf.new ++ left self.new) }
        ensures came { IfOk result (λ n. IsTrue tells →
            given self.new ≡ given self.old ++ take n buf.new) }
        ensures end { IfOk result (λ n. IsTrue tells →
            n ≡ 0 → 0 < length buf.old → left self.old ≡ []) }
        ensures rest { IfOk result (λ n. IsTrue tells → drop n buf.new ≡ drop n buf.old) }

        // A call that fails loses nothing.
        ensures kept { OnErr result (IsTrue tells → left self.new ≡ left self.old) }
        ensures none { OnErr result (IsTrue tells → given self.new ≡ given self.old) }
        ensures untouched { OnErr result (IsTrue tells → buf.new ≡ buf.old) }
        ensures cause { HasCause result (read_faults self.old) (read_faults self.new) }

        ensures written { IsTrue tells → written self.new ≡ written self.old }
        ensures write_faults { write_faults self.new ≡ write_faults self.old };

    /// Writes the piece behind what was written. A call that fails may have written a prefix of it.
    fn put(&mut self, piece: &[u8]) -> Result<(), Failed>
        ensures appended { OnOk result (IsTrue tells →
            written self.new ≡ written self.old ++ piece.now) }
        ensures failed { OnErr result (IsTrue tells →
            AppendsPrefix (written self.old) (written self.new) piece.now) }
        ensures cause { HasCause result (write_faults self.old) (write_faults self.new) }

        ensures given { IsTrue tells → given self.new ≡ given self.old }
        ensures left { IsTrue tells → left self.new ≡ left self.old }
        ensures read_faults { read_faults self.new ≡ read_faults self.old };

    /// What is left to come in is bytes: numbers below 256.
    ghost left_bytes: { (link : Self) → AreBytes (left link) };

    /// Each of the two counts of failed calls is a u64.
    ghost read_faults_fit: { (link : Self) → read_faults link < 2 ^ 64 };

    /// So is the other one.
    ghost write_faults_fit: { (link : Self) → write_faults link < 2 ^ 64 };
}
