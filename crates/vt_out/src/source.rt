//! Bytes that come in, as a trait (`Source`).

ghost use Rattle.std.specs.Prelude.{◌≡◌, ◌≤◌, ◌<◌, ◌^◌, ◌++◌, ℕ, Bool, IsTrue, IfOk, OnErr};
ghost use Rattle.std.specs.Prelude.{List, [], length, take, drop};
ghost use Rattle.vt_base.specs.Bytes.{AreBytes};
ghost use Rattle.vt_base.specs.Faults.{HasCause};

use vt_base::Failed;

/// A stream of bytes that is read once, front to back.
pub trait Source {
    /// Whether sources of this type tell what they have left. Standard input doesn't.
    ghost tells: { Bool };

    /// The bytes that were taken so far, where it tells them.
    ghost given: { Self → List ℕ };

    /// The bytes that are left, where it tells them.
    ghost left: { Self → List ℕ };

    /// How many calls have failed.
    ghost faults: { Self → ℕ };

    /// What each call leaves as it was.
    ghost Kept: { Type 0 };

    /// That of this source.
    ghost kept: { Self → Kept };

    /// Moves bytes to the front of the buffer, and says how many. 0 is the end of input, where the
    /// buffer has room.
    fn take(&mut self, buf: &mut [u8]) -> Result<usize, Failed>
        ensures fits { IfOk result (λ n. n ≤ length buf.old) }
        ensures moved { IfOk result (λ n. IsTrue tells →
            left self.old ≡ take n buf.new ++ left self.new) }
        ensures came { IfOk result (λ n. IsTrue tells →
            given self.new ≡ given self.old ++ take n buf.new) }
        ensures end { IfOk result (λ n. IsTrue tells →
            n ≡ 0 → 0 < length buf.old → left self.old ≡ []) }
        ensures rest { IfOk result (λ n. IsTrue tells → drop n buf.new ≡ drop n buf.old) }

        // A call that fails loses nothing.
        ensures kept { OnErr result (IsTrue tells → left self.new ≡ left self.old) }
        ensures none { OnErr result (IsTrue tells → given self.new ≡ given self.old) }
        ensures untouched { OnErr result (IsTrue tells → buf.new ≡ buf.old) }
        ensures cause { HasCause result (faults self.old) (faults self.new) }
        ensures keeps { kept self.new ≡ kept self.old };

    /// What is left is bytes: numbers below 256.
    ghost left_bytes: { (source : Self) → AreBytes (left source) };

    /// A count of failed calls is a u64.
    ghost faults_fit: { (source : Self) → faults source < 2 ^ 64 };
}
