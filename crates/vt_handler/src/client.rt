//! The trait of a client, whose input a session answers (`Client`).

ghost use Rattle.std.specs.Prelude.{◌≡◌, ◌≤◌, ◌<◌, ◌++◌, ℕ, Bool, IsTrue, IfOk, OnOk, OnErr};
ghost use Rattle.std.specs.Prelude.{List, [], length, take};
ghost use Rattle.vt_base.specs.Bytes.{AreBytes};
ghost use Rattle.vt_base.specs.Faults.{HasCause};
ghost use Rattle.vt_out.specs.Streams.{AppendsPrefix};
ghost use Rattle.vt_handler.specs.Clients.{IsAnswered};

use vt_base::Failed;

/// The other end of a session's link: what comes from it, and what goes out to it. It may wait for
/// the replies to all that it sent before it sends more, so it is asked for more only once they
/// went out.
pub trait Client {
    /// Whether clients of this type tell what comes from them and what went out. A connection of
    /// the system doesn't.
    ghost tells: { Bool };

    /// Whether clients of this type wait for replies. What such a client tells begins with the
    /// session.
    ghost waits: { Bool };

    /// The bytes that came from it, where it tells them.
    ghost sent: { Self → List ℕ };

    /// The bytes that are left to come, where it tells them.
    ghost left: { Self → List ℕ };

    /// The bytes that went out to it, where it tells them.
    ghost written: { Self → List ℕ };

    /// How many calls of `take` have failed.
    ghost read_faults: { Self → ℕ };

    /// How many calls of `put` have failed.
    ghost write_faults: { Self → ℕ };

    /// Moves bytes that come to the front of the buffer, and says how many. 0 is the end of what
    /// comes, where the buffer has room.
    fn take(&mut self, buf: &mut [u8]) -> Result<usize, Failed>
        requires answered { IsTrue tells → IsTrue waits
            → IsAnswered (sent self.old) (written self.old) }
        ensures fits { IfOk result (λ n. n ≤ length buf.old) }
        ensures sent { IfOk result (λ n. IsTrue tells →
            sent self.new ≡ sent self.old ++ take n buf.new) }
        ensures moved { IfOk result (λ n. IsTrue tells →
            left self.old ≡ take n buf.new ++ left self.new) }
        ensures end { IfOk result (λ n. IsTrue tells →
            n ≡ 0 → 0 < length buf.old → left self.old ≡ []) }

        // A call that fails loses nothing.
        ensures kept { OnErr result (IsTrue tells →
            (sent self.new ≡ sent self.old) × (left self.new ≡ left self.old)) }
        ensures cause { HasCause result (read_faults self.old) (read_faults self.new) }

        ensures written { IsTrue tells → written self.new ≡ written self.old }
        ensures write_faults { write_faults self.new ≡ write_faults self.old };

    /// Writes the piece behind what went out. A call that fails may have written a prefix of it.
    fn put(&mut self, piece: &[u8]) -> Result<(), Failed>
        ensures appended { OnOk result (IsTrue tells →
            written self.new ≡ written self.old ++ piece.now) }
        ensures failed { OnErr result (IsTrue tells →
            AppendsPrefix (written self.old) (written self.new) piece.now) }
        ensures cause { HasCause result (write_faults self.old) (write_faults self.new) }

        ensures kept { IsTrue tells →
            (sent self.new ≡ sent self.old) × (left self.new ≡ left self.old) }
        ensures read_faults { read_faults self.new ≡ read_faults self.old };
}
