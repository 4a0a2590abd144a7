//! The trait of a disk.

ghost use Rattle.std.specs.Prelude.{◌≡◌, ◌+◌, ◌^◌, ◌<◌, ◌≤◌, ℕ, Bool, List, length, IsTrue, OnOk};
ghost use Rattle.vt_base.specs.Bytes.{AreBytes};
ghost use Rattle.vt_disk.specs.Disk.{Touches, SameBut, part, with_bytes, AreAmong, ChangesAt, Only, IsOneMore};
ghost use Rattle.vt_base.specs.Faults.{HasCause};

use vt_base::Failed;

/// A disk of a fixed length, read and written at any place, whose writes may be lost until they are
/// synced.
///
/// What a crash may leave, its images, is bounded from above: a disk that loses less than the
/// clauses allow, or that fails each call from some moment on and touches nothing more, is a right
/// one. At a moment within a call a crash leaves what it may leave before the call or after it; so,
/// within a write, failed or not, what it may leave after it, and within a read or a sync, what it
/// may leave before it.
pub trait Disk {
    /// Whether disks of this type tell what they hold. A file of the operating system doesn't.
    ghost tells: { Bool };

    /// How many bytes it has.
    ghost size: { Self → ℕ };

    /// The bytes that a read gives, where it tells them.
    ghost bytes: { Self → List ℕ };

    /// What a crash at this moment may leave.
    ghost images: { Self → List ℕ → Type 0 };

    /// How many reads, writes and syncs were made, where it tells what it holds.
    ghost calls: { Self → ℕ };

    /// How many calls have failed.
    ghost faults: { Self → ℕ };

    /// How many bytes the disk has. It never changes, and asking it is no call that is counted.
    fn len(&self) -> u64
        ensures { result ≡ size self.now };

    /// Fills the buffer with the bytes from this place on.
    fn read_at(&mut self, start: u64, buf: &mut [u8]) -> Result<(), Failed>
        requires { start + length buf.old ≤ size self.old }
        ensures read { OnOk result (IsTrue tells
            → buf.new ≡ part start (length buf.old) (bytes self.old)) }
        ensures bytes { bytes self.new ≡ bytes self.old }
        ensures images { AreAmong (images self.new) (images self.old) }
        ensures size { size self.new ≡ size self.old }
        ensures calls { IsTrue tells → IsOneMore (calls self.old) (calls self.new) }
        ensures cause { HasCause result (faults self.old) (faults self.new) };

    /// Writes over what is there. One that fails may have changed any of what it touches.
    fn write_at(&mut self, start: u64, chunk: &[u8]) -> Result<(), Failed>
        requires { start + length chunk.now ≤ size self.old }
        ensures written { OnOk result (IsTrue tells
            → bytes self.new ≡ with_bytes start chunk.now (bytes self.old)) }
        ensures others { IsTrue tells
            → SameBut (Touches start (length chunk.now)) (bytes self.old) (bytes self.new) }

        // A crash may leave what it might leave before, with anything where the write touches.
        // Since the write's start is a moment within it, what a crash might leave before it may
        // leave afterwards.
        ensures images { ChangesAt (Touches start (length chunk.now))
            (images self.old) (images self.new) }
        ensures kept { AreAmong (images self.old) (images self.new) }

        ensures size { size self.new ≡ size self.old }
        ensures calls { IsTrue tells → IsOneMore (calls self.old) (calls self.new) }
        ensures cause { HasCause result (faults self.old) (faults self.new) };

    /// After it, a crash leaves what a read gives. After one that
    /// fails, it leaves nothing that it could not leave before.
    fn sync(&mut self) -> Result<(), Failed>
        ensures settled { OnOk result (IsTrue tells → Only (bytes self.old) (images self.new)) }
        ensures bytes { bytes self.new ≡ bytes self.old }
        ensures images { AreAmong (images self.new) (images self.old) }
        ensures size { size self.new ≡ size self.old }
        ensures calls { IsTrue tells → IsOneMore (calls self.old) (calls self.new) }
        ensures cause { HasCause result (faults self.old) (faults self.new) };

    /// A length is a u64.
    ghost size_fits: { (disk : Self) → size disk < 2 ^ 64 };

    /// A count of failed calls is a u64.
    ghost faults_fit: { (disk : Self) → faults disk < 2 ^ 64 };

    /// A crash may leave what a read gives.
    ghost read_is_image: { (disk : Self) → IsTrue tells → images disk (bytes disk) };

    /// A crash leaves as many bytes.
    ghost images_fit: { (disk : Self) (c : List ℕ) → images disk c
        → (length c ≡ size disk) × AreBytes c };
}
