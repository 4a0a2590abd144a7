//! Partitions that are handed out by name.

ghost use Rattle.std.specs.Prelude.{◌≡◌, ◌≢◌, ◌≤◌, ◌<◌, ◌^◌, ℕ, Bool, IsTrue, IfOk, IfSome, OnOk, OnErr};
ghost use Rattle.std.specs.Prelude.{List};
ghost use Rattle.vt_base.specs.Faults.{HasCause};
ghost use Rattle.vt_partitions.specs.Parts.{Standing, lent, there, HandsOut, StaysThere};

use std::alloc::Global;
use vt_base::{Failed, Text};
use vt_disk::Disk;

/// Hands out partitions by name, each to one holder at a time, and takes them back.
pub trait Parts {
    /// What a partition is handed out as.
    type Disk: Disk + Drop;

    /// Whether partitions of this type tell what stands under which name. Those of the system don't.
    ghost tells: { Bool };

    /// What stands under this name, where it tells it.
    ghost standing: { Self → (name : List ℕ) → Standing Self.Disk };

    /// How many calls of `part` have failed.
    ghost faults: { Self → ℕ };

    /// Hands out the partition of this name. With a length to grow to, one that isn't there is made
    /// of zero bytes, and one that is shorter is filled up with them; none is made shorter. Failed
    /// is the answer where there is none, where it was handed out already, and where the call fails;
    /// then nothing is made, and a partition that stands there keeps its length and its bytes, so
    /// far as this type tells what stands there.
    fn part(
        &mut self,
        alloc: Global,
        name: &Text,
        grow_to: Option<u64>,
    ) -> Result<Self::Disk, Failed>
        ensures grown { IfOk result (λ disk.
            IfSome grow_to (λ least. least ≤ Self.Disk.size disk)) }
        ensures found { IfOk result (λ disk. IsTrue tells
            → HandsOut Self.Disk.Disk (standing self.old name.now) grow_to disk) }
        ensures lent { OnOk result (IsTrue tells → standing self.new name.now ≡ lent) }
        ensures stays { OnErr result (IsTrue tells → StaysThere Self.Disk.Disk
            (standing self.old name.now) (standing self.new name.now)) }
        ensures others { IsTrue tells → (other : List ℕ) → other ≢ name.now
            → standing self.new other ≡ standing self.old other }
        ensures cause { HasCause result (faults self.old) (faults self.new) };

    /// Takes back the partition that was handed out under this name.
    fn done(&mut self, name: &Text, disk: Self::Disk)
        ensures back { IsTrue tells → standing self.old name.now ≡ lent
            → standing self.new name.now ≡ there disk }
        ensures others { IsTrue tells → (other : List ℕ) → other ≢ name.now
            → standing self.new other ≡ standing self.old other }
        ensures faults { faults self.new ≡ faults self.old };

    /// A count of failed calls is a u64.
    ghost faults_fit: { (parts : Self) → faults parts < 2 ^ 64 };
}
