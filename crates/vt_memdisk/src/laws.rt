//! Laws of disks in memory: what a crash leaves is what the model says, and all that it says. No
//! code calls them: they check the definitions.

ghost use Rattle.std.specs.Prelude.{◌≡◌, ◌↔◌, ◌+◌, ◌≤◌, ℕ, Bool, List, IsTrue, length};
ghost use Rattle.vt_base.specs.Bytes.{AreBytes};
ghost use Rattle.vt_disk.specs.Disk.{Touches, SameBut, Only, with_bytes};
ghost use Rattle.vt_memdisk.specs.Cells.{NonePending, IsCombination, chosen};
ghost use Rattle.vt_memdisk.specs.Memory.{memory_bytes, memory_synced, memory_pending, memory_plan};
ghost use Rattle.vt_memdisk.specs.Writes.{Written, LeftBy, AreUnsynced};
ghost use Rattle.vt_memdisk.specs.declared.mem_disk.MemDisk.{MemDisk};

use crate::{MemDisk, Plan};
use vt_disk::Disk;

/// A disk in memory, in the words of the trait: its images are the synced bytes, with any bytes
/// where one is pending.
pub fn memory_as_a_disk<P: Plan>()
    ensures tells { IsTrue ⟦<MemDisk<P> as Disk>⟧.tells }
    ensures size { (disk : MemDisk P)
        → ⟦<MemDisk<P> as Disk>⟧.size disk ≡ length (memory_bytes disk) }
    ensures bytes { (disk : MemDisk P) → ⟦<MemDisk<P> as Disk>⟧.bytes disk ≡ memory_bytes disk }
    ensures images { (disk : MemDisk P) (file : List ℕ) → ⟦<MemDisk<P> as Disk>⟧.images disk file
        ↔ IsCombination (memory_synced disk) (memory_pending disk) file }
    ensures calls { (disk : MemDisk P)
        → ⟦<MemDisk<P> as Disk>⟧.calls disk ≡ P.calls (memory_plan disk) }
    ensures faults { (disk : MemDisk P)
        → ⟦<MemDisk<P> as Disk>⟧.faults disk ≡ P.faults (memory_plan disk) }
{}

/// Each image is what `crash` leaves at some choice of bytes.
pub fn each_image_is_chosen<P: Plan>()
    ensures { (disk : MemDisk P) (file : List ℕ) → ⟦<MemDisk<P> as Disk>⟧.images disk file
        → (choice : List ℕ) × AreBytes choice
        × (chosen (memory_pending disk) (memory_synced disk) (memory_bytes disk) choice ≡ file) }
{}

/// What the writes since the last sync may leave, each of them lost, torn or late: the images, and
/// nothing else.
pub fn unsynced_writes()
    ensures left { (writes : List Written) (synced : List ℕ) (pending : List Bool)
        → AreUnsynced writes synced pending
        → (file : List ℕ) → AreBytes file → LeftBy writes synced file
        → IsCombination synced pending file }
    ensures image { (writes : List Written) (synced : List ℕ) (pending : List Bool)
        → AreBytes synced → AreUnsynced writes synced pending
        → (file : List ℕ) → IsCombination synced pending file → LeftBy writes synced file }

    // A write that lands whole is one of the ways in which a write changes what it touches.
    ensures whole { (start : ℕ) (chunk file : List ℕ) → start + length chunk ≤ length file
        → SameBut (Touches start (length chunk)) file (with_bytes start chunk file) }
{}

/// After a sync, and until the next write, there is one image.
pub fn nothing_pending()
    ensures { (synced : List ℕ) (pending : List Bool) → NonePending pending
        → Only synced (IsCombination synced pending) }
{}
