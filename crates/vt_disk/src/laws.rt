//! Laws of disks, each the contract of a function that does nothing: what a crash leaves at a moment
//! within a call, by what it may leave of the disk before the call (`old`) and after it (`new`).

ghost use Rattle.vt_disk.specs.Disk.{AreAmong, WithinCall};

use crate::Disk;

/// Where a call leaves each image that there was, as a write does, a crash within the call leaves
/// what it may leave after it; where a call brings no image, as a read and a sync do, what it may
/// leave before it.
pub fn moments_within_calls<D: Disk>()
    ensures write { (old new : D) → AreAmong (D.images old) (D.images new)
        → AreAmong (WithinCall (D.images old) (D.images new)) (D.images new) }
    ensures read_or_sync { (old new : D) → AreAmong (D.images new) (D.images old)
        → AreAmong (WithinCall (D.images old) (D.images new)) (D.images old) }
{}
