//! A store without blocks, in memory.

ghost use Rattle.std.specs.Prelude.{◌≡◌, ◌⊎◌, ◌<◌, IfOk, IsTrue, List, map};
ghost use Rattle.vt_base.specs.declared.mount.MountBad.{MountBad};
ghost use Rattle.vt_recover.specs.Refusals.{CountsRefusal};
ghost use Rattle.vt_empty.specs.Shape.{IsShape};
ghost use Rattle.vt_empty.specs.Store.{IsFreshStore};

use crate::devices::fresh_devices;
use crate::shape::Shape;
use std::alloc::{AllocError, Global};
use vt_base::{MountBad, Scorer};
use vt_bloom::{crash_gives_old_or_new, saved_filters_are_told_apart};
use vt_core::Core;
use vt_disk::Disk;
use vt_memdisk::MemDisk;
use vt_shard::Sizes;

/// A store of this shape without blocks, on disks in memory, of which no call fails. There is room
/// for so many sessions, and each shard keeps as much in memory as `sizes` say.
pub fn fresh_store<S: Scorer + Drop>(
    alloc: Global,
    shape: &Shape,
    sizes: Sizes,
    sessions: u32,
    scorer: S,
) -> Result<Core<MemDisk, S>, AllocError>
    requires shape { IsShape shape.now }
    requires lumps { 0 < sizes.lumps }
    requires clean { 0 < sizes.clean }
    ensures { IfOk result
        (IsFreshStore S.score_of ⟦<MemDisk as Disk>⟧ shape.now sizes sessions) }
{
    saved_filters_are_told_apart();
    crash_gives_old_or_new::<MemDisk>();
    what_is_read_is_an_image::<MemDisk>();
    memory_is_the_only_refusal::<MemDisk>();
    let devices = fresh_devices(alloc, shape)?;
    match Core::mount(alloc, devices, sizes, sessions, scorer) {
        Ok(core) => Ok(core),
        Err((bad, _)) => match bad {
            MountBad::NoMemory => Err(AllocError),
            _ => unreachable!(),
        },
    }
}

/// What is read of a disk is what a crash may leave of it.
fn what_is_read_is_an_image<D: Disk>()
    ensures { (disk : D) → IsTrue D.tells → D.images disk (D.bytes disk) }
{}

/// Where no call fails, a store that can be mounted is refused for want of memory alone.
fn memory_is_the_only_refusal<D: Disk>()
    ensures { (bad : MountBad) (old new : List D) → ((disk : D) → D.faults disk ≡ 0)
        → CountsRefusal bad (map D.faults old) (map D.faults new)
        → (bad ≡ MountBad.Fault) ⊎ (bad ≡ MountBad.NoMemory) → bad ≡ MountBad.NoMemory }
{}
