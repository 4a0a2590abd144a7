//! The store of a rehearsal: its shape, its caches, and how it is mounted.

ghost use Rattle.std.specs.Prelude.{◌+◌, ◌^◌, ◌<◌, ◌≤◌, All, IfOk, length};
ghost use Rattle.vt_base.specs.declared.mount.MountBad.{MountBad};
ghost use Rattle.vt_core.specs.Mounting.{MountsStore, devices_in, tables_in};
ghost use Rattle.vt_log.specs.Logs.{arena_count};
ghost use Rattle.vt_part.specs.Parts.{disk_of, table_of};
ghost use Rattle.vt_part.specs.Table.{arenas_end};
ghost use Rattle.vt_rehearse.specs.Crashed.{CanBeMounted};
ghost use Rattle.vt_rehearse.specs.Shape.{the_sizes};
ghost use Rattle.vt_rehearse.specs.Stage.{IsMemory};
ghost use Rattle.vt_rehearse.specs.declared.TheConstants.{SESSIONS};

use crate::SESSIONS;
use std::alloc::{AllocError, Global};
use vt_base::{MountBad, Scorer};
use vt_core::Core;
use vt_disk::Disk;
use vt_empty::Shape;
use vt_recover::Devices;
use vt_shard::Sizes;

/// Three arenas, two sections of one bucket, and a filter.
pub(crate) const SHAPE: Shape = Shape {
    arenas: 3,
    arena_len: 32_768,
    sections: 2,
    buckets: 1,
    filter: 8_192,
    positions: 4,
};

/// How many blocks and how many entries that are on its disk each shard keeps in memory.
const SIZES: Sizes = Sizes {
    lumps: 16,
    clean: 16,
};

/// Mounts a store.
pub(crate) fn open<D: Disk + Drop, S: Scorer + Drop>(
    alloc: Global,
    devices: Devices<D>,
    scorer: S,
) -> Result<Core<D, S>, AllocError>
    requires memory { IsMemory D.Disk }
    requires many { length devices.parts.items + length devices.sections.items + 1 < 2 ^ 32 }
    requires rooms { All (λ part. arenas_end (table_of part) ≤ D.size (disk_of part))
        devices.parts.items }
    requires some_arena { 0 < arena_count (tables_in devices) }
    requires some_section { 0 < length devices.sections.items }
    requires log { CanBeMounted S.score_of D.Disk (tables_in devices) (devices_in devices) }
    ensures { IfOk result (MountsStore S.score_of D.Disk (tables_in devices) (devices_in devices)
        the_sizes SESSIONS) }
{
    match Core::mount(alloc, devices, SIZES, SESSIONS, scorer) {
        Ok(core) => Ok(core),
        Err((bad, _)) => match bad {
            MountBad::NoMemory => Err(AllocError),
            _ => unreachable!(),
        },
    }
}
