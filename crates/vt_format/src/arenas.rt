//! Making a partition one of arenas.

ghost use Rattle.std.specs.Prelude.{◌≡◌, ◌≢◌, ◌⊎◌, ◌≤◌, ℕ, List, [], ◌∷◌, IsTrue, IfOk, IfErr, OnOk};
ghost use Rattle.vt_base.specs.Faults.{HasRisen};
ghost use Rattle.vt_base.specs.declared.mount.MountBad.{MountBad};
ghost use Rattle.vt_disk.specs.Calls.{IsSynced};
ghost use Rattle.vt_format.specs.Arenas.{FormatsArenas};
ghost use Rattle.vt_format.specs.Worked.{WorksOn};
ghost use Rattle.vt_log.specs.Formatting.{WritesInHeads};
ghost use Rattle.vt_log.specs.Logs.{IsLog};
ghost use Rattle.vt_part.specs.Layout.{layout_of};
ghost use Rattle.vt_part.specs.Parts.{disk_of, table_of};
ghost use Rattle.vt_part.specs.Table.{IsArenaSize, IsPartName, arenas_end};

use std::alloc::Global;
use vt_base::{Failed, MountBad, Text};
use vt_disk::Disk;
use vt_mount_errors::of_part;
use vt_part::{Part, partitions_stay_on_disks};
use vt_partitions::Parts;

/// Makes the partition of this file one of arenas of one size, which have no blocks, with a name of
/// its own, and gives their count. It is made where it isn't there, and grown to this length where
/// it is shorter; it is never made shorter, and has the arenas of its whole length. It is on the
/// disk when this answers.
///
/// TooSmall is the answer where there is no room for an arena, and Fault where a call fails. What
/// was made or grown before that stays so.
pub fn format_arenas<P: Parts>(
    alloc: Global,
    parts: &mut P,
    file: &Text,
    name: &Text,
    len: u64,
    arena_size: u64,
) -> Result<u32, MountBad>
    requires name { IsPartName name.now }
    requires arena_size { IsArenaSize arena_size }
    ensures worked { WorksOn P.Disk.Disk P.tells len (FormatsArenas P.Disk.Disk name.now arena_size)
        (P.faults parts.old) (P.faults parts.new) (P.standing parts.old file.now)
        (P.standing parts.new file.now) result }
    ensures others { IsTrue P.tells → (other : List ℕ) → other ≢ file.now
        → P.standing parts.new other ≡ P.standing parts.old other }
{
    let Ok(disk) = parts.part(alloc, file, Some(len)) else {
        return Err(MountBad::Fault);
    };
    let (disk, done) = make_arenas(alloc, disk, name, arena_size);
    parts.done(file, disk);
    done
}

/// Makes a disk a partition of as many arenas of one size as it has room for, which have no blocks,
/// with a name of its own, and gives their count. It gives the disk back.
pub fn make_arenas<D: Disk + Drop>(
    alloc: Global,
    mut disk: D,
    name: &Text,
    arena_size: u64,
) -> (D, Result<u32, MountBad>)
    requires name { IsPartName name.now }
    requires arena_size { IsArenaSize arena_size }
    ensures { FormatsArenas D.Disk name.now arena_size result.1 disk result.0 }
{
    partitions_stay_on_disks::<D>();
    let count = match vt_part::format(&mut disk, name, arena_size) {
        Ok(count) => count,
        Err(bad) => return (disk, Err(of_part(0, bad))),
    };
    match vt_part::mount(disk) {
        Ok(part) => empty_arenas(alloc, part, count),
        Err((bad, disk)) => (disk, Err(of_part(0, bad))),
    }
}

/// Makes a partition's arenas ones without blocks. It gives the disk back, and this count.
fn empty_arenas<D: Disk + Drop>(
    alloc: Global,
    part: Part<D>,
    count: u32,
) -> (D, Result<u32, MountBad>)
    requires room { arenas_end (table_of part) ≤ D.size (disk_of part) }
    ensures count { IfOk result.1 (λ n. n ≡ count) }
    ensures log { OnOk result.1 (IsTrue D.tells → (score_of : List ℕ → List ℕ) (c : List ℕ)
        → D.images result.0 c
        → IsLog score_of (layout_of (table_of part ∷ [])) (c ∷ []) [] 0) }
    ensures settled { OnOk result.1 (IsSynced D.Disk result.0) }
    ensures writes { WritesInHeads D.Disk (table_of part) (disk_of part) result.0 }
    ensures refused { IfErr result.1 (λ bad. (bad ≡ MountBad.NoMemory) ⊎ ((bad ≡ MountBad.Fault)
        × HasRisen (D.faults (disk_of part)) (D.faults result.0))) }
{
    let mut parts = Vec::new(alloc);
    if let Err(full) = parts.push(part) {
        return (full.value.into_devices(), Err(MountBad::NoMemory));
    }
    let done = vt_log::format(&mut parts);
    let Some(part) = parts.pop() else {
        unreachable!()
    };
    let disk = part.into_devices();
    match done {
        Ok(()) => (disk, Ok(count)),
        Err(Failed) => (disk, Err(MountBad::Fault)),
    }
}
