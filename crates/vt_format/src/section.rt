//! Making a partition an index section.

ghost use Rattle.std.specs.Prelude.{◌≡◌, ◌≢◌, ℕ, List, IsTrue};
ghost use Rattle.vt_format.specs.Sections.{FormatsSection};
ghost use Rattle.vt_format.specs.Worked.{WorksOn};
ghost use Rattle.vt_part.specs.Table.{IsPartName};

use std::alloc::Global;
use vt_base::{MountBad, Text};
use vt_disk::Disk;
use vt_mount_errors::of_section;
use vt_partitions::Parts;

/// Makes the partition of this file an index section that isn't in use yet, with a name of its own,
/// and gives the count of its buckets. It is made where it isn't there, and grown to this length
/// where it is shorter; it is never made shorter, and has the buckets of its whole length. It is on
/// the disk when this answers.
///
/// TooSmall is the answer where there is no room for a bucket, and Fault where a call fails. What
/// was made or grown before that stays so.
pub fn format_section<P: Parts>(
    alloc: Global,
    parts: &mut P,
    file: &Text,
    name: &Text,
    len: u64,
) -> Result<u32, MountBad>
    requires name { IsPartName name.now }
    ensures worked { WorksOn P.Disk.Disk P.tells len (FormatsSection P.Disk.Disk name.now)
        (P.faults parts.old) (P.faults parts.new) (P.standing parts.old file.now)
        (P.standing parts.new file.now) result }
    ensures others { IsTrue P.tells → (other : List ℕ) → other ≢ file.now
        → P.standing parts.new other ≡ P.standing parts.old other }
{
    let Ok(mut disk) = parts.part(alloc, file, Some(len)) else {
        return Err(MountBad::Fault);
    };
    let done = make_section(&mut disk, name);
    parts.done(file, disk);
    done
}

/// Makes a disk a section that isn't in use yet, with a name of its own, and gives the count of its
/// buckets.
pub fn make_section<D: Disk>(disk: &mut D, name: &Text) -> Result<u32, MountBad>
    requires name { IsPartName name.now }
    ensures { FormatsSection D.Disk name.now result disk.old disk.new }
{
    match vt_isect::format(disk, name) {
        Ok(count) => Ok(count),
        Err(bad) => Err(of_section(0, bad)),
    }
}
