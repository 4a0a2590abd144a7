//! Opening the partitions that a configuration names.

ghost use Rattle.std.specs.Prelude.{◌≡◌, ◌≤◌};
ghost use Rattle.vt_base.specs.declared.mount.MountBad.{MountBad};
ghost use Rattle.vt_format.specs.Opening.{OpensArenas, OpensSavedFilter, OpensSection, index_error};

use crate::index::IndexError;
use crate::{MAX_ARENAS, MAX_BUCKETS};
use std::alloc::Global;
use vt_base::{MountBad, MountField};
use vt_bloom::Bloom;
use vt_disk::Disk;
use vt_isect::Section;
use vt_mount_errors::{of_filter, of_part, of_section};
use vt_part::Part;

/// Mounts a partition of arenas, which has this number and stands behind so many arenas. More than
/// 4,096 arenas are refused. A refusal hands the disk back.
pub(crate) fn open_arenas<D: Disk>(
    disk: D,
    number: u32,
    before: u32,
) -> Result<Part<D>, (IndexError, D)>
    requires { before ≤ MAX_ARENAS }
    ensures { OpensArenas D.Disk number before disk result }
{
    let part = match vt_part::mount(disk) {
        Ok(part) => part,
        Err((bad, disk)) => return Err((index_error(Some(number), of_part(number, bad)), disk)),
    };
    let count = u64::from(before) + u64::from(part.count());
    if count > MAX_ARENAS {
        let bad = too_many(number, MountField::Arenas, count, MAX_ARENAS);
        return Err((bad, part.into_devices()));
    }
    Ok(part)
}

/// Mounts an index section, which has this number and stands behind so many buckets. More than
/// 1,048,576 buckets are refused.
pub(crate) fn open_section<D: Disk>(
    alloc: Global,
    disk: D,
    number: u32,
    before: u32,
) -> Result<Section<D>, (IndexError, D)>
    requires { before ≤ MAX_BUCKETS }
    ensures { OpensSection D.Disk number before disk result }
{
    let section = match vt_isect::mount(alloc, disk) {
        Ok(section) => section,
        Err((bad, disk)) => return Err((index_error(Some(number), of_section(number, bad)), disk)),
    };
    let count = u64::from(before) + u64::from(section.buckets());
    if count > MAX_BUCKETS {
        let bad = too_many(number, MountField::Buckets, count, MAX_BUCKETS);
        return Err((bad, section.into_devices()));
    }
    Ok(section)
}

/// Mounts a Bloom filter, which has this number.
pub(crate) fn open_filter<D: Disk>(
    alloc: Global,
    disk: D,
    number: u32,
) -> Result<Bloom<D>, (IndexError, D)>
    ensures { OpensSavedFilter D.Disk number disk result }
{
    match vt_bloom::mount(alloc, disk) {
        Ok((filter, _bits)) => Ok(filter),
        Err((bad, disk)) => Err((index_error(Some(number), of_filter(number, bad)), disk)),
    }
}

/// Why an index can't be formatted, where this is why the partition of this number can't be
/// mounted.
pub(crate) fn index_error(part: Option<u32>, bad: MountBad) -> IndexError
    ensures { result ≡ index_error part bad }
{
    match bad {
        MountBad::Fault => IndexError::Fault { part },
        bad => IndexError::Refused(bad),
    }
}

/// The refusal that names a part's field, what it holds and what it had to hold.
fn too_many(part: u32, field: MountField, found: u64, want: u64) -> IndexError
    ensures { result ≡ IndexError.Refused (MountBad.Disagree part field found want) }
{
    IndexError::Refused(MountBad::Disagree {
        part,
        field,
        found: u128::from(found),
        want: u128::from(want),
    })
}
