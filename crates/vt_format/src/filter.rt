//! Making a partition a Bloom filter.

ghost use Rattle.std.specs.Prelude.{◌≡◌, ◌≢◌, ◌≤◌, ℕ, List, IsTrue};
ghost use Rattle.vt_bloom.specs.Size.{IsFilterSize, filter_len};
ghost use Rattle.vt_format.specs.Filters.{FormatsFilter};
ghost use Rattle.vt_format.specs.Worked.{WorksOn};

use crate::MOST_POSITIONS;
use std::alloc::Global;
use vt_base::{MountBad, Text};
use vt_disk::{BLOCK_LEN, Disk};
use vt_mount_errors::of_filter;
use vt_partitions::Parts;

/// Makes the partition of this file a Bloom filter of this many bytes, of which each score has so
/// many bits, none of them set. It is made where it isn't there, and grown to the length of such a
/// filter where it is shorter; it is never made shorter. It is on the disk when this answers.
///
/// Disagree is the answer, with field M, where its length wants another size of filter, and Fault
/// where a call fails. What was made or grown before that stays so.
pub fn format_filter<P: Parts>(
    alloc: Global,
    parts: &mut P,
    file: &Text,
    size: u64,
    positions: u8,
) -> Result<(), MountBad>
    requires size { (m : ℕ) × IsFilterSize m size }
    requires some { 1 ≤ positions }
    requires most { positions ≤ MOST_POSITIONS }
    ensures worked { (m : ℕ) → IsFilterSize m size
        → WorksOn P.Disk.Disk P.tells (filter_len m) (FormatsFilter P.Disk.Disk m positions)
        (P.faults parts.old) (P.faults parts.new) (P.standing parts.old file.now)
        (P.standing parts.new file.now) result }
    ensures others { IsTrue P.tells → (other : List ℕ) → other ≢ file.now
        → P.standing parts.new other ≡ P.standing parts.old other }
{
    // (two frames, each a block and the filter's bytes, and a block for the selector)
    let len = 2 * (BLOCK_LEN as u64 + size) + BLOCK_LEN as u64;
    let Ok(mut disk) = parts.part(alloc, file, Some(len)) else {
        return Err(MountBad::Fault);
    };
    let done = make_filter(alloc, &mut disk, size, positions);
    parts.done(file, disk);
    done
}

/// Makes a disk a filter of this many bytes, of which each score has so many bits, none of them
/// set.
pub fn make_filter<D: Disk>(
    alloc: Global,
    disk: &mut D,
    size: u64,
    positions: u8,
) -> Result<(), MountBad>
    requires size { (m : ℕ) × IsFilterSize m size }
    requires some { 1 ≤ positions }
    requires most { positions ≤ MOST_POSITIONS }
    requires room { (m : ℕ) → IsFilterSize m size → filter_len m ≤ D.size disk.old }
    ensures { (m : ℕ) → IsFilterSize m size
        → FormatsFilter D.Disk m positions result disk.old disk.new }
{
    match vt_bloom::format(alloc, disk, size, positions) {
        Ok(()) => Ok(()),
        Err(bad) => Err(of_filter(0, bad)),
    }
}
