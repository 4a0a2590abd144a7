//! Index sections without entries, in memory.

ghost use Rattle.std.specs.Prelude.{◌≡◌, ◌*◌, ◌<◌, ◌≤◌, IfOk, IsTrue, length, map, replicate};
ghost use Rattle.std.specs.List.{All};
ghost use Rattle.vt_empty.specs.Formatted.{AreUnfilled};
ghost use Rattle.vt_empty.specs.Sections.{AreSections, IsSectionOf, len_for};
ghost use Rattle.vt_isect.specs.declared.TheConstants.{LEAST_LEN};
ghost use Rattle.vt_isect.specs.Layout.{buckets_in};
ghost use Rattle.vt_memdisk.specs.Memory.{memory_bytes};

use std::alloc::{AllocError, Global};
use vt_base::Text;
use vt_disk::Disk;
use vt_format::{MAX_BUCKETS, make_section, put_all_to_use};
use vt_isect::{BUCKET_PLACE_LEN, HEAD_PLACE_LEN, SectBad, Section};
use vt_memdisk::MemDisk;
use vt_out::Silent;

/// The disks of so many sections of so many buckets each. They are in use, one behind the other,
/// and have no entries.
pub fn fresh_sections(alloc: Global, count: u32, buckets: u32) -> Result<Vec<MemDisk>, AllocError>
    requires some { 0 < buckets }
    requires most { count * buckets ≤ MAX_BUCKETS }
    ensures unfilled { IfOk result
        (λ disks. AreUnfilled ⟦<MemDisk as Disk>⟧ 0 (count * buckets) disks.items) }
    ensures buckets { IfOk result (λ disks.
        map (λ disk. buckets_in (⟦<MemDisk as Disk>⟧.size disk)) disks.items
        ≡ replicate count buckets) }
{
    let len = HEAD_PLACE_LEN + BUCKET_PLACE_LEN * u64::from(buckets);
    let disks = make_disks(alloc, count, len)?;
    put_sections(alloc, disks, buckets)
}

/// So many disks of this length.
fn make_disks(alloc: Global, count: u32, len: u64) -> Result<Vec<MemDisk>, AllocError>
    ensures many { IfOk result (λ disks. length disks.items ≡ count) }
    ensures len { IfOk result
        (λ disks. All (λ disk. length (memory_bytes disk) ≡ len) disks.items) }
{
    let mut disks = Vec::with_capacity(alloc, count as usize)?;
    for _ in 0..count {
        disks.push(MemDisk::new(alloc, len)?)?;
    }
    Ok(disks)
}

/// Makes sections of these disks, of so many buckets each, puts them to use, and gives the disks
/// back.
fn put_sections<D: Disk + Drop>(
    alloc: Global,
    disks: Vec<D>,
    buckets: u32,
) -> Result<Vec<D>, AllocError>
    requires tells { IsTrue D.tells }
    requires never { (disk : D) → D.faults disk ≡ 0 }
    requires some { 0 < buckets }
    requires most { length disks.items * buckets ≤ MAX_BUCKETS }
    requires len { All (λ disk. D.size disk ≡ len_for buckets) disks.items }
    ensures unfilled { IfOk result
        (λ it. AreUnfilled D.Disk 0 (length disks.items * buckets) it.items) }
    ensures buckets { IfOk result (λ it. map (λ disk. buckets_in (D.size disk)) it.items
        ≡ replicate (length disks.items) buckets) }
{
    let mut sections = make_sections(alloc, disks, buckets)?;
    let Ok(_) = put_all_to_use(&mut sections, &mut Silent) else {
        unreachable!()
    };
    disks_of(alloc, sections)
}

/// Sections of so many buckets each on these disks, which aren't in use yet.
fn make_sections<D: Disk + Drop>(
    alloc: Global,
    mut disks: Vec<D>,
    buckets: u32,
) -> Result<Vec<Section<D>>, AllocError>
    requires tells { IsTrue D.tells }
    requires never { (disk : D) → D.faults disk ≡ 0 }
    requires some { 0 < buckets }
    requires len { All (λ disk. D.size disk ≡ len_for buckets) disks.items }
    ensures { IfOk result
        (λ sections. AreSections D.Disk (length disks.items) buckets sections.items) }
{
    let mut sections = Vec::with_capacity(alloc, disks.len())?;
    while let Some(disk) = disks.pop() {
        sections.push(fresh_section(alloc, disk)?)?;
    }
    Ok(sections)
}

/// The disk as a section that isn't in use yet.
fn fresh_section<D: Disk + Drop>(alloc: Global, mut disk: D) -> Result<Section<D>, AllocError>
    requires tells { IsTrue D.tells }
    requires never { (disk : D) → D.faults disk ≡ 0 }
    requires room { LEAST_LEN ≤ D.size disk }
    ensures { IfOk result (IsSectionOf D.Disk (D.size disk)) }
{
    let name = Text::copy_of(alloc, b"section")?;
    let Ok(_) = make_section(&mut disk, &name) else {
        unreachable!()
    };
    match vt_isect::mount(alloc, disk) {
        Ok(section) => Ok(section),
        Err((bad, _)) => match bad {
            SectBad::NoMemory => Err(AllocError),
            _ => unreachable!(),
        },
    }
}

/// The disks of sections, in order.
fn disks_of<D: Disk + Drop>(
    alloc: Global,
    mut sections: Vec<Section<D>>,
) -> Result<Vec<D>, AllocError>
    ensures { IfOk result (λ disks. disks.items ≡ map (λ section. section.disk) sections.items) }
{
    let mut disks = Vec::with_capacity(alloc, sections.len())?;
    while let Some(section) = sections.pop() {
        disks.push_reserved(section.into_devices());
    }
    disks.reverse();
    Ok(disks)
}
